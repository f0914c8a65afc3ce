//! Hints about a token that is not allowed at its place.
//!
//! The rules are tried in a fixed order, and the first hint is used. Words come first, then the form of the statement,
//! then operators and missing tokens.

use crate::advice::Advice;
use crate::comments::nested;
use crate::form_rules::FORM_RULES;
use crate::keywords::near_keyword;
use crate::rules::first_hint;
use crate::sign_rules::{END_RULES, SIGN_RULES};
use crate::token_context::TokenContext;
use crate::word_rules::WORD_RULES;
use std::alloc::{AllocError, Global};

/// Returns a hint about the token that begins at an offset, or about a token that is missing at the end of the text.
///
/// # Errors
///
/// Returns `AllocError` if an allocation fails.
pub fn on_unexpected(alloc: Global, text: &[u8], at: usize) -> Result<Option<Advice>, AllocError> {
    let around = TokenContext::new(alloc, text, at)?;
    if let Some(advice) = nested(&around).or(first_hint(WORD_RULES, &around)) {
        return Ok(Some(advice));
    }
    if let Some(advice) = near_keyword(alloc, &around)? {
        return Ok(Some(advice));
    }
    let by_form = first_hint(FORM_RULES, &around).or(first_hint(SIGN_RULES, &around));
    Ok(by_form.or(first_hint(END_RULES, &around)))
}
