//! Hints about misspelt keywords.

use crate::advice::Advice;
use crate::definitions::is_defined;
use crate::nearest::nearer;
use crate::rules::entry_of;
use crate::token_context::TokenContext;
use lexer::token::TokenKind;
use std::alloc::{AllocError, Global};

/// The keywords that begin a statement or continue one after a block. A line is `WORD -> HINT`.
static KEYWORDS: &str = r#"
foreach -> did you mean foreach?
if -> did you mean if?
else -> did you mean else?
wait -> did you mean wait?
int -> did you mean int?
string -> did you mean string?
boolean -> did you mean boolean?
import -> did you mean import?
"#;

/// Returns a hint if the first word of the statement resembles a keyword, and is not a variable or a function of the
/// script.
///
/// # Errors
///
/// Returns `AllocError` if an allocation fails.
pub fn near_keyword(
    alloc: Global,
    around: &TokenContext<'_>,
) -> Result<Option<Advice>, AllocError> {
    let word = around.first.text;
    if around.first.kind != TokenKind::Name || !is_new(around) {
        return Ok(None);
    }
    let mut found = None;
    for line in KEYWORDS.lines() {
        if let Some((keyword, _)) = line.split_once(" -> ") {
            found = nearer(alloc, word, found, keyword.as_bytes())?;
        }
    }
    let Some(near) = found else {
        return Ok(None);
    };
    match entry_of(KEYWORDS, near.name) {
        None => Ok(None),
        Some(words) => Ok(Advice::here(words)),
    }
}

/// Returns false if the first word of the statement is used as a variable, or called as `printf`, `assert` or a function
/// that the text defines; else true.
fn is_new(around: &TokenContext<'_>) -> bool {
    match around.second.kind {
        TokenKind::Assign | TokenKind::OpenSquare => false,
        TokenKind::OpenRound => {
            around.first.text != b"printf".as_slice()
                && around.first.text != b"assert".as_slice()
                && !is_defined(around.text, around.first.text)
        }
        _ => true,
    }
}
