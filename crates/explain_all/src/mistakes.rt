//! The mistakes of a text: the first one, and the others that can be reported without a guess.
ghost use Rattle.std.specs.Prelude.{IfOk, MatchOption};
ghost use Rattle.explain_refusals.specs.Verdicts.{IsRefusedAt, IsScript};

use crate::reading::add_unread;
use crate::typing::add_ill_typed;
use crate::variables::add_not_single;
pub use explain_refusals::diagnostic::Diagnostic;
use explain_refusals::diagnostic::refusal_of;
pub use explain_refusals::explanation::{Hint, Note};
use std::alloc::{AllocError, Global};

/// The maximum number of mistakes that are reported, with the first one.
pub const MAX_REPORTED: usize = 20;

/// The part of the check that refuses a text.
#[derive(Clone, Copy, Debug, PartialEq, Eq)]
pub enum Stage {
    /// The text is not read as a script (L1 to L5, P2 to P4).
    Reading,
    /// A rule of types or names is broken (Y1 to Y6).
    Typing,
    /// A rule of single assignment is broken (S1 to S6).
    Assigning,
}

/// The mistakes after the first one: those that are reported, the number of others, and whether the search ended
/// before the text was mended.
#[derive(Debug, Drop)]
pub struct FurtherMistakes {
    pub reported: Vec<Diagnostic>,
    pub more: usize,
    pub is_cut: bool,
}

/// The mistakes of a refused text.
#[derive(Debug, Drop)]
pub struct Mistakes {
    pub first: Diagnostic,
    pub further: FurtherMistakes,
}

impl FurtherMistakes {
    /// Adds a mistake to those that are reported, in the order of the text, or counts it if there are enough.
    ///
    /// # Errors
    ///
    /// Returns `AllocError` if an allocation fails.
    pub fn add(&mut self, mistake: Diagnostic) -> Result<(), AllocError> {
        if self.reported.len() < MAX_REPORTED - 1 {
            let mut place: usize = 0;
            for earlier in &self.reported {
                if earlier.at.from <= mistake.at.from {
                    place = place.saturating_add(1);
                }
            }
            self.reported
                .insert(place.min(self.reported.len()), mistake)?;
        } else {
            self.more = self.more.saturating_add(1);
        }
        Ok(())
    }
}

/// Returns the part of the check that found a refusal.
pub fn stage_of(refusal: &Diagnostic) -> Stage {
    match letter_of(refusal, 0) {
        b'Y' => Stage::Typing,
        b'S' => Stage::Assigning,
        _ => Stage::Reading,
    }
}

/// Returns a letter of the number of the broken rule, as the `Y` and the `3` of Y3, or 0 beyond the end.
pub fn letter_of(refusal: &Diagnostic, index: usize) -> u8 {
    match refusal.rule.as_bytes().get(index) {
        Some(letter) => *letter,
        None => 0,
    }
}

/// Returns the mistakes of a text, or `None` if the text is accepted.
///
/// The first one is the refusal of the text. The others break rules of the same part of the check.
///
/// # Errors
///
/// Returns `AllocError` if an allocation fails.
pub fn mistakes_of(alloc: Global, text: &[u8]) -> Result<Option<Mistakes>, AllocError>
    ensures { IfOk result (λ found. MatchOption found (IsScript text.now) (λ all. IsRefusedAt text.now all.first.at)) }
{
    match refusal_of(alloc, text)? {
        None => Ok(None),
        Some(first) => {
            let further = further_of(alloc, text, &first)?;
            Ok(Some(Mistakes { first, further }))
        }
    }
}

/// Returns the mistakes after the first one.
fn further_of(
    alloc: Global,
    text: &[u8],
    first: &Diagnostic,
) -> Result<FurtherMistakes, AllocError> {
    let mut found = FurtherMistakes {
        reported: Vec::new(alloc),
        more: 0,
        is_cut: false,
    };
    match stage_of(first) {
        Stage::Reading => add_unread(alloc, text, first.at, &mut found)?,
        Stage::Typing => add_ill_typed(alloc, text, first, &mut found)?,
        Stage::Assigning => add_not_single(alloc, text, first, &mut found)?,
    }
    Ok(found)
}
