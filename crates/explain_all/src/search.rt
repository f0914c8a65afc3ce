//! The search for further mistakes: checks of a text of which more and more parts are replaced.

use crate::mended_text::MendedText;
use explain_refusals::diagnostic::{Diagnostic, refusal_of};
use explain_refusals::explanation::Explanation;
use std::alloc::{AllocError, Global};

/// The maximum number of checks.
pub const MAX_CHECKS: usize = 400;
/// The maximum number of bytes that all checks read.
const MAX_BYTES: usize = 4_000_000;

/// A mended text, and the number of checks that are left.
#[derive(Drop)]
pub struct Search<'t> {
    pub alloc: Global,
    pub mended: MendedText<'t>,
    pub checks: usize,
}

/// Returns the number of checks that a text of this length gets.
fn checks_for(length: usize) -> usize {
    if length == 0 {
        return MAX_CHECKS;
    }
    let by_bytes = MAX_BYTES / length;
    by_bytes.min(MAX_CHECKS)
}

impl<'t> Search<'t> {
    /// Creates a search in a text without replacements.
    pub fn new(alloc: Global, text: &'t [u8]) -> Search<'t> {
        Search {
            alloc,
            mended: MendedText::new(alloc, text),
            checks: checks_for(text.len()),
        }
    }

    /// Returns true if no check is left.
    pub fn is_spent(&self) -> bool {
        self.checks == 0
    }

    /// Returns the refusal of the mended text, or `None` if it is accepted.
    ///
    /// # Errors
    ///
    /// Returns `AllocError` if an allocation fails.
    pub fn refusal(&mut self) -> Result<Option<Diagnostic>, AllocError> {
        self.checks = self.checks.saturating_sub(1);
        let bytes = self.mended.bytes()?;
        refusal_of(self.alloc, bytes.as_slice())
    }

    /// Returns a refusal of the mended text with its places in the original.
    pub fn placed(&self, refusal: Diagnostic) -> Diagnostic {
        let mut placed = refusal;
        placed.at = self.mended.original_place(placed.at);
        self.place_explanation(&mut placed.told);
        placed
    }

    /// Replaces the places of an explanation by those in the original.
    fn place_explanation(&self, told: &mut Explanation) {
        if let Some(note) = &mut told.note {
            note.at = self.mended.original_place(note.at);
        }
        if let Some(hint) = &mut told.hint {
            if let Some(at) = hint.at {
                hint.at = Some(self.mended.original_place(at));
            }
        }
    }
}
