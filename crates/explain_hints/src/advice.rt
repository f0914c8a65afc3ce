//! The hint type: a text with an optional second place.

use lexer::token::Span;

/// A hint on what to write instead, with a place if it refers to another one than the refusal.
///
/// If there is a place, the text is continued by ` at` and that place.
#[derive(Clone, Copy)]
pub struct Advice {
    pub words: &'static str,
    pub at: Option<Span>,
}

impl Advice {
    /// Creates a hint about the place of the refusal.
    pub fn here(words: &'static str) -> Option<Advice> {
        Some(Advice { words, at: None })
    }
}
