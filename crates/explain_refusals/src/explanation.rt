//! The parts of an explanation: a sentence, a related place and a hint.

use explain_hints::advice::Advice;
use lexer::token::Span;
use std::alloc::{AllocError, Global};

/// A related place, such as that of a first assignment.
#[derive(Clone, Copy, Debug, PartialEq, Eq)]
pub struct Note {
    /// The relation of the place, as `declared at`.
    pub words: &'static str,
    pub at: Span,
}

/// A hint on what to write instead, with a place if it refers to another one than the refusal.
#[derive(Debug)]
pub struct Hint {
    pub words: Vec<u8>,
    pub at: Option<Span>,
}

// Written out, so that an owner drops a value by one call.
impl Drop for Hint {
    fn drop(self) {
        let Hint { words: _, at: _ } = self;
    }
}

impl Hint {
    /// Returns the hint with its place replaced.
    pub fn placed(self, at: Option<Span>) -> Hint {
        let Hint { words, at: _ } = self;
        Hint { words, at }
    }

    /// Creates a hint with this text and without a place.
    pub fn plain(alloc: Global, words: &str) -> Result<Option<Hint>, AllocError> {
        let words = Vec::from_slice(alloc, words.as_bytes())?;
        Ok(Some(Hint { words, at: None }))
    }

    /// Creates a hint from a template, in which `$0`, `$1` .. are replaced by these parts.
    pub fn filled(
        alloc: Global,
        template: &str,
        parts: &[&[u8]],
    ) -> Result<Option<Hint>, AllocError> {
        let mut words = Vec::new(alloc);
        fill(&mut words, template, parts)?;
        Ok(Some(Hint { words, at: None }))
    }

    /// Creates a hint from a template, in which `$0` to `$3` are replaced by these parts.
    pub fn of_parts<'p>(
        alloc: Global,
        template: &str,
        first: &'p [u8],
        second: &'p [u8],
        third: &'p [u8],
        fourth: &'p [u8],
    ) -> Result<Option<Hint>, AllocError> {
        Hint::filled(alloc, template, &[first, second, third, fourth])
    }

    /// Converts an optional piece of advice to an optional hint.
    pub fn of(alloc: Global, advice: Option<Advice>) -> Result<Option<Hint>, AllocError> {
        match advice {
            None => Ok(None),
            Some(advice) => {
                let words = Vec::from_slice(alloc, advice.words.as_bytes())?;
                Ok(Some(Hint {
                    words,
                    at: advice.at,
                }))
            }
        }
    }
}

/// The explanation of a refusal: what is wrong, a related place if there is one, and a hint if one is known.
#[derive(Debug)]
pub struct Explanation {
    pub sentence: Vec<u8>,
    pub note: Option<Note>,
    pub hint: Option<Hint>,
}

// Written out, so that an owner drops a value by one call.
impl Drop for Explanation {
    fn drop(self) {
        let Explanation {
            sentence: _,
            note: _,
            hint: _,
        } = self;
    }
}

impl Explanation {
    /// Creates an explanation with this sentence and without a related place.
    pub fn plain(alloc: Global, words: &str) -> Result<Explanation, AllocError> {
        Ok(Explanation {
            sentence: Vec::from_slice(alloc, words.as_bytes())?,
            note: None,
            hint: None,
        })
    }

    /// Returns the explanation with its hint replaced.
    pub fn with(self, hint: Option<Hint>) -> Explanation {
        let Explanation {
            sentence,
            note,
            hint: _,
        } = self;
        Explanation {
            sentence,
            note,
            hint,
        }
    }

    /// Creates an explanation from a template of its sentence, in which `$0` is replaced by a name.
    pub fn of(
        alloc: Global,
        template: &str,
        name: &[u8],
        note: Option<Note>,
    ) -> Result<Explanation, AllocError> {
        let mut sentence = Vec::new(alloc);
        fill(&mut sentence, template, &[name])?;
        Ok(Explanation {
            sentence,
            note,
            hint: None,
        })
    }
}

/// Appends a template, in which `$0`, `$1` .. are replaced by these parts.
pub fn fill(out: &mut Vec<u8>, template: &str, parts: &[&[u8]]) -> Result<(), AllocError> {
    let mut is_part = false;
    for byte in template.as_bytes() {
        if is_part {
            out.extend_from_slice(part_of(parts, *byte))?;
            is_part = false;
        } else if *byte == b'$' {
            is_part = true;
        } else {
            out.push(*byte)?;
        }
    }
    Ok(())
}

/// Returns the part with this digit as its number, or no bytes if there is none.
fn part_of<'p>(parts: &[&'p [u8]], digit: u8) -> &'p [u8] {
    match parts.get(digit.saturating_sub(b'0') as usize) {
        Some(part) => *part,
        None => &[],
    }
}

/// Creates a note for a place, or returns `None` if there is no place.
pub fn note_of(words: &'static str, at: Option<Span>) -> Option<Note> {
    match at {
        None => None,
        Some(at) => Some(Note { words, at }),
    }
}
