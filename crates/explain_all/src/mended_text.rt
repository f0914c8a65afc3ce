//! A text of which some parts are replaced, and the places of its parts in the original.

use explain_names::lookup::bytes_at;
use lexer::token::Span;
use std::alloc::{AllocError, Global};

/// A replacement: a place of the original text, and the bytes that stand there instead. Blanks fill them up to the
/// length of the place.
#[derive(Debug, Drop)]
pub struct Replacement {
    pub at: Span,
    pub words: Vec<u8>,
}

/// A text with replacements, which do not overlap and are in the order of the text.
#[derive(Drop)]
pub struct MendedText<'t> {
    alloc: Global,
    text: &'t [u8],
    replacements: Vec<Replacement>,
    /// The offset in the mended text at which each replacement begins.
    begins: Vec<usize>,
}

/// A replacement that is merged with others.
#[derive(Debug, Drop)]
struct Candidate {
    replacement: Replacement,
    is_new: bool,
}

/// Returns the number of bytes of a place.
fn length_of(at: Span) -> usize {
    at.to.saturating_sub(at.from)
}

/// Returns the number of bytes that stand at the place of a replacement.
fn width_of(replacement: &Replacement) -> usize {
    replacement.words.len().max(length_of(replacement.at))
}

impl<'t> MendedText<'t> {
    /// Creates a text without replacements.
    pub fn new(alloc: Global, text: &'t [u8]) -> MendedText<'t> {
        MendedText {
            alloc,
            text,
            replacements: Vec::new(alloc),
            begins: Vec::new(alloc),
        }
    }

    /// Returns the original text.
    pub fn text(&self) -> &'t [u8] {
        self.text
    }

    /// Replaces the bytes of a place of the original, as `replace_all` does.
    ///
    /// # Errors
    ///
    /// Returns `AllocError` if an allocation fails. The replacements are then unspecified.
    pub fn replace(&mut self, at: Span, words: &[u8]) -> Result<(), AllocError> {
        let words = Vec::from_slice(self.alloc, words)?;
        let mut edits = Vec::new(self.alloc);
        edits.push(Replacement { at, words })?;
        self.replace_all(edits)
    }

    /// Replaces the bytes of places of the original, which do not overlap. Earlier replacements that overlap one of these
    /// places are dropped. At an empty place, the bytes are inserted after those that were inserted there before.
    ///
    /// # Errors
    ///
    /// Returns `AllocError` if an allocation fails. The replacements are then unspecified.
    pub fn replace_all(&mut self, edits: Vec<Replacement>) -> Result<(), AllocError> {
        let earlier = std::mem::replace(&mut self.replacements, Vec::new(self.alloc));
        let mut candidates = Vec::new(self.alloc);
        for replacement in earlier {
            candidates.push(Candidate {
                replacement,
                is_new: false,
            })?;
        }
        for replacement in edits {
            candidates.push(Candidate {
                replacement,
                is_new: true,
            })?;
        }
        candidates.sort_by_key(|it| (it.replacement.at.from, it.replacement.at.to))?;
        let mut merged = Vec::new(self.alloc);
        for candidate in candidates {
            merge(&mut merged, candidate)?;
        }
        self.set(merged)
    }

    /// Sets the replacements, and the offsets at which they begin.
    fn set(&mut self, merged: Vec<Candidate>) -> Result<(), AllocError> {
        let mut replacements = Vec::new(self.alloc);
        let mut begins = Vec::new(self.alloc);
        let mut shift: usize = 0;
        for candidate in merged {
            let replacement = candidate.replacement;
            begins.push(replacement.at.from.saturating_add(shift))?;
            let longer = width_of(&replacement).saturating_sub(length_of(replacement.at));
            shift = shift.saturating_add(longer);
            replacements.push(replacement)?;
        }
        self.replacements = replacements;
        self.begins = begins;
        Ok(())
    }

    /// Returns the bytes of the mended text. The lines are those of the original.
    ///
    /// # Errors
    ///
    /// Returns `AllocError` if an allocation fails.
    pub fn bytes(&self) -> Result<Vec<u8>, AllocError> {
        let mut out = Vec::new(self.alloc);
        let mut done: usize = 0;
        for replacement in &self.replacements {
            let kept = Span {
                from: done,
                to: replacement.at.from,
            };
            out.extend_from_slice(bytes_at(self.text, kept))?;
            out.extend_from_slice(replacement.words.as_slice())?;
            let replaced = bytes_at(self.text, replacement.at);
            for i in replacement.words.len()..replaced.len() {
                out.push(if replaced[i] == b'\n' { b'\n' } else { b' ' })?;
            }
            done = replacement.at.to;
        }
        let kept = Span {
            from: done,
            to: self.text.len(),
        };
        out.extend_from_slice(bytes_at(self.text, kept))?;
        Ok(out)
    }

    /// Returns the offset in the original for an offset in the mended text. For an offset in a replacement, it is one in
    /// the replaced place.
    pub fn original(&self, offset: usize) -> usize {
        let count = self.begins.partition_point(|begin| *begin < offset);
        let last = count.saturating_sub(1);
        let (Some(replacement), Some(begin)) = (self.replacements.get(last), self.begins.get(last))
        else {
            return offset;
        };
        if count == 0 {
            return offset;
        }
        let within = offset.saturating_sub(*begin);
        let width = width_of(replacement);
        if within < width {
            let within = within.min(length_of(replacement.at));
            replacement.at.from.saturating_add(within)
        } else {
            let behind = within.saturating_sub(width);
            replacement.at.to.saturating_add(behind)
        }
    }

    /// Returns the place in the original for a place in the mended text.
    pub fn original_place(&self, at: Span) -> Span {
        Span {
            from: self.original(at.from),
            to: self.original(at.to),
        }
    }
}

/// Appends a candidate, which does not begin before the last one. Of two that overlap, the new one is kept. Two insertions
/// at one place become one.
fn merge(merged: &mut Vec<Candidate>, candidate: Candidate) -> Result<(), AllocError> {
    let at = candidate.replacement.at;
    if let Some(last) = merged.last_mut() {
        if last.replacement.at == at && length_of(at) == 0 {
            return last
                .replacement
                .words
                .extend_from_slice(candidate.replacement.words.as_slice());
        }
        if at.from < last.replacement.at.to {
            if !candidate.is_new {
                return Ok(());
            }
            if !last.is_new {
                *last = candidate;
                return Ok(());
            }
        }
    }
    merged.push(candidate)?;
    Ok(())
}
