//! A line index for texts in which many positions are reported.
//!
//! The line of every 256th offset is stored, so that a lookup reads at most 256 bytes of the text to find a line.
ghost use Rattle.std.specs.Prelude.{◌≡◌, ◌≤◌, ℕ, List, length, IfOk};
ghost use Rattle.explain_text.specs.Positions.{BeginsLine, IsLine, IsPosition};
ghost use Rattle.explain_text.specs.Marks.{AreMarks};

use crate::position::{FIRST, Position, SourceLine, line_from, position_in};
use crate::quote::add_quoted;
use crate::words::{add_place, write_position, write_str};
use std::alloc::{AllocError, Global};
use std::marker::Model;

/// Number of bytes from one mark to the next.
const BLOCK: usize = 256;

/// A text with the lines at regular offsets, for fast lookup of the line of an offset. A contract sees the text.
#[derive(Drop)]
pub struct LineIndex<'t> {
    text: &'t [u8],
    /// The lines of the offsets that are multiples of `BLOCK`.
    marks: Vec<SourceLine>,
}

impl<'t> Model for LineIndex<'t> {
    ghost Value = { List ℕ };

    ghost view = { λ l. l.text.now };

    ghost invariant = { λ l. AreMarks l.text.now l.marks.items };
}

impl<'t> LineIndex<'t> {
    /// Creates the index of a text, which is read once.
    ///
    /// # Errors
    ///
    /// Returns `AllocError` if an allocation fails.
    pub fn of(alloc: Global, text: &'t [u8]) -> Result<LineIndex<'t>, AllocError>
        ensures { IfOk result (λ lines. lines ≡ text.now) }
    {
        let marks = marks_of(alloc, text)?;
        Ok(LineIndex { text, marks })
    }

    /// Returns the text.
    pub fn text(&self) -> &'t [u8]
        ensures { result.now ≡ self.now }
    {
        self.text
    }

    /// Returns the line and the column of an offset.
    pub fn position(&self, at: usize) -> Position
        requires { at ≤ length self.now }
        ensures { IsPosition self.now at result }
    {
        position_in(
            self.text,
            line_marked(self.text, self.marks.as_slice(), at),
            at,
        )
    }

    /// Returns the offset at which the line of an offset begins.
    pub fn begin(&self, at: usize) -> usize
        requires { at ≤ length self.now }
        ensures { BeginsLine self.now at result }
    {
        line_marked(self.text, self.marks.as_slice(), at).begin
    }

    /// Appends `LINE:COLUMN` for an offset. An offset past the end is reported as the end of the text.
    pub fn say_place(&self, out: &mut Vec<u8>, at: usize) -> Result<(), AllocError> {
        write_position(out, self.position(self.within(at)))
    }

    /// Appends `FILE:LINE:COLUMN: ` for an offset. An offset past the end is reported as the end of the text.
    pub fn say_start(&self, out: &mut Vec<u8>, file: &str, at: usize) -> Result<(), AllocError> {
        add_place(out, file, self.position(self.within(at)))?;
        write_str(out, ": ")
    }

    /// Appends the line of an offset, and a line with a mark under the offset.
    pub fn add_mark(&self, out: &mut Vec<u8>, at: usize) -> Result<(), AllocError> {
        let at = self.within(at);
        add_quoted(out, self.text(), self.begin(at), at, at.saturating_add(1))
    }

    /// Returns the offset, or the length of the text if that is less.
    fn within(&self, at: usize) -> usize
        ensures { result ≤ length self.now }
    {
        at.min(self.text.len())
    }
}

/// Returns the line of an offset, searching from the last mark that is not after it.
fn line_marked(text: &[u8], marks: &[SourceLine], at: usize) -> SourceLine
    requires marks { AreMarks text.now marks.now }
    requires within { at ≤ length text.now }
    ensures { IsLine text.now at result }
{
    let block = at / BLOCK;
    line_from(text, marks[block], block * BLOCK, at)
}

fn marks_of(alloc: Global, text: &[u8]) -> Result<Vec<SourceLine>, AllocError>
    ensures { IfOk result (λ marks. AreMarks text.now marks.items) }
{
    let mut line = FIRST;
    let mut marks = Vec::new(alloc);
    marks.push(line)?;
    for block in 0..text.len() / BLOCK {
        let from = block * BLOCK;
        line = line_from(text, line, from, from + BLOCK);
        marks.push(line)?;
    }
    Ok(marks)
}
