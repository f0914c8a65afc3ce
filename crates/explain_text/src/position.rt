//! Lines and columns of offsets.
ghost use Rattle.std.specs.Prelude.{◌≡◌, ◌≤◌, length};
ghost use Rattle.explain_text.specs.Positions.{BeginsLine, IsLine, IsPosition};

/// A position in a text, with line and column counted from 1. A column is a byte, so a tab is one column.
#[derive(Clone, Copy, PartialEq, Eq, Debug, Drop)]
pub struct Position {
    pub line: usize,
    pub column: usize,
}

/// A line of a text: its number, counted from 1, and the offset at which it begins.
#[derive(Clone, Copy, PartialEq, Eq, Debug, Drop)]
pub struct SourceLine {
    pub number: usize,
    pub begin: usize,
}

/// The first line of every text.
pub(crate) const FIRST: SourceLine = SourceLine {
    number: 1,
    begin: 0,
};

/// Returns the line and the column of an offset.
pub fn position_of(text: &[u8], at: usize) -> Position
    requires { at ≤ length text.now }
    ensures { IsPosition text.now at result }
{
    position_in(text, line_of(text, at), at)
}

/// Returns the offset at which the line of an offset begins.
pub fn line_begin(text: &[u8], at: usize) -> usize
    requires { at ≤ length text.now }
    ensures { BeginsLine text.now at result }
{
    line_of(text, at).begin
}

/// Returns the line of an offset.
fn line_of(text: &[u8], at: usize) -> SourceLine
    requires { at ≤ length text.now }
    ensures { IsLine text.now at result }
{
    line_from(text, FIRST, 0, at)
}

/// Returns the line of an offset, given the line of an offset that is not after it.
pub(crate) fn line_from(text: &[u8], line: SourceLine, from: usize, at: usize) -> SourceLine
    requires line { IsLine text.now from line }
    requires order { from ≤ at }
    requires within { at ≤ length text.now }
    ensures { IsLine text.now at result }
{
    let mut number = line.number;
    let mut begin = line.begin;
    for i in from..at {
        if text[i] == b'\n' {
            number += 1;
            begin = i + 1;
        }
    }
    SourceLine { number, begin }
}

/// Returns the line and the column of an offset, given its line.
pub(crate) fn position_in(text: &[u8], line: SourceLine, at: usize) -> Position
    requires line { IsLine text.now at line }
    requires within { at ≤ length text.now }
    ensures { IsPosition text.now at result }
{
    let _length = text.len();
    Position {
        line: line.number,
        column: at - line.begin + 1,
    }
}
