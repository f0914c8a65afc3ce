//! Output of strings, numbers and positions.
ghost use Rattle.std.specs.Prelude.{◌≡◌, ◌++◌, OnOk};
ghost use Rattle.explain_text.specs.Positions.{place_text};

use crate::position::{Position, position_of};
use crate::quote::add_quote;
use itoa::Buffer;
use lexer::token::Span;
use std::alloc::AllocError;

pub fn write_str(out: &mut Vec<u8>, words: &str) -> Result<(), AllocError> {
    out.extend_from_slice(words.as_bytes())?;
    Ok(())
}

pub fn write_count(out: &mut Vec<u8>, count: usize) -> Result<(), AllocError> {
    let mut buffer = Buffer::new();
    out.extend_from_slice(buffer.format(count).as_bytes())?;
    Ok(())
}

pub fn write_number(out: &mut Vec<u8>, number: i64) -> Result<(), AllocError> {
    let mut buffer = Buffer::new();
    out.extend_from_slice(buffer.format(number).as_bytes())?;
    Ok(())
}

/// Appends at most `most` bytes of a text, and `..` if it is longer. A byte that is not printable ASCII is written as
/// `?`.
pub fn write_bytes(out: &mut Vec<u8>, bytes: &[u8], most: usize) -> Result<(), AllocError> {
    for byte in &bytes[..bytes.len().min(most)] {
        out.push(if *byte < b' ' || *byte > b'~' {
            b'?'
        } else {
            *byte
        })?;
    }
    write_str(out, if bytes.len() > most { ".." } else { "" })
}

/// Appends `LINE:COLUMN` for an offset. An offset past the end is reported as the end of the text.
pub fn write_place(out: &mut Vec<u8>, text: &[u8], at: usize) -> Result<(), AllocError> {
    write_position(out, position_of(text, at.min(text.len())))
}

/// Appends `LINE:COLUMN` for a position.
pub(crate) fn write_position(out: &mut Vec<u8>, position: Position) -> Result<(), AllocError> {
    write_count(out, position.line)?;
    write_str(out, ":")?;
    write_count(out, position.column)
}

/// Appends `FILE:LINE:COLUMN` for a position.
pub fn add_place(out: &mut Vec<u8>, file: &str, position: Position) -> Result<(), AllocError>
    ensures { OnOk result (out.new.items ≡ out.old.items ++ place_text file.now position) }
{
    let mut buffer = Buffer::new();
    out.extend_from_slice(file.as_bytes())?;
    out.push(b':')?;
    out.extend_from_slice(buffer.format(position.line).as_bytes())?;
    out.push(b':')?;
    let mut buffer = Buffer::new();
    out.extend_from_slice(buffer.format(position.column).as_bytes())?;
    Ok(())
}

/// Appends `FILE:LINE:COLUMN: ` for an offset. An offset past the end is reported as the end of the text.
pub fn write_start(
    out: &mut Vec<u8>,
    file: &str,
    text: &[u8],
    at: usize,
) -> Result<(), AllocError> {
    add_place(out, file, position_of(text, at.min(text.len())))?;
    write_str(out, ": ")
}

/// Appends the line of an offset, and a line with a mark under the offset.
pub fn add_mark(out: &mut Vec<u8>, text: &[u8], at: usize) -> Result<(), AllocError> {
    let to = at.saturating_add(1);
    add_quote(out, text, Span { from: at, to })
}
