//! Parser for the line with which a run reports its fault.

use explain_text::position::line_begin;
use paths::{FaultKind, Step};
use std::alloc::{AllocError, Global};
use values::key::Key;
use values::number;
use values::text::{Bytes, Text};

/// Prefix of the line of a fault.
const START: &[u8] = b"swt: fault ";

/// A printed fault: its kind, the offset of its statement and the path of the statement, outermost step first.
#[derive(Drop)]
pub struct PrintedFault {
    pub kind: FaultKind,
    pub at: usize,
    pub path: Vec<Step>,
}

impl PrintedFault {
    /// Parses the fault in the last line of a text, such as `swt: fault F3 NoElement 19 /4.1`. Returns `None` if that
    /// line is not a fault.
    ///
    /// # Errors
    ///
    /// Returns `AllocError` if an allocation fails.
    pub fn read(alloc: Global, text: &[u8]) -> Result<Option<PrintedFault>, AllocError> {
        let Some(rest) = last_line(text).strip_prefix(START) else {
            return Ok(None);
        };
        let Some((kind, rest)) = kind_of(rest) else {
            return Ok(None);
        };
        let (_, rest) = split_at_byte(rest, b' ');
        let (offset, path) = split_at_byte(rest, b' ');
        match offset_of(offset) {
            Some(at) => Ok(Some(PrintedFault {
                kind,
                at,
                path: steps_of(alloc, path)?,
            })),
            None => Ok(None),
        }
    }

    /// Returns the path with the innermost step first.
    pub fn inner_first(&self, alloc: Global) -> Result<Vec<Step>, AllocError> {
        let mut steps = Vec::new(alloc);
        for step in &self.path {
            steps.push(step.share()?)?;
        }
        steps.reverse();
        Ok(steps)
    }
}

/// Returns the last line of a text, without the last byte of the text, which is the line feed.
fn last_line(text: &[u8]) -> &[u8] {
    let end = text.len().saturating_sub(1);
    &text[line_begin(text, end)..end]
}

/// Splits bytes at the first byte equal to `at`, which is in neither part. Without such a byte, the second part is
/// empty.
fn split_at_byte(bytes: &[u8], at: u8) -> (&[u8], &[u8]) {
    for i in 0..bytes.len() {
        if bytes[i] == at {
            return (&bytes[..i], &bytes[i + 1..]);
        }
    }
    (bytes, &[])
}

/// Returns the fault kind whose number and name a text starts with, and the rest of the text.
fn kind_of(text: &[u8]) -> Option<(FaultKind, &[u8])> {
    for kind in &FaultKind::ALL {
        if let Some(rest) = text.strip_prefix(kind.name().as_bytes()) {
            return Some((*kind, rest));
        }
    }
    None
}

fn offset_of(digits: &[u8]) -> Option<usize> {
    let number = number::parse(digits).ok()?;
    usize::try_from(number).ok()
}

/// Parses the steps of a path such as `/4.1/9.-3/7."a"`. The path `/` has no steps.
fn steps_of(alloc: Global, path: &[u8]) -> Result<Vec<Step>, AllocError> {
    let mut steps = Vec::new(alloc);
    let mut rest = path;
    for _ in 0..path.len() {
        let (step, behind) = cut_step(rest);
        rest = behind;
        if let Some(step) = step_of(alloc, step)? {
            steps.push(step)?;
        }
    }
    Ok(steps)
}

/// Splits a path at the first `/` outside of a quoted text. Without such a byte, the second part is empty.
fn cut_step(path: &[u8]) -> (&[u8], &[u8]) {
    let mut in_text = false;
    let mut is_spelled = false;
    for i in 0..path.len() {
        let byte = path[i];
        if byte == b'/' && !in_text {
            return (&path[..i], &path[i + 1..]);
        }
        if byte == b'"' && !is_spelled {
            in_text = !in_text;
        }
        is_spelled = byte == b'\\' && !is_spelled;
    }
    (path, &[])
}

fn step_of(alloc: Global, step: &[u8]) -> Result<Option<Step>, AllocError> {
    let (at, key) = split_at_byte(step, b'.');
    let Some(offset) = offset_of(at) else {
        return Ok(None);
    };
    match key_of(alloc, key)? {
        Some(key) => Ok(Some(Step { offset, key })),
        None => Ok(None),
    }
}

fn key_of(alloc: Global, key: &[u8]) -> Result<Option<Key>, AllocError> {
    if let [b'"', text @ ..] = key {
        return Ok(Some(Key::Text(text_of(alloc, text)?)));
    }
    match number::parse(key) {
        Ok(number) => Ok(Some(Key::Number(number))),
        Err(_) => Ok(None),
    }
}

/// Decodes the text up to the closing quote, with its escapes.
fn text_of(alloc: Global, bytes: &[u8]) -> Result<Text, AllocError> {
    let mut text = Bytes::new(alloc);
    let mut rest = bytes;
    for _ in 0..bytes.len() {
        match rest {
            [b'"', ..] => break,
            [b'\\', byte, behind @ ..] => {
                text.push(escaped(*byte))?;
                rest = behind;
            }
            [byte, behind @ ..] => {
                text.push(*byte)?;
                rest = behind;
            }
            [] => break,
        }
    }
    Text::new(alloc, text)
}

/// Returns the byte that an escape stands for, given the byte after the `\`.
fn escaped(byte: u8) -> u8 {
    match byte {
        b'n' => b'\n',
        b't' => b'\t',
        other => other,
    }
}
