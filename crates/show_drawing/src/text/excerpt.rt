//! Excerpts of a script: the text of a statement, of a header or of an expression on one line, and the offsets at which
//! its items begin.
ghost use Rattle.std.specs.Prelude.{◌≤◌, length};

use std::alloc::{AllocError, Global};

/// Maximum number of bytes of an excerpt. One more is kept, which shows that the text goes on.
pub const MAX_EXCERPT: usize = 300;

/// The part of the grammar in which the next byte of a script lies.
#[derive(Clone, Copy, PartialEq, Eq, Debug, Drop)]
enum Region {
    Code,
    Text,
    /// After a `\` in a text.
    Escape,
    /// After the `/` that begins a comment.
    Slash,
    Line,
    Block,
    /// After a `*` in a comment.
    Star,
}

impl Region {
    /// Returns the region of the byte that follows this one.
    fn after(self, byte: u8, next: u8) -> Region {
        match self {
            Region::Code => match (byte, next) {
                (b'"', _) => Region::Text,
                (b'/', b'/') => Region::Line,
                (b'/', b'*') => Region::Slash,
                _ => Region::Code,
            },
            Region::Text => match byte {
                b'"' => Region::Code,
                b'\\' => Region::Escape,
                _ => Region::Text,
            },
            Region::Escape => Region::Text,
            Region::Slash => Region::Block,
            Region::Line => {
                if byte == b'\n' {
                    Region::Code
                } else {
                    Region::Line
                }
            }
            Region::Block => Region::in_comment(byte),
            Region::Star => {
                if byte == b'/' {
                    Region::Code
                } else {
                    Region::in_comment(byte)
                }
            }
        }
    }

    /// Returns the region that follows a byte of a comment which does not end it.
    fn in_comment(byte: u8) -> Region {
        if byte == b'*' {
            Region::Star
        } else {
            Region::Block
        }
    }

    /// Returns true if a byte here is part of a text, or of code that no comment and no text interrupts.
    fn is_shown(self, next: Region) -> bool {
        match self {
            Region::Code => next == Region::Code || next == Region::Text,
            Region::Text | Region::Escape => true,
            Region::Slash | Region::Line | Region::Block | Region::Star => false,
        }
    }
}

/// Returns true for a space, a tab or the end of a line.
fn is_blank(byte: u8) -> bool {
    byte == b' ' || byte == b'\t' || byte == b'\n' || byte == b'\r'
}

/// Returns the byte at an offset, or a space past the end.
fn byte_at(text: &[u8], at: usize) -> u8 {
    match text.get(at) {
        Some(byte) => *byte,
        None => b' ',
    }
}

/// Returns the text from an offset up to the first `;` or `{`, neither of them in a string or a comment.
///
/// Comments are left out, and each run of blanks is one space. At most `MAX_EXCERPT` bytes and one more are returned.
///
/// # Errors
///
/// Returns `AllocError` if an allocation fails.
pub fn excerpt(alloc: Global, text: &[u8], from: usize) -> Result<Vec<u8>, AllocError> {
    let mut shown = Vec::new(alloc);
    let mut region = Region::Code;
    let mut gap = false;
    for at in from..text.len() {
        let byte = text[at];
        let next = region.after(byte, byte_at(text, at + 1));
        if region == Region::Code && (byte == b';' || byte == b'{') || shown.len() > MAX_EXCERPT {
            break;
        }
        if !region.is_shown(next) || region == Region::Code && is_blank(byte) {
            gap = true;
        } else {
            if gap && !shown.is_empty() {
                shown.push(b' ')?;
            }
            gap = false;
            shown.push(byte)?;
        }
        region = next;
    }
    Ok(shown)
}

/// Returns the start of an excerpt that is one expression: up to the first comma, colon or closing bracket that belongs to
/// what is around it.
pub fn expression_in(shown: &[u8]) -> &[u8] {
    &shown[..end_of(shown, false)]
}

/// Returns the start of an excerpt that is one call or one array element: up to the bracket that closes its arguments or
/// its key.
pub fn operand_in(shown: &[u8]) -> &[u8] {
    &shown[..end_of(shown, true)]
}

/// Returns the offset at which the first expression of an excerpt ends, or its first operand, which ends with a bracket.
fn end_of(shown: &[u8], is_operand: bool) -> usize
    ensures { result ≤ length shown.now }
{
    let mut region = Region::Code;
    let mut depth = 0u64;
    for at in 0..shown.len() {
        let byte = shown[at];
        if region == Region::Code {
            if depth == 0 && is_end(byte) {
                return at;
            }
            depth = nesting_after(depth, byte);
            if is_operand && depth == 0 && is_closing(byte) {
                return at + 1;
            }
        }
        region = region.after(byte, byte_at(shown, at + 1));
    }
    shown.len()
}

/// Returns true for a byte of code that ends an expression outside brackets.
fn is_end(byte: u8) -> bool {
    byte == b',' || byte == b':' || is_closing(byte)
}

fn is_closing(byte: u8) -> bool {
    byte == b')' || byte == b']'
}

/// Returns the number of open brackets after a byte of code.
fn nesting_after(depth: u64, byte: u8) -> u64 {
    if byte == b'(' || byte == b'[' {
        depth.saturating_add(1)
    } else if is_closing(byte) {
        depth.saturating_sub(1)
    } else {
        depth
    }
}

/// Returns the offsets at which the items of a script begin, in order: its functions and the statements outside them.
///
/// # Errors
///
/// Returns `AllocError` if an allocation fails.
pub fn item_starts(alloc: Global, text: &[u8]) -> Result<Vec<usize>, AllocError> {
    let mut starts = Vec::new(alloc);
    let mut region = Region::Code;
    let mut depth = 0u64;
    let mut fresh = true;
    for at in 0..text.len() {
        let byte = text[at];
        let next = region.after(byte, byte_at(text, at + 1));
        if region == Region::Code && region.is_shown(next) && !is_blank(byte) {
            if fresh {
                starts.push(at)?;
            }
            depth = depth_after(depth, byte);
            fresh = depth == 0 && (byte == b';' || byte == b'}');
        }
        region = next;
    }
    Ok(starts)
}

/// Returns the number of open blocks after a byte of code.
fn depth_after(depth: u64, byte: u8) -> u64 {
    match byte {
        b'{' => depth.saturating_add(1),
        b'}' => depth.saturating_sub(1),
        _ => depth,
    }
}

/// Returns the last of these offsets, which are in order, that is not after `at`, or `at` if there is none.
pub fn start_before(starts: &[usize], at: usize) -> usize {
    let count = starts.partition_point(|start| *start <= at);
    match count.checked_sub(1) {
        Some(last) => starts.get(last).copied().unwrap_or(at),
        None => at,
    }
}
