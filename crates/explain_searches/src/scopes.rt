//! Token searches for the loops and branches around a place of a text that parses as a script.

use crate::calls::next_token;
use lexer::lexer::Lexer;
use lexer::token::{Token, TokenKind};
use std::alloc::{AllocError, Global};

/// The header of a loop, as its tokens give it.
#[derive(Clone, Copy, Debug)]
pub struct LoopHeader<'t> {
    /// The offset at which the loop begins.
    pub at: usize,
    /// The name of its value. It is empty for a block that is not that of a loop.
    pub value: &'t [u8],
    /// The name of its key, which is empty if there is none.
    pub key: &'t [u8],
    /// The name of the array that it iterates over, which is empty for a range.
    pub array: &'t [u8],
}

/// A block that is not that of a loop.
const OTHER_BLOCK: LoopHeader<'static> = LoopHeader {
    at: 0,
    value: &[],
    key: &[],
    array: &[],
};

impl<'t> LoopHeader<'t> {
    /// Returns the name that numbers the turns, or no bytes if there is none: the value of a range or the key of an
    /// array.
    pub fn number(&self) -> &'t [u8] {
        if self.array.is_empty() {
            self.value
        } else {
            self.key
        }
    }
}

/// Returns the blocks that contain an offset, from the outermost, each with the header of its loop.
fn blocks_around<'t>(
    alloc: Global,
    text: &'t [u8],
    at: usize,
) -> Result<Vec<LoopHeader<'t>>, AllocError> {
    let mut lexer = Lexer::new(text);
    let mut open = Vec::new(alloc);
    let mut header = OTHER_BLOCK;
    for _ in 0..text.len() {
        let Some(token) = next_token(&mut lexer) else {
            break;
        };
        if token.span.from >= at {
            break;
        }
        match token.kind {
            TokenKind::Foreach => header = header_of(&mut lexer, token.span.from),
            TokenKind::OpenCurly => {
                open.push(header)?;
                header = OTHER_BLOCK;
            }
            TokenKind::CloseCurly => {
                let _ = open.pop();
            }
            _ => {}
        }
    }
    Ok(open)
}

/// Reads the header of the loop that begins at an offset, up to the first token of its source.
fn header_of<'t>(lexer: &mut Lexer<'t>, at: usize) -> LoopHeader<'t> {
    let value = name_in(next_token(lexer));
    let mut key: &[u8] = &[];
    if kind_of(&next_token(lexer)) == TokenKind::Comma {
        key = name_in(next_token(lexer));
        let _in = next_token(lexer);
    }
    LoopHeader {
        at,
        value,
        key,
        array: name_in(next_token(lexer)),
    }
}

fn kind_of(token: &Option<Token<'_>>) -> TokenKind {
    match token {
        Some(token) => token.kind,
        None => TokenKind::End,
    }
}

/// Returns the bytes of a name, or no bytes for another token.
fn name_in<'t>(token: Option<Token<'t>>) -> &'t [u8] {
    match token {
        Some(token) if token.kind == TokenKind::Name => token.text,
        _ => &[],
    }
}

/// Returns the innermost loop that contains an offset and begins after another one.
pub fn loop_since<'t>(
    alloc: Global,
    text: &'t [u8],
    since: usize,
    at: usize,
) -> Result<Option<LoopHeader<'t>>, AllocError> {
    let mut found = None;
    let blocks = blocks_around(alloc, text, at)?;
    for block in &blocks {
        if !block.value.is_empty() && block.at >= since {
            found = Some(*block);
        }
    }
    Ok(found)
}

/// Returns the innermost loop that contains an offset, but not a later one.
pub fn loop_before<'t>(
    alloc: Global,
    text: &'t [u8],
    inside: usize,
    later: usize,
) -> Result<Option<LoopHeader<'t>>, AllocError> {
    let around = blocks_around(alloc, text, later)?;
    match loop_since(alloc, text, 0, inside)? {
        Some(header) if !is_among(around.as_slice(), header.at) => Ok(Some(header)),
        _ => Ok(None),
    }
}

/// Returns true if one of these blocks is that of the loop that begins at an offset.
fn is_among(blocks: &[LoopHeader<'_>], at: usize) -> bool {
    for block in blocks {
        if !block.value.is_empty() && block.at == at {
            return true;
        }
    }
    false
}

/// Returns the offset at which the `if` at an offset ends, with its `else` branches.
pub fn end_of_if(text: &[u8], at: usize) -> usize {
    let mut lexer = Lexer::behind(text, at.min(text.len()));
    let mut depth: usize = 0;
    let mut end = at;
    let mut is_closed = false;
    for _ in at..text.len() {
        let Some(token) = next_token(&mut lexer) else {
            break;
        };
        match token.kind {
            TokenKind::Else => is_closed = false,
            _ if is_closed => break,
            TokenKind::OpenCurly => depth = depth.saturating_add(1),
            TokenKind::CloseCurly => {
                depth = depth.saturating_sub(1);
                is_closed = depth == 0;
                end = token.span.to;
            }
            _ => {}
        }
    }
    end
}

/// Returns true if the statement after an offset is an `if` that contains a later offset.
pub fn is_in_next_if(text: &[u8], from: usize, at: usize) -> bool {
    let mut lexer = Lexer::behind(text, from.min(text.len()));
    match next_token(&mut lexer) {
        Some(token) if token.kind == TokenKind::If => at < end_of_if(text, token.span.from),
        _ => false,
    }
}

/// Returns true if a name occurs between two offsets.
pub fn occurs_between(text: &[u8], from: usize, to: usize, name: &[u8]) -> bool {
    let mut lexer = Lexer::behind(text, from.min(text.len()));
    for _ in from..to {
        match next_token(&mut lexer) {
            Some(token) if token.span.from < to => {
                if token.text == name {
                    return true;
                }
            }
            _ => return false,
        }
    }
    false
}
