//! Token searches near a place of a text that parses as a script: in calls, loop heads and formats.

use explain_hints::token_context::TokenContext;
use lexer::lexer::Lexer;
use lexer::token::{Token, TokenKind};
use std::alloc::{AllocError, Global};

/// The consumer of the values of a call.
#[derive(Clone, Copy, Debug, PartialEq, Eq)]
pub enum ValueConsumer {
    /// No consumer: the call is a statement.
    Nobody,
    /// An expression, or one variable.
    One,
    /// A list of names in brackets, with its length.
    Names(usize),
}

/// Returns the consumer of the values of a call. `at`: the offset at which the called name begins.
pub fn taker_of(alloc: Global, text: &[u8], at: usize) -> Result<ValueConsumer, AllocError> {
    let around = TokenContext::new(alloc, text, at)?;
    let is_first = around.first.span == around.found.span;
    if is_first
        || around.first.kind == TokenKind::At && around.opener.kind != TokenKind::OpenRound
    {
        return Ok(ValueConsumer::Nobody);
    }
    if around.first.kind == TokenKind::OpenRound && around.last.kind == TokenKind::Assign {
        return Ok(ValueConsumer::Names(count_behind(text, around.first.span.from)));
    }
    Ok(ValueConsumer::One)
}

/// Returns the number of comma-separated entries in the first brackets that open at an offset or after it.
pub fn count_behind(text: &[u8], at: usize) -> usize {
    let mut lexer = Lexer::behind(text, at.min(text.len()));
    let mut depth: usize = 0;
    let mut commas: usize = 0;
    let mut is_empty = true;
    for _ in at..text.len() {
        let Some(token) = next_token(&mut lexer) else {
            break;
        };
        match token.kind {
            TokenKind::OpenRound | TokenKind::OpenSquare => {
                is_empty = is_empty && depth == 0;
                depth = depth.saturating_add(1);
            }
            TokenKind::CloseRound | TokenKind::CloseSquare => {
                depth = depth.saturating_sub(1);
                if depth == 0 {
                    break;
                }
            }
            TokenKind::Comma if depth == 1 => commas = commas.saturating_add(1),
            _ => is_empty = is_empty && depth == 0,
        }
    }
    if is_empty {
        0
    } else {
        commas.saturating_add(1)
    }
}

/// Returns the name of the array that a loop iterates over, or `None` for a range.
///
/// `at` is the offset at which the name of the loop's value or key ends.
pub fn looped_array(text: &[u8], at: usize) -> Option<&[u8]> {
    let mut lexer = Lexer::behind(text, at.min(text.len()));
    let mut token = next_token(&mut lexer)?;
    if token.kind == TokenKind::Comma {
        let _key = next_token(&mut lexer)?;
        token = next_token(&mut lexer)?;
    }
    if token.kind != TokenKind::In {
        return None;
    }
    let array = next_token(&mut lexer)?;
    if array.kind == TokenKind::Name {
        Some(array.text)
    } else {
        None
    }
}

/// Returns true if the token before an offset is a `,`.
pub fn is_behind_comma(text: &[u8], at: usize) -> bool {
    let mut lexer = Lexer::behind(text, 0);
    let mut last = TokenKind::End;
    for _ in 0..text.len() {
        match next_token(&mut lexer) {
            Some(token) if token.span.from < at => last = token.kind,
            _ => break,
        }
    }
    last == TokenKind::Comma
}

/// Returns the number of values that a format takes, or `None` if the first argument is not a string.
///
/// The format is searched in the first brackets that open at an offset or after it.
pub fn conversions_behind(text: &[u8], at: usize) -> Option<usize> {
    let mut lexer = Lexer::behind(text, at.min(text.len()));
    let _bracket = next_token(&mut lexer)?;
    let format = next_token(&mut lexer)?;
    if format.kind != TokenKind::Text {
        return None;
    }
    let mut count: usize = 0;
    let mut begun = false;
    for byte in format.text {
        if begun && *byte != b'%' {
            count = count.saturating_add(1);
        }
        begun = *byte == b'%' && !begun;
    }
    Some(count)
}

/// Returns true if a name occurs between an offset and the next `;`.
pub fn is_read_behind(text: &[u8], at: usize, name: &[u8]) -> bool {
    let mut lexer = Lexer::behind(text, at.min(text.len()));
    for _ in at..text.len() {
        match next_token(&mut lexer) {
            Some(token) if token.kind != TokenKind::Semicolon => {
                if token.text == name {
                    return true;
                }
            }
            _ => return false,
        }
    }
    false
}

/// Returns the next token, or `None` at the end or at a lexical fault.
pub fn next_token<'t>(lexer: &mut Lexer<'t>) -> Option<Token<'t>> {
    match lexer.next() {
        Some(Ok(token)) => Some(token),
        _ => None,
    }
}

/// Returns the kind of the token after the next `=`, or `End` if the token at the offset is not a `=`.
pub fn value_behind(text: &[u8], at: usize) -> TokenKind {
    let mut lexer = Lexer::behind(text, at.min(text.len()));
    match next_token(&mut lexer) {
        Some(token) if token.kind == TokenKind::Assign => match next_token(&mut lexer) {
            Some(value) => value.kind,
            None => TokenKind::End,
        },
        _ => TokenKind::End,
    }
}

/// Returns the bytes of the token after an offset, or no bytes if there is none.
pub fn text_behind(text: &[u8], at: usize) -> &[u8] {
    let mut lexer = Lexer::behind(text, at.min(text.len()));
    match next_token(&mut lexer) {
        Some(token) => token.text,
        None => &[],
    }
}

/// Returns the first token of the second argument of the call whose `(` follows an offset, if the first argument is one
/// token.
pub fn second_argument(text: &[u8], at: usize) -> Option<Token<'_>> {
    let mut lexer = Lexer::behind(text, at.min(text.len()));
    let _bracket = next_token(&mut lexer)?;
    let _first = next_token(&mut lexer)?;
    let _comma = next_token(&mut lexer)?;
    next_token(&mut lexer)
}
