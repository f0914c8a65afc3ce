//! Hints about bytes that begin no token, including characters outside ASCII.

use crate::byte_rules::BYTE_RULES;
use crate::comments::{NESTED, begins_more};
use crate::rules::first_hint;
use crate::token_context::{TokenContext, next_token};
use lexer::lexer::Lexer;
use lexer::token::{Span, Token, TokenKind};
use std::alloc::{AllocError, Global};

/// Returns a hint about the byte at an offset, which begins no token.
///
/// # Errors
///
/// Returns `AllocError` if an allocation fails.
pub fn on_byte(alloc: Global, text: &[u8], at: usize) -> Result<Option<Vec<u8>>, AllocError> {
    let (before, rest) = text.split_at(at.min(text.len()));
    let Some(byte) = rest.first() else {
        return Ok(None);
    };
    let known = by_rules(alloc, text, rest, before.len())?;
    match on_encoding(before, *byte, rest).or(known) {
        Some(words) => Ok(Some(Vec::from_slice(alloc, words.as_bytes())?)),
        None => past_ascii(alloc, *byte, rest),
    }
}

/// Returns the hint of a rule about the byte at an offset. `rest`: the text from it on.
fn by_rules<'a>(
    alloc: Global,
    text: &'a [u8],
    rest: &'a [u8],
    at: usize,
) -> Result<Option<&'static str>, AllocError> {
    let mut lexer = Lexer::behind(text, at.saturating_add(1).min(text.len()));
    let mut around = TokenContext::new(alloc, text, at)?;
    around.next = next_token(&mut lexer);
    around.found = Token {
        kind: TokenKind::End,
        span: Span { from: at, to: at },
        text: rest,
    };
    match first_hint(BYTE_RULES, &around) {
        Some(advice) => Ok(Some(advice.words)),
        None => Ok(None),
    }
}

/// Returns the hint about a mark of an encoding at the beginning of a text, about a character that looks like a space or
/// is not shown, or about the end of a comment that contains another one.
fn on_encoding(before: &[u8], byte: u8, rest: &[u8]) -> Option<&'static str> {
    if before.is_empty() && rest.starts_with(b"\xEF\xBB\xBF") {
        return Some("the file begins with a byte order mark: save it without one");
    }
    if before.is_empty() && (rest.starts_with(b"\xFF\xFE") || rest.starts_with(b"\xFE\xFF")) {
        return Some("the file is UTF-16: save it as ASCII");
    }
    if rest.starts_with(b"\xC2\xA0")
        || rest.starts_with(b"\xE2\x80\x8B")
        || rest.starts_with(b"\xE2\x80\xAF")
    {
        return Some("this looks like a space and is another character: write a space");
    }
    match byte {
        b'/' if before.ends_with(b"*") && begins_more(before) => Some(NESTED),
        0..=31 | 127 => {
            Some("leave this byte out: it is a control character, which editors do not show")
        }
        _ => None,
    }
}

/// Returns the hint about a character outside ASCII, or about a byte that is not part of one, or `None` in ASCII.
fn past_ascii(alloc: Global, byte: u8, rest: &[u8]) -> Result<Option<Vec<u8>>, AllocError> {
    if byte < 128 {
        return Ok(None);
    }
    let character = first_character(rest);
    let words = if character.is_empty() {
        "only ASCII characters are allowed, and this byte is not a character"
    } else {
        "only ASCII characters are allowed, also in strings and comments, and this is "
    };
    let mut out = Vec::from_slice(alloc, words.as_bytes())?;
    out.extend_from_slice(character)?;
    Ok(Some(out))
}

/// Returns the bytes of the UTF-8 character outside ASCII at the beginning of a text, or an empty slice if there is
/// none.
fn first_character(text: &[u8]) -> &[u8] {
    let count = match text.first() {
        Some(0xC2..=0xDF) => 2,
        Some(0xE0..=0xEF) => 3,
        Some(0xF0..=0xF4) => 4,
        _ => return &[],
    };
    if text.len() < count {
        return &[];
    }
    let (character, _) = text.split_at(count);
    for byte in &character[1..] {
        if *byte < 0x80 || *byte > 0xBF {
            return &[];
        }
    }
    character
}
