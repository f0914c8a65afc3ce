//! Hints about nested comments, which the language does not have.

use crate::advice::Advice;
use crate::token_context::TokenContext;
use lexer::fault::LexFault;
use lexer::lexer::Lexer;
use lexer::token::TokenKind;

/// The hint about a comment within a comment.
pub const NESTED: &str = "a comment ends at the first */: leave the comment within it out";

/// Returns a hint if a comment has ended early because it contains another one.
///
/// This is assumed under two conditions. The text before the token begins more comments than it ends, and the first
/// lexical fault after it is the end of a comment.
pub fn nested(around: &TokenContext<'_>) -> Option<Advice> {
    if around.found.kind == TokenKind::End {
        return None;
    }
    let (before, behind) = around
        .text
        .split_at(around.found.span.from.min(around.text.len()));
    if begins_more(before) && ends_comment(behind) {
        Advice::here(NESTED)
    } else {
        None
    }
}

/// Returns true if a text has more occurrences of `/*` than of `*/`.
pub fn begins_more(text: &[u8]) -> bool {
    count_of(b'/', b'*', text) > count_of(b'*', b'/', text)
}

/// Returns the number of places at which two bytes follow each other in a text.
fn count_of(first: u8, second: u8, text: &[u8]) -> usize {
    let mut count: usize = 0;
    for i in 1..text.len() {
        if text[i - 1] == first && text[i] == second {
            count = count.saturating_add(1);
        }
    }
    count
}

/// Returns true if the first lexical fault of a text is the `/` of a `*/`.
fn ends_comment(text: &[u8]) -> bool {
    let mut lexer = Lexer::new(text);
    for _ in 0..text.len() {
        match lexer.next() {
            Some(Ok(_)) => {}
            Some(Err(LexFault::BadByte(at))) => {
                let (before, from) = text.split_at(at.from.min(text.len()));
                return before.ends_with(b"*") && from.starts_with(b"/");
            }
            _ => return false,
        }
    }
    false
}
