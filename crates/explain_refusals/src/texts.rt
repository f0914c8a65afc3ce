//! Explanations of lexical and syntactic faults.

use crate::explanation::{Explanation, Hint};
use explain_hints::characters::on_byte;
use explain_hints::literals::{on_escape, on_number, on_string};
use explain_hints::unexpected::on_unexpected;
use explain_names::lookup::bytes_at;
use itoa::Buffer;
use lexer::fault::LexFault;
use lexer::token::Span;
use std::alloc::{AllocError, Global};
use syntax::error::ParseFault;

/// Returns the explanation of a text that does not parse.
pub fn told_of_text(
    alloc: Global,
    text: &[u8],
    fault: ParseFault,
) -> Result<Explanation, AllocError> {
    let hint = hint_of_text(alloc, text, fault)?;
    Ok(sentence_of_text(alloc, text, fault)?.with(hint))
}

/// Returns the hint about a text that does not parse.
fn hint_of_text(alloc: Global, text: &[u8], fault: ParseFault) -> Result<Option<Hint>, AllocError> {
    match fault {
        ParseFault::Lex(fault) => hint_of_token(alloc, text, fault),
        ParseFault::Unexpected(at) => Hint::of(alloc, on_unexpected(alloc, text, at.from)?),
        ParseFault::TooNested(_) => {
            Hint::plain(
                alloc,
                "give inner parts names of their own, or write them as functions",
            )
        }
        ParseFault::TooLong(_) | ParseFault::Memory => Ok(None),
    }
}

fn hint_of_token(alloc: Global, text: &[u8], fault: LexFault) -> Result<Option<Hint>, AllocError> {
    match fault {
        LexFault::BadByte(at) => match on_byte(alloc, text, at.from)? {
            None => Ok(None),
            Some(words) => Ok(Some(Hint { words, at: None })),
        },
        LexFault::BadNumber(at) => Hint::plain(alloc, on_number(text, bytes_at(text, at), at.from)),
        LexFault::OpenString(at) => Hint::plain(alloc, on_string(text, at.to)),
        LexFault::OpenComment(_) => {
            Hint::plain(alloc, "close it by */, or begin each of its lines with //")
        }
        LexFault::BadEscape(at) => Hint::plain(alloc, on_escape(bytes_at(text, at))),
    }
}

/// Returns the sentence about a text that does not parse.
fn sentence_of_text(
    alloc: Global,
    text: &[u8],
    fault: ParseFault,
) -> Result<Explanation, AllocError> {
    match fault {
        ParseFault::Lex(fault) => told_of_token(alloc, text, fault),
        ParseFault::Unexpected(at) => told_of_unexpected(alloc, text, at),
        ParseFault::TooNested(_) => Explanation::plain(alloc, "nesting deeper than 64 levels"),
        ParseFault::TooLong(_) => Explanation::plain(
            alloc,
            "the script is larger than 1048576 bytes",
        ),
        ParseFault::Memory => Explanation::plain(alloc, "no memory"),
    }
}

fn told_of_unexpected(alloc: Global, text: &[u8], at: Span) -> Result<Explanation, AllocError> {
    let token = bytes_at(text, at);
    if token.is_empty() {
        Explanation::plain(alloc, "unexpected end of the script")
    } else {
        Explanation::of(alloc, "unexpected `$0`", token, None)
    }
}

fn told_of_token(alloc: Global, text: &[u8], fault: LexFault) -> Result<Explanation, AllocError> {
    match fault {
        LexFault::BadByte(at) => told_of_byte(alloc, text, at),
        LexFault::BadNumber(at) => Explanation::plain(alloc, words_of_number(bytes_at(text, at))),
        LexFault::OpenString(at) if text.get(at.to) == Some(&b'\t') => Explanation::plain(
            alloc,
            "unexpected tab in a string",
        ),
        LexFault::OpenString(_) => Explanation::plain(
            alloc,
            "unterminated string: there is no closing \" on its line",
        ),
        LexFault::OpenComment(_) => Explanation::plain(
            alloc,
            "unterminated comment: there is no closing */",
        ),
        LexFault::BadEscape(at) => {
            let template = "unknown escape `$0`: strings have \\n, \\t, \\\\ and \\\"";
            Explanation::of(alloc, template, bytes_at(text, at), None)
        }
    }
}

/// Returns the sentence about a malformed number.
fn words_of_number(number: &[u8]) -> &'static str {
    for byte in number {
        if !byte.is_ascii_digit() {
            return "invalid number: numbers consist of digits";
        }
    }
    match number {
        [b'0', ..] => "invalid number: there is a leading 0",
        _ => "number too large: the largest is 9223372036854775807",
    }
}

/// Returns the sentence about a byte that begins no token.
fn told_of_byte(alloc: Global, text: &[u8], at: Span) -> Result<Explanation, AllocError> {
    match bytes_at(text, at) {
        [byte, ..] if *byte == b'"' || *byte < b' ' || *byte > b'~' => {
            let mut buffer = Buffer::new();
            let digits = buffer.format(*byte).as_bytes();
            Explanation::of(alloc, "unexpected byte $0", digits, None)
        }
        character => Explanation::of(alloc, "unexpected character `$0`", character, None),
    }
}
