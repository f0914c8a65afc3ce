//! Scanner for the piece at the front of a text: a separator, a token or a fault.

ghost use Rattle.std.specs.Prelude.{◌≡◌, ◌+◌, ◌^◌, ◌<◌, ◌≤◌, length, drop, Some, None, false, slice_index, if◌then◌else◌};
ghost use Rattle.std.specs.Str.{bytes_eq};
ghost use Rattle.lexer.specs.Kinds.{kind_of_word, symbol_of_one, symbol_of_two};
ghost use Rattle.lexer.specs.Reading.{line_piece, block_piece, string_piece, word_of, word_piece, symbol_piece, slash_piece, piece};

use crate::bytes::{escaped_byte, is_allowed, is_blank, is_break, is_letter, is_word_byte};
use crate::fault::LexFault;
use crate::token::{Span, TokenKind};
use crate::value::number_value;

/// The piece at the front of a text: a separator or a token with its number of bytes, or a fault.
#[derive(Clone, Copy, Debug, PartialEq, Eq)]
pub enum ScanResult {
    Gap(usize),
    Token(TokenKind, usize),
    Fault(LexFault),
}

/// Returns `kind` if the word is this keyword, otherwise `other`.
fn either(word: &[u8], keyword: &[u8], kind: TokenKind, other: TokenKind) -> TokenKind
    ensures { result ≡ (if bytes_eq word.now keyword.now then kind else other) }
{
    if word == keyword { kind } else { other }
}

/// Returns the keyword that a word spells, or `Name`. The word is compared only with the keywords of its length.
#[tactic(auto, using(crate::proofs::Words::of_three, crate::proofs::Words::of_five, crate::proofs::Words::no_keyword))]
fn kind_of_word(word: &[u8]) -> TokenKind
    ensures { result ≡ kind_of_word word.now }
{
    match word.len() {
        2 => {
            let or_in = either(word, b"in".as_slice(), TokenKind::In, TokenKind::Name);
            either(word, b"if".as_slice(), TokenKind::If, or_in)
        }
        3 => either(word, b"int".as_slice(), TokenKind::Int, TokenKind::Name),
        4 => {
            let or_true = either(word, b"true".as_slice(), TokenKind::True, TokenKind::Name);
            let or_wait = either(word, b"wait".as_slice(), TokenKind::Wait, or_true);
            either(word, b"else".as_slice(), TokenKind::Else, or_wait)
        }
        5 => either(word, b"false".as_slice(), TokenKind::False, TokenKind::Name),
        6 => {
            let or_import = either(
                word,
                b"import".as_slice(),
                TokenKind::Import,
                TokenKind::Name,
            );
            either(word, b"string".as_slice(), TokenKind::String, or_import)
        }
        7 => {
            let or_foreach = either(
                word,
                b"foreach".as_slice(),
                TokenKind::Foreach,
                TokenKind::Name,
            );
            either(word, b"boolean".as_slice(), TokenKind::Boolean, or_foreach)
        }
        _ => TokenKind::Name,
    }
}

fn symbol_of_one(byte: u8) -> Option<TokenKind>
    ensures { result ≡ symbol_of_one byte }
{
    match byte {
        b'(' => Some(TokenKind::OpenRound),
        b')' => Some(TokenKind::CloseRound),
        b'{' => Some(TokenKind::OpenCurly),
        b'}' => Some(TokenKind::CloseCurly),
        b'[' => Some(TokenKind::OpenSquare),
        b']' => Some(TokenKind::CloseSquare),
        b',' => Some(TokenKind::Comma),
        b';' => Some(TokenKind::Semicolon),
        b':' => Some(TokenKind::Colon),
        b'=' => Some(TokenKind::Assign),
        b'<' => Some(TokenKind::Less),
        b'>' => Some(TokenKind::Greater),
        b'+' => Some(TokenKind::Plus),
        b'-' => Some(TokenKind::Minus),
        b'*' => Some(TokenKind::Times),
        b'!' => Some(TokenKind::Not),
        b'@' => Some(TokenKind::At),
        _ => None,
    }
}

fn symbol_of_two(first: u8, second: u8) -> Option<TokenKind>
    ensures { result ≡ symbol_of_two first second }
{
    match (first, second) {
        (b'=', b'=') => Some(TokenKind::Equal),
        (b'!', b'=') => Some(TokenKind::NotEqual),
        (b'<', b'=') => Some(TokenKind::AtMost),
        (b'>', b'=') => Some(TokenKind::AtLeast),
        (b'%', b'/') => Some(TokenKind::Quotient),
        (b'%', b'%') => Some(TokenKind::Remainder),
        (b'&', b'&') => Some(TokenKind::And),
        (b'|', b'|') => Some(TokenKind::Or),
        _ => None,
    }
}

/// Scans the comment from `//` to the next line feed, which is not part of it, or to the end of the text.
fn line_comment(at: usize, bytes: &[u8]) -> ScanResult
    requires room { at + length bytes.now < 2 ^ 64 }
    requires begun { 2 ≤ length bytes.now }
    ensures { result ≡ line_piece at 2 (drop 2 bytes.now) }
{
    let mut n = 2;
    while n < bytes.len() {
        if bytes[n] == b'\n' {
            return ScanResult::Gap(n);
        }
        if !is_allowed(bytes[n]) {
            return ScanResult::Fault(LexFault::BadByte(Span::at(at + n, 1)));
        }
        n += 1;
    }
    ScanResult::Gap(n)
}

/// Scans the comment from `/*` to the next `*/`.
fn block_comment(at: usize, bytes: &[u8]) -> ScanResult
    requires room { at + length bytes.now < 2 ^ 64 }
    requires begun { 2 ≤ length bytes.now }
    ensures { result ≡ block_piece at 2 false (drop 2 bytes.now) }
{
    let mut n = 2;
    let mut star = false;
    while n < bytes.len() {
        let byte = bytes[n];
        if star && byte == b'/' {
            return ScanResult::Gap(n + 1);
        }
        if !is_allowed(byte) {
            return ScanResult::Fault(LexFault::BadByte(Span::at(at + n, 1)));
        }
        star = byte == b'*';
        n += 1;
    }
    ScanResult::Fault(LexFault::OpenComment(Span::at(at, n)))
}

/// Scans the string from its opening quote to its closing quote.
fn string(at: usize, bytes: &[u8]) -> ScanResult
    requires room { at + length bytes.now < 2 ^ 64 }
    requires begun { 1 ≤ length bytes.now }
    ensures { result ≡ string_piece at 1 false (drop 1 bytes.now) }
{
    let mut n = 1;
    let mut escaped = false;
    while n < bytes.len() {
        let byte = bytes[n];
        if is_break(byte) {
            return ScanResult::Fault(LexFault::OpenString(Span::at(at, n)));
        }
        if escaped {
            if escaped_byte(byte).is_none() {
                return ScanResult::Fault(LexFault::BadEscape(Span::at(at + n - 1, 2)));
            }
            escaped = false;
        } else {
            if byte == b'"' {
                return ScanResult::Token(TokenKind::Text, n + 1);
            }
            if !is_allowed(byte) {
                return ScanResult::Fault(LexFault::BadByte(Span::at(at + n, 1)));
            }
            escaped = byte == b'\\';
        }
        n += 1;
    }
    ScanResult::Fault(LexFault::OpenString(Span::at(at, n)))
}

/// Returns the longest prefix of letters, digits and `_`.
fn word(bytes: &[u8]) -> &[u8]
    ensures run { result.now ≡ word_of bytes.now }
    ensures within { length result.now ≤ length bytes.now }
{
    let mut n = 0;
    while n < bytes.len() && is_word_byte(bytes[n]) {
        n += 1;
    }
    &bytes[..n]
}

/// Scans a keyword, name or number. A word that begins with a digit and is not a number is a fault.
fn name_or_number(at: usize, bytes: &[u8]) -> ScanResult
    requires room { at + length bytes.now < 2 ^ 64 }
    requires begun { 1 ≤ length bytes.now }
    ensures { result ≡ word_piece at (slice_index bytes.now 0) (word_of bytes.now) }
{
    let word = word(bytes);
    if !bytes[0].is_ascii_digit() {
        return ScanResult::Token(kind_of_word(word), word.len());
    }
    match number_value(word) {
        Some(_) => ScanResult::Token(TokenKind::Number, word.len()),
        None => ScanResult::Fault(LexFault::BadNumber(Span::at(at, word.len()))),
    }
}

/// Scans the longest symbol. A byte that begins no symbol is a fault.
fn symbol(at: usize, bytes: &[u8]) -> ScanResult
    requires room { at + length bytes.now < 2 ^ 64 }
    requires begun { 1 ≤ length bytes.now }
    ensures { result ≡ symbol_piece at (slice_index bytes.now 0) (drop 1 bytes.now) }
{
    if bytes.len() > 1
        && let Some(kind) = symbol_of_two(bytes[0], bytes[1])
    {
        return ScanResult::Token(kind, 2);
    }
    match symbol_of_one(bytes[0]) {
        Some(kind) => ScanResult::Token(kind, 1),
        None => ScanResult::Fault(LexFault::BadByte(Span::at(at, 1))),
    }
}

/// Scans the comment that a `/` begins. A `/` that begins no comment is a fault.
fn comment(at: usize, bytes: &[u8]) -> ScanResult
    requires room { at + length bytes.now < 2 ^ 64 }
    requires begun { 1 ≤ length bytes.now }
    ensures { result ≡ slash_piece at (drop 1 bytes.now) }
{
    if bytes.len() > 1 && bytes[1] == b'/' {
        return line_comment(at, bytes);
    }
    if bytes.len() > 1 && bytes[1] == b'*' {
        return block_comment(at, bytes);
    }
    ScanResult::Fault(LexFault::BadByte(Span::at(at, 1)))
}

/// Scans the piece at the front of a text that starts at offset `at`.
pub fn first_piece(at: usize, bytes: &[u8]) -> ScanResult
    requires room { at + length bytes.now < 2 ^ 64 }
    requires begun { 1 ≤ length bytes.now }
    ensures { result ≡ piece at bytes.now }
{
    match bytes[0] {
        byte if is_blank(byte) => ScanResult::Gap(1),
        byte if is_word_byte(byte) => name_or_number(at, bytes),
        b'"' => string(at, bytes),
        b'/' => comment(at, bytes),
        _ => symbol(at, bytes),
    }
}
