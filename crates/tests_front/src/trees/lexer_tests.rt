//! Texts with their tokens and their faults.

use crate::asserts::is_equal;
use lexer::Lexer;
use lexer::fault::LexFault;
use lexer::token::{Span, Token, TokenKind};
use lexer::value::{number_value, string_content};
use std::alloc::Global;
use std::process::Abort;

/// The bytes from one place to another.
fn at(from: usize, to: usize) -> Span {
    Span { from, to }
}

/// The item is a token of this kind, at this place of the text.
fn is_token(
    rt: &impl Abort,
    item: Option<Result<Token<'_>, LexFault>>,
    text: &[u8],
    kind: TokenKind,
    place: Span,
) {
    let token = item.expect(rt, "a token").ok().expect(rt, "no fault");
    is_equal(rt, token.kind, kind);
    is_equal(rt, token.span, place);
    is_equal(rt, Some(token.text), text.get(place.from..place.to));
}

/// The item is this fault.
fn is_fault(rt: &impl Abort, item: Option<Result<Token<'_>, LexFault>>, wanted: LexFault) {
    is_equal(rt, item.expect(rt, "a fault").err(), Some(wanted));
}

/// The text has these tokens at these places, then this fault or its end, and no other fault.
fn expect(
    rt: &impl Abort,
    text: &[u8],
    tokens: &[(TokenKind, usize, usize)],
    fault: Option<LexFault>,
) {
    let mut lexer = Lexer::new(text);
    for (kind, from, to) in tokens {
        is_token(rt, lexer.next(), text, *kind, at(*from, *to));
    }
    match fault {
        Some(fault) => is_fault(rt, lexer.next(), fault),
        None => {}
    }
    assert!(rt; lexer.next().is_none());
    assert!(rt; lexer.next().is_none());
}

#[test]
fn reads_names_numbers_and_strings(rt: HostRuntime) {
    let text = b"int n_1=90; _x @ \"a\\\"b\"//end";
    let tokens = [
        (TokenKind::Int, 0, 3),
        (TokenKind::Name, 4, 7),
        (TokenKind::Assign, 7, 8),
        (TokenKind::Number, 8, 10),
        (TokenKind::Semicolon, 10, 11),
        (TokenKind::Name, 12, 14),
        (TokenKind::At, 15, 16),
        (TokenKind::Text, 17, 23),
    ];
    expect(&rt, text.as_slice(), tokens.as_slice(), None);
}

#[test]
fn reads_keywords(rt: HostRuntime) {
    let text = b"string boolean if else foreach in wait import true false integer If";
    let tokens = [
        (TokenKind::String, 0, 6),
        (TokenKind::Boolean, 7, 14),
        (TokenKind::If, 15, 17),
        (TokenKind::Else, 18, 22),
        (TokenKind::Foreach, 23, 30),
        (TokenKind::In, 31, 33),
        (TokenKind::Wait, 34, 38),
        (TokenKind::Import, 39, 45),
        (TokenKind::True, 46, 50),
        (TokenKind::False, 51, 56),
        (TokenKind::Name, 57, 64),
        (TokenKind::Name, 65, 67),
    ];
    expect(&rt, text.as_slice(), tokens.as_slice(), None);
}

#[test]
fn reads_symbols(rt: HostRuntime) {
    let text = b"(){}[],:===!=<<=>>=+-*%/%%!&&||/**/!/***/";
    let tokens = [
        (TokenKind::OpenRound, 0, 1),
        (TokenKind::CloseRound, 1, 2),
        (TokenKind::OpenCurly, 2, 3),
        (TokenKind::CloseCurly, 3, 4),
        (TokenKind::OpenSquare, 4, 5),
        (TokenKind::CloseSquare, 5, 6),
        (TokenKind::Comma, 6, 7),
        (TokenKind::Colon, 7, 8),
        (TokenKind::Equal, 8, 10),
        (TokenKind::Assign, 10, 11),
        (TokenKind::NotEqual, 11, 13),
        (TokenKind::Less, 13, 14),
        (TokenKind::AtMost, 14, 16),
        (TokenKind::Greater, 16, 17),
        (TokenKind::AtLeast, 17, 19),
        (TokenKind::Plus, 19, 20),
        (TokenKind::Minus, 20, 21),
        (TokenKind::Times, 21, 22),
        (TokenKind::Quotient, 22, 24),
        (TokenKind::Remainder, 24, 26),
        (TokenKind::Not, 26, 27),
        (TokenKind::And, 27, 29),
        (TokenKind::Or, 29, 31),
        (TokenKind::Not, 35, 36),
    ];
    expect(&rt, text.as_slice(), tokens.as_slice(), None);
}

#[test]
fn reads_past_comments(rt: HostRuntime) {
    let text = b"//\r#\nx /* // \" */ y /***/ z//";
    let tokens = [
        (TokenKind::Name, 5, 6),
        (TokenKind::Name, 18, 19),
        (TokenKind::Name, 26, 27),
    ];
    expect(&rt, text.as_slice(), tokens.as_slice(), None);
}

/// The text has no token, and this fault.
fn expect_fault(rt: &impl Abort, text: &[u8], fault: LexFault) {
    expect(rt, text, [].as_slice(), Some(fault));
}

#[test]
fn finds_bad_bytes(rt: HostRuntime) {
    expect_fault(&rt, b"#".as_slice(), LexFault::BadByte(at(0, 1)));
    expect_fault(&rt, b" /".as_slice(), LexFault::BadByte(at(1, 2)));
    expect_fault(&rt, b"&".as_slice(), LexFault::BadByte(at(0, 1)));
    expect_fault(&rt, b"\"\x80".as_slice(), LexFault::BadByte(at(1, 2)));
    expect_fault(&rt, b"/*\0".as_slice(), LexFault::BadByte(at(2, 3)));
    expect_fault(&rt, b"//a\x01".as_slice(), LexFault::BadByte(at(3, 4)));
    expect_fault(&rt, b"/*\x7f*/".as_slice(), LexFault::BadByte(at(2, 3)));
    expect_fault(&rt, b"\"a\xc3\"".as_slice(), LexFault::BadByte(at(2, 3)));
}

#[test]
fn finds_bad_numbers_and_escapes(rt: HostRuntime) {
    expect_fault(&rt, b"007".as_slice(), LexFault::BadNumber(at(0, 3)));
    expect_fault(&rt, b"12a_ ".as_slice(), LexFault::BadNumber(at(0, 4)));
    expect_fault(
        &rt,
        b"9223372036854775808".as_slice(),
        LexFault::BadNumber(at(0, 19)),
    );
    expect_fault(&rt, b"\"ab\\q\"".as_slice(), LexFault::BadEscape(at(3, 5)));
    expect_fault(&rt, b"\"\\\xff\"".as_slice(), LexFault::BadEscape(at(1, 3)));
}

#[test]
fn finds_open_strings_and_comments(rt: HostRuntime) {
    expect_fault(&rt, b"\"a\n\"".as_slice(), LexFault::OpenString(at(0, 2)));
    expect_fault(&rt, b"\"a\tb\"".as_slice(), LexFault::OpenString(at(0, 2)));
    expect_fault(&rt, b"\"a\\".as_slice(), LexFault::OpenString(at(0, 3)));
    expect_fault(&rt, b"\"a\\\r\"".as_slice(), LexFault::OpenString(at(0, 3)));
    expect_fault(&rt, b"/* /*".as_slice(), LexFault::OpenComment(at(0, 5)));
    expect_fault(&rt, b"\n/*/".as_slice(), LexFault::OpenComment(at(1, 4)));
}

#[test]
fn finds_faults_behind_tokens(rt: HostRuntime) {
    let call = [(TokenKind::Name, 0, 6), (TokenKind::OpenRound, 6, 7)];
    let open = LexFault::OpenString(Span { from: 7, to: 9 });
    expect(&rt, b"printf(\"a".as_slice(), call.as_slice(), Some(open));
    let divide = [(TokenKind::Quotient, 0, 2)];
    let slash = LexFault::BadByte(Span { from: 2, to: 3 });
    expect(&rt, b"%//".as_slice(), divide.as_slice(), Some(slash));
}

#[test]
fn goes_on_behind_a_token(rt: HostRuntime) {
    let text = b"a = 1; /* b */ c \"d".as_slice();
    let mut lexer = Lexer::behind(text, 6);
    is_token(&rt, lexer.next(), text, TokenKind::Name, at(15, 16));
    is_fault(&rt, lexer.next(), LexFault::OpenString(at(17, 19)));
    assert!(rt; lexer.next().is_none());
    let mut all = Lexer::behind(text, 0);
    is_token(&rt, all.next(), text, TokenKind::Name, at(0, 1));
    assert!(rt; Lexer::behind(text, 19).next().is_none());
}

/// The message of the fault of the first byte is this text.
fn is_told(rt: &impl Abort, alloc: Global, fault: LexFault, wanted: &str) {
    let told = format!(in alloc; "{fault}").expect(rt, "memory");
    is_equal(rt, told.as_str(), wanted);
    is_equal(rt, fault.span(), Span::at(0, 1));
}

#[test]
fn names_faults(rt: HostRuntime) {
    let alloc = rt.alloc();
    let span = Span { from: 0, to: 1 };
    is_told(&rt, alloc, LexFault::BadByte(span), "L1 BadByte");
    is_told(&rt, alloc, LexFault::BadNumber(span), "L2 BadNumber");
    is_told(&rt, alloc, LexFault::OpenString(span), "L3 OpenString");
    is_told(&rt, alloc, LexFault::OpenComment(span), "L4 OpenComment");
    is_told(&rt, alloc, LexFault::BadEscape(span), "L5 BadEscape");
}

#[test]
fn gives_values_of_numbers(rt: HostRuntime) {
    is_equal(&rt, number_value(b"0".as_slice()), Some(0));
    is_equal(
        &rt,
        number_value(b"9223372036854775807".as_slice()),
        Some(9_223_372_036_854_775_807),
    );
    is_equal(&rt, number_value(b"9223372036854775808".as_slice()), None);
}

#[test]
fn gives_the_content_of_a_string(rt: HostRuntime) {
    let mut lexer = Lexer::new(b"\"a\\n\\t\\\\\\\"b\"".as_slice());
    let item = lexer.next();
    let token = item.expect(&rt, "a token").ok().expect(&rt, "no fault");
    assert!(rt; token.kind == TokenKind::Text);
    let content = string_content(rt.alloc(), token.text).expect(&rt, "memory");
    is_equal(&rt, content.as_slice(), b"a\n\t\\\"b".as_slice());
}
