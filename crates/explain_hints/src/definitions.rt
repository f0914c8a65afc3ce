//! Search for function definitions in a text that may not parse.

use lexer::lexer::Lexer;
use lexer::token::TokenKind;

/// The prefix of a function head that precedes the current token.
#[derive(Clone, Copy, PartialEq, Eq)]
enum HeadState {
    Nothing,
    /// Up to the bracket that closes the outputs.
    Outputs,
    /// Up to the name after the outputs.
    Name,
    /// Up to the bracket that opens the inputs.
    Inputs,
}

/// Returns true if a text defines a function with this name.
///
/// It does if it has a `)`, the name, a `(`, and a type or a `)` as consecutive tokens. The search ends at the first
/// lexical fault.
pub fn is_defined(text: &[u8], name: &[u8]) -> bool {
    let mut lexer = Lexer::new(text);
    let mut head = HeadState::Nothing;
    for _ in 0..text.len() {
        let Some(Ok(token)) = lexer.next() else {
            return false;
        };
        if head == HeadState::Inputs && begins_inputs(token.kind) {
            return true;
        }
        head = next_head(head, token.kind, token.text == name);
    }
    false
}

/// Returns true if a token of this kind is a type, or closes an empty list of inputs.
fn begins_inputs(kind: TokenKind) -> bool {
    matches!(
        kind,
        TokenKind::Int | TokenKind::String | TokenKind::Boolean | TokenKind::CloseRound
    )
}

/// Returns the state after one more token. `is_it`: whether the token has the text of the name.
fn next_head(head: HeadState, kind: TokenKind, is_it: bool) -> HeadState {
    match (head, kind) {
        (_, TokenKind::CloseRound) => HeadState::Outputs,
        (HeadState::Outputs, TokenKind::Name) if is_it => HeadState::Name,
        (HeadState::Name, TokenKind::OpenRound) => HeadState::Inputs,
        _ => HeadState::Nothing,
    }
}
