//! Suggested declarations for variables that a script does not declare.

use crate::calls::next_token;
use explain_names::lookup::{LookupKind, function_named, last_before};
use explain_names::occurrence::{DisplayType, Occurrence};
use explain_names::refused_script::RefusedScript;
use explain_text::words::write_str;
use lexer::lexer::Lexer;
use lexer::token::{Span, Token, TokenKind};
use std::alloc::{AllocError, Allocator};
use syntax_trees::tree::{Base, Keys, Shape};

/// The maximum length of a quoted statement in a hint, in bytes.
const MAX_QUOTED_BYTES: usize = 60;

/// Returns the type keyword of a declaration, followed by a space.
pub fn type_of(base: Base) -> &'static str {
    match base {
        Base::Int => "int ",
        Base::Text => "string ",
        Base::Boolean => "boolean ",
    }
}

/// Appends the declaration of a variable: its type, its name and the brackets of an array.
pub fn write_declaration(
    out: &mut Vec<u8>,
    sort: DisplayType,
    name: &[u8],
) -> Result<(), AllocError> {
    write_str(out, type_of(sort.base))?;
    out.extend_from_slice(name)?;
    write_str(
        out,
        match sort.shape {
            Shape::Scalar => "",
            Shape::Array(Keys::Numbers) => "[]",
            Shape::Array(Keys::Texts) => "[string]",
        },
    )
}

/// Returns the text from an offset to the end of the statement, with its `;`.
///
/// The result is empty if that text has a line end or more than `MAX_QUOTED_BYTES` bytes.
pub fn rest_of_statement(text: &[u8], at: usize) -> &[u8] {
    let from = at.min(text.len());
    let mut lexer = Lexer::behind(text, from);
    for _ in from..text.len() {
        match next_token(&mut lexer) {
            Some(token) if token.kind == TokenKind::Semicolon => {
                let to = token.span.to;
                return on_one_line(text, Span { from, to });
            }
            Some(_) => {}
            None => break,
        }
    }
    &[]
}

/// Returns the bytes of a place, or an empty slice if they are more than `MAX_QUOTED_BYTES` or contain a line end.
fn on_one_line(text: &[u8], at: Span) -> &[u8] {
    if at.from > at.to || at.to > text.len() || at.to - at.from > MAX_QUOTED_BYTES {
        return &[];
    }
    let bytes = &text[at.from..at.to];
    if bytes.contains(&b'\n') { &[] } else { bytes }
}

/// Returns a guess at the type of an undeclared variable, from the tokens after its name: an index, or a `=` and a
/// value.
pub fn sort_behind<A: Allocator>(
    refused: &RefusedScript<'_, A>,
    occurrences: &[Occurrence],
    at: Span,
) -> DisplayType {
    let text = refused.text;
    let mut lexer = Lexer::behind(text, at.to.min(text.len()));
    let mut shape = Shape::Scalar;
    let mut is_assigned = false;
    match next_token(&mut lexer) {
        Some(token) if token.kind == TokenKind::OpenSquare => {
            let key = base_of(refused, occurrences, next_token(&mut lexer));
            shape = Shape::Array(if key == Base::Text {
                Keys::Texts
            } else {
                Keys::Numbers
            });
            is_assigned = passes(&mut lexer, text.len(), TokenKind::Assign);
        }
        Some(token) => is_assigned = token.kind == TokenKind::Assign,
        None => {}
    }
    let mut base = Base::Int;
    if is_assigned {
        let mut value = next_token(&mut lexer);
        if matches!(&value, Some(token) if token.kind == TokenKind::OpenSquare) {
            shape = Shape::Array(Keys::Numbers);
            value = next_token(&mut lexer);
        }
        base = base_of(refused, occurrences, value);
    }
    if is_assigned && compares(&mut lexer, text.len()) {
        base = Base::Boolean;
    }
    DisplayType { base, shape }
}

/// Returns the type of the output that the target at a place receives, or int if it is unknown. `first`: the offset of
/// the `(` before the targets.
pub fn sort_of_target<A: Allocator>(
    refused: &RefusedScript<'_, A>,
    first: usize,
    at: Span,
) -> DisplayType {
    let mut lexer = Lexer::behind(refused.text, first.min(refused.text.len()));
    let mut place: usize = 0;
    let mut called: &[u8] = &[];
    for _ in first..refused.text.len() {
        let Some(token) = next_token(&mut lexer) else {
            break;
        };
        if token.kind == TokenKind::Comma && token.span.from < at.from {
            place = place.saturating_add(1);
        }
        if token.kind == TokenKind::Assign {
            if let Some(name) = next_token(&mut lexer) {
                called = name.text;
            }
            break;
        }
    }
    if let Some(function) = function_named(called, refused.script) {
        if let Some(output) = function.outputs.get(place) {
            return DisplayType {
                base: output.base,
                shape: output.shape,
            };
        }
    }
    DisplayType {
        base: Base::Int,
        shape: Shape::Scalar,
    }
}

/// Returns a guess at the base type of a value, from its first token.
pub fn base_of<A: Allocator>(
    refused: &RefusedScript<'_, A>,
    occurrences: &[Occurrence],
    first: Option<Token<'_>>,
) -> Base {
    let Some(first) = first else {
        return Base::Int;
    };
    match first.kind {
        TokenKind::Text => Base::Text,
        TokenKind::True | TokenKind::False | TokenKind::Not => Base::Boolean,
        TokenKind::Name => base_of_name(refused, occurrences, first),
        _ => Base::Int,
    }
}

/// Returns the base type of the first output of a function with this name, or else of a variable with this name.
fn base_of_name<A: Allocator>(
    refused: &RefusedScript<'_, A>,
    occurrences: &[Occurrence],
    name: Token<'_>,
) -> Base {
    if name.text == b"fromint".as_slice() || name.text == b"strcat".as_slice() {
        return Base::Text;
    }
    if let Some(function) = function_named(name.text, refused.script) {
        if let Some(output) = function.outputs.first() {
            return output.base;
        }
    }
    let declared = last_before(
        refused.text,
        occurrences,
        LookupKind::Declaration,
        name.text,
        name.span.from,
    );
    match declared {
        Some(occurrence) => match occurrence.sort {
            Some(sort) => sort.base,
            None => Base::Int,
        },
        None => Base::Int,
    }
}

/// Returns true if a token of this kind precedes the next `;`, and advances the lexer past it. At most `most` tokens
/// are read.
fn passes(lexer: &mut Lexer<'_>, most: usize, kind: TokenKind) -> bool {
    for _ in 0..most {
        match next_token(lexer) {
            Some(token) if token.kind == kind => return true,
            Some(token) if token.kind != TokenKind::Semicolon => {}
            _ => return false,
        }
    }
    false
}

/// Returns true if an operator with a boolean result precedes the next `;` or `,`, outside brackets. At most `most`
/// tokens are read.
fn compares(lexer: &mut Lexer<'_>, most: usize) -> bool {
    let mut depth: usize = 0;
    for _ in 0..most {
        let Some(token) = next_token(lexer) else {
            return false;
        };
        match token.kind {
            TokenKind::OpenRound | TokenKind::OpenSquare => depth = depth.saturating_add(1),
            TokenKind::CloseRound | TokenKind::CloseSquare => depth = depth.saturating_sub(1),
            TokenKind::Semicolon | TokenKind::Comma => return false,
            kind if depth == 0 && gives_boolean(kind) => return true,
            _ => {}
        }
    }
    false
}

/// Returns true if an operator of this kind has a boolean result.
fn gives_boolean(kind: TokenKind) -> bool {
    matches!(
        kind,
        TokenKind::Equal
            | TokenKind::NotEqual
            | TokenKind::Less
            | TokenKind::AtMost
            | TokenKind::Greater
            | TokenKind::AtLeast
            | TokenKind::And
            | TokenKind::Or
    )
}
