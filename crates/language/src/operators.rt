//! Classification of token kinds for the parser: binary operators, base types, and the levels whose operators may be
//! chained (Swift/T Guide, on operators and types).

ghost use Rattle.std.specs.Prelude.{◌≡◌};
ghost use Rattle.language.specs.Kinds.{operator_of, base_of, repeats};

use crate::tree::{Base, Level, Operator};
use lexer::token::TokenKind;

/// Returns the binary operator of a token kind, if it has one.
pub fn operator_of_kind(kind: TokenKind) -> Option<Operator>
    ensures { result ≡ operator_of kind }
{
    match kind {
        TokenKind::Equal => Some(Operator::Equal),
        TokenKind::NotEqual => Some(Operator::NotEqual),
        TokenKind::Less => Some(Operator::Less),
        TokenKind::AtMost => Some(Operator::AtMost),
        TokenKind::Greater => Some(Operator::Greater),
        TokenKind::AtLeast => Some(Operator::AtLeast),
        TokenKind::Plus => Some(Operator::Plus),
        TokenKind::Minus => Some(Operator::Minus),
        TokenKind::Times => Some(Operator::Times),
        TokenKind::Quotient => Some(Operator::Quotient),
        TokenKind::Remainder => Some(Operator::Remainder),
        TokenKind::And => Some(Operator::And),
        TokenKind::Or => Some(Operator::Or),
        _ => None,
    }
}

/// Returns the base type that a token kind names, if it names one.
pub fn base_of_kind(kind: TokenKind) -> Option<Base>
    ensures { result ≡ base_of kind }
{
    match kind {
        TokenKind::Int => Some(Base::Int),
        TokenKind::String => Some(Base::Text),
        TokenKind::Boolean => Some(Base::Boolean),
        _ => None,
    }
}

/// Returns true if the operators of a level may follow one another without parentheses. For comparisons they may not:
/// `a < b < c` is not an expression.
pub fn repeats(level: Level) -> bool
    ensures { result ≡ repeats level }
{
    match level {
        Level::Equality | Level::Order => false,
        Level::Or | Level::And | Level::Sum | Level::Product => true,
    }
}
