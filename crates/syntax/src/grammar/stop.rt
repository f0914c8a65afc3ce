//! Stops of the parser: where reading a text stops, before a lexical fault after the last token is looked up.

ghost use Rattle.std.specs.Prelude.{◌≡◌};
ghost use Rattle.syntax.specs.declared.grammar.stop.ParseStop.TheVariants.{Memory};

use lexer::token::Span;
use std::alloc::{AllocError, AllocFailed};

#[derive(Clone, Copy, Debug, PartialEq, Eq)]
pub enum ParseStop {
    /// After the last token.
    AtEnd,
    /// At a token with which no text continues.
    Unexpected(Span),
    /// At a token that nests too deep.
    TooNested(Span),
    /// At any place, because an allocation failed.
    Memory,
}

impl From<AllocError> for ParseStop {
    ghost from_gives = { λ _ e. e ≡ Memory };

    fn from(_e: AllocError) -> ParseStop {
        ParseStop::Memory
    }
}

impl<T: Drop> From<AllocFailed<T>> for ParseStop {
    ghost from_gives = { λ _ e. e ≡ Memory };

    fn from(_e: AllocFailed<T>) -> ParseStop {
        ParseStop::Memory
    }
}
