//! Type faults: the rules Y1 to Y6, with the place of the violation.
ghost use Rattle.std.specs.Prelude.{◌≡◌, ◌≤◌, length};
ghost use Rattle.types.specs.FaultNames.{type_name};

use lexer::token::Span;
use std::alloc::{AllocError, AllocFailed};
use std::error::Error;
use std::fmt;

/// The first typing rule that a script breaks, with the place of the violation, or an allocation failure.
#[derive(Clone, Copy, PartialEq, Eq, Debug, Drop)]
pub enum TypeFault {
    /// A name that is not a visible variable; the place is that name.
    Unknown(Span),
    /// A second declaration: of a variable whose name is visible, or of a function whose name is taken. The place is
    /// the declared name.
    Declared(Span),
    /// An expression or a name of the wrong type; the place is its first token.
    Mismatch(Span),
    /// A wrong number of arguments or outputs; the place is the called name.
    WrongCount(Span),
    /// A first argument of `printf` that is not a string literal with a valid format; the place is that argument.
    BadFormat(Span),
    /// A called name that is not a function; the place is that name.
    NotAFunction(Span),
    /// An allocation failed.
    Memory,
}

impl TypeFault {
    ghost use Rattle.types.specs.Faults.{span_of};

    /// Returns the place of the violation as a byte range of the text, or `None` for an allocation failure.
    pub fn span(self) -> Option<Span>
        ensures { result ≡ span_of self }
    {
        match self {
            TypeFault::Unknown(at)
            | TypeFault::Declared(at)
            | TypeFault::Mismatch(at)
            | TypeFault::WrongCount(at)
            | TypeFault::BadFormat(at)
            | TypeFault::NotAFunction(at) => Some(at),
            TypeFault::Memory => None,
        }
    }

    /// Returns the number and the name of the rule, or "no memory" for an allocation failure.
    pub fn name(self) -> &'static str
        ensures text { result.now ≡ type_name self }
        ensures short { length result.now ≤ 20 }
    {
        match self {
            TypeFault::Unknown(_) => "Y1 Unknown",
            TypeFault::Declared(_) => "Y2 Declared",
            TypeFault::Mismatch(_) => "Y3 Mismatch",
            TypeFault::WrongCount(_) => "Y4 WrongCount",
            TypeFault::BadFormat(_) => "Y5 BadFormat",
            TypeFault::NotAFunction(_) => "Y6 NotAFunction",
            TypeFault::Memory => "no memory",
        }
    }
}

impl fmt::Display for TypeFault {
    fn fmt<W: fmt::Write>(&self, f: &mut fmt::Formatter<W>) -> fmt::Result {
        write!(f, "{}", self.name())
    }
}

impl Error for TypeFault {}

impl From<AllocError> for TypeFault {
    ghost use Rattle.types.specs.declared.fault.TypeFault.TheVariants.{Memory};

    ghost from_gives = { λ _ fault. fault ≡ Memory };

    fn from(_refused: AllocError) -> TypeFault {
        TypeFault::Memory
    }
}

impl<T: Drop> From<AllocFailed<T>> for TypeFault {
    ghost use Rattle.types.specs.declared.fault.TypeFault.TheVariants.{Memory};

    ghost from_gives = { λ _ fault. fault ≡ Memory };

    fn from(_refused: AllocFailed<T>) -> TypeFault {
        TypeFault::Memory
    }
}
