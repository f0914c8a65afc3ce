//! Assignment faults: the rules S1 to S6, with the place of the violation.
ghost use Rattle.std.specs.Prelude.{◌≡◌, ◌≤◌, length};
ghost use Rattle.assign_check.specs.FaultNames.{assign_name};
ghost use Rattle.assign_check.specs.Places.{span_of};

use lexer::token::Span;
use std::alloc::{AllocError, AllocFailed};
use std::error::Error;
use std::fmt;

/// The rule of single assignment that a script breaks, with the place of the violation, or an allocation failure.
#[derive(Clone, Copy, PartialEq, Eq, Debug, Drop)]
pub enum AssignFault {
    /// A second assignment to a variable on some control path; the place is that target.
    AssignedTwice(Span),
    /// An `if` whose branches assign a variable different numbers of times; the place is the `if`.
    PartlyAssigned(Span),
    /// A scalar that is read and never assigned; the place is its declared name.
    NeverAssigned(Span),
    /// An assignment by name, in a loop, to a variable that is declared outside the loop; the place is the target.
    OuterInLoop(Span),
    /// An array that is assigned both whole and by elements; the place is the first target whose form differs from the
    /// first one.
    WholeAndElements(Span),
    /// An output that is never assigned, neither by name nor by an element; the place is its declared name.
    OutputUnassigned(Span),
    /// An allocation failed.
    Memory,
}

impl AssignFault {
    /// Returns the place of the violation, or `None` for an allocation failure.
    pub fn span(self) -> Option<Span>
        ensures { result ≡ span_of self }
    {
        match self {
            AssignFault::AssignedTwice(at)
            | AssignFault::PartlyAssigned(at)
            | AssignFault::NeverAssigned(at)
            | AssignFault::OuterInLoop(at)
            | AssignFault::WholeAndElements(at)
            | AssignFault::OutputUnassigned(at) => Some(at),
            AssignFault::Memory => None,
        }
    }

    /// Returns the number and the name of the rule, or "no memory" for an allocation failure.
    pub fn name(self) -> &'static str
        ensures text { result.now ≡ assign_name self }
        ensures short { length result.now ≤ 20 }
    {
        match self {
            AssignFault::AssignedTwice(_) => "S1 AssignedTwice",
            AssignFault::PartlyAssigned(_) => "S2 PartlyAssigned",
            AssignFault::NeverAssigned(_) => "S3 NeverAssigned",
            AssignFault::OuterInLoop(_) => "S4 OuterInLoop",
            AssignFault::WholeAndElements(_) => "S5 WholeAndElements",
            AssignFault::OutputUnassigned(_) => "S6 OutputUnassigned",
            AssignFault::Memory => "no memory",
        }
    }
}

impl fmt::Display for AssignFault {
    fn fmt<W: fmt::Write>(&self, f: &mut fmt::Formatter<W>) -> fmt::Result {
        write!(f, "{}", self.name())
    }
}

impl Error for AssignFault {}

impl From<AllocError> for AssignFault {
    ghost use Rattle.assign_check.specs.declared.fault.AssignFault.TheVariants.{Memory};

    ghost from_gives = { λ _ fault. fault ≡ Memory };

    fn from(_refused: AllocError) -> AssignFault {
        AssignFault::Memory
    }
}

impl<T: Drop> From<AllocFailed<T>> for AssignFault {
    ghost use Rattle.assign_check.specs.declared.fault.AssignFault.TheVariants.{Memory};

    ghost from_gives = { λ _ fault. fault ≡ Memory };

    fn from(_refused: AllocFailed<T>) -> AssignFault {
        AssignFault::Memory
    }
}
