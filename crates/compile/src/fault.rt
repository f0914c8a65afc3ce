//! Faults of the compiler: why a script has no code.
ghost use Rattle.std.specs.Prelude.{◌≡◌, ◌≤◌, length};
ghost use Rattle.compile.specs.Accepted.{fault_of_assignments, fault_of_text, fault_of_types};
ghost use Rattle.compile.specs.FaultNames.{fault_name};
ghost use Rattle.compile.specs.Places.{span_of};

use assign_check::fault::AssignFault;
use lexer::token::Span;
use std::error::Error;
use std::fmt;
use syntax::error::ParseFault;
use types::fault::TypeFault;

/// The refusal of the first step that refuses a script, or an allocation failure. It prints as its number and name, for
/// example `S1 AssignedTwice`.
#[derive(Clone, Copy, PartialEq, Eq, Debug)]
pub enum CompileFault {
    /// A text that is not a script.
    Parse(ParseFault),
    /// A script that is not well typed.
    Types(TypeFault),
    /// A script that is not singly assigned.
    Assignments(AssignFault),
    /// An allocation failure.
    Memory,
}

impl CompileFault {
    /// Converts a fault of the parser. An allocation failure is not a refusal and becomes `Memory`.
    pub fn of_text(fault: ParseFault) -> CompileFault
        ensures { result ≡ fault_of_text fault }
    {
        match fault {
            ParseFault::Memory => CompileFault::Memory,
            refusal => CompileFault::Parse(refusal),
        }
    }

    /// Converts a fault of the type check. An allocation failure is not a refusal and becomes `Memory`.
    pub fn of_types(fault: TypeFault) -> CompileFault
        ensures { result ≡ fault_of_types fault }
    {
        match fault {
            TypeFault::Memory => CompileFault::Memory,
            refusal => CompileFault::Types(refusal),
        }
    }

    /// Converts a fault of the assignment check. An allocation failure is not a refusal and becomes `Memory`.
    pub fn of_assignments(fault: AssignFault) -> CompileFault
        ensures { result ≡ fault_of_assignments fault }
    {
        match fault {
            AssignFault::Memory => CompileFault::Memory,
            refusal => CompileFault::Assignments(refusal),
        }
    }

    /// Returns the place of the refusal. An allocation failure has none.
    pub fn span(self) -> Option<Span>
        ensures { result ≡ span_of self }
    {
        match self {
            CompileFault::Parse(fault) => fault.span(),
            CompileFault::Types(fault) => fault.span(),
            CompileFault::Assignments(fault) => fault.span(),
            CompileFault::Memory => None,
        }
    }

    /// Returns the number and name of the fault.
    pub fn name(self) -> &'static str
        ensures text { result.now ≡ fault_name self }
        ensures short { length result.now ≤ 20 }
    {
        match self {
            CompileFault::Parse(fault) => fault.name(),
            CompileFault::Types(fault) => fault.name(),
            CompileFault::Assignments(fault) => fault.name(),
            CompileFault::Memory => "no memory",
        }
    }
}

impl fmt::Display for CompileFault {
    fn fmt<W: fmt::Write>(&self, f: &mut fmt::Formatter<W>) -> fmt::Result {
        write!(f, "{}", self.name())
    }
}

impl Error for CompileFault {}
