//! The eight fault kinds, and faults with the statements that caused them.
ghost use Rattle.std.specs.Prelude.{◌≡◌, ◌≤◌, length, Some, IfOk, IfErr};
ghost use Rattle.paths.specs.Names.{fault_name, operation_of};
ghost use Rattle.paths.specs.Order.{fault_below, fault_number, same_fault};

use crate::statements::StatementInstance;
use std::alloc::AllocError;
use std::fmt;
use values::fault::OpFault;

/// A kind of fault that stops a run, numbered from 1.
#[derive(Clone, Copy, PartialEq, Eq, Hash, Debug)]
pub enum FaultKind {
    /// A number that does not fit in 64 bits, or a range of too many values.
    Overflow,
    /// A division by 0.
    DivideByZero,
    /// A read of an element that a closed array does not have.
    NoElement,
    /// A second write of one element.
    ElementTwice,
    /// A range whose step is less than 1.
    BadStep,
    /// A path that would have too many steps.
    TooDeep,
    /// A text that does not spell an integer.
    NotANumber,
    /// A failed assertion.
    AssertFailed,
}

/// A fault and its statement.
#[derive(Debug, Drop)]
pub struct Fault {
    pub kind: FaultKind,
    pub statement: StatementInstance,
}

impl FaultKind {
    /// All kinds, in the order of their numbers.
    pub const ALL: [FaultKind; 8] = [
        FaultKind::Overflow,
        FaultKind::DivideByZero,
        FaultKind::NoElement,
        FaultKind::ElementTwice,
        FaultKind::BadStep,
        FaultKind::TooDeep,
        FaultKind::NotANumber,
        FaultKind::AssertFailed,
    ];

    /// Converts the fault of an operator, a conversion or a range into its kind.
    ///
    /// # Errors
    ///
    /// Returns `AllocError` for `OpFault::Memory`, which is not a fault of the script.
    pub fn of_operation(fault: OpFault) -> Result<FaultKind, AllocError>
        ensures kind { IfOk result (λ kind. operation_of kind ≡ Some fault) }
        ensures memory { IfErr result (λ _. fault ≡ OpFault.Memory) }
    {
        match fault {
            OpFault::Overflow => Ok(FaultKind::Overflow),
            OpFault::DivideByZero => Ok(FaultKind::DivideByZero),
            OpFault::BadStep => Ok(FaultKind::BadStep),
            OpFault::NotANumber => Ok(FaultKind::NotANumber),
            OpFault::AssertFailed => Ok(FaultKind::AssertFailed),
            OpFault::Memory => Err(AllocError),
        }
    }

    /// Returns the number of the kind, from 1 to 8.
    pub fn number(self) -> u32
        ensures { result ≡ fault_number self }
    {
        match self {
            FaultKind::Overflow => 1,
            FaultKind::DivideByZero => 2,
            FaultKind::NoElement => 3,
            FaultKind::ElementTwice => 4,
            FaultKind::BadStep => 5,
            FaultKind::TooDeep => 6,
            FaultKind::NotANumber => 7,
            FaultKind::AssertFailed => 8,
        }
    }

    /// Returns the number and the name of the kind, as in `F3 NoElement`.
    pub fn name(self) -> &'static str
        ensures name { result.now ≡ fault_name self }
        ensures short { length result.now ≤ 15 }
    {
        match self {
            FaultKind::Overflow => "F1 Overflow",
            FaultKind::DivideByZero => "F2 DivideByZero",
            FaultKind::NoElement => "F3 NoElement",
            FaultKind::ElementTwice => "F4 ElementTwice",
            FaultKind::BadStep => "F5 BadStep",
            FaultKind::TooDeep => "F6 TooDeep",
            FaultKind::NotANumber => "F7 NotANumber",
            FaultKind::AssertFailed => "F8 AssertFailed",
        }
    }
}

impl fmt::Display for FaultKind {
    ghost output = { λ kind. Some (fault_name kind) };

    fn fmt<W: fmt::Write>(&self, f: &mut fmt::Formatter<W>) -> fmt::Result {
        f.write_str(self.name())
    }
}

impl Fault {
    /// Returns true if this fault sorts before `other`: by statement, then by fault number.
    pub fn is_below(&self, other: &Fault) -> bool
        ensures { result ≡ fault_below self.now other.now }
    {
        self.statement.is_below(&other.statement)
            || (self.statement.is_same(&other.statement)
                && self.kind.number() < other.kind.number())
    }

    /// Returns true if both are the same fault of the same statement.
    pub fn is_same(&self, other: &Fault) -> bool
        ensures { result ≡ same_fault self.now other.now }
    {
        self.statement.is_same(&other.statement) && self.kind.number() == other.kind.number()
    }
}
