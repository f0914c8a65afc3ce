//! Occurrences in a script: of variables, of called functions, and of forms that are mistakes.

use lexer::token::Span;

/// The kind of an occurrence.
#[derive(Clone, Copy, Debug, PartialEq, Eq)]
pub enum NameUseKind {
    /// A declaration of a variable by a statement, other than the next.
    Declared,
    /// A declaration of an array without a value.
    DeclaredArray,
    /// A read of a variable: by an expression, an argument, a loop or a `wait`.
    Read,
    /// A read of an element of an array.
    ReadElement,
    /// An assignment to a variable, or a write of an element of it.
    Written,
    /// A call of a function.
    Called,
    /// The beginning of the empty range of a loop.
    EmptyRange,
    /// The format of a `printf` that ends with a line end.
    ExtraLine,
    /// The brace of a block without statements, other than that of a function.
    EmptyBlock,
    /// The step of a range, a literal below 1.
    StepBelowOne,
    /// The condition of an `assert`, the literal `true`.
    AlwaysHolds,
    /// An assignment whose right side needs the variable that it assigns.
    WaitsForItself,
    /// A write of an element under a literal under which a statement before it in the same list writes one.
    KeyTwice,
    /// A chain of `&&` or `||` of which one operand is to guard a division in the next.
    IdleGuard,
    /// An operation on literals that overflows, a divisor 0, the string of a `toint` that is no number, or the
    /// condition of an `assert`, the literal `false`.
    AlwaysFails,
    /// The first one of plain statements in a cycle, of which each waits for the variable that the next one assigns.
    CircularWait,
}

/// An occurrence: its kind, its place, and the number of the name or of the node at that place, which is 0 for a brace.
#[derive(Clone, Copy, Debug, PartialEq, Eq)]
pub struct NameUse {
    pub kind: NameUseKind,
    pub number: u32,
    pub at: Span,
}
