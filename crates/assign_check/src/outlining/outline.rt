//! Outlines of blocks: the declarations, the uses of variables and the nested blocks that single assignment depends on.

use language::tree::Shape;
use lexer::token::Span;
use types::typed::Binding;

/// The kind of a use of a variable.
#[derive(Clone, Copy)]
pub enum UseKind {
    /// An assignment of the variable by its name.
    Named,
    /// A write of an element of the variable.
    Written,
    /// A read of the variable by its name, if it is a scalar.
    Read,
}

/// A use of a variable, with the place of its name.
#[derive(Clone, Copy)]
pub struct UseSite {
    pub kind: UseKind,
    pub of: Binding,
    pub span: Span,
}

/// The role of a declared variable.
#[derive(Clone, Copy)]
pub enum DeclRole {
    /// A variable that a statement declares.
    Own,
    /// An output of a function.
    Output,
    /// A variable that counts as assigned whole at its declaration: an input or a loop variable.
    Given,
}

/// A declaration, with the place of the declared name.
#[derive(Clone, Copy)]
pub struct Declaration {
    pub what: Binding,
    pub shape: Shape,
    pub role: DeclRole,
    pub span: Span,
}

/// A step of a block: a declaration, a use, or a statement with nested blocks.
#[cycle(step)]
#[derive(Drop)]
pub enum OutlineStep {
    Declares(Declaration),
    Uses(UseSite),
    /// An `if`: its number, the place of its first token, and its two branches.
    Splits(u32, Span, Vec<OutlineStep>, Vec<OutlineStep>),
    /// A loop: its number and its body.
    Repeats(u32, Vec<OutlineStep>),
    /// The block of a `wait`.
    Encloses(Vec<OutlineStep>),
}
