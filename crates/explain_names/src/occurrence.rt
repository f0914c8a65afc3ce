//! Occurrences of variable names.

use language::tree::{Base, Shape};
use lexer::token::Span;

/// The type of a variable as it is shown: a scalar type, or an array of scalars of this type.
#[derive(Clone, Copy, Debug, PartialEq, Eq)]
pub struct DisplayType {
    pub base: Base,
    pub shape: Shape,
}

/// The kind of an occurrence of a variable's name.
#[derive(Clone, Copy, Debug, PartialEq, Eq)]
pub enum OccurrenceKind {
    /// Declared by a statement.
    Declared,
    /// Declared as an output.
    Output,
    /// Declared as an input or as a loop variable, which also assigns it.
    Given,
    /// Assigned by its name.
    Assigned,
    /// Written at one element.
    Written,
}

/// An occurrence of a variable's name.
#[derive(Clone, Copy, Debug, PartialEq, Eq)]
pub struct Occurrence {
    pub kind: OccurrenceKind,
    pub at: Span,
    /// The type, if it is given at this occurrence.
    pub sort: Option<DisplayType>,
}
