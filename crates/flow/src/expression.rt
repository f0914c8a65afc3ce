//! Expressions of a flow.

use crate::name::Name;
use std::alloc::Allocator;
use values::op::{Factor, Order, Sign};

/// The operation that an expression applies to its operands, with its signs, operators or format (Swift/T Guide, on
/// operators).
#[derive(Drop)]
pub enum Operation<A: Allocator> {
    /// The signs between the operands of a chain of `+` and `-`.
    Sum(Vec<Sign, A>),
    /// The operators between the operands of a chain of `*`, `%/` and `%%`.
    Product(Vec<Factor, A>),
    Compare(Order),
    Equal,
    Unequal,
    And,
    Or,
    Not,
    Negate,
    Join,
    FromInt,
    ToInt,
    Size,
    /// The bytes of the format of a `printf`. A text that is not a format, or a first argument that is not a text,
    /// prints nothing. No accepted script has either.
    Printf(Vec<u8, A>),
    Assert,
    /// An array literal, whose operands are its elements.
    Literal,
}

/// An expression without its nested cells and calls, to which it refers by their nodes.
#[cycle(expr)]
#[derive(Drop)]
pub enum Expr<A: Allocator> {
    Number(i64),
    /// The bytes of a `string`.
    Text(Vec<u8, A>),
    Truth(bool),
    /// A scalar variable or a cell.
    Name(Name),
    /// A whole array, for its elements or their number.
    Whole(Name),
    Operation(Operation<A>, Vec<Expr<A>, A>),
}
