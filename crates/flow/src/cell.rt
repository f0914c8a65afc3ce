//! Cells and calls of a statement, in reading order.

use crate::expression::Expr;
use crate::name::Name;
use std::alloc::Allocator;

/// The form of a cell: a computed value or an array element.
#[derive(Drop)]
pub enum CellForm<A: Allocator> {
    /// The value of an expression.
    Compute(Expr<A>),
    /// The element of an array at the index that the cell of node `index` holds.
    Read { array: Name, index: u32 },
}

/// A cell: its node, the offset of the first token of its expression, and its form. For an array element the first
/// token is the array's name.
#[derive(Drop)]
pub struct Cell<A: Allocator> {
    pub node: u32,
    pub at: usize,
    pub form: CellForm<A>,
}

/// A call of a composite function: the offset of the called name, the index of the function in the script, and the
/// names bound to its inputs and outputs. An input is bound to a cell or an array, an output to a variable (Swift/T
/// Guide, on composite functions).
#[derive(Drop)]
pub struct Call<A: Allocator> {
    pub at: usize,
    pub function: usize,
    pub inputs: Vec<Name, A>,
    pub outputs: Vec<Name, A>,
}

/// A cell or call nested in an outermost cell, or evaluated before a call.
#[derive(Drop)]
pub enum CellPart<A: Allocator> {
    Inner(Cell<A>),
    Calls(Call<A>),
}

/// An outermost cell of a statement, which is nested in no other, with its nested parts. Inner parts precede outer
/// parts.
#[derive(Drop)]
pub struct OuterCell<A: Allocator> {
    pub parts: Vec<CellPart<A>, A>,
    pub cell: Cell<A>,
}
