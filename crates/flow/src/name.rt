//! Resolved names of a flow.

use language::tree::Shape;

/// The binding of a name in the block that owns it.
#[derive(Clone, Copy, Debug, PartialEq, Eq)]
pub enum NameBinding {
    /// A variable declared at this node, or the cell of this node.
    Local(u32),
    /// An input of the function whose body the block is, by its index from 0.
    Input(usize),
    /// An output of the function whose body the block is, by its index from 0.
    Output(usize),
}

/// A resolved name: the number of blocks between its use and its owner, its binding there, and its shape. A cell is a
/// scalar.
#[derive(Clone, Copy, Debug, PartialEq, Eq)]
pub struct Name {
    pub up: usize,
    pub what: NameBinding,
    pub shape: Shape,
}
