//! Flows of whole scripts.

use crate::statement::{Block, Variable};
use std::alloc::Allocator;

/// A composite function: the offset and the bytes of its name, its inputs and outputs, and its body.
#[derive(Drop)]
pub struct Function<A: Allocator> {
    pub at: usize,
    pub name: Vec<u8, A>,
    pub inputs: Vec<Variable<A>, A>,
    pub outputs: Vec<Variable<A>, A>,
    pub body: Block<A>,
}

/// A script: its own block, and its functions in the order of the text.
#[derive(Drop)]
pub struct Flow<A: Allocator> {
    pub body: Block<A>,
    pub functions: Vec<Function<A>, A>,
}
