//! A refused script as the texts about it need it.

use std::alloc::{Allocator, Global};
use syntax_trees::tree::Script;

/// A refused script with its text, and the allocator for the texts about it.
#[derive(Clone, Copy, Drop)]
pub struct RefusedScript<'a, A: Allocator> {
    pub alloc: Global,
    pub text: &'a [u8],
    pub script: &'a Script<A>,
}
