//! Release of the arena that holds syntax trees.

use bumpalo::Bump;
use std::alloc::Global;

/// Releases all allocations of an arena. If the arena refuses to reset because a value still lies in it, a new arena
/// replaces it.
pub(crate) fn empty(alloc: Global, arena: &mut Bump) {
    if arena.reset().is_err() {
        *arena = Bump::new(alloc);
    }
}
