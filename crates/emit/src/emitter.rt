//! The state of emission.
ghost use Rattle.std.specs.Prelude.{◌≡◌, ◌+◌, ◌<◌, ◌^◌, [], length};
ghost use Rattle.emit.specs.Emits.{roots_of};

use crate::body::empty;
use emit_statements::code_builder::CodeBuilder;
use flow::script::Function;
use std::alloc::{Allocator, Global};
use task_code::body_numbers::{behind, next_number};
use task_code::code::Body;

/// Returns the number of root bodies: those of the script and of its functions, which precede the bodies of inner
/// blocks.
pub fn roots<A: Allocator>(functions: &Vec<Function<A>, A>) -> usize
    ensures { roots_of functions.now.items < 2 ^ 64 → result ≡ roots_of functions.now.items }
{
    behind(functions.len(), 1)
}

/// The code emitted so far: the entries and the block under construction, and the bodies of the finished inner blocks.
#[derive(Drop)]
pub struct Emitter {
    pub writer: CodeBuilder,
    pub bodies: Vec<Body>,
}

impl Emitter {
    /// Creates the state in which nothing is emitted.
    pub fn new(alloc: Global) -> Emitter
        ensures entries { result.writer.entries.items ≡ [] }
        ensures bodies { result.bodies.items ≡ [] }
    {
        let writer = CodeBuilder {
            alloc,
            entries: Vec::new(alloc),
            filling: empty(alloc),
        };
        Emitter {
            writer,
            bodies: Vec::new(alloc),
        }
    }

    /// Returns the number of the next body of an inner block, in a script with these functions.
    pub fn next_body<A: Allocator>(&self, functions: &Vec<Function<A>, A>) -> u32
        ensures { roots_of functions.now.items + length self.now.bodies.items < 2 ^ 32
            → result ≡ roots_of functions.now.items + length self.now.bodies.items }
    {
        next_number(roots(functions), &self.bodies)
    }
}
