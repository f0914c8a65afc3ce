//! From the bytes of a text to its flow.

use flow::script::Flow;
use lowering::lower;
use std::alloc::{Allocator, Global};
use syntax::parser::parse;
use syntax_trees::tree::Script;

/// The flow of a script that is well typed, with the types in the machine's memory.
pub fn lowered<A: Allocator + Clone>(
    machine: Global,
    alloc: A,
    script: &Script<A>,
) -> Option<Flow<A>> {
    let typed = types::check(machine, script).ok()?;
    lower(alloc, script, &typed).ok()
}

/// The flow of a text that is well typed.
pub fn flow(alloc: Global, text: &[u8]) -> Option<Flow<Global>> {
    let script = parse(alloc, text).ok()?;
    lowered(alloc, alloc, &script)
}
