//! A script lowered, with what its flow keeps for a listing alone.

use crate::asserts::{boxed, is_equal};
use crate::passes::flows::{flow, lowered};
use bumpalo::Bump;
use flow::script::{Flow, Function};
use flow::statement::{Action, Block};
use std::alloc::{AllocError, Allocator, Global};
use std::process::Abort;
use syntax::parser::parse;
use syntax_trees::tree::Script;

const TEXT: &[u8] = b"(int r) f(int n) { r = n; } int x = 1; wait (x) { wait (x) { } }";

/// The action of a statement, as a letter.
fn letter<A: Allocator>(action: &Action<A>) -> u8 {
    match action {
        Action::Declare(_) => b'd',
        Action::Assign { .. } => b'a',
        Action::Wait { .. } => b'w',
        _ => b'-',
    }
}

/// The actions of the statements of a block, as letters.
fn letters<A: Allocator>(machine: Global, block: &Block<A>) -> Result<Vec<u8>, AllocError> {
    let mut found = Vec::new(machine);
    for statement in &block.statements {
        found.push(letter(&statement.action))?;
    }
    Ok(found)
}

/// The statements of a block do this, in letters.
fn does<A: Allocator>(rt: &impl Abort, machine: Global, block: &Block<A>, wanted: &[u8]) {
    let found = letters(machine, block).expect(rt, "memory");
    is_equal(rt, found.as_slice(), wanted);
}

/// A `wait` has one header and a `wait` in it.
fn is_wait_in_wait<A: Allocator>(rt: &impl Abort, machine: Global, action: &Action<A>) {
    if let Action::Wait { inner, content, .. } = action {
        assert!(rt; inner.is_empty());
        is_equal(rt, content.from, 48);
        does(rt, machine, content, b"w");
    }
}

#[test]
fn statements_stand_in_their_blocks(rt: HostRuntime) {
    let found = flow(rt.alloc(), TEXT).expect(&rt, "a flow");
    does(&rt, rt.alloc(), &found.body, b"daw");
    is_equal(&rt, found.body.from, 0);
    for statement in &found.body.statements {
        is_wait_in_wait(&rt, rt.alloc(), &statement.action);
    }
}

/// The name is this one.
fn is_named(rt: &impl Abort, name: &[u8], wanted: &[u8]) {
    is_equal(rt, name, wanted);
}

/// The function is `f`, with its input and its body.
fn is_f<A: Allocator>(rt: &impl Abort, machine: Global, function: &Function<A>) {
    is_equal(rt, function.at, 8);
    is_named(rt, function.name.as_slice(), b"f");
    is_equal(rt, function.body.from, 17);
    does(rt, machine, &function.body, b"a");
    for input in &function.inputs {
        is_named(rt, input.name.as_slice(), b"n");
    }
}

/// The flow has that function alone.
fn has_f<A: Allocator>(rt: &impl Abort, machine: Global, flow: &Flow<A>) {
    is_equal(rt, flow.functions.len(), 1);
    for function in &flow.functions {
        is_f(rt, machine, function);
    }
}

/// The script of the text, over any allocator: over an arena alone it takes far longer to prove.
fn script<A: Allocator + Clone>(rt: &impl Abort, machine: Global, alloc: A) -> Box<Script<A>> {
    let script = parse(alloc, TEXT).expect(rt, "a script");
    boxed(rt, machine, script)
}

/// Its flow.
fn flow_over<A: Allocator + Clone>(
    rt: &impl Abort,
    machine: Global,
    alloc: A,
    script: &Script<A>,
) -> Box<Flow<A>> {
    let flow = lowered(machine, alloc, script).expect(rt, "a flow");
    boxed(rt, machine, flow)
}

#[test]
fn functions_keep_their_names(rt: HostRuntime) {
    let arena = Bump::new(rt.alloc());
    let script = script(&rt, rt.alloc(), &arena);
    has_f(
        &rt,
        rt.alloc(),
        &flow_over(&rt, rt.alloc(), &arena, &script),
    );
}
