//! Scopes that declare names: a linked list of blocks and contents of waits, from the innermost outwards.
ghost use Rattle.std.specs.Prelude.{◌≡◌, ◌++◌, length, option_to_list};
ghost use Rattle.flow.specs.View.{block_view, owned_view, name_view};
ghost use Rattle.flow.specs.Names.{block_nodes};
ghost use Rattle.flow.specs.Tests.{leads, is_declared};
ghost use Rattle.flow.specs.Viewed.{inputs_within, outputs_within, owner_of, owners_of, times_as, times_within};

use crate::declaring::{Multiplicity, times_in_block, times_of_variable};
use crate::name::{Name, NameBinding};
use crate::statement::Block;
use std::alloc::Allocator;

/// The declarations of a block instance: the inputs and outputs of its function, the variables of its loop, and the
/// block. Only the body of a function has inputs and outputs, and only the body of a loop has loop variables.
#[derive(Drop)]
pub(crate) struct Scope<'a, A: Allocator> {
    pub inputs: usize,
    pub outputs: usize,
    pub value: Option<u32>,
    pub turn: Option<u32>,
    pub block: &'a Block<A>,
}

/// The scopes around a statement, innermost first. A name counts no step for the content of a `wait`.
#[cycle(scopes)]
#[derive(Drop)]
pub(crate) enum Scopes<'a, A: Allocator> {
    End,
    Within(Scope<'a, A>, &'a Scopes<'a, A>),
    Content(&'a Block<A>, &'a Scopes<'a, A>),
}

/// Returns true if the block that a name refers to declares the name exactly once.
pub(crate) fn is_declared<'a, A: Allocator>(scopes: &Scopes<'a, A>, name: Name) -> bool
    ensures { result ≡ is_declared (owners_of scopes.now) (name_view name) }
{
    leads(scopes, name.up, name.what)
}

/// Returns true if the block that is `up` blocks further out declares the binding exactly once.
#[tactic(auto, using(crate::proofs::Outwards::leads_content))]
fn leads<'a, A: Allocator>(scopes: &Scopes<'a, A>, up: usize, what: NameBinding) -> bool
    ensures { result ≡ leads (owners_of scopes.now) up (owned_view what) }
{
    if up == 0 {
        return declares(scopes, what);
    }
    match scopes {
        Scopes::End => false,
        Scopes::Within(_, outer) => leads(*outer, up - 1, what),
        Scopes::Content(_, outer) => leads(*outer, up, what),
    }
}

/// Returns true if the innermost block, with the contents of waits in it, declares the binding exactly once.
#[tactic(auto, using(crate::proofs::Outwards::leads_local, crate::proofs::Outwards::leads_input, crate::proofs::Outwards::leads_output))]
fn declares<'a, A: Allocator>(scopes: &Scopes<'a, A>, what: NameBinding) -> bool
    ensures { result ≡ leads (owners_of scopes.now) 0 (owned_view what) }
{
    match what {
        NameBinding::Local(node) => times_within(scopes, node, Multiplicity::Never).is_once(),
        NameBinding::Input(i) => i < inputs_within(scopes),
        NameBinding::Output(i) => i < outputs_within(scopes),
    }
}

/// Returns how often the innermost block and the contents of waits in it declare a node, added to `before`.
#[tactic(auto, using(crate::proofs::Outwards::times_content))]
fn times_within<'a, A: Allocator>(
    scopes: &Scopes<'a, A>,
    node: u32,
    before: Multiplicity,
) -> Multiplicity
    ensures { result ≡ times_within node before (owners_of scopes.now) }
{
    match scopes {
        Scopes::End => Multiplicity::Never,
        Scopes::Within(scope, _) => before.and(times_in_scope(scope, node)),
        Scopes::Content(content, outer) => {
            let more = before.and(times_in_block(node, *content));
            times_within(*outer, node, more)
        }
    }
}

/// Returns the number of inputs of the function whose body the innermost block is.
#[tactic(auto, using(crate::proofs::Outwards::inputs_content))]
fn inputs_within<'a, A: Allocator>(scopes: &Scopes<'a, A>) -> usize
    ensures { result ≡ inputs_within (owners_of scopes.now) }
{
    match scopes {
        Scopes::End => 0,
        Scopes::Within(scope, _) => scope.inputs,
        Scopes::Content(_, outer) => inputs_within(*outer),
    }
}

/// Returns the number of outputs of the function whose body the innermost block is.
#[tactic(auto, using(crate::proofs::Outwards::outputs_content))]
fn outputs_within<'a, A: Allocator>(scopes: &Scopes<'a, A>) -> usize
    ensures { result ≡ outputs_within (owners_of scopes.now) }
{
    match scopes {
        Scopes::End => 0,
        Scopes::Within(scope, _) => scope.outputs,
        Scopes::Content(_, outer) => outputs_within(*outer),
    }
}

/// Returns how often a scope declares a node.
fn times_in_scope<'a, A: Allocator>(scope: &Scope<'a, A>, node: u32) -> Multiplicity
    ensures { result ≡ times_as node (owner_of scope.now).nodes }
{
    times_of_variable(node, scope.value)
        .and(times_of_variable(node, scope.turn))
        .and(times_in_block(node, scope.block))
}
