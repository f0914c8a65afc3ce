//! Counts of the declarations of a node in a block: never, once or often.
ghost use Rattle.std.specs.Prelude.{◌≡◌, ◌∷◌, [], option_map, option_to_list};
ghost use Rattle.std.specs.List.{flat_map};
ghost use Rattle.flow.specs.View.{action_view, block_view, name_view, names_view, outer_view, part_view, parts_view};
ghost use Rattle.language.specs.Parts.{outer_parts};
ghost use Rattle.flow.specs.Names.{action_nodes, block_nodes, here_nodes, part_nodes};
ghost use Rattle.flow.specs.Viewed.{is_once, plus, times_as};

use crate::cell::{CellPart, OuterCell};
use crate::name::{Name, NameBinding};
use crate::statement::{Action, Block, Range};
use std::alloc::Allocator;

/// The number of declarations of a node, up to two.
#[derive(Clone, Copy, PartialEq, Eq, Debug)]
pub(crate) enum Multiplicity {
    Never,
    Once,
    Often,
}

impl Multiplicity {
    /// Returns the sum of two multiplicities.
    pub(crate) fn and(self, other: Multiplicity) -> Multiplicity
        ensures { result ≡ plus self other }
    {
        match (self, other) {
            (Multiplicity::Never, other) => other,
            (this, Multiplicity::Never) => this,
            _ => Multiplicity::Often,
        }
    }

    pub(crate) fn is_once(self) -> bool
        ensures { result ≡ is_once self }
    {
        matches!(self, Multiplicity::Once)
    }
}

/// Returns `Once` if the variable has this node, otherwise `Never`.
pub(crate) fn times_of_variable(node: u32, variable: Option<u32>) -> Multiplicity
    ensures { result ≡ times_as node (option_to_list variable) }
{
    match variable {
        Some(other) if other == node => Multiplicity::Once,
        _ => Multiplicity::Never,
    }
}

/// Returns how often a statement declares a node in its own block. The content of a `wait` is a block of its own.
fn times_in_action<A: Allocator>(node: u32, action: &Action<A>) -> Multiplicity
    ensures { result ≡ times_as node (action_nodes (action_view action.now)) }
{
    match action {
        Action::Declare(variable) => times_of_variable(node, Some(variable.node)),
        Action::Call { parts, .. } => times_in_parts(node, parts),
        Action::Assign { right, .. } => times_in_outer(node, right),
        Action::Fill { right, .. } => times_in_outer(node, right),
        Action::Insert { index, right, .. } => times_in_two(node, index, right),
        Action::Print { line, .. } => times_in_outer(node, line),
        Action::Assert { check, .. } => times_in_outer(node, check),
        Action::When { condition, .. } => times_in_outer(node, condition),
        Action::Choose { condition, .. } => times_in_outer(node, condition),
        Action::Range { range, .. } => times_in_range(node, range),
        Action::Each { .. } | Action::Wait { .. } => Multiplicity::Never,
    }
}

/// Returns how often a block declares a node, without the contents of its `wait` statements.
pub(crate) fn times_in_block<A: Allocator>(node: u32, block: &Block<A>) -> Multiplicity
    ensures { result ≡ times_as node (block_nodes (block_view block.now)) }
{
    let mut times = Multiplicity::Never;
    for statement in &block.statements {
        times = times.and(times_in_action(node, &statement.action));
    }
    times
}

/// Returns how often two outermost cells declare a node.
fn times_in_two<A: Allocator>(node: u32, one: &OuterCell<A>, other: &OuterCell<A>) -> Multiplicity
    ensures { result ≡ times_as node (flat_map part_nodes (outer_parts (outer_view one.now ∷ outer_view other.now ∷ []))) }
{
    times_in_outer(node, one).and(times_in_outer(node, other))
}

/// Returns how often the bounds and the step of a range declare a node.
fn times_in_range<A: Allocator>(node: u32, range: &Range<A>) -> Multiplicity
    ensures { result ≡ times_as node (flat_map part_nodes
        (outer_parts (outer_view range.now.low ∷ outer_view range.now.high ∷ option_to_list (option_map outer_view range.now.step)))) }
{
    let upper = times_in_outer(node, &range.high).and(times_in_step(node, &range.step));
    times_in_outer(node, &range.low).and(upper)
}

/// Returns how often the step of a range declares a node.
fn times_in_step<A: Allocator>(node: u32, step: &Option<OuterCell<A>>) -> Multiplicity
    ensures { result ≡ times_as node (flat_map part_nodes (outer_parts (option_to_list (option_map outer_view step.now)))) }
{
    match step {
        Some(outer) => times_in_outer(node, outer),
        None => Multiplicity::Never,
    }
}

/// Returns how often an outermost cell and its nested parts declare a node.
fn times_in_outer<A: Allocator>(node: u32, outer: &OuterCell<A>) -> Multiplicity
    ensures { result ≡ times_as node (flat_map part_nodes (outer_parts (outer_view outer.now ∷ []))) }
{
    times_in_parts(node, &outer.parts).and(times_of_variable(node, Some(outer.cell.node)))
}

/// Returns how often the cells and calls in an expression declare a node.
fn times_in_parts<A: Allocator>(node: u32, parts: &Vec<CellPart<A>, A>) -> Multiplicity
    ensures { result ≡ times_as node (flat_map part_nodes (parts_view parts.now.items)) }
{
    let mut times = Multiplicity::Never;
    for part in parts {
        times = times.and(times_in_part(node, part));
    }
    times
}

fn times_in_part<A: Allocator>(node: u32, part: &CellPart<A>) -> Multiplicity
    ensures { result ≡ times_as node (part_nodes (part_view part.now)) }
{
    match part {
        CellPart::Inner(cell) => times_of_variable(node, Some(cell.node)),
        CellPart::Calls(call) => times_in_names(node, call.outputs.as_slice()),
    }
}

/// Returns how many of the names refer to this node in their own block.
fn times_in_names(node: u32, names: &[Name]) -> Multiplicity
    ensures { result ≡ times_as node (flat_map here_nodes (names_view names.now)) }
{
    let mut times = Multiplicity::Never;
    for name in names {
        times = times.and(times_in_name(node, name));
    }
    times
}

/// Returns `Once` if the name refers to this node in its own block, otherwise `Never`.
fn times_in_name(node: u32, name: &Name) -> Multiplicity
    ensures { result ≡ times_as node (here_nodes (name_view name.now)) }
{
    match (name.up, name.what) {
        (0, NameBinding::Local(other)) => times_of_variable(node, Some(other)),
        _ => Multiplicity::Never,
    }
}
