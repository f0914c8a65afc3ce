//! Detection of blocked statements among the live ones (docs/LANGUAGE.md, Blocked statements).
ghost use Rattle.std.specs.Prelude.{◌≡◌, IfOk, is_some, map};
ghost use Rattle.flow.specs.View.{action_view, awaited_view};
ghost use Rattle.language.specs.Core.{no_stmts, stmt, wait};
ghost use Rattle.meaning_outcomes.specs.Stuck.{fails_among, has_fact, is_stuck_in, is_truth};
ghost use Rattle.meaning_cells.specs.Chosen.{chosen_in};
ghost use Rattle.meaning_facts.specs.Sighted.{sight_of};
ghost use Rattle.meaning_cells.specs.Listed.{outers_listed};
ghost use Rattle.meaning_facts.specs.Store.{value_at};

use flow::cell::OuterCell;
use flow::name::Name;
use flow::statement::Action;
use meaning_cells::choices::{choice_of, have_come};
use meaning_cells::finished::{is_inserted, is_known};
use meaning_cells::parts::outers_of;
use meaning_facts::fact_base::FactBase;
use meaning_facts::facts::Place;
use std::alloc::{AllocError, Allocator, Global};
use values::value::{Scalar, Value};

/// Returns true if a live statement, at an offset and a place, is blocked. It then has neither its own fact nor a fault
/// at itself or at an outermost cell.
///
/// # Errors
///
/// Returns `AllocError` if an allocation fails.
pub fn is_stuck<A: Allocator>(
    fact_base: &FactBase,
    alloc: Global,
    at: usize,
    place: Place,
    action: &Action<A>,
) -> Result<bool, AllocError>
    ensures { IfOk result (λ stuck. stuck ≡ is_stuck_in fact_base.now place.instance (stmt at place.node (action_view action.now))) }
{
    if has_fact(fact_base, alloc, place, action)? || fact_base.facts.has_fault(at, place) {
        return Ok(false);
    }
    let outers = outers_of(alloc, action)?;
    Ok(!fails_at_some(fact_base, at, place.instance, &outers))
}

/// Returns true if a live `wait` is blocked.
pub fn is_wait_stuck(fact_base: &FactBase, at: usize, place: Place, names: &[Name]) -> bool
    ensures { result ≡ is_stuck_in fact_base.now place.instance (stmt at place.node (wait (map awaited_view names.now) no_stmts)) }
{
    !have_come(fact_base, place.instance, names) && !fact_base.facts.has_fault(at, place)
}

/// Returns true if a fault of the statement at an offset is known at one of these cells.
fn fails_at_some<A: Allocator>(
    fact_base: &FactBase,
    at: usize,
    instance: usize,
    outers: &Vec<&OuterCell<A>>,
) -> bool
    ensures { result ≡ fails_among fact_base.now instance at (map (λ o. o.cell) (outers_listed outers.now.items)) }
{
    for outer in outers {
        let place = Place {
            instance,
            node: outer.cell.node,
        };
        if fact_base.facts.has_fault(at, place) {
            return true;
        }
    }
    false
}

/// Returns true if a statement has its own fact, or is of a form that is never blocked.
fn has_fact<A: Allocator>(
    fact_base: &FactBase,
    alloc: Global,
    place: Place,
    action: &Action<A>,
) -> Result<bool, AllocError>
    ensures { IfOk result (λ has. has ≡ has_fact fact_base.now place.instance place.node (action_view action.now)) }
{
    match action {
        Action::Declare(_) | Action::Call { .. } => Ok(true),
        Action::Assign { right, .. } => Ok(is_known(fact_base, place.instance, right.cell.node)),
        Action::Fill { right, .. } => Ok(is_known(fact_base, place.instance, right.cell.node)),
        Action::Insert { array, index, .. } => Ok(is_inserted(
            fact_base,
            *array,
            index.cell.node,
            place,
        )),
        Action::Print { .. } => Ok(fact_base.facts.line(place).is_some()),
        Action::Assert { check, .. } => Ok(is_true(fact_base, place.instance, check.cell.node)),
        Action::When { .. } => is_chosen(fact_base, alloc, place.instance, action),
        Action::Choose { .. } => is_chosen(fact_base, alloc, place.instance, action),
        Action::Range { .. } => is_chosen(fact_base, alloc, place.instance, action),
        Action::Each { .. } => is_chosen(fact_base, alloc, place.instance, action),
        Action::Wait { names, .. } => Ok(have_come(fact_base, place.instance, names.as_slice())),
    }
}

/// Returns true if the choice of a header is known.
fn is_chosen<A: Allocator>(
    fact_base: &FactBase,
    alloc: Global,
    instance: usize,
    action: &Action<A>,
) -> Result<bool, AllocError>
    ensures { IfOk result (λ chosen. chosen ≡ is_some (chosen_in (sight_of fact_base.now instance) (action_view action.now))) }
{
    Ok(choice_of(fact_base, alloc, instance, action)?.is_some())
}

/// Returns true if the value of a cell is known to be true.
fn is_true(fact_base: &FactBase, instance: usize, node: u32) -> bool
    ensures { result ≡ is_truth (value_at fact_base.now.facts (record { instance = instance; node = node })) }
{
    match fact_base.facts.value(Place { instance, node }) {
        Some(Value::One(Scalar::Truth(truth))) => *truth,
        _ => false,
    }
}
