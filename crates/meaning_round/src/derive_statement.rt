//! Derivation of new facts from a live statement and the values of its outermost cells.
ghost use Rattle.std.specs.Prelude.{◌≡◌, ◌++◌, ◌∷◌, [], OnOk, Some, map, option_map, option_to_list, pos, true};
ghost use Rattle.flow.specs.View.{action_view, name_view, outer_view, part_view};
ghost use Rattle.values.specs.Keys.{key_seen};
ghost use Rattle.language.specs.Core as core;
ghost use Rattle.language.specs.Parts.{cells, outer_parts, part_calls, parts};
ghost use Rattle.meaning_steps.specs.News.{comes_all, key_in, one_in, some_call, with_value};
ghost use Rattle.meaning_invariants.specs.Held.{StayInside};
ghost use Rattle.meaning_round.specs.Viewed.{facts_view};
ghost use Rattle.meaning_round.specs.Faults.{sight_at};
ghost use Rattle.meaning_round.specs.Told.{outers_news, cells_news, own_news, calls_news, element_news, elements_news, inserted_news, branch_news, bounds_news, range_news, comes_at, range_outers};

use crate::derive_cells::{add_parts, outer_value_after};
use crate::faults::{add_deep, add_deep_items, add_fault};
use crate::site::LiveStatement;
use flow::cell::{CellPart, OuterCell};
use flow::name::Name;
use flow::statement::{Action, Range};
use meaning_cells::choices::range_of;
use meaning_facts::fact_base::FactBase;
use meaning_facts::facts::{Fact, KeyWrites, Write, kind_of_operation};
use paths::FaultKind;
use std::alloc::{AllocError, Allocator, Global};
use values::key::KeyRef;
use values::map::Element;
use values::value::{Scalar, Value};

/// Appends the new facts of a live statement: those of its cells, then those that follow from the values of its
/// outermost cells.
pub(crate) fn add_news<A: Allocator>(
    fact_base: &FactBase,
    alloc: Global,
    site: LiveStatement,
    action: &Action<A>,
    news: &mut Vec<Fact>,
) -> Result<(), AllocError>
    ensures told { OnOk result (facts_view fact_base.now.instances.all.items news.new.items
        ≡ facts_view fact_base.now.instances.all.items news.old.items
        ++ (cells_news fact_base.now site (cells (core.stmt site.at site.node (action_view action.now))) ++ own_news fact_base.now site (action_view action.now))) }
    ensures inside { OnOk result (StayInside fact_base.now.instances.all.items site.instance news.old.items news.new.items) }
{
    match action {
        Action::Declare(_) | Action::Wait { .. } => Ok(()),
        Action::Call { parts, .. } => add_parts(fact_base, alloc, site, parts, news),
        Action::Assign { target, right } => add_assigned(
            fact_base, alloc, site, *target, right, news,
        ),
        Action::Fill { array, right } => add_filled(fact_base, alloc, site, *array, right, news),
        Action::Insert {
            array,
            index,
            right,
        } => add_inserted(fact_base, alloc, site, *array, index, right, news),
        Action::Print { line, .. } => add_printed(fact_base, alloc, site, line, news),
        Action::Assert { check, .. } => {
            outer_value_after(fact_base, alloc, site, check, news)?;
            Ok(())
        }
        Action::When { condition, .. } => add_branch(
            fact_base, alloc, site, condition, false, news,
        ),
        Action::Choose { condition, .. } => add_branch(
            fact_base, alloc, site, condition, true, news,
        ),
        Action::Range { range, .. } => add_range(fact_base, alloc, site, range, news),
        Action::Each { array, .. } => add_deep_items(fact_base, alloc, site, *array, news),
    }
}

fn add_assigned<A: Allocator>(
    fact_base: &FactBase,
    alloc: Global,
    site: LiveStatement,
    target: Name,
    right: &OuterCell<A>,
    news: &mut Vec<Fact>,
) -> Result<(), AllocError>
    ensures told { OnOk result (facts_view fact_base.now.instances.all.items news.new.items
        ≡ facts_view fact_base.now.instances.all.items news.old.items
        ++ (outers_news fact_base.now site (outer_view right.now ∷ []) ++ own_news fact_base.now site (core.assign (name_view target) (outer_view right.now)))) }
    ensures inside { OnOk result (StayInside fact_base.now.instances.all.items site.instance news.old.items news.new.items) }
{
    let Some(value) = outer_value_after(fact_base, alloc, site, right, news)? else {
        return Ok(());
    };
    let place = fact_base.instances.place(site.instance, target);
    if fact_base.facts.value(place).is_none() {
        news.push(Fact::Value(place, value))?;
    }
    Ok(())
}

fn add_filled<A: Allocator>(
    fact_base: &FactBase,
    alloc: Global,
    site: LiveStatement,
    array: Name,
    right: &OuterCell<A>,
    news: &mut Vec<Fact>,
) -> Result<(), AllocError>
    ensures told { OnOk result (facts_view fact_base.now.instances.all.items news.new.items
        ≡ facts_view fact_base.now.instances.all.items news.old.items
        ++ (outers_news fact_base.now site (outer_view right.now ∷ []) ++ own_news fact_base.now site (core.fill (name_view array) (outer_view right.now)))) }
    ensures inside { OnOk result (StayInside fact_base.now.instances.all.items site.instance news.old.items news.new.items) }
{
    match outer_value_after(fact_base, alloc, site, right, news)? {
        Some(Value::Many(map)) => add_elements(fact_base, site, array, map.elements(), news),
        _ => Ok(()),
    }
}

fn add_elements(
    fact_base: &FactBase,
    site: LiveStatement,
    array: Name,
    elements: &[Element],
    news: &mut Vec<Fact>,
) -> Result<(), AllocError>
    ensures told { OnOk result (facts_view fact_base.now.instances.all.items news.new.items
        ≡ facts_view fact_base.now.instances.all.items news.old.items ++ elements_news fact_base.now site (name_view array) elements.now) }
    ensures inside { OnOk result (StayInside fact_base.now.instances.all.items site.instance news.old.items news.new.items) }
{
    for element in elements {
        add_element(
            fact_base,
            site,
            array,
            element.key.as_ref(),
            &element.value,
            news,
        )?;
    }
    Ok(())
}

fn add_inserted<A: Allocator>(
    fact_base: &FactBase,
    alloc: Global,
    site: LiveStatement,
    array: Name,
    index: &OuterCell<A>,
    right: &OuterCell<A>,
    news: &mut Vec<Fact>,
) -> Result<(), AllocError>
    ensures told { OnOk result (facts_view fact_base.now.instances.all.items news.new.items
        ≡ facts_view fact_base.now.instances.all.items news.old.items
        ++ (outers_news fact_base.now site (outer_view index.now ∷ outer_view right.now ∷ [])
        ++ own_news fact_base.now site (core.insert (name_view array) (outer_view index.now) (outer_view right.now)))) }
    ensures inside { OnOk result (StayInside fact_base.now.instances.all.items site.instance news.old.items news.new.items) }
{
    let index = outer_value_after(fact_base, alloc, site, index, news)?;
    let right = outer_value_after(fact_base, alloc, site, right, news)?;
    add_pair(fact_base, site, array, index, right, news)
}

/// Appends the write of an element if both its index and its value are known.
fn add_pair(
    fact_base: &FactBase,
    site: LiveStatement,
    array: Name,
    index: Option<Value>,
    right: Option<Value>,
    news: &mut Vec<Fact>,
) -> Result<(), AllocError>
    ensures told { OnOk result (facts_view fact_base.now.instances.all.items news.new.items
        ≡ facts_view fact_base.now.instances.all.items news.old.items ++ inserted_news fact_base.now site (name_view array) (key_in index) (one_in right)) }
    ensures inside { OnOk result (StayInside fact_base.now.instances.all.items site.instance news.old.items news.new.items) }
{
    let Some(index) = index else {
        return Ok(());
    };
    let Some(key) = KeyRef::of_value(&index) else {
        return Ok(());
    };
    let Some(Value::One(value)) = right else {
        return Ok(());
    };
    add_element(fact_base, site, array, key, &value, news)
}

/// Appends the write of a key by this statement. If that write is known and the key has two writers, appends the fault
/// `ElementTwice` instead.
fn add_element(
    fact_base: &FactBase,
    site: LiveStatement,
    array: Name,
    key: KeyRef<'_>,
    value: &Scalar,
    news: &mut Vec<Fact>,
) -> Result<(), AllocError>
    ensures told { OnOk result (facts_view fact_base.now.instances.all.items news.new.items
        ≡ facts_view fact_base.now.instances.all.items news.old.items ++ element_news fact_base.now site (name_view array) (key_seen key.entry) value.now) }
    ensures inside { OnOk result (StayInside fact_base.now.instances.all.items site.instance news.old.items news.new.items) }
{
    let place = fact_base.instances.place(site.instance, array);
    if !fact_base.facts.is_written_by(place, key, site.own_place()) {
        let write = Write {
            key: key.share()?,
            writer: site.own_place(),
            value: value.share()?,
        };
        news.push(Fact::Element(place, write))?;
        return Ok(());
    }
    match fact_base.facts.written(place, key) {
        KeyWrites::Twice => add_fault(fact_base, site, FaultKind::ElementTwice, site.node, news),
        _ => Ok(()),
    }
}

fn add_printed<A: Allocator>(
    fact_base: &FactBase,
    alloc: Global,
    site: LiveStatement,
    line: &OuterCell<A>,
    news: &mut Vec<Fact>,
) -> Result<(), AllocError>
    ensures told { OnOk result (facts_view fact_base.now.instances.all.items news.new.items
        ≡ facts_view fact_base.now.instances.all.items news.old.items
        ++ (outers_news fact_base.now site (outer_view line.now ∷ []) ++ own_news fact_base.now site (core.print (pos 0) (outer_view line.now)))) }
    ensures inside { OnOk result (StayInside fact_base.now.instances.all.items site.instance news.old.items news.new.items) }
{
    let Some(Value::One(Scalar::Text(text))) = outer_value_after(
        fact_base, alloc, site, line, news,
    )?
    else {
        return Ok(());
    };
    if fact_base.facts.line(site.own_place()).is_none() {
        news.push(Fact::Line(site.own_place(), text))?;
    }
    Ok(())
}

/// Appends the fault `TooDeep` if a condition opens a block at the maximum path length. A true condition opens a block;
/// a false one does only if there is a second branch (`other`).
fn add_branch<A: Allocator>(
    fact_base: &FactBase,
    alloc: Global,
    site: LiveStatement,
    condition: &OuterCell<A>,
    other: bool,
    news: &mut Vec<Fact>,
) -> Result<(), AllocError>
    ensures told { OnOk result (facts_view fact_base.now.instances.all.items news.new.items
        ≡ facts_view fact_base.now.instances.all.items news.old.items
        ++ (outers_news fact_base.now site (outer_view condition.now ∷ [])
        ++ branch_news fact_base.now site (comes_at fact_base.now site (outer_view condition.now).cell) other)) }
    ensures inside { OnOk result (StayInside fact_base.now.instances.all.items site.instance news.old.items news.new.items) }
{
    match outer_value_after(fact_base, alloc, site, condition, news)? {
        Some(Value::One(Scalar::Truth(truth))) if truth || other => add_deep(fact_base, site, news),
        _ => Ok(()),
    }
}

/// Appends the fault of a range, or `TooDeep` if the range has a turn at the maximum path length.
fn add_range<A: Allocator>(
    fact_base: &FactBase,
    alloc: Global,
    site: LiveStatement,
    range: &Range<A>,
    news: &mut Vec<Fact>,
) -> Result<(), AllocError>
    ensures told { OnOk result (facts_view fact_base.now.instances.all.items news.new.items
        ≡ facts_view fact_base.now.instances.all.items news.old.items
        ++ (outers_news fact_base.now site (range_outers range.now)
        ++ range_news fact_base.now site (comes_all (sight_at fact_base.now site) (map (λ o. o.cell) (range_outers range.now))))) }
    ensures inside { OnOk result (StayInside fact_base.now.instances.all.items site.instance news.old.items news.new.items) }
{
    let low = outer_value_after(fact_base, alloc, site, &range.low, news)?;
    let high = outer_value_after(fact_base, alloc, site, &range.high, news)?;
    match &range.step {
        Some(step) => {
            let step = outer_value_after(fact_base, alloc, site, step, news)?;
            add_stepped(fact_base, site, low, high, step, news)
        }
        None => add_between(fact_base, site, low, high, news),
    }
}

/// Appends the faults of a range without a step, if both bounds are known.
fn add_between(
    fact_base: &FactBase,
    site: LiveStatement,
    low: Option<Value>,
    high: Option<Value>,
    news: &mut Vec<Fact>,
) -> Result<(), AllocError>
    ensures told { OnOk result (facts_view fact_base.now.instances.all.items news.new.items
        ≡ facts_view fact_base.now.instances.all.items news.old.items ++ range_news fact_base.now site (with_value low (with_value high (Some [])))) }
    ensures inside { OnOk result (StayInside fact_base.now.instances.all.items site.instance news.old.items news.new.items) }
{
    match (low, high) {
        (Some(low), Some(high)) => add_bounds(fact_base, site, &[low, high], news),
        _ => Ok(()),
    }
}

/// Appends the faults of a range with a step, if both bounds and the step are known.
fn add_stepped(
    fact_base: &FactBase,
    site: LiveStatement,
    low: Option<Value>,
    high: Option<Value>,
    step: Option<Value>,
    news: &mut Vec<Fact>,
) -> Result<(), AllocError>
    ensures told { OnOk result (facts_view fact_base.now.instances.all.items news.new.items
        ≡ facts_view fact_base.now.instances.all.items news.old.items
        ++ range_news fact_base.now site (with_value low (with_value high (with_value step (Some []))))) }
    ensures inside { OnOk result (StayInside fact_base.now.instances.all.items site.instance news.old.items news.new.items) }
{
    match (low, high, step) {
        (Some(low), Some(high), Some(step)) => add_bounds(
            fact_base,
            site,
            &[low, high, step],
            news,
        ),
        _ => Ok(()),
    }
}

/// Appends the faults of a range with these bounds.
fn add_bounds(
    fact_base: &FactBase,
    site: LiveStatement,
    values: &[Value],
    news: &mut Vec<Fact>,
) -> Result<(), AllocError>
    ensures told { OnOk result (facts_view fact_base.now.instances.all.items news.new.items
        ≡ facts_view fact_base.now.instances.all.items news.old.items ++ bounds_news fact_base.now site values.now) }
    ensures inside { OnOk result (StayInside fact_base.now.instances.all.items site.instance news.old.items news.new.items) }
{
    match range_of(values) {
        Some(Ok(range)) if range.count > 0 => add_deep(fact_base, site, news),
        Some(Err(fault)) => add_fault(fact_base, site, kind_of_operation(fault)?, site.node, news),
        _ => Ok(()),
    }
}

/// Appends the fault `TooDeep` if the statement has a call at the maximum path length.
#[tactic(auto, using(crate::proofs::Behind::deep_shallow, crate::proofs::Behind::deep_not))]
pub(crate) fn add_deep_calls<A: Allocator>(
    fact_base: &FactBase,
    site: LiveStatement,
    action: &Action<A>,
    news: &mut Vec<Fact>,
) -> Result<(), AllocError>
    ensures told { OnOk result (facts_view fact_base.now.instances.all.items news.new.items
        ≡ facts_view fact_base.now.instances.all.items news.old.items ++ calls_news fact_base.now site (core.stmt site.at site.node (action_view action.now))) }
    ensures inside { OnOk result (StayInside fact_base.now.instances.all.items site.instance news.old.items news.new.items) }
{
    if !fact_base.instances.is_deep(site.instance) || !has_call(action) {
        return Ok(());
    }
    add_deep(fact_base, site, news)
}

/// Returns true if a statement has a composite call.
#[tactic(auto, using(crate::proofs::Calls::call_last, crate::proofs::Calls::some_outers))]
fn has_call<A: Allocator>(action: &Action<A>) -> bool
    ensures { result ≡ some_call (part_calls (parts (action_view action.now))) }
{
    match action {
        Action::Declare(_) | Action::Each { .. } | Action::Wait { .. } => false,
        Action::Call { .. } => true,
        Action::Assign { right, .. } => has_inner_call(right),
        Action::Fill { right, .. } => has_inner_call(right),
        Action::Insert { index, right, .. } => has_inner_call(index) || has_inner_call(right),
        Action::Print { line, .. } => has_inner_call(line),
        Action::Assert { check, .. } => has_inner_call(check),
        Action::When { condition, .. } => has_inner_call(condition),
        Action::Choose { condition, .. } => has_inner_call(condition),
        Action::Range { range, .. } => range_has_call(range),
    }
}

#[tactic(auto, using(crate::proofs::Ranges::range_holds))]
fn range_has_call<A: Allocator>(range: &Range<A>) -> bool
    ensures { result ≡ some_call (part_calls (outer_parts (range_outers range.now))) }
{
    has_inner_call(&range.low) || has_inner_call(&range.high) || step_has_call(range)
}

fn step_has_call<A: Allocator>(range: &Range<A>) -> bool
    ensures { result ≡ some_call (part_calls (outer_parts (option_to_list (option_map outer_view range.now.step)))) }
{
    match &range.step {
        Some(step) => has_inner_call(step),
        None => false,
    }
}

/// Returns true if an outermost cell contains a call.
fn has_inner_call<A: Allocator>(outer: &OuterCell<A>) -> bool
    ensures { result ≡ some_call (part_calls (outer_parts (outer_view outer.now ∷ []))) }
{
    for part in &outer.parts {
        if is_call(part) {
            return true;
        }
    }
    false
}

/// Returns true if a part is a call.
fn is_call<A: Allocator>(part: &CellPart<A>) -> bool
    ensures { result ≡ some_call (part_calls (part_view part.now ∷ [])) }
{
    match part {
        CellPart::Calls(_) => true,
        CellPart::Inner(_) => false,
    }
}
