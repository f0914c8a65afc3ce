//! Read sets of live statements: the events after which a statement without a new fact may have one.

ghost use Rattle.std.specs.Prelude.{◌≡◌, ◌++◌, ◌∷◌, [], option_map, option_to_list, OnOk};
ghost use Rattle.flow.specs.View.{action_view, cell_view, expr_view, exprs_view, form_view, name_view, outer_view, part_view, parts_view};
ghost use Rattle.language.specs.Core as core;
ghost use Rattle.language.specs.Parts.{part_cells};
ghost use Rattle.meaning_facts.specs.Store.{value_at};
ghost use Rattle.meaning_round.specs.Reads.{at, cell_reads, cells_reads, element_reads, elements_reads, expr_reads, exprs_reads, filled_reads, form_reads, here, inserted_reads, lies, outers_reads, own_reads, site_reads, unknown};
ghost use Rattle.meaning_round.specs.Told.{range_outers};

use crate::site::LiveStatement;
use crate::worklist::WakeEvent;
use flow::cell::{Cell, CellForm, CellPart, OuterCell};
use flow::expression::Expr;
use flow::name::Name;
use flow::statement::{Action, Range};
use meaning_facts::fact_base::FactBase;
use meaning_facts::facts::Place;
use std::alloc::{AllocError, Allocator};
use values::key::KeyRef;
use values::map::Element;
use values::value::Value;

/// Appends the events that a statement reads.
pub(crate) fn add_reads<A: Allocator>(
    fact_base: &FactBase,
    site: LiveStatement,
    action: &Action<A>,
    events: &mut Vec<WakeEvent>,
) -> Result<(), AllocError>
    ensures { OnOk result (events.new.items ≡ events.old.items ++ site_reads fact_base.now site (action_view action.now)) }
{
    match action {
        Action::Declare(_) | Action::Wait { .. } => Ok(()),
        Action::Call { parts, .. } => add_parts(fact_base, site, parts, events),
        Action::Assign { right, .. } => add_only(fact_base, site, right, events),
        Action::Fill { array, right } => add_filled(fact_base, site, *array, right, events),
        Action::Insert {
            array,
            index,
            right,
        } => add_inserted(fact_base, site, *array, index, right, events),
        Action::Print { line, .. } => add_only(fact_base, site, line, events),
        Action::Assert { check, .. } => add_only(fact_base, site, check, events),
        Action::When { condition, .. } => add_only(fact_base, site, condition, events),
        Action::Choose { condition, .. } => add_only(fact_base, site, condition, events),
        Action::Range { range, .. } => add_range(fact_base, site, range, events),
        Action::Each { array, .. } => add_array(fact_base, site, *array, events),
    }
}

/// Appends the events that an outermost cell and its inner cells read, for a statement that reads nothing else.
#[tactic(auto, using(crate::proofs::Reading::only_read))]
fn add_only<A: Allocator>(
    fact_base: &FactBase,
    site: LiveStatement,
    outer: &OuterCell<A>,
    events: &mut Vec<WakeEvent>,
) -> Result<(), AllocError>
    ensures { OnOk result (events.new.items ≡ events.old.items ++ (outers_reads fact_base.now site (outer_view outer.now ∷ []) ++ [])) }
{
    add_outer(fact_base, site, outer, events)
}

/// Appends the events that the bounds of a range read.
fn add_range<A: Allocator>(
    fact_base: &FactBase,
    site: LiveStatement,
    range: &Range<A>,
    events: &mut Vec<WakeEvent>,
) -> Result<(), AllocError>
    ensures { OnOk result (events.new.items ≡ events.old.items ++ (outers_reads fact_base.now site (range_outers range.now) ++ [])) }
{
    add_outer(fact_base, site, &range.low, events)?;
    add_outer(fact_base, site, &range.high, events)?;
    add_step(fact_base, site, &range.step, events)
}

/// Appends the events that the step of a range reads, if it has one.
fn add_step<A: Allocator>(
    fact_base: &FactBase,
    site: LiveStatement,
    step: &Option<OuterCell<A>>,
    events: &mut Vec<WakeEvent>,
) -> Result<(), AllocError>
    ensures { OnOk result (events.new.items ≡ events.old.items ++ outers_reads fact_base.now site (option_to_list (option_map outer_view step.now))) }
{
    match step {
        Some(step) => add_outer(fact_base, site, step, events),
        None => Ok(()),
    }
}

/// Appends the event that an array is closed.
fn add_array(
    fact_base: &FactBase,
    site: LiveStatement,
    array: Name,
    events: &mut Vec<WakeEvent>,
) -> Result<(), AllocError>
    ensures { OnOk result (events.new.items ≡ events.old.items ++ at (lies fact_base.now site.instance (name_view array)) ∷ []) }
{
    events.push(WakeEvent::at(fact_base.instances.place(site.instance, array)))?;
    Ok(())
}

/// Appends the events that the filling of an array reads, and the writes of the same keys.
fn add_filled<A: Allocator>(
    fact_base: &FactBase,
    site: LiveStatement,
    array: Name,
    right: &OuterCell<A>,
    events: &mut Vec<WakeEvent>,
) -> Result<(), AllocError>
    ensures { OnOk result (events.new.items ≡ events.old.items
        ++ (outers_reads fact_base.now site (outer_view right.now ∷ []) ++ own_reads fact_base.now site (core.fill (name_view array) (outer_view right.now)))) }
{
    add_outer(fact_base, site, right, events)?;
    add_keys(fact_base, site, array, right, events)
}

/// Appends the writes of the keys that an array is filled with, if its value is known.
fn add_keys<A: Allocator>(
    fact_base: &FactBase,
    site: LiveStatement,
    array: Name,
    right: &OuterCell<A>,
    events: &mut Vec<WakeEvent>,
) -> Result<(), AllocError>
    ensures { OnOk result (events.new.items ≡ events.old.items
        ++ filled_reads (lies fact_base.now site.instance (name_view array)) (value_at fact_base.now.facts (here site.instance (outer_view right.now).cell.node))) }
{
    let place = fact_base.instances.place(site.instance, array);
    match fact_base.facts.value(site.place(right.cell.node)) {
        Some(Value::Many(map)) => add_elements(place, map.elements(), events),
        _ => Ok(()),
    }
}

fn add_elements(
    place: Place,
    elements: &[Element],
    events: &mut Vec<WakeEvent>,
) -> Result<(), AllocError>
    ensures { OnOk result (events.new.items ≡ events.old.items ++ elements_reads place elements.now) }
{
    for element in elements {
        events.push(WakeEvent::under(place, element.key.as_ref()))?;
    }
    Ok(())
}

/// Appends the events that the insertion of an element reads, and the writes of the same key.
fn add_inserted<A: Allocator>(
    fact_base: &FactBase,
    site: LiveStatement,
    array: Name,
    index: &OuterCell<A>,
    right: &OuterCell<A>,
    events: &mut Vec<WakeEvent>,
) -> Result<(), AllocError>
    ensures { OnOk result (events.new.items ≡ events.old.items
        ++ (outers_reads fact_base.now site (outer_view index.now ∷ outer_view right.now ∷ [])
        ++ own_reads fact_base.now site (core.insert (name_view array) (outer_view index.now) (outer_view right.now)))) }
{
    add_outer(fact_base, site, index, events)?;
    add_outer(fact_base, site, right, events)?;
    let place = fact_base.instances.place(site.instance, array);
    add_key(fact_base, place, site.place(index.cell.node), events)
}

/// Appends the writes of the key that an index evaluates to, if its value is known.
fn add_key(
    fact_base: &FactBase,
    array: Place,
    index: Place,
    events: &mut Vec<WakeEvent>,
) -> Result<(), AllocError>
    ensures { OnOk result (events.new.items ≡ events.old.items ++ inserted_reads array (value_at fact_base.now.facts index)) }
{
    let Some(value) = fact_base.facts.value(index) else {
        return Ok(());
    };
    match KeyRef::of_value(value) {
        Some(key) => {
            events.push(WakeEvent::under(array, key))?;
            Ok(())
        }
        None => Ok(()),
    }
}

/// Appends the events that an outermost cell and its inner cells read.
fn add_outer<A: Allocator>(
    fact_base: &FactBase,
    site: LiveStatement,
    outer: &OuterCell<A>,
    events: &mut Vec<WakeEvent>,
) -> Result<(), AllocError>
    ensures { OnOk result (events.new.items ≡ events.old.items ++ outers_reads fact_base.now site (outer_view outer.now ∷ [])) }
{
    add_parts(fact_base, site, &outer.parts, events)?;
    add_cell(fact_base, site, &outer.cell, events)
}

fn add_parts<A: Allocator>(
    fact_base: &FactBase,
    site: LiveStatement,
    parts: &Vec<CellPart<A>, A>,
    events: &mut Vec<WakeEvent>,
) -> Result<(), AllocError>
    ensures { OnOk result (events.new.items ≡ events.old.items ++ cells_reads fact_base.now site (part_cells (parts_view parts.now.items))) }
{
    for part in parts {
        add_part(fact_base, site, part, events)?;
    }
    Ok(())
}

fn add_part<A: Allocator>(
    fact_base: &FactBase,
    site: LiveStatement,
    part: &CellPart<A>,
    events: &mut Vec<WakeEvent>,
) -> Result<(), AllocError>
    ensures { OnOk result (events.new.items ≡ events.old.items ++ cells_reads fact_base.now site (part_cells (part_view part.now ∷ []))) }
{
    match part {
        CellPart::Inner(cell) => add_cell(fact_base, site, cell, events),
        CellPart::Calls(_) => Ok(()),
    }
}

/// Appends the events that a cell reads. A cell with a value reads nothing.
fn add_cell<A: Allocator>(
    fact_base: &FactBase,
    site: LiveStatement,
    cell: &Cell<A>,
    events: &mut Vec<WakeEvent>,
) -> Result<(), AllocError>
    ensures { OnOk result (events.new.items ≡ events.old.items ++ cell_reads fact_base.now site (cell_view cell.now)) }
{
    let place = site.place(cell.node);
    if fact_base.facts.value(place).is_some() {
        return Ok(());
    }
    events.push(WakeEvent::at(place))?;
    add_form(fact_base, site.instance, &cell.form, events)
}

fn add_form<A: Allocator>(
    fact_base: &FactBase,
    instance: usize,
    form: &CellForm<A>,
    events: &mut Vec<WakeEvent>,
) -> Result<(), AllocError>
    ensures { OnOk result (events.new.items ≡ events.old.items ++ form_reads fact_base.now instance (form_view form.now)) }
{
    match form {
        CellForm::Compute(expr) => add_expr(fact_base, instance, expr, events),
        CellForm::Read { array, index } => {
            let array = fact_base.instances.place(instance, *array);
            let index = Place {
                instance,
                node: *index,
            };
            add_element(fact_base, array, index, events)
        }
    }
}

/// Appends the events that the read of an element depends on. These are the value of its index, or, once the index is
/// known, the writes of its key and the closing of the array.
fn add_element(
    fact_base: &FactBase,
    array: Place,
    index: Place,
    events: &mut Vec<WakeEvent>,
) -> Result<(), AllocError>
    ensures { OnOk result (events.new.items ≡ events.old.items ++ element_reads array index (value_at fact_base.now.facts index)) }
{
    let Some(value) = fact_base.facts.value(index) else {
        events.push(WakeEvent::at(index))?;
        return Ok(());
    };
    match KeyRef::of_value(value) {
        Some(key) => {
            events.push(WakeEvent::under(array, key))?;
            events.push(WakeEvent::at(array))?;
            Ok(())
        }
        None => Ok(()),
    }
}

/// Appends the events for the values that an expression needs and that are not known.
#[cycle(reads)]
fn add_expr<A: Allocator>(
    fact_base: &FactBase,
    instance: usize,
    expr: &Expr<A>,
    events: &mut Vec<WakeEvent>,
) -> Result<(), AllocError>
    ensures { OnOk result (events.new.items ≡ events.old.items ++ expr_reads fact_base.now instance (expr_view expr.now)) }
{
    match expr {
        Expr::Number(_) | Expr::Text(_) | Expr::Truth(_) => Ok(()),
        Expr::Name(name) => add_unknown(
            fact_base,
            fact_base.instances.place(instance, *name),
            events,
        ),
        Expr::Whole(array) => {
            events.push(WakeEvent::at(fact_base.instances.place(instance, *array)))?;
            Ok(())
        }
        Expr::Operation(_, operands) => add_exprs(fact_base, instance, operands, events),
    }
}

#[cycle(reads)]
fn add_exprs<A: Allocator>(
    fact_base: &FactBase,
    instance: usize,
    exprs: &Vec<Expr<A>, A>,
    events: &mut Vec<WakeEvent>,
) -> Result<(), AllocError>
    ensures { OnOk result (events.new.items ≡ events.old.items ++ exprs_reads fact_base.now instance (exprs_view exprs.now.items)) }
{
    for expr in exprs {
        add_expr(fact_base, instance, expr, events)?;
    }
    Ok(())
}

/// Appends the event for the value at a place, unless the value is known.
fn add_unknown(
    fact_base: &FactBase,
    place: Place,
    events: &mut Vec<WakeEvent>,
) -> Result<(), AllocError>
    ensures { OnOk result (events.new.items ≡ events.old.items ++ unknown (value_at fact_base.now.facts place) place) }
{
    if fact_base.facts.value(place).is_none() {
        events.push(WakeEvent::at(place))?;
    }
    Ok(())
}
