//! Reasons for faults, with the values that caused them.

use crate::analysis::keys::{write_element, write_keys};
use crate::analysis::operations::{write_message, write_operation};
use explain_blocked::context::ExplainContext;
use explain_blocked::index::CellSite;
use explain_blocked::path::write_steps;
use explain_blocked::sites::action_of;
use explain_blocked::value_text::write_scalar;
use explain_text::words::{write_count, write_str};
use flow::cell::{CellForm, OuterCell};
use flow::name::Name;
use flow::statement::{Action, Range};
use flow_index::site::Site;
use meaning_facts::facts::{FaultFact, Place, Write};
use paths::FaultKind;
use std::alloc::{AllocError, Allocator};
use values::key::{Key, KeyRef};
use values::limits::MAX_PATH_STEPS;
use values::value::Value;

/// Appends the description of a fault kind, without values.
pub fn write_plain(out: &mut Vec<u8>, kind: FaultKind) -> Result<(), AllocError> {
    let words = match kind {
        FaultKind::Overflow => "a number or a range is too large",
        FaultKind::DivideByZero => "something is divided by 0",
        FaultKind::NoElement => "an array is closed and has no element that is read",
        FaultKind::ElementTwice => "an element is written twice",
        FaultKind::BadStep => "the step of a range is less than 1",
        FaultKind::TooDeep => return write_too_deep(out),
        FaultKind::NotANumber => "a text is no whole number",
        FaultKind::AssertFailed => "what is asserted is not true",
    };
    write_str(out, words)
}

fn write_too_deep(out: &mut Vec<u8>) -> Result<(), AllocError> {
    write_str(out, "a block or a call would stand inside of ")?;
    write_count(out, MAX_PATH_STEPS)?;
    write_str(out, " others")
}

/// Appends the reason for a fault, with its values. Returns true if anything was appended.
pub fn write_reason<'t, 'a, A: Allocator>(
    context: &ExplainContext<'t, 'a, A>,
    out: &mut Vec<u8>,
    fact: FaultFact,
) -> Result<bool, AllocError> {
    let instance = fact.place.instance;
    if let Some(spot) = context.index.cell(fact.place.node) {
        return match fact.kind {
            FaultKind::NoElement => write_missing(context, out, instance, spot),
            FaultKind::AssertFailed => write_message(context, out, instance, spot),
            _ => write_operation(context, out, instance, spot, fact.kind),
        };
    }
    let Some(site) = context.index.site(fact.at) else {
        return Ok(false);
    };
    match (fact.kind, action_of(site)) {
        (FaultKind::ElementTwice, Some(Action::Insert { array, .. })) => {
            write_twice(context, out, fact, site, *array)
        }
        (FaultKind::ElementTwice, Some(Action::Fill { array, .. })) => {
            write_twice(context, out, fact, site, *array)
        }
        (FaultKind::BadStep, Some(Action::Range { range, .. })) => {
            write_bad_step(context, out, instance, range)
        }
        (FaultKind::Overflow, Some(Action::Range { range, .. })) => {
            write_long_range(context, out, instance, range)
        }
        _ => Ok(false),
    }
}

/// Appends the element that an array lacks, and the keys that it has.
fn write_missing<'t, 'a, A: Allocator>(
    context: &ExplainContext<'t, 'a, A>,
    out: &mut Vec<u8>,
    instance: usize,
    spot: &CellSite<'a, A>,
) -> Result<bool, AllocError> {
    let CellForm::Read { array, index } = &spot.cell.form else {
        return Ok(false);
    };
    let fact_base = &context.known.fact_base;
    write_name(context, out, spot.function, *array)?;
    write_str(out, " has no element ")?;
    let node = *index;
    let cell = Place { instance, node };
    write_value(context, out, cell)?;
    write_str(out, ": it is closed and has ")?;
    let wanted = key_at(context, cell)?;
    let place = fact_base.instances.place(instance, *array);
    let elements = fact_base.facts.elements(context.alloc, place)?;
    write_keys(out, elements.elements(), wanted.as_ref())?;
    Ok(true)
}

/// Returns the key that is the value of a cell, or `None` if it has none.
pub fn key_at<'t, 'a, A: Allocator>(
    context: &ExplainContext<'t, 'a, A>,
    cell: Place,
) -> Result<Option<Key>, AllocError> {
    let Some(value) = context.known.fact_base.facts.value(cell) else {
        return Ok(None);
    };
    match KeyRef::of_value(value) {
        Some(key) => Ok(Some(key.share()?)),
        None => Ok(None),
    }
}

/// Appends the name of an array.
pub fn write_name<'t, 'a, A: Allocator>(
    context: &ExplainContext<'t, 'a, A>,
    out: &mut Vec<u8>,
    function: Option<usize>,
    name: Name,
) -> Result<(), AllocError> {
    match context.index.name(function, name) {
        Some(bytes) => {
            out.extend_from_slice(bytes)?;
            Ok(())
        }
        None => write_str(out, "the array"),
    }
}

/// Appends the scalar value of a cell. Appends nothing if there is none.
fn write_value<'t, 'a, A: Allocator>(
    context: &ExplainContext<'t, 'a, A>,
    out: &mut Vec<u8>,
    cell: Place,
) -> Result<(), AllocError> {
    match context.known.fact_base.facts.value(cell) {
        Some(Value::One(scalar)) => write_scalar(out, scalar),
        _ => Ok(()),
    }
}

/// Appends the element that two statements have written, with both values and the position of the other write.
fn write_twice<'t, 'a, A: Allocator>(
    context: &ExplainContext<'t, 'a, A>,
    out: &mut Vec<u8>,
    fact: FaultFact,
    site: &Site<'a, A>,
    array: Name,
) -> Result<bool, AllocError> {
    let fact_base = &context.known.fact_base;
    let place = fact_base.instances.place(fact.place.instance, array);
    let Some((mine, other)) = clash(fact_base.facts.writes_of(place), fact.place) else {
        return Ok(false);
    };
    write_name(context, out, site.function, array)?;
    write_element(out, &mine.key)?;
    write_str(out, " is written twice: here with ")?;
    write_scalar(out, &mine.value)?;
    write_str(out, ", and ")?;
    write_other(context, out, fact.at, other)?;
    Ok(true)
}

/// Returns a write of a statement together with another statement's write of the same key.
fn clash<'w>(writes: &'w [Write], own: Place) -> Option<(&'w Write, &'w Write)> {
    for write in writes {
        if write.writer == own {
            if let Some(other) = other_write(writes, &write.key, own) {
                return Some((write, other));
            }
        }
    }
    None
}

fn other_write<'w>(writes: &'w [Write], key: &Key, own: Place) -> Option<&'w Write> {
    for write in writes {
        if write.key.is_same(key) && write.writer != own {
            return Some(write);
        }
    }
    None
}

/// Appends the position, the value and the path of the other write.
fn write_other<'t, 'a, A: Allocator>(
    context: &ExplainContext<'t, 'a, A>,
    out: &mut Vec<u8>,
    at: usize,
    other: &Write,
) -> Result<(), AllocError> {
    match context.index.site_of(other.writer.node) {
        Some(site) if site.at() != at => {
            write_str(out, "at ")?;
            context.lines.say_place(out, site.at())?;
        }
        _ => write_str(out, "by the same statement")?,
    }
    write_str(out, " with ")?;
    write_scalar(out, &other.value)?;
    let steps = context
        .known
        .fact_base
        .instances
        .path(other.writer.instance);
    if steps.is_empty() {
        return Ok(());
    }
    write_str(out, ", ")?;
    write_steps(context, out, other.writer.instance, steps)
}

fn write_bad_step<'t, 'a, A: Allocator>(
    context: &ExplainContext<'t, 'a, A>,
    out: &mut Vec<u8>,
    instance: usize,
    range: &Range<A>,
) -> Result<bool, AllocError> {
    let Some(step) = &range.step else {
        return Ok(false);
    };
    write_str(out, "the step is ")?;
    write_outer(context, out, instance, step)?;
    write_str(out, ", and has to be 1 or more")?;
    Ok(true)
}

fn write_long_range<'t, 'a, A: Allocator>(
    context: &ExplainContext<'t, 'a, A>,
    out: &mut Vec<u8>,
    instance: usize,
    range: &Range<A>,
) -> Result<bool, AllocError> {
    write_str(out, "the range from ")?;
    write_outer(context, out, instance, &range.low)?;
    write_str(out, " to ")?;
    write_outer(context, out, instance, &range.high)?;
    if let Some(step) = &range.step {
        write_str(out, " by ")?;
        write_outer(context, out, instance, step)?;
    }
    write_str(out, " has more than 4294967296 values")?;
    Ok(true)
}

/// Appends the scalar value of an outermost cell. Appends nothing if there is none.
fn write_outer<'t, 'a, A: Allocator>(
    context: &ExplainContext<'t, 'a, A>,
    out: &mut Vec<u8>,
    instance: usize,
    outer: &OuterCell<A>,
) -> Result<(), AllocError> {
    let node = outer.cell.node;
    write_value(context, out, Place { instance, node })
}
