//! Hints for elements that are not there, by the keys of the array and the form of the index.

use crate::analysis::reasons::{key_at, write_name};
use explain_blocked::context::ExplainContext;
use explain_blocked::index::CellSite;
use explain_blocked::sites::action_of;
use explain_remedies::hint_text::write_filled;
use explain_remedies::indices::{ShiftedIndex, shifted_index};
use explain_text::words::{write_number, write_str};
use flow::cell::CellForm;
use flow::name::{Name, NameBinding};
use flow::statement::Action;
use flow_index::site::Site;
use meaning_facts::facts::{FaultFact, Place};
use std::alloc::{AllocError, Allocator, Global};
use values::key::Key;
use values::map::Element;

const UNWRITTEN: &str = "hint: no statement writes $: write the elements that are read\n";

const EMPTY: &str =
    "hint: $ has no elements here: test size($) > 0 in an if, and read $ inside of it\n";

const PAST: &str = "hint: a range includes both of its bounds: the last key of $ is size($) - 1\n";

const AFTER: &str = "hint: not every turn has $[$]: read it in an if, if ($ <= $) { .. }\n";

const BEFORE: &str = "hint: not every turn has $[$]: read it in an if, if ($ >= $) { .. }\n";

/// The range of the keys of an array whose keys are numbers, and a key that it lacks.
#[derive(Clone, Copy)]
struct MissingKey {
    first: i64,
    last: i64,
    wanted: i64,
}

/// Appends a hint for an element that is not there. Returns true if it was appended.
pub fn write_element_hint<'t, 'a, A: Allocator>(
    context: &ExplainContext<'t, 'a, A>,
    out: &mut Vec<u8>,
    fact: FaultFact,
) -> Result<bool, AllocError> {
    let Some(spot) = context.index.cell(fact.place.node) else {
        return Ok(false);
    };
    let CellForm::Read { array, index } = &spot.cell.form else {
        return Ok(false);
    };
    let (instance, node) = (fact.place.instance, *index);
    let fact_base = &context.known.fact_base;
    let place = fact_base.instances.place(instance, *array);
    let elements = fact_base.facts.elements(context.alloc, place)?;
    let mut name = Vec::new(context.alloc);
    write_name(context, &mut name, spot.function, *array)?;
    if elements.elements().is_empty() {
        return write_empty(context, out, *array, name.as_slice());
    }
    let wanted = key_at(context, Place { instance, node })?;
    match missing_key(elements.elements(), wanted.as_ref()) {
        Some(missing) => write_outside(context, out, spot, node, name.as_slice(), missing),
        None => Ok(false),
    }
}

/// Appends a hint for an element of an array without elements.
fn write_empty<'t, 'a, A: Allocator>(
    context: &ExplainContext<'t, 'a, A>,
    out: &mut Vec<u8>,
    array: Name,
    name: &[u8],
) -> Result<bool, AllocError> {
    let text = if is_written(context, array) {
        EMPTY
    } else {
        UNWRITTEN
    };
    write_filled(out, text, &[name, name, name])?;
    Ok(true)
}

/// Returns true if a statement of the script writes an array. An input or an output of a function is taken to be
/// written.
fn is_written<'t, 'a, A: Allocator>(context: &ExplainContext<'t, 'a, A>, array: Name) -> bool {
    let NameBinding::Local(node) = array.what else {
        return true;
    };
    for site in &context.index.sites.all {
        if writes_array(site, NameBinding::Local(node)) {
            return true;
        }
    }
    false
}

fn writes_array<'a, A: Allocator>(site: &Site<'a, A>, binding: NameBinding) -> bool {
    match action_of(site) {
        Some(Action::Fill { array, .. }) => array.what == binding,
        Some(Action::Insert { array, .. }) => array.what == binding,
        Some(Action::Call { call, .. }) => has_binding(call.outputs.as_slice(), binding),
        _ => false,
    }
}

fn has_binding(names: &[Name], binding: NameBinding) -> bool {
    for name in names {
        if name.what == binding {
            return true;
        }
    }
    false
}

/// Returns the range of the keys of elements with a key that they lack, if all of these keys are numbers.
fn missing_key(elements: &[Element], wanted: Option<&Key>) -> Option<MissingKey> {
    let Some(Key::Number(wanted)) = wanted else {
        return None;
    };
    let Key::Number(first) = &elements.first()?.key else {
        return None;
    };
    let Key::Number(last) = &elements.last()?.key else {
        return None;
    };
    Some(MissingKey {
        first: *first,
        last: *last,
        wanted: *wanted,
    })
}

/// Appends a hint for a key before the first or after the last one, if the index is a variable, or a variable and a
/// number.
fn write_outside<'t, 'a, A: Allocator>(
    context: &ExplainContext<'t, 'a, A>,
    out: &mut Vec<u8>,
    spot: &CellSite<'a, A>,
    index: u32,
    array: &[u8],
    missing: MissingKey,
) -> Result<bool, AllocError> {
    let Some(form) = form_of(context, index) else {
        return Ok(false);
    };
    let Some(variable) = loop_variable(context, spot.function, form.name) else {
        return Ok(false);
    };
    if form.distance == 0 {
        return write_past(out, array, missing);
    }
    let shown = shown_index(context.alloc, variable, form.distance)?;
    if missing.wanted > missing.last {
        let bound = number_text(context.alloc, missing.last)?;
        write_bound(out, AFTER, array, shown.as_slice(), bound.as_slice())
    } else if missing.wanted < missing.first {
        let bound = number_text(context.alloc, missing.first)?;
        write_bound(out, BEFORE, array, shown.as_slice(), bound.as_slice())
    } else {
        Ok(false)
    }
}

/// Returns the form of the index that a cell computes.
fn form_of<'t, 'a, A: Allocator>(
    context: &ExplainContext<'t, 'a, A>,
    index: u32,
) -> Option<ShiftedIndex> {
    shifted_index(&context.index.cell(index)?.cell.form)
}

/// Returns the source name of a variable of a loop, or `None` for other variables.
fn loop_variable<'t, 'a, A: Allocator>(
    context: &ExplainContext<'t, 'a, A>,
    function: Option<usize>,
    name: Name,
) -> Option<&'a [u8]> {
    let NameBinding::Local(node) = name.what else {
        return None;
    };
    match action_of(context.index.declaring_site(node)?)? {
        Action::Range { .. } => context.index.name(function, name),
        Action::Each { .. } => context.index.name(function, name),
        _ => None,
    }
}

/// Appends a hint for the key after the last one, of an array whose keys begin with 0.
fn write_past(out: &mut Vec<u8>, array: &[u8], missing: MissingKey) -> Result<bool, AllocError> {
    if missing.first != 0 || missing.last.checked_add(1) != Some(missing.wanted) {
        return Ok(false);
    }
    write_filled(out, PAST, &[array, array])?;
    Ok(true)
}

fn write_bound(
    out: &mut Vec<u8>,
    text: &str,
    array: &[u8],
    index: &[u8],
    bound: &[u8],
) -> Result<bool, AllocError> {
    write_filled(out, text, &[array, index, index, bound])?;
    Ok(true)
}

fn number_text(alloc: Global, number: i64) -> Result<Vec<u8>, AllocError> {
    let mut text = Vec::new(alloc);
    write_number(&mut text, number)?;
    Ok(text)
}

/// Returns an index as it is written in a script, such as `i + 1`.
fn shown_index(alloc: Global, variable: &[u8], distance: i64) -> Result<Vec<u8>, AllocError> {
    let mut shown = Vec::new(alloc);
    shown.extend_from_slice(variable)?;
    match distance.checked_neg() {
        Some(less) if distance < 0 => {
            write_str(&mut shown, " - ")?;
            write_number(&mut shown, less)?;
        }
        _ => {
            write_str(&mut shown, " + ")?;
            write_number(&mut shown, distance)?;
        }
    }
    Ok(shown)
}
