//! Text about the inputs that an item of a run waits for.

use crate::replay::items::{ItemTable, VariableLocation};
use explain_blocked::index::ScriptIndex;
use explain_blocked::names::write_owned;
use explain_blocked::value_text::{write_scalar, write_text};
use explain_text::line_index::LineIndex;
use explain_text::words::{write_count, write_number, write_str};
use flow::name::NameBinding;
use std::alloc::{AllocError, Global};
use task_code::code::Code;
use task_code::entry::{Name, Need, Owned};
use values::key::Key;

/// Maximum number of items examined for one: those that compute cells of its statement.
const MAX_EXAMINED_ITEMS: usize = 64;

/// A script's text and index, and its code with the items of a run.
#[derive(Drop)]
pub struct ItemContext<'v, 'a> {
    pub alloc: Global,
    pub lines: &'v LineIndex<'v>,
    pub index: &'v ScriptIndex<'a, Global>,
    pub code: &'v Code,
    pub items: &'v ItemTable,
}

/// Appends the inputs that an item waits for: `for y, and until A is closed`.
///
/// If another item of its statement computes an input, the inputs of that item are appended instead. If that item waits
/// for no input, its number is appended.
pub fn write_waits(
    view: &ItemContext<'_, '_>,
    out: &mut Vec<u8>,
    number: u64,
) -> Result<(), AllocError> {
    let mut queue = Vec::new(view.alloc);
    queue.push(number)?;
    for place in 0..MAX_EXAMINED_ITEMS {
        match queue.get(place).copied() {
            Some(item) => write_item_waits(view, out, &mut queue, item)?,
            None => break,
        }
    }
    Ok(())
}

/// Appends the inputs that one item waits for itself. Enqueues the waiting items that compute a value for it.
fn write_item_waits(
    view: &ItemContext<'_, '_>,
    out: &mut Vec<u8>,
    queue: &mut Vec<u64>,
    number: u64,
) -> Result<(), AllocError> {
    let block = match view.items.item(number) {
        Some(item) => item.block,
        None => 0,
    };
    let missing = view.items.missing(view.code, number)?;
    for need in &missing {
        match inner_item(view, block, *need) {
            Some(inner) if waits(view, inner)? => queue.push(inner)?,
            Some(inner) => {
                write_between(out)?;
                write_str(out, "for what item ")?;
                write_count(out, inner as usize)?;
                write_str(out, " works out")?;
            }
            None => {
                write_between(out)?;
                write_need(view, out, block, *need)?;
            }
        }
    }
    Ok(())
}

fn waits(view: &ItemContext<'_, '_>, number: u64) -> Result<bool, AllocError> {
    let missing = view.items.missing(view.code, number)?;
    Ok(!missing.is_empty())
}

/// Appends the separator between two inputs.
fn write_between(out: &mut Vec<u8>) -> Result<(), AllocError> {
    if out.is_empty() {
        Ok(())
    } else {
        write_str(out, ", and ")
    }
}

/// Returns the item that computes a needed value, if it belongs to the same statement.
fn inner_item(view: &ItemContext<'_, '_>, block: usize, need: &Need) -> Option<u64> {
    match need {
        Need::Stored(name) if is_own_cell(view, *name) => {
            let place = view.items.place(view.code, block, *name);
            view.items.maker(view.code, place)
        }
        _ => None,
    }
}

fn is_own_cell(view: &ItemContext<'_, '_>, name: Name) -> bool {
    match name.owned {
        Owned::Local(variable) => view.index.cell(variable.node).is_some(),
        Owned::Parameter(_, _) => false,
    }
}

/// Appends a need by its name, in the form used for blocked statements.
fn write_need(
    view: &ItemContext<'_, '_>,
    out: &mut Vec<u8>,
    block: usize,
    need: &Need,
) -> Result<(), AllocError> {
    match need {
        Need::Stored(name) => {
            write_str(out, "for ")?;
            write_name(view, out, block, *name)
        }
        Need::Closed(name) => {
            write_str(out, "until ")?;
            write_name(view, out, block, *name)?;
            write_str(out, " is closed")
        }
        Need::At(array, index) => write_element(view, out, block, *array, *index),
        Need::AtKey(array, key) => {
            write_str(out, "for ")?;
            write_name(view, out, block, *array)?;
            write_str(out, "[")?;
            write_key(out, key)?;
            write_str(out, "]")
        }
    }
}

/// Appends an element with its index, if the index is known.
fn write_element(
    view: &ItemContext<'_, '_>,
    out: &mut Vec<u8>,
    block: usize,
    array: Name,
    index: Name,
) -> Result<(), AllocError> {
    let place = view.items.place(view.code, block, index);
    match view.items.scalar(place) {
        Some(key) => {
            write_str(out, "for ")?;
            write_name(view, out, block, array)?;
            write_str(out, "[")?;
            write_scalar(out, key)?;
            write_str(out, "]")
        }
        None => {
            write_str(out, "for an element of ")?;
            write_name(view, out, block, array)?;
            if place == VariableLocation::Literal {
                Ok(())
            } else {
                write_str(out, " whose index is not known")
            }
        }
    }
}

fn write_key(out: &mut Vec<u8>, key: &Key) -> Result<(), AllocError> {
    match key {
        Key::Number(number) => write_number(out, *number),
        Key::Text(text) => write_text(out, text.as_bytes()),
    }
}

/// Appends the identifier of a name in a block.
fn write_name(
    view: &ItemContext<'_, '_>,
    out: &mut Vec<u8>,
    block: usize,
    name: Name,
) -> Result<(), AllocError> {
    let function = function_around(view, block);
    let named = match name.owned {
        Owned::Local(variable) => NameBinding::Local(variable.node),
        Owned::Parameter(place, _) => parameter_of(view, function, place),
    };
    write_owned(view.index, view.lines, out, function, named)
}

/// Returns the function whose call opened a block or an enclosing one.
fn function_around(view: &ItemContext<'_, '_>, block: usize) -> Option<usize> {
    let call = view.code.entry(view.items.call_around(block)?)?;
    view.index.called_at(call.offset)
}

/// Returns the binding at an index among the inputs followed by the outputs of a function.
fn parameter_of(view: &ItemContext<'_, '_>, function: Option<usize>, place: usize) -> NameBinding {
    let inputs = match function {
        Some(function) => inputs_of(view, function),
        None => 0,
    };
    if place < inputs {
        NameBinding::Input(place)
    } else {
        NameBinding::Output(place.saturating_sub(inputs))
    }
}

fn inputs_of(view: &ItemContext<'_, '_>, function: usize) -> usize {
    match view.index.flow.functions.get(function) {
        Some(function) => function.inputs.len(),
        None => 0,
    }
}
