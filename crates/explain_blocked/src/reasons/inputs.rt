//! Descriptions of the missing inputs of a statement, with the reason why each is missing.

use crate::context::{ExplainContext, StatementLocation};
use crate::names::write_name;
use crate::sites::{opens_blocks, word_of};
use crate::value_text::write_scalar;
use crate::writers::{WriteTarget, Writer};
use explain_inputs::input::{StatementInput, add_form};
use explain_inputs::missing::missing_of;
use explain_text::words::write_str;
use flow::cell::Cell;
use flow::name::{Name, NameBinding};
use meaning_facts::facts::Place;
use std::alloc::{AllocError, Allocator};
use values::key::KeyRef;
use values::value::{Scalar, Value};

/// Appends the missing inputs of a statement, each with its reason. Returns true if anything was appended.
///
/// The statement's own cells and repeated inputs are left out.
pub fn write_inputs<'t, 'a, A: Allocator>(
    context: &ExplainContext<'t, 'a, A>,
    out: &mut Vec<u8>,
    location: StatementLocation,
    missing: &[StatementInput],
) -> Result<bool, AllocError> {
    let mut said = false;
    for i in 0..missing.len() {
        let input = missing[i];
        if is_own_cell(context, input) || has_input(&missing[..i], input) {
            continue;
        }
        write_str(out, if said { ", and " } else { "waits " })?;
        write_input(context, out, location, input)?;
        write_reason(context, out, location, input)?;
        said = true;
    }
    Ok(said)
}

fn has_input(inputs: &[StatementInput], wanted: StatementInput) -> bool {
    for input in inputs {
        if *input == wanted {
            return true;
        }
    }
    false
}

/// Returns true if an input is a cell of the statement itself.
pub fn is_own_cell<'t, 'a, A: Allocator>(
    context: &ExplainContext<'t, 'a, A>,
    input: StatementInput,
) -> bool {
    match input {
        StatementInput::Scalar(
            Name {
                what: NameBinding::Local(node),
                ..
            },
        ) => context.index.cell(node).is_some(),
        _ => false,
    }
}

/// Appends an input with the condition that the statement waits for.
fn write_input<'t, 'a, A: Allocator>(
    context: &ExplainContext<'t, 'a, A>,
    out: &mut Vec<u8>,
    location: StatementLocation,
    input: StatementInput,
) -> Result<(), AllocError> {
    match input {
        StatementInput::Scalar(_) => {
            write_str(out, "for ")?;
            write_wanted(context, out, location, input)
        }
        StatementInput::Array(_) => {
            write_str(out, "until ")?;
            write_wanted(context, out, location, input)?;
            write_str(out, " is closed")
        }
        StatementInput::Element { index, .. } => {
            write_str(out, "for ")?;
            write_wanted(context, out, location, input)?;
            if key_of(context, location.instance, index).is_some() {
                Ok(())
            } else {
                write_str(out, " whose index is not known")
            }
        }
    }
}

/// Appends the name of an input.
pub fn write_wanted<'t, 'a, A: Allocator>(
    context: &ExplainContext<'t, 'a, A>,
    out: &mut Vec<u8>,
    location: StatementLocation,
    input: StatementInput,
) -> Result<(), AllocError> {
    match input {
        StatementInput::Scalar(name) => write_name(
            context.index,
            context.lines,
            out,
            location.function,
            name,
        ),
        StatementInput::Array(name) => write_name(
            context.index,
            context.lines,
            out,
            location.function,
            name,
        ),
        StatementInput::Element { array, index } => match key_of(
            context,
            location.instance,
            index,
        ) {
            Some(key) => {
                write_name(context.index, context.lines, out, location.function, array)?;
                write_str(out, "[")?;
                write_scalar(out, key)?;
                write_str(out, "]")
            }
            None => {
                write_str(out, "an element of ")?;
                write_name(context.index, context.lines, out, location.function, array)
            }
        },
    }
}

/// Returns the index that a cell evaluates to, or `None` if it is not known.
fn key_of<'k, 't, 'a, A: Allocator>(
    context: &'k ExplainContext<'t, 'a, A>,
    instance: usize,
    index: u32,
) -> Option<&'k Scalar> {
    let cell = Place {
        instance,
        node: index,
    };
    match context.known.fact_base.facts.value(cell) {
        Some(Value::One(key)) => Some(key),
        _ => None,
    }
}

/// Appends, in parentheses, the reason why an input is not known. Appends nothing if there is no reason to report.
fn write_reason<'t, 'a, A: Allocator>(
    context: &ExplainContext<'t, 'a, A>,
    out: &mut Vec<u8>,
    location: StatementLocation,
    input: StatementInput,
) -> Result<(), AllocError> {
    let target = target_of(context, location.instance, input);
    let writers = context.writers.of(target);
    match input {
        StatementInput::Scalar(_) => {
            write_given(context, out, target.place)?;
            write_givers(context, out, location, WriteKind::Assign, writers)
        }
        StatementInput::Element { .. } if target.mark.is_some() && writers.is_empty() => {
            write_str(out, " (no statement that is left writes it)")
        }
        _ => write_givers(context, out, location, WriteKind::Write, writers),
    }
}

/// Returns the target that a writer of an input would write.
///
/// For an element this is the array, unless the key of the element and the keys of all writers of the array are
/// known.
pub fn target_of<'t, 'a, A: Allocator>(
    context: &ExplainContext<'t, 'a, A>,
    instance: usize,
    input: StatementInput,
) -> WriteTarget {
    let instances = &context.known.fact_base.instances;
    match input {
        StatementInput::Scalar(name) => WriteTarget::whole(instances.place(instance, name)),
        StatementInput::Array(name) => WriteTarget::whole(instances.place(instance, name)),
        StatementInput::Element { array, index } => {
            let place = instances.place(instance, array);
            match key_of(context, instance, index) {
                Some(key) => context.writers.element(place, KeyRef::of(key)),
                None => WriteTarget::whole(place),
            }
        }
    }
}

/// Appends the position of the argument passed for a function's input, and the missing inputs of the argument.
/// Appends nothing for other places.
fn write_given<'t, 'a, A: Allocator>(
    context: &ExplainContext<'t, 'a, A>,
    out: &mut Vec<u8>,
    place: Place,
) -> Result<(), AllocError> {
    let Some(spot) = context.index.cell(place.node) else {
        return Ok(());
    };
    write_str(out, " (given at ")?;
    context.lines.say_place(out, spot.cell.at)?;
    let missing = missing_in_cell(context, place.instance, spot.cell)?;
    let location = StatementLocation {
        at: spot.cell.at,
        function: spot.function,
        instance: place.instance,
    };
    write_waiting(context, out, location, missing.as_slice())?;
    write_str(out, ")")
}

/// Returns the inputs of a cell that are not known in an instance.
pub fn missing_in_cell<'t, 'a, A: Allocator>(
    context: &ExplainContext<'t, 'a, A>,
    instance: usize,
    cell: &Cell<A>,
) -> Result<Vec<StatementInput>, AllocError> {
    let mut inputs = Vec::new(context.alloc);
    add_form(&mut inputs, &cell.form)?;
    missing_of(context.alloc, context.known, instance, inputs.as_slice())
}

/// Appends the missing inputs of an argument, without reasons.
fn write_waiting<'t, 'a, A: Allocator>(
    context: &ExplainContext<'t, 'a, A>,
    out: &mut Vec<u8>,
    location: StatementLocation,
    missing: &[StatementInput],
) -> Result<(), AllocError> {
    for i in 0..missing.len() {
        let input = missing[i];
        if is_own_cell(context, input) || has_input(&missing[..i], input) {
            continue;
        }
        write_str(out, ", which waits ")?;
        write_input(context, out, location, input)?;
    }
    Ok(())
}

/// The effect that the listed statements would have: assign a scalar, or write an array.
#[derive(Clone, Copy, Drop)]
enum WriteKind {
    Assign,
    Write,
}

/// Returns the text before the first listed statement, or between two of them.
fn before(giving: WriteKind, is_first: bool) -> &'static str {
    match (giving, is_first) {
        (WriteKind::Assign, true) => " (assigned ",
        (WriteKind::Assign, false) => ", ",
        (WriteKind::Write, true) => " (",
        (WriteKind::Write, false) => "; ",
    }
}

/// Returns the text for a listed statement that is the blocked statement itself.
fn by_itself(giving: WriteKind) -> &'static str {
    match giving {
        WriteKind::Assign => "by the same statement",
        WriteKind::Write => "the same statement may still write it",
    }
}

/// Appends the statements that would assign a scalar, or that may still write an array.
fn write_givers<'t, 'a, A: Allocator>(
    context: &ExplainContext<'t, 'a, A>,
    out: &mut Vec<u8>,
    location: StatementLocation,
    giving: WriteKind,
    writers: &[Writer],
) -> Result<(), AllocError> {
    for i in 0..writers.len() {
        let writer = writers[i];
        write_str(out, before(giving, i == 0))?;
        if writer.at == location.at {
            write_str(out, by_itself(giving))?;
            continue;
        }
        match giving {
            WriteKind::Assign => write_assignment(context, out, writer)?,
            WriteKind::Write => write_writer(context, out, writer)?,
        }
    }
    if writers.is_empty() {
        Ok(())
    } else {
        write_str(out, ")")
    }
}

fn write_assignment<'t, 'a, A: Allocator>(
    context: &ExplainContext<'t, 'a, A>,
    out: &mut Vec<u8>,
    writer: Writer,
) -> Result<(), AllocError> {
    if has_blocks(context, writer.at) {
        write_str(out, "inside of the ")?;
        write_str(out, kind_of(context, writer.at))?;
        write_str(out, " ")?;
    }
    write_str(out, "at ")?;
    context.lines.say_place(out, writer.at)?;
    write_str(
        out,
        if writer.blocked {
            ", itself blocked"
        } else {
            ", which has a fault"
        },
    )
}

fn write_writer<'t, 'a, A: Allocator>(
    context: &ExplainContext<'t, 'a, A>,
    out: &mut Vec<u8>,
    writer: Writer,
) -> Result<(), AllocError> {
    write_str(out, "the ")?;
    write_str(out, kind_of(context, writer.at))?;
    write_str(out, " at ")?;
    context.lines.say_place(out, writer.at)?;
    if writer.blocked {
        write_str(out, ", itself blocked, may still write it")
    } else {
        write_str(out, ", which has a fault, would write it")
    }
}

fn has_blocks<'t, 'a, A: Allocator>(context: &ExplainContext<'t, 'a, A>, at: usize) -> bool {
    match context.index.site(at) {
        Some(site) => opens_blocks(site),
        None => false,
    }
}

fn kind_of<'t, 'a, A: Allocator>(context: &ExplainContext<'t, 'a, A>, at: usize) -> &'static str {
    match context.index.site(at) {
        Some(site) => word_of(site),
        None => "statement",
    }
}
