//! Descriptions of paths, such as `turn i = 3 of the loop at 2:1`.

use crate::context::ExplainContext;
use crate::sites::action_of;
use crate::value_text::{write_key, write_scalar};
use explain_text::words::{write_count, write_number, write_str};
use flow::cell::{CellForm, OuterCell};
use flow::expression::Expr;
use flow::statement::{Action, Range, Variable};
use meaning_facts::facts::Place;
use meaning_outcomes::Step;
use std::alloc::{AllocError, Allocator};
use values::key::Key;

/// Maximum number of steps of a path that are described.
const MAX_DESCRIBED_STEPS: usize = 12;

/// Appends the path of a block instance as a line, innermost step first. Appends nothing for the script's own block.
pub fn write_path<'t, 'a, A: Allocator>(
    context: &ExplainContext<'t, 'a, A>,
    out: &mut Vec<u8>,
    instance: usize,
) -> Result<(), AllocError> {
    let steps = context.known.fact_base.instances.path(instance);
    if steps.is_empty() {
        return Ok(());
    }
    write_str(out, "    ")?;
    write_steps(context, out, instance, steps)?;
    write_str(out, "\n")
}

/// Appends the steps to a block instance, innermost first. After 12 steps, the number of the others is appended
/// instead.
pub fn write_steps<'t, 'a, A: Allocator>(
    context: &ExplainContext<'t, 'a, A>,
    out: &mut Vec<u8>,
    instance: usize,
    steps: &[Step],
) -> Result<(), AllocError> {
    let mut inside = instance;
    for i in 0..steps.len() {
        if i >= MAX_DESCRIBED_STEPS {
            return write_more(out, steps.len() - i);
        }
        if i > 0 {
            write_str(out, "; ")?;
        }
        write_step(context, out, inside, &steps[i])?;
        inside = parent_of(context, inside);
    }
    Ok(())
}

fn write_more(out: &mut Vec<u8>, count: usize) -> Result<(), AllocError> {
    write_str(out, "; and ")?;
    write_count(out, count)?;
    write_str(out, " more")
}

/// Returns the parent of a block instance, or 0 if there is no such instance.
fn parent_of<'t, 'a, A: Allocator>(context: &ExplainContext<'t, 'a, A>, instance: usize) -> usize {
    match context.known.fact_base.instances.all.get(instance) {
        Some(found) => found.parent,
        None => 0,
    }
}

fn write_step<'t, 'a, A: Allocator>(
    context: &ExplainContext<'t, 'a, A>,
    out: &mut Vec<u8>,
    instance: usize,
    step: &Step,
) -> Result<(), AllocError> {
    if let Some(name) = context.index.function_at(step.offset) {
        write_str(out, "in ")?;
        out.extend_from_slice(name)?;
        write_str(out, ", called at ")?;
        return context.lines.say_place(out, step.offset);
    }
    match opener(context, step.offset) {
        Some(
            Action::Range {
                range,
                value,
                turn,
                ..
            },
        ) => {
            let has_key = write_named_key(out, turn, &step.key)?;
            write_value(
                context,
                out,
                instance,
                value,
                has_key,
                value_of_turn(range, &step.key),
            )?;
            write_str(out, " of the loop at ")?
        }
        Some(Action::Each { value, key, .. }) => {
            write_element_key(out, key, &step.key)?;
            write_value(context, out, instance, value, true, None)?;
            write_str(out, " of the loop at ")?
        }
        Some(Action::Choose { .. }) => write_branch(out, &step.key)?,
        _ => write_str(out, "in the if at ")?,
    }
    context.lines.say_place(out, step.offset)
}

/// Returns the action of the statement at an offset, which opens the block of a step.
fn opener<'t, 'a, A: Allocator>(
    context: &ExplainContext<'t, 'a, A>,
    at: usize,
) -> Option<&'a Action<A>> {
    action_of(context.index.site(at)?)
}

/// Returns true if a block instance is a turn of a loop, or is nested in one.
pub fn is_in_loop<'t, 'a, A: Allocator>(
    context: &ExplainContext<'t, 'a, A>,
    instance: usize,
) -> bool {
    for step in context.known.fact_base.instances.path(instance) {
        match opener(context, step.offset) {
            Some(Action::Range { .. }) => return true,
            Some(Action::Each { .. }) => return true,
            _ => {}
        }
    }
    false
}

fn write_branch(out: &mut Vec<u8>, key: &Key) -> Result<(), AllocError> {
    match key {
        Key::Number(0) => write_str(out, "in the if at "),
        _ => write_str(out, "in the else of the if at "),
    }
}

/// Appends `turn` and, if the key of the turn has a name, the name with the key. Returns true if the key was appended.
fn write_named_key<A: Allocator>(
    out: &mut Vec<u8>,
    name: &Option<Variable<A>>,
    key: &Key,
) -> Result<bool, AllocError> {
    write_str(out, "turn ")?;
    match name {
        Some(variable) => {
            out.extend_from_slice(variable.name.as_slice())?;
            write_str(out, " = ")?;
            write_key(out, key)?;
            Ok(true)
        }
        None => Ok(false),
    }
}

/// Appends `turn` and the key of the turn, with the name of the key if it has one.
fn write_element_key<A: Allocator>(
    out: &mut Vec<u8>,
    name: &Option<Variable<A>>,
    key: &Key,
) -> Result<(), AllocError> {
    if write_named_key(out, name, key)? {
        Ok(())
    } else {
        write_key(out, key)
    }
}

/// Appends the loop variable with its value in the turn that an instance is.
///
/// If no such instance is known, the value is `computed`. Without a value, the name alone is appended, and nothing
/// after a key.
fn write_value<'t, 'a, A: Allocator>(
    context: &ExplainContext<'t, 'a, A>,
    out: &mut Vec<u8>,
    instance: usize,
    value: &Variable<A>,
    has_key: bool,
    computed: Option<i64>,
) -> Result<(), AllocError> {
    let node = value.node;
    let known = context
        .known
        .fact_base
        .instances
        .variable(Place { instance, node });
    let name = value.name.as_slice();
    match (known, computed) {
        (Some(scalar), _) => {
            write_assigned(out, name, has_key)?;
            write_scalar(out, scalar)
        }
        (None, Some(number)) => {
            write_assigned(out, name, has_key)?;
            write_number(out, number)
        }
        (None, None) if has_key => Ok(()),
        (None, None) => {
            out.extend_from_slice(name)?;
            Ok(())
        }
    }
}

fn write_assigned(out: &mut Vec<u8>, name: &[u8], has_key: bool) -> Result<(), AllocError> {
    if has_key {
        write_str(out, ", ")?;
    }
    out.extend_from_slice(name)?;
    write_str(out, " = ")
}

/// Returns the value of the turn with this number. Returns `None` if the lower bound or the step of the range is not
/// a literal.
fn value_of_turn<A: Allocator>(range: &Range<A>, key: &Key) -> Option<i64> {
    let Key::Number(turn) = key else {
        return None;
    };
    let step = match &range.step {
        Some(step) => literal_of(step)?,
        None => 1,
    };
    literal_of(&range.low)?.checked_add(step.checked_mul(*turn)?)
}

/// Returns the number that a cell is, or `None` if it is not a literal.
fn literal_of<A: Allocator>(outer: &OuterCell<A>) -> Option<i64> {
    match &outer.cell.form {
        CellForm::Compute(Expr::Number(number)) => Some(*number),
        _ => None,
    }
}
