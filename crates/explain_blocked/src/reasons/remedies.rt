//! Hints for blocked statements.
//!
//! A hint is written for root causes alone, since the other statements wait for them. Each rule looks at the statement,
//! at one of its missing inputs, and at the blocked statements that would write this input.

use crate::context::{ExplainContext, location_of};
use crate::index::ScriptIndex;
use crate::path::is_in_loop;
use crate::reasons::inputs::{is_own_cell, target_of, write_wanted};
use crate::sites::{action_of, opens_blocks, word_of};
use crate::waiting::list::BlockedList;
use crate::waiting::wait_graph::input_at;
use crate::writers::{WriteTarget, has_offset};
use explain_inputs::blocked_statement::BlockedStatement;
use explain_inputs::input::StatementInput;
use explain_remedies::hint_text::write_filled;
use explain_remedies::indices::{ShiftedIndex, shifted_index};
use explain_remedies::junctions::{Junction, decided_junction};
use explain_text::words::write_str;
use flow::cell::Cell;
use flow::name::NameBinding;
use flow::statement::Action;
use std::alloc::{AllocError, Allocator};

const CLOSED: &str =
    "hint: $ is closed once no statement may write it any more, and this $ may: write to another array\n";

const ALONE: &str =
    "hint: $ has one value, which cannot depend on itself: assign the new value to another variable\n";

const INSIDE: &str =
    "hint: $ gets its value inside of this $, which waits for it: write it outside, or wait for something else\n";

const UNWRITTEN: &str = "hint: no statement writes $: write it as well\n";

const UNWRITTEN_BY_TURNS: &str = "hint: no turn writes $: write it outside of the loop\n";

const UNKNOWN_KEY: &str =
    "hint: while its own key is not known, the statement may write $: write to another array\n";

const COUNTED: &str =
    "hint: $ has one value and cannot count: let each turn write an element of its own, and take the size\n";

const BEFORE: &str =
    "hint: $ has one value, which cannot depend on itself: the element of the turn before is A[i - 1]\n";

const ITSELF: &str =
    "hint: $ has one value, which cannot depend on itself: write the new value under another key\n";

const EACH_OTHER: &str =
    "hint: the turns wait for each other: compute one of these elements without the others\n";

const CLOSED_CYCLE: &str =
    "hint: $ is closed once no statement may write it any more: write what depends on it to another array\n";

const CYCLE: &str = "hint: each waits for the next: compute one of them without the others\n";

/// The part that a variable has in a loop.
#[derive(Clone, Copy)]
enum LoopRole {
    /// The variable differs in each turn: the value of a range, or a key.
    Turn,
    /// The variable is the value of an element.
    Element,
    /// The variable is not one of a loop.
    Other,
}

/// Appends a hint for a root cause. Appends nothing if no hint is known.
pub fn write_remedy<'l, 't, 'a, A: Allocator>(
    list: &BlockedList<'l, 't, 'a, A>,
    out: &mut Vec<u8>,
    number: usize,
) -> Result<(), AllocError> {
    let context = list.context;
    let Some(waiting) = list.listed.get(number) else {
        return Ok(());
    };
    if !context.known.finished || write_junction(context, out, waiting)? {
        return Ok(());
    }
    for input in &waiting.missing {
        if !is_own_cell(context, *input) && write_for_input(context, out, waiting, *input)? {
            return Ok(());
        }
    }
    Ok(())
}

/// Returns the operator `&&` or `||` of a statement of which one side decides the result.
fn junction_of<'t, 'a, A: Allocator>(
    context: &ExplainContext<'t, 'a, A>,
    waiting: &BlockedStatement<'t, 'a, A>,
) -> Result<Option<Junction>, AllocError> {
    match action_of(waiting.site) {
        Some(action) => decided_junction(
            &context.known.fact_base,
            context.alloc,
            waiting.instance,
            action,
        ),
        None => Ok(None),
    }
}

/// Appends a hint if one side of an `&&` or `||` decides a condition of the statement. Returns true if it was appended.
fn write_junction<'t, 'a, A: Allocator>(
    context: &ExplainContext<'t, 'a, A>,
    out: &mut Vec<u8>,
    waiting: &BlockedStatement<'t, 'a, A>,
) -> Result<bool, AllocError> {
    let Some(junction) = junction_of(context, waiting)? else {
        return Ok(false);
    };
    write_str(out, "hint: ")?;
    write_str(out, junction.remedy())?;
    Ok(true)
}

/// Appends a hint for a missing input of a statement. Returns true if a hint was appended.
fn write_for_input<'t, 'a, A: Allocator>(
    context: &ExplainContext<'t, 'a, A>,
    out: &mut Vec<u8>,
    waiting: &BlockedStatement<'t, 'a, A>,
    input: StatementInput,
) -> Result<bool, AllocError> {
    let target = target_of(context, waiting.instance, input);
    let writers = context.writers.of(target);
    let text = if writers.is_empty() {
        text_without_writer(context, waiting, target)
    } else if is_written_by(context, waiting, target) {
        text_for_own(context, waiting, input, target)
    } else if has_offset(writers, waiting.site.at()) && target.mark.is_some() {
        EACH_OTHER
    } else {
        ""
    };
    write_hint(context, out, waiting, input, text)?;
    Ok(!text.is_empty())
}

/// Returns the text for an input that no statement writes.
fn text_without_writer<'t, 'a, A: Allocator>(
    context: &ExplainContext<'t, 'a, A>,
    waiting: &BlockedStatement<'t, 'a, A>,
    target: WriteTarget,
) -> &'static str {
    if target.mark.is_none() {
        ""
    } else if is_in_loop(context, waiting.instance) {
        UNWRITTEN_BY_TURNS
    } else {
        UNWRITTEN
    }
}

/// Returns true if a blocked statement would itself write a target.
fn is_written_by<'t, 'a, A: Allocator>(
    context: &ExplainContext<'t, 'a, A>,
    waiting: &BlockedStatement<'t, 'a, A>,
    target: WriteTarget,
) -> bool {
    for number in context.writers.blocked_at(target) {
        if let Some(stuck) = context.known.stuck.get(*number) {
            if stuck.instance == waiting.instance && stuck.at == waiting.site.at() {
                return true;
            }
        }
    }
    false
}

/// Returns the text for an input that the statement itself would write.
fn text_for_own<'t, 'a, A: Allocator>(
    context: &ExplainContext<'t, 'a, A>,
    waiting: &BlockedStatement<'t, 'a, A>,
    input: StatementInput,
    target: WriteTarget,
) -> &'static str {
    match input {
        StatementInput::Array(_) => CLOSED,
        _ if opens_blocks(waiting.site) => INSIDE,
        StatementInput::Scalar(_) => ALONE,
        StatementInput::Element { .. } if target.mark.is_none() => UNKNOWN_KEY,
        StatementInput::Element { .. } => match own_index(waiting) {
            Some(index) => match role_of(context.index, index) {
                LoopRole::Turn => BEFORE,
                LoopRole::Element => COUNTED,
                LoopRole::Other => ITSELF,
            },
            None => ITSELF,
        },
    }
}

/// Returns the variable that is the index of the element that a statement writes, or `None` if the index has another
/// form.
fn own_index<'t, 'a, A: Allocator>(waiting: &BlockedStatement<'t, 'a, A>) -> Option<ShiftedIndex> {
    let found = shifted_index(&index_cell(waiting)?.form)?;
    if found.distance == 0 {
        Some(found)
    } else {
        None
    }
}

/// Returns the cell of the index of the element that a statement writes.
fn index_cell<'t, 'a, A: Allocator>(waiting: &BlockedStatement<'t, 'a, A>) -> Option<&'a Cell<A>> {
    match action_of(waiting.site)? {
        Action::Insert { index, .. } => Some(&index.cell),
        _ => None,
    }
}

/// Returns the part that the variable of an index has in its loop.
fn role_of<'a, A: Allocator>(index: &ScriptIndex<'a, A>, shifted: ShiftedIndex) -> LoopRole {
    let NameBinding::Local(node) = shifted.name.what else {
        return LoopRole::Other;
    };
    let Some(site) = index.declaring_site(node) else {
        return LoopRole::Other;
    };
    match action_of(site) {
        Some(Action::Range { .. }) => LoopRole::Turn,
        Some(Action::Each { value, .. }) if value.node == node => LoopRole::Element,
        Some(Action::Each { .. }) => LoopRole::Turn,
        _ => LoopRole::Other,
    }
}

/// Appends a hint, with the name of an input and the word for the statement that waits for it. Appends nothing without
/// a text.
fn write_hint<'t, 'a, A: Allocator>(
    context: &ExplainContext<'t, 'a, A>,
    out: &mut Vec<u8>,
    waiting: &BlockedStatement<'t, 'a, A>,
    input: StatementInput,
    text: &'static str,
) -> Result<(), AllocError> {
    let mut name = Vec::new(context.alloc);
    write_wanted(context, &mut name, location_of(waiting), input)?;
    write_filled(
        out,
        text,
        &[name.as_slice(), word_of(waiting.site).as_bytes()],
    )
}

/// Appends a hint for a cycle, which is a list of nodes as `shortest_cycle` returns it.
pub fn write_cycle_remedy<'l, 't, 'a, A: Allocator>(
    list: &BlockedList<'l, 't, 'a, A>,
    out: &mut Vec<u8>,
    circle: &[usize],
) -> Result<(), AllocError> {
    if !list.context.known.finished
        || write_cycle_junction(list, out, circle)?
        || write_cycle_array(list, out, circle)?
    {
        return Ok(());
    }
    write_str(out, CYCLE)
}

/// Appends a hint if one side of an `&&` or `||` decides a condition of a statement of a cycle, with the position of the
/// statement. Returns true if it was appended.
fn write_cycle_junction<'l, 't, 'a, A: Allocator>(
    list: &BlockedList<'l, 't, 'a, A>,
    out: &mut Vec<u8>,
    circle: &[usize],
) -> Result<bool, AllocError> {
    for node in circle {
        if let Some(waiting) = list.listed.get(*node) {
            if write_junction_at(list.context, out, waiting)? {
                return Ok(true);
            }
        }
    }
    Ok(false)
}

fn write_junction_at<'t, 'a, A: Allocator>(
    context: &ExplainContext<'t, 'a, A>,
    out: &mut Vec<u8>,
    waiting: &BlockedStatement<'t, 'a, A>,
) -> Result<bool, AllocError> {
    let Some(junction) = junction_of(context, waiting)? else {
        return Ok(false);
    };
    write_str(out, "hint: at ")?;
    context.lines.say_place(out, waiting.site.at())?;
    write_str(out, " ")?;
    write_str(out, junction.remedy())?;
    Ok(true)
}

/// Appends a hint if a statement of a cycle waits until an array is closed. Returns true if it was appended.
fn write_cycle_array<'l, 't, 'a, A: Allocator>(
    list: &BlockedList<'l, 't, 'a, A>,
    out: &mut Vec<u8>,
    circle: &[usize],
) -> Result<bool, AllocError> {
    for i in 0..circle.len() {
        let next = next_in(circle, i);
        if let (Some(waiting), Some(target)) = (
            list.listed.get(circle[i]),
            list.waits.target(next),
        ) {
            if write_closed(list.context, out, waiting, target)? {
                return Ok(true);
            }
        }
    }
    Ok(false)
}

/// Returns the node after a position of a cycle.
fn next_in(circle: &[usize], i: usize) -> usize {
    match (circle.get(i.saturating_add(1)), circle.first()) {
        (Some(next), _) => *next,
        (None, Some(first)) => *first,
        (None, None) => 0,
    }
}

/// Appends a hint if the input of a statement with this target is a whole array. Returns true if it was appended.
fn write_closed<'t, 'a, A: Allocator>(
    context: &ExplainContext<'t, 'a, A>,
    out: &mut Vec<u8>,
    waiting: &BlockedStatement<'t, 'a, A>,
    target: WriteTarget,
) -> Result<bool, AllocError> {
    let missing = waiting.missing.as_slice();
    match input_at(context, waiting.instance, missing, target) {
        Some(StatementInput::Array(array)) => {
            write_hint(
                context,
                out,
                waiting,
                StatementInput::Array(array),
                CLOSED_CYCLE,
            )?;
            Ok(true)
        }
        _ => Ok(false),
    }
}
