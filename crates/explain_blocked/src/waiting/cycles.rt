//! Diagnostics for cycles of blocked statements.
//!
//! A cycle is a list of nodes of the wait graph, as `shortest_cycle` returns it: its last node is the start.

use crate::context::StatementLocation;
use crate::path::write_path;
use crate::reasons::inputs::{missing_in_cell, write_wanted};
use crate::reasons::remedies::write_cycle_remedy;
use crate::waiting::list::BlockedList;
use crate::waiting::wait_graph::input_at;
use crate::writers::WriteTarget;
use explain_inputs::input::StatementInput;
use explain_text::words::{write_count, write_str};
use std::alloc::{AllocError, Allocator};

/// Maximum number of variables of a cycle that are named.
const MAX_NAMED_VARIABLES: usize = 8;

/// Returns true if a cycle is reported as one diagnostic: it contains an argument, or statements at more than one
/// offset.
pub fn is_listed<'l, 't, 'a, A: Allocator>(
    list: &BlockedList<'l, 't, 'a, A>,
    circle: &[usize],
) -> bool {
    let start = list.at(last_of(circle));
    for node in circle {
        let is_other = if list.waits.is_statement(*node) {
            list.at(*node) != start
        } else {
            list.argument(*node).is_some()
        };
        if is_other {
            return true;
        }
    }
    false
}

fn last_of(circle: &[usize]) -> usize {
    match circle.last() {
        Some(node) => *node,
        None => 0,
    }
}

/// Appends the diagnostic for a cycle, starting from its last statement.
///
/// The first line is `FILE:3:1: blocked: x (3:1) waits for y (4:1) waits for x`. Each variable is followed by the
/// position of the statement that would write it, or of the argument passed for it. The source line of the last
/// statement, with its position marked, its path and a hint follow.
pub fn add_cycle<'l, 't, 'a, A: Allocator>(
    list: &BlockedList<'l, 't, 'a, A>,
    out: &mut Vec<u8>,
    circle: &[usize],
) -> Result<(), AllocError> {
    let last = last_of(circle);
    let at = list.at(last);
    let lines = list.context.lines;
    lines.say_start(out, list.file, at)?;
    write_str(out, "blocked: ")?;
    write_links(list, out, circle)?;
    write_str(out, "\n")?;
    lines.add_mark(out, at)?;
    write_path(list.context, out, list.location(last).instance)?;
    write_cycle_remedy(list, out, circle)
}

/// Appends the variables of a cycle. The variable that the last statement would write stands at both ends.
fn write_links<'l, 't, 'a, A: Allocator>(
    list: &BlockedList<'l, 't, 'a, A>,
    out: &mut Vec<u8>,
    circle: &[usize],
) -> Result<(), AllocError> {
    let end = circle.len().saturating_sub(2);
    write_link(list, out, circle, end)?;
    write_giver(list, out, circle, end)?;
    let mut told: usize = 0;
    for i in 0..end {
        if list.waits.is_statement(circle[i]) {
            continue;
        }
        if told >= MAX_NAMED_VARIABLES {
            write_more(list, out, circle, i, end)?;
            break;
        }
        write_str(out, " waits for ")?;
        write_link(list, out, circle, i)?;
        write_giver(list, out, circle, i)?;
        told = told.saturating_add(1);
    }
    write_str(out, " waits for ")?;
    write_link(list, out, circle, end)
}

/// Appends the number of variables between two positions of a cycle. The last of them waits for the first variable of
/// the diagnostic.
fn write_more<'l, 't, 'a, A: Allocator>(
    list: &BlockedList<'l, 't, 'a, A>,
    out: &mut Vec<u8>,
    circle: &[usize],
    from: usize,
    to: usize,
) -> Result<(), AllocError> {
    let mut count: usize = 0;
    for i in from..to {
        if !list.waits.is_statement(node_at(circle, i)) {
            count = count.saturating_add(1);
        }
    }
    write_str(out, " waits for ")?;
    write_count(out, count)?;
    write_str(out, " more in turn, of which the last")
}

/// Appends the name of the variable at a position of a cycle, as the node before it refers to that variable.
fn write_link<'l, 't, 'a, A: Allocator>(
    list: &BlockedList<'l, 't, 'a, A>,
    out: &mut Vec<u8>,
    circle: &[usize],
    i: usize,
) -> Result<(), AllocError> {
    let before = match i.checked_sub(1) {
        Some(before) => node_at(circle, before),
        None => last_of(circle),
    };
    match list.waits.target(node_at(circle, i)) {
        Some(target) => write_waited(list, out, before, target),
        None => write_str(out, "a value"),
    }
}

fn node_at(circle: &[usize], i: usize) -> usize {
    match circle.get(i) {
        Some(node) => *node,
        None => 0,
    }
}

/// Appends the name of a target, as the statement or argument `node` that waits for it refers to it.
fn write_waited<'l, 't, 'a, A: Allocator>(
    list: &BlockedList<'l, 't, 'a, A>,
    out: &mut Vec<u8>,
    node: usize,
    target: WriteTarget,
) -> Result<(), AllocError> {
    match list.listed.get(node) {
        Some(waiting) => write_one_of(
            list,
            out,
            list.location(node),
            waiting.missing.as_slice(),
            target,
        ),
        None => match (list.waits.target(node), list.argument(node)) {
            (Some(own), Some(spot)) => {
                let instance = own.place.instance;
                let missing = missing_in_cell(list.context, instance, spot.cell)?;
                let location = StatementLocation {
                    at: spot.cell.at,
                    function: spot.function,
                    instance,
                };
                write_one_of(list, out, location, missing.as_slice(), target)
            }
            _ => write_str(out, "a value"),
        },
    }
}

/// Appends the name of the input whose target is `target`, or `a value` if there is no such input.
fn write_one_of<'l, 't, 'a, A: Allocator>(
    list: &BlockedList<'l, 't, 'a, A>,
    out: &mut Vec<u8>,
    location: StatementLocation,
    inputs: &[StatementInput],
    target: WriteTarget,
) -> Result<(), AllocError> {
    match input_at(list.context, location.instance, inputs, target) {
        Some(input) => write_wanted(list.context, out, location, input),
        None => write_str(out, "a value"),
    }
}

/// Appends, in parentheses, the position of the statement that would write the variable, or of the argument passed
/// for it.
fn write_giver<'l, 't, 'a, A: Allocator>(
    list: &BlockedList<'l, 't, 'a, A>,
    out: &mut Vec<u8>,
    circle: &[usize],
    i: usize,
) -> Result<(), AllocError> {
    write_str(out, " (")?;
    let at = match list.argument(node_at(circle, i)) {
        Some(spot) => spot.cell.at,
        None => list.at(node_at(circle, i.saturating_add(1))),
    };
    list.context.lines.say_place(out, at)?;
    write_str(out, ")")
}
