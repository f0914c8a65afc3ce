//! Diagnostics for faults.

use crate::analysis::reasons::{write_plain, write_reason};
use crate::fault_hints::element_hints::write_element_hint;
use crate::fault_hints::hints::{has_junction, write_hint_behind};
use crate::fault_hints::near_keys::write_near_key;
use crate::fault_hints::number_hints::write_number_hint;
use crate::fault_hints::recursion_hints::write_missed_end;
use crate::printed::PrintedFault;
use explain_blocked::context::ExplainContext;
use explain_blocked::path::{write_path, write_steps};
use explain_inputs::blocked_statement::instance_at;
use explain_text::words::write_str;
use meaning_facts::facts::{FaultFact, Place};
use meaning_outcomes::knowledge::Knowledge;
use paths::{FaultKind, Step};
use std::alloc::{AllocError, Allocator, Global};
use std::collections::HashMap;

/// Appends a diagnostic for each known fault of a script, in the order of the printed lines.
///
/// A diagnostic has the form
/// `FILE:LINE:COLUMN: F3 NoElement: A has no element 3: it is closed and has the keys 0 to 2`.
/// The source line with the position marked, the path and, where one is known, a hint follow.
///
/// # Errors
///
/// Returns `AllocError` if an allocation fails.
pub fn add_all_faults<'t, 'a, A: Allocator>(
    context: &ExplainContext<'t, 'a, A>,
    out: &mut Vec<u8>,
    file: &str,
) -> Result<(), AllocError> {
    let firsts = first_nodes(context.alloc, context.known)?;
    let faults = context.known.faults()?;
    for fault in &faults {
        let statement = &fault.statement;
        let path = statement.path.as_slice();
        if let Some(fact) = fact_at(context.known, &firsts, fault.kind, statement.at, path) {
            add_fault(context, out, file, fact)?;
        }
    }
    Ok(())
}

/// Appends the diagnostic for the fault that a run has printed. If the fault is not among the known facts, no values
/// are included.
///
/// # Errors
///
/// Returns `AllocError` if an allocation fails.
pub fn add_printed_fault<'t, 'a, A: Allocator>(
    context: &ExplainContext<'t, 'a, A>,
    out: &mut Vec<u8>,
    file: &str,
    printed: &PrintedFault,
) -> Result<(), AllocError> {
    match fact_of(context.alloc, context.known, printed)? {
        Some(fact) => add_fault(context, out, file, fact),
        None => add_plain(context, out, file, printed),
    }
}

/// Returns true if the printed fault is among the known facts.
pub(crate) fn is_known(
    alloc: Global,
    known: &Knowledge,
    printed: &PrintedFault,
) -> Result<bool, AllocError> {
    Ok(fact_of(alloc, known, printed)?.is_some())
}

/// Returns the fact of the printed fault, or `None` if it is not known.
fn fact_of(
    alloc: Global,
    known: &Knowledge,
    printed: &PrintedFault,
) -> Result<Option<FaultFact>, AllocError> {
    let firsts = first_nodes(alloc, known)?;
    let path = printed.path.as_slice();
    Ok(fact_at(known, &firsts, printed.kind, printed.at, path))
}

/// Returns a map from each fault, with its node set to 0, to the smallest node that has it.
fn first_nodes(alloc: Global, known: &Knowledge) -> Result<HashMap<FaultFact, u32>, AllocError> {
    let mut firsts = HashMap::new(alloc);
    for fault in known.fact_base.facts.faults.iter() {
        note_first(&mut firsts, *fault)?;
    }
    Ok(firsts)
}

fn note_first(firsts: &mut HashMap<FaultFact, u32>, fault: FaultFact) -> Result<(), AllocError> {
    let node = fault.place.node;
    let key = with_node(fault, 0);
    let is_first = match firsts.get(&key) {
        Some(first) => node < *first,
        None => true,
    };
    if is_first {
        firsts.insert(key, node)?;
    }
    Ok(())
}

fn with_node(fault: FaultFact, node: u32) -> FaultFact {
    FaultFact {
        kind: fault.kind,
        at: fault.at,
        place: Place {
            instance: fault.place.instance,
            node,
        },
    }
}

/// Returns the fact with the smallest node for a fault of this kind, of the statement at an offset with this path.
fn fact_at(
    known: &Knowledge,
    firsts: &HashMap<FaultFact, u32>,
    kind: FaultKind,
    at: usize,
    path: &[Step],
) -> Option<FaultFact> {
    let instance = instance_at(&known.fact_base.instances, path)?;
    let place = Place { instance, node: 0 };
    let key = FaultFact { kind, at, place };
    let node = *firsts.get(&key)?;
    Some(with_node(key, node))
}

fn add_fault<'t, 'a, A: Allocator>(
    context: &ExplainContext<'t, 'a, A>,
    out: &mut Vec<u8>,
    file: &str,
    fact: FaultFact,
) -> Result<(), AllocError> {
    context.lines.say_start(out, file, fact.at)?;
    write_str(out, fact.kind.name())?;
    write_str(out, ": ")?;
    if !write_reason(context, out, fact)? {
        write_plain(out, fact.kind)?;
    }
    write_str(out, "\n")?;
    context.lines.add_mark(out, mark_of(context, fact))?;
    write_path(context, out, fact.place.instance)?;
    if write_known_hint(context, out, fact)? {
        return Ok(());
    }
    let steps = context.known.fact_base.instances.path(fact.place.instance);
    write_hint_behind(context, out, fact.kind, fact.at, steps)
}

/// Appends a hint that follows from the known values. Returns true if a hint was appended.
fn write_known_hint<'t, 'a, A: Allocator>(
    context: &ExplainContext<'t, 'a, A>,
    out: &mut Vec<u8>,
    fact: FaultFact,
) -> Result<bool, AllocError> {
    match fact.kind {
        FaultKind::NoElement => {
            if write_near_key(context, out, fact)? {
                return Ok(true);
            }
            if has_junction(context, fact.at) {
                return Ok(false);
            }
            write_element_hint(context, out, fact)
        }
        FaultKind::NotANumber => write_number_hint(context, out, fact),
        FaultKind::TooDeep => write_missed_end(context, out, fact.place.instance),
        _ => Ok(false),
    }
}

/// Returns the offset to mark: that of the faulty cell if it is on the line of the statement, else that of the
/// statement.
fn mark_of<'t, 'a, A: Allocator>(context: &ExplainContext<'t, 'a, A>, fact: FaultFact) -> usize {
    let Some(spot) = context.index.cell(fact.place.node) else {
        return fact.at;
    };
    let end = context.lines.text().len();
    let line = context.lines.begin(fact.at.min(end));
    if context.lines.begin(spot.cell.at.min(end)) == line {
        spot.cell.at
    } else {
        fact.at
    }
}

/// Appends the diagnostic for a fault without known values.
fn add_plain<'t, 'a, A: Allocator>(
    context: &ExplainContext<'t, 'a, A>,
    out: &mut Vec<u8>,
    file: &str,
    printed: &PrintedFault,
) -> Result<(), AllocError> {
    context.lines.say_start(out, file, printed.at)?;
    write_str(out, printed.kind.name())?;
    write_str(out, ": ")?;
    write_plain(out, printed.kind)?;
    write_str(out, "\n")?;
    context.lines.add_mark(out, printed.at)?;
    let inner = printed.inner_first(context.alloc)?;
    if !inner.is_empty() {
        write_str(out, "    ")?;
        write_steps(context, out, usize::MAX, inner.as_slice())?;
        write_str(out, "\n")?;
    }
    write_hint_behind(context, out, printed.kind, printed.at, inner.as_slice())
}
