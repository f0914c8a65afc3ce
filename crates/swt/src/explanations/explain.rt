//! Explanations of an accepted script: from its meaning blocked statements, faults, and ends at a limit; from its code
//! the places of bodies and entries.

use compile::compile::{read, with_flow};
use compile::fault::CompileFault;
use explain_blocked::blocked::add_all_blocked;
use explain_blocked::context::ExplainContext;
use explain_blocked::index::ScriptIndex;
use explain_blocked::writers::WriterIndex;
use explain_code::lines::{CodeNames, CodeSource, add_code_lines};
use explain_faults::extent::{known_before, known_for, known_whole, limits_for};
use explain_faults::faults::{add_all_faults, add_printed_fault};
use explain_faults::limits::{add_limit_of_rounds, add_too_large};
use explain_faults::printed::PrintedFault;
use explain_text::line_index::LineIndex;
use flow::script::Flow;
use meaning::rounds;
use meaning_openings::fault::MeaningError;
use meaning_outcomes::knowledge::Knowledge;
use std::alloc::{AllocError, Global};

/// The part of a script's meaning to explain.
#[derive(Clone, Copy, Drop)]
enum Topic<'p> {
    /// The whole meaning within this limit of rounds, and whether every blocked statement is reported.
    Meaning(u32, bool),
    /// The blocked statements of a run of this many events, and whether every one is reported.
    Blocked(usize, bool),
    /// The printed fault of a run of this many events.
    Fault(usize, &'p PrintedFault),
}

/// A script: its file name, its text, and its flow.
#[derive(Clone, Copy, Drop)]
struct ScriptSource<'s> {
    file: &'s str,
    text: &'s [u8],
    flow: &'s Flow<Global>,
}

/// Appends the explanation of the meaning of a script: its blocked statements, its faults, and the limit if it was
/// reached. The meaning is computed in at most `limit` rounds. Appends nothing for a refused script.
pub fn explain_meaning(
    alloc: Global,
    file: &str,
    text: &[u8],
    limit: u32,
    all: bool,
    out: &mut Vec<u8>,
) -> Result<(), AllocError> {
    explain(alloc, file, text, Topic::Meaning(limit, all), out)
}

/// Appends the explanation of the blocked statements of a script whose run of `events` events ended blocked. They are
/// those of its meaning.
pub fn explain_blocked(
    alloc: Global,
    file: &str,
    text: &[u8],
    events: usize,
    all: bool,
    out: &mut Vec<u8>,
) -> Result<(), AllocError> {
    explain(alloc, file, text, Topic::Blocked(events, all), out)
}

/// Appends the explanation of the fault in which a run of `events` events ended. It is the last line of the printed
/// text.
pub fn explain_fault(
    alloc: Global,
    file: &str,
    text: &[u8],
    events: usize,
    printed: &[u8],
    out: &mut Vec<u8>,
) -> Result<(), AllocError> {
    match PrintedFault::read(alloc, printed)? {
        Some(fault) => explain(alloc, file, text, Topic::Fault(events, &fault), out),
        None => Ok(()),
    }
}

/// Appends the place and the source text of each body and entry of a script's code. Appends nothing for a refused
/// script.
pub fn explain_code(
    alloc: Global,
    file: &str,
    text: &[u8],
    names: CodeNames,
    out: &mut Vec<u8>,
) -> Result<(), AllocError> {
    match with_flow(alloc, alloc, text) {
        Ok(compiled) => {
            let source = CodeSource {
                file,
                text,
                flow: &compiled.flow,
                code: &compiled.code,
            };
            add_code_lines(alloc, out, &source, names)
        }
        Err(CompileFault::Memory) => Err(AllocError),
        Err(_) => Ok(()),
    }
}

/// Appends the explanation of a topic. Appends nothing for a refused script.
fn explain(
    alloc: Global,
    file: &str,
    text: &[u8],
    topic: Topic<'_>,
    out: &mut Vec<u8>,
) -> Result<(), AllocError> {
    match read(alloc, alloc, text) {
        Ok(flow) => {
            let script = ScriptSource {
                file,
                text,
                flow: &flow,
            };
            explain_script(alloc, script, topic, out)
        }
        Err(CompileFault::Memory) => Err(AllocError),
        Err(_) => Ok(()),
    }
}

fn explain_script(
    alloc: Global,
    script: ScriptSource<'_>,
    topic: Topic<'_>,
    out: &mut Vec<u8>,
) -> Result<(), AllocError> {
    match known_of(alloc, script.flow, topic) {
        Ok(known) => explain_known(alloc, script, &known, topic, out),
        Err(MeaningError::TooLarge) => explain_large(alloc, script, topic, out),
        Err(MeaningError::Memory) => Err(AllocError),
    }
}

/// Computes the facts that the explanation of the topic needs.
fn known_of(
    alloc: Global,
    flow: &Flow<Global>,
    topic: Topic<'_>,
) -> Result<Knowledge, MeaningError> {
    match topic {
        Topic::Meaning(limit, _) => {
            let known = rounds(alloc, flow, limit)?;
            Ok(known)
        }
        Topic::Blocked(events, _) => known_whole(limits_for(alloc, events), flow),
        Topic::Fault(events, fault) => known_for(limits_for(alloc, events), flow, fault),
    }
}

/// Appends the explanation for a script whose meaning is too large to compute. For a fault, its position and rule are
/// reported.
fn explain_large(
    alloc: Global,
    script: ScriptSource<'_>,
    topic: Topic<'_>,
    out: &mut Vec<u8>,
) -> Result<(), AllocError> {
    if let Topic::Fault(..) = topic {
        let known = known_before(alloc, script.flow)?;
        explain_known(alloc, script, &known, topic, out)?;
    }
    add_too_large(out, script.file)
}

fn explain_known(
    alloc: Global,
    script: ScriptSource<'_>,
    known: &Knowledge,
    topic: Topic<'_>,
    out: &mut Vec<u8>,
) -> Result<(), AllocError> {
    let index = ScriptIndex::new(alloc, script.flow)?;
    explain_indexed(alloc, script, known, &index, topic, out)
}

fn explain_indexed(
    alloc: Global,
    script: ScriptSource<'_>,
    known: &Knowledge,
    index: &ScriptIndex<'_, Global>,
    topic: Topic<'_>,
    out: &mut Vec<u8>,
) -> Result<(), AllocError> {
    let writers = WriterIndex::new(alloc, known, index)?;
    let lines = LineIndex::of(alloc, script.text)?;
    let context = ExplainContext {
        alloc,
        lines: &lines,
        index,
        known,
        writers: &writers,
    };
    add_told(&context, script.file, topic, out)
}

fn add_told(
    context: &ExplainContext<'_, '_, Global>,
    file: &str,
    topic: Topic<'_>,
    out: &mut Vec<u8>,
) -> Result<(), AllocError> {
    match topic {
        Topic::Blocked(_, all) => add_all_blocked(context, out, file, all),
        Topic::Fault(_, fault) => add_printed_fault(context, out, file, fault),
        Topic::Meaning(limit, all) => {
            add_all_blocked(context, out, file, all)?;
            add_all_faults(context, out, file)?;
            if context.known.finished {
                return Ok(());
            }
            add_limit_of_rounds(out, file, limit as usize, context.known.stuck.len())
        }
    }
}
