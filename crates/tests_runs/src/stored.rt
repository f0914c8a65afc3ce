//! Comparison of a run on one thread with a stored one.

use crate::sink::MemorySink;
use board_program::program::Program;
use board_runs::one::run_one;
use board_runs::report::Report;
use std::alloc::{AllocError, Global};
use swt_trace::fault::TraceError;
use swt_trace::read::read_trace;
use swt_trace::report::write_report;
use task_code::event::Event;
use task_code::packed_event::PackedEvent;

/// The line between the trace and the report of a stored run.
const BORDER: &str = "--\n";

/// How a run differs from a stored one.
#[derive(Clone, Copy, PartialEq, Eq, Debug, Drop)]
pub enum Difference {
    /// Its events, or their order, differ.
    Events,
    /// The text of its report differs.
    Report,
    /// The stored text is not a trace followed by a report.
    Unreadable,
}

/// Returns how the run by these choices, with at most `limit` events, differs from the one that is stored in this text, or `None` if it
/// does not.
///
/// # Errors
///
/// Returns `AllocError` if an allocation fails.
pub fn compare(
    alloc: Global,
    program: &Program,
    choices: &[u32],
    limit: u32,
    text: &str,
) -> Result<Option<Difference>, AllocError> {
    let Some((trace, wanted)) = text.split_once(BORDER) else {
        return Ok(Some(Difference::Unreadable));
    };
    let Some(events) = events_of(alloc, trace)? else {
        return Ok(Some(Difference::Unreadable));
    };
    let report = run_one(alloc, program, choices, limit)?;
    if !are_alike(report.history.as_slice(), events.as_slice()) {
        return Ok(Some(Difference::Events));
    }
    if !is_told(alloc, &report, wanted.as_bytes())? {
        return Ok(Some(Difference::Report));
    }
    Ok(None)
}

/// Returns true if a history has these events.
fn are_alike(history: &[PackedEvent], events: &[Event]) -> bool {
    if history.len() != events.len() {
        return false;
    }
    for (packed, event) in history.iter().zip(events) {
        if packed.event() != *event {
            return false;
        }
    }
    true
}

/// Returns the events of a trace, or `None` if the text is not a trace.
fn events_of(alloc: Global, trace: &str) -> Result<Option<Vec<Event>>, AllocError> {
    match read_trace(alloc, trace.as_bytes()) {
        Ok(told) => Ok(Some(told.events)),
        Err(TraceError::BadLine(_)) => Ok(None),
        Err(TraceError::Memory) => Err(AllocError),
    }
}

/// Returns true if this is the text of the report.
fn is_told(alloc: Global, report: &Report, wanted: &[u8]) -> Result<bool, AllocError> {
    let mut told = MemorySink::new(alloc);
    match write_report(report, &mut told) {
        Ok(()) => Ok(told.bytes.as_slice() == wanted),
        Err(_) => Err(AllocError),
    }
}
