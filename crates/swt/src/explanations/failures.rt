//! Explanation of unreadable and unwritable files, invalid traces, and too many threads.

use crate::replay::trace_replay::follow;
use crate::replay::tracking::{TracedScript, words_on};
use explain_faults::limits::add_bad_count;
use explain_faults::traces::{InvalidEventText, add_bad_line, add_no_step, add_wrong_end};
use explain_text::words::write_str;
use std::alloc::{AllocError, Global};
use std::io::Error;
use swt_arguments::line::Line;
use swt_trace::ending::Ending;
use swt_trace::fault::TraceError;
use swt_trace::read::read_trace;

/// Appends `FILE: cannot read: ` and the system's reason, if there is one.
pub fn explain_unread(
    alloc: Global,
    name: &str,
    error: Option<&Error>,
    out: &mut Vec<u8>,
) -> Result<(), AllocError> {
    match error {
        Some(error) => add_reason(alloc, name, ": cannot read: ", error, out),
        None => Ok(()),
    }
}

/// Appends `FILE: W1 Write: ` and the system's reason.
pub fn explain_unwritten(
    alloc: Global,
    name: &str,
    error: &Error,
    out: &mut Vec<u8>,
) -> Result<(), AllocError> {
    add_reason(alloc, name, ": W1 Write: ", error, out)
}

fn add_reason(
    alloc: Global,
    name: &str,
    words: &str,
    error: &Error,
    out: &mut Vec<u8>,
) -> Result<(), AllocError> {
    let reason = format!(in alloc; "{error}")?;
    write_str(out, name)?;
    write_str(out, words)?;
    write_str(out, reason.as_str())?;
    write_str(out, "\n")
}

/// Appends the explanation for a trace that would overwrite a file that was read, or a standard stream.
pub fn explain_same_file(name: &str, out: &mut Vec<u8>) -> Result<(), AllocError> {
    write_str(out, name)?;
    write_str(
        out,
        ": W1 Write: this is the script, or where standard output or standard error goes, and a trace is never written over these\n",
    )
}

/// Appends the explanation for a refused trace. It reports the first bad line, the first invalid event, or an end that
/// differs from that of the run.
pub fn explain_trace(
    alloc: Global,
    name: &str,
    file: &str,
    script: &[u8],
    trace: &[u8],
    out: &mut Vec<u8>,
) -> Result<(), AllocError> {
    let ending = match read_trace(alloc, trace) {
        Ok(told) => told.ending,
        Err(TraceError::Memory) => return Err(AllocError),
        Err(TraceError::BadLine(line)) => return add_bad_line(out, name, trace, line as usize),
    };
    let Some(followed) = follow(alloc, script, trace)? else {
        return Ok(());
    };
    let line = followed.left.events.saturating_add(2);
    match (followed.refused, ending) {
        (Some(step), _) => {
            let script = TracedScript {
                file,
                text: script,
                trace,
                count: followed.left.events,
            };
            let words = words_on(alloc, script, step)?;
            let told = InvalidEventText {
                step,
                statement: words.statement.as_slice(),
                waits: words.waits.as_slice(),
            };
            add_no_step(out, name, trace, line, &told)
        }
        (None, Some(named)) if named != followed.end => {
            add_wrong_end(out, name, trace, line, words_of(followed.end))
        }
        (None, _) => Ok(()),
    }
}

/// Returns the description of how a run ended, with the letter for it in traces.
fn words_of(end: Ending) -> &'static str {
    match end {
        Ending::Quiet => "is quiet here, which is Q",
        Ending::Fault => "has met a fault here, which is F",
        Ending::Limit => "is cut off here, which is L",
    }
}

/// Appends the explanation for a run with too many threads.
pub fn explain_count(line: &Line, out: &mut Vec<u8>) -> Result<(), AllocError> {
    match line {
        Line::Run {
            engines,
            workers,
            ..
        } => add_bad_count(out, *engines as usize, *workers as usize),
        _ => Ok(()),
    }
}
