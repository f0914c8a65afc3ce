//! Explanation of how a command ended.

use crate::explanations::explain::{explain_blocked, explain_code, explain_fault, explain_meaning};
use crate::explanations::failures::{
    explain_count, explain_same_file, explain_trace, explain_unread, explain_unwritten,
};
use crate::progress::ProgressReporter;
use crate::replay::trace_replay::follow;
use crate::system::output::LastLine;
use crate::system::source_cache::SourceCache;
use explain_code::lines::CodeNames;
use explain_faults::limits::{add_limit_of_steps, add_limit_of_trace};
use explain_text::words::write_str;
use std::alloc::{AllocError, Global};
use std::io::{Error, Write};
use swt_arguments::code_form::CodeForm;
use swt_arguments::line::Line;
use swt_status::status::Status;

/// Result of a command: its line, its status, the progress of its run, and the error of standard output, if any.
#[derive(Clone, Copy, Drop)]
pub struct CommandResult<'e, 'o, 't> {
    pub line: &'e Line,
    /// Whether every blocked statement is reported.
    pub all: bool,
    pub status: u8,
    pub reporter: &'e ProgressReporter<'t>,
    pub tail: &'o LastLine,
    pub unprinted: Option<&'o Error>,
}

impl CommandResult<'_, '_, '_> {
    /// Returns true if the command ended with this status.
    fn is(self, status: Status) -> bool {
        self.status == status.number()
    }

    /// Returns true if there may be something to explain: a check with warnings, printed code, or any end but success
    /// and an allocation failure.
    fn is_told(self) -> bool {
        if self.is(Status::Done) {
            self.is_checked() || self.printed_code().is_some()
        } else {
            !self.is(Status::Memory)
        }
    }

    /// Returns true if the files were checked and all are accepted.
    fn is_checked(self) -> bool {
        self.is(Status::Done) && matches!(self.line, Line::Check { .. })
    }

    /// Returns the names of bodies and entries in the code that the command prints, or `None` if it prints no code.
    fn printed_code(self) -> Option<CodeNames> {
        match self.line {
            Line::Code { form, .. } => names_in(*form),
            Line::Check { .. } | Line::Mean { .. } => None,
            Line::Run { .. } | Line::Replay { .. } => None,
        }
    }
}

/// Returns the names of bodies and entries in this form of code, or `None` if it has lines of its own.
fn names_in(form: CodeForm) -> Option<CodeNames> {
    match form {
        CodeForm::Listing => Some(CodeNames::Listing),
        CodeForm::Graph => Some(CodeNames::Drawing),
        CodeForm::Drawing | CodeForm::After(_) => None,
    }
}

/// Explains the result of a command on standard error: refusals, warnings, printed code, blocked statements, faults, a
/// limit, and failed operations. `reason` is the error of the last failed call on a file.
///
/// If an allocation fails, this is reported once, and the status does not change.
pub fn explain_ending(
    kept: &mut SourceCache<'_>,
    ended: CommandResult<'_, '_, '_>,
    reason: Option<&Error>,
) {
    let rt = kept.runtime();
    if ended.is_told() && write_ending(rt, kept, ended, reason).is_err() {
        let _ = eprintln!(rt; "swt: no memory");
    }
}

fn write_ending(
    rt: &HostRuntime,
    kept: &mut SourceCache<'_>,
    ended: CommandResult<'_, '_, '_>,
    reason: Option<&Error>,
) -> Result<(), AllocError> {
    if ended.is(Status::Refused) || ended.is_checked() {
        kept.tell_checked();
        write_counts(rt, kept, ended.line);
    } else if kept.tells_text() {
        let mut text = Vec::new(rt.alloc());
        add_end(rt.alloc(), kept, ended, reason, &mut text)?;
        // If this cannot be written, the status is enough.
        let _ = rt.stderr().write_all(text.as_slice());
    }
    if kept.lacks() {
        Err(AllocError)
    } else {
        Ok(())
    }
}

/// Reports how many of the files of a check are accepted, if there are two or more.
fn write_counts(rt: &HostRuntime, kept: &SourceCache<'_>, line: &Line) {
    let Line::Check { files } = line else {
        return;
    };
    let count = files.as_slice().len();
    if count > 1 && kept.tells_text() && !kept.lacks() {
        let accepted = kept.accepted();
        // If this cannot be written, the status is enough.
        let _ = eprintln!(rt; "swt: {accepted} of {count} files are accepted");
    }
}

/// Appends the names of the files that a check has not opened, if there are any.
fn add_unchecked(
    kept: &SourceCache<'_>,
    line: &Line,
    text: &mut Vec<u8>,
) -> Result<(), AllocError> {
    let Line::Check { files } = line else {
        return Ok(());
    };
    let mut place: usize = 0;
    for file in files.as_slice() {
        if place >= kept.opened() {
            add_name(text, place == kept.opened(), file.as_str())?;
        }
        place = place.saturating_add(1);
    }
    if place > kept.opened() {
        write_str(text, "\n")?;
    }
    Ok(())
}

/// Appends the name of a file that was not opened, after the words for the first one or after a comma.
fn add_name(text: &mut Vec<u8>, is_first: bool, name: &str) -> Result<(), AllocError> {
    let before = if is_first { "swt: not checked: " } else { ", " };
    write_str(text, before)?;
    write_str(text, name)
}

/// Appends the explanation of a command whose script is not refused.
fn add_end(
    alloc: Global,
    kept: &SourceCache<'_>,
    ended: CommandResult<'_, '_, '_>,
    reason: Option<&Error>,
    text: &mut Vec<u8>,
) -> Result<(), AllocError> {
    if ended.is(Status::Usage) {
        explain_count(ended.line, text)
    } else if ended.is(Status::Failed) {
        add_trouble(alloc, kept, ended, reason, text)
    } else {
        add_ending(alloc, kept, ended, text)
    }
}

/// Appends why a file could not be read or written, or why a trace is invalid.
fn add_trouble(
    alloc: Global,
    kept: &SourceCache<'_>,
    ended: CommandResult<'_, '_, '_>,
    reason: Option<&Error>,
    text: &mut Vec<u8>,
) -> Result<(), AllocError> {
    if let Some(name) = kept.unread() {
        explain_unread(alloc, name, reason, text)?;
        return add_unchecked(kept, ended.line, text);
    }
    if let Some(error) = ended.unprinted {
        return explain_unwritten(alloc, "standard output", error, text);
    }
    match ended.line {
        Line::Replay { trace, .. } => match (kept.first(), kept.second()) {
            (Some((file, script)), Some(events)) => {
                explain_trace(alloc, trace.as_str(), file, script, events, text)
            }
            _ => Ok(()),
        },
        Line::Run {
            trace: Some(trace),
            ..
        } => match reason {
            Some(error) => explain_unwritten(alloc, trace.as_str(), error, text),
            None if ended.tail.line()?.is_empty() => Ok(()),
            None => explain_same_file(trace.as_str(), text),
        },
        _ => Ok(()),
    }
}

/// Appends the explanation of a command on an accepted script that printed its code, or that ended in a fault, with
/// blocked statements, or at a limit.
fn add_ending(
    alloc: Global,
    kept: &SourceCache<'_>,
    ended: CommandResult<'_, '_, '_>,
    text: &mut Vec<u8>,
) -> Result<(), AllocError> {
    let Some((name, script)) = kept.first() else {
        return Ok(());
    };
    match ended.line {
        Line::Check { .. } => Ok(()),
        Line::Code { .. } => match ended.printed_code() {
            Some(names) => explain_code(alloc, name, script, names, text),
            None => Ok(()),
        },
        Line::Mean { rounds, .. } => {
            explain_meaning(alloc, name, script, *rounds, ended.all, text)
        }
        Line::Run { .. } | Line::Replay { .. } => {
            if ended.is(Status::Limit) {
                explain_limit(alloc, kept, ended, text)
            } else if ended.is(Status::Fault) {
                let events = events_of(kept, ended);
                explain_fault(alloc, name, script, events, ended.tail.line()?, text)
            } else {
                explain_blocked(alloc, name, script, events_of(kept, ended), ended.all, text)
            }
        }
    }
}

/// Returns a lower bound on the number of events of a run, or the number of lines of the trace in the second file.
fn events_of(kept: &SourceCache<'_>, ended: CommandResult<'_, '_, '_>) -> usize {
    match kept.second() {
        Some(trace) => lines_in(trace),
        None => ended.reporter.events(),
    }
}

fn lines_in(text: &[u8]) -> usize {
    let mut count: usize = 0;
    for byte in text {
        if *byte == b'\n' {
            count = count.saturating_add(1);
        }
    }
    count
}

/// Appends the number of items left when a run met its limit, or at the end of the trace in the second file.
fn explain_limit(
    alloc: Global,
    kept: &SourceCache<'_>,
    ended: CommandResult<'_, '_, '_>,
    text: &mut Vec<u8>,
) -> Result<(), AllocError> {
    let Some((name, script)) = kept.first() else {
        return Ok(());
    };
    let Some(trace) = kept.second() else {
        return add_limit_of_steps(text, name, ended.reporter.left());
    };
    match follow(alloc, script, trace)? {
        Some(followed) => add_limit_of_trace(text, name, followed.left),
        None => Ok(()),
    }
}
