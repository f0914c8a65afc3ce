//! Diagnostics for invalid traces.

use explain_text::quote::add_quote;
use explain_text::words::{write_count, write_start, write_str};
use lexer::token::Span;
use std::alloc::AllocError;

/// An event that is not a step of the script: its item, and the reason.
#[derive(Clone, Copy, Debug, PartialEq, Eq)]
pub struct InvalidEvent {
    pub item: u64,
    pub why: InvalidReason,
}

/// The reason why an event of a trace is not a step of the script.
#[derive(Clone, Copy, Debug, PartialEq, Eq)]
pub enum InvalidReason {
    /// A fault occurred earlier.
    AfterFault,
    /// The item is not created yet.
    UnknownItem,
    /// The item has ended.
    ItemEnded,
    /// The item runs on this thread.
    ItemRunning(u8),
    /// The item is not running.
    ItemNotRunning,
    /// The item waits for an input.
    ItemWaiting,
}

/// The data for the diagnostic of an invalid event: the event with its reason, the position of the item's statement,
/// and its missing inputs. Position and inputs are empty if they are not known.
#[derive(Clone, Copy, Drop)]
pub struct InvalidEventText<'w> {
    pub step: InvalidEvent,
    pub statement: &'w [u8],
    pub waits: &'w [u8],
}

/// Appends the diagnostic for the first line that violates the trace grammar.
///
/// The first line is `FILE:2:1: T1 BadLine: ..`. The line of the trace with its bytes marked and a hint follow.
///
/// # Errors
///
/// Returns `AllocError` if an allocation fails.
pub fn add_bad_line(
    out: &mut Vec<u8>,
    file: &str,
    trace: &[u8],
    line: usize,
) -> Result<(), AllocError> {
    let at = line_at(trace, line);
    write_start(out, file, trace, at.from)?;
    write_str(out, "T1 BadLine: ")?;
    write_str(out, line_error(trace, line, at))?;
    write_str(out, "\n")?;
    add_quote(out, trace, at)?;
    write_str(
        out,
        "hint: swt run FILE --trace TRACE writes a trace whole; one that was changed or cut is none\n",
    )
}

/// Returns the description of what is wrong with a line of a trace.
fn line_error(trace: &[u8], line: usize, at: Span) -> &'static str {
    let bytes = &trace[at.from.min(trace.len())..];
    let (bytes, behind) = bytes.split_at(at.to.saturating_sub(at.from).min(bytes.len()));
    if bytes.ends_with(b"\r") {
        "a line ends with its line feed alone, and this one with a carriage return before it"
    } else if line <= 1 {
        "the first line of a trace is swt-trace and its version"
    } else if behind.is_empty() && !bytes.is_empty() {
        "the last line of a trace ends with a line feed, as all others do"
    } else if trace.starts_with(b"swt-trace 2\n") {
        end_error(trace, line, bytes)
    } else {
        "a line has B, E or K, a thread from 0 to 63 and an item from 1 on, with one blank between, and no 0 in front"
    }
}

/// Returns the description of what is wrong with a line of a version 2 trace, whose last line names the end of the
/// run.
fn end_error(trace: &[u8], line: usize, bytes: &[u8]) -> &'static str {
    if names_end(trace, line_at(trace, line.saturating_sub(1))) {
        "nothing stands behind the line that names the end of the run"
    } else if bytes.is_empty() {
        "the last line of a trace names the end of its run: Q quiet, F a fault, L the limit"
    } else {
        "a line has B, E or K, a thread from 0 to 63 and an item from 1 on, with one blank between, and no 0 in front; the last one has Q, F or L alone"
    }
}

/// Returns true if a line names the end of a run: `Q`, `F` or `L` alone.
fn names_end(trace: &[u8], at: Span) -> bool {
    match trace.get(at.from..at.to) {
        Some([byte]) => matches!(byte, b'Q' | b'F' | b'L'),
        _ => false,
    }
}

/// Appends the diagnostic for a last line that names a different end than the run has. `end` describes how the run
/// ended.
///
/// # Errors
///
/// Returns `AllocError` if an allocation fails.
pub fn add_wrong_end(
    out: &mut Vec<u8>,
    file: &str,
    trace: &[u8],
    line: usize,
    end: &str,
) -> Result<(), AllocError> {
    let at = line_at(trace, line);
    write_start(out, file, trace, at.from)?;
    write_str(out, "T3 WrongEnd: the run ")?;
    write_str(out, end)?;
    write_str(out, "\n")?;
    add_quote(out, trace, at)?;
    write_str(
        out,
        "hint: a trace is of one script, as that was when it was run, and whole: swt run FILE --trace TRACE writes it anew\n",
    )
}

/// Appends the diagnostic for the first line whose event is not a step of the script, with the reason.
///
/// The first line is such as `FILE:7:1: T2 NotARun: item 4, of the statement at order.swift:3:1, waits for y`.
///
/// # Errors
///
/// Returns `AllocError` if an allocation fails.
pub fn add_no_step(
    out: &mut Vec<u8>,
    file: &str,
    trace: &[u8],
    line: usize,
    told: &InvalidEventText<'_>,
) -> Result<(), AllocError> {
    let at = line_at(trace, line);
    write_start(out, file, trace, at.from)?;
    write_str(out, "T2 NotARun: ")?;
    write_no_step(out, told)?;
    write_str(out, "\n")?;
    add_quote(out, trace, at)?;
    write_str(
        out,
        "hint: a trace is of one script, as that was when it was run: swt run FILE --trace TRACE writes it anew\n",
    )
}

fn write_no_step(out: &mut Vec<u8>, told: &InvalidEventText<'_>) -> Result<(), AllocError> {
    if told.step.why == InvalidReason::AfterFault {
        return write_str(
            out,
            "the script has met a fault before, behind which nothing begins",
        );
    }
    write_str(out, "item ")?;
    write_item(out, told.step.item)?;
    write_statement(out, told.statement)?;
    match told.step.why {
        InvalidReason::AfterFault | InvalidReason::UnknownItem => write_str(
            out,
            " is not there yet",
        ),
        InvalidReason::ItemEnded => write_str(out, " has ended before"),
        InvalidReason::ItemNotRunning => write_str(out, " does not run"),
        InvalidReason::ItemWaiting => write_waits(out, told.waits),
        InvalidReason::ItemRunning(thread) => {
            write_str(out, " runs on thread ")?;
            write_count(out, thread as usize)
        }
    }
}

/// Appends the position of the item's statement. Appends nothing if it is not known.
fn write_statement(out: &mut Vec<u8>, place: &[u8]) -> Result<(), AllocError> {
    if place.is_empty() {
        return Ok(());
    }
    write_str(out, ", of the statement at ")?;
    out.extend_from_slice(place)?;
    write_str(out, ",")
}

fn write_waits(out: &mut Vec<u8>, waits: &[u8]) -> Result<(), AllocError> {
    if waits.is_empty() {
        return write_str(out, " waits for what is not known yet");
    }
    write_str(out, " waits ")?;
    out.extend_from_slice(waits)?;
    Ok(())
}

fn write_item(out: &mut Vec<u8>, item: u64) -> Result<(), AllocError> {
    write_count(out, item as usize)
}

/// Returns the span of a line, without its line feed. Lines count from 1. For a later line, the span starts after the
/// last line feed and ends with the text.
fn line_at(text: &[u8], line: usize) -> Span {
    let mut from = 0;
    let mut count: usize = 1;
    for (i, byte) in text.iter().enumerate() {
        if *byte == b'\n' {
            if count >= line {
                return Span { from, to: i };
            }
            count = count.saturating_add(1);
            from = i + 1;
        }
    }
    Span {
        from,
        to: text.len(),
    }
}
