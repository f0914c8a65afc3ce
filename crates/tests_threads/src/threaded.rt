//! Scripts run on threads, and their traces run again.
ghost use Rattle.std.specs.Prelude.{◌≡◌};

use crate::asserts::{boxed, holds, is_equal};
use board_program::program::Program;
use board_runs::report::{End, Report};
use compile::compile::compile;
use std::alloc::Global;
use std::process::Abort;
use std::sync::Wait;
use std::thread::Threads;
use swt_trace::replay::replay;
use swt_trace::report::write_report;
use swt_trace::write::write_trace;
use task_code::code::Code;
use task_code::packed_event::PackedEvent;
use values::sink::{Sink, SinkFault};
use workers::fault::RunFault;
use workers::gate::Gate;
use workers::run::{PoolCount, run_threads};

/// More events than the scripts here have.
pub(crate) const MANY: u32 = 10_000_000;

/// A text in memory.
#[derive(Drop)]
struct MemorySink {
    bytes: Vec<u8>,
    failures: u64,
}

impl Sink for MemorySink {
    ghost taken = { λ sink. sink.bytes.items };

    ghost failures = { λ sink. sink.failures };

    fn write(&mut self, piece: &[u8]) -> Result<usize, SinkFault> {
        match self.bytes.extend_from_slice(piece) {
            Ok(()) => Ok(piece.len()),
            Err(_) => {
                self.failures += 1;
                Err(SinkFault)
            }
        }
    }
}

/// The report of a run, and the counts of its pool.
pub(crate) type RunOutput = (Report, PoolCount);

/// The code of a script.
pub(crate) fn code_of(rt: &impl Abort, alloc: Global, script: &[u8]) -> Box<Code> {
    let code = compile(alloc, alloc, script).expect(rt, "a script");
    boxed(rt, alloc, code)
}

/// The code with its tables.
fn program_of(rt: &impl Abort, alloc: Global, code: &Code) -> Program {
    let code = code.copy().expect(rt, "memory");
    Program::new(alloc, code).expect(rt, "memory")
}

/// A run of the code on these numbers of engines and workers, or why there is none.
pub(crate) fn tried<R: Threads + Wait + Sync + Abort, G: Gate>(
    rt: &R,
    alloc: Global,
    code: &Code,
    (engines, workers): (u8, u8),
    limit: u32,
    gate: &G,
) -> Box<Result<RunOutput, RunFault>> {
    let program = program_of(rt, alloc, code);
    let answer = run_threads(rt, alloc, &program, engines, workers, limit, gate);
    boxed(rt, alloc, answer)
}

/// A run of the script on these numbers of engines and workers.
pub(crate) fn run_of<R: Threads + Wait + Sync + Abort, G: Gate>(
    rt: &R,
    alloc: Global,
    script: &[u8],
    (engines, workers): (u8, u8),
    limit: u32,
    gate: &G,
) -> Box<RunOutput> {
    let code = code_of(rt, alloc, script);
    let program = program_of(rt, alloc, &code);
    let ran = run_threads(rt, alloc, &program, engines, workers, limit, gate).expect(rt, "a run");
    boxed(rt, alloc, ran)
}

/// Returns true if a replay of the report's trace returns the same report.
fn is_replayed(rt: &impl Abort, alloc: Global, report: &Report) -> bool {
    let again = again(rt, alloc, report);
    tells_same(rt, alloc, &again, report)
}

/// The report of a replay of the report's trace.
fn again(rt: &impl Abort, alloc: Global, report: &Report) -> Box<Report> {
    let trace = trace_of(rt, alloc, report);
    let again = replay(alloc, report.program.code(), trace.bytes.as_slice()).expect(rt, "a trace");
    boxed(rt, alloc, again)
}

/// Returns true if two histories have the same events.
fn are_alike(again: &[PackedEvent], history: &[PackedEvent]) -> bool {
    if again.len() != history.len() {
        return false;
    }
    for (one, other) in again.iter().zip(history) {
        if one.event() != other.event() {
            return false;
        }
    }
    true
}

/// Returns true if two reports tell the same.
fn tells_same(rt: &impl Abort, alloc: Global, again: &Report, report: &Report) -> bool {
    again.tallies.as_slice() == report.tallies.as_slice()
        && are_alike(&again.history, &report.history)
        && has_same_text(rt, alloc, again, report)
}

fn has_same_text(rt: &impl Abort, alloc: Global, again: &Report, report: &Report) -> bool {
    let text = text_of(rt, alloc, again);
    let wanted = text_of(rt, alloc, report);
    text.bytes == wanted.bytes
}

/// An empty text in memory.
fn unwritten(alloc: Global) -> MemorySink
    ensures { result.failures ≡ 0 }
{
    MemorySink {
        bytes: Vec::new(alloc),
        failures: 0,
    }
}

fn trace_of(rt: &impl Abort, alloc: Global, report: &Report) -> MemorySink {
    let mut trace = unwritten(alloc);
    write_trace(report, &mut trace).expect(rt, "memory");
    trace
}

fn text_of(rt: &impl Abort, alloc: Global, report: &Report) -> MemorySink {
    let mut text = unwritten(alloc);
    write_report(report, &mut text).expect(rt, "memory");
    text
}

/// Returns true if the run ended quiet with nothing blocked.
fn is_done(report: &Report) -> bool {
    matches!(report.end, End::Quiet) && report.blocked.is_empty()
}

/// The run is done and printed `lines` lines, and a replay of its trace returns the same report.
pub(crate) fn is_whole(rt: &impl Abort, alloc: Global, report: &Report, lines: usize) {
    holds(rt, is_done(report));
    is_equal(rt, report.lines.len(), lines);
    holds(rt, is_replayed(rt, alloc, report));
}

/// The run was cut off after at most `limit` events, and a replay of its trace returns the same report.
pub(crate) fn is_cut(rt: &impl Abort, alloc: Global, report: &Report, limit: u32) {
    is_equal(rt, is_done(report), false);
    holds(rt, report.history.len() <= limit as usize);
    holds(rt, is_replayed(rt, alloc, report));
}

/// The items that were offered were drawn or left.
pub(crate) fn adds_up(rt: &impl Abort, count: &PoolCount) {
    is_equal(rt, count.offered, count.drawn.saturating_add(count.left));
}
