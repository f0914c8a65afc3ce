//! The commands `run` and `replay`.
ghost use Rattle.std.specs.Prelude.{◌≡◌, ◌<◌, true, MatchResult};
ghost use Rattle.swt_trace.specs.Report.{TraceOf};
ghost use Rattle.swt_status.specs.Statuses.{report_status};
ghost use Rattle.swt_command.specs.Files.{contents};
ghost use Rattle.swt_command.specs.Runs.{Ran, Replayed, Replays, Runs, StopsBeforeReplay, StopsBeforeRun, Traces};
ghost use Rattle.swt_command.specs.Sinks.{Lost, held};
ghost use Rattle.swt_command.specs.Troubles.{run_trouble};

use crate::arena::empty;
use crate::scripts::{code_of, program_of, source};
use board_runs::report::Report;
use bumpalo::Bump;
use std::alloc::Global;
use std::sync::Wait;
use std::thread::Threads;
use swt_status::failure::CommandFailure;
use swt_status::status::{Status, status_of};
use swt_status::stop::CommandStop;
use swt_status::trace::report_of_trace;
use swt_trace::report::write_report;
use swt_trace::write::write_trace;
use values::sink::Sink;
use workers::fault::RunFault;
use workers::gate::Gate;
use workers::run::run_threads;

/// Runs a script on threads and prints its report, then writes its trace if `wanted`.
///
/// The run has the given numbers of engines and workers and at most `steps` events. The gate computes the tasks and
/// receives the progress of the run.
///
/// # Errors
///
/// Returns `CommandStop` at the first file, with one of these failures:
///
/// - `Unread` or `Refused` if the script cannot be read or is refused.
/// - `BadCount` if there is no engine, no worker, or more than 64 of both.
/// - `NoThread` if a thread cannot be started.
/// - `Stranger` if the thread counts contradict the board.
/// - `Memory` if an allocation fails.
/// - `Unprinted` or `Untraced` if the report or the trace cannot be written.
pub fn run<R: Threads + Wait + Sync, G: Gate, O: Sink, S: Sink>(
    rt: &R,
    alloc: Global,
    arena: &mut Bump,
    files: &[Option<Vec<u8>>],
    engines: u8,
    workers: u8,
    steps: u32,
    wanted: bool,
    gate: &G,
    out: &mut O,
    trace: &mut S,
) -> Result<Status, CommandStop>
    requires out { O.failures out.old < u64.MAX }
    requires trace { S.failures trace.old < u64.MAX }
    ensures { Runs (contents files.now) engines workers steps wanted result
        (held (O.taken out.old) (O.failures out.old)) (held (O.taken out.new) (O.failures out.new))
        (held (S.taken trace.old) (S.failures trace.old)) (held (S.taken trace.new) (S.failures trace.new)) }
{
    let report = report_run(rt, alloc, arena, files, engines, workers, steps, gate)?;
    match write_report(&report, out) {
        Ok(()) => traced(&report, wanted, trace),
        Err(_failed) => Err(CommandStop {
            place: 0,
            trouble: CommandFailure::Unprinted,
        }),
    }
}

/// Writes the trace of a report if `wanted`, and returns the status of the report.
fn traced<S: Sink>(report: &Report, wanted: bool, trace: &mut S) -> Result<Status, CommandStop>
    requires { S.failures trace.old < u64.MAX }
    ensures { MatchResult result
        (λ status. (status ≡ report_status report.now) × Traces wanted report.now (held (S.taken trace.old) (S.failures trace.old))
        (held (S.taken trace.new) (S.failures trace.new)))
        (λ stop. (stop.place ≡ 0) × (stop.trouble ≡ CommandFailure.Untraced) × (wanted ≡ true) × Lost (held (S.taken trace.old) (S.failures trace.old))
        (TraceOf report.now) (held (S.taken trace.new) (S.failures trace.new))) }
{
    if !wanted {
        return Ok(status_of(report));
    }
    match write_trace(report, trace) {
        Ok(()) => Ok(status_of(report)),
        Err(_failed) => Err(CommandStop {
            place: 0,
            trouble: CommandFailure::Untraced,
        }),
    }
}

/// Runs the first file's script on threads and returns the report.
fn report_run<R: Threads + Wait + Sync, G: Gate>(
    rt: &R,
    alloc: Global,
    arena: &mut Bump,
    files: &[Option<Vec<u8>>],
    engines: u8,
    workers: u8,
    steps: u32,
    gate: &G,
) -> Result<Report, CommandStop>
    ensures { MatchResult result (Ran (contents files.now) engines workers steps)
        (λ stop. (stop.place ≡ 0) × StopsBeforeRun (contents files.now) engines workers stop.trouble) }
{
    let program = program_of(alloc, arena, files)?;
    empty(alloc, arena);
    match run_threads(rt, alloc, &program, engines, workers, steps, gate) {
        Ok((report, _count)) => Ok(report),
        Err(fault) => Err(CommandStop {
            place: 0,
            trouble: trouble_of(fault),
        }),
    }
}

/// Converts a fault of the run into the command failure.
fn trouble_of(fault: RunFault) -> CommandFailure
    ensures { result ≡ run_trouble fault }
{
    match fault {
        RunFault::BadCount => CommandFailure::BadCount,
        RunFault::Stranger => CommandFailure::Stranger,
        RunFault::Spawn => CommandFailure::NoThread,
        RunFault::Memory => CommandFailure::Memory,
    }
}

/// Replays the events of a trace and prints the report.
///
/// # Errors
///
/// Returns `CommandStop` with one of these failures:
///
/// - `Unread` if the script or the trace cannot be read, or `Refused` if the script is refused.
/// - `BadLine`, `NotARun` or `WrongEnd` if the second file is not a trace, or not a trace of this script.
/// - `Memory` if an allocation fails.
/// - `Unprinted` if the report cannot be written.
pub fn replay<O: Sink>(
    alloc: Global,
    arena: &mut Bump,
    files: &[Option<Vec<u8>>],
    out: &mut O,
) -> Result<Status, CommandStop>
    requires { O.failures out.old < u64.MAX }
    ensures { Replays (contents files.now) result (held (O.taken out.old) (O.failures out.old))
        (held (O.taken out.new) (O.failures out.new)) }
{
    let report = replayed(alloc, arena, files)?;
    match write_report(&report, out) {
        Ok(()) => Ok(status_of(&report)),
        Err(_failed) => Err(CommandStop {
            place: 0,
            trouble: CommandFailure::Unprinted,
        }),
    }
}

/// Replays the trace in the second file on the code of the first, and returns the report.
fn replayed(
    alloc: Global,
    arena: &mut Bump,
    files: &[Option<Vec<u8>>],
) -> Result<Report, CommandStop>
    ensures { MatchResult result (Replayed (contents files.now))
        (λ stop. StopsBeforeReplay (contents files.now) stop.place stop.trouble) }
{
    let code = code_of(alloc, arena, files)?;
    empty(alloc, arena);
    let trace = source(files, 1)?;
    report_of_trace(alloc, &code, trace)
}
