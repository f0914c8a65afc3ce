//! Runs of code: step by step on a board, on one thread, on many threads, and as a replay of a trace.
ghost use Rattle.std.specs.Prelude.{◌≡◌, ◌<◌, ◌+◌, ◌⊎◌, ◌↔◌, ℕ, Err, IfOk, IfErr};
ghost use Rattle.board.specs.Board.{Seen};
ghost use Rattle.board_runs.specs.Report.{Reports, Tells};
ghost use Rattle.board_runs.specs.Same.{SameReport};
ghost use Rattle.board_runs.specs.Turns.{RanTo, starts};
ghost use Rattle.board_runs.specs.declared.report.Report.{Report};
ghost use Rattle.swt_trace.specs.Replay.{IsFirstNoStep, IsTraceOf, IsWrongEnd, ReplaysTo};
ghost use Rattle.swt_trace.specs.Trace.{IsFirstBad};
ghost use Rattle.values.specs.Limits.{max_threads};
ghost use Rattle.workers.specs.Reports.{IsReport};

use crate::scripts::CompiledScript;
use board::board::Board;
use board_runs::report::Report;
pub use board_runs::report::report_of;
use std::alloc::{AllocError, Global};
use std::sync::Wait;
use std::thread::Threads;
use swt_trace::fault::ReplayFault;
use workers::fault::RunFault;
use workers::gate::Gate;
use workers::run::{self, PoolCount};

/// Creates a board for the code, before any event. It accepts at most `limit` events.
///
/// # Errors
///
/// Returns `AllocError` if an allocation fails. There is no other error.
pub fn new_board(alloc: Global, code: CompiledScript, limit: u32) -> Result<Board, AllocError>
    ensures { IfOk result (λ board. board ≡ starts code.program limit) }
{
    Board::new(alloc, code.into_program(), limit)
}

/// Runs the code on one thread, to its end or for at most `limit` events.
///
/// At each step, the next choice selects one of the enabled items, modulo their number. Once the choices are exhausted,
/// the first enabled item is selected.
///
/// # Errors
///
/// Returns `AllocError` if an allocation fails. There is no other error.
pub fn run_one(
    alloc: Global,
    code: &CompiledScript,
    choices: &[u32],
    limit: u32,
) -> Result<Report, AllocError>
    ensures turns { IfOk result (λ report. (board : Seen) × RanTo choices.now (starts code.now.program limit) board × Tells board report) }
    ensures reports { IfOk result (Reports code.now.program limit) }
{
    board_runs::one::run_one(alloc, code.program(), choices, limit)
}

/// Runs the code on threads for at most `limit` events. Engines run control items, workers run leaf items, and the gate
/// computes the items.
///
/// # Errors
///
/// Returns `BadCount` exactly if there is no engine, no worker or more than `MAX_THREADS` of both. Returns `Spawn` if a thread
/// cannot be started, `Stranger` if the thread counts contradict the board, and `Memory` if an allocation fails.
pub fn run_threads<R: Threads + Wait + Sync, G: Gate>(
    rt: &R,
    alloc: Global,
    code: &CompiledScript,
    engines: u8,
    workers: u8,
    limit: u32,
    gate: &G,
) -> Result<(Report, PoolCount), RunFault>
    ensures report { IfOk result (λ r. IsReport code.now.program limit engines workers r.0 r.1) }
    ensures reports { IfOk result (λ r. Reports code.now.program limit r.0) }
    ensures count { (result ≡ Err RunFault.BadCount) ↔ ((engines ≡ 0) ⊎ ((workers ≡ 0) ⊎ (max_threads < engines + workers))) }
{
    run::run_threads(rt, alloc, code.program(), engines, workers, limit, gate)
}

/// Replays the events of a trace on the code and returns the report of that run. Its limit is the number of events.
///
/// For the trace of any report of a run of the code, the result is a report of the same content, unless an allocation
/// fails.
///
/// # Errors
///
/// Returns `BadLine`, `NotARun` or `WrongEnd` with a line number, or `Memory`.
pub fn replay(alloc: Global, code: &CompiledScript, trace: &[u8]) -> Result<Report, ReplayFault>
    ensures report { IfOk result (ReplaysTo code.now.program trace.now) }
    ensures bad { IfErr result (λ fault. (n : ℕ) → fault ≡ ReplayFault.BadLine n → IsFirstBad trace.now n) }
    ensures no_step { IfErr result (λ fault. (n : ℕ) → fault ≡ ReplayFault.NotARun n → IsFirstNoStep code.now.program trace.now n) }
    ensures wrong { IfErr result (λ fault. (n : ℕ) → fault ≡ ReplayFault.WrongEnd n → IsWrongEnd code.now.program trace.now n) }
    ensures again { (report : Report) → IsTraceOf code.now.program trace.now report → IfOk result (SameReport report) }
    ensures only_memory { (report : Report) → IsTraceOf code.now.program trace.now report → IfErr result (λ fault. fault ≡ ReplayFault.Memory) }
{
    swt_trace::replay::replay(alloc, code.program().code(), trace)
}
