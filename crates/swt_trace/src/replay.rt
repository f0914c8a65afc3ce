//! Replay of a trace on the code of its script.
ghost use Rattle.std.specs.Prelude.{◌≡◌, ◌<◌, ℕ, List, [], length, map, Option, true, IfSome, IfOk, IfErr, OnOk};
ghost use Rattle.dataflow.specs.Machine.{Back, Begin, End};
ghost use Rattle.task_code.specs.View.{event_view};
ghost use Rattle.board.specs.Board.{IsWorker};
ghost use Rattle.swt_trace.specs.Trace.{IsFirstBad, IsTrace, worker_of};
ghost use Rattle.board_runs.specs.declared.report.Report.{Report};
ghost use Rattle.board_runs.specs.Report.{Reports};
ghost use Rattle.board_runs.specs.Same.{SameReport};
ghost use Rattle.board_runs.specs.Stopped.{IsStopped};
ghost use Rattle.swt_trace.specs.declared.ending.Ending.{Ending};
ghost use Rattle.swt_trace.specs.Replay.{IsFirstNoStep, IsNamed, IsTraceOf, IsWrongEnd, ReplaysTo, Takes};
ghost use Rattle.swt_trace.specs.Refused.{IsRefusedBy, IsSoFar};

use crate::ending::Ending;
use crate::fault::{RefusedReplay, ReplayFault};
use crate::read::read_trace;
use board::Board;
use board::refusal::BoardRefusal;
use board_program::program::Program;
use board_runs::report::Report;
use board_runs::step::finish;
use board_runs::stopped::{StoppedRun, stopped_run};
use std::alloc::{AllocError, Global};
use task_code::code::Code;
use task_code::event::Event;

/// Runs the events of a trace on the code, and returns the report of that run. See `replay_to_stop`, which can keep the
/// board.
///
/// # Errors
///
/// Returns the faults of `replay_to_stop`.
pub fn replay(alloc: Global, code: &Code, trace: &[u8]) -> Result<Report, ReplayFault>
    ensures report { IfOk result (ReplaysTo code.now trace.now) }
    ensures bad { IfErr result (λ fault. (n : ℕ) → fault ≡ ReplayFault.BadLine n → IsFirstBad trace.now n) }
    ensures no_step { IfErr result (λ fault. (n : ℕ) → fault ≡ ReplayFault.NotARun n → IsFirstNoStep code.now trace.now n) }
    ensures wrong { IfErr result (λ fault. (n : ℕ) → fault ≡ ReplayFault.WrongEnd n → IsWrongEnd code.now trace.now n) }
    ensures again { (report : Report) → IsTraceOf code.now trace.now report → IfOk result (SameReport report) }
    ensures only_memory { (report : Report) → IsTraceOf code.now trace.now report → IfErr result (λ fault. fault ≡ ReplayFault.Memory) }
{
    match replay_to_stop(alloc, code, trace, false) {
        Ok(run) => Ok(run.into_report()),
        Err(refused) => Err(refused.fault),
    }
}

/// Runs the events of a trace on the code, and returns the report of that run, and the board on which it ended if that
/// is wanted.
///
/// The limit of the run is the number of events. The end of the report is therefore `Limit` if the trace stops before
/// the run does. The trace of a report of any run of the code is replayed to a report with the same content, unless
/// an allocation fails.
///
/// # Errors
///
/// Returns `BadLine` if the bytes are not a trace, before any event is run. Its number is that of the first line that
/// violates the grammar.
///
/// Returns `NotARun` if an event is not a step, with the number of the first such line. The item could not begin, or
/// was ended or given back by a worker that did not run it. Or a fault occurred earlier. If the board is wanted, it is
/// returned as the events before have left it, together with the event.
///
/// Returns `WrongEnd` if each event is a step, but the last line of a trace of version 2 names a different end. Its
/// number is that of the last line. The board is returned if it is wanted.
///
/// Returns `Memory` if an allocation fails.
pub fn replay_to_stop(
    alloc: Global,
    code: &Code,
    trace: &[u8],
    keeps: bool,
) -> Result<StoppedRun, RefusedReplay>
    ensures report { IfOk result (λ run. ReplaysTo code.now trace.now run.report) }
    ensures kept { IfOk result (IsStopped keeps) }
    ensures bad { IfErr result (λ refused. (n : ℕ) → refused.fault ≡ ReplayFault.BadLine n → IsFirstBad trace.now n) }
    ensures no_step { IfErr result (λ refused. (n : ℕ) → refused.fault ≡ ReplayFault.NotARun n → IsFirstNoStep code.now trace.now n) }
    ensures wrong { IfErr result (λ refused. (n : ℕ) → refused.fault ≡ ReplayFault.WrongEnd n → IsWrongEnd code.now trace.now n) }
    ensures again { (report : Report) → IsTraceOf code.now trace.now report → IfOk result (λ run. SameReport report run.report) }
    ensures only_memory { (report : Report) → IsTraceOf code.now trace.now report → IfErr result (λ refused. refused.fault ≡ ReplayFault.Memory) }
    ensures left { IfErr result (λ refused. IfSome refused.board (λ board. IsRefusedBy code.now trace.now keeps refused.event board)) }
{
    let _whole = code.entry_count();
    let told = read_trace(alloc, trace)?;
    let program = Program::new(alloc, code.copy()?)?;
    let board = Board::new(alloc, program, told.events.len() as u32)?;
    let run = run_behind(alloc, board, told.events.as_slice(), keeps)?;
    ended_as(run, told.ending, told.events.len() as u64 + 2)
}

/// Runs the events of a trace on a board without history, and returns the report, and the board if it is wanted.
fn run_behind(
    alloc: Global,
    board: Board,
    events: &[Event],
    keeps: bool,
) -> Result<StoppedRun, RefusedReplay>
    requires trace { (bytes : List ℕ) × (e : Option Ending) × IsTrace bytes events.now e }
    requires none { board.history ≡ [] }
    requires room { board.limit ≡ length events.now }
    ensures history { IfOk result (λ run. run.report.history.items ≡ events.now) }
    ensures reports { IfOk result (λ run. Reports board.code (length events.now) run.report) }
    ensures kept { IfOk result (IsStopped keeps) }
    ensures bad { IfErr result (λ refused. (n : ℕ) → refused.fault ≡ ReplayFault.BadLine n → ⊥) }
    ensures wrong { IfErr result (λ refused. (n : ℕ) → refused.fault ≡ ReplayFault.WrongEnd n → ⊥) }
    ensures no_step { IfErr result (λ refused. (n : ℕ) → refused.fault ≡ ReplayFault.NotARun n
        → (bytes : List ℕ) (e : Option Ending) → IsTrace bytes events.now e → IsFirstNoStep board.code bytes n) }
    ensures left { IfErr result (λ refused. IfSome refused.board (λ left. (bytes : List ℕ) (e : Option Ending)
        → IsTrace bytes events.now e → IsRefusedBy board.code bytes keeps refused.event left)) }
{
    let mut board = board;
    match take_all(&mut board, events) {
        Ok(()) => Ok(stopped_run(alloc, board, keeps)?),
        Err(fault) => Err(refused_at(fault, board, events, keeps)),
    }
}

/// Returns the refusal of the first event that is not a step, with the board before it if that is wanted. No board is
/// left for want of memory.
fn refused_at(fault: ReplayFault, board: Board, events: &[Event], keeps: bool) -> RefusedReplay
    ensures fault { result.fault ≡ fault }
    ensures board { IfSome result.board (λ left. (left ≡ board) × (keeps ≡ true) × ((n : ℕ) × (fault ≡ ReplayFault.NotARun n))) }
{
    match fault {
        ReplayFault::NotARun(line) if keeps => RefusedReplay {
            fault,
            board: Some(board),
            event: events.get(line.saturating_sub(2) as usize).copied(),
        },
        _ => RefusedReplay::alone(fault),
    }
}

/// Returns the run if it has the end that its trace names on this line, or if the trace names none.
///
/// # Errors
///
/// Returns `WrongEnd` with the number of the line if the run has a different end.
fn ended_as(run: StoppedRun, ending: Option<Ending>, line: u64) -> Result<StoppedRun, RefusedReplay>
    ensures ok { IfOk result (λ same. (same ≡ run) × IsNamed ending run.report.end) }
    ensures err { IfErr result (λ refused. (refused.fault ≡ ReplayFault.WrongEnd line) × (refused.board ≡ run.board) × ¬ IsNamed ending run.report.end) }
{
    if let Some(named) = ending {
        if named != Ending::of(&run.report.end) {
            return Err(RefusedReplay {
                fault: ReplayFault::WrongEnd(line),
                board: run.into_board(),
                event: None,
            });
        }
    }
    Ok(run)
}

/// Runs the events of a trace on a board without history, up to the first one that is not a step.
fn take_all(board: &mut Board, events: &[Event]) -> Result<(), ReplayFault>
    requires trace { (bytes : List ℕ) × (e : Option Ending) × IsTrace bytes events.now e }
    requires none { board.old.history ≡ [] }
    requires room { board.old.limit ≡ length events.now }
    ensures code { OnOk result (board.new.code ≡ board.old.code) }
    ensures limit { OnOk result (board.new.limit ≡ board.old.limit) }
    ensures history { OnOk result (board.new.history ≡ map event_view events.now) }
    ensures bad { IfErr result (λ fault. (n : ℕ) → fault ≡ ReplayFault.BadLine n → ⊥) }
    ensures wrong { IfErr result (λ fault. (n : ℕ) → fault ≡ ReplayFault.WrongEnd n → ⊥) }
    ensures no_step { IfErr result (λ fault. (n : ℕ) → fault ≡ ReplayFault.NotARun n
        → (bytes : List ℕ) (e : Option Ending) → IsTrace bytes events.now e → IsFirstNoStep board.old.code bytes n) }
    ensures left { IfErr result (λ fault. (n : ℕ) → fault ≡ ReplayFault.NotARun n
        → (board.new.code ≡ board.old.code) × IsSoFar events.now board.new.history) }
{
    for (place, event) in events.iter().enumerate() {
        if !take_step(board, event)? {
            let _replays = board.history();
            return Err(ReplayFault::NotARun(place as u64 + 2));
        }
    }
    Ok(())
}

/// Runs an event if it is a step, and returns whether it is one.
fn take_step(board: &mut Board, event: &Event) -> Result<bool, AllocError>
    requires worker { IsWorker (worker_of event.now) }
    requires room { length board.old.history < board.old.limit }
    ensures { IfOk result (λ taken. Takes board.old (event_view event.now) board.new taken) }
{
    match event {
        Event::Begin { worker, item } => take_begin(board, *worker, *item),
        Event::End { worker, item } => take_end(board, *worker, *item),
        Event::Back { worker, item } => take_back(board, *worker, *item),
    }
}

/// Begins an item for `take_step`.
fn take_begin(board: &mut Board, worker: u8, item: u64) -> Result<bool, AllocError>
    requires worker { IsWorker worker }
    requires room { length board.old.history < board.old.limit }
    ensures { IfOk result (λ taken. Takes board.old (Begin worker item) board.new taken) }
{
    match board.begin(worker, item) {
        Ok(work) => {
            drop(work);
            Ok(true)
        }
        Err(refusal) => match refusal {
            BoardRefusal::Memory => Err(AllocError),
            _ => Ok(false),
        },
    }
}

/// Computes a running item and ends it, for `take_step`.
fn take_end(board: &mut Board, worker: u8, item: u64) -> Result<bool, AllocError>
    requires worker { IsWorker worker }
    requires room { length board.old.history < board.old.limit }
    ensures { IfOk result (λ taken. Takes board.old (End worker item) board.new taken) }
{
    match board.work(worker, item) {
        Ok(work) => finish(board, worker, work),
        Err(refusal) => match refusal {
            BoardRefusal::Memory => Err(AllocError),
            _ => Ok(false),
        },
    }
}

/// Gives an item back, for `take_step`.
fn take_back(board: &mut Board, worker: u8, item: u64) -> Result<bool, AllocError>
    requires worker { IsWorker worker }
    requires room { length board.old.history < board.old.limit }
    ensures { IfOk result (λ taken. Takes board.old (Back worker item) board.new taken) }
{
    match board.back(worker, item) {
        Ok(()) => Ok(true),
        Err(_refusal) => Ok(false),
    }
}
