//! Replay of a trace for a command.
ghost use Rattle.std.specs.Prelude.{◌≡◌, Some, IfSome, MatchResult};
ghost use Rattle.board_runs.specs.Stopped.{IsStopped};
ghost use Rattle.swt_trace.specs.Refused.{IsRefusedBy};
ghost use Rattle.swt_trace.specs.Replay.{ReplaysTo};
ghost use Rattle.swt_status.specs.Traces.{StopsAtTrace, replay_failure};

use crate::failure::CommandFailure;
use crate::stop::CommandStop;
use board::Board;
use board_runs::report::Report;
use board_runs::stopped::StoppedRun;
use std::alloc::Global;
use swt_trace::fault::ReplayFault;
use swt_trace::replay::replay_to_stop;
use task_code::code::Code;
use task_code::event::Event;

/// A trace that is not one of a run of its script: the stop, the board as the events before have left it if it was kept,
/// and the event that is not a step.
pub struct RefusedTrace {
    pub stop: CommandStop,
    pub board: Option<Board>,
    pub event: Option<Event>,
}

// Written out, so that the owner drops the value by one call.
impl Drop for RefusedTrace {
    fn drop(self) {
        let RefusedTrace {
            stop: _,
            board: _,
            event: _,
        } = self;
    }
}

/// Runs the events of a trace again on the code, and returns the report. See `run_of_trace`, which can keep the board.
///
/// # Errors
///
/// Returns the stop of `run_of_trace`.
pub fn report_of_trace(alloc: Global, code: &Code, trace: &[u8]) -> Result<Report, CommandStop>
    ensures { MatchResult result (ReplaysTo code.now trace.now)
        (λ stop. (stop.place ≡ 1) × StopsAtTrace (Some trace.now) code.now stop.trouble) }
{
    match run_of_trace(alloc, code, trace, false) {
        Ok(run) => Ok(run.into_report()),
        Err(refused) => Err(refused.stop),
    }
}

/// Runs the events of a trace again on the code, and returns the report, and the board if that is wanted.
///
/// # Errors
///
/// Returns a stop at the trace, which is the second file. `BadLine` has the number of the first line that violates
/// the grammar, and `NotARun` that of the first line whose event is not a step. `WrongEnd` has the number of the last
/// line, if it names a different end. The failure is `Memory` if an allocation fails. With `NotARun` and `WrongEnd` the
/// board is returned if it is wanted.
pub fn run_of_trace(
    alloc: Global,
    code: &Code,
    trace: &[u8],
    keeps: bool,
) -> Result<StoppedRun, RefusedTrace>
    ensures { MatchResult result (λ run. ReplaysTo code.now trace.now run.report × IsStopped keeps run)
        (λ refused. (refused.stop.place ≡ 1) × StopsAtTrace (Some trace.now) code.now refused.stop.trouble
        × IfSome refused.board (λ board. IsRefusedBy code.now trace.now keeps refused.event board)) }
{
    match replay_to_stop(alloc, code, trace, keeps) {
        Ok(run) => Ok(run),
        Err(refused) => {
            let (fault, board, event) = refused.into_parts();
            let stop = CommandStop {
                place: 1,
                trouble: failure_of(fault),
            };
            Err(RefusedTrace { stop, board, event })
        }
    }
}

/// Converts the fault of a replay into the command failure.
fn failure_of(fault: ReplayFault) -> CommandFailure
    ensures { result ≡ replay_failure fault }
{
    match fault {
        ReplayFault::BadLine(line) => CommandFailure::BadLine(line),
        ReplayFault::NotARun(line) => CommandFailure::NotARun(line),
        ReplayFault::WrongEnd(line) => CommandFailure::WrongEnd(line),
        ReplayFault::Memory => CommandFailure::Memory,
    }
}
