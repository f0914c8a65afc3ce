//! A completed run, with the board on which it ended.
ghost use Rattle.std.specs.Prelude.{◌≡◌, IfOk};
ghost use Rattle.board_runs.specs.Report.{IsOver, Reports, Tells};
ghost use Rattle.board_runs.specs.Stopped.{IsStopped};

use crate::report::{Report, last_report, report_of};
use board::Board;
use std::alloc::{AllocError, Global};

/// The report of a completed run, and the board on which the run ended, if it was kept.
pub struct StoppedRun {
    pub report: Report,
    pub board: Option<Board>,
}

// Written out, so that the owner drops the value by one call.
impl Drop for StoppedRun {
    fn drop(self) {
        let StoppedRun {
            report: _,
            board: _,
        } = self;
    }
}

impl StoppedRun {
    /// Returns the report alone.
    pub fn into_report(self) -> Report
        ensures { result ≡ self.report }
    {
        let StoppedRun { report, board: _ } = self;
        report
    }

    /// Returns the board alone, if it was kept.
    pub fn into_board(self) -> Option<Board>
        ensures { result ≡ self.board }
    {
        let StoppedRun { report: _, board } = self;
        board
    }
}

/// Creates the report of a board on which nothing is left to do. If the board is not kept, the report takes over its
/// events and texts without copying them.
///
/// # Errors
///
/// Returns `AllocError` if an allocation fails.
pub fn stopped_run(alloc: Global, board: Board, keeps: bool) -> Result<StoppedRun, AllocError>
    requires { IsOver board }
    ensures tells { IfOk result (λ run. Tells board run.report) }
    ensures reports { IfOk result (λ run. Reports board.code board.limit run.report) }
    ensures kept { IfOk result (IsStopped keeps) }
{
    if keeps {
        let report = report_of(alloc, &board)?;
        return Ok(StoppedRun {
            report,
            board: Some(board),
        });
    }
    let report = last_report(alloc, board)?;
    Ok(StoppedRun {
        report,
        board: None,
    })
}
