//! Single-threaded runs, whose order is determined by a list of choices.
ghost use Rattle.std.specs.Prelude.{◌≡◌, ℕ, slice_get, IfOk, OnOk};
ghost use Rattle.board.specs.Board.{Seen};
ghost use Rattle.board_runs.specs.Report.{Tells, Reports};
ghost use Rattle.board_runs.specs.Turns.{RanTo, starts};

use crate::report::{Report, last_report};
use crate::step::{StepOutcome, step_once};
use board::Board;
use board_program::program::Program;
use std::alloc::{AllocError, Global};

/// Runs the program in one thread, until nothing is left to do or `limit` events have happened.
///
/// In each step the ready items are listed by descending priority, then by ascending number. The next choice, modulo
/// the length of the list, selects the item that is begun, computed and ended. When the choices are exhausted, the
/// first item is selected. Control items run on worker 0, leaf items on worker 1. The run stops at a fault and at the
/// limit, which may fall between the beginning and the end of an item.
///
///
/// # Errors
///
/// Returns `AllocError` if an allocation fails.
pub fn run_one(
    alloc: Global,
    program: &Program,
    choices: &[u32],
    limit: u32,
) -> Result<Report, AllocError>
    ensures turns { IfOk result (λ report. (board : Seen) × RanTo choices.now (starts program.now limit) board × Tells board report) }
    ensures reports { IfOk result (Reports program.now limit) }
{
    let mut board = Board::new(alloc, program.share()?, limit)?;
    run_choices(&mut board, choices)?;
    last_report(alloc, board)
}

/// Performs one step for each choice, then steps with the first ready item, until no further step is possible.
fn run_choices(board: &mut Board, choices: &[u32]) -> Result<(), AllocError>
    ensures { OnOk result (RanTo choices.now board.old board.new) }
{
    for k in 0..board.limit() {
        match step_once(board, choice_at(choices, k as usize))? {
            StepOutcome::Whole => {}
            StepOutcome::Half | StepOutcome::Nothing => return Ok(()),
        }
    }
    Ok(())
}

/// Returns the choice at index `k`, or `None` beyond the last.
fn choice_at(choices: &[u32], k: usize) -> Option<u32>
    ensures { result ≡ slice_get choices.now k }
{
    match choices.get(k) {
        None => None,
        Some(choice) => Some(*choice),
    }
}
