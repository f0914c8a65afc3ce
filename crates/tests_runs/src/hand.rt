//! A board that is moved by hand: its items are begun, computed and ended one after another, and given back where memory was refused.
ghost use Rattle.board.specs.Board.{IsWorker};
ghost use Rattle.board_runs.specs.Report.{IsOver};

use crate::told::{note, print_report, wrong};
use std::alloc::Global;
use std::io;
use swt_library::runs::{new_board, report_of};
use swt_library::scripts::CompiledScript;
use swt_library::{Board, BoardRefusal, Kind, Report, Work};

/// Maximum number of times that a call is made.
const TRIES: u8 = 3;

/// The first worker that an item is begun on.
const FIRST: u8 = 4;

/// The most events.
const MAX_EVENTS_OF_A_RUN: u32 = 1_000_000;

/// The queries of a board that allocate nothing.
#[derive(Clone, Copy, PartialEq, Eq)]
struct BoardReadout {
    events: usize,
    lines: usize,
    stored: usize,
    newly: usize,
    control: Option<u64>,
    leaf: Option<u64>,
    is_quiet: bool,
    is_going: bool,
}

impl BoardReadout {
    fn of(board: &Board) -> BoardReadout {
        BoardReadout {
            events: board.history().len(),
            lines: board.lines().len(),
            stored: board.stored(),
            newly: board.newly_len(),
            control: board.next(Kind::Control),
            leaf: board.next(Kind::Leaf),
            is_quiet: board.is_quiet(),
            is_going: board.is_going(),
        }
    }
}

/// Moves a board until nothing is left to be done, and prints its report.
pub fn try_board(rt: &HostRuntime, alloc: Global, code: &CompiledScript) -> io::Result<()> {
    let Some(mut board) = opened(rt, alloc, code)? else {
        return wrong(rt, "no board");
    };
    for _ in 0..MAX_EVENTS_OF_A_RUN {
        match board.first() {
            None => break,
            Some((_, item)) => try_item(rt, &mut board, item)?,
        }
    }
    match reported(rt, alloc, &board)? {
        Some(report) => print_report(rt, &report),
        None => wrong(rt, "no report"),
    }
}

/// A board of a copy of the code.
fn opened(rt: &HostRuntime, alloc: Global, code: &CompiledScript) -> io::Result<Option<Board>> {
    for _ in 0..TRIES {
        match code.copy() {
            Err(_) => note(rt, "copy")?,
            Ok(copy) => match new_board(alloc, copy, MAX_EVENTS_OF_A_RUN) {
                Ok(board) => return Ok(Some(board)),
                Err(_) => note(rt, "new")?,
            },
        }
    }
    Ok(None)
}

/// Begins, computes and ends an item: where memory was refused, once more on the next worker.
fn try_item(rt: &HostRuntime, board: &mut Board, item: u64) -> io::Result<()> {
    for turn in 0..TRIES {
        if done_on(rt, board, FIRST + turn, item)? {
            return Ok(());
        }
    }
    wrong(rt, "an item that is never done")
}

/// Begins, computes and ends an item on a worker. Where memory was refused the item can begin again.
fn done_on(rt: &HostRuntime, board: &mut Board, worker: u8, item: u64) -> io::Result<bool>
    requires { IsWorker worker }
{
    let before = BoardReadout::of(board);
    match board.begin(worker, item) {
        Ok(work) => ended_on(rt, board, worker, work),
        Err(refusal) => {
            note(rt, "begin")?;
            if refusal != BoardRefusal::Memory || BoardReadout::of(board) != before {
                wrong(rt, "a refused begin")?;
            }
            Ok(false)
        }
    }
}

/// Computes and ends the work of an item that was begun on the worker. Where memory was refused it gives the item back.
fn ended_on(rt: &HostRuntime, board: &mut Board, worker: u8, work: Work) -> io::Result<bool>
    requires { IsWorker worker }
{
    let item = work.item();
    match work.compute() {
        Ok(done) => {
            let before = BoardReadout::of(board);
            match board.end(worker, done) {
                Ok(()) => Ok(true),
                Err((done, refusal)) => {
                    note(rt, "end")?;
                    if refusal != BoardRefusal::Memory
                        || done.item() != item
                        || BoardReadout::of(board) != before
                    {
                        wrong(rt, "a refused end")?;
                    }
                    given_back(rt, board, worker, item)
                }
            }
        }
        Err((work, _)) => {
            note(rt, "compute")?;
            if work.item() != item {
                wrong(rt, "a refused compute")?;
            }
            given_back(rt, board, worker, item)
        }
    }
}

/// Gives an item back that runs on the worker.
fn given_back(rt: &HostRuntime, board: &mut Board, worker: u8, item: u64) -> io::Result<bool>
    requires { IsWorker worker }
{
    match board.back(worker, item) {
        Ok(()) => Ok(false),
        Err(_) => {
            wrong(rt, "a refused back")?;
            Ok(false)
        }
    }
}

/// The report of a board, where nothing is left to be done on it.
fn reported(rt: &HostRuntime, alloc: Global, board: &Board) -> io::Result<Option<Report>> {
    if board.is_quiet() {
        return told(rt, alloc, board);
    }
    if board.is_going() {
        return Ok(None);
    }
    told(rt, alloc, board)
}

/// The report of a board on which nothing is left to be done.
fn told(rt: &HostRuntime, alloc: Global, board: &Board) -> io::Result<Option<Report>>
    requires { IsOver board.now }
{
    for _ in 0..TRIES {
        match report_of(alloc, board) {
            Ok(report) => return Ok(Some(report)),
            Err(_) => note(rt, "report")?,
        }
    }
    Ok(None)
}
