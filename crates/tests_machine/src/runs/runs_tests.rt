//! Runs of `printf("hello");`: whole ones, ones that the limit cuts, a turn taken by hand, and a board that is kept.

use crate::asserts::{is_equal, last_of};
use board::Board;
use board_program::program::Program;
use board_runs::one::run_one;
use board_runs::report::{End, Report, last_report, report_of};
use board_runs::step::finish;
use board_runs::stopped::{StoppedRun, stopped_run};
use std::alloc::Global;
use std::process::Abort;
use task_code::event::Event;
use tests_codes::codes::hello;

/// The program that prints `hello`.
fn program_of(rt: &impl Abort, alloc: Global) -> Program {
    let code = hello(alloc).expect(rt, "a code");
    Program::new(alloc, code).expect(rt, "memory")
}

/// The report of a run with these choices, and at most `limit` events.
fn run_of(rt: &impl Abort, alloc: Global, choices: &[u32], limit: u32) -> Report {
    let program = program_of(rt, alloc);
    run_one(alloc, &program, choices, limit).expect(rt, "memory")
}

/// Returns true if a report shows the one line `hello`.
fn prints_hello(report: &Report) -> bool {
    match report.lines.as_slice() {
        [line] => line.as_bytes() == b"hello".as_slice(),
        _ => false,
    }
}

/// The run ended quiet, with the one line and nothing blocked.
fn is_quiet(rt: &impl Abort, report: &Report) {
    assert!(rt; matches!(report.end, End::Quiet));
    assert!(rt; prints_hello(report));
    assert!(rt; report.blocked.is_empty());
}

/// The item of each of the two workers begins and ends.
fn has_all_events(rt: &impl Abort, report: &Report) {
    is_equal(rt, report.history.len(), 4);
    let last = Event::End { worker: 1, item: 2 };
    is_equal(rt, last_of(&report.history), Some(last));
    assert!(rt; matches!(report.tallies.as_slice(), [2, 2, ..]));
}

#[test]
fn a_run_ends_quiet(rt: HostRuntime) {
    let report = run_of(&rt, rt.alloc(), &[7, 7], 100);
    is_quiet(&rt, &report);
    has_all_events(&rt, &report);
}

/// The run was cut after it began the item of `printf`, before a line was printed.
fn is_cut(rt: &impl Abort, report: &Report) {
    assert!(rt; matches!(report.end, End::Limit));
    assert!(rt; report.lines.is_empty());
    let last = Event::Begin { worker: 1, item: 2 };
    is_equal(rt, last_of(&report.history), Some(last));
}

#[test]
fn the_limit_cuts_a_run(rt: HostRuntime) {
    let report = run_of(&rt, rt.alloc(), &[], 3);
    is_cut(&rt, &report);
}

/// A board with room for two events.
fn board_of_two(rt: &impl Abort, alloc: Global) -> Board {
    Board::new(alloc, program_of(rt, alloc), 2).expect(rt, "memory")
}

/// The script runs on worker 0 and ends.
fn takes_a_turn(rt: &impl Abort, board: &mut Board) {
    let work = board.begin(0, 1).expect(rt, "begun");
    assert!(rt; finish(board, 0, work).expect(rt, "memory"));
}

/// The report of the board, which has no events left.
fn report_at_limit(rt: &impl Abort, alloc: Global, board: &Board) -> Report {
    assert_eq!(rt; (board.history().len(), board.is_going()), (2, false));
    report_of(alloc, board).expect(rt, "memory")
}

#[test]
fn a_board_without_events_left_is_reported(rt: HostRuntime) {
    let mut board = Box::new(rt.alloc(), board_of_two(&rt, rt.alloc())).expect(&rt, "memory");
    takes_a_turn(&rt, &mut board);
    let report = report_at_limit(&rt, rt.alloc(), &board);
    assert!(rt; matches!(report.end, End::Limit));
    is_equal(&rt, report.history.len(), 2);
}

#[test]
fn a_board_that_is_not_needed_any_more_is_reported(rt: HostRuntime) {
    let mut board = board_of_two(&rt, rt.alloc());
    takes_a_turn(&rt, &mut board);
    assert!(rt; !board.is_going());
    let report = last_report(rt.alloc(), board).expect(&rt, "memory");
    is_equal(&rt, report.history.len(), 2);
}

/// The completed run of a board without events left, with its board if that is kept.
fn stopped_at_limit(rt: &impl Abort, alloc: Global, keeps: bool) -> StoppedRun {
    let mut board = board_of_two(rt, alloc);
    takes_a_turn(rt, &mut board);
    assert!(rt; !board.is_going());
    stopped_run(alloc, board, keeps).expect(rt, "memory")
}

/// The number of events of the board that was kept.
fn kept_events(run: &StoppedRun) -> Option<usize> {
    match &run.board {
        Some(board) => Some(board.history().len()),
        None => None,
    }
}

#[test]
fn a_board_that_stopped_is_kept(rt: HostRuntime) {
    let run = stopped_at_limit(&rt, rt.alloc(), true);
    is_equal(&rt, kept_events(&run), Some(2));
    is_equal(&rt, run.report.history.len(), 2);
    assert!(&rt; run.into_board().is_some());
}

#[test]
fn a_board_that_is_not_wanted_is_not_kept(rt: HostRuntime) {
    let run = stopped_at_limit(&rt, rt.alloc(), false);
    is_equal(&rt, kept_events(&run), None);
    is_equal(&rt, run.into_report().history.len(), 2);
}
