//! The number of data that a board holds, after whole runs and step by step.
ghost use Rattle.board.specs.Board.{IsWorker};

use crate::asserts::{boxed, is_equal};
use crate::doing::{code_of, program_of};
use board::Board;
use std::alloc::Global;
use std::process::Abort;
use task_code::entry::Kind;

/// Maximum number of items of a run in these tests.
const MAX_ITEMS: u32 = 100_000;

/// A board of a script.
fn board_of(rt: &impl Abort, alloc: Global, script: &[u8]) -> Box<Board> {
    let code = code_of(rt, alloc, script);
    let board = Board::new(alloc, program_of(rt, alloc, &code), 1_000_000).expect(rt, "memory");
    boxed(rt, alloc, board)
}

/// The first item that can begin does so and ends, until none is left. Returns how many data are stored then.
fn stored_after(rt: &impl Abort, alloc: Global, script: &[u8]) -> usize {
    let mut board = board_of(rt, alloc, script);
    for _ in 0..MAX_ITEMS {
        match board.first() {
            None => break,
            Some((Kind::Control, item)) => is_equal(rt, board.perform(0, item), Ok(true)),
            Some((Kind::Leaf, item)) => is_equal(rt, board.perform(1, item), Ok(true)),
        }
    }
    assert!(rt; board.is_quiet());
    board.stored()
}

#[test]
fn a_whole_run_leaves_no_datum(rt: HostRuntime) {
    let script =
        b"(int r) fib(int n) { if (n < 2) { r = n; } else { r = fib(n-1) + fib(n-2); } } printf(\"%i\", fib(10));";
    is_equal(&rt, stored_after(&rt, rt.alloc(), script), 0);
}

#[test]
fn a_circle_keeps_its_variables(rt: HostRuntime) {
    let script = b"int x; int y; x = y; y = x; printf(\"%i\", x);";
    is_equal(&rt, stored_after(&rt, rt.alloc(), script), 2);
}

#[test]
fn an_array_that_waits_for_its_own_size_stays(rt: HostRuntime) {
    let script = b"int A[]; A[0] = size(A);";
    is_equal(&rt, stored_after(&rt, rt.alloc(), script), 2);
}

/// An item begins and ends on a worker, and this number of data is stored then.
fn stores(rt: &impl Abort, board: &mut Board, worker: u8, item: u64, data: usize)
    requires { IsWorker worker }
{
    is_equal(rt, board.perform(worker, item), Ok(true));
    is_equal(rt, board.stored(), data);
}

#[test]
fn a_datum_goes_with_its_last_reader(rt: HostRuntime) {
    let script = b"int x = 1; printf(\"%i\", x); printf(\"b\");";
    let mut board = board_of(&rt, rt.alloc(), script);
    stores(&rt, &mut board, 0, 1, 1);
    stores(&rt, &mut board, 1, 2, 1);
    stores(&rt, &mut board, 1, 3, 0);
    is_equal(&rt, board.next(Kind::Leaf), Some(4));
}
