//! An item that is begun and given back again and again.
ghost use Rattle.board.specs.Board.{IsWorker};

use crate::asserts::is_equal;
use board::Board;
use board::refusal::BoardRefusal;
use board_program::program::Program;
use std::alloc::Global;
use std::process::Abort;
use tests_codes::codes::hello;
use values::value::Scalar;

/// Number of times that the item is given back.
const PAIRS: u32 = 1_000;

/// A board over `printf("hello");`, in a box, since a test that owns a board by itself takes long to prove.
fn hello_board(rt: &impl Abort, alloc: Global) -> Box<Board> {
    let code = hello(alloc).expect(rt, "a code");
    let program = Program::new(alloc, code).expect(rt, "memory");
    let board = Board::new(alloc, program, 10_000).expect(rt, "memory");
    Box::new(alloc, board).expect(rt, "memory")
}

/// Begins the item of `printf` on the worker, and gives it back.
fn comes_back(board: &mut Board, worker: u8) -> Result<(), BoardRefusal>
    requires { IsWorker worker }
{
    let work = board.begin(worker, 2)?;
    drop(work);
    board.back(worker, 2)
}

/// The item of `printf` comes back from the workers 0 to 63 in turn.
fn comes_back_from_each(rt: &impl Abort, board: &mut Board) {
    for pair in 0..PAIRS {
        let worker = (pair % 64) as u8;
        is_equal(rt, comes_back(board, worker), Ok(()));
    }
}

/// Returns true if the board has printed the one line `hello`.
fn prints_hello(board: &Board) -> bool {
    match board.lines().as_slice() {
        [Scalar::Text(line)] => line.as_bytes() == b"hello".as_slice(),
        _ => false,
    }
}

#[test]
fn an_item_that_comes_back_prints_once(rt: HostRuntime) {
    let mut board = hello_board(&rt, rt.alloc());
    is_equal(&rt, board.perform(0, 1), Ok(true));
    comes_back_from_each(&rt, &mut board);
    is_equal(
        &rt,
        (board.history().len(), board.lines().len()),
        (2_002, 0),
    );
    is_equal(&rt, board.perform(63, 2), Ok(true));
    is_equal(&rt, board.history().len(), 2_004);
    assert!(&rt; board.is_quiet() && prints_hello(&board));
}
