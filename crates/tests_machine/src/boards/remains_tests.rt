//! What a board shows of the items that have not ended.

use crate::asserts::is_equal;
use board::Board;
use board_program::program::Program;
use std::alloc::Global;
use std::process::Abort;
use tests_codes::codes::asserted;

/// A board over `boolean x = true; assert(x, "");`, in a box, since a test that owns a board by itself takes long to
/// prove.
fn asserted_board(rt: &impl Abort, alloc: Global) -> Box<Board> {
    let code = asserted(alloc, true).expect(rt, "a code");
    let program = Program::new(alloc, code).expect(rt, "memory");
    let board = Board::new(alloc, program, 100).expect(rt, "memory");
    Box::new(alloc, board).expect(rt, "memory")
}

/// The items of both entries are left, in one instance, and have different statuses.
fn has_two_left(rt: &impl Abort, board: &Board) {
    let first = board.left_item(2).expect(rt, "left");
    let second = board.left_item(3).expect(rt, "left");
    is_equal(rt, (first.entry, second.entry), (0, 1));
    is_equal(rt, first.instance, second.instance);
    assert!(rt; first.status != second.status);
}

/// Returns whether the first need of the item misses an input.
fn misses(board: &Board, number: u64) -> Option<bool> {
    let environment = board.environment(number)?;
    let table = board.program().entry(board.entry_of(number)?)?;
    let need = table.needs.as_slice().first()?;
    Some(environment.missing(need).is_some())
}

/// The item of the assertion waits, in the block of the script.
fn is_blocked(rt: &impl Abort, board: &Board) {
    is_equal(rt, misses(board, 3), Some(true));
    is_equal(rt, board.blocked_offset(3).expect(rt, "memory"), Some(18));
    assert!(rt; board.path_to(3).expect(rt, "memory").is_empty());
}

/// The item that opened the script has ended, and has no entry.
fn has_opened(rt: &impl Abort, board: &Board) {
    is_equal(rt, (board.item_count(), board.running_count()), (3, 0));
    is_equal(rt, (board.left_item(1), board.entry_of(1)), (None, None));
    assert!(rt; 0 < board.data_bound());
}

#[test]
fn items_are_left(rt: HostRuntime) {
    let mut board = asserted_board(&rt, rt.alloc());
    is_equal(&rt, board.perform(0, 1), Ok(true));
    has_opened(&rt, &board);
    has_two_left(&rt, &board);
    is_blocked(&rt, &board);
}

/// The item of the assignment has ended, and keeps its entry.
fn has_assigned(rt: &impl Abort, board: &Board) {
    is_equal(rt, (board.left_item(2), board.entry_of(2)), (None, Some(0)));
    is_equal(rt, board.blocked_offset(2).expect(rt, "memory"), None);
    assert!(rt; board.environment(2).is_none());
}

#[test]
fn an_item_that_ended_is_not_left(rt: HostRuntime) {
    let mut board = asserted_board(&rt, rt.alloc());
    is_equal(&rt, board.perform(0, 1), Ok(true));
    is_equal(&rt, board.perform(1, 2), Ok(true));
    has_assigned(&rt, &board);
    is_equal(&rt, misses(&board, 3), Some(false));
}
