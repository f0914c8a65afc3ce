//! Runs of small codes, call by call, and results that are returned for the wrong item.
ghost use Rattle.board.specs.Board.{IsWorker};

use crate::asserts::{are_events, is_equal, last_of};
use board::refusal::BoardRefusal;
use board::{Board, BoardParts, Done, Work};
use board_program::program::Program;
use std::alloc::Global;
use std::process::Abort;
use task_code::code::Code;
use task_code::entry::Kind;
use task_code::event::Event;
use tests_codes::codes::{asserted, hello, printed};
use values::value::Scalar;

/// A board over the code, in a box, since a test that owns a board by itself takes long to prove.
fn board_over(rt: &impl Abort, alloc: Global, code: Code, limit: u32) -> Box<Board> {
    let program = Program::new(alloc, code).expect(rt, "memory");
    let board = Board::new(alloc, program, limit).expect(rt, "memory");
    Box::new(alloc, board).expect(rt, "memory")
}

/// A board over `printf("hello");` with at most `limit` events.
fn hello_board(rt: &impl Abort, alloc: Global, limit: u32) -> Box<Board> {
    board_over(rt, alloc, hello(alloc).expect(rt, "a code"), limit)
}

/// Begins the item, and lets its work go.
fn begin_on(board: &mut Board, worker: u8, item: u64) -> Result<(), BoardRefusal>
    requires { IsWorker worker }
{
    board.begin(worker, item).map(|_work| ())
}

/// Begins the item and computes it.
fn done_on(board: &mut Board, worker: u8, item: u64) -> Result<Done, BoardRefusal>
    requires { IsWorker worker }
{
    let work: Work = board.begin(worker, item)?;
    work.compute()
        .map_err(|(_work, _refused)| BoardRefusal::Memory)
}

/// Ends an item, and says why not where that is refused.
fn end_on(board: &mut Board, worker: u8, done: Done) -> Result<(), BoardRefusal>
    requires { IsWorker worker }
{
    board.end(worker, done).map_err(|(_done, refused)| refused)
}

/// Begins the item, computes it and ends it.
fn work_on(board: &mut Board, worker: u8, item: u64) -> Result<(), BoardRefusal>
    requires { IsWorker worker }
{
    let done = done_on(board, worker, item)?;
    end_on(board, worker, done)
}

/// Begins the item, computes it and ends it as the worker's own.
fn own_on(board: &mut Board, worker: u8, item: u64) -> Result<(), BoardRefusal>
    requires { IsWorker worker }
{
    let work = board.begin(worker, item)?;
    let Ok(done) = work.compute() else {
        return Err(BoardRefusal::Memory);
    };
    board
        .end_trusted(worker, done)
        .map_err(|(_done, refused)| refused)
}

/// The item is begun, computed and ended on the worker.
fn works(rt: &impl Abort, board: &mut Board, worker: u8, item: u64)
    requires { IsWorker worker }
{
    is_equal(rt, work_on(board, worker, item), Ok(()));
}

/// Returns true if the board has printed the one line `hello`.
fn prints_hello(board: &Board) -> bool {
    match board.lines().as_slice() {
        [Scalar::Text(line)] => line.as_bytes() == b"hello".as_slice(),
        _ => false,
    }
}

/// The result is the worker's item's, which ends, and then `hello` is printed.
fn prints(rt: &impl Abort, board: &mut Board, worker: u8, done: Done)
    requires { IsWorker worker }
{
    is_equal(rt, end_on(board, worker, done), Ok(()));
    assert!(rt; prints_hello(board));
}

/// A new board has its code and its limit, and only the script can begin.
fn is_new(rt: &impl Abort, board: &Board) {
    is_equal(rt, (board.limit(), board.code().entry_count()), (100, 1));
    is_equal(rt, board.program().most_names(), 0);
    is_equal(
        rt,
        (board.next(Kind::Control), board.next(Kind::Leaf)),
        (Some(1), None),
    );
}

/// The item of `printf` alone can begin.
fn is_ready(rt: &impl Abort, board: &Board) {
    assert!(rt; board.is_going() && !board.is_quiet());
    let ready = board.ready_items().expect(rt, "memory");
    assert!(rt; ready.as_slice() == [2].as_slice());
    is_equal(rt, board.kind(2), Some(Kind::Leaf));
}

/// One statement is not over.
fn has_one_left(rt: &impl Abort, board: &Board) {
    let blocked = board.blocked().expect(rt, "memory");
    is_equal(rt, blocked.len(), 1);
}

/// The run is over, without a fault, and ended with that item.
fn is_over(rt: &impl Abort, board: &Board) {
    assert!(rt; board.is_quiet() && board.fault().is_none() && prints_hello(board));
    let last = Event::End { worker: 2, item: 2 };
    is_equal(rt, last_of(board.history()), Some(last));
}

#[test]
fn hello_is_printed(rt: HostRuntime) {
    let mut board = hello_board(&rt, rt.alloc(), 100);
    is_new(&rt, &board);
    works(&rt, &mut board, 0, 1);
    is_ready(&rt, &board);
    has_one_left(&rt, &board);
    works(&rt, &mut board, 2, 2);
    is_over(&rt, &board);
}

/// The script has begun and ended on worker 3, once each, and is over.
fn has_opened(rt: &impl Abort, board: &Board) {
    let events = [
        Event::Begin { worker: 3, item: 1 },
        Event::End { worker: 3, item: 1 },
    ];
    assert!(rt; are_events(board.history(), &events));
    is_equal(rt, (board.kind(1), board.kind(2)), (None, Some(Kind::Leaf)));
}

/// An item that is ended as the worker's own has begun and ended in the history, once each, and is over.
#[test]
fn an_own_item_ends(rt: HostRuntime) {
    let mut board = hello_board(&rt, rt.alloc(), 100);
    is_equal(&rt, own_on(&mut board, 3, 1), Ok(()));
    has_opened(&rt, &board);
}

/// An item is performed by one call as by three, and once. The first that can begin is shown with who runs it.
#[test]
fn an_item_is_performed(rt: HostRuntime) {
    let mut board = hello_board(&rt, rt.alloc(), 100);
    is_equal(&rt, board.first(), Some((Kind::Control, 1)));
    is_equal(&rt, board.perform(3, 1), Ok(true));
    is_equal(&rt, board.first(), Some((Kind::Leaf, 2)));
    has_opened(&rt, &board);
    is_equal(&rt, board.perform(3, 1), Err(BoardRefusal::NotReady));
    is_equal(&rt, board.perform(2, 2), Ok(true));
    is_over(&rt, &board);
}

/// An item that is performed where the limit leaves room for one event has begun alone.
#[test]
fn the_limit_cuts_an_item(rt: HostRuntime) {
    let mut board = hello_board(&rt, rt.alloc(), 1);
    is_equal(&rt, board.perform(0, 1), Ok(false));
    is_equal(&rt, board.history().len(), 1);
}

/// The program, the events and the line are left.
fn are_left(rt: &impl Abort, left: &BoardParts) {
    let code = left.program.code();
    is_equal(rt, (code.entry_count(), left.history.len()), (1, 4));
    is_equal(rt, left.lines.len(), 1);
}

#[test]
fn a_board_leaves_what_it_has(rt: HostRuntime) {
    let code = hello(rt.alloc()).expect(&rt, "a code");
    let program = Program::new(rt.alloc(), code).expect(&rt, "memory");
    let mut board = Board::new(rt.alloc(), program, 100).expect(&rt, "memory");
    works(&rt, &mut board, 0, 1);
    works(&rt, &mut board, 2, 2);
    are_left(&rt, &board.into_parts());
}

/// The script runs on worker 1, which can have its work again; it does not begin again.
fn runs_on_one(rt: &impl Abort, board: &mut Board) {
    let again = board.work(1, 1).expect(rt, "its work");
    is_equal(rt, again.item(), 1);
    is_equal(rt, begin_on(board, 1, 1), Err(BoardRefusal::NotReady));
}

/// Only that worker returns the item, and once.
fn is_given_back_once(rt: &impl Abort, board: &mut Board) {
    is_equal(rt, board.back(2, 1), Err(BoardRefusal::NotYours));
    is_equal(rt, board.back(1, 1), Ok(()));
    is_equal(rt, board.back(1, 1), Err(BoardRefusal::NotYours));
}

#[test]
fn an_item_runs_on_one_worker(rt: HostRuntime) {
    let mut board = hello_board(&rt, rt.alloc(), 100);
    begin_on(&mut board, 1, 1).expect(&rt, "begun");
    runs_on_one(&rt, &mut board);
    is_given_back_once(&rt, &mut board);
}

/// No more events are accepted, the end of this work among them, and nothing is offered.
fn is_ended(rt: &impl Abort, board: &mut Board, done: Done) {
    assert!(rt; !board.is_going());
    is_equal(rt, board.back(0, 1), Err(BoardRefusal::Ended));
    is_equal(rt, end_on(board, 0, done), Err(BoardRefusal::Ended));
    is_equal(rt, begin_on(board, 0, 1), Err(BoardRefusal::Ended));
    is_equal(rt, board.next(Kind::Control), None);
}

#[test]
fn the_limit_ends_a_board(rt: HostRuntime) {
    let mut board = hello_board(&rt, rt.alloc(), 1);
    let done = done_on(&mut board, 0, 1).expect(&rt, "done");
    is_ended(&rt, &mut board, done);
}

/// The outcome of the item of `printf("other");`, on a board of its own.
fn others_result(rt: &impl Abort, alloc: Global) -> Done {
    let code = printed(alloc, b"other").expect(rt, "a code");
    let mut board = board_over(rt, alloc, code, 100);
    works(rt, &mut board, 0, 1);
    done_on(&mut board, 1, 2).expect(rt, "done")
}

/// The result is refused to worker 1, and prints nothing.
fn refuses(rt: &impl Abort, board: &mut Board, strange: Done) {
    is_equal(rt, end_on(board, 1, strange), Err(BoardRefusal::Stranger));
    assert!(rt; board.lines().is_empty());
}

/// The result of another entry is refused, and the item still runs.
#[test]
fn another_entry_is_a_stranger(rt: HostRuntime) {
    let mut board = hello_board(&rt, rt.alloc(), 100);
    works(&rt, &mut board, 0, 1);
    let own = done_on(&mut board, 1, 2).expect(&rt, "done");
    refuses(&rt, &mut board, others_result(&rt, rt.alloc()));
    prints(&rt, &mut board, 1, own);
}

/// A board over `asserted`.
fn asserted_board(rt: &impl Abort, alloc: Global, holds: bool) -> Box<Board> {
    board_over(rt, alloc, asserted(alloc, holds).expect(rt, "a code"), 100)
}

/// The outcome of the other item of `asserted` on worker 1, once the script and the assignment have ended.
fn asserting(rt: &impl Abort, board: &mut Board) -> Done {
    works(rt, board, 0, 1);
    works(rt, board, 1, 2);
    done_on(board, 1, 3).expect(rt, "done")
}

/// These numbers of items are new and ready since the last event, this one first, and of data are stored.
fn tells(
    rt: &impl Abort,
    board: &Board,
    ready: usize,
    first: Option<(Kind, i32, u64)>,
    data: usize,
) {
    assert!(rt; (board.newly_len(), board.newly(0), board.stored()) == (ready, first, data));
}

/// Each end tells which items can begin from then on, and a datum goes with its last reader.
#[test]
fn items_and_data_come_and_go(rt: HostRuntime) {
    let mut board = asserted_board(&rt, rt.alloc(), true);
    works(&rt, &mut board, 0, 1);
    tells(&rt, &board, 1, Some((Kind::Leaf, 0, 2)), 1);
    works(&rt, &mut board, 1, 2);
    tells(&rt, &board, 1, Some((Kind::Leaf, 0, 3)), 1);
    works(&rt, &mut board, 1, 3);
    tells(&rt, &board, 0, None, 0);
}

/// The outcome of that other item, on a board of its own.
fn asserted_result(rt: &impl Abort, alloc: Global, holds: bool) -> Done {
    let mut board = asserted_board(rt, alloc, holds);
    asserting(rt, &mut board)
}

/// The one result is refused to worker 1, and with the other the run is over.
fn takes(rt: &impl Abort, board: &mut Board, strange: Done, same: Done) {
    is_equal(rt, end_on(board, 1, strange), Err(BoardRefusal::Stranger));
    is_equal(rt, end_on(board, 1, same), Ok(()));
    assert!(rt; board.is_quiet());
}

/// The result of the same entry with another input is refused, and that with the same input is not, from wherever it comes.
#[test]
fn other_inputs_are_strange(rt: HostRuntime) {
    let mut board = asserted_board(&rt, rt.alloc(), true);
    let _own = asserting(&rt, &mut board);
    let strange = asserted_result(&rt, rt.alloc(), false);
    let same = asserted_result(&rt, rt.alloc(), true);
    takes(&rt, &mut board, strange, same);
}

/// The result comes too late for worker 4, and is returned.
fn comes_too_late(rt: &impl Abort, board: &mut Board, done: Done) -> Done {
    let (done, refused) = board.end(4, done).err().expect(rt, "refused");
    is_equal(rt, refused, BoardRefusal::NotYours);
    done
}

/// A result comes too late once its item was given back; another worker that begins the item may return it.
#[test]
fn a_result_given_back_is_another_workers(rt: HostRuntime) {
    let mut board = hello_board(&rt, rt.alloc(), 100);
    works(&rt, &mut board, 0, 1);
    let done = done_on(&mut board, 4, 2).expect(&rt, "done");
    is_equal(&rt, board.back(4, 2), Ok(()));
    let done = comes_too_late(&rt, &mut board, done);
    begin_on(&mut board, 5, 2).expect(&rt, "begun");
    prints(&rt, &mut board, 5, done);
}
