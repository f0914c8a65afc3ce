//! Results of items that look alike: of the same entry, under the same numbers of items and data, but with other inputs.
use crate::asserts::{boxed, holds, is_equal};
use crate::doing::{code_of, program_of};
use board::refusal::BoardRefusal;
use board::{Board, Done};
use std::alloc::Global;
use std::process::Abort;
use task_code::code::Code;
use values::value::Scalar;

/// A board of a script.
fn board_of(rt: &impl Abort, alloc: Global, script: &[u8]) -> Box<Board> {
    let code: Box<Code> = code_of(rt, alloc, script);
    let board = Board::new(alloc, program_of(rt, alloc, &code), 1000).expect(rt, "memory");
    boxed(rt, alloc, board)
}

/// The outcome of the item on worker 1, once these have ended, one after the other.
fn computed(rt: &impl Abort, board: &mut Board, first: &[u64], item: u64) -> Done {
    for number in first {
        is_equal(rt, board.perform(0, *number), Ok(true));
    }
    let work = board.begin(1, item).expect(rt, "begun");
    match work.compute() {
        Ok(done) => Some(done),
        Err(_) => None,
    }
    .expect(rt, "memory")
}

/// The board has printed this line alone, and nothing is left to be done.
fn has_printed(rt: &impl Abort, board: &Board, line: &[u8]) {
    holds(rt, board.is_quiet());
    match board.lines().as_slice() {
        [Scalar::Text(text)] => holds(rt, text.as_bytes() == line),
        _ => holds(rt, false),
    }
}

/// The one result is refused to worker 1, whose item still runs, and ends with the other.
fn takes_its_own(rt: &impl Abort, board: &mut Board, strange: Done, own: Done, line: &[u8]) {
    match board.end(1, strange) {
        Ok(()) => holds(rt, false),
        Err((_strange, refused)) => is_equal(rt, refused, BoardRefusal::Stranger),
    }
    holds(rt, board.lines().is_empty());
    match board.end(1, own) {
        Ok(()) => has_printed(rt, board, line),
        Err((_own, _refused)) => holds(rt, false),
    }
}

/// Two arrays of one size: the printed result for the one is not accepted for the other, although only the size is needed.
#[test]
fn an_array_of_the_same_size_is_strange(rt: HostRuntime) {
    let alloc = rt.alloc();
    let mut board = board_of(&rt, alloc, b"int A[]; A[0] = 1; printf(\"%i\", size(A));");
    let mut other = board_of(&rt, alloc, b"int A[]; A[0] = 2; printf(\"%i\", size(A));");
    let own = computed(&rt, &mut board, &[1, 2], 3);
    let strange = computed(&rt, &mut other, &[1, 2], 3);
    takes_its_own(&rt, &mut board, strange, own, b"1");
}

/// Two boards of one code: where another writer was first, the element that was read is another.
#[test]
fn an_element_of_another_writer_is_strange(rt: HostRuntime) {
    let alloc = rt.alloc();
    let script = b"int A[]; A[0] = 1; A[0] = 2; printf(\"%i\", A[0]);";
    let mut board = board_of(&rt, alloc, script);
    let mut other = board_of(&rt, alloc, script);
    let own = computed(&rt, &mut board, &[1, 2], 4);
    let strange = computed(&rt, &mut other, &[1, 3], 4);
    match board.end(1, strange) {
        Ok(()) => holds(&rt, false),
        Err((_strange, refused)) => is_equal(&rt, refused, BoardRefusal::Stranger),
    }
    holds(&rt, board.end(1, own).is_ok());
}
