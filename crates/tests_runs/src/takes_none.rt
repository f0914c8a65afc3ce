//! Calls that take no memory: between two marks on standard error, each is made while every further request is refused.
//!
//! The allocator of `.ci/data/refuse.c` knows the marks, and writes how many requests were made between them. Where the calls that come
//! before them are refused, nothing is tried.
ghost use Rattle.std.specs.Prelude.{◌≡◌, IfOk, vec_len};
ghost use Rattle.pool.specs.Seats.{IsSeatOf, seats_of};

use crate::told::{calls_begin, calls_end, wrong};
use data_store::store::{DatumNo, Store};
use pool::{HoleKind, Offer, Pool, PoolSeat};
use rules::input::Input;
use rules::rules_table::Rules;
use smallvec::SmallVec;
use std::alloc::{AllocError, Global};
use std::io;
use swt_library::runs::new_board;
use swt_library::scripts::CompiledScript;
use swt_library::{Board, Kind, Work};
use values::datum_kind::DatumKind;
use work_queue::queue::Queue;

/// The worker that each item is begun on.
const WORKER: u8 = 4;

/// The most events.
const MAX_EVENTS_OF_A_RUN: u32 = 1_000_000;

/// Makes the calls on a queue, on rules, on a pool and on a store, and on a board of the code at each of its items.
pub fn try_calls(rt: &HostRuntime, alloc: Global, code: &CompiledScript) -> io::Result<()> {
    try_queue(rt, alloc)?;
    try_rules(rt, alloc)?;
    try_pool(rt, alloc)?;
    try_store(rt, alloc)?;
    match opened(alloc, code) {
        Ok(board) => try_board(rt, board),
        Err(_) => Ok(()),
    }
}

/// A queue of three leaf items.
fn queue_of_three(alloc: Global) -> Result<Queue, AllocError> {
    let mut queue = Queue::new(alloc);
    for no in 1..4u64 {
        queue.put(Kind::Leaf, 0, no)?;
    }
    Ok(queue)
}

fn try_queue(rt: &HostRuntime, alloc: Global) -> io::Result<()> {
    let Ok(mut queue) = queue_of_three(alloc) else {
        return Ok(());
    };
    calls_begin(rt, "first, remove, take")?;
    let first = queue.first(Kind::Leaf);
    let removed = queue.remove(Kind::Leaf, 0, 2);
    let taken = queue.take(Kind::Leaf);
    let last = queue.take(Kind::Leaf);
    calls_end(rt)?;
    if removed && first == Some(1) && taken == Some(1) && last == Some(3) {
        return Ok(());
    }
    wrong(rt, "a queue")
}

/// Rules for which two items wait for one input, and a list with room for both.
fn two_waiting(alloc: Global) -> Result<(Rules, Vec<u64>), AllocError> {
    let mut rules = Rules::new(alloc);
    for item in 1..3u64 {
        let mut inputs = SmallVec::new(alloc);
        inputs.push(Input::Whole(7))?;
        let _waits = rules.add(inputs, item)?;
    }
    let out = Vec::with_capacity(alloc, 2)?;
    Ok((rules, out))
}

fn try_rules(rt: &HostRuntime, alloc: Global) -> io::Result<()> {
    let Ok((mut rules, mut out)) = two_waiting(alloc) else {
        return Ok(());
    };
    calls_begin(rt, "forget, known")?;
    rules.forget(1);
    if out.len() <= out.capacity() && rules.waiting() <= out.capacity() - out.len() {
        rules.known(&Input::Whole(7), &mut out);
    }
    calls_end(rt)?;
    if rules.waiting() == 0 && out.as_slice() == [2].as_slice() {
        return Ok(());
    }
    wrong(rt, "rules")
}

/// A pool with one seat, and a list with room for it.
fn pool_of_one(alloc: Global) -> Result<(Pool, PoolSeat, Vec<PoolSeat>), AllocError>
    ensures seat { IfOk result (λ r. IsSeatOf r.0 r.1 × (seats_of r.0 ≡ 1)) }
    ensures list { IfOk result (λ r. vec_len r.2 ≡ 0) }
{
    let (pool, mut seats) = Pool::new(alloc, 1)?;
    let Some(seat) = seats.pop() else {
        unreachable!()
    };
    Ok((pool, seat, seats))
}

/// Offers seventeen numbers of one class, of which the last finds no hole, and takes one of them.
fn offer_and_take(pool: &Pool, seat: &mut PoolSeat) -> bool
    requires { IsSeatOf pool.now seat.old }
    ensures { IsSeatOf pool.now seat.new }
{
    let mut offered = 0u32;
    for number in 1..18u64 {
        if pool.offer(seat, HoleKind::Leaf, 1, number) == Offer::Offered {
            offered += 1;
        }
    }
    let taken = pool.take(seat, HoleKind::Leaf);
    let none = pool.take(seat, HoleKind::Control);
    offered == 16 && taken == Some(1) && none.is_none()
}

/// Closes a pool with its one seat, which is put into an empty list, and returns how many numbers are left in it.
fn left_in(pool: Pool, seat: PoolSeat, seats: Vec<PoolSeat>) -> Option<usize>
    requires seat { IsSeatOf pool seat }
    requires all { seats_of pool ≡ 1 }
    requires list { vec_len seats ≡ 0 }
{
    let mut seats = seats;
    match seats.push(seat) {
        Ok(()) => {
            let left = pool.close(seats);
            Some(left.holes.iter().filter(|number| **number != 0).count())
        }
        Err(_) => None,
    }
}

fn try_pool(rt: &HostRuntime, alloc: Global) -> io::Result<()> {
    match pool_of_one(alloc) {
        Ok((pool, seat, seats)) => use_pool(rt, pool, seat, seats),
        Err(_) => Ok(()),
    }
}

fn use_pool(rt: &HostRuntime, pool: Pool, seat: PoolSeat, seats: Vec<PoolSeat>) -> io::Result<()>
    requires seat { IsSeatOf pool seat }
    requires all { seats_of pool ≡ 1 }
    requires list { vec_len seats ≡ 0 }
{
    let mut seat = seat;
    calls_begin(rt, "offer, take of a pool, close")?;
    let right = offer_and_take(&pool, &mut seat);
    let left = left_in(pool, seat, seats);
    calls_end(rt)?;
    if right && left == Some(15) {
        return Ok(());
    }
    wrong(rt, "a pool")
}

/// An array with one hold for reading and one for writing.
fn store_of_array(alloc: Global) -> Result<(Store, DatumNo), AllocError> {
    let mut store = Store::new(alloc);
    let array = store.new_cell(DatumKind::Keyed, 1, 1)?;
    Ok((store, array))
}

fn try_store(rt: &HostRuntime, alloc: Global) -> io::Result<()> {
    let Ok((mut store, array)) = store_of_array(alloc) else {
        return Ok(());
    };
    calls_begin(rt, "close_writer, release")?;
    if store.is_live(array) && store.writes(array) > 0 {
        store.close_writer(array);
    }
    if store.is_live(array) && store.reads(array) > 0 {
        store.release(array);
    }
    let data = store.len();
    calls_end(rt)?;
    if data == 0 {
        return Ok(());
    }
    wrong(rt, "a store")
}

/// A board of a copy of the code.
fn opened(alloc: Global, code: &CompiledScript) -> Result<Board, AllocError> {
    let copy = code.copy()?;
    new_board(alloc, copy, MAX_EVENTS_OF_A_RUN)
}

/// Moves a board until nothing is left to be done or memory is refused. Each item is given back once before it is computed.
fn try_board(rt: &HostRuntime, board: Board) -> io::Result<()> {
    let mut board = board;
    for _ in 0..MAX_EVENTS_OF_A_RUN {
        match board.first() {
            None => return Ok(()),
            Some((_, item)) => {
                if !goes_on(rt, &mut board, item)? {
                    return Ok(());
                }
            }
        }
    }
    Ok(())
}

/// Moves a board by an item, and returns whether memory was granted.
fn goes_on(rt: &HostRuntime, board: &mut Board, item: u64) -> io::Result<bool> {
    if board.begin(WORKER, item).is_err() {
        shows(rt, board)?;
        return Ok(false);
    }
    gives_back(rt, board, item)?;
    match board.begin(WORKER, item) {
        Ok(work) => ends(rt, board, work),
        Err(_) => {
            shows(rt, board)?;
            Ok(false)
        }
    }
}

/// Computes and ends a work. Where memory is refused, the item is given back.
fn ends(rt: &HostRuntime, board: &mut Board, work: Work) -> io::Result<bool> {
    let item = work.item();
    match work.compute() {
        Ok(done) => match board.end(WORKER, done) {
            Ok(()) => {
                shows(rt, board)?;
                Ok(true)
            }
            Err(_) => {
                gives_back(rt, board, item)?;
                Ok(false)
            }
        },
        Err(_) => {
            gives_back(rt, board, item)?;
            Ok(false)
        }
    }
}

/// Gives an item back, which succeeds, and reads the board.
fn gives_back(rt: &HostRuntime, board: &mut Board, item: u64) -> io::Result<()> {
    calls_begin(rt, "back")?;
    let back = board.back(WORKER, item).is_ok();
    calls_end(rt)?;
    if !back {
        wrong(rt, "a back that is refused")?;
    }
    shows(rt, board)
}

/// Reads a board: what is ready, printed and recorded.
fn shows(rt: &HostRuntime, board: &Board) -> io::Result<()> {
    calls_begin(
        rt,
        "next, newly, stored, is_quiet, lines, history, kind, is_going, fault",
    )?;
    let control = board.next(Kind::Control);
    let leaf = board.next(Kind::Leaf);
    let quiet = board.is_quiet();
    let going = board.is_going();
    let newly = board.newly(0);
    let kind = match leaf {
        Some(item) => board.kind(item),
        None => Some(Kind::Leaf),
    };
    let few = board.lines().len() <= board.history().len();
    let none = board.newly_len() == 0 && newly.is_none() || newly.is_some();
    let faulty = board.fault().is_some();
    let stored = board.stored();
    calls_end(rt)?;
    let ready = control.is_some() || leaf.is_some();
    if quiet && ready || faulty && going || going && newly.is_some() && !ready {
        return wrong(rt, "a board");
    }
    if few && none && kind == Some(Kind::Leaf) && (stored == 0 || board.history().len() > 1) {
        return Ok(());
    }
    wrong(rt, "a board")
}
