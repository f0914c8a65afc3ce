//! Numbers by priority, room that comes back, and what is listed.

ghost use Rattle.std.specs.Prelude.{◌<◌};

use crate::asserts::{boxed, holds, is_equal};
use std::alloc::Global;
use std::process::Abort;
use work_queue::entry::Kind;
use work_queue::queue::Queue;

/// A queue without entries.
fn no_entries(rt: &impl Abort, alloc: Global) -> Box<Queue> {
    boxed(rt, alloc, Queue::new(alloc))
}

/// Puts each number with its priority.
fn put(rt: &impl Abort, queue: &mut Queue, kind: Kind, entries: &[(i32, u64)]) {
    for (priority, no) in entries {
        queue.put(kind, *priority, *no).expect(rt, "memory");
    }
}

/// The queue returns these numbers one after another, and then none of this kind.
fn gives(rt: &impl Abort, queue: &mut Queue, kind: Kind, numbers: &[u64]) {
    for no in numbers {
        is_equal(rt, queue.first(kind), Some(*no));
        is_equal(rt, queue.take(kind), Some(*no));
    }
    is_equal(rt, queue.take(kind), None);
}

#[test]
fn greatest_priority_then_smallest_number(rt: HostRuntime) {
    let mut queue = no_entries(&rt, rt.alloc());
    put(&rt, &mut queue, Kind::Leaf, &[(0, 4), (5, 9), (5, 7)]);
    put(&rt, &mut queue, Kind::Control, &[(9, 1)]);
    gives(&rt, &mut queue, Kind::Leaf, &[7, 9, 4]);
    gives(&rt, &mut queue, Kind::Control, &[1]);
}

/// The first entry is this one, with its priority, and stays where it is.
fn shows_first(rt: &impl Abort, queue: &Queue, kind: Kind, wanted: Option<(i32, u64)>) {
    let shown = match queue.first_entry(kind) {
        Some(entry) => Some((entry.priority, entry.no)),
        None => None,
    };
    is_equal(rt, shown, wanted);
}

#[test]
fn the_first_entry_is_shown_with_its_priority(rt: HostRuntime) {
    let mut queue = no_entries(&rt, rt.alloc());
    put(&rt, &mut queue, Kind::Leaf, &[(0, 4), (5, 9), (5, 7)]);
    shows_first(&rt, &queue, Kind::Leaf, Some((5, 7)));
    shows_first(&rt, &queue, Kind::Control, None);
    gives(&rt, &mut queue, Kind::Leaf, &[7, 9, 4]);
    shows_first(&rt, &queue, Kind::Leaf, None);
}

/// Returns true if the queue lists these.
fn is_list(rt: &impl Abort, queue: &Queue, wanted: &[(Kind, i32, u64)]) -> bool {
    let list = queue.list().expect(rt, "memory");
    list.as_slice() == wanted
}

#[test]
fn listed_by_priority_and_number(rt: HostRuntime) {
    let mut queue = no_entries(&rt, rt.alloc());
    put(&rt, &mut queue, Kind::Leaf, &[(0, 4), (5, 9), (-3, 2)]);
    put(&rt, &mut queue, Kind::Control, &[(5, 8), (9, 1)]);
    let wanted = [
        (Kind::Control, 9, 1),
        (Kind::Control, 5, 8),
        (Kind::Leaf, 5, 9),
        (Kind::Leaf, 0, 4),
        (Kind::Leaf, -3, 2),
    ];
    holds(&rt, is_list(&rt, &queue, wanted.as_slice()));
}

/// The queue held the entry and has taken it away, or it held none.
fn removes(
    rt: &impl Abort,
    queue: &mut Queue,
    kind: Kind,
    (priority, no): (i32, u64),
    was_held: bool,
) {
    is_equal(rt, queue.remove(kind, priority, no), was_held);
}

#[test]
fn removed_only_where_it_is(rt: HostRuntime) {
    let mut queue = no_entries(&rt, rt.alloc());
    put(&rt, &mut queue, Kind::Leaf, &[(5, 7), (5, 9)]);
    removes(&rt, &mut queue, Kind::Control, (5, 7), false);
    removes(&rt, &mut queue, Kind::Leaf, (4, 7), false);
    removes(&rt, &mut queue, Kind::Leaf, (5, 7), true);
    removes(&rt, &mut queue, Kind::Leaf, (5, 7), false);
    gives(&rt, &mut queue, Kind::Leaf, &[9]);
}

/// A number of the thousand with its priority.
fn entry_of(no: u64) -> (i32, u64)
    requires { no < 1000 }
{
    ((no * 7919 % 31) as i32, no)
}

/// Puts a thousand numbers.
fn fill(rt: &impl Abort, queue: &mut Queue) {
    for no in 0..1000u64 {
        put(rt, queue, Kind::Leaf, &[entry_of(no)]);
    }
}

/// Removes every other of the thousand.
fn remove_half(rt: &impl Abort, queue: &mut Queue, parity: u64) {
    for no in 0..1000u64 {
        if no % 2 == parity {
            removes(rt, queue, Kind::Leaf, entry_of(no), true);
        }
    }
}

/// Takes five hundred numbers.
fn take_half(rt: &impl Abort, queue: &mut Queue) {
    for _ in 0..500u64 {
        holds(rt, queue.take(Kind::Leaf).is_some());
    }
}

/// Puts a thousand numbers, removes every other and takes the rest.
fn fill_and_empty(rt: &impl Abort, queue: &mut Queue, parity: u64) {
    fill(rt, queue);
    remove_half(rt, queue, parity);
    take_half(rt, queue);
}

// Room for a thousand, then puts, takes and removes in turn, none of which asks for memory.
#[test]
fn room_comes_back(rt: HostRuntime) {
    let mut queue = no_entries(&rt, rt.alloc());
    queue.reserve(Kind::Leaf, 1000).expect(&rt, "memory");
    for round in 0..20u64 {
        fill_and_empty(&rt, &mut queue, round % 2);
        gives(&rt, &mut queue, Kind::Leaf, &[]);
    }
}

/// Puts a number, and where the memory is refused, sees that nothing changed and puts it again.
fn put_again(rt: &impl Abort, queue: &mut Queue, priority: i32, no: u64) {
    let before = queue.first(Kind::Control);
    if queue.put(Kind::Control, priority, no).is_err() {
        is_equal(rt, queue.first(Kind::Control), before);
        removes(rt, queue, Kind::Control, (priority, no), false);
        put(rt, queue, Kind::Control, &[(priority, no)]);
    }
    is_equal(rt, queue.first(Kind::Control), Some(no));
}

/// Returns the number of entries that are listed, asked for again where memory was refused.
fn listed(rt: &impl Abort, queue: &Queue) -> usize {
    match queue.list() {
        Ok(list) => list.len(),
        Err(_) => queue.list().expect(rt, "memory").len(),
    }
}

/// Puts 1 to 5, each with itself for priority.
fn put_five(rt: &impl Abort, queue: &mut Queue) {
    for no in 1..6u64 {
        put_again(rt, queue, no as i32, no);
    }
}

/// Reserves room for three leaves; if that fails, checks that nothing changed and reserves it again.
fn reserve_three(rt: &impl Abort, queue: &mut Queue) {
    if queue.reserve(Kind::Leaf, 3).is_err() {
        is_equal(rt, queue.first(Kind::Leaf), None);
        queue.reserve(Kind::Leaf, 3).expect(rt, "memory");
    }
}

// Also run with each request for memory refused in turn: what is refused changes nothing, and the
// same call succeeds once memory is there again.
#[test]
fn refused_calls_change_nothing(rt: HostRuntime) {
    let mut queue = no_entries(&rt, rt.alloc());
    put_five(&rt, &mut queue);
    reserve_three(&rt, &mut queue);
    is_equal(&rt, listed(&rt, &queue), 5);
    gives(&rt, &mut queue, Kind::Control, &[5, 4, 3, 2, 1]);
}
