//! Times of the queue of ready items.

use crate::watch::tell;
use std::alloc::{AllocError, Global};
use std::io;
use std::time::{Clock, Instant};
use work_queue::entry::Kind;
use work_queue::queue::Queue;

/// One of three priorities, or, where they are scattered, one of many.
fn priority_of(number: u64, scattered: bool) -> i32 {
    if scattered {
        (number.wrapping_mul(0x9e37_79b9_7f4a_7c15) >> 40) as i32
    } else {
        (number % 3) as i32
    }
}

/// Puts `count` items.
fn put_all(queue: &mut Queue, count: u64, scattered: bool) -> Result<(), AllocError> {
    for number in 0..count {
        queue.put(Kind::Leaf, priority_of(number, scattered), number)?;
    }
    Ok(())
}

/// Removes every other item. Returns the number of those removed.
fn remove_half(queue: &mut Queue, count: u64, scattered: bool) -> u64 {
    let mut removed = 0u64;
    for number in (0..count).step_by(2) {
        if queue.remove(Kind::Leaf, priority_of(number, scattered), number) {
            removed = removed.wrapping_add(1);
        }
    }
    removed
}

/// Takes `count` times. Returns the number of items taken.
fn take_all(queue: &mut Queue, count: u64) -> u64 {
    let mut taken = 0u64;
    for _ in 0..count {
        if queue.take(Kind::Leaf).is_some() {
            taken = taken.wrapping_add(1);
        }
    }
    taken
}

/// Prints the times of puts, removes and takes, of items of three priorities or of many.
fn time_size(
    rt: &(impl Clock + Print),
    alloc: Global,
    count: u64,
    scattered: bool,
) -> io::Result<()> {
    let mut queue = Queue::new(alloc);
    time_calls(rt, &mut queue, count, scattered)
}

/// Prints the times of an empty queue.
fn time_calls(
    rt: &(impl Clock + Print),
    queue: &mut Queue,
    count: u64,
    scattered: bool,
) -> io::Result<()> {
    time_puts(rt, queue, count, scattered)?;
    let start = Instant::now(rt)?;
    let removed = remove_half(queue, count, scattered);
    tell(rt, start, "removes", count / 2, removed)?;
    let start = Instant::now(rt)?;
    let taken = take_all(queue, count);
    tell(rt, start, "takes", count, taken)
}

/// Prints the time of puts.
fn time_puts(
    rt: &(impl Clock + Print),
    queue: &mut Queue,
    count: u64,
    scattered: bool,
) -> io::Result<()> {
    let start = Instant::now(rt)?;
    put_all(queue, count, scattered)?;
    tell(rt, start, priorities_of(scattered), count, count)
}

fn priorities_of(scattered: bool) -> &'static str {
    if scattered {
        "puts at many priorities"
    } else {
        "puts at three priorities"
    }
}

/// Returns the next pseudorandom number.
fn drawn(seed: u64) -> u64 {
    let x = seed
        .wrapping_mul(6_364_136_223_846_793_005)
        .wrapping_add(1_442_695_040_888_963_407);
    x ^ (x >> 29)
}

/// One of the `len` numbers above this one, by the seed.
fn some_of(seed: u64, above: u64, len: u64) -> u64 {
    let drawn = (seed & 0xffff_ffff) * (len & 0xffff_ffff) >> 32;
    above.wrapping_add(2).wrapping_add(drawn)
}

/// While `len` items wait: puts one more, takes the first, and takes a random one out and puts it again, `turns` times.
fn turn_over(queue: &mut Queue, len: u64, turns: u64) -> Result<u64, AllocError> {
    let (mut taken, mut seed) = (0u64, 7u64);
    for turn in 0..turns {
        queue.put(Kind::Leaf, 0, len.wrapping_add(turn))?;
        if queue.take(Kind::Leaf).is_some() {
            taken = taken.wrapping_add(1);
        }
        seed = drawn(seed);
        let some = some_of(seed, turn, len);
        if queue.remove(Kind::Leaf, 0, some) {
            queue.put(Kind::Leaf, 0, some)?;
        }
    }
    Ok(taken)
}

/// Prints the time of rounds of a put, a take, a remove and a put, while `len` items wait.
fn time_turns(rt: &(impl Clock + Print), alloc: Global, len: u64) -> io::Result<()> {
    let mut queue = Queue::new(alloc);
    time_turns_in(rt, &mut queue, len)
}

/// Prints the times of an empty queue.
fn time_turns_in(rt: &(impl Clock + Print), queue: &mut Queue, len: u64) -> io::Result<()> {
    let turns = 1_000_000u64;
    for number in 1..len {
        queue.put(Kind::Leaf, 0, number)?;
    }
    let start = Instant::now(rt)?;
    let taken = turn_over(queue, len, turns)?;
    println!(rt; "with {len} waiting, ")?;
    tell(rt, start, "turns", turns, taken)
}

/// Prints the times of 125,000 to 1,000,000 items, at three priorities and at many, and those of a call
/// while 64 to 1,000,000 wait.
pub fn time(rt: &(impl Clock + Print), alloc: Global) -> io::Result<()> {
    for doublings in 0..4u32 {
        let count = 125_000u64 << doublings;
        time_size(rt, alloc, count, false)?;
        time_size(rt, alloc, count, true)?;
    }
    for len in [64u64, 1_000, 10_000, 100_000, 1_000_000] {
        time_turns(rt, alloc, len)?;
    }
    Ok(())
}
