//! Times of the tables in which items wait for their inputs.

use crate::watch;
use rules::input::Input;
use rules::rules_table::Rules;
use smallvec::SmallVec;
use std::alloc::{AllocError, Global};
use std::io;
use std::time::{Clock, Instant};

// The array whose elements are waited for, above the numbers of all scalars.
const ARRAY: u64 = 1 << 40;

// The first of the data that are used again and again, above the numbers of all others.
const AGAIN: u64 = (1 << 41) + 100_003;

fn element(number: u64) -> Input {
    Input::Element(ARRAY, number & 0xffff_ffff)
}

/// A scalar and an element of the array.
fn pair(alloc: Global, number: u64) -> Result<SmallVec<Input, 2>, AllocError> {
    let mut inputs = SmallVec::new(alloc);
    inputs.push(Input::Whole(number))?;
    inputs.push(element(number))?;
    Ok(inputs)
}

/// Adds `count` items, each of which waits for a pair of its own.
fn add_all(alloc: Global, rules: &mut Rules, count: u64) -> Result<(), AllocError> {
    for number in 0..count {
        let inputs = pair(alloc, number)?;
        rules.add(inputs, number)?;
    }
    Ok(())
}

fn tell(rules: &mut Rules, input: &Input, out: &mut Vec<u64>) {
    if rules.waiting() <= out.capacity() - out.len() {
        rules.known(input, out);
    }
}

/// Makes the scalars known, and then the elements.
fn tell_all(rules: &mut Rules, count: u64, out: &mut Vec<u64>) {
    for number in 0..count {
        tell(rules, &Input::Whole(number), out);
    }
    for number in 0..count {
        tell(rules, &element(number), out);
    }
}

/// A number of tables, in each of which a number of items wait.
fn add_each(alloc: Global, parts: u64, count: u64) -> Result<Vec<Rules>, AllocError> {
    let mut all = Vec::new(alloc);
    for _part in 0..parts {
        let mut rules = Rules::new(alloc);
        add_all(alloc, &mut rules, count)?;
        all.push(rules)?;
    }
    Ok(all)
}

/// Makes all inputs of the waiting items known in each table.
fn tell_each(all: &mut [Rules], count: u64, out: &mut Vec<u64>) {
    for rules in all.iter_mut() {
        tell_all(rules, count, out);
    }
}

/// Prints the times of a million adds and of twice as many knowns, with `count` items in each table.
fn time_size(rt: &(impl Clock + Print), alloc: Global, parts: u64, count: u64) -> io::Result<()> {
    let mut out = Vec::with_capacity(alloc, 1_000_000)?;
    let start = Instant::now(rt)?;
    let mut all = add_each(alloc, parts, count)?;
    watch::tell(rt, start, "adds, so many in each", parts, count)?;
    let start = Instant::now(rt)?;
    tell_each(all.as_mut_slice(), count, &mut out);
    watch::tell(
        rt,
        start,
        "two knowns each, and the items listed",
        parts,
        out.len() as u64,
    )
}

/// Adds an item for each of a number of data in turn, and makes that datum known.
fn use_again(
    alloc: Global,
    rules: &mut Rules,
    first: u64,
    data: u64,
    out: &mut Vec<u64>,
) -> Result<(), AllocError> {
    for turn in 0..1_000_000_u64 {
        let datum = first.wrapping_add(turn.checked_rem(data).unwrap_or(0));
        let mut inputs = SmallVec::new(alloc);
        inputs.push(Input::Whole(datum))?;
        rules.add(inputs, AGAIN.wrapping_add(turn))?;
        tell(rules, &Input::Whole(datum), out);
    }
    Ok(())
}

/// Prints the time of a million adds and knowns of the same few data while `count` items wait on others.
fn time_again(rt: &(impl Clock + Print), alloc: Global, count: u64) -> io::Result<()> {
    let mut rules = Rules::new(alloc);
    time_few(rt, alloc, &mut rules, count)
}

/// Prints the times of an empty table.
fn time_few(
    rt: &(impl Clock + Print),
    alloc: Global,
    rules: &mut Rules,
    count: u64,
) -> io::Result<()> {
    let mut out = Vec::with_capacity(alloc, 2_200_000)?;
    add_all(alloc, rules, count)?;
    let start = Instant::now(rt)?;
    use_again(alloc, rules, AGAIN, 64, &mut out)?;
    watch::tell(
        rt,
        start,
        "adds and knowns of 64 data, beside so many that wait",
        1,
        count,
    )
}

/// Adds `count` items that wait for one datum, with room for as many more.
fn add_to_one(alloc: Global, rules: &mut Rules, count: u64) -> Result<(), AllocError> {
    rules.reserve((count as usize).saturating_mul(2))?;
    for number in 0..count {
        let mut inputs = SmallVec::new(alloc);
        inputs.push(Input::Whole(ARRAY))?;
        rules.add(inputs, number)?;
    }
    Ok(())
}

/// Prints the time of a million adds and knowns of a datum that shares its list with one for which `count` items wait, where
/// there are four lists for each of them, or one less than that.
fn time_shared(rt: &(impl Clock + Print), alloc: Global, count: u64) -> io::Result<()> {
    let mut rules = Rules::new(alloc);
    time_list(rt, alloc, &mut rules, count)
}

/// Prints the times of an empty table.
fn time_list(
    rt: &(impl Clock + Print),
    alloc: Global,
    rules: &mut Rules,
    count: u64,
) -> io::Result<()> {
    let mut out = Vec::with_capacity(alloc, 2_200_000)?;
    add_to_one(alloc, rules, count)?;
    let start = Instant::now(rt)?;
    let lists = count.wrapping_mul(4);
    let datum = ARRAY.wrapping_add(lists.wrapping_mul(lists.wrapping_sub(1)));
    use_again(alloc, rules, datum, 1, &mut out)?;
    watch::tell(
        rt,
        start,
        "adds and knowns of one datum, beside so many that wait for another in its list",
        1,
        count,
    )
}

/// Prints the times of a million items, 1,000 to 1,000,000 of them in each value. All are kept, so that each size
/// touches as much memory for the first time.
pub fn time(rt: &(impl Clock + Print), alloc: Global) -> io::Result<()> {
    for (parts, count) in [
        (1_000u64, 1_000u64),
        (100, 10_000),
        (10, 100_000),
        (1, 1_000_000),
    ] {
        time_size(rt, alloc, parts, count)?;
    }
    for count in [1_000u64, 10_000, 100_000, 1_000_000] {
        time_again(rt, alloc, count)?;
    }
    for count in [1_000u64, 10_000, 100_000, 1_000_000] {
        time_shared(rt, alloc, count)?;
    }
    Ok(())
}
