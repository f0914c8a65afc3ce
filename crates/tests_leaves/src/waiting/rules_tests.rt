//! Each call of `rules` on plain cases: inputs that become known one after another, elements, arrays that are closed.

use crate::asserts::{boxed, holds, is_equal};
use rules::input::Input;
use rules::rules_table::Rules;
use smallvec::SmallVec;
use std::alloc::{AllocError, Global};
use std::process::Abort;

/// Rules for which no item waits.
fn no_rules(rt: &impl Abort, alloc: Global) -> Box<Rules> {
    boxed(rt, alloc, Rules::new(alloc))
}

fn element(datum: u64, key: i64) -> Input {
    Input::Element(datum, key.cast_unsigned())
}

/// Lets an item wait for inputs, and says whether it need not.
fn is_ready(rt: &impl Abort, rules: &mut Rules, inputs: SmallVec<Input, 2>, item: u64) -> bool {
    rules.add(inputs, item).expect(rt, "memory")
}

/// The item waits for these inputs.
fn waits(rt: &impl Abort, rules: &mut Rules, inputs: SmallVec<Input, 2>, item: u64) {
    is_equal(rt, is_ready(rt, rules, inputs, item), false);
}

/// A list of one input.
fn one(alloc: Global, input: Input) -> Result<SmallVec<Input, 2>, AllocError> {
    let mut inputs = SmallVec::new(alloc);
    inputs.push(input)?;
    Ok(inputs)
}

/// The item waits for one input.
fn waits_for(rt: &impl Abort, alloc: Global, rules: &mut Rules, input: Input, item: u64) {
    let inputs = one(alloc, input).expect(rt, "memory");
    waits(rt, rules, inputs, item);
}

/// The whole data 1 to a number.
fn whole_up_to(alloc: Global, last: u64) -> Result<SmallVec<Input, 2>, AllocError> {
    let mut inputs = SmallVec::new(alloc);
    for datum in 1..=last {
        inputs.push(Input::Whole(datum))?;
    }
    Ok(inputs)
}

/// The item waits for the whole data 1 to a number.
fn waits_up_to(rt: &impl Abort, alloc: Global, rules: &mut Rules, last: u64, item: u64) {
    let inputs = whole_up_to(alloc, last).expect(rt, "memory");
    waits(rt, rules, inputs, item);
}

/// The items that an input wakes.
fn woken(rt: &impl Abort, alloc: Global, rules: &mut Rules, input: &Input) -> Vec<u64> {
    let mut out = Vec::with_capacity(alloc, rules.waiting()).expect(rt, "memory");
    rules.known(input, &mut out);
    out
}

/// An input wakes these items, in this order.
fn wakes(rt: &impl Abort, alloc: Global, rules: &mut Rules, input: Input, items: &[u64]) {
    let out = woken(rt, alloc, rules, &input);
    is_equal(rt, out.as_slice(), items);
}

#[test]
fn an_item_without_inputs_does_not_wait(rt: HostRuntime) {
    let mut rules = no_rules(&rt, rt.alloc());
    holds(&rt, is_ready(&rt, &mut rules, SmallVec::new(rt.alloc()), 1));
    is_equal(&rt, rules.waiting(), 0);
}

/// An item of two inputs, which become known one after another.
fn two_inputs(rt: &impl Abort, alloc: Global, rules: &mut Rules) {
    waits_up_to(rt, alloc, rules, 2, 5);
    wakes(rt, alloc, rules, Input::Whole(1), &[]);
    is_equal(rt, rules.waiting(), 1);
    wakes(rt, alloc, rules, Input::Whole(2), &[5]);
}

/// An input that is known already wakes no item, and then one that waits for it anew.
fn known_again(rt: &impl Abort, alloc: Global, rules: &mut Rules) {
    wakes(rt, alloc, rules, Input::Whole(2), &[]);
    waits_for(rt, alloc, rules, Input::Whole(2), 5);
    wakes(rt, alloc, rules, Input::Whole(2), &[5]);
}

#[test]
fn the_last_input_wakes_once(rt: HostRuntime) {
    let mut rules = no_rules(&rt, rt.alloc());
    two_inputs(&rt, rt.alloc(), &mut rules);
    known_again(&rt, rt.alloc(), &mut rules);
}

/// Three items wait for an element each, two of them for one array's.
fn wait_for_elements(rt: &impl Abort, alloc: Global, rules: &mut Rules) {
    waits_for(rt, alloc, rules, element(3, 4), 6);
    waits_for(rt, alloc, rules, element(3, -5), 7);
    waits_for(rt, alloc, rules, element(8, 4), 8);
}

fn element_and_array(rt: &impl Abort, alloc: Global, rules: &mut Rules) {
    wait_for_elements(rt, alloc, rules);
    wakes(rt, alloc, rules, element(3, 4), &[6]);
    wakes(rt, alloc, rules, Input::Whole(3), &[7]);
    is_equal(rt, rules.waiting(), 1);
}

#[test]
fn an_element_wakes_its_readers_and_a_closed_array_all(rt: HostRuntime) {
    let mut rules = no_rules(&rt, rt.alloc());
    element_and_array(&rt, rt.alloc(), &mut rules);
}

/// Of two items one is forgotten, and so is one that never waited.
fn one_forgotten(rt: &impl Abort, alloc: Global, rules: &mut Rules) {
    waits_for(rt, alloc, rules, Input::Whole(1), 7);
    waits_for(rt, alloc, rules, Input::Whole(1), 8);
    rules.forget(7);
    rules.forget(9);
    wakes(rt, alloc, rules, Input::Whole(1), &[8]);
    is_equal(rt, rules.waiting(), 0);
}

#[test]
fn a_forgotten_item_is_not_woken(rt: HostRuntime) {
    let mut rules = no_rules(&rt, rt.alloc());
    one_forgotten(&rt, rt.alloc(), &mut rules);
}

/// Two items wait for one input.
fn two_wait(rt: &impl Abort, alloc: Global, rules: &mut Rules) {
    waits_for(rt, alloc, rules, Input::Whole(1), 7);
    waits_for(rt, alloc, rules, Input::Whole(1), 8);
    is_equal(rt, rules.waiting(), 2);
}

/// Returns true if the items are these two, in either order.
fn are_both(items: &[u64], one: u64, other: u64) -> bool {
    items == [one, other].as_slice() || items == [other, one].as_slice()
}

/// Reserves room for `count` items of one input each.
fn reserve(rt: &impl Abort, rules: &mut Rules, items: usize) {
    rules.reserve(items).expect(rt, "memory");
}

fn two_in_room(rt: &impl Abort, alloc: Global, rules: &mut Rules) {
    reserve(rt, rules, 2);
    reserve(rt, rules, 1);
    two_wait(rt, alloc, rules);
    let items = woken(rt, alloc, rules, &Input::Whole(1));
    holds(rt, are_both(items.as_slice(), 7, 8));
}

#[test]
fn items_wait_in_the_room_that_was_laid_by(rt: HostRuntime) {
    let mut rules = no_rules(&rt, rt.alloc());
    two_in_room(&rt, rt.alloc(), &mut rules);
}

/// The element that an item of the thousand waits for.
fn element_of(no: u64) -> Input {
    element(no % 7, (no / 7).cast_signed())
}

/// A thousand items wait, and half of them are woken by their elements.
fn half_of_a_thousand(rt: &impl Abort, alloc: Global, rules: &mut Rules, first: u32) {
    for no in 0..1000u64 {
        waits_for(rt, alloc, rules, element_of(no), u64::from(first) + no);
    }
    for no in 0..500u64 {
        wakes(rt, alloc, rules, element_of(no), &[u64::from(first) + no]);
    }
}

/// Returns the number of items that the seven arrays wake.
fn woken_by_arrays(rt: &impl Abort, alloc: Global, rules: &mut Rules) -> usize {
    let mut woken_items = 0usize;
    for datum in 0..7u64 {
        let items = woken(rt, alloc, rules, &Input::Whole(datum));
        woken_items = items.len().wrapping_add(woken_items);
    }
    woken_items
}

/// Three rounds of a thousand items, and how many of them the arrays woke.
fn three_rounds(rt: &impl Abort, alloc: Global, rules: &mut Rules) -> usize {
    let mut woken_items = 0usize;
    for round in 0..3u32 {
        half_of_a_thousand(rt, alloc, rules, round * 1000);
        woken_items = woken_by_arrays(rt, alloc, rules).wrapping_add(woken_items);
        is_equal(rt, rules.waiting(), 0);
    }
    woken_items
}

// Thousands of items come and go, and none is lost.
#[test]
fn many_items_are_each_woken_once(rt: HostRuntime) {
    let mut rules = no_rules(&rt, rt.alloc());
    is_equal(&rt, three_rounds(&rt, rt.alloc(), &mut rules), 1500);
}

fn three_inputs(rt: &impl Abort, alloc: Global, rules: &mut Rules) {
    reserve(rt, rules, 1);
    rules.reserve_inputs(3).expect(rt, "memory");
    waits_up_to(rt, alloc, rules, 3, 4);
    is_equal(rt, rules.waiting(), 1);
}

#[test]
fn an_item_of_three_inputs_waits_in_memory_that_was_taken(rt: HostRuntime) {
    let mut rules = no_rules(&rt, rt.alloc());
    three_inputs(&rt, rt.alloc(), &mut rules);
}

/// `count` elements of an array, and as many scalars, in turn, with the first element twice.
fn elements_and_scalars(
    alloc: Global,
    array: u64,
    count: u8,
) -> Result<SmallVec<Input, 2>, AllocError> {
    let mut inputs = SmallVec::new(alloc);
    for number in 0..count {
        inputs.push(Input::Element(array, u64::from(number)))?;
        inputs.push(Input::Whole(100 + u64::from(number)))?;
    }
    inputs.push(Input::Element(array, 0))?;
    Ok(inputs)
}

/// An item waits for `count` elements of array 3, and as many scalars.
fn waits_for_many(rt: &impl Abort, alloc: Global, rules: &mut Rules, count: u8, item: u64) {
    let inputs = elements_and_scalars(alloc, 3, count).expect(rt, "memory");
    waits(rt, rules, inputs, item);
}

/// The scalars and then the elements become known, from the last to the second, and wake nothing. Then the first does.
fn many_one_by_one(rt: &impl Abort, alloc: Global, rules: &mut Rules, count: u8) {
    waits_for_many(rt, alloc, rules, count, 5);
    for number in 0..count {
        wakes(rt, alloc, rules, Input::Whole(100 + u64::from(number)), &[]);
    }
    for number in 1..count {
        wakes(
            rt,
            alloc,
            rules,
            Input::Element(3, u64::from(count - number)),
            &[],
        );
    }
    is_equal(rt, rules.waiting(), 1);
    wakes(rt, alloc, rules, Input::Element(3, 0), &[5]);
}

// From eight inputs on there is an index to them.
#[test]
fn many_inputs_wake_with_the_last_of_them(rt: HostRuntime) {
    let mut rules = no_rules(&rt, rt.alloc());
    many_one_by_one(&rt, rt.alloc(), &mut rules, 3);
    many_one_by_one(&rt, rt.alloc(), &mut rules, 4);
    many_one_by_one(&rt, rt.alloc(), &mut rules, 200);
}

/// Two items wait for the elements of one array. Those of another array in the same slot become known first; then the array is closed, and the scalars become known.
fn closed_before_scalars(rt: &impl Abort, alloc: Global, rules: &mut Rules) {
    waits_for_many(rt, alloc, rules, 30, 5);
    waits_for_many(rt, alloc, rules, 30, 6);
    wakes(rt, alloc, rules, Input::Whole(4), &[]);
    wakes(rt, alloc, rules, Input::Whole(3), &[]);
    wakes(rt, alloc, rules, Input::Whole(3), &[]);
    for number in 1..30u64 {
        wakes(rt, alloc, rules, Input::Whole(100 + number), &[]);
    }
    let items = woken(rt, alloc, rules, &Input::Whole(100));
    holds(rt, are_both(items.as_slice(), 5, 6));
    is_equal(rt, rules.waiting(), 0);
}

#[test]
fn a_closed_array_leaves_the_scalars_of_many(rt: HostRuntime) {
    let mut rules = no_rules(&rt, rt.alloc());
    closed_before_scalars(&rt, rt.alloc(), &mut rules);
}
