//! The items of `boolean x = true; assert(x, "");`: which can begin, run or wait, and what wakes them.

use crate::asserts::is_equal;
use crate::worlds::{ASSERT, SET, open};
use board_changes::data_state::DataState;
use board_instances::item::ItemTask;
use board_instances::pending::MissingInputs;
use board_items::items::{Counts, Items, order_of};
use board_items::readiness::BoardView;
use board_program::program::Program;
use rules::input::Input;
use smallvec::SmallVec;
use std::alloc::{AllocError, Global};
use std::process::Abort;
use tests_codes::codes::asserted;
use work_queue::entry::Kind;

fn program_of(rt: &impl Abort, alloc: Global) -> Box<Program> {
    let code = asserted(alloc, true).expect(rt, "a code");
    let program = Program::new(alloc, code).expect(rt, "memory");
    Box::new(alloc, program).expect(rt, "memory")
}

#[test]
fn kinds_are_counted(rt: HostRuntime) {
    let mut counts = Counts {
        controls: 0,
        leaves: 1,
    };
    counts.add(Kind::Control);
    counts.take(Kind::Leaf);
    counts.take(Kind::Leaf);
    is_equal(&rt, (counts.controls, counts.leaves), (1, 0));
}

#[test]
fn entries_have_an_order(rt: HostRuntime) {
    let program = program_of(&rt, rt.alloc());
    is_equal(
        &rt,
        order_of(&program, ItemTask::Script),
        (Kind::Control, 0),
    );
    is_equal(&rt, order_of(&program, ASSERT), (Kind::Leaf, 0));
}

/// The first item begins, and is in the queue no more.
fn first_begins(rt: &impl Abort, items: &mut Items) {
    is_equal(rt, items.queue.first(Kind::Control), Some(1));
    items.begin(3, 1, (Kind::Control, 0));
    assert!(rt; !items.is_quiescent() && items.running == 1);
    is_equal(rt, items.queue.first(Kind::Control), None);
}

/// The first item comes back, and is new.
fn first_comes_back(rt: &impl Abort, items: &mut Items) {
    items.back(1, (Kind::Control, 0));
    assert!(rt; !items.is_quiescent() && items.running == 0);
    assert!(rt; items.newly.as_slice() == [1u64].as_slice());
}

#[test]
fn the_first_item_begins_and_comes_back(rt: HostRuntime) {
    let mut items = Items::new(rt.alloc()).expect(&rt, "memory");
    first_begins(&rt, &mut items);
    first_comes_back(&rt, &mut items);
}

/// Begins the script's item, and makes room for what its end wakes and makes.
fn begin_script(program: &Program, items: &mut Items) -> Result<(), AllocError> {
    items.begin(0, 1, order_of(program, ItemTask::Script));
    items.reserve_to_wake(2)?;
    items.reserve_new(Counts {
        controls: 0,
        leaves: 2,
    })
}

/// Ends the script's item in the world that it has opened.
fn finish_script(
    alloc: Global,
    program: &Program,
    data_state: &DataState,
    items: &mut Items,
) -> Result<(), AllocError> {
    let board_view = BoardView {
        alloc,
        program,
        instances: &data_state.instances,
        store: &data_state.store,
    };
    items.finish(board_view, 1, ItemTask::Script, 1, Vec::new(alloc))
}

/// Opens the script in a world of its own, and ends its item.
fn open_script(alloc: Global, program: &Program, items: &mut Items) -> Result<(), AllocError> {
    let mut data_state = DataState::new(alloc);
    let mut known = Vec::new(alloc);
    open(alloc, program, &mut data_state, &mut items.rows, &mut known)?;
    finish_script(alloc, program, &data_state, items)
}

/// Items without any.
fn no_items(rt: &impl Abort, alloc: Global) -> Box<Items> {
    let items = Items::new(alloc).expect(rt, "memory");
    Box::new(alloc, items).expect(rt, "memory")
}

/// The items after the script's own has ended.
fn settled(rt: &impl Abort, alloc: Global, program: &Program) -> Box<Items> {
    let mut items = no_items(rt, alloc);
    begin_script(program, &mut items).expect(rt, "memory");
    open_script(alloc, program, &mut items).expect(rt, "memory");
    items
}

/// The assignment can begin, and what is asserted waits.
fn one_begins_and_one_waits(rt: &impl Abort, items: &Items) {
    assert!(rt; items.newly.as_slice() == [2u64].as_slice());
    is_equal(rt, items.queue.first(Kind::Leaf), Some(2));
    is_equal(rt, (items.rules.waiting(), items.rows.len()), (1, 3));
    assert!(rt;
        items
            .rows
            .last()
            .is_some_and(|row| row.item().job() == ASSERT)
    );
}

#[test]
fn new_items_can_begin_or_wait(rt: HostRuntime) {
    let program = program_of(&rt, rt.alloc());
    let items = settled(&rt, rt.alloc(), &program);
    one_begins_and_one_waits(&rt, &items);
}

/// The first datum's value wakes what is asserted.
fn value_wakes_assert(rt: &impl Abort, items: &mut Items) {
    assert!(rt; items.reserve_to_wake(0).is_ok());
    items.tell(&Input::Whole(0));
    assert!(rt; items.woken.as_slice() == [3u64].as_slice());
    is_equal(rt, items.rules.waiting(), 0);
}

#[test]
fn a_value_wakes_who_waits_for_it(rt: HostRuntime) {
    let program = program_of(&rt, rt.alloc());
    let mut items = settled(&rt, rt.alloc(), &program);
    items.begin(1, 2, order_of(&program, SET));
    value_wakes_assert(&rt, &mut items);
}

/// One list with room for three inputs.
fn list_of_three(alloc: Global) -> Result<Vec<MissingInputs>, AllocError> {
    let mut list = SmallVec::new(alloc);
    list.reserve(3)?;
    let mut lists = Vec::new(alloc);
    lists.push(list)?;
    Ok(lists)
}

#[test]
fn memory_is_taken_for_items_of_many_inputs(rt: HostRuntime) {
    let program = program_of(&rt, rt.alloc());
    let mut items = settled(&rt, rt.alloc(), &program);
    let spare = list_of_three(rt.alloc()).expect(&rt, "memory");
    assert!(rt; items.reserve_to_wait(spare.as_slice()).is_ok());
    is_equal(&rt, (items.rules.waiting(), items.rows.len()), (1, 3));
}
