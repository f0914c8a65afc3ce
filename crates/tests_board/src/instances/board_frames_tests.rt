//! Items and instances of a script that is opened: what its names stand for, paths, turns of loops, how instances come and go.

use crate::asserts::is_equal;
use crate::worlds::{ASSERT, FIRST, Fixture, SET, opened_script};
use board_changes::data_state::DataState;
use board_instances::instance::{Slot, add_child, datum_at, leave, path_of, slot_at};
use board_instances::item::{ItemStatus, PackedItem, item_of, set_item_status};
use board_instances::packed::PackedSlot;
use board_instances::parent_key::{LastStep, ParentKey};
use board_instances::pending::{ParentContext, PendingInstance, child_instance, outermost};
use board_instances::placing::{place_all, push_rest_of_loop};
use board_instances::turns::{InnerBody, push_block, push_elements, push_range};
use board_program::lexical_address::LexicalAddress;
use std::alloc::{AllocError, Global};
use std::process::Abort;
use values::key::{Key, KeyRef};
use values::map::Element;
use values::range::IntRange;
use values::text::Text;
use values::value::Scalar;

fn open(rt: &impl Abort, alloc: Global) -> Box<Fixture> {
    opened_script(rt, alloc)
}

fn around(data_state: &Fixture) -> ParentContext<'_> {
    data_state.view().parent()
}

/// The variable stands for the first datum, and what lies outside for nothing.
fn names_have_data(rt: &impl Abort, data_state: &DataState) {
    let outside = LexicalAddress { levels: 1, slot: 0 };
    let instances = &data_state.instances;
    is_equal(
        rt,
        (slot_at(instances, 0, FIRST), slot_at(instances, 0, outside)),
        (Slot::Datum(0), Slot::Absent),
    );
    is_equal(rt, datum_at(instances, 0, Some(FIRST)), Some(0));
    is_equal(rt, datum_at(instances, 0, None), None);
}

/// The slot after packing and unpacking, or `None` if its numbers are too large.
fn repacked(slot: Slot) -> Option<Slot> {
    match PackedSlot::of(slot) {
        Ok(packed) => Some(packed.slot()),
        Err(_) => None,
    }
}

#[test]
fn a_slot_is_packed(rt: HostRuntime) {
    let slots = [
        Slot::Absent,
        Slot::Datum(4_294_967_295),
        Slot::Literal(7, 2),
    ];
    for slot in slots {
        is_equal(&rt, repacked(slot), Some(slot));
    }
    is_equal(&rt, repacked(Slot::Datum(4_294_967_296)), None);
    is_equal(&rt, repacked(Slot::Literal(7, 4_294_967_294)), None);
    assert!(rt; PackedSlot::datum(4_294_967_296).is_err());
    is_equal(&rt, PackedSlot::absent().slot(), Slot::Absent);
}

/// Returns the number of steps that the path of an instance has.
fn path_length(rt: &impl Abort, alloc: Global, data_state: &DataState, at: usize) -> usize {
    let path = path_of(alloc, &data_state.instances, at).expect(rt, "memory");
    path.len()
}

#[test]
fn names_stand_for_data(rt: HostRuntime) {
    let data_state = open(&rt, rt.alloc());
    names_have_data(&rt, &data_state.data_state);
    is_equal(
        &rt,
        path_length(&rt, rt.alloc(), &data_state.data_state, 0),
        0,
    );
}

/// The assignment's item waits under its number, and none has the number 0.
fn set_waits(rt: &impl Abort, rows: &[PackedItem]) {
    let set = item_of(rows, 2).expect(rt, "an item");
    is_equal(rt, (set.job(), set.status()), (SET, ItemStatus::Waiting));
    is_equal(rt, item_of(rows, 0), None);
}

/// An item of an entry is packed, unless its numbers are too great.
fn items_are_packed(rt: &impl Abort) {
    let packed = PackedItem::waiting(1, 0, 0).expect(rt, "memory");
    is_equal(rt, packed.item().job(), ASSERT);
    assert!(rt; PackedItem::waiting(1, 4_294_967_296, 0).is_err());
}

/// The item of what is asserted is ready under its number, which is the last.
fn assert_is_ready(rt: &impl Abort, rows: &[PackedItem]) {
    let found = item_of(rows, 3).expect(rt, "an item");
    is_equal(
        rt,
        (found.job(), found.status()),
        (ASSERT, ItemStatus::Ready),
    );
    is_equal(rt, item_of(rows, 4), None);
}

#[test]
fn items_have_numbers(rt: HostRuntime) {
    let mut data_state = open(&rt, rt.alloc());
    set_waits(&rt, data_state.rows.as_slice());
    set_item_status(data_state.rows.as_mut_slice(), 3, ItemStatus::Ready);
    assert_is_ready(&rt, data_state.rows.as_slice());
    items_are_packed(&rt);
}

/// One item more enters the instance, and all three leave it.
fn leave_thrice(rt: &impl Abort, data_state: &mut DataState) {
    let instances = &mut data_state.instances;
    add_child(instances, 0, 1);
    leave(instances, 0);
    leave(instances, 0);
    is_equal(rt, instances.len(), 1);
    leave(instances, 0);
    is_equal(rt, instances.len(), 0);
}

#[test]
fn an_instance_goes_with_its_last_item(rt: HostRuntime) {
    let mut data_state = open(&rt, rt.alloc());
    leave_thrice(&rt, &mut data_state.data_state);
}

/// The outermost instance of the body, which lies in no other.
fn outermost_lies_in_none(rt: &impl Abort, alloc: Global, data_state: &Fixture) {
    let body = data_state.program.code().body(0).expect(rt, "a body");
    let first = outermost(alloc, body).expect(rt, "memory");
    is_equal(rt, (first.level, first.depth, first.live), (0, 0, 2));
}

/// An instance that lies in the script's, a step further.
fn inner_lies_in_first(rt: &impl Abort, alloc: Global, data_state: &Fixture) {
    let found = child_instance(
        alloc,
        around(data_state),
        0,
        LastStep::to_number(40, 7),
        (0, &[]),
    );
    let inside = found.expect(rt, "memory").expect(rt, "an instance");
    is_equal(rt, (inside.level, inside.depth, inside.live), (1, 1, 2));
    is_equal(rt, inside.parent.key(), Some(0));
}

/// There is no instance of a body that is not.
fn no_body_has_none(rt: &impl Abort, alloc: Global, data_state: &Fixture) {
    let none = child_instance(alloc, around(data_state), 1, LastStep::none(), (0, &[]));
    assert!(rt; none.expect(rt, "memory").is_none());
}

#[test]
fn instances_lie_in_one_another(rt: HostRuntime) {
    let data_state = open(&rt, rt.alloc());
    outermost_lies_in_none(&rt, rt.alloc(), &data_state);
    inner_lies_in_first(&rt, rt.alloc(), &data_state);
    no_body_has_none(&rt, rt.alloc(), &data_state);
}

fn site(data_state: &Fixture, alloc: Global) -> InnerBody<'_> {
    InnerBody {
        alloc,
        around: around(data_state),
        body: 0,
        offset: 40,
    }
}

/// A block, two elements and three numbers of a range.
fn turns(alloc: Global, data_state: &Fixture) -> Result<Vec<PendingInstance>, AllocError> {
    let mut list = Vec::new(alloc);
    let values = (None, None);
    push_block(
        site(data_state, alloc),
        &mut list,
        LastStep::none(),
        (0, &[]),
        values,
    )?;
    let one = Element {
        key: Key::Number(3),
        value: Scalar::Truth(true),
    };
    push_elements(site(data_state, alloc), &mut list, &[one])?;
    if let Ok(range) = IntRange::new(5, 9, 2) {
        push_range(site(data_state, alloc), &mut list, &range, 1, 7)?;
    }
    Ok(list)
}

/// The key of the enclosing instance is kept, and so is its absence.
fn keeps_the_outer(rt: &impl Abort) {
    let outer = ParentKey::of(7).expect(rt, "a key");
    is_equal(rt, (outer.key(), ParentKey::none().key()), (Some(7), None));
}

/// A step is kept, and so is its absence.
fn keeps_the_step(rt: &impl Abort) {
    let kept = LastStep::to_number(40, 3);
    let step = kept.step().expect(rt, "memory").expect(rt, "a step");
    assert!(rt; step.offset == 40 && matches!(step.key, Key::Number(3)));
    assert!(rt; LastStep::none().step().expect(rt, "memory").is_none());
}

/// A step to a text is kept with all of its bytes.
fn keeps_the_text(rt: &impl Abort, alloc: Global) {
    let text = Text::from_slice(alloc, b"a\n").expect(rt, "memory");
    let kept = LastStep::to(40, KeyRef::Text(&text)).expect(rt, "memory");
    let step = kept.step().expect(rt, "memory").expect(rt, "a step");
    let is_text = matches!(&step.key, Key::Text(key) if key.as_bytes() == b"a\n".as_slice());
    assert!(rt; step.offset == 40 && is_text);
}

#[test]
fn an_instance_keeps_what_is_around_it(rt: HostRuntime) {
    keeps_the_outer(&rt);
    keeps_the_step(&rt);
    keeps_the_text(&rt, rt.alloc());
}

/// The last turn has the range's last number and its place, and a step by that place.
fn is_last_turn(rt: &impl Abort, last: &PendingInstance) {
    assert!(rt; matches!(&last.value, Some(Scalar::Number(9))));
    assert!(rt; matches!(&last.turn, Some(Scalar::Number(2))));
    let way = last
        .instance
        .way
        .step()
        .expect(rt, "memory")
        .expect(rt, "a step");
    assert!(rt; way.offset == 40 && matches!(way.key, Key::Number(2)));
}

#[test]
fn loops_have_turns(rt: HostRuntime) {
    let data_state = open(&rt, rt.alloc());
    let list = turns(rt.alloc(), &data_state).expect(&rt, "memory");
    is_equal(&rt, list.len(), 4);
    is_last_turn(&rt, list.last().expect(&rt, "a turn"));
}

/// Places the turns in the script's instance, and returns the key of the last one.
fn place_turns(rt: &impl Abort, alloc: Global, data_state: &mut Fixture) -> usize {
    let list = turns(alloc, data_state).expect(rt, "memory");
    let instances = &mut data_state.data_state.instances;
    let last = place_all(instances, &mut data_state.rows, Some(0), &[1], list);
    last.expect(rt, "memory").expect(rt, "a key")
}

/// The numbers of instances and of items.
fn counts(data_state: &Fixture) -> (usize, usize) {
    (data_state.data_state.instances.len(), data_state.rows.len())
}

#[test]
fn instances_are_placed_with_their_items(rt: HostRuntime) {
    let mut data_state = open(&rt, rt.alloc());
    let last = place_turns(&rt, rt.alloc(), &mut data_state);
    is_equal(&rt, counts(&data_state), (5, 7));
    is_equal(
        &rt,
        path_length(&rt, rt.alloc(), &data_state.data_state, last),
        1,
    );
    push_rest_of_loop(&mut data_state.rows, 0, 1, 0).expect(&rt, "memory");
    is_equal(&rt, data_state.rows.len(), 8);
}
