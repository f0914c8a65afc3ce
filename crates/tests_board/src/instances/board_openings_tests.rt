//! The ends of the items of `boolean x = true; assert(x, "");`, and what they do to instances and data.

use crate::asserts::is_equal;
use crate::worlds::{ASSERT, Fixture, SET, end, opened_script};
use board_changes::data_state::Change;
use board_changes::instance_data::{TurnSlots, fill_all};
use board_changes::opening::{instance_of, push_continuation};
use board_data::data;
use board_instances::item::{ItemStatus, ItemTask};
use board_instances::pending::{PendingInstance, outermost};
use board_program::program::LocalVariable;
use data_store::store::Store;
use rules::input::Input;
use std::alloc::{AllocError, Global};
use std::process::Abort;
use values::datum_kind::DatumKind;
use values::value::Scalar;

/// The numbers of instances and of data.
fn counts(opened: &Fixture) -> (usize, usize) {
    (
        opened.data_state.instances.len(),
        opened.data_state.store.len(),
    )
}

/// The item of what is asserted is the last, and nothing has become known.
fn assert_is_last(rt: &impl Abort, opened: &Fixture) {
    let last = opened.rows.last().expect(rt, "an item");
    is_equal(
        rt,
        (last.item().job(), last.item().status()),
        (ASSERT, ItemStatus::Waiting),
    );
    assert!(rt; opened.known.is_empty());
}

#[test]
fn the_script_is_opened(rt: HostRuntime) {
    let opened = opened_script(&rt, rt.alloc());
    is_equal(&rt, counts(&opened), (1, 1));
    assert_is_last(&rt, &opened);
    is_equal(
        &rt,
        (instance_of(ItemTask::Script), instance_of(SET)),
        (None, Some(0)),
    );
}

/// Ends the item of a job in the world.
fn end_in(
    alloc: Global,
    opened: &mut Fixture,
    job: ItemTask,
    change: Change,
) -> Result<(), AllocError> {
    let (rows, known) = (&mut opened.rows, &mut opened.known);
    let data_state = &mut opened.data_state;
    end(
        alloc,
        &opened.program,
        data_state,
        rows,
        known,
        (job, change),
    )
}

/// The assignment's item ends, which stores true.
fn end_set(rt: &impl Abort, alloc: Global, opened: &mut Fixture) {
    let stores = Change::Value(Some(0), Scalar::Truth(true));
    assert!(rt; end_in(alloc, opened, SET, stores).is_ok());
}

/// The first datum has the value true, and that is known.
fn truth_is_known(rt: &impl Abort, opened: &Fixture) {
    assert!(rt; matches!(opened.known.as_slice(), [Input::Whole(0)]));
    let stored = data::value(&opened.data_state.store, 0);
    assert!(rt; matches!(stored, Some(Scalar::Truth(true))));
}

#[test]
fn what_is_stored_becomes_known(rt: HostRuntime) {
    let mut opened = opened_script(&rt, rt.alloc());
    end_set(&rt, rt.alloc(), &mut opened);
    truth_is_known(&rt, &opened);
    is_equal(&rt, opened.data_state.instances.len(), 1);
}

#[test]
fn the_last_item_takes_all_with_it(rt: HostRuntime) {
    let mut opened = opened_script(&rt, rt.alloc());
    end_set(&rt, rt.alloc(), &mut opened);
    assert!(rt; end_in(rt.alloc(), &mut opened, ASSERT, Change::Nothing).is_ok());
    is_equal(&rt, counts(&opened), (0, 0));
}

#[test]
fn a_loop_goes_on_with_one_item(rt: HostRuntime) {
    let mut rows = Vec::new(rt.alloc());
    assert!(rt; push_continuation(&mut rows, SET, false).is_ok() && rows.is_empty());
    assert!(rt; push_continuation(&mut rows, SET, true).is_ok());
    let rest = ItemTask::Does {
        instance: 0,
        entry: 0,
        chunk: 1,
    };
    assert!(rt; rows.last().is_some_and(|row| row.item().job() == rest));
}

/// An instance whose first variable is a turn's.
fn turn(alloc: Global, opened: &Fixture) -> Result<Vec<PendingInstance>, AllocError> {
    let mut list = Vec::new(alloc);
    if let Some(body) = opened.program.code().body(0) {
        list.push(PendingInstance {
            instance: outermost(alloc, body)?,
            value: Some(Scalar::Number(6)),
            turn: None,
        })?;
    }
    Ok(list)
}

/// Makes the data of the instances, with the values of their turns in the first slot.
fn fill(rt: &impl Abort, store: &mut Store, list: &mut Vec<PendingInstance>) {
    let own = LocalVariable {
        shape: DatumKind::Single,
        reads: 1,
        writes: 0,
    };
    let slots = TurnSlots {
        value: Some(0),
        turn: None,
    };
    assert!(rt; fill_all(store, &[own], list, slots).is_ok());
}

#[test]
fn data_of_a_turn_are_made(rt: HostRuntime) {
    let opened = opened_script(&rt, rt.alloc());
    let mut list = turn(rt.alloc(), &opened).expect(&rt, "memory");
    let mut store = Store::new(rt.alloc());
    fill(&rt, &mut store, &mut list);
    assert!(rt; matches!(data::value(&store, 0), Some(Scalar::Number(6))));
}
