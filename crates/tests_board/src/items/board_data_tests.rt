//! Data by what names stand for: values, elements, holds, what an item misses and is answered, and what items store.

use crate::asserts::is_equal;
use crate::worlds::{FIRST, Fixture, opened_script};
use board_changes::data_state::DataState;
use board_data::answers::{answers, are_answers};
use board_data::data;
use board_data::holds::{give_up, hold_outer};
use board_data::inputs::Environment;
use board_data::making::{InitialValues, make_data};
use board_data::storing::{store_all, store_element, store_value};
use board_instances::instance::Slot;
use board_instances::packed::PackedSlot;
use board_program::program::{Hold, LocalVariable, ResolvedNeed};
use board_work::answer::Answer;
use data_store::store::Store;
use rules::input::Input;
use smallvec::SmallVec;
use std::alloc::{AllocError, Global};
use std::process::Abort;
use values::datum_kind::DatumKind;
use values::key::{Key, KeyRef};
use values::map::Element;
use values::value::Scalar;

fn number(n: i64) -> Scalar {
    Scalar::Number(n)
}

fn element(key: i64, n: i64) -> Element {
    Element {
        key: Key::Number(key),
        value: number(n),
    }
}

/// A store with an array, which two may read and one may write.
fn with_array(alloc: Global) -> Result<Store, AllocError> {
    let mut store = Store::new(alloc);
    let array = store.new_cell(DatumKind::Keyed, 2, 1)?;
    data::reserve(&mut store, Some(array), KeyRef::Number(0), 3)?;
    Ok(store)
}

/// A scalar takes the first number alone, and has no element.
fn put_three(rt: &impl Abort, store: &mut Store, x: usize) {
    assert!(rt; data::value(store, x).is_none());
    data::set_scalar(store, x, number(4));
    store_value(store, Some(x), number(5));
    store_value(store, None, number(6));
    assert!(rt; matches!(data::value(store, x), Some(Scalar::Number(4))));
    assert!(rt; data::element(store, x, KeyRef::Number(0)).is_none());
}

#[test]
fn a_scalar_is_put_once(rt: HostRuntime) {
    let mut store = Store::new(rt.alloc());
    let x = store
        .new_cell(DatumKind::Single, 1, 1)
        .expect(&rt, "memory");
    put_three(&rt, &mut store, x);
}

/// Puts three elements into the array, in each way.
fn fill_array(rt: &impl Abort, alloc: Global, store: &mut Store) {
    data::insert(store, 0, Key::Number(9), number(1));
    store_element(store, Some(0), Key::Number(2), number(3));
    let more = Vec::from_array(alloc, [element(5, 7)]).expect(rt, "memory");
    store_all(store, Some(0), more);
}

/// The array has three elements, and one of them under 2.
fn array_is_filled(rt: &impl Abort, store: &Store) {
    is_equal(rt, data::size(store, 0), 3);
    let found = data::element(store, 0, KeyRef::Number(2));
    assert!(rt; matches!(found, Some(Scalar::Number(3))));
}

/// The element under 2 is listed first.
fn two_is_first(rt: &impl Abort, store: &Store) {
    let listed = data::listed(store, 0).expect(rt, "memory");
    let first = listed.expect(rt, "an array");
    assert!(rt;
        matches!(
            first.elements(),
            [
                Element {
                    key: Key::Number(2),
                    ..
                },
                ..
            ]
        )
    );
}

#[test]
fn an_array_has_its_elements(rt: HostRuntime) {
    let mut store = with_array(rt.alloc()).expect(&rt, "memory");
    fill_array(&rt, rt.alloc(), &mut store);
    array_is_filled(&rt, &store);
    data::sort(&mut store, Some(0)).expect(&rt, "memory");
    two_is_first(&rt, &store);
}

/// The array is closed when its last writer is, and lives on.
fn close_writers(rt: &impl Abort, store: &mut Store) {
    data::hold(store, 0, 1, 1);
    assert!(rt; !data::close_writer(store, 0));
    assert!(rt; !data::is_closed(store, 0));
    assert!(rt; data::close_writer(store, 0));
    assert!(rt; data::is_closed(store, 0) && store.len() == 1);
}

/// The array goes with its last reader.
fn release_readers(rt: &impl Abort, store: &mut Store) {
    data::release(store, 0);
    data::release(store, 0);
    data::release(store, 0);
    is_equal(rt, store.len(), 0);
}

#[test]
fn holds_come_and_go(rt: HostRuntime) {
    let mut store = with_array(rt.alloc()).expect(&rt, "memory");
    close_writers(&rt, &mut store);
    release_readers(&rt, &mut store);
}

fn open(rt: &impl Abort, alloc: Global) -> Box<Fixture> {
    opened_script(rt, alloc)
}

/// Three items hold the first datum twice each.
fn hold_thrice(rt: &impl Abort, data_state: &mut DataState) {
    let hold = Hold {
        spot: FIRST,
        reads: 2,
        writes: 0,
    };
    hold_outer(&mut data_state.store, &data_state.instances, &[hold], 0, 3);
    is_equal(rt, reads(&data_state.store), Some(7));
}

/// One read and one write of the first datum are given up, and it was no array that this closes.
fn give_up_once(rt: &impl Abort, alloc: Global, data_state: &mut DataState) {
    let mut closed = Vec::new(alloc);
    give_up(
        &mut data_state.store,
        &mut closed,
        &data_state.instances,
        0,
        &[FIRST],
        &[FIRST],
    );
    is_equal(rt, reads(&data_state.store), Some(6));
    assert!(rt; closed.is_empty());
}

#[test]
fn instances_hold_what_lies_outside(rt: HostRuntime) {
    let mut opened = open(&rt, rt.alloc());
    hold_thrice(&rt, &mut opened.data_state);
    give_up_once(&rt, rt.alloc(), &mut opened.data_state);
}

/// The holds for reading on the first datum.
fn reads(store: &Store) -> Option<u64> {
    if store.is_live(0) {
        Some(store.reads(0))
    } else {
        None
    }
}

/// The first datum has no value, which is missed.
fn first_is_missed(rt: &impl Abort, view: Environment<'_>) {
    let missing = view.missing(&ResolvedNeed::Stored(Some(FIRST)));
    assert!(rt; matches!(missing, Some(Input::Whole(0))));
    assert!(rt; view.is_missing_any(&ResolvedNeed::Stored(Some(FIRST))));
}

/// The missing inputs are listed.
fn first_is_listed(rt: &impl Abort, alloc: Global, view: Environment<'_>) {
    let mut inputs = SmallVec::new(alloc);
    let listed = view.list_missing(&[ResolvedNeed::Stored(Some(FIRST))], &mut inputs);
    assert!(rt; listed.is_ok() && inputs.len() == 1);
}

/// The first datum has its value, which is not missed.
fn first_is_known(rt: &impl Abort, view: Environment<'_>) {
    is_equal(rt, view.datum(Some(FIRST)), Some(0));
    assert!(rt; matches!(view.scalar(Some(FIRST)), Some(Scalar::Truth(true))));
    assert!(rt; view.missing(&ResolvedNeed::Stored(Some(FIRST))).is_none());
    assert!(rt; !view.is_missing_any(&ResolvedNeed::Stored(Some(FIRST))));
    assert!(rt; view.found(&ResolvedNeed::Closed(Some(FIRST))).is_none());
}

#[test]
fn an_item_misses_what_is_not_known(rt: HostRuntime) {
    let mut opened = open(&rt, rt.alloc());
    first_is_missed(&rt, opened.view());
    first_is_listed(&rt, rt.alloc(), opened.view());
    data::set_scalar(&mut opened.data_state.store, 0, Scalar::Truth(true));
    first_is_known(&rt, opened.view());
}

/// The value of the first datum is found, and the array under its number is missing, since it is a scalar.
fn are_found(found: &[Answer]) -> bool {
    matches!(found, [Answer::Found(Scalar::Truth(true)), Answer::Missing])
}

/// Two needs have their answers, in a list that had another, and no other list has.
fn two_are_answered(rt: &impl Abort, alloc: Global, view: Environment<'_>, needs: &[ResolvedNeed]) {
    let mut found = Vec::from_array(alloc, [Answer::Missing]).expect(rt, "memory");
    answers(&mut found, view, needs).expect(rt, "memory");
    assert!(rt; are_found(found.as_slice()));
    assert!(rt; are_answers(view, needs, found.as_slice()));
    assert!(rt; !are_answers(view, needs, &[]));
}

#[test]
fn needs_are_answered(rt: HostRuntime) {
    let mut opened = open(&rt, rt.alloc());
    data::set_scalar(&mut opened.data_state.store, 0, Scalar::Truth(true));
    let needs = [
        ResolvedNeed::Stored(Some(FIRST)),
        ResolvedNeed::Closed(None),
    ];
    two_are_answered(&rt, rt.alloc(), opened.view(), &needs);
}

/// The counts of a variable with `reads` reads and no write.
fn own(reads: u64) -> LocalVariable {
    LocalVariable {
        shape: DatumKind::Single,
        reads,
        writes: 0,
    }
}

/// Makes the data of three variables, the third of which is a turn's.
fn make_three(rt: &impl Abort, store: &mut Store, slots: &mut [PackedSlot]) {
    let starts = InitialValues {
        value_at: None,
        value: None,
        turn_at: Some(2),
        turn: Some(number(8)),
    };
    let made = make_data(store, &[own(1), own(0), own(1)], slots, starts);
    assert!(rt; made.is_ok());
}

/// The second variable has no reader and no writer, and the third is the variable of a turn.
#[test]
fn data_are_made_for_variables(rt: HostRuntime) {
    let mut store = Store::new(rt.alloc());
    let mut slots = [
        PackedSlot::absent(),
        PackedSlot::absent(),
        PackedSlot::absent(),
    ];
    make_three(&rt, &mut store, &mut slots);
    let made = [slots[0].slot(), slots[1].slot(), slots[2].slot()];
    let wanted = [Slot::Datum(0), Slot::Absent, Slot::Datum(1)];
    assert!(rt; made.as_slice() == wanted.as_slice());
    assert!(rt; matches!(data::value(&store, 1), Some(Scalar::Number(8))));
}
