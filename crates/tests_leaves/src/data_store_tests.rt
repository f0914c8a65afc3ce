//! Each call of `data_store` on a plain case.
ghost use Rattle.data_store.specs.Stores.{IsArrayAt, IsScalarAt};

use crate::asserts::{boxed, holds, is_equal};
use data_store::refusal::StoreRefusal;
use data_store::store::{DatumNo, Store};
use std::alloc::Global;
use std::process::Abort;
use values::datum_kind::DatumKind;
use values::key::{Key, KeyRef};
use values::text::Text;
use values::value::Scalar;

/// A store without data.
fn no_data(rt: &impl Abort, alloc: Global) -> Box<Store> {
    boxed(rt, alloc, Store::new(alloc))
}

/// A scalar with one read and this many writes to come.
fn scalar(rt: &impl Abort, store: &mut Store, writes: u64) -> DatumNo
    ensures { IsScalarAt store.new result }
{
    store
        .new_cell(DatumKind::Single, 1, writes)
        .expect(rt, "memory")
}

/// An array with one read and this many writes to come.
fn array(rt: &impl Abort, store: &mut Store, writes: u64) -> DatumNo
    ensures { IsArrayAt store.new result }
{
    store
        .new_cell(DatumKind::Keyed, 1, writes)
        .expect(rt, "memory")
}

/// A put of this number ends so.
fn puts(rt: &impl Abort, store: &mut Store, d: DatumNo, n: i64, end: Result<(), StoreRefusal>)
    requires { IsScalarAt store.old d }
    ensures { IsScalarAt store.new d }
{
    is_equal(rt, store.put(d, Scalar::Number(n)), end);
}

/// An insert of this number under this key ends so.
fn inserts(
    rt: &impl Abort,
    store: &mut Store,
    d: DatumNo,
    key: i64,
    n: i64,
    end: Result<(), StoreRefusal>,
)
    requires { IsArrayAt store.old d }
    ensures { IsArrayAt store.new d }
{
    is_equal(
        rt,
        store.insert(d, Key::Number(key), Scalar::Number(n)),
        end,
    );
}

fn number(scalar: Option<&Scalar>) -> Option<i64> {
    match scalar {
        Some(Scalar::Number(n)) => Some(*n),
        _ => None,
    }
}

// The sum of key times place, from place 1 on.
fn order_of(map: &values::map::Map) -> i64 {
    let mut place = 0i64;
    let mut sum = 0i64;
    for element in map.elements() {
        place = place.wrapping_add(1);
        if let Key::Number(n) = &element.key {
            sum = sum.wrapping_add(n.wrapping_mul(place));
        }
    }
    sum
}

/// The list that is kept has its elements in this order.
fn whole_has_order(rt: &impl Abort, store: &mut Store, d: DatumNo, order: i64)
    requires { IsArrayAt store.old d }
    ensures { IsArrayAt store.new d }
{
    let map = store.whole(d).expect(rt, "memory");
    is_equal(rt, order_of(&map), order);
}

/// A list made for this call has its elements in this order.
fn listed_has_order(rt: &impl Abort, store: &Store, d: DatumNo, order: i64)
    requires { IsArrayAt store.now d }
{
    let map = store.listed(d).expect(rt, "memory");
    is_equal(rt, order_of(&map), order);
}

fn hold(store: &mut Store, d: DatumNo) {
    if store.is_live(d) && store.reads(d) < 9 && store.writes(d) > 0 && store.writes(d) < 9 {
        store.hold(d, 1, 1);
    }
}

fn release(store: &mut Store, d: DatumNo) {
    if store.is_live(d) && store.reads(d) > 0 {
        store.release(d);
    }
}

fn close(store: &mut Store, d: DatumNo) {
    if store.is_live(d) && store.writes(d) > 0 {
        store.close_writer(d);
    }
}

/// A scalar has no value, takes one and refuses a second.
fn put_twice(rt: &impl Abort, store: &mut Store, d: DatumNo)
    requires { IsScalarAt store.old d }
{
    is_equal(rt, number(store.value(d)), None);
    puts(rt, store, d, 7, Ok(()));
    puts(rt, store, d, 8, Err(StoreRefusal::AlreadySet));
    is_equal(rt, number(store.value(d)), Some(7));
}

#[test]
fn a_scalar_is_written_once(rt: HostRuntime) {
    let mut store = no_data(&rt, rt.alloc());
    let d = scalar(&rt, &mut store, 1);
    put_twice(&rt, &mut store, d);
}

/// Elements under three keys, which do not rise, and one more under a key that has one.
fn insert_four(rt: &impl Abort, store: &mut Store, d: DatumNo)
    requires { IsArrayAt store.old d }
    ensures { IsArrayAt store.new d }
{
    inserts(rt, store, d, 5, 50, Ok(()));
    inserts(rt, store, d, -3, 30, Ok(()));
    inserts(rt, store, d, 2, 20, Ok(()));
    inserts(rt, store, d, 5, 51, Err(StoreRefusal::ElementTwice));
}

/// The number under a key.
fn number_under(store: &Store, d: DatumNo, key: i64) -> Option<i64>
    requires { IsArrayAt store.now d }
{
    number(store.element(d, KeyRef::Number(key)))
}

/// The three elements have their keys.
fn has_three(rt: &impl Abort, store: &Store, d: DatumNo)
    requires { IsArrayAt store.now d }
{
    is_equal(rt, store.size(d), 3);
    is_equal(rt, number_under(store, d, 5), Some(50));
    is_equal(rt, number_under(store, d, 4), None);
}

/// The three elements stand in their order, each time that they are asked for.
fn whole_rises(rt: &impl Abort, store: &mut Store, d: DatumNo)
    requires { IsArrayAt store.old d }
{
    whole_has_order(rt, store, d, 16);
    whole_has_order(rt, store, d, 16);
}

#[test]
fn elements_come_by_rising_key(rt: HostRuntime) {
    let mut store = no_data(&rt, rt.alloc());
    let d = array(&rt, &mut store, 1);
    insert_four(&rt, &mut store, d);
    has_three(&rt, &store, d);
    whole_rises(&rt, &mut store, d);
}

/// An insert of this number under this text ends so.
fn inserts_at_text(
    rt: &impl Abort,
    store: &mut Store,
    d: DatumNo,
    text: Text,
    n: i64,
    end: Result<(), StoreRefusal>,
)
    requires { IsArrayAt store.old d }
    ensures { IsArrayAt store.new d }
{
    is_equal(rt, store.insert(d, Key::Text(text), Scalar::Number(n)), end);
}

fn text(rt: &impl Abort, alloc: Global, bytes: &[u8]) -> Text {
    Text::from_slice(alloc, bytes).expect(rt, "memory")
}

/// Elements under two texts that begin alike, and one more under the first.
fn insert_three_texts(rt: &impl Abort, alloc: Global, store: &mut Store, d: DatumNo)
    requires { IsArrayAt store.old d }
    ensures { IsArrayAt store.new d }
{
    inserts_at_text(rt, store, d, text(rt, alloc, b"longname2"), 20, Ok(()));
    inserts_at_text(rt, store, d, text(rt, alloc, b"longname1"), 10, Ok(()));
    let again = Err(StoreRefusal::ElementTwice);
    inserts_at_text(rt, store, d, text(rt, alloc, b"longname2"), 21, again);
}

/// The number under a text.
fn number_at_text(store: &Store, d: DatumNo, text: &Text) -> Option<i64>
    requires { IsArrayAt store.now d }
{
    number(store.element(d, KeyRef::Text(text)))
}

/// The two elements have their texts, and stand in the order of these.
fn has_two_texts(rt: &impl Abort, alloc: Global, store: &mut Store, d: DatumNo)
    requires { IsArrayAt store.old d }
{
    is_equal(rt, store.size(d), 2);
    is_equal(
        rt,
        number_at_text(store, d, &text(rt, alloc, b"longname1")),
        Some(10),
    );
    is_equal(
        rt,
        number_at_text(store, d, &text(rt, alloc, b"longname")),
        None,
    );
    is_equal(rt, number_under(store, d, 1), None);
    let map = store.whole(d).expect(rt, "memory");
    is_equal(rt, first_number(&map), Some(10));
}

/// The number of the first element.
fn first_number(map: &values::map::Map) -> Option<i64> {
    match map.elements().first() {
        Some(element) => number(Some(&element.value)),
        None => None,
    }
}

#[test]
fn texts_are_keys_by_all_their_bytes(rt: HostRuntime) {
    let mut store = no_data(&rt, rt.alloc());
    let d = array(&rt, &mut store, 1);
    insert_three_texts(&rt, rt.alloc(), &mut store, d);
    has_two_texts(&rt, rt.alloc(), &mut store, d);
}

/// A closed array refuses an element, and room may be laid by in it.
fn insert_into_closed(rt: &impl Abort, store: &mut Store, d: DatumNo)
    requires { IsArrayAt store.old d }
{
    holds(rt, store.is_closed(d));
    inserts(rt, store, d, 1, 1, Err(StoreRefusal::Closed));
    store.reserve(d, 4).expect(rt, "memory");
    is_equal(rt, store.len(), 1);
}

#[test]
fn no_element_comes_when_closed(rt: HostRuntime) {
    let mut store = no_data(&rt, rt.alloc());
    let d = array(&rt, &mut store, 0);
    insert_into_closed(&rt, &mut store, d);
}

/// The datum is alive, and closed or not.
fn is_alive(rt: &impl Abort, store: &Store, d: DatumNo, closed: bool) {
    holds(rt, store.is_live(d) && store.is_closed(d) == closed);
}

/// The array lives until the last read and write are given up.
fn give_up_all(rt: &impl Abort, store: &mut Store, d: DatumNo) {
    hold(store, d);
    close(store, d);
    release(store, d);
    is_alive(rt, store, d, false);
    close(store, d);
    is_alive(rt, store, d, true);
    release(store, d);
    is_equal(rt, (store.is_live(d), store.len()), (false, 0));
}

#[test]
fn the_last_hold_frees(rt: HostRuntime) {
    let mut store = no_data(&rt, rt.alloc());
    store.reserve_cells(2).expect(&rt, "memory");
    let d = array(&rt, &mut store, 1);
    assert!(rt; d < store.bound());
    give_up_all(&rt, &mut store, d);
}

/// The letter of the shape that a number tells, if it tells one.
fn letter(store: &Store, d: DatumNo) -> Option<u8> {
    match store.shape(d) {
        Some(DatumKind::Single) => Some(b's'),
        Some(DatumKind::Keyed) => Some(b'k'),
        None => None,
    }
}

/// A cell of each shape tells it.
fn both_tell(rt: &impl Abort, store: &Store, scalar: DatumNo, array: DatumNo) {
    is_equal(rt, letter(store, scalar), Some(b's'));
    is_equal(rt, letter(store, array), Some(b'k'));
}

/// Neither a freed scalar nor a number that was never allocated has a shape.
fn none_tells(rt: &impl Abort, store: &mut Store, scalar: DatumNo) {
    release(store, scalar);
    is_equal(rt, letter(store, scalar), None);
    is_equal(rt, letter(store, 77), None);
}

#[test]
fn a_number_tells_its_shape(rt: HostRuntime) {
    let mut store = no_data(&rt, rt.alloc());
    let single = scalar(&rt, &mut store, 0);
    let keyed = array(&rt, &mut store, 1);
    both_tell(&rt, &store, single, keyed);
    none_tells(&rt, &mut store, single);
}

/// An array that nothing was put into is listed empty.
fn list_none(rt: &impl Abort, store: &Store, d: DatumNo)
    requires { IsArrayAt store.now d }
{
    let map = store.listed(d).expect(rt, "memory");
    is_equal(rt, map.elements().len(), 0);
}

/// Two elements, listed before `whole` has made a list, as that list and with it.
fn list_two(rt: &impl Abort, store: &mut Store, d: DatumNo)
    requires { IsArrayAt store.old d }
    ensures { IsArrayAt store.new d }
{
    inserts(rt, store, d, 5, 50, Ok(()));
    inserts(rt, store, d, -3, 30, Ok(()));
    listed_has_order(rt, store, d, 7);
    whole_has_order(rt, store, d, 7);
    listed_has_order(rt, store, d, 7);
}

/// One element more is listed too.
fn list_one_more(rt: &impl Abort, store: &mut Store, d: DatumNo)
    requires { IsArrayAt store.old d }
{
    inserts(rt, store, d, 2, 20, Ok(()));
    listed_has_order(rt, store, d, 16);
}

// Before `whole` has made a list, with that list, and after the next insert.
#[test]
fn elements_are_listed_by_rising_key(rt: HostRuntime) {
    let mut store = no_data(&rt, rt.alloc());
    let d = array(&rt, &mut store, 1);
    list_none(&rt, &store, d);
    list_two(&rt, &mut store, d);
    list_one_more(&rt, &mut store, d);
}
