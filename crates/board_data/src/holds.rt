//! Counts of holds: those that new instances add to outer data, and those that an item gives up.

ghost use Rattle.std.specs.Prelude.{◌≡◌, ◌*◌, ◌+◌, ◌++◌, ◌≤◌, ◌<◌, ℕ, List, length, option_map, vec_capacity, vec_len};
ghost use Rattle.board_instances.specs.Names.{datum_of, spot_slot};
ghost use Rattle.board_instances.specs.View.{frames_view};
ghost use Rattle.data_store.specs.Data.{with_holds};
ghost use Rattle.data_store.specs.Stores.{at as cell};
ghost use Rattle.board_data.specs.Data.{AreRising, held};
ghost use Rattle.board_data.specs.Holds.{Closes, Fit, GivesUp, closed_at, closing, held_at, released_at};
ghost use Rattle.board_program.specs.Tables.{hold_times, led_times};

use crate::data;
use board_instances::instance::{Instance, datum_at};
use board_program::lexical_address::LexicalAddress;
use board_program::program::Hold;
use data_store::store::Store;
use slab::Slab;

/// Adds `times` times these holds to a datum, unless a product or a sum overflows.
fn hold_times(store: &mut Store, d: usize, reads: u64, writes: u64, times: u64)
    ensures { store.new ≡ held d (times * reads) (times * writes) store.old }
{
    if let Some(reads) = times.checked_mul(reads) {
        if let Some(writes) = times.checked_mul(writes) {
            data::hold(store, d, reads, writes);
        }
    }
}

/// Adds a hold for each of `times` instances. The address is resolved from the instance with key `at`, which is one of
/// them.
fn hold_spot(store: &mut Store, instances: &Slab<Instance>, at: usize, hold: &Hold, times: u64)
    ensures { store.new ≡ held_at (datum_of (spot_slot (frames_view instances.now.slots) at hold.now.spot)) (times * hold.now.reads)
        (times * hold.now.writes) store.old }
{
    if let Some(d) = datum_at(instances, at, Some(hold.spot)) {
        hold_times(store, d, hold.reads, hold.writes, times);
    }
}

/// Removes one hold for reading from the datum at this address.
fn release_spot(store: &mut Store, instances: &Slab<Instance>, at: usize, spot: LexicalAddress)
    ensures { store.new ≡ released_at (datum_of (spot_slot (frames_view instances.now.slots) at spot)) store.old }
{
    if let Some(d) = datum_at(instances, at, Some(spot)) {
        data::release(store, d);
    }
}

/// Removes one hold for writing from the datum at this address. If this closes an array, its number is appended to
/// `closed`.
fn close_spot(
    store: &mut Store,
    closed: &mut Vec<usize>,
    instances: &Slab<Instance>,
    at: usize,
    spot: LexicalAddress,
)
    ensures store { store.new ≡ closed_at (datum_of (spot_slot (frames_view instances.now.slots) at spot)) store.old }
    ensures closed { vec_len closed.old < vec_capacity closed.old
        → closed.new.items ≡ closed.old.items ++ closing (datum_of (spot_slot (frames_view instances.now.slots) at spot)) store.old }
    ensures room { (n : ℕ) → vec_len closed.old + (n + 1) ≤ vec_capacity closed.old → vec_len closed.new + n ≤ vec_capacity closed.new }
{
    if let Some(d) = datum_at(instances, at, Some(spot)) {
        if data::close_writer(store, d) {
            let _noted = closed.push(d);
        }
    }
}

/// Adds the holds of `times` new instances of one body on data outside them. Addresses are resolved from the instance
/// with key `at`, which is one of them. A hold that would overflow a count is skipped.
pub fn hold_outer(
    store: &mut Store,
    instances: &Slab<Instance>,
    outer: &[Hold],
    at: usize,
    times: u64,
)
    ensures added { let f = spot_slot (frames_view instances.now.slots) at in (d : ℕ) →
        Fit (times * hold_times f (λ h. h.reads) d outer.now) (times * hold_times f (λ h. h.writes) d outer.now) (cell store.old d) →
        cell store.new d ≡ option_map (with_holds (times * hold_times f (λ h. h.reads) d outer.now)
        (times * hold_times f (λ h. h.writes) d outer.now)) (cell store.old d) }
    ensures rising { AreRising store.old → AreRising store.new }
{
    for hold in outer {
        hold_spot(store, instances, at, hold, times);
    }
}

/// Removes one hold for reading for each address.
fn release_all(store: &mut Store, instances: &Slab<Instance>, at: usize, reads: &[LexicalAddress])
    ensures given { GivesUp (λ d. led_times (spot_slot (frames_view instances.now.slots) at) d reads.now) (λ d. 0) store.old store.new }
    ensures rising { AreRising store.old → AreRising store.new }
{
    for spot in reads {
        release_spot(store, instances, at, *spot);
    }
}

/// Removes one hold for writing for each address, and appends the arrays that this closes to `closed`, which has room
/// for them.
fn close_all(
    store: &mut Store,
    closed: &mut Vec<usize>,
    instances: &Slab<Instance>,
    at: usize,
    writes: &[LexicalAddress],
)
    ensures store { GivesUp (λ d. 0) (λ d. led_times (spot_slot (frames_view instances.now.slots) at) d writes.now) store.old store.new }
    ensures closed { vec_len closed.old + length writes.now ≤ vec_capacity closed.old
        → (added : List ℕ) × (closed.new.items ≡ closed.old.items ++ added) × (length added ≤ length writes.now)
        × Closes (λ d. led_times (spot_slot (frames_view instances.now.slots) at) d writes.now) store.old added }
    ensures rising { AreRising store.old → AreRising store.new }
{
    for spot in writes {
        close_spot(store, closed, instances, at, *spot);
    }
}

/// Removes the holds of an item, one for each address, resolved from its instance. A datum without holds is removed.
/// The arrays that it was the last to write are appended to `closed`, which has room for them.
pub fn give_up(
    store: &mut Store,
    closed: &mut Vec<usize>,
    instances: &Slab<Instance>,
    at: usize,
    reads: &[LexicalAddress],
    writes: &[LexicalAddress],
)
    ensures store { GivesUp (λ d. led_times (spot_slot (frames_view instances.now.slots) at) d reads.now)
        (λ d. led_times (spot_slot (frames_view instances.now.slots) at) d writes.now) store.old store.new }
    ensures closed { vec_len closed.old + length writes.now ≤ vec_capacity closed.old
        → (added : List ℕ) × (closed.new.items ≡ closed.old.items ++ added) × (length added ≤ length writes.now)
        × Closes (λ d. led_times (spot_slot (frames_view instances.now.slots) at) d writes.now) store.old added }
    ensures rising { AreRising store.old → AreRising store.new }
{
    close_all(store, closed, instances, at, writes);
    release_all(store, instances, at, reads);
}
