//! Times of the data store.
ghost use Rattle.std.specs.Bool.{OnTrue};
ghost use Rattle.data_store.specs.Stores.{IsArrayAt};

use crate::watch::tell;
use data_store::store::{DatumNo, Store};
use std::alloc::{AllocError, Global};
use std::io;
use std::time::{Clock, Instant};
use values::datum_kind::DatumKind;
use values::key::{Key, KeyRef};
use values::value::Scalar;

/// Makes `count` scalars with a value each, of one reader.
fn make_all(alloc: Global, store: &mut Store, count: u64) -> Result<Vec<DatumNo>, AllocError> {
    let mut made = Vec::new(alloc);
    for _number in 0..count {
        let d = store.new_cell(DatumKind::Single, 1, 0)?;
        let _put = store.put(d, Scalar::Number(5));
        made.push(d)?;
    }
    Ok(made)
}

/// Releases the hold on each.
fn free_all(store: &mut Store, made: &[DatumNo]) {
    for d in made {
        if store.is_live(*d) && store.reads(*d) > 0 {
            store.release(*d);
        }
    }
}

/// The keys from 0 on, or, where they are scattered, keys of any size.
fn key_of(number: u64, scattered: bool) -> i64 {
    if scattered {
        (number.wrapping_mul(0x9e37_79b9_7f4a_7c15) >> 1) as i64
    } else {
        (number & 0x7fff_ffff_ffff_ffff) as i64
    }
}

/// Inserts `count` elements. Returns their number.
fn insert_all(store: &mut Store, d: DatumNo, count: u64, scattered: bool) -> u64
    requires { IsArrayAt store.old d }
    ensures { IsArrayAt store.new d }
{
    let mut inserted = 0u64;
    for number in 0..count {
        let key = Key::Number(key_of(number, scattered));
        if store.insert(d, key, Scalar::Number(5)).is_ok() {
            inserted = inserted.wrapping_add(1);
        }
    }
    inserted
}

/// Looks `count` keys up. Returns the number of those found.
fn find_all(store: &Store, d: DatumNo, count: u64, scattered: bool) -> u64
    requires { IsArrayAt store.now d }
{
    let mut found = 0u64;
    for number in 0..count {
        let key = KeyRef::Number(key_of(number, scattered));
        if store.element(d, key).is_some() {
            found = found.wrapping_add(1);
        }
    }
    found
}

/// A store, and the numbers of its scalars.
#[derive(Drop)]
struct Batch {
    store: Store,
    made: Vec<DatumNo>,
}

/// Makes a number of stores with the same number of scalars each.
fn make_batches(alloc: Global, batches: u64, count: u64) -> Result<Vec<Batch>, AllocError> {
    let mut all = Vec::new(alloc);
    for _batch in 0..batches {
        let mut store = Store::new(alloc);
        let made = make_all(alloc, &mut store, count)?;
        all.push(Batch { store, made })?;
    }
    Ok(all)
}

/// Releases the holds on the scalars of each store. Returns the number of those that are left.
fn free_batches(batches: &mut [Batch]) -> usize {
    let mut left = 0usize;
    for batch in batches.iter_mut() {
        free_all(&mut batch.store, batch.made.as_slice());
        left = left.wrapping_add(batch.store.len());
    }
    left
}

/// Returns true if a number has an array.
fn is_array(store: &Store, d: DatumNo) -> bool
    ensures { OnTrue result (IsArrayAt store.now d) }
{
    match store.shape(d) {
        Some(DatumKind::Keyed) => true,
        _ => false,
    }
}

/// Makes a number of arrays with the same number of elements each. Returns the number of elements.
fn fill_arrays(
    store: &mut Store,
    filled: &mut Vec<DatumNo>,
    arrays: u64,
    count: u64,
    scattered: bool,
) -> Result<u64, AllocError> {
    let mut inserted = 0u64;
    for _array in 0..arrays {
        let d = store.new_cell(DatumKind::Keyed, 1, 1)?;
        inserted = insert_all(store, d, count, scattered).wrapping_add(inserted);
        filled.push(d)?;
    }
    Ok(inserted)
}

/// Looks a number of keys up in each array. Returns the number of those found.
fn find_each(store: &Store, filled: &[DatumNo], count: u64, scattered: bool) -> u64 {
    let mut found = 0u64;
    for d in filled {
        if is_array(store, *d) {
            found = find_all(store, *d, count, scattered).wrapping_add(found);
        }
    }
    found
}

/// Reads each array as a whole. Returns the number of elements.
fn list_each(store: &mut Store, filled: &[DatumNo]) -> Result<usize, AllocError> {
    let mut listed = 0usize;
    for d in filled {
        if is_array(store, *d) {
            listed = store.whole(*d)?.len().wrapping_add(listed);
        }
    }
    Ok(listed)
}

/// Prints the times of a million scalars made and freed, `count` in each store.
fn time_cells(
    rt: &(impl Clock + Print),
    alloc: Global,
    batches: u64,
    count: u64,
) -> io::Result<()> {
    let start = Instant::now(rt)?;
    let mut all = make_batches(alloc, batches, count)?;
    tell(rt, start, "cells made", batches, count)?;
    let start = Instant::now(rt)?;
    let left = free_batches(all.as_mut_slice());
    tell(
        rt,
        start,
        "cells freed, and those left",
        batches,
        left as u64,
    )
}

/// Prints the times of a million inserts, of look-ups, and of the first call for each whole array, with `count` elements in each.
fn time_inserts(
    rt: &(impl Clock + Print),
    alloc: Global,
    arrays: u64,
    count: u64,
    scattered: bool,
) -> io::Result<()> {
    let mut store = Store::new(alloc);
    time_store(rt, alloc, &mut store, arrays, count, scattered)
}

/// Prints the times of an empty store.
fn time_store(
    rt: &(impl Clock + Print),
    alloc: Global,
    store: &mut Store,
    arrays: u64,
    count: u64,
    scattered: bool,
) -> io::Result<()> {
    let filled = time_fills(rt, alloc, store, arrays, count, scattered)?;
    let start = Instant::now(rt)?;
    let found = find_each(store, filled.as_slice(), count, scattered);
    tell(rt, start, "elements found", arrays, found)?;
    let start = Instant::now(rt)?;
    let listed = list_each(store, filled.as_slice())?;
    tell(rt, start, "elements sorted", arrays, listed as u64)
}

/// Prints the time of inserts, and returns the arrays.
fn time_fills(
    rt: &(impl Clock + Print),
    alloc: Global,
    store: &mut Store,
    arrays: u64,
    count: u64,
    scattered: bool,
) -> io::Result<Vec<DatumNo>> {
    let mut filled = Vec::new(alloc);
    let start = Instant::now(rt)?;
    let inserted = fill_arrays(store, &mut filled, arrays, count, scattered)?;
    tell(rt, start, keys_of(scattered), arrays, inserted)?;
    Ok(filled)
}

fn keys_of(scattered: bool) -> &'static str {
    if scattered {
        "elements inserted at scattered keys"
    } else {
        "elements inserted at rising keys"
    }
}

/// Prints the times of a million cells and elements, 1,000 to 1,000,000 in each store or array. All are kept, so that
/// each size touches as much memory for the first time.
pub fn time(rt: &(impl Clock + Print), alloc: Global) -> io::Result<()> {
    for (parts, count) in [
        (1_000u64, 1_000u64),
        (100, 10_000),
        (10, 100_000),
        (1, 1_000_000),
    ] {
        time_cells(rt, alloc, parts, count)?;
        time_inserts(rt, alloc, parts, count, false)?;
        time_inserts(rt, alloc, parts, count, true)?;
    }
    Ok(())
}
