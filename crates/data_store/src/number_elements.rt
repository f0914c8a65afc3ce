//! The elements of an array under number keys: slots for small keys and a hash table for the others.
//!
//! A list by ascending key is made on request.
ghost use Rattle.std.specs.Prelude.{◌≡◌, ◌<◌, ◌≤◌, ◌+◌, ◌^◌, ◌++◌, None, length, map, IfOk, IsOk, OnOk, OnErr, option_copied};
ghost use Rattle.std.specs.HashMap.{spare};
ghost use Rattle.std.specs.Map.{lookup};
ghost use Rattle.std.specs.Ordering.{int_eq};
ghost use Rattle.values.specs.Maps.{found};
ghost use Rattle.data_store.specs.Arrays.{arranged, limited, no_table, number_element, with_entry, with_places};
ghost use Rattle.data_store.specs.Filled.{IsPut};

use crate::dense_elements::DenseElements;
use crate::order::arrange;
use std::alloc::{AllocError, Global};
use std::collections::HashMap;
use std::marker::Model;
use values::key::Key;
use values::map::{Element, Map};
use values::value::Scalar;

/// The elements under numbers. A sorted list of them is made when it is first requested, and is then shared.
#[derive(Drop)]
pub struct NumberElements {
    // The elements under small keys, if their slots are dense and there is memory for them.
    slots: DenseElements,
    // The other elements. The table has spare capacity for the whole room, so an element without a slot finds a place.
    by_key: HashMap<i64, Scalar>,
    // All elements by ascending key, from the first call of `whole` to the next insert or growing reservation.
    sorted: Option<Map>,
    room: usize,
}

impl Model for NumberElements {
    ghost use Rattle.std.specs.Prelude.{◌++◌, map};
    ghost use Rattle.std.specs.HashMap.{spare};
    ghost use Rattle.data_store.specs.Arrays.{Table, arranged, number_element, IsKept};

    ghost Value = { Table };

    ghost view = { λ a. record { entries = arranged (map number_element (a.slots ++ a.by_key.entries)); places = a.room } };

    ghost invariant = { λ a. IsKept (map number_element (a.slots ++ a.by_key.entries)) (spare a.by_key) a.sorted a.room };
}

impl NumberElements {
    pub fn new(alloc: Global) -> NumberElements
        ensures { result ≡ no_table }
    {
        NumberElements {
            slots: DenseElements::new(alloc),
            by_key: HashMap::new(alloc),
            sorted: None,
            room: 0,
        }
    }

    pub fn len(&self) -> usize
        ensures len { result ≡ length self.now.entries }
        ensures small { result < 2 ^ 63 + 2 ^ 32 }
    {
        self.slots.len() + self.by_key.len()
    }

    pub fn get(&self, n: i64) -> Option<&Scalar>
        ensures { option_copied result ≡ found (Key.Number n) self.now.entries }
    {
        match self.slots.get(n) {
            Some(value) => Some(value),
            None => in_table(&self.by_key, n),
        }
    }

    pub fn reserve(&mut self, n: usize) -> Result<(), AllocError>
        ensures ok { OnOk result (self.new ≡ with_places n self.old) }
        ensures succeeds { n ≤ self.old.places → IsOk result }
        ensures err { OnErr result (self.new ≡ self.old) }
    {
        if self.room < n {
            self.by_key.reserve(n)?;
            self.sorted = None;
            self.room = n;
        }
        Ok(())
    }

    /// Returns the number of further elements that are sure to find memory.
    pub fn places(&self) -> usize
        ensures { result ≡ self.now.places }
    {
        self.room
    }

    /// Reduces the room that `reserve` promised to this number of elements.
    pub fn limit(&mut self, places: usize)
        requires { places ≤ self.old.places }
        ensures { self.new ≡ limited places self.old }
    {
        self.room = places;
    }

    pub fn insert(&mut self, n: i64, value: Scalar) -> Result<(), AllocError>
        requires { found (Key.Number n) self.old.entries ≡ None }
        ensures ok { OnOk result (self.new ≡ with_entry (Key.Number n) value self.old) }
        ensures succeeds { 0 < self.old.places → IsOk result }
        ensures err { OnErr result (self.new ≡ self.old) }
    {
        put(&mut self.slots, &mut self.by_key, n, value)?;
        self.sorted = None;
        self.room = self.room.saturating_sub(1);
        Ok(())
    }

    pub fn listed(&self, alloc: Global) -> Result<Map, AllocError>
        ensures { IfOk result (λ map. map ≡ self.now.entries) }
    {
        if let Some(map) = &self.sorted {
            return map.share();
        }
        Map::new(alloc, sorted(alloc, &self.slots, &self.by_key)?)
    }

    pub fn whole(&mut self, alloc: Global) -> Result<Map, AllocError>
        ensures whole { IfOk result (λ map. map ≡ self.old.entries) }
        ensures same { self.new ≡ self.old }
    {
        if let Some(map) = &self.sorted {
            return map.share();
        }
        let map = Map::new(alloc, sorted(alloc, &self.slots, &self.by_key)?)?;
        let shared = map.share()?;
        self.sorted = Some(map);
        Ok(shared)
    }
}

// Returns the scalar under a key of a table. If the table is empty, as it is when all keys have slots, the key is not
// hashed.
#[inline(always)]
fn in_table(by_key: &HashMap<i64, Scalar>, key: i64) -> Option<&Scalar>
    ensures { option_copied result ≡ lookup (int_eq key) by_key.now.entries }
{
    if by_key.is_empty() {
        return None;
    }
    by_key.get(&key)
}

// Adds an element under a key that has none: in a slot, if there is one for it, and otherwise in the table.
fn put(
    slots: &mut DenseElements,
    by_key: &mut HashMap<i64, Scalar>,
    key: i64,
    value: Scalar,
) -> Result<(), AllocError>
    requires { lookup (int_eq key) (slots.old ++ by_key.old.entries) ≡ None }
    ensures ok { OnOk result (IsPut key value (slots.old ++ by_key.old.entries) (slots.new ++ by_key.new.entries)) }
    ensures succeeds { 0 < spare by_key.old → IsOk result }
    ensures spare { spare by_key.old ≤ spare by_key.new + 1 }
    ensures err { OnErr result ((slots.new ≡ slots.old) × (by_key.new.entries ≡ by_key.old.entries)) }
{
    match slots.put(key, value) {
        None => Ok(()),
        Some(value) => {
            by_key.insert(key, value)?;
            Ok(())
        }
    }
}

// Returns the elements in slots and in a table, by ascending key.
fn sorted(
    alloc: Global,
    slots: &DenseElements,
    by_key: &HashMap<i64, Scalar>,
) -> Result<Vec<Element>, AllocError>
    requires { length (arranged (map number_element (slots.now ++ by_key.now.entries))) ≡ length (map number_element (slots.now ++ by_key.now.entries)) }
    ensures { IfOk result (λ list. list.items ≡ arranged (map number_element (slots.now ++ by_key.now.entries))) }
{
    let mut list = Vec::with_capacity(alloc, slots.len() + by_key.len())?;
    slots.append_to(&mut list)?;
    append_to(&mut list, by_key)?;
    arrange(&mut list);
    Ok(list)
}

// Appends the elements of a table to the list, in the order of the table.
fn append_to(list: &mut Vec<Element>, by_key: &HashMap<i64, Scalar>) -> Result<(), AllocError>
    ensures { OnOk result (list.new.items ≡ list.old.items ++ map number_element by_key.now.entries) }
{
    for (key, value) in by_key {
        list.push(Element {
            key: Key::Number(*key),
            value: value.share()?,
        })?;
    }
    Ok(())
}
