//! The elements of an array under text keys, in a hash table.
//!
//! A list by ascending key is made on request.
ghost use Rattle.std.specs.Prelude.{IsTrue, ◌≡◌, ◌<◌, ◌≤◌, ◌+◌, ◌-◌, ◌^◌, ◌++◌, None, length, map, IfOk, IsOk, OnOk, OnErr, option_copied};
ghost use Rattle.std.specs.Bool.{OnTrue};
ghost use Rattle.values.specs.Maps.{found};
ghost use Rattle.data_store.specs.Arrays.{arranged, no_table, text_element, with_entry, with_places};

use crate::order::arrange;
use std::alloc::{AllocError, Global};
use std::collections::HashMap;
use std::marker::Model;
use values::key::Key;
use values::map::{Element, Map};
use values::text::Text;
use values::value::Scalar;

// Maximum number of elements under texts, so that the number of all elements of an array fits in 64 bits.
const MAX_TEXT_KEYS: usize = 1 << 62;

/// The elements under texts. A sorted list of them is made when it is first requested, and is then shared.
#[derive(Drop)]
pub struct TextElements {
    by_text: HashMap<Text, Scalar>,
    // All elements by ascending key, from the first call of `whole` to the next insert or growing reservation.
    sorted: Option<Map>,
    room: usize,
}

impl Model for TextElements {
    ghost use Rattle.std.specs.Prelude.{◌≤◌, ◌+◌, ◌^◌, length, map};
    ghost use Rattle.std.specs.HashMap.{spare};
    ghost use Rattle.data_store.specs.Arrays.{Table, arranged, text_element, IsKept};

    ghost Value = { Table };

    ghost view = { λ a. record { entries = arranged (map text_element a.by_text.entries); places = a.room } };

    ghost invariant = { λ a. IsKept (map text_element a.by_text.entries) (spare a.by_text) a.sorted a.room × (length a.by_text.entries + a.room ≤ 2 ^ 62) };
}

impl TextElements {
    pub fn new(alloc: Global) -> TextElements
        ensures { result ≡ no_table }
    {
        TextElements {
            by_text: HashMap::new(alloc),
            sorted: None,
            room: 0,
        }
    }

    pub fn len(&self) -> usize
        ensures len { result ≡ length self.now.entries }
        ensures small { result ≤ 2 ^ 62 }
    {
        self.by_text.len()
    }

    pub fn get(&self, text: &Text) -> Option<&Scalar>
        ensures { option_copied result ≡ found (Key.Text text.now) self.now.entries }
    {
        self.by_text.get(text)
    }

    pub fn reserve(&mut self, n: usize) -> Result<(), AllocError>
        ensures ok { OnOk result (self.new ≡ with_places n self.old) }
        ensures succeeds { n ≤ self.old.places → IsOk result }
        ensures err { OnErr result (self.new ≡ self.old) }
    {
        if self.room < n {
            if n > MAX_TEXT_KEYS - self.by_text.len() {
                return Err(AllocError);
            }
            self.by_text.reserve(n)?;
            self.sorted = None;
            self.room = n;
        }
        Ok(())
    }

    pub fn insert(&mut self, text: Text, value: Scalar) -> Result<(), AllocError>
        requires { found (Key.Text text) self.old.entries ≡ None }
        ensures ok { OnOk result (self.new ≡ with_entry (Key.Text text) value self.old) }
        ensures succeeds { 0 < self.old.places → IsOk result }
        ensures err { OnErr result (self.new ≡ self.old) }
    {
        if !has_place(self.by_text.len(), self.room) {
            return Err(AllocError);
        }
        self.by_text.insert(text, value)?;
        self.sorted = None;
        self.room = self.room.saturating_sub(1);
        Ok(())
    }

    pub fn listed(&self, alloc: Global) -> Result<Map, AllocError>
        ensures { IfOk result (λ map. map ≡ self.now.entries) }
    {
        if let Some(map) = &self.sorted {
            return map.share();
        }
        Map::new(alloc, sorted(alloc, &self.by_text)?)
    }

    pub fn whole(&mut self, alloc: Global) -> Result<Map, AllocError>
        ensures whole { IfOk result (λ map. map ≡ self.old.entries) }
        ensures same { self.new ≡ self.old }
    {
        if let Some(map) = &self.sorted {
            return map.share();
        }
        let map = Map::new(alloc, sorted(alloc, &self.by_text)?)?;
        let shared = map.share()?;
        self.sorted = Some(map);
        Ok(shared)
    }
}

// Returns true if one more element is within the maximum, given the number of elements and the room.
fn has_place(len: usize, room: usize) -> bool
    requires { len + room ≤ 2 ^ 62 }
    ensures more { OnTrue result (len + 1 + (room - 1) ≤ 2 ^ 62) }
    ensures promised { 0 < room → IsTrue result }
{
    room > 0 || len < MAX_TEXT_KEYS
}

// Returns the elements of a table, by ascending key.
fn sorted(alloc: Global, by_text: &HashMap<Text, Scalar>) -> Result<Vec<Element>, AllocError>
    requires { length (arranged (map text_element by_text.now.entries)) ≡ length (map text_element by_text.now.entries) }
    ensures { IfOk result (λ list. list.items ≡ arranged (map text_element by_text.now.entries)) }
{
    let mut list = Vec::with_capacity(alloc, by_text.len())?;
    append_to(&mut list, by_text)?;
    arrange(&mut list);
    Ok(list)
}

// Appends the elements of a table to the list, in the order of the table.
fn append_to(list: &mut Vec<Element>, by_text: &HashMap<Text, Scalar>) -> Result<(), AllocError>
    ensures { OnOk result (list.new.items ≡ list.old.items ++ map text_element by_text.now.entries) }
{
    for (text, value) in by_text {
        list.push(Element {
            key: Key::Text(text.share()?),
            value: value.share()?,
        })?;
    }
    Ok(())
}
