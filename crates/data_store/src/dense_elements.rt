//! The elements of an array under small keys, each in the slot whose index is its key.
ghost use Rattle.std.specs.Prelude.{◌≡◌, ◌≢◌, ℕ, pos, MatchOption, slice_index_or, ◌++◌, ◌∷◌, ◌<◌, ◌≤◌, ◌^◌, [], None, length, map, vec_len, IfNone, IfSome, OnOk, option_copied};
ghost use Rattle.std.specs.Bool.{OnTrue};
ghost use Rattle.std.specs.Map.{lookup};
ghost use Rattle.std.specs.Ordering.{int_eq};
ghost use Rattle.data_store.specs.Arrays.{number_element};
ghost use Rattle.data_store.specs.Filled.{filled, IsPut};

use std::alloc::{AllocError, Global};
use std::marker::Model;
use values::key::Key;
use values::map::Element;
use values::value::Scalar;

// Slack of the density test: about this number of slots may exist while none is occupied.
const DENSITY_SLACK: usize = 64;

/// Elements under keys from 0 to 2^32 - 1, in a vector of slots. The keys 0, 1, 2 and so on are adjacent, in whatever
/// order they are inserted.
#[derive(Drop)]
pub struct DenseElements {
    slots: Vec<Option<Scalar>>,
    // Number of occupied slots.
    len: usize,
}

impl Model for DenseElements {
    ghost use Rattle.std.specs.Prelude.{◌≡◌, ◌≤◌, ◌^◌, ℤ, List, length};
    ghost use Rattle.values.specs.declared.value.Scalar.{Scalar};
    ghost use Rattle.data_store.specs.Filled.{filled};

    ghost Value = { List (ℤ × Scalar) };

    ghost view = { λ a. filled 0 a.slots.items };

    ghost invariant = { λ a. (a.len ≡ length (filled 0 a.slots.items)) × (length a.slots.items ≤ 2 ^ 32) };
}

impl DenseElements {
    pub fn new(alloc: Global) -> DenseElements
        ensures { result ≡ [] }
    {
        DenseElements {
            slots: Vec::new(alloc),
            len: 0,
        }
    }

    pub fn len(&self) -> usize
        ensures len { result ≡ length self.now }
        ensures small { result ≤ 2 ^ 32 }
    {
        self.len
    }

    pub fn get(&self, key: i64) -> Option<&Scalar>
        ensures { option_copied result ≡ lookup (int_eq key) self.now }
    {
        match place_of(key) {
            Some(place) => at(self.slots.as_slice(), place),
            None => None,
        }
    }

    /// Adds an element under a key that has none. Returns the scalar if there is no slot for it.
    pub fn put(&mut self, key: i64, value: Scalar) -> Option<Scalar>
        requires { lookup (int_eq key) self.old ≡ None }
        ensures added { IfNone result (IsPut key value self.old self.new) }
        ensures left { IfSome result (λ back. (back ≡ value) × (self.new ≡ self.old)) }
    {
        let Some(place) = place_of(key) else {
            return Some(value);
        };
        if !make_slot(&mut self.slots, self.len, place) {
            return Some(value);
        }
        self.slots[place] = Some(value);
        self.len += 1;
        None
    }

    /// Appends all elements to the list, by ascending key.
    pub fn append_to(&self, list: &mut Vec<Element>) -> Result<(), AllocError>
        ensures { OnOk result (list.new.items ≡ list.old.items ++ map number_element self.now) }
    {
        for place in 0..self.slots.len() {
            append(list, place, &self.slots[place])?;
        }
        Ok(())
    }
}

// Returns the index of the slot of a key, or `None` for a negative key or one of 2^32 or more.
fn place_of(key: i64) -> Option<usize>
    ensures { MatchOption result ((j : ℕ) → j < 2 ^ 32 → key ≢ pos j) (λ j. (j < 2 ^ 32) × (key ≡ pos j)) }
{
    match u32::try_from(key) {
        Ok(place) => Some(place as usize),
        Err(_) => None,
    }
}

// Returns the contents of the slot at an index.
fn at(slots: &[Option<Scalar>], place: usize) -> Option<&Scalar>
    ensures { option_copied result ≡ slice_index_or slots.now place None }
{
    match slots.get(place) {
        Some(slot) => slot.as_ref(),
        None => None,
    }
}

// Creates the slot at an index, and returns true, if about half of all slots are then occupied and memory is available.
#[tactic(auto, using(crate::proofs::Filled::one_slot_more))]
fn make_slot(slots: &mut Vec<Option<Scalar>>, taken: usize, place: usize) -> bool
    ensures same { filled 0 slots.new.items ≡ filled 0 slots.old.items }
    ensures few { place < 2 ^ 32 → vec_len slots.old ≤ 2 ^ 32 → vec_len slots.new ≤ 2 ^ 32 }
    ensures there { OnTrue result (place < vec_len slots.new) }
{
    if place / 2 > taken.saturating_add(DENSITY_SLACK / 2) {
        return false;
    }
    while slots.len() <= place {
        if slots.push(None).is_err() {
            return false;
        }
    }
    true
}

// Appends the contents of a slot to the list, if it is occupied.
fn append(list: &mut Vec<Element>, place: usize, slot: &Option<Scalar>) -> Result<(), AllocError>
    requires { place < 2 ^ 63 }
    ensures { OnOk result (list.new.items ≡ list.old.items ++ map number_element (filled place (slot.now ∷ []))) }
{
    if let Some(value) = slot {
        list.push(Element {
            key: Key::Number(place as i64),
            value: value.share()?,
        })?;
    }
    Ok(())
}
