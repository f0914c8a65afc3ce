//! The missing inputs of an item that misses more than two, with an index for long lists.
ghost use Rattle.std.specs.Prelude.{◌≡◌, ◌<◌, ℕ, true, false, not, length, filter, IfOk, IfSome};
ghost use Rattle.std.specs.Bool.{OnTrue};
ghost use Rattle.std.specs.List.{list_any};
ghost use Rattle.rules.specs.Inputs.{covers};
ghost use Rattle.rules.specs.Many.{AreNoted, IsFresh, IsIndexed, Marks, index_in, input_at, is_known, known_in, knows, left_in, left_of};
ghost use Rattle.rules.specs.Places.{Grows, IsAt, is_at};

use crate::input::Input;
use crate::subscribers::{Subscribers, notes_of};
use std::alloc::{AllocError, Global};
use std::marker::Model;

// Maximum number of inputs that are searched linearly, without an index.
const LINEAR_SEARCH_LIMIT: usize = 8;

/// An index of a list of inputs: which of them are known, and a hash table to find them.
#[derive(Drop)]
pub struct InputIndex {
    // Whether the input at each index of the list is known.
    known: Vec<bool>,
    // Number of inputs that are not known.
    left: usize,
    // The input that was recorded last: all inputs that it covers are known.
    last: Option<Input>,
    // The indices of the list, noted at the addresses of the inputs there.
    places: Subscribers,
}

/// The inputs of a list that are still missing, in order.
///
/// A short list contains the missing inputs alone and is searched linearly. A long list keeps all inputs, with an
/// index, unless the allocation of the index fails.
#[derive(Drop)]
pub struct ManyInputs {
    inputs: Vec<Input>,
    index: Option<Box<InputIndex>>,
}

impl Model for ManyInputs {
    ghost use Rattle.std.specs.Prelude.{List, IfSome};
    ghost use Rattle.rules.specs.declared.input.Input.{Input};
    ghost use Rattle.rules.specs.Many.{IsIndexed, index_in, left_in};

    ghost Value = { List Input };

    ghost view = { λ a. left_in a.inputs.items (index_in a.index) };

    ghost invariant = { λ a. IfSome (index_in a.index) (IsIndexed a.inputs.items) };
}

/// Returns a number of lists such that inputs at regular distances mostly fall into different lists.
fn lists_for(inputs: usize) -> usize {
    notes_of(inputs).saturating_add(1)
}

/// Creates a hash table with the indices of a list, noted at the addresses of the inputs there.
fn places_in(alloc: Global, inputs: &[Input]) -> Result<Subscribers, AllocError>
    ensures { IfOk result (λ places. AreNoted inputs.now places.notes) }
{
    let count = inputs.len();
    let mut places = Subscribers::listed(alloc, lists_for(count), notes_of(count))?;
    for place in 0..count {
        if !places.note_input(&inputs[place], place) {
            return Err(AllocError);
        }
    }
    Ok(places)
}

impl InputIndex {
    /// Creates an index of inputs none of which is known.
    fn new(alloc: Global, inputs: &[Input]) -> Result<InputIndex, AllocError>
        ensures { IfOk result (IsFresh inputs.now) }
    {
        let mut known = Vec::new(alloc);
        known.resize(inputs.len(), false)?;
        Ok(InputIndex {
            known,
            left: inputs.len(),
            last: None,
            places: places_in(alloc, inputs)?,
        })
    }

    /// Returns true if all that the input covers are known because of the input recorded last.
    fn knows(&self, input: &Input) -> bool
        ensures { result ≡ knows self.now.last input.now }
    {
        match &self.last {
            Some(last) => last.covers(input),
            None => false,
        }
    }

    /// Marks the input at an index of the list as known, if `input` covers it.
    fn mark(&mut self, inputs: &[Input], place: usize, input: &Input)
        requires size { length self.old.known.items ≡ length inputs.now }
        requires left { self.old.left ≡ length (left_of inputs.now (is_known self.old)) }
        ensures marks { Marks input.now inputs.now self.old self.new }
        ensures here { place < length inputs.now → covers input.now (input_at inputs.now place) ≡ true → is_known self.new place ≡ true }
    {
        if place < inputs.len() && !self.known[place] && input.covers(&inputs[place]) {
            self.known[place] = true;
            self.left = self.left.saturating_sub(1);
        }
    }

    /// Marks all inputs that `input` covers as known.
    fn mark_all(&mut self, inputs: &[Input], input: &Input)
        requires { IsIndexed inputs.now self.old }
        ensures marks { Marks input.now inputs.now self.old self.new }
        ensures all { (k : ℕ) → k < length inputs.now → covers input.now (input_at inputs.now k) ≡ true → is_known self.new k ≡ true }
    {
        let mut next = self.places.last(input.address());
        while next > 0 {
            let note = self.places.note(next - 1);
            next = note.earlier as usize;
            self.mark(inputs, note.slot as usize, input);
        }
    }

    /// Removes the missing inputs that `input` covers.
    fn learn(&mut self, inputs: &[Input], input: &Input)
        requires { IsIndexed inputs.now self.old }
        ensures indexed { IsIndexed inputs.now self.new }
        ensures left { left_of inputs.now (is_known self.new) ≡ filter (λ j. not (covers input.now j)) (left_of inputs.now (is_known self.old)) }
    {
        if self.knows(input) {
            return;
        }
        self.mark_all(inputs, input);
        self.last = Some(input.same());
    }
}

/// Creates a boxed index of inputs none of which is known.
fn boxed(alloc: Global, inputs: &[Input]) -> Result<Box<InputIndex>, AllocError>
    ensures { IfOk result (λ index. IsFresh inputs.now index.value) }
{
    let index = InputIndex::new(alloc, inputs)?;
    Ok(Box::new(alloc, index)?)
}

/// Creates an index of inputs none of which is known, if there are more than 8. Returns `None` for fewer, or if an
/// allocation fails.
fn index_to(alloc: Global, inputs: &[Input]) -> Option<Box<InputIndex>>
    ensures { IfSome (index_in result) (IsFresh inputs.now) }
{
    if inputs.len() <= LINEAR_SEARCH_LIMIT {
        return None;
    }
    match boxed(alloc, inputs) {
        Ok(index) => Some(index),
        Err(_) => None,
    }
}

/// Returns true if items that wait for one of the inputs are noted at this address.
fn is_any_at(inputs: &[Input], address: u32) -> bool
    ensures { result ≡ list_any (is_at address) inputs.now }
{
    inputs.iter().any(|input| input.is_at(address))
}

/// Returns true if there is an index in which the input at this place is known.
fn is_known(index: &Option<Box<InputIndex>>, place: usize) -> bool
    ensures { result ≡ known_in (index_in index.now) place }
{
    match index {
        Some(index) => place < index.known.len() && index.known[place],
        None => false,
    }
}

/// Notes a slot at the addresses of the input at this place, if that is missing. Returns false if capacity is used up.
fn note_place(
    inputs: &[Input],
    index: &Option<Box<InputIndex>>,
    place: usize,
    places: &mut Subscribers,
    slot: usize,
) -> bool
    requires { place < length inputs.now }
    ensures grows { Grows places.old places.new }
    ensures strays { places.new.strays ≡ places.old.strays }
    ensures noted { result ≡ true → known_in (index_in index.now) place ≡ false → (a : ℕ) →
        is_at a (input_at inputs.now place) ≡ true → IsAt places.new.notes a slot }
{
    is_known(index, place) || places.note_input(&inputs[place], slot)
}

/// Notes a slot at the addresses of the missing inputs. Returns false once capacity is used up.
fn note_left(
    inputs: &[Input],
    index: &Option<Box<InputIndex>>,
    places: &mut Subscribers,
    slot: usize,
) -> bool
    ensures grows { Grows places.old places.new }
    ensures strays { places.new.strays ≡ places.old.strays }
    ensures noted { result ≡ true → (a : ℕ) → list_any (is_at a) (left_in inputs.now (index_in index.now)) ≡ true → IsAt places.new.notes a slot }
{
    for place in 0..inputs.len() {
        if !note_place(inputs, index, place, places, slot) {
            return false;
        }
    }
    true
}

impl ManyInputs {
    /// Creates the representation of these inputs, all missing. If the allocation of an index fails, there is none.
    #[tactic(auto, using(crate::proofs::Marking::of_list, crate::proofs::Marking::of_indexed))]
    pub fn of(alloc: Global, inputs: Vec<Input>) -> ManyInputs
        ensures { result ≡ inputs.items }
    {
        let index = index_to(alloc, inputs.as_slice());
        ManyInputs { inputs, index }
    }

    /// Returns the number of missing inputs.
    pub fn len(&self) -> usize
        ensures { result ≡ length self.now }
    {
        match &self.index {
            Some(index) => index.left,
            None => self.inputs.len(),
        }
    }

    /// Returns false only if no item that waits for one of the inputs need be noted at this address. With an index the
    /// inputs are not examined.
    pub fn may_be_at(&self, address: u32) -> bool
        ensures { list_any (is_at address) self.now ≡ true → result ≡ true }
    {
        match &self.index {
            Some(_) => true,
            None => is_any_at(self.inputs.as_slice(), address),
        }
    }

    /// Notes a slot at the addresses of the missing inputs. Returns false once capacity is used up.
    pub fn note_in(&self, places: &mut Subscribers, slot: usize) -> bool
        ensures grows { Grows places.old places.new }
        ensures strays { places.new.strays ≡ places.old.strays }
        ensures noted { result ≡ true → (a : ℕ) → list_any (is_at a) self.now ≡ true → IsAt places.new.notes a slot }
    {
        note_left(self.inputs.as_slice(), &self.index, places, slot)
    }

    /// Removes the missing inputs that `input` covers.
    pub fn learn(&mut self, input: &Input)
        ensures { self.new ≡ filter (λ j. not (covers input.now j)) self.old }
    {
        match &mut self.index {
            Some(index) => index.learn(self.inputs.as_slice(), input),
            None => self.inputs.retain(|missed| !input.covers(missed)),
        }
    }
}
