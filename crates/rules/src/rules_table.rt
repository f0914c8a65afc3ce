//! The table of waiting items: a slab of waiters with an index by input.
ghost use Rattle.std.specs.Prelude.{◌≡◌, ◌==◌, ℕ, ◌+◌, ◌<◌, ◌≤◌, ◌∷◌, false, length, OnOk, OnErr, IfOk, IsOk, IsPermutation, Some, slice_index_or, None, vec_len, vec_capacity};
ghost use Rattle.slab.specs.Slab.{slab_len, HasRoomFor};
ghost use Rattle.rules.specs.Waiting.{empty, with_room, IsAdded, IsListed, GivesRoomBack, EachMisses, still_waiting, woken, without_item};
ghost use Rattle.rules.specs.Slots.{after_slot, present, is_idle, IsSettled, Shrinks, Learnt, AllBusy};
ghost use Rattle.rules.specs.Places.{IsNoted};

use crate::input::Input;
use crate::subscribers::{Subscribers, heavy, notes_of};
use crate::visit::{leave_all, visit_listed, visit_noted};
use crate::waiter::Waiter;
use slab::Slab;
use smallvec::SmallVec;
use std::alloc::{AllocError, Global};
use std::marker::Model;

// Minimum number of slots for which a nonempty index is allocated.
const MIN_INDEXED_SLOTS: usize = 64;

// Removes the inputs that `input` covers from all items. Those with none left are removed, and their numbers are
// appended to `out`.
fn wake(waiters: &mut Slab<Waiter>, places: &mut Subscribers, input: &Input, out: &mut Vec<u64>)
    requires room { slab_len waiters.old + vec_len out.old ≤ vec_capacity out.old }
    requires busy { AllBusy waiters.old.slots }
    requires noted { IsNoted places.old waiters.old.slots }
    requires place { slab_len waiters.old ≤ places.old.place }
    ensures learnt { Learnt input.now waiters.old.slots waiters.new.slots out.old.items out.new.items }
    ensures settled { (k : ℕ) → IsSettled (after_slot input.now) waiters.new.slots k }
    ensures shrinks { Shrinks (after_slot input.now) waiters.old.slots waiters.new.slots }
    ensures balance { slab_len waiters.new + vec_len out.new ≡ slab_len waiters.old + vec_len out.old }
    ensures capacity { waiters.new.capacity ≡ waiters.old.capacity }
    ensures out_capacity { vec_capacity out.new ≡ vec_capacity out.old }
    ensures noted { IsNoted places.new waiters.new.slots }
    ensures place { places.new.place ≡ places.old.place }
{
    let passed = visit_noted(waiters, places, input, out);
    visit_listed(waiters, places.strays(), input, out);
    places.hear(waiters, passed);
}

// Replaces the index by one with capacity for items of two inputs in this number of slots, if it has less.
fn fit(
    alloc: Global,
    waiters: &Slab<Waiter>,
    places: &mut Subscribers,
    slots: usize,
) -> Result<(), AllocError>
    requires used { slab_len waiters.now ≤ slots }
    requires noted { IsNoted places.old waiters.now.slots }
    ensures noted { IsNoted places.new waiters.now.slots }
    ensures place { OnOk result (slots ≤ places.new.place) }
    ensures more { places.old.place ≤ places.new.place }
{
    if places.place() < slots {
        let mut wider = Subscribers::sized(alloc, slots.max(MIN_INDEXED_SLOTS), heavy(waiters))?;
        wider.renew(waiters);
        *places = wider;
    }
    Ok(())
}

// Inserts an item into a free slot, and notes it in the index.
fn settle(waiters: &mut Slab<Waiter>, places: &mut Subscribers, waiter: Waiter)
    requires room { HasRoomFor waiters.old 1 }
    requires place { slab_len waiters.old < places.old.place }
    requires busy { AllBusy waiters.old.slots }
    requires misses { is_idle (Some waiter) ≡ false }
    requires noted { IsNoted places.old waiters.old.slots }
    ensures added { IsPermutation (waiter ∷ present waiters.old.slots) (present waiters.new.slots) }
    ensures busy { AllBusy waiters.new.slots }
    ensures noted { IsNoted places.new waiters.new.slots }
    ensures len { slab_len waiters.new ≡ slab_len waiters.old + 1 }
    ensures capacity { waiters.new.capacity ≡ waiters.old.capacity }
    ensures place { places.new.place ≡ places.old.place }
{
    let slot = waiters.insert_reserved(waiter);
    if !places.keep_slot(waiters, slot, usize::MAX) {
        places.renew(waiters);
    }
}

/// The waiting items, each with the inputs that it still misses: the rules of the SC14 paper "Compiler Techniques for
/// Massively Scalable Implicit Task Parallelism".
///
/// Contracts see the list of waiting items, in some order, and the `room`. It is the number of further calls of `add`
/// that cannot fail for lack of memory. Each item that `known` lists or `forget` removes leaves room for one more,
/// whatever that one waits for. `known`, `forget` and `waiting` do not allocate, and a failed `add` changes nothing.
#[derive(Drop)]
pub struct Rules {
    waiters: Slab<Waiter>,
    // Number of items that are sure to find a slot, including those that wait.
    slots: usize,
    // Index of the waiting items by input.
    places: Subscribers,
    alloc: Global,
}

impl Model for Rules {
    ghost use Rattle.rules.specs.Waiting.{Listing};
    ghost use Rattle.slab.specs.Slab.{slab_len};
    ghost use Rattle.std.specs.Prelude.{◌-◌};
    ghost use Rattle.rules.specs.Slots.{present};
    ghost use Rattle.rules.specs.Places.{IsKept};

    ghost Value = { Listing };

    ghost view = { λ a. record { waiting = present a.waiters.slots; room = a.slots - slab_len a.waiters } };

    ghost invariant = { λ a. IsKept a.waiters a.slots a.places };
}

impl Rules {
    /// Creates a table in which no item waits.
    pub fn new(alloc: Global) -> Rules
        ensures { result ≡ empty }
    {
        Rules {
            waiters: Slab::new(alloc),
            slots: 0,
            places: Subscribers::none(alloc),
            alloc,
        }
    }

    /// Returns the number of waiting items.
    pub fn waiting(&self) -> usize
        ensures { result ≡ length self.now.waiting }
    {
        self.waiters.len()
    }

    // Prepares the index for the notes of an item with this number of inputs.
    fn refresh(&mut self, inputs: usize)
        ensures { self.new ≡ self.old }
    {
        self.places.refresh(self.alloc, &self.waiters, inputs);
    }

    // Inserts an item into the room that there is.
    fn keep(&mut self, waiter: Waiter)
        requires room { 0 < self.old.room }
        requires misses { is_idle (Some waiter) ≡ false }
        ensures { IsAdded self.old self.new waiter }
    {
        settle(&mut self.waiters, &mut self.places, waiter);
    }

    // Makes room for one item, if there is none.
    fn make_room(&mut self) -> Result<(), AllocError>
        ensures ok { OnOk result (self.new.waiting ≡ self.old.waiting) }
        ensures room { OnOk result ((0 < self.new.room) × (self.old.room ≤ self.new.room)) }
        ensures had_room { 0 < self.old.room → self.new ≡ self.old }
        ensures succeeds { 0 < self.old.room → IsOk result }
        ensures err { OnErr result (self.new ≡ self.old) }
    {
        if self.waiters.len() == self.slots {
            self.waiters.reserve(1)?;
            let slots = self.waiters.capacity();
            fit(self.alloc, &self.waiters, &mut self.places, slots)?;
            self.slots = slots;
        }
        Ok(())
    }

    /// Makes room for `n` items, so that the next `n` calls of `add` cannot fail for lack of memory.
    ///
    /// # Errors
    ///
    /// Returns `AllocError` if there was less room and an allocation fails.
    pub fn reserve(&mut self, n: usize) -> Result<(), AllocError>
        ensures ok { OnOk result (self.new ≡ with_room n self.old) }
        ensures succeeds { n ≤ self.old.room → IsOk result }
        ensures err { OnErr result (self.new ≡ self.old) }
    {
        if self.slots - self.waiters.len() < n {
            self.waiters.reserve(n)?;
            let most = self.waiters.capacity();
            let slots = self.waiters.len() + n;
            prove!(slots <= most);
            fit(self.alloc, &self.waiters, &mut self.places, most)?;
            self.slots = slots;
        }
        Ok(())
    }

    /// Reserves index memory for items to be added that wait for more than two inputs each, with this number of inputs
    /// in total.
    ///
    /// This affects the running time alone. If `add` cannot allocate index memory for such an item, each `known`
    /// examines the item until there is memory again.
    ///
    /// # Errors
    ///
    /// Returns `AllocError` if there was less memory and an allocation fails.
    pub fn reserve_inputs(&mut self, inputs: usize) -> Result<(), AllocError>
        ensures { self.new ≡ self.old }
    {
        let more = notes_of(inputs);
        self.places.reserve_notes(self.alloc, &self.waiters, more)
    }

    /// Adds an item that waits for these inputs, none of which is known yet. Returns true, and adds nothing, if there
    /// are no inputs.
    ///
    /// # Errors
    ///
    /// Returns `AllocError` if there was no room and an allocation fails.
    #[inline(always)]
    pub fn add(&mut self, inputs: SmallVec<Input, 2>, item: u64) -> Result<bool, AllocError>
        ensures answer { IfOk result (λ ready. ready ≡ (length inputs.items == 0)) }
        ensures ready { length inputs.items ≡ 0 → self.new ≡ self.old }
        ensures added { 0 < length inputs.items → OnOk result (IsAdded self.old self.new (record { item = item; missing = inputs.items })) }
        ensures succeeds { 0 < self.old.room → IsOk result }
        ensures asks_nothing { length inputs.items ≡ 0 → IsOk result }
        ensures err { OnErr result (self.new ≡ self.old) }
    {
        if inputs.is_empty() {
            return Ok(true);
        }
        self.make_room()?;
        self.refresh(inputs.len());
        self.keep(Waiter::new(self.alloc, item, inputs));
        Ok(false)
    }

    /// Records that an input is known, and appends the items whose last missing input it was to `out`. They are removed
    /// from the table.
    ///
    /// A closed array makes its elements known too. Does not allocate: `out` has capacity for all waiting items.
    pub fn known(&mut self, input: &Input, out: &mut Vec<u64>)
        requires { length self.old.waiting + vec_len out.old ≤ vec_capacity out.old }
        ensures waiting { self.new.waiting ≡ still_waiting input.now self.old.waiting }
        ensures listed { IsListed (woken input.now self.old.waiting) out.old.items out.new.items }
        ensures room { GivesRoomBack self.old self.new }
        ensures out_capacity { vec_capacity out.new ≡ vec_capacity out.old }
        ensures each_missed { EachMisses self.old.waiting }
    {
        wake(&mut self.waiters, &mut self.places, input, out);
    }

    /// Removes an item, if it waits. Does not allocate, and examines every slot.
    pub fn forget(&mut self, item: u64)
        ensures waiting { self.new.waiting ≡ without_item item self.old.waiting }
        ensures room { GivesRoomBack self.old self.new }
    {
        leave_all(&mut self.waiters, item);
    }
}
