//! The index of waiting items by input: a chained hash table of notes, linked within one vector.
//!
//! The number of lists need not be a power of two. When walks pass too many notes of other addresses, the table is
//! rebuilt with another number of lists.
ghost use Rattle.std.specs.Prelude.{◌≡◌, ◌⊎◌, ℕ, ◌+◌, ◌<◌, ◌≤◌, ◌%◌, [], true, cond, is_some, None, Some, length, Contains, IfOk};
ghost use Rattle.slab.specs.Slab.{get, slab_len};
ghost use Rattle.rules.specs.Places.{IsAt, IsAllBut, IsLast, no_slot, note_at, Grows, IsFound, IsNoted, is_at, needs, slot_needs};

use crate::input::Input;
use crate::missing::InputCount;
use crate::waiter::Waiter;
use slab::Slab;
use std::alloc::{AllocError, Global};
use std::marker::Model;

// Maximum number of notes of an item of two inputs.
const NOTES_OF_TWO_INPUTS: usize = 4;

// Maximum number of notes of other addresses that a walk may pass without being counted.
const UNCOUNTED_PASSES: usize = 64;

// The slot of a note that was unlinked from its list.
const NO_SLOT: u32 = 4_294_967_295;

// Limit of the number of notes, and of the slots that can be noted, since both are stored in 32 bits.
const MAX_NOTES: usize = 4_294_967_295;

/// A note that the item of a slot is to be found at an address.
#[derive(Clone, Copy, Debug, PartialEq, Eq)]
pub struct SlotNote {
    pub address: u32,
    pub slot: u32,
    /// One more than the number of the previous note in the same list, or 0 for the first.
    pub earlier: u32,
}

/// A hash table of notes, each in the list of its address.
///
/// A waiting item's slot is noted at up to two addresses for each missing input: the input's own, and the low bits of
/// its datum's number. A note that is no longer needed is unlinked by the next walk past it; its memory becomes free
/// when the table is rebuilt.
///
/// Addresses may share a list. When walks have passed many notes of other addresses, the table is rebuilt with another
/// number of lists, in which those addresses differ. A slot for whose notes there is no capacity is a stray: it is
/// visited for each input.
#[derive(Drop)]
pub struct Subscribers {
    // For each list one more than the number of its last note, or 0 for an empty list.
    heads: Vec<u32>,
    notes: Vec<SlotNote>,
    strays: Vec<usize>,
    // Upper bound for the number of notes of the items that wait for more than two inputs.
    heavy: usize,
    // Number of notes of other addresses that long walks have passed since the last rebuild.
    passed: usize,
}

impl Model for Subscribers {
    ghost use Rattle.std.specs.Prelude.{length, vec_capacity};
    ghost use Rattle.rules.specs.Places.{Noted, IsLinked};

    ghost Value = { Noted };

    ghost view = { λ a. record { lists = length a.heads.items; notes = a.notes.items; strays = a.strays.items; place = vec_capacity a.strays } };

    ghost invariant = { λ a. IsLinked a.heads.items a.notes.items };
}

impl Subscribers {
    pub fn none(alloc: Global) -> Subscribers
        ensures notes { result.notes ≡ [] }
        ensures strays { result.strays ≡ [] }
    {
        Subscribers {
            heads: Vec::new(alloc),
            notes: Vec::new(alloc),
            strays: Vec::new(alloc),
            heavy: 0,
            passed: 0,
        }
    }

    /// Creates an empty table with capacity for the notes and strays of this number of slots. `heavy`: the number of
    /// notes of items of more than two inputs.
    pub fn sized(alloc: Global, slots: usize, heavy: usize) -> Result<Subscribers, AllocError>
        ensures place { IfOk result (λ places. places.place ≡ slots) }
    {
        let lists = lists_for(slots, heavy);
        let mut places = Subscribers::listed(alloc, lists, ample(slots, heavy))?;
        places.strays = Vec::with_capacity(alloc, slots)?;
        places.heavy = heavy;
        Ok(places)
    }

    /// Creates an empty table with this number of lists and capacity for notes. It has no capacity for strays.
    pub fn listed(alloc: Global, lists: usize, notes: usize) -> Result<Subscribers, AllocError> {
        let mut heads = Vec::with_capacity(alloc, lists)?;
        heads.resize(lists, 0)?;
        Ok(Subscribers {
            heads,
            notes: Vec::with_capacity(alloc, notes)?,
            strays: Vec::new(alloc),
            heavy: 0,
            passed: 0,
        })
    }

    /// Returns the maximum number of strays.
    pub fn place(&self) -> usize
        ensures { result ≡ self.now.place }
    {
        self.strays.capacity()
    }

    /// Returns the strays: the slots that are visited for each input.
    pub fn strays(&self) -> &[usize]
        ensures { result.now ≡ self.now.strays }
    {
        self.strays.as_slice()
    }

    /// Returns one more than the number of the last note in the list of an address, or 0 if the list is empty.
    pub fn last(&self, address: u32) -> usize
        ensures { IsLast self.now.lists self.now.notes (address % self.now.lists) result (length self.now.notes) }
    {
        if self.heads.is_empty() {
            return 0;
        }
        let list = address as usize % self.heads.len();
        self.heads[list] as usize
    }

    /// Returns the note with this number.
    pub fn note(&self, number: usize) -> SlotNote
        requires { number < length self.now.notes }
        ensures same { result ≡ note_at self.now.notes number }
        ensures link { IsLast self.now.lists self.now.notes (result.address % self.now.lists) result.earlier number }
    {
        self.notes[number]
    }

    // Sets the slot of a note to `NO_SLOT`.
    fn retire(&mut self, number: usize)
        requires below { number < length self.old.notes }
        ensures all { IsAllBut self.old self.new number }
        ensures retired { (note_at self.new.notes number).slot ≡ no_slot }
    {
        let note = self.notes[number];
        self.notes[number] = SlotNote {
            address: note.address,
            slot: NO_SLOT,
            earlier: note.earlier,
        };
    }

    // Unlinks a retired note from the head of its list, if the head refers to it.
    fn unlink_first(&mut self, number: usize)
        requires below { number < length self.old.notes }
        requires retired { (note_at self.old.notes number).slot ≡ no_slot }
        ensures { IsAllBut self.old self.new number }
    {
        if self.heads.is_empty() {
            return;
        }
        let note = self.notes[number];
        let list = note.address as usize % self.heads.len();
        if self.heads[list] as usize == number + 1 {
            self.heads[list] = note.earlier;
        }
    }

    // Unlinks a retired note from the note at `later`, if that refers to it.
    fn unlink_next(&mut self, later: usize, number: usize)
        requires later { later < length self.old.notes }
        requires below { number < length self.old.notes }
        requires retired { (note_at self.old.notes number).slot ≡ no_slot }
        ensures { IsAllBut self.old self.new number }
    {
        let note = self.notes[number];
        let holder = self.notes[later];
        if holder.earlier as usize == number + 1 {
            self.notes[later] = SlotNote {
                address: holder.address,
                slot: holder.slot,
                earlier: note.earlier,
            };
        }
    }

    // Retires and unlinks a note. The link to it is in note `holder - 1`, or in the head of the list if `holder` is 0.
    fn take_out(&mut self, holder: usize, number: usize)
        requires holder { holder ≤ length self.old.notes }
        requires below { number < length self.old.notes }
        ensures { IsAllBut self.old self.new number }
    {
        self.retire(number);
        if holder == 0 {
            self.unlink_first(number);
        } else {
            self.unlink_next(holder - 1, number);
        }
    }

    /// Unlinks a note if the item of its slot no longer needs it. The link to it is in note `holder - 1`, or in the
    /// head of the list if `holder` is 0. Returns the holder of the link to the note that is next on the walk.
    pub fn tidy(&mut self, waiters: &Slab<Waiter>, holder: usize, number: usize) -> usize
        requires holder { holder ≤ length self.old.notes }
        requires below { number < length self.old.notes }
        requires noted { IsNoted self.old waiters.now.slots }
        ensures noted { IsNoted self.new waiters.now.slots }
        ensures all { IsAllBut self.old self.new number }
        ensures holder { result ≤ length self.new.notes }
    {
        let note = self.notes[number];
        if is_needed(waiters, note.address, note.slot as usize) {
            return number + 1;
        }
        self.take_out(holder, number);
        holder
    }

    // Notes a slot at an address. Returns false if there is no capacity.
    #[tactic(auto, using(crate::proofs::Linking::at_before, crate::proofs::Linking::at_last))]
    fn put(&mut self, address: u32, slot: usize) -> bool
        ensures grows { Grows self.old self.new }
        ensures strays { self.new.strays ≡ self.old.strays }
        ensures noted { result ≡ true → IsAt self.new.notes address slot }
    {
        let number = self.notes.len();
        if self.heads.is_empty()
            || number == self.notes.capacity()
            || number >= MAX_NOTES
            || slot >= MAX_NOTES
        {
            return false;
        }
        let list = address as usize % self.heads.len();
        let note = SlotNote {
            address,
            slot: slot as u32,
            earlier: self.heads[list],
        };
        self.notes.push_reserved(note);
        self.heads[list] = number as u32 + 1;
        true
    }

    /// Notes a slot at the address of the input and at that of its datum. Returns false if there is no capacity.
    #[tactic(auto, using(crate::proofs::Noting::grows_on, crate::proofs::Noting::input_noted))]
    pub fn note_input(&mut self, input: &Input, slot: usize) -> bool
        ensures grows { Grows self.old self.new }
        ensures strays { self.new.strays ≡ self.old.strays }
        ensures noted { result ≡ true → (a : ℕ) → is_at a input.now ≡ true → IsAt self.new.notes a slot }
    {
        if !self.put(input.address(), slot) {
            return false;
        }
        if input.address() == input.datum() {
            return true;
        }
        self.put(input.datum(), slot)
    }

    // Notes the slot of an item at the addresses of all its missing inputs. Returns false if there is no capacity.
    fn note_item(&mut self, waiter: &Waiter, slot: usize) -> bool
        ensures grows { Grows self.old self.new }
        ensures strays { self.new.strays ≡ self.old.strays }
        ensures noted { result ≡ true → (a : ℕ) → needs a waiter.now ≡ true → IsAt self.new.notes a slot }
    {
        match waiter.missing() {
            InputCount::Nothing => true,
            InputCount::One(only) => self.note_input(&only, slot),
            InputCount::Two(first, second) => {
                self.note_input(&first, slot) && self.note_input(&second, slot)
            }
            InputCount::More(many) => many.note_in(self, slot),
        }
    }

    // Notes an item, if it has at most 4 notes or the total does not exceed `most`. Returns false if it is not noted
    // everywhere.
    fn note_within(&mut self, waiter: &Waiter, slot: usize, most: usize) -> bool
        ensures grows { Grows self.old self.new }
        ensures strays { self.new.strays ≡ self.old.strays }
        ensures noted { result ≡ true → (a : ℕ) → needs a waiter.now ≡ true → IsAt self.new.notes a slot }
    {
        let weight = notes_of(waiter.count());
        if weight > NOTES_OF_TWO_INPUTS && self.notes.len().saturating_add(weight) > most {
            return false;
        }
        self.note_item(waiter, slot)
    }

    // Adds a slot to the strays. Returns false if there is no capacity.
    fn stray(&mut self, slot: usize) -> bool
        ensures grows { Grows self.old self.new }
        ensures more { length self.new.strays ≤ length self.old.strays + 1 }
        ensures found { result ≡ true → Contains self.new.strays slot }
        ensures kept { length self.old.strays < self.old.place → result ≡ true }
    {
        if self.strays.len() == self.strays.capacity() {
            return false;
        }
        self.strays.push_reserved(slot);
        true
    }

    /// Makes the item of a slot findable: by its notes if they fit, otherwise as a stray. More than 4 notes fit only if
    /// the total does not exceed `most`. Returns false if there is no capacity for either.
    #[inline(always)]
    pub fn keep_slot(&mut self, waiters: &Slab<Waiter>, slot: usize, most: usize) -> bool
        ensures grows { Grows self.old self.new }
        ensures more { length self.new.strays ≤ length self.old.strays + cond (is_some (get waiters.now slot)) 1 0 }
        ensures found { result ≡ true → IsFound self.new slot (get waiters.now slot) }
        ensures kept { length self.old.strays + cond (is_some (get waiters.now slot)) 1 0 ≤ self.old.place → result ≡ true }
    {
        match waiters.get(slot) {
            None => true,
            Some(waiter) => self.note_within(waiter, slot, most) || self.stray(slot),
        }
    }

    // Returns the number of lists for the next rebuild: one less than now, or the full capacity once the number has
    // fallen to about half of it. Addresses that share one of n lists share none of n - 1, unless their distance is a
    // multiple of n (n - 1).
    fn other_lists(&self) -> usize {
        let most = self.heads.capacity();
        if self.heads.len() > most / 2 + 1 {
            self.heads.len() - 1
        } else {
            most
        }
    }

    // Removes all notes and strays, and changes the number of lists.
    fn clear(&mut self)
        ensures notes { self.new.notes ≡ [] }
        ensures strays { self.new.strays ≡ [] }
        ensures place { self.new.place ≡ self.old.place }
    {
        let lists = self.other_lists();
        self.heads.clear();
        let _made = self.heads.resize(lists, 0);
        self.notes.clear();
        self.strays.clear();
        self.passed = 0;
    }

    /// Rebuilds the table from the slots. A quarter of the capacity for notes then remains free.
    pub fn renew(&mut self, waiters: &Slab<Waiter>)
        requires { slab_len waiters.now ≤ self.old.place }
        ensures noted { IsNoted self.new waiters.now.slots }
        ensures place { self.new.place ≡ self.old.place }
    {
        self.clear();
        let slots = waiters.capacity();
        let most = three_quarters(self.notes.capacity());
        for slot in 0..slots {
            let later = plain(slots.saturating_sub(slot));
            self.keep_slot(waiters, slot, most.saturating_sub(later));
        }
    }

    // Adds to the count of notes passed by long walks.
    fn count_passed(&mut self, passed: usize)
        ensures { self.new ≡ self.old }
    {
        self.passed = self.passed.saturating_add(passed);
    }

    /// Records that a walk passed this number of notes of other addresses. The table is rebuilt with another number of
    /// lists once long walks have passed more of them than there are lists.
    pub fn hear(&mut self, waiters: &Slab<Waiter>, passed: usize)
        requires place { slab_len waiters.now ≤ self.old.place }
        requires noted { IsNoted self.old waiters.now.slots }
        ensures noted { IsNoted self.new waiters.now.slots }
        ensures place { self.new.place ≡ self.old.place }
    {
        if passed <= UNCOUNTED_PASSES {
            return;
        }
        self.count_passed(passed);
        if self.passed > self.heads.len() {
            self.renew(waiters);
        }
    }

    // Sets the number of notes of items of more than two inputs.
    fn count(&mut self, heavy: usize)
        ensures { self.new ≡ self.old }
    {
        self.heavy = heavy;
    }

    // Rebuilds the table in new memory, with capacity for `heavy` notes of items of more than two inputs.
    fn widen(
        &mut self,
        alloc: Global,
        waiters: &Slab<Waiter>,
        heavy: usize,
    ) -> Result<(), AllocError>
        requires place { slab_len waiters.now ≤ self.old.place }
        requires noted { IsNoted self.old waiters.now.slots }
        ensures noted { IsNoted self.new waiters.now.slots }
        ensures place { self.new.place ≡ self.old.place }
    {
        let slots = waiters.capacity();
        let notes = Vec::with_capacity(alloc, ample(slots, heavy))?;
        let heads = Vec::with_capacity(alloc, lists_for(slots, heavy))?;
        self.heads = heads;
        self.notes = notes;
        self.renew(waiters);
        Ok(())
    }

    /// Reserves capacity for this number of further notes of items that wait for more than two inputs, if there is
    /// less. It suffices for any items in the present slots.
    ///
    /// # Errors
    ///
    /// Returns `AllocError` if an allocation fails.
    pub fn reserve_notes(
        &mut self,
        alloc: Global,
        waiters: &Slab<Waiter>,
        more: usize,
    ) -> Result<(), AllocError>
        requires place { slab_len waiters.now ≤ self.old.place }
        requires noted { IsNoted self.old waiters.now.slots }
        ensures noted { IsNoted self.new waiters.now.slots }
        ensures place { self.new.place ≡ self.old.place }
    {
        let slots = waiters.capacity();
        let most = three_quarters(self.notes.capacity());
        if plain(slots).saturating_add(self.heavy).saturating_add(more) <= most {
            return Ok(());
        }
        self.count(heavy(waiters));
        let heavier = self.heavy.saturating_add(more);
        let wanted = ample(slots, heavier);
        if self.notes.capacity() >= wanted {
            return Ok(());
        }
        self.widen(alloc, waiters, heavier)
    }

    // Returns the number of notes that can be added without allocation.
    fn free(&self) -> usize {
        self.notes.capacity().saturating_sub(self.notes.len())
    }

    // Makes capacity for `weight` further notes. It rebuilds the table if there is less, in more memory if items of
    // more than two inputs need it and it can be allocated.
    fn make_place(&mut self, alloc: Global, waiters: &Slab<Waiter>, weight: usize)
        requires place { slab_len waiters.now ≤ self.old.place }
        requires noted { IsNoted self.old waiters.now.slots }
        ensures noted { IsNoted self.new waiters.now.slots }
        ensures place { self.new.place ≡ self.old.place }
    {
        if self.free() >= weight {
            return;
        }
        let _taken = self.reserve_notes(alloc, waiters, heavy_part(weight));
        if self.free() < weight {
            self.renew(waiters);
        }
    }

    /// Prepares capacity for the notes of the next item, which has this number of inputs, and counts them.
    pub fn refresh(&mut self, alloc: Global, waiters: &Slab<Waiter>, inputs: usize)
        requires place { slab_len waiters.now ≤ self.old.place }
        requires noted { IsNoted self.old waiters.now.slots }
        ensures noted { IsNoted self.new waiters.now.slots }
        ensures place { self.new.place ≡ self.old.place }
    {
        let weight = notes_of(inputs);
        self.make_place(alloc, waiters, weight);
        let heavy = self.heavy.saturating_add(heavy_part(weight));
        self.count(heavy);
    }
}

/// Returns the maximum number of notes of items with this number of inputs in total: two for each input.
pub fn notes_of(inputs: usize) -> usize {
    inputs.saturating_mul(2)
}

// Returns the number of notes if it exceeds that of an item of two inputs, and 0 otherwise.
fn heavy_part(notes: usize) -> usize {
    if notes > NOTES_OF_TWO_INPUTS {
        notes
    } else {
        0
    }
}

// Returns the maximum number of notes of this number of items of two inputs.
fn plain(items: usize) -> usize {
    items.saturating_mul(NOTES_OF_TWO_INPUTS)
}

// Returns the maximum number of notes in use after a rebuild with this capacity: three quarters of it.
fn three_quarters(capacity: usize) -> usize {
    capacity.saturating_sub(capacity / 4)
}

// Returns the capacity for notes to allocate. It is twice the notes of items of two inputs in all slots, plus four
// times those of items of more.
fn ample(slots: usize, heavy: usize) -> usize {
    plain(slots)
        .saturating_mul(2)
        .saturating_add(heavy.saturating_mul(4))
}

// Returns the maximum number of lists: one for each two notes of items of two inputs in all slots, and of items of
// more.
fn lists_for(slots: usize, heavy: usize) -> usize {
    slots.saturating_mul(2).saturating_add(heavy / 2)
}

/// Returns the maximum number of notes of the items that have more notes than an item of two inputs.
pub fn heavy(waiters: &Slab<Waiter>) -> usize {
    let mut sum = 0_usize;
    for slot in 0..waiters.capacity() {
        if let Some(waiter) = waiters.get(slot) {
            let weight = notes_of(waiter.count());
            sum = sum.saturating_add(heavy_part(weight));
        }
    }
    sum
}

// Returns false only if the item of the slot need not be noted at this address.
fn is_needed(waiters: &Slab<Waiter>, address: u32, slot: usize) -> bool
    ensures { slot_needs address (get waiters.now slot) ≡ true → result ≡ true }
{
    match waiters.get(slot) {
        None => false,
        Some(waiter) => waiter.may_need(address),
    }
}
