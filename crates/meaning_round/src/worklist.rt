//! Worklist of live statements that may have a new fact, with subscriptions that wake sleeping statements.

ghost use Rattle.std.specs.Prelude.{◌≡◌, ◌⊎◌, ◌++◌, ◌∷◌, ◌&&◌, ◌||◌, [], ℕ, cond, nat_eq, false, true, IfOk, IsSome, OnOk};
ghost use Rattle.std.specs.HashMap.{get};
ghost use Rattle.std.specs.HashSet.{contains};
ghost use Rattle.language.specs.Members.{◌∈◌};
ghost use Rattle.values.specs.Keys.{key_seen};
ghost use Rattle.meaning_round.specs.Hearing.{event_key, is_asleep, is_called, numbers_of, same_event, AreWoken, FallsAsleep};
ghost use Rattle.meaning_round.specs.Reads as reads;
ghost use Rattle.meaning_round.specs.declared.worklist.WakeEvent.{WakeEvent as SomeEvent};

use meaning_facts::facts::Place;
use std::alloc::{AllocError, Global};
use std::collections::{HashMap, HashSet};
use std::mem::replace;
use values::key::KeyRef;

/// An event at a place. The hash is 0 for its value or its closing; for a write of a key it is the hash of the key.
#[derive(Clone, Copy)]
pub struct WakeEvent {
    pub place: Place,
    pub hash: u64,
}

/// The worklist: numbers of live statements that may have a new fact. These are the awake ones, and all from `fresh`
/// on, which have not been evaluated yet. The other statements sleep; an event that they subscribed to wakes them.
#[derive(Drop)]
pub struct Worklist {
    pub fresh: usize,
    pub awake: Vec<usize>,
    asleep: HashSet<usize>,
    called: HashMap<(usize, u32, u64), HashSet<usize>>,
}

impl WakeEvent {
    /// Creates the event that a place gets its value or is closed.
    pub fn at(place: Place) -> WakeEvent
        ensures { result ≡ reads.at place }
    {
        WakeEvent { place, hash: 0 }
    }

    /// Creates the event that a key of an array is written.
    pub fn under(array: Place, key: KeyRef<'_>) -> WakeEvent
        ensures { result ≡ reads.under array (key_seen key.entry) }
    {
        WakeEvent {
            place: array,
            hash: key.hash_code(),
        }
    }

    fn key(self) -> (usize, u32, u64)
        ensures { result ≡ event_key self }
    {
        (self.place.instance, self.place.node, self.hash)
    }
}

impl Worklist {
    /// Creates a worklist in which no statement has been evaluated or subscribed.
    pub fn new(alloc: Global) -> Worklist
        ensures { result.fresh ≡ 0 }
    {
        Worklist {
            fresh: 0,
            awake: Vec::new(alloc),
            asleep: HashSet::new(alloc),
            called: HashMap::new(alloc),
        }
    }

    /// Removes and returns the ready numbers: the awake ones, then those from `fresh` up to `count`, which becomes the
    /// new `fresh`.
    pub(crate) fn drain_ready(
        &mut self,
        alloc: Global,
        count: usize,
    ) -> Result<Vec<usize>, AllocError>
        ensures numbers { IfOk result (λ numbers. numbers.items ≡ numbers_of self.old count) }
        ensures fresh { OnOk result (self.new.fresh ≡ count) }
        ensures asleep { self.new.asleep ≡ self.old.asleep }
        ensures called { self.new.called ≡ self.old.called }
    {
        for number in self.fresh..count {
            self.awake.push(number)?;
        }
        self.fresh = count;
        Ok(replace(&mut self.awake, Vec::new(alloc)))
    }

    /// Keeps a statement awake for the next round.
    pub(crate) fn keep(&mut self, number: usize) -> Result<(), AllocError>
        ensures awake { OnOk result (self.new.awake.items ≡ self.old.awake.items ++ number ∷ []) }
        ensures fresh { self.new.fresh ≡ self.old.fresh }
        ensures asleep { self.new.asleep ≡ self.old.asleep }
        ensures called { self.new.called ≡ self.old.called }
    {
        self.awake.push(number)?;
        Ok(())
    }

    /// Puts a statement to sleep, subscribed to these events.
    pub(crate) fn subscribe(
        &mut self,
        alloc: Global,
        number: usize,
        events: &[WakeEvent],
    ) -> Result<(), AllocError>
        ensures { OnOk result (FallsAsleep self.old self.new number events.now) }
    {
        for event in events {
            self.call(alloc, *event, number)?;
        }
        self.asleep.insert(number)?;
        Ok(())
    }

    /// Subscribes a statement to an event.
    fn call(&mut self, alloc: Global, event: WakeEvent, number: usize) -> Result<(), AllocError>
        ensures called { OnOk result ((e : SomeEvent) (k : ℕ)
            → is_called self.new e k ≡ (same_event (event_key event) (event_key e) && nat_eq number k) || is_called self.old e k) }
        ensures fresh { self.new.fresh ≡ self.old.fresh }
        ensures awake { self.new.awake.items ≡ self.old.awake.items }
        ensures asleep { self.new.asleep ≡ self.old.asleep }
    {
        self.make_list(alloc, event)?;
        self.put(event, number)
    }

    /// Creates an empty set of subscribers for an event, unless it has one.
    fn make_list(&mut self, alloc: Global, event: WakeEvent) -> Result<(), AllocError>
        ensures called { OnOk result ((e : SomeEvent) (k : ℕ) → is_called self.new e k ≡ is_called self.old e k) }
        ensures there { OnOk result (IsSome (get same_event self.new.called (event_key event))) }
        ensures fresh { self.new.fresh ≡ self.old.fresh }
        ensures awake { self.new.awake.items ≡ self.old.awake.items }
        ensures asleep { self.new.asleep ≡ self.old.asleep }
    {
        if !self.called.contains_key(&event.key()) {
            self.called.insert(event.key(), HashSet::new(alloc))?;
        }
        Ok(())
    }

    /// Adds a statement to the subscribers of an event, whose set must exist.
    fn put(&mut self, event: WakeEvent, number: usize) -> Result<(), AllocError>
        requires { IsSome (get same_event self.old.called (event_key event)) }
        ensures called { OnOk result ((e : SomeEvent) (k : ℕ)
            → is_called self.new e k ≡ (same_event (event_key event) (event_key e) && nat_eq number k) || is_called self.old e k) }
        ensures fresh { self.new.fresh ≡ self.old.fresh }
        ensures awake { self.new.awake.items ≡ self.old.awake.items }
        ensures asleep { self.new.asleep ≡ self.old.asleep }
    {
        match self.called.get_mut(&event.key()) {
            Some(numbers) => {
                numbers.insert(number)?;
                Ok(())
            }
            None => Ok(()),
        }
    }

    /// Wakes the sleeping subscribers of an event.
    pub fn notify(&mut self, event: WakeEvent) -> Result<(), AllocError>
        ensures { OnOk result (AreWoken self.old self.new (event ∷ [])) }
    {
        match self.called.get(&event.key()) {
            Some(numbers) => {
                wake_all(numbers, &mut self.asleep, &mut self.awake)?;
                Ok(())
            }
            None => Ok(()),
        }
    }
}

/// Wakes those of these statements that sleep.
fn wake_all(
    numbers: &HashSet<usize>,
    asleep: &mut HashSet<usize>,
    awake: &mut Vec<usize>,
) -> Result<(), AllocError>
    ensures fewer { OnOk result ((k : ℕ) → contains nat_eq asleep.new k ≡ true → contains nat_eq asleep.old k ≡ true) }
    ensures others { OnOk result ((k : ℕ) → contains nat_eq asleep.new k ≡ true → contains nat_eq numbers.now k ≡ false) }
    ensures woken { OnOk result ((k : ℕ) → contains nat_eq asleep.old k ≡ true → (contains nat_eq asleep.new k ≡ true) ⊎ (k ∈ awake.new.items)) }
    ensures still { OnOk result ((k : ℕ) → k ∈ awake.old.items → k ∈ awake.new.items) }
{
    for number in numbers {
        wake_one(number, asleep, awake)?;
    }
    Ok(())
}

/// Wakes a statement if it sleeps.
fn wake_one(
    number: &usize,
    asleep: &mut HashSet<usize>,
    awake: &mut Vec<usize>,
) -> Result<(), AllocError>
    ensures fewer { OnOk result ((k : ℕ) → contains nat_eq asleep.new k ≡ cond (nat_eq number.now k) false (contains nat_eq asleep.old k)) }
    ensures woken { OnOk result (contains nat_eq asleep.old number.now ≡ true → number.now ∈ awake.new.items) }
    ensures still { OnOk result ((k : ℕ) → k ∈ awake.old.items → k ∈ awake.new.items) }
{
    if !asleep.remove(number) {
        return Ok(());
    }
    awake.push(*number)?;
    Ok(())
}
