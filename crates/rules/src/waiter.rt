//! Waiters: items that wait, each with its missing inputs.
ghost use Rattle.std.specs.Prelude.{◌≡◌, ◌==◌, true, length};
ghost use Rattle.rules.specs.Missing.{inputs_of};
ghost use Rattle.rules.specs.Waiting.{with_known};
ghost use Rattle.rules.specs.Places.{needs};

use crate::input::Input;
use crate::missing::{InputCount, Missing};
use smallvec::SmallVec;
use std::alloc::Global;
use std::marker::Model;

/// A waiting item with the inputs that it still misses.
#[derive(Drop)]
pub struct Waiter {
    item: u64,
    missing: Missing,
}

impl Model for Waiter {
    ghost use Rattle.rules.specs.Missing.{inputs_in};
    ghost use Rattle.rules.specs.Waiting.{Waiting};

    ghost Value = { Waiting };

    ghost view = { λ a. record { item = a.item; missing = inputs_in a.missing } };
}

impl Waiter {
    pub fn new(alloc: Global, item: u64, missing: SmallVec<Input, 2>) -> Waiter
        ensures { result ≡ record { item = item; missing = missing.items } }
    {
        Waiter {
            item,
            missing: Missing::of(alloc, missing),
        }
    }

    pub fn item(&self) -> u64
        ensures { result ≡ self.now.item }
    {
        self.item
    }

    /// Returns the number of missing inputs.
    pub fn count(&self) -> usize
        ensures { result ≡ length self.now.missing }
    {
        self.missing.len()
    }

    /// Returns the missing inputs.
    #[inline(always)]
    pub fn missing(&self) -> InputCount<'_>
        ensures { inputs_of result ≡ self.now.missing }
    {
        self.missing.listed()
    }

    /// Returns false only if the item need not be noted at this address.
    pub fn may_need(&self, address: u32) -> bool
        ensures { needs address self.now ≡ true → result ≡ true }
    {
        match self.missing() {
            InputCount::Nothing => false,
            InputCount::One(only) => only.is_at(address),
            InputCount::Two(first, second) => first.is_at(address) || second.is_at(address),
            InputCount::More(many) => many.may_be_at(address),
        }
    }

    /// Returns true if no input is missing.
    pub fn is_ready(&self) -> bool
        ensures { result ≡ (length self.now.missing == 0) }
    {
        self.missing.is_nothing()
    }

    /// Removes the missing inputs that this input covers.
    pub fn learn(&mut self, input: &Input)
        ensures { self.new ≡ with_known input.now self.old }
    {
        self.missing.learn(input);
    }
}
