//! A datum: its content, and its counts of remaining readers and writers.
ghost use Rattle.std.specs.Prelude.{◌≡◌, ◌+◌, ◌<◌, ◌≤◌, ◌^◌, None, length, IfErr, IfOk, IsOk, OnOk, OnErr, option_copied};
ghost use Rattle.values.specs.Maps.{found};
ghost use Rattle.values.specs.Keys.{key_seen};
ghost use Rattle.data_store.specs.Arrays.{room_for, with_element, with_room, with_room_for};
ghost use Rattle.data_store.specs.Data.{nothing, shape_of, IsScalar, IsArray, value_of, array_in, with_value, with_array, with_holds, without_read, without_write, is_spent, RefusesPut, RefusesInsert};

use crate::elements::Elements;
use crate::refusal::StoreRefusal;
use std::alloc::{AllocError, Global};
use values::datum_kind::DatumKind;
use values::key::{Key, KeyRef};
use values::map::Map;
use values::value::Scalar;

/// The content of a datum.
#[derive(Drop)]
pub enum Content {
    OfScalar(Option<Scalar>),
    OfArray(Elements),
}

/// The content of a datum, with the number of holds for reading and for writing that are left.
#[derive(Drop)]
pub struct Datum {
    pub content: Content,
    pub reads: u64,
    pub writes: u64,
}

impl Content {
    /// Creates the content of a new datum.
    pub fn new(shape: DatumKind) -> Content
        ensures { result ≡ nothing shape }
    {
        match shape {
            DatumKind::Single => Content::OfScalar(None),
            DatumKind::Keyed => Content::OfArray(Elements::new()),
        }
    }

    pub fn value(&self) -> Option<&Scalar>
        ensures { option_copied result ≡ value_of self.now }
    {
        match self {
            Content::OfScalar(Some(value)) => Some(value),
            _ => None,
        }
    }

    #[inline(always)]
    pub fn element(&self, key: KeyRef<'_>) -> Option<&Scalar>
        ensures { option_copied result ≡ found (key_seen key.entry) (array_in self.now).elements }
    {
        match self {
            Content::OfArray(elements) => elements.get(key),
            Content::OfScalar(_) => None,
        }
    }

    pub fn shape(&self) -> DatumKind
        ensures { result ≡ shape_of self.now }
    {
        match self {
            Content::OfScalar(_) => DatumKind::Single,
            Content::OfArray(_) => DatumKind::Keyed,
        }
    }

    pub fn listed(&self, alloc: Global) -> Result<Map, AllocError>
        requires { IsArray self.now }
        ensures { IfOk result (λ map. map ≡ (array_in self.now).elements) }
    {
        match self {
            Content::OfArray(elements) => elements.listed(alloc),
            Content::OfScalar(_) => unreachable!(),
        }
    }

    pub fn size(&self) -> usize
        ensures { result ≡ length (array_in self.now).elements }
    {
        match self {
            Content::OfArray(elements) => elements.len(),
            Content::OfScalar(_) => 0,
        }
    }
}

impl Datum {
    pub fn put(&mut self, value: Scalar) -> Result<(), StoreRefusal>
        requires { IsScalar self.old.content }
        ensures ok { OnOk result ((value_of self.old.content ≡ None) × (self.new ≡ with_value value self.old)) }
        ensures refused { IfErr result (λ e. RefusesPut self.old e) }
        ensures err { OnErr result (self.new ≡ self.old) }
    {
        match &self.content {
            Content::OfScalar(None) => {
                self.content = Content::OfScalar(Some(value));
                Ok(())
            }
            Content::OfScalar(Some(_)) => Err(StoreRefusal::AlreadySet),
            Content::OfArray(_) => unreachable!(),
        }
    }

    #[inline(always)]
    pub fn insert(&mut self, alloc: Global, key: Key, value: Scalar) -> Result<(), StoreRefusal>
        requires { IsArray self.old.content }
        ensures ok { OnOk result ((0 < self.old.writes) × (found key (array_in self.old.content).elements ≡ None)
            × (self.new ≡ with_array (with_element key value) self.old)) }
        ensures refused { IfErr result (λ e. RefusesInsert key self.old e) }
        ensures err { OnErr result (self.new ≡ self.old) }
    {
        if self.writes == 0 {
            return Err(StoreRefusal::Closed);
        }
        match &mut self.content {
            Content::OfArray(elements) => {
                if elements.get(key.as_ref()).is_some() {
                    return Err(StoreRefusal::ElementTwice);
                }
                match elements.insert(alloc, key, value) {
                    Ok(()) => Ok(()),
                    Err(_) => Err(StoreRefusal::Memory),
                }
            }
            Content::OfScalar(_) => unreachable!(),
        }
    }

    pub fn reserve(&mut self, alloc: Global, n: usize) -> Result<(), AllocError>
        requires { IsArray self.old.content }
        ensures ok { OnOk result (self.new ≡ with_array (with_room n) self.old) }
        ensures succeeds { n ≤ (array_in self.old.content).room → n ≤ (array_in self.old.content).text_room → IsOk result }
        ensures err { OnErr result (self.new ≡ self.old) }
    {
        match &mut self.content {
            Content::OfArray(elements) => elements.reserve(alloc, n),
            Content::OfScalar(_) => unreachable!(),
        }
    }

    #[inline(always)]
    pub fn reserve_for(
        &mut self,
        alloc: Global,
        key: KeyRef<'_>,
        n: usize,
    ) -> Result<(), AllocError>
        requires { IsArray self.old.content }
        ensures ok { OnOk result (self.new ≡ with_array (with_room_for (key_seen key.entry) n) self.old) }
        ensures succeeds { n ≤ room_for (key_seen key.entry) (array_in self.old.content) → IsOk result }
        ensures err { OnErr result (self.new ≡ self.old) }
    {
        match &mut self.content {
            Content::OfArray(elements) => elements.reserve_for(alloc, key, n),
            Content::OfScalar(_) => unreachable!(),
        }
    }

    pub fn whole(&mut self, alloc: Global) -> Result<Map, AllocError>
        requires { IsArray self.old.content }
        ensures whole { IfOk result (λ map. map ≡ (array_in self.old.content).elements) }
        ensures same { self.new ≡ self.old }
    {
        match &mut self.content {
            Content::OfArray(elements) => elements.whole(alloc),
            Content::OfScalar(_) => unreachable!(),
        }
    }

    pub fn hold(&mut self, reads: u64, writes: u64)
        requires reads { self.old.reads + reads < 2 ^ 64 }
        requires writes { self.old.writes + writes < 2 ^ 64 }
        ensures { self.new ≡ with_holds reads writes self.old }
    {
        self.reads += reads;
        self.writes += writes;
    }

    pub fn release(&mut self)
        requires { 0 < self.old.reads }
        ensures { self.new ≡ without_read self.old }
    {
        self.reads -= 1;
    }

    pub fn close_writer(&mut self)
        requires { 0 < self.old.writes }
        ensures { self.new ≡ without_write self.old }
    {
        self.writes -= 1;
    }

    /// Returns true if the only hold left is one for reading.
    pub fn has_one_read(&self) -> bool
        requires { 0 < self.now.reads }
        ensures { result ≡ is_spent (without_read self.now) }
    {
        self.reads == 1 && self.writes == 0
    }

    /// Returns true if the only hold left is one for writing.
    pub fn has_one_write(&self) -> bool
        requires { 0 < self.now.writes }
        ensures { result ≡ is_spent (without_write self.now) }
    {
        self.reads == 0 && self.writes == 1
    }
}
