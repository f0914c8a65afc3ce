//! The store: a slab of data under numbers, with the public operations.
ghost use Rattle.std.specs.Prelude.{◌≡◌, ◌+◌, ◌<◌, ◌≤◌, ◌^◌, ◌==◌, ◌↔◌, None, IsSome, length, IfErr, IfOk, IsOk, IsTrue, OnOk, OnErr, option_copied};
ghost use Rattle.values.specs.Keys.{key_seen};
ghost use Rattle.values.specs.Maps.{found};
ghost use Rattle.data_store.specs.Arrays as arrays;
ghost use Rattle.data_store.specs.Arrays.{with_element};
ghost use Rattle.data_store.specs.Data.{with_value, with_array, with_holds, without_read, without_write, RefusesPut, RefusesInsert};
ghost use Rattle.data_store.specs.Stores.{empty, live, shape_at, IsLive, IsScalarAt, IsArrayAt, datum, value_at, array_at, fresh, changed, given_up, with_bound, with_room, Adds};

use crate::datum::{Content, Datum};
use crate::refusal::StoreRefusal;
use slab::Slab;
use std::alloc::{AllocError, Global};
use std::marker::Model;
use values::datum_kind::DatumKind;
use values::key::{Key, KeyRef};
use values::map::Map;
use values::value::Scalar;

/// The number of a datum. It is reused only after the datum was freed.
pub type DatumNo = usize;

/// The data, by number, each with its two counts. A number without a datum may be used by the next `new_cell`.
#[derive(Drop)]
pub struct Store {
    cells: Slab<Datum>,
    room: usize,
    alloc: Global,
}

impl Model for Store {
    ghost use Rattle.data_store.specs.Stores.{Store, HasRoom};

    ghost Value = { Store };

    ghost view = { λ s. record { cells = s.cells.slots; room = s.room; bound = s.cells.capacity } };

    ghost invariant = { λ s. HasRoom s.cells.slots s.cells.capacity s.room };
}

impl Store {
    pub fn new(alloc: Global) -> Store
        ensures { result ≡ empty }
    {
        Store {
            cells: Slab::new(alloc),
            room: 0,
            alloc,
        }
    }

    /// Makes room for `n` data, so that the next `n` calls of `new_cell` succeed, whatever other calls come between
    /// them.
    ///
    /// # Errors
    ///
    /// Returns `AllocError` if there was less room and an allocation fails.
    pub fn reserve_cells(&mut self, n: usize) -> Result<(), AllocError>
        ensures ok { OnOk result (self.new ≡ with_bound self.new.bound (with_room n self.old)) }
        ensures succeeds { n ≤ self.old.room → IsOk result }
        ensures kept { n ≤ self.old.room → self.new.bound ≡ self.old.bound }
        ensures err { OnErr result (self.new ≡ with_bound self.new.bound self.old) }
    {
        if self.room < n {
            self.cells.reserve(n)?;
            self.room = n;
        }
        Ok(())
    }

    /// Returns a bound of the numbers: each datum created with room from `reserve_cells` has a smaller one.
    pub fn bound(&self) -> usize
        ensures { result ≡ self.now.bound }
    {
        self.cells.capacity()
    }

    /// Creates a datum without content, under a number that has none.
    ///
    /// # Errors
    ///
    /// Returns `AllocError` if there was no room and an allocation fails.
    pub fn new_cell(
        &mut self,
        shape: DatumKind,
        reads: u64,
        writes: u64,
    ) -> Result<DatumNo, AllocError>
        requires { 0 < reads + writes }
        ensures ok { IfOk result (λ d. Adds self.old d (fresh shape reads writes) self.new) }
        ensures below { 0 < self.old.room → IfOk result (λ d. d < self.old.bound) }
        ensures kept { 0 < self.old.room → self.new.bound ≡ self.old.bound }
        ensures succeeds { 0 < self.old.room → IsOk result }
        ensures err { OnErr result (self.new ≡ with_bound self.new.bound self.old) }
    {
        self.cells.reserve(1)?;
        let content = Content::new(shape);
        let d = self.cells.insert_reserved(Datum {
            content,
            reads,
            writes,
        });
        self.room = self.room.saturating_sub(1);
        Ok(d)
    }

    /// Sets the value of a scalar.
    ///
    /// # Errors
    ///
    /// Returns `AlreadySet` if it has a value.
    pub fn put(&mut self, d: DatumNo, value: Scalar) -> Result<(), StoreRefusal>
        requires { IsScalarAt self.old d }
        ensures ok { OnOk result ((value_at self.old d ≡ None) × (self.new ≡ changed d (with_value value) self.old)) }
        ensures refused { IfErr result (λ e. RefusesPut (datum self.old d) e) }
        ensures err { OnErr result (self.new ≡ self.old) }
    {
        self.cells[d].put(value)
    }

    /// Inserts an element into an array.
    ///
    /// # Errors
    ///
    /// Returns `Closed` if no hold for writing is left, and `ElementTwice` if the key has an element. Returns `Memory`
    /// if there was no room and an allocation fails.
    #[inline(always)]
    pub fn insert(&mut self, d: DatumNo, key: Key, value: Scalar) -> Result<(), StoreRefusal>
        requires { IsArrayAt self.old d }
        ensures ok { OnOk result ((0 < (datum self.old d).writes) × (found key (array_at self.old d).elements ≡ None)
            × (self.new ≡ changed d (with_array (with_element key value)) self.old)) }
        ensures refused { IfErr result (λ e. RefusesInsert key (datum self.old d) e) }
        ensures err { OnErr result (self.new ≡ self.old) }
    {
        let alloc = self.alloc;
        self.cells[d].insert(alloc, key, value)
    }

    /// Makes room in an array. The next `n` calls of `insert` then do not fail for lack of memory, whatever other calls
    /// come between them.
    ///
    /// # Errors
    ///
    /// Returns `AllocError` if there was less room and an allocation fails.
    pub fn reserve(&mut self, d: DatumNo, n: usize) -> Result<(), AllocError>
        requires { IsArrayAt self.old d }
        ensures ok { OnOk result (self.new ≡ changed d (with_array (arrays.with_room n)) self.old) }
        ensures succeeds { n ≤ (array_at self.old d).room → n ≤ (array_at self.old d).text_room → IsOk result }
        ensures err { OnErr result (self.new ≡ self.old) }
    {
        let alloc = self.alloc;
        self.cells[d].reserve(alloc, n)
    }

    /// Makes room in an array for keys of the same kind as `key`. The next `n` calls of `insert` with such keys then do
    /// not fail for lack of memory, whatever other calls come between them.
    ///
    /// # Errors
    ///
    /// Returns `AllocError` if there was less room and an allocation fails.
    #[inline(always)]
    pub fn reserve_for(&mut self, d: DatumNo, key: KeyRef<'_>, n: usize) -> Result<(), AllocError>
        requires { IsArrayAt self.old d }
        ensures ok { OnOk result (self.new ≡ changed d (with_array (arrays.with_room_for (key_seen key.entry) n)) self.old) }
        ensures succeeds { n ≤ arrays.room_for (key_seen key.entry) (array_at self.old d) → IsOk result }
        ensures err { OnErr result (self.new ≡ self.old) }
    {
        let alloc = self.alloc;
        self.cells[d].reserve_for(alloc, key, n)
    }

    /// Returns the value of a scalar, or `None` if it has none yet.
    pub fn value(&self, d: DatumNo) -> Option<&Scalar>
        requires { IsScalarAt self.now d }
        ensures { option_copied result ≡ value_at self.now d }
    {
        self.cells[d].content.value()
    }

    /// Returns the element of an array under a key, whether the array is closed or not.
    #[inline(always)]
    pub fn element(&self, d: DatumNo, key: KeyRef<'_>) -> Option<&Scalar>
        requires { IsArrayAt self.now d }
        ensures { option_copied result ≡ found (key_seen key.entry) (array_at self.now d).elements }
    {
        self.cells[d].content.element(key)
    }

    /// Returns the number of elements of an array, whether it is closed or not.
    pub fn size(&self, d: DatumNo) -> usize
        requires { IsArrayAt self.now d }
        ensures { result ≡ length (array_at self.now d).elements }
    {
        self.cells[d].content.size()
    }

    /// Returns the kind of the datum with this number, or `None` if there is none.
    pub fn shape(&self, d: DatumNo) -> Option<DatumKind>
        ensures { result ≡ shape_at self.now d }
    {
        match self.cells.get(d) {
            Some(datum) => Some(datum.content.shape()),
            None => None,
        }
    }

    /// Returns all elements of an array by ascending key. The list that `whole` made is shared, if it was made since
    /// the last insert.
    ///
    /// # Errors
    ///
    /// Returns `AllocError` if an allocation fails.
    pub fn listed(&self, d: DatumNo) -> Result<Map, AllocError>
        requires { IsArrayAt self.now d }
        ensures { IfOk result (λ map. map ≡ (array_at self.now d).elements) }
    {
        self.cells[d].content.listed(self.alloc)
    }

    /// Returns all elements of an array by ascending key. The first call after an insert sorts them into a new list,
    /// and later calls share that list. So a closed array is sorted once.
    ///
    /// # Errors
    ///
    /// Returns `AllocError` if an allocation fails.
    pub fn whole(&mut self, d: DatumNo) -> Result<Map, AllocError>
        requires { IsArrayAt self.old d }
        ensures whole { IfOk result (λ map. map ≡ (array_at self.old d).elements) }
        ensures same { self.new ≡ self.old }
    {
        let alloc = self.alloc;
        self.cells[d].whole(alloc)
    }

    /// Returns the number of holds for reading that are left.
    pub fn reads(&self, d: DatumNo) -> u64
        requires { IsLive self.now d }
        ensures { result ≡ (datum self.now d).reads }
    {
        self.cells[d].reads
    }

    /// Returns the number of holds for writing that are left.
    pub fn writes(&self, d: DatumNo) -> u64
        requires { IsLive self.now d }
        ensures { result ≡ (datum self.now d).writes }
    {
        self.cells[d].writes
    }

    /// Returns true if no hold for writing is left. The elements of an array are then final.
    pub fn is_closed(&self, d: DatumNo) -> bool
        requires { IsLive self.now d }
        ensures { result ≡ ((datum self.now d).writes == 0) }
    {
        self.cells[d].writes == 0
    }

    /// Adds holds on a datum, for reading and for writing.
    pub fn hold(&mut self, d: DatumNo, reads: u64, writes: u64)
        requires live { IsLive self.old d }
        requires reads { (datum self.old d).reads + reads < 2 ^ 64 }
        requires writes { (datum self.old d).writes + writes < 2 ^ 64 }
        ensures { self.new ≡ changed d (with_holds reads writes) self.old }
    {
        self.cells[d].hold(reads, writes);
    }

    /// Releases a hold for reading, and frees the datum if it was the last hold.
    pub fn release(&mut self, d: DatumNo)
        requires { 0 < (datum self.old d).reads }
        ensures { self.new ≡ given_up d without_read self.old }
    {
        if self.cells[d].has_one_read() {
            let _freed = self.cells.remove(d);
        } else {
            self.cells[d].release();
        }
    }

    /// Releases a hold for writing. The last one for writing closes an array, and the last hold frees the datum.
    pub fn close_writer(&mut self, d: DatumNo)
        requires { 0 < (datum self.old d).writes }
        ensures { self.new ≡ given_up d without_write self.old }
    {
        if self.cells[d].has_one_write() {
            let _freed = self.cells.remove(d);
        } else {
            self.cells[d].close_writer();
        }
    }

    pub fn is_live(&self, d: DatumNo) -> bool
        ensures { IsTrue result ↔ IsLive self.now d }
    {
        self.cells.contains(d)
    }

    /// Returns the number of data.
    pub fn len(&self) -> usize
        ensures { result ≡ live self.now }
    {
        self.cells.len()
    }
}
