//! Writes of an array, indexed by key.
ghost use Rattle.std.specs.Prelude.{◌≡◌, ◌++◌, ◌∷◌, ◌&&◌, [], not, IfOk, OnOk};
ghost use Rattle.meaning_facts.specs.Added.{with_write};
ghost use Rattle.meaning_facts.specs.Indexed.{again, one_writer_in};
ghost use Rattle.meaning_facts.specs.Store.{is_written_in, WrittenAs, writes_under};
ghost use Rattle.values.specs.Keys.{key_seen};

use crate::facts::{KeyWrites, Place, Write};
use crate::first_writes::{FirstWrite, FirstWrites};
use std::alloc::{AllocError, Global};
use std::marker::Model;
use values::key::KeyRef;

/// The writes of an array, in the order in which they were added. An index gives the first write of each key.
#[derive(Drop)]
pub struct Writes {
    all: Vec<Write>,
    firsts: FirstWrites,
    is_apart: bool,
}

impl Model for Writes {
    ghost use Rattle.std.specs.Prelude.{List};
    ghost use Rattle.meaning_facts.specs.declared.facts.Write.{Write};
    ghost use Rattle.meaning_facts.specs.Indexed.{IsIndexed};

    ghost Value = { List Write };

    ghost view = { λ w. w.all.items };

    ghost invariant = { λ w. IsIndexed w.all.items w.firsts w.is_apart };
}

impl Writes {
    /// Creates an empty list of writes.
    pub fn new(alloc: Global) -> Writes
        ensures { result ≡ [] }
    {
        Writes {
            all: Vec::new(alloc),
            firsts: FirstWrites::new(alloc),
            is_apart: true,
        }
    }

    pub fn as_slice(&self) -> &[Write]
        ensures { result.now ≡ self.now }
    {
        self.all.as_slice()
    }

    /// Returns the writes of a key.
    pub fn written(&self, key: KeyRef<'_>) -> KeyWrites<'_>
        ensures { WrittenAs result (writes_under self.now (key_seen key.entry)) }
    {
        match self.firsts.get(key) {
            None => KeyWrites::Never,
            Some(first) if first.is_several => KeyWrites::Twice,
            Some(first) => KeyWrites::Once(&self.all[first.at].value),
        }
    }

    /// Returns true if a statement has written a key.
    pub fn is_written_by(&self, key: KeyRef<'_>, writer: Place) -> bool
        ensures { result ≡ is_written_in self.now (key_seen key.entry) writer }
    {
        match self.firsts.get(key) {
            None => false,
            Some(first) if first.is_several => has_writer(self.all.as_slice(), key, writer),
            Some(first) => self.all[first.at].writer.is_same(writer),
        }
    }

    /// Returns true if no two writes have the same key.
    pub fn has_one_writer(&self) -> bool
        ensures { result ≡ one_writer_in self.now }
    {
        self.is_apart
    }

    /// Appends a write, unless its writer has already written the key. Returns true if it was appended.
    pub fn put(&mut self, write: Write) -> Result<bool, AllocError>
        ensures put { OnOk result (self.new ≡ with_write self.old write) }
        ensures new { IfOk result (λ new. new ≡ not (is_written_in self.old write.key write.writer)) }
    {
        if self.is_written_by(write.key.as_ref(), write.writer) {
            return Ok(false);
        }
        self.push(write)?;
        Ok(true)
    }

    fn push(&mut self, write: Write) -> Result<(), AllocError>
        ensures { OnOk result (self.new ≡ self.old ++ write ∷ []) }
    {
        self.all.reserve(1)?;
        let first = with_another(self.firsts.get(write.key.as_ref()), self.all.len());
        self.firsts.put(&write.key, first)?;
        self.is_apart = stays_apart(self.is_apart, first);
        self.all.push(write)?;
        Ok(())
    }
}

/// Returns the first write of a key after one more write of that key, which is appended at index `len`.
fn with_another(first: Option<FirstWrite>, len: usize) -> FirstWrite
    ensures { result ≡ again len first }
{
    match first {
        Some(first) => FirstWrite {
            at: first.at,
            is_several: true,
        },
        None => FirstWrite {
            at: len,
            is_several: false,
        },
    }
}

/// Returns true if still no two writes have the same key. `first` is the first write of the key that was written last.
fn stays_apart(is_apart: bool, first: FirstWrite) -> bool
    ensures { result ≡ is_apart && not first.is_several }
{
    is_apart && !first.is_several
}

/// Returns true if one of these writes has this key and this writer.
fn has_writer(writes: &[Write], key: KeyRef<'_>, writer: Place) -> bool
    ensures { result ≡ is_written_in writes.now (key_seen key.entry) writer }
{
    for write in writes {
        if write.key.as_ref().is_same(key) && write.writer.is_same(writer) {
            return true;
        }
    }
    false
}
