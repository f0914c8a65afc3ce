//! Index of the first write of each key of an array.
ghost use Rattle.std.specs.Prelude.{◌≡◌, None, Some, OnErr, OnOk, if◌then◌else◌};
ghost use Rattle.values.specs.declared.key.Key.{Key};
ghost use Rattle.values.specs.Keys.{key_seen, same_key};
ghost use Rattle.meaning_facts.specs.Indexed.{first_at};

use std::alloc::{AllocError, Global};
use std::collections::HashMap;
use values::key::{Key, KeyRef};
use values::text::Text;

/// The index of the first write of a key, and whether the key has further writes.
#[derive(Clone, Copy)]
pub struct FirstWrite {
    pub at: usize,
    pub is_several: bool,
}

/// A map from keys to their first writes, with separate maps for numbers and texts.
#[derive(Drop)]
pub struct FirstWrites {
    numbers: HashMap<i64, FirstWrite>,
    texts: HashMap<Text, FirstWrite>,
}

impl FirstWrites {
    /// Creates an empty index.
    pub fn new(alloc: Global) -> FirstWrites
        ensures { (k : Key) → first_at result k ≡ None }
    {
        FirstWrites {
            numbers: HashMap::new(alloc),
            texts: HashMap::new(alloc),
        }
    }

    /// Returns the first write of a key, if there is one.
    pub fn get(&self, key: KeyRef<'_>) -> Option<FirstWrite>
        ensures { result ≡ first_at self.now (key_seen key.entry) }
    {
        match key {
            KeyRef::Number(n) => self.numbers.get(&n).copied(),
            KeyRef::Text(text) => self.texts.get(text).copied(),
        }
    }

    /// Records the first write of a key.
    pub fn put(&mut self, key: &Key, first: FirstWrite) -> Result<(), AllocError>
        ensures put { OnOk result ((k : Key) → first_at self.new k ≡ (if same_key key.now k then Some first else first_at self.old k)) }
        ensures same { OnErr result ((k : Key) → first_at self.new k ≡ first_at self.old k) }
    {
        match key {
            Key::Number(n) => {
                self.numbers.insert(*n, first)?;
            }
            Key::Text(text) => {
                self.texts.insert(text.share()?, first)?;
            }
        }
        Ok(())
    }
}
