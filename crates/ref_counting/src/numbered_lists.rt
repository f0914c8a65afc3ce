//! Lists indexed by number.
ghost use Rattle.std.specs.Prelude.{◌≡◌, ℕ, ◌<◌, [], length, OnOk, IfOk};
ghost use Rattle.dataflow.specs.System.{In};
ghost use Rattle.ref_counting.specs.Rows.{put_in, row};

use std::alloc::{AllocError, Global};
use std::marker::Model;

/// A fixed number of lists, numbered from 0.
#[derive(Drop)]
pub struct NumberedLists<T: Copy> {
    rows: Vec<Vec<T>>,
}

impl<T: Copy> Model for NumberedLists<T> {
    ghost use Rattle.std.specs.Prelude.{List, map};

    ghost Value = { List (List T) };

    ghost view = { λ a. map (λ v. v.items) a.rows.items };
}

impl<T: Copy> NumberedLists<T> {
    /// Creates `count` empty lists.
    pub fn new(alloc: Global, count: usize) -> Result<NumberedLists<T>, AllocError>
        ensures count { IfOk result (λ rows. length rows ≡ count) }
        ensures empty { IfOk result (λ rows. (k : ℕ) → row rows k ≡ []) }
    {
        let mut rows = Vec::with_capacity(alloc, count)?;
        for _row in 0..count {
            rows.push(Vec::new(alloc))?;
        }
        Ok(NumberedLists { rows })
    }

    /// Returns the list of a number, or an empty list if there is none.
    pub fn at(&self, number: usize) -> &[T]
        ensures { result.now ≡ row self.now number }
    {
        match self.rows.get(number) {
            None => &[],
            Some(found) => found.as_slice(),
        }
    }

    /// Appends a value to the list of a number. Does nothing if there is no such list.
    pub fn put(&mut self, number: usize, value: T) -> Result<(), AllocError>
        ensures { OnOk result (self.new ≡ put_in self.old number value) }
    {
        if number < self.rows.len() {
            self.rows[number].push(value)?;
        }
        Ok(())
    }
}
