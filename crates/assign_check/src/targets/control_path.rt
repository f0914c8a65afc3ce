//! The variables that some control path assigns before the current statement.
ghost use Rattle.std.specs.Prelude.{◌≡◌, map};
ghost use Rattle.language.specs.Core as core;
ghost use Rattle.types.specs.Typed.{owned_name};
ghost use Rattle.assign_check.specs.Faults as faults;
ghost use Rattle.assign_check.specs.Tables.{at};

use crate::summaries::table::VariableTable;
use std::alloc::{AllocError, Global};
use types::typed::Binding;

/// The assignments on some control path to the current statement, in their order, with a count for each variable.
///
/// After an `if` the list has the assignments of both branches. The counts make a lookup independent of the length of
/// the list.
#[derive(Drop)]
pub struct ControlPath {
    list: Vec<Binding>,
    counts: VariableTable<usize>,
    ghost none: { counts.empty ≡ 0 },
    ghost counted: { (of : core.Owned) → at counts of ≡ faults.times of (map owned_name list.items) },
}

/// Returns true if a variable is declared before the statement with this number. Inputs and outputs are declared before
/// all statements.
pub fn is_before(number: u32, of: Binding) -> bool
    ensures { result ≡ faults.is_before number (owned_name of) }
{
    match of {
        Binding::Local(declared) => declared < number,
        Binding::Input(_) | Binding::Output(_) => true,
    }
}

impl ControlPath {
    ghost use Rattle.std.specs.Prelude.{◌-◌, ◌++◌, ◌∷◌, [], OnOk, IfOk, take, drop, length};
    ghost use Rattle.assign_check.specs.Ways.{listed};

    /// Creates a control path without assignments.
    pub fn new(alloc: Global) -> ControlPath
        ensures { listed result ≡ [] }
    {
        ControlPath {
            list: Vec::new(alloc),
            counts: VariableTable::new(alloc, 0),
        }
    }

    /// Returns the number of assignments.
    pub fn len(&self) -> usize
        ensures { result ≡ length (listed self.now) }
    {
        self.list.len()
    }

    /// Returns the number of assignments to a variable.
    pub fn times(&self, of: Binding) -> usize
        ensures { result ≡ faults.times (owned_name of) (listed self.now) }
    {
        self.counts.get(of)
    }

    /// Returns true if a variable is assigned.
    pub fn holds(&self, of: Binding) -> bool
        ensures { result ≡ faults.is_among (owned_name of) (listed self.now) }
    {
        self.times(of) > 0
    }

    /// Appends an assignment to a variable.
    pub fn push(&mut self, of: Binding) -> Result<(), AllocError>
        ensures { OnOk result (listed self.new ≡ listed self.old ++ owned_name of ∷ []) }
    {
        self.list.push(of)?;
        let times = self.counts.get(of);
        if let Err(refused) = self.counts.set(of, times + 1) {
            let _last = self.list.pop();
            return Err(refused);
        }
        Ok(())
    }

    /// Removes the last assignment. Does nothing if there is none.
    fn pop(&mut self)
        ensures { listed self.new ≡ take (length (listed self.old) - 1) (listed self.old) }
    {
        if let Some(of) = self.list.pop() {
            let times = self.counts.get(of);
            self.counts.put(of, times - 1);
        }
    }

    /// Removes all assignments except the first `from`.
    pub fn truncate(&mut self, from: usize)
        ensures { listed self.new ≡ take from (listed self.old) }
    {
        while self.list.len() > from {
            self.pop();
        }
    }

    /// Removes all assignments except the first `from`, and returns the removed ones in their order.
    pub fn set_aside(&mut self, alloc: Global, from: usize) -> Result<Vec<Binding>, AllocError>
        ensures kept { OnOk result (listed self.new ≡ take from (listed self.old)) }
        ensures part { IfOk result (λ part. map owned_name part.items ≡ drop from (listed self.old)) }
    {
        let mut part = Vec::new(alloc);
        for i in from..self.list.len() {
            part.push(self.list[i])?;
        }
        self.truncate(from);
        Ok(part)
    }

    /// Appends assignments to these variables, in order.
    pub fn extend(&mut self, part: &[Binding]) -> Result<(), AllocError>
        ensures { OnOk result (listed self.new ≡ listed self.old ++ map owned_name part.now) }
    {
        for one in part {
            self.push(*one)?;
        }
        Ok(())
    }
}
