//! A table with a set of numbers for each variable.
ghost use Rattle.std.specs.Prelude.{◌≡◌, [], ℕ, OnOk, cond, nat_eq};
ghost use Rattle.types.specs.Typed.{owned_name};
ghost use Rattle.language.specs.Core as core;
ghost use Rattle.assign_check.specs.Faults as faults;
ghost use Rattle.assign_check.specs.Sets.{set_at, set_in};

use std::alloc::{AllocError, Global};
use types::typed::Binding;

/// A set of numbers for each variable, as in `numbers`. A variable without an entry has the empty vector, the set of 0
/// alone.
///
/// One vector for each kind of variable, indexed by node number or by position.
#[derive(Drop)]
pub struct CountSets {
    locals: Vec<Vec<bool>>,
    inputs: Vec<Vec<bool>>,
    outputs: Vec<Vec<bool>>,
}

impl CountSets {
    /// Creates a table with the empty vector for each variable.
    pub fn new(alloc: Global) -> CountSets
        ensures { (of : core.Owned) → set_at result of ≡ [] }
    {
        CountSets {
            locals: Vec::new(alloc),
            inputs: Vec::new(alloc),
            outputs: Vec::new(alloc),
        }
    }

    /// Returns the set of a variable.
    pub fn get(&self, of: Binding) -> &[bool]
        ensures { result.now ≡ set_at self.now (owned_name of) }
    {
        match of {
            Binding::Local(number) => set_in_place(self.locals.as_slice(), number as usize),
            Binding::Input(input) => set_in_place(self.inputs.as_slice(), input),
            Binding::Output(output) => set_in_place(self.outputs.as_slice(), output),
        }
    }

    /// Stores the set of a variable.
    pub fn set(&mut self, alloc: Global, of: Binding, set: Vec<bool>) -> Result<(), AllocError>
        ensures { OnOk result ((other : core.Owned) → set_at self.new other ≡ cond (faults.same (owned_name of) other) set.items (set_at self.old other)) }
    {
        match of {
            Binding::Local(number) => place(alloc, &mut self.locals, number as usize, set),
            Binding::Input(input) => place(alloc, &mut self.inputs, input, set),
            Binding::Output(output) => place(alloc, &mut self.outputs, output, set),
        }
    }
}

/// Returns the set at an index, or the empty vector beyond the end.
fn set_in_place(sets: &[Vec<bool>], number: usize) -> &[bool]
    ensures { result.now ≡ set_in sets.now number }
{
    match sets.get(number) {
        Some(set) => set.as_slice(),
        None => &[],
    }
}

/// Stores a set at an index, and extends the table with empty vectors as far as needed.
fn place(
    alloc: Global,
    sets: &mut Vec<Vec<bool>>,
    number: usize,
    set: Vec<bool>,
) -> Result<(), AllocError>
    ensures { OnOk result ((other : ℕ) → set_in sets.new.items other ≡ cond (nat_eq number other) set.items (set_in sets.old.items other)) }
{
    for _ in sets.len()..number {
        sets.push(Vec::new(alloc))?;
    }
    if number < sets.len() {
        sets[number] = set;
    } else {
        sets.push(set)?;
    }
    Ok(())
}
