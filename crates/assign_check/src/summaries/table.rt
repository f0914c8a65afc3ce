//! A table with a value for each variable.
ghost use Rattle.std.specs.Prelude.{◌≡◌, ◌≢◌, ℕ, OnOk, OnErr, slice_get, cond, nat_eq};
ghost use Rattle.types.specs.Typed.{owned_name};
ghost use Rattle.language.specs.Core as core;
ghost use Rattle.assign_check.specs.Faults as faults;
ghost use Rattle.assign_check.specs.Tables.{at, or_empty};

use std::alloc::{AllocError, Global};
use types::typed::Binding;

/// A value for each variable; a variable without an entry has the value `empty`.
///
/// One vector for each kind of variable, indexed by node number or by position.
#[derive(Drop)]
pub struct VariableTable<T: Drop> {
    empty: T,
    locals: Vec<T>,
    inputs: Vec<T>,
    outputs: Vec<T>,
}

impl<T: Copy + Drop> VariableTable<T> {
    /// Creates a table with the value `empty` for each variable.
    pub fn new(alloc: Global, empty: T) -> VariableTable<T>
        ensures all { (of : core.Owned) → at result of ≡ empty }
        ensures empty { result.empty ≡ empty }
    {
        VariableTable {
            empty,
            locals: Vec::new(alloc),
            inputs: Vec::new(alloc),
            outputs: Vec::new(alloc),
        }
    }

    /// Returns the value of a variable.
    pub fn get(&self, of: Binding) -> T
        ensures { result ≡ at self.now (owned_name of) }
    {
        match of {
            Binding::Local(number) => value_at(self.locals.as_slice(), number as usize, self.empty),
            Binding::Input(place) => value_at(self.inputs.as_slice(), place, self.empty),
            Binding::Output(place) => value_at(self.outputs.as_slice(), place, self.empty),
        }
    }

    /// Stores the value of a variable. If an allocation fails, the table is unchanged.
    pub fn set(&mut self, of: Binding, value: T) -> Result<(), AllocError>
        ensures set { OnOk result ((other : core.Owned) → at self.new other ≡ cond (faults.same (owned_name of) other) value (at self.old other)) }
        ensures kept { OnErr result ((other : core.Owned) → at self.new other ≡ at self.old other) }
        ensures empty { self.new.empty ≡ self.old.empty }
    {
        match of {
            Binding::Local(number) => place(&mut self.locals, number as usize, value, self.empty),
            Binding::Input(input) => place(&mut self.inputs, input, value, self.empty),
            Binding::Output(output) => place(&mut self.outputs, output, value, self.empty),
        }
    }

    /// Replaces the value of a variable that has a value other than `empty`. Allocates no memory.
    pub fn put(&mut self, of: Binding, value: T)
        ensures put { at self.old (owned_name of) ≢ self.old.empty → (other : core.Owned)
            → at self.new other ≡ cond (faults.same (owned_name of) other) value (at self.old other) }
        ensures empty { self.new.empty ≡ self.old.empty }
    {
        match of {
            Binding::Local(number) => replace(&mut self.locals, number as usize, value),
            Binding::Input(place) => replace(&mut self.inputs, place, value),
            Binding::Output(place) => replace(&mut self.outputs, place, value),
        }
    }
}

/// Replaces the value at an index. Does nothing beyond the end.
fn replace<T: Copy + Drop>(values: &mut Vec<T>, number: usize, value: T)
    ensures { (empty : T) → or_empty empty (slice_get values.old.items number) ≢ empty → (other : ℕ)
        → or_empty empty (slice_get values.new.items other) ≡ cond (nat_eq number other) value (or_empty empty (slice_get values.old.items other)) }
{
    if number < values.len() {
        values[number] = value;
    }
}

/// Returns the value at an index, or `empty` beyond the end.
fn value_at<T: Copy + Drop>(values: &[T], number: usize, empty: T) -> T
    ensures { result ≡ or_empty empty (slice_get values.now number) }
{
    match values.get(number) {
        Some(value) => *value,
        None => empty,
    }
}

/// Stores a value at an index, and extends the vector with `empty` as far as needed. If an allocation fails, no value
/// is changed.
fn place<T: Copy + Drop>(
    values: &mut Vec<T>,
    number: usize,
    value: T,
    empty: T,
) -> Result<(), AllocError>
    ensures set { OnOk result ((other : ℕ) → or_empty empty (slice_get values.new.items other)
        ≡ cond (nat_eq number other) value (or_empty empty (slice_get values.old.items other))) }
    ensures kept { OnErr result ((other : ℕ) → or_empty empty (slice_get values.new.items other) ≡ or_empty empty (slice_get values.old.items other)) }
{
    for _ in values.len()..number {
        values.push(empty)?;
    }
    if number < values.len() {
        values[number] = value;
    } else {
        values.push(value)?;
    }
    Ok(())
}
