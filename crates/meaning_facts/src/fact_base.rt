//! The fact base: facts, block instances, and the set of closed arrays.
ghost use Rattle.std.specs.Prelude.{◌≡◌, option_copied, IfOk};
ghost use Rattle.flow.specs.View.{name_view};
ghost use Rattle.meaning_facts.specs.Fresh.{IsFresh};
ghost use Rattle.meaning_facts.specs.Sighted.{closed_at, scalar_at, sight_of};

use crate::facts::{Facts, Place};
use crate::instances::Instances;
use flow::name::Name;
use std::alloc::{AllocError, Global};
use std::collections::HashSet;
use values::value::{Scalar, Value};

/// Facts, block instances, and the places of the closed arrays.
#[derive(Drop)]
pub struct FactBase {
    pub facts: Facts,
    pub instances: Instances,
    pub closed: HashSet<(usize, u32)>,
}

impl FactBase {
    /// Creates a fact base without facts, which has only the instance of the script.
    pub fn new(alloc: Global) -> Result<FactBase, AllocError>
        ensures { IfOk result IsFresh }
    {
        Ok(FactBase {
            facts: Facts::new(alloc),
            instances: Instances::new(alloc)?,
            closed: HashSet::new(alloc),
        })
    }

    /// Returns true if an array is closed.
    pub fn is_closed(&self, array: Place) -> bool
        ensures { result ≡ closed_at self.now array }
    {
        self.closed.contains(&(array.instance, array.node))
    }

    /// Returns the scalar at a place: its known value, or the value of a loop variable.
    fn scalar_in(&self, place: Place) -> Option<&Scalar>
        ensures { option_copied result ≡ scalar_at self.now place }
    {
        match self.facts.value(place) {
            Some(Value::One(scalar)) => Some(scalar),
            _ => self.instances.variable(place),
        }
    }

    /// Returns the scalar that a name denotes in an instance, if it is known.
    pub fn scalar(&self, instance: usize, name: Name) -> Option<&Scalar>
        ensures { option_copied result ≡ (sight_of self.now instance).scalar (name_view name) }
    {
        self.scalar_in(self.instances.place(instance, name))
    }
}
