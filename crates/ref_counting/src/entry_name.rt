//! Pairs of an entry and a name that it uses or leads to, in flat form for use in sets.
ghost use Rattle.std.specs.Prelude.{◌≡◌, OnOk};
ghost use Rattle.task_code.specs.View.{name_view};
ghost use Rattle.ref_counting.specs.Leads.{Grows, Has, IsPlain, IsThis, name_of};

use indexmap::IndexSet;
use std::alloc::AllocError;
use task_code::entry::{Name, Owned, Variable};

/// An entry with a name that it uses, or that it leads to through a body that it opens.
#[derive(Clone, Copy, PartialEq, Eq, Hash, Debug)]
pub struct EntryName {
    pub entry: u32,
    pub up: usize,
    /// Whether the name refers to a variable of a block, and not to a parameter.
    pub local: bool,
    /// The node of the variable, or 0 for a parameter.
    pub node: u32,
    /// The index of the parameter, or 0 for a variable.
    pub place: usize,
    pub array: bool,
}

impl EntryName {
    /// Creates the pair of this entry and this name.
    pub fn new(entry: u32, name: Name) -> EntryName
        ensures entry { result.entry ≡ entry }
        ensures name { name_of result ≡ name_view name }
        ensures plain { IsPlain result }
    {
        match name.owned {
            Owned::Local(variable) => EntryName {
                entry,
                up: name.up,
                local: true,
                node: variable.node,
                place: 0,
                array: variable.array,
            },
            Owned::Parameter(place, array) => EntryName {
                entry,
                up: name.up,
                local: false,
                node: 0,
                place,
                array,
            },
        }
    }

    /// Returns the name.
    pub fn name(self) -> Name
        ensures { name_view result ≡ name_of self }
    {
        let owned = if self.local {
            Owned::Local(Variable {
                node: self.node,
                array: self.array,
            })
        } else {
            Owned::Parameter(self.place, self.array)
        };
        Name { up: self.up, owned }
    }
}

/// Inserts the pair of this entry and this name.
pub fn add_name(leads: &mut IndexSet<EntryName>, entry: u32, name: Name) -> Result<(), AllocError>
    ensures there { OnOk result (Has leads.new.keys entry (name_view name)) }
    ensures grows { OnOk result (Grows (IsThis entry (name_view name)) leads.old.keys leads.new.keys) }
{
    leads.insert(EntryName::new(entry, name))?;
    Ok(())
}
