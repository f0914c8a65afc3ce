//! Direct uses: the names that entries themselves read and write.
ghost use Rattle.std.specs.Prelude.{◌≡◌, ℕ, ◌<◌, ◌^◌, [], ◌∷◌, List, length, map, OnOk, IfOk};
ghost use Rattle.std.specs.List.{flat_map};
ghost use Rattle.dataflow.specs.System.{In};
ghost use Rattle.task_code.specs.Code as pure;
ghost use Rattle.task_code.specs.Code.{entry, needed, targets};
ghost use Rattle.task_code.specs.Exact.{needs_of};
ghost use Rattle.task_code.specs.View.{entry_view, name_view, need_view};
ghost use Rattle.ref_counting.specs.Rights.{Adds};
ghost use Rattle.ref_counting.specs.Uses.{OfThis, UsesBelow, own_of};

use crate::code_tables::CodeTables;
use crate::entry_name::{EntryName, add_name};
use indexmap::IndexSet;
use std::alloc::{AllocError, Global};
use task_code::entry::{Act, Entry, Name, Need, Owned, Variable};

/// The kind of a right.
#[derive(Clone, Copy, PartialEq, Eq, Debug, Drop)]
pub enum RightKind {
    Read,
    Write,
}

/// Adds names of an entry.
fn note_all(
    names: &Vec<Name>,
    number: u32,
    leads: &mut IndexSet<EntryName>,
) -> Result<(), AllocError>
    ensures { OnOk result (Adds (OfThis number (map name_view names.now.items)) leads.old.keys leads.new.keys) }
{
    for name in names {
        note_one(*name, number, leads)?;
    }
    Ok(())
}

/// Adds a name of an entry.
fn note_one(name: Name, number: u32, leads: &mut IndexSet<EntryName>) -> Result<(), AllocError>
    ensures { OnOk result (Adds (OfThis number (name_view name ∷ [])) leads.old.keys leads.new.keys) }
{
    add_name(leads, number, name)?;
    Ok(())
}

/// Adds the names of a need.
fn note_need(need: &Need, number: u32, leads: &mut IndexSet<EntryName>) -> Result<(), AllocError>
    ensures { OnOk result (Adds (OfThis number (needed (need_view need.now))) leads.old.keys leads.new.keys) }
{
    match need {
        Need::Stored(name) => note_one(*name, number, leads),
        Need::Closed(name) => note_one(*name, number, leads),
        Need::At(array, index) => note_two(*array, *index, number, leads),
        Need::AtKey(array, _) => note_one(*array, number, leads),
    }
}

/// Adds two names of an entry.
fn note_two(
    first: Name,
    second: Name,
    number: u32,
    leads: &mut IndexSet<EntryName>,
) -> Result<(), AllocError>
    ensures { OnOk result (Adds (OfThis number (name_view first ∷ name_view second ∷ [])) leads.old.keys leads.new.keys) }
{
    note_one(first, number, leads)?;
    note_one(second, number, leads)?;
    Ok(())
}

/// Adds the names of the needs of an entry.
fn note_needs(
    needs: &Vec<Need>,
    number: u32,
    leads: &mut IndexSet<EntryName>,
) -> Result<(), AllocError>
    ensures { OnOk result (Adds (OfThis number (flat_map needed (map need_view needs.now.items))) leads.old.keys leads.new.keys) }
{
    for need in needs {
        note_need(need, number, leads)?;
    }
    Ok(())
}

/// Adds the targets of an entry. The outputs of a call are targets.
fn note_targets(
    found: &Entry,
    number: u32,
    leads: &mut IndexSet<EntryName>,
) -> Result<(), AllocError>
    ensures { OnOk result (Adds (OfThis number (targets (entry_view found.now))) leads.old.keys leads.new.keys) }
{
    match &found.act {
        Act::Cell(_) | Act::Read => note_one(own_name(found.node), number, leads),
        Act::Call { outputs, .. } => note_all(outputs, number, leads),
        Act::Set(target, _) => note_one(*target, number, leads),
        Act::Fill(target, _) => note_one(*target, number, leads),
        Act::Copy(target) => note_one(*target, number, leads),
        Act::InsertElement(target, _, _) => note_one(*target, number, leads),
        Act::Print(_)
        | Act::Assert(_)
        | Act::If(_, _, _)
        | Act::Range(_, _, _, _)
        | Act::Each(_)
        | Act::Wait(_, _) => Ok(()),
    }
}

/// Returns the name of the scalar of this node, as seen from its own block.
fn own_name(node: u32) -> Name
    ensures { name_view result ≡ pure.here (pure.scalar node) }
{
    let variable = Variable { node, array: false };
    Name {
        up: 0,
        owned: Owned::Local(variable),
    }
}

/// Adds the names that the entry of this number itself reads or writes.
fn note_entry(
    code: &CodeTables,
    right: RightKind,
    number: u32,
    leads: &mut IndexSet<EntryName>,
) -> Result<(), AllocError>
    requires { number < length code.now.entries }
    ensures { OnOk result (Adds (OfThis number (own_of right (entry code.now number))) leads.old.keys leads.new.keys) }
{
    match code.entry(number) {
        None => Ok(()),
        Some(found) => match right {
            RightKind::Read => note_needs(&found.needs, number, leads),
            RightKind::Write => note_targets(found, number, leads),
        },
    }
}

/// Returns the names that entries themselves read or write, each paired with its entry.
pub fn uses(
    alloc: Global,
    code: &CodeTables,
    right: RightKind,
) -> Result<IndexSet<EntryName>, AllocError>
    requires { length code.now.entries < 2 ^ 32 }
    ensures { IfOk result (λ leads. Adds (UsesBelow code.now (own_of right) (length code.now.entries)) [] leads.keys) }
{
    let mut leads = IndexSet::with_capacity(alloc, code.entry_count())?;
    for number in 0..code.entry_count() {
        note_entry(code, right, number as u32, &mut leads)?;
    }
    Ok(leads)
}
