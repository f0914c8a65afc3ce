//! Assignment of rights to entries.
ghost use Rattle.std.specs.Prelude.{◌≡◌, ◌<◌, ◌++◌, ◌∷◌, [], length, map, OnOk};
ghost use Rattle.task_code.specs.View.{entry_view, name_view};
ghost use Rattle.ref_counting.specs.Leads.{name_of};
ghost use Rattle.code_rules.specs.Laying.{bare};
ghost use Rattle.emit_rights.specs.Granted.{bare_at, given, given_all, with_right, GivesNext};

use indexmap::IndexSet;
use ref_counting::entry_name::EntryName;
use ref_counting::uses::RightKind;
use std::alloc::AllocError;
use task_code::entry::{Entry, Name};

/// Removes the rights of an entry.
fn clear(entry: &mut Entry)
    ensures { entry_view entry.new ≡ bare (entry_view entry.old) }
{
    entry.reads.clear();
    entry.writes.clear();
}

/// Removes the rights of the entry of this number.
fn clear_at(entries: &mut Vec<Entry>, number: usize)
    requires { number < length entries.old.items }
    ensures { map entry_view entries.new.items ≡ bare_at (map entry_view entries.old.items) number }
{
    clear(&mut entries[number]);
}

/// Removes the rights of all entries.
pub fn clear_rights(entries: &mut Vec<Entry>)
    ensures { map entry_view entries.new.items ≡ map bare (map entry_view entries.old.items) }
{
    for number in 0..entries.len() {
        clear_at(entries, number);
    }
}

/// Reserves capacity for exactly one name if the list is empty. Most lists of rights have one name.
fn make_room(names: &mut Vec<Name>) -> Result<(), AllocError>
    ensures { names.new.items ≡ names.old.items }
{
    if names.is_empty() {
        names.reserve_exact(1)?;
    }
    Ok(())
}

/// Appends a name.
fn add_name(names: &mut Vec<Name>, name: Name) -> Result<(), AllocError>
    ensures { OnOk result (map name_view names.new.items ≡ map name_view names.old.items ++ name_view name ∷ []) }
{
    make_room(names)?;
    names.push(name)?;
    Ok(())
}

/// Adds a right to an entry.
fn add_right(entry: &mut Entry, right: RightKind, name: Name) -> Result<(), AllocError>
    ensures { OnOk result (entry_view entry.new ≡ with_right right (entry_view entry.old) (name_view name)) }
{
    match right {
        RightKind::Read => add_name(&mut entry.reads, name),
        RightKind::Write => add_name(&mut entry.writes, name),
    }
}

/// Adds a right to the entry of this number. Does nothing if there is none.
fn give(
    entries: &mut Vec<Entry>,
    right: RightKind,
    number: usize,
    name: Name,
) -> Result<(), AllocError>
    ensures { OnOk result (map entry_view entries.new.items ≡ given right (map entry_view entries.old.items) number (name_view name)) }
{
    if number < entries.len() {
        add_right(&mut entries[number], right, name)?;
    }
    Ok(())
}

/// Adds the right of the lead at index `next` to its entry.
fn give_next(
    entries: &mut Vec<Entry>,
    right: RightKind,
    leads: &IndexSet<EntryName>,
    next: usize,
) -> Result<(), AllocError>
    requires { next < length leads.now.keys }
    ensures { OnOk result (GivesNext right leads.now.keys next (map entry_view entries.old.items) (map entry_view entries.new.items)) }
{
    match leads.get_index(next) {
        None => Ok(()),
        Some(lead) => {
            give(entries, right, lead.entry as usize, lead.name())?;
            Ok(())
        }
    }
}

/// Adds the rights of all leads, each to its entry.
pub fn give_all(
    entries: &mut Vec<Entry>,
    right: RightKind,
    leads: &IndexSet<EntryName>,
) -> Result<(), AllocError>
    ensures { OnOk result (map entry_view entries.new.items ≡ given_all right (map entry_view entries.old.items) leads.now.keys) }
{
    for next in 0..leads.len() {
        give_next(entries, right, leads, next)?;
    }
    Ok(())
}
