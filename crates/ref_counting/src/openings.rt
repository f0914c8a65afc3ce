//! Openings: the entries that open each body, and the bodies that contain each entry.
ghost use Rattle.std.specs.Prelude.{◌≡◌, ℕ, ◌<◌, ◌∷◌, [], ◌^◌, length, OnOk, IfOk};
ghost use Rattle.task_code.specs.Code.{body, entry, ways, Through};
ghost use Rattle.task_code.specs.View.{act_view};
ghost use Rattle.ref_counting.specs.Openings.{AreHomes, AreOpenings, NotesAll, NotesHomes, NotesOpened, way_of};

use crate::code_tables::CodeTables;
use crate::numbered_lists::NumberedLists;
use std::alloc::{AllocError, Global};
use task_code::entry::Act;

/// The way in which an entry opens a body.
#[derive(Clone, Copy, PartialEq, Eq, Debug, Drop)]
pub enum OpenKind {
    /// At the path of the entry, as a `wait` does.
    InPlace,
    /// By a step of the path, as a branch or a loop does.
    Through,
    /// By the step of a call.
    Calling,
}

/// An entry that opens a body.
#[derive(Clone, Copy, PartialEq, Eq, Debug, Drop)]
pub struct BodyOpening {
    pub entry: u32,
    pub way: OpenKind,
}

/// Records that an entry opens a body.
fn note(
    openings: &mut NumberedLists<BodyOpening>,
    entry: u32,
    way: OpenKind,
    body: u32,
) -> Result<(), AllocError>
    ensures { OnOk result (NotesAll entry ((way_of way, body) ∷ []) openings.old openings.new) }
{
    openings.put(body as usize, BodyOpening { entry, way })?;
    Ok(())
}

/// Records that an entry opens one of two branches.
fn note_branches(
    openings: &mut NumberedLists<BodyOpening>,
    entry: u32,
    then: u32,
    other: u32,
) -> Result<(), AllocError>
    ensures { OnOk result (NotesAll entry ((Through, then) ∷ (Through, other) ∷ []) openings.old openings.new) }
{
    note(openings, entry, OpenKind::Through, then)?;
    note(openings, entry, OpenKind::Through, other)?;
    Ok(())
}

/// Records the bodies that an act opens.
fn note_act(
    openings: &mut NumberedLists<BodyOpening>,
    entry: u32,
    act: &Act,
) -> Result<(), AllocError>
    ensures { OnOk result (NotesAll entry (ways (act_view act.now)) openings.old openings.new) }
{
    match act {
        Act::Call { body, .. } => note(openings, entry, OpenKind::Calling, *body),
        Act::If(_, then, None) => note(openings, entry, OpenKind::Through, *then),
        Act::If(_, then, Some(other)) => note_branches(openings, entry, *then, *other),
        Act::Range(_, _, _, turns) => note(openings, entry, OpenKind::Through, turns.body),
        Act::Each(turns) => note(openings, entry, OpenKind::Through, turns.body),
        Act::Wait(_, body) => note(openings, entry, OpenKind::InPlace, *body),
        Act::Cell(_)
        | Act::Read
        | Act::Set(_, _)
        | Act::Fill(_, _)
        | Act::Copy(_)
        | Act::InsertElement(_, _, _)
        | Act::Print(_)
        | Act::Assert(_) => Ok(()),
    }
}

/// Records the bodies that the entry of this number opens.
fn note_entry(
    openings: &mut NumberedLists<BodyOpening>,
    code: &CodeTables,
    number: u32,
) -> Result<(), AllocError>
    requires { number < length code.now.entries }
    ensures { OnOk result (NotesAll number (ways (entry code.now number).act) openings.old openings.new) }
{
    match code.entry(number) {
        None => Ok(()),
        Some(found) => note_act(openings, number, &found.act),
    }
}

/// Returns the entries that open each body.
pub fn openings(alloc: Global, code: &CodeTables) -> Result<NumberedLists<BodyOpening>, AllocError>
    requires { length code.now.entries < 2 ^ 32 }
    ensures { IfOk result (λ openings. AreOpenings code.now openings) }
{
    let mut openings = NumberedLists::new(alloc, code.body_count())?;
    for number in 0..code.entry_count() {
        note_entry(&mut openings, code, number as u32)?;
    }
    Ok(openings)
}

/// Records the body for each of its entries.
fn note_body(
    homes: &mut NumberedLists<u32>,
    body: u32,
    entries: &Vec<u32>,
) -> Result<(), AllocError>
    ensures { OnOk result (NotesHomes body entries.now.items homes.old homes.new) }
{
    for number in entries {
        homes.put(*number as usize, body)?;
    }
    Ok(())
}

/// Records the body of this number for each of its entries, if an entry opens that body.
fn note_entries(
    homes: &mut NumberedLists<u32>,
    code: &CodeTables,
    openings: &NumberedLists<BodyOpening>,
    number: u32,
) -> Result<(), AllocError>
    requires number { number < length code.now.bodies }
    requires openings { AreOpenings code.now openings.now }
    ensures { OnOk result (NotesOpened code.now number homes.old homes.new) }
{
    if openings.at(number as usize).is_empty() {
        return Ok(());
    }
    match code.body(number) {
        None => Ok(()),
        Some(found) => {
            note_body(homes, number, &found.entries)?;
            Ok(())
        }
    }
}

/// Returns, for each entry, the bodies that contain it and that an entry opens.
pub fn homes(
    alloc: Global,
    code: &CodeTables,
    openings: &NumberedLists<BodyOpening>,
) -> Result<NumberedLists<u32>, AllocError>
    requires bodies { length code.now.bodies < 2 ^ 32 }
    requires openings { AreOpenings code.now openings.now }
    ensures { IfOk result (λ homes. AreHomes code.now homes) }
{
    let mut homes = NumberedLists::new(alloc, code.entry_count())?;
    for number in 0..code.body_count() {
        note_entries(&mut homes, code, openings, number as u32)?;
    }
    Ok(homes)
}
