//! Declarations: the variables that the bodies opened by a `wait` declare.
ghost use Rattle.std.specs.Prelude.{◌≡◌, ℕ, ◌<◌, ◌∷◌, [], true, false, ◌^◌, length, map, OnOk, IfOk};
ghost use Rattle.dataflow.specs.System.{In};
ghost use Rattle.task_code.specs.Code.{InPlace};
ghost use Rattle.task_code.specs.View.{variable_view};
ghost use Rattle.ref_counting.specs.Makes.{AreMade, NotesMade, NotesWaited};
ghost use Rattle.ref_counting.specs.Openings.{AreOpenings, way_of};
ghost use Rattle.ref_counting.specs.declared.openings.BodyOpening.{BodyOpening as Opened};

use crate::code_tables::CodeTables;
use crate::numbered_lists::NumberedLists;
use crate::openings::{BodyOpening, OpenKind};
use indexmap::IndexSet;
use std::alloc::{AllocError, Global};
use task_code::entry::Variable;

/// A variable with the body that declares it.
#[derive(Clone, Copy, PartialEq, Eq, Hash, Debug)]
pub struct DeclaredIn {
    pub body: u32,
    pub node: u32,
    pub array: bool,
}

/// Records the variables that a body declares.
fn note_makes(
    made: &mut IndexSet<DeclaredIn>,
    body: u32,
    makes: &Vec<Variable>,
) -> Result<(), AllocError>
    ensures { OnOk result (NotesMade body (map variable_view makes.now.items) made.old.keys made.new.keys) }
{
    for variable in makes {
        made.insert(DeclaredIn {
            body,
            node: variable.node,
            array: variable.array,
        })?;
    }
    Ok(())
}

/// Returns true if one of these openings opens its body at the path of the entry.
fn is_in_place(openings: &[BodyOpening]) -> bool
    ensures { result ≡ false → (o : Opened) → In o openings.now → way_of o.way ≡ InPlace → ⊥ }
{
    for opening in openings {
        if opening.way == OpenKind::InPlace {
            return true;
        }
    }
    false
}

/// Records the declarations of the body of this number, if a `wait` opens it.
fn note_body(
    made: &mut IndexSet<DeclaredIn>,
    code: &CodeTables,
    openings: &NumberedLists<BodyOpening>,
    number: u32,
) -> Result<(), AllocError>
    requires number { number < length code.now.bodies }
    requires openings { AreOpenings code.now openings.now }
    ensures { OnOk result (NotesWaited code.now number made.old.keys made.new.keys) }
{
    if !is_in_place(openings.at(number as usize)) {
        return Ok(());
    }
    match code.body(number) {
        None => Ok(()),
        Some(found) => {
            note_makes(made, number, &found.makes)?;
            Ok(())
        }
    }
}

/// Returns the declarations of all bodies that a `wait` opens.
pub fn declarations(
    alloc: Global,
    code: &CodeTables,
    openings: &NumberedLists<BodyOpening>,
) -> Result<IndexSet<DeclaredIn>, AllocError>
    requires bodies { length code.now.bodies < 2 ^ 32 }
    requires openings { AreOpenings code.now openings.now }
    ensures { IfOk result (λ made. AreMade code.now made.keys) }
{
    let mut made = IndexSet::new(alloc);
    for number in 0..code.body_count() {
        note_body(&mut made, code, openings, number as u32)?;
    }
    Ok(made)
}

/// Returns true if the recorded declarations have this variable for this body.
pub fn declares(made: &IndexSet<DeclaredIn>, body: u32, variable: Variable) -> bool
    ensures yes { result ≡ true → In (record { body = body; node = variable.node; array = variable.array }) made.now.keys }
    ensures no { In (record { body = body; node = variable.node; array = variable.array }) made.now.keys → result ≡ true }
{
    made.contains(&DeclaredIn {
        body,
        node: variable.node,
        array: variable.array,
    })
}
