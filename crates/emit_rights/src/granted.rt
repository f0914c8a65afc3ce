//! Drafts of code with the rights of their entries.
ghost use Rattle.std.specs.Prelude.{◌≡◌, ◌<◌, ◌^◌, ◌++◌, length, map, IfOk, OnOk};
ghost use Rattle.task_code.specs.View.{body_view, entry_view};
ghost use Rattle.ref_counting.specs.Rights.{HasMarks};
ghost use Rattle.code_rules.specs.Emitted.{HasRights};
ghost use Rattle.code_rules.specs.Laying.{bare};
ghost use Rattle.emit_rights.specs.Granted.{EmittedAs, laid_code};

use crate::grants::{clear_rights, give_all};
use ref_counting::code_tables::CodeTables;
use ref_counting::rights::rights;
use ref_counting::uses::RightKind;
use std::alloc::{AllocError, Global};
use task_code::code::Body;
use task_code::draft::Draft;
use task_code::entry::Entry;

/// Appends bodies to the draft.
fn add_bodies(code: &mut Draft, bodies: Vec<Body>) -> Result<(), AllocError>
    ensures { OnOk result (code.new ≡ record code.old { bodies = code.old.bodies ++ map body_view bodies.items }) }
{
    for body in bodies {
        code.push_body(body)?;
    }
    Ok(())
}

/// Appends entries to the draft.
fn add_entries(code: &mut Draft, entries: Vec<Entry>) -> Result<(), AllocError>
    ensures { OnOk result (code.new ≡ record code.old { entries = code.old.entries ++ map entry_view entries.items }) }
{
    for entry in entries {
        code.push_entry(entry)?;
    }
    Ok(())
}

/// Creates the draft of these bodies and entries.
fn draft_of(alloc: Global, bodies: Vec<Body>, entries: Vec<Entry>) -> Result<Draft, AllocError>
    ensures { IfOk result (λ code. code ≡ laid_code bodies.items entries.items) }
{
    let mut code = Draft::new(alloc);
    add_bodies(&mut code, bodies)?;
    add_entries(&mut code, entries)?;
    Ok(code)
}

/// Creates the draft of these bodies and entries, with exact rights.
///
/// Each entry has exactly the rights that it, or an entry that it leads to, uses. Rights that the given entries have
/// are discarded.
///
///
/// # Errors
///
/// Returns `AllocError` if an allocation fails.
pub fn granted(alloc: Global, bodies: Vec<Body>, entries: Vec<Entry>) -> Result<Draft, AllocError>
    requires few_entries { length entries.items < 2 ^ 32 }
    requires few_bodies { length bodies.items < 2 ^ 32 }
    requires marks { HasMarks (laid_code bodies.items entries.items) }
    ensures bodies { IfOk result (λ code. code.bodies ≡ map body_view bodies.items) }
    ensures entries { IfOk result (λ code. map bare code.entries ≡ map bare (map entry_view entries.items)) }
    ensures rights { IfOk result HasRights }
    ensures emitted { IfOk result (EmittedAs (laid_code bodies.items entries.items)) }
{
    let laid = CodeTables::new(bodies, entries);
    let found = rights(alloc, &laid)?;
    let (bodies, mut entries) = laid.into_parts();
    clear_rights(&mut entries);
    give_all(&mut entries, RightKind::Read, &found.reads)?;
    give_all(&mut entries, RightKind::Write, &found.writes)?;
    let code = draft_of(alloc, bodies, entries)?;
    Ok(code)
}
