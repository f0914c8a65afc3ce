//! Rights: propagation of names from bodies to the entries that open them.
ghost use Rattle.dataflow.specs.System.{Distinct, In};
ghost use Rattle.ref_counting.specs.Rows.{row};
ghost use Rattle.std.specs.Prelude.{List, ◌≡◌, ℕ, ◌<◌, ◌≤◌, ◌^◌, [], length, map, OnOk, IfOk};
ghost use Rattle.task_code.specs.Code as pure;
ghost use Rattle.task_code.specs.Code.{targets};
ghost use Rattle.task_code.specs.Exact.{needs_of};
ghost use Rattle.ref_counting.specs.Uses.{own_of};
ghost use Rattle.task_code.specs.View.{name_view};
ghost use Rattle.ref_counting.specs.Leads.{AllPlain, Grows, Has, name_of};
ghost use Rattle.ref_counting.specs.Makes.{AreMade};
ghost use Rattle.ref_counting.specs.Openings.{AreHomes, AreOpenings, way_of};
ghost use Rattle.ref_counting.specs.Passing.{Sees};
ghost use Rattle.ref_counting.specs.Rights.{Adds, AllLead, AllOpen, AllWithin, ByHomes, ByOpening, ByOpenings, AreRights, HasMarks, IsClosed, Opens, StepsOn};

use crate::call_names::outward;
use crate::code_tables::CodeTables;
use crate::declarations::{DeclaredIn, declarations};
use crate::entry_name::{EntryName, add_name};
use crate::numbered_lists::NumberedLists;
use crate::openings::{BodyOpening, homes, openings};
use crate::uses::{RightKind, uses};
use indexmap::IndexSet;
use std::alloc::{AllocError, Global};
use task_code::entry::Name;

/// Adds the translation of a name of a body to an entry that opens it.
fn pass_to(
    code: &CodeTables,
    made: &IndexSet<DeclaredIn>,
    opening: BodyOpening,
    body: u32,
    name: Name,
    leads: &mut IndexSet<EntryName>,
) -> Result<(), AllocError>
    requires made { AreMade code.now made.now.keys }
    requires body { body < length code.now.bodies }
    requires marks { HasMarks code.now }
    requires opens { Opens code.now opening body }
    ensures { OnOk result (Adds (ByOpening code.now body (name_view name) opening) leads.old.keys leads.new.keys) }
{
    if let Some(outer) = outward(code, made, opening, body, name) {
        add_name(leads, opening.entry, outer)?;
    }
    Ok(())
}

/// Adds the translation of a name of a body to each entry that opens it.
fn pass_body(
    code: &CodeTables,
    made: &IndexSet<DeclaredIn>,
    found: &[BodyOpening],
    body: u32,
    name: Name,
    leads: &mut IndexSet<EntryName>,
) -> Result<(), AllocError>
    requires made { AreMade code.now made.now.keys }
    requires body { body < length code.now.bodies }
    requires marks { HasMarks code.now }
    requires opens { AllOpen code.now body found.now }
    ensures { OnOk result (Adds (ByOpenings code.now body (name_view name) found.now) leads.old.keys leads.new.keys) }
{
    for opening in found {
        pass_to(code, made, *opening, body, name, leads)?;
    }
    Ok(())
}

/// Lookup tables for the propagation: containing bodies, openings and declarations.
#[derive(Drop)]
struct RightsIndex {
    homes: NumberedLists<u32>,
    openings: NumberedLists<BodyOpening>,
    made: IndexSet<DeclaredIn>,
}

impl RightsIndex {
    fn new(alloc: Global, code: &CodeTables) -> Result<RightsIndex, AllocError>
        requires entries { length code.now.entries < 2 ^ 32 }
        requires bodies { length code.now.bodies < 2 ^ 32 }
        ensures homes { IfOk result (λ index. AreHomes code.now index.homes) }
        ensures openings { IfOk result (λ index. AreOpenings code.now index.openings) }
        ensures made { IfOk result (λ index. AreMade code.now index.made.keys) }
    {
        let openings = openings(alloc, code)?;
        let homes = homes(alloc, code, &openings)?;
        let made = declarations(alloc, code, &openings)?;
        Ok(RightsIndex {
            homes,
            openings,
            made,
        })
    }
}

/// Propagates the name of an entry to each entry that opens a body with that entry.
fn pass_on(
    code: &CodeTables,
    index: &RightsIndex,
    lead: EntryName,
    leads: &mut IndexSet<EntryName>,
) -> Result<(), AllocError>
    requires homes { AreHomes code.now index.now.homes }
    requires openings { AreOpenings code.now index.now.openings }
    requires made { AreMade code.now index.now.made.keys }
    requires marks { HasMarks code.now }
    ensures { OnOk result (Adds (ByHomes code.now index.now.openings (name_of lead) (row index.now.homes lead.entry)) leads.old.keys leads.new.keys) }
{
    for body in index.homes.at(lead.entry as usize) {
        let found = index.openings.at(*body as usize);
        pass_body(code, &index.made, found, *body, lead.name(), leads)?;
    }
    Ok(())
}

/// Propagates the pair at index `next`.
fn pass_next(
    code: &CodeTables,
    index: &RightsIndex,
    next: usize,
    leads: &mut IndexSet<EntryName>,
) -> Result<(), AllocError>
    requires homes { AreHomes code.now index.now.homes }
    requires openings { AreOpenings code.now index.now.openings }
    requires made { AreMade code.now index.now.made.keys }
    requires marks { HasMarks code.now }
    requires next { next < length leads.old.keys }
    ensures { OnOk result (StepsOn code.now next leads.old.keys leads.new.keys) }
{
    match leads.get_index(next) {
        None => Ok(()),
        Some(found) => {
            let lead = *found;
            pass_on(code, index, lead, leads)?;
            Ok(())
        }
    }
}

/// Propagates all pairs, until no new one is found. New pairs are appended and serve as the worklist.
fn pass_all(
    code: &CodeTables,
    index: &RightsIndex,
    leads: &mut IndexSet<EntryName>,
) -> Result<(), AllocError>
    requires homes { AreHomes code.now index.now.homes }
    requires openings { AreOpenings code.now index.now.openings }
    requires made { AreMade code.now index.now.made.keys }
    requires marks { HasMarks code.now }
    requires within { AllWithin code.now leads.old.keys }
    ensures within { OnOk result (AllWithin code.now leads.new.keys) }
    ensures closed { OnOk result (IsClosed code.now leads.new.keys leads.new.keys) }
    ensures kept { OnOk result ((i : ℕ) (r : pure.Name) → Has leads.old.keys i r → Has leads.new.keys i r) }
    ensures plain { OnOk result (AllPlain leads.old.keys → AllPlain leads.new.keys) }
    ensures distinct { OnOk result (Distinct leads.new.keys) }
    ensures sound { OnOk result ((own : pure.Entry → List pure.Name) → AllLead code.now own leads.old.keys → AllLead code.now own leads.new.keys) }
{
    let mut next = 0;
    while next < leads.len() {
        pass_next(code, index, next, leads)?;
        next += 1;
    }
    Ok(())
}

/// Returns the names that each entry of the code may read or may write, each paired with its entry.
fn names_led_to(
    alloc: Global,
    code: &CodeTables,
    index: &RightsIndex,
    right: RightKind,
) -> Result<IndexSet<EntryName>, AllocError>
    requires entries { length code.now.entries < 2 ^ 32 }
    requires homes { AreHomes code.now index.now.homes }
    requires openings { AreOpenings code.now index.now.openings }
    requires made { AreMade code.now index.now.made.keys }
    requires marks { HasMarks code.now }
    ensures { IfOk result (λ leads. AreRights code.now (own_of right) leads.keys) }
{
    let mut leads = uses(alloc, code, right)?;
    pass_all(code, index, &mut leads)?;
    Ok(leads)
}

/// The names that entries may read, and those that they may write, each paired with its entry.
#[derive(Drop)]
pub struct Grants {
    pub reads: IndexSet<EntryName>,
    pub writes: IndexSet<EntryName>,
}

/// Computes the rights of each entry of the code.
///
/// These are the names that the entry uses itself, and the names that entries of the bodies it opens lead to. The
/// latter are found through any number of bodies and through recursive functions.
///
///
/// # Errors
///
/// Returns `AllocError` if an allocation fails.
pub fn rights(alloc: Global, code: &CodeTables) -> Result<Grants, AllocError>
    requires entries { length code.now.entries < 2 ^ 32 }
    requires bodies { length code.now.bodies < 2 ^ 32 }
    requires marks { HasMarks code.now }
    ensures reads { IfOk result (λ found. AreRights code.now needs_of found.reads.keys) }
    ensures writes { IfOk result (λ found. AreRights code.now targets found.writes.keys) }
{
    let index = RightsIndex::new(alloc, code)?;
    let reads = names_led_to(alloc, code, &index, RightKind::Read)?;
    let writes = names_led_to(alloc, code, &index, RightKind::Write)?;
    Ok(Grants { reads, writes })
}
