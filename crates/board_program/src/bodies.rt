//! Body tables: the initial counts of a body's own data, and the holds that each instance adds to data outside.
ghost use Rattle.std.specs.Prelude.{◌≡◌, ◌+◌, ◌<◌, ◌≤◌, ◌∷◌, [], map, replicate, slice_index_or, if◌then◌else◌, IfOk, OnOk};
ghost use Rattle.std.specs.List.{list_any};
ghost use Rattle.task_code.specs.Code.{Control, body as body_at, kind_of};
ghost use Rattle.task_code.specs.View.{body_view, entry_view, name_view, variable_view};
ghost use Rattle.board_program.specs.Places.{CountsMore, CountsOf, FindsPlaces, with_counts};
ghost use Rattle.board_program.specs.Program.{IsLeads};
ghost use Rattle.board_program.specs.Tables.{GainsNames, GainsRights, HoldsOf, IsBodyTable, is_kind, names_of, run_as, shape_of, waits_long};

use crate::lexical_address::NameResolver;
use crate::outer_holds::OuterHolds;
use crate::program::{BodyTable, Hold, LocalVariable};
use crate::variable_index::VariableIndex;
use std::alloc::{AllocError, Global};
use task_code::code::{Body, Code};
use task_code::entry::{Entry, Kind, Name, Variable};
use values::datum_kind::DatumKind;

/// Returns the count plus 1.
///
/// # Errors
///
/// Returns `AllocError` if the sum does not fit in 64 bits.
fn checked_successor(count: u64) -> Result<u64, AllocError>
    ensures { IfOk result (λ more. more ≡ count + 1) }
{
    match count.checked_add(1) {
        Some(more) => Ok(more),
        None => Err(AllocError),
    }
}

/// Increments the count of the variable that a name refers to, if the block declares it.
///
/// # Errors
///
/// Returns `AllocError` if the count does not fit in 64 bits.
#[tactic(auto, using(crate::proofs::Counted::one_counted, crate::proofs::Counted::past_counted, crate::proofs::Counted::none_counted))]
fn count_name(counts: &mut Vec<u64>, places: &VariableIndex, name: Name) -> Result<(), AllocError>
    ensures { OnOk result (CountsMore places.now (name_view name ∷ []) counts.old.items counts.new.items) }
{
    let Some(place) = places.of_name(name) else {
        return Ok(());
    };
    if place < counts.len() {
        counts[place] = checked_successor(counts[place])?;
    }
    Ok(())
}

/// Increments the counts of the variables that the names refer to, for the variables that the block declares.
///
/// # Errors
///
/// Returns `AllocError` if a count does not fit in 64 bits.
#[tactic(auto, using(crate::proofs::Counted::counted_none, crate::proofs::Counted::counted_next, crate::proofs::Counted::counted_all))]
fn count_names(
    counts: &mut Vec<u64>,
    places: &VariableIndex,
    names: &[Name],
) -> Result<(), AllocError>
    ensures { OnOk result (CountsMore places.now (map name_view names.now) counts.old.items counts.new.items) }
{
    for at in 0..names.len() {
        count_name(counts, places, names[at])?;
    }
    Ok(())
}

/// Creates a list of `many` counts of 0.
#[tactic(auto, using(crate::proofs::Counted::one_more_none))]
fn no_counts(alloc: Global, many: usize) -> Result<Vec<u64>, AllocError>
    ensures { IfOk result (λ counts. counts.items ≡ replicate many 0) }
{
    let mut counts = Vec::with_capacity(alloc, many)?;
    for _ in 0..many {
        counts.push(0)?;
    }
    Ok(counts)
}

/// Returns the datum kind of an array or a scalar.
fn shape_of(array: bool) -> DatumKind
    ensures { result ≡ shape_of array }
{
    if array {
        DatumKind::Keyed
    } else {
        DatumKind::Single
    }
}

/// Returns the count at this index, or 0 beyond the end.
fn count_at(counts: &[u64], place: usize) -> u64
    ensures { result ≡ slice_index_or counts.now place 0 }
{
    if place < counts.len() {
        counts[place]
    } else {
        0
    }
}

/// Creates the table of local variables from the variables and their counts.
#[tactic(auto, using(crate::proofs::Counted::owns_next, crate::proofs::Counted::owns_all))]
fn with_counts(
    alloc: Global,
    makes: &[Variable],
    reads: &[u64],
    writes: &[u64],
) -> Result<Vec<LocalVariable>, AllocError>
    ensures { IfOk result (λ own. own.items ≡ with_counts 0 reads.now writes.now (map variable_view makes.now)) }
{
    let mut own = Vec::with_capacity(alloc, makes.len())?;
    for at in 0..makes.len() {
        own.push(LocalVariable {
            shape: shape_of(makes[at].array),
            reads: count_at(reads, at),
            writes: count_at(writes, at),
        })?;
    }
    Ok(own)
}

/// Adds the given reads and writes to the hold on the datum of a name, unless the body declares the name.
///
/// A name that does not resolve adds nothing.
#[tactic(auto, using(crate::proofs::Counted::declared_if, crate::proofs::Holds::gains_own, crate::proofs::Holds::gains_nowhere, crate::proofs::Holds::gains_one))]
fn hold_name(
    code: &Code,
    leads: &NameResolver,
    places: &VariableIndex,
    body: u32,
    name: Name,
    reads: u64,
    writes: u64,
    outer: &mut OuterHolds,
) -> Result<(), AllocError>
    requires leads { IsLeads code.now leads.now }
    requires places { FindsPlaces (body_at code.now body).makes places.now }
    ensures { OnOk result (GainsNames code.now body reads writes (name_view name ∷ []) outer.old.holds.items outer.new.holds.items) }
{
    if places.of_name(name).is_some() {
        return Ok(());
    }
    if let Some(spot) = leads.spot_in(code, body, name) {
        let hold = Hold {
            spot,
            reads,
            writes,
        };
        outer.add(hold)?;
    }
    Ok(())
}

/// Adds the given reads and writes to the hold on the datum of each name that the body does not declare.
#[tactic(auto, using(crate::proofs::Holds::gains_none, crate::proofs::Holds::gains_next, crate::proofs::Holds::gains_all))]
fn hold_names(
    code: &Code,
    leads: &NameResolver,
    places: &VariableIndex,
    body: u32,
    names: &[Name],
    reads: u64,
    writes: u64,
    outer: &mut OuterHolds,
) -> Result<(), AllocError>
    requires leads { IsLeads code.now leads.now }
    requires places { FindsPlaces (body_at code.now body).makes places.now }
    ensures { OnOk result (GainsNames code.now body reads writes (map name_view names.now) outer.old.holds.items outer.new.holds.items) }
{
    for at in 0..names.len() {
        hold_name(code, leads, places, body, names[at], reads, writes, outer)?;
    }
    Ok(())
}

/// Adds one read for each name that an entry may read, and one write for each name that it may write. Names that the
/// body declares are left out.
#[tactic(auto, using(crate::proofs::Holds::gains_rights))]
fn hold_rights(
    code: &Code,
    leads: &NameResolver,
    places: &VariableIndex,
    body: u32,
    entry: &Entry,
    outer: &mut OuterHolds,
) -> Result<(), AllocError>
    requires leads { IsLeads code.now leads.now }
    requires places { FindsPlaces (body_at code.now body).makes places.now }
    ensures { OnOk result (GainsRights code.now body (entry_view entry.now) outer.old.holds.items outer.new.holds.items) }
{
    let reads = entry.reads.as_slice();
    hold_names(code, leads, places, body, reads, 1, 0, outer)?;
    let writes = entry.writes.as_slice();
    hold_names(code, leads, places, body, writes, 0, 1, outer)?;
    Ok(())
}

/// Returns 1 for a control entry and 0 for a leaf.
fn control_count(entry: &Entry) -> usize
    ensures count { result ≡ (if is_kind Control (kind_of (entry_view entry.now).act) then 1 else 0) }
    ensures most { result ≤ 1 }
{
    match entry.act.kind() {
        Kind::Control => 1,
        Kind::Leaf => 0,
    }
}

/// The rights of all entries of a body, summed up: read and write counts of its own variables, the holds on data that
/// it does not declare, and the number of control entries.
#[derive(Drop)]
struct Rights {
    reads: Vec<u64>,
    writes: Vec<u64>,
    outer: Vec<Hold>,
    controls: usize,
}

/// Sums up the rights of these entries in one pass. `many`: the number of variables that the body declares.
#[tactic(auto, using(crate::proofs::Counted::all_none, crate::proofs::Holds::holds_none, crate::proofs::Counted::all_entries, crate::proofs::Holds::holds_all, crate::proofs::Counts::control_all))]
fn rights_of(
    alloc: Global,
    code: &Code,
    leads: &NameResolver,
    places: &VariableIndex,
    body: u32,
    entries: &[u32],
    many: usize,
) -> Result<Rights, AllocError>
    requires leads { IsLeads code.now leads.now }
    requires places { FindsPlaces (body_at code.now body).makes places.now }
    ensures reads { IfOk result (λ rights. CountsOf places.now many (names_of code.now (λ e. e.reads) entries.now) rights.reads.items) }
    ensures writes { IfOk result (λ rights. CountsOf places.now many (names_of code.now (λ e. e.writes) entries.now) rights.writes.items) }
    ensures outer { IfOk result (λ rights. HoldsOf code.now body entries.now rights.outer.items) }
    ensures controls { IfOk result (λ rights. rights.controls ≡ run_as code.now Control entries.now) }
{
    let mut reads = no_counts(alloc, many)?;
    let mut writes = no_counts(alloc, many)?;
    let mut outer = OuterHolds::none(alloc);
    let mut controls = 0;
    for at in 0..entries.len() {
        if let Some(entry) = code.entry(entries[at]) {
            count_names(&mut reads, places, entry.reads.as_slice())?;
            count_names(&mut writes, places, entry.writes.as_slice())?;
            hold_rights(code, leads, places, body, entry, &mut outer)?;
            controls += control_count(entry);
        }
    }
    Ok(Rights {
        reads,
        writes,
        outer: outer.holds,
        controls,
    })
}

/// Returns true if the entry of this number waits for more than two inputs. A number without an entry has no inputs.
#[tactic(auto, using(crate::proofs::Counts::blank_there))]
fn is_long(code: &Code, number: u32) -> bool
    ensures { result ≡ waits_long code.now number }
{
    match code.entry(number) {
        Some(entry) => entry.needs.len() > 2,
        None => false,
    }
}

/// Returns true if one of these entries waits for more than two inputs.
fn has_long(code: &Code, entries: &[u32]) -> bool
    ensures { result ≡ list_any (waits_long code.now) entries.now }
{
    for number in entries {
        if is_long(code, *number) {
            return true;
        }
    }
    false
}

/// Creates the table of a body.
#[tactic(auto, using(crate::proofs::Counted::own_told, crate::proofs::Holds::body_reads, crate::proofs::Holds::body_writes, crate::proofs::Counts::leaves_left))]
pub fn body_table(
    alloc: Global,
    code: &Code,
    leads: &NameResolver,
    places: &VariableIndex,
    number: u32,
    body: &Body,
) -> Result<BodyTable, AllocError>
    requires leads { IsLeads code.now leads.now }
    requires places { FindsPlaces (body_view body.now).makes places.now }
    requires there { body_view body.now ≡ body_at code.now number }
    ensures { IfOk result (λ table. IsBodyTable code.now number table) }
{
    let entries = body.entries.as_slice();
    let makes = body.makes.as_slice();
    let Rights {
        reads,
        writes,
        outer,
        controls,
    } = rights_of(alloc, code, leads, places, number, entries, makes.len())?;
    Ok(BodyTable {
        own: with_counts(alloc, makes, reads.as_slice(), writes.as_slice())?,
        outer,
        controls,
        leaves: entries.len().saturating_sub(controls),
        long: has_long(code, entries),
    })
}
