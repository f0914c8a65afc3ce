//! The check of a whole script, outline by outline.
ghost use Rattle.std.specs.Prelude.{◌≡◌, ◌≢◌, ◌∷◌, [], OnOk, IfOk, IfErr, Some, false};
ghost use Rattle.std.specs.List.{flat_map};
ghost use Rattle.language.specs.Core as core;
ghost use Rattle.language.specs.Resolved as resolved;
ghost use Rattle.language.specs.Single.{SinglyAssigned};
ghost use Rattle.syntax_trees.specs.View.{part_of, tree_of};
ghost use Rattle.types.specs.Typed.{table_of};
ghost use Rattle.assign_check.specs.Breaks.{Breaks, IsTyped};
ghost use Rattle.assign_check.specs.Faults as faults;
ghost use Rattle.assign_check.specs.Outline.{function_outlines, outlined};
ghost use Rattle.assign_check.specs.Outline as outlines;
ghost use Rattle.assign_check.specs.Sets.{are_empty};
ghost use Rattle.assign_check.specs.Tables.{at};
ghost use Rattle.assign_check.specs.Tallies as tallies;
ghost use Rattle.assign_check.specs.View.{outline_view};
ghost use Rattle.assign_check.specs.Ways.{listed};

use crate::counts::count::{BranchCounts, count, no_branches};
use crate::fault::AssignFault;
use crate::outlining::outline::OutlineStep;
use crate::outlining::parts::{function_steps, script_steps};
use crate::summaries::table::VariableTable;
use crate::summaries::use_summary::{UseSummary, add_all, clear, collect, note_all, unused};
use crate::targets::control_path::ControlPath;
use crate::targets::target_faults::walk;
use std::alloc::{AllocError, Allocator, Global};
use syntax_trees::tree::{Item, Script};
use types::typed::Typed;

/// Checks that a script is singly assigned, with the table of its names from the type check.
///
/// The clauses about rules and single assignment require a script that is well typed by that table, numbered in reading
/// order. The other clauses hold for every script.
///
/// # Errors
///
/// Returns the broken rule whose place begins first, and at one place the one with the smallest number; or `Memory` if
/// an allocation fails.
pub fn check<A: Allocator>(
    alloc: Global,
    script: &Script<A>,
    typed: &Typed,
) -> Result<(), AssignFault>
    ensures accepted { IfOk result (λ _. faults.faults (table_of typed.now) (tree_of script.now) ≡ []) }
    ensures refused { IfErr result (λ fault. fault ≢ AssignFault.Memory
        → faults.first_fault (faults.faults (table_of typed.now) (tree_of script.now)) ≡ Some fault) }

    ensures single { IfOk result (λ _. IsTyped (table_of typed.now) (tree_of script.now)
        → SinglyAssigned (resolved.core (table_of typed.now) (tree_of script.now))) }
    ensures not_single { IfErr result (λ fault. fault ≢ AssignFault.Memory → IsTyped (table_of typed.now) (tree_of script.now)
        → ¬ SinglyAssigned (resolved.core (table_of typed.now) (tree_of script.now))) }
    ensures broken { IfErr result (λ fault. fault ≢ AssignFault.Memory → IsTyped (table_of typed.now) (tree_of script.now)
        → Breaks (table_of typed.now) (tree_of script.now) fault) }
    ensures none_before { IfErr result (λ fault. fault ≢ AssignFault.Memory → IsTyped (table_of typed.now) (tree_of script.now) → (other : AssignFault)
        → Breaks (table_of typed.now) (tree_of script.now) other → faults.precedes other fault ≡ false) }
{
    match answer(alloc, script, typed)? {
        None => Ok(()),
        Some(fault) => Err(fault),
    }
}

/// Returns the fault that is reported, or `None` if there is none.
fn answer<A: Allocator>(
    alloc: Global,
    script: &Script<A>,
    typed: &Typed,
) -> Result<Option<AssignFault>, AllocError>
    ensures { IfOk result (λ best. best ≡ faults.first_fault (faults.faults (table_of typed.now) (tree_of script.now))) }
{
    let mut way = ControlPath::new(alloc);
    let mut branches = no_branches(alloc);
    let mut tallied = VariableTable::new(alloc, unused());
    first_fault(alloc, script, typed, &mut way, &mut branches, &mut tallied)
}

/// Returns the first fault of all outlines of the script. The control path, the scratch tables and the summaries are
/// empty before the call.
fn first_fault<A: Allocator>(
    alloc: Global,
    script: &Script<A>,
    typed: &Typed,
    way: &mut ControlPath,
    branches: &mut BranchCounts,
    tallied: &mut VariableTable<UseSummary>,
) -> Result<Option<AssignFault>, AllocError>
    requires way { listed way.old ≡ [] }
    requires branches { are_empty branches.old }
    requires tallied { (of : core.Owned) → at tallied.old of ≡ tallies.unused }
    ensures { IfOk result (λ best. best ≡ faults.first_fault (faults.faults (table_of typed.now) (tree_of script.now))) }
{
    let mut best = None;
    own_block(alloc, typed, script, way, branches, tallied, &mut best)?;
    for item in &script.items {
        part(alloc, typed, item, way, branches, tallied, &mut best)?;
    }
    Ok(best)
}

/// Records the faults of the script's own block.
fn own_block<A: Allocator>(
    alloc: Global,
    typed: &Typed,
    script: &Script<A>,
    way: &mut ControlPath,
    branches: &mut BranchCounts,
    tallied: &mut VariableTable<UseSummary>,
    best: &mut Option<AssignFault>,
) -> Result<(), AllocError>
    requires way { listed way.old ≡ [] }
    requires branches { are_empty branches.old }
    requires tallied { (of : core.Owned) → at tallied.old of ≡ tallies.unused }
    ensures best { OnOk result (best.new ≡ faults.first_among best.old
        (faults.faults_of (outlined (outlines.script_steps (table_of typed.now) (tree_of script.now))))) }
    ensures way { OnOk result (listed way.new ≡ []) }
    ensures branches { OnOk result (are_empty branches.new) }
    ensures tallied { OnOk result ((of : core.Owned) → at tallied.new of ≡ tallies.unused) }
{
    let steps = script_steps(alloc, typed, &script.items)?;
    outline(alloc, &steps, way, branches, tallied, best)
}

/// Records the faults of a part if it is a function.
fn part<A: Allocator>(
    alloc: Global,
    typed: &Typed,
    item: &Item<A>,
    way: &mut ControlPath,
    branches: &mut BranchCounts,
    tallied: &mut VariableTable<UseSummary>,
    best: &mut Option<AssignFault>,
) -> Result<(), AllocError>
    requires way { listed way.old ≡ [] }
    requires branches { are_empty branches.old }
    requires tallied { (of : core.Owned) → at tallied.old of ≡ tallies.unused }
    ensures best { OnOk result (best.new ≡ faults.first_among best.old
        (flat_map faults.faults_of (function_outlines (table_of typed.now) (part_of item.now ∷ [])))) }
    ensures way { OnOk result (listed way.new ≡ []) }
    ensures branches { OnOk result (are_empty branches.new) }
    ensures tallied { OnOk result ((of : core.Owned) → at tallied.new of ≡ tallies.unused) }
{
    match item {
        Item::Import(_) | Item::Statement(_) => Ok(()),
        Item::Function(one) => {
            let steps = function_steps(alloc, typed, one)?;
            outline(alloc, &steps, way, branches, tallied, best)
        }
    }
}

/// Records the faults of one outline. The control path, the scratch tables and the summaries are empty before and after
/// the call.
fn outline(
    alloc: Global,
    steps: &Vec<OutlineStep>,
    way: &mut ControlPath,
    branches: &mut BranchCounts,
    tallied: &mut VariableTable<UseSummary>,
    best: &mut Option<AssignFault>,
) -> Result<(), AllocError>
    requires way { listed way.old ≡ [] }
    requires branches { are_empty branches.old }
    requires tallied { (of : core.Owned) → at tallied.old of ≡ tallies.unused }
    ensures best { OnOk result (best.new ≡ faults.first_among best.old (faults.faults_of (outline_view steps.now.items))) }
    ensures way { OnOk result (listed way.new ≡ []) }
    ensures branches { OnOk result (are_empty branches.new) }
    ensures tallied { OnOk result ((of : core.Owned) → at tallied.new of ≡ tallies.unused) }
{
    walk(alloc, None, steps, way, best)?;
    way.truncate(0);
    let mut parts = Vec::new(alloc);
    count(alloc, None, steps, branches, &mut parts, best)?;
    let mut uses = Vec::new(alloc);
    let mut declared = Vec::new(alloc);
    collect(steps, &mut uses, &mut declared)?;
    add_all(tallied, uses.as_slice())?;
    note_all(tallied, declared.as_slice(), best);
    clear(tallied, uses.as_slice())
}
