//! Faults of branches (S2): the numbers of assignments that the control paths through a block can make.
//!
//! A recursive walk computes for each variable the set of these numbers. Consecutive steps add their sets, the branches
//! of an `if` unite them, and a loop contributes nothing to the block around it. An `if` is a fault if the sets of its
//! branches differ for a variable that is declared before it.
ghost use Rattle.std.specs.Prelude.{◌≡◌, ◌++◌, ◌∷◌, [], OnOk, IfOk, false, cond, ◌||◌};
ghost use Rattle.std.specs.List.{list_any};
ghost use Rattle.language.specs.Core as core;
ghost use Rattle.types.specs.Typed.{owned_name};
ghost use Rattle.assign_check.specs.Faults as faults;
ghost use Rattle.assign_check.specs.Sets.{Same, numbers, set_at, are_empty, names, part_sums, is_apart, parts_apart};
ghost use Rattle.assign_check.specs.View.{outline_view, step_view, use_view};

use crate::best::note;
use crate::counts::numbers::{differ, once, sum, union};
use crate::counts::sets::CountSets;
use crate::fault::AssignFault;
use crate::outlining::outline::{OutlineStep, UseKind, UseSite};
use crate::targets::control_path::is_before;
use crate::targets::target_faults::is_outer;
use lexer::token::Span;
use std::alloc::{AllocError, Global};
use types::typed::Binding;

/// A variable with the set of numbers of assignments that part of a block makes: one of these numbers on each control
/// path.
#[derive(Drop)]
pub struct AssignCounts {
    pub of: Binding,
    pub set: Vec<bool>,
}

/// Scratch tables for the comparison of the branches of an `if`: for each variable, the set of each branch. They are
/// empty between two comparisons.
#[derive(Drop)]
pub struct BranchCounts {
    pub one: CountSets,
    pub other: CountSets,
}

/// Creates empty scratch tables.
pub fn no_branches(alloc: Global) -> BranchCounts
    ensures { are_empty result }
{
    BranchCounts {
        one: CountSets::new(alloc),
        other: CountSets::new(alloc),
    }
}

/// Adds the counts of the parts to the sets of their variables.
fn add_all(alloc: Global, sets: &mut CountSets, parts: &[AssignCounts]) -> Result<(), AllocError>
    ensures sums { OnOk result ((of : core.Owned) → Same (numbers (set_at sets.new of)) (faults.sums (numbers (set_at sets.old of)) (part_sums of parts.now))) }
    ensures kept { OnOk result ((of : core.Owned) → faults.is_among of (names parts.now) ≡ false → set_at sets.new of ≡ set_at sets.old of) }
{
    for part in parts {
        let sum = sum(alloc, part.set.as_slice(), sets.get(part.of))?;
        sets.set(alloc, part.of, sum)?;
    }
    Ok(())
}

/// Returns true if the two sets differ for one of these variables that is declared before the statement with this
/// number.
fn differs(number: u32, parts: &[AssignCounts], one: &CountSets, other: &CountSets) -> bool
    ensures { result ≡ list_any (is_apart number one.now other.now) (names parts.now) }
{
    for part in parts {
        if is_before(number, part.of) && differ(one.get(part.of), other.get(part.of)) {
            return true;
        }
    }
    false
}

/// Appends the union of both sets of each of these variables to `up`, and resets the sets in both tables.
fn hand_up(
    alloc: Global,
    parts: &[AssignCounts],
    one: &mut CountSets,
    other: &mut CountSets,
    up: &mut Vec<AssignCounts>,
) -> Result<(), AllocError>
    ensures sums { OnOk result ((of : core.Owned) → Same
        (faults.sums (part_sums of up.new.items) (numbers (set_at one.new of) ++ numbers (set_at other.new of)))
        (faults.sums (part_sums of up.old.items) (numbers (set_at one.old of) ++ numbers (set_at other.old of)))) }
    ensures one { OnOk result ((of : core.Owned) → set_at one.new of ≡ cond (faults.is_among of (names parts.now)) [] (set_at one.old of)) }
    ensures other { OnOk result ((of : core.Owned) → set_at other.new of ≡ cond (faults.is_among of (names parts.now)) [] (set_at other.old of)) }
{
    for part in parts {
        let set = union(alloc, one.get(part.of), other.get(part.of))?;
        up.push(AssignCounts { of: part.of, set })?;
        one.set(alloc, part.of, Vec::new(alloc))?;
        other.set(alloc, part.of, Vec::new(alloc))?;
    }
    Ok(())
}

/// Compares the branches of the `if` with this number, and appends the united counts of both to `up`.
///
/// Returns true if the branches differ for a variable that is declared before the `if`.
fn join(
    alloc: Global,
    number: u32,
    first: &[AssignCounts],
    second: &[AssignCounts],
    branches: &mut BranchCounts,
    up: &mut Vec<AssignCounts>,
) -> Result<bool, AllocError>
    requires { are_empty branches.old }
    ensures uneven { IfOk result (λ uneven. uneven ≡ list_any (parts_apart number first.now second.now) (names first.now ++ names second.now)) }
    ensures sums { OnOk result ((of : core.Owned) → Same (part_sums of up.new.items)
        (faults.sums (part_sums of up.old.items) (part_sums of first.now ++ part_sums of second.now))) }
    ensures empty { OnOk result (are_empty branches.new) }
{
    add_all(alloc, &mut branches.one, first)?;
    add_all(alloc, &mut branches.other, second)?;
    let uneven = differs(number, first, &branches.one, &branches.other);
    let also = differs(number, second, &branches.one, &branches.other);
    hand_up(alloc, first, &mut branches.one, &mut branches.other, up)?;
    hand_up(alloc, second, &mut branches.one, &mut branches.other, up)?;
    Ok(either(uneven, also))
}

/// Returns true if one of two values is true.
fn either(one: bool, other: bool) -> bool
    ensures { result ≡ (one || other) }
{
    one || other
}

/// Appends the count of a use: 1 for an assignment by name, unless its variable is declared outside the innermost loop.
fn target(
    alloc: Global,
    inside: Option<u32>,
    one: UseSite,
    parts: &mut Vec<AssignCounts>,
) -> Result<(), AllocError>
    ensures { OnOk result ((of : core.Owned) → Same (part_sums of parts.new.items)
        (faults.sums (part_sums of parts.old.items) (faults.times of (faults.named_by inside (use_view one).kind (use_view one).of) ∷ []))) }
{
    match one.kind {
        UseKind::Written | UseKind::Read => Ok(()),
        UseKind::Named => {
            if is_outer(inside, one.of) {
                return Ok(());
            }
            let set = once(alloc)?;
            parts.push(AssignCounts { of: one.of, set })?;
            Ok(())
        }
    }
}

/// Records the fault of an `if` whose branches differ. `at`: its first token.
fn note_uneven(uneven: bool, at: Span, best: &mut Option<AssignFault>)
    ensures { best.new ≡ faults.first_among best.old (cond uneven (AssignFault.PartlyAssigned at ∷ []) []) }
{
    if uneven {
        note(best, AssignFault::PartlyAssigned(at));
    }
}

/// Appends the counts of a block to `parts`, and records the faults of its `if`s.
///
/// `inside` is the number of the innermost enclosing loop. The scratch tables are empty before and after the call.
#[cycle(count)]
pub fn count(
    alloc: Global,
    inside: Option<u32>,
    steps: &Vec<OutlineStep>,
    branches: &mut BranchCounts,
    parts: &mut Vec<AssignCounts>,
    best: &mut Option<AssignFault>,
) -> Result<(), AllocError>
    requires { are_empty branches.old }
    ensures sums { OnOk result ((of : core.Owned) → Same (part_sums of parts.new.items)
        (faults.sums (part_sums of parts.old.items) (faults.counts inside of (outline_view steps.now.items)))) }
    ensures best { OnOk result (best.new ≡ faults.first_among best.old (faults.split_faults inside (outline_view steps.now.items))) }
    ensures empty { OnOk result (are_empty branches.new) }
{
    for step in steps {
        count_step(alloc, inside, step, branches, parts, best)?;
    }
    Ok(())
}

#[cycle(count)]
fn count_step(
    alloc: Global,
    inside: Option<u32>,
    step: &OutlineStep,
    branches: &mut BranchCounts,
    parts: &mut Vec<AssignCounts>,
    best: &mut Option<AssignFault>,
) -> Result<(), AllocError>
    requires { are_empty branches.old }
    ensures sums { OnOk result ((of : core.Owned) → Same (part_sums of parts.new.items)
        (faults.sums (part_sums of parts.old.items) (faults.step_counts inside of (step_view step.now)))) }
    ensures best { OnOk result (best.new ≡ faults.first_among best.old (faults.split_step inside (step_view step.now))) }
    ensures empty { OnOk result (are_empty branches.new) }
{
    match step {
        OutlineStep::Declares(_) => Ok(()),
        OutlineStep::Uses(it) => target(alloc, inside, *it, parts),
        OutlineStep::Splits(number, at, first, second) => {
            let mut one = Vec::new(alloc);
            let mut other = Vec::new(alloc);
            count(alloc, inside, first, branches, &mut one, best)?;
            count(alloc, inside, second, branches, &mut other, best)?;
            let uneven = join(
                alloc,
                *number,
                one.as_slice(),
                other.as_slice(),
                branches,
                parts,
            )?;
            note_uneven(uneven, *at, best);
            Ok(())
        }
        OutlineStep::Repeats(number, body) => {
            let mut within = Vec::new(alloc);
            count(alloc, Some(*number), body, branches, &mut within, best)
        }
        OutlineStep::Encloses(body) => count(alloc, inside, body, branches, parts, best),
    }
}
