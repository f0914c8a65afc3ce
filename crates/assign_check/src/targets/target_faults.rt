//! Faults of targets (S1 and S4): second assignments on some control path, and assignments in a loop to outer
//! variables.
//!
//! One walk over the outline maintains the variables that some control path assigns so far. The branches of an `if`
//! both start from the path before it, and their assignments are joined after it. The assignments in a loop body are
//! dropped after the loop.
ghost use Rattle.std.specs.Prelude.{◌≡◌, ◌++◌, ◌∷◌, [], OnOk, cond};
ghost use Rattle.types.specs.Typed.{owned_name};
ghost use Rattle.assign_check.specs.Faults as faults;
ghost use Rattle.assign_check.specs.Outline as outline;
ghost use Rattle.assign_check.specs.View.{outline_view, step_view, use_view, role_of};
ghost use Rattle.assign_check.specs.Ways.{listed};

use crate::best::note;
use crate::fault::AssignFault;
use crate::outlining::outline::{DeclRole, OutlineStep, UseKind, UseSite};
use crate::targets::control_path::{ControlPath, is_before};
use lexer::token::Span;
use std::alloc::{AllocError, Global};
use types::typed::Binding;

/// Returns true if `inside` is a loop and the variable is declared outside that loop. `inside`: the number of the
/// innermost loop.
pub fn is_outer(inside: Option<u32>, of: Binding) -> bool
    ensures { result ≡ faults.is_outer inside (owned_name of) }
{
    match inside {
        None => false,
        Some(number) => is_before(number, of),
    }
}

/// Processes a declaration: appends a variable that counts as assigned there to the control path.
fn declared(role: DeclRole, what: Binding, way: &mut ControlPath) -> Result<(), AllocError>
    ensures { OnOk result (listed way.new ≡ listed way.old ++ faults.given_by (role_of role) (owned_name what)) }
{
    match role {
        DeclRole::Own | DeclRole::Output => Ok(()),
        DeclRole::Given => way.push(what),
    }
}

/// Processes a use. An assignment by name extends the control path, unless its variable is declared outside the
/// innermost loop.
fn used(
    inside: Option<u32>,
    one: UseSite,
    way: &mut ControlPath,
    best: &mut Option<AssignFault>,
) -> Result<(), AllocError>
    ensures way { OnOk result (listed way.new ≡ listed way.old ++ faults.named_by inside (use_view one).kind (use_view one).of) }
    ensures best { OnOk result (best.new ≡ faults.first_among best.old
        (faults.target_faults inside (listed way.old) (use_view one).kind (use_view one).of one.span)) }
{
    match one.kind {
        UseKind::Named => target(inside, one.of, one.span, way, best),
        UseKind::Written | UseKind::Read => Ok(()),
    }
}

/// Processes an assignment by name: records its fault, or extends the control path. After a second assignment it does
/// both.
fn target(
    inside: Option<u32>,
    of: Binding,
    at: Span,
    way: &mut ControlPath,
    best: &mut Option<AssignFault>,
) -> Result<(), AllocError>
    ensures way { OnOk result (listed way.new ≡ listed way.old ++ faults.named_by inside outline.named (owned_name of)) }
    ensures best { OnOk result (best.new ≡ faults.first_among best.old (faults.target_faults inside (listed way.old) outline.named (owned_name of) at)) }
{
    if is_outer(inside, of) {
        note(best, AssignFault::OuterInLoop(at));
        return Ok(());
    }
    twice(of, at, way, best);
    way.push(of)
}

/// Records a fault if the control path already assigns the variable.
fn twice(of: Binding, at: Span, way: &ControlPath, best: &mut Option<AssignFault>)
    ensures { best.new ≡ faults.first_among best.old (cond (faults.is_among (owned_name of) (listed way.now)) (AssignFault.AssignedTwice at ∷ []) []) }
{
    if way.holds(of) {
        note(best, AssignFault::AssignedTwice(at));
    }
}

/// Processes the steps of a block, after those on the control path, and records the faults of its targets.
///
/// `inside` is the number of the innermost enclosing loop.
#[cycle(walk)]
pub fn walk(
    alloc: Global,
    inside: Option<u32>,
    steps: &Vec<OutlineStep>,
    way: &mut ControlPath,
    best: &mut Option<AssignFault>,
) -> Result<(), AllocError>
    ensures way { OnOk result (listed way.new ≡ listed way.old ++ faults.way inside (outline_view steps.now.items)) }
    ensures best { OnOk result (best.new ≡ faults.first_among best.old (faults.way_faults inside (listed way.old) (outline_view steps.now.items))) }
{
    for step in steps {
        walk_step(alloc, inside, step, way, best)?;
    }
    Ok(())
}

#[cycle(walk)]
fn walk_step(
    alloc: Global,
    inside: Option<u32>,
    step: &OutlineStep,
    way: &mut ControlPath,
    best: &mut Option<AssignFault>,
) -> Result<(), AllocError>
    ensures way { OnOk result (listed way.new ≡ listed way.old ++ faults.step_way inside (step_view step.now)) }
    ensures best { OnOk result (best.new ≡ faults.first_among best.old (faults.step_faults inside (listed way.old) (step_view step.now))) }
{
    match step {
        OutlineStep::Declares(one) => declared(one.role, one.what, way),
        OutlineStep::Uses(one) => used(inside, *one, way, best),
        OutlineStep::Splits(_, _, first, other) => {
            let before = way.len();
            walk(alloc, inside, first, way, best)?;
            let taken = way.set_aside(alloc, before)?;
            walk(alloc, inside, other, way, best)?;
            let left = way.set_aside(alloc, before)?;
            way.extend(taken.as_slice())?;
            way.extend(left.as_slice())
        }
        OutlineStep::Repeats(number, body) => {
            let before = way.len();
            walk(alloc, Some(*number), body, way, best)?;
            way.truncate(before);
            Ok(())
        }
        OutlineStep::Encloses(body) => walk(alloc, inside, body, way, best),
    }
}
