//! Faults of variables (S3, S5 and S6), from a summary of the uses of each variable.
ghost use Rattle.std.specs.Prelude.{◌≡◌, ◌++◌, [], OnOk, map};
ghost use Rattle.std.specs.List.{flat_map};
ghost use Rattle.language.specs.Core as core;
ghost use Rattle.types.specs.Typed.{owned_name};
ghost use Rattle.assign_check.specs.Faults as faults;
ghost use Rattle.assign_check.specs.Tables.{at};
ghost use Rattle.assign_check.specs.Tallies as tallies;
ghost use Rattle.assign_check.specs.View.{kind_of, role_of, use_view, declared_view, step_view, outline_view};

use crate::best::note;
use crate::fault::AssignFault;
use crate::outlining::outline::{DeclRole, Declaration, OutlineStep, UseKind, UseSite};
use crate::summaries::table::VariableTable;
use language::tree::Shape;
use lexer::token::Span;
use std::alloc::AllocError;

/// A summary of the uses of a variable.
#[derive(Clone, Copy)]
pub struct UseSummary {
    /// Whether the variable is read.
    pub read: bool,
    /// The first target by name.
    pub named: Option<Span>,
    /// The first target by an element.
    pub written: Option<Span>,
    /// Whether the first target of all is by name.
    pub named_first: bool,
}

/// Creates the summary of a variable without uses.
pub fn unused() -> UseSummary
    ensures { result ≡ tallies.unused }
{
    UseSummary {
        read: false,
        named: None,
        written: None,
        named_first: false,
    }
}

/// Returns the summary extended by one use.
fn more(tally: UseSummary, kind: UseKind, at: Span) -> UseSummary
    ensures { result ≡ tallies.more tally (kind_of kind) at }
{
    match kind {
        UseKind::Read => UseSummary {
            read: true,
            ..tally
        },
        UseKind::Named => UseSummary {
            named: first_of(tally.named, at),
            named_first: tally.named_first || tally.written.is_none(),
            ..tally
        },
        UseKind::Written => UseSummary {
            written: first_of(tally.written, at),
            ..tally
        },
    }
}

/// Returns the place that is present, or else the other one.
fn first_of(there: Option<Span>, at: Span) -> Option<Span>
    ensures { result ≡ tallies.first_of there at }
{
    match there {
        None => Some(at),
        Some(_) => there,
    }
}

/// Adds uses to the summaries of their variables.
pub fn add_all(table: &mut VariableTable<UseSummary>, uses: &[UseSite]) -> Result<(), AllocError>
    ensures { OnOk result ((of : core.Owned) → at table.new of ≡ tallies.tally_from (at table.old of) of (map use_view uses.now)) }
{
    for one in uses {
        let tally = more(table.get(one.of), one.kind, one.span);
        table.set(one.of, tally)?;
    }
    Ok(())
}

/// Resets the summaries of the used variables.
pub fn clear(table: &mut VariableTable<UseSummary>, uses: &[UseSite]) -> Result<(), AllocError>
    ensures { OnOk result ((of : core.Owned) → at table.new of ≡ tallies.cleared (at table.old of) of (map use_view uses.now)) }
{
    for one in uses {
        table.set(one.of, unused())?;
    }
    Ok(())
}

/// Records a `WholeAndElements` fault if there is a place.
fn note_place(place: Option<Span>, best: &mut Option<AssignFault>)
    ensures { best.new ≡ faults.first_among best.old (tallies.place_faults place) }
{
    if let Some(at) = place {
        note(best, AssignFault::WholeAndElements(at));
    }
}

/// Records the fault of a scalar that is read and never assigned.
fn note_never(shape: Shape, at: Span, tally: UseSummary, best: &mut Option<AssignFault>)
    ensures { best.new ≡ faults.first_among best.old (tallies.never_faults shape at tally) }
{
    match shape {
        Shape::Array(_) => {}
        Shape::Scalar => {
            if tally.read && tally.named.is_none() {
                note(best, AssignFault::NeverAssigned(at));
            }
        }
    }
}

/// Records the fault of an output that is never assigned.
fn note_output(at: Span, tally: UseSummary, best: &mut Option<AssignFault>)
    ensures { best.new ≡ faults.first_among best.old (tallies.output_faults at tally) }
{
    if tally.named.is_none() && tally.written.is_none() {
        note(best, AssignFault::OutputUnassigned(at));
    }
}

/// Records the fault of a variable that is assigned both whole and by elements.
fn note_form(tally: UseSummary, best: &mut Option<AssignFault>)
    ensures { best.new ≡ faults.first_among best.old (tallies.place_faults (tallies.other_form tally)) }
{
    if tally.named_first {
        note_place(tally.written, best);
    } else {
        note_place(tally.named, best);
    }
}

/// Records the faults of a declared variable with this role and this summary.
fn note_variable(
    role: DeclRole,
    shape: Shape,
    at: Span,
    tally: UseSummary,
    best: &mut Option<AssignFault>,
)
    ensures { best.new ≡ faults.first_among best.old (tallies.tally_faults (role_of role) shape at tally) }
{
    match role {
        DeclRole::Own => {
            note_never(shape, at, tally, best);
            note_form(tally, best);
        }
        DeclRole::Output => {
            note_never(shape, at, tally, best);
            note_output(at, tally, best);
            note_form(tally, best);
        }
        DeclRole::Given => note_place(tally.written, best),
    }
}

/// Records the faults of all declared variables.
pub fn note_all(
    table: &VariableTable<UseSummary>,
    declared: &[Declaration],
    best: &mut Option<AssignFault>,
)
    ensures { best.new ≡ faults.first_among best.old (flat_map (λ d. tallies.tally_faults d.role d.shape d.span (at table.now d.what))
        (map declared_view declared.now)) }
{
    for one in declared {
        let tally = table.get(one.what);
        note_variable(one.role, one.shape, one.span, tally, best);
    }
}

/// Appends the uses and the declarations of a block and its nested blocks.
#[cycle(collect)]
pub fn collect(
    steps: &Vec<OutlineStep>,
    uses: &mut Vec<UseSite>,
    declared: &mut Vec<Declaration>,
) -> Result<(), AllocError>
    ensures uses { OnOk result (map use_view uses.new.items ≡ map use_view uses.old.items ++ faults.uses_in (outline_view steps.now.items)) }
    ensures declared { OnOk result (map declared_view declared.new.items
        ≡ map declared_view declared.old.items ++ faults.declared_in (outline_view steps.now.items)) }
{
    for step in steps {
        collect_step(step, uses, declared)?;
    }
    Ok(())
}

#[cycle(collect)]
fn collect_step(
    step: &OutlineStep,
    uses: &mut Vec<UseSite>,
    declared: &mut Vec<Declaration>,
) -> Result<(), AllocError>
    ensures uses { OnOk result (map use_view uses.new.items ≡ map use_view uses.old.items ++ faults.uses_at (step_view step.now)) }
    ensures declared { OnOk result (map declared_view declared.new.items ≡ map declared_view declared.old.items ++ faults.declared_at (step_view step.now)) }
{
    match step {
        OutlineStep::Declares(one) => {
            declared.push(*one)?;
            Ok(())
        }
        OutlineStep::Uses(one) => {
            uses.push(*one)?;
            Ok(())
        }
        OutlineStep::Splits(_, _, first, other) => {
            collect(first, uses, declared)?;
            collect(other, uses, declared)
        }
        OutlineStep::Repeats(_, body) => collect(body, uses, declared),
        OutlineStep::Encloses(body) => collect(body, uses, declared),
    }
}
