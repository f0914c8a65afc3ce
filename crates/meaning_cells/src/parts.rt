//! Outermost cells and composite calls of a statement, in reading order.
ghost use Rattle.std.specs.Prelude.{◌≡◌, ◌++◌, ◌∷◌, [], option_map, option_to_list, IfOk, OnOk};
ghost use Rattle.language.specs.Core.{calls};
ghost use Rattle.language.specs.Parts.{outers, outer_parts, part_calls, parts};
ghost use Rattle.flow.specs.View.{action_view, call_view, outer_view, part_view, parts_view};
ghost use Rattle.meaning_cells.specs.Listed.{outers_listed, calls_listed};

use flow::cell::{Call, CellPart, OuterCell};
use flow::statement::{Action, Range};
use std::alloc::{AllocError, Allocator, Global};

/// Returns the outermost cells of a statement: those that are part of no other cell.
pub fn outers_of<'a, A: Allocator>(
    alloc: Global,
    action: &'a Action<A>,
) -> Result<Vec<&'a OuterCell<A>>, AllocError>
    ensures { IfOk result (λ os. outers_listed os.items ≡ outers (action_view action.now)) }
{
    match action {
        Action::Assign { right, .. } => one(alloc, right),
        Action::Fill { right, .. } => one(alloc, right),
        Action::Insert { index, right, .. } => two(alloc, index, right),
        Action::Print { line, .. } => one(alloc, line),
        Action::Assert { check, .. } => one(alloc, check),
        Action::When { condition, .. } => one(alloc, condition),
        Action::Choose { condition, .. } => one(alloc, condition),
        Action::Range { range, .. } => bounds_of(alloc, range),
        Action::Declare(_) => Ok(Vec::new(alloc)),
        Action::Call { .. } => Ok(Vec::new(alloc)),
        Action::Each { .. } => Ok(Vec::new(alloc)),
        Action::Wait { .. } => Ok(Vec::new(alloc)),
    }
}

fn one<'a, A: Allocator>(
    alloc: Global,
    outer: &'a OuterCell<A>,
) -> Result<Vec<&'a OuterCell<A>>, AllocError>
    ensures { IfOk result (λ os. outers_listed os.items ≡ outer_view outer.now ∷ []) }
{
    let mut outers = Vec::new(alloc);
    outers.push(outer)?;
    Ok(outers)
}

fn two<'a, A: Allocator>(
    alloc: Global,
    first: &'a OuterCell<A>,
    second: &'a OuterCell<A>,
) -> Result<Vec<&'a OuterCell<A>>, AllocError>
    ensures { IfOk result (λ os. outers_listed os.items ≡ outer_view first.now ∷ outer_view second.now ∷ []) }
{
    let mut outers = Vec::new(alloc);
    outers.push(first)?;
    outers.push(second)?;
    Ok(outers)
}

/// Returns the bounds of a range, and its step if it has one.
fn bounds_of<'a, A: Allocator>(
    alloc: Global,
    range: &'a Range<A>,
) -> Result<Vec<&'a OuterCell<A>>, AllocError>
    ensures { IfOk result (λ os. outers_listed os.items
        ≡ outer_view range.now.low ∷ outer_view range.now.high ∷ option_to_list (option_map outer_view range.now.step)) }
{
    let mut outers = two(alloc, &range.low, &range.high)?;
    match &range.step {
        Some(step) => {
            outers.push(step)?;
            Ok(outers)
        }
        None => Ok(outers),
    }
}

/// Returns the composite calls of a statement.
pub fn calls_of<'a, A: Allocator>(
    alloc: Global,
    action: &'a Action<A>,
) -> Result<Vec<&'a Call<A>>, AllocError>
    ensures { IfOk result (λ cs. calls_listed cs.items ≡ part_calls (parts (action_view action.now))) }
{
    match action {
        Action::Call { parts, call, .. } => called(alloc, parts.as_slice(), call),
        Action::Declare(_) => inner_calls(alloc, action),
        Action::Assign { .. } => inner_calls(alloc, action),
        Action::Fill { .. } => inner_calls(alloc, action),
        Action::Insert { .. } => inner_calls(alloc, action),
        Action::Print { .. } => inner_calls(alloc, action),
        Action::Assert { .. } => inner_calls(alloc, action),
        Action::When { .. } => inner_calls(alloc, action),
        Action::Choose { .. } => inner_calls(alloc, action),
        Action::Range { .. } => inner_calls(alloc, action),
        Action::Each { .. } => inner_calls(alloc, action),
        Action::Wait { .. } => inner_calls(alloc, action),
    }
}

/// Returns the composite calls of a call statement: those of its parts, then the call itself.
#[tactic(auto, using(crate::proofs::Parting::call_behind))]
fn called<'a, A: Allocator>(
    alloc: Global,
    parts: &'a [CellPart<A>],
    call: &'a Call<A>,
) -> Result<Vec<&'a Call<A>>, AllocError>
    ensures { IfOk result (λ cs. calls_listed cs.items ≡ part_calls (parts_view parts.now ++ calls (call_view call.now) ∷ [])) }
{
    let mut called = Vec::new(alloc);
    add_calls(&mut called, parts)?;
    called.push(call)?;
    Ok(called)
}

/// Returns the composite calls within the outermost cells of a statement.
fn inner_calls<'a, A: Allocator>(
    alloc: Global,
    action: &'a Action<A>,
) -> Result<Vec<&'a Call<A>>, AllocError>
    ensures { IfOk result (λ cs. calls_listed cs.items ≡ part_calls (outer_parts (outers (action_view action.now)))) }
{
    let mut calls = Vec::new(alloc);
    add_outer_calls(&mut calls, outers_of(alloc, action)?.as_slice())?;
    Ok(calls)
}

/// Appends the calls within outermost cells.
fn add_outer_calls<'a, A: Allocator>(
    calls: &mut Vec<&'a Call<A>>,
    outers: &[&'a OuterCell<A>],
) -> Result<(), AllocError>
    ensures { OnOk result (calls_listed calls.new.items ≡ calls_listed calls.old.items ++ part_calls (outer_parts (outers_listed outers.now))) }
{
    for outer in outers {
        add_calls(calls, outer.parts.as_slice())?;
    }
    Ok(())
}

fn add_calls<'a, A: Allocator>(
    calls: &mut Vec<&'a Call<A>>,
    parts: &'a [CellPart<A>],
) -> Result<(), AllocError>
    ensures { OnOk result (calls_listed calls.new.items ≡ calls_listed calls.old.items ++ part_calls (parts_view parts.now)) }
{
    for part in parts {
        add_call(calls, part)?;
    }
    Ok(())
}

/// Appends the part if it is a call.
fn add_call<'a, A: Allocator>(
    calls: &mut Vec<&'a Call<A>>,
    part: &'a CellPart<A>,
) -> Result<(), AllocError>
    ensures { OnOk result (calls_listed calls.new.items ≡ calls_listed calls.old.items ++ part_calls (part_view part.now ∷ [])) }
{
    match part {
        CellPart::Calls(call) => {
            calls.push(call)?;
            Ok(())
        }
        CellPart::Inner(_) => Ok(()),
    }
}
