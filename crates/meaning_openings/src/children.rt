//! Opening of a block in a child instance.

ghost use Rattle.std.specs.Prelude.{◌≡◌, IfOk, OnOk};
ghost use Rattle.flow.specs.View.{block_view};
ghost use Rattle.meaning_invariants.specs.Opened.{IsChildOf};
ghost use Rattle.meaning_round.specs.Made.{waiting_of};
ghost use Rattle.meaning_openings.specs.Opening.{IsEnteredBy};

use flow::statement::Block;
use meaning_facts::fact_base::FactBase;
use meaning_facts::instances::InstanceBindings;
use meaning_round::state::RoundState;
use paths::Step;
use std::alloc::{AllocError, Allocator, Global};

/// Makes the statements of a block live in the child instance at a step.
pub(crate) fn enter<'a, A: Allocator>(
    state: &mut RoundState<'a, A>,
    alloc: Global,
    parent: usize,
    step: Step,
    given: InstanceBindings,
    block: &'a Block<A>,
) -> Result<(), AllocError>
    ensures entered { OnOk result (IsEnteredBy state.old parent step given (block_view block.entry.now) state.new) }
    ensures facts { state.new.fact_base.facts ≡ state.old.fact_base.facts }
    ensures closed { state.new.fact_base.closed ≡ state.old.fact_base.closed }
    ensures worklist { state.new.worklist ≡ state.old.worklist }
    ensures flow { state.new.flow.now ≡ state.old.flow.now }
    ensures passed { state.new.passed ≡ state.old.passed }
    ensures waiting { waiting_of state.new ≡ waiting_of state.old }
{
    let child = child_of(alloc, &mut state.fact_base, parent, step, given)?;
    state.add_block(child, &[], block)
}

/// Returns the child instance at a step, and opens it if there is none.
fn child_of(
    alloc: Global,
    fact_base: &mut FactBase,
    parent: usize,
    step: Step,
    given: InstanceBindings,
) -> Result<usize, AllocError>
    ensures found { IfOk result (λ child. IsChildOf fact_base.old parent step given fact_base.new child) }
    ensures facts { fact_base.new.facts ≡ fact_base.old.facts }
    ensures closed { fact_base.new.closed ≡ fact_base.old.closed }
{
    match fact_base.instances.child(parent, step.offset, &step.key) {
        Some(child) => Ok(child),
        None => {
            let child = fact_base.instances.open(alloc, parent, step, given)?;
            Ok(child)
        }
    }
}
