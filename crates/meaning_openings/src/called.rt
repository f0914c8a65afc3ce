//! Opening of the bodies of called functions (Swift/T Guide, on composite functions).

ghost use Rattle.std.specs.Prelude.{◌≡◌, ◌<◌, ℕ, pos, length, Some, slice_get, IfErr, OnOk};
ghost use Rattle.values.specs.declared.key.Key.{Key as StepKey};
ghost use Rattle.flow.specs.View.{call_view, core_of};
ghost use Rattle.language.specs.Core.{Core, Function, Stmt};
ghost use Rattle.language.specs.Members.{◌∈◌};
ghost use Rattle.language.specs.Parts.{stmt_calls};
ghost use Rattle.language.specs.Places.{max_path_steps};
ghost use Rattle.language.specs.WellFormed.{WellFormed};
ghost use Rattle.meaning_facts.specs.Paths.{path_of};
ghost use Rattle.meaning_invariants.specs.Active.{active, HasBlock};
ghost use Rattle.meaning_invariants.specs.Opened.{AreCalled};
ghost use Rattle.meaning_round.specs.Made.{tasks_of, waiting_of};
ghost use Rattle.meaning_round.specs.Standing.{active_of};
ghost use Rattle.meaning_openings.specs.declared.fault.MeaningError.TheVariants.{TooLarge};
ghost use Rattle.meaning_openings.specs.Larger.{IsLarger};
ghost use Rattle.meaning_openings.specs.Opening.{IsGood, IsMore, IsStep};

use crate::children::enter;
use crate::fault::MeaningError;
use crate::live_limits::LiveLimits;
use flow::cell::Call;
use meaning_cells::parts::calls_of;
use meaning_facts::instances::InstanceBindings;
use meaning_round::state::{LiveAction, LiveTask, RoundState};
use paths::Step;
use std::alloc::{AllocError, Allocator, Global};
use values::key::Key;

/// Makes the bodies of a statement's calls live.
pub(crate) fn open_calls<'a, A: Allocator>(
    state: &mut RoundState<'a, A>,
    room: LiveLimits,
    task: &LiveTask<'a, A>,
) -> Result<(), MeaningError>
    ensures so { OnOk result ((s : Core) (n : ℕ) → s ≡ core_of state.old.flow.now → WellFormed s → IsGood s n state.old
        → active_of task.now ∈ tasks_of state.old
        → IsStep s n state.old state.new × AreCalled s state.new.fact_base (tasks_of state.new) (active_of task.now)) }
    ensures large { IfErr result (λ fault. fault ≡ TooLarge → (s : Core) (n : ℕ) → s ≡ core_of state.old.flow.now → WellFormed s → IsGood s n state.old
        → active_of task.now ∈ tasks_of state.old → IsLarger s n room.most) }
    ensures more { OnOk result (IsMore state.old state.new) }
    ensures flow { state.new.flow.now ≡ state.old.flow.now }
    ensures passed { state.new.passed ≡ state.old.passed }
    ensures waiting { waiting_of state.new ≡ waiting_of state.old }
{
    let LiveAction::Does(action) = &task.live_action else {
        return Ok(());
    };
    let calls = calls_of(room.alloc, *action)?;
    for call in &calls {
        room.check(state)?;
        open_call(state, room.alloc, task.site.instance, *call)?;
    }
    Ok(())
}

/// Makes the body of a call live. Does nothing if the path has the maximum length.
fn open_call<'a, A: Allocator>(
    state: &mut RoundState<'a, A>,
    alloc: Global,
    instance: usize,
    call: &'a Call<A>,
) -> Result<(), AllocError>
    ensures so { OnOk result ((s : Core) (n : ℕ) → s ≡ core_of state.old.flow.now → WellFormed s → IsGood s n state.old
        → (st : Stmt) → active instance st ∈ tasks_of state.old → call_view call.entry.now ∈ stmt_calls st
        → IsStep s n state.old state.new × ((f : Function) → slice_get s.functions call.entry.now.function ≡ Some f
        → length (path_of state.old.fact_base.instances.all.items instance) < max_path_steps
        → HasBlock state.new.fact_base (tasks_of state.new) instance call.entry.now.at (StepKey.Number (pos 0)) f.body)) }
    ensures more { OnOk result (IsMore state.old state.new) }
    ensures flow { state.new.flow.now ≡ state.old.flow.now }
    ensures passed { state.new.passed ≡ state.old.passed }
    ensures waiting { waiting_of state.new ≡ waiting_of state.old }
{
    let flow = state.flow;
    if state.fact_base.instances.is_deep(instance) {
        return Ok(());
    }
    let Some(function) = flow.functions.get(call.function) else {
        return Ok(());
    };
    let step = Step {
        offset: call.at,
        key: Key::Number(0),
    };
    let given = InstanceBindings {
        inputs: state
            .fact_base
            .instances
            .places(alloc, instance, &call.inputs)?,
        outputs: state
            .fact_base
            .instances
            .places(alloc, instance, &call.outputs)?,
        variables: Vec::new(alloc),
    };
    enter(state, alloc, instance, step, given, &function.body)?;
    Ok(())
}
