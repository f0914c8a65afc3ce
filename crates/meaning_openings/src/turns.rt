//! Opening of the blocks of a choice, one for each turn (Swift/T Guide, on conditionals and loops).

ghost use Rattle.std.specs.Prelude.{◌≡◌, ◌<◌, ◌∷◌, ℕ, length, Some, IfErr, IfOk, OnOk, option_map};
ghost use Rattle.flow.specs.View.{action_view, block_view};
ghost use Rattle.language.specs.Core.{Block as CoreBlock, Core, stmt};
ghost use Rattle.language.specs.Members.{◌∈◌};
ghost use Rattle.language.specs.Places.{max_path_steps};
ghost use Rattle.language.specs.WellFormed.{WellFormed};
ghost use Rattle.meaning_cells.specs.Chosen.{block_in, choice_view, chosen_in, count_in, key_in, value_at_turn};
ghost use Rattle.meaning_facts.specs.Paths.{path_of};
ghost use Rattle.meaning_facts.specs.Sighted.{sight_of};
ghost use Rattle.meaning_invariants.specs.Active.{active, HasBlock};
ghost use Rattle.meaning_invariants.specs.Turns.{key_variable, turn_variables};
ghost use Rattle.meaning_invariants.specs.Opened.{OffsetsApart};
ghost use Rattle.meaning_round.specs.Made.{tasks_of, waiting_of};
ghost use Rattle.meaning_openings.specs.declared.fault.MeaningError.TheVariants.{TooLarge};
ghost use Rattle.meaning_openings.specs.Larger.{IsLarger};
ghost use Rattle.meaning_openings.specs.Opening.{AreTurned, IsGood, IsMore, IsStep};

use crate::children::enter;
use crate::fault::MeaningError;
use crate::live_limits::LiveLimits;
use flow::statement::{Action, Block, Variable};
use meaning_cells::choices::{Choice, block_of};
use meaning_facts::instances::{InstanceBindings, LoopVariable};
use meaning_round::state::RoundState;
use paths::Step;
use std::alloc::{AllocError, Allocator, Global};
use values::key::Key;
use values::value::Scalar;

/// Makes the blocks that a header opens by its choice live. Does nothing if the path has the maximum length.
pub(crate) fn open_choice<'a, A: Allocator>(
    state: &mut RoundState<'a, A>,
    room: LiveLimits,
    instance: usize,
    at: usize,
    action: &'a Action<A>,
    choice: &Choice,
) -> Result<(), MeaningError>
    ensures so { OnOk result ((s : Core) (n : ℕ) → WellFormed s → OffsetsApart s → IsGood s n state.old → (node : ℕ)
        → active instance (stmt at node (action_view action.entry.now)) ∈ tasks_of state.old
        → chosen_in (sight_of state.old.fact_base instance) (action_view action.entry.now) ≡ Some (choice_view choice.now)
        → AreTurned s n state.old state.new instance at (action_view action.entry.now) (choice_view choice.now) (count_in (choice_view choice.now))) }
    ensures large { IfErr result (λ fault. fault ≡ TooLarge → (s : Core) (n : ℕ) → WellFormed s → OffsetsApart s → IsGood s n state.old → (node : ℕ)
        → active instance (stmt at node (action_view action.entry.now)) ∈ tasks_of state.old
        → chosen_in (sight_of state.old.fact_base instance) (action_view action.entry.now) ≡ Some (choice_view choice.now) → IsLarger s n room.most) }
    ensures more { OnOk result (IsMore state.old state.new) }
    ensures flow { state.new.flow.now ≡ state.old.flow.now }
    ensures passed { state.new.passed ≡ state.old.passed }
    ensures waiting { waiting_of state.new ≡ waiting_of state.old }
{
    if state.fact_base.instances.is_deep(instance) {
        return Ok(());
    }
    let Some(block) = block_of(action, choice) else {
        return Ok(());
    };
    for i in 0..choice.count() {
        room.check(state)?;
        open_turn(state, room.alloc, instance, at, action, choice, i, block)?;
    }
    Ok(())
}

/// Makes the block of one turn live.
fn open_turn<'a, A: Allocator>(
    state: &mut RoundState<'a, A>,
    alloc: Global,
    instance: usize,
    at: usize,
    action: &'a Action<A>,
    choice: &Choice,
    i: u64,
    block: &'a Block<A>,
) -> Result<(), AllocError>
    ensures so { OnOk result ((s : Core) (n : ℕ) → WellFormed s → OffsetsApart s → IsGood s n state.old → (node : ℕ)
        → active instance (stmt at node (action_view action.entry.now)) ∈ tasks_of state.old
        → chosen_in (sight_of state.old.fact_base instance) (action_view action.entry.now) ≡ Some (choice_view choice.now) → i < count_in (choice_view choice.now)
        → block_in (action_view action.entry.now) (choice_view choice.now) ≡ Some (block_view block.entry.now)
        → length (path_of state.old.fact_base.instances.all.items instance) < max_path_steps
        → IsStep s n state.old state.new × HasBlock state.new.fact_base (tasks_of state.new) instance at (key_in (choice_view choice.now) i)
        (block_view block.entry.now)) }
    ensures more { OnOk result (IsMore state.old state.new) }
    ensures flow { state.new.flow.now ≡ state.old.flow.now }
    ensures passed { state.new.passed ≡ state.old.passed }
    ensures waiting { waiting_of state.new ≡ waiting_of state.old }
{
    let step = Step {
        offset: at,
        key: key_at(choice, i)?,
    };
    let given = InstanceBindings {
        inputs: Vec::new(alloc),
        outputs: Vec::new(alloc),
        variables: variables_of(alloc, action, choice, i)?,
    };
    enter(state, alloc, instance, step, given, block)?;
    Ok(())
}

/// Returns the loop variables of the turn at index `i`, with their values.
fn variables_of<A: Allocator>(
    alloc: Global,
    action: &Action<A>,
    choice: &Choice,
    i: u64,
) -> Result<Vec<LoopVariable>, AllocError>
    ensures { IfOk result (λ vs. i < count_in (choice_view choice.now) → vs.items ≡ turn_variables (action_view action.now) (choice_view choice.now) i) }
{
    match action {
        Action::Range { value, turn, .. } => turn_of(alloc, value.node, turn, choice, i),
        Action::Each { value, key, .. } => turn_of(alloc, value.node, key, choice, i),
        Action::Declare(_) => Ok(Vec::new(alloc)),
        Action::Call { .. } => Ok(Vec::new(alloc)),
        Action::Assign { .. } => Ok(Vec::new(alloc)),
        Action::Fill { .. } => Ok(Vec::new(alloc)),
        Action::Insert { .. } => Ok(Vec::new(alloc)),
        Action::Print { .. } => Ok(Vec::new(alloc)),
        Action::Assert { .. } => Ok(Vec::new(alloc)),
        Action::When { .. } => Ok(Vec::new(alloc)),
        Action::Choose { .. } => Ok(Vec::new(alloc)),
        Action::Wait { .. } => Ok(Vec::new(alloc)),
    }
}

/// Creates the variable for the value, followed by the one for the index or key of the turn.
fn turn_of<A: Allocator>(
    alloc: Global,
    node: u32,
    key: &Option<Variable<A>>,
    choice: &Choice,
    i: u64,
) -> Result<Vec<LoopVariable>, AllocError>
    ensures { IfOk result (λ vs. i < count_in (choice_view choice.now) → vs.items
        ≡ record { node = node; value = value_at_turn (choice_view choice.now) i } ∷ key_variable (option_map (λ x. x.node) key.now)
        (key_in (choice_view choice.now) i)) }
{
    let mut variables = Vec::new(alloc);
    variables.push(LoopVariable {
        node,
        value: choice.value(i)?,
    })?;
    if let Some(turn) = key {
        let key = key_at(choice, i)?;
        let value = key.scalar()?;
        variables.push(LoopVariable {
            node: turn.node,
            value,
        })?;
    }
    Ok(variables)
}

/// Returns the key of a turn. An index of 2^63 or more counts as an allocation failure.
fn key_at(choice: &Choice, i: u64) -> Result<Key, AllocError>
    ensures { IfOk result (λ key. i < count_in (choice_view choice.now) → key ≡ key_in (choice_view choice.now) i) }
{
    match i64::try_from(i) {
        Ok(_) => choice.key(i),
        Err(_) => Err(AllocError),
    }
}
