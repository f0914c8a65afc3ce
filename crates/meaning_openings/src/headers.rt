//! Opening of the blocks of a live header, or its deferral until the choice is known (Swift/T Guide, on conditionals,
//! loops and `wait`).

ghost use Rattle.std.specs.Prelude.{◌≡◌, ◌++◌, ◌∷◌, [], ℕ, map, IfErr, OnOk};
ghost use Rattle.flow.specs.View.{action_view, awaited_view, core_of};
ghost use Rattle.language.specs.Core.{wait, Core};
ghost use Rattle.language.specs.Members.{◌∈◌};
ghost use Rattle.language.specs.Openings.{Branches};
ghost use Rattle.language.specs.WellFormed.{WellFormed};
ghost use Rattle.meaning_invariants.specs.Opened.{OffsetsApart};
ghost use Rattle.meaning_round.specs.Made.{arrays_of, tasks_of, waiting_of};
ghost use Rattle.meaning_round.specs.Standing.{active_of, content_view, deed_view};
ghost use Rattle.meaning_openings.specs.declared.fault.MeaningError.TheVariants.{TooLarge};
ghost use Rattle.meaning_openings.specs.Larger.{IsLarger};
ghost use Rattle.meaning_openings.specs.Opening.{IsGood, IsLookedAt, IsMore, IsStep};
ghost use Rattle.meaning_openings.specs.Insides.{inside, inside_view};

use crate::fault::MeaningError;
use crate::live_limits::LiveLimits;
use crate::turns::open_choice;
use flow::name::Name;
use flow::statement::Action;
use meaning_cells::choices::{choice_of, have_come};
use meaning_round::state::{BlockContent, LiveAction, LiveTask, RoundState};
use std::alloc::{AllocError, Allocator};

/// The blocks nested in a statement.
#[derive(Drop)]
pub(crate) enum InnerBlocks<'a, A: Allocator> {
    Nothing,
    /// Blocks that the statement opens by a choice.
    Branches(&'a Action<A>),
    /// The content of a `wait`, with the names of its inputs.
    Waits(&'a [Name], BlockContent<'a, A>),
}

/// Returns the nested blocks of a live action.
fn inside_of<'a, A: Allocator>(live_action: &LiveAction<'a, A>) -> InnerBlocks<'a, A>
    ensures { inside_view result ≡ inside (deed_view live_action.now) }
{
    match live_action {
        LiveAction::Does(action) => inside_by(*action),
        LiveAction::Waits(names, content) => InnerBlocks::Waits(
            *names,
            BlockContent {
                waits: content.waits,
                block: content.block,
            },
        ),
    }
}

fn inside_by<A: Allocator>(action: &Action<A>) -> InnerBlocks<'_, A>
    ensures { inside_view result ≡ inside (action_view action.entry.now) }
{
    match action {
        Action::When { .. } => InnerBlocks::Branches(action),
        Action::Choose { .. } => InnerBlocks::Branches(action),
        Action::Range { .. } => InnerBlocks::Branches(action),
        Action::Each { .. } => InnerBlocks::Branches(action),
        Action::Wait {
            names,
            inner,
            content,
        } => InnerBlocks::Waits(
            names.as_slice(),
            BlockContent {
                waits: inner.as_slice(),
                block: content,
            },
        ),
        Action::Declare(_) => InnerBlocks::Nothing,
        Action::Call { .. } => InnerBlocks::Nothing,
        Action::Assign { .. } => InnerBlocks::Nothing,
        Action::Fill { .. } => InnerBlocks::Nothing,
        Action::Insert { .. } => InnerBlocks::Nothing,
        Action::Print { .. } => InnerBlocks::Nothing,
        Action::Assert { .. } => InnerBlocks::Nothing,
    }
}

/// Makes the blocks that a header opens live, or keeps the header pending. A statement without nested blocks is
/// ignored.
pub(crate) fn open_header<'a, A: Allocator>(
    state: &mut RoundState<'a, A>,
    room: LiveLimits,
    task: LiveTask<'a, A>,
) -> Result<(), MeaningError>
    ensures so { OnOk result ((s : Core) (n : ℕ) → WellFormed s → OffsetsApart s → IsGood s n state.old → active_of task.entry ∈ tasks_of state.old
        → IsStep s n state.old state.new × IsLookedAt s n state.old (active_of task.entry) state.new) }
    ensures large { IfErr result (λ fault. fault ≡ TooLarge → (s : Core) (n : ℕ) → WellFormed s → OffsetsApart s → IsGood s n state.old
        → active_of task.entry ∈ tasks_of state.old → IsLarger s n room.most) }
    ensures more { OnOk result (IsMore state.old state.new) }
    ensures flow { state.new.flow.now ≡ state.old.flow.now }
    ensures passed { state.new.passed ≡ state.old.passed }
{
    match inside_of(&task.live_action) {
        InnerBlocks::Nothing => Ok(()),
        InnerBlocks::Branches(action) => open_branches(state, room, task, action),
        InnerBlocks::Waits(names, content) => {
            open_content(state, task, names, content)?;
            Ok(())
        }
    }
}

/// Makes the blocks that a header opens by its choice live, or keeps the header pending if the choice is not known.
fn open_branches<'a, A: Allocator>(
    state: &mut RoundState<'a, A>,
    room: LiveLimits,
    task: LiveTask<'a, A>,
    action: &'a Action<A>,
) -> Result<(), MeaningError>
    ensures so { OnOk result ((s : Core) (n : ℕ) → WellFormed s → OffsetsApart s → IsGood s n state.old → active_of task.entry ∈ tasks_of state.old
        → deed_view task.entry.live_action ≡ action_view action.entry.now → Branches (action_view action.entry.now)
        → IsStep s n state.old state.new × IsLookedAt s n state.old (active_of task.entry) state.new) }
    ensures large { IfErr result (λ fault. fault ≡ TooLarge → (s : Core) (n : ℕ) → WellFormed s → OffsetsApart s → IsGood s n state.old
        → active_of task.entry ∈ tasks_of state.old → deed_view task.entry.live_action ≡ action_view action.entry.now → Branches (action_view action.entry.now)
        → IsLarger s n room.most) }
    ensures more { OnOk result (IsMore state.old state.new) }
    ensures flow { state.new.flow.now ≡ state.old.flow.now }
    ensures passed { state.new.passed ≡ state.old.passed }
{
    let site = task.site;
    match choice_of(&state.fact_base, room.alloc, site.instance, action)? {
        Some(choice) => open_choice(state, room, site.instance, site.at, action, &choice),
        None => {
            keep_waiting(state, task)?;
            Ok(())
        }
    }
}

/// Makes the content of a `wait` live, or keeps the header pending if an input is not known.
fn open_content<'a, A: Allocator>(
    state: &mut RoundState<'a, A>,
    task: LiveTask<'a, A>,
    names: &'a [Name],
    content: BlockContent<'a, A>,
) -> Result<(), AllocError>
    ensures so { OnOk result ((s : Core) (n : ℕ) → IsGood s n state.old → active_of task.entry ∈ tasks_of state.old
        → deed_view task.entry.live_action ≡ wait (map awaited_view names.entry.now) (content_view content.entry)
        → IsStep s n state.old state.new × IsLookedAt s n state.old (active_of task.entry) state.new) }
    ensures more { OnOk result (IsMore state.old state.new) }
    ensures flow { state.new.flow.now ≡ state.old.flow.now }
    ensures passed { state.new.passed ≡ state.old.passed }
{
    let instance = task.site.instance;
    if have_come(&state.fact_base, instance, names) {
        state.add_block(instance, content.waits, content.block)?;
        Ok(())
    } else {
        keep_waiting(state, task)
    }
}

/// Appends a header to those whose choice is pending.
fn keep_waiting<'a, A: Allocator>(
    state: &mut RoundState<'a, A>,
    task: LiveTask<'a, A>,
) -> Result<(), AllocError>
    ensures waiting { OnOk result (waiting_of state.new ≡ waiting_of state.old ++ active_of task.entry ∷ []) }
    ensures tasks { tasks_of state.new ≡ tasks_of state.old }
    ensures worklist { state.new.worklist ≡ state.old.worklist }
    ensures arrays { arrays_of state.new ≡ arrays_of state.old }
    ensures fact_base { state.new.fact_base ≡ state.old.fact_base }
    ensures flow { state.new.flow.now ≡ state.old.flow.now }
    ensures passed { state.new.passed ≡ state.old.passed }
{
    state.waiting.push(task)?;
    Ok(())
}
