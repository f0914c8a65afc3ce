//! Opening of all blocks that live statements open or call (Swift/T Guide, on conditionals, loops and composite
//! functions).

ghost use Rattle.std.specs.Prelude.{◌≡◌, [], ℕ, take, length, IfErr, OnOk};
ghost use Rattle.flow.specs.View.{core_of};
ghost use Rattle.language.specs.Core.{Core};
ghost use Rattle.language.specs.Meaning.{Known};
ghost use Rattle.language.specs.Members.{◌∈◌};
ghost use Rattle.language.specs.WellFormed.{WellFormed};
ghost use Rattle.meaning_invariants.specs.Active.{Active};
ghost use Rattle.meaning_invariants.specs.Opened.{ArePassed, IsUnready, OffsetsApart};
ghost use Rattle.meaning_round.specs.Made.{tasks_of, waiting_of};
ghost use Rattle.meaning_openings.specs.declared.fault.MeaningError.TheVariants.{TooLarge};
ghost use Rattle.meaning_openings.specs.Larger.{IsLarger};
ghost use Rattle.meaning_openings.specs.Opening.{AreWoken, IsGood, IsMore, IsStep};

use crate::called::open_calls;
use crate::fault::MeaningError;
use crate::headers::open_header;
use crate::live_limits::LiveLimits;
use meaning_round::state::RoundState;
use std::alloc::Allocator;
use std::mem::replace;

/// Makes all blocks live that live statements open, given what is known and closed: bodies of calls, and blocks of
/// headers. Afterwards each live statement has been processed, and no pending header has a known choice.
pub fn open_all<'a, A: Allocator>(
    state: &mut RoundState<'a, A>,
    room: LiveLimits,
) -> Result<(), MeaningError>
    ensures so { OnOk result ((s : Core) (n : ℕ) → s ≡ core_of state.old.flow.now → WellFormed s → OffsetsApart s → IsGood s n state.old
        → ArePassed s (Known s n) state.old.fact_base (tasks_of state.old) (take state.old.passed (tasks_of state.old)) (waiting_of state.old)
        → ((a : Active) → a ∈ waiting_of state.old → a ∈ tasks_of state.old)
        → IsStep s n state.old state.new × ArePassed s (Known s n) state.new.fact_base (tasks_of state.new) (tasks_of state.new) (waiting_of state.new)
        × ((a : Active) → a ∈ waiting_of state.new → a ∈ tasks_of state.new) × ((a : Active) → a ∈ waiting_of state.new → IsUnready state.new.fact_base a)) }
    ensures large { IfErr result (λ fault. fault ≡ TooLarge → (s : Core) (n : ℕ) → s ≡ core_of state.old.flow.now → WellFormed s → OffsetsApart s
        → IsGood s n state.old → ArePassed s (Known s n) state.old.fact_base (tasks_of state.old) (take state.old.passed (tasks_of state.old))
        (waiting_of state.old) → ((a : Active) → a ∈ waiting_of state.old → a ∈ tasks_of state.old) → IsLarger s n room.most) }
    ensures more { OnOk result (IsMore state.old state.new) }
    ensures passed { OnOk result (state.new.passed ≡ length (tasks_of state.new)) }
    ensures flow { state.new.flow.now ≡ state.old.flow.now }
{
    let passed = state.passed.min(state.tasks.len());
    open_waiting(state, room)?;
    for i in passed..usize::MAX {
        let Some(task) = state.tasks.get(i) else {
            state.passed = state.tasks.len();
            return Ok(());
        };
        let task = task.again();
        room.check(state)?;
        open_calls(state, room, &task)?;
        open_header(state, room, task)?;
    }
    Err(MeaningError::Memory)
}

/// Opens the blocks of the pending headers whose choice is known now.
fn open_waiting<'a, A: Allocator>(
    state: &mut RoundState<'a, A>,
    room: LiveLimits,
) -> Result<(), MeaningError>
    ensures so { OnOk result ((s : Core) (n : ℕ) → WellFormed s → OffsetsApart s → IsGood s n state.old
        → ((a : Active) → a ∈ waiting_of state.old → a ∈ tasks_of state.old)
        → AreWoken s n state.old state.new []) }
    ensures large { IfErr result (λ fault. fault ≡ TooLarge → (s : Core) (n : ℕ) → WellFormed s → OffsetsApart s → IsGood s n state.old
        → ((a : Active) → a ∈ waiting_of state.old → a ∈ tasks_of state.old) → IsLarger s n room.most) }
    ensures more { OnOk result (IsMore state.old state.new) }
    ensures flow { state.new.flow.now ≡ state.old.flow.now }
    ensures passed { state.new.passed ≡ state.old.passed }
{
    let waiting = replace(&mut state.waiting, Vec::new(room.alloc));
    for task in waiting {
        room.check(state)?;
        open_header(state, room, task)?;
    }
    Ok(())
}
