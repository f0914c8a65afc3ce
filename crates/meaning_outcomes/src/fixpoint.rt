//! Fixpoint iteration of opening blocks and closing arrays for the known facts.
ghost use Rattle.std.specs.Prelude.{◌≡◌, ℕ, IfErr, OnOk};
ghost use Rattle.flow.specs.View.{core_of};
ghost use Rattle.language.specs.Core.{Core};
ghost use Rattle.language.specs.Single.{SinglyAssigned};
ghost use Rattle.language.specs.WellFormed.{WellFormed};
ghost use Rattle.meaning_invariants.specs.Opened.{OffsetsApart};
ghost use Rattle.meaning_openings.specs.declared.fault.MeaningError.TheVariants.{TooLarge};
ghost use Rattle.meaning_openings.specs.Larger.{IsLarger};
ghost use Rattle.meaning_round.specs.Going.{IsBetween};
ghost use Rattle.meaning_round.specs.Made.{tasks_of, telling_of};
ghost use Rattle.meaning_round.specs.Standing.{IsAfter};

use meaning_openings::closing::close_some;
use meaning_openings::fault::MeaningError;
use meaning_openings::live_limits::LiveLimits;
use meaning_openings::opening::open_all;
use meaning_round::state::RoundState;
use std::alloc::Allocator;

/// Computes what is live and closed for the known facts. Alternates between opening all ready blocks and closing the
/// finished arrays, until no array closes.
///
/// # Errors
///
/// Returns `MeaningError::TooLarge` if more is live than `room` allows. Returns `MeaningError::Memory` if an allocation
/// fails, and after `usize::MAX` iterations.
pub fn compute_fixpoint<'a, A: Allocator>(
    state: &mut RoundState<'a, A>,
    room: LiveLimits,
) -> Result<(), MeaningError>
    ensures so { OnOk result ((s : Core) (n : ℕ) → s ≡ core_of state.old.flow.now → WellFormed s → SinglyAssigned s → OffsetsApart s → IsBetween s n state.old
        → IsBetween s n state.new × IsAfter s n state.new.fact_base (tasks_of state.new) (telling_of state.new)) }
    ensures large { IfErr result (λ fault. fault ≡ TooLarge → (s : Core) (n : ℕ) → s ≡ core_of state.old.flow.now → WellFormed s → SinglyAssigned s
        → OffsetsApart s → IsBetween s n state.old → IsLarger s n room.most) }
    ensures flow { state.new.flow.now ≡ state.old.flow.now }
{
    for _ in 0..usize::MAX {
        open_all(state, room)?;
        if !close_some(state, room.alloc)? {
            return Ok(());
        }
    }
    Err(MeaningError::Memory)
}
