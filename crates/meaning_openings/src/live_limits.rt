//! Limits on what may be live during the evaluation of a script's meaning.

ghost use Rattle.std.specs.Prelude.{◌≡◌, ◌<◌, ℕ, cond, length, map, nat_eq, true, IfErr, IfOk};
ghost use Rattle.language.specs.Core.{Core};
ghost use Rattle.meaning_openings.specs.declared.fault.MeaningError.TheVariants.{TooLarge};
ghost use Rattle.meaning_openings.specs.Larger.{turns_from, IsLarger, OwnsMore};
ghost use Rattle.meaning_openings.specs.Opening.{IsGood};
ghost use Rattle.meaning_round.specs.Standing.{active_of};

use crate::fault::MeaningError;
use meaning_facts::instances::Instance;
use meaning_round::state::{LiveTask, RoundState};
use std::alloc::{AllocError, Allocator, Global};
use std::collections::HashSet;

/// The allocator, and the maximum number of live turns of loops and, separately, of live statements.
#[derive(Clone, Copy)]
pub struct LiveLimits {
    pub alloc: Global,
    pub most: usize,
}

impl LiveLimits {
    /// Checks the state against the limits. An excess is detected only once `is_near` returns true.
    pub(crate) fn check<A: Allocator>(self, state: &RoundState<'_, A>) -> Result<(), MeaningError>
        ensures { IfErr result (λ fault. fault ≡ TooLarge → (s : Core) (n : ℕ) → IsGood s n state.now → IsLarger s n self.most) }
    {
        if !is_near(state, self.most) {
            return Ok(());
        }
        if is_larger(state, self)? {
            Err(MeaningError::TooLarge)
        } else {
            Ok(())
        }
    }
}

/// Returns true if an exact count is worthwhile, as a cheap test on the lengths of the lists.
///
/// A declaration with its value is one statement and appears twice among the live ones. Each block but that of the
/// script is a turn of a loop, or is opened by a statement, or contains one.
fn is_near<A: Allocator>(state: &RoundState<'_, A>, most: usize) -> bool {
    let live = state.tasks.len();
    let opened = state.fact_base.instances.all.len();
    live / 2 > most || opened > most.saturating_add(live).saturating_add(live)
}

/// Returns true if more than `room.most` turns or statements are live.
fn is_larger<A: Allocator>(state: &RoundState<'_, A>, room: LiveLimits) -> Result<bool, AllocError>
    ensures { IfOk result (λ yes. yes ≡ true → (s : Core) (n : ℕ) → IsGood s n state.now → IsLarger s n room.most) }
{
    if has_more_turns(state.fact_base.instances.all.as_slice(), room.most) {
        return Ok(true);
    }
    has_more_statements(state.tasks.as_slice(), room)
}

/// Returns true if more than `most` of these instances are turns of loops.
fn has_more_turns(instances: &[Instance], most: usize) -> bool
    ensures { result ≡ true → most < length (turns_from 0 instances.now) }
{
    let mut count: usize = 0;
    for instance in instances {
        count = count.saturating_add(turns_of(instance));
    }
    count > most
}

/// Returns 1 for an instance with loop variables, which is a turn of a loop, and 0 otherwise.
fn turns_of(instance: &Instance) -> usize
    ensures { result ≡ cond (nat_eq (length instance.now.given.variables.items) 0) 0 1 }
{
    if instance.given.variables.is_empty() {
        0
    } else {
        1
    }
}

/// Returns true if there are more than `room.most` different statements among these.
fn has_more_statements<A: Allocator>(
    tasks: &[LiveTask<'_, A>],
    room: LiveLimits,
) -> Result<bool, AllocError>
    ensures { IfOk result (λ yes. yes ≡ true → OwnsMore (map active_of tasks.now) room.most) }
{
    let mut places = HashSet::new(room.alloc);
    for task in tasks {
        places.insert(task.site.own_place())?;
    }
    Ok(places.len() > room.most)
}
