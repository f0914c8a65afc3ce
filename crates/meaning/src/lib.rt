//! The reference evaluation of a whole script by rounds, where each round adds the facts that follow from those before.
#![tactic(auto)]

ghost use Rattle.std.specs.Prelude.{◌≡◌, ◌≤◌, ℕ, List, false, IfErr, IfOk};
ghost use Rattle.flow.specs.View.{core_of};
ghost use Rattle.language.specs.Reads.{Reads};
ghost use Rattle.language.specs.Resolved.{core};
ghost use Rattle.language.specs.Single.{SinglyAssigned};
ghost use Rattle.language.specs.Table.{Table};
ghost use Rattle.language.specs.Tree.{Tree};
ghost use Rattle.language.specs.Typing.{WellTyped};
ghost use Rattle.meaning_openings.specs.declared.fault.MeaningError.TheVariants.{TooLarge};
ghost use Rattle.meaning_openings.specs.Larger.{IsLarger};
ghost use Rattle.meaning_outcomes.specs.Known.{IsKnowledgeOf};

pub mod observer;

use crate::observer::{NoObserver, RoundObserver, RoundProgress};
use flow::script::Flow;
use meaning_openings::fault::MeaningError;
use meaning_openings::live_limits::LiveLimits;
use meaning_outcomes::fixpoint::compute_fixpoint;
use meaning_outcomes::knowledge::Knowledge;
use meaning_round::state::RoundState;
use std::alloc::{AllocError, Allocator, Global};

/// Evaluates a script until a round adds nothing, but for at most `limit` rounds. Returns what is known then. The
/// number of rounds counts those that add a fact.
///
/// # Errors
///
/// Returns `AllocError` if an allocation fails.
pub fn rounds<A: Allocator>(
    alloc: Global,
    flow: &Flow<A>,
    limit: u32,
) -> Result<Knowledge, AllocError>
    ensures known { IfOk result (λ k. (bytes : List ℕ) (t : Table) (tree : Tree) → Reads bytes tree → WellTyped tree t → SinglyAssigned (core t tree)
        → core_of flow.now ≡ core t tree → IsKnowledgeOf (core t tree) k) }
    ensures within { IfOk result (λ k. (k.rounds ≤ limit) × (k.finished ≡ false → k.rounds ≡ limit)) }
{
    let room = LiveLimits {
        alloc,
        most: usize::MAX,
    };
    match rounds_within(room, &NoObserver, flow, limit) {
        Ok(known) => Ok(known),
        // The limit exceeds the length of any list, so the error is an allocation failure.
        Err(_) => Err(AllocError),
    }
}

/// Evaluates a script like `rounds`, but reports progress before each round and limits what is live. The limit
/// `room.most` holds for turns of loops and for statements. An excess is not always detected at once.
///
/// # Errors
///
/// Returns `MeaningError::TooLarge` only if more turns or more statements are live after one of these rounds. Returns
/// `MeaningError::Memory` if an allocation fails.
pub fn rounds_within<A: Allocator, W: RoundObserver>(
    room: LiveLimits,
    watch: &W,
    flow: &Flow<A>,
    limit: u32,
) -> Result<Knowledge, MeaningError>
    ensures known { IfOk result (λ k. (bytes : List ℕ) (t : Table) (tree : Tree) → Reads bytes tree → WellTyped tree t → SinglyAssigned (core t tree)
        → core_of flow.now ≡ core t tree → IsKnowledgeOf (core t tree) k) }
    ensures within { IfOk result (λ k. (k.rounds ≤ limit) × (k.finished ≡ false → k.rounds ≡ limit)) }
    ensures large { IfErr result (λ fault. fault ≡ TooLarge → (bytes : List ℕ) (t : Table) (tree : Tree) → Reads bytes tree → WellTyped tree t
        → SinglyAssigned (core t tree) → core_of flow.now ≡ core t tree → (n : ℕ) × ((n ≤ limit) × IsLarger (core t tree) n room.most)) }
{
    let alloc = room.alloc;
    let mut state = RoundState::new(alloc, flow)?;
    for round in 0..limit {
        watch.learn(RoundProgress {
            done: round,
            live: state.tasks.len(),
        });
        compute_fixpoint(&mut state, room)?;
        let news = state.news(alloc)?;
        if news.is_empty() {
            let known = Knowledge::of(alloc, state, round, true)?;
            return Ok(known);
        }
        state.learn(alloc, news)?;
    }
    compute_fixpoint(&mut state, room)?;
    let last = state.news(alloc)?;
    let finished = last.is_empty();
    let knowledge = Knowledge::of(alloc, state, limit, finished)?;
    Ok(knowledge)
}
