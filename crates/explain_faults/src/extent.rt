//! Evaluation of a script's meaning for the diagnostics of a run, within limits on rounds and live statements.
//!
//! The number of rounds grows from try to try, until all rounds are done or the printed fault is known.

use crate::faults::is_known;
use crate::printed::PrintedFault;
use flow::script::Flow;
use meaning::observer::NoObserver;
use meaning::rounds_within;
use meaning_openings::fault::MeaningError;
use meaning_openings::live_limits::LiveLimits;
use meaning_outcomes::knowledge::Knowledge;
use meaning_round::state::RoundState;
use std::alloc::{AllocError, Allocator, Global};

/// Number of rounds of the first try.
const FIRST_ROUNDS: u32 = 16;

/// Maximum factor by which the number of rounds grows between two tries.
const GROWTH: u32 = 4;

/// Maximum number of tries.
const MOST_TRIES: usize = 17;

/// Upper bound of rounds times blocks for each try after the first. The blocks are counted after the previous try.
const MOST_WORK: u64 = 60_000_000;

/// Base number of turns, and of statements, that may be live in any run. `LIVE_BY_EVENT` more are allowed for each
/// event.
const FEWEST_LIVE: usize = 100_000;

const LIVE_BY_EVENT: usize = 20;

/// Maximum number of live turns, and of live statements.
const MOST_LIVE: usize = 1_000_000;

/// Returns the limits on live turns and statements for the diagnostics of a run of `events` events.
pub fn limits_for(alloc: Global, events: usize) -> LiveLimits {
    let wanted = events
        .saturating_mul(LIVE_BY_EVENT)
        .saturating_add(FEWEST_LIVE);
    LiveLimits {
        alloc,
        most: wanted.min(MOST_LIVE),
    }
}

/// Returns the known facts of a script after all its rounds.
///
/// # Errors
///
/// Returns `MeaningError::TooLarge` if the meaning exceeds the limits, and `MeaningError::Memory` if an allocation
/// fails.
pub fn known_whole<A: Allocator>(
    room: LiveLimits,
    flow: &Flow<A>,
) -> Result<Knowledge, MeaningError> {
    known_with(room, flow, None)
}

/// Returns the known facts of a script after enough rounds to know the printed fault, or after all rounds.
///
/// # Errors
///
/// Returns `MeaningError::TooLarge` if the meaning exceeds the limits, and `MeaningError::Memory` if an allocation
/// fails.
pub fn known_for<A: Allocator>(
    room: LiveLimits,
    flow: &Flow<A>,
    printed: &PrintedFault,
) -> Result<Knowledge, MeaningError> {
    known_with(room, flow, Some(printed))
}

fn known_with<A: Allocator>(
    room: LiveLimits,
    flow: &Flow<A>,
    printed: Option<&PrintedFault>,
) -> Result<Knowledge, MeaningError> {
    let mut limit = FIRST_ROUNDS;
    for _ in 0..MOST_TRIES {
        let known = rounds_within(room, &NoObserver, flow, limit)?;
        if is_enough(room.alloc, &known, printed)? {
            return Ok(known);
        }
        let more = more_rounds(&known, limit);
        if more <= limit {
            break;
        }
        limit = more;
    }
    Err(MeaningError::TooLarge)
}

/// Returns true if all rounds are done, or if the printed fault is known.
fn is_enough(
    alloc: Global,
    known: &Knowledge,
    printed: Option<&PrintedFault>,
) -> Result<bool, AllocError> {
    if known.finished {
        return Ok(true);
    }
    match printed {
        Some(printed) => is_known(alloc, known, printed),
        None => Ok(false),
    }
}

/// Returns the number of rounds for the next try after `limit` rounds, given the number of blocks that are open then.
fn more_rounds(known: &Knowledge, limit: u32) -> u32 {
    let blocks = known.fact_base.instances.all.len() as u64;
    let most = MOST_WORK / blocks.max(1);
    match u32::try_from(most) {
        Ok(most) => most.min(limit.saturating_mul(GROWTH)),
        Err(_) => limit.saturating_mul(GROWTH),
    }
}

/// Returns the known facts of a script before its first round.
///
/// # Errors
///
/// Returns `AllocError` if an allocation fails.
pub fn known_before<A: Allocator>(alloc: Global, flow: &Flow<A>) -> Result<Knowledge, AllocError> {
    let state = RoundState::new(alloc, flow)?;
    Knowledge::of(alloc, state, 0, false)
}
