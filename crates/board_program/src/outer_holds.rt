//! Holds of a body on data outside of it, indexed by address for constant-time lookup.
ghost use Rattle.std.specs.Prelude.{◌≡◌, ◌+◌, [], IfOk, OnOk};
ghost use Rattle.std.specs.Bool.{OnTrue};
ghost use Rattle.board_program.specs.Tables.{GainsHold};

use crate::lexical_address::LexicalAddress;
use crate::program::Hold;
use indexmap::IndexMap;
use std::alloc::{AllocError, Global};

// The number of holds that are searched linearly before the index is used.
const LINEAR_SEARCH_LIMIT: usize = 8;

/// Holds on data outside of a body, mostly one for each address.
#[derive(Drop)]
pub struct OuterHolds {
    pub holds: Vec<Hold>,
    /// The index of the holds beyond the first `LINEAR_SEARCH_LIMIT`, keyed by the hash of the address.
    places: IndexMap<u64, usize>,
}

/// Returns true if both addresses are equal.
fn is_same(one: LexicalAddress, other: LexicalAddress) -> bool
    ensures { OnTrue result (one ≡ other) }
{
    one.levels == other.levels && one.slot == other.slot
}

/// Returns the sum of two holds on the same address.
///
/// # Errors
///
/// Returns `AllocError` if a sum does not fit in 64 bits.
fn merge_holds(one: Hold, other: Hold) -> Result<Hold, AllocError>
    ensures { IfOk result (λ both. both ≡ record { spot = one.spot; reads = one.reads + other.reads; writes = one.writes + other.writes }) }
{
    match (
        one.reads.checked_add(other.reads),
        one.writes.checked_add(other.writes),
    ) {
        (Some(reads), Some(writes)) => Ok(Hold {
            spot: one.spot,
            reads,
            writes,
        }),
        _ => Err(AllocError),
    }
}

/// Returns the hash of an address. If two addresses collide, each of them may have more than one hold.
fn number_of(spot: LexicalAddress) -> u64 {
    (spot.levels as u64)
        .rotate_left(32)
        .wrapping_add(spot.slot as u64)
}

impl OuterHolds {
    /// Creates an empty list of holds.
    pub fn none(alloc: Global) -> OuterHolds
        ensures { result.holds.items ≡ [] }
    {
        OuterHolds {
            holds: Vec::new(alloc),
            places: IndexMap::new(alloc),
        }
    }

    /// Returns the index of a hold that may be the one on this address. The caller compares the addresses.
    fn place_of(&self, spot: LexicalAddress) -> Option<usize> {
        for at in 0..self.holds.len().min(LINEAR_SEARCH_LIMIT) {
            if is_same(self.holds[at].spot, spot) {
                return Some(at);
            }
        }
        self.places.get(&number_of(spot)).copied()
    }

    /// Records the next index for this address, unless the list has fewer than `LINEAR_SEARCH_LIMIT` holds.
    fn note(&mut self, spot: LexicalAddress) -> Result<(), AllocError>
        ensures { self.new.holds ≡ self.old.holds }
    {
        if self.holds.len() >= LINEAR_SEARCH_LIMIT {
            self.places.insert(number_of(spot), self.holds.len())?;
        }
        Ok(())
    }

    /// Adds a hold: merges it with a hold on the same address if one is found, and appends it otherwise.
    #[tactic(auto, using(crate::proofs::Holds::set_gains, crate::proofs::Holds::push_gains))]
    pub fn add(&mut self, added: Hold) -> Result<(), AllocError>
        ensures { OnOk result (GainsHold self.old.holds.items self.new.holds.items added) }
    {
        if let Some(at) = self.place_of(added.spot) {
            if at < self.holds.len() && is_same(self.holds[at].spot, added.spot) {
                self.holds[at] = merge_holds(self.holds[at], added)?;
                return Ok(());
            }
        }
        self.note(added.spot)?;
        self.holds.push(added)?;
        Ok(())
    }
}
