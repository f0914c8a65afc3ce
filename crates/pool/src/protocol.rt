//! The protocol of the holes: the invariant of the table, and the effect of each atomic step on its seat.

ghost use Rattle.pool.specs.Views.{Offers, Takes, LooksToOffer, LooksToTake, Holds, beginner, left_of, right_of, joined, nobody};

use atomic_table::{Join, Play, Split, TableRule};
use std::collections::LinkedList;

/// The ghost view of a seat: lists of holes, each with a number. It exists only in proofs; no value of it is created.
pub struct SeatView {
    /// Number of seats that it stands for: 1, and 0 once it was joined into another.
    pub parts: u64,
    /// Numbers that it put into holes.
    pub offered: LinkedList<(u64, u64)>,
    /// Numbers that it took from holes.
    pub taken: LinkedList<(u64, u64)>,
    /// Holes that it probed in vain, each with the number found there, 0 for none.
    pub looked: LinkedList<(u64, u64)>,
}

/// The protocol of the table whose words are the holes.
pub struct PoolProtocol;

impl TableRule<(), SeatView, u64> for PoolProtocol {
    ghost holds = { Holds };

    ghost first = { beginner };
}

/// A compare-exchange of an empty hole for a number.
pub struct OfferStep;

impl Play<(), SeatView> for OfferStep {
    ghost then = { Offers };
}

/// A swap of the contents of a hole for nothing.
pub struct TakeStep;

impl Play<(), SeatView> for TakeStep {
    ghost then = { Takes };
}

/// A probe for an empty hole, which leaves its contents.
pub struct ProbeEmpty;

impl Play<(), SeatView> for ProbeEmpty {
    ghost then = { LooksToOffer };
}

/// A probe for a number, which leaves it in the hole.
pub struct ProbeFull;

impl Play<(), SeatView> for ProbeFull {
    ghost then = { LooksToTake };
}

/// The split of a seat from another, and the join of two into one.
pub struct SeatSplit;

impl Split<SeatView> for SeatSplit {
    ghost left = { left_of };

    ghost right = { right_of };
}

impl Join<SeatView> for SeatSplit {
    ghost both = { joined };

    ghost spent = { nobody };
}
