//! Queue entries, their order, and the two kinds of items.
ghost use Rattle.std.specs.Prelude.{◌≡◌};
ghost use Rattle.std.proofs.Common.{rules};
ghost use Rattle.std.specs.Cmp.{partial_order_from_own_ties};
ghost use Rattle.std.specs.Cmp.Rules.{comparing};
ghost use Rattle.std.specs.Ordering.{as_partial_cmp};
ghost use Rattle.work_queue.specs.Order.{order, precedes};

use std::cmp::Ordering;

/// The kind of an item. Engines run control items, which change what other items there are; workers run leaf items,
/// which compute a value. The two kinds are those of the SC14 paper on compiling Swift/T.
#[derive(Clone, Copy, PartialEq, Eq, Debug, Drop)]
pub enum Kind {
    Control,
    Leaf,
}

/// A queued item: its priority, as `@prio` gives it (Swift/T Guide, on priorities), and its number.
#[derive(Clone, Copy, PartialEq, Eq, Debug)]
pub struct QueueEntry {
    pub priority: i32,
    pub no: u64,
}

/// Entries are ordered as they are taken: the first is the least.
impl Ord for QueueEntry {
    ghost cmp = { order };

    ghost total = { Prim.search (comparing, rules) };

    ghost matches_partial_cmp = { Prim.search (comparing, rules) };

    ghost matches_eq = { Prim.search (comparing, rules) };

    fn cmp(&self, other: &QueueEntry) -> Ordering {
        other
            .priority
            .cmp(&self.priority)
            .then(self.no.cmp(&other.no))
    }
}

impl PartialOrd for QueueEntry {
    ghost partial_cmp = { as_partial_cmp order };

    ghost laws = { partial_order_from_own_ties (Prim.search (comparing, rules)) (Prim.search (comparing, rules)) };

    fn partial_cmp(&self, other: &QueueEntry) -> Option<Ordering> {
        Some(self.cmp(other))
    }
}

impl QueueEntry {
    /// Returns true if this entry is taken before `other`.
    pub fn precedes(&self, other: &QueueEntry) -> bool
        ensures { result ≡ precedes self.now other.now }
    {
        self.priority > other.priority || self.priority == other.priority && self.no < other.no
    }
}
