//! The account of one thread at a pool: the ready items that it offers, the numbers that it draws, and counts of both.
//!
//! An account wraps a `PoolSeat`. The caller lists ready items under a lock, then calls `offer_all` and `draw` outside
//! it. An item is counted as pending until it is offered, finds no hole or is lost.

ghost use Rattle.std.specs.Prelude.{◌≡◌, ◌+◌, ◌<◌, ◌≤◌, ◌^◌, IfNone, IfSome, length, reverse, vec_len};
ghost use Rattle.pool.specs.Seats.{IsSeatOf, TakeDid, kind_order, view};

use crate::{HoleKind, Offer, Pool, PoolSeat};
use std::alloc::Global;

/// An offer of a ready item to the pool: its kind of hole, the class of its priority, and its number.
#[derive(Clone, Copy, Drop)]
pub struct ReadyItem {
    pub side: HoleKind,
    pub class: u8,
    pub number: u64,
    ghost some: { (class < 3) × (0 < number) },
}

/// A thread's seat at a pool, with its counts.
///
/// Some items were offered, some found no hole (`full`), some are pending, and some are lost for lack of memory to list
/// them. `drawn` counts the numbers taken from the pool.
#[derive(Drop)]
pub struct Offers {
    pub seat: PoolSeat,
    pub offered: u64,
    pub full: u64,
    pub drawn: u64,
    pub lost: u64,
    /// Number of items still to be offered. Those for which there was memory are in the list.
    pub pending: u64,
    pub list: Vec<ReadyItem>,
    ghost fits: { offered + full + lost + pending < 2 ^ 64 },
    ghost offers: { length (view seat).offered ≡ offered },
    ghost takes: { length (view seat).taken ≡ drawn },
    ghost listed: { vec_len list ≤ pending },
}

impl Offers {
    ghost use Rattle.pool.specs.Offering.{OfferedEach};

    /// Creates the account of a seat with which nothing was offered or taken.
    pub fn new(alloc: Global, seat: PoolSeat) -> Offers
        requires { (length (view seat).offered ≡ 0) × (length (view seat).taken ≡ 0) }
        ensures seat { result.seat ≡ seat }
        ensures none { (result.offered ≡ 0) × (result.full ≡ 0) × (result.drawn ≡ 0) × (result.lost ≡ 0) × (result.pending ≡ 0) }
    {
        Offers {
            seat,
            offered: 0,
            full: 0,
            drawn: 0,
            lost: 0,
            pending: 0,
            list: Vec::new(alloc),
        }
    }

    /// Takes a number from the pool, from the holes of this kind. Returns `None` if it finds none there, or if no more
    /// draws can be counted.
    pub fn draw(&mut self, pool: &Pool, side: HoleKind) -> Option<u64>
        requires seat { IsSeatOf pool.now self.old.seat }
        ensures seat { IsSeatOf pool.now self.new.seat }
        ensures did { self.old.drawn < u64.MAX → TakeDid (view self.old.seat) (view self.new.seat) (kind_order side) result }
        ensures some { IfSome result (λ n. self.new.drawn ≡ self.old.drawn + 1) }
        ensures none { IfNone result (self.new.drawn ≡ self.old.drawn) }
        ensures rest { (self.new.offered ≡ self.old.offered) × (self.new.full ≡ self.old.full) × (self.new.lost ≡ self.old.lost)
            × (self.new.pending ≡ self.old.pending) × (self.new.list ≡ self.old.list) }
    {
        if self.drawn == u64::MAX {
            return None;
        }
        let Offers { seat, drawn, .. } = self;
        let found = pool.take(seat, side);
        if found.is_some() {
            *drawn += 1;
        }
        found
    }

    /// Offers each item of the list, the last first, and counts whether it found a hole.
    fn offer_listed(&mut self, pool: &Pool)
        requires seat { IsSeatOf pool.now self.old.seat }
        ensures seat { IsSeatOf pool.now self.new.seat }
        ensures did { OfferedEach (reverse self.old.list.items) (view self.old.seat) (view self.new.seat) }
        ensures each { self.new.offered + self.new.full ≡ self.old.offered + self.old.full + vec_len self.old.list }
        ensures left { (self.new.pending + vec_len self.old.list ≡ self.old.pending) × (vec_len self.new.list ≡ 0) }
        ensures rest { (self.new.lost ≡ self.old.lost) × (self.new.drawn ≡ self.old.drawn) }
    {
        let Offers {
            seat,
            offered,
            full,
            pending,
            list,
            ..
        } = self;
        while let Some(fresh) = list.pop() {
            let ReadyItem {
                side,
                class,
                number,
            } = fresh;
            match pool.offer(seat, side, class, number) {
                Offer::Offered => *offered += 1,
                Offer::Full(_) => *full += 1,
            }
            *pending -= 1;
        }
    }

    /// Offers each item of the list, the last first, to the holes of its kind and class. Pending items that are not in
    /// the list are counted as lost.
    pub fn offer_all(&mut self, pool: &Pool)
        requires seat { IsSeatOf pool.now self.old.seat }
        ensures seat { IsSeatOf pool.now self.new.seat }
        ensures did { OfferedEach (reverse self.old.list.items) (view self.old.seat) (view self.new.seat) }
        ensures all { (self.new.pending ≡ 0) × (vec_len self.new.list ≡ 0) }
        ensures each { self.new.offered + self.new.full ≡ self.old.offered + self.old.full + vec_len self.old.list }
        ensures lost { self.new.lost + vec_len self.old.list ≡ self.old.lost + self.old.pending }
        ensures drawn { self.new.drawn ≡ self.old.drawn }
    {
        self.offer_listed(pool);
        let Offers { lost, pending, .. } = self;
        *lost += *pending;
        *pending = 0;
    }
}
