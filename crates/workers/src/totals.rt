//! Totals of a run: the merged ledger shares and counts of all workers.
ghost use Rattle.std.specs.Prelude.{◌≡◌, ◌+◌, ◌<◌, ◌^◌, All, length, map, replicate, slice_index, slice_set, sum, vec_capacity, vec_len, OnOk};
ghost use Rattle.pool.specs.Seats.{view, seat_pool};
ghost use Rattle.pool.specs.Views.{total};
ghost use Rattle.values.specs.Limits.{max_threads};

use crate::audited_board::AuditedBoard;
use crate::gate::RunParams;
use crate::worker_state::{DrainedWorker, WorkerState};
use pool::PoolSeat;
use pool::offers::Offers;
use std::alloc::{AllocError, Global};
use std::marker::PhantomData;
use std::sync::ledger::{Ledger, Share};
use values::limits::MAX_THREADS;

/// The merged shares, the pool seats and the counts of all workers that were added.
///
/// `draws` holds the number of items that each worker drew from the pool. `offered`, `full` and `lost` count the items
/// that were offered, found no hole and were lost.
#[derive(Drop)]
pub struct RunTotals<J: RunParams, E: Ledger, N: Ledger> {
    pub events: Share<E>,
    pub enabled: Share<N>,
    pub seats: Vec<PoolSeat>,
    /// Number of events of each worker, as its own state counted them.
    pub tallies: [u64; MAX_THREADS],
    pub draws: Vec<u64>,
    pub offered: u64,
    pub full: u64,
    pub lost: u64,
    pub of: PhantomData<J>,
    ghost parts: { (events.parts ≡ vec_len seats) × (enabled.parts ≡ vec_len seats) },
    ghost sized: { length tallies ≡ max_threads },
    ghost tallied: { sum tallies ≡ events.amount },
    ghost enabled_total: { enabled.amount ≡ offered + full + lost },
    ghost fits: { enabled.amount < 2 ^ 64 },
    ghost offers: { total (λ v. length v.offered) (map view seats.items) ≡ offered },
    ghost takes: { total (λ v. length v.taken) (map view seats.items) ≡ sum draws.items },
    ghost of_pool: { All (λ s. seat_pool s ≡ J.pool) seats.items },
}

/// Reserves capacity for one more worker.
fn reserve_one(seats: &mut Vec<PoolSeat>, draws: &mut Vec<u64>) -> Result<(), AllocError>
    ensures same { (seats.new.items ≡ seats.old.items) × (draws.new.items ≡ draws.old.items) }
    ensures len { vec_len seats.new ≡ vec_len seats.old }
    ensures room { OnOk result ((vec_len seats.new < vec_capacity seats.new) × (vec_len draws.new < vec_capacity draws.new)) }
{
    seats.reserve(1)?;
    draws.reserve(1)
}

impl<J: RunParams, E: Ledger, N: Ledger> RunTotals<J, E, N> {
    /// Creates the totals of no worker.
    pub fn new(alloc: Global, events: Share<E>, enabled: Share<N>) -> RunTotals<J, E, N>
        requires { (events.parts ≡ 0) × (enabled.parts ≡ 0) × (events.amount ≡ 0) × (enabled.amount ≡ 0) }
        ensures seats { vec_len result.seats ≡ 0 }
        ensures tallies { result.tallies ≡ replicate max_threads 0 }
    {
        RunTotals {
            events,
            enabled,
            seats: Vec::new(alloc),
            tallies: [0; MAX_THREADS],
            draws: Vec::new(alloc),
            offered: 0,
            full: 0,
            lost: 0,
            of: PhantomData,
        }
    }

    /// Adds the shares and counts of a drained worker.
    ///
    /// # Errors
    ///
    /// Returns `AllocError` if an allocation fails.
    pub fn add(
        &mut self,
        audited_board: &mut AuditedBoard<J, E, N>,
        ended: DrainedWorker<J, E, N>,
    ) -> Result<(), AllocError>
        ensures seats { OnOk result (vec_len self.new.seats ≡ vec_len self.old.seats + 1) }
        ensures tallies { OnOk result (self.new.tallies
            ≡ slice_set self.old.tallies ended.worker_state.worker (slice_index self.old.tallies ended.worker_state.worker + ended.worker_state.tally)) }
    {
        reserve_one(&mut self.seats, &mut self.draws)?;
        let DrainedWorker { worker_state } = ended;
        let WorkerState {
            worker,
            kind: _,
            offers,
            events: their_events,
            enabled: their_enabled,
            tally,
            assigned: _,
            completed: _,
            of: _,
        } = worker_state;
        let Offers {
            seat,
            offered: their_offered,
            full: their_full,
            drawn,
            lost: their_lost,
            pending: _,
            list: _,
        } = offers;
        let RunTotals {
            events,
            enabled,
            seats,
            tallies,
            draws,
            offered,
            full,
            lost,
            ..
        } = self;
        events.merge(their_events);
        enabled.merge(their_enabled);
        audited_board.check(events, enabled);
        seats.push_reserved(seat);
        tallies[worker as usize] += tally;
        draws.push_reserved(drawn);
        *offered += their_offered;
        *full += their_full;
        *lost += their_lost;
        Ok(())
    }
}
