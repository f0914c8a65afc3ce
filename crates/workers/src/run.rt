//! The run of a program on threads, from the creation of the board to the audited report.
ghost use Rattle.std.specs.Prelude.{ℕ, ◌≡◌, ◌≢◌, ◌+◌, ◌<◌, ◌≤◌, ◌^◌, None, Err, ◌↔◌, ◌⊎◌, [], if◌then◌else◌, All, IsTrue, IfOk, IfErr, OnErr, OnOk, count_by, length, nat_eq, nat_lt, slice_index, sum_by, vec_len, sum, map};
ghost use Rattle.dataflow.specs.Machine.{start};
ghost use Rattle.pool.specs.Seats.{view, seat_pool, pool_id, seats_of, IsSeatOf};
ghost use Rattle.pool.specs.Views.{beginner};
ghost use Rattle.task_code.specs.System.{code_system};
ghost use Rattle.board_runs.specs.Report.{Reports, Tells};
ghost use Rattle.board_runs.specs.Stopped.{IsStopped};
ghost use Rattle.workers.specs.Reports.{AreCounted, IsReport};
ghost use Rattle.values.specs.Limits.{max_threads};

use crate::audited_board::{AuditedBoard, StopReason};
use crate::fault::RunFault;
use crate::gate::{Gate, RunParams};
use crate::idle_workers::IdleWorkers;
use crate::scheduler::Scheduler;
use crate::start_log::NewLog;
use crate::threads::run_team;
use crate::totals::RunTotals;
use crate::worker_state::{DrainedWorker, WorkerState};
use board::board::Board;
use board_program::program::Program;
use board_runs::report::Report;
use board_runs::stopped::{StoppedRun, stopped_run};
use pool::{Pool, PoolSeat};
use std::alloc::{AllocError, Global};
use std::marker::Brand;
use std::sync::ledger::{Blank, Ledger, Share};
use std::sync::{Mutex, Wait};
use std::thread::Threads;
use task_code::entry::Kind;
use values::limits::MAX_THREADS;
use workers_policy::active_threads::ActiveThreads;
use workers_policy::counters::RunCounters;
use workers_policy::ready_hints::ReadyHints;
use workers_policy::wake_signal::WakeSignal;

/// Pool counts of a run. Of the items that became ready, some were offered to the pool and the others found no hole. Of
/// the offered items, some were drawn and the others are left.
#[derive(Clone, Copy, Debug, PartialEq, Eq, Drop)]
pub struct PoolCount {
    pub offered: u64,
    pub full: u64,
    pub drawn: u64,
    pub left: u64,
}

/// Creates the state of the worker with this number, with one part of each share. Numbers below `engines` are engines.
fn new_worker_state<J: RunParams, E: Ledger, N: Ledger>(
    alloc: Global,
    engines: u8,
    worker: u8,
    seat: PoolSeat,
    events: &mut Share<E>,
    enabled: &mut Share<N>,
) -> WorkerState<J, E, N>
    requires places { (engines ≡ J.engines) × (worker < J.engines + J.workers) }
    requires seat { (seat_pool seat ≡ J.pool) × (view seat ≡ beginner 1) }
    requires parts { (0 < events.old.parts) × (0 < enabled.old.parts) }
    requires amounts { (events.old.amount ≡ 0) × (enabled.old.amount ≡ 0) }
    ensures parts { (events.new.parts + 1 ≡ events.old.parts) × (enabled.new.parts + 1 ≡ enabled.old.parts) }
    ensures amounts { (events.new.amount ≡ 0) × (enabled.new.amount ≡ 0) }
{
    let kind = if worker < engines {
        Kind::Control
    } else {
        Kind::Leaf
    };
    let (own_events, own_enabled) = (events.split_off(1, 0), enabled.split_off(1, 0));
    WorkerState::new(alloc, worker, kind, seat, own_events, own_enabled)
}

/// Creates an idle worker state for each seat. Numbers below `engines` are engines.
///
/// # Errors
///
/// Returns `AllocError` if an allocation fails.
fn new_idle_workers<J: RunParams, E: Ledger, N: Ledger>(
    alloc: Global,
    engines: u8,
    mut seats: Vec<PoolSeat>,
    events: &mut Share<E>,
    enabled: &mut Share<N>,
) -> Result<IdleWorkers<J, E, N>, AllocError>
    requires places { (engines ≡ J.engines) × (vec_len seats ≡ J.engines + J.workers) × (vec_len seats ≤ max_threads) }
    requires seats { All (λ s. (seat_pool s ≡ J.pool) × (view s ≡ beginner 1)) seats.items }
    requires parts { (events.old.parts ≡ vec_len seats) × (enabled.old.parts ≡ vec_len seats) }
    requires amounts { (events.old.amount ≡ 0) × (enabled.old.amount ≡ 0) }
    ensures parts { OnOk result ((events.new.parts ≡ 0) × (enabled.new.parts ≡ 0)) }
    ensures amounts { OnOk result ((events.new.amount ≡ 0) × (enabled.new.amount ≡ 0)) }
{
    let mut idle = IdleWorkers::new(alloc, seats.len())?;
    let mut worker = 0u8;
    while let Some(seat) = seats.pop() {
        let worker_state = new_worker_state(alloc, engines, worker, seat, events, enabled);
        idle.push(Box::new(alloc, worker_state)?);
        worker += 1;
    }
    Ok(idle)
}

/// Offers all pending items of a worker state to the pool, and returns the drained worker.
fn drain<J: RunParams, E: Ledger, N: Ledger>(
    pool: &Pool,
    worker_state: Box<WorkerState<J, E, N>>,
) -> DrainedWorker<J, E, N>
    requires { pool_id pool.now ≡ J.pool }
{
    let mut worker_state = Box::into_inner(worker_state);
    worker_state.offer_all(pool);
    DrainedWorker::new(worker_state)
}

/// Drains the states of all `count` workers of a run, after all threads have released them.
///
/// # Errors
///
/// Returns `Memory` if an allocation fails or a state is missing.
fn drain_all<J: RunParams, E: Ledger, N: Ledger>(
    alloc: Global,
    pool: &Pool,
    idle: &mut IdleWorkers<J, E, N>,
    count: usize,
) -> Result<Vec<DrainedWorker<J, E, N>>, RunFault>
    requires { pool_id pool.now ≡ J.pool }
    ensures len { IfOk result (λ back. vec_len back ≡ count) }
    ensures fault { IfErr result (λ e. e ≢ RunFault.BadCount) }
{
    let mut back = Vec::with_capacity(alloc, count)?;
    for _ in 0..count {
        let Some(worker_state) = idle.pop_any() else {
            return Err(RunFault::Memory);
        };
        back.push_reserved(drain(pool, worker_state));
    }
    Ok(back)
}

/// Merges the shares and counts of all drained workers.
///
/// # Errors
///
/// Returns `AllocError` if an allocation fails.
fn collect_totals<J: RunParams, E: Ledger, N: Ledger>(
    alloc: Global,
    audited_board: &mut AuditedBoard<J, E, N>,
    worker_states: Vec<DrainedWorker<J, E, N>>,
    events: Share<E>,
    enabled: Share<N>,
) -> Result<RunTotals<J, E, N>, AllocError>
    requires { (events.parts ≡ 0) × (enabled.parts ≡ 0) × (events.amount ≡ 0) × (enabled.amount ≡ 0) }
    ensures seats { IfOk result (λ s. vec_len s.seats ≡ vec_len worker_states) }
    ensures own { IfOk result (λ s. (w : ℕ) → w < max_threads → slice_index s.tallies w ≡ sum_by (λ h. if nat_eq h.worker_state.worker w then h.worker_state.tally else 0) worker_states.items) }
{
    let mut totals = RunTotals::new(alloc, events, enabled);
    for worker_state in worker_states {
        totals.add(audited_board, worker_state)?;
    }
    Ok(totals)
}

/// Returns true if the reported tallies equal those that the workers counted.
fn tallies_match(reported: &[u32; MAX_THREADS], tallies: &[u64; MAX_THREADS]) -> bool
    ensures { IsTrue result ↔ (reported.now ≡ tallies.now) }
{
    for worker in 0..MAX_THREADS {
        if reported[worker] as u64 != tallies[worker] {
            return false;
        }
    }
    true
}

/// Creates the report of a board on which no event is left to happen. The board is kept if that is wanted.
///
/// # Errors
///
/// Returns the fault of the stop reason if the run was stopped. Returns `Stranger` if the run is not over, and `Memory`
/// if offers were lost or an allocation fails.
fn report(
    alloc: Global,
    board: Board,
    stop: Option<StopReason>,
    lost: u64,
    keeps: bool,
) -> Result<StoppedRun, RunFault>
    ensures stopped { IfOk result (λ r. stop ≡ None) }
    ensures tells { IfOk result (λ r. Tells board r.report) }
    ensures kept { IfOk result (IsStopped keeps) }
    ensures none_lost { IfOk result (λ r. lost ≡ 0) }
    ensures fault { IfErr result (λ e. e ≢ RunFault.BadCount) }
{
    match stop {
        None => {}
        Some(StopReason::Memory) => return Err(RunFault::Memory),
        Some(StopReason::Spawn) => return Err(RunFault::Spawn),
        Some(StopReason::Stranger) => return Err(RunFault::Stranger),
    }
    if board.is_going() && !board.is_quiet() {
        return Err(RunFault::Stranger);
    }
    if lost > 0 {
        return Err(RunFault::Memory);
    }
    Ok(stopped_run(alloc, board, keeps)?)
}

/// Checks that the tallies of a report equal those that the workers counted, and returns the report.
///
/// # Errors
///
/// Returns `Stranger` if they differ.
fn check_tallies(run: StoppedRun, tallies: &[u64; MAX_THREADS]) -> Result<StoppedRun, RunFault>
    ensures same { IfOk result (λ r. r ≡ run) }
    ensures counted { OnOk result (run.report.tallies ≡ tallies.now) }
    ensures differs { OnErr result (run.report.tallies ≢ tallies.now) }
    ensures fault { IfErr result (λ e. e ≡ RunFault.Stranger) }
{
    if tallies_match(&run.report.tallies, tallies) {
        Ok(run)
    } else {
        Err(RunFault::Stranger)
    }
}

/// Returns the sum of the numbers.
fn sum_of(numbers: &[u64]) -> u64
    requires { sum numbers.now < 2 ^ 64 }
    ensures { result ≡ sum numbers.now }
{
    numbers.iter().sum()
}

/// Returns the number of occupied holes.
fn occupied_holes(holes: &[u64; 96]) -> u64
    ensures count { result ≡ count_by (λ n. nat_lt 0 n) holes.now }
    ensures few { result ≤ 96 }
{
    holes.iter().filter(|n| **n > 0).count() as u64
}

/// Creates the pool counts of a run. The offered numbers were either drawn or are left in a hole.
fn pool_count(offered: u64, full: u64, draws: &[u64], holes: &[u64; 96]) -> PoolCount
    requires { offered ≡ sum draws.now + count_by (λ n. nat_lt 0 n) holes.now }
    ensures offers { (result.offered ≡ offered) × (result.full ≡ full) }
    ensures draws { (result.drawn ≡ sum draws.now) × (result.left ≡ count_by (λ n. nat_lt 0 n) holes.now) }
    ensures drawn { offered ≡ result.drawn + result.left }
    ensures few { result.left ≤ 96 }
{
    PoolCount {
        offered,
        full,
        drawn: sum_of(draws),
        left: occupied_holes(holes),
    }
}

/// Closes the ledgers and the pool after all threads have ended, and returns the report with the pool counts.
///
/// # Errors
///
/// Returns the fault of the stop reason, `Stranger` if the counts differ, and `Memory` if offers were lost or an
/// allocation fails.
fn finish_run<J: RunParams, E: Ledger, N: Ledger>(
    alloc: Global,
    pool: Pool,
    audited_board: AuditedBoard<J, E, N>,
    totals: RunTotals<J, E, N>,
    keeps: bool,
) -> Result<(StoppedRun, PoolCount), RunFault>
    requires pool { pool_id pool ≡ J.pool }
    requires seats { seats_of pool ≡ vec_len totals.seats }
    requires parts { (E.parts ≡ vec_len totals.seats) × (N.parts ≡ vec_len totals.seats) }
    requires counted { AreCounted J.engines J.workers (J.engines + J.workers) totals.tallies }
    ensures report { IfOk result (λ r. IsReport J.code J.limit J.engines J.workers r.0.report r.1) }
    ensures kept { IfOk result (λ r. IsStopped keeps r.0) }
    ensures own { IfOk result (λ r. r.0.report.tallies ≡ totals.tallies) }
    ensures counts { IfOk result (λ r. (r.1.offered ≡ totals.offered) × (r.1.full ≡ totals.full) × (r.1.drawn ≡ sum totals.draws.items)) }
    ensures fault { IfErr result (λ e. e ≢ RunFault.BadCount) }
{
    let RunTotals {
        mut events,
        mut enabled,
        seats,
        tallies,
        draws,
        offered,
        full,
        lost,
        of: _,
    } = totals;
    let (board, stop) = audited_board.close(&mut events, &mut enabled);
    let rest = pool.close(seats);
    let run = report(alloc, board, stop, lost, keeps)?;
    let run = check_tallies(run, &tallies)?;
    let count = pool_count(offered, full, draws.as_slice(), &rest.holes);
    Ok((run, count))
}

/// Runs a team of `count` threads until the run is over, and merges what the workers counted.
///
/// # Errors
///
/// Returns `Memory` if an allocation fails or a worker state is missing.
fn run_and_collect<
    J: RunParams + Send + Sync,
    E: Ledger + Send + Sync,
    N: Ledger + Send + Sync,
    R: Threads + Wait + Sync,
    G: Gate,
>(
    rt: &R,
    alloc: Global,
    pool: &Pool,
    shared: &mut Mutex<Scheduler<J, E, N>>,
    events: Share<E>,
    enabled: Share<N>,
    count: usize,
    gate: &G,
) -> Result<RunTotals<J, E, N>, RunFault>
    requires shares { (events.parts ≡ 0) × (enabled.parts ≡ 0) × (events.amount ≡ 0) × (enabled.amount ≡ 0) }
    requires pool { pool_id pool.now ≡ J.pool }
    ensures seats { IfOk result (λ s. vec_len s.seats ≡ count) }
    ensures own { IfOk result (λ s. AreCounted J.engines J.workers count s.tallies) }
    ensures fault { IfErr result (λ e. e ≢ RunFault.BadCount) }
{
    let signal = WakeSignal::new();
    run_team(rt, alloc, shared, &signal, pool, gate, count)?;
    let Scheduler {
        audited_board,
        idle,
        ..
    } = shared.get_mut();
    let back = drain_all(alloc, pool, idle, count)?;
    let totals = collect_totals(alloc, audited_board, back, events, enabled)?;
    Ok(totals)
}

/// Runs a board with its ledgers, pool and log, and returns its report.
///
/// # Errors
///
/// Returns a `RunFault` other than `BadCount`.
fn run<
    J: RunParams + Send + Sync,
    E: Ledger + Send + Sync,
    N: Ledger + Send + Sync,
    R: Threads + Wait + Sync,
    G: Gate,
>(
    rt: &R,
    alloc: Global,
    pool: Pool,
    seats: Vec<PoolSeat>,
    board: Board,
    opened: NewLog,
    events: Blank,
    enabled: Blank,
    engines: u8,
    count: usize,
    gate: &G,
    keeps: bool,
) -> Result<(StoppedRun, PoolCount), RunFault>
    requires count { (count ≤ max_threads) × (engines ≡ J.engines) × (count ≡ J.engines + J.workers) × (vec_len seats ≡ count) × (seats_of pool ≡ count) }
    requires ledgers { (events.name ≡ E.name) × (events.parts ≡ E.parts) × (enabled.name ≡ N.name) × (enabled.parts ≡ N.parts) }
    requires parts { (events.parts ≡ count) × (enabled.parts ≡ count) }
    requires pool { pool_id pool ≡ J.pool }
    requires seats { All (λ s. IsSeatOf pool s × (view s ≡ beginner 1)) seats.items }
    requires opened { opened.seen.book ≡ J.book }
    requires board { (board.code ≡ J.code) × (board.limit ≡ J.limit) × (board.history ≡ []) × (board.state ≡ start (code_system board.code)) }
    ensures report { IfOk result (λ r. IsReport J.code J.limit J.engines J.workers r.0.report r.1) }
    ensures kept { IfOk result (λ r. IsStopped keeps r.0) }
    ensures fault { IfErr result (λ e. e ≢ RunFault.BadCount) }
{
    let (event_ledger, mut all_events) = events.open::<E>();
    let (enabled_ledger, mut all_enabled) = enabled.open::<N>();
    let audited_board = AuditedBoard::<J, E, N>::new(board, opened, event_ledger, enabled_ledger);
    let idle = new_idle_workers::<J, E, N>(
        alloc,
        engines,
        seats,
        &mut all_events,
        &mut all_enabled,
    )?;
    let counters = RunCounters::new(engines as usize, count.saturating_sub(engines as usize));
    let mut shared = Mutex::new(Scheduler {
        audited_board,
        counters,
        idle,
        hints: ReadyHints::new(alloc),
        active: ActiveThreads::new(),
    });
    let totals = run_and_collect(
        rt,
        alloc,
        &pool,
        &mut shared,
        all_events,
        all_enabled,
        count,
        gate,
    )?;
    let Scheduler { audited_board, .. } = shared.into_inner();
    finish_run(alloc, pool, audited_board, totals, keeps)
}

/// Runs a program on threads, and returns its report with the pool counts. See `run_threads_to_stop`, which can keep the
/// board.
///
/// # Errors
///
/// Returns the errors of `run_threads_to_stop`.
pub fn run_threads<R: Threads + Wait + Sync, G: Gate>(
    rt: &R,
    alloc: Global,
    program: &Program,
    engines: u8,
    workers: u8,
    limit: u32,
    gate: &G,
) -> Result<(Report, PoolCount), RunFault>
    ensures report { IfOk result (λ r. IsReport program.now limit engines workers r.0 r.1) }
    ensures reports { IfOk result (λ r. Reports program.now limit r.0) }
    ensures count { (result ≡ Err RunFault.BadCount) ↔ ((engines ≡ 0) ⊎ ((workers ≡ 0) ⊎ (max_threads < engines + workers))) }
{
    match run_threads_to_stop(rt, alloc, program, engines, workers, limit, gate, false) {
        Ok((run, count)) => Ok((run.into_report(), count)),
        Err(fault) => Err(fault),
    }
}

/// Runs a program on threads, and returns its report with the pool counts, and the board on which it ended if that is
/// wanted.
///
/// Engines have the numbers from 0 on and run control items; workers follow and run leaf items. At most `limit` events
/// happen. The gate computes each item outside the lock. Blocks until all threads have ended.
///
/// # Errors
///
/// Returns `BadCount` if and only if there is no engine or no worker, or more than `MAX_THREADS` in total. Returns `Spawn` if a
/// thread could not be started; the other threads then stop. Returns `Stranger` if the counts of the threads differ
/// from those of the board. Returns `Memory` if an allocation fails: the worker returns its item to the board, and the
/// run stops.
pub fn run_threads_to_stop<R: Threads + Wait + Sync, G: Gate>(
    rt: &R,
    alloc: Global,
    program: &Program,
    engines: u8,
    workers: u8,
    limit: u32,
    gate: &G,
    keeps: bool,
) -> Result<(StoppedRun, PoolCount), RunFault>
    ensures report { IfOk result (λ r. IsReport program.now limit engines workers r.0.report r.1) }
    ensures reports { IfOk result (λ r. Reports program.now limit r.0.report) }
    ensures kept { IfOk result (λ r. IsStopped keeps r.0) }
    ensures count { (result ≡ Err RunFault.BadCount) ↔ ((engines ≡ 0) ⊎ ((workers ≡ 0) ⊎ (max_threads < engines + workers))) }
{
    let count = engines as usize + workers as usize;
    if engines == 0 || workers == 0 || count > MAX_THREADS {
        return Err(RunFault::BadCount);
    }
    let _whole = program.code().entry_count();
    let (pool, seats) = Pool::new(alloc, count)?;
    let board = Board::new(alloc, program.share()?, limit)?;
    let events = Blank::new(count as u64);
    let enabled = Blank::new(count as u64);
    run::<Brand, Brand, Brand, R, G>(
        rt,
        alloc,
        pool,
        seats,
        board,
        NewLog::new(),
        events,
        enabled,
        engines,
        count,
        gate,
        keeps,
    )
}
