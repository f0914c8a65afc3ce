//! The knowledge of a script after some rounds: the fact base with the blocked statements.
ghost use Rattle.std.specs.Prelude.{◌≡◌, ◌++◌, map, IfOk, OnOk};
ghost use Rattle.meaning_outcomes.specs.Stuck.{is_stuck_in};
ghost use Rattle.meaning_round.specs.Made.{tasks_of};
ghost use Rattle.meaning_round.specs.Standing.{active_of};
ghost use Rattle.meaning_outcomes.specs.Known.{stuck_among, stuck_if};

use crate::blocked::{is_stuck, is_wait_stuck};
use meaning_facts::fact_base::FactBase;
use meaning_round::state::{LiveAction, LiveTask, RoundState};
use std::alloc::{AllocError, Allocator, Global};

/// The identity of a blocked statement: the number of its block instance and its offset.
#[derive(Clone, Copy, PartialEq, Eq, Debug)]
pub struct BlockedId {
    pub instance: usize,
    pub at: usize,
}

/// The knowledge of a script after some rounds: the fact base with the block instances, and the statements that are
/// blocked then.
#[derive(Drop)]
pub struct Knowledge {
    pub fact_base: FactBase,
    pub stuck: Vec<BlockedId>,
    pub rounds: u32,
    pub finished: bool,
}

impl Knowledge {
    /// Creates the knowledge of a state.
    ///
    /// # Errors
    ///
    /// Returns `AllocError` if an allocation fails.
    pub fn of<'a, A: Allocator>(
        alloc: Global,
        state: RoundState<'a, A>,
        rounds: u32,
        finished: bool,
    ) -> Result<Knowledge, AllocError>
        ensures rounds { IfOk result (λ k. k.rounds ≡ rounds) }
        ensures finished { IfOk result (λ k. k.finished ≡ finished) }
        ensures fact_base { IfOk result (λ k. k.fact_base ≡ state.entry.fact_base) }
        ensures stuck { IfOk result (λ k. k.stuck.items ≡ stuck_among state.entry.fact_base (tasks_of state.entry)) }
    {
        let stuck = blocked_of(&state.fact_base, alloc, state.tasks.as_slice())?;
        let RoundState { fact_base, .. } = state;
        Ok(Knowledge {
            fact_base,
            stuck,
            rounds,
            finished,
        })
    }
}

/// Collects the blocked statements among these live ones.
fn blocked_of<'a, A: Allocator>(
    fact_base: &FactBase,
    alloc: Global,
    tasks: &[LiveTask<'a, A>],
) -> Result<Vec<BlockedId>, AllocError>
    ensures { IfOk result (λ stuck. stuck.items ≡ stuck_among fact_base.now (map active_of tasks.now)) }
{
    let mut stuck = Vec::new(alloc);
    for task in tasks {
        add_blocked(fact_base, alloc, task, &mut stuck)?;
    }
    Ok(stuck)
}

/// Appends a live statement if it is blocked.
fn add_blocked<'a, A: Allocator>(
    fact_base: &FactBase,
    alloc: Global,
    task: &LiveTask<'a, A>,
    stuck: &mut Vec<BlockedId>,
) -> Result<(), AllocError>
    ensures { OnOk result (stuck.new.items ≡ stuck.old.items
        ++ stuck_if (is_stuck_in fact_base.now (active_of task.now).instance (active_of task.now).statement) (active_of task.now)) }
{
    if is_task_stuck(fact_base, alloc, task)? {
        stuck.push(BlockedId {
            instance: task.site.instance,
            at: task.site.at,
        })?;
    }
    Ok(())
}

/// Returns true if a live statement has neither its own fact nor a fault at itself or at an outermost cell.
fn is_task_stuck<'a, A: Allocator>(
    fact_base: &FactBase,
    alloc: Global,
    task: &LiveTask<'a, A>,
) -> Result<bool, AllocError>
    ensures { IfOk result (λ stuck. stuck ≡ is_stuck_in fact_base.now (active_of task.now).instance (active_of task.now).statement) }
{
    let place = task.site.own_place();
    match &task.live_action {
        LiveAction::Waits(names, _) => Ok(is_wait_stuck(fact_base, task.site.at, place, *names)),
        LiveAction::Does(action) => is_stuck(fact_base, alloc, task.site.at, place, *action),
    }
}
