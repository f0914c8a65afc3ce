//! Closing of arrays whose declaring block is finished for them.
ghost use Rattle.std.specs.Prelude.{◌≡◌, ◌⊎◌, [], cond, false, map, true, IfOk, OnOk};
ghost use Rattle.flow.specs.View.{core_of};
ghost use Rattle.meaning_facts.specs.declared.facts.Place.{Place as Spot};
ghost use Rattle.meaning_facts.specs.Sighted.{closed_at};
ghost use Rattle.meaning_facts.specs.Store.{same_place};
ghost use Rattle.meaning_openings.specs.Closing.{AllStaySo, AreEnded, IsTried, IsToClose};
ghost use Rattle.language.specs.Members.{◌∈◌};
ghost use Rattle.meaning_round.specs.Hearing.{AreHeard, AreWoken};
ghost use Rattle.meaning_round.specs.Made.{arrays_of, candidate_of, tasks_of, waiting_of};
ghost use Rattle.meaning_round.specs.Reads.{at};

use flow::name::NameBinding;
use flow::script::Flow;
use meaning_cells::finished::{BlockToFinish, is_finished};
use meaning_facts::fact_base::FactBase;
use meaning_facts::facts::Place;
use meaning_round::state::{LiveArray, RoundState};
use meaning_round::worklist::{WakeEvent, Worklist};
use std::alloc::{AllocError, Allocator, Global};

/// Closes the arrays of live blocks that can close, given what is live and closed so far. Returns true if one was
/// closed.
pub fn close_some<'a, A: Allocator>(
    state: &mut RoundState<'a, A>,
    alloc: Global,
) -> Result<bool, AllocError>
    ensures tasks { tasks_of state.new ≡ tasks_of state.old }
    ensures heard { OnOk result (AreHeard state.old.fact_base (tasks_of state.old) state.old.worklist []
        → AreHeard state.new.fact_base (tasks_of state.old) state.new.worklist []) }
    ensures waiting { waiting_of state.new ≡ waiting_of state.old }
    ensures arrays { arrays_of state.new ≡ arrays_of state.old }
    ensures passed { state.new.passed ≡ state.old.passed }
    ensures flow { state.new.flow.now ≡ state.old.flow.now }
    ensures facts { state.new.fact_base.facts ≡ state.old.fact_base.facts }
    ensures instances { state.new.fact_base.instances ≡ state.old.fact_base.instances }
    ensures so { OnOk result (AllStaySo (core_of state.old.flow.now) (arrays_of state.old) state.old.fact_base state.new.fact_base) }
    ensures ended { IfOk result (λ is_new. is_new ≡ false
        → (state.new.fact_base ≡ state.old.fact_base) × AreEnded (core_of state.old.flow.now) state.old.fact_base (arrays_of state.old)) }
{
    let closed = close_arrays(
        &mut state.fact_base,
        alloc,
        state.flow,
        state.arrays.as_slice(),
    )?;
    wake_readers(&mut state.worklist, closed.as_slice())?;
    Ok(!closed.is_empty())
}

/// Wakes the statements that read whether these arrays are closed.
fn wake_readers(worklist: &mut Worklist, closed: &[Place]) -> Result<(), AllocError>
    ensures { OnOk result (AreWoken worklist.old worklist.new (map at closed.now)) }
{
    for place in closed {
        worklist.notify(WakeEvent::at(*place))?;
    }
    Ok(())
}

/// Closes those of these arrays that can close. Returns their places.
fn close_arrays<'a, A: Allocator>(
    fact_base: &mut FactBase,
    alloc: Global,
    flow: &'a Flow<A>,
    arrays: &[LiveArray<'a, A>],
) -> Result<Vec<Place>, AllocError>
    ensures facts { fact_base.new.facts ≡ fact_base.old.facts }
    ensures instances { fact_base.new.instances ≡ fact_base.old.instances }
    ensures so { OnOk result (AllStaySo (core_of flow.now) (map candidate_of arrays.now) fact_base.old fact_base.new) }
    ensures others { IfOk result (λ closed. (q : Spot) → (q ∈ closed.items) ⊎ (closed_at fact_base.new q ≡ closed_at fact_base.old q)) }
    ensures ended { IfOk result (λ closed. closed.items ≡ []
        → (fact_base.new ≡ fact_base.old) × AreEnded (core_of flow.now) fact_base.old (map candidate_of arrays.now)) }
{
    let mut closed = Vec::new(alloc);
    for array in arrays {
        close_one(fact_base, alloc, flow, array, &mut closed)?;
    }
    Ok(closed)
}

/// Closes an array if it can close and is not closed yet. Appends its place to `closed`.
fn close_one<'a, A: Allocator>(
    fact_base: &mut FactBase,
    alloc: Global,
    flow: &'a Flow<A>,
    array: &LiveArray<'a, A>,
    closed: &mut Vec<Place>,
) -> Result<(), AllocError>
    ensures facts { fact_base.new.facts ≡ fact_base.old.facts }
    ensures instances { fact_base.new.instances ≡ fact_base.old.instances }
    ensures tried { OnOk result (IsTried (core_of flow.now) (candidate_of array.now) fact_base.old fact_base.new closed.old.items closed.new.items) }
{
    if fact_base.is_closed(array.place) {
        return Ok(());
    }
    if !is_closing(fact_base, alloc, flow, array)? {
        return Ok(());
    }
    close(fact_base, array.place)?;
    closed.push(array.place)?;
    Ok(())
}

/// Marks an array as closed.
fn close(fact_base: &mut FactBase, array: Place) -> Result<(), AllocError>
    ensures facts { fact_base.new.facts ≡ fact_base.old.facts }
    ensures instances { fact_base.new.instances ≡ fact_base.old.instances }
    ensures closed { OnOk result ((q : Spot) → closed_at fact_base.new q ≡ cond (same_place array q) true (closed_at fact_base.old q)) }
{
    fact_base.closed.insert((array.instance, array.node))?;
    Ok(())
}

/// Returns true if each statement of the declaring block is finished for an array, and no key has two writers.
fn is_closing<'a, A: Allocator>(
    fact_base: &FactBase,
    alloc: Global,
    flow: &'a Flow<A>,
    array: &LiveArray<'a, A>,
) -> Result<bool, AllocError>
    ensures so { IfOk result (λ yes. yes ≡ true → IsToClose (core_of flow.now) fact_base.now (candidate_of array.now)) }
    ensures never { IfOk result (λ yes. yes ≡ false → IsToClose (core_of flow.now) fact_base.now (candidate_of array.now) → ⊥) }
{
    let place = array.place;
    let body = BlockToFinish {
        instance: place.instance,
        what: NameBinding::Local(place.node),
        block: array.block,
    };
    if !is_finished(fact_base, alloc, flow, body)? {
        return Ok(false);
    }
    Ok(fact_base.facts.has_one_writer(place))
}
