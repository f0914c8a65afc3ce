//! The derivation step of a round: new facts from the ready statements of the worklist, with wakeup by events.
ghost use Rattle.std.specs.Prelude.{◌≡◌, ◌↔◌, ◌⊎◌, ◌++◌, ◌∷◌, [], ℕ, suc, List, Some, length, map, slice_get, IfOk, OnOk};
ghost use Rattle.language.specs.Facts.{Fact as Told};
ghost use Rattle.language.specs.Meaning.{Known};
ghost use Rattle.language.specs.Members.{◌∈◌};
ghost use Rattle.language.specs.Reads.{Reads};
ghost use Rattle.language.specs.Resolved.{core};
ghost use Rattle.language.specs.Single.{SinglyAssigned};
ghost use Rattle.language.specs.Table.{Table};
ghost use Rattle.language.specs.Tree.{Tree};
ghost use Rattle.language.specs.Typing.{WellTyped};
ghost use Rattle.meaning_facts.specs.Added.{IsAdded};
ghost use Rattle.meaning_facts.specs.Sighted.{closed_at};
ghost use Rattle.meaning_invariants.specs.Active.{Active};
ghost use Rattle.meaning_invariants.specs.Held.{AreAdded, AreInside, StayInside};
ghost use Rattle.meaning_round.specs.Viewed.{facts_view};
ghost use Rattle.meaning_round.specs.Hearing.{active_reads, closed_too, comes_with, numbers_of, AreHeard, AreWoken};
ghost use Rattle.meaning_round.specs.Made.{arrays_of, picks, tasks_of, telling_of, waiting_of};
ghost use Rattle.meaning_round.specs.Standing.{active_news, active_of, actives_news, HavePlaces, IsAfter};

use crate::derive_statement::{add_deep_calls, add_news};
use crate::reads::add_reads;
use crate::state::{LiveAction, LiveTask, RoundState};
use crate::worklist::{WakeEvent, Worklist};
use meaning_facts::fact_base::FactBase;
use meaning_facts::facts::{Fact, Place};
use std::alloc::{AllocError, Allocator, Global};

impl<'a, A: Allocator> RoundState<'a, A> {
    /// Returns the facts that follow from the known facts and are not known yet, and drains the worklist.
    ///
    /// For the state of an accepted script after n rounds, these are exactly the facts that round n + 1 adds. A
    /// statement without a new fact goes to sleep and subscribes to the events that it has read. A statement with a new
    /// fact stays awake.
    pub fn news(&mut self, alloc: Global) -> Result<Vec<Fact>, AllocError>
        ensures told { IfOk result (λ news. facts_view self.old.fact_base.instances.all.items news.items ≡ actives_news self.old.fact_base (telling_of self.old)) }
        ensures round { IfOk result (λ news. (bytes : List ℕ) (t : Table) (tree : Tree) → Reads bytes tree → WellTyped tree t → SinglyAssigned (core t tree)
            → (n : ℕ) → IsAfter (core t tree) n self.old.fact_base (tasks_of self.old) (telling_of self.old)
            → (f : Told) → Known (core t tree) (suc n) f ↔ (Known (core t tree) n f ⊎ (f ∈ facts_view self.old.fact_base.instances.all.items news.items))) }
        ensures inside { IfOk result (λ news. HavePlaces self.old.fact_base.instances.all.items (telling_of self.old)
            → AreInside self.old.fact_base.instances.all.items news.items) }
        ensures heard { OnOk result (HavePlaces self.old.fact_base.instances.all.items (tasks_of self.old)
            → AreHeard self.old.fact_base (tasks_of self.old) self.old.worklist []
            → AreHeard self.old.fact_base (tasks_of self.old) self.new.worklist []) }
        ensures fact_base { self.new.fact_base ≡ self.old.fact_base }
        ensures tasks { tasks_of self.new ≡ tasks_of self.old }
        ensures arrays { arrays_of self.new ≡ arrays_of self.old }
        ensures waiting { waiting_of self.new ≡ waiting_of self.old }
        ensures passed { self.new.passed ≡ self.old.passed }
        ensures flow { self.new.flow.now ≡ self.old.flow.now }
    {
        derive_all(
            &self.fact_base,
            alloc,
            self.tasks.as_slice(),
            &mut self.worklist,
        )
    }

    /// Adds facts to the fact base, and wakes the statements that have subscribed to them.
    pub fn learn(&mut self, alloc: Global, news: Vec<Fact>) -> Result<(), AllocError>
        ensures facts { OnOk result (AreAdded self.old.fact_base.facts news.items self.new.fact_base.facts) }
        ensures heard { OnOk result (AreHeard self.old.fact_base (tasks_of self.old) self.old.worklist []
            → AreHeard self.new.fact_base (tasks_of self.old) self.new.worklist []) }
        ensures instances { self.new.fact_base.instances ≡ self.old.fact_base.instances }
        ensures closed { self.new.fact_base.closed ≡ self.old.fact_base.closed }
        ensures tasks { tasks_of self.new ≡ tasks_of self.old }
        ensures arrays { arrays_of self.new ≡ arrays_of self.old }
        ensures waiting { waiting_of self.new ≡ waiting_of self.old }
        ensures passed { self.new.passed ≡ self.old.passed }
        ensures flow { self.new.flow.now ≡ self.old.flow.now }
    {
        learn_all(&mut self.fact_base, alloc, &mut self.worklist, news)
    }
}

/// Derives the new facts of all statements that are ready in the worklist.
fn derive_all<A: Allocator>(
    fact_base: &FactBase,
    alloc: Global,
    tasks: &[LiveTask<'_, A>],
    worklist: &mut Worklist,
) -> Result<Vec<Fact>, AllocError>
    ensures told { IfOk result (λ news. facts_view fact_base.now.instances.all.items news.items
        ≡ actives_news fact_base.now (picks (map active_of tasks.now) (numbers_of worklist.old (length (map active_of tasks.now))))) }
    ensures inside { IfOk result (λ news. HavePlaces fact_base.now.instances.all.items
        (picks (map active_of tasks.now) (numbers_of worklist.old (length (map active_of tasks.now))))
        → AreInside fact_base.now.instances.all.items news.items) }
    ensures heard { OnOk result (HavePlaces fact_base.now.instances.all.items (map active_of tasks.now)
        → AreHeard fact_base.now (map active_of tasks.now) worklist.old []
        → AreHeard fact_base.now (map active_of tasks.now) worklist.new []) }
{
    let numbers = worklist.drain_ready(alloc, tasks.len())?;
    derive_each(fact_base, alloc, tasks, worklist, numbers)
}

/// Derives the new facts of the statements with these numbers.
fn derive_each<A: Allocator>(
    fact_base: &FactBase,
    alloc: Global,
    tasks: &[LiveTask<'_, A>],
    worklist: &mut Worklist,
    numbers: Vec<usize>,
) -> Result<Vec<Fact>, AllocError>
    ensures told { IfOk result (λ news. facts_view fact_base.now.instances.all.items news.items
        ≡ actives_news fact_base.now (picks (map active_of tasks.now) numbers.items)) }
    ensures inside { IfOk result (λ news. HavePlaces fact_base.now.instances.all.items (picks (map active_of tasks.now) numbers.items)
        → AreInside fact_base.now.instances.all.items news.items) }
    ensures heard { OnOk result (HavePlaces fact_base.now.instances.all.items (map active_of tasks.now)
        → AreHeard fact_base.now (map active_of tasks.now) worklist.old numbers.items
        → AreHeard fact_base.now (map active_of tasks.now) worklist.new []) }
{
    let mut news = Vec::new(alloc);
    for number in numbers {
        derive_one(fact_base, alloc, tasks, worklist, number, &mut news)?;
    }
    Ok(news)
}

/// Appends the new facts of the statement with this number, and puts it to sleep if there are none.
fn derive_one<A: Allocator>(
    fact_base: &FactBase,
    alloc: Global,
    tasks: &[LiveTask<'_, A>],
    worklist: &mut Worklist,
    number: usize,
    news: &mut Vec<Fact>,
) -> Result<(), AllocError>
    ensures told { OnOk result (facts_view fact_base.now.instances.all.items news.new.items
        ≡ facts_view fact_base.now.instances.all.items news.old.items ++ actives_news fact_base.now (picks (map active_of tasks.now) (number ∷ []))) }
    ensures inside { OnOk result (HavePlaces fact_base.now.instances.all.items (picks (map active_of tasks.now) (number ∷ []))
        → AreInside fact_base.now.instances.all.items news.old.items → AreInside fact_base.now.instances.all.items news.new.items) }
    ensures heard { OnOk result (HavePlaces fact_base.now.instances.all.items (map active_of tasks.now) → (asked : List ℕ)
        → AreHeard fact_base.now (map active_of tasks.now) worklist.old (number ∷ asked) → AreHeard fact_base.now (map active_of tasks.now) worklist.new asked) }
{
    let Some(task) = tasks.get(number) else {
        return Ok(());
    };
    derive_task(fact_base, alloc, task, worklist, number, news)
}

/// Appends the new facts of a live statement, and puts it to sleep if there are none.
fn derive_task<A: Allocator>(
    fact_base: &FactBase,
    alloc: Global,
    task: &LiveTask<'_, A>,
    worklist: &mut Worklist,
    number: usize,
    news: &mut Vec<Fact>,
) -> Result<(), AllocError>
    ensures told { OnOk result (facts_view fact_base.now.instances.all.items news.new.items
        ≡ facts_view fact_base.now.instances.all.items news.old.items ++ active_news fact_base.now (active_of task.now)) }
    ensures inside { OnOk result (StayInside fact_base.now.instances.all.items task.now.site.instance news.old.items news.new.items) }
    ensures heard { OnOk result ((ls : List Active) → slice_get ls number ≡ Some (active_of task.now)
        → HavePlaces fact_base.now.instances.all.items ls → (asked : List ℕ)
        → AreHeard fact_base.now ls worklist.old (number ∷ asked) → AreHeard fact_base.now ls worklist.new asked) }
{
    let before = news.len();
    add_task_news(fact_base, alloc, task, news)?;
    if news.len() > before {
        return worklist.keep(number);
    }
    let events = reads_of(fact_base, alloc, task)?;
    worklist.subscribe(alloc, number, events.as_slice())
}

/// Appends the new facts of a live statement. A `wait` has none.
fn add_task_news<A: Allocator>(
    fact_base: &FactBase,
    alloc: Global,
    task: &LiveTask<'_, A>,
    news: &mut Vec<Fact>,
) -> Result<(), AllocError>
    ensures told { OnOk result (facts_view fact_base.now.instances.all.items news.new.items
        ≡ facts_view fact_base.now.instances.all.items news.old.items ++ active_news fact_base.now (active_of task.now)) }
    ensures inside { OnOk result (StayInside fact_base.now.instances.all.items task.now.site.instance news.old.items news.new.items) }
{
    if let LiveAction::Does(action) = &task.live_action {
        add_news(fact_base, alloc, task.site, *action, news)?;
        add_deep_calls(fact_base, task.site, *action, news)?;
    }
    Ok(())
}

/// Collects the events that a live statement reads.
fn reads_of<A: Allocator>(
    fact_base: &FactBase,
    alloc: Global,
    task: &LiveTask<'_, A>,
) -> Result<Vec<WakeEvent>, AllocError>
    ensures { IfOk result (λ events. events.items ≡ active_reads fact_base.now (active_of task.now)) }
{
    let mut events = Vec::new(alloc);
    if let LiveAction::Does(action) = &task.live_action {
        add_reads(fact_base, task.site, *action, &mut events)?;
    }
    Ok(events)
}

/// Adds facts one by one, and wakes their readers.
fn learn_all(
    fact_base: &mut FactBase,
    alloc: Global,
    worklist: &mut Worklist,
    news: Vec<Fact>,
) -> Result<(), AllocError>
    ensures facts { OnOk result (AreAdded fact_base.old.facts news.items fact_base.new.facts) }
    ensures heard { OnOk result ((ls : List Active) → AreHeard fact_base.old ls worklist.old [] → AreHeard fact_base.new ls worklist.new []) }
    ensures instances { fact_base.new.instances ≡ fact_base.old.instances }
    ensures closed { fact_base.new.closed ≡ fact_base.old.closed }
{
    for fact in news {
        learn_one(fact_base, alloc, worklist, fact)?;
    }
    Ok(())
}

fn learn_one(
    fact_base: &mut FactBase,
    alloc: Global,
    worklist: &mut Worklist,
    fact: Fact,
) -> Result<(), AllocError>
    ensures added { OnOk result (IsAdded fact_base.old.facts fact fact_base.new.facts) }
    ensures heard { OnOk result ((ls : List Active) → AreHeard fact_base.old ls worklist.old [] → AreHeard fact_base.new ls worklist.new []) }
    ensures instances { fact_base.new.instances ≡ fact_base.old.instances }
    ensures closed { fact_base.new.closed ≡ fact_base.old.closed }
{
    wake_readers(fact_base, worklist, &fact)?;
    fact_base.facts.add(alloc, fact)?;
    Ok(())
}

/// Wakes the statements that have subscribed to an event of this fact.
fn wake_readers(
    fact_base: &FactBase,
    worklist: &mut Worklist,
    fact: &Fact,
) -> Result<(), AllocError>
    ensures { OnOk result (AreWoken worklist.old worklist.new (comes_with fact_base.now fact.now)) }
{
    match fact {
        Fact::Value(place, _) => worklist.notify(WakeEvent::at(*place)),
        Fact::Element(array, write) => {
            worklist.notify(WakeEvent::under(*array, write.key.as_ref()))?;
            wake_closed(fact_base, worklist, *array)
        }
        Fact::Line(..) | Fact::Fault(_) => Ok(()),
    }
}

/// Wakes the readers of an array if the array is closed.
fn wake_closed(
    fact_base: &FactBase,
    worklist: &mut Worklist,
    array: Place,
) -> Result<(), AllocError>
    ensures { OnOk result (AreWoken worklist.old worklist.new (closed_too (closed_at fact_base.now array) array)) }
{
    if fact_base.is_closed(array) {
        return worklist.notify(WakeEvent::at(array));
    }
    Ok(())
}
