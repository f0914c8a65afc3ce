//! State of the round evaluation: the fact base, live statements, pending headers, and arrays that can be closed.

ghost use Rattle.std.specs.Prelude.{◌≡◌, ◌++◌, ◌∷◌, [], ℕ, map, nat_eq, IfOk, OnOk};
ghost use Rattle.std.specs.HashSet.{contains};
ghost use Rattle.flow.specs.View.{action_view, block_view, core_of, statement_view, waits_around};
ghost use Rattle.language.specs.Core.{local, stmt};
ghost use Rattle.language.specs.Parts.{block_list};
ghost use Rattle.meaning_facts.specs.Fresh.{IsFresh};
ghost use Rattle.meaning_invariants.specs.Active.{active};
ghost use Rattle.meaning_invariants.specs.Never.{never_in};
ghost use Rattle.meaning_invariants.specs.Listed.{all_active, unless_never};
ghost use Rattle.meaning_round.specs.Made.{arrays_of, candidate_of, declares_here, declares_here_by, no_calls, tasks_of, waiting_of};
ghost use Rattle.meaning_round.specs.Standing.{active_of, deed_view};

use crate::never_closed::never_closed_nodes;
use crate::site::LiveStatement;
use crate::worklist::Worklist;
use flow::name::Name;
use flow::script::Flow;
use flow::statement::{Action, Block, Header, Statement};
use meaning_facts::fact_base::FactBase;
use meaning_facts::facts::Place;
use std::alloc::{AllocError, Allocator, Global};
use std::collections::HashSet;

/// A block nested in waits. The waits come outermost first; the innermost one contains the statements of the block.
#[derive(Drop)]
pub struct BlockContent<'a, A: Allocator> {
    pub waits: &'a [Header<A>],
    pub block: &'a Block<A>,
}

/// The action of a live statement.
#[derive(Drop)]
pub enum LiveAction<'a, A: Allocator> {
    /// Any action but a `wait`.
    Does(&'a Action<A>),
    Waits(&'a [Name], BlockContent<'a, A>),
}

/// A live statement: its position and its action.
#[derive(Drop)]
pub struct LiveTask<'a, A: Allocator> {
    pub site: LiveStatement,
    pub live_action: LiveAction<'a, A>,
}

/// An array that a live block declares, with that block.
#[derive(Drop)]
pub struct LiveArray<'a, A: Allocator> {
    pub place: Place,
    pub block: &'a Block<A>,
}

/// The state of the round evaluation: the known facts, and the statements and arrays that are live because of them.
///
/// The first `passed` statements have been processed: the bodies of their calls are live, and the blocks that they open
/// as headers. Headers whose choice is not known yet are in `waiting`.
#[derive(Drop)]
pub struct RoundState<'a, A: Allocator> {
    pub flow: &'a Flow<A>,
    pub fact_base: FactBase,
    pub tasks: Vec<LiveTask<'a, A>>,
    pub worklist: Worklist,
    pub passed: usize,
    pub waiting: Vec<LiveTask<'a, A>>,
    pub arrays: Vec<LiveArray<'a, A>>,
}

impl<'a, A: Allocator> LiveTask<'a, A> {
    /// Returns a copy of the task.
    pub fn again(&self) -> LiveTask<'a, A>
        ensures { active_of result ≡ active_of self.now }
    {
        let live_action = match &self.live_action {
            LiveAction::Does(action) => LiveAction::Does(*action),
            LiveAction::Waits(names, content) => LiveAction::Waits(
                *names,
                BlockContent {
                    waits: content.waits,
                    block: content.block,
                },
            ),
        };
        LiveTask {
            site: self.site,
            live_action,
        }
    }
}

impl<'a, A: Allocator> RoundState<'a, A> {
    /// Creates the state in which no fact is known and only the block of the script is live.
    pub fn new(alloc: Global, flow: &'a Flow<A>) -> Result<RoundState<'a, A>, AllocError>
        ensures fact_base { IfOk result (λ state. IsFresh state.fact_base) }
        ensures tasks { IfOk result (λ state. tasks_of state ≡ all_active 0 (block_list (core_of flow.entry.now).body)) }
        ensures fresh { IfOk result (λ state. state.worklist.fresh ≡ 0) }
        ensures passed { IfOk result (λ state. (state.passed ≡ 0) × (waiting_of state ≡ [])) }
        ensures arrays { IfOk result (λ state. arrays_of state ≡ declares_here 0 (core_of flow.entry.now).body (block_list (core_of flow.entry.now).body)) }
        ensures flow { IfOk result (λ state. state.flow.now ≡ flow.entry.now) }
    {
        let mut state = RoundState {
            flow,
            fact_base: FactBase::new(alloc)?,
            tasks: Vec::new(alloc),
            worklist: Worklist::new(alloc),
            passed: 0,
            waiting: Vec::new(alloc),
            arrays: Vec::new(alloc),
        };
        state.add_block(0, &[], &flow.body)?;
        Ok(state)
    }

    /// Makes the statements of a block live in an instance.
    pub fn add_block(
        &mut self,
        instance: usize,
        waits: &'a [Header<A>],
        block: &'a Block<A>,
    ) -> Result<(), AllocError>
        ensures tasks { OnOk result (tasks_of self.new
            ≡ tasks_of self.old ++ all_active instance (block_list (waits_around waits.entry.now (block_view block.entry.now)))) }
        ensures worklist { self.new.worklist ≡ self.old.worklist }
        ensures arrays { OnOk result (let inside = waits_around waits.entry.now (block_view block.entry.now) in arrays_of self.new
            ≡ arrays_of self.old ++ declares_here instance inside (block_list inside)) }
        ensures fact_base { self.new.fact_base ≡ self.old.fact_base }
        ensures flow { self.new.flow.now ≡ self.old.flow.now }
        ensures passed { self.new.passed ≡ self.old.passed }
        ensures waiting { waiting_of self.new ≡ waiting_of self.old }
    {
        match waits {
            [] => self.add_statements(instance, block),
            [wait, inner @ ..] => self.add_task(
                LiveStatement {
                    instance,
                    at: wait.at,
                    node: wait.node,
                },
                LiveAction::Waits(
                    wait.names.as_slice(),
                    BlockContent {
                        waits: inner,
                        block,
                    },
                ),
            ),
        }
    }

    fn add_statements(&mut self, instance: usize, block: &'a Block<A>) -> Result<(), AllocError>
        ensures tasks { OnOk result (tasks_of self.new ≡ tasks_of self.old ++ all_active instance (block_list (block_view block.entry.now))) }
        ensures worklist { self.new.worklist ≡ self.old.worklist }
        ensures arrays { OnOk result (arrays_of self.new
            ≡ arrays_of self.old ++ declares_here instance (block_view block.entry.now) (block_list (block_view block.entry.now))) }
        ensures fact_base { self.new.fact_base ≡ self.old.fact_base }
        ensures flow { self.new.flow.now ≡ self.old.flow.now }
        ensures passed { self.new.passed ≡ self.old.passed }
        ensures waiting { waiting_of self.new ≡ waiting_of self.old }
    {
        let never_closed = never_closed_nodes(*self.tasks.allocator(), block)?;
        for statement in &block.statements {
            self.add_statement(instance, block, &never_closed, statement)?;
        }
        Ok(())
    }

    fn add_statement(
        &mut self,
        instance: usize,
        block: &'a Block<A>,
        never_closed: &HashSet<u32>,
        statement: &'a Statement<A>,
    ) -> Result<(), AllocError>
        requires { (n : ℕ) → contains nat_eq never_closed.now n ≡ never_in no_calls (local n) (block_view block.now) }
        ensures tasks { OnOk result (tasks_of self.new ≡ tasks_of self.old ++ active instance (statement_view statement.entry.now) ∷ []) }
        ensures worklist { self.new.worklist ≡ self.old.worklist }
        ensures arrays { OnOk result (arrays_of self.new
            ≡ arrays_of self.old ++ declares_here instance (block_view block.entry.now) (statement_view statement.entry.now ∷ [])) }
        ensures fact_base { self.new.fact_base ≡ self.old.fact_base }
        ensures flow { self.new.flow.now ≡ self.old.flow.now }
        ensures passed { self.new.passed ≡ self.old.passed }
        ensures waiting { waiting_of self.new ≡ waiting_of self.old }
    {
        add_declared(
            &mut self.arrays,
            instance,
            block,
            never_closed,
            &statement.action,
        )?;
        let site = LiveStatement {
            instance,
            at: statement.at,
            node: statement.node,
        };
        self.add_task(site, action_of(&statement.action))
    }

    fn add_task(
        &mut self,
        site: LiveStatement,
        live_action: LiveAction<'a, A>,
    ) -> Result<(), AllocError>
        ensures tasks { OnOk result (tasks_of self.new ≡ tasks_of self.old ++ active site.instance (stmt site.at site.node (deed_view live_action.entry)) ∷ []) }
        ensures worklist { self.new.worklist ≡ self.old.worklist }
        ensures arrays { arrays_of self.new ≡ arrays_of self.old }
        ensures fact_base { self.new.fact_base ≡ self.old.fact_base }
        ensures flow { self.new.flow.now ≡ self.old.flow.now }
        ensures passed { self.new.passed ≡ self.old.passed }
        ensures waiting { waiting_of self.new ≡ waiting_of self.old }
    {
        let task = LiveTask { site, live_action };
        self.tasks.push(task)?;
        Ok(())
    }
}

/// Appends a variable that a block declares, unless it never closes. A variable that every choice of branches assigns
/// as a scalar never closes.
fn add_declared<'a, A: Allocator>(
    arrays: &mut Vec<LiveArray<'a, A>>,
    instance: usize,
    block: &'a Block<A>,
    never_closed: &HashSet<u32>,
    action: &'a Action<A>,
) -> Result<(), AllocError>
    requires { (n : ℕ) → contains nat_eq never_closed.now n ≡ never_in no_calls (local n) (block_view block.now) }
    ensures { OnOk result (map candidate_of arrays.new.items
        ≡ map candidate_of arrays.old.items ++ declares_here_by instance (block_view block.entry.now) (action_view action.entry.now)) }
{
    match action {
        Action::Declare(variable) => add_array(
            arrays,
            instance,
            block,
            never_closed,
            variable.node,
        ),
        Action::Call { .. }
        | Action::Assign { .. }
        | Action::Fill { .. }
        | Action::Insert { .. }
        | Action::Print { .. }
        | Action::Assert { .. }
        | Action::When { .. }
        | Action::Choose { .. }
        | Action::Range { .. }
        | Action::Each { .. }
        | Action::Wait { .. } => Ok(()),
    }
}

fn add_array<'a, A: Allocator>(
    arrays: &mut Vec<LiveArray<'a, A>>,
    instance: usize,
    block: &'a Block<A>,
    never_closed: &HashSet<u32>,
    node: u32,
) -> Result<(), AllocError>
    requires { (n : ℕ) → contains nat_eq never_closed.now n ≡ never_in no_calls (local n) (block_view block.now) }
    ensures { OnOk result (map candidate_of arrays.new.items
        ≡ map candidate_of arrays.old.items ++ unless_never instance (block_view block.entry.now) node
        (never_in no_calls (local node) (block_view block.entry.now))) }
{
    if !never_closed.contains(&node) {
        arrays.push(LiveArray {
            place: Place { instance, node },
            block,
        })?;
    }
    Ok(())
}

/// Returns the action of a statement. A `wait` is split into its names and its content.
fn action_of<A: Allocator>(action: &Action<A>) -> LiveAction<'_, A>
    ensures { deed_view result ≡ action_view action.entry.now }
{
    match action {
        Action::Wait {
            names,
            inner,
            content,
        } => LiveAction::Waits(
            names.as_slice(),
            BlockContent {
                waits: inner.as_slice(),
                block: content,
            },
        ),
        other => LiveAction::Does(other),
    }
}
