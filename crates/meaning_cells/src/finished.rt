//! Test whether the statements of a block are finished for an array, that is, can write it no more.
//!
//! A depth-first traversal visits the blocks that the given block opens and calls. Pending blocks are on a stack.
ghost use Rattle.std.specs.Prelude.{◌≡◌, ◌<◌, ◌++◌, ◌∷◌, [], is_some, map, slice_get, IfOk, IsTrue, OnOk, ◌↔◌};
ghost use Rattle.flow.specs.View.{action_view, awaited_view, block_view, call_view, core_of, name_view, names_view, owned_view, statement_view, waits_around};
ghost use Rattle.meaning_cells.specs.Chosen.{choice_view, count_in, have_come_in, key_in};
ghost use Rattle.meaning_cells.specs.Ending.{action_goals, behind, child_goals, function_goals, goals_in, header_goals, goals_of, is_inserted_in, IsDone, output_goals, statement_goals, task_goal, turn_goals, where_aimed, where_so};
ghost use Rattle.meaning_facts.specs.Paths.{child_at};
ghost use Rattle.meaning_facts.specs.Sighted.{sight_of};
ghost use Rattle.meaning_facts.specs.Store.{value_at};
ghost use Rattle.meaning_cells.specs.Targeted.{aims_in};

use crate::choices::{Choice, block_of, choice_of, have_come};
use crate::targets::{is_same, is_target, is_target_in};
use flow::cell::Call;
use flow::name::{Name, NameBinding};
use flow::script::Flow;
use flow::statement::{Action, Block, Header, Statement};
use meaning_facts::fact_base::FactBase;
use meaning_facts::facts::Place;
use std::alloc::{AllocError, Allocator, Global};
use values::key::{Key, KeyRef};

/// A block in an instance, and the variable for which its statements have to be finished.
#[derive(Drop)]
pub struct BlockToFinish<'b, A: Allocator> {
    pub instance: usize,
    pub what: NameBinding,
    pub block: &'b Block<A>,
}

/// A pending block of the traversal, nested in waits.
#[derive(Drop)]
pub struct PendingBlock<'b, A: Allocator> {
    pub instance: usize,
    pub what: NameBinding,
    pub inner: &'b [Header<A>],
    pub block: &'b Block<A>,
}

/// Returns true if each statement of a block, and of the blocks that it opens and calls, is finished for a variable.
pub fn is_finished<'b, A: Allocator>(
    fact_base: &FactBase,
    alloc: Global,
    flow: &'b Flow<A>,
    body: BlockToFinish<'b, A>,
) -> Result<bool, AllocError>
    ensures { IfOk result (λ yes. IsTrue yes ↔ IsDone (core_of flow.now) fact_base.now
        (record { instance = body.entry.instance; what = owned_view body.entry.what; block = block_view body.entry.block.now })) }
{
    let mut tasks = Vec::new(alloc);
    tasks.push(PendingBlock {
        instance: body.instance,
        what: body.what,
        inner: &[],
        block: body.block,
    })?;
    for _ in 0..usize::MAX {
        let Some(task) = tasks.pop() else {
            return Ok(true);
        };
        if !add_task(fact_base, alloc, flow, task, &mut tasks)? {
            return Ok(false);
        }
    }
    Err(AllocError)
}

/// Pushes the blocks that have to be finished before this one is. Returns false if a statement of it is not finished.
fn add_task<'b, A: Allocator>(
    fact_base: &FactBase,
    alloc: Global,
    flow: &'b Flow<A>,
    task: PendingBlock<'b, A>,
    tasks: &mut Vec<PendingBlock<'b, A>>,
) -> Result<bool, AllocError>
    ensures { IfOk result (λ yes. where_so yes (goals_of tasks.new.items)
        ≡ behind (goals_of tasks.old.items) (goals_in (core_of flow.now) fact_base.now (task_goal task.entry).instance (task_goal task.entry).what
        (task_goal task.entry).block)) }
{
    match task.inner.split_first() {
        Some((header, inner)) => add_waiting(
            fact_base,
            task.instance,
            task.what,
            header,
            inner,
            task.block,
            tasks,
        ),
        None => add_unfinished(
            fact_base,
            alloc,
            flow,
            task.instance,
            task.what,
            task.block,
            tasks,
        ),
    }
}

/// Pushes the blocks that have to be finished before the statements of a block are. Returns false if one of the
/// statements is not finished.
fn add_unfinished<'b, A: Allocator>(
    fact_base: &FactBase,
    alloc: Global,
    flow: &'b Flow<A>,
    instance: usize,
    what: NameBinding,
    block: &'b Block<A>,
    tasks: &mut Vec<PendingBlock<'b, A>>,
) -> Result<bool, AllocError>
    ensures { IfOk result (λ yes. where_so yes (goals_of tasks.new.items)
        ≡ behind (goals_of tasks.old.items) (goals_in (core_of flow.now) fact_base.now instance (owned_view what) (block_view block.now))) }
{
    for statement in &block.statements {
        if !add_statement(fact_base, alloc, flow, instance, what, statement, tasks)? {
            return Ok(false);
        }
    }
    Ok(true)
}

/// Pushes the blocks that have to be finished before a statement is. Returns false if the statement itself is not
/// finished.
#[tactic(auto, using(crate::proofs::Ending::view_goals))]
fn add_statement<'b, A: Allocator>(
    fact_base: &FactBase,
    alloc: Global,
    flow: &'b Flow<A>,
    instance: usize,
    what: NameBinding,
    statement: &'b Statement<A>,
    tasks: &mut Vec<PendingBlock<'b, A>>,
) -> Result<bool, AllocError>
    ensures { IfOk result (λ yes. where_so yes (goals_of tasks.new.items)
        ≡ behind (goals_of tasks.old.items) (statement_goals (core_of flow.now) fact_base.now instance (owned_view what) (statement_view statement.now))) }
{
    if !is_target(what, &statement.action) {
        return Ok(true);
    }
    let writer = Place {
        instance,
        node: statement.node,
    };
    add_target(
        fact_base,
        alloc,
        flow,
        writer,
        statement.at,
        what,
        &statement.action,
        tasks,
    )
}

/// Pushes the blocks that have to be finished before a statement with the variable as a target is. `writer` is the
/// place of the statement, `at` its offset. Returns false if the statement itself is not finished.
fn add_target<'b, A: Allocator>(
    fact_base: &FactBase,
    alloc: Global,
    flow: &'b Flow<A>,
    writer: Place,
    at: usize,
    what: NameBinding,
    action: &'b Action<A>,
    tasks: &mut Vec<PendingBlock<'b, A>>,
) -> Result<bool, AllocError>
    ensures { IfOk result (λ yes. where_so yes (goals_of tasks.new.items)
        ≡ behind (goals_of tasks.old.items) (action_goals (core_of flow.now) fact_base.now writer.instance (owned_view what) at writer.node
        (action_view action.now))) }
{
    let instance = writer.instance;
    match action {
        Action::Fill { right, .. } => Ok(is_known(fact_base, instance, right.cell.node)),
        Action::Insert { array, index, .. } => Ok(is_inserted(
            fact_base,
            *array,
            index.cell.node,
            writer,
        )),
        Action::Call { call, .. } => add_called(fact_base, flow, instance, what, call, tasks),
        Action::When { .. } => add_chosen(fact_base, alloc, instance, at, what, action, tasks),
        Action::Choose { .. } => add_chosen(fact_base, alloc, instance, at, what, action, tasks),
        Action::Range { .. } => add_chosen(fact_base, alloc, instance, at, what, action, tasks),
        Action::Each { .. } => add_chosen(fact_base, alloc, instance, at, what, action, tasks),
        Action::Wait {
            names,
            inner,
            content,
        } => add_content(
            fact_base,
            instance,
            what,
            names.as_slice(),
            inner.as_slice(),
            content,
            tasks,
        ),
        Action::Declare(_) => Ok(false),
        Action::Assign { .. } => Ok(false),
        Action::Print { .. } => Ok(false),
        Action::Assert { .. } => Ok(false),
    }
}

/// Pushes the content of a nested `wait`, if the variable is a target there. Returns false if an input of that `wait`
/// is not known.
fn add_waiting<'b, A: Allocator>(
    fact_base: &FactBase,
    instance: usize,
    what: NameBinding,
    header: &Header<A>,
    inner: &'b [Header<A>],
    block: &'b Block<A>,
    tasks: &mut Vec<PendingBlock<'b, A>>,
) -> Result<bool, AllocError>
    ensures { IfOk result (λ yes. where_so yes (goals_of tasks.new.items)
        ≡ behind (goals_of tasks.old.items) (where_aimed (aims_in (owned_view what) (block_view block.now))
        (where_so (have_come_in (sight_of fact_base.now instance) (map awaited_view header.now.names.items))
        (record { instance = instance; what = owned_view what; block = waits_around inner.now (block_view block.now) } ∷ [])))) }
{
    if !is_target_in(what, block) {
        return Ok(true);
    }
    let names = header.names.as_slice();
    add_content(fact_base, instance, what, names, inner, block, tasks)
}

/// Pushes the content of a `wait`. Returns false if one of its inputs is not known.
fn add_content<'b, A: Allocator>(
    fact_base: &FactBase,
    instance: usize,
    what: NameBinding,
    names: &[Name],
    inner: &'b [Header<A>],
    block: &'b Block<A>,
    tasks: &mut Vec<PendingBlock<'b, A>>,
) -> Result<bool, AllocError>
    ensures { IfOk result (λ yes. where_so yes (goals_of tasks.new.items)
        ≡ behind (goals_of tasks.old.items) (where_so (have_come_in (sight_of fact_base.now instance) (map awaited_view names.now))
        (record { instance = instance; what = owned_view what; block = waits_around inner.now (block_view block.now) } ∷ []))) }
{
    if !have_come(fact_base, instance, names) {
        return Ok(false);
    }
    tasks.push(PendingBlock {
        instance,
        what,
        inner,
        block,
    })?;
    Ok(true)
}

/// Pushes the blocks that a header opens. Returns false if its choice is not known or one of the blocks is not live.
fn add_chosen<'b, A: Allocator>(
    fact_base: &FactBase,
    alloc: Global,
    instance: usize,
    at: usize,
    what: NameBinding,
    action: &'b Action<A>,
    tasks: &mut Vec<PendingBlock<'b, A>>,
) -> Result<bool, AllocError>
    ensures { IfOk result (λ yes. where_so yes (goals_of tasks.new.items)
        ≡ behind (goals_of tasks.old.items) (header_goals fact_base.now instance (owned_view what) at (action_view action.now))) }
{
    let Some(choice) = choice_of(fact_base, alloc, instance, action)? else {
        return Ok(false);
    };
    let Some(block) = block_of(action, &choice) else {
        return Ok(false);
    };
    add_opened(fact_base, instance, at, what, block, &choice, tasks)
}

/// Pushes the block of each key of a choice. Returns false if one of them is not live.
fn add_opened<'b, A: Allocator>(
    fact_base: &FactBase,
    instance: usize,
    at: usize,
    what: NameBinding,
    block: &'b Block<A>,
    choice: &Choice,
    tasks: &mut Vec<PendingBlock<'b, A>>,
) -> Result<bool, AllocError>
    ensures { IfOk result (λ yes. where_so yes (goals_of tasks.new.items) ≡ behind (goals_of tasks.old.items)
        (turn_goals fact_base.now instance (owned_view what) at (block_view block.now) (choice_view choice.now) 0 (count_in (choice_view choice.now)))) }
{
    for i in 0..choice.count() {
        let key = key_at(choice, i)?;
        if !add_child(fact_base, instance, at, what, &key, block, tasks)? {
            return Ok(false);
        }
    }
    Ok(true)
}

/// Returns the key of a turn. An index of 2^63 or more counts as an allocation failure.
fn key_at(choice: &Choice, i: u64) -> Result<Key, AllocError>
    ensures { IfOk result (λ key. i < count_in (choice_view choice.now) → key ≡ key_in (choice_view choice.now) i) }
{
    match i64::try_from(i) {
        Ok(_) => choice.key(i),
        Err(_) => Err(AllocError),
    }
}

/// Pushes the block that is opened at a step. Returns false if it is not live.
fn add_child<'b, A: Allocator>(
    fact_base: &FactBase,
    instance: usize,
    at: usize,
    what: NameBinding,
    key: &Key,
    block: &'b Block<A>,
    tasks: &mut Vec<PendingBlock<'b, A>>,
) -> Result<bool, AllocError>
    ensures { IfOk result (λ yes. where_so yes (goals_of tasks.new.items)
        ≡ behind (goals_of tasks.old.items) (child_goals (child_at fact_base.now.instances instance at key.now) (owned_view what) (block_view block.now))) }
{
    let Some(child) = fact_base.instances.child(instance, at, key) else {
        return Ok(false);
    };
    tasks.push(PendingBlock {
        instance: child,
        what,
        inner: &[],
        block,
    })?;
    Ok(true)
}

/// Pushes the body of a call, once for each output that is bound to the variable. Returns false if the body is not
/// live.
fn add_called<'b, A: Allocator>(
    fact_base: &FactBase,
    flow: &'b Flow<A>,
    instance: usize,
    what: NameBinding,
    call: &Call<A>,
    tasks: &mut Vec<PendingBlock<'b, A>>,
) -> Result<bool, AllocError>
    ensures { IfOk result (λ yes. where_so yes (goals_of tasks.new.items) ≡ behind (goals_of tasks.old.items)
        (function_goals fact_base.now instance (owned_view what) (call_view call.now) (slice_get (core_of flow.now).functions call.now.function))) }
{
    let Some(function) = flow.functions.get(call.function) else {
        return Ok(!fact_base.instances.is_deep(instance));
    };
    let Some(child) = fact_base
        .instances
        .child(instance, call.at, &Key::Number(0))
    else {
        return Ok(false);
    };
    add_body(child, what, call.outputs.as_slice(), &function.body, tasks)?;
    Ok(true)
}

fn add_body<'b, A: Allocator>(
    child: usize,
    what: NameBinding,
    outputs: &[Name],
    block: &'b Block<A>,
    tasks: &mut Vec<PendingBlock<'b, A>>,
) -> Result<(), AllocError>
    ensures { OnOk result (goals_of tasks.new.items ≡ goals_of tasks.old.items
        ++ output_goals child (owned_view what) (block_view block.now) 0 (names_view outputs.now)) }
{
    for i in 0..outputs.len() {
        let output = &outputs[i];
        add_output(child, what, *output, i, block, tasks)?;
    }
    Ok(())
}

/// Pushes the body of a call for one output, if the output is bound to the variable.
fn add_output<'b, A: Allocator>(
    child: usize,
    what: NameBinding,
    output: Name,
    i: usize,
    block: &'b Block<A>,
    tasks: &mut Vec<PendingBlock<'b, A>>,
) -> Result<(), AllocError>
    ensures { OnOk result (goals_of tasks.new.items ≡ goals_of tasks.old.items
        ++ output_goals child (owned_view what) (block_view block.now) i (name_view output ∷ [])) }
{
    if is_same(output.what, what) {
        tasks.push(PendingBlock {
            instance: child,
            what: NameBinding::Output(i),
            inner: &[],
            block,
        })?;
    }
    Ok(())
}

/// Returns true if the value of a cell is known.
pub fn is_known(fact_base: &FactBase, instance: usize, node: u32) -> bool
    ensures { result ≡ is_some (value_at fact_base.now.facts (record { instance = instance; node = node })) }
{
    fact_base.facts.value(Place { instance, node }).is_some()
}

/// Returns true if a statement has written its element.
pub fn is_inserted(fact_base: &FactBase, array: Name, index: u32, writer: Place) -> bool
    ensures { result ≡ is_inserted_in fact_base.now writer.instance (name_view array) index writer.node }
{
    let place = fact_base.instances.place(writer.instance, array);
    let cell = Place {
        instance: writer.instance,
        node: index,
    };
    let Some(value) = fact_base.facts.value(cell) else {
        return false;
    };
    match KeyRef::of_value(value) {
        Some(key) => fact_base.facts.is_written_by(place, key, writer),
        None => false,
    }
}
