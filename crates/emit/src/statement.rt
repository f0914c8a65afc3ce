//! Emission of statements and blocks.
ghost use Rattle.std.specs.Prelude.{◌≡◌, ◌&&◌, ◌∷◌, ◌++◌, [], map, not, option_map, IfOk, OnOk};
ghost use Rattle.language.specs.Core as core;
ghost use Rattle.std.specs.List.{flat_map};
ghost use Rattle.flow.specs.Shapes.{action_declared, block_declared, is_array};
ghost use Rattle.flow.specs.View.{action_view, awaited_view, block_view, call_view, name_view, outer_view, parts_view, waits_around};
ghost use Rattle.flow.specs.Cells.{action_anchors, block_anchors, outer_anchors, parts_anchors, range_anchors, statement_anchors};
ghost use Rattle.task_code.specs.View.{variable_view};
ghost use Rattle.code_rules.specs.IsCodeOf.{own_priority};
ghost use Rattle.emit_statements.specs.Blocks.{range_action};
ghost use Rattle.emit_statements.specs.Doing.{action_of};
ghost use Rattle.wait_merge.specs.Merged.{action_seen, block_seen};
ghost use Rattle.emit.specs.Emits.{AddsMarks, EmitsAction, EmitsInner, EmitsMerged, EmitsOne, EmitsOwn, EmitsStatements, state_of, state_with};

use crate::body::{add_body, empty};
use crate::emitter::Emitter;
use emit_cells::entries::StatementContext;
use emit_statements::block_builder::BlockBuilder;
use emit_statements::loops::{loop_filling, loop_of};
use emit_statements::own::{StatementAt, ValueUse};
use flow::cell::{Call, CellPart, OuterCell};
use flow::name::Name;
use flow::script::Function;
use flow::statement::{Action, Block, Header, Range, Statement, Variable};
use std::alloc::{AllocError, Allocator};
use std::mem;
use task_code::body_numbers::next;
use task_code::code::Opener;
use task_code::entry;

/// Returns the statement with this priority.
fn with_priority(statement: StatementAt, priority: i32) -> StatementAt
    ensures { result ≡ record statement { standing = record statement.standing { priority = priority } } }
{
    let standing = StatementContext {
        at: statement.standing.at,
        priority,
        inputs: statement.standing.inputs,
    };
    StatementAt {
        standing,
        node: statement.node,
    }
}

/// Declares a variable in the block under construction.
fn declare<A: Allocator>(
    filling: &mut BlockBuilder,
    variable: &Variable<A>,
) -> Result<(), AllocError>
    ensures entries { OnOk result (filling.new.entries ≡ filling.old.entries) }
    ensures makes { OnOk result (map variable_view filling.new.makes.items
        ≡ map variable_view filling.old.makes.items ++ record { node = variable.now.node; array = is_array variable.now.shape } ∷ []) }
{
    filling.makes.push(entry::Variable {
        node: variable.node,
        array: variable.is_array(),
    })?;
    Ok(())
}

impl Emitter {
    /// Emits a block nested in the block under construction, and returns its finished contents.
    ///
    /// `filling` has the initial contents: the variables of a loop, or nothing. The enclosing block is restored
    /// afterwards.
    #[cycle(statement)]
    pub fn block<A: Allocator>(
        &mut self,
        functions: &Vec<Function<A>, A>,
        inputs: usize,
        filling: BlockBuilder,
        block: &Block<A>,
    ) -> Result<BlockBuilder, AllocError>
        ensures laid { IfOk result (λ inside. EmitsInner functions.now.items inputs block.now (state_with self.old filling) (state_with self.new inside)) }
        ensures around { OnOk result (self.new.writer.filling ≡ self.old.writer.filling) }
        ensures marks { OnOk result (AddsMarks self.old self.new (block_anchors block.now)) }
    {
        let around = mem::replace(&mut self.writer.filling, filling);
        self.each_statement(functions, inputs, &block.statements)?;
        Ok(mem::replace(&mut self.writer.filling, around))
    }

    /// Emits statements in order.
    #[cycle(statement)]
    fn each_statement<A: Allocator>(
        &mut self,
        functions: &Vec<Function<A>, A>,
        inputs: usize,
        statements: &Vec<Statement<A>, A>,
    ) -> Result<(), AllocError>
        ensures laid { OnOk result (EmitsStatements functions.now.items inputs statements.now.items (state_of self.old) (state_of self.new)) }
        ensures marks { OnOk result (AddsMarks self.old self.new (flat_map statement_anchors statements.now.items)) }
    {
        for one in statements {
            self.statement(functions, inputs, one)?;
        }
        Ok(())
    }

    /// Emits a statement at the end of its block.
    #[cycle(statement)]
    fn statement<A: Allocator>(
        &mut self,
        functions: &Vec<Function<A>, A>,
        inputs: usize,
        one: &Statement<A>,
    ) -> Result<(), AllocError>
        ensures laid { OnOk result (EmitsOne functions.now.items inputs one.now (state_of self.old) (state_of self.new)) }
        ensures marks { OnOk result (AddsMarks self.old self.new (statement_anchors one.now)) }
    {
        let standing = StatementContext {
            at: one.at,
            priority: 0,
            inputs,
        };
        let statement = StatementAt {
            standing,
            node: one.node,
        };
        self.action(functions, statement, &one.action)
    }

    /// Emits the action of a statement. A statement without a priority of its own has priority 0.
    #[cycle(statement)]
    fn action<A: Allocator>(
        &mut self,
        functions: &Vec<Function<A>, A>,
        statement: StatementAt,
        action: &Action<A>,
    ) -> Result<(), AllocError>
        ensures laid { OnOk result (EmitsMerged functions.now.items statement (action_view action.now)
            (action_seen action.now).merged (action_declared action.now) self.old self.new) }
        ensures marks { OnOk result (AddsMarks self.old self.new (action_anchors action.now)) }
    {
        match action {
            Action::Declare(variable) => declare(&mut self.writer.filling, variable),
            Action::Call {
                priority,
                parts,
                call,
            } => self.call(functions, with_priority(statement, *priority), parts, call),
            Action::Assign { target, right } => {
                self.own(functions, statement, ValueUse::Set(*target), right)
            }
            Action::Fill { array, right } => {
                self.own(functions, statement, ValueUse::Fill(*array), right)
            }
            Action::Insert {
                array,
                index,
                right,
            } => self.insert(functions, statement, *array, index, right),
            Action::Print { priority, line } => {
                self.own(
                    functions,
                    with_priority(statement, *priority),
                    ValueUse::Print,
                    line,
                )
            }
            Action::Assert { priority, check } => {
                self.own(
                    functions,
                    with_priority(statement, *priority),
                    ValueUse::Assert,
                    check,
                )
            }
            Action::When { condition, then } => self.when(functions, statement, condition, then),
            Action::Choose {
                condition,
                then,
                other,
            } => self.choose(functions, statement, condition, then, other),
            Action::Range {
                range,
                value,
                turn,
                body,
            } => self.range(functions, statement, range, value, turn, body),
            Action::Each {
                array,
                value,
                key,
                body,
            } => self.each(functions, statement, *array, value, key, body),
            Action::Wait {
                names,
                inner,
                content,
            } => self.wait(functions, statement, names, inner, content),
        }
    }

    // STATEMENTS WITHOUT BLOCKS

    /// Emits a statement that calls a composite function.
    fn call<A: Allocator>(
        &mut self,
        functions: &Vec<Function<A>, A>,
        statement: StatementAt,
        parts: &Vec<CellPart<A>, A>,
        call: &Call<A>,
    ) -> Result<(), AllocError>
        ensures laid { OnOk result (EmitsOwn functions.now.items statement (core.call_alone statement.standing.priority
            (parts_view parts.now.items) (call_view call.now)) self.old self.new) }
        ensures marks { OnOk result (AddsMarks self.old self.new (parts_anchors parts.now.items)) }
    {
        self.writer
            .call_alone(functions, statement.standing, parts, call)
    }

    /// Emits a statement that evaluates an outermost cell in its own entry.
    fn own<A: Allocator>(
        &mut self,
        functions: &Vec<Function<A>, A>,
        statement: StatementAt,
        done: ValueUse,
        outer: &OuterCell<A>,
    ) -> Result<(), AllocError>
        ensures laid { OnOk result (statement.standing.priority ≡ own_priority (action_of done statement.standing.priority (outer_view outer.now))
            → EmitsOwn functions.now.items statement (action_of done statement.standing.priority (outer_view outer.now)) self.old self.new) }
        ensures marks { OnOk result (AddsMarks self.old self.new (outer_anchors outer.now)) }
    {
        self.writer.own(functions, statement, done, outer)
    }

    /// Emits an element write.
    fn insert<A: Allocator>(
        &mut self,
        functions: &Vec<Function<A>, A>,
        statement: StatementAt,
        array: Name,
        index: &OuterCell<A>,
        right: &OuterCell<A>,
    ) -> Result<(), AllocError>
        ensures laid { OnOk result (EmitsAction functions.now.items statement (core.insert (name_view array) (outer_view index.now) (outer_view right.now)) []
            self.old self.new) }
        ensures marks { OnOk result (AddsMarks self.old self.new (outer_anchors index.now ++ outer_anchors right.now)) }
    {
        self.writer
            .insert(functions, statement, array, index, right)
    }

    // BRANCHES

    /// Emits an `if` without `else`.
    #[cycle(statement)]
    fn when<A: Allocator>(
        &mut self,
        functions: &Vec<Function<A>, A>,
        statement: StatementAt,
        condition: &OuterCell<A>,
        then: &Block<A>,
    ) -> Result<(), AllocError>
        ensures laid { OnOk result (EmitsMerged functions.now.items statement (core.when (outer_view condition.now) (block_view then.now))
            (block_seen then.now).merged (block_declared then.now) self.old self.new) }
        ensures marks { OnOk result (AddsMarks self.old self.new (outer_anchors condition.now ++ block_anchors then.now)) }
    {
        let alloc = self.writer.alloc;
        let standing = statement.standing;
        self.writer.condition_parts(functions, standing, condition)?;
        let inside = self.block(functions, standing.inputs, empty(alloc), then)?;
        let body = self.next_body(functions);
        let number = self.writer.add_branch(statement, condition, body, None)?;
        add_body(&mut self.bodies, Opener::ByStep(number), inside)
    }

    /// Emits an `if` with `else`.
    #[cycle(statement)]
    fn choose<A: Allocator>(
        &mut self,
        functions: &Vec<Function<A>, A>,
        statement: StatementAt,
        condition: &OuterCell<A>,
        then: &Block<A>,
        other: &Block<A>,
    ) -> Result<(), AllocError>
        ensures laid { OnOk result (EmitsMerged functions.now.items statement (core.choose (outer_view condition.now) (block_view then.now) (block_view other.now))
            ((block_seen then.now).merged && (block_seen other.now).merged) (block_declared then.now ++ block_declared other.now) self.old self.new) }
        ensures marks { OnOk result (AddsMarks self.old self.new (outer_anchors condition.now ++ block_anchors then.now ++ block_anchors other.now)) }
    {
        let alloc = self.writer.alloc;
        let standing = statement.standing;
        self.writer.condition_parts(functions, standing, condition)?;
        let inside = self.block(functions, standing.inputs, empty(alloc), then)?;
        let outside = self.block(functions, standing.inputs, empty(alloc), other)?;
        let body = self.next_body(functions);
        let number = self
            .writer
            .add_branch(statement, condition, body, Some(next(body)))?;
        add_body(&mut self.bodies, Opener::ByStep(number), inside)?;
        add_body(&mut self.bodies, Opener::ByStep(number), outside)
    }

    // LOOPS

    /// Emits a `foreach` over a range.
    #[cycle(statement)]
    fn range<A: Allocator>(
        &mut self,
        functions: &Vec<Function<A>, A>,
        statement: StatementAt,
        range: &Range<A>,
        value: &Variable<A>,
        turn: &Option<Variable<A>>,
        body: &Block<A>,
    ) -> Result<(), AllocError>
        ensures laid { OnOk result (EmitsMerged functions.now.items statement (range_action range.now value.now.node
            (option_map (λ v. v.node) turn.now) (block_view body.now))
            (block_seen body.now).merged (block_declared body.now) self.old self.new) }
        ensures marks { OnOk result (AddsMarks self.old self.new (range_anchors range.now ++ block_anchors body.now)) }
    {
        let alloc = self.writer.alloc;
        let standing = statement.standing;
        self.writer.range_parts(functions, standing, range)?;
        let variables = loop_filling(alloc, value, turn)?;
        let inside = self.block(functions, standing.inputs, variables, body)?;
        let turns = loop_of(self.next_body(functions), value, turn);
        let number = self.writer.add_range(statement, range, turns)?;
        add_body(&mut self.bodies, Opener::ByStep(number), inside)
    }

    /// Emits a `foreach` over an array.
    #[cycle(statement)]
    fn each<A: Allocator>(
        &mut self,
        functions: &Vec<Function<A>, A>,
        statement: StatementAt,
        array: Name,
        value: &Variable<A>,
        key: &Option<Variable<A>>,
        body: &Block<A>,
    ) -> Result<(), AllocError>
        ensures laid { OnOk result (EmitsMerged functions.now.items statement (core.each (name_view array) value.now.node
            (option_map (λ v. v.node) key.now) (block_view body.now))
            (block_seen body.now).merged (block_declared body.now) self.old self.new) }
        ensures marks { OnOk result (AddsMarks self.old self.new (block_anchors body.now)) }
    {
        let alloc = self.writer.alloc;
        let variables = loop_filling(alloc, value, key)?;
        let inside = self.block(functions, statement.standing.inputs, variables, body)?;
        let turns = loop_of(self.next_body(functions), value, key);
        let number = self.writer.add_each(statement, array, turns)?;
        add_body(&mut self.bodies, Opener::ByStep(number), inside)
    }

    // WAITS

    /// Emits a `wait` together with the waits merged with it.
    #[cycle(statement)]
    fn wait<A: Allocator>(
        &mut self,
        functions: &Vec<Function<A>, A>,
        statement: StatementAt,
        names: &Vec<Name, A>,
        inner: &Vec<Header<A>, A>,
        content: &Block<A>,
    ) -> Result<(), AllocError>
        ensures laid { OnOk result (EmitsMerged functions.now.items statement (core.wait (map awaited_view names.now.items)
            (waits_around inner.now.items (block_view content.now)))
            (not (block_seen content.now).wait && (block_seen content.now).merged) (block_declared content.now) self.old self.new) }
        ensures marks { OnOk result (AddsMarks self.old self.new (block_anchors content.now)) }
    {
        let alloc = self.writer.alloc;
        let inside = self.block(functions, statement.standing.inputs, empty(alloc), content)?;
        let body = self.next_body(functions);
        let number = self.writer.add_wait(statement, names, inner, body)?;
        add_body(&mut self.bodies, Opener::ByWait(number), inside)
    }
}
