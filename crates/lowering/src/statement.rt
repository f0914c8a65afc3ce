//! Lowering of statements and nested blocks. Each statement is appended after those before it.
ghost use Rattle.std.specs.Prelude.{◌≡◌, ℕ, ◌++◌, ◌∷◌, [], IfOk, IsOkAnd, OnOk, map, option_map};
ghost use Rattle.std.specs.List.{flat_map};
ghost use Rattle.language.specs.Core as core;
ghost use Rattle.language.specs.Tree as trees;
ghost use Rattle.language.specs.Resolved as rules;
ghost use Rattle.syntax_trees.specs.View.{word_of, words_view, expression_view, declaration_of, right_of, over_of, range_of, statement_view, command_view, body_view};
ghost use Rattle.types.specs.Typed.{table_of};
ghost use Rattle.flow.specs.View as seen;
ghost use Rattle.flow.specs.View.{action_view, block_view, name_view, outer_view, statements_view};
ghost use Rattle.lowering.specs.View.{statement_alone, command_alone, statements_among};
ghost use Rattle.flow.specs.Shapes.{action_declared, block_declared, is_array};
ghost use Rattle.language_accepted.specs.Types.{statement_declarations, command_declarations, body_declarations};
ghost use Rattle.lowering.specs.Shapes.{among, declared_by, flagged};
ghost use Rattle.flow.specs.Cells.{AreAmong, action_anchors, block_anchors, range_anchors, statement_anchors, step_anchors};
ghost use Rattle.flow.specs.Listed as shows;
ghost use Rattle.flow.specs.Listed.{action_listed, block_listed, declares, other, whole};
ghost use Rattle.lowering.specs.View.{as_declared, variable_of};
ghost use Rattle.lowering.specs.Listed.{all_listed, body_listed, command_listed, listed, listed_by};
ghost use Rattle.lowering.specs.Nodes.{StatementsStand, body_nodes, command_nodes, expression_nodes, maybe_nodes, nodes_among, over_nodes, statement_nodes};

use crate::names::{all, optional, refer, variable};
use crate::right::{assignment, boxed_outer, outer, several, statement_call};
use flow::cell::OuterCell;
use flow::name::{Name, NameBinding};
use flow::statement::{Action, Block, Range, Statement};
use lexer::token::Span;
use std::alloc::{AllocError, Allocator};
use syntax_trees::tree::{self, Decl, Expr, Header, Right, Shape, Source, Stmt, StmtKind};
use types::typed::Typed;

/// Appends a statement.
fn add<A: Allocator>(
    found: &mut Vec<Statement<A>, A>,
    node: u32,
    at: usize,
    action: Action<A>,
) -> Result<(), AllocError>
    ensures core { OnOk result (statements_view found.new.items ≡ statements_view found.old.items ++ core.stmt at node (action_view action) ∷ []) }
    ensures declared { OnOk result (declared_by found.new.items ≡ declared_by found.old.items ++ action_declared action) }
    ensures listed { OnOk result (listed_by found.new.items ≡ listed_by found.old.items ++ action_listed action ∷ []) }
    ensures cells { OnOk result (StatementsStand found.old.items found.new.items (action_anchors action)) }
{
    found.push(Statement { at, node, action })?;
    Ok(())
}

/// Appends a statement if its action was created, otherwise returns the error.
fn add_made<A: Allocator>(
    found: &mut Vec<Statement<A>, A>,
    node: u32,
    at: usize,
    action: Result<Action<A>, AllocError>,
) -> Result<(), AllocError>
    ensures core { OnOk result (IsOkAnd action (λ a. statements_view found.new.items
        ≡ statements_view found.old.items ++ core.stmt at node (action_view a) ∷ [])) }
    ensures declared { OnOk result (IsOkAnd action (λ a. declared_by found.new.items ≡ declared_by found.old.items ++ action_declared a)) }
    ensures listed { OnOk result (IsOkAnd action (λ a. listed_by found.new.items ≡ listed_by found.old.items ++ action_listed a ∷ [])) }
    ensures cells { OnOk result (IsOkAnd action (λ a. StatementsStand found.old.items found.new.items (action_anchors a))) }
{
    match action {
        Ok(action) => add(found, node, at, action),
        Err(refusal) => Err(refusal),
    }
}

// DECLARATIONS

/// Creates the name of a variable in the block that declares it.
fn own_name<A: Allocator>(decl: &Decl<A>) -> Name
    ensures name { name_view result ≡ core.here decl.now.name.number }
    ensures shape { result.shape ≡ decl.now.shape }
{
    Name {
        up: 0,
        what: NameBinding::Local(decl.name.number),
        shape: decl.shape,
    }
}

/// Appends a declaration. A declaration with a right side becomes two statements.
fn declaration<A: Allocator + Clone>(
    alloc: &A,
    typed: &Typed,
    number: u32,
    first: Span,
    decl: &Decl<A>,
    right: &Option<Right<A>>,
    found: &mut Vec<Statement<A>, A>,
) -> Result<(), AllocError>
    ensures core { OnOk result ((to : ℕ) → statements_view found.new.items
        ≡ statements_view found.old.items ++ command_alone (table_of typed.now) (record { number = number; first = first; to = to })
        (trees.declare (declaration_of decl.now) (option_map right_of right.now))) }
    ensures declared { OnOk result (declared_by found.new.items ≡ declared_by found.old.items ++ (decl.now.name.number, is_array decl.now.shape) ∷ []) }
    ensures listed { OnOk result (listed_by found.new.items
        ≡ listed_by found.old.items ++ command_listed (trees.declare (declaration_of decl.now) (option_map right_of right.now))) }
    ensures cells { OnOk result (StatementsStand found.old.items found.new.items
        (command_nodes (trees.declare (declaration_of decl.now) (option_map right_of right.now)))) }
{
    let variable = variable(alloc, &decl.name, decl.shape)?;
    add(found, number, first.from, Action::Declare(variable))?;
    match right {
        None => Ok(()),
        Some(right) => {
            let action = assignment(alloc, typed, own_name(decl), right)?;
            add(found, number, first.from, action)
        }
    }
}

// ELEMENTS AND RANGES

/// Returns the action that assigns an element of an array.
fn insert<A: Allocator + Clone>(
    alloc: &A,
    typed: &Typed,
    name: &tree::Name<A>,
    index: &Expr<A>,
    value: &Expr<A>,
) -> Result<Action<A>, AllocError>
    ensures core { IfOk result (λ a. let t = table_of typed.now in action_view a
        ≡ core.insert (rules.refers t (word_of name.now)) (rules.outer t (expression_view index.now)) (rules.outer t (expression_view value.now))) }
    ensures declared { IfOk result (λ a. action_declared a ≡ []) }
    ensures listed { IfOk result (λ a. action_listed a ≡ other []) }
    ensures cells { IfOk result (λ a. AreAmong (action_anchors a) (expression_nodes (expression_view index.now) ++ expression_nodes (expression_view value.now))) }
{
    let index = boxed_outer(alloc, typed, index)?;
    let right = boxed_outer(alloc, typed, value)?;
    Ok(Action::Insert {
        array: refer(typed, name),
        index,
        right,
    })
}

/// Converts the step of a range, if there is one.
fn step<A: Allocator + Clone>(
    alloc: &A,
    typed: &Typed,
    step: &Option<Expr<A>>,
) -> Result<Option<OuterCell<A>>, AllocError>
    ensures outer { IfOk result (λ o. option_map outer_view o ≡ option_map (rules.outer (table_of typed.now)) (option_map expression_view step.now)) }
    ensures cells { IfOk result (λ o. AreAmong (step_anchors o) (maybe_nodes expression_nodes (option_map expression_view step.now))) }
{
    match step {
        None => Ok(None),
        Some(expr) => Ok(Some(outer(alloc, typed, expr)?)),
    }
}

/// Converts a range.
fn range<A: Allocator + Clone>(
    alloc: &A,
    typed: &Typed,
    range: &tree::Range<A>,
) -> Result<Range<A>, AllocError>
    ensures low { IfOk result (λ r. outer_view r.low ≡ rules.outer (table_of typed.now) (expression_view range.now.low)) }
    ensures high { IfOk result (λ r. outer_view r.high ≡ rules.outer (table_of typed.now) (expression_view range.now.high)) }
    ensures step { IfOk result (λ r. option_map outer_view r.step ≡ option_map (rules.outer (table_of typed.now)) (option_map expression_view range.now.step)) }
    ensures cells { IfOk result (λ r. AreAmong (range_anchors r) (over_nodes (range_of range.now))) }
{
    let low = outer(alloc, typed, &range.low)?;
    let high = outer(alloc, typed, &range.high)?;
    let step = step(alloc, typed, &range.step)?;
    Ok(Range { low, high, step })
}

/// Converts a range into a boxed range.
fn boxed_range<A: Allocator + Clone>(
    alloc: &A,
    typed: &Typed,
    over: &tree::Range<A>,
) -> Result<Box<Range<A>, A>, AllocError>
    ensures low { IfOk result (λ r. outer_view r.value.low ≡ rules.outer (table_of typed.now) (expression_view over.now.low)) }
    ensures high { IfOk result (λ r. outer_view r.value.high ≡ rules.outer (table_of typed.now) (expression_view over.now.high)) }
    ensures step { IfOk result (λ r. option_map outer_view r.value.step
        ≡ option_map (rules.outer (table_of typed.now)) (option_map expression_view over.now.step)) }
    ensures cells { IfOk result (λ r. AreAmong (range_anchors r.value) (over_nodes (range_of over.now))) }
{
    Ok(Box::new(alloc.clone()?, range(alloc, typed, over)?)?)
}

// ACTIONS OF STATEMENTS WITH BLOCKS

/// Returns the action of an `if` without `else`, with its block.
fn choice<A: Allocator + Clone>(
    alloc: &A,
    typed: &Typed,
    test: &Expr<A>,
    then: Box<Block<A>, A>,
) -> Result<Action<A>, AllocError>
    ensures core { IfOk result (λ a. action_view a ≡ core.when (rules.outer (table_of typed.now) (expression_view test.now)) (block_view then.value)) }
    ensures declared { IfOk result (λ a. action_declared a ≡ block_declared then.value) }
    ensures listed { IfOk result (λ a. action_listed a ≡ other (whole (block_listed then.value))) }
    ensures cells { IfOk result (λ a. AreAmong (action_anchors a) (expression_nodes (expression_view test.now) ++ block_anchors then.value)) }
{
    let condition = boxed_outer(alloc, typed, test)?;
    Ok(Action::When { condition, then })
}

/// Returns the action of an `if` with `else`, with its blocks.
fn choice_else<A: Allocator + Clone>(
    alloc: &A,
    typed: &Typed,
    test: &Expr<A>,
    then: Box<Block<A>, A>,
    other: Box<Block<A>, A>,
) -> Result<Action<A>, AllocError>
    ensures core { IfOk result (λ a. action_view a ≡ core.choose (rules.outer (table_of typed.now) (expression_view test.now)) (block_view then.value)
        (block_view other.value)) }
    ensures declared { IfOk result (λ a. action_declared a ≡ block_declared then.value ++ block_declared other.value) }
    ensures listed { IfOk result (λ a. action_listed a ≡ shows.other (whole (block_listed then.value) ++ whole (block_listed other.value))) }
    ensures cells { IfOk result (λ a. AreAmong (action_anchors a)
        (expression_nodes (expression_view test.now) ++ block_anchors then.value ++ block_anchors other.value)) }
{
    let condition = boxed_outer(alloc, typed, test)?;
    Ok(Action::Choose {
        condition,
        then,
        other,
    })
}

/// Returns the action of a `foreach`, with its block.
fn repeated<A: Allocator + Clone>(
    alloc: &A,
    typed: &Typed,
    header: &Header<A>,
    body: Box<Block<A>, A>,
) -> Result<Action<A>, AllocError>
    ensures core { IfOk result (λ a. action_view a ≡ rules.loop_action (table_of typed.now) (word_of header.now.value) (option_map word_of header.now.key)
        (over_of header.now.source) (block_view body.value)) }
    ensures declared { IfOk result (λ a. action_declared a ≡ block_declared body.value) }
    ensures listed { IfOk result (λ a. action_listed a
        ≡ shows.looping (as_declared Shape.Scalar (word_of header.now.value)) (option_map (as_declared Shape.Scalar) (option_map word_of header.now.key))
        (block_listed body.value)) }
    ensures cells { IfOk result (λ a. AreAmong (action_anchors a) (over_nodes (over_of header.now.source) ++ block_anchors body.value)) }
{
    let value = variable(alloc, &header.value, Shape::Scalar)?;
    let key = optional(alloc, &header.key)?;
    match &header.source {
        Source::Array(name) => Ok(Action::Each {
            array: refer(typed, name),
            value,
            key,
            body,
        }),
        Source::Range(over) => {
            let range = boxed_range(alloc, typed, over)?;
            Ok(Action::Range {
                range,
                value,
                turn: key,
                body,
            })
        }
    }
}

/// Returns the action of a `wait`, with its content. A directly nested `wait` stays a statement of the content.
fn waiting<A: Allocator + Clone>(
    alloc: &A,
    typed: &Typed,
    names: &Vec<tree::Name<A>, A>,
    content: Box<Block<A>, A>,
) -> Result<Action<A>, AllocError>
    ensures core { IfOk result (λ a. action_view a ≡ core.wait (map (rules.awaited (table_of typed.now)) (words_view names.now)) (block_view content.value)) }
    ensures declared { IfOk result (λ a. action_declared a ≡ block_declared content.value) }
    ensures listed { IfOk result (λ a. action_listed a ≡ shows.waiting (block_listed content.value)) }
    ensures cells { IfOk result (λ a. action_anchors a ≡ block_anchors content.value) }
{
    let names = all(alloc, typed, names)?;
    Ok(Action::Wait {
        names,
        inner: Vec::new(alloc.clone()?),
        content,
    })
}

// STATEMENTS AND BLOCKS

/// Converts a statement of the script and appends the result.
#[cycle(statement)]
pub fn statement<A: Allocator + Clone>(
    alloc: &A,
    typed: &Typed,
    stmt: &Stmt<A>,
    found: &mut Vec<Statement<A>, A>,
) -> Result<(), AllocError>
    ensures core { OnOk result (statements_view found.new.items
        ≡ statements_view found.old.items ++ statement_alone (table_of typed.now) (statement_view stmt.now)) }
    ensures declared { OnOk result (declared_by found.new.items ≡ declared_by found.old.items ++ flagged (statement_declarations (statement_view stmt.now))) }
    ensures listed { OnOk result (listed_by found.new.items ≡ listed_by found.old.items ++ listed (statement_view stmt.now)) }
    ensures cells { OnOk result (StatementsStand found.old.items found.new.items (statement_nodes (statement_view stmt.now))) }
{
    command(alloc, typed, stmt.number, stmt.first, &stmt.kind, found)
}

/// Converts a form of statement and appends the result. `number` and `first`: its number and the place of its first
/// token.
#[cycle(statement)]
fn command<A: Allocator + Clone>(
    alloc: &A,
    typed: &Typed,
    number: u32,
    first: Span,
    kind: &StmtKind<A>,
    found: &mut Vec<Statement<A>, A>,
) -> Result<(), AllocError>
    ensures core { OnOk result ((to : ℕ) → statements_view found.new.items
        ≡ statements_view found.old.items ++ command_alone (table_of typed.now) (record { number = number; first = first; to = to }) (command_view kind.now)) }
    ensures declared { OnOk result (declared_by found.new.items ≡ declared_by found.old.items ++ flagged (command_declarations (command_view kind.now))) }
    ensures listed { OnOk result (listed_by found.new.items ≡ listed_by found.old.items ++ command_listed (command_view kind.now)) }
    ensures cells { OnOk result (StatementsStand found.old.items found.new.items (command_nodes (command_view kind.now))) }
{
    let at = first.from;
    match kind {
        StmtKind::Declare(decl, right) => {
            declaration(alloc, typed, number, first, decl, right, found)
        }
        StmtKind::Assign(name, right) => {
            let target = refer(typed, name);
            add_made(found, number, at, assignment(alloc, typed, target, right))
        }
        StmtKind::Write(name, index, value) => {
            add_made(found, number, at, insert(alloc, typed, name, index, value))
        }
        StmtKind::AssignAll(names, call) => {
            add_made(found, number, at, several(alloc, typed, names, call))
        }
        StmtKind::Call(priority, call) => {
            let action = statement_call(alloc, typed, *priority, call);
            add_made(found, number, at, action)
        }
        StmtKind::If(test, then, other) => {
            let then = boxed_block(alloc, typed, then)?;
            match other {
                None => add_made(found, number, at, choice(alloc, typed, test, then)),
                Some(other) => {
                    let other = boxed_block(alloc, typed, other)?;
                    let action = choice_else(alloc, typed, test, then, other);
                    add_made(found, number, at, action)
                }
            }
        }
        StmtKind::Foreach(header, body) => {
            let body = boxed_block(alloc, typed, body)?;
            add_made(found, number, at, repeated(alloc, typed, header, body))
        }
        StmtKind::Wait(names, body) => {
            let body = boxed_block(alloc, typed, body)?;
            add_made(found, number, at, waiting(alloc, typed, names, body))
        }
    }
}

/// Converts a block into a boxed block.
#[cycle(statement)]
fn boxed_block<A: Allocator + Clone>(
    alloc: &A,
    typed: &Typed,
    body: &tree::Block<A>,
) -> Result<Box<Block<A>, A>, AllocError>
    ensures core { IfOk result (λ b. block_view b.value ≡ rules.block_of (table_of typed.now) (body_view body.now)) }
    ensures declared { IfOk result (λ b. block_declared b.value ≡ flagged (body_declarations (body_view body.now))) }
    ensures listed { IfOk result (λ b. block_listed b.value ≡ body_listed (body_view body.now)) }
    ensures cells { IfOk result (λ b. AreAmong (block_anchors b.value) (body_nodes (body_view body.now))) }
{
    let mut statements = Vec::new(alloc.clone()?);
    each(alloc, typed, &body.statements, &mut statements)?;
    boxed_at(alloc, body.from, statements)
}

/// Converts statements and appends the results in order.
#[cycle(statement)]
fn each<A: Allocator + Clone>(
    alloc: &A,
    typed: &Typed,
    statements: &Vec<Stmt<A>, A>,
    found: &mut Vec<Statement<A>, A>,
) -> Result<(), AllocError>
    ensures core { OnOk result (statements_view found.new.items
        ≡ statements_view found.old.items ++ statements_among (table_of typed.now) (map statement_view statements.now.items)) }
    ensures declared { OnOk result (declared_by found.new.items ≡ declared_by found.old.items ++ flagged (among (map statement_view statements.now.items))) }
    ensures listed { OnOk result (listed_by found.new.items ≡ listed_by found.old.items ++ all_listed (map statement_view statements.now.items)) }
    ensures cells { OnOk result (StatementsStand found.old.items found.new.items (nodes_among (map statement_view statements.now.items))) }
{
    for stmt in statements {
        statement(alloc, typed, stmt, found)?;
    }
    Ok(())
}

/// Converts a block.
pub fn block<A: Allocator + Clone>(
    alloc: &A,
    typed: &Typed,
    body: &tree::Block<A>,
) -> Result<Block<A>, AllocError>
    ensures core { IfOk result (λ b. block_view b ≡ rules.block_of (table_of typed.now) (body_view body.now)) }
    ensures declared { IfOk result (λ b. block_declared b ≡ flagged (body_declarations (body_view body.now))) }
    ensures listed { IfOk result (λ b. block_listed b ≡ body_listed (body_view body.now)) }
    ensures cells { IfOk result (λ b. AreAmong (block_anchors b) (body_nodes (body_view body.now))) }
{
    let mut statements = Vec::new(alloc.clone()?);
    each(alloc, typed, &body.statements, &mut statements)?;
    Ok(block_at(body.from, statements))
}

/// Creates a boxed block of statements.
fn boxed_at<A: Allocator + Clone>(
    alloc: &A,
    from: usize,
    statements: Vec<Statement<A>, A>,
) -> Result<Box<Block<A>, A>, AllocError>
    ensures core { IfOk result (λ b. block_view b.value ≡ seen.block_of (statements_view statements.items)) }
    ensures declared { IfOk result (λ b. block_declared b.value ≡ declared_by statements.items) }
    ensures listed { IfOk result (λ b. block_listed b.value ≡ shows.block_of from (listed_by statements.items)) }
    ensures cells { IfOk result (λ b. block_anchors b.value ≡ flat_map statement_anchors statements.items) }
{
    Ok(Box::new(alloc.clone()?, block_at(from, statements))?)
}

/// Creates a block of statements. `from`: the offset of its brace, or of the `if` of an `else if`.
pub fn block_at<A: Allocator>(from: usize, statements: Vec<Statement<A>, A>) -> Block<A>
    ensures core { block_view result ≡ seen.block_of (statements_view statements.items) }
    ensures declared { block_declared result ≡ declared_by statements.items }
    ensures listed { block_listed result ≡ shows.block_of from (listed_by statements.items) }
    ensures cells { block_anchors result ≡ flat_map statement_anchors statements.items }
{
    Block { from, statements }
}
