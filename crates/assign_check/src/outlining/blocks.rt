//! Conversion of statements to the steps of an outline.
ghost use Rattle.std.specs.Prelude.{◌≡◌, ◌++◌, ◌∷◌, [], ℕ, OnOk, IfOk, map, option_map};
ghost use Rattle.syntax_trees.specs.View.{word_of, words_view, expression_view, declaration_of, right_of, calling_of, over_of, statement_view, command_view, body_view};
ghost use Rattle.language.specs.Tree.{choice_of};
ghost use Rattle.language.specs.Tree as trees;
ghost use Rattle.types.specs.Typed.{table_of, owned_name};
ghost use Rattle.assign_check.specs.Outline as outline;
ghost use Rattle.assign_check.specs.View.{steps_view, role_of, kind_of};

use crate::outlining::outline::{DeclRole, Declaration, OutlineStep, UseKind, UseSite};
use crate::outlining::reads::{add_use, read, read_call, read_names, read_right, read_source};
use lexer::token::Span;
use std::alloc::{AllocError, Allocator, Global};
use syntax_trees::tree::{Block, Call, Decl, Expr, Name, Right, Shape, Source, Stmt, StmtKind};
use types::typed::{Binding, Typed};

/// Appends a declaration.
pub fn add_declared<A: Allocator>(
    role: DeclRole,
    what: Binding,
    decl: &Decl<A>,
    steps: &mut Vec<OutlineStep>,
) -> Result<(), AllocError>
    ensures { OnOk result (steps_view steps.new.items
        ≡ steps_view steps.old.items ++ outline.declared_as (role_of role) (owned_name what) (declaration_of decl.now) ∷ []) }
{
    steps.push(OutlineStep::Declares(Declaration {
        what,
        shape: decl.shape,
        role,
        span: decl.name.span,
    }))?;
    Ok(())
}

/// Appends a declaration that is a statement. One with a right side also assigns the variable whole.
fn declaration<A: Allocator>(
    typed: &Typed,
    decl: &Decl<A>,
    right: &Option<Right<A>>,
    steps: &mut Vec<OutlineStep>,
) -> Result<(), AllocError>
    ensures { OnOk result (steps_view steps.new.items
        ≡ steps_view steps.old.items ++ outline.declaration_steps (table_of typed.now) (declaration_of decl.now) (option_map right_of right.now)) }
{
    let of = Binding::Local(decl.name.number);
    add_declared(DeclRole::Own, of, decl, steps)?;
    match right {
        None => Ok(()),
        Some(right) => {
            let one = UseSite {
                kind: UseKind::Named,
                of,
                span: decl.name.span,
            };
            steps.push(OutlineStep::Uses(one))?;
            read_right(typed, right, steps)
        }
    }
}

/// Appends the declaration of a loop variable, which counts as assigned there.
fn loop_variable<A: Allocator>(
    name: &Name<A>,
    steps: &mut Vec<OutlineStep>,
) -> Result<(), AllocError>
    ensures { OnOk result (steps_view steps.new.items ≡ steps_view steps.old.items ++ outline.loop_variable (word_of name.now) ∷ []) }
{
    steps.push(OutlineStep::Declares(Declaration {
        what: Binding::Local(name.number),
        shape: Shape::Scalar,
        role: DeclRole::Given,
        span: name.span,
    }))?;
    Ok(())
}

/// Appends the declaration of the key variable of a loop, if it has one.
fn key_variable<A: Allocator>(
    key: &Option<Name<A>>,
    steps: &mut Vec<OutlineStep>,
) -> Result<(), AllocError>
    ensures { OnOk result (steps_view steps.new.items ≡ steps_view steps.old.items ++ outline.key_variable (option_map word_of key.now)) }
{
    match key {
        None => Ok(()),
        Some(key) => loop_variable(key, steps),
    }
}

/// Appends an assignment for each name, in order.
fn targets<A: Allocator>(
    typed: &Typed,
    names: &Vec<Name<A>, A>,
    steps: &mut Vec<OutlineStep>,
) -> Result<(), AllocError>
    ensures { OnOk result (steps_view steps.new.items
        ≡ steps_view steps.old.items ++ map (outline.use_of (table_of typed.now) outline.named) (words_view names.now)) }
{
    for name in names {
        add_use(typed, UseKind::Named, name, steps)?;
    }
    Ok(())
}

/// Appends the write of an array element, and the reads of its index and its value.
fn write<A: Allocator>(
    typed: &Typed,
    name: &Name<A>,
    index: &Expr<A>,
    value: &Expr<A>,
    steps: &mut Vec<OutlineStep>,
) -> Result<(), AllocError>
    ensures { OnOk result (steps_view steps.new.items
        ≡ steps_view steps.old.items ++ outline.use_of (table_of typed.now) outline.written (word_of name.now) ∷
        (outline.read_in (table_of typed.now) (expression_view index.now) ++ outline.read_in (table_of typed.now) (expression_view value.now))) }
{
    add_use(typed, UseKind::Written, name, steps)?;
    read(typed, index, steps)?;
    read(typed, value, steps)
}

/// Appends the steps of a statement.
#[cycle(stmt)]
pub fn statement<A: Allocator>(
    alloc: Global,
    typed: &Typed,
    stmt: &Stmt<A>,
    steps: &mut Vec<OutlineStep>,
) -> Result<(), AllocError>
    ensures { OnOk result (steps_view steps.new.items ≡ steps_view steps.old.items ++ outline.steps_of (table_of typed.now) (statement_view stmt.now)) }
{
    command(alloc, typed, stmt.number, stmt.first, &stmt.kind, steps)
}

/// Appends the steps of a statement by its form. `number`: its node number, `at`: its first token.
#[cycle(stmt)]
fn command<A: Allocator>(
    alloc: Global,
    typed: &Typed,
    number: u32,
    at: Span,
    kind: &StmtKind<A>,
    steps: &mut Vec<OutlineStep>,
) -> Result<(), AllocError>
    ensures { OnOk result ((to : ℕ) → steps_view steps.new.items
        ≡ steps_view steps.old.items ++ outline.command_steps (table_of typed.now) (record { number = number; first = at; to = to }) (command_view kind.now)) }
{
    match kind {
        StmtKind::Declare(decl, right) => declaration(typed, decl, right, steps),
        StmtKind::Assign(name, right) => {
            add_use(typed, UseKind::Named, name, steps)?;
            read_right(typed, right, steps)
        }
        StmtKind::Write(name, index, value) => write(typed, name, index, value, steps),
        StmtKind::AssignAll(names, call) => {
            targets(typed, names, steps)?;
            read_call(typed, call, steps)
        }
        StmtKind::Call(_, call) => read_call(typed, call, steps),
        StmtKind::If(test, then, other) => {
            read(typed, test, steps)?;
            let first = inner(alloc, typed, then)?;
            let other = match other {
                None => Vec::new(alloc),
                Some(other) => inner(alloc, typed, other)?,
            };
            steps.push(OutlineStep::Splits(number, at, first, other))?;
            Ok(())
        }
        StmtKind::Foreach(header, body) => {
            read_source(typed, &header.source, steps)?;
            let mut within = Vec::new(alloc);
            loop_variable(&header.value, &mut within)?;
            key_variable(&header.key, &mut within)?;
            block(alloc, typed, body, &mut within)?;
            steps.push(OutlineStep::Repeats(number, within))?;
            Ok(())
        }
        StmtKind::Wait(names, body) => {
            read_names(typed, names, steps)?;
            let within = inner(alloc, typed, body)?;
            steps.push(OutlineStep::Encloses(within))?;
            Ok(())
        }
    }
}

/// Converts a block to a new list of steps.
#[cycle(stmt)]
fn inner<A: Allocator>(
    alloc: Global,
    typed: &Typed,
    body: &Block<A>,
) -> Result<Vec<OutlineStep>, AllocError>
    ensures { IfOk result (λ steps. steps_view steps.items ≡ outline.body_steps (table_of typed.now) (body_view body.now)) }
{
    let mut steps = Vec::new(alloc);
    block(alloc, typed, body, &mut steps)?;
    Ok(steps)
}

/// Appends the steps of a block.
#[cycle(stmt)]
pub fn block<A: Allocator>(
    alloc: Global,
    typed: &Typed,
    body: &Block<A>,
    steps: &mut Vec<OutlineStep>,
) -> Result<(), AllocError>
    ensures { OnOk result (steps_view steps.new.items ≡ steps_view steps.old.items ++ outline.body_steps (table_of typed.now) (body_view body.now)) }
{
    each(alloc, typed, &body.statements, steps)
}

/// Appends the steps of statements in order.
#[cycle(stmt)]
fn each<A: Allocator>(
    alloc: Global,
    typed: &Typed,
    statements: &Vec<Stmt<A>, A>,
    steps: &mut Vec<OutlineStep>,
) -> Result<(), AllocError>
    ensures { OnOk result (steps_view steps.new.items
        ≡ steps_view steps.old.items ++ outline.all_steps (table_of typed.now) (trees.statements_of (map statement_view statements.now.items))) }
{
    for stmt in statements {
        statement(alloc, typed, stmt, steps)?;
    }
    Ok(())
}
