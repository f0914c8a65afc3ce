//! Collection of the occurrences in statements, in the order of the text.
ghost use Rattle.std.specs.Prelude.{◌≡◌, ◌++◌, OnOk, IfOk, map, option_map};
ghost use Rattle.syntax_trees.specs.View.{word_of, words_view, expression_view, expressions_view, declaration_of, right_of, calling_of, over_of, range_of, statement_view, command_view, body_view, part_of, tree_of};
ghost use Rattle.language.specs.Tree as trees;
ghost use Rattle.explain_warnings.specs.Mentions as specs;

use crate::mistakes::failures::never_holds;
use crate::mistakes::forms::{always_holds, below_one, is_empty, is_extra_line};
use crate::mistakes::lists::list_mistakes;
use crate::mistakes::needs::right_needs;
use crate::name_use::{NameUse, NameUseKind};
use crate::occurrences::reads::{add, add_all, at_expression, note, read, read_call, read_right};
use lexer::token::Span;
use std::alloc::{AllocError, Allocator, Global};
use syntax_trees::tree::{
    Block, Call, Decl, Expr, Item, Name, Range, Right, Script, Shape, Source, Stmt, StmtKind,
};

/// Collects the occurrences in all statements of a script, including those in functions.
pub fn tree_mentions<A: Allocator>(
    alloc: Global,
    script: &Script<A>,
) -> Result<Vec<NameUse>, AllocError>
    ensures { IfOk result (λ name_uses. name_uses.items ≡ specs.tree_mentions (tree_of script.now)) }
{
    let mut name_uses = Vec::new(alloc);
    for item in &script.items {
        part(alloc, item, &mut name_uses)?;
    }
    Ok(name_uses)
}

/// Appends the occurrences in a part.
pub fn part<A: Allocator>(
    alloc: Global,
    item: &Item<A>,
    name_uses: &mut Vec<NameUse>,
) -> Result<(), AllocError>
    ensures { OnOk result (name_uses.new.items ≡ name_uses.old.items ++ specs.part_mentions (part_of item.now)) }
{
    match item {
        Item::Import(_) => Ok(()),
        Item::Function(one) => function_body(alloc, &one.body, name_uses),
        Item::Statement(one) => statement(alloc, one, name_uses),
    }
}

/// Appends the occurrences in the statements of a function.
pub fn function_body<A: Allocator>(
    alloc: Global,
    body: &Block<A>,
    name_uses: &mut Vec<NameUse>,
) -> Result<(), AllocError>
    ensures { OnOk result (name_uses.new.items ≡ name_uses.old.items ++ specs.function_mentions (body_view body.now)) }
{
    list_mistakes(alloc, &body.statements, name_uses)?;
    each(alloc, &body.statements, name_uses)
}

/// Returns true if a name begins with `_`, which marks a variable as unused on purpose.
pub fn is_spared(name: &[u8]) -> bool
    ensures { result ≡ specs.is_spared name.now }
{
    match name {
        [first, ..] => *first == b'_',
        [] => false,
    }
}

/// Returns the kind of the occurrence of a declared name.
fn declared_kind<A: Allocator>(decl: &Decl<A>, right: &Option<Right<A>>) -> NameUseKind
    ensures { result ≡ specs.declared_kind (declaration_of decl.now) (option_map right_of right.now) }
{
    match right {
        Some(_) => NameUseKind::Declared,
        None => match decl.shape {
            Shape::Scalar => NameUseKind::Declared,
            Shape::Array(_) => NameUseKind::DeclaredArray,
        },
    }
}

/// Appends the occurrence of a declared name, unless the name begins with `_`.
fn add_declared<A: Allocator>(
    kind: NameUseKind,
    name: &Name<A>,
    name_uses: &mut Vec<NameUse>,
) -> Result<(), AllocError>
    ensures { OnOk result (name_uses.new.items ≡ name_uses.old.items ++ specs.declared kind (word_of name.now)) }
{
    if is_spared(name.text.as_slice()) {
        Ok(())
    } else {
        add(kind, name, name_uses)
    }
}

/// Appends the occurrences in the right side of an assignment to a name.
fn assigned<A: Allocator>(
    name: &Name<A>,
    right: &Right<A>,
    name_uses: &mut Vec<NameUse>,
) -> Result<(), AllocError>
    ensures { OnOk result (name_uses.new.items ≡ name_uses.old.items ++ specs.assigned_reads (word_of name.now) (right_of right.now)) }
{
    if right_needs(right, name.text.as_slice()) {
        add(NameUseKind::WaitsForItself, name, name_uses)?;
    }
    read_right(right, name_uses)
}

/// Appends the occurrences in the right side of the declaration of a name, if it has one.
fn initial<A: Allocator>(
    name: &Name<A>,
    right: &Option<Right<A>>,
    name_uses: &mut Vec<NameUse>,
) -> Result<(), AllocError>
    ensures { OnOk result (name_uses.new.items ≡ name_uses.old.items ++ specs.initial_reads (word_of name.now) (option_map right_of right.now)) }
{
    match right {
        None => Ok(()),
        Some(right) => assigned(name, right, name_uses),
    }
}

/// Appends the occurrences in a declaration.
pub fn declaration<A: Allocator>(
    decl: &Decl<A>,
    right: &Option<Right<A>>,
    name_uses: &mut Vec<NameUse>,
) -> Result<(), AllocError>
    ensures { OnOk result (name_uses.new.items
        ≡ name_uses.old.items ++ specs.command_mentions (trees.declare (declaration_of decl.now) (option_map right_of right.now))) }
{
    add_declared(declared_kind(decl, right), &decl.name, name_uses)?;
    initial(&decl.name, right, name_uses)
}

/// Appends the occurrences in an assignment.
pub fn assignment<A: Allocator>(
    name: &Name<A>,
    right: &Right<A>,
    name_uses: &mut Vec<NameUse>,
) -> Result<(), AllocError>
    ensures { OnOk result (name_uses.new.items ≡ name_uses.old.items ++ specs.command_mentions (trees.assign (word_of name.now) (right_of right.now))) }
{
    add(NameUseKind::Written, name, name_uses)?;
    assigned(name, right, name_uses)
}

/// Appends the occurrences in the write of an element.
pub fn write<A: Allocator>(
    name: &Name<A>,
    index: &Expr<A>,
    value: &Expr<A>,
    name_uses: &mut Vec<NameUse>,
) -> Result<(), AllocError>
    ensures { OnOk result (name_uses.new.items
        ≡ name_uses.old.items ++ specs.command_mentions (trees.write (word_of name.now) (expression_view index.now) (expression_view value.now))) }
{
    add(NameUseKind::Written, name, name_uses)?;
    read(index, name_uses)?;
    read(value, name_uses)
}

/// Appends the occurrences in an assignment to several names.
pub fn several<A: Allocator>(
    names: &Vec<Name<A>, A>,
    call: &Call<A>,
    name_uses: &mut Vec<NameUse>,
) -> Result<(), AllocError>
    ensures { OnOk result (name_uses.new.items ≡ name_uses.old.items ++ specs.command_mentions (trees.assign_all (words_view names.now) (calling_of call.now))) }
{
    add_all(NameUseKind::Written, names, name_uses)?;
    read_call(call, name_uses)
}

/// Appends the mistakes of a call by its first argument.
fn argument_mistakes<A: Allocator>(
    function: &Name<A>,
    arguments: &Vec<Expr<A>, A>,
    name_uses: &mut Vec<NameUse>,
) -> Result<(), AllocError>
    ensures { OnOk result (name_uses.new.items ≡ name_uses.old.items ++ specs.argument_mistakes (word_of function.now).text (expressions_view arguments.now)) }
{
    match arguments.as_slice() {
        [] => Ok(()),
        [argument, ..] => first_mistakes(function.text.as_slice(), argument, name_uses),
    }
}

/// Appends the mistakes of a call of the function with this name by its first argument.
fn first_mistakes<A: Allocator>(
    function: &[u8],
    argument: &Expr<A>,
    name_uses: &mut Vec<NameUse>,
) -> Result<(), AllocError>
    ensures { OnOk result (name_uses.new.items ≡ name_uses.old.items ++ specs.first_mistakes function.now (expression_view argument.now)) }
{
    let is_extra = is_extra_line(function, argument);
    note(
        is_extra,
        at_expression(NameUseKind::ExtraLine, argument),
        name_uses,
    )?;
    let holds = always_holds(function, argument);
    note(
        holds,
        at_expression(NameUseKind::AlwaysHolds, argument),
        name_uses,
    )?;
    let fails = never_holds(function, argument);
    note(
        fails,
        at_expression(NameUseKind::AlwaysFails, argument),
        name_uses,
    )
}

/// Appends the occurrences in a call that is a statement.
pub fn call<A: Allocator>(call: &Call<A>, name_uses: &mut Vec<NameUse>) -> Result<(), AllocError>
    ensures { OnOk result (name_uses.new.items ≡ name_uses.old.items ++ specs.call_mentions (calling_of call.now)) }
{
    argument_mistakes(&call.name, &call.arguments, name_uses)?;
    read_call(call, name_uses)
}

/// Appends an occurrence for a range that is empty by its literals.
fn emptiness<A: Allocator>(range: &Range<A>, name_uses: &mut Vec<NameUse>) -> Result<(), AllocError>
    ensures { OnOk result (name_uses.new.items ≡ name_uses.old.items ++ specs.emptiness (expression_view range.now.low)
        (expression_view range.now.high) (option_map expression_view range.now.step)) }
{
    let has_no_turn = is_empty(&range.low, &range.high, &range.step);
    note(
        has_no_turn,
        at_expression(NameUseKind::EmptyRange, &range.low),
        name_uses,
    )
}

/// Appends the occurrences in the step of a range, if it has one.
fn add_step<A: Allocator>(
    step: &Option<Expr<A>>,
    name_uses: &mut Vec<NameUse>,
) -> Result<(), AllocError>
    ensures { OnOk result (name_uses.new.items ≡ name_uses.old.items ++ specs.step_reads (option_map expression_view step.now)) }
{
    match step {
        None => Ok(()),
        Some(step) => {
            note(
                below_one(step),
                at_expression(NameUseKind::StepBelowOne, step),
                name_uses,
            )?;
            read(step, name_uses)
        }
    }
}

fn add_range<A: Allocator>(range: &Range<A>, name_uses: &mut Vec<NameUse>) -> Result<(), AllocError>
    ensures { OnOk result (name_uses.new.items ≡ name_uses.old.items ++ specs.over_mentions (range_of range.now)) }
{
    emptiness(range, name_uses)?;
    read(&range.low, name_uses)?;
    read(&range.high, name_uses)?;
    add_step(&range.step, name_uses)
}

/// Appends the occurrences in the source of a loop.
pub fn source<A: Allocator>(
    source: &Source<A>,
    name_uses: &mut Vec<NameUse>,
) -> Result<(), AllocError>
    ensures { OnOk result (name_uses.new.items ≡ name_uses.old.items ++ specs.over_mentions (over_of source.now)) }
{
    match source {
        Source::Array(name) => add(NameUseKind::Read, name, name_uses),
        Source::Range(range) => add_range(range, name_uses),
    }
}

/// Appends the occurrences in a statement.
#[cycle(stmt)]
pub fn statement<A: Allocator>(
    alloc: Global,
    stmt: &Stmt<A>,
    name_uses: &mut Vec<NameUse>,
) -> Result<(), AllocError>
    ensures { OnOk result (name_uses.new.items ≡ name_uses.old.items ++ specs.mentions_in (statement_view stmt.now)) }
{
    command(alloc, &stmt.kind, name_uses)
}

/// Appends the occurrences in a statement by its form.
#[cycle(stmt)]
fn command<A: Allocator>(
    alloc: Global,
    kind: &StmtKind<A>,
    name_uses: &mut Vec<NameUse>,
) -> Result<(), AllocError>
    ensures { OnOk result (name_uses.new.items ≡ name_uses.old.items ++ specs.command_mentions (command_view kind.now)) }
{
    match kind {
        StmtKind::Declare(decl, right) => declaration(decl, right, name_uses),
        StmtKind::Assign(name, right) => assignment(name, right, name_uses),
        StmtKind::Write(name, index, value) => write(name, index, value, name_uses),
        StmtKind::AssignAll(names, call) => several(names, call, name_uses),
        StmtKind::Call(_, one) => call(one, name_uses),
        StmtKind::If(test, then, other) => {
            read(test, name_uses)?;
            block(alloc, then, name_uses)?;
            match other {
                None => Ok(()),
                Some(other) => block(alloc, other, name_uses),
            }
        }
        StmtKind::Foreach(header, body) => {
            source(&header.source, name_uses)?;
            block(alloc, body, name_uses)
        }
        StmtKind::Wait(names, body) => {
            add_all(NameUseKind::Read, names, name_uses)?;
            block(alloc, body, name_uses)
        }
    }
}

/// Appends an occurrence for a block without statements, at its brace, and the mistakes of its statements as a whole.
fn block_mistakes<A: Allocator>(
    alloc: Global,
    body: &Block<A>,
    name_uses: &mut Vec<NameUse>,
) -> Result<(), AllocError>
    ensures { OnOk result (name_uses.new.items ≡ name_uses.old.items
        ++ specs.block_mistakes (body_view body.now)) }
{
    let brace = Span {
        from: body.from,
        to: body.from.saturating_add(1),
    };
    let name_use = NameUse {
        kind: NameUseKind::EmptyBlock,
        number: 0,
        at: brace,
    };
    note(body.statements.is_empty(), name_use, name_uses)?;
    list_mistakes(alloc, &body.statements, name_uses)
}

/// Appends the occurrences in a block.
#[cycle(stmt)]
fn block<A: Allocator>(
    alloc: Global,
    body: &Block<A>,
    name_uses: &mut Vec<NameUse>,
) -> Result<(), AllocError>
    ensures { OnOk result (name_uses.new.items ≡ name_uses.old.items ++ specs.body_mentions (body_view body.now)) }
{
    block_mistakes(alloc, body, name_uses)?;
    each(alloc, &body.statements, name_uses)
}

/// Appends the occurrences in statements in order.
#[cycle(stmt)]
fn each<A: Allocator>(
    alloc: Global,
    statements: &Vec<Stmt<A>, A>,
    name_uses: &mut Vec<NameUse>,
) -> Result<(), AllocError>
    ensures { OnOk result (name_uses.new.items ≡ name_uses.old.items ++ specs.all_mentions (trees.statements_of (map statement_view statements.now.items))) }
{
    for stmt in statements {
        statement(alloc, stmt, name_uses)?;
    }
    Ok(())
}
