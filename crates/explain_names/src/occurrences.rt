//! Collection of the occurrences of variable names in functions and scripts.
ghost use Rattle.std.specs.Prelude.{◌≡◌, ◌++◌, ◌∷◌, [], OnOk, IfOk, None, Some, map, option_map};
ghost use Rattle.syntax_trees.specs.View.{word_of, words_view, declaration_of, declarations_view, right_of, over_of, statement_view, command_view, body_view, composite_of, part_of, tree_of};
ghost use Rattle.language.specs.Tree as trees;
ghost use Rattle.explain_names.specs.Mentions as specs;

use crate::occurrence::{DisplayType, Occurrence, OccurrenceKind};
use std::alloc::{AllocError, Allocator, Global};
use syntax_trees::tree::{
    Base, Block, Decl, Function, Item, Name, Right, Script, Shape, Source, Stmt, StmtKind,
};

/// The type of the values and keys of a loop over a range.
const WHOLE_NUMBER: DisplayType = DisplayType {
    base: Base::Int,
    shape: Shape::Scalar,
};

/// Returns the occurrences in the function that contains an offset, or else in the script's own statements, in order.
pub fn mentions_around<A: Allocator>(
    alloc: Global,
    at: usize,
    script: &Script<A>,
) -> Result<Vec<Occurrence>, AllocError>
    ensures { IfOk result (λ occurrences. occurrences.items ≡ specs.mentions_around at (tree_of script.now)) }
{
    match function_around(at, script) {
        Some(function) => function_mentions(alloc, function),
        None => script_mentions(alloc, script),
    }
}

/// Returns the function that contains an offset.
pub fn function_around<'a, A: Allocator>(
    at: usize,
    script: &'a Script<A>,
) -> Option<&'a Function<A>>
    ensures { option_map (λ f. composite_of f.now) result ≡ specs.function_around at (tree_of script.entry.now) }
{
    for item in &script.items {
        if let Item::Function(one) = item {
            if one.first.from <= at && at < one.to {
                return Some(one);
            }
        }
    }
    None
}

fn function_mentions<A: Allocator>(
    alloc: Global,
    function: &Function<A>,
) -> Result<Vec<Occurrence>, AllocError>
    ensures { IfOk result (λ occurrences. occurrences.items ≡ specs.function_mentions (composite_of function.now)) }
{
    let mut occurrences = Vec::new(alloc);
    declarations(OccurrenceKind::Output, &function.outputs, &mut occurrences)?;
    declarations(OccurrenceKind::Given, &function.inputs, &mut occurrences)?;
    block(&function.body, &mut occurrences)?;
    Ok(occurrences)
}

fn script_mentions<A: Allocator>(
    alloc: Global,
    script: &Script<A>,
) -> Result<Vec<Occurrence>, AllocError>
    ensures { IfOk result (λ occurrences. occurrences.items ≡ specs.script_mentions (tree_of script.now)) }
{
    let mut occurrences = Vec::new(alloc);
    for item in &script.items {
        part(item, &mut occurrences)?;
    }
    Ok(occurrences)
}

/// Appends the occurrences in a part that is a statement. Appends nothing for other parts.
fn part<A: Allocator>(item: &Item<A>, occurrences: &mut Vec<Occurrence>) -> Result<(), AllocError>
    ensures { OnOk result (occurrences.new.items ≡ occurrences.old.items ++ specs.script_mentions (part_of item.now ∷ [])) }
{
    match item {
        Item::Import(_) | Item::Function(_) => Ok(()),
        Item::Statement(one) => statement(one, occurrences),
    }
}

/// Appends the occurrences in a block.
pub fn block_mentions<A: Allocator>(
    body: &Block<A>,
    occurrences: &mut Vec<Occurrence>,
) -> Result<(), AllocError>
    ensures { OnOk result (occurrences.new.items ≡ occurrences.old.items ++ specs.body_mentions (body_view body.now)) }
{
    block(body, occurrences)
}

/// Appends the occurrences in declarations, all of one kind.
fn declarations<A: Allocator>(
    kind: OccurrenceKind,
    decls: &Vec<Decl<A>, A>,
    occurrences: &mut Vec<Occurrence>,
) -> Result<(), AllocError>
    ensures { OnOk result (occurrences.new.items ≡ occurrences.old.items ++ map (specs.declared_as kind) (declarations_view decls.now)) }
{
    for decl in decls {
        add(kind, sort_of(decl), &decl.name, occurrences)?;
    }
    Ok(())
}

/// Returns the type of a declaration.
fn sort_of<A: Allocator>(decl: &Decl<A>) -> Option<DisplayType>
    ensures { result ≡ Some (record { base = decl.now.base; shape = decl.now.shape }) }
{
    Some(DisplayType {
        base: decl.base,
        shape: decl.shape,
    })
}

/// Appends an occurrence of a name.
fn add<A: Allocator>(
    kind: OccurrenceKind,
    sort: Option<DisplayType>,
    name: &Name<A>,
    occurrences: &mut Vec<Occurrence>,
) -> Result<(), AllocError>
    ensures { OnOk result (occurrences.new.items ≡ occurrences.old.items ++ specs.occurrence kind sort (word_of name.now) ∷ []) }
{
    occurrences.push(Occurrence {
        kind,
        at: name.span,
        sort,
    })?;
    Ok(())
}

/// Appends the occurrences in a declaration statement. A right side also assigns the variable.
fn declaration<A: Allocator>(
    decl: &Decl<A>,
    right: &Option<Right<A>>,
    occurrences: &mut Vec<Occurrence>,
) -> Result<(), AllocError>
    ensures { OnOk result (occurrences.new.items ≡ occurrences.old.items ++ specs.declaration_mentions (declaration_of decl.now) (option_map right_of right.now)) }
{
    add(
        OccurrenceKind::Declared,
        sort_of(decl),
        &decl.name,
        occurrences,
    )?;
    match right {
        None => Ok(()),
        Some(_) => add(
            OccurrenceKind::Assigned,
            sort_of(decl),
            &decl.name,
            occurrences,
        ),
    }
}

/// Returns the type of a loop's value and key, if it is given at the loop. A loop over an array does not give it.
fn value_sort<A: Allocator>(source: &Source<A>) -> Option<DisplayType>
    ensures { result ≡ specs.value_sort (over_of source.now) }
{
    match source {
        Source::Array(_) => None,
        Source::Range(_) => Some(WHOLE_NUMBER),
    }
}

/// Appends the occurrence of a loop's key, if it has one.
fn key<A: Allocator>(
    name: &Option<Name<A>>,
    sort: Option<DisplayType>,
    occurrences: &mut Vec<Occurrence>,
) -> Result<(), AllocError>
    ensures { OnOk result (occurrences.new.items ≡ occurrences.old.items ++ specs.key_mentions sort (option_map word_of name.now)) }
{
    match name {
        None => Ok(()),
        Some(name) => add(OccurrenceKind::Given, sort, name, occurrences),
    }
}

/// Appends the occurrences of assigned names.
fn targets<A: Allocator>(
    names: &Vec<Name<A>, A>,
    occurrences: &mut Vec<Occurrence>,
) -> Result<(), AllocError>
    ensures { OnOk result (occurrences.new.items ≡ occurrences.old.items ++ map (specs.occurrence OccurrenceKind.Assigned None) (words_view names.now)) }
{
    for name in names {
        add(OccurrenceKind::Assigned, None, name, occurrences)?;
    }
    Ok(())
}

/// Appends the occurrences in a statement.
#[cycle(stmt)]
fn statement<A: Allocator>(
    stmt: &Stmt<A>,
    occurrences: &mut Vec<Occurrence>,
) -> Result<(), AllocError>
    ensures { OnOk result (occurrences.new.items ≡ occurrences.old.items ++ specs.mentions_in (statement_view stmt.now)) }
{
    command(&stmt.kind, occurrences)
}

/// Appends the occurrences in a form of statement.
#[cycle(stmt)]
fn command<A: Allocator>(
    kind: &StmtKind<A>,
    occurrences: &mut Vec<Occurrence>,
) -> Result<(), AllocError>
    ensures { OnOk result (occurrences.new.items ≡ occurrences.old.items ++ specs.command_mentions (command_view kind.now)) }
{
    match kind {
        StmtKind::Declare(decl, right) => declaration(decl, right, occurrences),
        StmtKind::Assign(name, _) => add(OccurrenceKind::Assigned, None, name, occurrences),
        StmtKind::Write(name, _, _) => add(OccurrenceKind::Written, None, name, occurrences),
        StmtKind::AssignAll(names, _) => targets(names, occurrences),
        StmtKind::Call(_, _) => Ok(()),
        StmtKind::If(_, then, other) => {
            block(then, occurrences)?;
            match other {
                None => Ok(()),
                Some(other) => block(other, occurrences),
            }
        }
        StmtKind::Foreach(header, body) => {
            let sort = value_sort(&header.source);
            add(OccurrenceKind::Given, sort, &header.value, occurrences)?;
            key(&header.key, sort, occurrences)?;
            block(body, occurrences)
        }
        StmtKind::Wait(_, body) => block(body, occurrences),
    }
}

/// Appends the occurrences in a block.
#[cycle(stmt)]
fn block<A: Allocator>(body: &Block<A>, occurrences: &mut Vec<Occurrence>) -> Result<(), AllocError>
    ensures { OnOk result (occurrences.new.items ≡ occurrences.old.items ++ specs.body_mentions (body_view body.now)) }
{
    each(&body.statements, occurrences)
}

/// Appends the occurrences in consecutive statements.
#[cycle(stmt)]
fn each<A: Allocator>(
    statements: &Vec<Stmt<A>, A>,
    occurrences: &mut Vec<Occurrence>,
) -> Result<(), AllocError>
    ensures { OnOk result (occurrences.new.items ≡ occurrences.old.items ++ specs.all_mentions (trees.statements_of (map statement_view statements.now.items))) }
{
    for stmt in statements {
        statement(stmt, occurrences)?;
    }
    Ok(())
}
