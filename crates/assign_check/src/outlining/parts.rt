//! Creation of the outlines of a script: one for its own block, and one for each function body.
ghost use Rattle.std.specs.Prelude.{◌≡◌, ◌++◌, ◌∷◌, [], OnOk, IfOk, map};
ghost use Rattle.language.specs.Core.{input, output};
ghost use Rattle.syntax_trees.specs.View.{declarations_view, composite_of, part_of};
ghost use Rattle.types.specs.Typed.{table_of};
ghost use Rattle.assign_check.specs.Outline as outline;
ghost use Rattle.assign_check.specs.View.{steps_view};

use crate::outlining::blocks::{add_declared, block, statement};
use crate::outlining::outline::{DeclRole, OutlineStep};
use std::alloc::{AllocError, Allocator, Global};
use syntax_trees::tree::{Decl, Function, Item};
use types::typed::{Binding, Typed};

/// Appends the declarations of the outputs, each with its position.
fn outputs<A: Allocator>(
    decls: &Vec<Decl<A>, A>,
    steps: &mut Vec<OutlineStep>,
) -> Result<(), AllocError>
    ensures { OnOk result (steps_view steps.new.items
        ≡ steps_view steps.old.items ++ outline.parameters outline.result output 0 (declarations_view decls.now)) }
{
    for i in 0..decls.len() {
        add_declared(DeclRole::Output, Binding::Output(i), &decls[i], steps)?;
    }
    Ok(())
}

/// Appends the declarations of the inputs, each with its position.
fn inputs<A: Allocator>(
    decls: &Vec<Decl<A>, A>,
    steps: &mut Vec<OutlineStep>,
) -> Result<(), AllocError>
    ensures { OnOk result (steps_view steps.new.items ≡ steps_view steps.old.items ++ outline.parameters outline.given input 0 (declarations_view decls.now)) }
{
    for i in 0..decls.len() {
        add_declared(DeclRole::Given, Binding::Input(i), &decls[i], steps)?;
    }
    Ok(())
}

/// Creates the outline of a function: its outputs, its inputs and then its body.
pub fn function_steps<A: Allocator>(
    alloc: Global,
    typed: &Typed,
    function: &Function<A>,
) -> Result<Vec<OutlineStep>, AllocError>
    ensures { IfOk result (λ steps. steps_view steps.items ≡ outline.function_steps (table_of typed.now) (composite_of function.now)) }
{
    let mut steps = Vec::new(alloc);
    outputs(&function.outputs, &mut steps)?;
    inputs(&function.inputs, &mut steps)?;
    block(alloc, typed, &function.body, &mut steps)?;
    Ok(steps)
}

/// Creates the outline of the script's own block, from the statements outside functions.
pub fn script_steps<A: Allocator>(
    alloc: Global,
    typed: &Typed,
    items: &Vec<Item<A>, A>,
) -> Result<Vec<OutlineStep>, AllocError>
    ensures { IfOk result (λ steps. steps_view steps.items ≡ outline.script_steps (table_of typed.now) (map part_of items.now.items)) }
{
    let mut steps = Vec::new(alloc);
    for item in items {
        part(alloc, typed, item, &mut steps)?;
    }
    Ok(steps)
}

/// Appends the steps of a part if it is a statement.
fn part<A: Allocator>(
    alloc: Global,
    typed: &Typed,
    item: &Item<A>,
    steps: &mut Vec<OutlineStep>,
) -> Result<(), AllocError>
    ensures { OnOk result (steps_view steps.new.items ≡ steps_view steps.old.items ++ outline.script_steps (table_of typed.now) (part_of item.now ∷ [])) }
{
    match item {
        Item::Import(_) | Item::Function(_) => Ok(()),
        Item::Statement(one) => statement(alloc, typed, one, steps),
    }
}
