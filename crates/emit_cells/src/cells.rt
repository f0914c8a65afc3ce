//! Call arguments for cells, and element needs whose index is a cell.
ghost use Rattle.std.specs.Prelude.{◌≡◌, ◌<◌, List, true, Some, option_map, length, OnOk, IfOk};
ghost use Rattle.language.specs.Core as core;
ghost use Rattle.flow.specs.View.{form_view, parts_view};
ghost use Rattle.task_code.specs.Code.{Argument as PureArgument};
ghost use Rattle.task_code.specs.Compute.{key_of};
ghost use Rattle.task_code.specs.View as code_view;
ghost use Rattle.code_rules.specs.Room.{FormRoom, PartRoom, Each};
ghost use Rattle.emit_cells.specs.Chunk.{Inside, Puts, Passes, element_at, handed_in, part_at, passed_as};

use crate::names::{named, own};
use crate::operators::text;
use crate::plain::is_plain;
use flow::cell::{Cell, CellForm, CellPart};
use flow::expression::Expr;
use indexmap::IndexMap;
use std::alloc::{AllocError, Allocator, Global};
use task_code::entry::{Argument, Name, Need};
use values::key::KeyRef;
use values::value::Scalar;

// ARGUMENTS

/// Returns the argument for a plain cell: a literal or a name. Any other form is passed by the cell's own datum.
fn plain_argument<A: Allocator>(
    alloc: Global,
    inputs: usize,
    node: u32,
    form: &CellForm<A>,
) -> Result<Argument, AllocError>
    ensures { IfOk result (λ a. FormRoom inputs (form_view form.now) → code_view.argument_view a ≡ passed_as inputs true node (form_view form.now)) }
{
    match form {
        CellForm::Compute(expr) => match expr {
            Expr::Number(n) => Ok(Argument::Fixed(Scalar::Number(*n))),
            Expr::Text(bytes) => Ok(Argument::Fixed(text(alloc, bytes)?)),
            Expr::Truth(b) => Ok(Argument::Fixed(Scalar::Truth(*b))),
            Expr::Name(name) => Ok(Argument::Named(named(inputs, *name, false))),
            Expr::Whole(_) => Ok(Argument::Named(own(node))),
            Expr::Operation(_, _) => Ok(Argument::Named(own(node))),
        },
        CellForm::Read { .. } => Ok(Argument::Named(own(node))),
    }
}

/// Returns the argument for a cell: its own datum unless it is plain.
fn argument<A: Allocator>(
    alloc: Global,
    inputs: usize,
    cell: &Cell<A>,
    plain: bool,
) -> Result<Argument, AllocError>
    ensures { IfOk result (λ a. FormRoom inputs (form_view cell.now.form)
        → code_view.argument_view a ≡ passed_as inputs plain cell.now.node (form_view cell.now.form)) }
{
    if plain {
        plain_argument(alloc, inputs, cell.node, &cell.form)
    } else {
        Ok(Argument::Named(own(cell.node)))
    }
}

/// Records the argument for a cell.
pub fn pass_cell<A: Allocator>(
    alloc: Global,
    passed: &mut IndexMap<u32, Argument>,
    inputs: usize,
    cell: &Cell<A>,
    plain: bool,
) -> Result<(), AllocError>
    ensures { OnOk result (FormRoom inputs (form_view cell.now.form)
        → Puts cell.now.node (passed_as inputs plain cell.now.node (form_view cell.now.form)) passed.old passed.new) }
{
    let argument = argument(alloc, inputs, cell, plain)?;
    passed.insert(cell.node, argument)?;
    Ok(())
}

/// Records the argument for the part at this index. A call has none.
fn pass_part<A: Allocator>(
    alloc: Global,
    passed: &mut IndexMap<u32, Argument>,
    inputs: usize,
    parts: &Vec<CellPart<A>, A>,
    at: usize,
) -> Result<(), AllocError>
    requires { at < length parts.now.items }
    ensures { OnOk result ((all : List core.Part) → Each (PartRoom inputs) (parts_view parts.now.items) → Inside all (parts_view parts.now.items)
        → Passes inputs all (part_at (parts_view parts.now.items) at) passed.old passed.new) }
{
    match &parts[at] {
        CellPart::Calls(_) => Ok(()),
        CellPart::Inner(cell) => {
            let plain = is_plain(parts, at, &cell.form);
            pass_cell(alloc, passed, inputs, cell, plain)
        }
    }
}

/// Records the arguments for the cells among these parts.
pub fn pass_parts<A: Allocator>(
    alloc: Global,
    passed: &mut IndexMap<u32, Argument>,
    inputs: usize,
    parts: &Vec<CellPart<A>, A>,
) -> Result<(), AllocError>
    ensures { OnOk result ((all : List core.Part) → Each (PartRoom inputs) (parts_view parts.now.items) → Inside all (parts_view parts.now.items)
        → Passes inputs all (parts_view parts.now.items) passed.old passed.new) }
{
    for at in 0..parts.len() {
        pass_part(alloc, passed, inputs, parts, at)?;
    }
    Ok(())
}

/// Returns the argument for the cell of this node, if one is recorded.
pub fn handed(passed: &IndexMap<u32, Argument>, node: u32) -> Result<Option<Argument>, AllocError>
    ensures { IfOk result (λ found. option_map code_view.argument_view found ≡ handed_in passed.now node) }
{
    match passed.get(&node) {
        None => Ok(None),
        Some(found) => Ok(Some(share(found)?)),
    }
}

/// Returns a copy of the argument that shares its literal.
fn share(found: &Argument) -> Result<Argument, AllocError>
    ensures { IfOk result (λ same. code_view.argument_view same ≡ code_view.argument_view found.now) }
{
    match found {
        Argument::Named(name) => Ok(Argument::Named(*name)),
        Argument::Fixed(value) => Ok(Argument::Fixed(value.share()?)),
    }
}

/// Returns the need for the element of an array at the index held by the cell of node `index`.
pub fn element(
    passed: &IndexMap<u32, Argument>,
    array: Name,
    index: u32,
) -> Result<Need, AllocError>
    ensures { IfOk result (λ need. (a : PureArgument) → handed_in passed.now index ≡ Some a
        → code_view.need_view need ≡ element_at (code_view.name_view array) a) }
{
    match passed.get(&index) {
        None => Ok(Need::At(array, own(index))),
        Some(found) => element_of(array, found),
    }
}

/// Returns the need for the element of an array at an index given as an argument.
fn element_of(array: Name, index: &Argument) -> Result<Need, AllocError>
    ensures { IfOk result (λ need. code_view.need_view need ≡ element_at (code_view.name_view array) (code_view.argument_view index.now)) }
{
    match index {
        Argument::Named(name) => Ok(Need::At(array, *name)),
        Argument::Fixed(value) => Ok(Need::AtKey(array, KeyRef::of(value).share()?)),
    }
}
