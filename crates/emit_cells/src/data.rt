//! Block data of the parts of a statement: those of cells that are not plain, and the outputs of calls in expressions.
ghost use Rattle.std.specs.Prelude.{◌≡◌, ◌<◌, ◌∷◌, ◌++◌, [], None, length, map, OnOk};
ghost use Rattle.flow.specs.View.{name_view, names_view, parts_view};
ghost use Rattle.task_code.specs.Code.{scalar};
ghost use Rattle.task_code.specs.View.{variable_view};
ghost use Rattle.code_rules.specs.Laying.{data_in, local_node, one_output, output_scalars};
ghost use Rattle.emit_cells.specs.Before.{before};
ghost use Rattle.emit_cells.specs.Chunk.{part_at};

use crate::plain::{is_plain, local_node};
use flow::cell::CellPart;
use flow::name::Name;
use std::alloc::{AllocError, Allocator};
use task_code::entry::Variable;

/// Appends the scalar of a node.
pub fn add_scalar(makes: &mut Vec<Variable>, node: u32) -> Result<(), AllocError>
    ensures { OnOk result (map variable_view makes.new.items ≡ map variable_view makes.old.items ++ scalar node ∷ []) }
{
    makes.push(Variable { node, array: false })?;
    Ok(())
}

/// Appends the scalar of an output of a call in an expression.
fn add_output(makes: &mut Vec<Variable>, name: Name) -> Result<(), AllocError>
    ensures { OnOk result (map variable_view makes.new.items ≡ map variable_view makes.old.items ++ one_output (local_node (name_view name))) }
{
    match local_node(name) {
        None => Ok(()),
        Some(node) => add_scalar(makes, node),
    }
}

/// Appends the scalars of the outputs of a call in an expression.
fn add_outputs<A: Allocator>(
    makes: &mut Vec<Variable>,
    names: &Vec<Name, A>,
) -> Result<(), AllocError>
    ensures { OnOk result (map variable_view makes.new.items ≡ map variable_view makes.old.items ++ output_scalars (names_view names.now.items)) }
{
    for name in names {
        add_output(makes, *name)?;
    }
    Ok(())
}

/// Appends the data of the part at this index.
fn add_part_data<A: Allocator>(
    makes: &mut Vec<Variable>,
    parts: &Vec<CellPart<A>, A>,
    at: usize,
) -> Result<(), AllocError>
    requires { at < length parts.now.items }
    ensures { OnOk result (map variable_view makes.new.items
        ≡ map variable_view makes.old.items ++ data_in (before (parts_view parts.now.items) at) (part_at (parts_view parts.now.items) at)) }
{
    match &parts[at] {
        CellPart::Calls(call) => add_outputs(makes, &call.outputs),
        CellPart::Inner(cell) => {
            let plain = is_plain(parts, at, &cell.form);
            if plain {
                Ok(())
            } else {
                add_scalar(makes, cell.node)
            }
        }
    }
}

/// Appends the data of these parts.
pub fn add_data<A: Allocator>(
    makes: &mut Vec<Variable>,
    parts: &Vec<CellPart<A>, A>,
) -> Result<(), AllocError>
    ensures { OnOk result (map variable_view makes.new.items ≡ map variable_view makes.old.items ++ data_in None (parts_view parts.now.items)) }
{
    for at in 0..parts.len() {
        add_part_data(makes, parts, at)?;
    }
    Ok(())
}
