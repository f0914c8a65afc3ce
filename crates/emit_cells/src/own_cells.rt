//! Outermost cells that a statement evaluates in its own entry, and the data of outermost cells.
ghost use Rattle.std.specs.Prelude.{◌≡◌, ◌∷◌, ◌++◌, [], List, None, map, OnOk};
ghost use Rattle.language.specs.Core as core;
ghost use Rattle.flow.specs.View.{cell_view, form_view, outer_view, parts_view};
ghost use Rattle.language_laws.specs.TypedValues.{own_cell, own_outer};
ghost use Rattle.task_code.specs.View.{variable_view};
ghost use Rattle.code_rules.specs.Laying.{Kinds, data_in};
ghost use Rattle.code_rules.specs.Room.{OuterRoom};
ghost use Rattle.emit_cells.specs.Before.{last_of};
ghost use Rattle.flow.specs.Cells.{anchor_of, outer_anchors};
ghost use Rattle.emit_cells.specs.Chunk.{Added, AddedFor, Inside, IsPassed, parts_inside};
ghost use Rattle.emit_cells.specs.Marks.{MarksGrow};

use crate::data::{add_data, add_scalar};
use crate::entries::StatementContext;
use crate::layout::add_parts;
use crate::parts::add_cell;
use crate::plain::is_outer_plain;
use flow::cell::{CellForm, OuterCell};
use flow::script::Function;
use indexmap::IndexMap;
use std::alloc::{AllocError, Allocator, Global};
use task_code::entry::{Argument, Entry, Variable};

/// Appends the entry of a cell that its statement evaluates itself. Only an element read has one.
fn add_element<A: Allocator>(
    alloc: Global,
    entries: &mut Vec<Entry>,
    standing: StatementContext,
    passed: &IndexMap<u32, Argument>,
    outer: &OuterCell<A>,
) -> Result<(), AllocError>
    ensures added { OnOk result ((fs : List Kinds) (all : List core.Part) → IsPassed standing.inputs all passed.now
        → OuterRoom standing.inputs (outer_view outer.now) → Inside all (own_outer (outer_view outer.now))
        → Added fs standing.inputs all standing.at standing.priority (own_cell (cell_view outer.now.cell) (form_view outer.now.cell.form))
        entries.old.items entries.new.items) }
    ensures marks { OnOk result (MarksGrow entries.old.items entries.new.items (anchor_of outer.now.cell ∷ [])) }
{
    match &outer.cell.form {
        CellForm::Compute(_) => Ok(()),
        CellForm::Read { .. } => add_cell(alloc, entries, standing, passed, &outer.cell),
    }
}

/// Appends the entries of an outermost cell that its statement evaluates itself: those of its parts, and its own if it
/// is an element read.
pub fn add_own_outer<A: Allocator>(
    alloc: Global,
    entries: &mut Vec<Entry>,
    functions: &Vec<Function<A>, A>,
    standing: StatementContext,
    passed: &IndexMap<u32, Argument>,
    outer: &OuterCell<A>,
) -> Result<(), AllocError>
    ensures added { OnOk result ((all : List core.Part) → IsPassed standing.inputs all passed.now → OuterRoom standing.inputs (outer_view outer.now)
        → Inside all (own_outer (outer_view outer.now))
        → AddedFor functions.now.items standing all (own_outer (outer_view outer.now)) entries.old.items entries.new.items) }
    ensures marks { OnOk result (MarksGrow entries.old.items entries.new.items (outer_anchors outer.now)) }
{
    add_parts(alloc, entries, functions, standing, passed, &outer.parts)?;
    add_element(alloc, entries, standing, passed, outer)?;
    Ok(())
}

/// Appends the datum of an outermost cell, unless the cell is plain.
fn add_datum<A: Allocator>(
    makes: &mut Vec<Variable>,
    outer: &OuterCell<A>,
) -> Result<(), AllocError>
    ensures { OnOk result (map variable_view makes.new.items
        ≡ map variable_view makes.old.items ++ data_in (last_of None (parts_view outer.now.parts.items)) (core.inner (cell_view outer.now.cell) ∷ [])) }
{
    if is_outer_plain(outer) {
        Ok(())
    } else {
        add_scalar(makes, outer.cell.node)
    }
}

/// Appends the data of an outermost cell: those of its parts, then its own.
pub fn add_outer_data<A: Allocator>(
    makes: &mut Vec<Variable>,
    outer: &OuterCell<A>,
) -> Result<(), AllocError>
    ensures { OnOk result (map variable_view makes.new.items ≡ map variable_view makes.old.items ++ data_in None (parts_inside outer.now)) }
{
    add_data(makes, &outer.parts)?;
    add_datum(makes, outer)?;
    Ok(())
}

/// Appends the datum of a cell that its statement evaluates itself. Only an element read has one.
fn add_element_datum<A: Allocator>(
    makes: &mut Vec<Variable>,
    outer: &OuterCell<A>,
) -> Result<(), AllocError>
    ensures { OnOk result (map variable_view makes.new.items
        ≡ map variable_view makes.old.items
        ++ data_in (last_of None (parts_view outer.now.parts.items)) (own_cell (cell_view outer.now.cell) (form_view outer.now.cell.form))) }
{
    match &outer.cell.form {
        CellForm::Compute(_) => Ok(()),
        CellForm::Read { .. } => add_scalar(makes, outer.cell.node),
    }
}

/// Appends the data of an outermost cell that its statement evaluates itself.
pub fn add_own_data<A: Allocator>(
    makes: &mut Vec<Variable>,
    outer: &OuterCell<A>,
) -> Result<(), AllocError>
    ensures { OnOk result (map variable_view makes.new.items ≡ map variable_view makes.old.items ++ data_in None (own_outer (outer_view outer.now))) }
{
    add_data(makes, &outer.parts)?;
    add_element_datum(makes, outer)?;
    Ok(())
}
