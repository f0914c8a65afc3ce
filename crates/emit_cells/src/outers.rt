//! Outermost cells together with the parts inside them.
ghost use Rattle.std.specs.Prelude.{◌∷◌, [], List, OnOk};
ghost use Rattle.language.specs.Core as core;
ghost use Rattle.flow.specs.View.{cell_view, outer_view};
ghost use Rattle.code_rules.specs.Room.{OuterRoom};
ghost use Rattle.flow.specs.Cells.{anchor_of, outer_anchors};
ghost use Rattle.emit_cells.specs.Chunk.{AddedFor, Inside, IsPassed, Passes, parts_inside};
ghost use Rattle.emit_cells.specs.Marks.{MarksGrow};

use crate::cells::{pass_cell, pass_parts};
use crate::entries::StatementContext;
use crate::layout::add_parts;
use crate::parts::add_cell;
use crate::plain::is_outer_plain;
use flow::cell::OuterCell;
use flow::script::Function;
use indexmap::IndexMap;
use std::alloc::{AllocError, Allocator, Global};
use task_code::entry::{Argument, Entry};

/// Records the arguments for the cells inside an outermost cell, and for the cell itself.
pub fn pass_outer<A: Allocator>(
    alloc: Global,
    passed: &mut IndexMap<u32, Argument>,
    inputs: usize,
    outer: &OuterCell<A>,
) -> Result<(), AllocError>
    ensures { OnOk result ((all : List core.Part) → OuterRoom inputs (outer_view outer.now) → Inside all (parts_inside outer.now)
        → Passes inputs all (parts_inside outer.now) passed.old passed.new) }
{
    pass_parts(alloc, passed, inputs, &outer.parts)?;
    pass_cell(alloc, passed, inputs, &outer.cell, is_outer_plain(outer))?;
    Ok(())
}

/// Appends the entry of an outermost cell, unless the cell is plain.
fn add_last<A: Allocator>(
    alloc: Global,
    entries: &mut Vec<Entry>,
    functions: &Vec<Function<A>, A>,
    standing: StatementContext,
    passed: &IndexMap<u32, Argument>,
    outer: &OuterCell<A>,
) -> Result<(), AllocError>
    ensures added { OnOk result ((all : List core.Part) → IsPassed standing.inputs all passed.now → OuterRoom standing.inputs (outer_view outer.now)
        → Inside all (parts_inside outer.now)
        → AddedFor functions.now.items standing all (core.inner (cell_view outer.now.cell) ∷ []) entries.old.items entries.new.items) }
    ensures marks { OnOk result (MarksGrow entries.old.items entries.new.items (anchor_of outer.now.cell ∷ [])) }
{
    let plain = is_outer_plain(outer);
    if plain {
        Ok(())
    } else {
        add_cell(alloc, entries, standing, passed, &outer.cell)
    }
}

/// Appends the entries of an outermost cell: those of the parts inside it, then its own.
pub fn add_outer<A: Allocator>(
    alloc: Global,
    entries: &mut Vec<Entry>,
    functions: &Vec<Function<A>, A>,
    standing: StatementContext,
    passed: &IndexMap<u32, Argument>,
    outer: &OuterCell<A>,
) -> Result<(), AllocError>
    ensures added { OnOk result ((all : List core.Part) → IsPassed standing.inputs all passed.now → OuterRoom standing.inputs (outer_view outer.now)
        → Inside all (parts_inside outer.now)
        → AddedFor functions.now.items standing all (parts_inside outer.now) entries.old.items entries.new.items) }
    ensures marks { OnOk result (MarksGrow entries.old.items entries.new.items (outer_anchors outer.now)) }
{
    add_parts(alloc, entries, functions, standing, passed, &outer.parts)?;
    add_last(alloc, entries, functions, standing, passed, outer)?;
    Ok(())
}
