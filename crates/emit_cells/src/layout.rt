//! Emission of the parts of a statement, in reading order.
ghost use Rattle.std.specs.Prelude.{List, OnOk};
ghost use Rattle.language.specs.Core as core;
ghost use Rattle.flow.specs.View.{parts_view};
ghost use Rattle.code_rules.specs.Room.{PartRoom, Each};
ghost use Rattle.flow.specs.Cells.{parts_anchors};
ghost use Rattle.emit_cells.specs.Chunk.{AddedFor, Inside, IsPassed};
ghost use Rattle.emit_cells.specs.Marks.{MarksGrow};

use crate::entries::StatementContext;
use crate::parts::{add_call, add_cell};
use crate::plain::is_plain;
use flow::cell::CellPart;
use flow::script::Function;
use indexmap::IndexMap;
use std::alloc::{AllocError, Allocator, Global};
use task_code::entry::{Argument, Entry};

/// Appends the entries of these parts. A plain cell has none.
pub fn add_parts<A: Allocator>(
    alloc: Global,
    entries: &mut Vec<Entry>,
    functions: &Vec<Function<A>, A>,
    standing: StatementContext,
    passed: &IndexMap<u32, Argument>,
    parts: &Vec<CellPart<A>, A>,
) -> Result<(), AllocError>
    ensures added { OnOk result ((all : List core.Part) → IsPassed standing.inputs all passed.now → Each (PartRoom standing.inputs) (parts_view parts.now.items)
        → Inside all (parts_view parts.now.items)
        → AddedFor functions.now.items standing all (parts_view parts.now.items) entries.old.items entries.new.items) }
    ensures marks { OnOk result (MarksGrow entries.old.items entries.new.items (parts_anchors parts.now.items)) }
{
    for at in 0..parts.len() {
        match &parts[at] {
            CellPart::Calls(call) => add_call(alloc, entries, functions, standing, passed, call)?,
            CellPart::Inner(cell) => {
                if !is_plain(parts, at, &cell.form) {
                    add_cell(alloc, entries, standing, passed, cell)?;
                }
            }
        }
    }
    Ok(())
}
