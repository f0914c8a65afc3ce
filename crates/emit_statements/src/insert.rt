//! Emission of element writes.
ghost use Rattle.std.specs.Prelude.{◌≡◌, ◌∷◌, ◌++◌, [], map, None, OnOk};
ghost use Rattle.language.specs.Core as core;
ghost use Rattle.language.specs.Parts.{outer_parts};
ghost use Rattle.flow.specs.View.{name_view, outer_view};
ghost use Rattle.task_code.specs.View as code_view;
ghost use Rattle.code_rules.specs.Laying.{data_in};
ghost use Rattle.code_rules.specs.Room.{OuterRoom};
ghost use Rattle.flow.specs.Cells.{outer_anchors};
ghost use Rattle.emit_cells.specs.Chunk.{AllAdded};
ghost use Rattle.emit_cells.specs.Marks.{MarksGrow};
ghost use Rattle.emit_statements.specs.Into.{AddsFew, AddsOwn, LaysOwn};

use crate::block_builder::add_numbers;
use crate::code_builder::CodeBuilder;
use crate::own::StatementAt;
use emit_cells::cell_views::{note_seen, placed_seen};
use emit_cells::entries::{EntryOrigin, StatementContext, push_entry};
use emit_cells::names::named;
use emit_cells::outers::{add_outer, pass_outer};
use emit_cells::own_cells::add_outer_data;
use emit_cells::plain::is_outer_plain;
use flow::cell::OuterCell;
use flow::name::Name;
use flow::script::Function;
use indexmap::{IndexMap, IndexSet};
use std::alloc::{AllocError, Allocator, Global};
use task_code::entry::{Act, Entry, Variable};

/// Appends the entries of two outermost cells, including those of the parts inside them.
fn add_two_entries<A: Allocator>(
    alloc: Global,
    entries: &mut Vec<Entry>,
    functions: &Vec<Function<A>, A>,
    standing: StatementContext,
    one: &OuterCell<A>,
    two: &OuterCell<A>,
) -> Result<(), AllocError>
    ensures added { OnOk result (OuterRoom standing.inputs (outer_view one.now) → OuterRoom standing.inputs (outer_view two.now)
        → AllAdded functions.now.items standing (outer_parts (outer_view one.now ∷ outer_view two.now ∷ [])) entries.old.items entries.new.items) }
    ensures marks { OnOk result (MarksGrow entries.old.items entries.new.items (outer_anchors one.now ++ outer_anchors two.now)) }
{
    let mut passed = IndexMap::new(alloc);
    pass_outer(alloc, &mut passed, standing.inputs, one)?;
    pass_outer(alloc, &mut passed, standing.inputs, two)?;
    add_outer(alloc, entries, functions, standing, &passed, one)?;
    add_outer(alloc, entries, functions, standing, &passed, two)?;
    Ok(())
}

/// Appends the data of two outermost cells.
fn add_two_data<A: Allocator>(
    makes: &mut Vec<Variable>,
    one: &OuterCell<A>,
    two: &OuterCell<A>,
) -> Result<(), AllocError>
    ensures { OnOk result (map code_view.variable_view makes.new.items
        ≡ map code_view.variable_view makes.old.items ++ data_in None (outer_parts (outer_view one.now ∷ outer_view two.now ∷ []))) }
{
    add_outer_data(makes, one)?;
    add_outer_data(makes, two)?;
    Ok(())
}

/// Appends the own entry of an element write.
fn add_put<A: Allocator>(
    alloc: Global,
    entries: &mut Vec<Entry>,
    statement: StatementAt,
    array: Name,
    index: &OuterCell<A>,
    right: &OuterCell<A>,
) -> Result<(), AllocError>
    ensures own { OnOk result (AddsOwn statement (core.insert (name_view array) (outer_view index.now) (outer_view right.now))
        entries.old.items entries.new.items) }
    ensures marks { OnOk result (MarksGrow entries.old.items entries.new.items []) }
{
    let standing = statement.standing;
    let inputs = standing.inputs;
    let shown = EntryOrigin {
        node: statement.node,
        offset: standing.at,
    };
    let plain_index = is_outer_plain(index);
    let plain_right = is_outer_plain(right);
    let mut needs = IndexSet::new(alloc);
    note_seen(&mut needs, inputs, &index.cell, plain_index)?;
    note_seen(&mut needs, inputs, &right.cell, plain_right)?;
    let place = placed_seen(alloc, &needs, inputs, &index.cell, plain_index)?;
    let value = placed_seen(alloc, &needs, inputs, &right.cell, plain_right)?;
    let act = Act::InsertElement(named(inputs, array, true), place, value);
    push_entry(alloc, entries, standing, shown, &needs, act)?;
    Ok(())
}

impl CodeBuilder {
    /// Emits an element write: the entries and data of the index and the right side, then its own entry.
    pub fn insert<A: Allocator>(
        &mut self,
        functions: &Vec<Function<A>, A>,
        statement: StatementAt,
        array: Name,
        index: &OuterCell<A>,
        right: &OuterCell<A>,
    ) -> Result<(), AllocError>
        ensures laid { OnOk result (LaysOwn functions.now.items statement (core.insert (name_view array) (outer_view index.now) (outer_view right.now))
            self.old.entries.items self.new.entries.items self.old.filling self.new.filling) }
        ensures few { OnOk result (AddsFew statement (core.insert (name_view array) (outer_view index.now) (outer_view right.now))
            self.old.entries.items self.new.entries.items) }
        ensures marks { OnOk result (MarksGrow self.old.entries.items self.new.entries.items (outer_anchors index.now ++ outer_anchors right.now)) }
    {
        let from = self.entries.len();
        add_two_entries(
            self.alloc,
            &mut self.entries,
            functions,
            statement.standing,
            index,
            right,
        )?;
        add_two_data(&mut self.filling.makes, index, right)?;
        add_put(
            self.alloc,
            &mut self.entries,
            statement,
            array,
            index,
            right,
        )?;
        add_numbers(&mut self.filling.entries, from, self.entries.len())?;
        Ok(())
    }
}
