//! Emission of the parts of statements with blocks: those of a condition and of a range.
ghost use Rattle.std.specs.Prelude.{◌≡◌, ◌≤◌, ◌^◌, ◌∷◌, ◌++◌, [], List, None, length, map, option_map, OnOk};
ghost use Rattle.language.specs.Core as core;
ghost use Rattle.language.specs.Parts.{outer_parts};
ghost use Rattle.flow.specs.View.{outer_view};
ghost use Rattle.task_code.specs.Code as pure;
ghost use Rattle.task_code.specs.View as code_view;
ghost use Rattle.code_rules.specs.IsCodeOf.{Layout};
ghost use Rattle.code_rules.specs.Laying.{data_in};
ghost use Rattle.code_rules.specs.Room.{OuterRoom, StepRoom};
ghost use Rattle.flow.specs.Cells.{outer_anchors, range_anchors};
ghost use Rattle.emit_cells.specs.Chunk.{AddedFor, AllAdded, Inside, IsPassed, Passes};
ghost use Rattle.emit_cells.specs.Marks.{MarksGrow};
ghost use Rattle.emit_statements.specs.Blocks.{FewParts, PartsLaid, range_outers};

use crate::block_builder::add_numbers;
use crate::code_builder::CodeBuilder;
use crate::steps::{add_step, add_step_data, pass_step};
use emit_cells::entries::StatementContext;
use emit_cells::outers::{add_outer, pass_outer};
use emit_cells::own_cells::add_outer_data;
use flow::cell::OuterCell;
use flow::script::Function;
use flow::statement::Range;
use indexmap::IndexMap;
use std::alloc::{AllocError, Allocator, Global};
use task_code::entry::{Argument, Entry, Variable};

// CONDITIONS

/// Appends the entries of a condition.
fn add_condition<A: Allocator>(
    alloc: Global,
    entries: &mut Vec<Entry>,
    functions: &Vec<Function<A>, A>,
    standing: StatementContext,
    condition: &OuterCell<A>,
) -> Result<(), AllocError>
    ensures added { OnOk result (OuterRoom standing.inputs (outer_view condition.now)
        → AllAdded functions.now.items standing (outer_parts (outer_view condition.now ∷ [])) entries.old.items entries.new.items) }
    ensures marks { OnOk result (MarksGrow entries.old.items entries.new.items (outer_anchors condition.now)) }
{
    let mut passed = IndexMap::new(alloc);
    pass_outer(alloc, &mut passed, standing.inputs, condition)?;
    add_outer(alloc, entries, functions, standing, &passed, condition)?;
    Ok(())
}

impl CodeBuilder {
    /// Emits the parts of a condition: their entries and data.
    pub fn condition_parts<A: Allocator>(
        &mut self,
        functions: &Vec<Function<A>, A>,
        standing: StatementContext,
        condition: &OuterCell<A>,
    ) -> Result<(), AllocError>
        ensures laid { OnOk result ((bodies : List pure.Body) → OuterRoom standing.inputs (outer_view condition.now) → length self.new.entries.items ≤ 2 ^ 32
            → PartsLaid functions.now.items standing (outer_parts (outer_view condition.now ∷ [])) bodies
            self.old.entries.items self.new.entries.items self.old.filling self.new.filling) }
        ensures few { OnOk result ((l : Layout) → OuterRoom standing.inputs (outer_view condition.now)
            → FewParts l (outer_parts (outer_view condition.now ∷ [])) self.old.entries.items self.new.entries.items) }
        ensures marks { OnOk result (MarksGrow self.old.entries.items self.new.entries.items (outer_anchors condition.now)) }
    {
        let from = self.entries.len();
        add_condition(
            self.alloc,
            &mut self.entries,
            functions,
            standing,
            condition,
        )?;
        add_outer_data(&mut self.filling.makes, condition)?;
        add_numbers(&mut self.filling.entries, from, self.entries.len())?;
        Ok(())
    }
}

// RANGES

/// Records the arguments for the cells of a range.
fn pass_range<A: Allocator>(
    alloc: Global,
    passed: &mut IndexMap<u32, Argument>,
    inputs: usize,
    range: &Range<A>,
) -> Result<(), AllocError>
    ensures { OnOk result ((all : List core.Part) → OuterRoom inputs (outer_view range.now.low) → OuterRoom inputs (outer_view range.now.high)
        → StepRoom inputs (option_map outer_view range.now.step)
        → Inside all (outer_parts (range_outers range.now)) → Passes inputs all (outer_parts (range_outers range.now)) passed.old passed.new) }
{
    pass_outer(alloc, passed, inputs, &range.low)?;
    pass_outer(alloc, passed, inputs, &range.high)?;
    pass_step(alloc, passed, inputs, &range.step)?;
    Ok(())
}

/// Appends the entries of the bounds of a range and of its step, given the recorded arguments.
fn add_bounds<A: Allocator>(
    alloc: Global,
    entries: &mut Vec<Entry>,
    functions: &Vec<Function<A>, A>,
    standing: StatementContext,
    passed: &IndexMap<u32, Argument>,
    range: &Range<A>,
) -> Result<(), AllocError>
    ensures added { OnOk result ((all : List core.Part) → IsPassed standing.inputs all passed.now → OuterRoom standing.inputs (outer_view range.now.low)
        → OuterRoom standing.inputs (outer_view range.now.high)
        → StepRoom standing.inputs (option_map outer_view range.now.step) → Inside all (outer_parts (range_outers range.now))
        → AddedFor functions.now.items standing all (outer_parts (range_outers range.now)) entries.old.items entries.new.items) }
    ensures marks { OnOk result (MarksGrow entries.old.items entries.new.items (range_anchors range.now)) }
{
    add_outer(alloc, entries, functions, standing, passed, &range.low)?;
    add_outer(alloc, entries, functions, standing, passed, &range.high)?;
    add_step(alloc, entries, functions, standing, passed, &range.step)?;
    Ok(())
}

/// Appends the entries of the bounds of a range and of its step.
fn add_range_entries<A: Allocator>(
    alloc: Global,
    entries: &mut Vec<Entry>,
    functions: &Vec<Function<A>, A>,
    standing: StatementContext,
    range: &Range<A>,
) -> Result<(), AllocError>
    ensures added { OnOk result (OuterRoom standing.inputs (outer_view range.now.low) → OuterRoom standing.inputs (outer_view range.now.high)
        → StepRoom standing.inputs (option_map outer_view range.now.step)
        → AllAdded functions.now.items standing (outer_parts (range_outers range.now)) entries.old.items entries.new.items) }
    ensures marks { OnOk result (MarksGrow entries.old.items entries.new.items (range_anchors range.now)) }
{
    let mut passed = IndexMap::new(alloc);
    pass_range(alloc, &mut passed, standing.inputs, range)?;
    add_bounds(alloc, entries, functions, standing, &passed, range)?;
    Ok(())
}

/// Appends the data of the bounds of a range and of its step.
fn add_range_data<A: Allocator>(
    makes: &mut Vec<Variable>,
    range: &Range<A>,
) -> Result<(), AllocError>
    ensures { OnOk result (map code_view.variable_view makes.new.items
        ≡ map code_view.variable_view makes.old.items ++ data_in None (outer_parts (range_outers range.now))) }
{
    add_outer_data(makes, &range.low)?;
    add_outer_data(makes, &range.high)?;
    add_step_data(makes, &range.step)?;
    Ok(())
}

impl CodeBuilder {
    /// Emits the parts of a range: the entries and data of its bounds and its step.
    pub fn range_parts<A: Allocator>(
        &mut self,
        functions: &Vec<Function<A>, A>,
        standing: StatementContext,
        range: &Range<A>,
    ) -> Result<(), AllocError>
        ensures laid { OnOk result ((bodies : List pure.Body) → OuterRoom standing.inputs (outer_view range.now.low)
            → OuterRoom standing.inputs (outer_view range.now.high) → StepRoom standing.inputs (option_map outer_view range.now.step)
            → length self.new.entries.items ≤ 2 ^ 32
            → PartsLaid functions.now.items standing (outer_parts (range_outers range.now)) bodies
            self.old.entries.items self.new.entries.items self.old.filling self.new.filling) }
        ensures few { OnOk result ((l : Layout) → OuterRoom standing.inputs (outer_view range.now.low) → OuterRoom standing.inputs (outer_view range.now.high)
            → StepRoom standing.inputs (option_map outer_view range.now.step)
            → FewParts l (outer_parts (range_outers range.now)) self.old.entries.items self.new.entries.items) }
        ensures marks { OnOk result (MarksGrow self.old.entries.items self.new.entries.items (range_anchors range.now)) }
    {
        let from = self.entries.len();
        add_range_entries(self.alloc, &mut self.entries, functions, standing, range)?;
        add_range_data(&mut self.filling.makes, range)?;
        add_numbers(&mut self.filling.entries, from, self.entries.len())?;
        Ok(())
    }
}
