//! Emission of loops: their variables and their own entries.
ghost use Rattle.std.specs.Prelude.{◌≡◌, ◌++◌, ℕ, [], Option, length, map, pos, option_map, IfOk, OnOk};
ghost use Rattle.std.specs.List.{flat_map};
ghost use Rattle.language.specs.Core as core;
ghost use Rattle.flow.specs.View.{name_view, outer_view};
ghost use Rattle.task_code.specs.Code as pure;
ghost use Rattle.task_code.specs.View as code_view;
ghost use Rattle.code_rules.specs.CodeNames.{wanted};
ghost use Rattle.code_rules.specs.Room.{NameRoom, OuterRoom, StepRoom};
ghost use Rattle.emit_cells.specs.Marks.{IsUnmarked, MarksGrow};
ghost use Rattle.emit_cells.specs.PlainNeeds.{need_of, IsReady, Notes};
ghost use Rattle.emit_statements.specs.Blocks.{Numbered, OwnAddedAs, loop_with, range_action, range_loop_act, ranged, seen_range};

use crate::block_builder::BlockBuilder;
use crate::code_builder::CodeBuilder;
use crate::own::StatementAt;
use crate::steps::{note_step, placed_step};
use emit_cells::cell_views::{note_seen, placed_seen};
use emit_cells::data::add_scalar;
use emit_cells::names::named;
use emit_cells::needs::{PlainNeed, note_name};
use emit_cells::plain::is_outer_plain;
use flow::name::Name;
use flow::statement::{Range, Variable};
use indexmap::IndexSet;
use std::alloc::{AllocError, Allocator, Global};
use task_code::entry::{self, Act, Loop};

// VARIABLES

/// Returns the node of the variable for the key or number of the turn, if the loop has one.
fn turn_node<A: Allocator>(turn: &Option<Variable<A>>) -> Option<u32>
    ensures { result ≡ option_map (λ x. x.node) turn.now }
{
    match turn {
        None => None,
        Some(variable) => Some(variable.node),
    }
}

/// Creates the description of a loop with this body and these variables.
pub fn loop_of<A: Allocator>(body: u32, value: &Variable<A>, turn: &Option<Variable<A>>) -> Loop
    ensures { code_view.loop_view result ≡ loop_with body value.now turn.now }
{
    Loop {
        body,
        value: value.node,
        turn: turn_node(turn),
    }
}

/// Appends the variable for the key or number of the turn, if the loop has one.
fn add_turn<A: Allocator>(
    makes: &mut Vec<entry::Variable>,
    turn: &Option<Variable<A>>,
) -> Result<(), AllocError>
    ensures { OnOk result (map code_view.variable_view makes.new.items
        ≡ map code_view.variable_view makes.old.items ++ pure.turn_variables (option_map (λ x. x.node) turn.now)) }
{
    match turn {
        None => Ok(()),
        Some(variable) => add_scalar(makes, variable.node),
    }
}

/// Creates the builder of the body of a loop, which declares the variables of the loop and has no entries yet.
pub fn loop_filling<A: Allocator>(
    alloc: Global,
    value: &Variable<A>,
    turn: &Option<Variable<A>>,
) -> Result<BlockBuilder, AllocError>
    ensures entries { IfOk result (λ filling. filling.entries.items ≡ []) }
    ensures makes { IfOk result (λ filling. (body : ℕ)
        → map code_view.variable_view filling.makes.items ≡ pure.loop_variables (loop_with body value.now turn.now)) }
{
    let mut makes = Vec::new(alloc);
    add_scalar(&mut makes, value.node)?;
    add_turn(&mut makes, turn)?;
    Ok(BlockBuilder {
        makes,
        entries: Vec::new(alloc),
    })
}

// RANGES

/// Adds the needs of a range.
fn note_range<A: Allocator>(
    needs: &mut IndexSet<PlainNeed>,
    inputs: usize,
    range: &Range<A>,
) -> Result<(), AllocError>
    ensures { OnOk result (OuterRoom inputs (outer_view range.now.low) → OuterRoom inputs (outer_view range.now.high)
        → StepRoom inputs (option_map outer_view range.now.step)
        → Notes needs.old.keys needs.new.keys (flat_map (wanted inputs) (seen_range range.now))) }
{
    note_seen(needs, inputs, &range.low.cell, is_outer_plain(&range.low))?;
    note_seen(needs, inputs, &range.high.cell, is_outer_plain(&range.high))?;
    note_step(needs, inputs, &range.step)?;
    Ok(())
}

/// Creates the act of a loop over a range, over these needs.
fn range_act<A: Allocator>(
    alloc: Global,
    needs: &IndexSet<PlainNeed>,
    inputs: usize,
    range: &Range<A>,
    turns: Loop,
) -> Result<Act, AllocError>
    ensures does { IfOk result (λ act. IsReady needs.now.keys → OuterRoom inputs (outer_view range.now.low) → OuterRoom inputs (outer_view range.now.high)
        → StepRoom inputs (option_map outer_view range.now.step)
        → code_view.act_view act ≡ ranged inputs (code_view.loop_view turns) (map need_of needs.now.keys) (seen_range range.now)) }
    ensures unmarked { IfOk result (λ act. IsUnmarked (code_view.act_view act)) }
{
    let low = placed_seen(
        alloc,
        needs,
        inputs,
        &range.low.cell,
        is_outer_plain(&range.low),
    )?;
    let high = placed_seen(
        alloc,
        needs,
        inputs,
        &range.high.cell,
        is_outer_plain(&range.high),
    )?;
    let step = placed_step(alloc, needs, inputs, &range.step)?;
    Ok(Act::Range(low, high, step, turns))
}

impl CodeBuilder {
    /// Appends the own entry of a loop over a range and returns its number.
    pub fn add_range<A: Allocator>(
        &mut self,
        statement: StatementAt,
        range: &Range<A>,
        turns: Loop,
    ) -> Result<u32, AllocError>
        ensures number { IfOk result (λ n. Numbered n (length self.old.entries.items) self.old.filling self.new.filling) }
        ensures entry { OnOk result ((x : ℕ) (y : Option ℕ) (b : core.Block) → OuterRoom statement.standing.inputs (outer_view range.now.low)
            → OuterRoom statement.standing.inputs (outer_view range.now.high)
            → StepRoom statement.standing.inputs (option_map outer_view range.now.step) → statement.standing.priority ≡ pos 0
            → OwnAddedAs statement.standing.inputs statement.standing.at (range_action range.now x y b)
            (λ l. range_loop_act l statement.standing.inputs range.now (range_action range.now x y b) (code_view.loop_view turns))
            self.old.entries.items self.new.entries.items) }
        ensures marks { OnOk result (MarksGrow self.old.entries.items self.new.entries.items []) }
    {
        let inputs = statement.standing.inputs;
        let mut needs = IndexSet::new(self.alloc);
        note_range(&mut needs, inputs, range)?;
        let act = range_act(self.alloc, &needs, inputs, range, turns)?;
        self.add_entry(statement, &needs, act)
    }
}

// ARRAYS

impl CodeBuilder {
    /// Appends the own entry of a loop over an array and returns its number.
    pub fn add_each(
        &mut self,
        statement: StatementAt,
        array: Name,
        turns: Loop,
    ) -> Result<u32, AllocError>
        ensures number { IfOk result (λ n. Numbered n (length self.old.entries.items) self.old.filling self.new.filling) }
        ensures entry { OnOk result ((x : ℕ) (y : Option ℕ) (b : core.Block) → NameRoom statement.standing.inputs (name_view array)
            → statement.standing.priority ≡ pos 0
            → OwnAddedAs statement.standing.inputs statement.standing.at (core.each (name_view array) x y b) (λ l. pure.Each (code_view.loop_view turns))
            self.old.entries.items self.new.entries.items) }
        ensures marks { OnOk result (MarksGrow self.old.entries.items self.new.entries.items []) }
    {
        let mut needs = IndexSet::new(self.alloc);
        note_name(&mut needs, named(statement.standing.inputs, array, true))?;
        self.add_entry(statement, &needs, Act::Each(turns))
    }
}
