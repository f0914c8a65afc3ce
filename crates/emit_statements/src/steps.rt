//! The step of a range. A missing step has no cells and the value 1.
ghost use Rattle.std.specs.Prelude.{◌≡◌, ◌++◌, List, None, option_map, map, IfOk, OnOk};
ghost use Rattle.language.specs.Core as core;
ghost use Rattle.flow.specs.View.{outer_view};
ghost use Rattle.task_code.specs.View as code_view;
ghost use Rattle.code_rules.specs.CodeNames.{over, wanted};
ghost use Rattle.code_rules.specs.Laying.{data_in};
ghost use Rattle.code_rules.specs.Room.{StepRoom};
ghost use Rattle.emit_cells.specs.PlainNeeds.{need_of, IsReady, Notes};
ghost use Rattle.flow.specs.Cells.{step_anchors};
ghost use Rattle.emit_cells.specs.Chunk.{AddedFor, Inside, IsPassed, Passes};
ghost use Rattle.emit_cells.specs.Marks.{MarksGrow};
ghost use Rattle.emit_statements.specs.Blocks.{seen_step, step_parts};

use emit_cells::cell_views::{note_seen, placed_seen};
use emit_cells::entries::StatementContext;
use emit_cells::needs::PlainNeed;
use emit_cells::outers::{add_outer, pass_outer};
use emit_cells::own_cells::add_outer_data;
use emit_cells::plain::is_outer_plain;
use flow::cell::OuterCell;
use flow::script::Function;
use indexmap::{IndexMap, IndexSet};
use std::alloc::{AllocError, Allocator, Global};
use task_code::entry::{Argument, Entry, Variable};
use task_code::expr;
use values::value::Scalar;

/// Records the arguments for the cells of a step.
pub fn pass_step<A: Allocator>(
    alloc: Global,
    passed: &mut IndexMap<u32, Argument>,
    inputs: usize,
    step: &Option<OuterCell<A>>,
) -> Result<(), AllocError>
    ensures { OnOk result ((all : List core.Part) → StepRoom inputs (option_map outer_view step.now) → Inside all (step_parts step.now)
        → Passes inputs all (step_parts step.now) passed.old passed.new) }
{
    match step {
        None => Ok(()),
        Some(outer) => pass_outer(alloc, passed, inputs, outer),
    }
}

/// Appends the entries of the cells of a step.
pub fn add_step<A: Allocator>(
    alloc: Global,
    entries: &mut Vec<Entry>,
    functions: &Vec<Function<A>, A>,
    standing: StatementContext,
    passed: &IndexMap<u32, Argument>,
    step: &Option<OuterCell<A>>,
) -> Result<(), AllocError>
    ensures added { OnOk result ((all : List core.Part) → IsPassed standing.inputs all passed.now → StepRoom standing.inputs (option_map outer_view step.now)
        → Inside all (step_parts step.now)
        → AddedFor functions.now.items standing all (step_parts step.now) entries.old.items entries.new.items) }
    ensures marks { OnOk result (MarksGrow entries.old.items entries.new.items (step_anchors step.now)) }
{
    match step {
        None => Ok(()),
        Some(outer) => add_outer(alloc, entries, functions, standing, passed, outer),
    }
}

/// Appends the data of the cells of a step.
pub fn add_step_data<A: Allocator>(
    makes: &mut Vec<Variable>,
    step: &Option<OuterCell<A>>,
) -> Result<(), AllocError>
    ensures { OnOk result (map code_view.variable_view makes.new.items ≡ map code_view.variable_view makes.old.items ++ data_in None (step_parts step.now)) }
{
    match step {
        None => Ok(()),
        Some(outer) => add_outer_data(makes, outer),
    }
}

/// Adds the needs of a step.
pub fn note_step<A: Allocator>(
    needs: &mut IndexSet<PlainNeed>,
    inputs: usize,
    step: &Option<OuterCell<A>>,
) -> Result<(), AllocError>
    ensures { OnOk result (StepRoom inputs (option_map outer_view step.now)
        → Notes needs.old.keys needs.new.keys (wanted inputs (seen_step (option_map outer_view step.now)))) }
{
    match step {
        None => Ok(()),
        Some(outer) => note_seen(needs, inputs, &outer.cell, is_outer_plain(outer)),
    }
}

/// Returns the step as an expression over these needs, or the constant 1 if it is missing.
pub fn placed_step<A: Allocator>(
    alloc: Global,
    needs: &IndexSet<PlainNeed>,
    inputs: usize,
    step: &Option<OuterCell<A>>,
) -> Result<expr::Expr, AllocError>
    ensures { IfOk result (λ e. IsReady needs.now.keys → StepRoom inputs (option_map outer_view step.now)
        → code_view.expr_view e ≡ over inputs (map need_of needs.now.keys) (seen_step (option_map outer_view step.now))) }
{
    match step {
        None => Ok(expr::Expr::Constant(Scalar::Number(1))),
        Some(outer) => placed_seen(alloc, needs, inputs, &outer.cell, is_outer_plain(outer)),
    }
}
