//! Emission of statements that evaluate an outermost cell in their own entry: assignments, printed lines and
//! assertions.
ghost use Rattle.std.specs.Prelude.{◌≡◌, ℤ, [], List, map, OnOk, IfOk};
ghost use Rattle.language.specs.Core as core;
ghost use Rattle.flow.specs.View.{cell_view, expr_view, form_view, name_view, outer_view};
ghost use Rattle.language_laws.specs.TypedValues.{own_cell, own_outer};
ghost use Rattle.task_code.specs.View as code_view;
ghost use Rattle.code_rules.specs.IsCodeOf.{Layout, fill_act, own_form, simple_act};
ghost use Rattle.code_rules.specs.Room.{ActionRoom, FormRoom, NameRoom, OuterRoom};
ghost use Rattle.emit_cells.specs.PlainNeeds.{need_of, IsReady};
ghost use Rattle.flow.specs.Cells.{outer_anchors};
ghost use Rattle.emit_cells.specs.Chunk.{AllAdded, Inside, Passes};
ghost use Rattle.emit_cells.specs.Marks.{IsUnmarked, MarksGrow};
ghost use Rattle.emit_statements.specs.Doing.{action_of};
ghost use Rattle.emit_statements.specs.Into.{AddsFew, AddsOwn, LaysOwn};

use crate::block_builder::add_numbers;
use crate::code_builder::CodeBuilder;
use emit_cells::cell_views::{note_seen, placed_seen};
use emit_cells::cells::{pass_cell, pass_parts};
use emit_cells::entries::{EntryOrigin, StatementContext, push_entry};
use emit_cells::names::named;
use emit_cells::needs::PlainNeed;
use emit_cells::operands::all_placed;
use emit_cells::own_cells::{add_own_data, add_own_outer};
use flow::cell::{CellForm, OuterCell};
use flow::expression::Expr;
use flow::name::Name;
use flow::script::Function;
use indexmap::{IndexMap, IndexSet};
use std::alloc::{AllocError, Allocator, Global};
use task_code::entry::{Act, Argument, Entry};

/// The context of a statement, and its node.
#[derive(Clone, Copy)]
pub struct StatementAt {
    pub standing: StatementContext,
    pub node: u32,
}

/// The use that a statement makes of the value of its own entry.
#[derive(Clone, Copy)]
pub enum ValueUse {
    Set(Name),
    Fill(Name),
    Print,
    Assert,
}

/// Records the argument for a cell that its statement evaluates itself. Only an element read has a datum to pass.
fn pass_element<A: Allocator>(
    alloc: Global,
    passed: &mut IndexMap<u32, Argument>,
    inputs: usize,
    outer: &OuterCell<A>,
) -> Result<(), AllocError>
    ensures { OnOk result ((all : List core.Part) → OuterRoom inputs (outer_view outer.now) → Inside all (own_outer (outer_view outer.now))
        → Passes inputs all (own_cell (cell_view outer.now.cell) (form_view outer.now.cell.form)) passed.old passed.new) }
{
    match &outer.cell.form {
        CellForm::Compute(_) => Ok(()),
        CellForm::Read { .. } => pass_cell(alloc, passed, inputs, &outer.cell, false),
    }
}

/// Records the arguments for the cells inside an outermost cell that its statement evaluates itself. Also records the
/// argument for the cell itself if it is an element read.
fn pass_own_outer<A: Allocator>(
    alloc: Global,
    passed: &mut IndexMap<u32, Argument>,
    inputs: usize,
    outer: &OuterCell<A>,
) -> Result<(), AllocError>
    ensures { OnOk result ((all : List core.Part) → OuterRoom inputs (outer_view outer.now) → Inside all (own_outer (outer_view outer.now))
        → Passes inputs all (own_outer (outer_view outer.now)) passed.old passed.new) }
{
    pass_parts(alloc, passed, inputs, &outer.parts)?;
    pass_element(alloc, passed, inputs, outer)?;
    Ok(())
}

/// Appends the entries of the parts of a statement that evaluates an outermost cell itself.
fn add_own_entries<A: Allocator>(
    alloc: Global,
    entries: &mut Vec<Entry>,
    functions: &Vec<Function<A>, A>,
    standing: StatementContext,
    outer: &OuterCell<A>,
) -> Result<(), AllocError>
    ensures added { OnOk result (OuterRoom standing.inputs (outer_view outer.now)
        → AllAdded functions.now.items standing (own_outer (outer_view outer.now)) entries.old.items entries.new.items) }
    ensures marks { OnOk result (MarksGrow entries.old.items entries.new.items (outer_anchors outer.now)) }
{
    let mut passed = IndexMap::new(alloc);
    pass_own_outer(alloc, &mut passed, standing.inputs, outer)?;
    add_own_outer(alloc, entries, functions, standing, &passed, outer)?;
    Ok(())
}

/// Creates the act that fills an array with the value of an expression.
///
/// The act copies an array, or inserts the elements of an array literal. Any other expression has no elements.
fn filled<A: Allocator>(
    alloc: Global,
    needs: &IndexSet<PlainNeed>,
    inputs: usize,
    array: Name,
    expr: &Expr<A>,
) -> Result<Act, AllocError>
    ensures does { IfOk result (λ act. (l : Layout) → IsReady needs.now.keys → NameRoom inputs (name_view array)
        → FormRoom inputs (core.compute (expr_view expr.now))
        → code_view.act_view act ≡ fill_act l inputs (map need_of needs.now.keys) (name_view array) (expr_view expr.now)) }
    ensures unmarked { IfOk result (λ act. IsUnmarked (code_view.act_view act)) }
{
    match expr {
        Expr::Whole(_) => Ok(Act::Copy(named(inputs, array, true))),
        Expr::Operation(_, elements) => Ok(Act::Fill(
            named(inputs, array, true),
            all_placed(alloc, needs, inputs, elements)?,
        )),
        Expr::Number(_) | Expr::Text(_) | Expr::Truth(_) | Expr::Name(_) => {
            Ok(Act::Fill(named(inputs, array, true), Vec::new(alloc)))
        }
    }
}

/// Creates the act of a statement that fills an array. A cell that reads an element has no elements.
fn fill<A: Allocator>(
    alloc: Global,
    needs: &IndexSet<PlainNeed>,
    inputs: usize,
    array: Name,
    outer: &OuterCell<A>,
) -> Result<Act, AllocError>
    ensures does { IfOk result (λ act. (l : Layout) → IsReady needs.now.keys → NameRoom inputs (name_view array) → FormRoom inputs (form_view outer.now.cell.form)
        → code_view.act_view act ≡ fill_act l inputs (map need_of needs.now.keys) (name_view array)
        (own_form outer.now.cell.node (form_view outer.now.cell.form))) }
    ensures unmarked { IfOk result (λ act. IsUnmarked (code_view.act_view act)) }
{
    match &outer.cell.form {
        CellForm::Compute(expr) => filled(alloc, needs, inputs, array, expr),
        CellForm::Read { .. } => Ok(Act::Fill(named(inputs, array, true), Vec::new(alloc))),
    }
}

/// Creates the act of a statement that evaluates an outermost cell itself.
fn act_of<A: Allocator>(
    alloc: Global,
    needs: &IndexSet<PlainNeed>,
    inputs: usize,
    done: ValueUse,
    outer: &OuterCell<A>,
) -> Result<Act, AllocError>
    ensures does { IfOk result (λ act. (l : Layout) (p : ℤ) → IsReady needs.now.keys → ActionRoom inputs (action_of done p (outer_view outer.now))
        → code_view.act_view act ≡ simple_act l inputs (map need_of needs.now.keys) (action_of done p (outer_view outer.now))) }
    ensures unmarked { IfOk result (λ act. IsUnmarked (code_view.act_view act)) }
{
    match done {
        ValueUse::Set(target) => Ok(Act::Set(
            named(inputs, target, false),
            placed_seen(alloc, needs, inputs, &outer.cell, true)?,
        )),
        ValueUse::Print => Ok(Act::Print(placed_seen(alloc, needs, inputs, &outer.cell, true)?)),
        ValueUse::Assert => Ok(Act::Assert(placed_seen(alloc, needs, inputs, &outer.cell, true)?)),
        ValueUse::Fill(array) => fill(alloc, needs, inputs, array, outer),
    }
}

/// Appends the own entry of a statement that evaluates an outermost cell itself.
fn add_own<A: Allocator>(
    alloc: Global,
    entries: &mut Vec<Entry>,
    statement: StatementAt,
    done: ValueUse,
    outer: &OuterCell<A>,
) -> Result<(), AllocError>
    ensures own { OnOk result (AddsOwn statement (action_of done statement.standing.priority (outer_view outer.now)) entries.old.items entries.new.items) }
    ensures marks { OnOk result (MarksGrow entries.old.items entries.new.items []) }
{
    let standing = statement.standing;
    let shown = EntryOrigin {
        node: statement.node,
        offset: standing.at,
    };
    let mut needs = IndexSet::new(alloc);
    note_seen(&mut needs, standing.inputs, &outer.cell, true)?;
    let act = act_of(alloc, &needs, standing.inputs, done, outer)?;
    push_entry(alloc, entries, standing, shown, &needs, act)?;
    Ok(())
}

impl CodeBuilder {
    /// Emits a statement that evaluates an outermost cell itself: the entries and data of its parts, then its own
    /// entry.
    pub fn own<A: Allocator>(
        &mut self,
        functions: &Vec<Function<A>, A>,
        statement: StatementAt,
        done: ValueUse,
        outer: &OuterCell<A>,
    ) -> Result<(), AllocError>
        ensures laid { OnOk result (LaysOwn functions.now.items statement (action_of done statement.standing.priority (outer_view outer.now))
            self.old.entries.items self.new.entries.items self.old.filling self.new.filling) }
        ensures few { OnOk result (AddsFew statement (action_of done statement.standing.priority (outer_view outer.now))
            self.old.entries.items self.new.entries.items) }
        ensures marks { OnOk result (MarksGrow self.old.entries.items self.new.entries.items (outer_anchors outer.now)) }
    {
        let from = self.entries.len();
        add_own_entries(
            self.alloc,
            &mut self.entries,
            functions,
            statement.standing,
            outer,
        )?;
        add_own_data(&mut self.filling.makes, outer)?;
        add_own(self.alloc, &mut self.entries, statement, done, outer)?;
        add_numbers(&mut self.filling.entries, from, self.entries.len())?;
        Ok(())
    }
}
