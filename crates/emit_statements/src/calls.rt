//! Emission of statements that call a composite function.
ghost use Rattle.std.specs.Prelude.{◌∷◌, ◌++◌, ◌+◌, ◌≤◌, ◌^◌, [], ℕ, suc, List, map, length, OnOk};
ghost use Rattle.language.specs.Core as core;
ghost use Rattle.flow.specs.Shapes.{kinds_of_function};
ghost use Rattle.flow.specs.View.{call_view, parts_view};
ghost use Rattle.language_laws.specs.TypedValues.{own_parts};
ghost use Rattle.language.specs.Parts.{parts as all_parts};
ghost use Rattle.task_code.specs.Code as pure;
ghost use Rattle.code_rules.specs.IsCodeOf.{Layout};
ghost use Rattle.code_rules.specs.Laying.{IndexesStand, Suits};
ghost use Rattle.code_rules.specs.Room.{ActionRoom, PartRoom, Each};
ghost use Rattle.flow.specs.Cells.{parts_anchors};
ghost use Rattle.emit_cells.specs.Chunk.{AllAdded};
ghost use Rattle.emit_cells.specs.Marks.{MarksGrow};
ghost use Rattle.emit_statements.specs.Into.{LaysInto, call_of, laying};

use crate::block_builder::add_numbers;
use crate::code_builder::CodeBuilder;
use emit_cells::cells::pass_parts;
use emit_cells::data::add_data;
use emit_cells::entries::StatementContext;
use emit_cells::layout::add_parts;
use emit_cells::parts::add_call;
use flow::cell::{Call, CellPart};
use flow::script::Function;
use indexmap::IndexMap;
use std::alloc::{AllocError, Allocator, Global};
use task_code::entry::Entry;

/// Appends the entries of the parts of a call, then that of the call.
fn add_call_entries<A: Allocator>(
    alloc: Global,
    entries: &mut Vec<Entry>,
    functions: &Vec<Function<A>, A>,
    standing: StatementContext,
    parts: &Vec<CellPart<A>, A>,
    call: &Call<A>,
) -> Result<(), AllocError>
    ensures added { OnOk result (Each (PartRoom standing.inputs) (parts_view parts.now.items) → PartRoom standing.inputs (core.calls (call_view call.now))
        → AllAdded functions.now.items standing (parts_view parts.now.items ++ core.calls (call_view call.now) ∷ []) entries.old.items entries.new.items) }
    ensures marks { OnOk result (MarksGrow entries.old.items entries.new.items (parts_anchors parts.now.items)) }
{
    let mut passed = IndexMap::new(alloc);
    pass_parts(alloc, &mut passed, standing.inputs, parts)?;
    add_parts(alloc, entries, functions, standing, &passed, parts)?;
    add_call(alloc, entries, functions, standing, &passed, call)?;
    Ok(())
}

impl CodeBuilder {
    /// Emits a statement that calls a composite function.
    pub fn call_alone<A: Allocator>(
        &mut self,
        functions: &Vec<Function<A>, A>,
        standing: StatementContext,
        parts: &Vec<CellPart<A>, A>,
        call: &Call<A>,
    ) -> Result<(), AllocError>
        ensures laid { OnOk result ((roots node : ℕ) (bodies : List pure.Body) → ActionRoom standing.inputs (call_of standing parts.now.items call.now)
            → length self.new.entries.items ≤ 2 ^ 32
            → LaysInto (map kinds_of_function functions.now.items) roots standing.inputs
            (core.stmt standing.at node (call_of standing parts.now.items call.now)) []
            (laying self.old.entries.items bodies) (laying self.new.entries.items bodies) self.old.filling self.new.filling) }
        ensures few { OnOk result ((l : Layout) → ActionRoom standing.inputs (call_of standing parts.now.items call.now)
            → Suits l (call_of standing parts.now.items call.now)
            → IndexesStand (own_parts (call_of standing parts.now.items call.now))
            → length self.new.entries.items ≤ length self.old.entries.items + suc (length (all_parts (call_of standing parts.now.items call.now)))) }
        ensures marks { OnOk result (MarksGrow self.old.entries.items self.new.entries.items (parts_anchors parts.now.items)) }
    {
        let from = self.entries.len();
        add_call_entries(
            self.alloc,
            &mut self.entries,
            functions,
            standing,
            parts,
            call,
        )?;
        add_data(&mut self.filling.makes, parts)?;
        add_numbers(&mut self.filling.entries, from, self.entries.len())?;
        Ok(())
    }
}
