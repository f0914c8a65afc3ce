//! Emission of the own entry of a branch.
ghost use Rattle.std.specs.Prelude.{◌≡◌, ℕ, [], None, Some, length, pos, IfOk, OnOk};
ghost use Rattle.language.specs.Core as core;
ghost use Rattle.flow.specs.View.{outer_view};
ghost use Rattle.code_rules.specs.Room.{OuterRoom};
ghost use Rattle.emit_cells.specs.Marks.{MarksGrow};
ghost use Rattle.emit_statements.specs.Blocks.{Numbered, OwnAddedAs, branch_act};

use crate::code_builder::CodeBuilder;
use crate::own::StatementAt;
use emit_cells::cell_views::{note_seen, placed_seen};
use emit_cells::plain::is_outer_plain;
use flow::cell::OuterCell;
use indexmap::IndexSet;
use std::alloc::{AllocError, Allocator};
use task_code::entry::Act;

impl CodeBuilder {
    /// Appends the own entry of a branch and returns its number.
    ///
    /// The entry opens the body `then` if the condition is true, and the body `other`, if there is one, if it is false.
    pub fn add_branch<A: Allocator>(
        &mut self,
        statement: StatementAt,
        condition: &OuterCell<A>,
        then: u32,
        other: Option<u32>,
    ) -> Result<u32, AllocError>
        ensures number { IfOk result (λ n. Numbered n (length self.old.entries.items) self.old.filling self.new.filling) }
        ensures one { OnOk result ((b : core.Block) → OuterRoom statement.standing.inputs (outer_view condition.now) → statement.standing.priority ≡ pos 0
            → other ≡ None
            → OwnAddedAs statement.standing.inputs statement.standing.at (core.when (outer_view condition.now) b)
            (λ l. branch_act l statement.standing.inputs (core.when (outer_view condition.now) b) (outer_view condition.now) then None)
            self.old.entries.items self.new.entries.items) }
        ensures two { OnOk result ((b d : core.Block) (m : ℕ) → OuterRoom statement.standing.inputs (outer_view condition.now)
            → statement.standing.priority ≡ pos 0 → other ≡ Some m
            → OwnAddedAs statement.standing.inputs statement.standing.at (core.choose (outer_view condition.now) b d)
            (λ l. branch_act l statement.standing.inputs (core.choose (outer_view condition.now) b d) (outer_view condition.now) then (Some m))
            self.old.entries.items self.new.entries.items) }
        ensures marks { OnOk result (MarksGrow self.old.entries.items self.new.entries.items []) }
    {
        let inputs = statement.standing.inputs;
        let plain = is_outer_plain(condition);
        let mut needs = IndexSet::new(self.alloc);
        note_seen(&mut needs, inputs, &condition.cell, plain)?;
        let test = placed_seen(self.alloc, &needs, inputs, &condition.cell, plain)?;
        self.add_entry(statement, &needs, Act::If(test, then, other))
    }
}
