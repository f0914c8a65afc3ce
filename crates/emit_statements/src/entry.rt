//! Emission of the own entry of a statement, with its number in the block.
ghost use Rattle.std.specs.Prelude.{◌≡◌, ◌++◌, ◌∷◌, [], List, length, map, IfOk, OnOk};
ghost use Rattle.task_code.specs.Code.{Need};
ghost use Rattle.task_code.specs.View as code_view;
ghost use Rattle.code_rules.specs.CodeNames.{each_once};
ghost use Rattle.emit_cells.specs.PlainNeeds.{Noted};
ghost use Rattle.emit_cells.specs.Made.{made};
ghost use Rattle.emit_cells.specs.Marks.{MarksGrow, marked};
ghost use Rattle.emit_statements.specs.Blocks.{Numbered};

use crate::code_builder::CodeBuilder;
use crate::own::StatementAt;
use emit_cells::entries::{EntryOrigin, push_entry};
use emit_cells::needs::PlainNeed;
use indexmap::IndexSet;
use std::alloc::AllocError;
use task_code::body_numbers::small;
use task_code::entry::Act;

impl CodeBuilder {
    /// Appends the own entry of a statement with these needs, appends its number to the block, and returns the number.
    pub(crate) fn add_entry(
        &mut self,
        statement: StatementAt,
        needs: &IndexSet<PlainNeed>,
        act: Act,
    ) -> Result<u32, AllocError>
        ensures number { IfOk result (λ n. Numbered n (length self.old.entries.items) self.old.filling self.new.filling) }
        ensures entry { OnOk result ((ns : List Need) → Noted ns needs.now.keys
            → map code_view.entry_view self.new.entries.items
            ≡ map code_view.entry_view self.old.entries.items
            ++ made statement.standing (record { node = statement.node; offset = statement.standing.at }) (each_once ns) (code_view.act_view act) ∷ []) }
        ensures marks { OnOk result (MarksGrow self.old.entries.items self.new.entries.items
            (marked (code_view.act_view act) statement.node statement.standing.at)) }
    {
        let number = small(self.entries.len());
        let shown = EntryOrigin {
            node: statement.node,
            offset: statement.standing.at,
        };
        push_entry(
            self.alloc,
            &mut self.entries,
            statement.standing,
            shown,
            needs,
            act,
        )?;
        self.filling.entries.push(number)?;
        Ok(number)
    }
}
