//! Construction of the entries of a statement, without rights.
ghost use Rattle.std.specs.Prelude.{◌≡◌, ◌++◌, ◌∷◌, [], List, map, OnOk};
ghost use Rattle.task_code.specs.Code.{Need as PureNeed};
ghost use Rattle.task_code.specs.View as code_view;
ghost use Rattle.code_rules.specs.CodeNames.{each_once};
ghost use Rattle.emit_cells.specs.PlainNeeds.{Noted};
ghost use Rattle.emit_cells.specs.Made.{made};
ghost use Rattle.emit_cells.specs.Marks.{MarksGrow, marked};

use crate::needs::{PlainNeed, listed};
use indexmap::IndexSet;
use std::alloc::{AllocError, Global};
use task_code::entry::{Act, Entry, Need};

/// The context of a statement whose entries are created: the offset of its first token, its priority, and the number of
/// inputs of the enclosing function.
#[derive(Clone, Copy)]
pub struct StatementContext {
    pub at: usize,
    pub priority: i32,
    pub inputs: usize,
}

/// The node of an entry, and the offset that a listing shows for it.
#[derive(Clone, Copy)]
pub struct EntryOrigin {
    pub node: u32,
    pub offset: usize,
}

/// Creates an entry of a statement.
pub fn entry(
    alloc: Global,
    standing: StatementContext,
    shown: EntryOrigin,
    needs: Vec<Need>,
    act: Act,
) -> Entry
    ensures { code_view.entry_view result ≡ made standing shown (map code_view.need_view needs.items) (code_view.act_view act) }
{
    Entry {
        node: shown.node,
        at: standing.at,
        offset: shown.offset,
        priority: standing.priority,
        needs,
        act,
        reads: Vec::new(alloc),
        writes: Vec::new(alloc),
    }
}

/// Appends an entry of a statement with these needs.
pub fn push_entry(
    alloc: Global,
    entries: &mut Vec<Entry>,
    standing: StatementContext,
    shown: EntryOrigin,
    needs: &IndexSet<PlainNeed>,
    act: Act,
) -> Result<(), AllocError>
    ensures entry { OnOk result ((ns : List PureNeed) → Noted ns needs.now.keys
        → map code_view.entry_view entries.new.items
        ≡ map code_view.entry_view entries.old.items ++ made standing shown (each_once ns) (code_view.act_view act) ∷ []) }
    ensures marks { OnOk result (MarksGrow entries.old.items entries.new.items (marked (code_view.act_view act) shown.node shown.offset)) }
{
    let needs = listed(alloc, needs)?;
    entries.push(entry(alloc, standing, shown, needs, act))?;
    Ok(())
}
