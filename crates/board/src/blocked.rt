//! The blocked statements of a state, in order of path and offset.
//!
//! Each item that is not over is mapped to its statement. The list is then sorted, and duplicates are removed. Unlike
//! an event, this visits all items.
ghost use Rattle.std.specs.Prelude.{◌≡◌, ◌↔◌, [], ℕ, None, Some, map, option_map, IfOk};
ghost use Rattle.std.specs.List.{filter_map, list_all};
ghost use Rattle.std.specs.Ordering.{is_lt};
ghost use Rattle.board_program.specs.Tables.{wanted_in};
ghost use Rattle.board_data.specs.View.{cells_view};
ghost use Rattle.board_data.specs.Wanted.{wanted_missed};
ghost use Rattle.board_instances.specs.Names.{led_slot};
ghost use Rattle.board_instances.specs.View.{frames_view, row_view, rows_view};
ghost use Rattle.board_history.specs.Fields.{Frame, path_of as path_in, slot_at};
ghost use Rattle.task_code.specs.Runs.{counts};
ghost use Rattle.task_code.specs.View.{act_view, header_view, need_view};
ghost use Rattle.dataflow.specs.System.{In};
ghost use Rattle.paths.specs.Order.{statement_below};
ghost use Rattle.board.specs.Blocked.{InTextOrder};
ghost use Rattle.board.specs.Stuck.{Place, at_place, blocked_offset, blocked_row, first_unknown, is_header_known, misses_none, place_of};
ghost use Rattle.board.specs.Sorting.{each_once, is_last};

use crate::state::BoardState;
use board_instances::instance::{Instance, path_of};
use board_instances::item::{ItemRecord, ItemStatus, ItemTask};
use board_program::program::Program;
use paths::StatementInstance;
use slab::Slab;
use std::alloc::{AllocError, Global};
use std::cmp::Ordering;
use task_code::entry::{Act, Header, Need};

/// Returns true if a statement with this act can be blocked. Cells, reads and calls are parts of statements, so they
/// cannot.
fn counts(act: &Act) -> bool
    ensures { result ≡ counts (act_view act.now) }
{
    match act {
        Act::Cell(_)
        | Act::Read
        | Act::Call {
            body: _,
            inputs: _,
            outputs: _,
        } => false,
        _ => true,
    }
}

/// Returns the body of an instance, or `None` if there is no instance with this key.
#[tactic(auto, using(board_instances::proofs::Frames::frame_there))]
fn body_at(instances: &Slab<Instance>, at: usize) -> Option<u32>
    ensures { result ≡ option_map (λ (f : Frame). f.body) (slot_at (frames_view instances.now.slots) at) }
{
    match instances.get(at) {
        Some(instance) => Some(instance.body),
        None => None,
    }
}

/// Compares two statements by path and then by offset.
fn order(one: &StatementInstance, other: &StatementInstance) -> Ordering
    ensures { is_lt result ≡ statement_below one.now other.now }
{
    if one.is_below(other) {
        Ordering::Less
    } else if other.is_below(one) {
        Ordering::Greater
    } else {
        Ordering::Equal
    }
}

/// Returns true if the last of the found statements is this one.
fn is_last(found: &[StatementInstance], statement: &StatementInstance) -> bool
    ensures { result ≡ is_last found.now statement.now }
{
    match found.last() {
        Some(last) => statement.is_same(last),
        None => false,
    }
}

/// Removes consecutive duplicates.
fn each_once(
    alloc: Global,
    statements: Vec<StatementInstance>,
) -> Result<Vec<StatementInstance>, AllocError>
    ensures { IfOk result (λ found. found.items ≡ each_once [] statements.items) }
{
    let mut found = Vec::new(alloc);
    for statement in statements {
        if !is_last(found.as_slice(), &statement) {
            found.push(statement)?;
        }
    }
    Ok(found)
}

/// Sorts the statements by path and then by offset, and removes duplicates.
fn in_order(
    alloc: Global,
    statements: Vec<StatementInstance>,
) -> Result<Vec<StatementInstance>, AllocError>
    ensures places { IfOk result (λ found. (p : Place) → In p (map place_of found.items) ↔ In p (map place_of statements.items)) }
    ensures order { IfOk result (λ found. InTextOrder found.items) }
{
    let mut statements = statements;
    statements.sort_by(
        |a, b|
            ensures { is_lt result ≡ statement_below a.now b.now }
        { order(a, b) },
    )?;
    each_once(alloc, statements)
}

impl BoardState {
    /// Returns true if no input of this need is missing in the instance with key `at`.
    fn is_need_known(
        &self,
        program: &Program,
        at: usize,
        body: u32,
        need: &Need,
    ) -> Result<bool, AllocError>
        ensures { IfOk result (λ yes. yes ≡ misses_none
            (wanted_missed program.now (cells_view self.now.data_state.store.cells) (led_slot (frames_view self.now.data_state.instances.slots) at)
            (wanted_in program.now body (need_view need.now)))) }
    {
        let wanted = program.wanted(body, need)?;
        Ok(self.view(program, at).missing(&wanted).is_none())
    }

    /// Returns true if no input of any need of the header is missing.
    fn is_header_known(
        &self,
        program: &Program,
        at: usize,
        body: u32,
        header: &Header,
    ) -> Result<bool, AllocError>
        ensures { IfOk result (λ yes. yes ≡ is_header_known program.now (frames_view self.now.data_state.instances.slots) (cells_view self.now.data_state.store.cells) at
            body (header_view header.now).needs) }
    {
        for need in &header.needs {
            if !self.is_need_known(program, at, body, need)? {
                return Ok(false);
            }
        }
        Ok(true)
    }

    /// Returns the offset of the first header with a missing input, or `None` if all headers are known.
    fn first_unknown(
        &self,
        program: &Program,
        at: usize,
        body: u32,
        headers: &[Header],
    ) -> Result<Option<usize>, AllocError>
        ensures { IfOk result (λ found. found ≡ first_unknown program.now (frames_view self.now.data_state.instances.slots) (cells_view self.now.data_state.store.cells)
            at body (map header_view headers.now)) }
    {
        for header in headers {
            if !self.is_header_known(program, at, body, header)? {
                return Ok(Some(header.at));
            }
        }
        Ok(None)
    }

    /// Returns the offset at which the statement of an act is blocked, or `None` if the act cannot be blocked. A `wait`
    /// is blocked at its first header with a missing input, any other statement at its own offset.
    fn offset_of(
        &self,
        program: &Program,
        instance: usize,
        own: usize,
        act: &Act,
    ) -> Result<Option<usize>, AllocError>
        ensures { IfOk result (λ found. found ≡ blocked_offset program.now (frames_view self.now.data_state.instances.slots) (cells_view self.now.data_state.store.cells)
            instance own (act_view act.now)) }
    {
        match act {
            Act::Wait(headers, _) => match body_at(&self.data_state.instances, instance) {
                Some(body) => self.first_unknown(program, instance, body, headers.as_slice()),
                None => Ok(None),
            },
            act if counts(act) => Ok(Some(own)),
            _ => Ok(None),
        }
    }

    /// Returns the instance and the offset at which the statement of the item is blocked, or `None` if it is not
    /// blocked.
    pub(crate) fn blocked_at(
        &self,
        program: &Program,
        item: ItemRecord,
    ) -> Result<Option<(usize, usize)>, AllocError>
        ensures { IfOk result (λ found. option_map (λ (p : ℕ × ℕ). at_place p.1 (path_in (frames_view self.now.data_state.instances.slots) p.0)) found
            ≡ blocked_row program.now (frames_view self.now.data_state.instances.slots) (cells_view self.now.data_state.store.cells) (row_view item)) }
    {
        if item.status() == ItemStatus::Over {
            return Ok(None);
        }
        match item.job() {
            ItemTask::Script => Ok(None),
            ItemTask::Does {
                instance,
                entry,
                chunk: _,
            } => match program.code().entry(entry) {
                Some(found) => {
                    match self.offset_of(program, instance, found.at, &found.act)? {
                        Some(at) => Ok(Some((instance, at))),
                        None => Ok(None),
                    }
                }
                None => Ok(None),
            },
        }
    }

    /// Collects the blocked statements of all items, in the order of the items and with duplicates.
    fn list_blocked(&self, program: &Program) -> Result<Vec<StatementInstance>, AllocError>
        ensures { IfOk result (λ statements. map place_of statements.items
            ≡ filter_map (blocked_row program.now (frames_view self.now.data_state.instances.slots) (cells_view self.now.data_state.store.cells))
            (rows_view self.now.items.rows.items)) }
    {
        let mut statements = Vec::new(self.alloc);
        for item in &self.items.rows {
            if let Some((instance, at)) = self.blocked_at(program, item.item())? {
                statements.push(StatementInstance {
                    at,
                    path: path_of(self.alloc, &self.data_state.instances, instance)?,
                })?;
            }
        }
        Ok(statements)
    }

    /// Returns the blocked statements in order of path and offset, each once.
    pub fn blocked(&self, program: &Program) -> Result<Vec<StatementInstance>, AllocError>
        ensures places { IfOk result (λ statements. (p : Place)
            → In p (map place_of statements.items) ↔ In p
            (filter_map (blocked_row program.now (frames_view self.now.data_state.instances.slots) (cells_view self.now.data_state.store.cells))
            (rows_view self.now.items.rows.items))) }
        ensures order { IfOk result (λ statements. InTextOrder statements.items) }
    {
        in_order(self.alloc, self.list_blocked(program)?)
    }
}
