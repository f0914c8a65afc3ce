//! The blocks that a completed item opens, and the turns of a loop, one chunk at a time.
ghost use Rattle.std.specs.Prelude.{◌≡◌, ◌+◌, ◌*◌, ◌^◌, ◌<◌, ◌≤◌, [], ℕ, List, Option, Some, None, true, nat_le, length, min, option_map, IfOk};
ghost use Rattle.board_history.specs.Fields.{path_of, slot_at, Script, Counted, Frame};
ghost use Rattle.task_code.specs.Code.{Loop as PureLoop, loop_of};
ghost use Rattle.task_code.specs.Compute.{Computed, Opens as OpensOne, TooDeep, Takes, Turns, pairs, range_turns};
ghost use Rattle.board_instances.specs.View.{step_view};
ghost use Rattle.values.specs.Limits.{max_path_steps};
ghost use Rattle.values.specs.declared.key.Key.TheVariants.{Number as number_key};
ghost use Rattle.board_effects.specs.Effects.{IsEffect};
ghost use Rattle.board_effects.specs.Ended.{act_of, code_of, frames_of, Ends, IsEnded, FailsWith, IsLoop, IsScriptList, OpensBlock, OpensList};
ghost use Rattle.dataflow.specs.Machine.{OfTask};
ghost use Rattle.board_effects.specs.Fits.{enters_block, takes_branch};

use crate::effect::{Effect, EndingItem};
use crate::spare_lists::spare_lists;
use board_instances::parent_key::LastStep;
use board_instances::pending::{ParentContext, PendingInstance, PendingInstances, outermost};
use board_instances::turns::{InnerBody, push_block, push_elements, push_range};
use board_program::program::Program;
use paths::FaultKind;
use std::alloc::{AllocError, Global};
use task_code::entry::Act;
use values::limits::MAX_PATH_STEPS;
use values::loop_chunks::{are_left, chunk_of};
use values::map::Map;
use values::range::IntRange;

impl<'a> EndingItem<'a> {
    /// Returns true if the path of the instance has the maximum length, so that no block may be opened by a further
    /// step.
    #[inline(always)]
    fn is_too_deep(self) -> bool
        ensures { IsEnded self.entry → result ≡ nat_le max_path_steps (length (path_of (frames_of self.entry) self.entry.view.at)) }
    {
        match self.view.instances.get(self.view.at) {
            Some(around) => around.depth as usize >= MAX_PATH_STEPS,
            None => true,
        }
    }

    /// Returns the effect that reports `TooDeep`: the path of a block would be too long.
    fn fails_too_deep(self) -> Result<Effect, AllocError>
        ensures { IsEnded self.entry → IfOk result (FailsWith self.entry (OfTask TooDeep)) }
    {
        self.fails(FaultKind::TooDeep)
    }

    /// Returns the step to a block that the entry opens.
    #[inline(always)]
    fn step(self, number: i64) -> LastStep
        ensures { IsEnded self.entry → option_map step_view result ≡ Some (record { offset = self.entry.entry.now.offset; key = number_key number }) }
    {
        LastStep::to_number(self.table.offset, number)
    }

    /// Returns the effect that opens these instances of a body.
    #[inline(always)]
    fn opens_list(
        self,
        body: u32,
        list: Vec<PendingInstance>,
        goes_on: bool,
    ) -> Result<Effect, AllocError>
        ensures { IfOk result (OpensList self.entry body list.items goes_on) }
    {
        let spare = spare_lists(self.alloc, self.view.program, list.as_slice())?;
        Ok(Effect::Opens(PendingInstances {
            body,
            list,
            value: self.table.value,
            turn: self.table.turn,
            spare,
            goes_on,
        }))
    }

    /// Returns the effect that opens one block. An item for the rest of a loop, whose chunk is above 0, opens none.
    #[inline(always)]
    fn opens(self, body: u32, way: LastStep) -> Result<Effect, AllocError>
        ensures { IsEnded self.entry → (x : Computed) → OpensBlock self.entry x body (option_map step_view way) → IfOk result (Ends self.entry x) }
    {
        if self.chunk > 0 {
            return Ok(Effect::Passes);
        }
        if way.is_step() && self.is_too_deep() {
            return self.fails_too_deep();
        }
        let site = InnerBody {
            alloc: self.alloc,
            around: ParentContext {
                program: self.view.program,
                instances: self.view.instances,
                at: self.view.at,
            },
            body,
            offset: self.table.offset,
        };
        let mut list = Vec::with_capacity(self.alloc, 1)?;
        push_block(
            site,
            &mut list,
            way,
            (self.number, self.table.arguments.as_slice()),
            (None, None),
        )?;
        self.opens_list(body, list, false)
    }

    /// Returns the effect that opens a branch of an `if`, or no effect if that branch does not exist.
    pub(crate) fn branches(self, truth: bool) -> Result<Effect, AllocError>
        ensures { IsEnded self.entry → takes_branch (act_of self.entry) ≡ true → IfOk result (Ends self.entry (Takes truth)) }
    {
        let Act::If(_, then, other) = &self.entry.act else {
            return Ok(Effect::Passes);
        };
        if truth {
            return self.opens(*then, self.step(0));
        }
        match other {
            Some(other) => self.opens(*other, self.step(1)),
            None => Ok(Effect::Passes),
        }
    }

    /// Returns the effect that opens the content of a `wait` or the body of a function.
    pub(crate) fn enters(self) -> Result<Effect, AllocError>
        ensures { IsEnded self.entry → enters_block (act_of self.entry) ≡ true → IfOk result (Ends self.entry OpensOne) }
    {
        match &self.entry.act {
            Act::Wait(_, body) => self.opens(*body, LastStep::none()),
            Act::Call {
                body,
                inputs: _,
                outputs: _,
            } => self.opens(*body, self.step(0)),
            Act::Cell(_)
            | Act::Read
            | Act::Set(_, _)
            | Act::Fill(_, _)
            | Act::Copy(_)
            | Act::InsertElement(_, _, _)
            | Act::Print(_)
            | Act::Assert(_)
            | Act::If(_, _, _)
            | Act::Range(_, _, _, _)
            | Act::Each(_) => Ok(Effect::Passes),
        }
    }

    /// Returns the body of the turns, if the entry is a loop.
    pub(crate) fn body(self) -> Option<u32>
        ensures { result ≡ option_map (λ (w : PureLoop). w.body) (loop_of (act_of self.entry)) }
    {
        match &self.entry.act {
            Act::Range(_, _, _, found) | Act::Each(found) => Some(found.body),
            Act::Cell(_)
            | Act::Read
            | Act::Set(_, _)
            | Act::Fill(_, _)
            | Act::Copy(_)
            | Act::InsertElement(_, _, _)
            | Act::Print(_)
            | Act::Assert(_)
            | Act::Call { .. }
            | Act::If(_, _, _)
            | Act::Wait(_, _) => None,
        }
    }

    /// Returns the effect that opens the next chunk of turns of a range.
    pub(crate) fn counts(self, body: u32, range: &IntRange) -> Result<Effect, AllocError>
        ensures { IsEnded self.entry → IsLoop self.entry body
            → IfOk result (Ends self.entry (Turns (range_turns range.now.low range.now.step 0 range.now.count))) }
    {
        let (first, end) = chunk_of(self.chunk, range.count);
        if first < end && self.is_too_deep() {
            return self.fails_too_deep();
        }
        let site = InnerBody {
            alloc: self.alloc,
            around: ParentContext {
                program: self.view.program,
                instances: self.view.instances,
                at: self.view.at,
            },
            body,
            offset: self.table.offset,
        };
        let mut list = Vec::with_capacity(self.alloc, end.saturating_sub(first) as usize)?;
        push_range(site, &mut list, range, first, end)?;
        self.opens_list(body, list, are_left(end, range.count))
    }

    /// Returns the effect that opens the turns for the next chunk of elements.
    pub(crate) fn goes_over(self, body: u32, map: &Map) -> Result<Effect, AllocError>
        ensures { IsEnded self.entry → IsLoop self.entry body → IfOk result (Ends self.entry (Turns (pairs map.now))) }
    {
        let elements = map.elements();
        let (first, end) = chunk_of(self.chunk, elements.len() as u64);
        if first < end && self.is_too_deep() {
            return self.fails_too_deep();
        }
        let site = InnerBody {
            alloc: self.alloc,
            around: ParentContext {
                program: self.view.program,
                instances: self.view.instances,
                at: self.view.at,
            },
            body,
            offset: self.table.offset,
        };
        let mut list = Vec::with_capacity(self.alloc, end.saturating_sub(first) as usize)?;
        push_elements(site, &mut list, &elements[first as usize..end as usize])?;
        self.opens_list(body, list, are_left(end, elements.len() as u64))
    }
}

/// Returns the instance of the script, or an empty list if the script has no entries.
fn script_list(alloc: Global, program: &Program) -> Result<Vec<PendingInstance>, AllocError>
    ensures { IfOk result (λ list. IsScriptList program.now list.items) }
{
    let mut list = Vec::new(alloc);
    if let Some(body) = program.code().body(0) {
        if !body.entries.is_empty() {
            list.push(PendingInstance {
                instance: outermost(alloc, body)?,
                value: None,
                turn: None,
            })?;
        }
    }
    Ok(list)
}

/// Returns the effect that opens the script.
///
/// # Errors
///
/// Returns `AllocError` if an allocation fails.
pub fn script_effect(alloc: Global, program: &Program) -> Result<Effect, AllocError>
    ensures { (fs : List (Option Frame)) (cs : List (Option Counted)) (x : Computed) → IfOk result (IsEffect program.now fs cs Script x) }
{
    let list = script_list(alloc, program)?;
    let spare = spare_lists(alloc, program, list.as_slice())?;
    Ok(Effect::Opens(PendingInstances {
        body: 0,
        list,
        value: None,
        turn: None,
        spare,
        goes_on: false,
    }))
}
