//! Creation of pending instances for blocks and for the turns of a loop.
ghost use Rattle.std.specs.Prelude.{◌≡◌, ◌<◌, ◌-◌, ◌++◌, ◌∷◌, [], IsSome, OnOk, length, min, pos, option_map};
ghost use Rattle.board_history.specs.Fields.{slot_at as slot_of};
ghost use Rattle.task_code.specs.Code.{body as body_of};
ghost use Rattle.task_code.specs.Compute.{pairs, range_turns};
ghost use Rattle.values.specs.Ranges.{value_in};
ghost use Rattle.values.specs.declared.key.Key.TheVariants.{Number as number_key};
ghost use Rattle.values.specs.declared.value.Scalar.TheVariants.{Number};
ghost use Rattle.board_instances.specs.Openings.{passed_from};
ghost use Rattle.board_instances.specs.Turns.{AddsTurns, IsOpening};
ghost use Rattle.board_instances.specs.View.{frames_view, step_view};
ghost use Rattle.values.specs.Keys.{key_seen};
ghost use Rattle.board_instances.specs.declared.pending.PendingInstance.{PendingInstance as AnOpening};

use crate::parent_key::LastStep;
use crate::pending::{ParentContext, PendingInstance, child_instance};
use board_program::program::PassedArgument;
use std::alloc::{AllocError, Global};
use values::key::KeyRef;
use values::map::Element;
use values::range::IntRange;
use values::value::Scalar;

/// The body of new instances, the context of their parent, and the offset of the steps that lead to them.
#[derive(Clone, Copy)]
pub struct InnerBody<'a> {
    pub alloc: Global,
    pub around: ParentContext<'a>,
    pub body: u32,
    pub offset: u32,
}

/// Appends an instance of the body, with the values of a turn's variables. Appends nothing if the body has no entries.
///
/// # Errors
///
/// Returns `AllocError` if an allocation fails.
pub fn push_block(
    site: InnerBody<'_>,
    list: &mut Vec<PendingInstance>,
    way: LastStep,
    arguments: (u32, &[PassedArgument]),
    values: (Option<Scalar>, Option<Scalar>),
) -> Result<(), AllocError>
    ensures added { OnOk result (0 < length (body_of site.entry.around.program.now site.entry.body).entries
        → IsSome (slot_of (frames_view site.entry.around.instances.now.slots) site.entry.around.at) →
        (o : AnOpening) × (list.new.items ≡ list.old.items ++ o ∷ []) ×
        IsOpening site.entry.around.program.now (frames_view site.entry.around.instances.now.slots) site.entry.around.at site.entry.body
        (option_map step_view way) (passed_from (frames_view site.entry.around.instances.now.slots) site.entry.around.at arguments.entry.0 0
        arguments.entry.1.now) values.0 values.1 o) }
    ensures none { OnOk result (length (body_of site.entry.around.program.now site.entry.body).entries ≡ 0 → list.new.items ≡ list.old.items) }
{
    let Some(body) = site.around.program.code().body(site.body) else {
        return Ok(());
    };
    if body.entries.is_empty() {
        return Ok(());
    }
    if let Some(instance) = child_instance(site.alloc, site.around, site.body, way, arguments)? {
        let (value, turn) = values;
        list.push(PendingInstance {
            instance,
            value,
            turn,
        })?;
    }
    Ok(())
}

/// Appends an instance for one turn of a loop.
#[inline(always)]
fn push_turn(
    site: InnerBody<'_>,
    list: &mut Vec<PendingInstance>,
    key: KeyRef<'_>,
    value: Scalar,
) -> Result<(), AllocError>
    ensures added { OnOk result (0 < length (body_of site.entry.around.program.now site.entry.body).entries
        → IsSome (slot_of (frames_view site.entry.around.instances.now.slots) site.entry.around.at) →
        AddsTurns site.entry.around.program.now (frames_view site.entry.around.instances.now.slots) site.entry.around.at site.entry.body site.entry.offset
        ((key_seen key.entry, value) ∷ []) list.old.items list.new.items) }
    ensures none { OnOk result (length (body_of site.entry.around.program.now site.entry.body).entries ≡ 0 → list.new.items ≡ list.old.items) }
{
    let turn = key.scalar()?;
    let way = LastStep::to(site.offset, key)?;
    push_block(site, list, way, (0, &[]), (Some(value), Some(turn)))?;
    Ok(())
}

/// Appends an instance for each of these elements, as for a `foreach` over an array.
///
/// # Errors
///
/// Returns `AllocError` if an allocation fails. Some of the instances may have been appended.
pub fn push_elements(
    site: InnerBody<'_>,
    list: &mut Vec<PendingInstance>,
    elements: &[Element],
) -> Result<(), AllocError>
    ensures added { OnOk result (0 < length (body_of site.entry.around.program.now site.entry.body).entries
        → IsSome (slot_of (frames_view site.entry.around.instances.now.slots) site.entry.around.at) →
        AddsTurns site.entry.around.program.now (frames_view site.entry.around.instances.now.slots) site.entry.around.at site.entry.body site.entry.offset
        (pairs elements.now) list.old.items list.new.items) }
    ensures none { OnOk result (length (body_of site.entry.around.program.now site.entry.body).entries ≡ 0 → list.new.items ≡ list.old.items) }
{
    for one in elements {
        push_turn(site, list, one.key.as_ref(), one.value.share()?)?;
    }
    Ok(())
}

/// Appends an instance for the turn of index `n` of a range.
fn push_number(
    site: InnerBody<'_>,
    list: &mut Vec<PendingInstance>,
    range: &IntRange,
    n: u64,
) -> Result<(), AllocError>
    requires { n < range.now.count }
    ensures added { OnOk result (0 < length (body_of site.entry.around.program.now site.entry.body).entries
        → IsSome (slot_of (frames_view site.entry.around.instances.now.slots) site.entry.around.at) →
        AddsTurns site.entry.around.program.now (frames_view site.entry.around.instances.now.slots) site.entry.around.at site.entry.body site.entry.offset
        ((number_key (pos n), Number (value_in range.now.low range.now.step n)) ∷ []) list.old.items list.new.items) }
    ensures none { OnOk result (length (body_of site.entry.around.program.now site.entry.body).entries ≡ 0 → list.new.items ≡ list.old.items) }
{
    // A turn index beyond 63 bits means more turns than memory can hold.
    let Ok(key) = i64::try_from(n) else {
        return Err(AllocError);
    };
    push_turn(
        site,
        list,
        KeyRef::Number(key),
        Scalar::Number(range.value(n)),
    )?;
    Ok(())
}

/// Appends an instance for each turn of a range with an index from `first` to `end`, exclusive.
///
/// # Errors
///
/// Returns `AllocError` if an allocation fails. Some of the instances may have been appended.
pub fn push_range(
    site: InnerBody<'_>,
    list: &mut Vec<PendingInstance>,
    range: &IntRange,
    first: u64,
    end: u64,
) -> Result<(), AllocError>
    ensures added { OnOk result (0 < length (body_of site.entry.around.program.now site.entry.body).entries
        → IsSome (slot_of (frames_view site.entry.around.instances.now.slots) site.entry.around.at) →
        AddsTurns site.entry.around.program.now (frames_view site.entry.around.instances.now.slots) site.entry.around.at site.entry.body site.entry.offset
        (range_turns range.now.low range.now.step first (min end range.now.count - first)) list.old.items list.new.items) }
    ensures none { OnOk result (length (body_of site.entry.around.program.now site.entry.body).entries ≡ 0 → list.new.items ≡ list.old.items) }
{
    let last = end.min(range.count);
    for n in first..last {
        push_number(site, list, range, n)?;
    }
    Ok(())
}
