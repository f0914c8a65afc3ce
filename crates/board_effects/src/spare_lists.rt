//! Preallocation of lists for the missing inputs of new items.
//!
//! Up to two missing inputs are stored inline, so only an item with more than two needs gets a list.
ghost use Rattle.std.specs.Prelude.{◌≡◌, ◌++◌, map, IfOk, OnOk};
ghost use Rattle.std.specs.List.{AllZip};
ghost use Rattle.board_effects.specs.Ended.{long_need, needs_of, spare_list};
ghost use Rattle.board_data.specs.Openings.{IsSpare, long_needs};

use board_instances::pending::{MissingInputs, PendingInstance};
use board_program::program::Program;
use smallvec::SmallVec;
use std::alloc::{AllocError, Global};

/// Appends a list for the item of an entry, if it may wait for more than two inputs.
fn push_for(
    alloc: Global,
    spare: &mut Vec<MissingInputs>,
    program: &Program,
    number: u32,
) -> Result<(), AllocError>
    ensures { OnOk result (spare.new.items ≡ spare.old.items ++ map spare_list (long_need program.now number)) }
{
    if let Some(entry) = program.code().entry(number) {
        if entry.needs.len() > 2 {
            spare.push(SmallVec::with_capacity(alloc, entry.needs.len())?)?;
        }
    }
    Ok(())
}

/// Appends a list for each item of a body that may wait for more than two inputs.
#[inline(always)]
fn push_spare(
    alloc: Global,
    spare: &mut Vec<MissingInputs>,
    program: &Program,
    number: u32,
) -> Result<(), AllocError>
    ensures { OnOk result (spare.new.items ≡ spare.old.items ++ map spare_list (long_needs program.now number)) }
{
    let Some(table) = program.body(number) else {
        return Ok(());
    };
    if !table.long {
        return Ok(());
    }
    let Some(body) = program.code().body(number) else {
        return Ok(());
    };
    for number in &body.entries {
        push_for(alloc, spare, program, *number)?;
    }
    Ok(())
}

/// Creates the lists for all items of these instances that may wait for more than two inputs, in order.
#[inline(always)]
pub(crate) fn spare_lists(
    alloc: Global,
    program: &Program,
    list: &[PendingInstance],
) -> Result<Vec<MissingInputs>, AllocError>
    ensures { IfOk result (λ spare. AllZip IsSpare (needs_of program.now list.now) spare.items) }
{
    let mut spare = Vec::new(alloc);
    for opening in list {
        push_spare(alloc, &mut spare, program, opening.instance.body)?;
    }
    Ok(spare)
}
