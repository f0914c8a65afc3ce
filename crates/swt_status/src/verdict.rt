//! The check whether a text is accepted as a script.
ghost use Rattle.std.specs.Prelude.{IfOk};
ghost use Rattle.swt_status.specs.Verdicts.{IsVerdict};

use crate::refusal::Refusal;
use compile::check::check_text;
use std::alloc::{AllocError, Allocator, Global};

/// Returns the refusal of a text, or `None` if it is accepted. The syntax tree is kept in `alloc` during the call
/// only.
///
/// # Errors
///
/// Returns `AllocError` if an allocation fails.
pub fn verdict<A: Allocator + Clone>(
    machine: Global,
    alloc: A,
    source: &[u8],
) -> Result<Option<Refusal>, AllocError>
    ensures { IfOk result (IsVerdict source.now) }
{
    match check_text(machine, alloc, source) {
        Ok(()) => Ok(None),
        Err(fault) => match Refusal::of(fault) {
            Some(refusal) => Ok(Some(refusal)),
            None => Err(AllocError),
        },
    }
}
