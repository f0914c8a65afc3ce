//! The steps between the front end and the code, one at a time, to show what each of them makes.
ghost use Rattle.std.specs.Prelude.{◌≡◌, IfOk};
ghost use Rattle.constant_fold.specs.Folded.{folded_tree};
ghost use Rattle.flow.specs.View.{core_of};
ghost use Rattle.language.specs.Resolved.{core};
ghost use Rattle.syntax_trees.specs.View.{tree_of};
ghost use Rattle.types.specs.Typed.{table_of};

use crate::check::Accepted;
use constant_fold::fold;
use flow::script::Flow;
use lowering::lower;
use std::alloc::{AllocError, Allocator, Global};

/// Folds the literal expressions of an accepted script.
///
/// # Errors
///
/// Returns `AllocError` if an allocation fails.
pub fn folded<A: Allocator + Clone>(
    machine: Global,
    accepted: Accepted<A>,
) -> Result<Accepted<A>, AllocError>
    ensures tree { IfOk result (λ done. tree_of done.script ≡ folded_tree (tree_of accepted.script)) }
    ensures table { IfOk result (λ done. table_of done.typed ≡ table_of accepted.typed) }
{
    let Accepted { script, typed } = accepted;
    let literals = script.items.allocator().clone()?;
    let script = fold(machine, literals, script)?;
    Ok(Accepted { script, typed })
}

/// Lowers an accepted script with folded literal expressions to its flow, in which no waits are merged yet.
///
/// # Errors
///
/// Returns `AllocError` if an allocation fails.
pub fn lowered<A: Allocator + Clone>(
    machine: Global,
    accepted: Accepted<A>,
) -> Result<Flow<A>, AllocError>
    ensures { IfOk result (λ flow. core_of flow ≡ core (table_of accepted.typed) (folded_tree (tree_of accepted.script))) }
{
    let folded = folded(machine, accepted)?;
    let alloc = folded.script.items.allocator().clone()?;
    let flow = lower(alloc, &folded.script, &folded.typed)?;
    Ok(flow)
}
