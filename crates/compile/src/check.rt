//! The front end: parses a script and checks its types and assignments.
ghost use Rattle.std.specs.Prelude.{IfOk, IsOk, IfErr};
ghost use Rattle.syntax_trees.specs.View.{tree_of};
ghost use Rattle.types.specs.Typed.{table_of};
ghost use Rattle.compile.specs.Accepted.{IsAccepted, IsScript, IsUnfit};

use crate::fault::CompileFault;
use std::alloc::{Allocator, Global};
use syntax::parser::parse;
use syntax_trees::tree::Script;
use types::typed::Typed;

/// An accepted script, well typed and singly assigned, with the result of its type check.
#[derive(Drop)]
pub struct Accepted<A: Allocator> {
    pub script: Script<A>,
    pub typed: Typed,
}

/// Parses a script and checks its types and its assignments. The tree is allocated in `alloc`.
///
/// # Errors
///
/// Returns the refusal of the first step that refuses the script, or `Memory` if an allocation fails.
#[tactic(auto, using(crate::proofs::Scripts::accepted, crate::proofs::Scripts::refused_by_text, crate::proofs::Scripts::refused_by_types, crate::proofs::Scripts::refused_by_assignments))]
pub fn accept<A: Allocator + Clone>(
    machine: Global,
    alloc: A,
    src: &[u8],
) -> Result<Accepted<A>, CompileFault>
    ensures script { IfOk result (λ accepted. IsAccepted src.now (table_of accepted.typed) (tree_of accepted.script)) }
    ensures unfit { IfErr result (λ fault. IsUnfit src.now fault) }
{
    let script = match parse(alloc, src) {
        Ok(script) => script,
        Err(fault) => return Err(CompileFault::of_text(fault)),
    };
    let typed = match types::check(machine, &script) {
        Ok(typed) => typed,
        Err(fault) => return Err(CompileFault::of_types(fault)),
    };
    match assign_check::check(machine, &script, &typed) {
        Ok(()) => Ok(Accepted { script, typed }),
        Err(fault) => Err(CompileFault::of_assignments(fault)),
    }
}

/// Checks that a text is a script: it parses, is well typed and is singly assigned. The tree occupies `alloc` during
/// the call only.
///
/// # Errors
///
/// Returns the refusal of the first step that refuses the text, or `Memory` if an allocation fails.
pub fn check_text<A: Allocator + Clone>(
    machine: Global,
    alloc: A,
    src: &[u8],
) -> Result<(), CompileFault>
    ensures script { IsOk result → IsScript src.now }
    ensures unfit { IfErr result (λ fault. IsUnfit src.now fault) }
{
    accept(machine, alloc, src)?;
    Ok(())
}
