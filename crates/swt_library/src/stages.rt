//! The individual stages from the syntax tree of a script to its code and to its meaning.
ghost use Rattle.std.specs.Prelude.{◌≡◌, ◌≢◌, ◌≤◌, ◌++◌, [], ℕ, List, Some, false, map, IfOk, IfErr};
ghost use Rattle.assign_check.specs.Breaks.{Breaks, IsTyped};
ghost use Rattle.assign_check.specs.Faults as faults;
ghost use Rattle.code_rules.specs.Emitted.{IsEmitted};
ghost use Rattle.compile.specs.Compiled.{IsCompiled, IsFoldedFlowOf, IsOfScript};
ghost use Rattle.constant_fold.specs.Folded.{folded_tree};
ghost use Rattle.emit.specs.Marks.{marks_of};
ghost use Rattle.flow.specs.Cells.{AreAmong, anchors_of};
ghost use Rattle.flow.specs.Listed.{shown_of};
ghost use Rattle.flow.specs.Shapes.{declared_of, kinds_of};
ghost use Rattle.flow.specs.View.{core_of};
ghost use Rattle.language.specs.Reads.{Reads};
ghost use Rattle.language.specs.Resolved.{core};
ghost use Rattle.language.specs.Scopes.{signatures};
ghost use Rattle.language.specs.Single.{SinglyAssigned};
ghost use Rattle.language.specs.Typing.{WellTyped};
ghost use Rattle.lowering.specs.Listed.{shown};
ghost use Rattle.lowering.specs.Nodes.{nodes_of};
ghost use Rattle.lowering.specs.Shapes.{flagged, function_declarations, kinds_of_signature, own_declarations};
ghost use Rattle.meaning_outcomes.specs.Known.{IsKnowledgeOf};
ghost use Rattle.syntax_trees.specs.View.{tree_of};
ghost use Rattle.types.specs.Typed.{table_of};

use crate::scripts::CompiledScript;
use assign_check::fault::AssignFault;
use board_program::program::Program;
use code_listing::text::listing;
pub use compile::check::{Accepted, accept};
use compile::compile::{Compiled, with_rights};
use flow::script::Flow;
use meaning_outcomes::knowledge::Knowledge;
use std::alloc::{AllocError, Allocator, Global};
pub use syntax::parser::parse;
use syntax_trees::tree::Script;
pub use types::check;
use types::typed::Typed;
pub use wait_merge::merge;

/// Evidence that `check_single` accepted a script, which alone makes one. It has no content: what names refer to is in
/// the table of types.
#[derive(Clone, Copy, Debug, PartialEq, Eq, Drop)]
pub struct Single {
    checked: (),
}

/// Checks single assignment of a script, given the names resolved by the type check.
///
/// The clauses about rules and single assignment assume that the script is well typed by that table, with its nodes
/// numbered in reading order. The other clauses hold for every script.
///
/// # Errors
///
/// Returns the broken rule whose position begins first, and of several at one position the one with the smallest
/// number. Returns `Memory` if an allocation fails.
pub fn check_single<A: Allocator>(
    alloc: Global,
    script: &Script<A>,
    typed: &Typed,
) -> Result<Single, AssignFault>
    ensures accepted { IfOk result (λ _. faults.faults (table_of typed.now) (tree_of script.now) ≡ []) }
    ensures refused { IfErr result (λ fault. fault ≢ AssignFault.Memory
        → faults.first_fault (faults.faults (table_of typed.now) (tree_of script.now)) ≡ Some fault) }
    ensures single { IfOk result (λ _. IsTyped (table_of typed.now) (tree_of script.now) → SinglyAssigned (core (table_of typed.now) (tree_of script.now))) }
    ensures not_single { IfErr result (λ fault. fault ≢ AssignFault.Memory → IsTyped (table_of typed.now) (tree_of script.now)
        → ¬ SinglyAssigned (core (table_of typed.now) (tree_of script.now))) }
    ensures broken { IfErr result (λ fault. fault ≢ AssignFault.Memory → IsTyped (table_of typed.now) (tree_of script.now)
        → Breaks (table_of typed.now) (tree_of script.now) fault) }
    ensures none_before { IfErr result (λ fault. fault ≢ AssignFault.Memory → IsTyped (table_of typed.now) (tree_of script.now)
        → (other : AssignFault) → Breaks (table_of typed.now) (tree_of script.now) other → faults.precedes other fault ≡ false) }
{
    match assign_check::check(alloc, script, typed) {
        Ok(()) => Ok(Single { checked: () }),
        Err(fault) => Err(fault),
    }
}

/// Returns the script with its expressions of literals folded. New literals are allocated where the script is.
///
/// # Errors
///
/// Returns `AllocError` if an allocation fails. There is no other error.
pub fn fold<A: Allocator + Clone>(
    machine: Global,
    script: Script<A>,
) -> Result<Script<A>, AllocError>
    ensures { IfOk result (λ folded. tree_of folded ≡ folded_tree (tree_of script)) }
{
    let alloc = script.items.allocator().clone()?;
    constant_fold::fold(machine, alloc, script)
}

/// Lowers a singly assigned script to its flow, allocated in `alloc`.
///
/// # Errors
///
/// Returns `AllocError` if an allocation fails. There is no other error.
pub fn lower<A: Allocator + Clone>(
    alloc: A,
    script: &Script<A>,
    typed: &Typed,
    _single: &Single,
) -> Result<Flow<A>, AllocError>
    ensures core { IfOk result (λ flow. core_of flow ≡ core (table_of typed.now) (tree_of script.now)) }
    ensures declared { IfOk result (λ flow.
        declared_of flow ≡ flagged (own_declarations (tree_of script.now)) ++ flagged (function_declarations (tree_of script.now))) }
    ensures kinds { IfOk result (λ flow. kinds_of flow ≡ map kinds_of_signature (signatures (tree_of script.now))) }
    ensures shown { IfOk result (λ flow. shown_of flow ≡ shown (tree_of script.now)) }
    ensures cells { IfOk result (λ flow. AreAmong (anchors_of flow) (nodes_of (tree_of script.now))) }
{
    lowering::lower(alloc, script, typed)
}

/// Emits the code of the flow of an accepted script, including the rights of each entry. The flow must be lowered and
/// merged; the script may be folded before.
///
/// # Errors
///
/// Returns `AllocError` if an allocation fails. There is no other error.
pub fn rights<A: Allocator>(machine: Global, flow: Flow<A>) -> Result<Compiled<A>, AllocError>
    requires { IsOfScript flow }
    ensures flow { IfOk result (λ counted. counted.flow ≡ flow) }
    ensures emitted { IfOk result (λ counted. IsEmitted (core_of flow) (kinds_of flow) (declared_of flow) counted.code) }
    ensures marks { IfOk result (λ counted. AreAmong (marks_of counted.code.entries) (anchors_of flow)) }
    ensures code { IfOk result (λ counted. (src : List ℕ) → IsFoldedFlowOf src flow → IsCompiled src counted.code) }
{
    with_rights(machine, flow)
}

/// Creates the script's code from emitted code, with its tables and its listing.
///
/// # Errors
///
/// Returns `AllocError` if an allocation fails. There is no other error.
pub fn emit<A: Allocator>(
    machine: Global,
    counted: &Compiled<A>,
) -> Result<CompiledScript, AllocError>
    ensures { IfOk result (λ code. code.program ≡ counted.now.code) }
{
    let text = listing(machine, &counted.flow, &counted.code)?;
    let copy = counted.code.copy()?;
    let program = Program::new(machine, copy)?;
    Ok(CompiledScript::of(program, text))
}

/// Computes the facts about a script that are known after `limit` rounds, or after fewer if no further round adds a
/// fact.
///
/// # Errors
///
/// Returns `AllocError` if an allocation fails. There is no other error.
pub fn rounds<A: Allocator + Clone>(
    machine: Global,
    script: &Script<A>,
    typed: &Typed,
    single: &Single,
    limit: u32,
) -> Result<Knowledge, AllocError>
    ensures known { IfOk result (λ k. (src : List ℕ) → Reads src (tree_of script.now) → WellTyped (tree_of script.now) (table_of typed.now)
        → SinglyAssigned (core (table_of typed.now) (tree_of script.now)) → IsKnowledgeOf (core (table_of typed.now) (tree_of script.now)) k) }
    ensures within { IfOk result (λ k. (k.rounds ≤ limit) × (k.finished ≡ false → k.rounds ≡ limit)) }
{
    let alloc = script.items.allocator().clone()?;
    let flow = lower(alloc, script, typed, single)?;
    let known = meaning::rounds(machine, &flow, limit)?;
    Ok(known)
}
