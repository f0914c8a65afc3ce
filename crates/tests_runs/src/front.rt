//! The calls from a script's bytes to its code and to its meaning.
ghost use Rattle.std.specs.Prelude.{◌≡◌, ◌++◌, [], ℕ, map, IfOk, IfSome};
ghost use Rattle.assign_check.specs.Faults.{faults};
ghost use Rattle.constant_fold.specs.Folded.{folded_tree};
ghost use Rattle.flow.specs.Cells.{AreAmong, anchors_of};
ghost use Rattle.flow.specs.Listed.{shown_of};
ghost use Rattle.flow.specs.Shapes.{declared_of, kinds_of};
ghost use Rattle.flow.specs.View.{core_of};
ghost use Rattle.language.specs.Numbered.{numbered};
ghost use Rattle.language.specs.Reads.{Reads};
ghost use Rattle.language.specs.Resolved.{core};
ghost use Rattle.language.specs.Scopes.{signatures};
ghost use Rattle.language.specs.Tree.{Tree};
ghost use Rattle.language.specs.Typing.{WellTyped};
ghost use Rattle.lowering.specs.Listed.{shown};
ghost use Rattle.lowering.specs.Nodes.{nodes_of};
ghost use Rattle.lowering.specs.Shapes.{flagged, function_declarations, kinds_of_signature, own_declarations};
ghost use Rattle.syntax_trees.specs.View.{tree_of};
ghost use Rattle.types.specs.Typed.{table_of};
ghost use Rattle.wait_merge.specs.Merged.{IsMerged};
ghost use Rattle.tests_runs.specs.Folds.{IsFold, IsOfText};

use crate::told::{note, print_listing, wrong};
use std::alloc::{Allocator, Global};
use std::io;
use swt_library::scripts::{CompiledScript, compile};
use swt_library::stages::{self, Single};
use swt_library::{
    AssignFault, CompileFault, Compiled, Flow, Knowledge, ParseFault, Script, TypeFault, Typed,
};

/// Maximum number of times that a call is made.
const TRIES: u32 = 2;

/// The most rounds of a meaning.
const ROUNDS: u32 = 1_000_000;

/// Makes each call on the way to the meaning and to the code, and prints the code's listing. Trees and flows lie in `alloc`.
#[tactic(auto, using(crate::proofs::Folds::of_text))]
pub fn try_stages<A: Allocator + Clone>(
    rt: &HostRuntime,
    machine: Global,
    alloc: &A,
    src: &[u8],
) -> io::Result<()> {
    match read(rt, alloc, src)? {
        Some(script) => try_script(rt, machine, alloc, &script),
        None => wrong(rt, "no tree"),
    }
}

/// Makes code of a script with trees and flows in `alloc`, and prints its listing.
pub fn try_compile<A: Allocator + Clone>(
    rt: &HostRuntime,
    machine: Global,
    alloc: &A,
    src: &[u8],
) -> io::Result<()> {
    match compiled(rt, machine, alloc, src)? {
        Some(code) => print_listing(rt, &code),
        None => wrong(rt, "no code"),
    }
}

/// Makes each call on a tree.
fn try_script<A: Allocator + Clone>(
    rt: &HostRuntime,
    machine: Global,
    alloc: &A,
    script: &Script<A>,
) -> io::Result<()>
    requires { IsOfText (tree_of script.now) }
{
    let Some(typed) = typed_of(rt, machine, script)? else {
        return wrong(rt, "no types");
    };
    let Some(single) = single_of(rt, machine, script, &typed)? else {
        return wrong(rt, "not singly assigned");
    };
    try_meaning(rt, machine, script, &typed, &single)?;
    match folded(rt, machine, alloc, script)? {
        Some(folded) => try_fold(rt, machine, alloc, &folded, &typed, &single),
        None => wrong(rt, "no fold"),
    }
}

/// Works out what a script means.
fn try_meaning<A: Allocator + Clone>(
    rt: &HostRuntime,
    machine: Global,
    script: &Script<A>,
    typed: &Typed,
    single: &Single,
) -> io::Result<()> {
    match known_of(rt, machine, script, typed, single)? {
        Some(known) if known.finished => Ok(()),
        Some(_) => wrong(rt, "a meaning that is not whole"),
        None => wrong(rt, "no meaning"),
    }
}

/// Makes code of the fold of a script, and prints its listing.
fn try_fold<A: Allocator + Clone>(
    rt: &HostRuntime,
    machine: Global,
    alloc: &A,
    folded: &Script<A>,
    typed: &Typed,
    single: &Single,
) -> io::Result<()>
    requires { IsFold (table_of typed.now) (tree_of folded.now) }
{
    match counted(rt, machine, alloc, folded, typed, single)? {
        Some(counted) => try_counted(rt, machine, &counted),
        None => wrong(rt, "no rights"),
    }
}

/// Makes code of a flow whose entries have their rights, and prints its listing.
fn try_counted<A: Allocator>(
    rt: &HostRuntime,
    machine: Global,
    counted: &Compiled<A>,
) -> io::Result<()> {
    match emitted(rt, machine, counted)? {
        Some(code) => print_listing(rt, &code),
        None => wrong(rt, "no code"),
    }
}

/// The tree of a text.
fn read<A: Allocator + Clone>(
    rt: &HostRuntime,
    alloc: &A,
    src: &[u8],
) -> io::Result<Option<Script<A>>>
    ensures { IfOk result (λ found. IfSome found (λ script. Reads src.now (tree_of script))) }
{
    for _ in 0..TRIES {
        match stages::parse(alloc.clone()?, src) {
            Ok(script) => return Ok(Some(script)),
            Err(ParseFault::Memory) => note(rt, "parse")?,
            Err(_) => return Ok(None),
        }
    }
    Ok(None)
}

/// The names of a tree.
fn typed_of<A: Allocator>(
    rt: &HostRuntime,
    machine: Global,
    script: &Script<A>,
) -> io::Result<Option<Typed>>
    ensures { IfOk result (λ found. IfSome found (λ typed. (n : ℕ) (tree : Tree) → tree_of script.now ≡ numbered n tree
        → WellTyped (tree_of script.now) (table_of typed))) }
{
    for _ in 0..TRIES {
        match stages::check(machine, script) {
            Ok(typed) => return Ok(Some(typed)),
            Err(TypeFault::Memory) => note(rt, "types")?,
            Err(_) => return Ok(None),
        }
    }
    Ok(None)
}

/// That a tree is singly assigned.
fn single_of<A: Allocator>(
    rt: &HostRuntime,
    machine: Global,
    script: &Script<A>,
    typed: &Typed,
) -> io::Result<Option<Single>>
    ensures { IfOk result (λ found. IfSome found (λ _. faults (table_of typed.now) (tree_of script.now) ≡ [])) }
{
    for _ in 0..TRIES {
        match stages::check_single(machine, script, typed) {
            Ok(single) => return Ok(Some(single)),
            Err(AssignFault::Memory) => note(rt, "assignments")?,
            Err(_) => return Ok(None),
        }
    }
    Ok(None)
}

/// A copy of the tree.
fn copied<A: Allocator + Clone>(
    rt: &HostRuntime,
    alloc: &A,
    script: &Script<A>,
) -> io::Result<Option<Script<A>>>
    ensures { IfOk result (λ found. IfSome found (λ copy. tree_of copy ≡ tree_of script.now)) }
{
    for _ in 0..TRIES {
        match script.copy_to(alloc.clone()?) {
            Ok(copy) => return Ok(Some(copy)),
            Err(_) => note(rt, "copy_to")?,
        }
    }
    Ok(None)
}

/// The fold of a tree. A refused call has let go of the tree that it was handed, so the next is handed another copy.
fn folded<A: Allocator + Clone>(
    rt: &HostRuntime,
    machine: Global,
    alloc: &A,
    script: &Script<A>,
) -> io::Result<Option<Script<A>>>
    ensures { IfOk result (λ found. IfSome found (λ folded. tree_of folded ≡ folded_tree (tree_of script.now))) }
{
    for _ in 0..TRIES {
        let Some(copy) = copied(rt, alloc, script)? else {
            return Ok(None);
        };
        match stages::fold(machine, copy) {
            Ok(folded) => return Ok(Some(folded)),
            Err(_) => note(rt, "fold")?,
        }
    }
    Ok(None)
}

/// The flow of a tree.
fn lowered<A: Allocator + Clone>(
    rt: &HostRuntime,
    alloc: &A,
    script: &Script<A>,
    typed: &Typed,
    single: &Single,
) -> io::Result<Option<Flow<A>>>
    ensures core { IfOk result (λ found. IfSome found (λ flow. core_of flow ≡ core (table_of typed.now) (tree_of script.now))) }
    ensures declared { IfOk result (λ found. IfSome found (λ flow.
        declared_of flow ≡ flagged (own_declarations (tree_of script.now)) ++ flagged (function_declarations (tree_of script.now)))) }
    ensures kinds { IfOk result (λ found. IfSome found (λ flow. kinds_of flow ≡ map kinds_of_signature (signatures (tree_of script.now)))) }
    ensures shown { IfOk result (λ found. IfSome found (λ flow. shown_of flow ≡ shown (tree_of script.now))) }
    ensures cells { IfOk result (λ found. IfSome found (λ flow. AreAmong (anchors_of flow) (nodes_of (tree_of script.now)))) }
{
    for _ in 0..TRIES {
        match stages::lower(alloc.clone()?, script, typed, single) {
            Ok(flow) => return Ok(Some(flow)),
            Err(_) => note(rt, "lower")?,
        }
    }
    Ok(None)
}

/// The flow with its waits merged. A failed call has freed the flow that was passed to it.
fn merged<A: Allocator + Clone>(
    rt: &HostRuntime,
    alloc: &A,
    script: &Script<A>,
    typed: &Typed,
    single: &Single,
) -> io::Result<Option<Flow<A>>>
    ensures core { IfOk result (λ found. IfSome found (λ flow. core_of flow ≡ core (table_of typed.now) (tree_of script.now))) }
    ensures declared { IfOk result (λ found. IfSome found (λ flow.
        declared_of flow ≡ flagged (own_declarations (tree_of script.now)) ++ flagged (function_declarations (tree_of script.now)))) }
    ensures kinds { IfOk result (λ found. IfSome found (λ flow. kinds_of flow ≡ map kinds_of_signature (signatures (tree_of script.now)))) }
    ensures shown { IfOk result (λ found. IfSome found (λ flow. shown_of flow ≡ shown (tree_of script.now))) }
    ensures cells { IfOk result (λ found. IfSome found (λ flow. AreAmong (anchors_of flow) (nodes_of (tree_of script.now)))) }
    ensures merged { IfOk result (λ found. IfSome found (λ flow. IsMerged flow)) }
{
    for _ in 0..TRIES {
        let Some(flow) = lowered(rt, alloc, script, typed, single)? else {
            return Ok(None);
        };
        match stages::merge(flow) {
            Ok(merged) => return Ok(Some(merged)),
            Err(_) => note(rt, "merge")?,
        }
    }
    Ok(None)
}

/// The meaning of a script.
fn known_of<A: Allocator + Clone>(
    rt: &HostRuntime,
    machine: Global,
    script: &Script<A>,
    typed: &Typed,
    single: &Single,
) -> io::Result<Option<Knowledge>> {
    for _ in 0..TRIES {
        match stages::rounds(machine, script, typed, single, ROUNDS) {
            Ok(known) => return Ok(Some(known)),
            Err(_) => note(rt, "rounds")?,
        }
    }
    Ok(None)
}

/// The flow of the fold of a script, with its rights. A refused call has let go of the flow that it was handed.
fn counted<A: Allocator + Clone>(
    rt: &HostRuntime,
    machine: Global,
    alloc: &A,
    folded: &Script<A>,
    typed: &Typed,
    single: &Single,
) -> io::Result<Option<Compiled<A>>>
    requires { IsFold (table_of typed.now) (tree_of folded.now) }
{
    for _ in 0..TRIES {
        let Some(flow) = merged(rt, alloc, folded, typed, single)? else {
            return Ok(None);
        };
        match stages::rights(machine, flow) {
            Ok(counted) => return Ok(Some(counted)),
            Err(_) => note(rt, "rights")?,
        }
    }
    Ok(None)
}

/// The code of a flow whose entries have their rights.
fn emitted<A: Allocator>(
    rt: &HostRuntime,
    machine: Global,
    counted: &Compiled<A>,
) -> io::Result<Option<CompiledScript>> {
    for _ in 0..TRIES {
        match stages::emit(machine, counted) {
            Ok(code) => return Ok(Some(code)),
            Err(_) => note(rt, "emit")?,
        }
    }
    Ok(None)
}

/// The code of a text, with trees and flows in `alloc` on the way.
pub fn compiled<A: Allocator + Clone>(
    rt: &HostRuntime,
    machine: Global,
    alloc: &A,
    src: &[u8],
) -> io::Result<Option<CompiledScript>> {
    for _ in 0..TRIES {
        match compile(machine, alloc.clone()?, src) {
            Ok(code) => return Ok(Some(code)),
            Err(CompileFault::Memory) => note(rt, "compile")?,
            Err(_) => return Ok(None),
        }
    }
    Ok(None)
}
