//! What a script is after a pass of the compiler, as text.
ghost use Rattle.std.specs.Prelude.{◌≡◌, IfErr, IsOk, MatchResult};
ghost use Rattle.compile.specs.Accepted.{IsScript, IsUnfit};
ghost use Rattle.swt_command.specs.Files.{StopsAt, contents};
ghost use Rattle.swt_command.specs.Listings.{IsAcceptedAt};

use crate::scripts::{at_script, source};
use bumpalo::Bump;
use compile::check::{Accepted, accept};
use compile::compile::{folded_flow_of, listed};
use compile::fault::CompileFault;
use compile::steps::{folded, lowered};
use show_passes::flow_statements::flow_text;
use show_passes::tree_statements::{tree_text, typed_text};
use std::alloc::{AllocError, Allocator, Global};
use swt_arguments::pass::Pass;
use swt_status::stop::CommandStop;

/// Returns what the first file's script is after a pass, as text for a reader. The tree and the flow stay in the arena.
///
/// # Errors
///
/// Returns `Unread`, `Refused` or `Memory`.
pub fn text_after(
    alloc: Global,
    arena: &Bump,
    files: &[Option<Vec<u8>>],
    pass: Pass,
) -> Result<Vec<u8>, CommandStop>
    ensures { MatchResult result (λ text. IsAcceptedAt (contents files.now) 0)
        (λ stop. (stop.place ≡ 0) × StopsAt (contents files.now) 0 stop.trouble) }
{
    let source = source(files, 0)?;
    match shown(alloc, arena, source, pass) {
        Ok(text) => Ok(text),
        Err(fault) => Err(at_script(fault)),
    }
}

/// Returns what a script is after a pass, as text for a reader.
///
/// # Errors
///
/// Returns the refusal of the first step that refuses the script, or `Memory` if an allocation fails.
fn shown<A: Allocator + Clone>(
    machine: Global,
    alloc: A,
    source: &[u8],
    pass: Pass,
) -> Result<Vec<u8>, CompileFault>
    ensures script { IsOk result → IsScript source.now }
    ensures unfit { IfErr result (λ fault. IsUnfit source.now fault) }
{
    match pass {
        Pass::Emit => emitted(machine, alloc, source),
        Pass::Parse | Pass::Types | Pass::Fold | Pass::Lower | Pass::Merge => {
            before_code(machine, alloc, source, pass)
        }
    }
}

/// Returns the listing of a script's code.
///
/// # Errors
///
/// Returns the refusal of the first step that refuses the script, or `Memory` if an allocation fails.
fn emitted<A: Allocator + Clone>(
    machine: Global,
    alloc: A,
    source: &[u8],
) -> Result<Vec<u8>, CompileFault>
    ensures script { IsOk result → IsScript source.now }
    ensures unfit { IfErr result (λ fault. IsUnfit source.now fault) }
{
    let listed = listed(machine, alloc, source)?;
    Ok(listed.into_text())
}

/// Returns what a script is after a pass before the last.
///
/// # Errors
///
/// Returns the refusal of the first step that refuses the script, or `Memory` if an allocation fails.
fn before_code<A: Allocator + Clone>(
    machine: Global,
    alloc: A,
    source: &[u8],
    pass: Pass,
) -> Result<Vec<u8>, CompileFault>
    ensures script { IsOk result → IsScript source.now }
    ensures unfit { IfErr result (λ fault. IsUnfit source.now fault) }
{
    let accepted = accept(machine, alloc, source)?;
    match accepted_text(machine, source, accepted, pass) {
        Ok(text) => Ok(text),
        Err(_) => Err(CompileFault::Memory),
    }
}

/// Returns what an accepted script is after a pass before the last.
///
/// # Errors
///
/// Returns `AllocError` if an allocation fails.
fn accepted_text<A: Allocator + Clone>(
    machine: Global,
    source: &[u8],
    accepted: Accepted<A>,
    pass: Pass,
) -> Result<Vec<u8>, AllocError> {
    match pass {
        Pass::Parse => tree_text(machine, source, &accepted.script),
        Pass::Types => typed_text(machine, source, &accepted.script, &accepted.typed),
        Pass::Fold => folded_text(machine, source, accepted),
        Pass::Lower => lowered_text(machine, source, accepted),
        Pass::Merge | Pass::Emit => merged_text(machine, source, accepted),
    }
}

/// Returns the text of an accepted script's folded tree.
fn folded_text<A: Allocator + Clone>(
    machine: Global,
    source: &[u8],
    accepted: Accepted<A>,
) -> Result<Vec<u8>, AllocError> {
    let folded = folded(machine, accepted)?;
    tree_text(machine, source, &folded.script)
}

/// Returns the text of an accepted script's flow.
fn lowered_text<A: Allocator + Clone>(
    machine: Global,
    source: &[u8],
    accepted: Accepted<A>,
) -> Result<Vec<u8>, AllocError> {
    let flow = lowered(machine, accepted)?;
    flow_text(machine, source, &flow)
}

/// Returns the text of an accepted script's flow with merged waits.
fn merged_text<A: Allocator + Clone>(
    machine: Global,
    source: &[u8],
    accepted: Accepted<A>,
) -> Result<Vec<u8>, AllocError> {
    let flow = folded_flow_of(machine, accepted)?;
    flow_text(machine, source, &flow)
}
