//! The compilation pipeline: from the bytes of a script to its flow, its code and texts of the code.
ghost use Rattle.std.specs.Prelude.{◌≡◌, ℕ, List, IfOk, IfErr, IsOk};
ghost use Rattle.code_rules.specs.Emitted.{IsEmitted};
ghost use Rattle.constant_fold.specs.Folded.{folded_tree};
ghost use Rattle.emit.specs.Marks.{marks_of};
ghost use Rattle.flow.specs.Cells.{AreAmong, anchors_of};
ghost use Rattle.flow.specs.Shapes.{declared_of, kinds_of};
ghost use Rattle.flow.specs.View.{core_of};
ghost use Rattle.syntax_trees.specs.View.{tree_of};
ghost use Rattle.types.specs.Typed.{table_of};
ghost use Rattle.compile.specs.Compiled.{IsCompiled, IsFlowFor, IsFlowOf, IsFoldedFlowOf, IsOfScript};
ghost use Rattle.compile.specs.Accepted.{IsScript, IsUnfit};
ghost use Rattle.compile.specs.Listed.{IsListingOf};

use crate::check::{Accepted, accept};
use crate::fault::CompileFault;
use code_listing::graph::graph;
use code_listing::text::listing;
use constant_fold::fold;
use emit::emit;
use flow::script::Flow;
use lowering::lower;
use std::alloc::{AllocError, Allocator, Global};
use std::mem;
use task_code::code::Code;
use wait_merge::merge;

/// Returns the flow of a script as written, with resolved names and merged waits. The flow is allocated in `alloc`. The
/// tree occupies `alloc` during the call only.
///
/// # Errors
///
/// Returns the refusal of the first step that refuses the script, or `Memory` if an allocation fails.
pub fn read<A: Allocator + Clone>(
    machine: Global,
    alloc: A,
    src: &[u8],
) -> Result<Flow<A>, CompileFault>
    ensures flow { IfOk result (λ flow. IsFlowOf src.now flow) }
    ensures unfit { IfErr result (λ fault. IsUnfit src.now fault) }
{
    let accepted = accept(machine, alloc, src)?;
    match flow_of(&accepted) {
        Ok(flow) => Ok(flow),
        Err(_) => Err(CompileFault::Memory),
    }
}

/// Returns the flow of an accepted script, with merged waits.
fn flow_of<A: Allocator + Clone>(accepted: &Accepted<A>) -> Result<Flow<A>, AllocError>
    ensures { IfOk result (λ flow. IsFlowFor (table_of accepted.now.typed) (tree_of accepted.now.script) flow) }
{
    let alloc = accepted.script.items.allocator().clone()?;
    let flow = lower(alloc, &accepted.script, &accepted.typed)?;
    let merged = merge(flow)?;
    Ok(merged)
}

/// Returns the flow of a script with folded literal expressions, resolved names and merged waits. The flow is allocated
/// in `alloc`. The tree occupies `alloc` during the call only.
///
/// # Errors
///
/// Returns the refusal of the first step that refuses the script, or `Memory` if an allocation fails.
pub fn read_folded<A: Allocator + Clone>(
    machine: Global,
    alloc: A,
    src: &[u8],
) -> Result<Flow<A>, CompileFault>
    ensures flow { IfOk result (λ flow. IsFoldedFlowOf src.now flow) }
    ensures unfit { IfErr result (λ fault. IsUnfit src.now fault) }
{
    let accepted = accept(machine, alloc, src)?;
    match folded_flow_of(machine, accepted) {
        Ok(flow) => Ok(flow),
        Err(_) => Err(CompileFault::Memory),
    }
}

/// Returns the flow of an accepted script, with folded literal expressions and merged waits.
///
/// # Errors
///
/// Returns `AllocError` if an allocation fails.
pub fn folded_flow_of<A: Allocator + Clone>(
    machine: Global,
    accepted: Accepted<A>,
) -> Result<Flow<A>, AllocError>
    ensures { IfOk result (λ flow. IsFlowFor (table_of accepted.typed) (folded_tree (tree_of accepted.script)) flow) }
{
    let Accepted { script, typed } = accepted;
    let alloc = script.items.allocator().clone()?;
    let literals = script.items.allocator().clone()?;
    let folded = fold(machine, literals, script)?;
    let flow = lower(alloc, &folded, &typed)?;
    let merged = merge(flow)?;
    Ok(merged)
}

/// The flow of a script with folded literal expressions, and its code.
#[derive(Drop)]
pub struct Compiled<A: Allocator> {
    pub flow: Flow<A>,
    pub code: Code,
}

/// Emits the code of the flow of an accepted script, including the rights of each entry.
///
/// # Errors
///
/// Returns `AllocError` if an allocation fails. There is no other error.
pub fn with_rights<A: Allocator>(machine: Global, flow: Flow<A>) -> Result<Compiled<A>, AllocError>
    requires { IsOfScript flow }
    ensures flow { IfOk result (λ compiled. compiled.flow ≡ flow) }
    ensures emitted { IfOk result (λ compiled. IsEmitted (core_of flow) (kinds_of flow) (declared_of flow) compiled.code) }
    ensures marks { IfOk result (λ compiled. AreAmong (marks_of compiled.code.entries) (anchors_of flow)) }
    ensures code { IfOk result (λ compiled. (src : List ℕ) → IsFoldedFlowOf src flow → IsCompiled src compiled.code) }
{
    match emit(machine, &flow) {
        Ok(draft) => Ok(Compiled {
            flow,
            code: Code::of(draft),
        }),
        Err(fault) => Err(fault),
    }
}

/// Compiles a script to its flow, with folded literal expressions, and its code. The tree and the flow are allocated in
/// `alloc`, the code in the machine's memory.
///
/// # Errors
///
/// Returns the refusal of the first step that refuses the script, or `Memory` if an allocation fails.
pub fn with_flow<A: Allocator + Clone>(
    machine: Global,
    alloc: A,
    src: &[u8],
) -> Result<Compiled<A>, CompileFault>
    ensures flow { IfOk result (λ compiled. IsFoldedFlowOf src.now compiled.flow) }
    ensures code { IfOk result (λ compiled. IsCompiled src.now compiled.code) }
    ensures unfit { IfErr result (λ fault. IsUnfit src.now fault) }
{
    let flow = read_folded(machine, alloc, src)?;
    match with_rights(machine, flow) {
        Ok(compiled) => Ok(compiled),
        Err(_) => Err(CompileFault::Memory),
    }
}

/// Compiles a script to its code.
///
/// # Errors
///
/// Returns the refusal of the first step that refuses the script, or `Memory` if an allocation fails.
pub fn compile<A: Allocator + Clone>(
    machine: Global,
    alloc: A,
    src: &[u8],
) -> Result<Code, CompileFault>
    ensures code { IfOk result (λ code. IsCompiled src.now code) }
    ensures unfit { IfErr result (λ fault. IsUnfit src.now fault) }
{
    let compiled = with_flow(machine, alloc, src)?;
    Ok(compiled.code)
}

/// A text made from a script's code, together with the flow and the code.
#[derive(Drop)]
pub struct CodeText<A: Allocator> {
    text: Vec<u8>,
    compiled: Compiled<A>,
}

impl<A: Allocator> CodeText<A> {
    /// Returns the text.
    pub fn text(&self) -> &[u8]
        ensures { result.now ≡ self.now.text.items }
    {
        self.text.as_slice()
    }

    /// Returns the text alone. The flow and the code are leaked, not dropped, so they occupy memory until the process
    /// ends. This is for callers that end soon.
    pub fn into_text(self) -> Vec<u8>
        ensures { result ≡ self.text }
    {
        let CodeText { text, compiled } = self;
        mem::forget(compiled);
        text
    }
}

/// Returns the listing of a script's code.
///
/// # Errors
///
/// Returns the refusal of the first step that refuses the script, or `Memory` if an allocation fails.
pub fn listed<A: Allocator + Clone>(
    machine: Global,
    alloc: A,
    src: &[u8],
) -> Result<CodeText<A>, CompileFault>
    ensures script { IsOk result → IsScript src.now }
    ensures text { IfOk result (λ made. IsListingOf src.now made) }
    ensures unfit { IfErr result (λ fault. IsUnfit src.now fault) }
{
    let compiled = with_flow(machine, alloc, src)?;
    match listing(machine, &compiled.flow, &compiled.code) {
        Ok(text) => Ok(CodeText { text, compiled }),
        Err(_) => Err(CompileFault::Memory),
    }
}

/// Returns a drawing of a script's code, as text for `dot`.
///
/// # Errors
///
/// Returns the refusal of the first step that refuses the script, or `Memory` if an allocation fails.
pub fn drawn<A: Allocator + Clone>(
    machine: Global,
    alloc: A,
    src: &[u8],
) -> Result<CodeText<A>, CompileFault>
    ensures script { IsOk result → IsScript src.now }
    ensures unfit { IfErr result (λ fault. IsUnfit src.now fault) }
{
    let compiled = with_flow(machine, alloc, src)?;
    match graph(machine, &compiled.flow, &compiled.code) {
        Ok(text) => Ok(CodeText { text, compiled }),
        Err(_) => Err(CompileFault::Memory),
    }
}
