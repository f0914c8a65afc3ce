//! Emission of scripts and functions.
ghost use Rattle.std.specs.Prelude.{◌≡◌, ◌≤◌, map, IfOk, OnOk};
ghost use Rattle.std.specs.List.{flat_map};
ghost use Rattle.flow.specs.Shapes.{declared_of, kinds_of};
ghost use Rattle.flow.specs.View.{core_of};
ghost use Rattle.flow.specs.Cells.{AreAmong, block_anchors, anchors_of, function_anchors};
ghost use Rattle.task_code.specs.View.{body_view, entry_view, opener_view};
ghost use Rattle.code_rules.specs.Emitted.{CallsOnce, CellsOnce, IsEmitted, ReadsStand, size_of};
ghost use Rattle.code_rules.specs.Laying.{LaysScript};
ghost use Rattle.code_rules.specs.Room.{CoreRoom};
ghost use Rattle.emit_cells.specs.Marks.{marks_of};
ghost use Rattle.emit_rights.specs.Granted.{laid_code};
ghost use Rattle.wait_merge.specs.Merged.{IsMerged};
ghost use Rattle.emit.specs.Emits.{AddsMarks, CanBeEmitted, EmitsAll, EmitsFunction, EmitsRoot};
ghost use Rattle.values.specs.Limits.{max_entries};

use crate::body::{body, empty};
use crate::emitter::Emitter;
use emit_rights::granted::granted;
use flow::script::{Flow, Function};
use flow::statement::Block;
use std::alloc::{AllocError, Allocator, Global};
use task_code::code::{Body, Opener};
use task_code::draft::Draft;
use task_code::entry::Entry;

impl Emitter {
    /// Emits the own block of the script or of a function, and returns its body.
    fn root<A: Allocator>(
        &mut self,
        functions: &Vec<Function<A>, A>,
        inputs: usize,
        block: &Block<A>,
        opener: Opener,
    ) -> Result<Body, AllocError>
        ensures laid { IfOk result (λ made. EmitsRoot functions.now.items inputs block.now (opener_view opener) self.old self.new (body_view made)) }
        ensures marks { OnOk result (AddsMarks self.old self.new (block_anchors block.now)) }
    {
        let nothing = empty(self.writer.alloc);
        let filling = self.block(functions, inputs, nothing, block)?;
        Ok(body(filling, opener))
    }

    /// Emits a function and appends its body to `found`.
    fn function<A: Allocator>(
        &mut self,
        functions: &Vec<Function<A>, A>,
        function: &Function<A>,
        found: &mut Vec<Body>,
    ) -> Result<(), AllocError>
        ensures laid { OnOk result (EmitsFunction functions.now.items function.now self.old self.new found.old.items found.new.items) }
        ensures marks { OnOk result (AddsMarks self.old self.new (function_anchors function.now)) }
    {
        let inputs = function.inputs.len();
        let made = self.root(functions, inputs, &function.body, Opener::ByCalls)?;
        found.push(made)?;
        Ok(())
    }

    /// Emits all functions of a script and appends their bodies to `found`.
    fn each_function<A: Allocator>(
        &mut self,
        functions: &Vec<Function<A>, A>,
        found: &mut Vec<Body>,
    ) -> Result<(), AllocError>
        ensures laid { OnOk result (EmitsAll functions.now.items self.old self.new found.old.items found.new.items) }
        ensures marks { OnOk result (AddsMarks self.old self.new (flat_map function_anchors functions.now.items)) }
    {
        for function in functions {
            self.function(functions, function, found)?;
        }
        Ok(())
    }
}

/// The bodies and entries of a script before rights are assigned.
#[derive(Drop)]
struct UngrantedCode {
    bodies: Vec<Body>,
    entries: Vec<Entry>,
}

/// Emits a script: its own block, then its functions. The bodies of inner blocks follow all of these.
fn lay_script<A: Allocator>(alloc: Global, flow: &Flow<A>) -> Result<UngrantedCode, AllocError>
    ensures laid { IfOk result (λ laid. CanBeEmitted (core_of flow.now) → IsMerged flow.now
        → LaysScript (core_of flow.now) (kinds_of flow.now) (declared_of flow.now) (laid_code laid.bodies.items laid.entries.items)) }
    ensures marks { IfOk result (λ laid. AreAmong (marks_of (map entry_view laid.entries.items)) (anchors_of flow.now)) }
{
    let mut emitter = Emitter::new(alloc);
    let mut found = Vec::new(alloc);
    let main = emitter.root(&flow.functions, 0, &flow.body, Opener::ByMain)?;
    found.push(main)?;
    emitter.each_function(&flow.functions, &mut found)?;
    found.append(&mut emitter.bodies)?;
    Ok(UngrantedCode {
        bodies: found,
        entries: emitter.writer.entries,
    })
}

/// Emits the code of a flow in which all `wait` statements are merged that can be.
///
/// The code has an entry for each cell, call and statement, and a body for each block. Body 0 is the script; the bodies
/// of its functions follow, then those of inner blocks.
///
///
/// # Errors
///
/// Returns `AllocError` if an allocation fails.
pub fn emit<A: Allocator>(alloc: Global, flow: &Flow<A>) -> Result<Draft, AllocError>
    requires merged { IsMerged flow.now }
    requires calls { CallsOnce (core_of flow.now) }
    requires cells { CellsOnce (core_of flow.now) }
    requires reads { ReadsStand (core_of flow.now) }
    requires room { CoreRoom (core_of flow.now) }
    requires size { size_of (core_of flow.now) ≤ max_entries }
    ensures emitted { IfOk result (λ code. IsEmitted (core_of flow.now) (kinds_of flow.now) (declared_of flow.now) code) }
    ensures marks { IfOk result (λ code. AreAmong (marks_of code.entries) (anchors_of flow.now)) }
{
    let laid = lay_script(alloc, flow)?;
    granted(alloc, laid.bodies, laid.entries)
}
