//! Merging of waits in whole scripts.
ghost use Rattle.std.specs.Prelude.{◌≡◌, IfOk, IsTrue, OnOk, map};
ghost use Rattle.flow.specs.View.{core_of, function_view};
ghost use Rattle.flow.specs.Shapes.{block_declared, declared_of, kinds_of, kinds_of_function};
ghost use Rattle.flow.specs.Cells.{anchors_of, function_anchors};
ghost use Rattle.flow.specs.Listed.{function_shown, shown_of};
ghost use Rattle.wait_merge.specs.Merged.{functions_merged, IsMerged};

use crate::statement::merge_block;
use flow::script::{Flow, Function};
use std::alloc::{AllocError, Allocator};

/// Returns the flow with its nested waits merged, until none is left to merge. The flow stays that of the same script.
///
/// A `wait` whose content is exactly one `wait` absorbs it and keeps the headers of both, outermost first.
///
/// # Errors
///
/// Returns `AllocError` if a list of headers cannot grow.
pub fn merge<A: Allocator>(flow: Flow<A>) -> Result<Flow<A>, AllocError>
    ensures core { IfOk result (λ merged. core_of merged ≡ core_of flow) }
    ensures declared { IfOk result (λ merged. declared_of merged ≡ declared_of flow) }
    ensures kinds { IfOk result (λ merged. kinds_of merged ≡ kinds_of flow) }
    ensures shown { IfOk result (λ merged. shown_of merged ≡ shown_of flow) }
    ensures cells { IfOk result (λ merged. anchors_of merged ≡ anchors_of flow) }
    ensures merged { IfOk result (λ merged. IsMerged merged) }
{
    let Flow {
        mut body,
        mut functions,
    } = flow;
    merge_block(&mut body)?;
    each(&mut functions)?;
    Ok(Flow { body, functions })
}

/// Merges the nested waits of functions.
fn each<A: Allocator>(functions: &mut Vec<Function<A>, A>) -> Result<(), AllocError>
    ensures core { OnOk result (map function_view functions.new.items ≡ map function_view functions.old.items) }
    ensures declared { OnOk result (map (λ f. block_declared f.body) functions.new.items ≡ map (λ f. block_declared f.body) functions.old.items) }
    ensures kinds { OnOk result (map kinds_of_function functions.new.items ≡ map kinds_of_function functions.old.items) }
    ensures shown { OnOk result (map function_shown functions.new.items ≡ map function_shown functions.old.items) }
    ensures cells { OnOk result (map function_anchors functions.new.items ≡ map function_anchors functions.old.items) }
    ensures merged { OnOk result (IsTrue (functions_merged functions.new.items)) }
{
    for i in 0..functions.len() {
        let function = &mut functions[i];
        merge_block(&mut function.body)?;
    }
    Ok(())
}
