//! The drawing of a script.

use crate::analysis::call_order::CallOrder;
use crate::analysis::traffic::Traffic;
use crate::analysis::walk::scene_of;
use crate::elements::context::DrawingContext;
use crate::elements::edges::add_edges;
use crate::elements::frames::add_frames;
use crate::text::dot_text::DotText;
use crate::text::style::{add_first, add_last};
use flow::script::Flow;
use std::alloc::{AllocError, Allocator, Global};

/// Returns the drawing of a script as text for `dot`. The flow has to be that of the text, as written.
///
/// # Errors
///
/// Returns `AllocError` if an allocation fails.
pub fn drawing<'a, A: Allocator>(
    alloc: Global,
    source: &'a [u8],
    flow: &'a Flow<A>,
) -> Result<Vec<u8>, AllocError> {
    let scene = scene_of(alloc, flow)?;
    let traffic = Traffic::of(alloc, &scene)?;
    let order = CallOrder::of(alloc, &scene)?;
    let context = DrawingContext::new(alloc, source, &scene, &traffic)?;
    let mut text = DotText::new(alloc);
    add_first(&mut text);
    add_frames(&context, &mut text)?;
    add_edges(&context, &mut text, &order)?;
    add_last(&mut text);
    text.finish()
}
