//! Frames and boxes of a drawing.

use crate::analysis::scene::{DrawingStep, Frame};
use crate::elements::context::DrawingContext;
use crate::text::dot_text::DotText;
use crate::text::excerpt::start_before;
use crate::text::style::{CALL, box_style, frame_style, stripe};
use std::alloc::{AllocError, Allocator};

/// Appends all frames, with the boxes in them.
///
/// # Errors
///
/// Returns `AllocError` if an allocation fails.
pub fn add_frames<A: Allocator>(
    context: &DrawingContext<'_, '_, A>,
    text: &mut DotText,
) -> Result<(), AllocError> {
    for step in &context.scene.steps {
        match step {
            DrawingStep::Open(opened) => open_frame(context, text, *opened)?,
            DrawingStep::Variables(block) => add_variables(context, text, *block),
            DrawingStep::Statement(statement) => add_box(context, text, *statement)?,
            DrawingStep::Empty(block) => add_point(text, *block),
            DrawingStep::Close => text.add("  }\n"),
        }
    }
    Ok(())
}

/// Appends the first line of a frame, and the box of a function at its head.
fn open_frame<A: Allocator>(
    context: &DrawingContext<'_, '_, A>,
    text: &mut DotText,
    opened: Frame,
) -> Result<(), AllocError> {
    text.add("  subgraph cluster_");
    match opened {
        Frame::Script => text.add("script"),
        Frame::Function(function) => context.add_function(text, function),
        Frame::Loop(at) | Frame::Wait(at) | Frame::Choice(at) => text.add_counted("s", at),
        Frame::Branch(_, block) => text.add_counted("b", block),
    }
    text.add(" { ");
    text.add(frame_style(opened));
    text.add("\n");
    match opened {
        Frame::Function(function) => add_head(context, text, function),
        Frame::Script | Frame::Loop(_) | Frame::Wait(_) | Frame::Choice(_) | Frame::Branch(_, _) =>
            Ok(()),
    }
}

/// Appends the box at the head of a function: its outputs, name and inputs as they are written.
fn add_head<A: Allocator>(
    context: &DrawingContext<'_, '_, A>,
    text: &mut DotText,
    function: usize,
) -> Result<(), AllocError> {
    let Some(headed) = context.scene.functions.get(function) else {
        return Ok(());
    };
    let start = start_before(context.starts.as_slice(), headed.at);
    let words = context.excerpt(start)?;
    text.add("    ");
    context.add_function(text, function);
    text.add(" [class=\"fhead\", fillcolor=\"#f5f2fb\", color=\"");
    text.add(CALL);
    text.add("\", ");
    context.add_label(text, CALL, context.line(start), words.as_slice(), None);
    Ok(())
}

/// Appends the boxes of the variables of a block that have one.
fn add_variables<A: Allocator>(
    context: &DrawingContext<'_, '_, A>,
    text: &mut DotText,
    block: usize,
) {
    for variable in context.own_boxes(block) {
        text.add_counted("    v", *variable);
        text.add(
            " [class=\"var\", style=\"rounded,filled\", fillcolor=\"#eef1f4\", color=\"#5d656e\", margin=\"0.1,0\", label=\"",
        );
        context.add_variable(text, *variable);
        text.add("\", tooltip=\"the variable ");
        context.add_variable(text, *variable);
        text.add("\"];\n");
    }
}

/// Appends the box of a statement.
fn add_box<A: Allocator>(
    context: &DrawingContext<'_, '_, A>,
    text: &mut DotText,
    statement: usize,
) -> Result<(), AllocError> {
    let Some(found) = context.scene.boxes.get(statement) else {
        return Ok(());
    };
    let words = context.excerpt(found.at)?;
    text.add("    ");
    context.add_statement(text, statement);
    text.add(" [");
    text.add(box_style(found.kind));
    text.add(", ");
    context.add_label(
        text,
        stripe(found.kind),
        context.line(found.at),
        words.as_slice(),
        Some(statement),
    );
    Ok(())
}

/// Appends the point that stands for a branch without any box.
fn add_point(text: &mut DotText, block: usize) {
    text.add_counted("    p", block);
    text.add(" [class=\"none\", shape=point, width=0.05, tooltip=\"nothing\"];\n");
}
