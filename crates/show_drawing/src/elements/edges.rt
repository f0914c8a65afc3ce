//! Arrows of a drawing, and the invisible ones that keep its boxes in their places.

use crate::analysis::call_order::{CallOrder, calls_once};
use crate::analysis::scene::{BlockHead, BoxKind, CallUse, DrawingStep, StatementBox};
use crate::analysis::traffic::Shown;
use crate::elements::context::DrawingContext;
use crate::text::dot_text::DotText;
use crate::text::style::{CALL, OPEN};
use std::alloc::{AllocError, Allocator, Global};

/// Maximum number of statements of the script above which its functions are held.
const FEW_ANCHORS: usize = 12;

/// An arrow of a variable from one statement to another.
#[derive(Clone, Copy, PartialEq, Eq, Debug, Drop)]
struct Arrow {
    from: usize,
    to: usize,
    variable: usize,
}

/// Appends all arrows.
///
/// # Errors
///
/// Returns `AllocError` if an allocation fails.
pub fn add_edges<A: Allocator>(
    context: &DrawingContext<'_, '_, A>,
    text: &mut DotText,
    order: &CallOrder,
) -> Result<(), AllocError> {
    add_block_edges(context, text);
    let arrows = arrows_of(context)?;
    add_arrows(context, text, arrows.as_slice());
    add_own_box_edges(context, text);
    let calls = calls_once(context.alloc, context.scene)?;
    add_calls(context, text, order, calls.as_slice());
    let anchors = anchors(context, arrows.as_slice())?;
    let held = held_above(context, order, calls.as_slice())?;
    add_anchors(context, text, anchors.as_slice(), held.as_slice());
    Ok(())
}

// BLOCKS

/// Appends the edges from the head of each block to its boxes.
fn add_block_edges<A: Allocator>(context: &DrawingContext<'_, '_, A>, text: &mut DotText) {
    for statement in 0..context.scene.boxes.len() {
        add_block_edge(
            context,
            text,
            statement,
            context.scene.boxes[statement].place.block,
        );
    }
    for step in &context.scene.steps {
        if let DrawingStep::Empty(block) = step {
            if let Some(BlockHead::Branch(head)) = head_of(context, *block) {
                add_opening(context, text, head, None, *block);
            }
        }
    }
    for block in 0..context.scene.blocks.len() {
        if let BlockHead::Statement(head) = context.scene.blocks[block].head {
            for variable in context.own_boxes(block) {
                context.add_statement(text, head);
                text.add_counted(" -> v", *variable);
                text.add(" [style=invis];\n");
            }
        }
    }
}

/// Returns the head of a block.
fn head_of<A: Allocator>(context: &DrawingContext<'_, '_, A>, block: usize) -> Option<BlockHead> {
    match context.scene.blocks.get(block) {
        Some(found) => Some(found.head),
        None => None,
    }
}

/// Appends the edge from the head of a block to a statement in it: a dashed arrow to the first of a branch, otherwise
/// an invisible one.
fn add_block_edge<A: Allocator>(
    context: &DrawingContext<'_, '_, A>,
    text: &mut DotText,
    statement: usize,
    block: usize,
) {
    let Some(found) = context.scene.blocks.get(block) else {
        return;
    };
    match found.head {
        BlockHead::Script => {}
        BlockHead::Function(function) => {
            text.add("  ");
            context.add_function(text, function);
            add_hidden(context, text, statement, " [style=invis, weight=2];\n");
        }
        BlockHead::Statement(head) => {
            text.add("  ");
            context.add_statement(text, head);
            add_hidden(context, text, statement, " [style=invis, weight=2];\n");
        }
        BlockHead::Branch(head) if found.first == Some(statement) => {
            add_opening(context, text, head, Some(statement), block);
        }
        BlockHead::Branch(head) => {
            text.add("  ");
            context.add_statement(text, head);
            add_hidden(context, text, statement, " [style=invis];\n");
        }
    }
}

/// Appends the end of an invisible edge to a statement.
fn add_hidden<A: Allocator>(
    context: &DrawingContext<'_, '_, A>,
    text: &mut DotText,
    statement: usize,
    attributes: &str,
) {
    text.add(" -> ");
    context.add_statement(text, statement);
    text.add(attributes);
}

/// Appends the dashed arrow from an `if` to the frame of a branch: to its first statement, or to its point.
fn add_opening<A: Allocator>(
    context: &DrawingContext<'_, '_, A>,
    text: &mut DotText,
    head: usize,
    first: Option<usize>,
    block: usize,
) {
    text.add("  ");
    context.add_statement(text, head);
    text.add(" -> ");
    match first {
        Some(statement) => context.add_statement(text, statement),
        None => text.add_counted("p", block),
    }
    text.add_counted(" [class=\"opens\", lhead=cluster_b", block);
    text.add(", style=dashed, arrowsize=0.6, weight=3, color=\"");
    text.add(OPEN);
    text.add("\"];\n");
}

// VARIABLES

/// Returns the arrows of all variables that are shown by arrows, in the order of the statements that they join.
fn arrows_of<A: Allocator>(context: &DrawingContext<'_, '_, A>) -> Result<Vec<Arrow>, AllocError> {
    let mut arrows = Vec::new(context.alloc);
    for variable in 0..context.scene.variables.len() {
        if context.traffic.shown(variable) == Shown::Arrows {
            for writer in context.traffic.writers(variable) {
                push_arrows(
                    &mut arrows,
                    variable,
                    *writer,
                    context.traffic.readers(variable),
                )?;
            }
        }
    }
    arrows.sort_by(|a, b| a.from.cmp(&b.from).then(a.to.cmp(&b.to)))?;
    Ok(arrows)
}

/// Appends the arrows of a variable from one writer.
fn push_arrows(
    arrows: &mut Vec<Arrow>,
    variable: usize,
    from: usize,
    readers: &[usize],
) -> Result<(), AllocError> {
    for reader in readers {
        arrows.push(Arrow {
            from,
            to: *reader,
            variable,
        })?;
    }
    Ok(())
}

/// Appends arrows, in order. Arrows of several variables between the same statements are one.
fn add_arrows<A: Allocator>(
    context: &DrawingContext<'_, '_, A>,
    text: &mut DotText,
    arrows: &[Arrow],
) {
    let mut before: Option<Arrow> = None;
    for arrow in arrows {
        match before {
            Some(last) if last.from == arrow.from && last.to == arrow.to => text.add(", "),
            Some(_) => {
                text.add(" \"];\n");
                begin_arrow(context, text, *arrow);
            }
            None => begin_arrow(context, text, *arrow),
        }
        context.add_variable(text, arrow.variable);
        before = Some(*arrow);
    }
    if before.is_some() {
        text.add(" \"];\n");
    }
}

/// Appends an arrow up to the names of its variables.
fn begin_arrow<A: Allocator>(
    context: &DrawingContext<'_, '_, A>,
    text: &mut DotText,
    arrow: Arrow,
) {
    text.add("  ");
    context.add_statement(text, arrow.from);
    text.add(" -> ");
    context.add_statement(text, arrow.to);
    text.add(" [class=\"flow\", label=\" ");
}

/// Appends the arrows of the variables with boxes of their own: from each writer, and to each reader. A statement that
/// does both has one arrow with two heads.
fn add_own_box_edges<A: Allocator>(context: &DrawingContext<'_, '_, A>, text: &mut DotText) {
    for variable in 0..context.scene.variables.len() {
        if context.traffic.shown(variable) == Shown::OwnBox {
            let writers = context.traffic.writers(variable);
            let readers = context.traffic.readers(variable);
            for writer in writers {
                text.add("  ");
                context.add_statement(text, *writer);
                text.add_counted(" -> v", variable);
                text.add(if readers.binary_search(writer).is_ok() {
                    " [class=\"flow\", dir=both];\n"
                } else {
                    " [class=\"flow\"];\n"
                });
            }
            for reader in readers {
                if writers.binary_search(reader).is_err() {
                    text.add_counted("  v", variable);
                    add_hidden(context, text, *reader, " [class=\"flow\"];\n");
                }
            }
        }
    }
}

// CALLS

/// Appends a dotted arrow from each statement to each function that it calls. Only calls that lead down decide where a
/// function stands.
fn add_calls<A: Allocator>(
    context: &DrawingContext<'_, '_, A>,
    text: &mut DotText,
    order: &CallOrder,
    calls: &[CallUse],
) {
    for call in calls {
        if let Some(caller) = context.scene.boxes.get(call.statement) {
            text.add("  ");
            context.add_statement(text, call.statement);
            text.add(" -> ");
            context.add_function(text, call.function);
            text.add(" [class=\"calls\", style=dotted, penwidth=1.5, arrowsize=0.6, color=\"");
            text.add(CALL);
            text.add(if order.leads_down(caller.place.function, call.function) {
                "\"];\n"
            } else {
                "\", constraint=false];\n"
            });
        }
    }
}

/// Returns some of the last statements of the script: those that no arrow to another statement leaves.
fn anchors<A: Allocator>(
    context: &DrawingContext<'_, '_, A>,
    arrows: &[Arrow],
) -> Result<Vec<usize>, AllocError> {
    let leaves = leaving(context, arrows)?;
    let mut found = Vec::new(context.alloc);
    for statement in (0..context.scene.boxes.len()).rev() {
        if found.len() >= FEW_ANCHORS {
            break;
        }
        if let Some(here) = context.scene.boxes.get(statement) {
            if is_end(here) && leaves.get(statement).copied() == Some(false) {
                found.push(statement)?;
            }
        }
    }
    Ok(found)
}

/// Returns true for a statement of the script, outside its functions, that opens no block.
fn is_end(statement: &StatementBox) -> bool {
    statement.place.function.is_none() && statement.kind != BoxKind::Opens
}

/// Returns for each statement whether an arrow to another statement leaves it.
fn leaving<A: Allocator>(
    context: &DrawingContext<'_, '_, A>,
    arrows: &[Arrow],
) -> Result<Vec<bool>, AllocError> {
    let mut leaves = falses(context.alloc, context.scene.boxes.len())?;
    for arrow in arrows {
        mark(&mut leaves, arrow.from);
    }
    Ok(leaves)
}

/// Returns `false` this number of times.
fn falses(alloc: Global, count: usize) -> Result<Vec<bool>, AllocError> {
    let mut marks = Vec::new(alloc);
    for _ in 0..count {
        marks.push(false)?;
    }
    Ok(marks)
}

/// Sets the mark at an index.
fn mark(marks: &mut Vec<bool>, at: usize) {
    if let Some(stored) = marks.get_mut(at) {
        *stored = true;
    }
}

/// Returns for each function whether another one calls it and so holds it below itself.
fn held_above<A: Allocator>(
    context: &DrawingContext<'_, '_, A>,
    order: &CallOrder,
    calls: &[CallUse],
) -> Result<Vec<bool>, AllocError> {
    let mut held = falses(context.alloc, context.scene.functions.len())?;
    for call in calls {
        if let Some(caller) = context.scene.boxes.get(call.statement) {
            let function = caller.place.function;
            if function.is_some() && order.leads_down(function, call.function) {
                mark(&mut held, call.function);
            }
        }
    }
    Ok(held)
}

/// Appends invisible edges from statements of the script to the functions that no other function holds, so that they
/// stand below the script.
fn add_anchors<A: Allocator>(
    context: &DrawingContext<'_, '_, A>,
    text: &mut DotText,
    anchors: &[usize],
    held: &[bool],
) {
    for function in 0..held.len() {
        if !held[function] {
            for statement in anchors {
                text.add("  ");
                context.add_statement(text, *statement);
                text.add(" -> ");
                context.add_function(text, function);
                text.add(" [style=invis];\n");
            }
        }
    }
}
