//! The graph of a script's code, written for `dot`.
//!
//! Each body is a cluster, with a point for its opening, a box for each entry and an ellipse for each variable. An
//! entry has an edge from each of its needs, and a dashed edge to the point of each body that it opens. It also has an
//! edge with an empty head to each variable that it stores.

use crate::bodies::{BodyPosition, in_order, places};
use crate::drawing::Drawing;
use crate::needs::ListingContext;
use crate::producers::Producers;
use crate::source_map::{BodyInfo, BodyKind, find};
use crate::text::{add_act, add_title};
use crate::text_buffer::TextBuffer;
use flow::script::Flow;
use flow::statement;
use std::alloc::{AllocError, Allocator, Global};
use task_code::code::{Body, Code};
use task_code::entry::{Act, Entry, Name, Need, Owned, Variable};

/// Returns the graph of the code of a script: its bodies, ordered by the offsets of their `{`, and the entries of each.
/// The code has to be that of the flow.
///
/// # Errors
///
/// Returns `AllocError` if an allocation fails.
pub fn graph<A: Allocator>(
    alloc: Global,
    flow: &Flow<A>,
    code: &Code,
) -> Result<Vec<u8>, AllocError> {
    let found = find(alloc, flow)?;
    let positions = in_order(alloc, &found)?;
    let places = places(alloc, &positions)?;
    let producers = Producers::find(alloc, code, &positions)?;
    let drawing = Drawing {
        code,
        found: &found,
        functions: &flow.functions,
        places: &places,
        producers: &producers,
    };
    let mut page = TextBuffer::new(alloc);
    add_bodies(&mut page, &drawing, &positions);
    page.finish()
}

/// Writes the bodies, between the first line and the last.
fn add_bodies<A: Allocator>(
    page: &mut TextBuffer,
    drawing: &Drawing<'_, '_, A>,
    positions: &Vec<BodyPosition>,
) {
    page.add(b"digraph code {\n  node [shape=box];\n");
    for place in 0..positions.len() {
        add_body(page, drawing, positions[place].body, place);
    }
    page.add(b"}\n");
}

/// Writes a body and the edges of its entries.
fn add_body<A: Allocator>(
    page: &mut TextBuffer,
    drawing: &Drawing<'_, '_, A>,
    body: u32,
    place: usize,
) {
    let Some(stand) = drawing.found.stand(body) else {
        return;
    };
    let Some(body) = drawing.code.body(body) else {
        return;
    };
    add_opening(page, drawing, stand, place);
    add_parameters(page, drawing, stand);
    add_content(page, drawing, body, place);
    add_edges(
        page,
        drawing,
        stand.function,
        body.entries.as_slice(),
        place,
    );
}

/// Writes the variables and boxes of a body, and its end.
fn add_content<A: Allocator>(
    page: &mut TextBuffer,
    drawing: &Drawing<'_, '_, A>,
    body: &Body,
    place: usize,
) {
    add_variables(page, drawing, body.makes.as_slice());
    add_boxes(page, drawing, body.entries.as_slice(), place);
    page.add(b"  }\n");
}

/// Writes the first lines of a body: its title, and the point of its opening.
fn add_opening<A: Allocator>(
    page: &mut TextBuffer,
    drawing: &Drawing<'_, '_, A>,
    stand: BodyInfo,
    place: usize,
) {
    page.add_counted(b"  subgraph cluster_", place);
    page.add(b" {\n    label=\"");
    add_title(page, drawing.functions, stand, place);
    page.add_counted(b"\";\n    b", place);
    page.add(b" [shape=point];\n")
}

/// Writes the inputs and outputs of a function into its body.
fn add_parameters<A: Allocator>(
    page: &mut TextBuffer,
    drawing: &Drawing<'_, '_, A>,
    stand: BodyInfo,
) {
    if stand.what != BodyKind::Function || stand.function == 0 {
        return;
    }
    match drawing.functions.get(stand.function - 1) {
        None => {}
        Some(function) => {
            add_each(page, stand.function, 0, &function.inputs);
            add_each(
                page,
                stand.function,
                function.inputs.len(),
                &function.outputs,
            )
        }
    }
}

/// Writes inputs or outputs of a function, numbered from `first`.
fn add_each<A: Allocator>(
    page: &mut TextBuffer,
    function: usize,
    first: usize,
    variables: &Vec<statement::Variable<A>, A>,
) {
    let mut place = first;
    for variable in variables {
        page.add(b"    ");
        add_parameter(page, function, place);
        add_ellipse(page, variable.name.as_slice());
        place = place.saturating_add(1);
    }
}

/// Writes the variables that a body declares and that have names.
fn add_variables<A: Allocator>(
    page: &mut TextBuffer,
    drawing: &Drawing<'_, '_, A>,
    variables: &[Variable],
) {
    for variable in variables {
        match drawing.found.name(variable.node) {
            None => {}
            Some(name) => add_variable(page, variable.node, name),
        }
    }
}

/// Writes a variable with its name.
fn add_variable(page: &mut TextBuffer, node: u32, name: &[u8]) {
    page.add_counted(b"    v", node as usize);
    add_ellipse(page, name);
}

/// Writes the attributes of a variable after its point.
fn add_ellipse(page: &mut TextBuffer, name: &[u8]) {
    page.add(b" [shape=ellipse, label=\"");
    page.add(name);
    page.add(b"\"];\n")
}

/// Writes the boxes of entries.
fn add_boxes<A: Allocator>(
    page: &mut TextBuffer,
    drawing: &Drawing<'_, '_, A>,
    entries: &[u32],
    place: usize,
) {
    for k in 0..entries.len() {
        match drawing.code.entry(entries[k]) {
            None => {}
            Some(entry) => add_box(page, entry, place, k + 1),
        }
    }
}

/// Writes the box of an entry.
fn add_box(page: &mut TextBuffer, entry: &Entry, place: usize, k: usize) {
    page.add(b"    ");
    add_entry(page, place, k);
    page.add_counted(b" [label=\"", k);
    add_act(page, entry);
    page.add(b"\"];\n")
}

/// Writes the point of an entry.
fn add_entry(page: &mut TextBuffer, place: usize, k: usize) {
    page.add_counted(b"e", place);
    page.add_counted(b"_", k);
}

/// Writes the point of an input or output.
fn add_parameter(page: &mut TextBuffer, function: usize, place: usize) {
    page.add_counted(b"p", function);
    page.add_counted(b"_", place);
}

/// Writes the edges of the entries of a body.
fn add_edges<A: Allocator>(
    page: &mut TextBuffer,
    drawing: &Drawing<'_, '_, A>,
    function: usize,
    entries: &[u32],
    place: usize,
) {
    for k in 0..entries.len() {
        match drawing.code.entry(entries[k]) {
            None => {}
            Some(entry) => {
                let scope = drawing.scope(function, k + 1);
                add_needs(page, &scope, place, entry);
                add_stores(page, &scope, place, &entry.act);
                add_opened(page, drawing.places, place, k + 1, &entry.act);
            }
        }
    }
}

/// Writes an edge from each need of an entry.
fn add_needs<A: Allocator>(
    page: &mut TextBuffer,
    scope: &ListingContext<'_, '_, A>,
    place: usize,
    entry: &Entry,
) {
    for need in &entry.needs {
        add_edge(page, scope, place, need);
    }
}

/// Writes the edges from one need.
fn add_edge<A: Allocator>(
    page: &mut TextBuffer,
    scope: &ListingContext<'_, '_, A>,
    place: usize,
    need: &Need,
) {
    match need {
        Need::Stored(scalar) => add_need(page, scope, place, scalar, b""),
        Need::Closed(array) => add_need(page, scope, place, array, b" [label=\"[]\"]"),
        Need::At(array, scalar) => {
            add_need(page, scope, place, scalar, b"");
            add_need(page, scope, place, array, b" [label=\"[*]\"]");
        }
        Need::AtKey(array, _) => add_need(page, scope, place, array, b" [label=\"[*]\"]"),
    }
}

/// Writes the edge from the variable or producer of a name.
fn add_need<A: Allocator>(
    page: &mut TextBuffer,
    scope: &ListingContext<'_, '_, A>,
    place: usize,
    name: &Name,
    label: &[u8],
) {
    page.add(b"  ");
    add_point(page, scope, place, name);
    page.add(b" -> ");
    add_entry(page, place, scope.number);
    page.add(label);
    page.add(b";\n")
}

/// Writes the point of a name: its variable, or the entry that produces its value.
fn add_point<A: Allocator>(
    page: &mut TextBuffer,
    scope: &ListingContext<'_, '_, A>,
    place: usize,
    name: &Name,
) {
    match name.owned {
        Owned::Parameter(at, _) => add_parameter(page, scope.function, at),
        Owned::Local(variable) => {
            if has_name(scope, name) {
                page.add_counted(b"v", variable.node as usize)
            } else {
                add_entry(page, place, scope.producers.of(variable.node))
            }
        }
    }
}

/// Returns true if the name refers to a parameter, or to a variable with a name in the script.
fn has_name<A: Allocator>(scope: &ListingContext<'_, '_, A>, name: &Name) -> bool {
    match name.owned {
        Owned::Parameter(_, _) => true,
        Owned::Local(variable) => scope.found.name(variable.node).is_some(),
    }
}

/// Writes an edge to each variable that an entry stores.
fn add_stores<A: Allocator>(
    page: &mut TextBuffer,
    scope: &ListingContext<'_, '_, A>,
    place: usize,
    act: &Act,
) {
    match act {
        Act::Set(name, _) | Act::Fill(name, _) | Act::Copy(name) | Act::InsertElement(name, _, _) =>
            {
                add_store(page, scope, place, name);
            }
        Act::Call { outputs, .. } => add_outputs(page, scope, place, outputs),
        Act::Cell(_)
        | Act::Read
        | Act::Print(_)
        | Act::Assert(_)
        | Act::If(_, _, _)
        | Act::Range(_, _, _, _)
        | Act::Each(_)
        | Act::Wait(_, _) => {}
    }
}

/// Writes an edge to each output of a call.
fn add_outputs<A: Allocator>(
    page: &mut TextBuffer,
    scope: &ListingContext<'_, '_, A>,
    place: usize,
    outputs: &Vec<Name>,
) {
    for output in outputs {
        add_store(page, scope, place, output);
    }
}

/// Writes the edge to a variable, if it has a name.
fn add_store<A: Allocator>(
    page: &mut TextBuffer,
    scope: &ListingContext<'_, '_, A>,
    place: usize,
    name: &Name,
) {
    if !has_name(scope, name) {
        return;
    }
    page.add(b"  ");
    add_entry(page, place, scope.number);
    page.add(b" -> ");
    add_point(page, scope, place, name);
    page.add(b" [arrowhead=empty];\n")
}

/// Writes an edge to each body that an entry opens.
fn add_opened(page: &mut TextBuffer, places: &Vec<usize>, place: usize, k: usize, act: &Act) {
    match act {
        Act::Call { body, .. } => add_body_edge(page, places, place, k, *body),
        Act::If(_, then, None) => add_body_edge(page, places, place, k, *then),
        Act::If(_, then, Some(other)) => {
            add_body_edge(page, places, place, k, *then);
            add_body_edge(page, places, place, k, *other);
        }
        Act::Range(_, _, _, turns) => add_body_edge(page, places, place, k, turns.body),
        Act::Each(turns) => add_body_edge(page, places, place, k, turns.body),
        Act::Wait(_, body) => add_body_edge(page, places, place, k, *body),
        Act::Cell(_)
        | Act::Read
        | Act::Set(_, _)
        | Act::Fill(_, _)
        | Act::Copy(_)
        | Act::InsertElement(_, _, _)
        | Act::Print(_)
        | Act::Assert(_) => {}
    }
}

/// Writes the edge to a body.
fn add_body_edge(page: &mut TextBuffer, places: &Vec<usize>, place: usize, k: usize, body: u32) {
    match places.get(body as usize) {
        None => {}
        Some(opened) => {
            page.add(b"  ");
            add_entry(page, place, k);
            page.add_counted(b" -> b", *opened);
            page.add(b" [style=dashed];\n")
        }
    }
}
