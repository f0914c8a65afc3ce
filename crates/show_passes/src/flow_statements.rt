//! Statements of a flow, a line for each statement, cell and call.

use crate::flow_lines::flow_cells::{add_call, add_outer, add_parts};
use crate::flow_lines::flow_names::FlowNames;
use crate::flow_lines::flow_page::FlowPage;
use crate::text::page::PassPage;
use flow::script::{Flow, Function};
use flow::statement::{Action, Block, Header, Range, Statement};
use std::alloc::{AllocError, Allocator, Global};

/// Returns the text of a flow.
///
/// Each statement, cell and call has a line with its position. The cells and calls of a statement precede the cell that
/// they are part of.
///
/// # Errors
///
/// Returns `AllocError` if an allocation fails.
pub fn flow_text<A: Allocator>(
    alloc: Global,
    source: &[u8],
    flow: &Flow<A>,
) -> Result<Vec<u8>, AllocError> {
    let mut out = FlowPage {
        page: PassPage::new(alloc, source)?,
        names: FlowNames::of(alloc, flow)?,
        function: None,
    };
    for statement in &flow.body.statements {
        add_statement(&mut out, 0, statement);
    }
    let mut position = 0usize;
    for function in &flow.functions {
        out.function = Some(position);
        add_function(&mut out, function);
        position = position.saturating_add(1);
    }
    let FlowPage { page, .. } = out;
    page.finish()
}

/// Adds a function: its outputs, its inputs and its body.
fn add_function<A: Allocator>(out: &mut FlowPage<'_, '_, A>, function: &Function<A>) {
    out.page.begin(function.at, 0);
    out.page.add("function ");
    out.page.add_bytes(function.name.as_slice());
    for output in &function.outputs {
        out.page.add(", output ");
        out.add_declared(output);
    }
    for input in &function.inputs {
        out.page.add(", input ");
        out.add_declared(input);
    }
    out.page.end();
    add_block(out, 1, "body", &function.body);
}

/// Adds a statement with its cells and its blocks.
#[cycle(statement)]
fn add_statement<A: Allocator>(
    out: &mut FlowPage<'_, '_, A>,
    depth: usize,
    statement: &Statement<A>,
) {
    out.page.begin(statement.at, depth);
    add_head(out, &statement.action);
    out.page.end();
    let within = depth.saturating_add(1);
    add_cells(out, within, &statement.action);
    add_blocks(out, within, &statement.action);
}

/// Adds the blocks of a statement.
#[cycle(statement)]
fn add_blocks<A: Allocator>(out: &mut FlowPage<'_, '_, A>, depth: usize, action: &Action<A>) {
    match action {
        Action::Declare(_) | Action::Call { .. } | Action::Assign { .. } => {}
        Action::Fill { .. } | Action::Insert { .. } => {}
        Action::Print { .. } | Action::Assert { .. } => {}
        Action::When { then, .. } => add_block(out, depth, "then", then),
        Action::Choose { then, other, .. } => {
            add_block(out, depth, "then", then);
            add_block(out, depth, "else", other);
        }
        Action::Range { body, .. } => add_block(out, depth, "body", body),
        Action::Each { body, .. } => add_block(out, depth, "body", body),
        Action::Wait { content, .. } => add_block(out, depth, "body", content),
    }
}

/// Adds a block with its statements.
#[cycle(statement)]
fn add_block<A: Allocator>(
    out: &mut FlowPage<'_, '_, A>,
    depth: usize,
    role: &str,
    block: &Block<A>,
) {
    out.page.begin(block.from, depth);
    out.page.add(role);
    out.page.end();
    for statement in &block.statements {
        add_statement(out, depth.saturating_add(1), statement);
    }
}

/// Appends the words of a statement, without its cells and blocks.
fn add_head<A: Allocator>(out: &mut FlowPage<'_, '_, A>, action: &Action<A>) {
    match action {
        Action::Declare(variable) => {
            out.page.add("declare ");
            out.add_declared(variable);
        }
        Action::Call { priority, .. } => add_prioritized(out, "call", *priority),
        Action::Assign { target, .. } => {
            out.page.add("assign ");
            out.add_name(target);
        }
        Action::Fill { array, .. } => {
            out.page.add("fill ");
            out.add_name(array);
        }
        Action::Insert { array, .. } => {
            out.page.add("insert into ");
            out.add_name(array);
        }
        Action::Print { priority, .. } => add_prioritized(out, "print", *priority),
        Action::Assert { priority, .. } => add_prioritized(out, "assert", *priority),
        Action::When { .. } | Action::Choose { .. } => out.page.add("if"),
        Action::Range { value, turn, .. } => {
            out.page.add("foreach ");
            out.add_loop_variables(value, turn);
            out.page.add(" in a range");
        }
        Action::Each {
            array,
            value,
            key,
            ..
        } => {
            out.page.add("foreach ");
            out.add_loop_variables(value, key);
            out.page.add(" in ");
            out.add_name(array);
        }
        Action::Wait { names, .. } => {
            out.page.add("wait ");
            out.add_names(names);
        }
    }
}

/// Appends the word of a statement and its priority.
fn add_prioritized<A: Allocator>(out: &mut FlowPage<'_, '_, A>, word: &str, priority: i32) {
    out.page.add(word);
    out.page.add_priority(priority);
}

/// Adds the cells and calls of a statement.
fn add_cells<A: Allocator>(out: &mut FlowPage<'_, '_, A>, depth: usize, action: &Action<A>) {
    match action {
        Action::Declare(_) | Action::Each { .. } => {}
        Action::Call { parts, call, .. } => {
            add_parts(out, depth, parts);
            add_call(out, depth, call);
        }
        Action::Assign { right, .. } => add_outer(out, depth, "", right),
        Action::Fill { right, .. } => add_outer(out, depth, "", right),
        Action::Insert { index, right, .. } => {
            add_outer(out, depth, "key: ", index);
            add_outer(out, depth, "value: ", right);
        }
        Action::Print { line, .. } => add_outer(out, depth, "", line),
        Action::Assert { check, .. } => add_outer(out, depth, "", check),
        Action::When { condition, .. } => add_outer(out, depth, "test: ", condition),
        Action::Choose { condition, .. } => add_outer(out, depth, "test: ", condition),
        Action::Range { range, .. } => add_range(out, depth, range),
        Action::Wait { inner, .. } => add_inner_waits(out, depth, inner),
    }
}

/// Adds the bounds and the step of a range.
fn add_range<A: Allocator>(out: &mut FlowPage<'_, '_, A>, depth: usize, range: &Range<A>) {
    add_outer(out, depth, "from: ", &range.low);
    add_outer(out, depth, "to: ", &range.high);
    if let Some(step) = &range.step {
        add_outer(out, depth, "step: ", step);
    }
}

/// Adds the waits that are merged into the one around them.
fn add_inner_waits<A: Allocator>(
    out: &mut FlowPage<'_, '_, A>,
    depth: usize,
    waits: &Vec<Header<A>, A>,
) {
    for wait in waits {
        out.page.begin(wait.at, depth);
        out.page.add("then wait ");
        out.add_names(&wait.names);
        out.page.end();
    }
}
