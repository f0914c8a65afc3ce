//! Statements and functions of a syntax tree, a line a node.

use crate::text::page::PassPage;
use crate::tree_lines::tree_expressions::{
    add_call, add_expression, add_expressions, add_right, add_source,
};
use crate::tree_lines::tree_page::TreePage;
use crate::tree_lines::type_table::TypeTable;
use std::alloc::{AllocError, Allocator, Global};
use syntax_trees::tree::{Block, Decl, Function, Header, Item, Script, Stmt, StmtKind};
use types::typed::Typed;

/// Returns the text of a syntax tree.
///
/// Each node has a line with its position, indented below the node that it is part of.
///
/// # Errors
///
/// Returns `AllocError` if an allocation fails.
pub fn tree_text<A: Allocator>(
    alloc: Global,
    source: &[u8],
    script: &Script<A>,
) -> Result<Vec<u8>, AllocError> {
    text_of(alloc, source, script, None)
}

/// Returns the text of the syntax tree of a well typed script, with the type of each name and expression.
///
/// # Errors
///
/// Returns `AllocError` if an allocation fails.
pub fn typed_text<A: Allocator>(
    alloc: Global,
    source: &[u8],
    script: &Script<A>,
    typed: &Typed,
) -> Result<Vec<u8>, AllocError> {
    let types = TypeTable::of(alloc, script, typed)?;
    text_of(alloc, source, script, Some(&types))
}

/// Returns the text of a syntax tree, with types if they are given.
///
/// # Errors
///
/// Returns `AllocError` if an allocation fails.
fn text_of<A: Allocator>(
    alloc: Global,
    source: &[u8],
    script: &Script<A>,
    types: Option<&TypeTable<'_>>,
) -> Result<Vec<u8>, AllocError> {
    let mut out = TreePage {
        page: PassPage::new(alloc, source)?,
        types,
        function: None,
    };
    add_items(&mut out, script);
    let TreePage { page, .. } = out;
    page.finish()
}

/// Adds the parts of a script in order.
fn add_items<A: Allocator>(out: &mut TreePage<'_, '_, '_>, script: &Script<A>) {
    let mut position = 0usize;
    for item in &script.items {
        match item {
            Item::Import(word) => {
                out.page.begin(word.from, 0);
                out.page.add("import");
                out.page.end();
            }
            Item::Function(function) => {
                out.function = Some(position);
                add_function(out, function);
                out.function = None;
                position = position.saturating_add(1);
            }
            Item::Statement(statement) => add_statement(out, 0, statement),
        }
    }
}

/// Adds a function: its outputs, its inputs and its body.
fn add_function<A: Allocator>(out: &mut TreePage<'_, '_, '_>, function: &Function<A>) {
    out.page.begin(function.first.from, 0);
    out.page.add("function ");
    out.page.add_bytes(function.name.text.as_slice());
    out.page.end();
    add_declarations(out, "output ", &function.outputs);
    add_declarations(out, "input ", &function.inputs);
    add_block(out, 1, "body", &function.body);
}

/// Adds the outputs or the inputs of a function.
fn add_declarations<A: Allocator>(
    out: &mut TreePage<'_, '_, '_>,
    role: &str,
    declarations: &Vec<Decl<A>, A>,
) {
    for declaration in declarations {
        out.page.begin(declaration.name.span.from, 1);
        out.page.add(role);
        out.add_declaration(declaration);
        out.page.end();
    }
}

/// Adds a statement and its parts.
#[cycle(statement)]
fn add_statement<A: Allocator>(out: &mut TreePage<'_, '_, '_>, depth: usize, statement: &Stmt<A>) {
    out.page.begin(statement.first.from, depth);
    add_head(out, &statement.kind);
    out.page.end();
    add_parts(out, depth.saturating_add(1), &statement.kind);
}

/// Adds the expressions and the blocks of a statement.
#[cycle(statement)]
fn add_parts<A: Allocator>(out: &mut TreePage<'_, '_, '_>, depth: usize, kind: &StmtKind<A>) {
    match kind {
        StmtKind::Declare(_, None) => {}
        StmtKind::Declare(_, Some(right)) => add_right(out, depth, right),
        StmtKind::Assign(_, right) => add_right(out, depth, right),
        StmtKind::Write(_, index, value) => {
            add_expression(out, depth, "key: ", index);
            add_expression(out, depth, "value: ", value);
        }
        StmtKind::AssignAll(_, call) => add_call(out, depth, call),
        StmtKind::Call(_, call) => add_expressions(out, depth, &call.arguments),
        StmtKind::If(test, then, other) => {
            add_expression(out, depth, "test: ", test);
            add_block(out, depth, "then", then);
            if let Some(other) = other {
                add_block(out, depth, "else", other);
            }
        }
        StmtKind::Foreach(header, body) => {
            add_source(out, depth, &header.source);
            add_block(out, depth, "body", body);
        }
        StmtKind::Wait(_, body) => add_block(out, depth, "body", body),
    }
}

/// Adds a block with its statements.
#[cycle(statement)]
fn add_block<A: Allocator>(
    out: &mut TreePage<'_, '_, '_>,
    depth: usize,
    role: &str,
    block: &Block<A>,
) {
    out.page.begin(block.from, depth);
    out.page.add(role);
    out.page.end();
    for statement in &block.statements {
        add_statement(out, depth.saturating_add(1), statement);
    }
}

/// Appends the words of a statement, without its parts.
fn add_head<A: Allocator>(out: &mut TreePage<'_, '_, '_>, kind: &StmtKind<A>) {
    match kind {
        StmtKind::Declare(declaration, _) => {
            out.page.add("declare ");
            out.add_declaration(declaration);
        }
        StmtKind::Assign(name, _) => {
            out.page.add("assign ");
            out.add_variable(name);
        }
        StmtKind::Write(name, _, _) => {
            out.page.add("write an element of ");
            out.add_variable(name);
        }
        StmtKind::AssignAll(names, _) => {
            out.page.add("assign ");
            out.add_variables(names);
        }
        StmtKind::Call(priority, call) => {
            out.page.add("call ");
            out.page.add_bytes(call.name.text.as_slice());
            out.add_callee(&call.name);
            out.page.add_priority(*priority);
        }
        StmtKind::If(_, _, _) => out.page.add("if"),
        StmtKind::Foreach(header, _) => add_header(out, header),
        StmtKind::Wait(names, _) => {
            out.page.add("wait ");
            out.add_variables(names);
        }
    }
}

/// Appends the words of a loop and its variables.
fn add_header<A: Allocator>(out: &mut TreePage<'_, '_, '_>, header: &Header<A>) {
    out.page.add("foreach ");
    out.add_loop_variable(&header.value);
    if let Some(key) = &header.key {
        out.page.add("; ");
        out.add_loop_variable(key);
    }
}
