//! Numbering of statements and their parts.

ghost use Rattle.std.specs.Prelude.{◌≡◌, ◌+◌, ◌^◌, ◌<◌, map, option_map, sum_by};
ghost use Rattle.syntax_trees.specs.View.{word_of, declaration_of, list_of, right_of, calling_of, range_of, over_of, statement_view, command_view, body_view, expression_view};
ghost use Rattle.language.specs.Numbered.{declaration_size, expression_size, right_size, option_size, word_size, calling_size, over_size, statement_size, command_size, body_size, numbered_each, numbered_word, numbered_expression, numbered_declaration, numbered_right, numbered_calling, numbered_over, numbered_statement, numbered_command, numbered_body};

use crate::numbering::number_expressions::{expression, expressions, name, names};
use std::alloc::Allocator;
use syntax_trees::tree::{
    Block, Call, Decl, Expr, Header, ListOf, Name, Range, Right, Source, Stmt, StmtKind,
};

/// Numbers the name of a declaration.
pub fn declaration<A: Allocator>(decl: &mut Decl<A>, from: u32) -> u32
    requires { from + 1 < 2 ^ 32 }
    ensures numbered { declaration_of decl.new ≡ numbered_declaration from (declaration_of decl.old) }
    ensures next { result ≡ from + 1 }
{
    name(&mut decl.name, from)
}

/// Numbers declarations in their order.
pub fn declarations<A: Allocator>(decls: &mut Vec<Decl<A>, A>, from: u32) -> u32
    requires { from + sum_by declaration_size (map declaration_of decls.old.items) < 2 ^ 32 }
    ensures numbered { map declaration_of decls.new.items ≡ numbered_each numbered_declaration declaration_size from (map declaration_of decls.old.items) }
    ensures next { result ≡ from + sum_by declaration_size (map declaration_of decls.old.items) }
{
    let mut next = from;
    for i in 0..decls.len() {
        let one = &mut decls[i];
        next = declaration(one, next);
    }
    next
}

/// Numbers an array literal: its node, then its elements.
fn list<A: Allocator>(list: &mut ListOf<A>, from: u32) -> u32
    requires { from + right_size (list_of list.old) < 2 ^ 32 }
    ensures numbered { list_of list.new ≡ numbered_right from (list_of list.old) }
    ensures next { result ≡ from + right_size (list_of list.old) }
{
    list.number = from;
    expressions(&mut list.elements, from + 1)
}

/// Numbers a right side.
fn right<A: Allocator>(right: &mut Right<A>, from: u32) -> u32
    requires { from + right_size (right_of right.old) < 2 ^ 32 }
    ensures numbered { right_of right.new ≡ numbered_right from (right_of right.old) }
    ensures next { result ≡ from + right_size (right_of right.old) }
{
    match right {
        Right::Value(value) => expression(value, from),
        Right::List(elements) => list(elements, from),
    }
}

/// Numbers the right side of a declaration, if there is one.
fn initial<A: Allocator>(value: &mut Option<Right<A>>, from: u32) -> u32
    requires { from + option_size right_size (option_map right_of value.old) < 2 ^ 32 }
    ensures numbered { option_map right_of value.new ≡ option_map (numbered_right from) (option_map right_of value.old) }
    ensures next { result ≡ from + option_size right_size (option_map right_of value.old) }
{
    match value {
        None => from,
        Some(value) => right(value, from),
    }
}

/// Numbers a call outside expressions: its node, its name and its arguments.
fn call<A: Allocator>(call: &mut Call<A>, from: u32) -> u32
    requires { from + calling_size (calling_of call.old) < 2 ^ 32 }
    ensures numbered { calling_of call.new ≡ numbered_calling from (calling_of call.old) }
    ensures next { result ≡ from + calling_size (calling_of call.old) }
{
    call.number = from;
    let next = name(&mut call.name, from + 1);
    expressions(&mut call.arguments, next)
}

/// Numbers the name of a key, if there is one.
fn key<A: Allocator>(key: &mut Option<Name<A>>, from: u32) -> u32
    requires { from + option_size word_size (option_map word_of key.old) < 2 ^ 32 }
    ensures numbered { option_map word_of key.new ≡ option_map (numbered_word from) (option_map word_of key.old) }
    ensures next { result ≡ from + option_size word_size (option_map word_of key.old) }
{
    match key {
        None => from,
        Some(key) => name(key, from),
    }
}

/// Numbers the step of a range, if there is one.
fn step<A: Allocator>(step: &mut Option<Expr<A>>, from: u32) -> u32
    requires { from + option_size expression_size (option_map expression_view step.old) < 2 ^ 32 }
    ensures numbered { option_map expression_view step.new ≡ option_map (numbered_expression from) (option_map expression_view step.old) }
    ensures next { result ≡ from + option_size expression_size (option_map expression_view step.old) }
{
    match step {
        None => from,
        Some(step) => expression(step, from),
    }
}

/// Numbers a range: its ends, then its step.
fn range<A: Allocator>(range: &mut Range<A>, from: u32) -> u32
    requires { from + over_size (range_of range.old) < 2 ^ 32 }
    ensures numbered { range_of range.new ≡ numbered_over from (range_of range.old) }
    ensures next { result ≡ from + over_size (range_of range.old) }
{
    let middle = expression(&mut range.low, from);
    let next = expression(&mut range.high, middle);
    step(&mut range.step, next)
}

/// Numbers the source of a loop: an array name or a range.
fn source<A: Allocator>(source: &mut Source<A>, from: u32) -> u32
    requires { from + over_size (over_of source.old) < 2 ^ 32 }
    ensures numbered { over_of source.new ≡ numbered_over from (over_of source.old) }
    ensures next { result ≡ from + over_size (over_of source.old) }
{
    match source {
        Source::Array(array) => name(array, from),
        Source::Range(bounds) => range(bounds, from),
    }
}

/// Numbers the header of a loop: its variables, then its source.
fn loop_header<A: Allocator>(header: &mut Header<A>, from: u32) -> u32
    requires { from + 1 + option_size word_size (option_map word_of header.old.key) + over_size (over_of header.old.source) < 2 ^ 32 }
    ensures value { word_of header.new.value ≡ numbered_word from (word_of header.old.value) }
    ensures key { option_map word_of header.new.key ≡ option_map (numbered_word (from + 1)) (option_map word_of header.old.key) }
    ensures source { over_of header.new.source ≡ numbered_over (from + 1 + option_size word_size (option_map word_of header.old.key))
        (over_of header.old.source) }
    ensures next { result ≡ from + 1 + option_size word_size (option_map word_of header.old.key) + over_size (over_of header.old.source) }
{
    let behind = name(&mut header.value, from);
    let next = key(&mut header.key, behind);
    source(&mut header.source, next)
}

/// Numbers a statement: its node, then its parts.
#[cycle(numbered)]
pub fn statement<A: Allocator>(stmt: &mut Stmt<A>, from: u32) -> u32
    requires { from + statement_size (statement_view stmt.old) < 2 ^ 32 }
    ensures numbered { statement_view stmt.new ≡ numbered_statement from (statement_view stmt.old) }
    ensures next { result ≡ from + statement_size (statement_view stmt.old) }
{
    stmt.number = from;
    command(&mut stmt.kind, from + 1)
}

/// Numbers the parts of a statement.
#[cycle(numbered)]
fn command<A: Allocator>(kind: &mut StmtKind<A>, from: u32) -> u32
    requires { from + command_size (command_view kind.old) < 2 ^ 32 }
    ensures numbered { command_view kind.new ≡ numbered_command from (command_view kind.old) }
    ensures next { result ≡ from + command_size (command_view kind.old) }
{
    match kind {
        StmtKind::Declare(decl, value) => {
            let next = declaration(decl, from);
            initial(value, next)
        }
        StmtKind::Assign(target, value) => {
            let next = name(target, from);
            right(value, next)
        }
        StmtKind::Write(array, index, value) => {
            let middle = name(array, from);
            let next = expression(index, middle);
            expression(value, next)
        }
        StmtKind::AssignAll(targets, value) => {
            let next = names(targets, from);
            call(value, next)
        }
        StmtKind::Call(_, value) => call(value, from),
        StmtKind::If(condition, then, other) => {
            let middle = expression(condition, from);
            let next = block(then, middle);
            match other {
                None => next,
                Some(other) => block(other, next),
            }
        }
        StmtKind::Foreach(header, body) => {
            let next = loop_header(header, from);
            block(body, next)
        }
        StmtKind::Wait(awaited, body) => {
            let next = names(awaited, from);
            block(body, next)
        }
    }
}

/// Numbers the statements of a block.
#[cycle(numbered)]
pub fn block<A: Allocator>(block: &mut Block<A>, from: u32) -> u32
    requires { from + body_size (body_view block.old) < 2 ^ 32 }
    ensures numbered { body_view block.new ≡ numbered_body from (body_view block.old) }
    ensures next { result ≡ from + body_size (body_view block.old) }
{
    statements(&mut block.statements, from)
}

/// Numbers statements in their order.
#[cycle(numbered)]
fn statements<A: Allocator>(stmts: &mut Vec<Stmt<A>, A>, from: u32) -> u32
    requires { from + sum_by statement_size (map statement_view stmts.old.items) < 2 ^ 32 }
    ensures numbered { map statement_view stmts.new.items ≡ numbered_each numbered_statement statement_size from (map statement_view stmts.old.items) }
    ensures next { result ≡ from + sum_by statement_size (map statement_view stmts.old.items) }
{
    let mut next = from;
    for i in 0..stmts.len() {
        let one = &mut stmts[i];
        next = statement(one, next);
    }
    next
}
