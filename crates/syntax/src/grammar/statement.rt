//! Parser of statements and blocks.

ghost use Rattle.std.specs.Prelude.{◌≡◌, ◌<◌, ◌≤◌, FitsSigned, IfOk, OnOk, length, option_map};
ghost use Rattle.std.specs.Int.{w32};
ghost use Rattle.syntax_trees.specs.View.{expression_view, word_of, right_of, declaration_of, declarations_view, calling_of, range_of, over_of, statement_view, body_view, expressions_view};
ghost use Rattle.lexer.specs.Given.{lexeme_of};
ghost use Rattle.language.specs.Tree.{calls, range, statement};
ghost use Rattle.syntax.specs.Answers.{Gives, branch_view, statements_view};
ghost use Rattle.lexer.specs.declared.token.TokenKind.TheVariants.{At, Colon, Comma, Else, Semicolon};
ghost use Rattle.syntax.specs.Readers.{at, made, maybe, the, ◌▸◌, ◌◂◌};
ghost use Rattle.language.specs.Grammar.{or_zero};
ghost use Rattle.syntax.specs.Reading.{read_name, read_decl, read_decls, read_parameters, read_right, read_call, read_priority, read_prio, read_small, bounds_over, read_expr, read_range, read_source, read_keys, read_brackets, read_elements, read_declaration, read_assignment, read_write, read_many, read_calling, read_if, read_else, read_foreach, read_wait, read_block, read_stmts, read_stmt, read_command, read_named_stmt};
ghost use Rattle.values.specs.Limits.{max_priority};

use crate::grammar::cursor::Cursor;
use crate::grammar::expression::{arguments, expr, exprs, index, name, names, test};
use crate::grammar::stop::ParseStop;
use lexer::token::{Span, Token, TokenKind};
use lexer::value::number_value;
use std::alloc::Allocator;
use syntax_trees::tree::{
    Block, Call, Decl, Expr, Header, Keys, ListOf, Name, Range, Right, Shape, Source, Stmt,
    StmtKind,
};
use values::limits::MAX_PRIORITY;

#[tactic(auto, unfolding(crate::specs::Reading::read_decl))]
pub fn decl<A: Allocator + Clone>(
    alloc: &A,
    cursor: &mut Cursor<'_>,
    depth: u32,
) -> Result<Decl<A>, ParseStop>
    ensures reads { Gives declaration_of result cursor.new (read_decl depth cursor.old) }
    ensures shorter { OnOk result (length cursor.new.rest < length cursor.old.rest) }
{
    let base = cursor.take_type()?;
    let name = name(alloc, cursor)?;
    let shape = if cursor.at(TokenKind::OpenSquare) {
        Shape::Array(brackets(cursor, depth)?)
    } else {
        Shape::Scalar
    };
    Ok(Decl { base, name, shape })
}

#[tactic(auto, unfolding(crate::specs::Reading::read_brackets))]
fn brackets(cursor: &mut Cursor<'_>, depth: u32) -> Result<Keys, ParseStop>
    ensures reads { Gives (λ keys. keys) result cursor.new (read_brackets depth cursor.old) }
    ensures shorter { OnOk result (length cursor.new.rest < length cursor.old.rest) }
{
    cursor.open(TokenKind::OpenSquare, depth)?;
    let keys = keys(cursor)?;
    cursor.take(TokenKind::CloseSquare)?;
    Ok(keys)
}

/// Parses the key type between the brackets of an array declaration.
#[tactic(auto, unfolding(crate::specs::Reading::read_keys))]
fn keys(cursor: &mut Cursor<'_>) -> Result<Keys, ParseStop>
    ensures reads { Gives (λ keys. keys) result cursor.new (read_keys cursor.old) }
    ensures no_longer { OnOk result (length cursor.new.rest ≤ length cursor.old.rest) }
{
    if cursor.at(TokenKind::String) {
        cursor.take(TokenKind::String)?;
        return Ok(Keys::Texts);
    }
    Ok(Keys::Numbers)
}

/// Parses one or more declarations separated by commas.
#[tactic(auto, unfolding(crate::specs::Reading::read_decls))]
fn decls<A: Allocator + Clone>(
    alloc: &A,
    cursor: &mut Cursor<'_>,
    depth: u32,
) -> Result<Vec<Decl<A>, A>, ParseStop>
    ensures reads { Gives declarations_view result cursor.new (read_decls depth cursor.old) }
    ensures shorter { OnOk result (length cursor.new.rest < length cursor.old.rest) }
{
    let mut items = Vec::new(alloc.clone()?);
    items.push(decl(alloc, cursor, depth)?)?;
    while cursor.at(TokenKind::Comma) {
        cursor.take(TokenKind::Comma)?;
        items.push(decl(alloc, cursor, depth)?)?;
    }
    Ok(items)
}

#[tactic(auto, unfolding(crate::specs::Reading::read_parameters))]
pub fn parameters<A: Allocator + Clone>(
    alloc: &A,
    cursor: &mut Cursor<'_>,
    depth: u32,
) -> Result<Vec<Decl<A>, A>, ParseStop>
    ensures reads { Gives declarations_view result cursor.new (read_parameters depth cursor.old) }
    ensures shorter { OnOk result (length cursor.new.rest < length cursor.old.rest) }
{
    let inner = cursor.open(TokenKind::OpenRound, depth)?;
    if cursor.at(TokenKind::CloseRound) {
        let none = Vec::new(alloc.clone()?);
        cursor.take(TokenKind::CloseRound)?;
        return Ok(none);
    }
    let items = decls(alloc, cursor, inner)?;
    cursor.take(TokenKind::CloseRound)?;
    Ok(items)
}

/// Parses a right side: an array literal or an expression.
#[tactic(auto, unfolding(crate::specs::Reading::read_right))]
fn right<A: Allocator + Clone>(
    alloc: &A,
    cursor: &mut Cursor<'_>,
    depth: u32,
) -> Result<Right<A>, ParseStop>
    ensures reads { Gives right_of result cursor.new (read_right depth cursor.old) }
    ensures shorter { OnOk result (length cursor.new.rest < length cursor.old.rest) }
{
    if cursor.at(TokenKind::OpenSquare) {
        let first = cursor.first();
        let elements = elements(alloc, cursor, depth)?;
        let list = ListOf {
            number: 0,
            first,
            to: cursor.before(),
            elements,
        };
        return Ok(Right::List(Box::new(alloc.clone()?, list)?));
    }
    let value = Box::new(alloc.clone()?, expr(alloc, cursor, depth)?)?;
    Ok(Right::Value(value))
}

#[tactic(auto, unfolding(crate::specs::Reading::read_elements))]
fn elements<A: Allocator + Clone>(
    alloc: &A,
    cursor: &mut Cursor<'_>,
    depth: u32,
) -> Result<Vec<Expr<A>, A>, ParseStop>
    ensures reads { Gives expressions_view result cursor.new (read_elements depth cursor.old) }
    ensures shorter { OnOk result (length cursor.new.rest < length cursor.old.rest) }
{
    let inner = cursor.open(TokenKind::OpenSquare, depth)?;
    let values = exprs(alloc, cursor, inner)?;
    cursor.take(TokenKind::CloseSquare)?;
    Ok(values)
}

#[tactic(auto, unfolding(crate::specs::Reading::read_call))]
fn call<A: Allocator + Clone>(
    alloc: &A,
    cursor: &mut Cursor<'_>,
    depth: u32,
) -> Result<Call<A>, ParseStop>
    ensures reads { Gives calling_of result cursor.new (read_call depth cursor.old) }
    ensures shorter { OnOk result (length cursor.new.rest < length cursor.old.rest) }
{
    let first = cursor.first();
    let name = name(alloc, cursor)?;
    let arguments = arguments(alloc, cursor, depth)?;
    Ok(Call {
        number: 0,
        first,
        to: cursor.before(),
        name,
        arguments,
    })
}

/// Parses the word `prio`.
#[tactic(auto, using(crate::proofs::spellings::Spelling::spells_true, crate::proofs::spellings::Spelling::spells_false), unfolding(crate::specs::Reading::read_prio))]
fn prio<'a>(cursor: &mut Cursor<'a>) -> Result<Token<'a>, ParseStop>
    ensures reads { Gives lexeme_of result cursor.new (read_prio cursor.old) }
    ensures shorter { OnOk result (length cursor.new.rest < length cursor.old.rest) }
{
    let token = cursor.take(TokenKind::Name)?;
    if token.text == b"prio".as_slice() {
        Ok(token)
    } else {
        Err(ParseStop::Unexpected(token.span))
    }
}

/// Parses a number of at most `MAX_PRIORITY`.
#[tactic(auto, unfolding(crate::specs::Reading::read_small))]
fn small(cursor: &mut Cursor<'_>) -> Result<u32, ParseStop>
    ensures reads { Gives (λ n. n) result cursor.new (read_small cursor.old) }
    ensures bounded { IfOk result (λ n. n ≤ max_priority) }
    ensures shorter { OnOk result (length cursor.new.rest < length cursor.old.rest) }
{
    let token = cursor.take(TokenKind::Number)?;
    let value = number_value(token.text).unwrap();
    if value > MAX_PRIORITY {
        return Err(ParseStop::Unexpected(token.span));
    }
    Ok(value as u32)
}

/// Parses the priority of a call: `@prio=` and a number, which may be negative.
#[tactic(auto, unfolding(crate::specs::Reading::read_priority))]
fn priority(cursor: &mut Cursor<'_>) -> Result<i32, ParseStop>
    ensures reads { Gives (λ p. p) result cursor.new (read_priority cursor.old) }
    ensures fits { IfOk result (λ p. FitsSigned w32 p) }
    ensures shorter { OnOk result (length cursor.new.rest < length cursor.old.rest) }
{
    cursor.take(TokenKind::At)?;
    prio(cursor)?;
    cursor.take(TokenKind::Assign)?;
    if cursor.at(TokenKind::Minus) {
        cursor.take(TokenKind::Minus)?;
        let size = small(cursor)?;
        return Ok(-(size as i32));
    }
    let size = small(cursor)?;
    Ok(size as i32)
}

/// Parses the priority of a call, or returns 0 if there is none.
fn given_priority(cursor: &mut Cursor<'_>) -> Result<i32, ParseStop>
    ensures reads { Gives (λ p. p) result cursor.new (made (λ s x u. or_zero x) (maybe (at At) read_priority) cursor.old) }
    ensures fits { IfOk result (λ p. FitsSigned w32 p) }
    ensures shorter { OnOk result (length cursor.new.rest ≤ length cursor.old.rest) }
{
    if cursor.at(TokenKind::At) {
        priority(cursor)
    } else {
        Ok(0)
    }
}

/// Parses a colon and the following expression.
fn behind_colon<A: Allocator + Clone>(
    alloc: &A,
    cursor: &mut Cursor<'_>,
    depth: u32,
) -> Result<Expr<A>, ParseStop>
    ensures reads { Gives expression_view result cursor.new ((the Colon ▸ read_expr depth) cursor.old) }
    ensures shorter { OnOk result (length cursor.new.rest < length cursor.old.rest) }
{
    cursor.take(TokenKind::Colon)?;
    expr(alloc, cursor, depth)
}

/// Parses the step of a range, if there is one.
fn range_step<A: Allocator + Clone>(
    alloc: &A,
    cursor: &mut Cursor<'_>,
    depth: u32,
) -> Result<Option<Expr<A>>, ParseStop>
    ensures reads { Gives (option_map expression_view) result cursor.new (maybe (at Colon) (the Colon ▸ read_expr depth) cursor.old) }
    ensures shorter { OnOk result (length cursor.new.rest ≤ length cursor.old.rest) }
{
    if !cursor.at(TokenKind::Colon) {
        return Ok(None);
    }
    Ok(Some(behind_colon(alloc, cursor, depth)?))
}

/// Parses the ends and the step of a range.
fn bounds<A: Allocator + Clone>(
    alloc: &A,
    cursor: &mut Cursor<'_>,
    depth: u32,
) -> Result<Range<A>, ParseStop>
    ensures reads { Gives range_of result cursor.new (made (λ s x u. range x.0 x.1.0 x.1.1) (bounds_over (read_expr depth)) cursor.old) }
    ensures shorter { OnOk result (length cursor.new.rest < length cursor.old.rest) }
{
    let low = expr(alloc, cursor, depth)?;
    let high = behind_colon(alloc, cursor, depth)?;
    let step = range_step(alloc, cursor, depth)?;
    Ok(Range { low, high, step })
}

#[tactic(auto, unfolding(crate::specs::Reading::read_range))]
fn range<A: Allocator + Clone>(
    alloc: &A,
    cursor: &mut Cursor<'_>,
    depth: u32,
) -> Result<Source<A>, ParseStop>
    ensures reads { Gives over_of result cursor.new (read_range depth cursor.old) }
    ensures shorter { OnOk result (length cursor.new.rest < length cursor.old.rest) }
{
    let inner = cursor.open(TokenKind::OpenSquare, depth)?;
    let bounds = Box::new(alloc.clone()?, bounds(alloc, cursor, inner)?)?;
    cursor.take(TokenKind::CloseSquare)?;
    Ok(Source::Range(bounds))
}

#[tactic(auto, unfolding(crate::specs::Reading::read_source))]
fn source<A: Allocator + Clone>(
    alloc: &A,
    cursor: &mut Cursor<'_>,
    depth: u32,
) -> Result<Source<A>, ParseStop>
    ensures reads { Gives over_of result cursor.new (read_source depth cursor.old) }
    ensures shorter { OnOk result (length cursor.new.rest < length cursor.old.rest) }
{
    if cursor.at(TokenKind::OpenSquare) {
        return range(alloc, cursor, depth);
    }
    Ok(Source::Array(name(alloc, cursor)?))
}

#[tactic(auto, unfolding(crate::specs::Reading::read_declaration))]
fn declaration<A: Allocator + Clone>(
    alloc: &A,
    cursor: &mut Cursor<'_>,
    depth: u32,
) -> Result<Stmt<A>, ParseStop>
    ensures reads { Gives statement_view result cursor.new (read_declaration depth cursor.old) }
    ensures shorter { OnOk result (length cursor.new.rest < length cursor.old.rest) }
{
    let first = cursor.first();
    let decl = decl(alloc, cursor, depth)?;
    let value = if cursor.at(TokenKind::Assign) {
        cursor.take(TokenKind::Assign)?;
        Some(right(alloc, cursor, depth)?)
    } else {
        None
    };
    cursor.take(TokenKind::Semicolon)?;
    Ok(syntax_trees::stmt(first, cursor.before(), StmtKind::Declare(decl, value)))
}

#[tactic(auto, unfolding(crate::specs::Reading::read_assignment))]
fn assignment<A: Allocator + Clone>(
    alloc: &A,
    cursor: &mut Cursor<'_>,
    depth: u32,
) -> Result<Stmt<A>, ParseStop>
    ensures reads { Gives statement_view result cursor.new (read_assignment depth cursor.old) }
    ensures shorter { OnOk result (length cursor.new.rest < length cursor.old.rest) }
{
    let first = cursor.first();
    let target = name(alloc, cursor)?;
    cursor.take(TokenKind::Assign)?;
    let value = right(alloc, cursor, depth)?;
    cursor.take(TokenKind::Semicolon)?;
    Ok(syntax_trees::stmt(first, cursor.before(), StmtKind::Assign(target, value)))
}

#[tactic(auto, unfolding(crate::specs::Reading::read_write))]
fn write<A: Allocator + Clone>(
    alloc: &A,
    cursor: &mut Cursor<'_>,
    depth: u32,
) -> Result<Stmt<A>, ParseStop>
    ensures reads { Gives statement_view result cursor.new (read_write depth cursor.old) }
    ensures shorter { OnOk result (length cursor.new.rest < length cursor.old.rest) }
{
    let first = cursor.first();
    let array = name(alloc, cursor)?;
    let index = Box::new(alloc.clone()?, index(alloc, cursor, depth)?)?;
    cursor.take(TokenKind::Assign)?;
    let value = Box::new(alloc.clone()?, expr(alloc, cursor, depth)?)?;
    cursor.take(TokenKind::Semicolon)?;
    Ok(syntax_trees::stmt(first, cursor.before(), StmtKind::Write(array, index, value)))
}

/// Parses a call and the following semicolon.
fn ended_call<A: Allocator + Clone>(
    alloc: &A,
    cursor: &mut Cursor<'_>,
    depth: u32,
) -> Result<Box<Call<A>, A>, ParseStop>
    ensures reads { Gives (λ b. calling_of b.value) result cursor.new ((read_call depth ◂ the Semicolon) cursor.old) }
    ensures shorter { OnOk result (length cursor.new.rest < length cursor.old.rest) }
{
    let call = Box::new(alloc.clone()?, call(alloc, cursor, depth)?)?;
    cursor.take(TokenKind::Semicolon)?;
    Ok(call)
}

#[tactic(auto, unfolding(crate::specs::Reading::read_many))]
fn many<A: Allocator + Clone>(
    alloc: &A,
    cursor: &mut Cursor<'_>,
    depth: u32,
) -> Result<Stmt<A>, ParseStop>
    ensures reads { Gives statement_view result cursor.new (read_many depth cursor.old) }
    ensures shorter { OnOk result (length cursor.new.rest < length cursor.old.rest) }
{
    let first = cursor.first();
    let targets = names(alloc, cursor, depth)?;
    cursor.take(TokenKind::Assign)?;
    let call = ended_call(alloc, cursor, depth)?;
    Ok(syntax_trees::stmt(first, cursor.before(), StmtKind::AssignAll(targets, call)))
}

#[tactic(auto, unfolding(crate::specs::Reading::read_calling))]
fn calling<A: Allocator + Clone>(
    alloc: &A,
    cursor: &mut Cursor<'_>,
    depth: u32,
) -> Result<Stmt<A>, ParseStop>
    ensures reads { Gives statement_view result cursor.new (read_calling depth cursor.old) }
    ensures shorter { OnOk result (length cursor.new.rest < length cursor.old.rest) }
{
    let first = cursor.first();
    let priority = given_priority(cursor)?;
    let call = ended_call(alloc, cursor, depth)?;
    Ok(call_stmt(first, cursor.before(), priority, call))
}

/// Creates a call statement.
fn call_stmt<A: Allocator>(first: Span, to: usize, priority: i32, call: Box<Call<A>, A>) -> Stmt<A>
    ensures { statement_view result ≡ statement (record { number = 0; first = first; to = to }) (calls priority (calling_of call.value)) }
{
    syntax_trees::stmt(first, to, StmtKind::Call(priority, call))
}

#[tactic(auto, unfolding(crate::specs::Reading::read_if))]
#[cycle(stmt)]
fn choice<A: Allocator + Clone>(
    alloc: &A,
    cursor: &mut Cursor<'_>,
    depth: u32,
) -> Result<Stmt<A>, ParseStop>
    ensures reads { Gives statement_view result cursor.new (read_if depth cursor.old) }
    ensures shorter { OnOk result (length cursor.new.rest < length cursor.old.rest) }
{
    let first = cursor.first();
    cursor.take(TokenKind::If)?;
    let condition = Box::new(alloc.clone()?, test(alloc, cursor, depth)?)?;
    let then = Box::new(alloc.clone()?, block(alloc, cursor, depth)?)?;
    let other = else_branch(alloc, cursor, depth)?;
    Ok(syntax_trees::stmt(first, cursor.before(), StmtKind::If(condition, then, other)))
}

/// Parses the `else` branch of an `if`, if there is one.
#[cycle(stmt)]
fn else_branch<A: Allocator + Clone>(
    alloc: &A,
    cursor: &mut Cursor<'_>,
    depth: u32,
) -> Result<Option<Box<Block<A>, A>>, ParseStop>
    ensures reads { Gives branch_view result cursor.new (maybe (at Else) (the Else ▸ read_else depth) cursor.old) }
    ensures shorter { OnOk result (length cursor.new.rest ≤ length cursor.old.rest) }
{
    if !cursor.at(TokenKind::Else) {
        return Ok(None);
    }
    cursor.take(TokenKind::Else)?;
    let branch = Box::new(alloc.clone()?, other(alloc, cursor, depth)?)?;
    Ok(Some(branch))
}

/// Parses the block after `else`. A following `if` becomes the only statement of the block and takes one nesting level.
#[tactic(auto, using(crate::proofs::statements::Statements::command_same), unfolding(crate::specs::Reading::read_else))]
#[cycle(stmt)]
fn other<A: Allocator + Clone>(
    alloc: &A,
    cursor: &mut Cursor<'_>,
    depth: u32,
) -> Result<Block<A>, ParseStop>
    ensures reads { Gives body_view result cursor.new (read_else depth cursor.old) }
    ensures shorter { OnOk result (length cursor.new.rest < length cursor.old.rest) }
{
    if !cursor.at(TokenKind::If) {
        return block(alloc, cursor, depth);
    }
    if depth == 0 {
        return Err(cursor.too_nested());
    }
    let from = cursor.first().from;
    let mut statements = Vec::with_capacity(alloc.clone()?, 1)?;
    statements.push(statement(alloc, cursor, depth - 1)?)?;
    Ok(syntax_trees::block(from, statements))
}

/// Parses the name of a loop's key, if there is one.
fn loop_key<A: Allocator + Clone>(
    alloc: &A,
    cursor: &mut Cursor<'_>,
) -> Result<Option<Name<A>>, ParseStop>
    ensures reads { Gives (option_map word_of) result cursor.new (maybe (at Comma) (the Comma ▸ read_name) cursor.old) }
    ensures shorter { OnOk result (length cursor.new.rest ≤ length cursor.old.rest) }
{
    if !cursor.at(TokenKind::Comma) {
        return Ok(None);
    }
    cursor.take(TokenKind::Comma)?;
    Ok(Some(name(alloc, cursor)?))
}

#[tactic(auto, unfolding(crate::specs::Reading::read_foreach))]
#[cycle(stmt)]
fn foreach<A: Allocator + Clone>(
    alloc: &A,
    cursor: &mut Cursor<'_>,
    depth: u32,
) -> Result<Stmt<A>, ParseStop>
    ensures reads { Gives statement_view result cursor.new (read_foreach depth cursor.old) }
    ensures shorter { OnOk result (length cursor.new.rest < length cursor.old.rest) }
{
    let first = cursor.first();
    cursor.take(TokenKind::Foreach)?;
    let value = name(alloc, cursor)?;
    let key = loop_key(alloc, cursor)?;
    cursor.take(TokenKind::In)?;
    let source = source(alloc, cursor, depth)?;
    let header = Box::new(alloc.clone()?, Header { value, key, source })?;
    let body = Box::new(alloc.clone()?, block(alloc, cursor, depth)?)?;
    Ok(syntax_trees::stmt(first, cursor.before(), StmtKind::Foreach(header, body)))
}

#[tactic(auto, unfolding(crate::specs::Reading::read_wait))]
#[cycle(stmt)]
fn wait<A: Allocator + Clone>(
    alloc: &A,
    cursor: &mut Cursor<'_>,
    depth: u32,
) -> Result<Stmt<A>, ParseStop>
    ensures reads { Gives statement_view result cursor.new (read_wait depth cursor.old) }
    ensures shorter { OnOk result (length cursor.new.rest < length cursor.old.rest) }
{
    let first = cursor.first();
    cursor.take(TokenKind::Wait)?;
    let waited = names(alloc, cursor, depth)?;
    let body = Box::new(alloc.clone()?, block(alloc, cursor, depth)?)?;
    Ok(syntax_trees::stmt(first, cursor.before(), StmtKind::Wait(waited, body)))
}

/// Parses statements in braces.
#[tactic(auto, unfolding(crate::specs::Reading::read_block))]
#[cycle(stmt)]
pub fn block<A: Allocator + Clone>(
    alloc: &A,
    cursor: &mut Cursor<'_>,
    depth: u32,
) -> Result<Block<A>, ParseStop>
    ensures reads { Gives body_view result cursor.new (read_block depth cursor.old) }
    ensures shorter { OnOk result (length cursor.new.rest < length cursor.old.rest) }
{
    let from = cursor.first().from;
    let inner = cursor.open(TokenKind::OpenCurly, depth)?;
    let statements = stmts(alloc, cursor, inner)?;
    cursor.take(TokenKind::CloseCurly)?;
    Ok(syntax_trees::block(from, statements))
}

/// Returns the initial capacity of a block: 1 if a statement follows, otherwise 0.
fn first_room(cursor: &Cursor<'_>) -> usize
    ensures { result ≤ 1 }
{
    if cursor.at(TokenKind::CloseCurly) {
        0
    } else {
        1
    }
}

/// Parses statements up to a closing brace, which is not consumed.
#[tactic(auto, unfolding(crate::specs::Reading::read_stmts))]
#[cycle(stmt)]
fn stmts<A: Allocator + Clone>(
    alloc: &A,
    cursor: &mut Cursor<'_>,
    depth: u32,
) -> Result<Vec<Stmt<A>, A>, ParseStop>
    ensures reads { Gives statements_view result cursor.new (read_stmts depth cursor.old) }
    ensures shorter { OnOk result (length cursor.new.rest ≤ length cursor.old.rest) }
{
    let room = first_room(cursor);
    let mut statements = Vec::with_capacity(alloc.clone()?, room)?;
    while !cursor.at(TokenKind::CloseCurly) {
        statements.push(statement(alloc, cursor, depth)?)?;
    }
    Ok(statements)
}

#[tactic(auto, unfolding(crate::specs::Reading::read_command))]
#[cycle(stmt)]
pub fn statement<A: Allocator + Clone>(
    alloc: &A,
    cursor: &mut Cursor<'_>,
    depth: u32,
) -> Result<Stmt<A>, ParseStop>
    ensures reads { Gives statement_view result cursor.new (read_command depth cursor.old) }
    ensures shorter { OnOk result (length cursor.new.rest < length cursor.old.rest) }
{
    if cursor.at_type() {
        return declaration(alloc, cursor, depth);
    }
    if cursor.at(TokenKind::If) {
        return choice(alloc, cursor, depth);
    }
    if cursor.at(TokenKind::Foreach) {
        return foreach(alloc, cursor, depth);
    }
    if cursor.at(TokenKind::Wait) {
        return wait(alloc, cursor, depth);
    }
    if cursor.at(TokenKind::OpenRound) {
        return many(alloc, cursor, depth);
    }
    if cursor.at(TokenKind::At) {
        return calling(alloc, cursor, depth);
    }
    if cursor.at(TokenKind::Name) {
        return named(alloc, cursor, depth);
    }
    Err(cursor.unexpected())
}

#[tactic(auto, unfolding(crate::specs::Reading::read_named_stmt))]
fn named<A: Allocator + Clone>(
    alloc: &A,
    cursor: &mut Cursor<'_>,
    depth: u32,
) -> Result<Stmt<A>, ParseStop>
    ensures reads { Gives statement_view result cursor.new (read_named_stmt depth cursor.old) }
    ensures shorter { OnOk result (length cursor.new.rest < length cursor.old.rest) }
{
    if cursor.second(TokenKind::Assign) {
        return assignment(alloc, cursor, depth);
    }
    if cursor.second(TokenKind::OpenSquare) {
        return write(alloc, cursor, depth);
    }
    calling(alloc, cursor, depth)
}
