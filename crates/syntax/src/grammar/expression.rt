//! Parser of expressions.

ghost use Rattle.std.specs.Prelude.{◌≡◌, ◌<◌, ◌≤◌, ◌∷◌, [], List, Vec, OnOk, IfOk, MatchResult, length, map, suc};
ghost use Rattle.syntax_trees.specs.View.{expression_view, word_of, words_view, expressions_view};
ghost use Rattle.language.specs.Tree.{Expression, number, text, truth};
ghost use Rattle.language.specs.declared.tree.Operator.{Operator};
ghost use Rattle.std.specs.Prelude.{true, false};
ghost use Rattle.language.specs.Kinds.{repeats};
ghost use Rattle.language.specs.Grammar.{number_of, spelled};
ghost use Rattle.syntax.specs.Answers.{Gives, Appends};
ghost use Rattle.syntax.specs.Readers.{got};
ghost use Rattle.lexer.specs.declared.token.TokenKind.TheVariants.{Number, Text};
ghost use Rattle.syntax.specs.Reading.{read_name, read_words, read_names, read_expr, read_exprs, read_arguments, read_index, read_test, read_chain, read_link, read_links, rank, at_operator, read_operand, read_operands, read_unary, read_form, read_named, read_variable, read_element, read_application, read_prefixed, read_literal};

use crate::grammar::cursor::Cursor;
use crate::grammar::kinds::rank;
use crate::grammar::stop::ParseStop;
use language::operators::repeats;
use lexer::token::{Span, TokenKind};
use lexer::value::{number_value, string_content};
use std::alloc::{AllocError, Allocator};
use syntax_trees::tree::{Expr, ExprKind, Level, Name, Operator, Prefix};

#[tactic(auto, unfolding(crate::specs::Reading::read_name))]
pub fn name<A: Allocator + Clone>(alloc: &A, cursor: &mut Cursor<'_>) -> Result<Name<A>, ParseStop>
    ensures reads { Gives word_of result cursor.new (read_name cursor.old) }
    ensures shorter { OnOk result (length cursor.new.rest < length cursor.old.rest) }
{
    let token = cursor.take(TokenKind::Name)?;
    Ok(Name {
        number: 0,
        span: token.span,
        text: Vec::from_slice(alloc.clone()?, token.text)?,
    })
}

#[tactic(auto, unfolding(crate::specs::Reading::read_words))]
pub fn words<A: Allocator + Clone>(
    alloc: &A,
    cursor: &mut Cursor<'_>,
) -> Result<Vec<Name<A>, A>, ParseStop>
    ensures reads { Gives words_view result cursor.new (read_words cursor.old) }
    ensures shorter { OnOk result (length cursor.new.rest < length cursor.old.rest) }
{
    let mut names = Vec::new(alloc.clone()?);
    names.push(name(alloc, cursor)?)?;
    while cursor.at(TokenKind::Comma) {
        cursor.take(TokenKind::Comma)?;
        names.push(name(alloc, cursor)?)?;
    }
    Ok(names)
}

/// Parses one or more names in round brackets.
#[tactic(auto, unfolding(crate::specs::Reading::read_names))]
pub fn names<A: Allocator + Clone>(
    alloc: &A,
    cursor: &mut Cursor<'_>,
    depth: u32,
) -> Result<Vec<Name<A>, A>, ParseStop>
    ensures reads { Gives words_view result cursor.new (read_names depth cursor.old) }
    ensures shorter { OnOk result (length cursor.new.rest < length cursor.old.rest) }
{
    cursor.open(TokenKind::OpenRound, depth)?;
    let names = words(alloc, cursor)?;
    cursor.take(TokenKind::CloseRound)?;
    Ok(names)
}

#[tactic(auto, unfolding(crate::specs::Reading::read_expr, crate::specs::Reading::read_chain, crate::specs::Reading::read_operand))]
#[cycle(expr)]
pub fn expr<A: Allocator + Clone>(
    alloc: &A,
    cursor: &mut Cursor<'_>,
    depth: u32,
) -> Result<Expr<A>, ParseStop>
    ensures reads { Gives expression_view result cursor.new (read_expr depth cursor.old) }
    ensures shorter { OnOk result (length cursor.new.rest < length cursor.old.rest) }
{
    chain(alloc, cursor, depth, Level::Or)
}

/// Parses a chain of a level. Reads a unary expression first, and builds chains only for levels whose operator follows
/// it.
#[tactic(auto, using(crate::proofs::expressions::Climbing::unary_alone))]
#[cycle(expr)]
fn chain<A: Allocator + Clone>(
    alloc: &A,
    cursor: &mut Cursor<'_>,
    depth: u32,
    level: Level,
) -> Result<Expr<A>, ParseStop>
    ensures reads { Gives expression_view result cursor.new (read_chain depth level cursor.old) }
    ensures shorter { OnOk result (length cursor.new.rest < length cursor.old.rest) }
{
    let start = cursor.first();
    let first = unary(alloc, cursor, depth);
    if cursor.level_at(0, level).is_none() {
        return first;
    }
    match first {
        Ok(value) => climb(alloc, cursor, depth, level, start, value),
        Err(stop) => Err(stop),
    }
}

/// Parses the chains up to a level that begin with `first`, tightest first (precedence climbing). Each chain is the
/// first operand of the next.
#[tactic(auto, using(crate::proofs::expressions::Climbing::level_operator, crate::proofs::expressions::Climbing::level_below, crate::proofs::expressions::Climbing::level_above))]
#[cycle(expr)]
fn climb<A: Allocator + Clone>(
    alloc: &A,
    cursor: &mut Cursor<'_>,
    depth: u32,
    to: Level,
    start: Span,
    first: Expr<A>,
) -> Result<Expr<A>, ParseStop>
    ensures reads { Gives expression_view result cursor.new (read_links depth (suc (rank to)) 0 start (expression_view first) cursor.old) }
    ensures shorter { OnOk result (length cursor.new.rest ≤ length cursor.old.rest) }
{
    let mut value = first;
    let mut from = 0;
    while let Some(level) = cursor.level_at(from, to) {
        value = link(alloc, cursor, depth, level, start, value)?;
        from = rank(level) + 1;
    }
    Ok(value)
}

/// Parses a chain from its first operator. `first`: its first operand, already read.
#[cycle(expr)]
fn link<A: Allocator + Clone>(
    alloc: &A,
    cursor: &mut Cursor<'_>,
    depth: u32,
    level: Level,
    start: Span,
    first: Expr<A>,
) -> Result<Expr<A>, ParseStop>
    requires { at_operator level cursor.old ≡ true }
    ensures reads { Gives expression_view result cursor.new (read_link depth level start (expression_view first) cursor.old) }
    ensures shorter { OnOk result (length cursor.new.rest ≤ length cursor.old.rest) }
{
    let mut operands = first_operand(alloc, level, first)?;
    let mut operators = Vec::with_capacity(alloc.clone()?, 2)?;
    rest_of_chain(alloc, cursor, depth, level, &mut operators, &mut operands)?;
    Ok(syntax_trees::expr(start, cursor.before(), ExprKind::Chain(operators, operands)))
}

/// Creates the operands of a chain from the first. Reserves room for one more, and for two in a sum, which seldom has
/// only two operands.
fn first_operand<A: Allocator + Clone>(
    alloc: &A,
    level: Level,
    first: Expr<A>,
) -> Result<Vec<Expr<A>, A>, AllocError>
    ensures { IfOk result (λ v. map expression_view v.items ≡ expression_view first ∷ []) }
{
    let room = if level == Level::Sum { 3 } else { 2 };
    let mut operands = Vec::with_capacity(alloc.clone()?, room)?;
    operands.push(first)?;
    Ok(operands)
}

/// Parses the operators and operands after the first operand of a chain.
#[cycle(expr)]
fn rest_of_chain<A: Allocator + Clone>(
    alloc: &A,
    cursor: &mut Cursor<'_>,
    depth: u32,
    level: Level,
    operators: &mut Vec<Operator, A>,
    operands: &mut Vec<Expr<A>, A>,
) -> Result<(), ParseStop>
    ensures reads { Appends result cursor.new (read_operands depth level [] cursor.old) operators.old.items operators.new.items
        (map expression_view operands.old.items) (map expression_view operands.new.items) }
    ensures shorter { OnOk result (length cursor.new.rest ≤ length cursor.old.rest) }
{
    if repeats(level) {
        more_operands(alloc, cursor, depth, level, operators, operands)
    } else {
        one_operand(alloc, cursor, depth, level, operators, operands)
    }
}

#[cycle(expr)]
fn more_operands<A: Allocator + Clone>(
    alloc: &A,
    cursor: &mut Cursor<'_>,
    depth: u32,
    level: Level,
    operators: &mut Vec<Operator, A>,
    operands: &mut Vec<Expr<A>, A>,
) -> Result<(), ParseStop>
    requires { repeats level ≡ true }
    ensures reads { Appends result cursor.new (read_operands depth level [] cursor.old) operators.old.items operators.new.items
        (map expression_view operands.old.items) (map expression_view operands.new.items) }
    ensures shorter { OnOk result (length cursor.new.rest ≤ length cursor.old.rest) }
{
    while let Some(operator) = cursor.take_operator(level) {
        operators.push(operator)?;
        operands.push(operand(alloc, cursor, depth, level)?)?;
    }
    Ok(())
}

#[tactic(auto, unfolding(crate::specs::Reading::read_operands))]
#[cycle(expr)]
fn one_operand<A: Allocator + Clone>(
    alloc: &A,
    cursor: &mut Cursor<'_>,
    depth: u32,
    level: Level,
    operators: &mut Vec<Operator, A>,
    operands: &mut Vec<Expr<A>, A>,
) -> Result<(), ParseStop>
    requires { repeats level ≡ false }
    ensures reads { Appends result cursor.new (read_operands depth level [] cursor.old) operators.old.items operators.new.items
        (map expression_view operands.old.items) (map expression_view operands.new.items) }
    ensures shorter { OnOk result (length cursor.new.rest ≤ length cursor.old.rest) }
{
    if let Some(operator) = cursor.take_operator(level) {
        operators.push(operator)?;
        operands.push(operand(alloc, cursor, depth, level)?)?;
    }
    Ok(())
}

/// Parses an operand of a level: a chain of the next tighter level, or a unary expression.
#[tactic(auto, using(crate::proofs::expressions::Forms::form_same), unfolding(crate::specs::Reading::read_operand, crate::specs::Reading::read_chain))]
#[cycle(expr)]
fn operand<A: Allocator + Clone>(
    alloc: &A,
    cursor: &mut Cursor<'_>,
    depth: u32,
    level: Level,
) -> Result<Expr<A>, ParseStop>
    ensures reads { Gives expression_view result cursor.new (read_operand depth level cursor.old) }
    ensures shorter { OnOk result (length cursor.new.rest < length cursor.old.rest) }
{
    match level {
        Level::Or => chain(alloc, cursor, depth, Level::And),
        Level::And => chain(alloc, cursor, depth, Level::Equality),
        Level::Equality => chain(alloc, cursor, depth, Level::Order),
        Level::Order => chain(alloc, cursor, depth, Level::Sum),
        Level::Sum => chain(alloc, cursor, depth, Level::Product),
        Level::Product => unary(alloc, cursor, depth),
    }
}

#[tactic(auto, unfolding(crate::specs::Reading::read_form))]
#[cycle(expr)]
fn unary<A: Allocator + Clone>(
    alloc: &A,
    cursor: &mut Cursor<'_>,
    depth: u32,
) -> Result<Expr<A>, ParseStop>
    ensures reads { Gives expression_view result cursor.new (read_form depth cursor.old) }
    ensures shorter { OnOk result (length cursor.new.rest < length cursor.old.rest) }
{
    if cursor.at(TokenKind::Not) {
        return prefixed(alloc, cursor, depth, TokenKind::Not, Prefix::Not);
    }
    if cursor.at(TokenKind::Minus) {
        return prefixed(alloc, cursor, depth, TokenKind::Minus, Prefix::Negative);
    }
    if cursor.at(TokenKind::Number) {
        return number_literal(cursor);
    }
    if cursor.at(TokenKind::Text) {
        return text_literal(alloc, cursor);
    }
    if cursor.at(TokenKind::True) {
        return truth_literal(cursor, TokenKind::True, true);
    }
    if cursor.at(TokenKind::False) {
        return truth_literal(cursor, TokenKind::False, false);
    }
    if cursor.at(TokenKind::OpenRound) {
        return test(alloc, cursor, depth);
    }
    if cursor.at(TokenKind::Name) {
        return named(alloc, cursor, depth);
    }
    Err(cursor.unexpected())
}

#[tactic(auto, using(crate::proofs::expressions::Forms::form_same), unfolding(crate::specs::Reading::read_prefixed))]
#[cycle(expr)]
fn prefixed<A: Allocator + Clone>(
    alloc: &A,
    cursor: &mut Cursor<'_>,
    depth: u32,
    kind: TokenKind,
    prefix: Prefix,
) -> Result<Expr<A>, ParseStop>
    ensures reads { Gives expression_view result cursor.new (read_prefixed kind prefix depth cursor.old) }
    ensures shorter { OnOk result (length cursor.new.rest < length cursor.old.rest) }
{
    let start = cursor.first();
    let inner = cursor.open(kind, depth)?;
    let operand = Box::new(alloc.clone()?, unary(alloc, cursor, inner)?)?;
    Ok(syntax_trees::expr(start, cursor.before(), ExprKind::Prefixed(prefix, operand)))
}

#[tactic(auto, unfolding(crate::specs::Reading::read_literal))]
fn number_literal<A: Allocator + Clone>(cursor: &mut Cursor<'_>) -> Result<Expr<A>, ParseStop>
    ensures reads { Gives expression_view result cursor.new (read_literal Number (λ t. number (number_of t)) cursor.old) }
    ensures shorter { OnOk result (length cursor.new.rest < length cursor.old.rest) }
{
    let start = cursor.first();
    let token = cursor.take(TokenKind::Number)?;
    let value = number_value(token.text).unwrap() as i64;
    Ok(syntax_trees::expr(start, cursor.before(), ExprKind::Number(value)))
}

#[tactic(auto, using(crate::proofs::spellings::Strings::quoted_string, crate::proofs::spellings::Strings::spelled_as), unfolding(crate::specs::Reading::read_literal))]
fn text_literal<A: Allocator + Clone>(
    alloc: &A,
    cursor: &mut Cursor<'_>,
) -> Result<Expr<A>, ParseStop>
    ensures reads { Gives expression_view result cursor.new (read_literal Text (λ t. text (spelled t)) cursor.old) }
    ensures shorter { OnOk result (length cursor.new.rest < length cursor.old.rest) }
{
    let start = cursor.first();
    let token = cursor.take(TokenKind::Text)?;
    let content = string_content(alloc.clone()?, token.text)?;
    Ok(syntax_trees::expr(start, cursor.before(), ExprKind::Text(content)))
}

#[tactic(auto, unfolding(crate::specs::Reading::read_literal))]
fn truth_literal<A: Allocator + Clone>(
    cursor: &mut Cursor<'_>,
    kind: TokenKind,
    value: bool,
) -> Result<Expr<A>, ParseStop>
    ensures reads { Gives expression_view result cursor.new (read_literal kind (λ t. truth value) cursor.old) }
    ensures shorter { OnOk result (length cursor.new.rest < length cursor.old.rest) }
{
    let start = cursor.first();
    cursor.take(kind)?;
    Ok(syntax_trees::expr(start, cursor.before(), ExprKind::Truth(value)))
}

/// Parses an expression that begins with a name: an element, a function call or a variable.
#[tactic(auto, unfolding(crate::specs::Reading::read_named))]
#[cycle(expr)]
fn named<A: Allocator + Clone>(
    alloc: &A,
    cursor: &mut Cursor<'_>,
    depth: u32,
) -> Result<Expr<A>, ParseStop>
    ensures reads { Gives expression_view result cursor.new (read_named depth cursor.old) }
    ensures shorter { OnOk result (length cursor.new.rest < length cursor.old.rest) }
{
    if cursor.second(TokenKind::OpenSquare) {
        return element(alloc, cursor, depth);
    }
    if cursor.second(TokenKind::OpenRound) {
        return application(alloc, cursor, depth);
    }
    variable(alloc, cursor)
}

/// Parses a variable.
fn variable<A: Allocator + Clone>(alloc: &A, cursor: &mut Cursor<'_>) -> Result<Expr<A>, ParseStop>
    ensures reads { Gives expression_view result cursor.new (read_variable cursor.old) }
    ensures shorter { OnOk result (length cursor.new.rest < length cursor.old.rest) }
{
    let start = cursor.first();
    let name = name(alloc, cursor)?;
    Ok(syntax_trees::expr(start, cursor.before(), ExprKind::Variable(name)))
}

/// Parses an element of an array.
#[cycle(expr)]
fn element<A: Allocator + Clone>(
    alloc: &A,
    cursor: &mut Cursor<'_>,
    depth: u32,
) -> Result<Expr<A>, ParseStop>
    ensures reads { Gives expression_view result cursor.new (read_element depth cursor.old) }
    ensures shorter { OnOk result (length cursor.new.rest < length cursor.old.rest) }
{
    let start = cursor.first();
    let array = Box::new(alloc.clone()?, name(alloc, cursor)?)?;
    let index = Box::new(alloc.clone()?, index(alloc, cursor, depth)?)?;
    Ok(syntax_trees::expr(start, cursor.before(), ExprKind::Element(array, index)))
}

/// Parses a function call with its arguments.
#[cycle(expr)]
fn application<A: Allocator + Clone>(
    alloc: &A,
    cursor: &mut Cursor<'_>,
    depth: u32,
) -> Result<Expr<A>, ParseStop>
    ensures reads { Gives expression_view result cursor.new (read_application depth cursor.old) }
    ensures shorter { OnOk result (length cursor.new.rest < length cursor.old.rest) }
{
    let start = cursor.first();
    let function = Box::new(alloc.clone()?, name(alloc, cursor)?)?;
    let values = arguments(alloc, cursor, depth)?;
    Ok(syntax_trees::expr(start, cursor.before(), ExprKind::Call(function, values)))
}

/// Parses an expression in round brackets.
#[tactic(auto, unfolding(crate::specs::Reading::read_test))]
#[cycle(expr)]
pub fn test<A: Allocator + Clone>(
    alloc: &A,
    cursor: &mut Cursor<'_>,
    depth: u32,
) -> Result<Expr<A>, ParseStop>
    ensures reads { Gives expression_view result cursor.new (read_test depth cursor.old) }
    ensures shorter { OnOk result (length cursor.new.rest < length cursor.old.rest) }
{
    let inner = cursor.open(TokenKind::OpenRound, depth)?;
    let value = expr(alloc, cursor, inner)?;
    cursor.take(TokenKind::CloseRound)?;
    Ok(value)
}

/// Parses an expression in square brackets.
#[tactic(auto, unfolding(crate::specs::Reading::read_index))]
#[cycle(expr)]
pub fn index<A: Allocator + Clone>(
    alloc: &A,
    cursor: &mut Cursor<'_>,
    depth: u32,
) -> Result<Expr<A>, ParseStop>
    ensures reads { Gives expression_view result cursor.new (read_index depth cursor.old) }
    ensures shorter { OnOk result (length cursor.new.rest < length cursor.old.rest) }
{
    let inner = cursor.open(TokenKind::OpenSquare, depth)?;
    let value = expr(alloc, cursor, inner)?;
    cursor.take(TokenKind::CloseSquare)?;
    Ok(value)
}

#[tactic(auto, unfolding(crate::specs::Reading::read_arguments))]
#[cycle(expr)]
pub fn arguments<A: Allocator + Clone>(
    alloc: &A,
    cursor: &mut Cursor<'_>,
    depth: u32,
) -> Result<Vec<Expr<A>, A>, ParseStop>
    ensures reads { Gives expressions_view result cursor.new (read_arguments depth cursor.old) }
    ensures shorter { OnOk result (length cursor.new.rest < length cursor.old.rest) }
{
    let inner = cursor.open(TokenKind::OpenRound, depth)?;
    if cursor.at(TokenKind::CloseRound) {
        let none = Vec::new(alloc.clone()?);
        cursor.take(TokenKind::CloseRound)?;
        return Ok(none);
    }
    let values = exprs(alloc, cursor, inner)?;
    cursor.take(TokenKind::CloseRound)?;
    Ok(values)
}

/// Parses one or more expressions separated by commas.
#[tactic(auto, unfolding(crate::specs::Reading::read_exprs))]
#[cycle(expr)]
pub fn exprs<A: Allocator + Clone>(
    alloc: &A,
    cursor: &mut Cursor<'_>,
    depth: u32,
) -> Result<Vec<Expr<A>, A>, ParseStop>
    ensures reads { Gives expressions_view result cursor.new (read_exprs depth cursor.old) }
    ensures shorter { OnOk result (length cursor.new.rest < length cursor.old.rest) }
{
    let mut values = Vec::with_capacity(alloc.clone()?, 2)?;
    values.push(expr(alloc, cursor, depth)?)?;
    while cursor.at(TokenKind::Comma) {
        cursor.take(TokenKind::Comma)?;
        values.push(expr(alloc, cursor, depth)?)?;
    }
    Ok(values)
}
