//! Trees with their numbers and their copies.

use crate::asserts::is_equal;
use bumpalo::Bump;
use language::operators::{base_of_kind, operator_of_kind, repeats};
use lexer::token::{Span, TokenKind};
use std::alloc::{AllocError, Allocator, Global};
use syntax::parser::parse;
use syntax_trees::tree::{
    Base, Expr, ExprKind, Item, Level, Name, Operator, Right, Script, Stmt, StmtKind,
};
use syntax_trees::{expr, stmt};

/// The bytes from one place to another.
fn at(from: usize, to: usize) -> Span {
    Span { from, to }
}

/// A name with this number.
fn name(
    alloc: Global,
    number: u32,
    text: &[u8],
    from: usize,
    to: usize,
) -> Result<Name<Global>, AllocError> {
    Ok(Name {
        number,
        span: at(from, to),
        text: Vec::from_slice(alloc, text)?,
    })
}

const TEXTS: &str = r#"
import io; if (b) { x = y + 1; } else { @prio=5 f(z); } string s[];
(int r, boolean b) f(int n, string A[]) { (r, b) = g(n, A); } int A[] = [1, -2]; A[-1] = !(1 < 2 * 3) && true;
foreach v, k in [lo:hi:2] { wait (v, k) { printf("%i", A[k] - size(A)); } } foreach v in A { }"#;

/// The tree, copied to an arena and back.
fn copied(alloc: Global, tree: &Script<Global>) -> Result<Script<Global>, AllocError> {
    let arena = Bump::new(alloc);
    copied_through(alloc, &arena, tree)
}

/// The tree, copied to other memory, in a box.
fn copy_in<A: Allocator + Clone>(
    machine: Global,
    alloc: A,
    tree: &Script<Global>,
) -> Result<Box<Script<A>>, AllocError> {
    Ok(Box::new(machine, tree.copy_to(alloc)?)?)
}

/// The tree, copied to other memory and back.
fn copied_through<A: Allocator + Clone>(
    machine: Global,
    alloc: A,
    tree: &Script<Global>,
) -> Result<Script<Global>, AllocError> {
    let copy = copy_in(machine, alloc, tree)?;
    copy.copy_to(machine)
}

/// The text's tree is equal to its copy, if there is memory for both.
fn is_copied(alloc: Global, text: &[u8]) -> Option<bool> {
    let tree = parse(alloc, text).ok()?;
    let back = copied(alloc, &tree).ok()?;
    Some(back == tree)
}

// A tree is equal to another where its numbers, places and names are too.
#[test]
fn a_copy_to_an_arena_and_back_is_equal(rt: HostRuntime) {
    for text in TEXTS.lines() {
        assert_eq!(rt;
            is_copied(rt.alloc(), text.as_bytes()),
            Some(true),
            "{text}"
        );
    }
}

/// `y` as an expression.
fn y(alloc: Global) -> Result<Expr<Global>, AllocError> {
    let mut y = expr(at(4, 5), 5, ExprKind::Variable(name(alloc, 5, b"y", 4, 5)?));
    y.number = 4;
    Ok(y)
}

/// `1` as an expression.
fn one() -> Expr<Global> {
    let mut one = expr(at(8, 9), 9, ExprKind::Number(1));
    one.number = 6;
    one
}

/// `y` and `1`.
fn operands(alloc: Global) -> Result<Vec<Expr<Global>>, AllocError> {
    let mut operands = Vec::new(alloc);
    operands.push(y(alloc)?)?;
    operands.push(one())?;
    Ok(operands)
}

/// `y + 1`.
fn chain(alloc: Global) -> Result<Expr<Global>, AllocError> {
    let mut operators = Vec::new(alloc);
    operators.push(Operator::Plus)?;
    let operands = operands(alloc)?;
    let mut chain = expr(at(4, 5), 9, ExprKind::Chain(operators, operands));
    chain.number = 3;
    Ok(chain)
}

/// `y + 1` as a right side.
fn right(alloc: Global) -> Result<Right<Global>, AllocError> {
    Ok(Right::Value(Box::new(alloc, chain(alloc)?)?))
}

/// `x = y + 1;`.
fn assignment(alloc: Global) -> Result<Stmt<Global>, AllocError> {
    let target = name(alloc, 2, b"x", 0, 1)?;
    let right = right(alloc)?;
    let mut assignment = stmt(at(0, 1), 10, StmtKind::Assign(target, right));
    assignment.number = 1;
    Ok(assignment)
}

/// A script of that statement.
fn script(alloc: Global) -> Result<Script<Global>, AllocError> {
    let mut items = Vec::new(alloc);
    items.push(Item::Statement(Box::new(alloc, assignment(alloc)?)?))?;
    Ok(Script { items })
}

// The statement, x, the chain, y as an expression, its name, 1.
#[test]
fn numbers_stand_in_reading_order(rt: HostRuntime) {
    let wanted = script(rt.alloc()).expect(&rt, "memory");
    let read = parse(rt.alloc(), b"x = y + 1;").expect(&rt, "a script");
    assert!(rt; read == wanted);
}

#[test]
fn comparisons_do_not_chain(rt: HostRuntime) {
    is_equal(&rt, Operator::AtMost.level(), Level::Order);
    is_equal(&rt, Operator::Remainder.level(), Level::Product);
    assert!(rt; !repeats(Level::Order));
    assert!(rt; repeats(Level::Sum));
    is_equal(
        &rt,
        operator_of_kind(TokenKind::AtMost),
        Some(Operator::AtMost),
    );
    is_equal(&rt, operator_of_kind(TokenKind::Not), None);
    is_equal(&rt, base_of_kind(TokenKind::String), Some(Base::Text));
    is_equal(&rt, base_of_kind(TokenKind::Name), None);
}
