//! Tests if a comparison is to guard a division that is computed whatever the comparison is.
ghost use Rattle.std.specs.Prelude.{◌≡◌, None, map, option_map, slice_get};
ghost use Rattle.syntax_trees.specs.View.{expression_view, form_view};
ghost use Rattle.language.specs.Tree.{expressions_of};
ghost use Rattle.explain_warnings.specs.Guards as specs;

use crate::mistakes::forms::same_text;
use std::alloc::Allocator;
use syntax_trees::tree::{Expr, ExprKind, Operator};

/// Returns true for `%/` and `%%`.
pub fn is_division(operator: Operator) -> bool
    ensures { result ≡ specs.is_division operator }
{
    match operator {
        Operator::Quotient | Operator::Remainder => true,
        Operator::Or | Operator::And | Operator::Equal | Operator::NotEqual => false,
        Operator::Less | Operator::AtMost | Operator::Greater | Operator::AtLeast => false,
        Operator::Plus | Operator::Minus | Operator::Times => false,
    }
}

/// Returns true for the variable of this name.
fn is_variable<A: Allocator>(expr: &Expr<A>, name: &[u8]) -> bool
    ensures { result ≡ specs.is_variable name.now (expression_view expr.now) }
{
    form_is_variable(&expr.kind, name)
}

fn form_is_variable<A: Allocator>(kind: &ExprKind<A>, name: &[u8]) -> bool
    ensures { result ≡ specs.form_is_variable name.now (form_view kind.now) }
{
    match kind {
        ExprKind::Variable(variable) => same_text(variable.text.as_slice(), name),
        ExprKind::Number(_) | ExprKind::Text(_) | ExprKind::Truth(_) => false,
        ExprKind::Element(_, _) | ExprKind::Call(_, _) => false,
        ExprKind::Prefixed(_, _) | ExprKind::Chain(_, _) => false,
    }
}

/// Returns true if the operator at a place divides, and its operand is the variable of this name.
fn is_divisor<A: Allocator>(
    operators: &[Operator],
    place: usize,
    operand: &Expr<A>,
    name: &[u8],
) -> bool
    ensures { result ≡ specs.is_divisor name.now (slice_get operators.now place) (expression_view operand.now) }
{
    match operators.get(place) {
        None => false,
        Some(operator) => is_division(*operator) && is_variable(operand, name),
    }
}

/// Returns true if one of these operands is the variable of this name, and the operator at the same place divides.
fn divided_from<A: Allocator>(operators: &[Operator], operands: &[Expr<A>], name: &[u8]) -> bool
    ensures { result ≡ specs.divided_from name.now operators.now 0 (expressions_of (map expression_view operands.now)) }
{
    for i in 0..operands.len() {
        if is_divisor(operators, i, &operands[i], name) {
            return true;
        }
    }
    false
}

/// Returns true if a chain divides by the variable of this name. Its first operand has no operator.
fn divided_by<A: Allocator>(operators: &[Operator], operands: &[Expr<A>], name: &[u8]) -> bool
    ensures { result ≡ specs.divided_by name.now operators.now (expressions_of (map expression_view operands.now)) }
{
    match operands {
        [] => false,
        [_, others @ ..] => divided_from(operators, others, name),
    }
}

/// Returns true if an expression divides by the variable of this name.
#[cycle(divide)]
fn divides<A: Allocator>(expr: &Expr<A>, name: &[u8]) -> bool
    ensures { result ≡ specs.divides name.now (expression_view expr.now) }
{
    form_divides(&expr.kind, name)
}

#[cycle(divide)]
fn form_divides<A: Allocator>(kind: &ExprKind<A>, name: &[u8]) -> bool
    ensures { result ≡ specs.form_divides name.now (form_view kind.now) }
{
    match kind {
        ExprKind::Number(_) | ExprKind::Text(_) | ExprKind::Truth(_) => false,
        ExprKind::Variable(_) => false,
        ExprKind::Element(_, index) => divides(index, name),
        ExprKind::Call(_, arguments) => some_divides(arguments, name),
        ExprKind::Prefixed(_, operand) => divides(operand, name),
        ExprKind::Chain(operators, operands) => {
            divided_by(operators.as_slice(), operands.as_slice(), name)
                || some_divides(operands, name)
        }
    }
}

/// Returns true if one of the expressions divides by the variable of this name.
#[cycle(divide)]
fn some_divides<A: Allocator>(exprs: &Vec<Expr<A>, A>, name: &[u8]) -> bool
    ensures { result ≡ specs.some_divides name.now (expressions_of (map expression_view exprs.now.items)) }
{
    for expr in exprs {
        if divides(expr, name) {
            return true;
        }
    }
    false
}

/// Returns true for the literal 0.
pub fn is_zero<A: Allocator>(expr: &Expr<A>) -> bool
    ensures { result ≡ specs.is_zero (expression_view expr.now) }
{
    form_is_zero(&expr.kind)
}

fn form_is_zero<A: Allocator>(kind: &ExprKind<A>) -> bool
    ensures { result ≡ specs.form_is_zero (form_view kind.now) }
{
    match kind {
        ExprKind::Number(number) => *number == 0,
        ExprKind::Text(_) | ExprKind::Truth(_) | ExprKind::Variable(_) => false,
        ExprKind::Element(_, _) | ExprKind::Call(_, _) => false,
        ExprKind::Prefixed(_, _) | ExprKind::Chain(_, _) => false,
    }
}

/// Returns true if an operand is a variable, and the next operand divides by it.
fn divides_next<A: Allocator>(next: &Expr<A>, operand: &Expr<A>) -> bool
    ensures { result ≡ specs.divides_next (expression_view next.now) (expression_view operand.now) }
{
    form_divides_next(next, &operand.kind)
}

fn form_divides_next<A: Allocator>(next: &Expr<A>, kind: &ExprKind<A>) -> bool
    ensures { result ≡ specs.form_divides_next (expression_view next.now) (form_view kind.now) }
{
    match kind {
        ExprKind::Variable(variable) => divides(next, variable.text.as_slice()),
        ExprKind::Number(_) | ExprKind::Text(_) | ExprKind::Truth(_) => false,
        ExprKind::Element(_, _) | ExprKind::Call(_, _) => false,
        ExprKind::Prefixed(_, _) | ExprKind::Chain(_, _) => false,
    }
}

/// Returns true if one of two compared operands is 0, and the next operand divides by the other one.
fn compares<A: Allocator>(next: &Expr<A>, left: &Expr<A>, right: &Expr<A>) -> bool
    ensures { result ≡ specs.compares (expression_view next.now) (expression_view left.now) (expression_view right.now) }
{
    (is_zero(right) && divides_next(next, left)) || (is_zero(left) && divides_next(next, right))
}

/// Returns true for `!=` in a chain of `&&`, and for `==` in one of `||`.
fn fits(connective: Operator, comparison: Operator) -> bool
    ensures { result ≡ specs.fits connective comparison }
{
    match (connective, comparison) {
        (Operator::And, Operator::NotEqual) | (Operator::Or, Operator::Equal) => true,
        _ => false,
    }
}

/// Returns true if the first of these operators fits the connective.
fn first_fits(connective: Operator, operators: &[Operator]) -> bool
    ensures { result ≡ specs.some_fits connective (slice_get operators.now 0) }
{
    match operators.get(0) {
        None => false,
        Some(operator) => fits(connective, *operator),
    }
}

/// Returns true if one of the first two operands is 0, and the next operand divides by the other one.
fn operands_compare<A: Allocator>(next: &Expr<A>, operands: &[Expr<A>]) -> bool
    ensures { result ≡ specs.operands_compare (expression_view next.now) (expressions_of (map expression_view operands.now)) }
{
    match operands {
        [] => false,
        [left, others @ ..] => right_compares(next, left, others),
    }
}

fn right_compares<A: Allocator>(next: &Expr<A>, left: &Expr<A>, operands: &[Expr<A>]) -> bool
    ensures { result ≡ specs.right_compares (expression_view next.now) (expression_view left.now)
        (expressions_of (map expression_view operands.now)) }
{
    match operands {
        [] => false,
        [right, ..] => compares(next, left, right),
    }
}

/// Returns true for a comparison that is to guard the next operand of a chain.
fn is_guard<A: Allocator>(connective: Operator, next: &Expr<A>, operand: &Expr<A>) -> bool
    ensures { result ≡ specs.is_guard connective (expression_view next.now) (expression_view operand.now) }
{
    form_is_guard(connective, next, &operand.kind)
}

fn form_is_guard<A: Allocator>(connective: Operator, next: &Expr<A>, kind: &ExprKind<A>) -> bool
    ensures { result ≡ specs.form_is_guard connective (expression_view next.now) (form_view kind.now) }
{
    match kind {
        ExprKind::Number(_) | ExprKind::Text(_) | ExprKind::Truth(_) => false,
        ExprKind::Variable(_) | ExprKind::Element(_, _) => false,
        ExprKind::Call(_, _) | ExprKind::Prefixed(_, _) => false,
        ExprKind::Chain(operators, operands) => {
            first_fits(connective, operators.as_slice())
                && operands_compare(next, operands.as_slice())
        }
    }
}

/// Returns true if the operand before, if there is one, is to guard this one.
fn guarded_by<A: Allocator>(
    connective: Operator,
    before: Option<&Expr<A>>,
    operand: &Expr<A>,
) -> bool
    ensures { result ≡ specs.guarded_by connective (option_map (λ e. expression_view e.now) before.entry) (expression_view operand.now) }
{
    match before {
        None => false,
        Some(before) => is_guard(connective, operand, before),
    }
}

/// Returns true if one of the operands of a chain is to be guarded by the operand before it.
fn some_guarded<A: Allocator>(connective: Operator, operands: &[Expr<A>]) -> bool
    ensures { result ≡ specs.some_guarded connective None (expressions_of (map expression_view operands.now)) }
{
    let mut before: Option<&Expr<A>> = None;
    for operand in operands {
        if guarded_by(connective, before, operand) {
            return true;
        }
        before = Some(operand);
    }
    false
}

/// Returns true for a chain of which one operand is to guard the next.
pub fn guards_nothing<A: Allocator>(kind: &ExprKind<A>) -> bool
    ensures { result ≡ specs.guards_nothing (form_view kind.now) }
{
    match kind {
        ExprKind::Number(_) | ExprKind::Text(_) | ExprKind::Truth(_) => false,
        ExprKind::Variable(_) | ExprKind::Element(_, _) => false,
        ExprKind::Call(_, _) | ExprKind::Prefixed(_, _) => false,
        ExprKind::Chain(operators, operands) => {
            chain_guards(operators.as_slice(), operands.as_slice())
        }
    }
}

fn chain_guards<A: Allocator>(operators: &[Operator], operands: &[Expr<A>]) -> bool
    ensures { result ≡ specs.chain_guards (slice_get operators.now 0) (expressions_of (map expression_view operands.now)) }
{
    match operators.get(0) {
        None => false,
        Some(connective) => some_guarded(*connective, operands),
    }
}
