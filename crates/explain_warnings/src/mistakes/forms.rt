//! Tests of forms that are certainly mistakes: literals of ranges, formats and conditions.
ghost use Rattle.std.specs.Prelude.{◌≡◌, option_map};
ghost use Rattle.std.specs.Str.{bytes_eq};
ghost use Rattle.syntax_trees.specs.View.{expression_view, form_view};
ghost use Rattle.explain_warnings.specs.Forms as specs;

use std::alloc::Allocator;
use syntax_trees::tree::{Expr, ExprKind, Prefix};

/// Returns true if two texts are equal.
pub fn same_text(one: &[u8], other: &[u8]) -> bool
    ensures { result ≡ bytes_eq one.now other.now }
{
    one == other
}

/// Returns the value of a number literal, or `None` for any other expression.
pub fn literal<A: Allocator>(expr: &Expr<A>) -> Option<i64>
    ensures { result ≡ specs.literal (expression_view expr.now) }
{
    form_literal(&expr.kind)
}

fn form_literal<A: Allocator>(kind: &ExprKind<A>) -> Option<i64>
    ensures { result ≡ specs.form_literal (form_view kind.now) }
{
    match kind {
        ExprKind::Number(number) => Some(*number),
        ExprKind::Text(_) | ExprKind::Truth(_) | ExprKind::Variable(_) => None,
        ExprKind::Element(_, _) | ExprKind::Call(_, _) => None,
        ExprKind::Prefixed(_, _) | ExprKind::Chain(_, _) => None,
    }
}

/// Returns true if both values are present and the first one is less.
fn is_below(high: Option<i64>, low: Option<i64>) -> bool
    ensures { result ≡ specs.is_below high low }
{
    match high {
        None => false,
        Some(high) => match low {
            None => false,
            Some(low) => high < low,
        },
    }
}

/// Returns true if a step is missing, or is a number literal above 0.
fn goes_up<A: Allocator>(step: &Option<Expr<A>>) -> bool
    ensures { result ≡ specs.goes_up (option_map expression_view step.now) }
{
    match step {
        None => true,
        Some(step) => is_below(Some(0), literal(step)),
    }
}

/// Returns true if a range is empty by its literals.
pub fn is_empty<A: Allocator>(low: &Expr<A>, high: &Expr<A>, step: &Option<Expr<A>>) -> bool
    ensures { result ≡ specs.is_empty (expression_view low.now) (expression_view high.now) (option_map expression_view step.now) }
{
    is_below(literal(high), literal(low)) && goes_up(step)
}

fn is_negative(prefix: Prefix) -> bool
    ensures { result ≡ specs.is_negative prefix }
{
    match prefix {
        Prefix::Not => false,
        Prefix::Negative => true,
    }
}

/// Returns true for a number literal below 1, or with a minus sign.
pub fn below_one<A: Allocator>(expr: &Expr<A>) -> bool
    ensures { result ≡ specs.below_one (expression_view expr.now) }
{
    form_below_one(&expr.kind)
}

fn form_below_one<A: Allocator>(kind: &ExprKind<A>) -> bool
    ensures { result ≡ specs.form_below_one (form_view kind.now) }
{
    match kind {
        ExprKind::Number(number) => *number < 1,
        ExprKind::Text(_) | ExprKind::Truth(_) | ExprKind::Variable(_) => false,
        ExprKind::Element(_, _) | ExprKind::Call(_, _) | ExprKind::Chain(_, _) => false,
        ExprKind::Prefixed(prefix, operand) => is_negative(*prefix) && literal(operand).is_some(),
    }
}

/// Returns true for a string literal whose last byte is a line end.
fn form_ends_line<A: Allocator>(kind: &ExprKind<A>) -> bool
    ensures { result ≡ specs.form_ends_line (form_view kind.now) }
{
    match kind {
        ExprKind::Text(bytes) => ends_line(bytes.as_slice()),
        ExprKind::Number(_) | ExprKind::Truth(_) | ExprKind::Variable(_) => false,
        ExprKind::Element(_, _) | ExprKind::Call(_, _) => false,
        ExprKind::Prefixed(_, _) | ExprKind::Chain(_, _) => false,
    }
}

/// Returns true if the last byte is a line end.
fn ends_line(bytes: &[u8]) -> bool
    ensures { result ≡ specs.ends_line bytes.now }
{
    match bytes.last() {
        None => false,
        Some(last) => *last == b'\n',
    }
}

/// Returns true if this is a `printf` with a format that ends with a line end.
pub fn is_extra_line<A: Allocator>(function: &[u8], argument: &Expr<A>) -> bool
    ensures { result ≡ specs.is_extra_line function.now (expression_view argument.now) }
{
    same_text(function, b"printf".as_slice()) && form_ends_line(&argument.kind)
}

/// Returns true for the literal `true`.
fn form_is_true<A: Allocator>(kind: &ExprKind<A>) -> bool
    ensures { result ≡ specs.form_is_true (form_view kind.now) }
{
    match kind {
        ExprKind::Truth(truth) => *truth,
        ExprKind::Number(_) | ExprKind::Text(_) | ExprKind::Variable(_) => false,
        ExprKind::Element(_, _) | ExprKind::Call(_, _) => false,
        ExprKind::Prefixed(_, _) | ExprKind::Chain(_, _) => false,
    }
}

/// Returns true if this is an `assert` of the literal `true`.
pub fn always_holds<A: Allocator>(function: &[u8], argument: &Expr<A>) -> bool
    ensures { result ≡ specs.always_holds function.now (expression_view argument.now) }
{
    same_text(function, b"assert".as_slice()) && form_is_true(&argument.kind)
}
