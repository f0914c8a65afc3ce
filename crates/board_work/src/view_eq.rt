//! Equality of entries and of answers by content.
//!
//! Two values are equal if they have the same meaning, wherever they are in memory. A shared entry, text or map is
//! compared by its content.
ghost use Rattle.std.specs.Prelude.{◌≡◌, List, Bool, map};
ghost use Rattle.std.specs.Arc.{arc_value};
ghost use lib.Pointwise.{pointwise};
ghost use Rattle.values.specs.declared.key.Key.{Key as PureKey};
ghost use Rattle.values.specs.declared.value.Scalar.{Scalar as PureScalar};
ghost use Rattle.values.specs.Operators.{Operation};
ghost use Rattle.task_code.specs.Code as Pure;
ghost use Rattle.task_code.specs.Places.{name_eq};
ghost use Rattle.task_code.specs.View.{name_view, need_view, argument_view, loop_view, header_view, act_view, entry_view, expr_view, exprs_view, operation_view};
ghost use Rattle.board_work.specs.Same.{scalar_eq, need_eq, argument_eq, loop_eq, header_eq, operation_eq, expr_eq, exprs_eq, act_eq, entry_eq, element_eq};

use task_code::entry::{Act, Argument, Entry, Header, Loop, Name, Need};
use task_code::expr::{Expr, Operator};
use values::map::Element;
use values::value::Scalar;

/// Returns true if two entries are equal by content. Allocates no memory.
pub fn is_same_entry(one: &Entry, other: &Entry) -> bool
    ensures { result ≡ entry_eq (entry_view one.now) (entry_view other.now) }
{
    one.is_same(other)
}

/// Types that can be compared by their meaning.
pub(crate) trait ViewEq {
    ghost Meaning: { Type 0 };

    ghost meaning: { Self → Meaning };

    ghost same: { Meaning → Meaning → Bool };

    /// Returns true if both have the same meaning.
    fn is_same(&self, other: &Self) -> bool
        ensures { result ≡ same (meaning self.now) (meaning other.now) };
}

impl<T: ViewEq> ViewEq for Vec<T> {
    ghost Meaning = { List T.Meaning };

    ghost meaning = { λ xs. map T.meaning xs.items };

    ghost same = { pointwise T.same };

    fn is_same(&self, other: &Vec<T>) -> bool {
        all_same(self.as_slice(), other.as_slice())
    }
}

/// Returns true if both slices have the same length and equal elements at each index.
pub(crate) fn all_same<T: ViewEq>(ones: &[T], others: &[T]) -> bool
    ensures { result ≡ pointwise T.same (map T.meaning ones.now) (map T.meaning others.now) }
{
    let mut rest = others;
    for one in ones {
        match rest {
            [other, left @ ..] if one.is_same(other) => rest = left,
            _ => return false,
        }
    }
    rest.is_empty()
}

impl ViewEq for Scalar {
    ghost Meaning = { PureScalar };

    ghost meaning = { λ v. v };

    ghost same = { scalar_eq };

    fn is_same(&self, other: &Scalar) -> bool {
        match (self, other) {
            (Scalar::Number(a), Scalar::Number(b)) => a == b,
            (Scalar::Truth(a), Scalar::Truth(b)) => a == b,
            (Scalar::Text(a), Scalar::Text(b)) => a.as_bytes() == b.as_bytes(),
            _ => false,
        }
    }
}

impl ViewEq for Name {
    ghost Meaning = { Pure.Name };

    ghost meaning = { name_view };

    ghost same = { name_eq };

    fn is_same(&self, other: &Name) -> bool {
        self == other
    }
}

impl ViewEq for Need {
    ghost Meaning = { Pure.Need };

    ghost meaning = { need_view };

    ghost same = { need_eq };

    fn is_same(&self, other: &Need) -> bool {
        match (self, other) {
            (Need::Stored(a), Need::Stored(b)) => a == b,
            (Need::Closed(a), Need::Closed(b)) => a == b,
            (Need::At(a, i), Need::At(b, j)) => a == b && i == j,
            (Need::AtKey(a, i), Need::AtKey(b, j)) => a == b && i.is_same(j),
            _ => false,
        }
    }
}

impl ViewEq for Argument {
    ghost Meaning = { Pure.Argument };

    ghost meaning = { argument_view };

    ghost same = { argument_eq };

    fn is_same(&self, other: &Argument) -> bool {
        match (self, other) {
            (Argument::Named(a), Argument::Named(b)) => a == b,
            (Argument::Fixed(a), Argument::Fixed(b)) => a.is_same(b),
            _ => false,
        }
    }
}

impl ViewEq for Loop {
    ghost Meaning = { Pure.Loop };

    ghost meaning = { loop_view };

    ghost same = { loop_eq };

    fn is_same(&self, other: &Loop) -> bool {
        self == other
    }
}

impl ViewEq for Header {
    ghost Meaning = { Pure.Header };

    ghost meaning = { header_view };

    ghost same = { header_eq };

    fn is_same(&self, other: &Header) -> bool {
        self.at == other.at && self.needs.is_same(&other.needs)
    }
}

impl ViewEq for Operator {
    ghost Meaning = { Operation };

    ghost meaning = { operation_view };

    ghost same = { operation_eq };

    fn is_same(&self, other: &Operator) -> bool {
        match (self, other) {
            (Operator::Sum(a), Operator::Sum(b)) => a.as_slice() == b.as_slice(),
            (Operator::Product(a), Operator::Product(b)) => a.as_slice() == b.as_slice(),
            (Operator::Compare(a), Operator::Compare(b)) => a == b,
            (Operator::Printf(a), Operator::Printf(b)) => a.pieces() == b.pieces(),
            (Operator::Equal, Operator::Equal)
            | (Operator::Unequal, Operator::Unequal)
            | (Operator::And, Operator::And)
            | (Operator::Or, Operator::Or)
            | (Operator::Not, Operator::Not)
            | (Operator::Negate, Operator::Negate)
            | (Operator::Join, Operator::Join)
            | (Operator::FromInt, Operator::FromInt)
            | (Operator::ToInt, Operator::ToInt)
            | (Operator::Size, Operator::Size)
            | (Operator::Assert, Operator::Assert)
            | (Operator::Literal, Operator::Literal) => true,
            _ => false,
        }
    }
}

/// Returns true if both expressions are equal.
#[cycle(same)]
fn is_same_expr(one: &Expr, other: &Expr) -> bool
    ensures { result ≡ expr_eq (expr_view one.now) (expr_view other.now) }
{
    match (one, other) {
        (Expr::Constant(a), Expr::Constant(b)) => a.is_same(b),
        (Expr::Need(a), Expr::Need(b)) => a == b,
        (Expr::Operation(a, xs), Expr::Operation(b, ys)) => a.is_same(b) && are_same_exprs(xs, ys),
        _ => false,
    }
}

/// Returns true if both lists have the same length and equal expressions at each index.
#[cycle(same)]
fn are_same_exprs(ones: &Vec<Expr>, others: &Vec<Expr>) -> bool
    ensures { result ≡ exprs_eq (exprs_view ones.now.items) (exprs_view others.now.items) }
{
    let mut rest = others.as_slice();
    for one in ones {
        match rest {
            [other, left @ ..] if is_same_expr(one, other) => rest = left,
            _ => return false,
        }
    }
    rest.is_empty()
}

impl ViewEq for Act {
    ghost Meaning = { Pure.Act };

    ghost meaning = { act_view };

    ghost same = { act_eq };

    fn is_same(&self, other: &Act) -> bool {
        match (self, other) {
            (Act::Cell(a), Act::Cell(b)) => is_same_expr(a, b),
            (Act::Read, Act::Read) => true,
            (
                Act::Call {
                    body: a,
                    inputs: xs,
                    outputs: rs,
                },
                Act::Call {
                    body: b,
                    inputs: ys,
                    outputs: ss,
                },
            ) => a == b && xs.is_same(ys) && rs.is_same(ss),
            (Act::Set(a, x), Act::Set(b, y)) => a == b && is_same_expr(x, y),
            (Act::Fill(a, xs), Act::Fill(b, ys)) => a == b && are_same_exprs(xs, ys),
            (Act::Copy(a), Act::Copy(b)) => a == b,
            (Act::InsertElement(a, i, x), Act::InsertElement(b, j, y)) => {
                a == b && is_same_expr(i, j) && is_same_expr(x, y)
            }
            (Act::Print(a), Act::Print(b)) => is_same_expr(a, b),
            (Act::Assert(a), Act::Assert(b)) => is_same_expr(a, b),
            (Act::If(a, b, c), Act::If(d, e, f)) => is_same_expr(a, d) && b == e && c == f,
            (Act::Range(a, b, c, x), Act::Range(d, e, f, y)) => {
                is_same_expr(a, d) && is_same_expr(b, e) && is_same_expr(c, f) && x == y
            }
            (Act::Each(a), Act::Each(b)) => a == b,
            (Act::Wait(a, x), Act::Wait(b, y)) => a.is_same(b) && x == y,
            _ => false,
        }
    }
}

impl ViewEq for Entry {
    ghost Meaning = { Pure.Entry };

    ghost meaning = { entry_view };

    ghost same = { entry_eq };

    fn is_same(&self, other: &Entry) -> bool {
        self.node == other.node
            && self.at == other.at
            && self.offset == other.offset
            && self.priority == other.priority
            && self.needs.is_same(&other.needs)
            && self.act.is_same(&other.act)
            && self.reads.is_same(&other.reads)
            && self.writes.is_same(&other.writes)
    }
}

impl ViewEq for Element {
    ghost Meaning = { PureKey × PureScalar };

    ghost meaning = { λ e. (e.key, e.value) };

    ghost same = { element_eq };

    fn is_same(&self, other: &Element) -> bool {
        self.key.is_same(&other.key) && self.value.is_same(&other.value)
    }
}
