//! Each call of `emit_parts` on a plain case.

use crate::asserts::{boxed, holds, is_equal};
use crate::lists::two;
use crate::parts::flows::{array, call_part, computed, element, output, scalar, sum};
use emit_cells::cell_views::{note_seen, placed_seen};
use emit_cells::names::{named, own};
use emit_cells::needs::{PlainNeed, listed, note, note_name, place_of};
use emit_cells::operands::{all_placed, placed};
use emit_cells::operators::{operator, text};
use emit_cells::plain::{is_outer_plain, is_plain, local_node};
use flow::cell::{Cell, CellForm, OuterCell};
use flow::expression::{Expr, Operation};
use indexmap::IndexSet;
use std::alloc::Global;
use std::process::Abort;
use task_code::body_numbers::small;
use task_code::entry::{Name, Need, Owned, Variable};
use task_code::expr::{self, Operator};
use values::op::Sign;
use values::value::Scalar;

/// A datum of the block itself.
fn datum(node: u32, array: bool) -> Name {
    Name {
        up: 0,
        owned: Owned::Local(Variable { node, array }),
    }
}

/// No needs, in a box.
fn no_needs(rt: &impl Abort, alloc: Global) -> Box<IndexSet<PlainNeed>> {
    boxed(rt, alloc, IndexSet::new(alloc))
}

/// Notes a name.
fn notes(rt: &impl Abort, needs: &mut IndexSet<PlainNeed>, name: Name) {
    note_name(needs, name).expect(rt, "memory");
}

/// The needs of two names, each once.
fn needs_of(rt: &impl Abort, alloc: Global, first: Name, second: Name) -> Box<IndexSet<PlainNeed>> {
    let mut needs = no_needs(rt, alloc);
    notes(rt, &mut needs, first);
    notes(rt, &mut needs, second);
    notes(rt, &mut needs, first);
    needs
}

/// Returns true if these are the scalar of node 8 and the array of node 3.
fn are_both(needs: &[Need]) -> bool {
    match needs {
        [first, second] => is_stored(first, datum(8, false)) && is_closed(second, datum(3, true)),
        _ => false,
    }
}

/// The number of a constant.
fn number(placed: &expr::Expr) -> Option<i64> {
    match placed {
        expr::Expr::Constant(Scalar::Number(n)) => Some(*n),
        _ => None,
    }
}

/// The index of the need.
fn need(placed: &expr::Expr) -> Option<u32> {
    match placed {
        expr::Expr::Need(place) => Some(*place),
        _ => None,
    }
}

/// Returns true if this is a chain with one `+`.
fn is_one_plus(operator: &Operator) -> bool {
    match operator {
        Operator::Sum(signs) => signs.as_slice() == [Sign::Plus].as_slice(),
        _ => false,
    }
}

/// Returns true if these are the number 6 and the second need.
fn are_six_and_second(operands: &[expr::Expr]) -> bool {
    match operands {
        [left, right] => number(left) == Some(6) && need(right) == Some(1),
        _ => false,
    }
}

#[test]
fn names_become_those_of_code(rt: HostRuntime) {
    is_equal(&rt, small(7), 7);
    is_equal(&rt, small(4_294_967_296), 4_294_967_295);
    is_equal(&rt, own(4), datum(4, false));
    is_equal(&rt, named(2, array(5), true), datum(5, true));
    let behind_two_inputs = Name {
        up: 1,
        owned: Owned::Parameter(2, false),
    };
    is_equal(&rt, named(2, output(), false), behind_two_inputs);
    is_equal(&rt, local_node(scalar(3)), Some(3));
    is_equal(&rt, local_node(output()), None);
}

/// Returns true if the datum is needed once it is stored.
fn is_stored(need: &Need, datum: Name) -> bool {
    match need {
        Need::Stored(name) => *name == datum,
        _ => false,
    }
}

/// Returns true if the datum is needed once it is closed.
fn is_closed(need: &Need, datum: Name) -> bool {
    match need {
        Need::Closed(name) => *name == datum,
        _ => false,
    }
}

#[test]
fn a_name_is_wanted_stored_or_closed(rt: HostRuntime) {
    let one = PlainNeed::new(datum(3, false));
    is_equal(&rt, one.name(), datum(3, false));
    holds(&rt, is_stored(&one.need(), datum(3, false)));
    let all = PlainNeed::new(datum(4, true));
    holds(&rt, is_closed(&all.need(), datum(4, true)));
}

#[test]
fn needs_are_listed_once_in_their_order(rt: HostRuntime) {
    let needs = needs_of(&rt, rt.alloc(), datum(8, false), datum(3, true));
    is_equal(&rt, place_of(&needs, datum(8, false)), 0);
    is_equal(&rt, place_of(&needs, datum(3, true)), 1);
    let found = listed(rt.alloc(), &needs).expect(&rt, "memory");
    holds(&rt, are_both(found.as_slice()));
}

/// `6 + x`, of which `x` is the scalar of node 8.
fn six_and_eighth(rt: &impl Abort, alloc: Global) -> Box<Expr<Global>> {
    let expr = sum(alloc, Expr::Number(6), Expr::Name(scalar(8))).expect(rt, "memory");
    boxed(rt, alloc, expr)
}

/// The scalar of node 3, and then what the expression waits for.
fn needs_behind(rt: &impl Abort, alloc: Global, expr: &Expr<Global>) -> Box<IndexSet<PlainNeed>> {
    let mut needs = no_needs(rt, alloc);
    notes(rt, &mut needs, datum(3, false));
    note(&mut needs, 0, expr).expect(rt, "memory");
    needs
}

/// The expression over these needs.
fn over(
    rt: &impl Abort,
    alloc: Global,
    needs: &IndexSet<PlainNeed>,
    expr: &Expr<Global>,
) -> Box<expr::Expr> {
    let found = placed(alloc, needs, 0, expr).expect(rt, "memory");
    boxed(rt, alloc, found)
}

/// Returns true if this is the sum of the number 6 and the second need.
fn is_six_and_second(placed: &expr::Expr) -> bool {
    match placed {
        expr::Expr::Operation(operator, operands) => {
            is_one_plus(operator) && are_six_and_second(operands.as_slice())
        }
        _ => false,
    }
}

#[test]
fn an_expression_stands_over_its_needs(rt: HostRuntime) {
    let expr = six_and_eighth(&rt, rt.alloc());
    let needs = needs_behind(&rt, rt.alloc(), &expr);
    let found = over(&rt, rt.alloc(), &needs, &expr);
    holds(&rt, is_six_and_second(&found));
}

/// Expressions over these needs.
fn all_over(
    rt: &impl Abort,
    alloc: Global,
    needs: &IndexSet<PlainNeed>,
    exprs: &Vec<Expr<Global>>,
) -> Vec<expr::Expr> {
    all_placed(alloc, needs, 0, exprs).expect(rt, "memory")
}

#[test]
fn expressions_stand_in_their_order(rt: HostRuntime) {
    let both = two(rt.alloc(), Expr::Number(6), Expr::Name(scalar(8))).expect(&rt, "memory");
    let needs = needs_of(&rt, rt.alloc(), datum(3, false), datum(8, false));
    let all = all_over(&rt, rt.alloc(), &needs, &both);
    holds(&rt, are_six_and_second(all.as_slice()));
}

/// The operator of an operation, in a box.
fn operator_of(rt: &impl Abort, alloc: Global, operation: &Operation<Global>) -> Box<Operator> {
    let found = operator(alloc, operation).expect(rt, "memory");
    boxed(rt, alloc, found)
}

/// Returns true if this is `!`.
fn is_not(operator: &Operator) -> bool {
    matches!(operator, Operator::Not)
}

#[test]
fn operators_are_those_of_code(rt: HostRuntime) {
    let not = operator_of(&rt, rt.alloc(), &Operation::Not);
    holds(&rt, is_not(&not));
}

/// Returns true if this is the text.
fn is_text(scalar: &Scalar, bytes: &[u8]) -> bool {
    match scalar {
        Scalar::Text(found) => found.as_bytes() == bytes,
        _ => false,
    }
}

#[test]
fn texts_are_those_of_code(rt: HostRuntime) {
    let bytes = Vec::from_slice(rt.alloc(), b"abc").expect(&rt, "memory");
    let found = text(rt.alloc(), &bytes).expect(&rt, "memory");
    holds(&rt, is_text(&found, b"abc"));
}

/// A form in a box.
fn form(rt: &impl Abort, alloc: Global, expr: Expr<Global>) -> Box<CellForm<Global>> {
    boxed(rt, alloc, CellForm::Compute(expr))
}

/// Returns true if this is plain before any part.
fn is_plain_alone(alloc: Global, form: &CellForm<Global>) -> bool {
    is_plain(&Vec::new(alloc), 0, form)
}

#[test]
fn literals_and_names_are_plain(rt: HostRuntime) {
    let six = form(&rt, rt.alloc(), Expr::Number(6));
    holds(&rt, is_plain_alone(rt.alloc(), &six));
    let element = boxed(&rt, rt.alloc(), element());
    is_equal(&rt, is_plain_alone(rt.alloc(), &element.form), false);
}

/// A call, and the cell of the scalar of node 6 after it.
fn outer_behind_call(rt: &impl Abort, alloc: Global) -> Box<OuterCell<Global>> {
    let outer = OuterCell {
        parts: call_part(alloc).expect(rt, "memory"),
        cell: computed(7, Expr::Name(scalar(6))),
    };
    boxed(rt, alloc, outer)
}

#[test]
fn what_a_call_gives_is_not_plain_behind_it(rt: HostRuntime) {
    let outer = outer_behind_call(&rt, rt.alloc());
    let given = form(&rt, rt.alloc(), Expr::Name(scalar(5)));
    is_equal(&rt, is_plain(&outer.parts, 1, &given), false);
    holds(&rt, is_outer_plain(&outer));
}

/// The expressions of a plain cell and of another one.
fn seen(
    rt: &impl Abort,
    alloc: Global,
    plain: &Cell<Global>,
    other: &Cell<Global>,
) -> Box<IndexSet<PlainNeed>> {
    let mut needs = no_needs(rt, alloc);
    note_seen(&mut needs, 0, plain, true).expect(rt, "memory");
    note_seen(&mut needs, 0, other, false).expect(rt, "memory");
    needs
}

/// The index of the need that stands for another cell.
fn need_seen(
    rt: &impl Abort,
    alloc: Global,
    needs: &IndexSet<PlainNeed>,
    other: &Cell<Global>,
) -> Option<u32> {
    let found = placed_seen(alloc, needs, 0, other, false).expect(rt, "memory");
    need(&found)
}

#[test]
fn a_cell_is_seen_as_itself_or_as_what_it_is(rt: HostRuntime) {
    let plain = boxed(&rt, rt.alloc(), computed(7, Expr::Name(scalar(6))));
    let other = boxed(&rt, rt.alloc(), element());
    let needs = seen(&rt, rt.alloc(), &plain, &other);
    is_equal(&rt, place_of(&needs, datum(6, false)), 0);
    is_equal(&rt, place_of(&needs, datum(4, false)), 1);
    is_equal(&rt, need_seen(&rt, rt.alloc(), &needs, &other), Some(1));
}
