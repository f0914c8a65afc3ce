//! Each call of `part_entries` on a plain case: `y = A[6] + f(A[6])` and its parts.

use crate::asserts::{boxed, holds, is_equal};
use crate::lists::{one, put};
use crate::parts::flows::{array, call, computed, element, element_parts, functions, scalar, sum};
use emit_cells::cells::{self, handed, pass_cell, pass_parts};
use emit_cells::data::{add_data, add_scalar};
use emit_cells::entries::{EntryOrigin, StatementContext, entry, push_entry};
use emit_cells::layout::add_parts;
use emit_cells::outers::{add_outer, pass_outer};
use emit_cells::own_cells::{add_outer_data, add_own_data, add_own_outer};
use emit_cells::parts::{add_call, add_cell};
use flow::cell::{Call, Cell, CellPart, OuterCell};
use flow::expression::Expr;
use indexmap::{IndexMap, IndexSet};
use std::alloc::{AllocError, Global};
use std::process::Abort;
use task_code::entry::{Act, Argument, Entry, Name, Need, Owned, Variable};
use values::key::Key;
use values::value::Scalar;

const STANDING: StatementContext = StatementContext {
    at: 8,
    priority: 3,
    inputs: 0,
};

/// The arguments that are passed, by the nodes of cells.
type Passed = IndexMap<u32, Argument>;

/// A datum of the block itself.
fn datum(node: u32, array: bool) -> Name {
    Name {
        up: 0,
        owned: Owned::Local(Variable { node, array }),
    }
}

/// The act of an entry, as a letter.
fn letter(act: &Act) -> u8 {
    match act {
        Act::Cell(_) => b'c',
        Act::Read => b'r',
        Act::Call { .. } => b'f',
        _ => b'-',
    }
}

/// The acts of entries, as letters.
fn letters(alloc: Global, entries: &[Entry]) -> Result<Vec<u8>, AllocError> {
    let mut found = Vec::new(alloc);
    for entry in entries {
        found.push(letter(&entry.act))?;
    }
    Ok(found)
}

/// `A[6] + f(A[6])`, but for the sum itself
fn parts(alloc: Global) -> Result<Vec<CellPart<Global>>, AllocError> {
    let mut parts = element_parts(alloc)?;
    let call = call(alloc)?;
    put(&mut parts, CellPart::Calls(call))?;
    Ok(parts)
}

/// An outermost cell with the parts inside it, in a box.
fn outer_of(
    rt: &impl Abort,
    alloc: Global,
    parts: Vec<CellPart<Global>>,
    cell: Cell<Global>,
) -> Box<OuterCell<Global>> {
    boxed(rt, alloc, OuterCell { parts, cell })
}

/// `A[6] + f(A[6])`
fn outer(rt: &impl Abort, alloc: Global) -> Box<OuterCell<Global>> {
    let parts = parts(alloc).expect(rt, "memory");
    let expr = sum(alloc, Expr::Name(scalar(4)), Expr::Name(scalar(5))).expect(rt, "memory");
    outer_of(rt, alloc, parts, computed(7, expr))
}

/// `A[6]`
fn read(rt: &impl Abort, alloc: Global) -> Box<OuterCell<Global>> {
    let index = CellPart::Inner(computed(3, Expr::Number(6)));
    let parts = one(alloc, index).expect(rt, "memory");
    outer_of(rt, alloc, parts, element())
}

/// A call in a box.
fn own_call(rt: &impl Abort, alloc: Global) -> Box<Call<Global>> {
    let call = call(alloc).expect(rt, "memory");
    boxed(rt, alloc, call)
}

/// Returns true if this is the element of the array of node 1 at the key 6.
fn is_sixth(need: &Need) -> bool {
    match need {
        Need::AtKey(name, Key::Number(n)) => *name == datum(1, true) && *n == 6,
        _ => false,
    }
}

/// No argument is passed.
fn none_passed(rt: &impl Abort, alloc: Global) -> Box<Passed> {
    boxed(rt, alloc, IndexMap::new(alloc))
}

/// The arguments passed for the parts.
fn passed_parts(rt: &impl Abort, alloc: Global, parts: &Vec<CellPart<Global>>) -> Box<Passed> {
    let mut passed = none_passed(rt, alloc);
    pass_parts(alloc, &mut passed, 0, parts).expect(rt, "memory");
    passed
}

/// The arguments passed for an outermost cell and its parts.
fn passed_outer(rt: &impl Abort, alloc: Global, outer: &OuterCell<Global>) -> Box<Passed> {
    let mut passed = none_passed(rt, alloc);
    pass_outer(alloc, &mut passed, 0, outer).expect(rt, "memory");
    passed
}

/// The argument passed for the cell of node 9, the number 5.
fn passed_five(rt: &impl Abort, alloc: Global) -> Box<Passed> {
    let cell = boxed(rt, alloc, computed(9, Expr::Number(5)));
    let mut passed = none_passed(rt, alloc);
    pass_cell(alloc, &mut passed, 0, &cell, true).expect(rt, "memory");
    passed
}

/// The number, if the value is one.
fn number(argument: &Option<Argument>) -> Option<i64> {
    match argument {
        Some(Argument::Fixed(Scalar::Number(n))) => Some(*n),
        _ => None,
    }
}

/// The number that is passed for the cell of a node, if one is.
fn handed_number(rt: &impl Abort, passed: &Passed, node: u32) -> Option<i64> {
    let found = handed(passed, node).expect(rt, "memory");
    number(&found)
}

#[test]
fn literals_are_handed_over_for_themselves(rt: HostRuntime) {
    let passed = passed_five(&rt, rt.alloc());
    is_equal(&rt, handed_number(&rt, &passed, 9), Some(5));
    is_equal(&rt, handed_number(&rt, &passed, 2), None);
}

#[test]
fn an_element_is_at_its_index(rt: HostRuntime) {
    let parts = element_parts(rt.alloc()).expect(&rt, "memory");
    let passed = passed_parts(&rt, rt.alloc(), &parts);
    is_equal(&rt, handed_number(&rt, &passed, 3), Some(6));
    let need = cells::element(&passed, datum(1, true), 3).expect(&rt, "memory");
    holds(&rt, is_sixth(&need));
}

/// The entry of an element, in a box.
fn element_entry(rt: &impl Abort, alloc: Global) -> Box<Entry> {
    let shown = EntryOrigin {
        node: 4,
        offset: 14,
    };
    let made = entry(alloc, STANDING, shown, Vec::new(alloc), Act::Read);
    boxed(rt, alloc, made)
}

#[test]
fn an_entry_stands_as_its_statement(rt: HostRuntime) {
    let made = element_entry(&rt, rt.alloc());
    is_equal(
        &rt,
        (made.node, made.at, made.offset, made.priority),
        (4, 8, 14, 3),
    );
}

/// An entry without needs.
fn put_read(alloc: Global) -> Result<Vec<Entry>, AllocError> {
    let needs = IndexSet::new(alloc);
    let mut entries = Vec::new(alloc);
    let shown = EntryOrigin {
        node: 4,
        offset: 14,
    };
    push_entry(alloc, &mut entries, STANDING, shown, &needs, Act::Read)?;
    Ok(entries)
}

/// The entries of the sum and its parts.
fn sum_entries(rt: &impl Abort, alloc: Global, outer: &OuterCell<Global>) -> Vec<Entry> {
    let functions = functions(alloc).expect(rt, "memory");
    let passed = passed_outer(rt, alloc, outer);
    let mut entries = Vec::new(alloc);
    add_outer(alloc, &mut entries, &functions, STANDING, &passed, outer).expect(rt, "memory");
    entries
}

/// The entries of the cells that a statement does not compute itself.
fn own_entries(rt: &impl Abort, alloc: Global, outer: &OuterCell<Global>) -> Vec<Entry> {
    let functions = functions(alloc).expect(rt, "memory");
    let passed = passed_outer(rt, alloc, outer);
    let mut entries = Vec::new(alloc);
    add_own_outer(alloc, &mut entries, &functions, STANDING, &passed, outer).expect(rt, "memory");
    entries
}

/// Adds the entry of an element.
fn add_element(alloc: Global, entries: &mut Vec<Entry>, passed: &Passed) -> Result<(), AllocError> {
    add_cell(alloc, entries, STANDING, passed, &element())
}

/// The entries of an element and its index, of the element again, and of a call.
fn part_entries(
    rt: &impl Abort,
    alloc: Global,
    parts: &Vec<CellPart<Global>>,
    call: &Call<Global>,
) -> Vec<Entry> {
    let functions = functions(alloc).expect(rt, "memory");
    let passed = passed_parts(rt, alloc, parts);
    let mut entries = Vec::new(alloc);
    add_parts(alloc, &mut entries, &functions, STANDING, &passed, parts).expect(rt, "memory");
    add_element(alloc, &mut entries, &passed).expect(rt, "memory");
    add_call(alloc, &mut entries, &functions, STANDING, &passed, call).expect(rt, "memory");
    entries
}

/// Returns true if the entry reads the sixth element, or calls the function as it is to.
fn is_right(entry: &Entry) -> bool {
    match &entry.act {
        Act::Read => entry.needs.iter().all(is_sixth),
        Act::Call {
            body,
            inputs,
            outputs,
        } => *body == 1
            && is_fourth(inputs.as_slice())
            && outputs.as_slice() == [datum(5, false)].as_slice(),
        _ => true,
    }
}

/// Returns true if each of the entries does.
fn are_right(entries: &[Entry]) -> bool {
    entries.iter().all(is_right)
}

/// Returns true if this is the scalar of node 4 alone.
fn is_fourth(inputs: &[Argument]) -> bool {
    match inputs {
        [Argument::Named(name)] => *name == datum(4, false),
        _ => false,
    }
}

/// The entries do this, in letters.
fn do_these(rt: &impl Abort, alloc: Global, entries: &[Entry], wanted: &[u8]) {
    let found = letters(alloc, entries).expect(rt, "memory");
    is_equal(rt, found.as_slice(), wanted);
}

#[test]
fn an_entry_is_put_behind_the_others(rt: HostRuntime) {
    let entries = put_read(rt.alloc()).expect(&rt, "memory");
    do_these(&rt, rt.alloc(), entries.as_slice(), b"r");
}

#[test]
fn cells_and_calls_have_their_entries(rt: HostRuntime) {
    let outer = outer(&rt, rt.alloc());
    let entries = sum_entries(&rt, rt.alloc(), &outer);
    do_these(&rt, rt.alloc(), entries.as_slice(), b"rfc");
    holds(&rt, are_right(entries.as_slice()));
}

/// The entries of parts and of a call, each added alone.
fn entries_alone(rt: &impl Abort, alloc: Global) -> Vec<Entry> {
    let parts = element_parts(alloc).expect(rt, "memory");
    let call = own_call(rt, alloc);
    part_entries(rt, alloc, &parts, &call)
}

#[test]
fn parts_are_added_each_alone(rt: HostRuntime) {
    let entries = entries_alone(&rt, rt.alloc());
    do_these(&rt, rt.alloc(), entries.as_slice(), b"rrf");
}

#[test]
fn a_statement_works_out_its_own_sum(rt: HostRuntime) {
    let outer = outer(&rt, rt.alloc());
    let entries = own_entries(&rt, rt.alloc(), &outer);
    do_these(&rt, rt.alloc(), entries.as_slice(), b"rf");
}

#[test]
fn an_element_is_read_before_its_statement(rt: HostRuntime) {
    let outer = read(&rt, rt.alloc());
    let entries = own_entries(&rt, rt.alloc(), &outer);
    do_these(&rt, rt.alloc(), entries.as_slice(), b"r");
}

/// The data of node 2 and of parts.
fn part_data(alloc: Global, parts: &Vec<CellPart<Global>>) -> Result<Vec<Variable>, AllocError> {
    let mut makes = Vec::new(alloc);
    add_scalar(&mut makes, 2)?;
    add_data(&mut makes, parts)?;
    Ok(makes)
}

/// The data of an outermost cell, also where its statement computes it itself.
fn outer_data(alloc: Global, outer: &OuterCell<Global>) -> Result<Vec<Variable>, AllocError> {
    let mut makes = Vec::new(alloc);
    add_outer_data(&mut makes, outer)?;
    add_own_data(&mut makes, outer)?;
    Ok(makes)
}

/// Returns true if these are the scalars of these nodes.
fn are_scalars(makes: &[Variable], nodes: &[u32]) -> bool {
    let mut all = makes.len() == nodes.len();
    for (variable, node) in makes.iter().zip(nodes) {
        all = all && variable.node == *node && !variable.array;
    }
    all
}

#[test]
fn parts_that_are_not_plain_have_data(rt: HostRuntime) {
    let parts = element_parts(rt.alloc()).expect(&rt, "memory");
    let makes = part_data(rt.alloc(), &parts).expect(&rt, "memory");
    holds(&rt, are_scalars(makes.as_slice(), &[2, 4]));
}

#[test]
fn a_sum_has_its_datum_where_an_entry_works_it_out(rt: HostRuntime) {
    let outer = outer(&rt, rt.alloc());
    let makes = outer_data(rt.alloc(), &outer).expect(&rt, "memory");
    holds(&rt, are_scalars(makes.as_slice(), &[4, 5, 7, 4, 5]));
}
