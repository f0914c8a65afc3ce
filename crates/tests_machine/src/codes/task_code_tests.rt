//! The codes of two scripts, built, read and copied: their entries stand as the listing of each script has them.

use crate::asserts::is_equal;
use std::alloc::Global;
use std::process::Abort;
use task_code::code::{Body, Code, Opener};
use task_code::draft::Draft;
use task_code::entry::{Act, Argument, Entry, Kind, Name, Need, Owned, Variable};
use task_code::event::Event;
use task_code::expr::{Expr, Operator};
use tests_codes::codes::hello;
use values::format::{Format, FormatPiece};
use values::op::{Op, Order, Sign};
use values::value::Scalar;

fn own(node: u32) -> Name {
    Name {
        up: 0,
        owned: Owned::Local(Variable { node, array: false }),
    }
}

fn parameter(up: usize, index: usize) -> Name {
    Name {
        up,
        owned: Owned::Parameter(index, false),
    }
}

/// An operator between the answer of the first need and the other operand.
fn two(rt: &impl Abort, alloc: Global, operator: Operator, right: Expr) -> Expr {
    let operands = Vec::from_array(alloc, [Expr::Need(0), right]).expect(rt, "memory");
    Expr::Operation(operator, operands)
}

fn number(n: i64) -> Expr {
    Expr::Constant(Scalar::Number(n))
}

fn sum(rt: &impl Abort, alloc: Global, sign: Sign, right: Expr) -> Expr {
    let signs = Vec::from_array(alloc, [sign]).expect(rt, "memory");
    two(rt, alloc, Operator::Sum(signs), right)
}

/// A call of the second body.
fn call(rt: &impl Abort, alloc: Global, input: Argument, output: Name) -> Act {
    Act::Call {
        body: 1,
        inputs: Vec::from_array(alloc, [input]).expect(rt, "memory"),
        outputs: Vec::from_array(alloc, [output]).expect(rt, "memory"),
    }
}

/// Adds an entry that reads what it waits for.
fn push(
    rt: &impl Abort,
    code: &mut Draft,
    alloc: Global,
    place: (u32, usize),
    act: Act,
    reads: &[Name],
    writes: Name,
) {
    let mut needs = Vec::new(alloc);
    for name in reads {
        needs.push(Need::Stored(*name)).expect(rt, "memory");
    }
    let entry = Entry {
        node: place.0,
        at: place.1,
        offset: place.1,
        priority: 0,
        needs,
        act,
        reads: Vec::from_slice(alloc, reads).expect(rt, "memory"),
        writes: Vec::from_array(alloc, [writes]).expect(rt, "memory"),
    };
    code.push_entry(entry).expect(rt, "memory");
}

/// The entries of `printf("%i", fib(10));`.
fn push_print(rt: &impl Abort, code: &mut Draft, alloc: Global) {
    let result = own(1);
    let first = call(rt, alloc, Argument::Fixed(Scalar::Number(10)), result);
    push(rt, code, alloc, (1, 92), first, &[], result);
    let format = Format::read(alloc, b"%i").expect(rt, "a format");
    let operands = Vec::from_array(alloc, [Expr::Need(0)]).expect(rt, "memory");
    let line = Act::Print(Expr::Operation(Operator::Printf(format), operands));
    push(rt, code, alloc, (2, 79), line, &[result], result);
}

/// The entries of `if (n < 2) { r = n; } else { .. }`.
fn push_choice(rt: &impl Abort, code: &mut Draft, alloc: Global) {
    let small = two(rt, alloc, Operator::Compare(Order::Less), number(2));
    push(
        rt,
        code,
        alloc,
        (3, 25),
        Act::Cell(small),
        &[parameter(0, 0)],
        own(3),
    );
    let branch = Act::If(Expr::Need(0), 2, Some(3));
    push(rt, code, alloc, (4, 21), branch, &[own(3)], parameter(0, 1));
    let set = Act::Set(parameter(1, 1), Expr::Need(0));
    push(
        rt,
        code,
        alloc,
        (5, 34),
        set,
        &[parameter(1, 0)],
        parameter(1, 1),
    );
}

/// The entries of `fib(n-1)` or `fib(n-2)`: the argument and the call, each with its node and offset.
fn push_call(
    rt: &impl Abort,
    code: &mut Draft,
    alloc: Global,
    below: i64,
    argument: (u32, usize),
    called: (u32, usize),
) {
    let cell = Act::Cell(sum(rt, alloc, Sign::Minus, number(below)));
    push(
        rt,
        code,
        alloc,
        argument,
        cell,
        &[parameter(1, 0)],
        own(argument.0),
    );
    let act = call(rt, alloc, Argument::Named(own(argument.0)), own(called.0));
    push(rt, code, alloc, called, act, &[], own(called.0));
}

/// Adds a body that makes scalars of these nodes.
fn push_body(
    rt: &impl Abort,
    code: &mut Draft,
    alloc: Global,
    opener: Opener,
    makes: &[u32],
    entries: &[u32],
) {
    let mut variables = Vec::new(alloc);
    for node in makes {
        variables
            .push(Variable {
                node: *node,
                array: false,
            })
            .expect(rt, "memory");
    }
    let entries = Vec::from_slice(alloc, entries).expect(rt, "memory");
    code.push_body(Body {
        opener,
        makes: variables,
        entries,
    })
    .expect(rt, "memory");
}

/// `(int r) fib(int n) { if (n < 2) { r = n; } else { r = fib(n-1) + fib(n-2); } } printf("%i", fib(10));`
fn fibonacci(rt: &impl Abort, alloc: Global) -> Draft {
    let mut code = Draft::new(alloc);
    push_print(rt, &mut code, alloc);
    push_choice(rt, &mut code, alloc);
    push_call(rt, &mut code, alloc, 1, (6, 58), (7, 54));
    push_call(rt, &mut code, alloc, 2, (8, 69), (9, 65));
    let both = Act::Set(parameter(1, 1), sum(rt, alloc, Sign::Plus, Expr::Need(1)));
    push(
        rt,
        &mut code,
        alloc,
        (10, 50),
        both,
        &[own(7), own(9)],
        parameter(1, 1),
    );
    push_body(rt, &mut code, alloc, Opener::ByMain, &[1], &[0, 1]);
    push_body(rt, &mut code, alloc, Opener::ByCalls, &[3], &[2, 3]);
    push_body(rt, &mut code, alloc, Opener::ByStep(3), &[], &[4]);
    push_body(
        rt,
        &mut code,
        alloc,
        Opener::ByStep(3),
        &[6, 7, 8, 9],
        &[5, 6, 7, 8, 9],
    );
    code
}

/// The text printed by an entry that prints a format without operands.
fn printed(code: &Code, number: u32) -> Option<&[FormatPiece]> {
    match &code.entry(number)?.act {
        Act::Print(Expr::Operation(Operator::Printf(format), _)) => Some(format.pieces()),
        _ => None,
    }
}

/// A copy of the code of `printf("hello");`.
fn hello_copy(rt: &impl Abort, alloc: Global) -> Code {
    let code = hello(alloc).expect(rt, "a code");
    code.copy().expect(rt, "memory")
}

/// The code has the one entry, which prints, and the one body.
fn prints_hello(rt: &impl Abort, code: &Code) {
    assert_eq!(rt; (code.entry_count(), code.body_count()), (1, 1));
    let letters = b"hello".map(|letter| FormatPiece::Byte(letter));
    assert!(rt; printed(code, 0) == Some(letters.as_slice()));
    is_equal(rt, code.kind(0), Kind::Leaf);
}

#[test]
fn hello_is_read_and_copied(rt: HostRuntime) {
    let code = hello_copy(&rt, rt.alloc());
    prints_hello(&rt, &code);
    assert!(rt; code.entry(1).is_none());
    assert!(rt; code.body(1).is_none());
}

/// The offset of a shared entry.
fn shared_mark(rt: &impl Abort, code: &Draft, number: u32) -> Option<usize> {
    let shared = code.share_entry(number).expect(rt, "memory");
    shared.map(|found| found.offset)
}

/// The entry has that kind, `C` or `L`, and that offset.
fn is_entry(rt: &impl Abort, code: &Draft, number: u32, letter: u8, offset: usize) {
    let kind = if letter == b'C' {
        Kind::Control
    } else {
        Kind::Leaf
    };
    is_equal(rt, (code.kind(number), code.priority(number)), (kind, 0));
    assert_eq!(rt; shared_mark(rt, code, number), Some(offset), "at {number}");
}

/// The body of the second branch has its opener, and these numbers of entries and variables.
fn has_branch(rt: &impl Abort, code: &Draft) {
    let branch = code.body(3).expect(rt, "a body");
    is_equal(rt, branch.opener, Opener::ByStep(3));
    is_equal(rt, (branch.entries.len(), branch.makes.len()), (5, 4));
}

/// A copy of the code of the Fibonacci numbers.
fn fibonacci_copy(rt: &impl Abort, alloc: Global) -> Draft {
    let code = fibonacci(rt, alloc);
    code.copy().expect(rt, "memory")
}

#[test]
fn fibonacci_is_read_and_copied(rt: HostRuntime) {
    let code = fibonacci_copy(&rt, rt.alloc());
    assert_eq!(rt; (code.entry_count(), code.body_count()), (10, 4));
    let marks = [92, 79, 25, 21, 34, 58, 54, 69, 65, 50];
    for (number, (kind, offset)) in b"CLLCLLCLCL".iter().zip(marks.iter()).enumerate() {
        is_entry(&rt, &code, number as u32, *kind, *offset);
    }
    has_branch(&rt, &code);
}

#[test]
fn operators_are_those_of_values(rt: HostRuntime) {
    let signs = Vec::from_array(rt.alloc(), [Sign::Minus]).expect(&rt, "memory");
    assert!(rt; matches!(Operator::Sum(signs).to_op(), Op::Sum([Sign::Minus])));
    assert!(rt; matches!(Operator::Not.to_op(), Op::Not));
}

#[test]
fn events_are_compared(rt: HostRuntime) {
    let begin = Event::Begin { worker: 1, item: 7 };
    is_equal(&rt, begin, begin);
    assert_ne!(rt; begin, Event::End { worker: 1, item: 7 });
}
