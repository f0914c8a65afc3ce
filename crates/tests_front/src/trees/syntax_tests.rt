//! Texts that are accepted and refused, with the places of their faults.

use crate::asserts::{boxed, is_equal};
use crate::rows::are_read;
use bumpalo::Bump;
use lexer::token::Span;
use std::alloc::{AllocError, Allocator, Global};
use std::process::Abort;
use syntax::error::ParseFault;
use syntax::parser::parse;
use syntax_trees::tree::{Expr, ExprKind, Item, Right, Script, StmtKind};
use values::limits::MAX_SOURCE;

const ACCEPTED: &str = r#"accepted | 
accepted | printf("hello");
accepted | int x; int y; x = y + 1; y = 2; printf("%i", x);
accepted | int A[]; A[0] = 1; foreach i in [1:5] { A[i] = A[i-1] * 2; } printf("%i", A[5]);
accepted | (int a, int b) two(int n) { a = n + 1; b = a * 2; } int p; int q; (p, q) = two(3); printf("%i %i", p, q);
accepted | (int B[]) g(int m) { foreach i in [0:m-1] { B[i] = i*i; } } int C[]; C = g(4); printf("%i %i", size(C), C[3]);
accepted | int x = 1; int y; int z; y = z; z = y; wait (x) { wait (y) { printf("q"); } }
accepted | foreach v, k in [10:20:5] { printf("%i %i", k, v); } foreach v in A { } () f() { }
accepted | import io; import string; import assert; @prio=-5 printf("b"); @prio=1000000 f();
accepted | int A[string]; A["x"] = 1; (int B[string]) f(string C[string]) { B = A; } foreach v, k in A { }
accepted | int A[] = [3, 1]; if (a == b && !c || d <= -e) { } else if (f) { x = [1]; } else { }"#;

#[test]
fn accepted_texts(rt: HostRuntime) {
    are_read(&rt, rt.alloc(), ACCEPTED);
}

const REFUSED: &str = r#"P2 Unexpected 19 20 | printf("%i", 1 < 2 < 3);
L3 OpenString 7 9 | printf("a
P2 Unexpected 7 10 | import mpe;
L1 BadByte 0 1 | #
P2 Unexpected 6 9 | int A[int];
P2 Unexpected 13 19 | int A[string string];
P2 Unexpected 12 12 | int A[string
P2 Unexpected 6 13 | @prio=1000001 f();
P2 Unexpected 7 14 | @prio=-1000001 f();
P2 Unexpected 1 5 | @prie=1 f();
P2 Unexpected 3 3 | int
L1 BadByte 7 8 | int x; #
P2 Unexpected 2 3 | x + 1; #
P2 Unexpected 2 4 | a == b == c;"#;

#[test]
fn refused_texts(rt: HostRuntime) {
    are_read(&rt, rt.alloc(), REFUSED);
}

const FIB: &[u8] =
    b"(int r) fib(int n) { if (n < 2) { r = n; } else { r = fib(n-1) + fib(n-2); } } printf(\"%i\", fib(10));";

/// The fault of a text that is refused, read into this memory.
fn fault_in<A: Allocator + Clone>(alloc: A, text: &[u8]) -> Option<ParseFault> {
    parse(alloc, text).err()
}

/// The fault of a text that is refused.
fn fault_of(alloc: Global, text: &[u8]) -> Option<ParseFault> {
    fault_in(alloc, text)
}

/// The text is read over an arena as over the machine's memory, where it has this fault or none.
fn is_judged(rt: &impl Abort, alloc: Global, text: &[u8], wanted: Option<ParseFault>) {
    is_equal(rt, fault_of(alloc, text), wanted);
    is_equal(rt, fault_in(&Bump::new(alloc), text), wanted);
}

/// A prefix of a text that is not a script is refused with a position, and not for want of memory.
fn is_cut(rt: &impl Abort, alloc: Global, text: &[u8], accepted: bool) {
    let fault = fault_of(alloc, text);
    let answered = match fault {
        None => accepted,
        Some(fault) => !accepted && fault.span().is_some(),
    };
    assert!(rt; answered, "at {}", text.len());
    is_judged(rt, alloc, text, fault);
}

// A function is a script, also with spaces after it, and so is the whole text.
#[test]
fn beginnings_of_a_text(rt: HostRuntime) {
    for n in 0..FIB.len() + 1 {
        let accepted = n == 0 || n == 78 || n == 79 || n == 101;
        is_cut(&rt, rt.alloc(), &FIB[..n], accepted);
    }
}

#[test]
fn cut_texts(rt: HostRuntime) {
    are_read(&rt, rt.alloc(), CUT);
}

const CUT: &str = r#"P2 Unexpected 1 3 | (in
P2 Unexpected 77 77 | (int r) fib(int n) { if (n < 2) { r = n; } else { r = fib(n-1) + fib(n-2); } 
L3 OpenString 86 88 | (int r) fib(int n) { if (n < 2) { r = n; } else { r = fib(n-1) + fib(n-2); } } printf("%
P2 Unexpected 100 100 | (int r) fib(int n) { if (n < 2) { r = n; } else { r = fib(n-1) + fib(n-2); } } printf("%i", fib(10))"#;

/// A text with a piece `times` times.
fn repeated(
    alloc: Global,
    before: &[u8],
    piece: &[u8],
    times: usize,
    behind: &[u8],
) -> Result<Vec<u8>, AllocError> {
    let mut text = Vec::from_slice(alloc, before)?;
    for _ in 0..times {
        text.extend_from_slice(piece)?;
    }
    text.extend_from_slice(behind)?;
    Ok(text)
}

/// A number in `times` brackets, as a text.
fn brackets(alloc: Global, times: usize) -> Result<Vec<u8>, AllocError> {
    let closed = repeated(alloc, b"1", b")", times, b";")?;
    repeated(alloc, b"int x = ", b"(", times, closed.as_slice())
}

/// The text nests 64 deep and is read, or one deeper at this place and is refused for that.
fn nests(
    rt: &impl Abort,
    alloc: Global,
    text: Result<Vec<u8>, AllocError>,
    deeper: bool,
    place: Span,
) {
    let text = text.expect(rt, "memory");
    let fault = ParseFault::TooNested(place);
    let wanted = if deeper { Some(fault) } else { None };
    is_judged(rt, alloc, text.as_slice(), wanted);
}

#[test]
fn nesting(rt: HostRuntime) {
    let alloc = rt.alloc();
    for n in 64..66 {
        let deeper = n == 65;
        nests(&rt, alloc, brackets(alloc, n), deeper, Span::at(72, 1));
        let text = repeated(alloc, b"boolean b = ", b"!", n, b"true;");
        nests(&rt, alloc, text, deeper, Span::at(76, 1));
        let text = repeated(alloc, b"if (true) { }", b" else if (true) { }", n - 1, b"");
        nests(&rt, alloc, text, deeper, Span::at(1219, 1));
    }
}

const LONG: ParseFault = ParseFault::TooLong(Span {
    from: 1_048_576,
    to: 1_048_576,
});

#[test]
fn lengths(rt: HostRuntime) {
    let alloc = rt.alloc();
    let mut text = repeated(alloc, b"", b" ", MAX_SOURCE, b"").expect(&rt, "memory");
    is_judged(&rt, alloc, text.as_slice(), None);
    text.push(b'#').expect(&rt, "memory");
    is_judged(&rt, alloc, text.as_slice(), Some(LONG));
}

/// The message of the fault is this text.
fn is_told(rt: &impl Abort, alloc: Global, fault: ParseFault, wanted: &str) {
    let told = format!(in alloc; "{fault}").expect(rt, "memory");
    is_equal(rt, told.as_str(), wanted);
}

#[test]
fn faults_of_bounds(rt: HostRuntime) {
    is_told(&rt, rt.alloc(), LONG, "P4 TooLong");
    let deep = ParseFault::TooNested(Span::at(2, 3));
    is_told(&rt, rt.alloc(), deep, "P3 TooNested");
    is_equal(&rt, deep.span(), Some(Span::at(2, 3)));
    is_equal(&rt, ParseFault::Memory.span(), None);
}

/// The right side of a script that is one assignment.
fn assigned<'s, A: Allocator>(rt: &impl Abort, script: &'s Script<A>) -> &'s Expr<A> {
    if let Some(Item::Statement(stmt)) = script.items.first()
        && let StmtKind::Assign(_, Right::Value(expr)) = &stmt.kind
    {
        return expr;
    }
    panic!(rt; "one assignment")
}

/// The expression has this number, and stands here.
fn stands<A: Allocator>(rt: &impl Abort, expr: &Expr<A>, number: u32, first: Span, to: usize) {
    is_equal(rt, (expr.number, expr.first, expr.to), (number, first, to));
}

// The statement is number 1, x 2; after the sum's 1, the expression y and its name stand before the last operand.
fn is_product<A: Allocator>(rt: &impl Abort, product: &Expr<A>) {
    stands(rt, product, 3, Span::at(4, 1), 17);
    let ExprKind::Chain(_, operands) = &product.kind else {
        panic!(rt; "a product")
    };
    let [sum, two] = operands.as_slice() else {
        panic!(rt; "two operands")
    };
    stands(rt, sum, 4, Span::at(5, 1), 10);
    is_equal(rt, two.number, 8);
    assert!(rt; matches!(&two.kind, ExprKind::Number(2)));
}

/// A product, read over any allocator.
fn product<A: Allocator + Clone>(rt: &impl Abort, machine: Global, alloc: A) -> Box<Script<A>> {
    let script = parse(alloc, b"x = (1 + y) * (2);").expect(rt, "a script");
    boxed(rt, machine, script)
}

#[test]
fn places_and_numbers(rt: HostRuntime) {
    let arena = Bump::new(rt.alloc());
    is_product(&rt, assigned(&rt, &product(&rt, rt.alloc(), &arena)));
}
