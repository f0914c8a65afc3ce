//! Scripts over the machine's memory and over an arena: the same trees, refusals and listings.
use crate::asserts::{boxed, holds, is_equal};
use bumpalo::Bump;
use compile::compile::listed;
use std::alloc::{Allocator, Global};
use std::process::Abort;
use syntax::error::ParseFault;
use syntax::parser::parse;
use syntax_trees::tree::Script;

/// The result of reading a text over an allocator, in a box. The functions that take any allocator are proved much faster than over the
/// arena alone.
fn read<A: Allocator + Clone>(
    rt: &impl Abort,
    machine: Global,
    alloc: A,
    text: &[u8],
) -> Box<Result<Script<A>, ParseFault>> {
    boxed(rt, machine, parse(alloc, text))
}

/// Returns true if a text has the same tree over both, or is refused alike.
fn is_read_alike<A: Allocator + Clone>(
    rt: &impl Abort,
    alloc: Global,
    arena: A,
    text: &[u8],
) -> bool {
    let one = read(rt, alloc, alloc, text);
    let other = read(rt, alloc, arena, text);
    is_same(rt, alloc, &one, &other)
}

/// Returns true if the same tree was read over both, or the text was refused alike.
fn is_same<A: Allocator>(
    rt: &impl Abort,
    alloc: Global,
    one: &Result<Script<Global>, ParseFault>,
    other: &Result<Script<A>, ParseFault>,
) -> bool {
    match other {
        Ok(other) => is_copied(rt, alloc, one, other),
        Err(fault) => is_refused(one, *fault),
    }
}

/// A tree over another allocator, copied to the machine's memory, in a box.
fn copy_of<A: Allocator>(rt: &impl Abort, alloc: Global, tree: &Script<A>) -> Box<Script<Global>> {
    let copy = tree.copy_to(alloc).expect(rt, "memory");
    boxed(rt, alloc, copy)
}

/// Returns true if a text that has this tree over an arena has the same over the machine's memory.
fn is_copied<A: Allocator>(
    rt: &impl Abort,
    alloc: Global,
    one: &Result<Script<Global>, ParseFault>,
    other: &Script<A>,
) -> bool {
    let copy = copy_of(rt, alloc, other);
    has_tree(one, &copy)
}

/// Returns true if this tree was read.
fn has_tree(read: &Result<Script<Global>, ParseFault>, tree: &Script<Global>) -> bool {
    match read {
        Ok(script) => script == tree,
        Err(_) => false,
    }
}

/// Returns true if a text was refused with this fault.
fn is_refused(read: &Result<Script<Global>, ParseFault>, fault: ParseFault) -> bool {
    match read {
        Ok(_) => false,
        Err(own) => *own == fault,
    }
}

/// Returns true if a text has the same listing over both, or is refused alike.
fn is_listed_alike(alloc: Global, arena: &Bump, text: &[u8]) -> bool {
    match (listed(alloc, alloc, text), listed(alloc, arena, text)) {
        (Ok(one), Ok(other)) => one.text() == other.text(),
        (Err(one), Err(other)) => one == other,
        _ => false,
    }
}

/// A beginning of a text is the same over both. It is shown by its length where it is not.
fn is_alike(rt: &impl Abort, alloc: Global, arena: &Bump, part: &[u8]) {
    let is_read = is_read_alike(rt, alloc, arena, part);
    let is_listed = is_listed_alike(alloc, arena, part);
    is_equal(
        rt,
        (part.len(), is_read, is_listed),
        (part.len(), true, true),
    );
}

/// Each beginning of a text is the same over both, and nothing of it is left in the arena.
fn are_alike(rt: &impl Abort, alloc: Global, arena: &mut Bump, text: &[u8]) {
    for n in 0..text.len() + 1 {
        is_alike(rt, alloc, arena, &text[..n]);
        holds(rt, arena.reset().is_ok());
    }
}

#[test]
fn an_arena_changes_nothing(rt: HostRuntime) {
    let mut arena = Bump::new(rt.alloc());
    for line in SCRIPTS.lines() {
        are_alike(&rt, rt.alloc(), &mut arena, line.as_bytes());
    }
}

/// A script a line.
const SCRIPTS: &str =
    r#"(int r) fib(int n) { if (n < 2) { r = n; } else { r = fib(n-1) + fib(n-2); } } printf("%i", fib(10));
printf("hello");
int x; int y; x = y + 1; y = 2; printf("%i", x);
int A[]; A[0] = 1; foreach i in [1:5] { A[i] = A[i-1] * 2; } printf("%i", A[5]);
int A[]; int n; foreach i in [0:2] { if (i == n) { A[i] = i; } } n = 1; printf("%i", size(A));
int A[]; foreach i in [5:4] { A[i] = i; } printf("%i", size(A));
int A[]; A[0] = 1; A[0] = 2; printf("%i", A[0]);
int A[]; A[0] = 1; printf("%i", A[3]);
int x; int y; x = y; y = x; printf("%i", x);
int A[]; A[0] = size(A);
int x = 9223372036854775807 + 1; printf("%i", x);
foreach i in [9223372036854775806:9223372036854775807] { printf("%i", i); }
foreach i in [0:4294967296] { }
int x = 1; x = 2;
boolean b = true; int x; if (b) { x = 1; } printf("%i", x);
int x; foreach i in [0:1] { x = i; }
int A[] = [1]; A[2] = 3;
(int r) f() { }
(int r) f(int n) { r = f(n + 1); } printf("%i", f(0));
foreach i in [1:1000] { printf("%i", i); }
printf("a"); printf("b");
printf("a");printf("b");printf("c");printf("d");printf("e");printf("f");printf("g");printf("h");
printf("a"); @prio=5 printf("b");
(int B[]) g(int m) { foreach i in [0:m-1] { B[i] = i*i; } } int C[]; C = g(4); printf("%i %i", size(C), C[3]);
int x = 1; int y; int z; y = z; z = y; wait (x) { wait (y) { printf("q"); } }
int y; int z; y = z; z = y; printf("%i", 1 %/ 0 + y);
int A[]; int y; int z; y = z; z = y; A[0] = 1; printf("%i", A[1 %/ 0] + y);
printf("%i %i %i", -7 %/ 2, -7 %% 2, 7 %% -2);
foreach v, k in [10:20:5] { printf("%i %i", k, v); }
printf("%s", strcat("a", fromint(toint("-007"))));
printf("%i", toint("1x"));
printf("%i", 1 < 2 < 3);
printf("a
import mpe;
#
int x = ((((((((((((((((((((((((((((((((((((((((((((((((((((((((((((((((1))))))))))))))))))))))))))))))))))))))))))))))))))))))))))))))));
int x = (((((((((((((((((((((((((((((((((((((((((((((((((((((((((((((((((1)))))))))))))))))))))))))))))))))))))))))))))))))))))))))))))))));
(int a, int b) two(int n) { a = n + 1; b = a * 2; } int p; int q; (p, q) = two(3); printf("%i %i", p, q);
int x = 5; printf("%i %d%%", x, 7);
printf("%i", y);
int a; int b; b = a * a - 1; a = 3 - 5; printf("%i", b);
int x = 1; printf("a"); printf("%i", x);
string s = "a" + 1;
int x = fromint(3);
int x = 1; int x = 2;
printf("%q");
printf("%i");
foo(1);
assert(1 == 2, "m");
boolean b; boolean c; c = b; b = c; boolean d = false && b; assert(d, "m");
if (true) { }
int x; boolean b; if (b) { x = 1; } else { x = 2; } b = 3 > 2; printf("%i", x);
boolean b; boolean c; b = c; c = b; if (b) { printf("t"); }
(int r) k(int n) { r = 4; printf("k"); } int x; int y; x = y; y = x; printf("%i", k(x));
(int r) f(int n) { if (n == 0) { r = 0; } else { r = f(n - 1); } } printf("%i", f(255));
(int r) f(int n) { if (n == 0) { r = 0; } else { r = f(n - 1); } } printf("%i", f(256));
int A[] = [3, 1]; int B[]; B = A; foreach v, k in B { printf("%i %i", k, v); }
int A[]; A[-2] = 5; printf("%i", A[-2]);
foreach i in [1:0:0] { }
(int B[]) f(int n) { B = f(n + 1); } int A[]; A = f(0); printf("%i", size(A));
int A[]; A[1 + 1] = 3 * 3; A[1 %/ 0] = 1;
boolean b = !!!!!!!!!!!!!!!!!!!!!!!!!!!!!!!!!!!!!!!!!!!!!!!!!!!!!!!!!!!!!!!!true;
boolean b = !!!!!!!!!!!!!!!!!!!!!!!!!!!!!!!!!!!!!!!!!!!!!!!!!!!!!!!!!!!!!!!!!true;
if (true) { } else if (true) { } else if (true) { } else if (true) { } else if (true) { } else if (true) { } else if (true) { } else if (true) { } else if (true) { } else if (true) { } else if (true) { } else if (true) { } else if (true) { } else if (true) { } else if (true) { } else if (true) { } else if (true) { } else if (true) { } else if (true) { } else if (true) { } else if (true) { } else if (true) { } else if (true) { } else if (true) { } else if (true) { } else if (true) { } else if (true) { } else if (true) { } else if (true) { } else if (true) { } else if (true) { } else if (true) { } else if (true) { } else if (true) { } else if (true) { } else if (true) { } else if (true) { } else if (true) { } else if (true) { } else if (true) { } else if (true) { } else if (true) { } else if (true) { } else if (true) { } else if (true) { } else if (true) { } else if (true) { } else if (true) { } else if (true) { } else if (true) { } else if (true) { } else if (true) { } else if (true) { } else if (true) { } else if (true) { } else if (true) { } else if (true) { } else if (true) { } else if (true) { } else if (true) { } else if (true) { } else if (true) { } else if (true) { } else if (true) { }
if (true) { } else if (true) { } else if (true) { } else if (true) { } else if (true) { } else if (true) { } else if (true) { } else if (true) { } else if (true) { } else if (true) { } else if (true) { } else if (true) { } else if (true) { } else if (true) { } else if (true) { } else if (true) { } else if (true) { } else if (true) { } else if (true) { } else if (true) { } else if (true) { } else if (true) { } else if (true) { } else if (true) { } else if (true) { } else if (true) { } else if (true) { } else if (true) { } else if (true) { } else if (true) { } else if (true) { } else if (true) { } else if (true) { } else if (true) { } else if (true) { } else if (true) { } else if (true) { } else if (true) { } else if (true) { } else if (true) { } else if (true) { } else if (true) { } else if (true) { } else if (true) { } else if (true) { } else if (true) { } else if (true) { } else if (true) { } else if (true) { } else if (true) { } else if (true) { } else if (true) { } else if (true) { } else if (true) { } else if (true) { } else if (true) { } else if (true) { } else if (true) { } else if (true) { } else if (true) { } else if (true) { } else if (true) { } else if (true) { } else if (true) { } else if (true) { }
int A[string];
int A[string]; A["b"] = 1; A["a"] = 2; A["B"] = 3; foreach v, k in A { printf("%s%i", k, v); }
int A[string]; A["x"] = 1; A["" + "x"] = 2;
int A[string]; A["a\"b"] = 1; int y; int z; y = z; z = y; foreach v, k in A { printf("%s %i", k, y); }
int A[string]; A["longname1"] = 1; A["longname2"] = 2; printf("%i", size(A));
int A[string] = [1];
int A[string]; A[1] = 1;
int A[string]; printf("%i", A["w"]);
(int r) f(int n) { if (n == 0) { r = 0; } else { r = f(n - 1); } } printf("%i", f(1023));
(int r) f(int n) { if (n == 0) { r = 0; } else { r = f(n - 1); } } printf("%i", f(1024));"#;
