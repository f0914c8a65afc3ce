//! Scripts that are well typed, scripts that break each of the six rules, with the places, and what names are.

use crate::asserts::is_equal;
use crate::rows::are_judged;
use language::tree::{Keys, Shape};
use lexer::token::Span;
use std::alloc::Global;
use std::process::Abort;
use syntax::parser::parse;
use types::check;
use types::fault::TypeFault;
use types::typed::{Binding, Builtin, Callee, NameEntry, NameMeaning, Reference, Typed, by_number};

const REFUSED: &str = r#"Y1 Unknown 13 14 | printf("%i", y);
Y1 Unknown 6 7 | wait (q) { }
Y1 Unknown 14 15 | foreach i in [i:3] { }
Y1 Unknown 33 34 | if (true) { int x = 1; } int y = x;
Y1 Unknown 34 35 | int x = 1; (int r) f(int n) { r = x; }
Y2 Declared 15 16 | int x = 1; int x = 2;
Y2 Declared 11 12 | foreach v, v in [1:3] { }
Y2 Declared 8 14 | (int r) strcat(int n) { }
Y2 Declared 27 28 | int x = 1; if (true) { int x; }
Y2 Declared 14 15 | () f() { } () f() { }
Y3 Mismatch 17 18 | string s = "a" + 1;
Y3 Mismatch 8 15 | int x = fromint(3);
Y3 Mismatch 7 8 | int x; x[y] = 2;
Y3 Mismatch 17 18 | int A[]; int x = [A];
Y3 Mismatch 4 5 | if (1) { }
Y4 WrongCount 0 6 | printf("%i");
Y4 WrongCount 0 6 | strcat("a");
Y4 WrongCount 8 14 | int x = printf(3);
Y4 WrongCount 31 32 | (int r) f() { r = 1; } int x = f(2);
Y5 BadFormat 7 11 | printf("%q");
Y5 BadFormat 7 12 | printf(x + y);
Y5 BadFormat 7 8 | printf(3);
Y6 NotAFunction 0 3 | foo(1);
Y6 NotAFunction 7 8 | int x; f();
Y6 NotAFunction 8 9 | int x = g(1);"#;

// A literal under texts is refused after its elements, at its `[`.
const KEYS: &str = r#"Y3 Mismatch 16 17 | int A[string] = [1];
Y3 Mismatch 17 20 | int A[string] = ["a"];
Y3 Mismatch 17 18 | int A[string]; A[1] = 1;
Y3 Mismatch 11 14 | int A[]; A["x"] = 1;
Y3 Mismatch 25 26 | int A[string]; int x = A[0];
Y3 Mismatch 25 26 | int A[string]; int B[] = A;
Y3 Mismatch 25 26 | int A[]; int B[string] = A;
Y3 Mismatch 60 61 | (int r) f(int A[string]) { r = A["a"]; } int B[]; int x = f(B);
Y3 Mismatch 49 50 | (int A[string]) g() { A["a"] = 1; } int B[]; B = g();
Y3 Mismatch 43 44 | int A[string]; foreach v, k in A { int n = k; }
Y3 Mismatch 35 36 | foreach v, k in [1:3] { string s = k; }"#;

#[test]
fn refused_scripts(rt: HostRuntime) {
    are_judged(&rt, rt.alloc(), REFUSED);
}

#[test]
fn keys_of_another_type(rt: HostRuntime) {
    are_judged(&rt, rt.alloc(), KEYS);
}

const ACCEPTED: &str = r#"accepted | printf("hello");
accepted | int x; int y; x = y + 1; y = 2; printf("%i", x);
accepted | int A[] = [3, 1]; foreach v, k in A { printf("%i %i", k, v); } printf("%i", size(A));
accepted | string s = strcat("a", fromint(toint("7"))); boolean b = s == "a7" || !(1 < 2); assert(b, s);
accepted | foreach v, k in [10:20:5] { printf("%i %i", k, v); } int x = 1; wait (x) { @prio=5 printf("%%"); }
accepted | (int a, int b) two(int n) { a = n + 1; b = a * 2; } int p; int q; (p, q) = two(3); printf("%i %i", p, q);
accepted | int A[string]; A["" + "x"] = 1; int B[string] = A; foreach v, k in B { printf("%s%i%i", k, v, A[k]); } printf("%i", size(A)); wait (A) { }
accepted | (int A[string]) g(int B[string]) { A = B; } int A[string]; A["a"] = 1; int B[string] = g(A); printf("%i", B["a"]);
accepted | (int r) f(int A[]) { r = A[0]; } int B[] = [7]; int f = f(B); if (f >= 0) { printf("%i", f); } else { }"#;

#[test]
fn accepted_scripts(rt: HostRuntime) {
    are_judged(&rt, rt.alloc(), ACCEPTED);
}

/// A variable of the block that it is used in.
fn own(what: Binding) -> Reference {
    Reference { up: 0, what }
}

// In reading order: the function 1, r 2, f 3, A 4, the assignment 5, r 6, its right side 7, size 8, A 9 and its name 10,
// B's statement 11 and B 12, x's statement 13 and x 14, the call 15, f 16, B 17 and its name 18, the branch 19, its test 20,
// the statement 21, the call 22, printf 23, the format 24, x 25 and its name 26.
const NAMES: &[u8] =
    b"(int r) f(int A[]) { r = size(A); } int B[]; int x = f(B); if (true) { printf(\"%i\", x); }";

/// The names of that text.
fn names(rt: &impl Abort, alloc: Global) -> Typed {
    let script = parse(alloc, NAMES).expect(rt, "a script");
    check(alloc, &script).expect(rt, "a script that is well typed")
}

/// The variable's name at a node refers to this.
fn refers(rt: &impl Abort, typed: &Typed, number: u32, wanted: Reference) {
    is_equal(rt, typed.name(number), wanted);
}

/// The function's name at a node is this.
fn calls(rt: &impl Abort, typed: &Typed, number: u32, wanted: Callee) {
    is_equal(rt, typed.callee(number), wanted);
}

#[test]
fn what_names_are(rt: HostRuntime) {
    let typed = names(&rt, rt.alloc());
    refers(&rt, &typed, 6, own(Binding::Output(0)));
    refers(&rt, &typed, 10, own(Binding::Input(0)));
    refers(&rt, &typed, 18, own(Binding::Local(12)));
    let outer = Reference {
        up: 1,
        what: Binding::Local(14),
    };
    refers(&rt, &typed, 26, outer);
    is_equal(&rt, typed.shape(10), Shape::Array(Keys::Numbers));
    is_equal(&rt, typed.shape(26), Shape::Scalar);
}

#[test]
fn what_calls_are(rt: HostRuntime) {
    let typed = names(&rt, rt.alloc());
    calls(&rt, &typed, 8, Callee::BuiltIn(Builtin::Size));
    calls(&rt, &typed, 16, Callee::Function(0));
    calls(&rt, &typed, 23, Callee::BuiltIn(Builtin::Printf));
}

/// One of these meanings.
fn settled(number: u32, meaning: NameMeaning) -> NameEntry {
    NameEntry { number, meaning }
}

#[test]
fn what_was_settled_last_holds(rt: HostRuntime) {
    let variable = NameMeaning::Variable(own(Binding::Input(4)), Shape::Array(Keys::Numbers));
    let settled = [
        settled(3, NameMeaning::Called(Callee::Function(1))),
        settled(1, variable),
        settled(3, NameMeaning::Called(Callee::Function(2))),
    ];
    let typed = by_number(rt.alloc(), &settled).expect(&rt, "memory");
    calls(&rt, &typed, 3, Callee::Function(2));
    refers(&rt, &typed, 1, own(Binding::Input(4)));
    refers(&rt, &typed, 2, own(Binding::Local(0)));
}

#[test]
fn places_of_faults(rt: HostRuntime) {
    is_equal(&rt, TypeFault::Memory.span(), None);
    is_equal(
        &rt,
        TypeFault::Unknown(Span::at(3, 1)).span(),
        Some(Span::at(3, 1)),
    );
}
