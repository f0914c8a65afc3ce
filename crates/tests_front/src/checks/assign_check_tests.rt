//! Scripts that are singly assigned, and scripts that break each of the six rules, with the places.

use crate::asserts::is_equal;
use crate::rows::are_judged;
use assign_check::fault::AssignFault;
use lexer::token::Span;

const REFUSED: &str = r#"S1 AssignedTwice 11 12 | int x = 1; x = 2;
S1 AssignedTwice 59 60 | int x; boolean b = true; if (b) { x = 1; } else { x = 2; } x = 3;
S1 AssignedTwice 19 20 | (int r) f(int n) { n = 1; r = 2; }
S1 AssignedTwice 48 49 | (int a, int b) f() { a = 1; b = 2; } int x; (x, x) = f();
S2 PartlyAssigned 25 27 | boolean b = true; int x; if (b) { x = 1; } printf("%i", x);
S2 PartlyAssigned 32 34 | boolean b = true; int x; int y; if (b) { x = 1; } else { y = 1; }
S2 PartlyAssigned 25 27 | boolean b = true; int x; if (b) { if (b) { x = 1; } else { x = 2; } }
S2 PartlyAssigned 25 27 | boolean a = true; int x; if (a) { x = 1; } else if (a) { x = 1; }
S2 PartlyAssigned 25 27 | boolean a = true; int x; if (a) { if (a) { } else { x = 1; } }
S2 PartlyAssigned 25 27 | boolean a = true; int x; if (a) { x = 1; } else { if (a) { x = 1; } else { } }
S2 PartlyAssigned 34 36 | boolean a = true; int x; if (a) { if (a) { x = 1; } } else { if (a) { x = 1; } }
S2 PartlyAssigned 25 27 | boolean a = true; int x; if (a) { x = 1; x = 1; } else { x = 1; x = 1; x = 1; }
S3 NeverAssigned 4 5 | int x; printf("%i", x);
S3 NeverAssigned 4 5 | int x; wait (x) { }
S3 NeverAssigned 31 32 | boolean b = true; if (b) { int y; printf("%i", y); }
S3 NeverAssigned 5 6 | (int r) f() { printf("%i", r); }
S4 OuterInLoop 28 29 | int x; foreach i in [0:1] { x = i; }
S4 OuterInLoop 35 36 | (int r) f() { foreach i in [0:1] { r = i; } }
S4 OuterInLoop 49 50 | foreach i in [0:1] { int y; foreach j in [0:1] { y = j; } }
S5 WholeAndElements 15 16 | int A[] = [1]; A[2] = 3;
S5 WholeAndElements 19 20 | int A[]; A[0] = 1; A = [2];
S5 WholeAndElements 21 22 | (int r) f(int A[]) { A[0] = 1; r = 2; }
S6 OutputUnassigned 5 6 | (int r) f() { }
S6 OutputUnassigned 5 6 | (int A[]) f() { }
S6 OutputUnassigned 12 13 | (int a, int b) f() { a = 1; }"#;

#[test]
fn refused_scripts(rt: HostRuntime) {
    are_judged(&rt, rt.alloc(), REFUSED);
}

const ACCEPTED: &str = r#"accepted | 
accepted | int x;
accepted | int x; boolean b = true; if (b) { x = 1; } else { x = 2; } printf("%i", x);
accepted | int A[]; foreach i in [0:1] { A[i] = i; } printf("%i", A[0]);
accepted | foreach i in [0:1] { int y = i; printf("%i", y); }
accepted | int x = x;
accepted | int y = 1; wait (y) { int x; x = 1; }
accepted | (int r) f(int n) { r = 1; }"#;

#[test]
fn accepted_scripts(rt: HostRuntime) {
    are_judged(&rt, rt.alloc(), ACCEPTED);
}

#[test]
fn places_of_faults(rt: HostRuntime) {
    is_equal(
        &rt,
        AssignFault::OuterInLoop(Span::at(3, 1)).span(),
        Some(Span::at(3, 1)),
    );
    is_equal(&rt, AssignFault::Memory.span(), None);
}
