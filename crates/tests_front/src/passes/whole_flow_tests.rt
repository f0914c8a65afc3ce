//! Flows of scripts that are accepted are whole; a flow is not, once a declaration is taken out.

use crate::passes::flows::flow;
use flow::script::Flow;
use std::alloc::Global;
use std::process::Abort;

const SCRIPTS: &str = r#"
int x = 1; printf("%i", x);
int x = 1; foreach i in [0:2] { wait (x) { int y = i + x; foreach j in [i:y:x] { printf("%i", j + y); } } }
int A[] = [1, 2]; int i = 1; int b = A[A[i] - 1]; foreach v, k in A { printf("%i %i", v, A[k] + b); }
(int r) f(int n) { r = n + 1; } int x = f(f(2)) + f(1);
(int r) f(boolean b) { if (b) { r = 1; } else { if (b) { r = 2; } else { r = 3; } } } int x = f(true);
(int a, int b) f() { a = 1; b = 2; } int x; int y; if (true) { (x, y) = f(); } else { x = 1; y = 2; }
(int B[]) f(int A[]) { foreach v, k in A { B[k] = v; } } int A[]; A[1] = 2; int B[] = f(A); printf("%i", size(B));
int x = 1; int y = 2; wait (x) { wait (y) { wait (x, y) { int z = x + y; wait (z) { printf("%i", z); } } } }"#;

/// Returns true if the flow of a text is whole, or `None` if it has no flow.
fn judgement(alloc: Global, text: &[u8]) -> Option<bool> {
    let found = flow(alloc, text)?;
    Some(found.is_whole())
}

#[test]
fn accepted_scripts(rt: HostRuntime) {
    for text in SCRIPTS.lines() {
        let told = judgement(rt.alloc(), text.as_bytes());
        assert_eq!(rt; told, Some(true), "{text}");
    }
}

/// The flow loses its first statement.
fn cut(rt: &impl Abort, flow: &mut Flow<Global>) {
    assert!(rt; !flow.body.statements.is_empty());
    let _taken = flow.body.statements.remove(0);
}

#[test]
fn a_name_without_its_declaration(rt: HostRuntime) {
    let text = b"int x = 1; printf(\"%i\", x);";
    let mut found = flow(rt.alloc(), text.as_slice()).expect(&rt, "a flow");
    assert!(rt; found.is_whole());
    cut(&rt, &mut found);
    assert!(rt; !found.is_whole());
}
