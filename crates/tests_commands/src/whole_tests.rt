//! Scripts of the whole language: what a run prints, and its trace run again, which prints the same.
use crate::asserts::{holds, is_equal};
use crate::doing::{CommandOutput, WIDE, perform, sorted_text};
use std::alloc::{AllocError, Global};
use std::process::Abort;
use std::sync::Wait;
use std::thread::Threads;

/// The result of a replay of the trace of a run of the script.
fn replayed<R: Threads + Wait + Sync + Abort>(
    rt: &R,
    alloc: Global,
    script: &[u8],
    run: &CommandOutput,
) -> Box<CommandOutput> {
    let sources = [Some(script), Some(run.trace.as_slice())];
    perform(rt, alloc, "replay f t", &sources, WIDE)
}

/// Returns true if these texts have the same lines, in some order.
fn have_same_lines(rt: &impl Abort, alloc: Global, printed: &[u8], wanted: &[u8]) -> bool {
    let printed = sorted_text(alloc, printed).expect(rt, "memory");
    let meant = sorted_text(alloc, wanted).expect(rt, "memory");
    printed.as_slice() == meant.as_slice()
}

/// Returns true if a run printed these lines in some order, said nothing, and ended with this status.
fn is_wanted(
    rt: &impl Abort,
    alloc: Global,
    run: &CommandOutput,
    wanted: &[u8],
    status: u8,
) -> bool {
    let has_lines = have_same_lines(rt, alloc, run.out.as_slice(), wanted);
    has_lines && run.err.is_empty() && run.status == status
}

/// Returns true if a run printed the same as another, said nothing, and ended with this status.
fn is_same(again: &CommandOutput, run: &CommandOutput, status: u8) -> bool {
    again.out.as_slice() == run.out.as_slice() && again.err.is_empty() && again.status == status
}

/// Returns true if a run of the script prints these lines in some order, says nothing, and ends with this status, and its trace run again
/// prints the same.
pub fn runs_to<R: Threads + Wait + Sync + Abort>(
    rt: &R,
    alloc: Global,
    script: &[u8],
    wanted: &[u8],
    status: u8,
) -> bool {
    let run = perform(rt, alloc, "run f --trace t", &[Some(script)], WIDE);
    let again = replayed(rt, alloc, script, &run);
    is_same(&again, &run, status) && is_wanted(rt, alloc, &run, wanted, status)
}

/// The first of these scripts that does not run to what stands beside it.
fn first_other<R: Threads + Wait + Sync + Abort>(
    rt: &R,
    alloc: Global,
    rows: &[(&[u8], &[u8], u8)],
) -> Option<usize> {
    for (place, (script, wanted, status)) in rows.iter().enumerate() {
        if !runs_to(rt, alloc, script, wanted, *status) {
            return Some(place);
        }
    }
    None
}

/// Each of these scripts runs to what stands beside it.
pub fn run_to<R: Threads + Wait + Sync + Abort>(
    rt: &R,
    alloc: Global,
    rows: &[(&[u8], &[u8], u8)],
) {
    is_equal(rt, first_other(rt, alloc, rows), None);
}

/// Branches and waits, with what their runs print or say, and the status.
const BRANCHES: [(&[u8], &[u8], u8); 4] = [
    (b"if (true) { }", b"", 0),
    (
        b"int x; boolean b; if (b) { x = 1; } else { x = 2; } b = 3 > 2; printf(\"%i\", x);",
        b"1\n",
        0,
    ),
    (
        b"boolean b; boolean c; b = c; c = b; if (b) { printf(\"t\"); }",
        b"swt: blocked 22 /\nswt: blocked 29 /\nswt: blocked 36 /\n",
        4,
    ),
    (
        b"int x = 1; int y; int z; y = z; z = y; wait (x) { wait (y) { printf(\"q\"); } }",
        b"swt: blocked 25 /\nswt: blocked 32 /\nswt: blocked 50 /\n",
        4,
    ),
];

/// Calls, also in a chain that is as long as can be: 1,024 of them, each in a branch.
const CALLS: [(&[u8], &[u8], u8); 3] = [
    (
        b"(int r) fib(int n) { if (n < 2) { r = n; } else { r = fib(n-1) + fib(n-2); } } printf(\"%i\", fib(10));",
        b"55\n",
        0,
    ),
    (
        b"(int a, int b) two(int n) { a = n + 1; b = a * 2; } int p; int q; (p, q) = two(3); printf(\"%i %i\", p, q);",
        b"4 8\n",
        0,
    ),
    (
        b"(int r) f(int n) { if (n == 0) { r = 0; } else { r = f(n - 1); } } printf(\"%i\", f(1023));",
        b"0\n",
        0,
    ),
];

/// Faults and blocked statements inside of calls and branches.
const INNER: [(&[u8], &[u8], u8); 3] = [
    (
        b"(int r) f(int n) { r = 1 %/ n; } if (true) { printf(\"%i\", f(0)); }",
        b"swt: fault F2 DivideByZero 19 /33.0/58.0\n",
        3,
    ),
    (
        b"int y; int z; y = z; z = y; printf(\"%i\", 1 %/ 0 + y);",
        b"swt: blocked 14 /\nswt: blocked 21 /\nswt: blocked 28 /\n",
        4,
    ),
    (
        b"int y; int z; y = z; z = y; if (true) { if (false) { } else { printf(\"%i\", y); } }",
        b"swt: blocked 14 /\nswt: blocked 21 /\nswt: blocked 62 /28.0/40.1\n",
        4,
    ),
];

#[test]
fn branches_waits_and_calls(rt: HostRuntime) {
    run_to(&rt, rt.alloc(), &BRANCHES);
    run_to(&rt, rt.alloc(), &CALLS);
    run_to(&rt, rt.alloc(), &INNER);
}

/// Arrays that loops write, and one that waits for itself.
const ARRAYS: [(&[u8], &[u8], u8); 4] = [
    (
        b"int A[]; A[0] = 1; foreach i in [1:5] { A[i] = A[i-1] * 2; } printf(\"%i\", A[5]);",
        b"32\n",
        0,
    ),
    (
        b"int A[]; int n; foreach i in [0:2] { if (i == n) { A[i] = i; } } n = 1; printf(\"%i\", size(A));",
        b"1\n",
        0,
    ),
    (
        b"int A[]; foreach i in [5:4] { A[i] = i; } printf(\"%i\", size(A));",
        b"0\n",
        0,
    ),
    (b"int A[]; A[0] = size(A);", b"swt: blocked 9 /\n", 4),
];

/// Loops up to the greatest number, in a function, and after a fault.
const LOOPS: [(&[u8], &[u8], u8); 4] = [
    (
        b"foreach i in [9223372036854775806:9223372036854775807] { printf(\"%i\", i); }",
        b"9223372036854775806\n9223372036854775807\n",
        0,
    ),
    (
        b"(int B[]) g(int m) { foreach i in [0:m-1] { B[i] = i*i; } } int C[]; C = g(4); printf(\"%i %i\", size(C), C[3]);",
        b"4 9\n",
        0,
    ),
    (
        b"int A[]; int y; int z; y = z; z = y; A[0] = 1; printf(\"%i\", A[1 %/ 0] + y);",
        b"swt: fault F2 DivideByZero 47 /\n",
        3,
    ),
    (
        b"foreach v, k in [10:20:5] { printf(\"%i %i\", k, v); }",
        b"0 10\n1 15\n2 20\n",
        0,
    ),
];

/// Array literals, a key below 0, and turns that are blocked.
const ELEMENTS: [(&[u8], &[u8], u8); 3] = [
    (
        b"int A[] = [3, 1]; int B[]; B = A; foreach v, k in B { printf(\"%i %i\", k, v); }",
        b"0 3\n1 1\n",
        0,
    ),
    (b"int A[]; A[-2] = 5; printf(\"%i\", A[-2]);", b"5\n", 0),
    (
        b"int y; int z; y = z; z = y; foreach i in [-1:0] { printf(\"%i\", i + y); }",
        b"swt: blocked 14 /\nswt: blocked 21 /\nswt: blocked 50 /28.0\nswt: blocked 50 /28.1\n",
        4,
    ),
];

#[test]
fn arrays_and_loops(rt: HostRuntime) {
    run_to(&rt, rt.alloc(), &ARRAYS);
    run_to(&rt, rt.alloc(), &LOOPS);
    run_to(&rt, rt.alloc(), &ELEMENTS);
}

/// Faults of elements and of a range.
const ELEMENT_FAULTS: [(&[u8], &[u8], u8); 3] = [
    (
        b"int A[]; A[0] = 1; A[A[0] - 1] = 2;",
        b"swt: fault F4 ElementTwice 19 /\n",
        3,
    ),
    (
        b"int A[]; A[0] = 1; printf(\"%i\", A[3]);",
        b"swt: fault F3 NoElement 19 /\n",
        3,
    ),
    (
        b"foreach i in [0:4294967296] { }",
        b"swt: fault F1 Overflow 0 /\n",
        3,
    ),
];

/// Faults of a step, of a division and of an assertion.
const OTHER_FAULTS: [(&[u8], &[u8], u8); 3] = [
    (
        b"foreach i in [1:0:0] { }",
        b"swt: fault F5 BadStep 0 /\n",
        3,
    ),
    (
        b"int A[]; A[1 + 1] = 3 * 3; A[1 %/ 0] = 1;",
        b"swt: fault F2 DivideByZero 27 /\n",
        3,
    ),
    (
        b"foreach i in [0:2] { assert(i != 1, \"m\"); }",
        b"swt: fault F8 AssertFailed 21 /0.1\n",
        3,
    ),
];

#[test]
fn faults(rt: HostRuntime) {
    run_to(&rt, rt.alloc(), &ELEMENT_FAULTS);
    run_to(&rt, rt.alloc(), &OTHER_FAULTS);
}

/// Adds a number, with its end of a line, to a text.
fn add_number(alloc: Global, number: u32, text: &mut Vec<u8>) -> Result<(), AllocError> {
    let line = format!(in alloc; "{number}\n")?;
    text.extend_from_slice(line.as_str().as_bytes())?;
    Ok(())
}

/// The numbers from 1 to 1000, a line each.
fn thousand_lines(alloc: Global) -> Result<Vec<u8>, AllocError> {
    let mut text = Vec::new(alloc);
    for i in 1..1001u32 {
        add_number(alloc, i, &mut text)?;
    }
    Ok(text)
}

/// A thousand turns of a loop are made in chunks of 64.
#[test]
fn long_loop(rt: HostRuntime) {
    let wanted = thousand_lines(rt.alloc()).expect(&rt, "memory");
    let script = b"foreach i in [1:1000] { printf(\"%i\", i); }";
    holds(&rt, runs_to(&rt, rt.alloc(), script, wanted.as_slice(), 0));
}

/// Adds 2,047 of these steps, and the end of a line, to a text.
fn add_steps(text: &mut String, step: &str) -> Result<(), AllocError> {
    for _ in 1..2048u32 {
        text.push_str(step)?;
    }
    text.push_str("\n")?;
    Ok(())
}

/// The report of a fault at the 2,048th step of a path, by its offset with the first step, and the others.
fn too_deep_at(alloc: Global, first: &str, others: &str) -> Result<String, AllocError> {
    let mut text = format!(in alloc; "swt: fault F6 TooDeep {first}")?;
    add_steps(&mut text, others)?;
    Ok(text)
}

/// The script has a fault at the 2,048th step of its path, of which the first step and the others are these.
fn is_too_deep<R: Threads + Wait + Sync + Abort>(
    rt: &R,
    alloc: Global,
    script: &[u8],
    first: &str,
    others: &str,
) {
    let wanted = too_deep_at(alloc, first, others).expect(rt, "memory");
    holds(
        rt,
        runs_to(rt, alloc, script, wanted.as_str().as_bytes(), 3),
    );
}

/// A function that calls itself without end has a fault at the 2,048th step of its path.
#[test]
fn too_deep(rt: HostRuntime) {
    let script = b"(int r) f(int n) { r = f(n + 1); } printf(\"%i\", f(0));";
    is_too_deep(&rt, rt.alloc(), script, "19 /48.0", "/23.0");
}

/// A function that would pass its caller's array to itself leaves the array open: its size is never printed.
#[test]
fn an_array_that_calls_may_write_stays_open(rt: HostRuntime) {
    let script =
        b"(int B[]) f(int n) { B = f(n + 1); } int A[]; A = f(0); printf(\"%i\", size(A));";
    is_too_deep(&rt, rt.alloc(), script, "21 /50.0", "/25.0");
}
