//! Commands on small scripts: what they print, what they say, the trace, and the status.
use crate::asserts::{holds, is_equal};
use crate::doing::{LimitedSink, WIDE, perform};
use std::alloc::Global;
use std::process::Abort;
use std::sync::Wait;
use std::thread::Threads;
use swt_command::trouble::write_failure;
use swt_status::failure::CommandFailure;

const HELLO: &[u8] = b"printf(\"hello\");";

const TWICE: &[u8] = b"int x = 1; x = 2;";

const TRACE: &[u8] = b"swt-trace 1\nB 0 1\nE 0 1\n";

/// The output, the error output and the trace of a command, and its status, in one text.
fn done_in<R: Threads + Wait + Sync + Abort>(
    rt: &R,
    alloc: Global,
    line: &str,
    sources: &[Option<&[u8]>],
    rooms: (usize, usize),
) -> String {
    let done = perform(rt, alloc, line, sources, rooms);
    done.text(rt, alloc)
}

/// A command over these files, with these rooms for what is printed and for the trace, does so.
fn does<R: Threads + Wait + Sync + Abort>(
    rt: &R,
    alloc: Global,
    line: &str,
    sources: &[Option<&[u8]>],
    rooms: (usize, usize),
    wanted: &str,
) {
    let text = done_in(rt, alloc, line, sources, rooms);
    is_equal(rt, text.as_str(), wanted);
}

/// With this line a command over one file, with room for all, does so.
fn does_so<R: Threads + Wait + Sync + Abort>(
    rt: &R,
    alloc: Global,
    line: &str,
    source: &[u8],
    wanted: &str,
) {
    does(rt, alloc, line, &[Some(source)], WIDE, wanted);
}

/// The result of the command for each of these files.
fn each_does_so<R: Threads + Wait + Sync + Abort>(
    rt: &R,
    alloc: Global,
    line: &str,
    rows: &[(&[u8], &str)],
) {
    for (source, wanted) in rows {
        does_so(rt, alloc, line, source, wanted);
    }
}

/// Scripts with what their runs print and say: one that is empty, two that print, and one that is refused.
const PRINTING: [(&[u8], &str); 4] = [
    (b"", "|||0"),
    (HELLO, "hello\n|||0"),
    (b"int x = 5; printf(\"%i %d%%\", x, 7);", "5 7%\n|||0"),
    (b"printf(\"%i\", y);", "|swt: refused Y1 Unknown 13 14\n||1"),
];

/// Variables that are used before they are set, a circle of two, and a sum that is too large.
const WAITING: [(&[u8], &str); 4] = [
    (
        b"int x; int y; x = y + 1; y = 2; printf(\"%i\", x);",
        "3\n|||0",
    ),
    (
        b"int x; int y; x = y; y = x; printf(\"%i\", x);",
        "swt: blocked 14 /\nswt: blocked 21 /\nswt: blocked 28 /\n|||4",
    ),
    (
        b"int x = 9223372036854775807 + 1; printf(\"%i\", x);",
        "swt: fault F1 Overflow 0 /\n|||3",
    ),
    (
        b"int a; int b; b = a * a - 1; a = 3 - 5; printf(\"%i\", b);",
        "3\n|||0",
    ),
];

/// A branch without statements, division, texts and numbers.
const COMPUTING: [(&[u8], &str); 4] = [
    (b"if (true) { }", "|||0"),
    (
        b"printf(\"%i %i %i\", -7 %/ 2, -7 %% 2, 7 %% -2);",
        "-3 -1 1\n|||0",
    ),
    (
        b"printf(\"%s\", strcat(\"a\", fromint(toint(\"-007\"))));",
        "a-7\n|||0",
    ),
    (
        b"printf(\"%i\", toint(\"1x\"));",
        "swt: fault F7 NotANumber 0 /\n|||3",
    ),
];

/// Assertions, and joined texts.
const ASSERTING: [(&[u8], &str); 5] = [
    (
        b"assert(1 == 2, \"m\");",
        "swt: fault F8 AssertFailed 0 /\n|||3",
    ),
    (
        b"boolean b; boolean c; c = b; b = c; boolean d = false && b; assert(d, \"m\");",
        "swt: blocked 22 /\nswt: blocked 29 /\nswt: blocked 36 /\nswt: blocked 60 /\n|||4",
    ),
    (
        b"string s = t + \"b\" + t; string t; (t) = strcat(\"a\"); printf(\"%s\", s);",
        "|swt: refused Y1 Unknown 11 12\n||1",
    ),
    (
        b"string t; string s = t + \"b\" + t; (t) = strcat(\"a\"); printf(\"%s\", s);",
        "aba\n|||0",
    ),
    (
        b"int n = 3; boolean b = !(n < 2 || n == 5); assert(b && n >= 3 && \"x\" != \"y\", \"m\"); printf(\"%i\", -n);",
        "-3\n|||0",
    ),
];

#[test]
fn runs_scripts(rt: HostRuntime) {
    each_does_so(&rt, rt.alloc(), "run f", &PRINTING);
    each_does_so(&rt, rt.alloc(), "run f", &WAITING);
    each_does_so(&rt, rt.alloc(), "run f", &COMPUTING);
    each_does_so(&rt, rt.alloc(), "run f", &ASSERTING);
}

/// Returns true if this is one of two texts.
fn is_either(text: &str, one: &str, other: &str) -> bool {
    text == one || text == other
}

#[test]
fn runs_a_script_in_either_order(rt: HostRuntime) {
    let script = b"printf(\"a\"); @prio=5 printf(\"b\");";
    let both = done_in(&rt, rt.alloc(), "run f", &[Some(script)], WIDE);
    holds(&rt, is_either(both.as_str(), "a\nb\n|||0", "b\na\n|||0"));
}

#[test]
fn takes_options(rt: HostRuntime) {
    let traced = "hello\n||swt-trace 2\nB 0 1\nE 0 1\nB 1 2\nE 1 2\nQ\n|0";
    let rows: [(&str, &str); 6] = [
        ("run f --engines 1 --workers 1 --trace t", traced),
        ("run f --steps 1", "swt: limit 1\n|||5"),
        ("run f --engines 63 --workers 2", "|swt: bad count\n||2"),
        ("run f --engines 63 --workers 1", "hello\n|||0"),
        ("mean f --rounds 1", "hello\n|||0"),
        ("code f", "body 0 script\n  1 leaf print 0 0\n|||0"),
    ];
    for (line, wanted) in rows {
        does_so(&rt, rt.alloc(), line, HELLO, wanted);
    }
}

#[test]
fn says_what_scripts_mean(rt: HostRuntime) {
    let swapped = b"int x; int y; x = y + 1; y = 2; printf(\"%i\", x);";
    does_so(
        &rt,
        rt.alloc(),
        "mean f --rounds 2",
        swapped,
        "swt: blocked 32 /\nswt: limit 2\n|||5",
    );
    let rows: [(&[u8], &str); 5] = [
        (swapped, "3\n|||0"),
        (b"if (true) { printf(\"in\"); }", "in\n|||0"),
        (
            b"printf(\"b\"); int x = 9223372036854775807 + 1; printf(\"a\");",
            "a\nb\nswt: fault F1 Overflow 13 /\n|||3",
        ),
        (
            b"int x; int y; x = y; y = x;",
            "swt: blocked 14 /\nswt: blocked 21 /\n|||4",
        ),
        (
            b"int x = 1; x = 2;",
            "|swt: refused S1 AssignedTwice 11 12\n||1",
        ),
    ];
    each_does_so(&rt, rt.alloc(), "mean f", &rows);
}

/// A check refuses the script so.
fn is_refused<R: Threads + Wait + Sync + Abort>(
    rt: &R,
    alloc: Global,
    source: &[u8],
    refusal: &str,
) {
    let wanted = format!(in alloc; "f: refused {refusal}\n|||1").expect(rt, "memory");
    does_so(rt, alloc, "check f", source, wanted.as_str());
}

/// Refused scripts: the refusal, and the script.
const REFUSED: &str = r#"L1 BadByte 0 1 | #
L2 BadNumber 0 2 | 01
L3 OpenString 0 2 | "a
L4 OpenComment 0 2 | /*
L5 BadEscape 8 10 | printf("\q");
P2 Unexpected 19 20 | printf("%i", 1 < 2 < 3);
S1 AssignedTwice 11 12 | int x = 1; x = 2;
S2 PartlyAssigned 25 27 | boolean b = true; int x; if (b) { x = 1; } printf("%i", x);
S3 NeverAssigned 4 5 | int x; printf("%i", x);
S4 OuterInLoop 28 29 | int x; foreach i in [0:1] { x = i; }
S5 WholeAndElements 15 16 | int A[] = [1]; A[2] = 3;
S6 OutputUnassigned 5 6 | (int r) f() { }
Y1 Unknown 13 14 | printf("%i", y);
Y2 Declared 15 16 | int x = 1; int x = 2;
Y3 Mismatch 17 18 | string s = "a" + 1;
Y3 Mismatch 8 15 | int x = fromint(3);
Y4 WrongCount 0 6 | printf("%i");
Y5 BadFormat 7 11 | printf("%q");
Y6 NotAFunction 0 3 | foo(1);"#;

#[test]
fn refuses_scripts(rt: HostRuntime) {
    for row in REFUSED.lines() {
        let (refusal, script) = row.split_once(" | ").expect(&rt, "a row has two parts");
        is_refused(&rt, rt.alloc(), script.as_bytes(), refusal);
    }
}

#[test]
fn accepts_the_whole_language(rt: HostRuntime) {
    let scripts: [&[u8]; 7] = [
        HELLO,
        b"",
        b"int A[];",
        b"(int r) fib(int n) { if (n < 2) { r = n; } else { r = fib(n-1) + fib(n-2); } } printf(\"%i\", fib(10));",
        b"int A[]; A[0] = 1; foreach i in [1:5] { A[i] = A[i-1] * 2; } printf(\"%i\", A[5]);",
        b"int x = 1; int y; int z; y = z; z = y; wait (x) { wait (y) { printf(\"q\"); } }",
        b"(int B[]) g(int m) { foreach i in [0:m-1] { B[i] = i*i; } } int C[]; C = g(4); printf(\"%i %i\", size(C), C[3]);",
    ];
    for script in scripts {
        does_so(&rt, rt.alloc(), "check f", script, "f: accepted\n|||0");
    }
}

/// The trace of a run of a script that prints a line, run again, does so.
fn replays<R: Threads + Wait + Sync + Abort>(rt: &R, alloc: Global, trace: &[u8], wanted: &str) {
    let sources = [Some(HELLO), Some(trace)];
    does(rt, alloc, "replay f t", &sources, WIDE, wanted);
}

#[test]
fn replays_traces(rt: HostRuntime) {
    let rows: [(&[u8], &str); 8] = [
        (b"swt-trace 1\nB 0 1\nE 0 1\nB 1 2\nE 1 2\n", "hello\n|||0"),
        (b"swt-trace 1\nB 0 1\nE 0 1\nB 1 2\n", "swt: limit 3\n|||5"),
        (b"swt-trace 1\nB 0 1\nE 0 1\nB 1", "|swt: T1 BadLine 4\n||7"),
        (
            b"swt-trace 1\nB 0 1\nE 0 1\nB 1 2\nE 1 2\nE 1 2\n",
            "|swt: T2 NotARun 6\n||7",
        ),
        (b"", "|swt: T1 BadLine 1\n||7"),
        (b"swt-trace 2\nB 0 1\nL\n", "swt: limit 1\n|||5"),
        (b"swt-trace 2\nB 0 1\nQ\n", "|swt: T3 WrongEnd 3\n||7"),
        (b"swt-trace 2\nB 0 1\n", "|swt: T1 BadLine 3\n||7"),
    ];
    for (trace, wanted) in rows {
        replays(&rt, rt.alloc(), trace, wanted);
    }
}

#[test]
fn stops_at_a_file(rt: HostRuntime) {
    let lacks = "|swt: cannot read f\n||7";
    does(&rt, rt.alloc(), "run f", &[None], WIDE, lacks);
    does(&rt, rt.alloc(), "mean f", &[None], WIDE, lacks);
    let none = "|swt: cannot read a\n||7";
    does(&rt, rt.alloc(), "check a", &[], WIDE, none);
}

#[test]
fn stops_at_a_trace(rt: HostRuntime) {
    let line = "replay f t";
    let lacks = "|swt: cannot read f\n||7";
    does(&rt, rt.alloc(), line, &[None, None], WIDE, lacks);
    let lacks = "|swt: cannot read t\n||7";
    does(&rt, rt.alloc(), line, &[Some(HELLO), None], WIDE, lacks);
    let refused = "|swt: refused S1 AssignedTwice 11 12\n||1";
    does(&rt, rt.alloc(), line, &[Some(TWICE), None], WIDE, refused);
}

#[test]
fn checks_files_up_to_one_that_lacks(rt: HostRuntime) {
    let all = "a: refused S1 AssignedTwice 11 12\nb: accepted\n|||1";
    let sources = [Some(TWICE), Some(HELLO)];
    does(&rt, rt.alloc(), "check a b", &sources, WIDE, all);
    let part = "a: refused S1 AssignedTwice 11 12\n|swt: cannot read b\n||7";
    let sources = [Some(TWICE), None, Some(HELLO)];
    does(&rt, rt.alloc(), "check a b c", &sources, WIDE, part);
}

#[test]
fn stops_at_a_write(rt: HostRuntime) {
    let line = "run f --trace t";
    let part = "hel|swt: cannot write\n||7";
    does(&rt, rt.alloc(), line, &[Some(HELLO)], (3, 1000), part);
    let part = "hello\n|swt: cannot write\n|swt-trace 2\nB 0 1\nE |7";
    does(&rt, rt.alloc(), line, &[Some(HELLO)], (6, 20), part);
    let part = "|swt: cannot write\n||7";
    does(&rt, rt.alloc(), "mean f", &[Some(HELLO)], (0, 0), part);
}

#[test]
fn stops_at_a_write_among_others(rt: HostRuntime) {
    let part = "a: accepted\nb:|swt: cannot write\n||7";
    let sources = [Some(HELLO), Some(HELLO)];
    does(&rt, rt.alloc(), "check a b", &sources, (14, 0), part);
    let part = "swt: limit 2|swt: cannot write\n||7";
    let sources = [Some(HELLO), Some(TRACE)];
    does(&rt, rt.alloc(), "replay f t", &sources, (12, 0), part);
}

/// No memory: the line and the status, and a command of which any allocation may fail.
#[test]
fn lacks_memory(rt: HostRuntime) {
    let mut err = LimitedSink::new(rt.alloc(), 1000);
    holds(
        &rt,
        write_failure(CommandFailure::Memory, "f", &mut err).is_ok(),
    );
    is_equal(&rt, err.bytes.as_slice(), b"swt: no memory\n".as_slice());
    is_equal(&rt, CommandFailure::Memory.status().number(), 6);
}
