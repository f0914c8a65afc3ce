//! Arrays with texts as keys: every order in which some scripts can run, each compared with the expected output.

use crate::runs::order_tests::{RunResults, always};
use tests_codes::scripts::two_texts_of_one_hash;

#[test]
fn every_order_of_two_texts_of_one_hash(rt: HostRuntime) {
    let script = two_texts_of_one_hash(rt.alloc()).expect(&rt, "memory");
    let worked = RunResults {
        lines: &[b"2"],
        ends: &[b""],
        has_faults: false,
    };
    always(&rt, rt.alloc(), script.as_slice(), &worked);
}

#[test]
fn every_order_of_texts(rt: HostRuntime) {
    let twice = RunResults {
        lines: &[],
        ends: &[
            b"swt: fault F4 ElementTwice 15 /\n",
            b"swt: fault F4 ElementTwice 27 /\n",
        ],
        has_faults: true,
    };
    let script = b"int A[string]; A[\"x\"] = 1; A[\"\" + \"x\"] = 2;";
    always(&rt, rt.alloc(), script, &twice);
    let turns = RunResults {
        lines: &[b"a 2", b"b 1"],
        ends: &[b""],
        has_faults: false,
    };
    let script =
        b"int A[string]; A[\"b\"] = 1; A[\"a\"] = 2; foreach v, k in A { printf(\"%s %i\", k, v); }";
    always(&rt, rt.alloc(), script, &turns);
}
