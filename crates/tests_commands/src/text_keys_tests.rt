//! Arrays with texts as keys: runs and their replays, each compared with the expected output.

use crate::asserts::holds;
use crate::whole_tests::{run_to, runs_to};
use tests_codes::scripts::two_texts_of_one_hash;

/// Elements, a loop over them, and paths that texts are in.
const ELEMENTS: [(&[u8], &[u8], u8); 4] = [
    (
        b"int A[string]; A[\"b\"] = 1; A[\"a\"] = 2; A[\"B\"] = 3; foreach v, k in A { printf(\"%s%i\", k, v); }",
        b"B3\na2\nb1\n",
        0,
    ),
    (
        b"int A[string]; A[\"longname1\"] = 1; A[\"longname2\"] = 2; printf(\"%i\", size(A));",
        b"2\n",
        0,
    ),
    (
        b"int A[string]; A[\"a\\\"b\"] = 1; int y; int z; y = z; z = y; foreach v, k in A { printf(\"%s %i\", k, y); }",
        b"swt: blocked 44 /\nswt: blocked 51 /\nswt: blocked 78 /58.\"a\\\"b\"\n",
        4,
    ),
    (
        b"int A[string]; printf(\"%i\", A[\"w\"]);",
        b"swt: fault F3 NoElement 15 /\n",
        3,
    ),
];

/// Whole arrays: a copy, an argument and an output, and a chain of elements.
const WHOLE: [(&[u8], &[u8], u8); 3] = [
    (
        b"(int B[string]) g(int C[string]) { foreach v, k in C { B[k + \"!\"] = v; } } int A[string]; A[\"a\"] = 1; A[\"\"] = 2; int D[string] = A; int E[string]; E = g(D); foreach v, k in E { printf(\"%s %i\", k, v); }",
        b"a! 1\n! 2\n",
        0,
    ),
    (
        b"int A[string]; A[\"0\"] = 1; foreach i in [1:5] { A[fromint(i)] = A[fromint(i-1)] * 2; } printf(\"%i\", A[\"5\"]);",
        b"32\n",
        0,
    ),
    (
        b"int A[string]; A[\"n\"] = size(A);",
        b"swt: blocked 15 /\n",
        4,
    ),
];

/// The blocked turns of a loop over texts are printed in the order of their bytes, not of their spelling in a path.
const BY_BYTES: (&[u8], &[u8], u8) = (
    b"int A[string]; A[\"a\"] = 1; A[\"\\n\"] = 2; A[\"!\"] = 3; int y; int z; y = z; z = y; foreach v, k in A { printf(\"%i\", y); }",
    b"swt: blocked 66 /\nswt: blocked 73 /\nswt: blocked 100 /80.\"\\n\"\nswt: blocked 100 /80.\"!\"\nswt: blocked 100 /80.\"a\"\n",
    4,
);

#[test]
fn texts_are_keys(rt: HostRuntime) {
    run_to(&rt, rt.alloc(), &ELEMENTS);
    run_to(&rt, rt.alloc(), &WHOLE);
    run_to(&rt, rt.alloc(), &[BY_BYTES]);
}

#[test]
fn two_texts_have_one_hash(rt: HostRuntime) {
    let script = two_texts_of_one_hash(rt.alloc()).expect(&rt, "memory");
    holds(&rt, runs_to(&rt, rt.alloc(), script.as_slice(), b"2\n", 0));
}
