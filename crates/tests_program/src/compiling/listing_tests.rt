//! Listings of small scripts: each word of an entry, `else if`, merged waits, priorities, functions that are called before they stand, literals as arguments.
use crate::asserts::is_equal;
use compile::compile::{drawn, listed};
use std::alloc::Global;
use std::process::Abort;

const NOTHING: (&[u8], &str) = (b"", "body 0 script\n");

const SCALARS: (&[u8], &str) = (
    b"int x; int y; x = y + 1; y = 2; printf(\"%i\", x);",
    "body 0 script\n  1 leaf set 14 0 y\n  2 leaf set 25 0\n  3 leaf print 32 0 x\n",
);

const FIBONACCI: (&[u8], &str) = (
    b"(int r) fib(int n) { if (n < 2) { r = n; } else { r = fib(n-1) + fib(n-2); } } printf(\"%i\", fib(10));",
    "body 0 script\n  1 control call 92 0 > 1\n  2 leaf print 79 0 #1\nbody 1 function fib\n  1 leaf cell 25 0 n\n  2 control if 21 0 #1 > 2 3\nbody 2 then\n  1 leaf set 34 0 n\nbody 3 else\n  1 leaf cell 58 0 n\n  2 control call 54 0 > 1\n  3 leaf cell 69 0 n\n  4 control call 65 0 > 1\n  5 leaf set 50 0 #2 #4\n",
);

const MERGED_WAITS: (&[u8], &str) = (
    b"int x = 1; int y; int z; y = z; z = y; wait (x) { wait (y) { printf(\"q\"); } }",
    "body 0 script\n  1 leaf set 0 0\n  2 leaf set 25 0 z\n  3 leaf set 32 0 y\n  4 control wait 39 0 x y > 1\nbody 1 wait\n  1 leaf print 61 0\n",
);

const FOLDED: (&[u8], &str) = (
    b"int A[]; A[1 + 1] = 3 * 3; A[1 %/ 0] = 1;",
    "body 0 script\n  1 control put 9 0\n  2 leaf cell 29 0\n  3 control put 27 0 #2\n",
);

const ASSERTS: (&[u8], &str) = (
    b"assert((7) == (7), \"t\\t\");\nprintf(\"%s\\nx\", strcat(strcat(\"\\\\\", \"q\\\"t\")));\n",
    "body 0 script\n  1 leaf assert 0 0\n  2 leaf print 27 0\n",
);

const RANGES: (&[u8], &str) = (
    b"int x1 = 18;\nint x2 = toint(\"-7\");\nforeach i3 in [0:3:1] { }\n",
    "body 0 script\n  1 leaf set 0 0\n  2 leaf set 13 0\n  3 control range 35 0 > 1\nbody 1 loop\n",
);

const FILLS: (&[u8], &str) = (
    b"printf(\"%%!\");\n(boolean r2[]) f1(int n3) {  if (n3 < 1) { r2 = [n3 != n3]; } else { int x4 = n3; r2 = f1(n3 - 1); } }\nprintf(\"%d\", 23);\n",
    "body 0 script\n  1 leaf print 0 0\n  2 leaf print 118 0\nbody 1 function f1\n  1 leaf cell 48 0 n3\n  2 control if 44 0 #1 > 2 3\nbody 2 then\n  1 leaf fill 58 0 n3\nbody 3 else\n  1 leaf set 84 0 n3\n  2 leaf cell 105 0 n3\n  3 control call 102 0 > 1\n",
);

const READS: (&[u8], &str) = (
    b"() v(int n) { } (int H[]) h(int n) { H[0] = n; } (int p, int W[]) twa(int n) { p = n; W[0] = 2; } (int p, int q) two(int n) { p = n; q = 2; } (int r) g(int n) { r = n; } int a; int b; int c; int Q[]; int R[]; Q[Q[0]] = g(1); ",
    "body 0 script\n  1 control read 211 0 Q[*]\n  2 control call 219 0 > 5\n  3 leaf cell 219 0 #2\n  4 control put 209 0 #1 #3\nbody 1 function v\nbody 2 function h\n  1 control put 37 0 n\nbody 3 function twa\n  1 leaf set 79 0 n\n  2 control put 86 0\nbody 4 function two\n  1 leaf set 126 0 n\n  2 leaf set 133 0\nbody 5 function g\n  1 leaf set 161 0 n\n",
);

const ELSE_IF: (&[u8], &str) = (
    b"(boolean r2, string r3) f1(string n4) { r3 = n4; r2 = 1 > 4; if ((strcat(\"\\n\")) == fromint(5) && 3 + 10 - 5 <= 0 * 11 %% 7 && n4 == \"q\\\"t\" + r3 + \"\") { wait (r2) { int x5; x5 = (((9223372036854775807 %% 100) %/ 1) %/ -1) %% -2; } } else if (r2) { } else { } }\nprintf(\"%d%d!\", 7 * 5 %% 26+6 - 1 %% 5, 29);\nstring t7;\n@prio=-1000000 printf(\"\");\nboolean t6;\n(t6, t7) = f1((\"zz\"));\n",
    "body 0 script\n  1 leaf print 260 0\n  2 leaf print 316 -1000000\n  3 control call 366 0 > 1\nbody 1 function f1\n  1 leaf set 40 0 n4\n  2 leaf set 49 0\n  3 leaf cell 65 0 n4 r3\n  4 control if 61 0 #3 > 2 4\nbody 2 then\n  1 control wait 152 0 r2 > 3\nbody 3 wait\n  1 leaf set 172 0\nbody 4 else\n  1 control if 237 0 r2 > 5 6\nbody 5 then\nbody 6 else\n",
);

const COPIES: (&[u8], &str) = (
    b"(int r2, boolean r3, int r4) f1(string n5[], int n6) { int A7[]; A7 = [n6, n6 * -n6 %% 25, n6, (23)]; r3 = 25 > 10 %% 2; if (n6 >= n6+(9223372036854775807 %% 100)) { if (true) { r2 = 7; string A8[]; } else { int A9[] = A7; r2 = n6; } printf(\"p%i x\", n6); } else if (r3) { r2 = 16; } else { r2 = n6; } r4 = (toint(fromint(6))+n6) - r2; }\nprintf(\"x\");\nforeach i10 in [0:2] { string x11 = strcat(fromint(i10)); printf(\"!\"); }\n",
    "body 0 script\n  1 leaf print 337 0\n  2 control range 350 0 > 8\nbody 1 function f1\n  1 leaf fill 65 0 n6\n  2 leaf set 102 0\n  3 leaf cell 125 0 n6\n  4 control if 121 0 #3 > 2 5\n  5 leaf set 301 0 n6 r2\nbody 2 then\n  1 control if 166 0 > 3 4\n  2 leaf print 234 0 n6\nbody 3 then\n  1 leaf set 178 0\nbody 4 else\n  1 control copy 208 0 A7[]\n  2 leaf set 223 0 n6\nbody 5 else\n  1 control if 262 0 r3 > 6 7\nbody 6 then\n  1 leaf set 272 0\nbody 7 else\n  1 leaf set 290 0 n6\nbody 8 loop\n  1 leaf set 373 0 i10\n  2 leaf print 408 0\n",
);

const LOOPS: (&[u8], &str) = (
    b"printf(\"p\");\nint x2 = 11+10;\nint A3[] = [x2];\nif (x2 <= x2) { foreach i5, k6 in A3 { } printf(\"p%i%i\", x2+7, x2); printf(\" %ix\", A3[0]); boolean A4[]; wait (A3) { A4[1] = (x2) < 9223372036854775807 %% 100; A4[2] = 7 %/ -5 >= x2; } A4[4] = x2 != 6 || A4[1]; A4[3] = A4[1]; }\nstring x1;\n@prio=1 printf(\" \");\nforeach i7, k8 in A3 { printf(\"!\"); }\nx1 = strcat((\"\\\\\" + \"\\n\") + (\"t\\t\" + \"q\\\"t\"), fromint(5) + (\"100%\" + \"100%\") + (\"q\\\"t\" + \"b\"), \"/*\" + (\"\\n\" + \"//\"));\n",
    "body 0 script\n  1 leaf print 0 0\n  2 leaf set 13 0\n  3 leaf fill 29 0 x2\n  4 leaf cell 50 0 x2\n  5 control if 46 0 #4 > 1\n  6 leaf print 285 1\n  7 control each 306 0 A3[] > 4\n  8 leaf set 344 0\nbody 1 then\n  1 control each 62 0 A3[] > 2\n  2 leaf print 87 0 x2\n  3 control read 129 0 A3[*]\n  4 leaf print 114 0 #3\n  5 control wait 151 0 A3[] > 3\n  6 control read 250 0 A4[*]\n  7 leaf cell 239 0 x2 #6\n  8 control put 231 0 #7\n  9 control read 265 0 A4[*]\n  10 control put 257 0 #9\nbody 2 loop\nbody 3 wait\n  1 leaf cell 171 0 x2\n  2 control put 163 0 #1\n  3 leaf cell 214 0 x2\n  4 control put 206 0 #3\nbody 4 loop\n  1 leaf print 329 0\n",
);

/// The script has this listing.
fn is_listed(rt: &impl Abort, alloc: Global, script: &[u8], wanted: &str) {
    let found = listed(alloc, alloc, script).expect(rt, "a script");
    is_equal(rt, found.text(), wanted.as_bytes());
}

/// Each of these scripts has its listing.
fn are_listed(rt: &impl Abort, alloc: Global, rows: &[(&[u8], &str)]) {
    for (script, wanted) in rows {
        is_listed(rt, alloc, script, wanted);
    }
}

#[test]
fn lists_code(rt: HostRuntime) {
    are_listed(&rt, rt.alloc(), &[NOTHING, SCALARS, FIBONACCI]);
    are_listed(&rt, rt.alloc(), &[MERGED_WAITS, FOLDED, ASSERTS]);
    are_listed(&rt, rt.alloc(), &[RANGES, FILLS, READS]);
    are_listed(&rt, rt.alloc(), &[ELSE_IF, COPIES, LOOPS]);
}

const DRAWING: &str = "digraph code {
  node [shape=box];
  subgraph cluster_0 {
    label=\"body 0 script\";
    b0 [shape=point];
    v2 [shape=ellipse, label=\"x\"];
    e0_1 [label=\"1 leaf set 0 0\"];
    e0_2 [label=\"2 control if 15 0\"];
  }
  e0_1 -> v2 [arrowhead=empty];
  v2 -> e0_2;
  e0_2 -> b1 [style=dashed];
  subgraph cluster_1 {
    label=\"body 1 then\";
    b1 [shape=point];
    e1_1 [label=\"1 leaf print 24 0\"];
  }
}
";

#[test]
fn draws_code(rt: HostRuntime) {
    let script = b"boolean x=true;if (x) { printf(\"x\"); }";
    let found = drawn(rt.alloc(), rt.alloc(), script).expect(&rt, "a script");
    is_equal(&rt, found.text(), DRAWING.as_bytes());
}
