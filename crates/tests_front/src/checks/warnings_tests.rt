//! Scripts with warnings, by code, name and place, and scripts without.

use crate::rows::are_warned;

const ODD: &str = r#"V1 NeverUsed 4 5 | int x;
V1 NeverUsed 4 6 | int x_ = 1;
V1 NeverUsed 15 16 | int x = 1; int y = x + x;
V1 NeverUsed 49 50 | string a = "k"; int A[string]; A[a] = 1; boolean b = A[a] == 1;
V2 NeverRead 4 5 | int x; x = 1;
V2 NeverRead 4 5 | int A[]; A[0] = 1;
V2 NeverRead 4 5 | int A[]; foreach i in [0:1] { A[i] = i; }
V2 NeverRead 22 23 | boolean b = true; int x; if (b) { x = 1; } else { x = 2; }
V2 NeverRead 48 49 | (int a, int b) f() { a = 1; b = 2; } int x; int y; (x, y) = f(); printf("%i", x);
V1 NeverUsed 53 54 | if (true) { int x = 1; printf("%i", x); } else { int x = 2; }
V1 NeverUsed 43 44 | (int r) f(int n) { int x = n; r = x; } int x = f(1);
V7 NeverCalled 8 9, V3 IdleInput 21 22 | (int r) f(int n, int m) { r = n; }
V7 NeverCalled 8 9, V7 NeverCalled 36 37, V3 IdleInput 42 43 | (int r) f(int n) { r = n; } (int r) g(int n) { r = 1; }
V4 EmptyRange 14 15, V8 EmptyBlock 19 20 | foreach i in [9:0] { }
V4 EmptyRange 14 15, V8 EmptyBlock 21 22 | foreach i in [9:0:3] { }
V7 NeverCalled 8 9, V4 EmptyRange 43 44 | (int r) f(int n) { r = n; foreach v, k in [1:0] { printf("%i", f(v)); } }
V7 NeverCalled 8 9, V3 IdleInput 14 15, V1 NeverUsed 23 24, V1 NeverUsed 39 40, V4 EmptyRange 56 57, V2 NeverRead 67 68 | (int r) f(int a) { int b; r = 1; } int c; foreach i in [2:1] { int d; d = i; }
V5 ExtraLine 7 12 | printf("a\n");
V5 ExtraLine 15 21 | @prio=5 printf("%i\n", 1);
V5 ExtraLine 19 23 | if (true) { printf("\n"); }
V6 NeverWritten 4 5 | int A[]; printf("%i", A[0]);
V6 NeverWritten 7 8 | string A[string]; foreach i in [0:1] { printf("%i %s", i, A["k"]); }
V6 NeverWritten 37 38 | (int r) f(int B[]) { r = B[0]; } int A[]; printf("%i %i", A[1], f(A));
V7 NeverCalled 3 4 | () f() { printf("x"); }
V7 NeverCalled 3 4, V15 EndlessCall 9 10 | () f() { f(); }
V7 NeverCalled 27 28 | () f() { printf("x"); } () g() { f(); }
V7 NeverCalled 8 9 | (int r) f(int n) { if (n > 0) { r = f(n - 1); } else { r = 0; } } int f = 1; printf("%i", f);
V8 EmptyBlock 10 11 | if (true) { } else { printf("x"); }
V8 EmptyBlock 10 11, V8 EmptyBlock 19 20 | if (true) { } else { }
V8 EmptyBlock 43 44 | if (true) { printf("x"); } else if (false) { }
V8 EmptyBlock 20 21 | int x = 1; wait (x) { }
V8 EmptyBlock 40 41 | foreach i in [0:1] { foreach j in [0:i] { } }
V9 StepBelowOne 18 19 | foreach i in [0:9:0] { printf("%i", i); }
V9 StepBelowOne 18 19 | foreach i in [9:0:-1] { printf("%i", i); }
V10 AlwaysHolds 7 11 | assert(true, "x");
V11 WaitsForItself 4 5 | int x = x + 1; printf("%i", x);
V11 WaitsForItself 7 8 | int x; x = 2 * (1 - x); printf("%i", x);
V11 WaitsForItself 34 35 | boolean b = true; int x; if (b) { x = -x; } else { x = 1; } printf("%i", x);
V11 WaitsForItself 19 20 | int A[] = [1]; int i = A[i]; printf("%i", i);
V11 WaitsForItself 7 8 | string s = strcat("a", fromint(toint(s))); printf("%s", s);
V12 KeyTwice 19 20 | int A[]; A[0] = 1; A[0] = 2; printf("%i", A[0]);
V12 KeyTwice 19 20, V12 KeyTwice 29 30 | int A[]; A[0] = 1; A[0] = 2; A[0] = 3; printf("%i", A[0]);
V12 KeyTwice 32 33 | string A[string]; A["k"] = "x"; A["k"] = "y"; printf("%s", A["k"]);
V12 KeyTwice 31 32 | int A[]; if (true) { A[1] = 1; A[1] = 2; } printf("%i", A[1]);
V12 KeyTwice 26 27 | (int r[]) f() { r[0] = 1; r[0] = 2; } int A[]; A = f(); printf("%i", A[0]);
V12 KeyTwice 43 44 | int A[]; A[0] = 1; () f() { printf("x"); } A[0] = 2; f(); printf("%i", A[0]);
V13 IdleGuard 15 16 | int n = 2; if (n != 0 && 10 %/ n > 1) { printf("x"); }
V13 IdleGuard 15 16 | int n = 2; if (n == 0 || 10 %% n > 1) { printf("x"); }
V13 IdleGuard 15 16 | int n = 2; if (0 != n && 3 > 4 * 10 %/ n) { printf("x"); }
V13 IdleGuard 18 22 | int n = 2; assert(true && n != 0 && 1 == toint(fromint(7 %/ n)), "x");
V14 AlwaysFails 19 20 | printf("%i", 10 %/ 0);
V14 AlwaysFails 33 34 | int n = 7; printf("%i", n * 2 %% 0 * 3);
V14 AlwaysFails 34 35, V14 AlwaysFails 40 41 | int n = 7; printf("%i", 1 + n %/ (0) %/ 0);
V14 AlwaysFails 19 30 | printf("%i", toint("12 apples"));
V14 AlwaysFails 27 29, V14 AlwaysFails 39 60 | printf("%s", fromint(toint("") + toint("9223372036854775808")));
V14 AlwaysFails 7 12 | assert(false, "x");
V14 AlwaysFails 13 32 | printf("%i", 9223372036854775807 + 1);
V14 AlwaysFails 13 14 | printf("%i", (3037000500) * 3037000500 - 1);
V14 AlwaysFails 13 14 | printf("%i", -9223372036854775807 - 2);
V2 NeverRead 4 5, V14 AlwaysFails 16 17, V14 AlwaysFails 27 30 | int A[]; A[1 %/ 0] = toint("x");
V14 AlwaysFails 4 5, V14 AlwaysFails 35 36 | if (2 * 9223372036854775807 > 1 %% 0) { printf("x"); }
V15 EndlessCall 23 24 | (int r) f(int n) { r = f(n - 1); } printf("%i", f(3));
V15 EndlessCall 30 31, V1 NeverUsed 23 24 | (int r) f(int n) { int x; r = f(n); } printf("%i", f(3));
V15 EndlessCall 49 50 | (int r) f(int n) { int x = n; wait (x) { r = 1 + f(x); } } printf("%i", f(3));
V15 EndlessCall 23 24 | (int r) f(int n) { if (f(n) > 0) { r = 1; } else { r = 0; } } printf("%i", f(3));
V15 EndlessCall 44 45 | (int r) f(int n) { r = n; foreach i in [0:9:f(n)] { printf("%i", i); } } printf("%i", f(3));
V15 EndlessCall 36 37 | (boolean r) f(int n) { r = n > 0 && f(n - 1); } assert(f(3), "x");
V15 EndlessCall 57 58 | (int r) g(int n) { r = n; } (int r) f(int n) { int x = g(f(n)); r = f(x); } printf("%i", f(3));"#;

#[test]
fn odd_scripts(rt: HostRuntime) {
    are_warned(&rt, rt.alloc(), ODD);
}

// The syntax requires the variables of a loop, and a name that begins with `_` is unused on purpose. The last two are refused.
const PLAIN: &str = r#"none | 
none | import io; int x = 1; printf("%i", x);
none | int _x; int _y = 1; int _; int _A[]; _A[0] = 1;
none | (int r) _f(int _n) { r = 1; }
none | int x = 1; if (x == 1) { printf("x"); }
none | int x = 1; wait (x) { printf("x"); }
none | int A[] = [1]; foreach v, k in A { printf("x"); }
none | int A[] = [1]; int i = 0; printf("%i", A[i]);
none | int x = 1; foreach i in [0:1] { if (true) { printf("%i", x); } }
none | (int r) f(int n) { r = 1; foreach i in [0:n] { printf("x"); } } printf("%i", f(1));
none | foreach i in [0:0] { printf("x"); }
none | int n = 0; foreach i in [9:n] { printf("x"); } foreach i in [n:0] { printf("x"); }
none | printf(""); printf("a\nb"); printf("a\\n"); printf("%s", "a\n");
none | int A[]; foreach v in A { printf("%i", v); } printf("%i", size(A));
none | int A[]; A[0] = 1; printf("%i", A[0]);
none | int _A[]; printf("%i", _A[0]);
none | (int r[]) f() { r[0] = 1; } int A[]; A = f(); printf("%i", A[0]);
none | (int r) f(int A[]) { r = A[0]; } int A[] = [1]; printf("%i", f(A));
none | () f() { g(); } () g() { f(); }
none | () f() { } f();
none | int n = 1; foreach i in [0:9:-n] { printf("%i", i); } foreach i in [0:9:1] { printf("%i", i); }
none | assert(!false, "x"); assert(1 == 1, "true"); boolean b = true; assert(b, "x");
none | (int r) f(int _n) { r = 1; } int x = f(x); int y = f(y + 1); printf("%i %i", x, y);
none | int A[]; A[0] = 1; A[1] = A[0]; printf("%i", A[1]);
none | int A[]; A[0] = 1; A[1] = 2; printf("%i %i", A[0], A[1]);
none | int A[]; int B[]; A[0] = 1; B[0] = 2; printf("%i %i", A[0], B[0]);
none | int A[]; boolean b = true; if (b) { A[0] = 1; } else { A[0] = 2; } printf("%i", A[0]);
none | int A[]; boolean b = true; A[0] = 1; if (b) { A[0] = 2; } printf("%i", A[0]);
none | int A[]; A[0] = 1; int i = 0; A[i] = 2; printf("%i", A[0]);
none | int n = 2; if (n != 0) { printf("%i", 10 %/ n); }
none | int n = 2; if (n != 0 || 10 %/ n > 1) { printf("x"); }
none | int n = 2; if (10 %/ n > 1 && n != 0) { printf("x"); }
none | int n = 2; if (n != 1 && 10 %/ n > 1) { printf("x"); }
none | int n = 2; if (n != 0 && n %/ 10 > 1) { printf("x"); }
none | int n = 2; int m = 3; if (m != 0 && 10 %/ n > m) { printf("x"); }
none | printf("%i", 0 %/ 10); printf("%i", 0 %% 10 %/ 3);
none | int n = 1; printf("%i", 10 %/ (n - 1)); printf("%i", 10 - 0);
none | printf("%i", toint("-007")); printf("%i", toint("12" + " apples"));
none | printf("%i", 9223372036854775807 - 1); printf("%i", -9223372036854775807 - 1); printf("%i", 3037000499 * 3037000499);
none | int n = 1; printf("%i", n + 9223372036854775807 + 1); printf("%s", "9" + "1");
none | assert(!true, "false"); printf("false");
none | (int r) f(int n) { if (n > 0) { r = f(n - 1); } else { r = f(n + 1); } } printf("%i", f(1));
none | () f(int n) { foreach i in [1:n] { f(i - 1); } } f(3);
none | () f(int n) { int x = n; wait (x) { if (x > 0) { f(x - 1); } } } f(3);
none | () f(int n) { g(n); } () g(int n) { if (n > 0) { f(n - 1); } } g(3);
none | int x; int y = z;
none | int x"#;

#[test]
fn plain_scripts(rt: HostRuntime) {
    are_warned(&rt, rt.alloc(), PLAIN);
}

// Each place is that of the first one of the statements that wait for each other.
const CYCLES: &str = r#"V16 CircularWait 14 15 | int x; int y; x = y; y = x; printf("%i", x);
V16 CircularWait 11 12 | int x; int y = x; x = y; printf("%i", y);
V16 CircularWait 21 22 | int a; int b; int c; a = b + 1; b = 2 * c; c = a - 1; printf("%i", a);
V16 CircularWait 28 29, V16 CircularWait 35 36 | int a; int b; int c; int d; a = b; c = d; b = a; d = c; printf("%i %i", a, c);
V16 CircularWait 21 22 | (int x, int y) f() { x = y; y = x; } int a; int b; (a, b) = f(); printf("%i %i", a, b);
V16 CircularWait 41 42 | boolean c = true; int x; int y; if (c) { x = y; y = x; } else { x = 1; y = 2; } printf("%i", x);
V16 CircularWait 35 36 | foreach i in [0:1] { int x; int y; x = y + i; y = x; printf("%i", y); }
V16 CircularWait 29 30 | int A[] = [1]; int x; int y; x = A[y]; y = x; printf("%i", x);
V16 CircularWait 16 17 | int A[]; int x; x = size(A) + 1; A = [x, 2]; printf("%i", A[1]);
V16 CircularWait 22 23 | boolean a; boolean b; a = true || b; b = !a; assert(a, "x");
V16 CircularWait 14 15, V11 WaitsForItself 14 15 | int x; int y; x = x + y; y = x; printf("%i", x);
V12 KeyTwice 19 20, V16 CircularWait 43 44 | int A[]; A[0] = 1; A[0] = 2; int x; int y; x = y; y = x; printf("%i %i", A[0], x);
V16 CircularWait 20 21 | string s; string t; s = strcat("a", t); () f() { printf("x"); } t = fromint(toint(s)); f();
none | int x; int y; x = y; y = 2; printf("%i", x);
none | (int r) f(int n) { r = n; } int x; int y; x = f(y); y = x; printf("%i", y);
none | int x; int y; x = y; if (true) { y = x; } else { y = 1; } printf("%i", x);
none | int A[]; int x; x = A[0]; A[0] = x; printf("%i", x);
none | int a; int b; int c = b; a = c; b = 1; printf("%i", a);
none | if (true) { int x; int y = 1; x = y; printf("%i", x); } else { int x = 1; int y; y = x; printf("%i", y); }"#;

#[test]
fn statements_in_cycles(rt: HostRuntime) {
    are_warned(&rt, rt.alloc(), CYCLES);
}
