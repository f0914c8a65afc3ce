//! The scripts.

const HELLO: &[u8] = b"printf(\"hello\");";

const ELEMENTS: &[u8] =
    b"int A[]; A[0] = 1; foreach i in [1:5] { A[i] = A[i-1] * 2; } printf(\"%i\", A[5]);";

const FIBONACCI: &[u8] =
    b"(int r) fib(int n) { if (n < 2) { r = n; } else { r = fib(n-1) + fib(n-2); } } printf(\"%i\", fib(10));";

const SQUARES: &[u8] =
    b"(int B[]) g(int m) { foreach i in [0:m-1] { B[i] = i*i; } } int C[]; C = g(4); printf(\"%i %i\", size(C), C[3]);";

// With it alone `merge` and `compute` ask for memory: one wait lies in another, and the text is longer than what is kept in place.
const WAITS: &[u8] =
    b"int x = 1; int y = 2; string s = \"<more than sixteen bytes>\"; string t = s + s; wait (x) { wait (y) { printf(\"%s\", t); } }";

/// The script of a name, where there is one.
pub fn script_of(name: &str) -> Option<&'static [u8]> {
    match name {
        "prints_hello" => Some(HELLO),
        "each_element_from_the_one_before" => Some(ELEMENTS),
        "fibonacci_numbers" => Some(FIBONACCI),
        "array_output_of_a_function" => Some(SQUARES),
        "texts_in_waits" => Some(WAITS),
        _ => None,
    }
}
