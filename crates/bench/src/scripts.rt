//! Scripts of every size that is timed.

use std::alloc::{AllocError, Global};

/// A script, and the numbers that it is timed with.
#[derive(Clone, Copy, Debug, Drop)]
pub struct Script {
    pub name: &'static str,
    body: Body,
    pub numbers: [u32; 4],
}

/// Where the number of a script stands.
#[derive(Clone, Copy, Debug, Drop)]
enum Body {
    /// Between these.
    Between(&'static str, &'static str),
    /// It is how many scalars there are, each but the first from the one before.
    Chain,
}

/// A loop of prints, Fibonacci by calls, a chain of scalars, an array of which each element is from the one before, calls that lie 501
/// steps deep in one another, nested loops with an `if` that fill an array, many small calls, and a loop over an array. The longest chain
/// is one that 1 MiB holds.
pub const SCRIPTS: [Script; 8] = [
    Script {
        name: "flat",
        body: Body::Between("foreach i in [1:", "] { printf(\"%i\", i); }"),
        numbers: [1_000, 10_000, 100_000, 1_000_000],
    },
    Script {
        name: "fib",
        body: Body::Between(
            "(int o) fib(int n) { if (n < 2) { o = n; } else { o = fib(n-1) + fib(n-2); } } printf(\"%i\", fib(",
            "));",
        ),
        numbers: [10, 16, 22, 24],
    },
    Script {
        name: "chain",
        body: Body::Chain,
        numbers: [100, 1_000, 10_000, 58_000],
    },
    Script {
        name: "array",
        body: Body::Between(
            "int A[]; A[0] = 0; foreach i in [1:",
            "] { A[i] = A[i-1] + 1; }",
        ),
        numbers: [1_000, 10_000, 100_000, 1_000_000],
    },
    Script {
        name: "deep",
        body: Body::Between(
            "(int o) f(int n) { if (n == 0) { o = 0; } else { o = f(n-1); } } foreach i in [1:",
            "] { int r = f(250); }",
        ),
        numbers: [1, 10, 100, 1_000],
    },
    Script {
        name: "nested",
        body: Body::Between(
            "int A[]; foreach i in [1:",
            "] { foreach j in [1:1000] { if ((i + j) %% 2 == 0) { A[i*1000+j] = i; } } } printf(\"%i\", size(A));",
        ),
        numbers: [1, 10, 100, 1_000],
    },
    Script {
        name: "calls",
        body: Body::Between(
            "(int o) square(int n) { o = n * n; } int A[]; foreach i in [1:",
            "] { A[i] = square(i); } printf(\"%i\", size(A));",
        ),
        numbers: [1_000, 10_000, 100_000, 1_000_000],
    },
    Script {
        name: "each",
        body: Body::Between(
            "int A[]; foreach i in [1:",
            "] { A[i] = i; } foreach v, k in A { }",
        ),
        numbers: [10_000, 50_000, 100_000, 400_000],
    },
];

impl Script {
    /// Its text with the number.
    pub fn text(&self, alloc: Global, number: u32) -> Result<String, AllocError> {
        match self.body {
            Body::Between(before, after) => format!(in alloc; "{before}{number}{after}"),
            Body::Chain => chain(alloc, number),
        }
    }
}

/// A script of `count` scalars, each but the first computed from the one before.
fn chain(alloc: Global, count: u32) -> Result<String, AllocError> {
    let mut text = format!(in alloc; "int x0=0;")?;
    for number in 1..count {
        let before = number - 1;
        let statement = format!(in alloc; "int x{number:x}=x{before:x}+1;")?;
        text.push_str(statement.as_str())?;
    }
    Ok(text)
}
