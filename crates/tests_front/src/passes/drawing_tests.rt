//! Drawings of scripts, as text for `dot`.

use crate::passes::flows::flow;
use crate::rows::parts;
use show_drawing::drawing::drawing;
use std::alloc::Global;
use std::process::Abort;

const DRAWN: &str = r#"s0 -> s11 [class="flow", label=" x "] | int x = 1; printf("%i", x);
label=" x, y " | (int a, int b) f() { a = 1; b = 2; } int x; int y; (x, y) = f(); printf("%i %i", x, y);
read at line 1< | int n = 1; printf("%i", n); printf("%i", n); printf("%i", n);
s42 -> v0 [class="flow", dir=both] | int A[]; A[0] = 1; foreach i in [1:3] {   A[i] = A[i - 1]; } printf("%i", A[3]);
s0 -> s12 [class="opens", lhead=cluster_b1, | if (true) { printf("x"); } else { }
-> p2 [class="opens", lhead=cluster_b2, | if (true) { printf("x"); } else { }
>wait (x)< | int x = 1; wait (x) { wait (x) { printf("x"); } }
>printf(&quot;&lt;b&gt;&amp;&quot; )< | printf("<b>&" /* no ; */ );
<B>(int r) f(int n)</B> | int x = f(1); (int r) f(int n) { r = n; }
constraint=false | () f(int n) { if (n > 0) { f(n - 1); } } f(3);"#;

/// The drawing of a text, where it is a script.
fn picture(alloc: Global, text: &[u8]) -> Option<Vec<u8>> {
    let found = flow(alloc, text)?;
    drawing(alloc, text, &found).ok()
}

/// Returns true if a text contains a part.
fn has_part(text: &[u8], part: &[u8]) -> bool {
    text.windows(part.len().max(1)).any(|found| found == part)
}

/// The drawing of the row's text contains the part that the row expects.
fn is_drawn(rt: &impl Abort, alloc: Global, row: &str) {
    let (wanted, text) = parts(rt, row);
    let drawn = picture(alloc, text).expect(rt, "a script");
    assert!(rt; has_part(drawn.as_slice(), wanted.as_bytes()));
}

#[test]
fn scripts_are_drawn(rt: HostRuntime) {
    for row in DRAWN.lines() {
        is_drawn(&rt, rt.alloc(), row);
    }
}
