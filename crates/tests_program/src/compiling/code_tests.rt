//! Scripts that are accepted, with their code, and the first refusal of those that are not.
use crate::asserts::{holds, is_equal};
use crate::doing::code_of;
use compile::compile::compile;
use compile::fault::CompileFault;
use std::alloc::{AllocError, Global};
use std::process::Abort;
use task_code::code::{Code, Opener};
use task_code::entry::{Act, Name, Need, Owned, Variable};
use task_code::expr;
use values::value::Scalar;

/// Why a script has no code.
fn fault_of(alloc: Global, src: &[u8]) -> Option<CompileFault> {
    compile(alloc, alloc, src).err()
}

/// A fault in one text, with its place.
fn fault_text(alloc: Global, fault: CompileFault) -> Result<String, AllocError> {
    match fault.span() {
        Some(span) => format!(in alloc; "{fault} {} {}", span.from, span.to),
        None => format!(in alloc; "{fault}"),
    }
}

/// A script's refusal in one text.
fn refusal(alloc: Global, src: &[u8]) -> Result<String, AllocError> {
    match fault_of(alloc, src) {
        Some(fault) => fault_text(alloc, fault),
        None => String::from_str(alloc, "accepted"),
    }
}

/// The script has this refusal.
fn is_refused(rt: &impl Abort, alloc: Global, src: &[u8], wanted: &str) {
    let text = refusal(alloc, src).expect(rt, "memory");
    is_equal(rt, text.as_str(), wanted);
}

/// The script's code has these numbers of entries and bodies.
fn has_counts(rt: &impl Abort, alloc: Global, src: &[u8], counts: (usize, usize)) {
    let code = code_of(rt, alloc, src);
    is_equal(rt, (code.entry_count(), code.body_count()), counts);
}

#[test]
fn counts_entries_and_bodies(rt: HostRuntime) {
    let rows: [(&[u8], (usize, usize)); 5] = [
        (b"int x = 5; printf(\"%i %d%%\", x, 7);", (2, 1)),
        (b"", (0, 1)),
        (
            b"string s = fromint(3); boolean b; string t; (t) = strcat(s, \"a\"); b = s == t; @prio=-2 assert(!b, s);",
            (4, 1),
        ),
        (b"if (true) { } else { printf(\"e\"); }", (2, 3)),
        (
            b"int A[]; foreach i in [0:1] { A[i] = i; } printf(\"%i\", size(A));",
            (3, 2),
        ),
    ];
    for (src, counts) in rows {
        has_counts(&rt, rt.alloc(), src, counts);
    }
}

/// Refused scripts: the refusal, and the script.
const REFUSED: &str = r#"L1 BadByte 0 1 | #
P2 Unexpected 7 10 | import mpe;
Y1 Unknown 13 14 | printf("%i", y);
Y2 Declared 15 16 | int x = 1; int x = 2;
Y5 BadFormat 7 11 | printf("%q");
P2 Unexpected 18 18 | if (true) { } else
S1 AssignedTwice 11 12 | int x = 1; x = 2;
S3 NeverAssigned 4 5 | int x; printf("%i", x);
S6 OutputUnassigned 5 6 | (int r) f() { }"#;

#[test]
fn refuses(rt: HostRuntime) {
    for row in REFUSED.lines() {
        let (wanted, src) = row.split_once(" | ").expect(&rt, "a row has two parts");
        is_refused(&rt, rt.alloc(), src.as_bytes(), wanted);
    }
}

/// The scalar that the script's body makes at a place, as its entries name it.
fn made(code: &Code, place: usize) -> Option<Name> {
    let variable = code.body(0)?.makes.get(place)?;
    Some(Name {
        up: 0,
        owned: Owned::Local(Variable {
            node: variable.node,
            array: variable.array,
        }),
    })
}

/// Returns true if the entry of this number stands at this offset, and waits for the scalars of these places alone.
fn waits_for(code: &Code, number: u32, at: usize, places: &[usize]) -> bool {
    let Some(entry) = code.entry(number) else {
        return false;
    };
    if entry.needs.len() != places.len() || entry.reads.len() != places.len() {
        return false;
    }
    for i in 0..places.len() {
        let Some(own) = made(code, places[i]) else {
            return false;
        };
        let is_needed = matches!(&entry.needs[i], Need::Stored(name) if *name == own);
        if !is_needed || entry.reads[i] != own {
            return false;
        }
    }
    entry.at == at && entry.offset == at
}

/// Returns true if the script's body makes this number of scalars, and has this number of entries from the first on.
fn is_body(code: &Code, makes: usize, count: u32) -> bool {
    let Some(body) = code.body(0) else {
        return false;
    };
    let mut number = 0;
    for entry in &body.entries {
        if number >= count || *entry != number {
            return false;
        }
        number += 1;
    }
    body.opener == Opener::ByMain && body.makes.len() == makes && number == count
}

/// Returns true if the entry of this number prints its first need and a 7.
fn prints_need_and_seven(code: &Code, number: u32) -> bool {
    let Some(entry) = code.entry(number) else {
        return false;
    };
    match &entry.act {
        Act::Print(expr::Expr::Operation(_, operands)) => matches!(
            operands.as_slice(),
            [expr::Expr::Need(0), expr::Expr::Constant(Scalar::Number(7))]
        ),
        _ => false,
    }
}

/// The code of an assignment, and of a print after it that has a priority.
fn has_placed_operands(rt: &impl Abort, code: &Code) {
    holds(rt, is_body(code, 1, 2));
    holds(rt, waits_for(code, 0, 0, &[]));
    holds(rt, waits_for(code, 1, 11, &[0]));
    is_equal(rt, (code.priority(0), code.priority(1)), (0, 3));
    holds(rt, prints_need_and_seven(code, 1));
}

#[test]
fn operands_are_placed(rt: HostRuntime) {
    let script = b"int x = 5; @prio=3 printf(\"%i %d%%\", x, 7);";
    let code = code_of(&rt, rt.alloc(), script);
    has_placed_operands(&rt, &code);
}

/// Returns true if the entry of this number writes the scalar of this place alone.
fn writes(code: &Code, number: u32, place: usize) -> bool {
    match (code.entry(number), made(code, place)) {
        (Some(entry), Some(own)) => entry.writes.len() == 1 && entry.writes[0] == own,
        _ => false,
    }
}

/// Returns true if the entry of this number writes nothing.
fn writes_nothing(code: &Code, number: u32) -> bool {
    match code.entry(number) {
        Some(entry) => entry.writes.is_empty(),
        None => false,
    }
}

/// The code of two assignments, the first of which waits for the second, and of a print of the first.
fn waits_before_assignments(rt: &impl Abort, code: &Code) {
    holds(rt, is_body(code, 2, 3));
    holds(rt, waits_for(code, 0, 14, &[1]));
    holds(rt, waits_for(code, 1, 25, &[]));
    holds(rt, waits_for(code, 2, 32, &[0]));
    holds(rt, writes(code, 0, 0));
    holds(rt, writes(code, 1, 1));
    holds(rt, writes_nothing(code, 2));
}

#[test]
fn a_scalar_is_waited_for_before_its_assignment(rt: HostRuntime) {
    let script = b"int x; int y; x = y + 1; y = 2; printf(\"%i\", x);";
    let code = code_of(&rt, rt.alloc(), script);
    waits_before_assignments(&rt, &code);
}
