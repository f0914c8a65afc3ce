//! Every order in which small scripts can run, each compared with the meaning of the script, computed by rounds, and with the result
//! that is written here.
use crate::asserts::{boxed, holds, is_equal};
use crate::doing::{code_of, known_of, program_of, report_of};
use crate::runs::sink::MemorySink;
use board::Board;
use board_runs::report::{End, Report};
use board_runs::step::finish;
use meaning_outcomes::knowledge::Knowledge;
use paths::{Fault, StatementInstance};
use std::alloc::{AllocError, Global};
use std::process::Abort;
use swt_trace::report::write_report;
use swt_trace::write::write_trace;
use task_code::code::Code;
use values::text::Text;

/// The printed lines of a report, sorted by bytes.
fn sorted_lines<'a>(alloc: Global, report: &'a Report) -> Result<Vec<&'a [u8]>, AllocError> {
    let mut printed: Vec<&'a [u8]> = Vec::new(alloc);
    for line in &report.lines {
        printed.push(line.as_bytes())?;
    }
    printed.sort()?;
    Ok(printed)
}

/// The expected result of the runs of a script: its lines, sorted by bytes, and the rest of the report of a quiet run; or, where it
/// has faults, one of these, and some of its lines.
#[derive(Clone, Copy)]
pub struct RunResults {
    pub lines: &'static [&'static [u8]],
    pub ends: &'static [&'static [u8]],
    pub has_faults: bool,
}

/// All that the report says.
fn told(rt: &impl Abort, alloc: Global, report: &Report) -> Box<MemorySink> {
    let mut out = MemorySink::new(alloc);
    write_report(report, &mut out).expect(rt, "memory");
    boxed(rt, alloc, out)
}

/// Where the text of these lines ends.
fn end_of_lines(lines: &[Text]) -> usize {
    let mut place = 0usize;
    for line in lines {
        place = place
            .saturating_add(line.as_bytes().len())
            .saturating_add(1);
    }
    place
}

/// The report's text after its lines is one of these.
fn has_end(rt: &impl Abort, alloc: Global, report: &Report, ends: &[&[u8]]) -> bool {
    let out = told(rt, alloc, report);
    let end = out
        .bytes
        .as_slice()
        .get(end_of_lines(report.lines.as_slice())..)
        .unwrap_or(b"");
    ends.contains(&end)
}

/// The lines are the expected ones of the script, or some of them where the report has a fault.
fn are_worked(end: &End, printed: &[&[u8]], worked: &RunResults) -> bool {
    match end {
        End::Quiet => !worked.has_faults && printed == worked.lines,
        End::Fault(_) => {
            worked.has_faults && printed.iter().all(|line| worked.lines.contains(line))
        }
        End::Limit => false,
    }
}

/// The report is as expected for the script.
fn is_worked(rt: &impl Abort, alloc: Global, report: &Report, worked: &RunResults) -> bool {
    let printed = sorted_lines(alloc, report).expect(rt, "memory");
    are_worked(&report.end, printed.as_slice(), worked) && has_end(rt, alloc, report, worked.ends)
}

/// These are the same lines, and as many.
fn same_lines(printed: &Vec<&[u8]>, lines: &Vec<Text>) -> bool {
    printed.len() == lines.len()
        && printed
            .iter()
            .zip(lines.iter())
            .all(|(a, b)| *a == b.as_bytes())
}

/// The known lines, sorted by bytes.
fn lines_of(rt: &impl Abort, known: &Knowledge) -> Vec<Text> {
    known.lines_sorted().expect(rt, "memory")
}

/// The report has all known lines, and no other.
fn has_known_lines(rt: &impl Abort, alloc: Global, report: &Report, known: &Knowledge) -> bool {
    let printed = sorted_lines(alloc, report).expect(rt, "memory");
    same_lines(&printed, &lines_of(rt, known))
}

/// Each of these is a known line.
fn are_some(printed: &Vec<&[u8]>, lines: &Vec<Text>) -> bool {
    printed
        .iter()
        .all(|line| lines.iter().any(|l| l.as_bytes() == *line))
}

/// The report has no line but known ones.
fn has_some_known_lines(
    rt: &impl Abort,
    alloc: Global,
    report: &Report,
    known: &Knowledge,
) -> bool {
    let printed = sorted_lines(alloc, report).expect(rt, "memory");
    are_some(&printed, &lines_of(rt, known))
}

/// These are the same statements, and as many.
fn same_statements(meant: &Vec<StatementInstance>, blocked: &[StatementInstance]) -> bool {
    meant.len() == blocked.len() && meant.iter().zip(blocked.iter()).all(|(a, b)| a.is_same(b))
}

/// These are all known blocked statements, and no other.
fn are_known_blocked(rt: &impl Abort, blocked: &[StatementInstance], known: &Knowledge) -> bool {
    let meant = known.blocked().expect(rt, "memory");
    same_statements(&meant, blocked)
}

/// No fault is known.
fn knows_no_fault(rt: &impl Abort, known: &Knowledge) -> bool {
    known.faults().expect(rt, "memory").is_empty()
}

/// The fault is a known one.
fn is_known_fault(rt: &impl Abort, fault: &Fault, known: &Knowledge) -> bool {
    let faults = known.faults().expect(rt, "memory");
    faults.iter().any(|f| f.is_same(fault))
}

/// The quiet report has all that is known of the script.
fn is_known_quiet(rt: &impl Abort, alloc: Global, report: &Report, known: &Knowledge) -> bool {
    knows_no_fault(rt, known)
        && has_known_lines(rt, alloc, report, known)
        && are_known_blocked(rt, report.blocked.as_slice(), known)
}

/// The report has what is known of the script: all of it where it is quiet; one of the faults, and some of the lines, where it
/// ends with a fault. A script that writes a key twice may print before what it does not mean.
fn is_known(rt: &impl Abort, alloc: Global, report: &Report, known: &Knowledge) -> bool {
    match &report.end {
        End::Quiet => is_known_quiet(rt, alloc, report, known),
        End::Fault(fault) => {
            is_known_fault(rt, fault, known)
                && (!known.is_clean() || has_some_known_lines(rt, alloc, report, known))
        }
        End::Limit => false,
    }
}

/// The meaning of a script: computed by rounds, and written here.
#[derive(Clone, Copy)]
struct MeaningText<'a> {
    known: &'a Knowledge,
    written: Option<&'a RunResults>,
}

impl MeaningText<'_> {
    /// A run of the script may have this report.
    fn allows(&self, rt: &impl Abort, alloc: Global, report: &Report) -> bool {
        let is_known = is_known(rt, alloc, report, self.known);
        match self.written {
            Some(worked) => is_known && is_worked(rt, alloc, report, worked),
            None => is_known,
        }
    }
}

/// The choice of a turn, 0 after the last.
fn choice_at(choices: &[u32], turn: usize) -> u32 {
    match choices.get(turn) {
        Some(choice) => *choice,
        None => 0,
    }
}

/// The items that can begin, none where the board has ended.
fn ready_on(rt: &impl Abort, board: &Board) -> Vec<u64> {
    let ready = board.ready_items().expect(rt, "memory");
    if board.is_going() {
        ready
    } else {
        Vec::new(*ready.allocator())
    }
}

/// The item that is chosen at a turn; how many could begin is added. None where none can, or the board has ended.
fn chosen_item(
    rt: &impl Abort,
    board: &Board,
    choices: &[u32],
    turn: usize,
    widths: &mut Vec<usize>,
) -> Option<u64> {
    let ready = ready_on(rt, board);
    if ready.is_empty() {
        return None;
    }
    widths.push(ready.len()).expect(rt, "memory");
    let place = choice_at(choices, turn) as usize % ready.len();
    Some(ready[place])
}

/// Runs an item. False where it cannot begin.
fn run_item(rt: &impl Abort, board: &mut Board, item: u64) -> bool {
    match board.begin(0, item) {
        Ok(work) => {
            finish(board, 0, work).expect(rt, "memory");
            true
        }
        Err(_) => false,
    }
}

/// Runs the item that is chosen at a turn, and adds how many could begin. False where none can, or the board has ended.
fn take_turn(
    rt: &impl Abort,
    board: &mut Board,
    choices: &[u32],
    turn: usize,
    widths: &mut Vec<usize>,
) -> bool {
    match chosen_item(rt, board, choices, turn, widths) {
        Some(item) => run_item(rt, board, item),
        None => false,
    }
}

/// A board of the code.
fn board_of(rt: &impl Abort, alloc: Global, code: &Code) -> Box<Board> {
    let board = Board::new(alloc, program_of(rt, alloc, code), 1000).expect(rt, "memory");
    boxed(rt, alloc, board)
}

/// The number of items that can begin at each turn, by these choices and then by 0.
fn widths(rt: &impl Abort, alloc: Global, code: &Code, choices: &[u32]) -> Vec<usize> {
    let mut board = board_of(rt, alloc, code);
    let mut widths = Vec::new(alloc);
    for turn in 0..1000usize {
        if !take_turn(rt, &mut board, choices, turn, &mut widths) {
            break;
        }
    }
    widths
}

/// The first of the choices, up to this place, where the one is greater by one.
fn raised(alloc: Global, choices: &[u32], place: usize) -> Result<Vec<u32>, AllocError> {
    let mut next = Vec::new(alloc);
    for turn in 0..place {
        next.push(choice_at(choices, turn))?;
    }
    next.push(choice_at(choices, place).saturating_add(1))?;
    Ok(next)
}

/// The last place where the choice can be greater, by the numbers of items that can begin at each turn.
fn last_to_raise(choices: &[u32], widths: &[usize]) -> Option<usize> {
    for back in 0..widths.len() {
        let place = widths.len() - 1 - back;
        let here = choice_at(choices, place);
        if (here as usize) < widths[place].saturating_sub(1) {
            return Some(place);
        }
    }
    None
}

/// Returns true if a run by these choices has the meaning of the script as its result.
fn comes_to(
    rt: &impl Abort,
    alloc: Global,
    code: &Code,
    choices: &[u32],
    meant: &MeaningText,
) -> bool {
    let report = report_of(rt, alloc, code, choices, 1000);
    meant.allows(rt, alloc, &report)
}

/// The choices after these: the last that can be greater is greater by one.
fn choices_behind(
    rt: &impl Abort,
    alloc: Global,
    code: &Code,
    choices: &[u32],
) -> Option<Vec<u32>> {
    let widths = widths(rt, alloc, code, choices);
    match last_to_raise(choices, widths.as_slice()) {
        Some(place) => Some(raised(alloc, choices, place).expect(rt, "memory")),
        None => None,
    }
}

/// The number of orders in which one thread can run a script, if each results in the meaning of the script. None if one does not, or
/// if there are `most` or more.
fn orders(
    rt: &impl Abort,
    alloc: Global,
    code: &Code,
    most: u32,
    meant: &MeaningText,
) -> Option<u32> {
    let mut choices = Vec::new(alloc);
    for count in 1..most {
        if !comes_to(rt, alloc, code, choices.as_slice(), meant) {
            return None;
        }
        match choices_behind(rt, alloc, code, choices.as_slice()) {
            Some(next) => choices = next,
            None => return Some(count),
        }
    }
    None
}

/// The number of orders in which one thread can run the script, if each has the computed and the written result.
fn orders_of(
    rt: &impl Abort,
    alloc: Global,
    script: &[u8],
    most: u32,
    meant: &MeaningText,
) -> Option<u32> {
    let code = code_of(rt, alloc, script);
    orders(rt, alloc, &code, most, meant)
}

/// The script can be run in `wanted` orders, and each results in its meaning.
fn has_orders(rt: &impl Abort, alloc: Global, script: &[u8], wanted: u32) {
    let known = known_of(rt, alloc, script, 100);
    holds(rt, known.finished());
    let meant = MeaningText {
        known: &known,
        written: None,
    };
    is_equal(rt, orders_of(rt, alloc, script, 1000, &meant), Some(wanted));
}

#[test]
fn every_order_of_scalars(rt: HostRuntime) {
    let scripts: [(&[u8], u32); 5] = [
        (
            b"printf(\"a\"); printf(\"b\"); printf(\"c\"); printf(\"d\");",
            24,
        ),
        (
            b"int x; int y; x = y + 1; y = 2; printf(\"%i\", x); printf(\"%i\", y);",
            3,
        ),
        (
            b"int x; int y; x = y; y = x; printf(\"%i\", x); printf(\"free\");",
            1,
        ),
        (
            b"int x = 9223372036854775807 + 1; int y = 1 %/ 0; printf(\"%i\", x); printf(\"b\");",
            4,
        ),
        (
            b"int a; int b; b = a * a - 1; a = 3 - 5; printf(\"%i\", b); @prio=2 printf(\"%i\", a);",
            3,
        ),
    ];
    for (script, wanted) in scripts {
        has_orders(&rt, rt.alloc(), script, wanted);
    }
}

/// Every order of the script has this result and that of its meaning, and there is more than one order.
pub fn always(rt: &impl Abort, alloc: Global, script: &[u8], worked: &RunResults) {
    let known = known_of(rt, alloc, script, 100);
    let meant = MeaningText {
        known: &known,
        written: Some(worked),
    };
    let count = orders_of(rt, alloc, script, 20000, &meant);
    holds(rt, count.expect(rt, "each order comes to this") > 1);
}

#[test]
fn every_order_of_branches(rt: HostRuntime) {
    let quiet = RunResults {
        lines: &[b"e", b"s"],
        ends: &[b""],
        has_faults: false,
    };
    let script =
        b"boolean b; if (b) { printf(\"t\"); } else { printf(\"e\"); } b = 2 < 1; printf(\"s\");";
    always(&rt, rt.alloc(), script, &quiet);
    let blocked = RunResults {
        lines: &[b"in"],
        ends: &[b"swt: blocked 14 /\nswt: blocked 21 /\nswt: blocked 40 /28.0\n"],
        has_faults: false,
    };
    let script =
        b"int y; int z; y = z; z = y; if (true) { printf(\"%i\", y); printf(\"in\"); } int a = 1;";
    always(&rt, rt.alloc(), script, &blocked);
}

#[test]
fn every_order_of_waits_and_calls(rt: HostRuntime) {
    let waits = RunResults {
        lines: &[b"p", b"w1"],
        ends: &[b""],
        has_faults: false,
    };
    let script = b"int x; int y; wait (x, y) { printf(\"w%i\", x); } x = 1; y = 2; printf(\"p\");";
    always(&rt, rt.alloc(), script, &waits);
    let calls = RunResults {
        lines: &[b"3", b"f"],
        ends: &[b""],
        has_faults: false,
    };
    let script =
        b"(int r) f(int n) { printf(\"f\"); r = n + 1; } int y; int x = f(y); y = 2; printf(\"%i\", x);";
    always(&rt, rt.alloc(), script, &calls);
}

#[test]
fn every_order_of_arrays(rt: HostRuntime) {
    let sizes = RunResults {
        lines: &[b"0 1", b"1 2", b"2"],
        ends: &[b""],
        has_faults: false,
    };
    let script =
        b"int A[]; foreach i in [0:1] { A[i] = i + 1; } printf(\"%i\", size(A)); foreach v, k in A { printf(\"%i %i\", k, v); }";
    always(&rt, rt.alloc(), script, &sizes);
    let closes = RunResults {
        lines: &[b"1", b"7"],
        ends: &[b""],
        has_faults: false,
    };
    let script =
        b"int A[]; int n; if (n == 2) { A[n] = 7; } n = 2; printf(\"%i\", A[2]); printf(\"%i\", size(A));";
    always(&rt, rt.alloc(), script, &closes);
}

#[test]
fn every_order_of_faults(rt: HostRuntime) {
    let lacks = RunResults {
        lines: &[b"b"],
        ends: &[b"swt: fault F3 NoElement 19 /\n"],
        has_faults: true,
    };
    let script = b"int A[]; A[0] = 1; printf(\"%i\", A[3]); printf(\"b\");";
    always(&rt, rt.alloc(), script, &lacks);
    let twice = RunResults {
        lines: &[b"1", b"2"],
        ends: &[
            b"swt: fault F4 ElementTwice 9 /\n",
            b"swt: fault F4 ElementTwice 19 /\n",
        ],
        has_faults: true,
    };
    let script = b"int A[]; A[0] = 1; A[0] = 2; printf(\"%i\", A[0]);";
    always(&rt, rt.alloc(), script, &twice);
    let in_a_turn = RunResults {
        lines: &[b"0"],
        ends: &[b"swt: fault F2 DivideByZero 24 /0.1\n"],
        has_faults: true,
    };
    let script = b"foreach v, k in [0:1] { printf(\"%i\", v %/ (1 - k)); }";
    always(&rt, rt.alloc(), script, &in_a_turn);
}

/// The report says this.
fn tells(rt: &impl Abort, alloc: Global, report: &Report, wanted: &[u8]) {
    is_equal(rt, told(rt, alloc, report).bytes.as_slice(), wanted);
}

/// The report has this trace.
fn has_events(rt: &impl Abort, alloc: Global, report: &Report, events: &[u8]) {
    let mut trace = MemorySink::new(alloc);
    write_trace(report, &mut trace).expect(rt, "memory");
    is_equal(rt, trace.bytes.as_slice(), events);
}

/// A choice picks among the items that can begin, counted round.
#[test]
fn chosen_order(rt: HostRuntime) {
    let script = b"int x = 1; printf(\"a\"); printf(\"%i\", x);";
    let code = code_of(&rt, rt.alloc(), script);
    let report = report_of(&rt, rt.alloc(), &code, &[7, 1], 100);
    tells(&rt, rt.alloc(), &report, b"a\n1\n");
    let events = b"swt-trace 2\nB 0 1\nE 0 1\nB 1 3\nE 1 3\nB 1 2\nE 1 2\nB 1 4\nE 1 4\nQ\n";
    has_events(&rt, rt.alloc(), &report, events);
}
