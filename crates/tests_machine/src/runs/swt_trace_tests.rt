//! The trace of a script that prints `hello`, read, written and run again, texts that leave the grammar, reports with each
//! end, and sinks that fail.
ghost use Rattle.std.specs.Prelude.{◌≡◌};

use crate::asserts::is_equal;
use board::{Fault, FaultKind, StatementInstance, Step};
use board_program::program::Program;
use board_runs::report::{End, Report};
use std::alloc::Global;
use std::process::Abort;
use swt_trace::ending::Ending;
use swt_trace::fault::{ReplayFault, TraceError, WriteError};
use swt_trace::read::read_trace;
use swt_trace::replay::replay;
use swt_trace::report::write_report;
use swt_trace::write::write_trace;
use task_code::event::Event;
use task_code::packed_event::PackedEvent;
use tests_codes::codes::{empty, hello};
use values::key::Key;
use values::sink::{Sink, SinkFault};
use values::text::Text;

const HELLO: &[u8] = b"swt-trace 1\nB 0 1\nE 0 1\nB 1 2\nE 1 2\n";

const HELLO_EVENTS: [Event; 4] = [
    Event::Begin { worker: 0, item: 1 },
    Event::End { worker: 0, item: 1 },
    Event::Begin { worker: 1, item: 2 },
    Event::End { worker: 1, item: 2 },
];

const LAST_WORKER_AND_ITEM: &[u8] = b"swt-trace 1\nK 63 18446744073709551615\n";

const MOST_EVENTS: [Event; 1] = [Event::Back {
    worker: 63,
    item: u64::MAX,
}];

/// The traces of version 2, of runs that were cut off.
const CUT_HELLO: &[u8] = b"swt-trace 2\nB 0 1\nE 0 1\nB 1 2\nE 1 2\nL\n";

const CUT_MOST: &[u8] = b"swt-trace 2\nK 63 18446744073709551615\nL\n";

/// A trace is read as these events, and names this end.
fn is_read(rt: &impl Abort, alloc: Global, trace: &[u8], events: &[Event], ending: Option<Ending>) {
    let told = read_trace(alloc, trace).expect(rt, "a trace");
    assert!(rt; told.events.as_slice() == events);
    is_equal(rt, told.ending, ending);
}

/// The text has this line as its first that no trace has there.
fn is_bad(rt: &impl Abort, alloc: Global, text: &[u8], line: u64) {
    let wanted = Some(TraceError::BadLine(line));
    is_equal(rt, read_trace(alloc, text).err(), wanted);
}

#[test]
fn traces_are_read(rt: HostRuntime) {
    is_read(&rt, rt.alloc(), HELLO, &HELLO_EVENTS, None);
    is_read(&rt, rt.alloc(), LAST_WORKER_AND_ITEM, &MOST_EVENTS, None);
    is_read(&rt, rt.alloc(), b"swt-trace 1\n", &[], None);
}

#[test]
fn ends_are_read(rt: HostRuntime) {
    let limit = Some(Ending::Limit);
    is_read(&rt, rt.alloc(), CUT_HELLO, &HELLO_EVENTS, limit);
    is_read(&rt, rt.alloc(), CUT_MOST, &MOST_EVENTS, limit);
    is_read(&rt, rt.alloc(), b"swt-trace 2\nL\n", &[], limit);
    let quiet = Some(Ending::Quiet);
    is_read(&rt, rt.alloc(), b"swt-trace 2\nQ\n", &[], quiet);
    let fault = Some(Ending::Fault);
    is_read(&rt, rt.alloc(), b"swt-trace 2\nF\n", &[], fault);
}

/// A prefix is read if it ends after a line; otherwise its last line is bad.
#[test]
fn beginnings_are_read(rt: HostRuntime) {
    assert_eq!(rt; HELLO.len(), 36);
    for length in 0..36 {
        if length >= 12 && length % 6 == 0 {
            assert!(rt; read_trace(rt.alloc(), &HELLO[..length]).is_ok());
        } else {
            let line = (length as u64 / 6).max(1);
            is_bad(&rt, rt.alloc(), &HELLO[..length], line);
        }
    }
}

/// A prefix of a trace of version 2 is not a trace: its last line is bad, or the missing line.
#[test]
fn beginnings_name_no_end(rt: HostRuntime) {
    assert_eq!(rt; CUT_HELLO.len(), 38);
    for length in 0..38 {
        let line = (length as u64 / 6).max(1);
        is_bad(&rt, rt.alloc(), &CUT_HELLO[..length], line);
    }
}

const BAD_SECOND_LINES: &str =
    "B 64 1\n|B 0 0\n|B 00 1\n|B 0 01\n|B 0 18446744073709551616\n|B 0 1|B  0 1\n|B 0  1\n|B 0 1 \n|B 0 1\r\n| B 0 1\n|B +0 1\n|B -0 1\n|B 0\n|B\n|b 0 1\n|Q\n|\n";

const BAD_FIRST_LINES: &str = "|\n|swt-trace 1|swt-trace 2|swt-trace 3\n| swt-trace 1\n";

/// A trace with these lines after its first.
fn trace_of(rt: &impl Abort, alloc: Global, lines: &str) -> String {
    format!(in alloc; "swt-trace 1\n{lines}").expect(rt, "memory")
}

#[test]
fn bad_lines_are_refused(rt: HostRuntime) {
    for line in BAD_SECOND_LINES.split('|') {
        let text = trace_of(&rt, rt.alloc(), line);
        is_bad(&rt, rt.alloc(), text.as_bytes(), 2);
    }
    for text in BAD_FIRST_LINES.split('|') {
        is_bad(&rt, rt.alloc(), text.as_bytes(), 1);
    }
    is_bad(&rt, rt.alloc(), b"swt-trace 1\nE 0 1\nX\n", 3);
}

const BAD_ENDS: &str = "|Q|q\n|X\n|Q \n|QQ\n|\n|B 64 1\nQ\n|Q\r\n";

/// Version 2 requires the line that names the end, and nothing follows it.
#[test]
fn bad_ends_are_refused(rt: HostRuntime) {
    for end in BAD_ENDS.split('|') {
        let text = format!(in rt.alloc(); "swt-trace 2\n{end}").expect(&rt, "memory");
        is_bad(&rt, rt.alloc(), text.as_bytes(), 2);
    }
    for behind in ["Q\n", "\n", "B 0 1\n", "x"] {
        let text = format!(in rt.alloc(); "swt-trace 2\nE 0 1\nQ\n{behind}").expect(&rt, "memory");
        is_bad(&rt, rt.alloc(), text.as_bytes(), 4);
    }
    is_bad(&rt, rt.alloc(), b"swt-trace 1\nE 0 1\nQ\n", 3);
}

#[test]
fn faults_have_texts(rt: HostRuntime) {
    let bad = TraceError::BadLine(4);
    let (stray, other) = (ReplayFault::NotARun(5), ReplayFault::WrongEnd(6));
    let refused = WriteError::Write;
    let text = format!(in rt.alloc(); "{bad}, {stray}, {other}, {refused}").expect(&rt, "memory");
    is_equal(
        &rt,
        text.as_str(),
        "T1 BadLine 4, T2 NotARun 5, T3 WrongEnd 6, W1 Write",
    );
}

/// A sink that takes at most `at_once` bytes a write, and refuses one write, by its number from 1.
#[derive(Drop)]
struct FailingSink {
    taken: Vec<u8>,
    at_once: usize,
    writes: u8,
    refused: u8,
    failures: u64,
}

impl Sink for FailingSink {
    ghost taken = { λ sink. sink.taken.items };

    ghost failures = { λ sink. sink.failures };

    fn write(&mut self, piece: &[u8]) -> Result<usize, SinkFault> {
        self.writes = self.writes.saturating_add(1);
        let n = piece.len().min(self.at_once);
        if self.writes == self.refused || n == 0 && !piece.is_empty() {
            self.failures += 1;
            return Err(SinkFault);
        }
        match self.taken.extend_from_slice(&piece[..n]) {
            Ok(()) => Ok(n),
            Err(_) => {
                self.failures += 1;
                Err(SinkFault)
            }
        }
    }
}

fn sink_of(alloc: Global, at_once: usize, refused: u8) -> FailingSink
    ensures { result.failures ≡ 0 }
{
    FailingSink {
        taken: Vec::new(alloc),
        at_once,
        writes: 0,
        refused,
        failures: 0,
    }
}

/// The lines `a` and the empty one.
fn two_lines(rt: &impl Abort, alloc: Global) -> Vec<Text> {
    let mut lines = Vec::new(alloc);
    for line in [b"a".as_slice(), b"".as_slice()] {
        let text = Text::from_slice(alloc, line).expect(rt, "memory");
        lines.push(text).expect(rt, "memory");
    }
    lines
}

/// The event as a board keeps it, where its worker is one of 0 to 63.
fn packed(event: Event) -> Option<PackedEvent> {
    match event {
        Event::Begin { worker, item } if worker < 64 => {
            Some(PackedEvent::new(Event::Begin { worker, item }))
        }
        Event::End { worker, item } if worker < 64 => {
            Some(PackedEvent::new(Event::End { worker, item }))
        }
        Event::Back { worker, item } if worker < 64 => {
            Some(PackedEvent::new(Event::Back { worker, item }))
        }
        _ => None,
    }
}

/// These events of workers 0 to 63 as a board keeps them.
fn history_of(rt: &impl Abort, alloc: Global, events: &[Event]) -> Vec<PackedEvent> {
    let mut history = Vec::new(alloc);
    for event in events {
        let packed = packed(*event).expect(rt, "a worker");
        history.push(packed).expect(rt, "memory");
    }
    history
}

/// A report of these events, with those two lines.
fn report_with(
    rt: &impl Abort,
    alloc: Global,
    events: &[Event],
    end: End,
    blocked: Vec<StatementInstance>,
) -> Report {
    let history = history_of(rt, alloc, events);
    Report {
        program: Program::new(alloc, empty(alloc)).expect(rt, "memory"),
        history,
        lines: two_lines(rt, alloc),
        end,
        blocked,
        tallies: [0; 64],
    }
}

/// A report of these events that the limit ended.
fn limit_report(rt: &impl Abort, alloc: Global, events: &[Event]) -> Report {
    report_with(rt, alloc, events, End::Limit, Vec::new(alloc))
}

/// The report's trace is written, `at_once` bytes at once.
fn is_traced(rt: &impl Abort, alloc: Global, report: &Report, trace: &[u8], at_once: usize) {
    let mut sink = sink_of(alloc, at_once, 0);
    is_equal(rt, write_trace(report, &mut sink).err(), None);
    is_equal(rt, sink.taken.as_slice(), trace);
}

/// The trace of these events is written, a few bytes at once or all.
fn is_written(rt: &impl Abort, alloc: Global, events: &[Event], trace: &[u8]) {
    let report = limit_report(rt, alloc, events);
    for at_once in [1, 5, 100] {
        is_traced(rt, alloc, &report, trace, at_once);
    }
}

#[test]
fn traces_are_written(rt: HostRuntime) {
    is_written(&rt, rt.alloc(), &HELLO_EVENTS, CUT_HELLO);
    is_written(&rt, rt.alloc(), &MOST_EVENTS, CUT_MOST);
}

/// The trace of a run without events that ended so is this text.
fn is_named(rt: &impl Abort, alloc: Global, end: End, trace: &[u8]) {
    let report = report_with(rt, alloc, &[], end, Vec::new(alloc));
    is_traced(rt, alloc, &report, trace, 100);
}

#[test]
fn traces_name_the_end(rt: HostRuntime) {
    is_named(&rt, rt.alloc(), End::Quiet, b"swt-trace 2\nQ\n");
    is_named(&rt, rt.alloc(), End::Limit, b"swt-trace 2\nL\n");
    let fault = Fault {
        kind: FaultKind::NoElement,
        statement: statement(&rt, rt.alloc(), 7, &[]),
    };
    is_named(&rt, rt.alloc(), End::Fault(fault), b"swt-trace 2\nF\n");
}

/// A report is written as this text, `at_once` bytes at once.
fn is_text(rt: &impl Abort, alloc: Global, report: &Report, text: &[u8], at_once: usize) {
    let mut sink = sink_of(alloc, at_once, 0);
    is_equal(rt, write_report(report, &mut sink).err(), None);
    is_equal(rt, sink.taken.as_slice(), text);
}

/// A report is written as this text, a few bytes at once or all.
fn is_shown(rt: &impl Abort, alloc: Global, report: &Report, text: &[u8]) {
    for at_once in [1, 7, 100] {
        is_text(rt, alloc, report, text, at_once);
    }
}

fn statement(
    rt: &impl Abort,
    alloc: Global,
    at: usize,
    steps: &[(usize, i64)],
) -> StatementInstance {
    let mut path = Vec::new(alloc);
    for (offset, key) in steps {
        let step = Step {
            offset: *offset,
            key: Key::Number(*key),
        };
        path.push(step).expect(rt, "memory");
    }
    StatementInstance { at, path }
}

/// Two blocked statements, with the greatest and the least number.
fn two_blocked(rt: &impl Abort, alloc: Global) -> Vec<StatementInstance> {
    let first = statement(rt, alloc, 14, &[]);
    let path = [(25, 3), (40, -9223372036854775808)];
    let second = statement(rt, alloc, 4294967295, &path);
    Vec::from_array(alloc, [first, second]).expect(rt, "memory")
}

#[test]
fn blocked_statements_are_shown(rt: HostRuntime) {
    let blocked = two_blocked(&rt, rt.alloc());
    let report = report_with(&rt, rt.alloc(), &HELLO_EVENTS, End::Quiet, blocked);
    let text = b"a\n\nswt: blocked 14 /\nswt: blocked 4294967295 /25.3/40.-9223372036854775808\n";
    is_shown(&rt, rt.alloc(), &report, text);
}

/// A report that ends in this fault, or at the limit after one event, is written as this text.
fn is_end(rt: &impl Abort, alloc: Global, end: End, text: &[u8]) {
    let report = report_with(rt, alloc, &HELLO_EVENTS[..1], end, Vec::new(alloc));
    is_shown(rt, alloc, &report, text);
}

#[test]
fn missing_elements_are_shown(rt: HostRuntime) {
    let missing = Fault {
        kind: FaultKind::NoElement,
        statement: statement(&rt, rt.alloc(), 7, &[]),
    };
    let text = b"a\n\nswt: fault F3 NoElement 7 /\n";
    is_end(&rt, rt.alloc(), End::Fault(missing), text);
}

#[test]
fn elements_put_twice_are_shown(rt: HostRuntime) {
    let twice = Fault {
        kind: FaultKind::ElementTwice,
        statement: statement(&rt, rt.alloc(), 9, &[(0, 1)]),
    };
    let text = b"a\n\nswt: fault F4 ElementTwice 9 /0.1\n";
    is_end(&rt, rt.alloc(), End::Fault(twice), text);
}

#[test]
fn limits_are_shown(rt: HostRuntime) {
    is_end(&rt, rt.alloc(), End::Limit, b"a\n\nswt: limit 1\n");
}

/// The sink has failed once, and has the bytes of the text before the one that it refused.
fn has_stopped(rt: &impl Abort, sink: &FailingSink, text: &[u8], refused: u8) {
    let before = refused.saturating_sub(1) as usize;
    assert!(rt; Some(sink.taken.as_slice()) == text.get(..before));
    is_equal(rt, sink.failures, 1);
}

/// The report's trace is written until that write is refused.
fn stops_writing(rt: &impl Abort, alloc: Global, report: &Report, refused: u8) {
    let mut sink = sink_of(alloc, 1, refused);
    let fault = write_trace(report, &mut sink).err();
    is_equal(rt, fault, Some(WriteError::Write));
    has_stopped(rt, &sink, CUT_HELLO, refused);
}

/// A sink that takes one byte a write and refuses one of them has the bytes before it.
#[test]
fn writing_stops_at_a_refused_write(rt: HostRuntime) {
    let report = limit_report(&rt, rt.alloc(), &HELLO_EVENTS);
    for refused in 1..39u8 {
        stops_writing(&rt, rt.alloc(), &report, refused);
    }
}

/// The report's text is written until that write is refused.
fn stops_showing(rt: &impl Abort, alloc: Global, report: &Report, refused: u8) {
    let mut sink = sink_of(alloc, 1, refused);
    let fault = write_report(report, &mut sink).err();
    is_equal(rt, fault, Some(WriteError::Write));
    has_stopped(rt, &sink, b"a\n\nswt: limit 4\n", refused);
}

/// A report's text likewise.
#[test]
fn showing_stops_at_a_refused_write(rt: HostRuntime) {
    let report = limit_report(&rt, rt.alloc(), &HELLO_EVENTS);
    for refused in 1..17u8 {
        stops_showing(&rt, rt.alloc(), &report, refused);
    }
}

/// The result of a replay of the trace of `printf("hello");` with these lines.
fn replayed(rt: &impl Abort, alloc: Global, lines: &str) -> Result<Report, ReplayFault> {
    let code = hello(alloc).expect(rt, "a code");
    let trace = trace_of(rt, alloc, lines);
    replay(alloc, &code, trace.as_bytes())
}

#[test]
fn hello_is_replayed(rt: HostRuntime) {
    let lines = "B 0 1\nE 0 1\nB 2 2\nE 2 2\n";
    let report = replayed(&rt, rt.alloc(), lines).expect(&rt, "a run");
    assert!(rt; matches!(report.end, End::Quiet));
    is_equal(&rt, (report.lines.len(), report.history.len()), (1, 4));
}

#[test]
fn a_trace_may_stop_in_the_midst(rt: HostRuntime) {
    let cut = replayed(&rt, rt.alloc(), "B 0 1\n").expect(&rt, "a run");
    assert!(rt; matches!(cut.end, End::Limit));
}

#[test]
fn bad_traces_are_not_replayed(rt: HostRuntime) {
    let bad = replayed(&rt, rt.alloc(), "B 0 1\nE 0\n").err();
    is_equal(&rt, bad, Some(ReplayFault::BadLine(3)));
    let stranger = replayed(&rt, rt.alloc(), "B 0 1\nE 1 1\n").err();
    is_equal(&rt, stranger, Some(ReplayFault::NotARun(3)));
}

/// The result of a replay of the trace of version 2 of `printf("hello");` with these lines.
fn ended(rt: &impl Abort, alloc: Global, lines: &str) -> Result<Report, ReplayFault> {
    let code = hello(alloc).expect(rt, "a code");
    let trace = format!(in alloc; "swt-trace 2\n{lines}").expect(rt, "memory");
    replay(alloc, &code, trace.as_bytes())
}

#[test]
fn the_end_that_is_named_is_that_of_the_run(rt: HostRuntime) {
    let whole = "B 0 1\nE 0 1\nB 2 2\nE 2 2\nQ\n";
    let report = ended(&rt, rt.alloc(), whole).expect(&rt, "a run");
    assert!(rt; matches!(report.end, End::Quiet));
    let cut = ended(&rt, rt.alloc(), "B 0 1\nL\n").expect(&rt, "a run");
    assert!(rt; matches!(cut.end, End::Limit));
    let none = ended(&rt, rt.alloc(), "L\n").expect(&rt, "a run");
    assert!(rt; none.history.is_empty());
}

/// The trace of version 2 with these lines is refused so.
fn is_refused(rt: &impl Abort, alloc: Global, lines: &str, wanted: ReplayFault) {
    is_equal(rt, ended(rt, alloc, lines).err(), Some(wanted));
}

#[test]
fn another_end_is_refused(rt: HostRuntime) {
    let whole = "B 0 1\nE 0 1\nB 2 2\nE 2 2\n";
    for letter in ["F", "L"] {
        let lines = format!(in rt.alloc(); "{whole}{letter}\n").expect(&rt, "memory");
        is_refused(&rt, rt.alloc(), lines.as_str(), ReplayFault::WrongEnd(6));
    }
    is_refused(&rt, rt.alloc(), "B 0 1\nQ\n", ReplayFault::WrongEnd(3));
    is_refused(&rt, rt.alloc(), "Q\n", ReplayFault::WrongEnd(2));
}

/// A bad line is refused before any event is run, and an event that is no step before the end.
#[test]
fn another_end_is_refused_last(rt: HostRuntime) {
    let stray = "E 0 1\nQ\nQ\n";
    is_refused(&rt, rt.alloc(), stray, ReplayFault::BadLine(4));
    is_refused(&rt, rt.alloc(), "E 0 1\nQ\n", ReplayFault::NotARun(2));
}

/// Each worker counts its own events: those of the item that was given back, and those of the worker that took it then.
#[test]
fn a_replay_counts_the_events_of_each_worker(rt: HostRuntime) {
    let lines = "B 0 1\nK 0 1\nB 5 1\nE 5 1\nB 1 2\nE 1 2\n";
    let report = replayed(&rt, rt.alloc(), lines).expect(&rt, "a run");
    assert!(rt; matches!(report.end, End::Quiet));
    assert!(rt; matches!(report.tallies.as_slice(), [2, 2, 0, 0, 0, 2, ..]));
}
