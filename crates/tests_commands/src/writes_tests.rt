//! Sinks that stop: at each byte of what a command prints or traces, by a write that fails or by one that takes nothing.
use crate::asserts::is_equal;
use crate::doing::{LimitedSink, WIDE, command_of, files_of, perform};
use bumpalo::Bump;
use std::alloc::Global;
use std::process::Abort;
use std::sync::Wait;
use std::thread::Threads;
use swt_arguments::line::Line;
use swt_command::command::command;
use swt_command::unobserved::Unobserved;
use values::sink::{Sink, SinkFault};

const HELLO: &[u8] = b"printf(\"hello\");";

const STUCK: &[u8] = b"int x; int y; x = y; y = x; printf(\"a\");";

const TRACE: &[u8] = b"swt-trace 1\nB 0 1\nE 0 1\n";

const CANNOT: &[u8] = b"swt: cannot write\n";

/// A sink that takes one byte a write, and nothing once it has no room, without an error.
#[derive(Drop)]
struct FullSink {
    bytes: Vec<u8>,
    room: usize,
    failures: u64,
}

impl FullSink {
    ghost use Rattle.std.specs.Prelude.{◌≡◌};

    fn new(alloc: Global, room: usize) -> FullSink
        ensures { result.failures ≡ 0 }
    {
        FullSink {
            bytes: Vec::new(alloc),
            room,
            failures: 0,
        }
    }
}

impl Sink for FullSink {
    ghost taken = { λ sink. sink.bytes.items };

    ghost failures = { λ sink. sink.failures };

    fn write(&mut self, piece: &[u8]) -> Result<usize, SinkFault> {
        let Some(first) = piece.first() else {
            return Ok(0);
        };
        if self.bytes.len() < self.room && self.bytes.push(*first).is_ok() {
            return Ok(1);
        }
        self.failures += 1;
        Ok(0)
    }
}

/// The output of a command to a sink that accepts nothing after `room` bytes, its error output, and its status.
fn idles<R: Threads + Wait + Sync>(
    rt: &R,
    alloc: Global,
    line: &Line,
    files: &[Option<Vec<u8>>],
    room: usize,
) -> (Vec<u8>, Vec<u8>, u8) {
    let mut out = FullSink::new(alloc, room);
    let mut err = LimitedSink::new(alloc, 1000);
    let mut trace = LimitedSink::new(alloc, 0);
    let status = command(
        rt,
        alloc,
        &mut Bump::new(alloc),
        line,
        files,
        &Unobserved,
        &mut out,
        &mut err,
        &mut trace,
    );
    (out.bytes, err.bytes, status)
}

/// A command reports that it cannot print more than `room` bytes, where a write accepts nothing.
fn stops_at_nothing<R: Threads + Wait + Sync + Abort>(
    rt: &R,
    alloc: Global,
    line: &str,
    sources: &[Option<&[u8]>],
    whole: &[u8],
    room: usize,
) {
    let files = files_of(alloc, sources).expect(rt, "memory");
    let request = command_of(rt, alloc, line);
    let (out, err, status) = idles(rt, alloc, &request.line, files.as_slice(), room);
    is_equal(rt, Some(out.as_slice()), whole.get(..room));
    is_equal(rt, (err.as_slice(), status), (CANNOT, 7));
}

/// A command reports that it cannot print more than `room` bytes, where a write fails.
fn stops_at_a_failure<R: Threads + Wait + Sync + Abort>(
    rt: &R,
    alloc: Global,
    line: &str,
    sources: &[Option<&[u8]>],
    whole: &[u8],
    room: usize,
) {
    let done = perform(rt, alloc, line, sources, (room, 1000));
    is_equal(rt, Some(done.out.as_slice()), whole.get(..room));
    is_equal(rt, (done.err.as_slice(), done.status), (CANNOT, 7));
    is_equal(rt, done.trace.len(), 0);
}

/// A command stops at each byte of what it prints.
fn stops_at_each_byte<R: Threads + Wait + Sync + Abort>(
    rt: &R,
    alloc: Global,
    line: &str,
    sources: &[Option<&[u8]>],
) {
    let own = perform(rt, alloc, line, sources, WIDE);
    for room in 0..own.out.len() {
        stops_at_a_failure(rt, alloc, line, sources, own.out.as_slice(), room);
        stops_at_nothing(rt, alloc, line, sources, own.out.as_slice(), room);
    }
}

#[test]
fn what_is_printed_stops_at_each_byte(rt: HostRuntime) {
    let one = [Some(STUCK)];
    for line in ["run f", "mean f", "code f", "code f --dot", "check f"] {
        stops_at_each_byte(&rt, rt.alloc(), line, &one);
    }
    let two = [Some(HELLO), Some(TRACE)];
    for line in ["replay f t", "check f g"] {
        stops_at_each_byte(&rt, rt.alloc(), line, &two);
    }
}

#[test]
fn a_trace_stops_at_each_byte(rt: HostRuntime) {
    let line = "run f --engines 1 --workers 1 --trace t";
    let sources = [Some(HELLO)];
    let own = perform(&rt, rt.alloc(), line, &sources, WIDE);
    is_equal(&rt, own.trace.len(), 38);
    for room in 0..own.trace.len() {
        let done = perform(&rt, rt.alloc(), line, &sources, (1000, room));
        is_equal(&rt, done.out.as_slice(), b"hello\n".as_slice());
        is_equal(&rt, Some(done.trace.as_slice()), own.trace.get(..room));
        is_equal(&rt, (done.err.as_slice(), done.status), (CANNOT, 7));
    }
}
