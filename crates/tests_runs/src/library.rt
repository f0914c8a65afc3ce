//! What a program of another repository does with a script: from its bytes to its code, its listing, a run and the run's trace, by
//! `swt_library` alone.

use crate::sink::MemorySink;
use std::alloc::{AllocError, Global};
use std::io;
use swt_library::runs::{replay, run_one};
use swt_library::scripts::{CompiledScript, compile};
use swt_library::{Report, WriteError, write_report, write_trace};

/// The script: the tenth Fibonacci number, by calls.
const SCRIPT: &[u8] =
    b"(int r) fib(int n) { if (n < 2) { r = n; } else { r = fib(n-1) + fib(n-2); } } printf(\"%i\", fib(10));";

/// Maximum number of events of the run.
const MAX_EVENTS: u32 = 10_000_000;

/// Compiles the script, and prints its listing, the report of a run, and that of the run's trace.
pub fn list_and_run(rt: &HostRuntime, alloc: Global) -> io::Result<()> {
    match compile(alloc, alloc, SCRIPT) {
        Ok(code) => print_all(rt, alloc, &code),
        Err(fault) => println!(rt; "refused: {fault}"),
    }
}

/// Prints the listing, the report of a run on one thread, and that of its trace.
fn print_all(rt: &HostRuntime, alloc: Global, code: &CompiledScript) -> io::Result<()> {
    let mut listing = MemorySink::new(alloc);
    let listed = code.listing(&mut listing);
    print_text(rt, alloc, listed, &listing)?;
    let report = run_one(alloc, code, &[], MAX_EVENTS)?;
    print_report(rt, alloc, &report)?;
    let mut trace = MemorySink::new(alloc);
    match write_trace(&report, &mut trace) {
        Ok(()) => {}
        Err(fault) => return println!(rt; "{fault}"),
    }
    match replay(alloc, code, trace.bytes.as_slice()) {
        Ok(again) => print_report(rt, alloc, &again),
        Err(fault) => println!(rt; "{fault}"),
    }
}

/// Prints the text of a report.
fn print_report(rt: &HostRuntime, alloc: Global, report: &Report) -> io::Result<()> {
    let mut text = MemorySink::new(alloc);
    let written = write_report(report, &mut text);
    print_text(rt, alloc, written, &text)
}

/// Prints a text that was written, or the error.
fn print_text(
    rt: &HostRuntime,
    alloc: Global,
    written: Result<(), WriteError>,
    text: &MemorySink,
) -> io::Result<()> {
    match written {
        Ok(()) => print!(rt; "{}", as_text(alloc, text)?),
        Err(fault) => println!(rt; "{fault}"),
    }
}

/// Returns the bytes of a sink as a text.
fn as_text(alloc: Global, text: &MemorySink) -> Result<String, AllocError> {
    String::from_utf8_lossy(alloc, text.bytes.as_slice())
}
