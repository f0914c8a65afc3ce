//! Lines about the calls.

use host::Stream;
use host_system::stream::Standard;
use std::io;
use swt_library::scripts::CompiledScript;
use swt_library::{Report, write_report};

/// Says that memory was refused to a call.
pub fn note(rt: &HostRuntime, call: &str) -> io::Result<()> {
    eprintln!(rt; "refused: {call}")
}

/// The mark before calls that take no memory, with their names. The allocator of `.ci/refused` counts requests from here on.
pub fn calls_begin(rt: &HostRuntime, calls: &str) -> io::Result<()> {
    eprintln!(rt; "take none: {calls}")
}

/// The mark after them, where the allocator writes its count.
pub fn calls_end(rt: &HostRuntime) -> io::Result<()> {
    eprintln!(rt; "taken")
}

/// Says what is wrong.
pub fn wrong(rt: &HostRuntime, what: &str) -> io::Result<()> {
    println!(rt; "wrong: {what}")
}

/// Prints a report. It takes no memory.
pub fn print_report(rt: &HostRuntime, report: &Report) -> io::Result<()> {
    let mut out = Standard::new(rt, Stream::Out);
    match write_report(report, &mut out) {
        Ok(()) => Ok(()),
        Err(_) => wrong(rt, "a report that is not written"),
    }
}

/// Prints a listing. It takes no memory.
pub fn print_listing(rt: &HostRuntime, code: &CompiledScript) -> io::Result<()> {
    let mut out = Standard::new(rt, Stream::Out);
    match code.listing(&mut out) {
        Ok(()) => Ok(()),
        Err(_) => wrong(rt, "a listing that is not written"),
    }
}
