//! Lines about the time of a part.

use std::io;
use std::time::{Clock, Instant};

/// Prints the time of `calls` calls since they began, and their result.
pub fn tell(
    rt: &(impl Clock + Print),
    start: Instant,
    what: &str,
    calls: u64,
    outcome: u64,
) -> io::Result<()> {
    let micros = start.elapsed(rt)?.as_micros();
    println!(rt; "{what}: {calls} in {micros} microseconds; {outcome}")
}
