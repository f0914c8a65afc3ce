//! A standard stream as a sink, without allocation.
ghost use Rattle.std.specs.Prelude.{◌≡◌, ◌≤◌, [], length, IfOk};

use crate::files::TRIES;
use host::Stream;
use host::record::{PUT, Record};
use std::io::{self, Error, ErrorKind, Print};
use values::sink::{Sink, SinkFault};

/// Standard output or standard error.
#[derive(Drop)]
pub struct Standard<'r> {
    rt: &'r HostRuntime,
    stream: Stream,
    failures: u64,
    reason: Option<Error>,
    log: Record,
}

impl<'r> Standard<'r> {
    ghost use Rattle.host_system.specs.Streams.{failures_of, taken_of};

    pub fn new(rt: &'r HostRuntime, stream: Stream) -> Standard<'r>
        ensures taken { taken_of result ≡ [] }
        ensures failures { failures_of result ≡ 0 }
    {
        Standard {
            rt,
            stream,
            failures: 0,
            reason: None,
            log: Record::new(),
        }
    }

    /// Returns the error of the last failed write, if any.
    pub fn reason(&self) -> Option<&Error> {
        self.reason.as_ref()
    }
}

fn write_once(rt: &HostRuntime, stream: Stream, piece: &[u8]) -> io::Result<usize>
    ensures { IfOk result (λ n. n ≤ length piece.now) }
{
    match stream {
        Stream::Out => rt.stdout().write_some(piece),
        Stream::Error => rt.stderr().write_some(piece),
    }
}

/// Writes a prefix of the piece and returns its length. Retries if a signal interrupts the call.
fn write_some(rt: &HostRuntime, stream: Stream, piece: &[u8]) -> io::Result<usize>
    ensures { IfOk result (λ n. n ≤ length piece.now) }
{
    for _ in 0..TRIES {
        match write_once(rt, stream, piece) {
            Err(error) if error.kind() == ErrorKind::Interrupted => {}
            answer => return answer,
        }
    }
    Err(ErrorKind::Interrupted.into())
}

impl Sink for Standard<'_> {
    ghost use Rattle.host_system.specs.Streams.{failures_of, taken_of};

    ghost taken = { λ sink. taken_of sink };

    ghost failures = { λ sink. failures_of sink };

    fn write(&mut self, piece: &[u8]) -> Result<usize, SinkFault> {
        match write_some(self.rt, self.stream, piece) {
            Ok(n) => {
                if n == 0 && !piece.is_empty() {
                    self.failures += 1;
                }
                self.log.note(&[PUT], &piece[..n]);
                Ok(n)
            }
            Err(error) => {
                self.reason = Some(error);
                self.failures += 1;
                Err(SinkFault)
            }
        }
    }
}
