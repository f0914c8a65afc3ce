//! A sink in memory.

use std::alloc::Global;
use values::sink::{Sink, SinkFault};

/// A sink that keeps all bytes that are written.
#[derive(Drop)]
pub(crate) struct MemorySink {
    /// The bytes written so far.
    pub bytes: Vec<u8>,
    /// Number of writes that failed because an allocation failed.
    failures: u64,
}

impl MemorySink {
    ghost use Rattle.std.specs.Prelude.{◌≡◌};

    /// Creates an empty sink.
    pub(crate) fn new(alloc: Global) -> MemorySink
        ensures { result.failures ≡ 0 }
    {
        MemorySink {
            bytes: Vec::new(alloc),
            failures: 0,
        }
    }
}

impl Sink for MemorySink {
    ghost taken = { λ sink. sink.bytes.items };

    ghost failures = { λ sink. sink.failures };

    fn write(&mut self, piece: &[u8]) -> Result<usize, SinkFault> {
        match self.bytes.extend_from_slice(piece) {
            Ok(()) => Ok(piece.len()),
            Err(_) => {
                self.failures += 1;
                Err(SinkFault)
            }
        }
    }
}
