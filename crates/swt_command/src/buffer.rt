//! An in-memory sink.
ghost use Rattle.std.specs.Prelude.{◌≡◌, []};

use std::alloc::Global;
use values::sink::{Sink, SinkFault};

/// A sink that keeps all bytes written to it.
#[derive(Drop)]
pub struct Buffer {
    /// Bytes written so far.
    pub bytes: Vec<u8>,
    /// Number of writes that failed because an allocation failed.
    pub failures: u64,
}

impl Buffer {
    pub fn new(alloc: Global) -> Buffer
        ensures bytes { result.bytes.items ≡ [] }
        ensures failures { result.failures ≡ 0 }
    {
        Buffer {
            bytes: Vec::new(alloc),
            failures: 0,
        }
    }

    /// Returns the bytes written so far.
    pub fn bytes(&self) -> &[u8]
        ensures { result.now ≡ self.now.bytes.items }
    {
        self.bytes.as_slice()
    }
}

impl Sink for Buffer {
    ghost taken = { λ sink. sink.bytes.items };

    ghost failures = { λ sink. sink.failures };

    fn write(&mut self, piece: &[u8]) -> Result<usize, SinkFault> {
        match self.bytes.extend_from_slice(piece) {
            Ok(()) => Ok(piece.len()),
            Err(_) => {
                self.failures += 1;
                Err(SinkFault)
            }
        }
    }
}
