//! Pages: buffers of bytes that are to be written to a sink.
ghost use Rattle.std.specs.Prelude.{◌≡◌, ◌<◌, ◌≤◌, ◌+◌, ◌++◌, [], length, OnOk, OnErr};
ghost use Rattle.values.specs.Pages.{OnPage};
ghost use Rattle.values.specs.Sinks.{Beginning};

use crate::sink::{Sink, SinkFault, write_all};
use std::marker::Model;

/// Capacity of a page in bytes.
pub const PAGE_BYTES: usize = 4096;

/// Pending bytes that are to be written to a sink, in a fixed buffer. Does not allocate.
#[derive(Drop)]
pub struct Page {
    bytes: [u8; PAGE_BYTES],
    len: usize,
}

impl Model for Page {
    ghost use Rattle.std.specs.Prelude.{List, ℕ, ◌≤◌, take};

    ghost Value = { List ℕ };

    ghost view = { λ page. take page.len page.bytes };

    ghost invariant = { λ page. page.len ≤ 4096 };
}

impl Page {
    pub fn new() -> Page
        ensures { result ≡ [] }
    {
        Page {
            bytes: [0; PAGE_BYTES],
            len: 0,
        }
    }

    /// Writes the pending bytes to the sink.
    ///
    /// # Errors
    ///
    /// Returns the fault of the sink if a write fails. The sink has then received a prefix of the pending bytes.
    pub fn empty<W: Sink>(&mut self, sink: &mut W) -> Result<(), SinkFault>
        requires { W.failures sink.old < u64.MAX }
        ensures ok { OnOk result (W.taken sink.new ≡ W.taken sink.old ++ self.old) }
        ensures emptied { OnOk result (self.new ≡ []) }
        ensures err { OnErr result (Beginning (W.taken sink.old) self.old (W.taken sink.new)) }
        ensures failed { OnErr result (W.failures sink.old < W.failures sink.new) }
        ensures none_failed { OnOk result (W.failures sink.new ≡ W.failures sink.old) }
    {
        write_all(sink, &self.bytes[..self.len])?;
        self.len = 0;
        Ok(())
    }

    /// Appends a text to the pending bytes. If it does not fit, the pending bytes are written first; a text longer than
    /// a page is then written directly.
    ///
    /// # Errors
    ///
    /// Returns the fault of the sink if a write fails. The sink has then received a prefix of the pending bytes and the
    /// text.
    pub fn put<W: Sink>(&mut self, sink: &mut W, text: &[u8]) -> Result<(), SinkFault>
        requires { W.failures sink.old < u64.MAX }
        ensures ok { OnOk result (OnPage (W.taken sink.old) (W.taken sink.new) self.new (self.old ++ text.now)) }
        ensures err { OnErr result (Beginning (W.taken sink.old) (self.old ++ text.now) (W.taken sink.new)) }
        ensures failed { OnErr result (W.failures sink.old < W.failures sink.new) }
        ensures none_failed { OnOk result (W.failures sink.new ≡ W.failures sink.old) }
    {
        if text.len() <= self.room() {
            self.keep(text);
            return Ok(());
        }
        self.empty(sink)?;
        if text.len() <= self.room() {
            self.keep(text);
            return Ok(());
        }
        write_all(sink, text)?;
        Ok(())
    }

    /// Returns the number of further bytes that fit on the page.
    fn room(&self) -> usize
        ensures { result + length self.now ≡ 4096 }
    {
        PAGE_BYTES - self.len
    }

    /// Appends a text that fits to the pending bytes.
    fn keep(&mut self, text: &[u8])
        requires { length self.old + length text.now ≤ 4096 }
        ensures { self.new ≡ self.old ++ text.now }
    {
        let end = self.len + text.len();
        self.bytes[self.len..end].copy_from_slice(text);
        self.len = end;
    }
}
