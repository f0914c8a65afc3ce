//! Standard output that keeps its last line.
ghost use Rattle.std.specs.Prelude.{◌≡◌, []};

use host::Stream;
use host_system::stream::Standard;
use std::alloc::AllocError;
use std::io::Error;
use values::sink::{Sink, SinkFault};

/// The last line of a text that arrives in pieces, including its newline.
#[derive(Drop)]
pub struct LastLine {
    wanted: bool,
    bytes: Vec<u8>,
    /// Whether an allocation for the line failed.
    lacks: bool,
}

impl LastLine {
    /// Returns the last line.
    ///
    /// # Errors
    ///
    /// Returns `AllocError` if an allocation for the line failed.
    pub fn line(&self) -> Result<&[u8], AllocError> {
        if self.lacks {
            Err(AllocError)
        } else {
            Ok(self.bytes.as_slice())
        }
    }

    /// Updates the last line with the next piece of the text.
    fn keep(&mut self, piece: &[u8]) {
        if !self.wanted || self.lacks || piece.is_empty() {
            return;
        }
        if self.bytes.as_slice().last() == Some(&b'\n') {
            self.bytes.clear();
        }
        if self.add(piece).is_err() {
            self.lacks = true;
        }
    }

    /// Appends a piece, or replaces the line by the last line that begins in the piece.
    fn add(&mut self, piece: &[u8]) -> Result<(), AllocError> {
        match line_in(piece) {
            Some(line) => {
                self.bytes.clear();
                self.bytes.extend_from_slice(line)
            }
            None => self.bytes.extend_from_slice(piece),
        }
    }
}

/// Returns the last line that begins in a piece after the end of another, if any.
fn line_in(piece: &[u8]) -> Option<&[u8]> {
    let mut begin = 0;
    for place in 0..piece.len() {
        if piece[place] == b'\n' && place + 1 < piece.len() {
            begin = place + 1;
        }
    }
    if begin > 0 { piece.get(begin..) } else { None }
}

/// Standard output, together with the last line written to it.
#[derive(Drop)]
pub struct Output<'r> {
    stream: Standard<'r>,
    tail: LastLine,
}

impl<'r> Output<'r> {
    ghost use Rattle.swt.specs.Outputs.{failures_of, taken_of};

    /// Creates the output. The last line is not kept until `want` is called.
    pub fn new(rt: &'r HostRuntime) -> Output<'r>
        ensures taken { taken_of result ≡ [] }
        ensures failures { failures_of result ≡ 0 }
    {
        Output {
            stream: Standard::new(rt, Stream::Out),
            tail: LastLine {
                wanted: false,
                bytes: Vec::new(rt.alloc()),
                lacks: false,
            },
        }
    }

    /// Sets whether the last line is kept.
    pub fn want(&mut self, wanted: bool)
        ensures taken { taken_of self.new ≡ taken_of self.old }
        ensures failures { failures_of self.new ≡ failures_of self.old }
    {
        self.tail.wanted = wanted;
    }

    /// Returns the last line that was kept.
    pub fn tail(&self) -> &LastLine {
        &self.tail
    }

    /// Returns the error of the last failed write, if any.
    pub fn reason(&self) -> Option<&Error> {
        self.stream.reason()
    }
}

impl Sink for Output<'_> {
    ghost use Rattle.swt.specs.Outputs.{failures_of, taken_of};

    ghost taken = { λ sink. taken_of sink };

    ghost failures = { λ sink. failures_of sink };

    fn write(&mut self, piece: &[u8]) -> Result<usize, SinkFault> {
        let n = self.stream.write(piece)?;
        self.tail.keep(&piece[..n]);
        Ok(n)
    }
}
