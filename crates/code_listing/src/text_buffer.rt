//! A text buffer that records allocation failures until the end.

ghost use Rattle.std.specs.Prelude.{◌≡◌, ◌++◌, [], false, decimal, IfOk};
ghost use Rattle.std.specs.Fmt.{signed_decimal};
ghost use Rattle.code_listing.specs.Buffers.{Adds};

use itoa::Buffer;
use std::alloc::{AllocError, Global};

/// A text under construction. A part whose allocation fails is left out, and `finish` alone reports the failure.
#[derive(Drop)]
pub struct TextBuffer {
    bytes: Vec<u8>,
    /// Whether a part is missing.
    lacks: bool,
}

impl TextBuffer {
    /// Creates an empty text.
    pub fn new(alloc: Global) -> TextBuffer
        ensures { (result.lacks ≡ false) × (result.bytes.items ≡ []) }
    {
        TextBuffer {
            bytes: Vec::new(alloc),
            lacks: false,
        }
    }

    /// Appends bytes.
    pub fn add(&mut self, bytes: &[u8])
        ensures { Adds self.old self.new bytes.now }
    {
        match self.bytes.extend_from_slice(bytes) {
            Ok(()) => {}
            Err(_) => self.lacks = true,
        }
    }

    /// Appends words followed by a number.
    pub fn add_counted(&mut self, words: &[u8], count: usize)
        ensures { Adds self.old self.new (words.now ++ decimal count) }
    {
        self.add(words);
        self.add_number(count);
    }

    /// Appends a number.
    pub fn add_number(&mut self, number: usize)
        ensures { Adds self.old self.new (decimal number) }
    {
        let mut buffer = Buffer::new();
        self.add(buffer.format(number).as_bytes());
    }

    /// Appends a priority.
    pub fn add_priority(&mut self, priority: i32)
        ensures { Adds self.old self.new (signed_decimal priority) }
    {
        let mut buffer = Buffer::new();
        self.add(buffer.format(priority).as_bytes());
    }

    /// Returns the whole text.
    ///
    /// # Errors
    ///
    /// Returns `AllocError` if the allocation of a part failed.
    pub fn finish(self) -> Result<Vec<u8>, AllocError>
        ensures { IfOk result (λ text. (self.lacks ≡ false) × (text.items ≡ self.bytes.items)) }
    {
        let TextBuffer { bytes, lacks } = self;
        if lacks { Err(AllocError) } else { Ok(bytes) }
    }
}
