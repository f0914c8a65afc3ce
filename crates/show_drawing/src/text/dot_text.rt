//! A text for `dot` under construction, with the escapes that labels need.

use itoa::Buffer;
use std::alloc::{AllocError, Global};

/// A text for `dot` under construction. A part whose allocation fails is left out, and `finish` alone reports the
/// failure.
#[derive(Drop)]
pub struct DotText {
    bytes: Vec<u8>,
    /// Whether a part is missing.
    lacks: bool,
}

impl DotText {
    /// Creates an empty text.
    pub fn new(alloc: Global) -> DotText {
        DotText {
            bytes: Vec::new(alloc),
            lacks: false,
        }
    }

    /// Appends bytes as they are.
    pub fn add_bytes(&mut self, bytes: &[u8]) {
        if self.bytes.extend_from_slice(bytes).is_err() {
            self.lacks = true;
        }
    }

    /// Appends words of the language of `dot`.
    pub fn add(&mut self, words: &str) {
        self.add_bytes(words.as_bytes());
    }

    /// Appends words followed by a number.
    pub fn add_counted(&mut self, words: &str, number: usize) {
        let mut buffer = Buffer::new();
        self.add(words);
        self.add(buffer.format(number));
    }

    /// Appends bytes of the script, with the characters that have a meaning in labels written as entities. A quoted
    /// text needs it as much as a label in angle brackets does, and in both `dot` reads two `\` as one. A byte that is
    /// not printable ASCII becomes `?`.
    pub fn add_escaped(&mut self, bytes: &[u8]) {
        for byte in bytes {
            match *byte {
                b'&' => self.add("&amp;"),
                b'<' => self.add("&lt;"),
                b'>' => self.add("&gt;"),
                b'"' => self.add("&quot;"),
                b'\\' => self.add("&#92;&#92;"),
                b' '..=b'~' => self.add_bytes(&[*byte]),
                _ => self.add("?"),
            }
        }
    }

    /// Returns the whole text.
    ///
    /// # Errors
    ///
    /// Returns `AllocError` if the allocation of a part failed.
    pub fn finish(self) -> Result<Vec<u8>, AllocError> {
        let DotText { bytes, lacks } = self;
        if lacks { Err(AllocError) } else { Ok(bytes) }
    }
}
