//! A text under construction: a line a node, with its position in the script.

use explain_text::line_index::LineIndex;
use itoa::Buffer;
use std::alloc::{AllocError, Global};

/// Width of the column of positions.
const POSITION_WIDTH: usize = 8;

/// A text under construction, a line a node. A part whose allocation fails is left out, and `finish` alone reports the
/// failure.
#[derive(Drop)]
pub struct PassPage<'t> {
    lines: LineIndex<'t>,
    bytes: Vec<u8>,
    /// Whether a part is missing.
    lacks: bool,
}

impl<'t> PassPage<'t> {
    /// Creates an empty text about a script.
    ///
    /// # Errors
    ///
    /// Returns `AllocError` if an allocation fails.
    pub fn new(alloc: Global, source: &'t [u8]) -> Result<PassPage<'t>, AllocError> {
        let lines = LineIndex::of(alloc, source)?;
        Ok(PassPage {
            lines,
            bytes: Vec::new(alloc),
            lacks: false,
        })
    }

    /// Begins a line: the position of an offset, then two spaces for each level of the depth.
    pub fn begin(&mut self, at: usize, depth: usize) {
        let start = self.bytes.len();
        self.add_position(at);
        self.add(" ");
        let width = self.bytes.len().saturating_sub(start);
        for _ in width..POSITION_WIDTH {
            self.add(" ");
        }
        for _ in 0..depth {
            self.add("  ");
        }
    }

    /// Ends a line.
    pub fn end(&mut self) {
        self.add("\n");
    }

    /// Appends bytes as they are.
    pub fn add_bytes(&mut self, bytes: &[u8]) {
        if self.bytes.extend_from_slice(bytes).is_err() {
            self.lacks = true;
        }
    }

    /// Appends words.
    pub fn add(&mut self, words: &str) {
        self.add_bytes(words.as_bytes());
    }

    /// Appends words followed by a count.
    pub fn add_counted(&mut self, words: &str, count: usize) {
        let mut buffer = Buffer::new();
        self.add(words);
        self.add(buffer.format(count));
    }

    /// Appends a number.
    pub fn add_number(&mut self, number: i64) {
        let mut buffer = Buffer::new();
        self.add(buffer.format(number));
    }

    /// Appends `LINE:COLUMN` for an offset.
    pub fn add_position(&mut self, at: usize) {
        if self.lines.say_place(&mut self.bytes, at).is_err() {
            self.lacks = true;
        }
    }

    /// Appends a priority, unless it is 0.
    pub fn add_priority(&mut self, priority: i32) {
        if priority != 0 {
            self.add(", priority ");
            self.add_number(priority as i64);
        }
    }

    /// Appends a string in quotes, as a script spells it.
    pub fn add_text(&mut self, bytes: &[u8]) {
        self.add("\"");
        for byte in bytes {
            match *byte {
                b'\n' => self.add("\\n"),
                b'\t' => self.add("\\t"),
                b'\\' => self.add("\\\\"),
                b'"' => self.add("\\\""),
                b' '..=b'~' => self.add_bytes(&[*byte]),
                _ => self.add("?"),
            }
        }
        self.add("\"");
    }

    /// Returns the whole text.
    ///
    /// # Errors
    ///
    /// Returns `AllocError` if the allocation of a part failed.
    pub fn finish(self) -> Result<Vec<u8>, AllocError> {
        let PassPage {
            lines: _lines,
            bytes,
            lacks,
        } = self;
        if lacks { Err(AllocError) } else { Ok(bytes) }
    }
}
