//! A word of a command line.
ghost use Rattle.std.specs.Prelude.{◌≡◌, IfOk};
ghost use Rattle.swt_arguments.specs.Words.{is_standard_input};

use crate::words::is;
use std::alloc::{AllocError, Global};
use std::convert::AsStr;
use std::marker::Model;

/// A word of a command line, with any characters.
#[derive(Drop)]
pub struct Word {
    text: String,
}

impl Model for Word {
    ghost use Rattle.std.specs.Prelude.{List, ℕ};
    ghost use Rattle.std.specs.String.{string_bytes};

    ghost Value = { List ℕ };

    ghost view = { λ word. string_bytes word.text };
}

impl AsStr for Word {
    ghost text = { λ word. word };

    fn as_str(&self) -> &str {
        self.text.as_str()
    }
}

impl Word {
    ghost use Rattle.std.specs.String.{string_bytes};

    pub fn new(text: String) -> Word
        ensures { result ≡ string_bytes text }
    {
        Word { text }
    }

    pub fn as_str(&self) -> &str
        ensures { result.now ≡ self.now }
    {
        self.text.as_str()
    }

    /// Returns true if the word denotes standard input when used as an input file.
    pub fn is_standard_input(&self) -> bool
        ensures { result ≡ is_standard_input self.now }
    {
        is(self.text.as_str(), "-")
    }

    pub fn copy(&self, alloc: Global) -> Result<Word, AllocError>
        ensures { IfOk result (λ word. word ≡ self.now) }
    {
        Ok(Word {
            text: String::from_str(alloc, self.text.as_str())?,
        })
    }
}
