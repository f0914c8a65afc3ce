//! Detection of command-line words that are not valid UTF-8.

use std::alloc::AllocError;
use std::env::{Env, FillError};
use std::io::Write;
use std::str;

/// Maximum length of a file name in bytes. Longer words are skipped.
const MAX_WORD_BYTES: usize = 4096;

/// Bound on the number of words, larger than any command line.
const MAX_WORDS: usize = 16_777_216;

/// Reports on standard error the first word of the command line that is not valid UTF-8, with its bytes unchanged.
/// Returns true if there is one.
pub fn write_foreign(rt: &HostRuntime) -> Result<bool, AllocError> {
    let mut room = vec![in rt.alloc(); 0u8; MAX_WORD_BYTES]?;
    for place in 1..MAX_WORDS {
        match rt.arg(place, room.as_mut_slice()) {
            Ok(length) => {
                let word = &room.as_slice()[..length];
                if str::from_utf8(word).is_err() {
                    write_word(rt, word)?;
                    return Ok(true);
                }
            }
            Err(FillError::TooLong) => {}
            Err(FillError::NotPresent) => break,
        }
    }
    Ok(false)
}

fn write_word(rt: &HostRuntime, word: &[u8]) -> Result<(), AllocError> {
    let mut line = Vec::from_slice(rt.alloc(), b"swt: ")?;
    line.extend_from_slice(word)?;
    line.extend_from_slice(
        b" is no UTF-8, as each word has to be: a file of such a name is read as standard input, -\n",
    )?;
    // If this cannot be written, the status is enough.
    let _ = rt.stderr().write_all(line.as_slice());
    Ok(())
}
