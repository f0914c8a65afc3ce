//! Hint texts with names of the script.

use std::alloc::AllocError;

/// Appends a text, with each `$` replaced by the next of these words. A `$` without a word is left out.
pub fn write_filled(out: &mut Vec<u8>, text: &str, words: &[&[u8]]) -> Result<(), AllocError> {
    let mut used: usize = 0;
    for byte in text.as_bytes() {
        if *byte == b'$' {
            write_word(out, words, used)?;
            used = used.saturating_add(1);
        } else {
            out.push(*byte)?;
        }
    }
    Ok(())
}

fn write_word(out: &mut Vec<u8>, words: &[&[u8]], number: usize) -> Result<(), AllocError> {
    if let Some(word) = words.get(number) {
        out.extend_from_slice(word)?;
    }
    Ok(())
}
