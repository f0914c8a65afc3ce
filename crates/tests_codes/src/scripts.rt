//! Scripts that are too long to be written out.

use std::alloc::{AllocError, Global};

/// Adds a word of 1,024 letters, in which each half is the other one's with its letters changed, and so on down to single letters. The
/// two words that begin with either letter share their hash.
fn add_word(text: &mut Vec<u8>, first: u8, other: u8) -> Result<(), AllocError> {
    for place in 0..1024u32 {
        text.push(if place.count_ones() % 2 == 0 {
            first
        } else {
            other
        })?;
    }
    Ok(())
}

/// Returns a script with a reader of one word, a write of the other, and then the write that the reader waits for. The two words share their hash.
///
/// # Errors
///
/// Returns `AllocError` if an allocation fails.
pub fn two_texts_of_one_hash(alloc: Global) -> Result<Vec<u8>, AllocError> {
    let mut text = Vec::from_slice(alloc, b"int A[string]; printf(\"%i\", A[\"")?;
    add_word(&mut text, b'a', b'b')?;
    text.extend_from_slice(b"\"]); A[\"")?;
    add_word(&mut text, b'b', b'a')?;
    text.extend_from_slice(b"\"] = 1; A[\"")?;
    add_word(&mut text, b'a', b'b')?;
    text.extend_from_slice(b"\"] = 2;")?;
    Ok(text)
}
