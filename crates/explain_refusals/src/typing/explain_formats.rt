//! Explanations of invalid formats.

use crate::explanation::{Explanation, Hint};
use std::alloc::{AllocError, Global};

/// Returns the explanation of an invalid format.
pub fn told_of_format(alloc: Global, format: &[u8]) -> Result<Explanation, AllocError> {
    if !format.starts_with(b"\"") {
        let told = Explanation::plain(alloc, "the format of printf is not a string in quotes")?;
        let words = "write the format in the call: printf(\"%s\", s); or printf(\"%i\", n);";
        return Ok(told.with(Hint::plain(alloc, words)?));
    }
    if !is_one_string(format) {
        let told = Explanation::plain(alloc, "the format of printf is not a single string")?;
        let words = "write one string, and the values after it: printf(\"n = %i\", n);";
        return Ok(told.with(Hint::plain(alloc, words)?));
    }
    match wrong_conversion(format) {
        Some(byte) if byte.is_ascii_alphanumeric() || matches!(byte, b'-' | b'.' | b'+') => {
            told_of_conversion(alloc, byte)
        }
        _ => {
            let told = Explanation::plain(alloc, "a % in a format begins %i, %d, %s or %%")?;
            let words = "write %% for a % that is printed";
            Ok(told.with(Hint::plain(alloc, words)?))
        }
    }
}

/// Returns the explanation of a conversion that begins with this byte.
fn told_of_conversion(alloc: Global, byte: u8) -> Result<Explanation, AllocError> {
    let words = match byte {
        b'f' | b'e' | b'g' => "write %i: all numbers are ints",
        b'b' =>
            "a boolean is printed by an if: if (b) { printf(\"true\"); } else { printf(\"false\"); }",
        b'c' => "write %s: a character is a string",
        b'0'..=b'9' | b'-' | b'.' | b'+' => {
            "write %i or %s: conversions have no width; pad by a function that puts blanks before"
        }
        b'l' | b'u' => "write %i, which prints every int",
        _ => "write %i for an int, %s for a string, and %% for a % that is printed",
    };
    let told = Explanation::of(
        alloc,
        "unknown conversion `%$0`: formats have %i, %d, %s and %%",
        &[byte],
        None,
    )?;
    Ok(told.with(Hint::plain(alloc, words)?))
}

/// Returns true if a text consists of one string literal.
fn is_one_string(text: &[u8]) -> bool {
    let mut escaped = false;
    for i in 1..text.len() {
        if escaped {
            escaped = false;
        } else if text[i] == b'"' {
            return i + 1 == text.len();
        } else {
            escaped = text[i] == b'\\';
        }
    }
    false
}

/// Returns the byte after the first `%` that begins no conversion.
fn wrong_conversion(format: &[u8]) -> Option<u8> {
    let mut begun = false;
    for byte in format {
        if begun {
            begun = false;
            if !matches!(*byte, b'i' | b'd' | b's' | b'%') {
                return Some(*byte);
            }
        } else {
            begun = *byte == b'%';
        }
    }
    None
}
