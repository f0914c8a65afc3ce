//! Values as they are shown in diagnostics.

use explain_text::words::{write_bytes, write_number, write_str};
use std::alloc::AllocError;
use values::key::Key;
use values::value::Scalar;

/// Maximum number of bytes of a text value that are shown.
const SHOWN: usize = 40;

/// Appends a scalar. A number or a boolean is written as in a script.
pub fn write_scalar(out: &mut Vec<u8>, scalar: &Scalar) -> Result<(), AllocError> {
    match scalar {
        Scalar::Number(number) => write_number(out, *number),
        Scalar::Truth(true) => write_str(out, "true"),
        Scalar::Truth(false) => write_str(out, "false"),
        Scalar::Text(text) => write_text(out, text.as_bytes()),
    }
}

/// Appends a text in double quotes, truncated to 40 bytes.
pub fn write_text(out: &mut Vec<u8>, bytes: &[u8]) -> Result<(), AllocError> {
    out.push(b'"')?;
    write_bytes(out, bytes, SHOWN)?;
    out.push(b'"')?;
    Ok(())
}

/// Appends the key of an element or of a turn.
pub fn write_key(out: &mut Vec<u8>, key: &Key) -> Result<(), AllocError> {
    match key {
        Key::Number(number) => write_number(out, *number),
        Key::Text(text) => write_text(out, text.as_bytes()),
    }
}
