//! Hints about malformed numbers, strings and escapes.

/// The digits of the least whole number, without its sign.
const LEAST_INTEGER: &[u8] = b"9223372036854775808";

/// Returns the hint about the malformed number that begins at offset `at`.
pub fn on_number(text: &[u8], number: &[u8], at: usize) -> &'static str {
    if number == LEAST_INTEGER && is_negative(text, at) {
        return "write -9223372036854775807 - 1 for the least whole number";
    }
    if number.starts_with(b"0x") || number.starts_with(b"0X") {
        return "write decimal digits: 31 for 0x1F";
    }
    if has_byte(number, b'_') {
        return "leave the _ out: 1000000 for 1_000_000";
    }
    if has_others(number) {
        return "a name begins with a letter or _, and a number has only the digits 0 to 9: 1000 for 1e3";
    }
    match number {
        [b'0', ..] => "leave the 0 before the number out",
        _ => "9223372036854775807 is the largest whole number",
    }
}

/// Returns true if a byte occurs in a number.
fn has_byte(number: &[u8], wanted: u8) -> bool {
    for byte in number {
        if *byte == wanted {
            return true;
        }
    }
    false
}

/// Returns true if a number has other bytes than digits.
fn has_others(number: &[u8]) -> bool {
    for byte in number {
        if !byte.is_ascii_digit() {
            return true;
        }
    }
    false
}

/// Returns true if the last byte before an offset that is not a space is a `-`.
fn is_negative(text: &[u8], at: usize) -> bool {
    let (before, _) = text.split_at(at.min(text.len()));
    last_sign(before) == b'-'
}

/// Returns the last byte of a text that is not a space, or a space if there is none.
fn last_sign(text: &[u8]) -> u8 {
    let mut last = b' ';
    for byte in text {
        if *byte != b' ' {
            last = *byte;
        }
    }
    last
}

/// Returns the hint about a string that is not closed on its line. `to`: the offset up to which the lexer read it.
pub fn on_string(text: &[u8], to: usize) -> &'static str {
    match text.get(to) {
        Some(b'\t') => "write \\t for a tab in a string",
        _ => { "close the string by a \" on its line: \\n in it ends a line, and + joins strings" }
    }
}

/// Returns the hint about an unknown escape.
pub fn on_escape(escape: &[u8]) -> &'static str {
    match escape {
        [b'\\', b'%'] => "write %% for a % in a format",
        [b'\\', b'\''] => "write ' without the \\",
        [b'\\', b'r'] => "write \\n for the end of a line",
        _ => "write \\\\ for a \\",
    }
}
