//! The keys of an array, as they are shown in diagnostics.

use explain_blocked::value_text::write_key;
use explain_text::words::{write_count, write_str};
use std::alloc::AllocError;
use values::key::Key;
use values::map::Element;

/// Maximum number of keys that are listed one by one.
const MAX_LISTED_KEYS: usize = 8;

/// Appends the keys of elements, which are sorted. Consecutive numbers are written as a range, otherwise keys near
/// `wanted` are listed.
pub fn write_keys(
    out: &mut Vec<u8>,
    elements: &[Element],
    wanted: Option<&Key>,
) -> Result<(), AllocError> {
    let (Some(first), Some(last)) = (elements.first(), elements.last()) else {
        return write_str(out, "no elements");
    };
    if elements.len() == 1 {
        write_str(out, "the key ")?;
        return write_key(out, &first.key);
    }
    write_str(out, "the keys ")?;
    if is_span(&first.key, &last.key, elements.len()) {
        write_key(out, &first.key)?;
        write_str(out, " to ")?;
        write_key(out, &last.key)
    } else {
        write_each(out, elements, first_shown(elements, wanted))
    }
}

/// Returns true if `count` numbers lie from `first` to `last`, both included.
fn is_span(first: &Key, last: &Key, count: usize) -> bool {
    let (Key::Number(first), Key::Number(last)) = (first, last) else {
        return false;
    };
    match (last.checked_sub(*first), i64::try_from(count)) {
        (Some(distance), Ok(count)) => distance.checked_add(1) == Some(count),
        _ => false,
    }
}

/// Returns the position of the first listed key. It is chosen so that half of the listed keys are below `wanted`, as
/// far as possible.
fn first_shown(elements: &[Element], wanted: Option<&Key>) -> usize {
    let Some(wanted) = wanted else {
        return 0;
    };
    let mut below: usize = 0;
    for element in elements {
        if !element.key.is_below(wanted) {
            break;
        }
        below = below.saturating_add(1);
    }
    let last = elements.len().saturating_sub(MAX_LISTED_KEYS);
    below.saturating_sub(MAX_LISTED_KEYS / 2).min(last)
}

/// Appends the keys of elements from a position on, at most 8, and the number of the other keys.
fn write_each(out: &mut Vec<u8>, elements: &[Element], first: usize) -> Result<(), AllocError> {
    let mut told: usize = 0;
    for i in first..elements.len() {
        if told >= MAX_LISTED_KEYS {
            break;
        }
        if told > 0 {
            write_str(out, ", ")?;
        }
        write_key(out, &elements[i].key)?;
        told = told.saturating_add(1);
    }
    if told == elements.len() {
        return Ok(());
    }
    write_str(out, " and ")?;
    write_count(out, elements.len().saturating_sub(told))?;
    write_str(out, " more")
}

/// Appends a key in square brackets, as `[3]` or `["a"]`.
pub fn write_element(out: &mut Vec<u8>, key: &Key) -> Result<(), AllocError> {
    write_str(out, "[")?;
    write_key(out, key)?;
    write_str(out, "]")
}
