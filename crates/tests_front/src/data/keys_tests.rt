//! Keys: which come first, which are one key, and what two texts have in common that share a mark.

use crate::asserts::is_equal;
use std::alloc::{AllocError, Global};
use std::process::Abort;
use values::key::{Key, KeyRef};
use values::text::{Bytes, Text};
use values::value::Scalar;

/// A text as a key.
fn text_key(rt: &impl Abort, alloc: Global, bytes: &[u8]) -> Key {
    Key::Text(Text::from_slice(alloc, bytes).expect(rt, "memory"))
}

/// The one key comes before the other, and they are two.
fn is_before(rt: &impl Abort, low: &Key, high: &Key) {
    is_equal(rt, (low.is_below(high), high.is_below(low)), (true, false));
    is_equal(rt, (low.is_same(high), low.is_same(low)), (false, true));
}

/// Texts in the order of their bytes, in which a byte 10 comes before `!`.
const RISING: [&[u8]; 8] = [b"", b"\t", b"\n", b"!", b"B", b"a", b"ab", b"b"];

#[test]
fn texts_rise_by_their_bytes(rt: HostRuntime) {
    let mut last = Key::Number(i64::MAX);
    for bytes in RISING {
        let key = text_key(&rt, rt.alloc(), bytes);
        is_before(&rt, &last, &key);
        last = key;
    }
}

/// A scalar as a key, and as a scalar again.
fn comes_back(rt: &impl Abort, scalar: Scalar) -> Scalar {
    let key = Key::of(scalar);
    key.scalar().expect(rt, "memory")
}

#[test]
fn scalars_are_keys(rt: HostRuntime) {
    let text = Text::from_slice(rt.alloc(), b"a\"b").expect(&rt, "memory");
    let again = comes_back(&rt, Scalar::Text(text));
    assert!(rt; matches!(&again, Scalar::Text(text) if text.as_bytes() == b"a\"b".as_slice()));
    let number = comes_back(&rt, Scalar::Number(-3));
    assert!(rt; matches!(number, Scalar::Number(-3)));
}

/// A word of 1,024 letters in which each half is the other one's with its letters changed, and so on down to single letters.
fn folded(alloc: Global, first: u8, other: u8) -> Result<Key, AllocError> {
    let mut bytes = Bytes::new(alloc);
    for place in 0..1024u32 {
        bytes.push(if place.count_ones() % 2 == 0 {
            first
        } else {
            other
        })?;
    }
    Ok(Key::Text(Text::new(alloc, bytes)?))
}

/// The key is the same where it lies elsewhere.
fn is_seen(rt: &impl Abort, key: &Key, other: &Key) {
    let seen: KeyRef<'_> = key.as_ref();
    is_equal(rt, seen.hash_code(), key.hash_code());
    is_equal(
        rt,
        (seen.is_same(key.as_ref()), seen.is_same(other.as_ref())),
        (true, false),
    );
}

#[test]
fn two_texts_have_one_hash(rt: HostRuntime) {
    let one = folded(rt.alloc(), b'a', b'b').expect(&rt, "memory");
    let other = folded(rt.alloc(), b'b', b'a').expect(&rt, "memory");
    is_equal(&rt, one.hash_code(), other.hash_code());
    is_before(&rt, &one, &other);
    is_seen(&rt, &one, &other);
    is_equal(&rt, Key::Number(-1).hash_code(), u64::MAX);
}
