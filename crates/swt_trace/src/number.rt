//! Parser for decimal numbers without leading zeros.
ghost use Rattle.std.specs.Prelude.{◌≡◌, ◌≢◌, ◌^◌, ◌<◌, ◌++◌, ◌∷◌, ℕ, List, decimal, length, slice_index, IfSome, IfNone, IsTrue, ◌↔◌};

use itoa::Buffer;
use std::str;

/// Returns the number before the first byte `end`, and the bytes after that byte. Returns `None` if there is no such
/// number of 64 bits.
pub(crate) fn read_number(bytes: &[u8], end: u8) -> Option<(u64, &[u8])>
    requires { end < 48 }
    ensures some { IfSome result (λ read. bytes.now ≡ decimal read.0 ++ end ∷ read.1.now) }
    ensures fits { IfSome result (λ read. read.0 < 2 ^ 64) }
    ensures none { IfNone result ((n : ℕ) (rest : List ℕ) → n < 2 ^ 64 → bytes.now ≢ decimal n ++ end ∷ rest) }
{
    let place = find(bytes, end)?;
    let n = parse_number(&bytes[..place])?;
    Some((n, &bytes[place + 1..]))
}

/// Returns the position of the first byte equal to `wanted`.
fn find(bytes: &[u8], wanted: u8) -> Option<usize>
    ensures within { IfSome result (λ place. place < length bytes.now) }
    ensures found { IfSome result (λ place. slice_index bytes.now place ≡ wanted) }
    ensures first { IfSome result (λ place. (k : ℕ) → k < place → slice_index bytes.now k ≢ wanted) }
    ensures none { IfNone result ((k : ℕ) → k < length bytes.now → slice_index bytes.now k ≢ wanted) }
{
    for (place, byte) in bytes.iter().enumerate() {
        if *byte == wanted {
            return Some(place);
        }
    }
    None
}

/// Returns the number with exactly these decimal digits, or `None` if there is no such number of 64 bits.
fn parse_number(digits: &[u8]) -> Option<u64>
    ensures some { IfSome result (λ n. digits.now ≡ decimal n) }
    ensures none { IfNone result ((n : ℕ) → n < 2 ^ 64 → digits.now ≢ decimal n) }
{
    let Ok(text) = str::from_utf8(digits) else {
        return None;
    };
    let Ok(n) = text.parse::<u64>() else {
        return None;
    };
    let mut buffer = Buffer::new();
    if is_same(buffer.format(n).as_bytes(), digits) {
        Some(n)
    } else {
        None
    }
}

/// Returns true if the bytes are equal.
fn is_same(a: &[u8], b: &[u8]) -> bool
    ensures { IsTrue result ↔ (a.now ≡ b.now) }
{
    a == b
}
