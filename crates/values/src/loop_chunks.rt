//! Chunking of loops: the turns of a loop are opened `CHUNK_SIZE` at a time, and an item of its own continues with the
//! rest.
//!
//! The functions compute on turn indices alone; no instance or item is touched here.

ghost use Rattle.std.specs.Prelude.{◌≡◌, ◌+◌, ◌*◌, min, nat_lt};
ghost use Rattle.values.specs.Limits.{chunk_size};

use crate::limits::CHUNK_SIZE;

/// Returns the range of turn indices of a chunk, end exclusive, for a loop of `count` turns.
pub fn chunk_of(chunk: usize, count: u64) -> (u64, u64)
    ensures first { result.0 ≡ min (chunk * chunk_size) count }
    ensures end { result.1 ≡ min (chunk * chunk_size + chunk_size) count }
{
    let first = (chunk as u64).saturating_mul(CHUNK_SIZE).min(count);
    let end = first.saturating_add(CHUNK_SIZE).min(count);
    (first, end)
}

/// Returns true if a loop of `count` turns has turns from index `end` on.
pub fn are_left(end: u64, count: u64) -> bool
    ensures { result ≡ nat_lt end count }
{
    end < count
}
