//! Numbers of the entries and bodies of code: the script's body first, then those of its functions, then those of inner
//! blocks in the order of emission.

ghost use Rattle.std.specs.Prelude.{◌≡◌, ◌<◌, ◌+◌, ◌^◌, length};

use crate::code::Body;

/// Converts a number to 32 bits. Saturates at `u32::MAX`.
pub fn small(number: usize) -> u32
    ensures { number < 2 ^ 32 → result ≡ number }
{
    if number <= u32::MAX as usize {
        number as u32
    } else {
        u32::MAX
    }
}

/// Returns the sum of two numbers. Saturates at `usize::MAX`.
pub fn behind(number: usize, more: usize) -> usize
    ensures { number + more < 2 ^ 64 → result ≡ number + more }
{
    if more <= usize::MAX - number {
        number + more
    } else {
        usize::MAX
    }
}

/// Returns `number + 1`. Saturates at `u32::MAX`.
pub fn next(number: u32) -> u32
    ensures { number + 1 < 2 ^ 32 → result ≡ number + 1 }
{
    if number < u32::MAX {
        number + 1
    } else {
        u32::MAX
    }
}

/// Returns the number of the next body, given the number of root bodies and the bodies of the finished inner blocks.
/// Exact if it fits in 32 bits.
pub fn next_number(roots: usize, bodies: &Vec<Body>) -> u32
    ensures { roots + length bodies.now.items < 2 ^ 32 → result ≡ roots + length bodies.now.items }
{
    small(behind(roots, bodies.len()))
}
