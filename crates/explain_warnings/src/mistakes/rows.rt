//! Rows of 64 bits that hold a relation of numbers below 64: bit k of row i tells whether i is related to k.
ghost use Rattle.std.specs.Prelude.{◌≡◌, ◌<◌, ◌&&◌, ◌||◌, ℕ, length, get_or, nat_eq};
ghost use Rattle.explain_warnings.specs.Ways as specs;

/// Returns true if a bit of a row is set.
fn has_bit(row: u64, place: usize) -> bool
    ensures { result ≡ specs.bit_is_set row place }
{
    place < 64 && (row >> place) & 1 == 1
}

/// Returns a row, with one more bit if a condition holds.
pub fn with_bit(row: u64, place: usize, holds: bool) -> u64
    requires { place < 64 }
    ensures { (k : ℕ) → specs.bit_is_set result k ≡ ((holds && nat_eq k place) || specs.bit_is_set row k) }
{
    if holds { row | (1 << place) } else { row }
}

/// Returns a row, with the bits of another one if it has the bit at this place.
fn joined(row: u64, other: u64, place: usize) -> u64
    ensures { (k : ℕ) → specs.bit_is_set result k
        ≡ (specs.bit_is_set row k || (specs.bit_is_set row place && specs.bit_is_set other k)) }
{
    if has_bit(row, place) {
        row | other
    } else {
        row
    }
}

/// Returns the row at a place, or an empty one.
fn row_at(rows: &[u64], place: usize) -> u64
    ensures { result ≡ get_or rows.now place 0 }
{
    match rows.get(place) {
        Some(row) => *row,
        None => 0,
    }
}

/// Returns true if a number is related to another one.
fn is_related(rows: &[u64], i: usize, k: usize) -> bool
    ensures { result ≡ specs.in_rows rows.now i k }
{
    has_bit(row_at(rows, i), k)
}

/// Relates each number that is related to a number to what that is related to.
fn pass(rows: &mut Vec<u64>, place: usize)
    ensures joins { specs.in_rows rows.new.items ≡ specs.through (specs.in_rows rows.old.items) place }
    ensures as_many { length rows.new.items ≡ length rows.old.items }
{
    let other = row_at(rows.as_slice(), place);
    for i in 0..rows.len() {
        rows[i] = joined(rows[i], other, place);
    }
}

/// Relates each number to all to which a way leads from it.
pub fn close(rows: &mut Vec<u64>)
    ensures led { specs.in_rows rows.new.items ≡ specs.leads (specs.in_rows rows.old.items) (length rows.old.items) }
    ensures as_many { length rows.new.items ≡ length rows.old.items }
{
    for place in 0..rows.len() {
        pass(rows, place);
    }
}

/// Returns true if two numbers are related to each other.
fn meets(rows: &[u64], i: usize, k: usize) -> bool
    ensures { result ≡ specs.meet (specs.in_rows rows.now) i k }
{
    i != k && is_related(rows, i, k) && is_related(rows, k, i)
}

/// Returns true if a number and one below `count` are related to each other.
fn meets_below(rows: &[u64], i: usize, count: usize) -> bool
    ensures { result ≡ specs.some_below (specs.meet (specs.in_rows rows.now) i) count }
{
    for k in 0..count {
        if meets(rows, i, k) {
            return true;
        }
    }
    false
}

/// Returns true for a number that is related to another one and that to it, unless one of these is before it.
pub fn meets_first(rows: &[u64], i: usize) -> bool
    ensures { result ≡ specs.meets_first (specs.in_rows rows.now) (length rows.now) i }
{
    meets_below(rows, i, rows.len()) && !meets_below(rows, i, i)
}
