//! Total wrappers for the calls of a store: a datum that does not exist, or has another shape, has no value and is not
//! changed.

ghost use Rattle.std.specs.Prelude.{◌≡◌, ◌<◌, ◌⊎◌, None, option_copied, IfOk, OnErr, OnOk, length};
ghost use Rattle.values.specs.Keys.{key_seen};
ghost use Rattle.data_store.specs.Arrays.{room_for, with_element};
ghost use Rattle.data_store.specs.Data.{with_array};
ghost use Rattle.data_store.specs.Stores.{array_at, at, changed, datum, value_at, IsArrayAt};
ghost use Rattle.values.specs.Maps.{found};
ghost use Rattle.board_data.specs.Data.{closes, given, held, is_closed_at, listed_at, released, roomy, writer_closed};

use data_store::store::Store;
use std::alloc::AllocError;
use values::datum_kind::DatumKind;
use values::key::{Key, KeyRef};
use values::map::Map;
use values::value::Scalar;

/// Returns the value of a scalar, or `None` if it has none yet.
pub fn value(store: &Store, d: usize) -> Option<&Scalar>
    ensures { option_copied result ≡ value_at store.now d }
{
    match store.shape(d) {
        Some(DatumKind::Single) => store.value(d),
        _ => None,
    }
}

/// Returns the element of an array under a key.
#[inline(always)]
pub fn element<'a>(store: &'a Store, d: usize, key: KeyRef<'_>) -> Option<&'a Scalar>
    ensures { option_copied result ≡ found (key_seen key.entry) (array_at store.now d).elements }
{
    match store.shape(d) {
        Some(DatumKind::Keyed) => store.element(d, key),
        _ => None,
    }
}

/// Returns all elements of an array, or `None` if the datum is not an array.
pub fn listed(store: &Store, d: usize) -> Result<Option<Map>, AllocError>
    ensures { IfOk result (λ map. map ≡ listed_at store.now d) }
{
    match store.shape(d) {
        Some(DatumKind::Keyed) => Ok(Some(store.listed(d)?)),
        _ => Ok(None),
    }
}

/// Returns the number of elements of an array.
pub fn size(store: &Store, d: usize) -> usize
    ensures { result ≡ length (array_at store.now d).elements }
{
    match store.shape(d) {
        Some(DatumKind::Keyed) => store.size(d),
        _ => 0,
    }
}

/// Returns true if no item may still write the datum.
pub fn is_closed(store: &Store, d: usize) -> bool
    ensures { result ≡ is_closed_at store.now d }
{
    !store.is_live(d) || store.is_closed(d)
}

/// Sets the value of a scalar.
#[inline(always)]
pub fn set_scalar(store: &mut Store, d: usize, value: Scalar)
    ensures { store.new ≡ given d value store.old }
{
    if let Some(DatumKind::Single) = store.shape(d) {
        let _set = store.put(d, value);
    }
}

/// Inserts an element into an array. An array that no item may write, or that already has this key, is not changed. The
/// caller has reserved room for the element.
pub fn insert(store: &mut Store, d: usize, key: Key, value: Scalar)
    ensures took { IsArrayAt store.old d → 0 < (datum store.old d).writes → found key (array_at store.old d).elements ≡ None
        → 0 < room_for key (array_at store.old d) → store.new ≡ changed d (with_array (with_element key value)) store.old }
    ensures exact { (store.new ≡ store.old) ⊎ (IsArrayAt store.old d × (0 < (datum store.old d).writes) × (found key (array_at store.old d).elements ≡ None)
        × (store.new ≡ changed d (with_array (with_element key value)) store.old)) }
{
    if let Some(DatumKind::Keyed) = store.shape(d) {
        let _inserted = store.insert(d, key, value);
    }
}

/// Adds to both counts of holds, unless a sum overflows.
pub fn hold(store: &mut Store, d: usize, reads: u64, writes: u64)
    ensures { store.new ≡ held d reads writes store.old }
{
    if store.is_live(d)
        && store.reads(d).checked_add(reads).is_some()
        && store.writes(d).checked_add(writes).is_some()
    {
        store.hold(d, reads, writes);
    }
}

/// Removes one hold for reading.
pub fn release(store: &mut Store, d: usize)
    ensures { store.new ≡ released d store.old }
{
    if store.is_live(d) && store.reads(d) > 0 {
        store.release(d);
    }
}

/// Removes one hold for writing. Returns true if it was the last one of an array.
pub fn close_writer(store: &mut Store, d: usize) -> bool
    ensures taken { store.new ≡ writer_closed d store.old }
    ensures last { result ≡ closes (at store.old d) }
{
    if !store.is_live(d) || store.writes(d) == 0 {
        return false;
    }
    let closes = store.writes(d) == 1 && matches!(store.shape(d), Some(DatumKind::Keyed));
    store.close_writer(d);
    closes
}

/// Reserves memory for `n` inserts into an array, under keys of the same kind as `key`.
pub fn reserve(
    store: &mut Store,
    d: Option<usize>,
    key: KeyRef<'_>,
    n: usize,
) -> Result<(), AllocError>
    ensures ok { OnOk result (store.new ≡ roomy d (key_seen key.entry) n store.old) }
    ensures err { OnErr result (store.new ≡ store.old) }
{
    match d {
        Some(d) if matches!(store.shape(d), Some(DatumKind::Keyed)) => store.reserve_for(d, key, n),
        _ => Ok(()),
    }
}

/// Sorts the elements of an array by ascending key. The order is kept for later calls, until the next insert.
pub fn sort(store: &mut Store, d: Option<usize>) -> Result<(), AllocError>
    ensures { store.new ≡ store.old }
{
    match d {
        Some(d) if matches!(store.shape(d), Some(DatumKind::Keyed)) => {
            let _sorted = store.whole(d)?;
            Ok(())
        }
        _ => Ok(()),
    }
}
