//! Creation of the data for an instance's own variables.

ghost use Rattle.std.specs.Prelude.{◌≡◌, ◌≢◌, ◌<◌, ◌≤◌, ◌+◌, ◌^◌, ℕ, length, IfOk, IsOk, OnOk};
ghost use Rattle.board_data.specs.Data.{AreRising};
ghost use Rattle.board_data.specs.Made.{DataMade, Makes, new_datum, slot_in, start_at};
ghost use Rattle.board_instances.specs.declared.instance.Slot.TheVariants.{Absent};

use crate::data;
use board_instances::packed::PackedSlot;
use board_program::program::LocalVariable;
use data_store::store::Store;
use std::alloc::AllocError;
use values::value::Scalar;

/// The initial values of a turn's variables, each with the index of its variable.
#[derive(Drop)]
pub struct InitialValues {
    pub value_at: Option<usize>,
    pub value: Option<Scalar>,
    pub turn_at: Option<usize>,
    pub turn: Option<Scalar>,
}

impl InitialValues {
    /// Returns the initial value for a variable, and removes it.
    fn take(&mut self, place: usize) -> Option<Scalar>
        ensures value { result ≡ start_at self.old place }
        ensures others { (i : ℕ) → i ≢ place → start_at self.new i ≡ start_at self.old i }
    {
        if self.value_at == Some(place) {
            self.value.take()
        } else if self.turn_at == Some(place) {
            self.turn.take()
        } else {
            None
        }
    }
}

/// Creates a datum, with its value if there is one, and returns its slot. A variable that no item may read or write
/// gets no datum.
#[tactic(auto, using(crate::proofs::Made::bound_given, crate::proofs::Made::made_with, crate::proofs::Made::made_without))]
fn make_datum(
    store: &mut Store,
    own: LocalVariable,
    value: Option<Scalar>,
) -> Result<PackedSlot, AllocError>
    ensures absent { own.reads + own.writes ≡ 0 → IfOk result (λ slot. slot ≡ Absent) }
    ensures same { own.reads + own.writes ≡ 0 → store.new ≡ store.old }
    ensures made { 0 < own.reads + own.writes → IfOk result (λ slot. Makes store.old (new_datum own value) slot store.new) }
    ensures bound { 0 < store.old.room → store.new.bound ≡ store.old.bound }
    ensures succeeds { 0 < store.old.room → store.old.bound ≤ 2 ^ 32 → IsOk result }
{
    if own.reads == 0 && own.writes == 0 {
        return Ok(PackedSlot::absent());
    }
    let d = store.new_cell(own.shape, own.reads, own.writes)?;
    if let Some(value) = value {
        data::set_scalar(store, d, value);
    }
    PackedSlot::datum(d)
}

/// Creates the data for an instance's own variables, and writes them into its first slots. It succeeds if there is room
/// for one datum per variable and data numbers fit in 32 bits.
///
/// # Errors
///
/// Returns `AllocError` if an allocation fails. Some of the data may have been created.
#[tactic(auto, using(crate::proofs::Rows::made_nothing, crate::proofs::Rows::made_one))]
pub fn make_data(
    store: &mut Store,
    own: &[LocalVariable],
    slots: &mut [PackedSlot],
    starts: InitialValues,
) -> Result<(), AllocError>
    ensures made { length own.now ≤ length slots.old → OnOk result (DataMade own.now (start_at starts) (length own.now) store.old slots.new store.new) }
    ensures others { (i : ℕ) → length own.now ≤ i → slot_in slots.new i ≡ slot_in slots.old i }
    ensures bound { OnOk result (length own.now ≤ store.old.room → store.new.bound ≡ store.old.bound) }
    ensures succeeds { length own.now ≤ store.old.room → store.old.bound ≤ 2 ^ 32 → IsOk result }
    ensures rising { OnOk result (AreRising store.old → AreRising store.new) }
{
    let mut starts = starts;
    for at in 0..own.len() {
        let first = starts.take(at);
        let slot = make_datum(store, own[at], first)?;
        if at < slots.len() {
            slots[at] = slot;
        }
    }
    Ok(())
}
