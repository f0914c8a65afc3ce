//! Creation of the data of instances that are not yet placed.
ghost use Rattle.std.specs.Prelude.{◌≡◌, ◌+◌, ◌*◌, ◌≤◌, ◌^◌, ℕ, length, vec_len, IsOk, OnOk};
ghost use Rattle.dataflow.specs.System.{In};
ghost use Rattle.board_data.specs.Data.{AreRising};
ghost use Rattle.board_instances.specs.declared.pending.PendingInstance.{PendingInstance as AnOpening};
ghost use Rattle.board_changes.specs.Filled.{AreFilled, Fills, HasSlots};

use board_data::making::{InitialValues, make_data};
use board_instances::pending::PendingInstance;
use board_program::program::LocalVariable;
use data_store::store::Store;
use std::alloc::AllocError;

/// The slots of a turn's variables.
#[derive(Clone, Copy, PartialEq, Eq, Debug, Drop)]
pub struct TurnSlots {
    pub value: Option<usize>,
    pub turn: Option<usize>,
}

/// Creates the data of one instance.
fn fill(
    store: &mut Store,
    own: &[LocalVariable],
    opening: &mut PendingInstance,
    slots: TurnSlots,
) -> Result<(), AllocError>
    ensures filled { OnOk result (Fills own.now slots opening.old store.old opening.new store.new) }
    ensures room { OnOk result (HasSlots (length own.now) opening.old → store.old.room ≤ store.new.room + length own.now) }
    ensures rising { OnOk result (AreRising store.old → AreRising store.new) }
    ensures bound { OnOk result (length own.now ≤ store.old.room → store.new.bound ≡ store.old.bound) }
    ensures succeeds { length own.now ≤ store.old.room → store.old.bound ≤ 2 ^ 32 → IsOk result }
{
    let starts = InitialValues {
        value_at: slots.value,
        value: opening.value.take(),
        turn_at: slots.turn,
        turn: opening.turn.take(),
    };
    make_data(store, own, opening.instance.slots.as_mut_slice(), starts)
}

/// Creates the data of all these instances, in order. It succeeds if there is room for the data and their numbers fit
/// in 32 bits.
///
/// # Errors
///
/// Returns `AllocError` if an allocation fails. Some of the data may have been created.
pub fn fill_all(
    store: &mut Store,
    own: &[LocalVariable],
    list: &mut Vec<PendingInstance>,
    slots: TurnSlots,
) -> Result<(), AllocError>
    ensures filled { OnOk result (AreFilled own.now slots list.old.items store.old list.new.items store.new) }
    ensures len { vec_len list.new ≡ vec_len list.old }
    ensures rising { OnOk result (AreRising store.old → AreRising store.new) }
    ensures succeeds { ((o : AnOpening) → In o list.old.items → HasSlots (length own.now) o) → vec_len list.old * length own.now ≤ store.old.room
        → store.old.bound ≤ 2 ^ 32 → IsOk result }
{
    for at in 0..list.len() {
        if let Some(opening) = list.get_mut(at) {
            fill(store, own, opening, slots)?;
        }
    }
    Ok(())
}
