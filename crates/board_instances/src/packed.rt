//! The slot of a name, packed into one word.
ghost use Rattle.std.specs.Prelude.{◌≡◌, ◌<◌, ◌^◌, IfOk, IsOk};

use crate::instance::Slot;
use std::alloc::AllocError;
use std::marker::Model;

// Reserved values of `place`: `DATUM` marks a datum, `NOTHING` an absent slot. A literal argument whose index reaches
// `DATUM` is refused.
const DATUM: u32 = 4_294_967_294;

const NOTHING: u32 = 4_294_967_295;

/// A slot in one word: the number of a datum, or a call's entry with an argument index.
#[derive(Drop)]
pub struct PackedSlot {
    number: u32,
    place: u32,
}

impl Model for PackedSlot {
    ghost use Rattle.board_instances.specs.Packed.{unpacked};
    ghost use Rattle.board_instances.specs.declared.instance.Slot.{Slot};

    ghost Value = { Slot };

    ghost view = { λ a. unpacked a.number a.place };
}

impl Default for PackedSlot {
    fn default() -> PackedSlot {
        PackedSlot::absent()
    }
}

impl PackedSlot {
    /// Creates an absent slot.
    pub fn absent() -> PackedSlot
        ensures { result ≡ Slot.Absent }
    {
        PackedSlot {
            number: 0,
            place: NOTHING,
        }
    }

    /// Creates the slot of a datum. Data numbers are stored in 32 bits. A larger one is more than memory can hold, and
    /// is reported as an allocation failure.
    ///
    /// # Errors
    ///
    /// Returns `AllocError` if the number does not fit in 32 bits.
    pub fn datum(d: usize) -> Result<PackedSlot, AllocError>
        ensures slot { IfOk result (λ packed. packed ≡ Slot.Datum d) }
        ensures succeeds { d < 2 ^ 32 → IsOk result }
    {
        let Ok(number) = u32::try_from(d) else {
            return Err(AllocError);
        };
        Ok(PackedSlot {
            number,
            place: DATUM,
        })
    }

    /// Packs a slot into one word. A number that is too large for it is more than memory can hold, and is reported as
    /// an allocation failure.
    ///
    /// # Errors
    ///
    /// Returns `AllocError` if the number of a datum does not fit in 32 bits, or if an argument index is too large.
    pub fn of(slot: Slot) -> Result<PackedSlot, AllocError>
        ensures { IfOk result (λ packed. packed ≡ slot) }
    {
        match slot {
            Slot::Absent => Ok(PackedSlot::absent()),
            Slot::Datum(d) => PackedSlot::datum(d),
            Slot::Literal(call, place) => {
                if place >= DATUM as usize {
                    return Err(AllocError);
                }
                Ok(PackedSlot {
                    number: call,
                    place: place as u32,
                })
            }
        }
    }

    /// Returns the unpacked slot.
    pub fn slot(&self) -> Slot
        ensures { result ≡ self.now }
    {
        if self.place == NOTHING {
            Slot::Absent
        } else if self.place == DATUM {
            Slot::Datum(self.number as usize)
        } else {
            Slot::Literal(self.number, self.place as usize)
        }
    }
}
