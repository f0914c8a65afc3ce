//! The items of a board, in a table by number.
//!
//! The item of number n is row n - 1. A row is never removed, and is packed into two words.
ghost use Rattle.std.specs.Prelude.{◌≡◌, ◌<◌, ◌^◌, map, option_map, IfOk, IsOk};
ghost use Rattle.board_history.specs.Fields.{row_of};
ghost use Rattle.board_history.specs.Marking.{with_status};
ghost use Rattle.board_instances.specs.View.{job_view, status_view, row_view, rows_view};

use std::alloc::AllocError;
use std::marker::Model;

/// The status of an item.
#[derive(Clone, Copy, PartialEq, Eq, Debug, Drop)]
pub enum ItemStatus {
    Waiting,
    Ready,
    Running(u8),
    Over,
}

/// The task of an item: opening the script, or one entry in an instance, from this chunk of a loop on.
#[derive(Clone, Copy, PartialEq, Eq, Debug, Drop)]
pub enum ItemTask {
    Script,
    Does {
        entry: u32,
        instance: usize,
        chunk: usize,
    },
}

/// A row of the item table, unpacked: an `ItemTask` together with an `ItemStatus`.
#[derive(Clone, Copy, PartialEq, Eq, Debug, Drop)]
pub enum ItemRecord {
    Script(ItemStatus),
    Does {
        status: ItemStatus,
        entry: u32,
        instance: usize,
        chunk: usize,
    },
}

impl ItemRecord {
    /// Returns its task.
    pub fn job(self) -> ItemTask
        ensures { job_view result ≡ (row_view self).job }
    {
        match self {
            ItemRecord::Script(_) => ItemTask::Script,
            ItemRecord::Does {
                status: _,
                entry,
                instance,
                chunk,
            } => ItemTask::Does {
                entry,
                instance,
                chunk,
            },
        }
    }

    /// Returns its status.
    pub fn status(self) -> ItemStatus
        ensures { status_view result ≡ (row_view self).status }
    {
        match self {
            ItemRecord::Script(status) => status,
            ItemRecord::Does { status, .. } => status,
        }
    }
}

/// A row of the item table, packed into two words. The item of number n is always row n - 1.
#[derive(Drop)]
pub struct PackedItem {
    entry: u32,
    instance: u32,
    chunk: u32,
    status: ItemStatus,
    is_script: bool,
}

impl Model for PackedItem {
    ghost use Rattle.board_instances.specs.Packed.{unpacked_item};
    ghost use Rattle.board_instances.specs.declared.item.ItemRecord.{ItemRecord};

    ghost Value = { ItemRecord };

    ghost view = { λ a. unpacked_item a.is_script a.status a.entry a.instance a.chunk };
}

impl PackedItem {
    /// Creates the item that opens the script.
    pub fn script(status: ItemStatus) -> PackedItem
        ensures { result ≡ ItemRecord.Script status }
    {
        PackedItem {
            entry: 0,
            instance: 0,
            chunk: 0,
            status,
            is_script: true,
        }
    }

    /// Creates a waiting item of an entry. Instance keys and chunk numbers are stored in 32 bits. Larger ones are more
    /// than memory can hold, and are reported as an allocation failure.
    ///
    /// # Errors
    ///
    /// Returns `AllocError` if `instance` or `chunk` does not fit in 32 bits.
    pub fn waiting(entry: u32, instance: usize, chunk: usize) -> Result<PackedItem, AllocError>
        ensures item { IfOk result (λ packed. packed ≡ ItemRecord.Does ItemStatus.Waiting entry instance chunk) }
        ensures succeeds { instance < 2 ^ 32 → chunk < 2 ^ 32 → IsOk result }
    {
        let (Ok(instance), Ok(chunk)) = (u32::try_from(instance), u32::try_from(chunk)) else {
            return Err(AllocError);
        };
        Ok(PackedItem {
            entry,
            instance,
            chunk,
            status: ItemStatus::Waiting,
            is_script: false,
        })
    }

    /// Returns the unpacked row.
    pub fn item(&self) -> ItemRecord
        ensures { result ≡ self.now }
    {
        if self.is_script {
            ItemRecord::Script(self.status)
        } else {
            ItemRecord::Does {
                status: self.status,
                entry: self.entry,
                instance: self.instance as usize,
                chunk: self.chunk as usize,
            }
        }
    }

    /// Sets the status.
    fn set_status(&mut self, status: ItemStatus)
        ensures { row_view self.new ≡ record { job = (row_view self.old).job; status = status_view status } }
    {
        self.status = status;
    }
}

/// Returns the item of this number, or `None` if there is none.
#[tactic(auto, using(crate::proofs::Rows::row_none, crate::proofs::Rows::row_past, crate::proofs::Rows::row_there))]
pub fn item_of(items: &[PackedItem], number: u64) -> Option<ItemRecord>
    ensures { option_map row_view result ≡ row_of (rows_view items.now) number }
{
    if number == 0 || items.len() as u64 <= number - 1 {
        return None;
    }
    Some(items[(number - 1) as usize].item())
}

/// Sets the status of the item of this number. Does nothing if there is none.
#[tactic(auto, using(crate::proofs::Rows::status_none, crate::proofs::Rows::status_past, crate::proofs::Rows::status_there))]
pub fn set_item_status(items: &mut [PackedItem], number: u64, status: ItemStatus)
    ensures { rows_view items.new ≡ with_status (rows_view items.old) number (status_view status) }
{
    if number == 0 || items.len() as u64 <= number - 1 {
        return;
    }
    items[(number - 1) as usize].set_status(status);
}
