//! Items that have not ended.
//!
//! `Board::left_item` returns them. An item is named by its number. The key of its instance means nothing but this:
//! items of one instance have one key.

use board_instances::item::ItemStatus;

/// An item of an entry that has not ended: the entry, the key of its instance, its number of chunks that have ended if
/// it continues a loop, and its status.
#[derive(Clone, Copy, PartialEq, Eq, Debug, Drop)]
pub struct LeftItem {
    pub entry: u32,
    pub instance: usize,
    pub chunk: usize,
    pub status: ItemStatus,
}
