//! The code of a script under construction.
use crate::block_builder::BlockBuilder;
use std::alloc::Global;
use task_code::entry::Entry;

/// The entries emitted so far, and the contents so far of the block under construction.
#[derive(Drop)]
pub struct CodeBuilder {
    pub alloc: Global,
    pub entries: Vec<Entry>,
    pub filling: BlockBuilder,
}
