//! The dataflow machine as one object: code, state and event history, advanced by checked calls to begin, end and give
//! back items.
//!
//! No event visits all items, data or instances. The type to start from is `Board`.
#![tactic(auto)]

mod apply;
mod blocked;
pub mod board;
mod bounds;
mod chunk;
mod effect_change;
mod ending;
mod item_work;
pub mod laws;
mod notify;
mod numbering;
mod opened;
pub mod refusal;
pub mod remains;
mod room;
mod state;

pub use board::{Board, BoardParts};
pub use board_work::answer::Answer;
pub use board_work::outcome::EntryFault;
pub use board_work::work::{Done, Work};
pub use paths::{Fault, FaultKind, StatementInstance, Step};
