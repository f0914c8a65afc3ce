//! The state of a run at the first invalid event of its trace: its items, the statement of each, and the inputs that an
//! item waits for.

pub mod items;
pub mod trace_replay;
pub mod tracking;
pub mod waiting;
