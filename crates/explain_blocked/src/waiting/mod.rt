//! What the blocked statements wait for: the wait graph with its cycles, the groups of statements with the same missing
//! inputs, and the list of the statements.

pub mod cycles;
pub mod list;
pub mod wait_graph;
pub mod wait_groups;
