//! Statuses of commands: how a command ends, the refusal of a script as it is printed, and the failures that end a
//! command early.
#![tactic(auto)]

pub mod failure;
pub mod refusal;
pub mod status;
pub mod stop;
pub mod trace;
pub mod verdict;
