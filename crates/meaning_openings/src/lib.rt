//! Opening of blocks and closing of arrays between two rounds of a script's meaning.
//!
//! `open_all` makes the blocks that live statements open or call live. `close_some` closes the arrays that can be
//! written no more. The crate `meaning_outcomes` alternates the two until no array closes.
#![tactic(auto)]

mod called;
mod children;
pub mod closing;
pub mod fault;
mod headers;
pub mod live_limits;
pub mod opening;
mod turns;
