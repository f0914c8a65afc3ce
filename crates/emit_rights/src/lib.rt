//! Assignment of exact rights to emitted code: each entry receives the rights that it, or an entry that it leads to,
//! uses.
#![tactic(auto)]

pub mod granted;
mod grants;
