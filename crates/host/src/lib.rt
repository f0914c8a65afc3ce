//! Interface between a program and the machine that it runs on, with bounded reading of files and safe writing of
//! traces.
#![tactic(auto)]

pub mod host;
pub mod identity;
pub mod opening;
pub mod reading;
pub mod record;
pub mod trace;

pub use host::{CommandLineError, Host, HostError, Stream};
