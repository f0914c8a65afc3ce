//! Implementation of `host` for the operating system: command-line words, files and standard streams.
#![tactic(auto)]

pub mod files;
pub mod stream;
pub mod system;
