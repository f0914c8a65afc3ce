//! A process of `swt`, from its command-line words to its exit status, on any machine that implements `Host`.
//!
//! It reads the input files, runs the command of `swt_command`, and moves a trace to its final name.
#![tactic(auto)]

pub mod each;
pub mod files;
pub mod place;
pub mod program;
pub mod request;
mod traced;
pub mod warnings;
pub mod words;
