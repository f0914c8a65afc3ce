//! Parser of the command line of `swt`.
//!
//! `Request::read` takes the words after the program's own name. It returns the command with its files, numbers and
//! flags, or `LineFault::Usage`, whose text is the usage.
//!
//! An option is a word that begins with a dash and is longer than one character. Its value is the following word, or
//! the text after its `=`. Options and files may be mixed. All words after a word `--` are files, and the file `-` is
//! standard input.
//!
//! The words after the command are read by `clap`. Words that `clap` would interpret differently are split or refused
//! before.
#![tactic(auto)]

pub mod argument_error;
pub mod code_form;
pub mod command;
pub mod fault;
pub mod line;
pub mod nearest;
pub mod option_number;
pub mod pass;
mod reading;
pub mod request;
pub mod word;
mod words;
