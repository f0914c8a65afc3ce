//! Runs of scripts on one thread, compared with stored ones.
//!
//! A name stands for a script, `NAME.swift`, and two runs of it: `NAME.plain`, without choices, and `NAME.choices`, with the choices 1 to
//! 100 in turn. Such a file has the trace of the run, a line `--`, and the text of its report.

use crate::stored::{Difference, compare};
use board_program::program::Program;
use compile::compile::compile;
use std::alloc::{AllocError, Global};
use std::{fs, io};

/// Maximum number of events of a run.
const MAX_EVENTS: u32 = 10_000_000;

/// Number of choices in a run that has any.
const CHOICES: u32 = 100;

/// Prints which runs of a script differ from the stored ones.
pub fn run_as_stored(rt: &HostRuntime, alloc: Global, name: &str) -> io::Result<()> {
    let path = format!(in alloc; "{name}.swift")?;
    let script = fs::read(rt, path.as_str())?;
    match program_of(alloc, script.as_slice())? {
        Some(program) => {
            compare_run(rt, alloc, &program, name, "plain", &[])?;
            let numbers = choices(alloc)?;
            compare_run(rt, alloc, &program, name, "choices", numbers.as_slice())
        }
        None => println!(rt; "{name}: refused"),
    }
}

/// Returns the program of a script, or `None` if the script is refused.
fn program_of(alloc: Global, script: &[u8]) -> Result<Option<Program>, AllocError> {
    match compile(alloc, alloc, script) {
        Ok(code) => Ok(Some(Program::new(alloc, code)?)),
        Err(_) => Ok(None),
    }
}

/// Returns the numbers from 1 on, in turn.
fn choices(alloc: Global) -> Result<Vec<u32>, AllocError> {
    let mut choices = Vec::new(alloc);
    for number in 0..CHOICES {
        choices.push(number + 1)?;
    }
    Ok(choices)
}

/// Prints how a run by these choices differs from the stored one of this kind.
fn compare_run(
    rt: &HostRuntime,
    alloc: Global,
    program: &Program,
    name: &str,
    kind: &str,
    choices: &[u32],
) -> io::Result<()> {
    let path = format!(in alloc; "{name}.{kind}")?;
    let text = fs::read_to_string(rt, path.as_str())?;
    match compare(alloc, program, choices, MAX_EVENTS, text.as_str())? {
        None => Ok(()),
        Some(Difference::Events) => println!(rt; "{path}: other events"),
        Some(Difference::Report) => println!(rt; "{path}: another report"),
        Some(Difference::Unreadable) => println!(rt; "{path}: no stored run"),
    }
}
