//! Scripts by the public calls: runs compared with stored ones, a program that uses `swt_library` alone, and each call on the way
//! from a script to its runs where memory is refused.
//!
//! A word names a part, and the words after it name its scripts. `histories` runs scripts on one thread and compares each history and each
//! report with those that are stored. `library` takes no script: it lists, runs and replays one of its own. `stages`, `arena`, `runs` and
//! `threads` make each call of a part of the way once if no memory is refused. Standard output then has the listing of the code that
//! `stages` or `arena` makes; of `runs` three reports: of a board that is moved by hand, of a run on one thread, and of its trace run again;
//! and of `threads` that of the run. `takes_none` makes the calls that take no memory, and prints nothing. A refused call is named on standard error and made again, so standard output stays the same. A line that
//! begins with `wrong` says what is wrong.
#![tactic(auto)]

mod front;
mod hand;
mod histories;
mod library;
mod runs;
mod scripts;
mod sink;
mod stored;
mod takes_none;
mod told;

use crate::scripts::script_of;
use bumpalo::Bump;
use std::alloc::Global;
use std::sync::Wait;
use std::thread::Threads;
use std::{env, io};
use swt_library::scripts::CompiledScript;

/// A part of the way from a script to its runs, or of the other tests.
#[derive(Clone, Copy, PartialEq, Eq)]
enum Stage {
    Histories,
    Library,
    Stages,
    Arena,
    Runs,
    OnThreads,
    TakesNone,
}

impl Stage {
    /// The part of a name, where there is one.
    fn of(name: &str) -> Option<Stage> {
        match name {
            "histories" => Some(Stage::Histories),
            "library" => Some(Stage::Library),
            "stages" => Some(Stage::Stages),
            "arena" => Some(Stage::Arena),
            "runs" => Some(Stage::Runs),
            "threads" => Some(Stage::OnThreads),
            "takes_none" => Some(Stage::TakesNone),
            _ => None,
        }
    }
}

fn main(rt: HostRuntime) -> io::Result<()> {
    let mut part = Stage::Stages;
    for word in env::args(&rt)?.skip(1) {
        println!(rt; "{word}")?;
        match Stage::of(word.as_str()) {
            Some(Stage::Library) => library::list_and_run(&rt, rt.alloc())?,
            Some(named) => part = named,
            None => try_name(&rt, &rt, rt.alloc(), word.as_str(), part)?,
        }
    }
    Ok(())
}

/// Makes the calls of a part for the script of a name.
fn try_name<R: Threads + Wait + Sync>(
    rt: &HostRuntime,
    threads: &R,
    alloc: Global,
    name: &str,
    part: Stage,
) -> io::Result<()> {
    if part == Stage::Histories {
        return histories::run_as_stored(rt, alloc, name);
    }
    let Some(script) = script_of(name) else {
        return told::wrong(rt, "no script has this name");
    };
    match part {
        Stage::Stages => front::try_stages(rt, alloc, &alloc, script),
        Stage::Arena => try_in_arena(rt, alloc, script),
        Stage::Runs | Stage::OnThreads | Stage::TakesNone => {
            try_runs(rt, threads, alloc, script, part)
        }
        Stage::Histories | Stage::Library => told::wrong(rt, "this part has no calls"),
    }
}

/// Makes code of a script with its tree and its flow in an arena.
fn try_in_arena(rt: &HostRuntime, alloc: Global, script: &[u8]) -> io::Result<()> {
    let arena = Bump::new(alloc);
    front::try_compile(rt, alloc, &&arena, script)
}

/// Makes code of a script and runs it.
fn try_runs<R: Threads + Wait + Sync>(
    rt: &HostRuntime,
    threads: &R,
    alloc: Global,
    script: &[u8],
    part: Stage,
) -> io::Result<()> {
    match front::compiled(rt, alloc, &alloc, script)? {
        Some(code) => run_code(rt, threads, alloc, &code, part),
        None if part == Stage::TakesNone => Ok(()),
        None => told::wrong(rt, "no code"),
    }
}

/// Runs code on threads, or otherwise.
fn run_code<R: Threads + Wait + Sync>(
    rt: &HostRuntime,
    threads: &R,
    alloc: Global,
    code: &CompiledScript,
    part: Stage,
) -> io::Result<()> {
    if part == Stage::OnThreads {
        return runs::try_threads(rt, threads, alloc, code);
    }
    if part == Stage::TakesNone {
        return takes_none::try_calls(rt, alloc, code);
    }
    hand::try_board(rt, alloc, code)?;
    runs::try_one_thread(rt, alloc, code)
}
