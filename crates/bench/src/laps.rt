//! Times of whole scripts: compiled, and run on one thread, on two and on four.

use crate::scripts::{SCRIPTS, Script};
use board_program::program::Program;
use board_runs::one::run_one;
use board_runs::report::Report;
use compile::compile::compile;
use std::alloc::Global;
use std::io;
use std::sync::Wait;
use std::thread::Threads;
use std::time::{Clock, Instant};
use workers::gate::DirectGate;
use workers::run::run_threads;

/// Number of engines and workers. Where there are none, one thread does it all, without a lock.
const CREWS: [(u8, u8); 4] = [(0, 0), (1, 1), (1, 3), (2, 2)];

/// The report of a run of the program, on one thread or, if there are engines, on these numbers of engines and workers.
fn run<R: Threads + Wait + Sync>(
    rt: &R,
    alloc: Global,
    program: &Program,
    engines: u8,
    workers: u8,
) -> Option<Report> {
    if engines == 0 {
        return run_one(alloc, program, &[], u32::MAX).ok();
    }
    match run_threads(rt, alloc, program, engines, workers, u32::MAX, &DirectGate) {
        Ok((report, _)) => Some(report),
        Err(_) => None,
    }
}

/// The number of items of a run, and the nanoseconds of each, from the creation of the board to that of the report. The report is freed after that.
fn items_and_nanos<R: Clock + Threads + Wait + Sync>(
    rt: &R,
    alloc: Global,
    program: &Program,
    engines: u8,
    workers: u8,
) -> io::Result<(u128, u128)> {
    let start = Instant::now(rt)?;
    let report = run(rt, alloc, program, engines, workers);
    let nanos = start.elapsed(rt)?.as_nanos();
    let items = match report {
        Some(report) => report.history.len() as u128 / 2,
        None => 0,
    };
    Ok((items, nanos / items.max(1)))
}

/// Prints the time of an item on one thread, on two and on four.
fn time_program<R: Clock + Print + Threads + Wait + Sync>(
    rt: &R,
    alloc: Global,
    program: &Program,
) -> io::Result<()> {
    for (engines, workers) in CREWS {
        let (items, nanos) = items_and_nanos(rt, alloc, program, engines, workers)?;
        println!(rt; "  {engines} + {workers}: {items} items, {nanos} nanoseconds each")?;
    }
    Ok(())
}

/// The program of a script. None where the script is refused.
fn program_of<R: Clock + Print>(rt: &R, alloc: Global, text: &[u8]) -> io::Result<Option<Program>> {
    let start = Instant::now(rt)?;
    let answer = compile(alloc, alloc, text);
    let compiled = start.elapsed(rt)?.as_micros();
    let Ok(code) = answer else {
        return Ok(None);
    };
    let program = Program::new(alloc, code)?;
    let tables = start.elapsed(rt)?.as_micros().saturating_sub(compiled);
    println!(rt; "  compiled in {compiled} microseconds, its tables in {tables}")?;
    Ok(Some(program))
}

/// Prints the time in which the script with the number is compiled and its tables are made, and those of its items.
fn time_script<R: Clock + Print + Threads + Wait + Sync>(
    rt: &R,
    alloc: Global,
    script: Script,
    number: u32,
) -> io::Result<()> {
    let text = script.text(alloc, number)?;
    let (name, len) = (script.name, text.len());
    println!(rt; "{name} {number}: {len} bytes")?;
    match program_of(rt, alloc, text.as_bytes())? {
        Some(program) => time_program(rt, alloc, &program),
        None => println!(rt; "  refused"),
    }
}

/// Prints the times of the script with this number, or with each of its own.
fn time_numbers<R: Clock + Print + Threads + Wait + Sync>(
    rt: &R,
    alloc: Global,
    script: Script,
    number: Option<u32>,
) -> io::Result<()> {
    if let Some(number) = number {
        return time_script(rt, alloc, script, number);
    }
    for number in script.numbers {
        time_script(rt, alloc, script, number)?;
    }
    Ok(())
}

/// Prints the times of the script of this name, or of `all` scripts, with this number, or with each of their own.
pub fn time<R: Clock + Print + Threads + Wait + Sync>(
    rt: &R,
    alloc: Global,
    name: &str,
    number: Option<u32>,
) -> io::Result<()> {
    for script in SCRIPTS {
        if name == "all" || name == script.name {
            time_numbers(rt, alloc, script, number)?;
        }
    }
    Ok(())
}
