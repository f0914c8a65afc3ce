//! The entry point of all commands.
ghost use Rattle.std.specs.Prelude.{◌≡◌, ◌<◌, ◌∷◌, []};
ghost use Rattle.swt_arguments.specs.Lines.{files_of};
ghost use Rattle.swt_command.specs.Files.{contents, name_at};
ghost use Rattle.swt_command.specs.Owes.{Does, Owes};
ghost use Rattle.swt_command.specs.Sinks.{held};

use crate::check::check_files;
use crate::code::code;
use crate::mean::mean;
use crate::run::{replay, run};
use crate::trouble::write_failure;
use bumpalo::Bump;
use meaning::observer::RoundObserver;
use std::alloc::Global;
use std::sync::Wait;
use std::thread::Threads;
use swt_arguments::line::Line;
use swt_arguments::word::Word;
use swt_status::status::Status;
use swt_status::stop::CommandStop;
use values::sink::Sink;
use workers::gate::Gate;

/// Runs the command of the line on its input files and returns the exit status of the process. `files` holds the bytes
/// of each input file of the line, in order, or `None` for a file that could not be read.
///
/// Output goes to `out`, and the error message of a failed command to `err`. The trace of a run goes to `trace` if the
/// line requests one. Syntax trees lie in the arena. A failed write to `err` does not change the status.
///
/// `rt` starts the threads of a run and waits for them. The gate computes the tasks of a run. It also receives the
/// progress of the run, or of the rounds in which a meaning is computed.
pub fn command<R: Threads + Wait + Sync, G: Gate + RoundObserver, O: Sink, E: Sink, S: Sink>(
    rt: &R,
    alloc: Global,
    arena: &mut Bump,
    line: &Line,
    files: &[Option<Vec<u8>>],
    gate: &G,
    out: &mut O,
    err: &mut E,
    trace: &mut S,
) -> u8
    requires out { O.failures out.old < u64.MAX }
    requires err { E.failures err.old < u64.MAX }
    requires trace { S.failures trace.old < u64.MAX }
    ensures { Owes line.now (contents files.now)
        (held (O.taken out.old) (O.failures out.old)) (held (O.taken out.new) (O.failures out.new))
        (held (E.taken err.old) (E.failures err.old)) (held (E.taken err.new) (E.failures err.new))
        (held (S.taken trace.old) (S.failures trace.old)) (held (S.taken trace.new) (S.failures trace.new)) result }
{
    match perform(rt, alloc, arena, line, files, gate, out, trace) {
        Ok(status) => status.number(),
        Err(stop) => {
            let _ = write_failure(stop.trouble, name_of(line, stop.place), err);
            stop.trouble.status().number()
        }
    }
}

/// Runs the command of the line.
fn perform<R: Threads + Wait + Sync, G: Gate + RoundObserver, O: Sink, S: Sink>(
    rt: &R,
    alloc: Global,
    arena: &mut Bump,
    line: &Line,
    files: &[Option<Vec<u8>>],
    gate: &G,
    out: &mut O,
    trace: &mut S,
) -> Result<Status, CommandStop>
    requires out { O.failures out.old < u64.MAX }
    requires trace { S.failures trace.old < u64.MAX }
    ensures { Does line.now (contents files.now) result
        (held (O.taken out.old) (O.failures out.old)) (held (O.taken out.new) (O.failures out.new))
        (held (S.taken trace.old) (S.failures trace.old)) (held (S.taken trace.new) (S.failures trace.new)) }
{
    match line {
        Line::Check { files: names } => check_files(alloc, arena, names.as_slice(), files, out),
        Line::Mean { rounds, .. } => mean(alloc, arena, files, gate, *rounds, out),
        Line::Run {
            engines,
            workers,
            steps,
            trace: wanted,
            ..
        } => {
            let is_wanted = wanted.is_some();
            run(
                rt, alloc, arena, files, *engines, *workers, *steps, is_wanted, gate, out, trace,
            )
        }
        Line::Code { form, .. } => code(alloc, arena, files, *form, out),
        Line::Replay { .. } => replay(alloc, arena, files, out),
    }
}

/// Returns the name of the input file at this index, or the empty string if there is none.
fn name_of(line: &Line, place: usize) -> &str
    ensures { result.now ≡ name_at (files_of line.now) place }
{
    match line {
        Line::Check { files } => match files.as_slice().get(place) {
            Some(name) => name.as_str(),
            None => "",
        },
        Line::Mean { file, .. } => first_of(file, place),
        Line::Code { file, .. } => first_of(file, place),
        Line::Run { file, .. } => first_of(file, place),
        Line::Replay { file, trace } => {
            if place == 0 {
                file.as_str()
            } else {
                first_of(trace, place - 1)
            }
        }
    }
}

/// Returns the name of the only input file if the index is 0, else the empty string.
fn first_of(file: &Word, place: usize) -> &str
    ensures { result.now ≡ name_at (file.now ∷ []) place }
{
    if place == 0 { file.as_str() } else { "" }
}
