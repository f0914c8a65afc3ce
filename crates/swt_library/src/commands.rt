//! The commands of a line.
ghost use Rattle.std.specs.Prelude.{◌≡◌, ◌<◌};
ghost use Rattle.swt_command.specs.Files.{contents};
ghost use Rattle.swt_command.specs.Owes.{Owes};
ghost use Rattle.swt_command.specs.Sinks.{held};

use bumpalo::Bump;
use std::alloc::Global;
use std::sync::Wait;
use std::thread::Threads;
use swt_arguments::line::Line;
use swt_command::unobserved::Unobserved;
use values::sink::Sink;

/// Runs the command of the line on its input files and returns the exit status of a process. `files` holds the bytes of
/// each input file of the line, in order, or `None` for a file that could not be read.
///
/// Output goes to `out`, and the error message of a failed command to `err`. The trace of a run goes to `trace` if the
/// line requests one. A failed write to `err` does not change the status.
pub fn command<R: Threads + Wait + Sync, O: Sink, E: Sink, S: Sink>(
    rt: &R,
    alloc: Global,
    line: &Line,
    files: &[Option<Vec<u8>>],
    out: &mut O,
    err: &mut E,
    trace: &mut S,
) -> u8
    requires out { O.failures out.old < u64.MAX }
    requires err { E.failures err.old < u64.MAX }
    requires trace { S.failures trace.old < u64.MAX }
    ensures { Owes line.now (contents files.now)
        (held (O.taken out.old) (O.failures out.old)) (held (O.taken out.new) (O.failures out.new))
        (held (E.taken err.old) (E.failures err.old)) (held (E.taken err.new) (E.failures err.new))
        (held (S.taken trace.old) (S.failures trace.old)) (held (S.taken trace.new) (S.failures trace.new)) result }
{
    let mut arena = Bump::new(alloc);
    swt_command::command::command(
        rt,
        alloc,
        &mut arena,
        line,
        files,
        &Unobserved,
        out,
        err,
        trace,
    )
}
