//! A request, from its line to the exit status.
ghost use Rattle.std.specs.Prelude.{◌≡◌, ◌<◌, []};
ghost use Rattle.host.specs.Events.{asked, changes, inputs, links, reads};
ghost use Rattle.swt_command.specs.Sinks.{held};
ghost use Rattle.swt_process.specs.Process.{Obeys};

use crate::each::check_all;
use crate::program::program;
use host::Host;
use meaning::observer::RoundObserver;
use std::alloc::Global;
use std::sync::Wait;
use std::thread::Threads;
use swt_arguments::line::Line;
use swt_arguments::request::Request;
use values::sink::Sink;
use workers::gate::Gate;

/// Runs the line of a request, as `program` does. Returns the exit status and the machine. `process` is the number of
/// this process on the machine.
///
/// If the request denies warnings, a check that accepted all files is refused if one of them has a warning.
pub fn execute<R: Threads + Wait + Sync, G: Gate + RoundObserver, H: Host + Drop, O: Sink, E: Sink>(
    rt: &R,
    alloc: Global,
    host: H,
    process: u32,
    request: &Request,
    gate: &G,
    out: &mut O,
    err: &mut E,
) -> (u8, H)
    requires reads { reads (H.history host) ≡ [] }
    requires links { links (H.history host) ≡ [] }
    requires inputs { inputs (H.history host) ≡ [] }
    requires changes { changes (H.history host) ≡ [] }
    requires out { O.failures out.old < u64.MAX }
    requires err { E.failures err.old < u64.MAX }
    ensures obeys { Obeys request.now (H.history result.1)
        (held (O.taken out.old) (O.failures out.old)) (held (O.taken out.new) (O.failures out.new))
        (held (E.taken err.old) (E.failures err.old)) (held (E.taken err.new) (E.failures err.new)) result.0 }
    ensures asked { asked (H.history result.1) ≡ asked (H.history host) }
{
    let mut host = host;
    match &request.line {
        Line::Check { files } => {
            let status = check_all(&mut host, alloc, files.as_slice(), request.deny, out, err);
            (status, host)
        }
        line => program(rt, alloc, host, process, line, gate, out, err),
    }
}
