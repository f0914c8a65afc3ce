//! The program `swt`: checks, explains and runs scripts of a profile of Swift/T. Without arguments it prints its usage.
#![tactic(auto)]

ghost use Rattle.std.specs.Prelude.{◌≡◌, ◌<◌, ◌⊎◌, []};
ghost use Rattle.host.specs.Events.{asked, changes, inputs, links, reads};
ghost use Rattle.swt_arguments.specs.declared.fault.LineFault.TheVariants.{Usage};
ghost use Rattle.swt_command.specs.Sinks.{Given, held};
ghost use Rattle.swt_command.specs.Troubles.{trouble_line};
ghost use Rattle.swt_status.specs.declared.failure.CommandFailure.TheVariants.{Memory};
ghost use Rattle.swt_process.specs.Process.{IsProcess, Obeys};
ghost use Rattle.swt.specs.Keepers.{events_of};
ghost use Rattle.swt.specs.Outputs.{failures_of, taken_of};
ghost use Rattle.host_system.specs.Streams as Streams;

mod explanations;
mod progress;
mod replay;
mod system;

use crate::explanations::ending::CommandResult;
use crate::progress::ProgressReporter;
use crate::system::caching_host::CachingHost;
use crate::system::non_utf8::write_foreign;
use crate::system::output::Output;
use host::Stream;
use host_system::stream::Standard;
use std::alloc::AllocError;
use std::process::{self, ExitCode};
use std::sync::Wait;
use std::thread::Threads;
use swt_arguments::argument_error::first_wrong;
use swt_arguments::fault::LineFault;
use swt_arguments::line::Line;
use swt_arguments::nearest::meant;
use swt_arguments::request::Request;
use swt_arguments::word::Word;
use swt_command::trouble::write_failure;
use swt_process::request::execute;
use swt_process::words::read_words;
use swt_status::failure::CommandFailure;
use swt_status::status::Status;

fn main(rt: HostRuntime) -> ExitCode {
    let mut out = Output::new(&rt);
    let mut err = Standard::new(&rt, Stream::Error);
    let (status, _host) = obey(&rt, &rt, CachingHost::new(&rt), &mut out, &mut err);
    ExitCode::from(status)
}

/// Executes the request of the command-line words. Returns the exit status and the system.
fn obey<'r, R: Threads + Wait + Sync>(
    rt: &'r HostRuntime,
    threads: &R,
    host: CachingHost<'r>,
    out: &mut Output<'r>,
    err: &mut Standard<'r>,
) -> (u8, CachingHost<'r>)
    requires none { events_of host ≡ [] }
    requires out { failures_of out.old < u64.MAX }
    requires err { Streams.failures_of err.old < u64.MAX }
    ensures { IsProcess (events_of result.1)
        (held (taken_of out.old) (failures_of out.old)) (held (taken_of out.new) (failures_of out.new))
        (held (Streams.taken_of err.old) (Streams.failures_of err.old)) (held (Streams.taken_of err.new) (Streams.failures_of err.new))
        result.0 }
{
    let mut host = host;
    let words = match read_words(&mut host, rt.alloc()) {
        Ok(words) => words,
        Err(fault) => return (decline(rt, &[], fault, err), host),
    };
    match Request::read(rt.alloc(), words.as_slice()) {
        Ok(request) => perform(rt, threads, host, &request, out, err),
        Err(fault) => (decline(rt, words.as_slice(), fault, err), host),
    }
}

/// Runs the command of the request, then explains its result if requested.
fn perform<'r, R: Threads + Wait + Sync>(
    rt: &'r HostRuntime,
    threads: &R,
    host: CachingHost<'r>,
    request: &Request,
    out: &mut Output<'r>,
    err: &mut Standard<'r>,
) -> (u8, CachingHost<'r>)
    requires reads { reads (events_of host) ≡ [] }
    requires links { links (events_of host) ≡ [] }
    requires inputs { inputs (events_of host) ≡ [] }
    requires changes { changes (events_of host) ≡ [] }
    requires out { failures_of out.old < u64.MAX }
    requires err { Streams.failures_of err.old < u64.MAX }
    ensures obeys { Obeys request.now (events_of result.1)
        (held (taken_of out.old) (failures_of out.old)) (held (taken_of out.new) (failures_of out.new))
        (held (Streams.taken_of err.old) (Streams.failures_of err.old)) (held (Streams.taken_of err.new) (Streams.failures_of err.new))
        result.0 }
    ensures asked { asked (events_of result.1) ≡ asked (events_of host.entry) }
{
    let mut host = host;
    let line = &request.line;
    let reporter = ProgressReporter::new(rt, request.progress, step_limit(line));
    host.want(request);
    out.want(request.explain);
    let number = process::id(rt.process());
    let (status, mut host) = execute(
        threads,
        rt.alloc(),
        host,
        number,
        request,
        &reporter,
        out,
        err,
    );
    if request.explain || request.json || request.deny {
        host.explain(CommandResult {
            line,
            all: request.all,
            status,
            reporter: &reporter,
            tail: out.tail(),
            unprinted: out.reason(),
        });
    }
    (status, host)
}

/// Returns the maximum number of events of the line's run.
fn step_limit(line: &Line) -> u32 {
    match line {
        Line::Run { steps, .. } => *steps,
        _ => u32::MAX,
    }
}

/// Reports why the words are not a request, and returns the status.
fn decline(rt: &HostRuntime, words: &[Word], fault: LineFault, err: &mut Standard<'_>) -> u8
    requires { Streams.failures_of err.old < u64.MAX }
    ensures { ((result ≡ 2) × (fault ≡ Usage)) ⊎ ((result ≡ 6)
        × Given (held (Streams.taken_of err.old) (Streams.failures_of err.old)) (trouble_line Memory [])
        (held (Streams.taken_of err.new) (Streams.failures_of err.new))) }
{
    match fault {
        LineFault::Usage => match write_usage(rt, words) {
            Ok(()) => Status::Usage.number(),
            Err(AllocError) => write_no_memory(err),
        },
        LineFault::Memory => write_no_memory(err),
    }
}

/// Reports an allocation failure, and returns the status.
fn write_no_memory(err: &mut Standard<'_>) -> u8
    requires { Streams.failures_of err.old < u64.MAX }
    ensures six { result ≡ 6 }
    ensures said { Given (held (Streams.taken_of err.old) (Streams.failures_of err.old)) (trouble_line Memory [])
        (held (Streams.taken_of err.new) (Streams.failures_of err.new)) }
{
    let _ = write_failure(CommandFailure::Memory, "", err);
    Status::Memory.number()
}

/// Reports the first wrong word, and the command or option that was probably meant.
///
/// Without words, or if they ask for help, the usage is printed. If the words could not be read, the first that is not
/// valid UTF-8 is reported.
fn write_usage(rt: &HostRuntime, words: &[Word]) -> Result<(), AllocError> {
    if words.is_empty() && write_foreign(rt)? {
        return Ok(());
    }
    // If this cannot be written, the status is enough.
    let Some(wrong) = first_wrong(words) else {
        let _ = eprintln!(rt; "{}", LineFault::Usage);
        return Ok(());
    };
    match meant(rt.alloc(), &wrong)? {
        Some(name) => {
            let _ = eprintln!(rt; "{wrong}: did you mean {name}?");
        }
        None => {
            let _ = eprintln!(rt; "{wrong}");
        }
    }
    if wrong.wants_usage() {
        let _ = eprintln!(rt; "{}", LineFault::Usage);
    }
    Ok(())
}
