//! A process on a machine in memory.
ghost use Rattle.std.specs.Prelude.{◌≡◌, [], IfOk};
ghost use Rattle.tests_process.specs.Fakes.{events_of};

use crate::fake::FakeHost;
use std::alloc::{AllocError, Global};
use std::sync::Wait;
use std::thread::Threads;
use swt_arguments::fault::LineFault;
use swt_command::buffer::Buffer;
use swt_command::unobserved::Unobserved;
use swt_process::request::execute;
use swt_process::words::read_request;

/// The number of the process.
const PROCESS: u32 = 7;

/// A script that prints 3.
const SCRIPT: &[u8] = b"int x; int y; x = y + 1; y = 2; printf(\"%i\", x);";

/// The end of a process: its status, its output and error output, and the machine.
#[derive(Drop)]
struct ProcessResult {
    status: u8,
    out: Buffer,
    err: Buffer,
    fake: FakeHost,
}

/// A machine with these words.
fn machine(
    alloc: Global,
    at_once: usize,
    refused: u64,
    words: &[&str],
) -> Result<FakeHost, AllocError>
    ensures { IfOk result (λ fake. events_of fake ≡ []) }
{
    let words = copies(alloc, words)?;
    Ok(FakeHost::new(alloc, words, at_once, refused))
}

fn copies(alloc: Global, words: &[&str]) -> Result<Vec<String>, AllocError> {
    let mut all = Vec::new(alloc);
    for word in words {
        all.push(String::from_str(alloc, word)?)?;
    }
    Ok(all)
}

/// Runs the process with the words of the machine.
fn came_of<R: Threads + Wait + Sync>(
    rt: &R,
    alloc: Global,
    fake: FakeHost,
) -> Result<ProcessResult, LineFault>
    requires { events_of fake ≡ [] }
{
    let mut fake = fake;
    let request = read_request(&mut fake, alloc)?;
    let mut out = Buffer::new(alloc);
    let mut err = Buffer::new(alloc);
    let (status, fake) = execute(
        rt,
        alloc,
        fake,
        PROCESS,
        &request,
        &Unobserved,
        &mut out,
        &mut err,
    );
    Ok(ProcessResult {
        status,
        out,
        err,
        fake,
    })
}

/// Words for a run with a trace to `t`.
const TRACED: [&str; 8] = [
    "run",
    "s",
    "--engines",
    "1",
    "--workers",
    "1",
    "--trace",
    "t",
];

#[test]
fn prints_and_traces(rt: HostRuntime) -> Result<(), LineFault> {
    let alloc = rt.alloc();
    let mut fake = machine(alloc, 1, 0, &TRACED)?;
    fake.add("s", SCRIPT)?;
    let came = came_of(&rt, alloc, fake)?;
    assert_eq!(rt; came.status, 0);
    assert_eq!(rt; came.out.bytes(), b"3\n".as_slice());
    assert_eq!(rt; came.err.bytes(), b"".as_slice());
    assert!(rt; came.fake.begins("t", b"swt-trace "));
    assert!(rt; came.fake.bytes("t.7.part").is_none());
    Ok(())
}

/// The script under another name is left as it is.
#[test]
fn traces_over_no_script(rt: HostRuntime) -> Result<(), LineFault> {
    let alloc = rt.alloc();
    let mut fake = machine(alloc, 100, 0, &TRACED)?;
    let script = fake.add("s", SCRIPT)?;
    fake.link("t", script)?;
    let came = came_of(&rt, alloc, fake)?;
    assert_eq!(rt; came.status, 7);
    assert_eq!(rt; came.out.bytes(), b"3\n".as_slice());
    assert_eq!(rt; came.err.bytes(), b"swt: cannot write\n".as_slice());
    assert_eq!(rt; came.fake.bytes("s"), Some(SCRIPT));
    Ok(())
}

/// The file that standard output goes to is kept, too.
#[test]
fn traces_over_no_stream(rt: HostRuntime) -> Result<(), LineFault> {
    let alloc = rt.alloc();
    let mut fake = machine(alloc, 100, 0, &TRACED)?;
    fake.add("s", SCRIPT)?;
    let out = fake.add("t", b"")?;
    fake.redirect(Some(out), None);
    let came = came_of(&rt, alloc, fake)?;
    assert_eq!(rt; came.status, 7);
    assert_eq!(rt; came.err.bytes(), b"swt: cannot write\n".as_slice());
    assert_eq!(rt; came.fake.bytes("t"), Some(b"".as_slice()));
    Ok(())
}

/// A trace stands where the link of its name leads.
#[test]
fn traces_through_a_link(rt: HostRuntime) -> Result<(), LineFault> {
    let alloc = rt.alloc();
    let mut fake = machine(alloc, 100, 0, &TRACED)?;
    fake.add("s", SCRIPT)?;
    let old = fake.add("far", b"old")?;
    fake.lead("t", "far", old)?;
    let came = came_of(&rt, alloc, fake)?;
    assert_eq!(rt; came.status, 0);
    assert!(rt; came.fake.begins("far", b"swt-trace "));
    Ok(())
}

#[test]
fn checks_one_after_another(rt: HostRuntime) -> Result<(), LineFault> {
    let alloc = rt.alloc();
    let mut fake = machine(alloc, 1, 0, &["check", "s", "lost", "t"])?;
    fake.add("s", SCRIPT)?;
    fake.add("t", SCRIPT)?;
    let came = came_of(&rt, alloc, fake)?;
    assert_eq!(rt; came.status, 7);
    assert_eq!(rt; came.out.bytes(), b"s: accepted\n".as_slice());
    assert_eq!(rt; came.err.bytes(), b"swt: cannot read lost\n".as_slice());
    Ok(())
}

/// A check of files of which one has a warning is refused where warnings are denied.
#[test]
fn denies_warnings(rt: HostRuntime) -> Result<(), LineFault> {
    let alloc = rt.alloc();
    let mut fake = machine(alloc, 100, 0, &["check", "--deny-warnings", "s", "w"])?;
    fake.add("s", SCRIPT)?;
    fake.add("w", b"int x = 1;")?;
    let came = came_of(&rt, alloc, fake)?;
    assert_eq!(rt; came.status, 1);
    assert_eq!(rt; came.out.bytes(), b"s: accepted\nw: accepted\n".as_slice());
    assert_eq!(rt; came.err.bytes(), b"".as_slice());
    let mut fake = machine(alloc, 100, 0, &["check", "--deny-warnings", "s"])?;
    fake.add("s", SCRIPT)?;
    let came = came_of(&rt, alloc, fake)?;
    assert_eq!(rt; came.status, 0);
    Ok(())
}

/// Each call is refused in turn. Then the script is as it was, and there is a whole trace or none.
#[test]
fn bears_each_refusal(rt: HostRuntime) -> Result<(), LineFault> {
    let alloc = rt.alloc();
    let mut ended: u32 = 0;
    for refused in 1..80 {
        let mut fake = machine(alloc, 16, refused, &TRACED)?;
        fake.add("s", SCRIPT)?;
        let came = came_of(&rt, alloc, fake)?;
        assert_eq!(rt; came.fake.bytes("s"), Some(SCRIPT));
        if came.status == 0 {
            assert!(rt; came.fake.begins("t", b"swt-trace "));
            ended = ended.saturating_add(1);
        } else {
            assert_eq!(rt; came.status, 7);
            assert!(rt; came.fake.bytes("t").is_none());
        }
    }
    assert!(rt; ended > 10 && ended < 79);
    Ok(())
}
