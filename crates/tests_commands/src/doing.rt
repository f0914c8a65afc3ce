//! What several tests do: commands over files in memory, with sinks that take one byte a write.
use crate::asserts::boxed;
use bumpalo::Bump;
use std::alloc::{AllocError, Global};
use std::process::Abort;
use std::sync::Wait;
use std::thread::Threads;
use swt_arguments::fault::LineFault;
use swt_arguments::line::Line;
use swt_arguments::request::Request;
use swt_arguments::word::Word;
use swt_command::command::command;
use swt_command::unobserved::Unobserved;
use values::sink::{Sink, SinkFault};

/// Room for all that is written here.
pub(crate) const WIDE: (usize, usize) = (100000, 100000);

/// A sink that takes one byte a write, and none once it has no room.
#[derive(Drop)]
pub(crate) struct LimitedSink {
    pub bytes: Vec<u8>,
    room: usize,
    failures: u64,
}

impl LimitedSink {
    ghost use Rattle.std.specs.Prelude.{◌≡◌};

    pub(crate) fn new(alloc: Global, room: usize) -> LimitedSink
        ensures { result.failures ≡ 0 }
    {
        LimitedSink {
            bytes: Vec::new(alloc),
            room,
            failures: 0,
        }
    }
}

impl Sink for LimitedSink {
    ghost taken = { λ sink. sink.bytes.items };

    ghost failures = { λ sink. sink.failures };

    fn write(&mut self, piece: &[u8]) -> Result<usize, SinkFault> {
        let Some(first) = piece.first() else {
            return Ok(0);
        };
        if self.bytes.len() < self.room && self.bytes.push(*first).is_ok() {
            return Ok(1);
        }
        self.failures += 1;
        Err(SinkFault)
    }
}

/// The output, the error output and the trace of a command, and its status.
#[derive(Drop)]
pub(crate) struct CommandOutput {
    pub out: Vec<u8>,
    pub err: Vec<u8>,
    pub trace: Vec<u8>,
    pub status: u8,
}

impl CommandOutput {
    /// All of it in one text.
    pub(crate) fn text(&self, rt: &impl Abort, alloc: Global) -> String {
        let mut text = String::new(alloc);
        add_part(rt, &mut text, self.out.as_slice());
        add_part(rt, &mut text, self.err.as_slice());
        add_part(rt, &mut text, self.trace.as_slice());
        add_status(rt, alloc, &mut text, self.status);
        text
    }
}

/// Adds a part, with its end, to a text.
fn add_part(rt: &impl Abort, text: &mut String, part: &[u8]) {
    let part = std::str::from_utf8(part).expect(rt, "a text");
    text.push_str(part).expect(rt, "memory");
    text.push_str("|").expect(rt, "memory");
}

/// Adds a status to a text.
fn add_status(rt: &impl Abort, alloc: Global, text: &mut String, status: u8) {
    let shown = format!(in alloc; "{status}").expect(rt, "memory");
    text.push_str(shown.as_str()).expect(rt, "memory");
}

/// The words of a line, with a space between any two.
fn words_of(alloc: Global, line: &str) -> Result<Vec<Word>, AllocError> {
    let mut words = Vec::new(alloc);
    for word in line.split(' ') {
        words.push(Word::new(String::from_str(alloc, word)?))?;
    }
    Ok(words)
}

/// The request of a command line.
fn request_in(alloc: Global, line: &str) -> Result<Request, LineFault> {
    let words = words_of(alloc, line)?;
    Request::read(alloc, words.as_slice())
}

/// The request of the words of a command.
pub(crate) fn command_of(rt: &impl Abort, alloc: Global, line: &str) -> Box<Request> {
    let request = request_in(alloc, line).expect(rt, "a command");
    boxed(rt, alloc, request)
}

/// A file in memory, or `None` for one that cannot be read.
fn file_of(alloc: Global, source: &Option<&[u8]>) -> Result<Option<Vec<u8>>, AllocError> {
    match source {
        Some(bytes) => Ok(Some(Vec::from_slice(alloc, bytes)?)),
        None => Ok(None),
    }
}

/// Files in memory.
pub(crate) fn files_of(
    alloc: Global,
    sources: &[Option<&[u8]>],
) -> Result<Vec<Option<Vec<u8>>>, AllocError> {
    let mut files = Vec::new(alloc);
    for source in sources {
        files.push(file_of(alloc, source)?)?;
    }
    Ok(files)
}

/// Does a command. `None` is a file that cannot be read; the first room is for what is printed, the second for the trace.
pub(crate) fn perform<R: Threads + Wait + Sync + Abort>(
    rt: &R,
    alloc: Global,
    line: &str,
    sources: &[Option<&[u8]>],
    rooms: (usize, usize),
) -> Box<CommandOutput> {
    let files = files_of(alloc, sources).expect(rt, "memory");
    let request = command_of(rt, alloc, line);
    let done = done_by(rt, alloc, &request.line, files.as_slice(), rooms);
    boxed(rt, alloc, done)
}

/// The result of a command line over these files.
fn done_by<R: Threads + Wait + Sync>(
    rt: &R,
    alloc: Global,
    line: &Line,
    files: &[Option<Vec<u8>>],
    rooms: (usize, usize),
) -> CommandOutput {
    let mut out = LimitedSink::new(alloc, rooms.0);
    let mut err = LimitedSink::new(alloc, 1000);
    let mut trace = LimitedSink::new(alloc, rooms.1);
    let status = command(
        rt,
        alloc,
        &mut Bump::new(alloc),
        line,
        files,
        &Unobserved,
        &mut out,
        &mut err,
        &mut trace,
    );
    CommandOutput {
        out: out.bytes,
        err: err.bytes,
        trace: trace.bytes,
        status,
    }
}

/// The lines of a text, sorted by bytes.
fn sorted_lines(alloc: Global, text: &[u8]) -> Result<Vec<&[u8]>, AllocError> {
    let mut lines = Vec::new(alloc);
    for line in text.split(|byte| *byte == b'\n') {
        lines.push(line)?;
    }
    lines.sort()?;
    Ok(lines)
}

/// Adds a line to a text.
fn add_line(text: &mut Vec<u8>, line: &[u8]) -> Result<(), AllocError> {
    text.extend_from_slice(line)?;
    text.push(b'\n')?;
    Ok(())
}

/// A text of these lines.
fn text_of(alloc: Global, lines: &[&[u8]]) -> Result<Vec<u8>, AllocError> {
    let mut text = Vec::new(alloc);
    for line in lines {
        add_line(&mut text, line)?;
    }
    Ok(text)
}

/// A text with its lines sorted by bytes: a run on threads prints them in any order.
pub(crate) fn sorted_text(alloc: Global, text: &[u8]) -> Result<Vec<u8>, AllocError> {
    let lines = sorted_lines(alloc, text)?;
    text_of(alloc, lines.as_slice())
}
