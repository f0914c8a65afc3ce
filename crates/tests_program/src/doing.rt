//! What several tests do: lines of words, and the code, the runs and the rounds of a script.
use crate::asserts::boxed;
use board_program::program::Program;
use board_runs::one::run_one;
use board_runs::report::Report;
use compile::compile::{compile, read};
use flow::script::Flow;
use meaning::rounds;
use meaning_outcomes::knowledge::Knowledge;
use std::alloc::{AllocError, Global};
use std::process::Abort;
use swt_arguments::fault::LineFault;
use swt_arguments::request::Request;
use swt_arguments::word::Word;
use task_code::code::Code;

/// The words of a line, with a space between any two.
pub(crate) fn words_of(alloc: Global, line: &str) -> Result<Vec<Word>, AllocError> {
    let mut words = Vec::new(alloc);
    for word in line.split(' ') {
        words.push(Word::new(String::from_str(alloc, word)?))?;
    }
    Ok(words)
}

/// The request of a command line.
fn request_in(alloc: Global, line: &str) -> Result<Request, LineFault> {
    let words = words_of(alloc, line)?;
    Request::read(alloc, words.as_slice())
}

/// The request of a command line, or why it is not a command.
pub(crate) fn request_of(
    rt: &impl Abort,
    alloc: Global,
    line: &str,
) -> Box<Result<Request, LineFault>> {
    boxed(rt, alloc, request_in(alloc, line))
}

/// The request of the words of a command.
pub(crate) fn command_of(rt: &impl Abort, alloc: Global, line: &str) -> Box<Request> {
    let request = request_in(alloc, line).expect(rt, "a command");
    boxed(rt, alloc, request)
}

/// The statements of a script.
pub(crate) fn flow_of(rt: &impl Abort, alloc: Global, script: &[u8]) -> Box<Flow<Global>> {
    let flow = read(alloc, alloc, script).expect(rt, "a script");
    boxed(rt, alloc, flow)
}

/// The knowledge of a script after at most `most` rounds.
pub(crate) fn known_of(rt: &impl Abort, alloc: Global, script: &[u8], most: u32) -> Box<Knowledge> {
    let flow = flow_of(rt, alloc, script);
    let known = rounds(alloc, &flow, most).expect(rt, "memory");
    boxed(rt, alloc, known)
}

/// The code of a script.
pub(crate) fn code_of(rt: &impl Abort, alloc: Global, script: &[u8]) -> Box<Code> {
    let code = compile(alloc, alloc, script).expect(rt, "a script");
    boxed(rt, alloc, code)
}

/// The code with its tables.
pub(crate) fn program_of(rt: &impl Abort, alloc: Global, code: &Code) -> Program {
    let code = code.copy().expect(rt, "memory");
    Program::new(alloc, code).expect(rt, "memory")
}

/// The report of a run of the code by these choices, with at most `limit` events.
pub(crate) fn report_of(
    rt: &impl Abort,
    alloc: Global,
    code: &Code,
    choices: &[u32],
    limit: u32,
) -> Box<Report> {
    let program = program_of(rt, alloc, code);
    let report = run_one(alloc, &program, choices, limit).expect(rt, "memory");
    boxed(rt, alloc, report)
}
