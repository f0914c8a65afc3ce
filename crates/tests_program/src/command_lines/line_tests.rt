//! Each command on plain words, its defaults and ranges, and words that are not a command.
use crate::asserts::{boxed, holds, is_equal};
use crate::doing::{command_of, request_of, words_of};
use std::alloc::{AllocError, Global};
use std::process::Abort;
use swt_arguments::argument_error::{ArgumentError, first_wrong};
use swt_arguments::code_form::CodeForm;
use swt_arguments::command::Command;
use swt_arguments::fault::LineFault;
use swt_arguments::line::Line;
use swt_arguments::nearest::meant;
use swt_arguments::pass::Pass;
use swt_arguments::request::Request;
use swt_arguments::word::Word;

/// The words of a line are not a request.
fn is_usage(rt: &impl Abort, alloc: Global, line: &str) -> bool {
    let read = request_of(rt, alloc, line);
    matches!(&*read, Err(LineFault::Usage))
}

/// Something is wrong with the words of a line.
fn has_wrong(rt: &impl Abort, alloc: Global, line: &str) -> bool {
    let words = words_of(alloc, line).expect(rt, "memory");
    first_wrong(words.as_slice()).is_some()
}

/// The line is not a command, and something is wrong with its words.
fn is_no_command(rt: &impl Abort, alloc: Global, line: &str) {
    let is_usage = is_usage(rt, alloc, line);
    let has_wrong = has_wrong(rt, alloc, line);
    is_equal(rt, (line, is_usage, has_wrong), (line, true, true));
}

/// Each of these lines is not a command, and something is wrong with its words.
fn are_no_commands(rt: &impl Abort, alloc: Global, lines: &str) {
    for line in lines.lines() {
        is_no_command(rt, alloc, line);
    }
}

/// The names of the files of a check in one text.
fn checked(alloc: Global, files: &[Word]) -> Result<String, AllocError> {
    let mut text = String::from_str(alloc, "check")?;
    for file in files {
        text.push_str(" ")?;
        text.push_str(file.as_str())?;
    }
    Ok(text)
}

/// A run's words in one text.
fn shown_run(
    alloc: Global,
    file: &str,
    counts: (u8, u8, u32),
    trace: &Option<Word>,
) -> Result<String, AllocError> {
    let trace = match trace {
        Some(name) => name.as_str(),
        None => "none",
    };
    let (engines, workers, steps) = counts;
    format!(in alloc; "run {file} {engines} {workers} {steps} {trace}")
}

/// The word for a form, with a space in front.
fn shown_form(form: CodeForm) -> &'static str {
    match form {
        CodeForm::Listing => "",
        CodeForm::Graph => " dot",
        CodeForm::Drawing => " draw",
        CodeForm::After(Pass::Parse) => " parse",
        CodeForm::After(Pass::Types) => " types",
        CodeForm::After(Pass::Fold) => " fold",
        CodeForm::After(Pass::Lower) => " lower",
        CodeForm::After(Pass::Merge) => " merge",
        CodeForm::After(Pass::Emit) => " emit",
    }
}

/// The request of a line, in one text.
fn shown_line(alloc: Global, line: &Line) -> Result<String, AllocError> {
    match line {
        Line::Check { files } => checked(alloc, files.as_slice()),
        Line::Mean { file, rounds } => { format!(in alloc; "mean {} {}", file.as_str(), rounds) }
        Line::Code { file, form } => {
            format!(in alloc; "code {}{}", file.as_str(), shown_form(*form))
        }
        Line::Run {
            file,
            engines,
            workers,
            steps,
            trace,
        } => shown_run(alloc, file.as_str(), (*engines, *workers, *steps), trace),
        Line::Replay { file, trace } => {
            format!(in alloc; "replay {} {}", file.as_str(), trace.as_str())
        }
    }
}

/// Adds the options that several commands have.
fn add_options(text: &mut String, request: &Request) -> Result<(), AllocError> {
    if request.explain {
        text.push_str(" explain")?;
    }
    if request.all {
        text.push_str(" all")?;
    }
    if request.progress {
        text.push_str(" progress")?;
    }
    if request.json {
        text.push_str(" json")?;
    }
    if request.deny {
        text.push_str(" deny")?;
    }
    Ok(())
}

/// A request in one text.
fn shown_request(alloc: Global, request: &Request) -> Result<String, AllocError> {
    let mut text = shown_line(alloc, &request.line)?;
    add_options(&mut text, request)?;
    Ok(text)
}

/// The word for a fault.
fn fault_word(fault: &LineFault) -> &'static str {
    match fault {
        LineFault::Usage => "usage",
        LineFault::Memory => "memory",
    }
}

/// The result of reading a line in one text, to compare.
fn shown(alloc: Global, read: &Result<Request, LineFault>) -> Result<String, AllocError> {
    match read {
        Ok(request) => shown_request(alloc, request),
        Err(fault) => String::from_str(alloc, fault_word(fault)),
    }
}

/// The words of a line are shown so.
fn is_shown(rt: &impl Abort, alloc: Global, line: &str, text: &str) {
    let read = request_of(rt, alloc, line);
    let found = shown(alloc, &read).expect(rt, "memory");
    is_equal(rt, found.as_str(), text);
}

/// The expected text of a row, and its line.
fn parts<'a>(rt: &impl Abort, row: &'a str) -> (&'a str, &'a str) {
    row.split_once(" | ").expect(rt, "a row has two parts")
}

/// The line of each row is shown as the row says in front of it.
fn are_shown(rt: &impl Abort, alloc: Global, rows: &str) {
    for row in rows.lines() {
        let (text, line) = parts(rt, row);
        is_shown(rt, alloc, line, text);
    }
}

const COMMANDS: &str = "\
check a.swift | check a.swift
check a b a | check a b a
mean a 1000000 | mean a
mean a 7 | mean a --rounds 7
mean a 4294967295 | mean --rounds 4294967295 a
code a | code a
code a dot | code a --dot
code a dot | code --dot a
code a draw | code a --draw
code a parse | code a --after parse
code a types | code --after types a
code a fold | code a --after=fold
code a lower | code --after lower -- a
code a merge explain | code --explain a --after merge
code a emit | code a --after emit
run a 1 3 10000000 none | run a
run a 2 63 0 t | run --trace t --engines 2 a --steps 0 --workers 63
replay a t | replay a t
check a explain | check --explain a
check a json | check a --json
check a b deny | check a --deny-warnings b
check a explain json deny | check --deny-warnings --json a --explain
check a b explain json | check --json a --explain b
code a explain | code a --explain
mean a 1000000 explain | mean a --explain
run a 1 3 1 none explain | run --steps 1 --explain a
run a 1 3 10000000 none explain progress | run --progress a --explain
replay a t explain | replay --explain a t
replay a t explain all | replay --explain=all a t
mean a 7 explain all | mean --explain=all --rounds 7 a
mean a 7 progress | mean --progress --rounds 7 a
run a 1 3 1 none explain all progress | run --progress --steps=1 a --explain=all
check a --explain=all explain all | check --explain=all a -- --explain=all
code a dot explain all | code --dot a --explain=all";

#[test]
fn commands(rt: HostRuntime) {
    are_shown(&rt, rt.alloc(), COMMANDS);
}

// The first is a word without bytes.
const NO_COMMANDS: &str = "
--help
help
run --help
-h
walk a
Run a
check
check a --rounds 1
mean
mean a b
mean a --rounds 0
mean a --rounds 4294967296
mean a --steps 1
code
code --dot
code --dot a --dot
code --dot a --draw
code a --after
code a --after parsed
code a --after=
code a --after Parse
code a --after parse --after types
code a --dot --after parse
code a --after=emit --draw
code --after parse
mean a --after parse
mean a --dot
code a b
run
run a b
run a --engines 0
run a --engines 64
run a --workers 64
run a --workers 0
run a --workers +5
run a --workers -5
run a --engines 1 --engines 1
run a --trace
run a --trace --steps 1
check --json a --json
check --deny-warnings a --deny-warnings
run a --deny-warnings
run a --json
run --explain a --explain
run --explain a --explain=all
run --explain=all a --explain=all
mean a --explain=
mean a --explain=all=
mean a --explain all
run --progress a --progress
mean --progress a --progress
code a --progress
--explain run a
replay a
replay a t u";

#[test]
fn no_commands(rt: HostRuntime) {
    are_no_commands(&rt, rt.alloc(), NO_COMMANDS);
}

#[test]
fn no_words(rt: HostRuntime) {
    let read = boxed(&rt, rt.alloc(), Request::read(rt.alloc(), &[]));
    holds(&rt, matches!(&*read, Err(LineFault::Usage)));
    let wrong = first_wrong(&[]).expect(&rt, "something is wrong");
    has_text(&rt, rt.alloc(), wrong, "swt: no command is given");
}

/// Words that a reader of command lines often takes in other ways.
const OTHER_FORMS: &str = "\
-- run a
run --steps -- 1 a
run a -- b
run a -- --explain
run -- -- a
check --
check - -
check - -- -
replay - -
run a --trace -
run a --trace=-
run a --trace=-t
run a --trace=--steps
run a --trace=--explain t
run a --steps=
run a --steps=-1
run a --steps=1=1
run a --steps=1 --steps 1
run a --steps=1 1
run a --explain=1
run a --step=1
run a -steps=1
run a --step 1
run a --=1
run a -s 1
run a -V
run a --version
run a --trace t --trace t
help run";

#[test]
fn other_forms(rt: HostRuntime) {
    are_no_commands(&rt, rt.alloc(), OTHER_FORMS);
}

/// A value in one word with its option, files behind `--`, and standard input.
const FORMS: &str = "\
run a 1 3 1 none | run a --steps=1
run a 1 3 10000000 a=b | run --trace=a=b a
run a 2 63 0 t explain | run --engines=2 --trace=t --workers 63 --explain --steps=0 a
run a 1 3 10000000  | run a --trace=
mean a 7 | mean --rounds=007 -- a
run a 1 3 10000000 none | run -- a
run a 1 3 10000000 none | run a --
check a -b -- --explain=1 | check a -- -b -- --explain=1
check a --explain explain | check --explain a -- --explain
check - | check -
check - a explain | check - --explain a
check a - | check a -- -
replay - t | replay - t
replay a - | replay a -
code - dot | code --dot -";

#[test]
fn forms(rt: HostRuntime) {
    are_shown(&rt, rt.alloc(), FORMS);
}

/// Words that look like others, and are names and numbers. In the first row one has no bytes.
const OTHER_NAMES: &str = "\
check  = a=b | check  = a=b
run help 1 3 10000000 run | run help --trace run
mean ./-a 7 | mean --rounds 007 ./-a
run a 1 3 4294967295 none | run a --steps 4294967295";

#[test]
fn other_names(rt: HostRuntime) {
    are_shown(&rt, rt.alloc(), OTHER_NAMES);
}

/// Words for `--steps` that are not numbers in its range. The last has no bytes.
const NO_STEPS: &str = "\
run a --steps 4294967296
run a --steps 99999999999999999999
run a --steps ten
run a --steps ";

#[test]
fn steps_range(rt: HostRuntime) {
    are_no_commands(&rt, rt.alloc(), NO_STEPS);
}

/// The names of files in one text, with a space after each.
fn names_of(alloc: Global, files: &[Word]) -> Result<String, AllocError> {
    let mut text = String::new(alloc);
    for file in files {
        text.push_str(file.as_str())?;
        text.push_str(" ")?;
    }
    Ok(text)
}

/// The files that a line needs have these names.
fn needs_files(rt: &impl Abort, alloc: Global, line: &Line, names: &str) {
    let files = line.files(alloc).expect(rt, "memory");
    let found = names_of(alloc, files.as_slice()).expect(rt, "memory");
    is_equal(rt, found.as_str(), names);
}

/// The files that a command needs have these names.
fn are_needed(rt: &impl Abort, alloc: Global, line: &str, names: &str) {
    let request = command_of(rt, alloc, line);
    needs_files(rt, alloc, &request.line, names);
}

// The names, with a space after each, and the line that needs them.
const NEEDED: &str = "\
b a  | check b a
a  | mean a
a  | code a
a  | run a --trace t
a t  | replay a t";

#[test]
fn files_to_be_read(rt: HostRuntime) {
    for row in NEEDED.lines() {
        let (names, line) = parts(&rt, row);
        are_needed(&rt, rt.alloc(), line, names);
    }
}

/// A word is equal to its copy.
fn is_copied(rt: &impl Abort, alloc: Global, text: &str) {
    let word = Word::new(String::from_str(alloc, text).expect(rt, "memory"));
    let copy = word.copy(alloc).expect(rt, "memory");
    is_equal(rt, copy.as_str(), text);
}

#[test]
fn single_words(rt: HostRuntime) {
    is_equal(&rt, Command::of("replay"), Some(Command::Replay));
    is_equal(&rt, Command::of("replays"), None);
    is_copied(&rt, rt.alloc(), "-x");
}

/// The complaint has this text.
fn has_text(rt: &impl Abort, alloc: Global, wrong: ArgumentError<'_>, text: &str) {
    let found = format!(in alloc; "{wrong}").expect(rt, "memory");
    is_equal(rt, found.as_str(), text);
}

/// The complaint about the words has this text.
fn is_complained(rt: &impl Abort, alloc: Global, line: &str, text: &str) {
    let words = words_of(alloc, line).expect(rt, "memory");
    let wrong = first_wrong(words.as_slice()).expect(rt, "something is wrong");
    has_text(rt, alloc, wrong, text);
}

const COMPLAINTS: &str = "\
swt: walk is no command | walk a
swt: --steps is no option of check | check a --steps 1
swt: --trace has no value behind it | run a --trace
swt: --steps has no value behind it | run --steps --engines 1 a
swt: --workers takes a number from 1 to 63, not 64 | run a --workers 64
swt: --rounds takes a number from 1 to 4294967295, not many | mean a --rounds many
swt: --dot stands twice | code a --dot --dot
swt: --draw stands twice | code a --dot --draw
swt: parsed is no pass: write parse, types, fold, lower, merge or emit | code a --after parsed
swt: x is no pass: write parse, types, fold, lower, merge or emit | code --after=x a
swt: --after has no value behind it | code a --after
swt: --after has no value behind it | code a --after=
swt: --after stands twice | code a --after parse --after=emit
swt: --after stands twice | code a --draw --after parse
swt: --dot stands twice | code a --after parse --dot
swt: b is one file too many for mean | mean a b
swt: check wants one file or more | check
swt: replay wants a file and its trace | replay a
swt: --steps takes a number from 0 to 4294967295, not -1 | run a --steps -1
swt: --workers takes a number from 1 to 63, not -1 | run --workers=-1 a
swt: --steps has no value behind it | run --steps -- a
swt: --steps has no value behind it | run a --steps=
swt: --trace has no value behind it | run a --trace -x
swt: -x is no name for a trace: write ./-x | run a --trace=-x
swt: - is no name for a trace: write ./- | run a --trace -
swt: --steps stands twice | run --steps=1 --steps 2 a
swt: --explain stands twice | mean --explain=all a --explain
swt: --explain=all stands twice | mean --explain --explain=all a
swt: --explain=most is no option of run | run --explain=most a
swt: - stands twice | check - a -
swt: --explain is one file too many for run | run a -- --explain";

#[test]
fn complaints(rt: HostRuntime) {
    for row in COMPLAINTS.lines() {
        let (text, line) = parts(&rt, row);
        is_complained(&rt, rt.alloc(), line, text);
    }
    is_equal(&rt, has_wrong(&rt, rt.alloc(), "run a --trace t"), false);
}

/// The name that is nearest to the first wrong word of a line.
fn meant_by(rt: &impl Abort, alloc: Global, line: &str) -> &'static str {
    let words = words_of(alloc, line).expect(rt, "memory");
    let wrong = first_wrong(words.as_slice()).expect(rt, "something is wrong");
    meant(alloc, &wrong).expect(rt, "memory").unwrap_or("none")
}

const MEANT: &str = "\
check | chek a
run | Run a
none | walk a
--steps | run a --step 1
--steps | run a -steps=1
--explain | run a --explian
--workers | run a --work 2
--rounds | mean a --round=3
--after | code a --aftr parse
--deny-warnings | check a --deny-warning
none | check a --steps 1
none | mean a b";

#[test]
fn nearest_names(rt: HostRuntime) {
    for row in MEANT.lines() {
        let (name, line) = parts(&rt, row);
        is_equal(&rt, (line, meant_by(&rt, rt.alloc(), line)), (line, name));
    }
}

/// Returns true if the whole usage is to be printed after the complaint about a line.
fn calls_for_usage(rt: &impl Abort, alloc: Global, line: &str) -> bool {
    let words = words_of(alloc, line).expect(rt, "memory");
    let wrong = first_wrong(words.as_slice()).expect(rt, "something is wrong");
    wrong.wants_usage()
}

#[test]
fn calls_for_help(rt: HostRuntime) {
    holds(&rt, calls_for_usage(&rt, rt.alloc(), "help run"));
    holds(&rt, calls_for_usage(&rt, rt.alloc(), "run a --help"));
    is_equal(&rt, calls_for_usage(&rt, rt.alloc(), "walk a"), false);
}

/// A fault in one text.
fn fault_text(rt: &impl Abort, alloc: Global, fault: LineFault) -> String {
    format!(in alloc; "{fault}").expect(rt, "memory")
}

#[test]
fn usage_has_a_text(rt: HostRuntime) {
    let usage = fault_text(&rt, rt.alloc(), LineFault::Usage);
    let first = "usage: swt check FILE.. [--explain] [--json] [--deny-warnings]\n";
    holds(&rt, usage.as_str().starts_with(first));
}

#[test]
fn lack_of_memory_has_a_text(rt: HostRuntime) {
    let text = fault_text(&rt, rt.alloc(), LineFault::Memory);
    is_equal(&rt, text.as_str(), "no memory");
}
