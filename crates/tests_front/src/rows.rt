//! Tables of texts, a row a line: the answer that is wanted, ` | `, and the text.

use explain_warnings::render::{code_of, name_of, warnings_of};
use explain_warnings::warning::Warning;
use lexer::token::Span;
use std::alloc::{AllocError, Global};
use std::fmt::Display;
use std::process::Abort;
use syntax::parser::parse;
use syntax_trees::tree::Script;
use types::typed::Typed;

/// A fault's name, and the bytes where its place begins and ends.
fn told(alloc: Global, fault: &impl Display, place: Option<Span>) -> Result<String, AllocError> {
    match place {
        Some(at) => format!(in alloc; "{fault} {} {}", at.from, at.to),
        None => format!(in alloc; "{fault}"),
    }
}

/// The answer of the parser for a text.
fn reading(alloc: Global, text: &[u8]) -> Result<String, AllocError> {
    match parse(alloc, text) {
        Ok(_script) => String::from_str(alloc, "accepted"),
        Err(fault) => told(alloc, &fault, fault.span()),
    }
}

/// The answer of the single-assignment check for a well-typed script.
fn assignments(
    alloc: Global,
    script: &Script<Global>,
    typed: &Typed,
) -> Result<String, AllocError> {
    match assign_check::check(alloc, script, typed) {
        Ok(()) => String::from_str(alloc, "accepted"),
        Err(fault) => told(alloc, &fault, fault.span()),
    }
}

/// The answer of the first check that refuses a script.
fn checked(alloc: Global, script: &Script<Global>) -> Result<String, AllocError> {
    match types::check(alloc, script) {
        Ok(typed) => assignments(alloc, script, &typed),
        Err(fault) => told(alloc, &fault, fault.span()),
    }
}

/// The answer of the parser, or of the first check that refuses a text.
fn judgement(alloc: Global, text: &[u8]) -> Result<String, AllocError> {
    match parse(alloc, text) {
        Ok(script) => checked(alloc, &script),
        Err(fault) => told(alloc, &fault, fault.span()),
    }
}

/// Appends the code and the name of a warning, and the bytes where its place begins and ends.
fn add_warning(alloc: Global, warning: Warning, said: &mut String) -> Result<(), AllocError> {
    if !said.is_empty() {
        said.push_str(", ")?;
    }
    let name = name_of(warning.warning_kind);
    let code = code_of(warning.warning_kind);
    let words = format!(in alloc; "{code} {name} {} {}", warning.at.from, warning.at.to)?;
    said.push_str(words.as_str())
}

/// Returns the warnings of a text, in the order of the text.
fn all_warnings(alloc: Global, text: &[u8]) -> Result<String, AllocError> {
    let warnings = warnings_of(alloc, text)?;
    if warnings.is_empty() {
        return String::from_str(alloc, "none");
    }
    let mut said = String::new(alloc);
    for warning in &warnings {
        add_warning(alloc, *warning, &mut said)?;
    }
    Ok(said)
}

/// The expected answer of a row, and its text.
pub fn parts<'a>(rt: &impl Abort, row: &'a str) -> (&'a str, &'a [u8]) {
    let (wanted, text) = row.split_once(" | ").expect(rt, "a row has two parts");
    (wanted, text.as_bytes())
}

/// The answer is as wanted.
fn is_answered(rt: &impl Abort, answer: Result<String, AllocError>, wanted: &str, row: &str) {
    let answer = answer.expect(rt, "memory");
    assert_eq!(rt; answer.as_str(), wanted, "{row}");
}

/// The parser answers each row as wanted.
pub fn are_read(rt: &impl Abort, alloc: Global, rows: &str) {
    for row in rows.lines() {
        let (wanted, text) = parts(rt, row);
        is_answered(rt, reading(alloc, text), wanted, row);
    }
}

/// The parser and the checks answer each row as wanted.
pub fn are_judged(rt: &impl Abort, alloc: Global, rows: &str) {
    for row in rows.lines() {
        let (wanted, text) = parts(rt, row);
        is_answered(rt, judgement(alloc, text), wanted, row);
    }
}

/// The text of each row has just these warnings.
pub fn are_warned(rt: &impl Abort, alloc: Global, rows: &str) {
    for row in rows.lines() {
        let (wanted, text) = parts(rt, row);
        is_answered(rt, all_warnings(alloc, text), wanted, row);
    }
}
