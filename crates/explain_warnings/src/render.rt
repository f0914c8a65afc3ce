//! Texts of warnings, and the warnings of a text.
ghost use Rattle.std.specs.Prelude.{◌≡◌, [], IfOk, IsErr, IsOkAnd, MatchOption};
ghost use Rattle.explain_warnings.specs.WarningNames.{warning_code, warning_name};
ghost use Rattle.explain_warnings.specs.Warnings.{AreWarnings};

use crate::warning::{Warning, WarningKind, warnings};
use explain_text::line_index::LineIndex;
use explain_text::words::write_str;
use lexer::token::Span;
use std::alloc::{AllocError, Global};
use syntax::parser::parse;

/// Returns the warnings of a text that is a well typed script, in the order of the text. Any other text has none.
///
/// # Errors
///
/// Returns `AllocError` if an allocation fails.
#[tactic(auto, using(crate::proofs::Texts::silent_untyped, crate::proofs::Texts::said_of_tree))]
pub fn warnings_of(alloc: Global, text: &[u8]) -> Result<Vec<Warning>, AllocError>
    ensures { IfOk result (λ found. AreWarnings text.now found.items) }
{
    let script = match parse(alloc, text) {
        Ok(script) => script,
        Err(fault) => return none_at(alloc, fault.span()),
    };
    match types::check(alloc, &script) {
        Ok(typed) => warnings(alloc, &typed, &script),
        Err(fault) => none_at(alloc, fault.span()),
    }
}

/// Returns no warnings for a text that is refused at a place. Without a place an allocation failed, and the result is
/// an error.
fn none_at(alloc: Global, at: Option<Span>) -> Result<Vec<Warning>, AllocError>
    ensures { MatchOption at (IsErr result) (λ _. IsOkAnd result (λ found. found.items ≡ [])) }
{
    match at {
        None => Err(AllocError),
        Some(_) => Ok(Vec::new(alloc)),
    }
}

/// Returns the sentence of a warning, as `x is declared and never used`.
///
/// # Errors
///
/// Returns `AllocError` if an allocation fails.
pub fn sentence(alloc: Global, text: &[u8], warning: Warning) -> Result<Vec<u8>, AllocError> {
    let mut words = Vec::new(alloc);
    if begins_with_name(warning.warning_kind) {
        words.extend_from_slice(bytes_at(text, warning.at))?;
        words.push(b' ')?;
    }
    write_str(&mut words, words_at(text, warning))?;
    Ok(words)
}

/// Returns the words of a warning after its name, if it begins with one.
fn words_at(text: &[u8], warning: Warning) -> &'static str {
    match warning.warning_kind {
        WarningKind::AlwaysFails => words_of_failure(bytes_at(text, warning.at)),
        warning_kind => words_of(warning_kind),
    }
}

/// Returns the words for what always fails, by the token at its place.
fn words_of_failure(token: &[u8]) -> &'static str {
    match token {
        [b'0'] => "dividing by 0 always fails",
        [b'"', ..] => "this string is no whole number, so toint always fails",
        [b'f', ..] => "this assertion always fails",
        _ => words_of(WarningKind::AlwaysFails),
    }
}

/// Returns true if the sentence begins with the name at the place of the warning.
fn begins_with_name(warning_kind: WarningKind) -> bool {
    match warning_kind {
        WarningKind::NeverUsed | WarningKind::NeverRead | WarningKind::IdleInput => true,
        WarningKind::NeverWritten | WarningKind::NeverCalled | WarningKind::WaitsForItself => true,
        WarningKind::KeyTwice | WarningKind::EndlessCall | WarningKind::CircularWait => true,
        WarningKind::EmptyRange | WarningKind::ExtraLine | WarningKind::EmptyBlock => false,
        WarningKind::StepBelowOne | WarningKind::AlwaysHolds | WarningKind::IdleGuard => false,
        WarningKind::AlwaysFails => false,
    }
}

fn words_of(warning_kind: WarningKind) -> &'static str {
    match warning_kind {
        WarningKind::NeverUsed => "is declared and never used",
        WarningKind::NeverRead => "is written and never read",
        WarningKind::IdleInput => "is an input that is never read",
        WarningKind::EmptyRange => "this range is empty, so the loop has no turn",
        WarningKind::ExtraLine => "this printf prints an empty line after its line",
        WarningKind::NeverWritten => "is never written, and an element of it is read",
        WarningKind::NeverCalled => "is a function that nothing else calls",
        WarningKind::EmptyBlock => "this block is empty",
        WarningKind::StepBelowOne => "a step below 1 is a fault",
        WarningKind::AlwaysHolds => "this assertion always holds",
        WarningKind::WaitsForItself => "waits for itself: its value is computed from itself",
        WarningKind::KeyTwice => "gets this element twice, which is a fault",
        WarningKind::IdleGuard => {
            "this comparison does not guard the division after it: both sides are computed"
        }
        WarningKind::AlwaysFails => "the result is out of range, so this always fails",
        WarningKind::EndlessCall => "calls itself in each call, so no call ends",
        WarningKind::CircularWait => {
            "waits for itself through other variables, so none of them gets a value"
        }
    }
}

/// Returns the hint for a kind of warning.
pub fn hint_of(warning_kind: WarningKind) -> &'static str {
    match warning_kind {
        WarningKind::NeverUsed => "leave it out, or let its name begin with _",
        WarningKind::NeverRead => "read it, or let its name begin with _",
        WarningKind::IdleInput => "read it or leave it out, or let its name begin with _",
        WarningKind::EmptyRange => {
            "a range goes upwards: downwards go the values 9 - i in the turns of foreach i in [0:9]"
        }
        WarningKind::ExtraLine => "leave out the \\n at its end: printf ends each line itself",
        WarningKind::NeverWritten => "write its elements, or give it a value: int A[] = [1, 2, 3];",
        WarningKind::NeverCalled => "call it or leave it out, or let its name begin with _",
        WarningKind::EmptyBlock => "leave it out, or write the statements that are missing",
        WarningKind::StepBelowOne => {
            "a range goes upwards: downwards go the values 9 - i in the turns of foreach i in [0:9]"
        }
        WarningKind::AlwaysHolds => "assert what should hold, as assert(x > 0, \"x is too small\")",
        WarningKind::WaitsForItself => {
            "a variable has one value: give the new value a name of its own, as int y = x + 1;"
        }
        WarningKind::KeyTwice => {
            "an element has one value: write it under another key, or into an array of its own"
        }
        WarningKind::IdleGuard => {
            "a divisor of 0 is a fault: put the division into the block of an if, as if (n != 0) { .. }"
        }
        WarningKind::AlwaysFails => {
            "these are literals, so each run that gets here ends with a fault: write what is meant"
        }
        WarningKind::EndlessCall => {
            "call it in an if that ends the calls, as if (n == 0) { r = 0; } else { r = f(n - 1); }"
        }
        WarningKind::CircularWait => {
            "each waits for the next: compute one of them without the others, as x = 1;"
        }
    }
}

/// Returns the code of a kind of warning, as `V1`.
pub fn code_of(warning_kind: WarningKind) -> &'static str
    ensures { result.now ≡ warning_code warning_kind }
{
    match warning_kind {
        WarningKind::NeverUsed => "V1",
        WarningKind::NeverRead => "V2",
        WarningKind::IdleInput => "V3",
        WarningKind::EmptyRange => "V4",
        WarningKind::ExtraLine => "V5",
        WarningKind::NeverWritten => "V6",
        WarningKind::NeverCalled => "V7",
        WarningKind::EmptyBlock => "V8",
        WarningKind::StepBelowOne => "V9",
        WarningKind::AlwaysHolds => "V10",
        WarningKind::WaitsForItself => "V11",
        WarningKind::KeyTwice => "V12",
        WarningKind::IdleGuard => "V13",
        WarningKind::AlwaysFails => "V14",
        WarningKind::EndlessCall => "V15",
        WarningKind::CircularWait => "V16",
    }
}

/// Returns the name of a kind of warning, in one word.
pub fn name_of(warning_kind: WarningKind) -> &'static str
    ensures { result.now ≡ warning_name warning_kind }
{
    match warning_kind {
        WarningKind::NeverUsed => "NeverUsed",
        WarningKind::NeverRead => "NeverRead",
        WarningKind::IdleInput => "IdleInput",
        WarningKind::EmptyRange => "EmptyRange",
        WarningKind::ExtraLine => "ExtraLine",
        WarningKind::NeverWritten => "NeverWritten",
        WarningKind::NeverCalled => "NeverCalled",
        WarningKind::EmptyBlock => "EmptyBlock",
        WarningKind::StepBelowOne => "StepBelowOne",
        WarningKind::AlwaysHolds => "AlwaysHolds",
        WarningKind::WaitsForItself => "WaitsForItself",
        WarningKind::KeyTwice => "KeyTwice",
        WarningKind::IdleGuard => "IdleGuard",
        WarningKind::AlwaysFails => "AlwaysFails",
        WarningKind::EndlessCall => "EndlessCall",
        WarningKind::CircularWait => "CircularWait",
    }
}

/// Formats the warnings of a text, or returns an empty text if there are none.
///
/// The first line of each is `FILE:LINE:COLUMN: warning: V1 NeverUsed: x is declared and never used`. The source line
/// with the place marked and a hint follow.
///
/// # Errors
///
/// Returns `AllocError` if an allocation fails.
pub fn explained(alloc: Global, file: &str, text: &[u8]) -> Result<Vec<u8>, AllocError> {
    let warnings = warnings_of(alloc, text)?;
    let lines = LineIndex::of(alloc, text)?;
    let mut out = Vec::new(alloc);
    for warning in &warnings {
        add_warning(alloc, file, &lines, *warning, &mut out)?;
    }
    Ok(out)
}

fn add_warning(
    alloc: Global,
    file: &str,
    lines: &LineIndex<'_>,
    warning: Warning,
    out: &mut Vec<u8>,
) -> Result<(), AllocError> {
    let words = sentence(alloc, lines.text(), warning)?;
    lines.say_start(out, file, warning.at.from)?;
    write_head(out, warning.warning_kind)?;
    out.extend_from_slice(words.as_slice())?;
    out.push(b'\n')?;
    lines.add_mark(out, warning.at.from)?;
    write_str(out, "hint: ")?;
    write_str(out, hint_of(warning.warning_kind))?;
    write_str(out, "\n")
}

/// Appends what precedes the sentence of a warning, as `warning: V1 NeverUsed: `.
fn write_head(out: &mut Vec<u8>, warning_kind: WarningKind) -> Result<(), AllocError> {
    write_str(out, "warning: ")?;
    write_str(out, code_of(warning_kind))?;
    out.push(b' ')?;
    write_str(out, name_of(warning_kind))?;
    write_str(out, ": ")
}

/// Returns the bytes of a place, or an empty slice if the text has no such place.
fn bytes_at(text: &[u8], at: Span) -> &[u8] {
    if at.from <= at.to && at.to <= text.len() {
        &text[at.from..at.to]
    } else {
        &[]
    }
}
