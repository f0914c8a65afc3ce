//! Hints about variables that an `if` assigns on some paths only.

use crate::explanation::Hint;
use explain_names::lookup::{LookupKind, bytes_at, last_before};
use explain_names::occurrence::{Occurrence, OccurrenceKind};
use explain_names::partial_assignment::PartialAssignment;
use explain_searches::scopes::{end_of_if, is_in_next_if, occurs_between};
use lexer::token::Span;
use std::alloc::{AllocError, Global};

/// Returns the hint about the `if` at a place, which assigns a variable on some paths only.
///
/// The remedy depends on the other assignments of the variable: those before the `if`, after it, or of its elements.
pub fn hint_of_partly(
    alloc: Global,
    text: &[u8],
    occurrences: &[Occurrence],
    partly: PartialAssignment,
    at: Span,
) -> Result<Option<Hint>, AllocError> {
    let name = bytes_at(text, partly.occurrence.at);
    let before = last_before(text, occurrences, LookupKind::Assignment, name, at.from);
    if let Some(before) = before {
        let template = words_before(text, occurrences, before.at, partly);
        return Hint::filled(alloc, template, &[name]);
    }
    let end = end_of_if(text, at.from);
    if last_before(text, occurrences, LookupKind::Element, name, end).is_some() {
        let template =
            "assign $0 alike in both branches: whole, $0 = [..];, or by elements, $0[0] = ..;";
        return Hint::filled(alloc, template, &[name]);
    }
    match assigned_after(text, occurrences, name, end) {
        Some(after) if is_in_next_if(text, end, after.from) => {
            let template =
                "join the two ifs that assign $0 into one: if (..) { .. } else if (..) { .. } else { $0 = ..; }";
            Hint::filled(alloc, template, &[name])
        }
        Some(after) => {
            let template =
                "give one of the two values of $0 another name: this one, or the one that is assigned";
            Ok(placed(Hint::filled(alloc, template, &[name])?, Some(after)))
        }
        None => hint_of_else(alloc, partly, name, at),
    }
}

/// Returns the template of the hint for a variable that has a value before the `if`. `before`: the place of that
/// assignment.
fn words_before(
    text: &[u8],
    occurrences: &[Occurrence],
    before: Span,
    partly: PartialAssignment,
) -> &'static str {
    let name = bytes_at(text, before);
    if occurs_between(text, before.to, partly.occurrence.at.from, name) {
        "$0 already has a value, which is read before this assignment: give the new value another name"
    } else if is_declared_at(occurrences, before) {
        "declare $0 without a value, and assign that value in the other branch: else { $0 = ..; }"
    } else {
        "$0 already has a value: move that assignment into the other branch, else { $0 = ..; }"
    }
}

/// Returns true if a place is that of a declaration by a statement.
pub fn is_declared_at(occurrences: &[Occurrence], at: Span) -> bool {
    for occurrence in occurrences {
        if occurrence.at == at && occurrence.kind == OccurrenceKind::Declared {
            return true;
        }
    }
    false
}

/// Returns the place of the last assignment of a name after an offset, if the name is not declared again before it.
fn assigned_after(
    text: &[u8],
    occurrences: &[Occurrence],
    name: &[u8],
    end: usize,
) -> Option<Span> {
    let last = last_before(text, occurrences, LookupKind::Assignment, name, text.len())?;
    let declared = last_before(text, occurrences, LookupKind::Declaration, name, text.len())?;
    if last.at.from >= end && declared.at.from < end {
        Some(last.at)
    } else {
        None
    }
}

/// Returns the hint to assign a name on the paths that leave it out. The `if` to mend may be nested in the one at the
/// place.
fn hint_of_else(
    alloc: Global,
    partly: PartialAssignment,
    name: &[u8],
    at: Span,
) -> Result<Option<Hint>, AllocError> {
    let inner = if partly.inner == at {
        None
    } else {
        Some(partly.inner)
    };
    let template = match (partly.has_else, inner.is_some()) {
        (false, false) => "add an else that assigns $0: else { $0 = ..; }",
        (false, true) => "add an else that assigns $0, else { $0 = ..; }, to the if",
        (true, false) => "assign $0 in the other branch of this if too",
        (true, true) => "assign $0 in the other branch too, of the if",
    };
    Ok(placed(Hint::filled(alloc, template, &[name])?, inner))
}

/// Returns a hint with its place replaced.
fn placed(hint: Option<Hint>, at: Option<Span>) -> Option<Hint> {
    match hint {
        None => None,
        Some(hint) => Some(hint.placed(at)),
    }
}
