//! Explanations of faults of single assignment.

use crate::assignment::branch_hints::{hint_of_partly, is_declared_at};
use crate::assignment::loop_hints::hint_of_loop;
use crate::explanation::{Explanation, Hint, Note, note_of};
use assign_check::fault::AssignFault;
use explain_names::lookup::{LookupKind, bytes_at, kind_at, last_before};
use explain_names::occurrence::{DisplayType, Occurrence, OccurrenceKind};
use explain_names::occurrences::{function_around, mentions_around};
use explain_names::partial_assignment::{PartialAssignment, partly_assigned};
use explain_names::refused_script::RefusedScript;
use explain_searches::calls::is_read_behind;
use explain_searches::declared::{rest_of_statement, type_of};
use explain_searches::scopes::occurs_between;
use lexer::token::Span;
use std::alloc::{AllocError, Allocator};
use syntax_trees::tree::Shape;

/// Returns the explanation of a script that is not singly assigned.
pub fn told_of_assignments<A: Allocator>(
    refused: &RefusedScript<'_, A>,
    fault: AssignFault,
) -> Result<Explanation, AllocError> {
    match fault {
        AssignFault::AssignedTwice(at) => told_of_twice(refused, at),
        AssignFault::PartlyAssigned(at) => told_of_partly(refused, at),
        AssignFault::NeverAssigned(at) => told_of_never(refused, at),
        AssignFault::OuterInLoop(at) => told_of_outer(refused, at),
        AssignFault::WholeAndElements(at) => told_of_both(refused, at),
        AssignFault::OutputUnassigned(at) => told_of_output(refused, at),
        AssignFault::Memory => Explanation::plain(refused.alloc, "no memory"),
    }
}

fn told_of_never<A: Allocator>(
    refused: &RefusedScript<'_, A>,
    at: Span,
) -> Result<Explanation, AllocError> {
    let name = bytes_at(refused.text, at);
    let told = Explanation::of(refused.alloc, "`$0` is read but never assigned", name, None)?;
    Ok(told.with(Hint::filled(refused.alloc, "assign it once: $0 = ..;", &[name])?))
}

fn told_of_outer<A: Allocator>(
    refused: &RefusedScript<'_, A>,
    at: Span,
) -> Result<Explanation, AllocError> {
    let name = bytes_at(refused.text, at);
    let occurrences = mentions_around(refused.alloc, at.from, refused.script)?;
    let declared = last_before(
        refused.text,
        occurrences.as_slice(),
        LookupKind::Declaration,
        name,
        at.from,
    );
    let template = "`$0` is assigned in each turn of a loop, but declared outside it";
    let note = note_of("declared at", place_of(declared));
    let told = Explanation::of(refused.alloc, template, name, note)?;
    match declared {
        None => Ok(told),
        Some(declared) => {
            let listed = occurrences.as_slice();
            let hint = hint_of_loop(refused.alloc, refused.text, listed, declared, at)?;
            Ok(told.with(hint))
        }
    }
}

fn told_of_twice<A: Allocator>(
    refused: &RefusedScript<'_, A>,
    at: Span,
) -> Result<Explanation, AllocError> {
    let name = bytes_at(refused.text, at);
    let occurrences = mentions_around(refused.alloc, at.from, refused.script)?;
    let first = last_before(
        refused.text,
        occurrences.as_slice(),
        LookupKind::Assignment,
        name,
        at.from,
    );
    match first {
        Some(first) if first.kind == OccurrenceKind::Given => {
            told_of_read_only(refused, name, first.at)
        }
        _ => {
            let note = note_of("first assigned at", place_of(first));
            let told = Explanation::of(refused.alloc, "`$0` is assigned twice", name, note)?;
            Ok(told.with(hint_of_twice(refused, occurrences.as_slice(), first, at)?))
        }
    }
}

/// Returns the hint about a second assignment.
fn hint_of_twice<A: Allocator>(
    refused: &RefusedScript<'_, A>,
    occurrences: &[Occurrence],
    first: Option<Occurrence>,
    at: Span,
) -> Result<Option<Hint>, AllocError> {
    let name = bytes_at(refused.text, at);
    if is_read_behind(refused.text, at.to, name) {
        let next = hint_of_next(refused, occurrences, at)?;
        if next.is_some() {
            return Ok(next);
        }
    }
    let is_movable = match first {
        Some(first) => {
            is_declared_at(occurrences, first.at)
                && !occurs_between(refused.text, first.at.to, at.from, name)
        }
        None => false,
    };
    let template = if is_movable {
        "declare $0 without a value, or give the new value another name"
    } else {
        "give the new value another name than $0"
    };
    Hint::filled(refused.alloc, template, &[name])
}

/// Returns the hint that declares a new variable for a value that is computed from the old one, or `None` if the
/// statement is not such an assignment or that name is taken.
fn hint_of_next<A: Allocator>(
    refused: &RefusedScript<'_, A>,
    occurrences: &[Occurrence],
    at: Span,
) -> Result<Option<Hint>, AllocError> {
    let text = refused.text;
    let name = bytes_at(text, at);
    let rest = rest_of_statement(text, at.to);
    let mut next = Vec::from_slice(refused.alloc, b"next_")?;
    next.extend_from_slice(name)?;
    let to = text.len();
    let declaration = LookupKind::Declaration;
    let is_taken = last_before(text, occurrences, declaration, next.as_slice(), to).is_some();
    match scalar_of(text, occurrences, name, at.from) {
        Some(sort) if !is_taken && rest.starts_with(b" =") => {
            let template = "give the new value another name: $0$1$2";
            let declared = type_of(sort.base).as_bytes();
            Hint::of_parts(
                refused.alloc,
                template,
                declared,
                next.as_slice(),
                rest,
                rest,
            )
        }
        _ => Ok(None),
    }
}

/// Returns the type of the variable with this name that is declared last before an offset, if it is a scalar.
fn scalar_of(
    text: &[u8],
    occurrences: &[Occurrence],
    name: &[u8],
    before: usize,
) -> Option<DisplayType> {
    let declared = last_before(text, occurrences, LookupKind::Declaration, name, before)?;
    let sort = declared.sort?;
    if sort.shape == Shape::Scalar {
        Some(sort)
    } else {
        None
    }
}

/// Returns the explanation of an assignment to an input or to a loop variable. `declared`: the place of its declaration.
fn told_of_read_only<A: Allocator>(
    refused: &RefusedScript<'_, A>,
    name: &[u8],
    declared: Span,
) -> Result<Explanation, AllocError> {
    let mut is_input = false;
    if let Some(function) = function_around(declared.from, refused.script) {
        for input in &function.inputs {
            is_input = is_input || input.name.span == declared;
        }
    }
    let template = if is_input {
        "`$0` is an input, and inputs are read-only"
    } else {
        "`$0` is a loop variable, and loop variables are read-only"
    };
    let note = note_of("declared at", Some(declared));
    let told = Explanation::of(refused.alloc, template, name, note)?;
    Ok(told.with(Hint::plain(refused.alloc, "give the new value another name")?))
}

/// Returns the explanation of an `if` whose branches assign a variable different numbers of times.
fn told_of_partly<A: Allocator>(
    refused: &RefusedScript<'_, A>,
    at: Span,
) -> Result<Explanation, AllocError> {
    match partly_assigned(refused.alloc, refused.text, refused.script, at)? {
        None => told_of_branches(refused),
        Some(partly) => told_of_branch(refused, partly, at),
    }
}

/// Returns the explanation of such an `if` when the variable could not be determined.
fn told_of_branches<A: Allocator>(
    refused: &RefusedScript<'_, A>,
) -> Result<Explanation, AllocError> {
    let words = "the branches of this `if` assign a variable different numbers of times";
    let told = Explanation::plain(refused.alloc, words)?;
    Ok(told.with(Hint::plain(
        refused.alloc,
        "a branch assigns a variable once: give each further value another name",
    )?))
}

/// Returns the explanation for the variable that one branch of the `if` at a place assigns.
fn told_of_branch<A: Allocator>(
    refused: &RefusedScript<'_, A>,
    partly: PartialAssignment,
    at: Span,
) -> Result<Explanation, AllocError> {
    let name = bytes_at(refused.text, partly.occurrence.at);
    let note = note_of("assigned at", Some(partly.occurrence.at));
    let template = "`$0` is assigned on only some paths through this `if`";
    let told = Explanation::of(refused.alloc, template, name, note)?;
    let occurrences = mentions_around(refused.alloc, at.from, refused.script)?;
    Ok(told.with(hint_of_partly(
        refused.alloc,
        refused.text,
        occurrences.as_slice(),
        partly,
        at,
    )?))
}

/// Returns the explanation of an array that is assigned both whole and by elements.
fn told_of_both<A: Allocator>(
    refused: &RefusedScript<'_, A>,
    at: Span,
) -> Result<Explanation, AllocError> {
    let name = bytes_at(refused.text, at);
    let occurrences = mentions_around(refused.alloc, at.from, refused.script)?;
    let is_element = kind_at(occurrences.as_slice(), at) == Some(OccurrenceKind::Written);
    let wanted = if is_element {
        LookupKind::Assignment
    } else {
        LookupKind::Element
    };
    let first = last_before(refused.text, occurrences.as_slice(), wanted, name, at.from);
    match first {
        Some(first) if first.kind == OccurrenceKind::Given => told_of_input(
            refused, name, first.at,
        ),
        _ => told_of_forms(refused, name, is_element, place_of(first)),
    }
}

/// Returns the place of an occurrence, or `None` if there is none.
fn place_of(occurrence: Option<Occurrence>) -> Option<Span> {
    Some(occurrence?.at)
}

/// Returns the explanation of an element write to an array that is an input. `declared`: the place of its declaration.
fn told_of_input<A: Allocator>(
    refused: &RefusedScript<'_, A>,
    name: &[u8],
    declared: Span,
) -> Result<Explanation, AllocError> {
    let note = note_of("declared at", Some(declared));
    let hint = Hint::plain(
        refused.alloc,
        "write to an output instead, as in (int B[]) f(int A[]) { foreach v, i in A { B[i] = v; } }",
    )?;
    let template = "`$0` is an input, and inputs are read-only";
    Ok(Explanation::of(refused.alloc, template, name, note)?.with(hint))
}

/// Returns the explanation of an array that is assigned here in one form and elsewhere in the other. `first`: the place
/// of the other form.
fn told_of_forms<A: Allocator>(
    refused: &RefusedScript<'_, A>,
    name: &[u8],
    is_element: bool,
    first: Option<Span>,
) -> Result<Explanation, AllocError> {
    let (template, note) = if is_element {
        (
            "`$0` is already assigned as a whole",
            "assigned as a whole at",
        )
    } else {
        (
            "`$0` is assigned as a whole here, and by elements elsewhere",
            "an element is written at",
        )
    };
    let told = Explanation::of(refused.alloc, template, name, note_of(note, first))?;
    Ok(told.with(Hint::filled(
        refused.alloc,
        "write all of it at once, $0 = [..];, or each element by its key, $0[0] = ..;",
        &[name],
    )?))
}

fn told_of_output<A: Allocator>(
    refused: &RefusedScript<'_, A>,
    at: Span,
) -> Result<Explanation, AllocError> {
    let mut is_array = false;
    let mut note = None;
    if let Some(function) = function_around(at.from, refused.script) {
        note = Some(Note {
            words: "its function is defined at",
            at: function.name.span,
        });
        for output in &function.outputs {
            if output.name.span == at && output.shape != Shape::Scalar {
                is_array = true;
            }
        }
    }
    let name = bytes_at(refused.text, at);
    let told = Explanation::of(refused.alloc, "output `$0` is never assigned", name, note)?;
    let template = if is_array {
        "assign it in its function, $0 = [..];, or write its elements, $0[0] = ..;"
    } else {
        "assign it in its function: $0 = ..;"
    };
    Ok(told.with(Hint::filled(refused.alloc, template, &[name])?))
}
