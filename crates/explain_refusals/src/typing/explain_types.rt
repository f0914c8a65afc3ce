//! Explanations of type faults.

use crate::explanation::{Explanation, Hint, Note, fill, note_of};
use crate::typing::explain_counts::told_of_count;
use crate::typing::explain_formats::told_of_format;
use crate::typing::explain_names_unknown::{told_of_no_function, told_of_unknown};
use crate::typing::type_hints::hint_of_mismatch;
use explain_names::lookup::{LookupKind, bytes_at, function_named, kind_at, last_before};
use explain_names::occurrence::{DisplayType, Occurrence, OccurrenceKind};
use explain_names::occurrences::{function_around, mentions_around};
use explain_names::refused_script::RefusedScript;
use explain_searches::scopes::loop_since;
use explain_searches::type_mismatch::{ExpectedType, MismatchSearch, first_mismatch, keys_of, one};
use lexer::token::Span;
use std::alloc::{AllocError, Allocator};
use syntax_trees::tree::{Base, Function, Keys, Shape};
use types::fault::TypeFault;

/// Returns the explanation of a script that is not well typed.
pub fn told_of_types<A: Allocator>(
    refused: &RefusedScript<'_, A>,
    fault: TypeFault,
) -> Result<Explanation, AllocError> {
    match fault {
        TypeFault::Unknown(at) => told_of_unknown(refused, at),
        TypeFault::Declared(at) => told_of_declared(refused, at),
        TypeFault::Mismatch(at) => told_of_mismatch(refused, at),
        TypeFault::WrongCount(at) => told_of_count(refused, at),
        TypeFault::BadFormat(at) => told_of_format(refused.alloc, bytes_at(refused.text, at)),
        TypeFault::NotAFunction(at) => told_of_no_function(refused, at),
        TypeFault::Memory => Explanation::plain(refused.alloc, "no memory"),
    }
}

fn told_of_declared<A: Allocator>(
    refused: &RefusedScript<'_, A>,
    at: Span,
) -> Result<Explanation, AllocError> {
    let name = bytes_at(refused.text, at);
    match function_around(at.from, refused.script) {
        Some(one) if one.name.span == at => told_of_function(refused, name, at),
        _ => {
            let occurrences = mentions_around(refused.alloc, at.from, refused.script)?;
            let listed = occurrences.as_slice();
            let first = last_before(refused.text, listed, LookupKind::Declaration, name, at.from);
            let note = note_of("declared at", place_of(first));
            let told = Explanation::of(refused.alloc, "`$0` is already declared", name, note)?;
            let template = match first {
                Some(first) => words_of_declared(refused, listed, first, at)?,
                None => "choose another name",
            };
            Ok(told.with(Hint::filled(refused.alloc, template, &[name])?))
        }
    }
}

/// Returns the place of an occurrence, or `None` if there is none.
fn place_of(occurrence: Option<Occurrence>) -> Option<Span> {
    Some(occurrence?.at)
}

/// Returns the template of the hint about a second declaration. `first`: the first one.
///
/// The variable can be assigned instead if it has no value yet, and if no loop around the place would do that in each
/// turn.
fn words_of_declared<A: Allocator>(
    refused: &RefusedScript<'_, A>,
    occurrences: &[Occurrence],
    first: Occurrence,
    at: Span,
) -> Result<&'static str, AllocError> {
    let kind = kind_at(occurrences, at);
    if kind == Some(OccurrenceKind::Given) {
        return Ok(if function_takes(refused, at) {
            "choose another name: all inputs and outputs have different names"
        } else {
            "choose another name for the loop variable"
        });
    }
    let name = bytes_at(refused.text, at);
    let assigned = LookupKind::Assignment;
    let has_value = last_before(refused.text, occurrences, assigned, name, at.from).is_some();
    let around = loop_since(refused.alloc, refused.text, first.at.from, at.from)?;
    Ok(match kind {
        Some(OccurrenceKind::Assigned) if !has_value && around.is_none() => {
            "leave out the type to assign the variable that is there, $0 = ..;, or choose another name"
        }
        Some(OccurrenceKind::Declared) => "leave out this declaration, or choose another name",
        _ => "choose another name",
    })
}

/// Returns true if a place is that of an input of a function.
fn function_takes<A: Allocator>(refused: &RefusedScript<'_, A>, at: Span) -> bool {
    if let Some(function) = function_around(at.from, refused.script) {
        for input in &function.inputs {
            if input.name.span == at {
                return true;
            }
        }
    }
    false
}

/// Returns the explanation of an expression or a name of a wrong type.
fn told_of_mismatch<A: Allocator>(
    refused: &RefusedScript<'_, A>,
    at: Span,
) -> Result<Explanation, AllocError> {
    let occurrences = mentions_around(refused.alloc, at.from, refused.script)?;
    let search = MismatchSearch {
        text: refused.text,
        script: refused.script,
        occurrences: occurrences.as_slice(),
        at,
    };
    match first_mismatch(&search) {
        None => Explanation::plain(refused.alloc, "wrong type"),
        Some(mismatch) => {
            let mut told = Explanation::plain(refused.alloc, "")?;
            add_wish(&mut told.sentence, refused.text, mismatch.wanted)?;
            match mismatch.wanted {
                ExpectedType::Compared => {}
                ExpectedType::Named => fill(&mut told.sentence, ", found a call", &[])?,
                _ => fill(
                    &mut told.sentence,
                    ", found $0",
                    &[words_of(mismatch.found)],
                )?,
            }
            let listed = occurrences.as_slice();
            let hint = hint_of_mismatch(refused.alloc, refused.text, listed, mismatch, at)?;
            Ok(told.with(hint))
        }
    }
}

/// Appends a phrase for the expected type.
fn add_wish(out: &mut Vec<u8>, text: &[u8], wanted: ExpectedType) -> Result<(), AllocError> {
    match wanted {
        ExpectedType::Sort(sort) | ExpectedType::Literal(sort) | ExpectedType::Operand(sort, _) => {
            fill(out, "expected $0", &[words_of(sort)])
        }
        ExpectedType::Key(array, name) => {
            let key = one(keys_of(array).base());
            fill(out, "expected $0 as key of ", &[words_of(key)])?;
            fill(out, "`$0`", &[bytes_at(text, name)])
        }
        ExpectedType::Element | ExpectedType::Size => fill(out, "expected an array", &[]),
        ExpectedType::Named => fill(out, "expected the name of an array", &[]),
        ExpectedType::Loop => fill(out, "expected an array or a range", &[]),
        ExpectedType::Compared => fill(out, "arrays cannot be compared", &[]),
    }
}

/// Returns a type in words.
fn words_of(sort: DisplayType) -> &'static [u8] {
    let words = match (sort.shape, sort.base) {
        (Shape::Scalar, Base::Int) => "an int",
        (Shape::Scalar, Base::Text) => "a string",
        (Shape::Scalar, Base::Boolean) => "a boolean",
        (Shape::Array(Keys::Numbers), Base::Int) => "an int array",
        (Shape::Array(Keys::Numbers), Base::Text) => "a string array",
        (Shape::Array(Keys::Numbers), Base::Boolean) => "a boolean array",
        (Shape::Array(Keys::Texts), Base::Int) => "an int array with string keys",
        (Shape::Array(Keys::Texts), Base::Text) => "a string array with string keys",
        (Shape::Array(Keys::Texts), Base::Boolean) => "a boolean array with string keys",
    };
    words.as_bytes()
}

/// Returns the explanation of a function whose name is taken.
fn told_of_function<A: Allocator>(
    refused: &RefusedScript<'_, A>,
    name: &[u8],
    at: Span,
) -> Result<Explanation, AllocError> {
    let hint = Hint::plain(
        refused.alloc,
        "choose another name: one name has one function",
    )?;
    let told = match function_named(name, refused.script) {
        Some(first) if first.name.span != at => {
            let note = Some(defined_at(first));
            Explanation::of(
                refused.alloc,
                "function `$0` is already defined",
                name,
                note,
            )?
        }
        _ => Explanation::of(refused.alloc, "`$0` is a built-in function", name, None)?,
    };
    Ok(told.with(hint))
}

/// Returns the note on the definition of a function.
pub fn defined_at<A: Allocator>(function: &Function<A>) -> Note {
    Note {
        words: "it is defined at",
        at: function.name.span,
    }
}
