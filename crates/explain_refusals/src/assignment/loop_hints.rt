//! Hints about variables that a loop assigns in each turn.

use crate::explanation::{Hint, fill};
use explain_names::lookup::{LookupKind, bytes_at, last_before};
use explain_names::occurrence::{Occurrence, OccurrenceKind};
use explain_searches::calls::{is_read_behind, value_behind};
use explain_searches::scopes::{LoopHeader, loop_since, occurs_between};
use lexer::token::{Span, TokenKind};
use std::alloc::{AllocError, Global};
use syntax_trees::tree::{Keys, Shape};

/// The purpose of an assignment in each turn of a loop, as far as its tokens show it.
#[derive(Clone, Copy, Debug, PartialEq, Eq)]
enum TurnValue {
    /// Part of a whole array.
    Whole,
    /// A value that is computed from that of the previous turn.
    Carried,
    /// A value that is replaced if a comparison with the value of the previous turn holds.
    Chosen,
    /// A mark that a condition holds in some turn.
    Mark,
    /// Another value.
    Other,
}

/// Returns the hint about a variable that is assigned at a place in each turn of a loop.
pub fn hint_of_loop(
    alloc: Global,
    text: &[u8],
    occurrences: &[Occurrence],
    declared: Occurrence,
    at: Span,
) -> Result<Option<Hint>, AllocError> {
    let Some(header) = loop_since(alloc, text, declared.at.from, at.from)? else {
        return Ok(None);
    };
    let name = bytes_at(text, at);
    let purpose = purpose_of(text, declared, header, at);
    let is_output = declared.kind == OccurrenceKind::Output;
    let array = if is_output { b"t".as_slice() } else { name };
    let outer = loop_since(alloc, text, declared.at.from, header.at)?;
    let is_nested = purpose != TurnValue::Whole && outer.is_some();
    let key = key_of(alloc, outer, header, is_nested)?;
    let parts = [name, array, key.as_slice(), header.value, header.array];
    if is_unordered(text, occurrences, header, purpose) {
        let template =
            "the keys of $4 are strings, which have no order: keep the entries under numbers too, and go through those";
        return Hint::filled(alloc, template, &parts);
    }
    let mut words = Vec::new(alloc);
    fill(&mut words, beginning_of(header.number().is_empty()), &parts)?;
    fill(&mut words, words_of(purpose, is_output), &parts)?;
    fill(&mut words, ending_of(purpose, is_output), &parts)?;
    if is_nested {
        fill(&mut words, ", where n is the number of inner turns", &parts)?;
    }
    Ok(Some(Hint { words, at: None }))
}

/// Returns the key that numbers the turns: that of the loop, or a name for it if there is none. For nested loops it is
/// computed from both numbers.
fn key_of(
    alloc: Global,
    outer: Option<LoopHeader<'_>>,
    header: LoopHeader<'_>,
    is_nested: bool,
) -> Result<Vec<u8>, AllocError> {
    let mut key = Vec::new(alloc);
    match outer {
        Some(outer) if is_nested => {
            let parts = [key_name(outer), key_name(header)];
            fill(&mut key, "$0 * n + $1", &parts)?;
        }
        _ => key.extend_from_slice(key_name(header))?,
    }
    Ok(key)
}

/// Returns the name that numbers the turns of a loop, or a name for it if there is none.
fn key_name<'t>(header: LoopHeader<'t>) -> &'t [u8] {
    let number = header.number();
    if !number.is_empty() {
        number
    } else if header.value == b"k".as_slice() {
        b"i".as_slice()
    } else {
        b"k".as_slice()
    }
}

/// Returns true if a value is computed from that of the previous turn, in a loop over an array with string keys.
fn is_unordered(
    text: &[u8],
    occurrences: &[Occurrence],
    header: LoopHeader<'_>,
    purpose: TurnValue,
) -> bool {
    if !matches!(purpose, TurnValue::Carried | TurnValue::Chosen) {
        return false;
    }
    let declaration = LookupKind::Declaration;
    match last_before(text, occurrences, declaration, header.array, header.at) {
        Some(array) => match array.sort {
            Some(sort) => sort.shape == Shape::Array(Keys::Texts),
            None => false,
        },
        None => false,
    }
}

/// Returns the purpose of the assignment at a place.
fn purpose_of(text: &[u8], declared: Occurrence, header: LoopHeader<'_>, at: Span) -> TurnValue {
    let name = bytes_at(text, at);
    if let Some(sort) = declared.sort {
        if sort.shape != Shape::Scalar {
            return TurnValue::Whole;
        }
    }
    if is_read_behind(text, at.to, name) {
        TurnValue::Carried
    } else if occurs_between(text, header.at, at.from, name) {
        TurnValue::Chosen
    } else if matches!(
        value_behind(text, at.to),
        TokenKind::True | TokenKind::False
    ) {
        TurnValue::Mark
    } else {
        TurnValue::Other
    }
}

/// Returns the template of the beginning, which gives the loop a key if it has no number of its turns.
fn beginning_of(wants_key: bool) -> &'static str {
    if wants_key {
        "number the turns, foreach $3, $2 in $4, and "
    } else {
        ""
    }
}

/// Returns the template of what to write in the loop.
fn words_of(purpose: TurnValue, is_output: bool) -> &'static str {
    match purpose {
        TurnValue::Whole if is_output => "write elements of it: $0[$2] = ..;",
        TurnValue::Whole =>
            "write elements of it, $0[$2] = ..;, or move its declaration into the loop",
        TurnValue::Carried => {
            "keep the value of each turn in an array, with the first one before the loop: $1[$2] = $1[$2 - 1] + ..;"
        }
        TurnValue::Chosen => {
            "keep the value of each turn in an array, with the first one before the loop, and write it in both branches: $1[$2] = ..; or $1[$2] = $1[$2 - 1];"
        }
        TurnValue::Mark => "mark the turns in an array, hit[$2] = 1;",
        TurnValue::Other if is_output => "keep the value of each turn in an array, $1[$2] = ..;",
        TurnValue::Other => {
            "keep the value of each turn in an array, $0[$2] = ..;, or move the declaration of $0 into the loop"
        }
    }
}

/// Returns the template of what to write after the loop.
fn ending_of(purpose: TurnValue, is_output: bool) -> &'static str {
    match purpose {
        TurnValue::Mark if is_output => ", and assign $0 after the loop: $0 = size(hit) > 0;",
        TurnValue::Mark => ", and test size(hit) > 0 after the loop",
        TurnValue::Whole => "",
        _ if is_output => ", and assign $0 after the loop: $0 = $1[..];",
        _ => "",
    }
}
