//! Explanations of unknown variables and functions.

use crate::explanation::{Explanation, Hint, note_of};
use explain_hints::functions::on_function;
use explain_hints::nearest::{NearMatch, nearer};
use explain_hints::token_context::TokenContext;
use explain_hints::variables::on_variable;
use explain_names::lookup::{LookupKind, bytes_at, kind_at, last_before, place_before};
use explain_names::occurrence::{DisplayType, Occurrence, OccurrenceKind};
use explain_names::occurrences::{function_around, mentions_around};
use explain_names::refused_script::RefusedScript;
use explain_searches::calls::is_read_behind;
use explain_searches::declared::{
    rest_of_statement, sort_behind, sort_of_target, write_declaration,
};
use explain_searches::scopes::loop_before;
use explain_text::words::write_str;
use lexer::token::{Span, TokenKind};
use std::alloc::{AllocError, Allocator, Global};
use syntax_trees::tree::{Item, Keys, Shape};

/// The built-in functions.
static BUILT_IN: [&str; 6] = ["strcat", "fromint", "toint", "size", "printf", "assert"];

/// Returns the explanation of a name that is not a visible variable.
pub fn told_of_unknown<A: Allocator>(
    refused: &RefusedScript<'_, A>,
    at: Span,
) -> Result<Explanation, AllocError> {
    let name = bytes_at(refused.text, at);
    if let Some(outside) = outside_of_function(refused, at)? {
        return told_of_outside(refused, name, outside);
    }
    let occurrences = mentions_around(refused.alloc, at.from, refused.script)?;
    let declaration = LookupKind::Declaration;
    let to = refused.text.len();
    match last_before(refused.text, occurrences.as_slice(), declaration, name, to) {
        Some(other) => told_of_invisible(refused, other, at),
        None => {
            let told = Explanation::of(refused.alloc, "unknown variable `$0`", name, None)?;
            Ok(told.with(hint_of_unknown(refused, at, name)?))
        }
    }
}

/// Returns the explanation of a variable of the script that is used in a function.
fn told_of_outside<A: Allocator>(
    refused: &RefusedScript<'_, A>,
    name: &[u8],
    outside: Span,
) -> Result<Explanation, AllocError> {
    let note = note_of("declared by the script at", Some(outside));
    let template = "variable `$0` is not visible in a function";
    let told = Explanation::of(refused.alloc, template, name, note)?;
    Ok(told.with(Hint::filled(
        refused.alloc,
        "functions see only their own variables: make $0 an input",
        &[name],
    )?))
}

/// Returns the explanation of a variable that is declared at another place, where it is not visible here.
fn told_of_invisible<A: Allocator>(
    refused: &RefusedScript<'_, A>,
    other: Occurrence,
    at: Span,
) -> Result<Explanation, AllocError> {
    let name = bytes_at(refused.text, at);
    let is_later = other.at.from > at.from;
    let words = if is_later {
        "declared only later, at"
    } else {
        "declared in another block at"
    };
    let template = "variable `$0` is not visible here";
    let told = Explanation::of(
        refused.alloc,
        template,
        name,
        note_of(words, Some(other.at)),
    )?;
    if is_later {
        let hint = Hint::plain(
            refused.alloc,
            "move the declaration up, before its first use",
        )?;
        return Ok(told.with(hint));
    }
    let left = loop_before(refused.alloc, refused.text, other.at.to, at.from)?;
    let template = match left {
        _ if other.kind == OccurrenceKind::Given => {
            "a loop variable is visible only in its loop: write what is needed of it to an array there"
        }
        Some(_) => {
            "a variable of a loop has a value for each turn: declare an array before the loop, and write $0[..] = ..; in it"
        }
        None => {
            "a variable is visible to the end of its block: declare it before the block, and assign it there without a type"
        }
    };
    Ok(told.with(Hint::filled(refused.alloc, template, &[name])?))
}

/// Returns the place at which the script declares a name that is used in a function but not declared in it.
fn outside_of_function<A: Allocator>(
    refused: &RefusedScript<'_, A>,
    at: Span,
) -> Result<Option<Span>, AllocError> {
    if function_around(at.from, refused.script).is_none() {
        return Ok(None);
    }
    let here = place_before(refused, at, LookupKind::Declaration, refused.text.len())?;
    if here.is_some() {
        return Ok(None);
    }
    let occurrences = mentions_around(refused.alloc, refused.text.len(), refused.script)?;
    let name = bytes_at(refused.text, at);
    let declared = last_before(
        refused.text,
        occurrences.as_slice(),
        LookupKind::Declaration,
        name,
        refused.text.len(),
    );
    match declared {
        None => Ok(None),
        Some(occurrence) => Ok(Some(occurrence.at)),
    }
}

/// Returns the hint about an undeclared name: the nearest variable, or else a suggested declaration.
///
/// Before a declaration is suggested, the context of the name is looked at. For a name that is read, so are words of
/// other languages and functions without brackets.
fn hint_of_unknown<A: Allocator>(
    refused: &RefusedScript<'_, A>,
    at: Span,
    name: &[u8],
) -> Result<Option<Hint>, AllocError> {
    let occurrences = mentions_around(refused.alloc, at.from, refused.script)?;
    let near = nearest_variable(refused.alloc, refused.text, occurrences.as_slice(), at)?;
    if let Some(near) = near {
        return Hint::filled(refused.alloc, "did you mean $0?", &[near.name]);
    }
    let kind = kind_at(occurrences.as_slice(), at);
    let found = match kind {
        None => hint_of_reading(refused, occurrences.as_slice(), at, name)?,
        Some(_) => hint_of_writing(refused, occurrences.as_slice(), at)?,
    };
    if found.is_some() {
        return Ok(found);
    }
    let sort = sort_behind(refused, occurrences.as_slice(), at);
    hint_of_declaration(refused, at, kind, sort)
}

/// Returns the hint about an undeclared name that is read, or `None` if nothing is known about it.
fn hint_of_reading<A: Allocator>(
    refused: &RefusedScript<'_, A>,
    occurrences: &[Occurrence],
    at: Span,
    name: &[u8],
) -> Result<Option<Hint>, AllocError> {
    if let Some(words) = on_variable(name) {
        return Hint::plain(refused.alloc, words);
    }
    if let Some(near) = nearest_function(refused, name)? {
        if near.distance == 0 {
            return Hint::filled(refused.alloc, "call the function: $0(..)", &[name]);
        }
    }
    if let Some(array) = array_of_key(refused, occurrences, at)? {
        let template = "string keys are in quotes: $0[\"$1\"]";
        return Hint::filled(refused.alloc, template, &[array, name]);
    }
    if let Some(function) = function_with_output(refused, name) {
        let parts = [name, bytes_at(refused.text, function)];
        return Hint::filled(
            refused.alloc,
            "$0 is an output of $1: call it, $1(..)",
            &parts,
        );
    }
    let around = TokenContext::new(refused.alloc, refused.text, at.from)?;
    if around.last.kind == TokenKind::In {
        return Hint::filled(
            refused.alloc,
            "declare the array before: int $0[];",
            &[name],
        );
    }
    Ok(None)
}

/// Returns the name of the array with string keys of which the name at a place is the key.
fn array_of_key<'a, A: Allocator>(
    refused: &RefusedScript<'a, A>,
    occurrences: &[Occurrence],
    at: Span,
) -> Result<Option<&'a [u8]>, AllocError> {
    let around = TokenContext::new(refused.alloc, refused.text, at.from)?;
    if around.last.kind != TokenKind::OpenSquare || around.next.kind != TokenKind::CloseSquare {
        return Ok(None);
    }
    let array = bytes_at(refused.text, around.before_last.span);
    let declaration = LookupKind::Declaration;
    let declared = last_before(refused.text, occurrences, declaration, array, at.from);
    match declared {
        Some(declared) => match declared.sort {
            Some(sort) if sort.shape == Shape::Array(Keys::Texts) => Ok(Some(array)),
            _ => Ok(None),
        },
        None => Ok(None),
    }
}

/// Returns the place of the name of the first function that has an output with this name.
fn function_with_output<A: Allocator>(refused: &RefusedScript<'_, A>, name: &[u8]) -> Option<Span> {
    for item in &refused.script.items {
        if let Item::Function(function) = item {
            for output in &function.outputs {
                if output.name.text.as_slice() == name {
                    return Some(function.name.span);
                }
            }
        }
    }
    None
}

/// Returns the hint about an undeclared name that is assigned, or `None` if nothing is known about it.
fn hint_of_writing<A: Allocator>(
    refused: &RefusedScript<'_, A>,
    occurrences: &[Occurrence],
    at: Span,
) -> Result<Option<Hint>, AllocError> {
    let text = refused.text;
    if let Some(function) = function_around(at.from, refused.script) {
        if let [output] = function.outputs.as_slice() {
            let name = output.name.text.as_slice();
            if !is_assigned(text, occurrences, name) {
                let parts = [function.name.text.as_slice(), name];
                let template = "the output of $0 is $1: assign $1";
                return Hint::filled(refused.alloc, template, &parts);
            }
        }
    }
    let around = TokenContext::new(refused.alloc, text, at.from)?;
    if around.first.kind != TokenKind::OpenRound {
        return Ok(None);
    }
    let sort = sort_of_target(refused, around.first.span.from, at);
    let mut words = Vec::from_slice(refused.alloc, b"declare it before: ")?;
    write_declared(&mut words, sort, bytes_at(text, at), b";")?;
    Ok(Some(Hint { words, at: None }))
}

/// Returns true if a name is assigned, or elements of it are.
fn is_assigned(text: &[u8], occurrences: &[Occurrence], name: &[u8]) -> bool {
    let to = text.len();
    last_before(text, occurrences, LookupKind::Assignment, name, to).is_some()
        || last_before(text, occurrences, LookupKind::Element, name, to).is_some()
}

/// Returns the hint that a name has to be declared, with a guess at its type.
fn hint_of_declaration<A: Allocator>(
    refused: &RefusedScript<'_, A>,
    at: Span,
    kind: Option<OccurrenceKind>,
    sort: DisplayType,
) -> Result<Option<Hint>, AllocError> {
    let rest = rest_of_statement(refused.text, at.to);
    let is_here = kind == Some(OccurrenceKind::Assigned)
        && (rest.starts_with(b" =") || rest.starts_with(b"="))
        && !is_read_behind(refused.text, at.to, bytes_at(refused.text, at));
    let has_value = kind != Some(OccurrenceKind::Written) && sort.shape == Shape::Scalar;
    let mut words = Vec::new(refused.alloc);
    if is_here {
        write_str(&mut words, "declare it: ")?;
        write_declared(&mut words, sort, bytes_at(refused.text, at), rest)?;
    } else {
        let behind = if has_value {
            b" = ..;".as_slice()
        } else {
            b";".as_slice()
        };
        write_str(&mut words, "declare it before: ")?;
        write_declared(&mut words, sort, bytes_at(refused.text, at), behind)?;
    }
    Ok(Some(Hint { words, at: None }))
}

/// Appends a declaration of a name, followed by the given text.
fn write_declared(
    words: &mut Vec<u8>,
    sort: DisplayType,
    name: &[u8],
    behind: &[u8],
) -> Result<(), AllocError> {
    write_declaration(words, sort, name)?;
    words.extend_from_slice(behind)?;
    Ok(())
}

/// Returns the nearest variable that is declared before a place.
fn nearest_variable<'t>(
    alloc: Global,
    text: &'t [u8],
    occurrences: &[Occurrence],
    at: Span,
) -> Result<Option<NearMatch<'t>>, AllocError> {
    let mut near = None;
    for occurrence in occurrences {
        if LookupKind::Declaration.takes(occurrence.kind) && occurrence.at.to <= at.from {
            near = nearer(
                alloc,
                bytes_at(text, at),
                near,
                bytes_at(text, occurrence.at),
            )?;
        }
    }
    Ok(near)
}

/// Returns the explanation of a called name that is not a function.
pub fn told_of_no_function<A: Allocator>(
    refused: &RefusedScript<'_, A>,
    at: Span,
) -> Result<Explanation, AllocError> {
    let name = bytes_at(refused.text, at);
    let declared = place_before(refused, at, LookupKind::Declaration, at.from)?;
    if declared.is_some() {
        let told = Explanation::of(
            refused.alloc,
            "`$0` is a variable, not a function",
            name,
            note_of("declared at", declared),
        )?;
        let template = "an element is written $0[..], and a product $0 * (..)";
        return Ok(told.with(Hint::filled(refused.alloc, template, &[name])?));
    }
    let hint = match on_function(name) {
        Some(words) => Hint::plain(refused.alloc, words)?,
        None => hint_of_function(refused, name)?,
    };
    Ok(Explanation::of(refused.alloc, "unknown function `$0`", name, None)?.with(hint))
}

/// Returns the hint about an unknown function: the nearest function, or the list of the built-in ones.
fn hint_of_function<A: Allocator>(
    refused: &RefusedScript<'_, A>,
    name: &[u8],
) -> Result<Option<Hint>, AllocError> {
    match nearest_function(refused, name)? {
        Some(near) => Hint::filled(refused.alloc, "did you mean $0?", &[near.name]),
        None => Hint::filled(
            refused.alloc,
            "define it in the script, (int r) $0(int n) { r = n + 1; }; strcat, fromint, toint, size, printf and assert are built in",
            &[name],
        ),
    }
}

/// Returns the nearest function, among those of the script and the built-in ones.
fn nearest_function<'a, A: Allocator>(
    refused: &RefusedScript<'a, A>,
    name: &[u8],
) -> Result<Option<NearMatch<'a>>, AllocError> {
    let mut near = None;
    for item in &refused.script.items {
        if let Item::Function(function) = item {
            let other = bytes_at(refused.text, function.name.span);
            near = nearer(refused.alloc, name, near, other)?;
        }
    }
    for other in &BUILT_IN {
        near = nearer(refused.alloc, name, near, other.as_bytes())?;
    }
    Ok(near)
}
