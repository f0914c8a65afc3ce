//! Diagnostics for refused scripts: the first broken rule of a text, with its place and its explanation.
//!
//! A text is parsed, type checked and checked for single assignment once more. The first fault becomes the diagnostic.
ghost use Rattle.std.specs.Prelude.{◌≡◌, Some, IfOk, MatchOption};
ghost use Rattle.syntax.specs.Refusals as parsing;
ghost use Rattle.types.specs.Faults as type_faults;
ghost use Rattle.assign_check.specs.Places as assign_places;
ghost use Rattle.explain_refusals.specs.Verdicts.{BeginsAt, Explains, IsRefusedAt, IsScript};

use crate::assignment::explain_assignments::told_of_assignments;
use crate::explanation::{Explanation, Hint, Note};
use crate::texts::told_of_text;
use crate::typing::explain_types::told_of_types;
use assign_check::fault::AssignFault;
use explain_names::refused_script::RefusedScript;
pub use explain_searches::declared::write_declaration;
use explain_text::position::position_of;
use explain_text::quote::add_quote;
use explain_text::words::add_place;
use lexer::token::Span;
use std::alloc::{AllocError, Allocator, Global};
use syntax::error::ParseFault;
use syntax::parser::parse;
use syntax_trees::tree::Script;
use types::fault::TypeFault;

/// The refusal of a text: the place, the broken rule by number and name, as `S1 AssignedTwice`, and its explanation.
#[derive(Debug, Drop)]
pub struct Diagnostic {
    pub at: Span,
    pub rule: String,
    pub told: Explanation,
}

/// Returns the refusal of a text, or `None` if the text is accepted.
///
/// # Errors
///
/// Returns `AllocError` if an allocation fails.
#[tactic(auto, using(crate::proofs::Verdicts::accepted, crate::proofs::Verdicts::unread, crate::proofs::Verdicts::ill_typed))]
pub fn refusal_of(alloc: Global, text: &[u8]) -> Result<Option<Diagnostic>, AllocError>
    ensures { IfOk result (λ found. MatchOption found (IsScript text.now) (λ refusal. IsRefusedAt text.now refusal.at)) }
{
    let script = match parse(alloc, text) {
        Ok(script) => script,
        Err(fault) => {
            let refusal = unread(alloc, text, fault)?;
            return Ok(Some(refusal));
        }
    };
    let typed = match types::check(alloc, &script) {
        Ok(typed) => typed,
        Err(fault) => {
            let refusal = ill_typed(alloc, text, &script, fault)?;
            return Ok(Some(refusal));
        }
    };
    match assign_check::check(alloc, &script, &typed) {
        Ok(()) => Ok(None),
        Err(fault) => {
            let refusal = not_single(alloc, text, &script, fault)?;
            Ok(Some(refusal))
        }
    }
}

/// Creates the refusal of a text that does not parse. An allocation failure is returned as an error.
fn unread(alloc: Global, text: &[u8], fault: ParseFault) -> Result<Diagnostic, AllocError>
    ensures { IfOk result (λ refusal. parsing.place_of fault ≡ Some refusal.at) }
{
    let Some(at) = fault.span() else {
        return Err(AllocError);
    };
    let told = told_of_text(alloc, text, fault)?;
    let rule = format!(in alloc; "{fault}")?;
    Ok(Diagnostic { at, rule, told })
}

/// Creates the refusal of a script that is not well typed. An allocation failure is returned as an error.
fn ill_typed<A: Allocator>(
    alloc: Global,
    text: &[u8],
    script: &Script<A>,
    fault: TypeFault,
) -> Result<Diagnostic, AllocError>
    ensures { IfOk result (λ refusal. type_faults.span_of fault ≡ Some refusal.at) }
{
    let Some(at) = fault.span() else {
        return Err(AllocError);
    };
    let told = told_of_types(
        &RefusedScript {
            alloc,
            text,
            script,
        },
        fault,
    )?;
    let rule = format!(in alloc; "{fault}")?;
    Ok(Diagnostic { at, rule, told })
}

/// Creates the refusal of a script that is not singly assigned. An allocation failure is returned as an error.
fn not_single<A: Allocator>(
    alloc: Global,
    text: &[u8],
    script: &Script<A>,
    fault: AssignFault,
) -> Result<Diagnostic, AllocError>
    ensures { IfOk result (λ refusal. assign_places.span_of fault ≡ Some refusal.at) }
{
    let Some(at) = fault.span() else {
        return Err(AllocError);
    };
    let told = told_of_assignments(
        &RefusedScript {
            alloc,
            text,
            script,
        },
        fault,
    )?;
    let rule = format!(in alloc; "{fault}")?;
    Ok(Diagnostic { at, rule, told })
}

/// Returns the diagnostic for a text that is refused, or `None` if it is accepted.
///
/// Its first line is `FILE:LINE:COLUMN: S1 AssignedTwice: x is assigned a second time`. The source line with the place
/// marked follows, then a related place and a hint, if there are any.
///
/// # Errors
///
/// Returns `AllocError` if an allocation fails.
#[tactic(auto, using(crate::proofs::Verdicts::explains))]
pub fn explained(alloc: Global, file: &str, text: &[u8]) -> Result<Option<Vec<u8>>, AllocError>
    ensures { IfOk result (λ told. MatchOption told (IsScript text.now) (λ words. Explains file.now text.now words.items)) }
{
    match refusal_of(alloc, text)? {
        None => Ok(None),
        Some(refusal) => {
            let words = shown(alloc, file, text, &refusal)?;
            Ok(Some(words))
        }
    }
}

/// Formats a refusal: its place, followed by the rule and the explanation.
///
/// # Errors
///
/// Returns `AllocError` if an allocation fails.
#[tactic(auto, using(crate::proofs::Verdicts::begins))]
pub fn shown(
    alloc: Global,
    file: &str,
    text: &[u8],
    refusal: &Diagnostic,
) -> Result<Vec<u8>, AllocError>
    ensures { IfOk result (λ words. BeginsAt file.now text.now refusal.now.at words.items) }
{
    let rest = behind_place(alloc, file, text, refusal)?;
    let position = position_of(text, refusal.at.from.min(text.len()));
    let mut words = Vec::new(alloc);
    add_place(&mut words, file, position)?;
    words.extend_from_slice(b": ")?;
    words.extend_from_slice(rest.as_slice())?;
    Ok(words)
}

/// Formats the part of a diagnostic after the place: the rule, the sentence, the source line, the related place and the
/// hint.
fn behind_place(
    alloc: Global,
    file: &str,
    text: &[u8],
    refusal: &Diagnostic,
) -> Result<Vec<u8>, AllocError> {
    let mut out = Vec::new(alloc);
    add_behind_place(&mut out, file, text, refusal)?;
    Ok(out)
}

fn add_behind_place(
    out: &mut Vec<u8>,
    file: &str,
    text: &[u8],
    refusal: &Diagnostic,
) -> Result<(), AllocError> {
    let told = &refusal.told;
    out.extend_from_slice(refusal.rule.as_bytes())?;
    out.extend_from_slice(b": ")?;
    out.extend_from_slice(told.sentence.as_slice())?;
    out.push(b'\n')?;
    add_quote(out, text, refusal.at)?;
    if let Some(note) = told.note {
        add_note(out, file, text, note)?;
    }
    match &told.hint {
        Some(hint) => add_hint(out, file, text, hint),
        None => Ok(()),
    }
}

/// Appends the line of a hint, and the source line of its place if it has one.
fn add_hint(out: &mut Vec<u8>, file: &str, text: &[u8], hint: &Hint) -> Result<(), AllocError> {
    out.extend_from_slice(b"hint: ")?;
    out.extend_from_slice(hint.words.as_slice())?;
    let Some(at) = hint.at else {
        out.push(b'\n')?;
        return Ok(());
    };
    out.extend_from_slice(b" at ")?;
    add_place(out, file, position_of(text, at.from.min(text.len())))?;
    out.push(b'\n')?;
    add_quote(out, text, at)
}

/// Appends the line of a related place.
fn add_note(out: &mut Vec<u8>, file: &str, text: &[u8], note: Note) -> Result<(), AllocError> {
    let position = position_of(text, note.at.from.min(text.len()));
    out.extend_from_slice(b"    ")?;
    out.extend_from_slice(note.words.as_bytes())?;
    out.push(b' ')?;
    add_place(out, file, position)?;
    out.push(b'\n')?;
    Ok(())
}
