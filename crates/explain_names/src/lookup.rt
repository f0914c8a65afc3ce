//! Lookups among the occurrences of names, and of functions by name.
ghost use Rattle.std.specs.Prelude.{◌≡◌, IfOk, option_map};
ghost use Rattle.syntax_trees.specs.View.{composite_of, part_of, tree_of};
ghost use Rattle.explain_names.specs.Lookups.{bytes_at, fits, function_named, last_fitting, wants};
ghost use Rattle.explain_names.specs.Mentions.{mentions_around};

use crate::occurrence::{Occurrence, OccurrenceKind};
use crate::occurrences::mentions_around;
use crate::refused_script::RefusedScript;
use lexer::token::Span;
use std::alloc::{AllocError, Allocator};
use syntax_trees::tree::{Function, Item, Script};

/// The kind of occurrence that is looked up.
#[derive(Clone, Copy, Debug, PartialEq, Eq)]
pub enum LookupKind {
    /// A declaration of a variable.
    Declaration,
    /// An assignment by name. Inputs and loop variables are assigned where they are declared.
    Assignment,
    /// A write of an element.
    Element,
}

impl LookupKind {
    /// Returns true if an occurrence of this kind matches.
    pub fn takes(self, kind: OccurrenceKind) -> bool
        ensures { result ≡ wants self kind }
    {
        match self {
            LookupKind::Declaration => {
                matches!(
                    kind,
                    OccurrenceKind::Declared | OccurrenceKind::Output | OccurrenceKind::Given
                )
            }
            LookupKind::Assignment => matches!(
                kind,
                OccurrenceKind::Assigned | OccurrenceKind::Given
            ),
            LookupKind::Element => matches!(kind, OccurrenceKind::Written),
        }
    }
}

/// Returns the bytes of a span, or no bytes if the text has no such span.
pub fn bytes_at(text: &[u8], at: Span) -> &[u8]
    ensures { result.now ≡ bytes_at text.now at }
{
    if at.from <= at.to && at.to <= text.len() {
        &text[at.from..at.to]
    } else {
        &[]
    }
}

/// Returns the last occurrence of a name that is of the wanted kind and ends at or before an offset.
pub fn last_before(
    text: &[u8],
    occurrences: &[Occurrence],
    wanted: LookupKind,
    name: &[u8],
    before: usize,
) -> Option<Occurrence>
    ensures { result ≡ last_fitting (fits text.now wanted name.now before) occurrences.now }
{
    let mut found = None;
    for occurrence in occurrences {
        if fits(text, wanted, name, before, *occurrence) {
            found = Some(*occurrence);
        }
    }
    found
}

fn fits(text: &[u8], wanted: LookupKind, name: &[u8], before: usize, occurrence: Occurrence) -> bool
    ensures { result ≡ fits text.now wanted name.now before occurrence }
{
    wanted.takes(occurrence.kind)
        && occurrence.at.to <= before
        && bytes_at(text, occurrence.at) == name
}

/// Returns the first function with this name.
pub fn function_named<'a, A: Allocator>(
    name: &[u8],
    script: &'a Script<A>,
) -> Option<&'a Function<A>>
    ensures { option_map (λ f. composite_of f.now) result ≡ function_named name.now (tree_of script.entry.now) }
{
    for item in &script.items {
        if let Item::Function(one) = item {
            if one.name.text.as_slice() == name {
                return Some(one);
            }
        }
    }
    None
}

/// Returns the span of the last occurrence of a name that is of the wanted kind and ends at or before an offset.
///
/// The occurrences are those of the function that contains `name`, or else those of the script's own statements.
pub fn place_before<A: Allocator>(
    refused: &RefusedScript<'_, A>,
    name: Span,
    wanted: LookupKind,
    before: usize,
) -> Result<Option<Span>, AllocError>
    ensures { IfOk result (λ place. place ≡ option_map (λ m. m.at)
        (last_fitting (fits refused.now.text.now wanted (bytes_at refused.now.text.now name) before)
        (mentions_around name.from (tree_of refused.now.script.now)))) }
{
    let text = refused.text;
    let occurrences = mentions_around(refused.alloc, name.from, refused.script)?;
    match last_before(
        text,
        occurrences.as_slice(),
        wanted,
        bytes_at(text, name),
        before,
    ) {
        None => Ok(None),
        Some(occurrence) => Ok(Some(occurrence.at)),
    }
}

/// Returns the kind of the last listed occurrence with this span.
pub fn kind_at(occurrences: &[Occurrence], at: Span) -> Option<OccurrenceKind> {
    let mut kind = None;
    for occurrence in occurrences {
        if occurrence.at == at {
            kind = Some(occurrence.kind);
        }
    }
    kind
}
