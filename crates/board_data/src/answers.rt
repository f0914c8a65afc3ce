//! The answers to the needs of an item, and comparison of given answers with them.

ghost use Rattle.std.specs.Prelude.{◌≡◌, ◌↔◌, ℕ, map, option_copied, IfOk, OnOk, IsTrue, Some};
ghost use Rattle.std.specs.List.{list_all};
ghost use Rattle.data_store.specs.Stores.{array_at, at};
ghost use Rattle.values.specs.Maps.{found, rising};
ghost use Rattle.values.specs.declared.map.Element.{Element as AnElement};
ghost use Rattle.board_history.specs.Fields.{slot_at};
ghost use Rattle.board_work.specs.Same.{option_eq, scalar_eq};
ghost use Rattle.board_work.specs.View.{answer_view, answers_view};
ghost use Rattle.board_instances.specs.Names.{led_slot};
ghost use Rattle.board_instances.specs.View.{frames_view};
ghost use Rattle.board_data.specs.Answered.{cell_answer, scalar_answer, wanted_answer};
ghost use Rattle.board_data.specs.Data.{is_keyed};
ghost use Rattle.board_data.specs.View.{cells_view};

use crate::data::{element, listed, size};
use crate::inputs::Environment;
use board_program::program::ResolvedNeed;
use board_work::answer::Answer;
use data_store::store::Store;
use std::alloc::AllocError;
use values::datum_kind::DatumKind;
use values::map::{Element, Map};
use values::value::Scalar;

/// Converts an optional scalar into an answer: the scalar shared, or `Missing`.
fn found_or_missing(found: Option<&Scalar>) -> Result<Answer, AllocError>
    ensures { IfOk result (λ answer. answer_view answer ≡ scalar_answer (option_copied found.entry)) }
{
    match found {
        Some(scalar) => Ok(Answer::Found(scalar.share()?)),
        None => Ok(Answer::Missing),
    }
}

/// Returns the answer that is the whole array, or `Missing` if the datum is not an array.
#[tactic(auto, using(crate::proofs::Answered::listed_answer, crate::proofs::Answered::unlisted_answer))]
fn content(store: &Store, d: usize) -> Result<Answer, AllocError>
    ensures { IfOk result (λ answer. answer_view answer ≡ cell_answer (slot_at (cells_view store.now.cells) d)) }
{
    match listed(store, d)? {
        Some(map) => Ok(Answer::Content(map)),
        None => Ok(Answer::Missing),
    }
}

/// Returns the answer to a need.
#[inline(always)]
fn answer(view: Environment<'_>, wanted: &ResolvedNeed) -> Result<Answer, AllocError>
    ensures { IfOk result (λ answer. answer_view answer
        ≡ wanted_answer view.entry.program.now (cells_view view.entry.store.now.cells)
        (led_slot (frames_view view.entry.instances.now.slots) view.entry.at) wanted.now) }
{
    match wanted {
        ResolvedNeed::Closed(spot) => match view.datum(*spot) {
            Some(d) => content(view.store, d),
            None => Ok(Answer::Missing),
        },
        _ => found_or_missing(view.found(wanted)),
    }
}

/// Replaces the contents of `list` with the answers to these needs, in order.
///
/// # Errors
///
/// Returns `AllocError` if an allocation fails. The list itself is not reallocated if it has room.
#[inline(always)]
pub fn answers(
    list: &mut Vec<Answer>,
    view: Environment<'_>,
    needs: &[ResolvedNeed],
) -> Result<(), AllocError>
    ensures { OnOk result (answers_view list.new.items
        ≡ map (wanted_answer view.entry.program.now (cells_view view.entry.store.now.cells)
        (led_slot (frames_view view.entry.instances.now.slots) view.entry.at)) needs.now) }
{
    list.clear();
    list.reserve_exact(needs.len())?;
    for wanted in needs {
        list.push(answer(view, wanted)?)?;
    }
    Ok(())
}

/// Returns true if both are the same scalar.
fn is_same(one: &Scalar, other: &Scalar) -> bool
    ensures { result ≡ scalar_eq one.now other.now }
{
    match (one, other) {
        (Scalar::Number(a), Scalar::Number(b)) => a == b,
        (Scalar::Truth(a), Scalar::Truth(b)) => a == b,
        (Scalar::Text(a), Scalar::Text(b)) => a.as_bytes() == b.as_bytes(),
        _ => false,
    }
}

/// Returns true if the datum is an array.
fn is_array(store: &Store, d: usize) -> bool
    ensures { result ≡ is_keyed (at store.now d) }
{
    matches!(store.shape(d), Some(DatumKind::Keyed))
}

/// Returns true if the array has this element.
#[tactic(auto, using(crate::proofs::Compared::found_one))]
fn has_element(store: &Store, d: usize, one: &Element) -> bool
    ensures { result ≡ option_eq scalar_eq (found one.now.key (array_at store.now d).elements) (Some one.now.value) }
{
    match element(store, d, one.key.as_ref()) {
        Some(scalar) => is_same(scalar, &one.value),
        None => false,
    }
}

/// Returns true if the array has all these elements.
fn has_all(store: &Store, d: usize, elements: &[Element]) -> bool
    ensures { result ≡ list_all (λ (e : AnElement). option_eq scalar_eq (found e.key (array_at store.now d).elements) (Some e.value)) elements.now }
{
    for one in elements {
        if !has_element(store, d, one) {
            return false;
        }
    }
    true
}

/// Returns true if the map has exactly the elements of the array.
fn is_content(store: &Store, d: usize, map: &Map) -> bool
    ensures { IsTrue (rising (array_at store.now d).elements) → IsTrue result ↔ (map.now ≡ (array_at store.now d).elements) }
{
    map.len() == size(store, d) && has_all(store, d, map.elements())
}

/// Returns true if this is the answer for the whole array.
#[tactic(auto, using(crate::proofs::Compared::content_listed, crate::proofs::Compared::content_unlisted, crate::proofs::Compared::missing_listed, crate::proofs::Compared::found_unlisted))]
fn is_listed(store: &Store, d: usize, answer: &Answer) -> bool
    ensures { IsTrue (rising (array_at store.now d).elements)
        → IsTrue result ↔ (answer_view answer.now ≡ cell_answer (slot_at (cells_view store.now.cells) d)) }
{
    match answer {
        Answer::Content(map) => is_array(store, d) && is_content(store, d, map),
        Answer::Missing => !is_array(store, d),
        Answer::Found(_) => false,
    }
}

/// Returns true if this is the answer to the need.
#[tactic(auto, using(crate::proofs::Compared::answer_is))]
fn is_answer(view: Environment<'_>, wanted: &ResolvedNeed, answer: &Answer) -> bool
    ensures { ((d : ℕ) → IsTrue (rising (array_at view.entry.store.now d).elements))
        → IsTrue result ↔ (answer_view answer.now ≡ wanted_answer view.entry.program.now (cells_view view.entry.store.now.cells)
        (led_slot (frames_view view.entry.instances.now.slots) view.entry.at) wanted.now) }
{
    match wanted {
        ResolvedNeed::Closed(spot) => match view.datum(*spot) {
            Some(d) => is_listed(view.store, d, answer),
            None => answer.is_missing(),
        },
        _ => match view.found(wanted) {
            Some(scalar) => answer.is_found(scalar),
            None => answer.is_missing(),
        },
    }
}

/// Returns true if these are the answers to the needs, in order. The comparison is exact where each array lists its
/// elements by ascending key. Allocates no memory.
pub fn are_answers(view: Environment<'_>, needs: &[ResolvedNeed], answers: &[Answer]) -> bool
    ensures { ((d : ℕ) → IsTrue (rising (array_at view.entry.store.now d).elements))
        → IsTrue result ↔ (answers_view answers.now ≡ map
        (wanted_answer view.entry.program.now (cells_view view.entry.store.now.cells)
        (led_slot (frames_view view.entry.instances.now.slots) view.entry.at)) needs.now) }
{
    let mut rest = answers;
    for wanted in needs {
        match rest {
            [answer, left @ ..] if is_answer(view, wanted, answer) => rest = left,
            _ => return false,
        }
    }
    rest.is_empty()
}
