//! Tests for keys that are already present in an array, and copies of elements.
ghost use Rattle.std.specs.Prelude.{◌≡◌, IfOk};
ghost use Rattle.std.specs.List.{list_any};
ghost use Rattle.board_history.specs.Fields.{slot_at};
ghost use Rattle.board_history.specs.Needs.{cell_element, has};
ghost use Rattle.values.specs.declared.map.Element.{Element as AnElement};
ghost use Rattle.board_data.specs.View.{cells_view};

use board_data::data::element;
use data_store::store::Store;
use std::alloc::{AllocError, Global};
use values::key::Key;
use values::map::Element;

/// Returns true if the array has an element under this key.
#[tactic(auto, using(board_data::proofs::Cells::element_there, crate::proofs::Found::is_found))]
pub(crate) fn has_key(store: &Store, d: usize, key: &Key) -> bool
    ensures { result ≡ has (cell_element key.now (slot_at (cells_view store.now.cells) d)) }
{
    element(store, d, key.as_ref()).is_some()
}

/// Returns true if the array has an element under one of these keys.
pub(crate) fn has_any(store: &Store, d: usize, elements: &[Element]) -> bool
    ensures { result ≡ list_any (λ (e : AnElement). has (cell_element e.key (slot_at (cells_view store.now.cells) d))) elements.now }
{
    for one in elements {
        if has_key(store, d, &one.key) {
            return true;
        }
    }
    false
}

/// Returns a list of the same elements. Texts are shared.
pub(crate) fn copied(alloc: Global, elements: &[Element]) -> Result<Vec<Element>, AllocError>
    ensures { IfOk result (λ copies. copies.items ≡ elements.now) }
{
    let mut copies = Vec::new(alloc);
    copies.reserve_exact(elements.len())?;
    for one in elements {
        copies.push(Element {
            key: one.key.share()?,
            value: one.value.share()?,
        })?;
    }
    Ok(copies)
}
