//! Stores of scalars and elements into a target datum.

ghost use Rattle.std.specs.Prelude.{◌≡◌, ◌∷◌, [], ℕ, Some};
ghost use Rattle.task_code.specs.Compute.{pairs};
ghost use Rattle.task_code.specs.Effects.{only};
ghost use Rattle.values.specs.Maps.{element};
ghost use Rattle.data_store.specs.Stores.{changed};
ghost use Rattle.board_data.specs.Data.{AreRising, given};
ghost use Rattle.board_data.specs.Stored.{IsScalarTarget, StoresIn, Takes};

use crate::data;
use data_store::store::Store;
use values::key::Key;
use values::map::Element;
use values::value::Scalar;

/// Stores a scalar, if there is a target.
#[tactic(auto, using(crate::proofs::Stored::stored_scalar, crate::proofs::Stored::stored_nothing))]
pub fn store_value(store: &mut Store, target: Option<usize>, value: Scalar)
    ensures stores { IsScalarTarget target store.old → StoresIn target ((only, value) ∷ []) store.old store.new }
    ensures rising { AreRising store.old → AreRising store.new }
{
    if let Some(d) = target {
        data::set_scalar(store, d, value);
    }
}

/// Inserts elements into an array. The caller has shown that the array takes them.
fn insert_all(store: &mut Store, d: usize, elements: Vec<Element>)
    ensures stores { Takes d elements.items store.old → StoresIn (Some d) (pairs elements.items) store.old store.new }
    ensures rising { AreRising store.old → AreRising store.new }
{
    for one in elements {
        let Element { key, value } = one;
        data::insert(store, d, key, value);
    }
}

/// Stores elements, if there is a target.
#[tactic(auto, using(crate::proofs::Stored::stored_nothing))]
pub fn store_all(store: &mut Store, target: Option<usize>, elements: Vec<Element>)
    ensures stores { ((d : ℕ) → target ≡ Some d → Takes d elements.items store.old) → StoresIn target (pairs elements.items) store.old store.new }
    ensures rising { AreRising store.old → AreRising store.new }
{
    if let Some(d) = target {
        insert_all(store, d, elements);
    }
}

/// Stores one element, if there is a target.
#[tactic(auto, using(crate::proofs::Stored::stored_nothing))]
pub fn store_element(store: &mut Store, target: Option<usize>, key: Key, value: Scalar)
    ensures stores { ((d : ℕ) → target ≡ Some d → Takes d (element key value ∷ []) store.old) → StoresIn target ((key, value) ∷ []) store.old store.new }
    ensures rising { AreRising store.old → AreRising store.new }
{
    if let Some(d) = target {
        data::insert(store, d, key, value);
    }
}
