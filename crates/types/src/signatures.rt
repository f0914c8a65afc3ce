//! The signatures of the functions of a script, with an index by name.
ghost use Rattle.std.specs.Prelude.{◌≡◌, ℕ, List, map};
ghost use Rattle.std.specs.Str.{bytes_eq};
ghost use Rattle.indexmap.specs.IndexMap.{get_by};
ghost use Rattle.types.specs.Known.{signature_of};
ghost use Rattle.types.specs.Names.{find, place_of};

use crate::typed::VariableType;
use indexmap::IndexMap;

/// The signature of a function: its name, and the types of its inputs and outputs.
#[derive(Drop)]
pub struct Signature {
    pub text: Vec<u8>,
    pub inputs: Vec<VariableType>,
    pub outputs: Vec<VariableType>,
}

/// The signatures of a script in its order, with a hash index from each name to the position of the first function of
/// that name.
#[derive(Drop)]
pub struct Functions {
    pub list: Vec<Signature>,
    pub places: IndexMap<Vec<u8>, usize>,
    ghost placed: { (text : List ℕ) → get_by (λ key. bytes_eq text key.items) places ≡ place_of (find (map signature_of list.items) text) },
}
