//! Laws of the choices of headers. The functions have empty bodies; their contracts are the laws.
ghost use Rattle.std.specs.Prelude.{◌≡◌, ◌<◌, ◌∷◌, [], ℕ, List, Option, Some, length};
ghost use Rattle.values.specs.declared.key.Key.{Key};
ghost use Rattle.values.specs.declared.map.Element.{Element};
ghost use Rattle.values.specs.declared.value.Scalar.{Scalar};
ghost use Rattle.values.specs.declared.value.Value.{Value};
ghost use Rattle.values.specs.declared.value.Value.TheVariants.{Many};
ghost use Rattle.language.specs.Core.{Action, Block, Core, Name, Outer, Stmt, each, range};
ghost use Rattle.language.specs.Openings.{Branches, Decides, InTurn, Opens};
ghost use Rattle.meaning_cells.specs.Chosen.{Chosen, OpensAt, block_in, chosen_by, chosen_in, count_in, items, key_in, value_at_turn};
ghost use Rattle.language.specs.Places.{Path, Place};
ghost use Rattle.language.specs.Facts as script;
ghost use Rattle.meaning_steps.specs.Environment.{Sight};
ghost use Rattle.meaning_steps.specs.Taken.{Knows, ReadyBy, taken};
ghost use Rattle.meaning_cells.specs.Taking.{OpensBy, SeesBy};

/// States that the values of a condition or a range decide a choice exactly if `chosen_by` returns one. The blocks that
/// the header opens are then those of the choice, at their keys.
pub fn what_is_chosen()
    ensures decided { (a : Action) (vs : List Value) → Decides a vs → (c : Chosen) × (chosen_by a vs ≡ Some c) }
    ensures decides { (a : Action) (vs : List Value) (c : Chosen) → chosen_by a vs ≡ Some c → Decides a vs }
    ensures opens { (a : Action) (vs : List Value) (c : Chosen) → chosen_by a vs ≡ Some c → (k : Key) (b : Block) → Opens a vs k b → OpensAt a c k b }
    ensures opened { (a : Action) (vs : List Value) (c : Chosen) → chosen_by a vs ≡ Some c → (i : ℕ) → i < count_in c → (b : Block) → block_in a c ≡ Some b
        → Opens a vs (key_in c i) b }
{}

/// States that a loop over an array opens one block for each element, at its key. In each turn of a loop, the loop
/// variable has the value that the choice has there.
pub fn what_a_loop_opens()
    ensures opens { (a : Name) (x : ℕ) (t : Option ℕ) (b : Block) (es : List Element) (k : Key) (d : Block) → Opens (each a x t b) (Many es ∷ []) k d
        → OpensAt (each a x t b) (items es) k d }
    ensures opened { (a : Name) (x : ℕ) (t : Option ℕ) (b : Block) (es : List Element) (i : ℕ) → i < length es
        → Opens (each a x t b) (Many es ∷ []) (key_in (items es) i) b }
    ensures element { (a : Name) (x : ℕ) (t : Option ℕ) (b : Block) (es : List Element) (i : ℕ) → i < length es
        → InTurn (each a x t b) (Many es ∷ []) (key_in (items es) i) x (value_at_turn (items es) i) }
    ensures turn { (lo hi : Outer) (st : Option Outer) (x : ℕ) (t : Option ℕ) (b : Block) (vs : List Value) (c : Chosen)
        → chosen_by (range lo hi st x t b) vs ≡ Some c → (i : ℕ)
        → InTurn (range lo hi st x t b) vs (key_in c i) x (value_at_turn c i) }
{}

/// States when a header is ready at a path, for an instance that sees what is known and taken there. A header with a
/// visible choice is ready, and opens exactly the blocks of the choice. The choice of a ready header with keyed blocks
/// is visible.
pub fn what_is_ready()
    ensures ready { (s : Core) (fs : List script.Fact) (ls : List (Path × Stmt)) (cs : List Place) (us : List (Place × Scalar)) (path : Path) (g : Sight)
        → SeesBy s (Knows fs) (taken ls cs us) path g
        → (a : Action) (c : Chosen) → chosen_in g a ≡ Some c → (vs : List Value) × ReadyBy s (Knows fs) (taken ls cs us) path a vs × OpensBy a vs c }
    ensures chosen { (s : Core) (fs : List script.Fact) (ls : List (Path × Stmt)) (cs : List Place) (us : List (Place × Scalar)) (path : Path) (g : Sight)
        → SeesBy s (Knows fs) (taken ls cs us) path g
        → (a : Action) (vs : List Value) → Branches a → ReadyBy s (Knows fs) (taken ls cs us) path a vs
        → (c : Chosen) × (chosen_in g a ≡ Some c) × OpensBy a vs c }
{}
