//! Proof that laid code of a placed, well typed and singly assigned tree is whole: it meets all conditions under which
//! every run is lawful.
//!
//! Nothing here runs: each function has an empty body, and its contract is a law.

ghost use Rattle.code_rules.specs.Emitted.{CallsOnce, HasRights};
ghost use Rattle.code_rules.specs.IsCodeOf.{Layout};
ghost use Rattle.code_rules.specs.Laid.{IsLaid};
ghost use Rattle.code_rules.specs.Laying.{Kinds};
ghost use Rattle.language_laws.specs.Scoped.{Scoped};
ghost use Rattle.std.specs.Prelude.{◌≡◌, ℕ, Bool, true, List};
ghost use Rattle.language.specs.Core.{Core};
ghost use Rattle.language_accepted.specs.Placed.{IsPlaced};
ghost use Rattle.language.specs.Resolved.{core};
ghost use Rattle.language.specs.Single.{SinglyAssigned};
ghost use Rattle.language.specs.Table.{Table};
ghost use Rattle.language.specs.Tree.{Tree};
ghost use Rattle.language.specs.Typing.{WellTyped};
ghost use Rattle.task_code.specs.Code.{Code, entry};
ghost use Rattle.task_code.specs.Shape.{is_shaped};
ghost use Rattle.task_code.specs.Whole.{IsCode};
ghost use Rattle.code_rules.specs.NodesOnce.{NodesOnce};
ghost use Rattle.code_laws.specs.Described.{DeclaredIn, KindsOf};
ghost use Rattle.code_laws.specs.Within.{IsWithin};
ghost use Rattle.code_laws.specs.Standing.{CallsAreFound, IsStanding};

/// Proves that each entry of laid code has its shape: it stores a value of the kind of its target, and has the needs
/// that it uses.
pub fn laid_entries_have_their_shape()
    ensures { (s : Core) (fs : List Kinds) (ds : List (ℕ × Bool)) (C : Code) (l : Layout) → IsLaid s fs ds C l → (i : ℕ) → is_shaped (entry C i) ≡ true }
{}

/// Proves that laid code of a scoped core, with exact rights, is whole except for the scopes of names.
///
/// Each body has the opener that opens it. Each entry has its shape, and may read and write what it needs and stores
/// itself. The content of a wait hides what it declares, and a loop's variables belong to its body. Nothing stands or
/// is declared twice.
pub fn laid_code_stands()
    ensures { (s : Core) (fs : List Kinds) (ds : List (ℕ × Bool)) (C : Code) (l : Layout) → IsLaid s fs ds C l → HasRights C → CallsAreFound C
        → Scoped s → IsStanding C }
{}

/// Proves that the entries of a body may read and write only what the body declares or what belongs to the entry that
/// opens it.
///
/// The code is laid, with exact rights, for a placed, well typed and singly assigned tree. The script's entries refer
/// to the script's own variables. Those of an inner block refer to what is visible from it, and those of a called
/// function to what the call passes. A name is an array's where it is declared as one.
pub fn accepted_code_is_within()
    ensures { (t : Table) (tree : Tree) (fs : List Kinds) (ds : List (ℕ × Bool)) (C : Code) (l : Layout) → IsPlaced tree → WellTyped tree t
        → SinglyAssigned (core t tree)
        → KindsOf fs tree → DeclaredIn ds tree → IsLaid (core t tree) fs ds C l → HasRights C → CallsAreFound C → IsWithin C }
{}

/// Proves that laid code of a placed, well typed and singly assigned tree, with exact rights, is whole.
///
/// Emission receives which inputs, outputs and variables are arrays, as the tree declares them. Each call has its own
/// offset, each node belongs to one entry, and each entry has exactly the rights that it leads to. Then all bodies fit
/// together.
pub fn accepted_code_is_whole()
    ensures { (t : Table) (tree : Tree) (fs : List Kinds) (ds : List (ℕ × Bool)) (C : Code) (l : Layout) → IsPlaced tree → WellTyped tree t
        → SinglyAssigned (core t tree)
        → KindsOf fs tree → DeclaredIn ds tree → IsLaid (core t tree) fs ds C l → HasRights C → CallsAreFound C → NodesOnce C → IsCode C }
{}

/// Proves that each call of a placed tree has an offset of its own, as emission requires.
pub fn accepted_calls_stand_once()
    ensures { (t : Table) (tree : Tree) → IsPlaced tree → CallsOnce (core t tree) }
{}
