//! Proof that a script determines its code: two codes emitted for one tree do the same, entry by entry.
//!
//! Nothing here runs: each function has an empty body, and its contract is a law.

ghost use Rattle.code_laws.specs.Alike.{AllDoSame, AreAlike};
ghost use Rattle.code_rules.specs.Emitted.{HasRights, IsEmitted};
ghost use Rattle.code_rules.specs.Laying.{Kinds};
ghost use Rattle.code_laws.specs.Described.{DeclaredIn, KindsOf};
ghost use Rattle.dataflow.specs.Machine.{Event};
ghost use Rattle.language.specs.Resolved.{core};
ghost use Rattle.language.specs.Table.{Table};
ghost use Rattle.language.specs.Tree.{Tree};
ghost use Rattle.language.specs.Typing.{WellTyped};
ghost use Rattle.language_accepted.specs.Placed.{IsPlaced};
ghost use Rattle.std.specs.Prelude.{◌≡◌, ℕ, Bool, List};
ghost use Rattle.task_code.specs.Code.{Code};
ghost use Rattle.task_code.specs.Machine.{CodeState, Quiet, Run};

/// Proves that two codes with exact rights have the same rights, if they have the same bodies and their entries do the
/// same.
pub fn rights_are_pinned()
    ensures { (C D : Code) → C.bodies ≡ D.bodies → AllDoSame C.entries D.entries → HasRights C → HasRights D → AreAlike C D }
{}

/// Proves that two codes emitted for the core of one placed and well typed tree are alike.
///
/// They have the same bodies. Corresponding entries have the same act, needs, offset, priority and rights. Their marks
/// are the same if blocks are opened under them, and their nodes are the same if a value is stored there.
pub fn codes_of_a_tree_are_alike()
    ensures { (t : Table) (tree : Tree) (fs gs : List Kinds) (ds es : List (ℕ × Bool)) (C D : Code) → IsPlaced tree → WellTyped tree t
        → KindsOf fs tree → KindsOf gs tree → DeclaredIn ds tree → DeclaredIn es tree
        → IsEmitted (core t tree) fs ds C → IsEmitted (core t tree) gs es D → AreAlike C D }
{}

/// Proves that codes that are alike have the same runs and the same quiet states.
pub fn alike_codes_run_alike()
    ensures runs { (C D : Code) → AreAlike C D → (events : List Event) (st : CodeState) → Run C events st → Run D events st }
    ensures quiet { (C D : Code) → AreAlike C D → (st : CodeState) → Quiet C st → Quiet D st }
{}
