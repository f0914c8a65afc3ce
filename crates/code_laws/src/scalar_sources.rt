//! Proof that each readable scalar of a script's code has a source, which stores it in the end if nothing waits.
//!
//! Nothing here runs: each function has an empty body, and its contract is a law.

ghost use Rattle.code_laws.specs.Sources.{CellsFollow, FindsSources};
ghost use Rattle.code_rules.specs.Emitted.{IsEmitted};
ghost use Rattle.code_rules.specs.Laying.{Kinds};
ghost use Rattle.code_laws.specs.Described.{DeclaredIn, KindsOf};
ghost use Rattle.language.specs.Resolved.{core};
ghost use Rattle.language.specs.Single.{SinglyAssigned};
ghost use Rattle.language.specs.Table.{Table};
ghost use Rattle.language.specs.Tree.{Tree};
ghost use Rattle.language.specs.Typing.{WellTyped};
ghost use Rattle.language_accepted.specs.Placed.{IsPlaced};
ghost use Rattle.std.specs.Prelude.{ℕ, Bool, List};
ghost use Rattle.task_code.specs.Code.{Code};

/// Proves that code emitted for a placed, well typed and singly assigned tree has a source for each readable scalar.
///
/// Entries of its own block may read a scalar only in two cases. It is a variable of the loop that opens the block, or
/// an entry of the block may write it. An entry that may write a scalar stores it itself, or always opens a block and
/// passes the right to whichever block it opens. A cell or an element that is read stands after the cells whose values
/// it needs.
pub fn laid_code_finds_sources()
    ensures sources { (t : Table) (tree : Tree) (fs : List Kinds) (ds : List (ℕ × Bool)) (C : Code) → IsPlaced tree → WellTyped tree t
        → SinglyAssigned (core t tree) → KindsOf fs tree → DeclaredIn ds tree → IsEmitted (core t tree) fs ds C → FindsSources C }
    ensures order { (t : Table) (tree : Tree) (fs : List Kinds) (ds : List (ℕ × Bool)) (C : Code) → IsPlaced tree → WellTyped tree t
        → SinglyAssigned (core t tree) → IsEmitted (core t tree) fs ds C → CellsFollow C }
{}
