//! The compiler: turns the bytes of a script into proved code, or returns the first refusal.
//!
//! The steps are parsing, type check, assignment check, constant folding, lowering, merging of waits and emission.
//! `emitted_code` and the functions of `laws` do not run: they have empty bodies, and their contracts are laws.
#![tactic(auto)]

ghost use Rattle.code_rules.specs.Emitted.{IsEmitted};
ghost use Rattle.headline.specs.Headline.{Headline};
ghost use Rattle.code_rules.specs.IsCodeOf.{IsCodeOf};
ghost use Rattle.code_rules.specs.Laying.{Kinds};
ghost use Rattle.std.specs.Prelude.{ℕ, Bool, List};
ghost use Rattle.language_accepted.specs.Placed.{IsPlaced};
ghost use Rattle.language.specs.Resolved.{core};
ghost use Rattle.language.specs.Single.{SinglyAssigned};
ghost use Rattle.language.specs.Table.{Table};
ghost use Rattle.language.specs.Tree.{Tree};
ghost use Rattle.language.specs.Typing.{WellTyped};
ghost use Rattle.task_code.specs.Code.{Code};
ghost use Rattle.task_code.specs.Exact.{IsExact};
ghost use Rattle.task_code.specs.Whole.{IsCode};
ghost use Rattle.code_laws.specs.Described.{DeclaredIn, KindsOf};

/// Proves that code emitted for a placed, well typed and singly assigned tree is the tree's code and keeps the
/// headline.
///
/// The code is laid for the core of the tree, with exactly the rights that its entries lead to. Arrays are
/// distinguished from scalars as the tree declares them. The code then stands for the script, is whole and has exact
/// rights, and every run of it satisfies the headline.
pub fn emitted_code()
    ensures stands { (t : Table) (tree : Tree) (fs : List Kinds) (ds : List (ℕ × Bool)) (C : Code) → IsPlaced tree → WellTyped tree t
        → SinglyAssigned (core t tree) → KindsOf fs tree → DeclaredIn ds tree → IsEmitted (core t tree) fs ds C → IsCodeOf (core t tree) C }
    ensures whole { (t : Table) (tree : Tree) (fs : List Kinds) (ds : List (ℕ × Bool)) (C : Code) → IsPlaced tree → WellTyped tree t
        → SinglyAssigned (core t tree) → KindsOf fs tree → DeclaredIn ds tree → IsEmitted (core t tree) fs ds C → IsCode C }
    ensures exact { (t : Table) (tree : Tree) (fs : List Kinds) (ds : List (ℕ × Bool)) (C : Code) → IsEmitted (core t tree) fs ds C → IsExact C }
    ensures headline { (t : Table) (tree : Tree) (fs : List Kinds) (ds : List (ℕ × Bool)) (C : Code) → IsPlaced tree → WellTyped tree t
        → SinglyAssigned (core t tree) → KindsOf fs tree → DeclaredIn ds tree → IsEmitted (core t tree) fs ds C → Headline (core t tree) C }
{}

pub mod check;
pub mod compile;
pub mod fault;
pub mod laws;
pub mod steps;
