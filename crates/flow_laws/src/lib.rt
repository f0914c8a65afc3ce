//! The law that flows of accepted scripts are whole: every name is declared once and every called function exists.
//!
//! Nothing here runs: the function has an empty body, and its contract is a law.
#![tactic(auto)]

ghost use Rattle.std.specs.Prelude.{◌≡◌};
ghost use Rattle.language.specs.Core.{Core};
ghost use Rattle.language.specs.Resolved.{core};
ghost use Rattle.language.specs.Table.{Table};
ghost use Rattle.language.specs.Tree.{Tree};
ghost use Rattle.language.specs.Typing.{WellTyped};
ghost use Rattle.language_accepted.specs.Placed.{IsPlaced};
ghost use Rattle.flow.specs.Whole.{IsWhole};

/// Proves that the core of each placed and well typed tree is whole, singly assigned or not.
///
/// Each name is declared once in the block that it refers to, and each called function exists. The same holds for each
/// flow whose view is this core. `lower` returns such a flow and `merge` keeps its view, so `is_whole` returns true for
/// it (Swift/T Guide, on variables and composite functions; docs/LANGUAGE.md, Types).
pub fn accepted_flows_are_whole()
    ensures cores { (t : Table) (tree : Tree) → IsPlaced tree → WellTyped tree t → IsWhole (core t tree) }
    ensures flows { (t : Table) (tree : Tree) (seen : Core) → IsPlaced tree → WellTyped tree t → seen ≡ core t tree → IsWhole seen }
{}
