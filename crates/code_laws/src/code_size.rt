//! Upper bounds on the size of a script's code.
//!
//! Nothing here runs: the function has an empty body, and its contract is a law.

ghost use Rattle.code_rules.specs.Emitted.{size_of};
ghost use Rattle.code_rules.specs.Room.{CoreRoom};
ghost use Rattle.std.specs.Prelude.{◌<◌, ◌≤◌, ◌*◌, ◌^◌, ℕ, List};
ghost use Rattle.language.specs.Numbered.{tree_size};
ghost use Rattle.language_accepted.specs.Placed.{IsPlaced};
ghost use Rattle.language.specs.Resolved.{core};
ghost use Rattle.language.specs.Table.{Table};
ghost use Rattle.language.specs.Tree.{Tree};
ghost use Rattle.language.specs.Typing.{WellTyped};

/// Proves bounds on the core of a tree.
///
/// By any table of its names, the core has at most twice as many functions, statements, cells and calls as the tree has
/// numbers. If the tree is placed, well typed and of fewer than 2^29 numbers, its names and expressions fit into code.
pub fn script_sizes()
    ensures within { (t : Table) (tree : Tree) → size_of (core t tree) ≤ 2 * tree_size tree }
    ensures room { (t : Table) (tree : Tree) → IsPlaced tree → WellTyped tree t → 2 * tree_size tree < 2 ^ 30 → CoreRoom (core t tree) }
{}
