//! Laws of folding: it preserves the meaning of a script and the conditions for accepting it.
//!
//! Nothing here runs: each function has an empty body, and its contract is a law.
ghost use Rattle.std.specs.Prelude.{◌≡◌, ◌≤◌};
ghost use Rattle.constant_fold.specs.Folded.{folded_tree};
ghost use Rattle.fold_laws.specs.Same.{SameCore};
ghost use Rattle.language.specs.Core.{Core};
ghost use Rattle.language.specs.Numbered.{tree_size};
ghost use Rattle.language.specs.Resolved.{core};
ghost use Rattle.language.specs.Scopes.{signatures};
ghost use Rattle.language.specs.Single.{SinglyAssigned};
ghost use Rattle.language.specs.Table.{Table};
ghost use Rattle.language.specs.Tree.{Tree};
ghost use Rattle.language.specs.Typing.{WellTyped};
ghost use Rattle.language_accepted.specs.Placed.{IsPlaced};
ghost use Rattle.language_accepted.specs.Types.{tree_declarations};

/// Proves that folding a well typed script keeps its core, except that expressions of literals are replaced by their
/// values. So the fold has the same meaning (`same_meaning`): each node that stays has the same facts, round by round.
pub fn folding_keeps_the_meaning()
    ensures { (t : Table) (tree : Tree) → WellTyped tree t → SameCore (core t tree) (core t (folded_tree tree)) }
{}

/// Proves that the fold of a well typed script is well typed by the same table, with the same functions and the same
/// declared variables. If the script is singly assigned, so is its fold.
pub fn folds_are_scripts()
    ensures typed { (t : Table) (tree : Tree) → WellTyped tree t → WellTyped (folded_tree tree) t }
    ensures single { (t : Table) (tree : Tree) → WellTyped tree t → SinglyAssigned (core t tree) → SinglyAssigned (core t (folded_tree tree)) }
    ensures signatures { (tree : Tree) → signatures (folded_tree tree) ≡ signatures tree }
    ensures declarations { (tree : Tree) → tree_declarations (folded_tree tree) ≡ tree_declarations tree }
{}

/// Proves that the fold of a placed tree is placed, because nodes are only removed, and that no fold is larger than its
/// tree.
pub fn folds_are_placed()
    ensures placed { (tree : Tree) → IsPlaced tree → IsPlaced (folded_tree tree) }
    ensures small { (tree : Tree) → tree_size (folded_tree tree) ≤ tree_size tree }
{}

/// Proves that two cores that differ only in expressions of literals are both singly assigned, or neither is.
pub fn same_cores_are_singly_assigned()
    ensures { (c d : Core) → SameCore c d → SinglyAssigned c → SinglyAssigned d }
{}
