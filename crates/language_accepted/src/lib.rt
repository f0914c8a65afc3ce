//! Properties of the core of every accepted script: it is well formed, scoped and typed, and the laws of the meaning
//! hold for it.
//!
//! Nothing here runs: each function has an empty body, and its contract is a law.
#![tactic(auto)]

pub mod laws;

ghost use Rattle.language_laws.specs.TypedValues.{TypedValues};
ghost use Rattle.language_accepted.specs.Always.{FormedAlways};
ghost use Rattle.language_accepted.specs.Assigning.{tree, names};
ghost use Rattle.language_accepted.specs.Placed.{IsPlaced, Rise};
ghost use Rattle.language_accepted.specs.Statements.{StmtsApart};
ghost use Rattle.language_accepted.specs.Types.{Types};
ghost use Rattle.language_laws.specs.Scoped.{Scoped};
ghost use Rattle.std.specs.Prelude.{◌≡◌, ℕ, List};
ghost use Rattle.language.specs.Meaning.{Known, Meaning};
ghost use Rattle.language.specs.Numbered.{numbered};
ghost use Rattle.language.specs.Numbers.{numbers};
ghost use Rattle.language.specs.Reads.{Reads};
ghost use Rattle.language.specs.Resolved.{core};
ghost use Rattle.language.specs.Single.{SinglyAssigned};
ghost use Rattle.language.specs.Table.{Table};
ghost use Rattle.language.specs.Tree.{Tree};
ghost use Rattle.language.specs.Typing.{WellTyped};
ghost use Rattle.language.specs.WellFormed.{WellFormed};

/// Proves that the tree of a text is placed: its numbers are in reading order, and no called name stands at the offset
/// of another.
pub fn read_trees_are_placed()
    ensures { (bytes : List ℕ) (tree : Tree) → Reads bytes tree → IsPlaced tree }
{}

/// Proves that the core of a placed, well typed and singly assigned tree is well formed, with weaker results under
/// weaker premises.
///
/// The part of well-formedness that needs no single assignment holds for each placed and well typed tree (`always`). In
/// a placed tree, no statement has the number of a cell or of another statement (`stmts`). The core of a well typed
/// tree with numbers in reading order is scoped (`scoped`). In a scoped core, a function's body uses only its own
/// inputs. A called function exists, and the call has an argument for each of its inputs.
pub fn accepted_cores()
    ensures formed { (t : Table) (tree : Tree) → IsPlaced tree → WellTyped tree t → SinglyAssigned (core t tree) → WellFormed (core t tree) }
    ensures always { (t : Table) (tree : Tree) → IsPlaced tree → WellTyped tree t → FormedAlways (core t tree) }
    ensures stmts { (t : Table) (tree : Tree) → IsPlaced tree → StmtsApart (core t tree) }
    ensures scoped { (t : Table) (tree : Tree) → Rise 0 (numbers tree) → WellTyped tree t → Scoped (core t tree) }
{}

/// Proves that a well typed script can have a core that is not well formed.
///
/// The script is `(int o) f(int i) { i = 3; o = 1; } foreach k in [0:1] { k = f(4); k = f(5); k = 6; }`. It assigns an
/// input and a loop variable.
pub fn assigning_what_is_given()
    ensures typed { tree ≡ numbered 1 tree × WellTyped tree names }
    ensures broken { WellFormed (core names tree) → ⊥ }
{}

/// Proves that the core of a placed and well typed tree has types.
///
/// Each node has one type, with which every name, cell, call and statement agrees, and each function has a signature.
/// So the name of a scalar is nowhere used as an array, and the arguments of a call match the called function. A
/// declared variable has its declared type, and every fact that is ever known of a node has the node's type. In each
/// block that is ever live, a name stands for a node of the name's type.
pub fn accepted_types()
    ensures { (t : Table) (tree : Tree) → IsPlaced tree → WellTyped tree t → Types t tree }
{}

/// Proves that no value of a wrong type ever becomes known, singly assigned or not.
///
/// Conditions are truth values, bounds are numbers, an index is a number or a text, and `printf` results in a text. A
/// cell that is not the whole right side of an array evaluates to a scalar.
pub fn accepted_values()
    ensures rounds { (t : Table) (tree : Tree) → IsPlaced tree → WellTyped tree t → (n : ℕ) → TypedValues (core t tree) (Known (core t tree) n) }
    ensures ever { (t : Table) (tree : Tree) → IsPlaced tree → WellTyped tree t → TypedValues (core t tree) (Meaning (core t tree)) }
{}
