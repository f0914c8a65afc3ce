//! The law that cores which differ only in expressions of literals have the same meaning.
//!
//! Nothing here runs: each function has an empty body, and its contract is a law.
#![tactic(auto)]

ghost use Rattle.std.specs.Prelude.{ℕ, List};
ghost use Rattle.values.specs.declared.value.Scalar.{Scalar};
ghost use Rattle.values.specs.declared.value.Value.{Value};
ghost use Rattle.language.specs.Core.{Action, Block, Core};
ghost use Rattle.language.specs.Facts.{Fact};
ghost use Rattle.language.specs.Meaning.{Closed, HasValue, Known, Live, Meaning, Ready};
ghost use Rattle.language.specs.Outcomes.{Blocked, Clean, Faults, Lines};
ghost use Rattle.language.specs.Facts.{Fault};
ghost use Rattle.language.specs.Places.{Path, Place};
ghost use Rattle.fold_laws.specs.Same.{SameAction, SameBlock, SameCore};

/// Proves that two cores have the same meaning if they differ only in expressions of literals.
///
/// In either core, an expression of literals may stand as the value that it evaluates to. After each round both cores
/// know the same facts: values and faults of cells, writes of elements, and lines. So the lines and faults are the
/// same, and the same statements are blocked, in each round and in the meaning. The same arrays are closed, the same
/// variables have values, and one core writes a key twice if the other does. The same paths have live blocks, which are
/// the same in this sense. Corresponding headers are ready with the same values. The relation is reflexive and
/// symmetric.
pub fn same_meaning()
    ensures rounds { (c d : Core) → SameCore c d → (n : ℕ) (f : Fact) → Known c n f → Known d n f }
    ensures itself { (c : Core) → SameCore c c }
    ensures turned { (c d : Core) → SameCore c d → SameCore d c }
    ensures blocked { (c d : Core) → SameCore c d → (n at : ℕ) (path : Path) → Blocked c (Known c n) at path → Blocked d (Known d n) at path }
    ensures lines { (c d : Core) → SameCore c d → (lines : List (List ℕ)) → Lines (Meaning c) lines → Lines (Meaning d) lines }
    ensures faults { (c d : Core) → SameCore c d → (f : Fault) (at : ℕ) (path : Path) → Faults (Meaning c) f at path → Faults (Meaning d) f at path }
    ensures ever_blocked { (c d : Core) → SameCore c d → (at : ℕ) (path : Path) → Blocked c (Meaning c) at path → Blocked d (Meaning d) at path }
    ensures closed { (c d : Core) → SameCore c d → (a : Place) → Closed c (Meaning c) a → Closed d (Meaning d) a }
    ensures values { (c d : Core) → SameCore c d → (a : Place) (v : Scalar) → HasValue c (Meaning c) a v → HasValue d (Meaning d) a v }
    ensures live { (c d : Core) → SameCore c d → (path : Path) (b : Block) → Live c (Meaning c) path b
        → (e : Block) × Live d (Meaning d) path e × SameBlock b e }
    ensures ready { (c d : Core) → SameCore c d → (path : Path) (a h : Action) (vs : List Value) → SameAction a h → Ready c (Meaning c) path a vs
        → Ready d (Meaning d) path h vs }
    ensures clean { (c d : Core) → SameCore c d → Clean c → Clean d }
{}
