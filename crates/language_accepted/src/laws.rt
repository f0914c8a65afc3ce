//! The laws of the meaning, for every accepted script. The functions are empty; each contract is the law of that name
//! in `language_laws`, without the premise that the core is well formed.

ghost use Rattle.std.specs.Prelude.{◌≡◌, ◌↔◌, ◌≤◌, ℕ, Bool, IsTrue, List, Result};
ghost use Rattle.values.specs.declared.key.Key.{Key};
ghost use Rattle.values.specs.declared.map.Element.{Element};
ghost use Rattle.values.specs.declared.value.Scalar.{Scalar};
ghost use Rattle.values.specs.declared.value.Value.{Value};
ghost use Rattle.language.specs.Core.{Block, Cell, Form, Stmt};
ghost use Rattle.language.specs.Facts.{Fact, Fault, value, element, fault, Elements, OneWriter};
ghost use Rattle.language.specs.Meaning.{Closed, Gives, HasValue, Live, New, Known, Meaning};
ghost use Rattle.language.specs.Members.{◌∈◌};
ghost use Rattle.language.specs.Outcomes.{Clean};
ghost use Rattle.language.specs.Parts.{cells, script_stmts};
ghost use Rattle.language.specs.Places.{Path, Place};
ghost use Rattle.language.specs.Reads.{Reads};
ghost use Rattle.language.specs.Resolved.{core};
ghost use Rattle.language.specs.Single.{SinglyAssigned};
ghost use Rattle.language.specs.Table.{Table};
ghost use Rattle.language.specs.Tree.{Tree};
ghost use Rattle.language.specs.Typing.{WellTyped};

/// Proves that a cell or variable has at most one value, whenever it becomes known. Variables are futures that are
/// assigned once, as in the Swift/T Guide.
pub fn one_value()
    ensures { (bytes : List ℕ) (t : Table) (tree : Tree) → Reads bytes tree → WellTyped tree t → SinglyAssigned (core t tree)
        → (p : Place) (v u : Value) → Meaning (core t tree) (value p v) → Meaning (core t tree) (value p u) → v ≡ u }
{}

/// Proves that a name has at most one scalar wherever it is read, loop variables included. This holds in the meaning
/// and after each round.
pub fn one_scalar()
    ensures meaning { (bytes : List ℕ) (t : Table) (tree : Tree) → Reads bytes tree → WellTyped tree t → SinglyAssigned (core t tree)
        → (p : Place) (v u : Scalar) → HasValue (core t tree) (Meaning (core t tree)) p v → HasValue (core t tree) (Meaning (core t tree)) p u → v ≡ u }
    ensures round { (bytes : List ℕ) (t : Table) (tree : Tree) → Reads bytes tree → WellTyped tree t → SinglyAssigned (core t tree)
        → (n : ℕ) (p : Place) (v u : Scalar) → HasValue (core t tree) (Known (core t tree) n) p v → HasValue (core t tree) (Known (core t tree) n) p u → v ≡ u }
{}

/// Proves that each scalar of a name becomes known in some round.
pub fn a_scalar_comes_in_a_round()
    ensures { (bytes : List ℕ) (t : Table) (tree : Tree) → Reads bytes tree → WellTyped tree t → SinglyAssigned (core t tree)
        → (p : Place) (v : Scalar) → HasValue (core t tree) (Meaning (core t tree)) p v → (n : ℕ) × HasValue (core t tree) (Known (core t tree) n) p v }
{}

/// Proves that a name has a scalar only at a path where a block is live. A variable of a loop that never opens has
/// none.
pub fn a_scalar_is_at_a_live_block()
    ensures { (bytes : List ℕ) (t : Table) (tree : Tree) → Reads bytes tree → WellTyped tree t → SinglyAssigned (core t tree)
        → (p : Place) (v : Scalar) → HasValue (core t tree) (Meaning (core t tree)) p v → (b : Block) × Live (core t tree) (Meaning (core t tree)) p.0 b }
{}

/// Proves that a cell evaluates to at most one value or fault, in whichever rounds.
pub fn a_cell_has_one_value_or_fault()
    ensures { (bytes : List ℕ) (t : Table) (tree : Tree) → Reads bytes tree → WellTyped tree t → SinglyAssigned (core t tree)
        → (n m : ℕ) (path : Path) (f : Form) (r q : Result Value Fault)
        → Gives (core t tree) (Known (core t tree) n) path f r → Gives (core t tree) (Known (core t tree) m) path f q → r ≡ q }
{}

/// Proves that a cell has at most one fact: not both a value and a fault, and not two faults.
pub fn a_cell_has_no_two_facts()
    ensures not_both { (bytes : List ℕ) (t : Table) (tree : Tree) → Reads bytes tree → WellTyped tree t → SinglyAssigned (core t tree)
        → (st : Stmt) (c : Cell) → st ∈ script_stmts (core t tree) → c ∈ cells st
        → (path : Path) (v : Value) (f : Fault) (at : ℕ) → Meaning (core t tree) (value (path, c.node) v)
        → Meaning (core t tree) (fault f at (path, c.node)) → ⊥ }
    ensures one_fault { (bytes : List ℕ) (t : Table) (tree : Tree) → Reads bytes tree → WellTyped tree t → SinglyAssigned (core t tree)
        → (st : Stmt) (c : Cell) → st ∈ script_stmts (core t tree) → c ∈ cells st
        → (path : Path) (f g : Fault) (at to : ℕ) → Meaning (core t tree) (fault f at (path, c.node))
        → Meaning (core t tree) (fault g to (path, c.node)) → (f ≡ g) × (at ≡ to) }
{}

/// Proves that a statement writes at most one value under a key.
pub fn one_element()
    ensures { (bytes : List ℕ) (t : Table) (tree : Tree) → Reads bytes tree → WellTyped tree t → SinglyAssigned (core t tree)
        → (a : Place) (k : Key) (w : Place) (v u : Scalar) → Meaning (core t tree) (element a k w v) → Meaning (core t tree) (element a k w u) → v ≡ u }
{}

/// Proves that an array that is closed after some round already has all elements that it ever has.
pub fn closed_array_is_full()
    ensures { (bytes : List ℕ) (t : Table) (tree : Tree) → Reads bytes tree → WellTyped tree t → SinglyAssigned (core t tree)
        → (n : ℕ) (a : Place) → Closed (core t tree) (Known (core t tree) n) a
        → (k : Key) (w : Place) (v : Scalar) → Meaning (core t tree) (element a k w v) → Known (core t tree) n (element a k w v) }
{}

/// Proves that a closed array has finitely many elements, in the meaning and after each round.
pub fn a_closed_array_is_a_list()
    ensures meaning { (bytes : List ℕ) (t : Table) (tree : Tree) → Reads bytes tree → WellTyped tree t → SinglyAssigned (core t tree)
        → (a : Place) → Closed (core t tree) (Meaning (core t tree)) a → (es : List Element) × Elements (Meaning (core t tree)) a es }
    ensures round { (bytes : List ℕ) (t : Table) (tree : Tree) → Reads bytes tree → WellTyped tree t → SinglyAssigned (core t tree)
        → (n : ℕ) (a : Place) → Closed (core t tree) (Known (core t tree) n) a → (es : List Element) × Elements (Known (core t tree) n) a es }
{}

/// Proves that each key has at most one writer in the meaning, if no key has two writers in any round.
pub fn one_writer()
    ensures { (bytes : List ℕ) (t : Table) (tree : Tree) → Reads bytes tree → WellTyped tree t → SinglyAssigned (core t tree)
        → Clean (core t tree) → (a : Place) → OneWriter (Meaning (core t tree)) a }
{}

/// Proves that a closed array stays closed.
pub fn closed_stays()
    ensures { (bytes : List ℕ) (t : Table) (tree : Tree) → Reads bytes tree → WellTyped tree t → SinglyAssigned (core t tree)
        → (n m : ℕ) (a : Place) → n ≤ m → Closed (core t tree) (Known (core t tree) n) a → Closed (core t tree) (Known (core t tree) m) a }
{}

/// Proves that a live block stays live.
pub fn live_stays()
    ensures { (bytes : List ℕ) (t : Table) (tree : Tree) → Reads bytes tree → WellTyped tree t → SinglyAssigned (core t tree)
        → (n m : ℕ) (path : Path) (b : Block) → n ≤ m → Live (core t tree) (Known (core t tree) n) path b → Live (core t tree) (Known (core t tree) m) path b }
{}

/// Proves that each fact that follows from the meaning is in the meaning, so it is known after some round.
pub fn meaning_is_closed()
    ensures { (bytes : List ℕ) (t : Table) (tree : Tree) → Reads bytes tree → WellTyped tree t → SinglyAssigned (core t tree)
        → (f : Fact) → New (core t tree) (Meaning (core t tree)) f → Meaning (core t tree) f }
{}

/// Proves that the meaning consists of exactly the facts that follow from it, if no key is written twice.
pub fn meaning_follows_from_itself()
    ensures { (bytes : List ℕ) (t : Table) (tree : Tree) → Reads bytes tree → WellTyped tree t → SinglyAssigned (core t tree)
        → Clean (core t tree) → (f : Fact) → Meaning (core t tree) f ↔ New (core t tree) (Meaning (core t tree)) f }
{}

/// Proves that the meaning is contained in every set of facts that consists of exactly what follows from it. The set
/// has at most one value at a place and one writer of a key, and is given as a test.
pub fn meaning_is_least()
    ensures { (bytes : List ℕ) (t : Table) (tree : Tree) → Reads bytes tree → WellTyped tree t → SinglyAssigned (core t tree) → (test : Fact → Bool)
        → ((f : Fact) → New (core t tree) (λ f. IsTrue (test f)) f → IsTrue (test f))
        → ((f : Fact) → IsTrue (test f) → New (core t tree) (λ f. IsTrue (test f)) f)
        → ((p : Place) (v u : Value) → IsTrue (test (value p v)) → IsTrue (test (value p u)) → v ≡ u)
        → ((a : Place) → OneWriter (λ f. IsTrue (test f)) a)
        → (f : Fact) → Meaning (core t tree) f → IsTrue (test f) }
{}
