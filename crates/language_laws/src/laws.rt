//! Laws of the meaning of well formed and singly assigned cores. The functions are empty; each contract is a law of the
//! definitions in `language`.

ghost use Rattle.std.specs.Prelude.{◌≡◌, ◌≢◌, ◌↔◌, ◌≤◌, ℕ, List, length, Bool, IsTrue, Result};
ghost use Rattle.values.specs.declared.key.Key.{Key};
ghost use Rattle.values.specs.declared.map.Element.{Element};
ghost use Rattle.values.specs.declared.value.Scalar.{Scalar};
ghost use Rattle.values.specs.declared.value.Value.{Value};
ghost use Rattle.language.specs.Core.{Block, Cell, Core, Form, Stmt};
ghost use Rattle.language.specs.Facts.{Fact, Fault, value, element, fault, Elements, OneWriter};
ghost use Rattle.language.specs.Meaning.{Closed, Gives, HasValue, Live, New, Known, Meaning};
ghost use Rattle.language.specs.Members.{◌∈◌};
ghost use Rattle.language.specs.Outcomes.{Clean};
ghost use Rattle.language.specs.Parts.{cells, script_stmts, stmt_node};
ghost use Rattle.language.specs.Places.{Path, Place, max_path_steps};
ghost use Rattle.language.specs.Resolved.{core};
ghost use Rattle.language.specs.Single.{SinglyAssigned};
ghost use Rattle.language.specs.Table.{Table};
ghost use Rattle.language.specs.Tree.{Tree};
ghost use Rattle.language.specs.Typing.{WellTyped};
ghost use Rattle.language.specs.WellFormed.{WellFormed};

/// Proves that a cell or variable has at most one value, whenever it becomes known. Variables are futures that are
/// assigned once, as in the Swift/T Guide.
pub fn one_value()
    ensures { (s : Core) → WellFormed s → SinglyAssigned s → (p : Place) (v u : Value) → Meaning s (value p v) → Meaning s (value p u) → v ≡ u }
{}

/// Proves that a name has at most one scalar wherever it is read, loop variables included. This holds in the meaning
/// and after each round.
pub fn one_scalar()
    ensures meaning { (s : Core) → WellFormed s → SinglyAssigned s → (p : Place) (v u : Scalar) → HasValue s (Meaning s) p v
        → HasValue s (Meaning s) p u → v ≡ u }
    ensures round { (s : Core) → WellFormed s → SinglyAssigned s → (n : ℕ) (p : Place) (v u : Scalar)
        → HasValue s (Known s n) p v → HasValue s (Known s n) p u → v ≡ u }
{}

/// Proves that each scalar of a name becomes known in some round.
pub fn a_scalar_comes_in_a_round()
    ensures { (s : Core) → WellFormed s → SinglyAssigned s → (p : Place) (v : Scalar) → HasValue s (Meaning s) p v → (n : ℕ) × HasValue s (Known s n) p v }
{}

/// Proves that a name has a scalar only at a path where a block is live. A variable of a loop that never opens has
/// none.
pub fn a_scalar_is_at_a_live_block()
    ensures { (s : Core) → WellFormed s → SinglyAssigned s → (p : Place) (v : Scalar) → HasValue s (Meaning s) p v → (b : Block) × Live s (Meaning s) p.0 b }
{}

/// Proves that no block is live at a path of more than `max_path_steps` steps.
pub fn live_paths_are_bounded()
    ensures { (s : Core) (path : Path) (b : Block) → Live s (Meaning s) path b → length path ≤ max_path_steps }
{}

/// Proves that a cell evaluates to at most one value or fault, in whichever rounds.
pub fn a_cell_has_one_value_or_fault()
    ensures { (s : Core) → WellFormed s → SinglyAssigned s → (n m : ℕ) (path : Path) (f : Form) (r q : Result Value Fault)
        → Gives s (Known s n) path f r → Gives s (Known s m) path f q → r ≡ q }
{}

/// Proves that a cell has at most one fact: not both a value and a fault, and not two faults. The number of the cell
/// must not be that of a statement.
pub fn a_cell_has_no_two_facts()
    ensures not_both { (s : Core) → WellFormed s → SinglyAssigned s → (st : Stmt) (c : Cell) → st ∈ script_stmts s → c ∈ cells st
        → ((x : Stmt) → x ∈ script_stmts s → stmt_node x ≢ c.node)
        → (path : Path) (v : Value) (f : Fault) (at : ℕ) → Meaning s (value (path, c.node) v) → Meaning s (fault f at (path, c.node)) → ⊥ }
    ensures one_fault { (s : Core) → WellFormed s → SinglyAssigned s → (st : Stmt) (c : Cell) → st ∈ script_stmts s → c ∈ cells st
        → ((x : Stmt) → x ∈ script_stmts s → stmt_node x ≢ c.node)
        → (path : Path) (f g : Fault) (at to : ℕ) → Meaning s (fault f at (path, c.node)) → Meaning s (fault g to (path, c.node)) → (f ≡ g) × (at ≡ to) }
{}

/// Proves that a statement writes at most one value under a key.
pub fn one_element()
    ensures { (s : Core) → WellFormed s → SinglyAssigned s → (a : Place) (k : Key) (w : Place) (v u : Scalar)
        → Meaning s (element a k w v) → Meaning s (element a k w u) → v ≡ u }
{}

/// Proves that an array that is closed after some round already has all elements that it ever has.
pub fn closed_array_is_full()
    ensures { (s : Core) → WellFormed s → SinglyAssigned s → (n : ℕ) (a : Place) → Closed s (Known s n) a
        → (k : Key) (w : Place) (v : Scalar) → Meaning s (element a k w v) → Known s n (element a k w v) }
{}

/// Proves that a closed array has finitely many elements, in the meaning and after each round.
pub fn a_closed_array_is_a_list()
    ensures meaning { (s : Core) → WellFormed s → SinglyAssigned s → (a : Place) → Closed s (Meaning s) a → (es : List Element) × Elements (Meaning s) a es }
    ensures round { (s : Core) → WellFormed s → SinglyAssigned s → (n : ℕ) (a : Place) → Closed s (Known s n) a
        → (es : List Element) × Elements (Known s n) a es }
{}

/// Proves that each key has at most one writer in the meaning, if no key has two writers in any round.
pub fn one_writer()
    ensures { (s : Core) → WellFormed s → SinglyAssigned s → Clean s → (a : Place) → OneWriter (Meaning s) a }
{}

/// Proves that a closed array stays closed.
pub fn closed_stays()
    ensures { (s : Core) → WellFormed s → SinglyAssigned s → (n m : ℕ) (a : Place) → n ≤ m → Closed s (Known s n) a → Closed s (Known s m) a }
{}

/// Proves that a live block stays live.
pub fn live_stays()
    ensures { (s : Core) → WellFormed s → SinglyAssigned s → (n m : ℕ) (path : Path) (b : Block) → n ≤ m
        → Live s (Known s n) path b → Live s (Known s m) path b }
{}

/// Proves that each fact that follows from the meaning is in the meaning, so it is known after some round.
pub fn meaning_is_closed()
    ensures { (s : Core) → WellFormed s → SinglyAssigned s → (f : Fact) → New s (Meaning s) f → Meaning s f }
{}

/// Proves that the meaning consists of exactly the facts that follow from it, if no key is written twice.
pub fn meaning_follows_from_itself()
    ensures { (s : Core) → WellFormed s → SinglyAssigned s → Clean s → (f : Fact) → Meaning s f ↔ New s (Meaning s) f }
{}

/// Proves that the meaning is contained in every set of facts that consists of exactly what follows from it. The set
/// has at most one value at a place and one writer of a key, and is given as a test.
pub fn meaning_is_least()
    ensures { (s : Core) → WellFormed s → SinglyAssigned s → (test : Fact → Bool)
        → ((f : Fact) → New s (λ f. IsTrue (test f)) f → IsTrue (test f))
        → ((f : Fact) → IsTrue (test f) → New s (λ f. IsTrue (test f)) f)
        → ((p : Place) (v u : Value) → IsTrue (test (value p v)) → IsTrue (test (value p u)) → v ≡ u)
        → ((a : Place) → OneWriter (λ f. IsTrue (test f)) a)
        → (f : Fact) → Meaning s f → IsTrue (test f) }
{}

/// Proves that a tree has one core. Names are found by their texts, so two tables by which a tree is well typed agree
/// on everything that its core is made of.
pub fn one_core()
    ensures { (tree : Tree) (t u : Table) → WellTyped tree t → WellTyped tree u → core t tree ≡ core u tree }
{}
