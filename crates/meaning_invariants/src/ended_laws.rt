//! Laws of finished blocks and closed arrays. The functions have empty bodies; their contracts are the laws.
ghost use Rattle.std.specs.Prelude.{◌≡◌, ◌<◌, ℕ, List, Some, length, true};
ghost use Rattle.values.specs.declared.value.Scalar.{Scalar};
ghost use Rattle.values.specs.declared.value.Value.{Value};
ghost use Rattle.language.specs.Core.{Action, Awaited, Block, Core, Owned, Stmt, stmt};
ghost use Rattle.language.specs.Facts.{OneWriter};
ghost use Rattle.language.specs.Meaning.{IsTarget, Known, LiveStmt};
ghost use Rattle.language.specs.Members.{◌∈◌};
ghost use Rattle.language.specs.Openings.{InTurn};
ghost use Rattle.language.specs.Parts.{block_list, script_stmts};
ghost use Rattle.language.specs.Places.{Path, Place};
ghost use Rattle.language.specs.Single.{SinglyAssigned};
ghost use Rattle.language.specs.WellFormed.{LoopsApart, WellFormed};
ghost use Rattle.meaning_steps.specs.Kept.{Keeps};
ghost use Rattle.meaning_steps.specs.Environment.{Sight};
ghost use Rattle.meaning_steps.specs.Taken.{ComeBy, FinishedBy, ReadyBy};
ghost use Rattle.meaning_cells.specs.Chosen.{Chosen, chosen_in, count_in, have_come_in, key_in};
ghost use Rattle.meaning_cells.specs.Ending.{Goal, IsDone};
ghost use Rattle.meaning_facts.specs.Growing.{KeepsFacts};
ghost use Rattle.meaning_facts.specs.Keeping.{kept_of, IsPlaced};
ghost use Rattle.meaning_facts.specs.Paths.{path_of, IsTree};
ghost use Rattle.meaning_facts.specs.Sighted.{sight_of};
ghost use Rattle.meaning_facts.specs.Indexed.{one_writer_in};
ghost use Rattle.meaning_facts.specs.Store.{variable_in, writes_at};
ghost use Rattle.meaning_cells.specs.Taking.{SeesBy};
ghost use Rattle.meaning_cells.specs.Targeted.{aims};
ghost use Rattle.meaning_invariants.specs.Active.{Active, active, Candidate, taken_by, HasIndexes, IsAllClosed, IsAllOpen, IsListed, IsRight};
ghost use Rattle.meaning_invariants.specs.Never.{never_ends};
ghost use Rattle.meaning_invariants.specs.Turns.{turn_variables};

use meaning_facts::fact_base::FactBase;

/// States that the test for targets, `aims`, finds exactly the targets.
pub fn what_is_aimed_at()
    ensures so { (x : Owned) (st : Stmt) → aims x st ≡ true → IsTarget x st }
    ensures all { (x : Owned) (st : Stmt) → IsTarget x st → aims x st ≡ true }
{}

/// States for a fact base with exactly the known facts that an instance sees what is known and taken at its path. The
/// inputs of a `wait` are known there exactly if they are taken to be.
pub fn what_is_taken()
    ensures sees { (s : Core) (n : ℕ) (l : FactBase) (ls : List Active) → IsPlaced s l.instances → KeepsFacts (Known s n) l
        → ((a : Place) → (kept_of l).closed a ≡ true → OneWriter (Known s n) a)
        → (i : ℕ) → i < length l.instances.all.items → SeesBy s (Known s n) (taken_by l ls) (path_of l.instances.all.items i) (sight_of l i) }
    ensures come_so { (s : Core) (l : FactBase) (ls : List Active) → IsPlaced s l.instances → (i : ℕ) → i < length l.instances.all.items
        → (ns : List Awaited) → have_come_in (sight_of l i) ns ≡ true → (x : Awaited) → x ∈ ns → ComeBy s (taken_by l ls) (path_of l.instances.all.items i) x }
    ensures come_all { (s : Core) (l : FactBase) (ls : List Active) → IsPlaced s l.instances → (i : ℕ) → i < length l.instances.all.items
        → (ns : List Awaited) → ((x : Awaited) → x ∈ ns → ComeBy s (taken_by l ls) (path_of l.instances.all.items i) x)
        → have_come_in (sight_of l i) ns ≡ true }
{}

/// States that each statement of a block with `IsDone` is finished by what is taken. The converse holds if every ready
/// block is open, and the statements of the block are listed.
pub fn what_is_done()
    ensures finished { (s : Core) (n : ℕ) (l : FactBase) (ls : List Active) → IsPlaced s l.instances → KeepsFacts (Known s n) l
        → ((a : Place) → (kept_of l).closed a ≡ true → OneWriter (Known s n) a)
        → (g : Goal) → IsDone s l g → g.instance < length l.instances.all.items
        → (st : Stmt) → st ∈ block_list g.block → FinishedBy s (Known s n) (taken_by l ls) g.what (path_of l.instances.all.items g.instance) st }
    ensures ended { (s : Core) (n : ℕ) (l : FactBase) (ls : List Active) → IsPlaced s l.instances → KeepsFacts (Known s n) l → IsRight s (Known s n) l ls
        → IsAllOpen s (Known s n) l ls → HasIndexes s (Known s n)
        → (g : Goal) → g.instance < length l.instances.all.items → ((st : Stmt) → st ∈ block_list g.block → active g.instance st ∈ ls)
        → ((st : Stmt) → st ∈ block_list g.block → FinishedBy s (Known s n) (taken_by l ls) g.what
        (path_of l.instances.all.items g.instance) st) → IsDone s l g }
{}

/// States for an accepted script that the index of each known element is known.
pub fn what_was_indexed()
    ensures { (s : Core) → WellFormed s → SinglyAssigned s → (n : ℕ) → HasIndexes s (Known s n) }
{}

/// States that a block in which a variable never ends is not finished for it.
pub fn what_never_ends()
    ensures { (s : Core) (n : ℕ) (l : FactBase) (ls : List Active) (levels : ℕ) (x : Owned) (path : Path) (b : Block) → never_ends s levels x b ≡ true
        → ((st : Stmt) → st ∈ block_list b → FinishedBy s (Known s n) (taken_by l ls) x path st) → ⊥ }
{}

/// States for a fact base with exactly the known facts that `one_writer_in` is exact. It holds for the writes of an
/// array exactly if no key has two writers.
pub fn one_writer_a_key()
    ensures so { (s : Core) (n : ℕ) (l : FactBase) → IsTree l.instances → KeepsFacts (Known s n) l → (i : ℕ) → i < length l.instances.all.items → (node : ℕ)
        → one_writer_in (writes_at l.facts (record { instance = i; node = node })) ≡ true → OneWriter (Known s n) (path_of l.instances.all.items i, node) }
    ensures all { (s : Core) (n : ℕ) (l : FactBase) → IsTree l.instances → KeepsFacts (Known s n) l → (i : ℕ) → i < length l.instances.all.items → (node : ℕ)
        → OneWriter (Known s n) (path_of l.instances.all.items i, node) → one_writer_in (writes_at l.facts (record { instance = i; node = node })) ≡ true }
{}

/// States that the loop variables of a ready loop have, in each turn, exactly the values that the meaning gives them.
/// The instance must see what is known and taken at its path.
pub fn what_a_variable_is()
    ensures given { (s : Core) (n : ℕ) (l : FactBase) (ls : List Active) (path : Path) (g : Sight) → LoopsApart s → SeesBy s (Known s n) (taken_by l ls) path g
        → (at node : ℕ) (header : Action) (vs : List Value) → stmt at node header ∈ script_stmts s → (c : Chosen) → chosen_in g header ≡ Some c
        → ReadyBy s (Known s n) (taken_by l ls) path header vs
        → (i : ℕ) → i < count_in c → (x : ℕ) (v : Scalar) → InTurn header vs (key_in c i) x v → variable_in (turn_variables header c i) x ≡ Some v }
    ensures so { (s : Core) (n : ℕ) (l : FactBase) (ls : List Active) (path : Path) (g : Sight) → SeesBy s (Known s n) (taken_by l ls) path g
        → (header : Action) (vs : List Value) (c : Chosen) → chosen_in g header ≡ Some c → ReadyBy s (Known s n) (taken_by l ls) path header vs
        → (i : ℕ) → i < count_in c → (x : ℕ) (v : Scalar) → variable_in (turn_variables header c i) x ≡ Some v → InTurn header vs (key_in c i) x v }
{}

/// States for an accepted script that a settled state keeps exactly what is known, and lists all that is live.
///
/// The state has exactly the facts that are known after n rounds, and what it lists and marks is right. Settled means
/// that every ready block is open and every finished array is closed.
pub fn what_is_settled()
    ensures keeps { (s : Core) → WellFormed s → SinglyAssigned s → (n levels : ℕ) (l : FactBase) (ls : List Active) (arrays : List Candidate)
        → IsPlaced s l.instances → KeepsFacts (Known s n) l
        → IsRight s (Known s n) l ls → IsAllOpen s (Known s n) l ls → IsAllClosed s levels l ls arrays → Keeps s (Known s n) (kept_of l) }
    ensures live { (s : Core) → WellFormed s → SinglyAssigned s → (n levels : ℕ) (l : FactBase) (ls : List Active) (arrays : List Candidate)
        → IsPlaced s l.instances → KeepsFacts (Known s n) l
        → IsRight s (Known s n) l ls → IsAllOpen s (Known s n) l ls → IsAllClosed s levels l ls arrays → (path : Path) (st : Stmt)
        → LiveStmt s (Known s n) path st → IsListed l ls path st }
{}
