//! Laws of opened blocks. The functions have empty bodies; their contracts are the laws.
ghost use Rattle.std.specs.Prelude.{◌≡◌, ◌<◌, ◌++◌, [], ℕ, suc, pos, List, length, None, Some, slice_get, cond, true};
ghost use Rattle.values.specs.declared.key.Key.{Key};
ghost use Rattle.meaning_facts.specs.declared.facts.Place.{Place as Spot};
ghost use Rattle.meaning_cells.specs.Ending.{IsDone};
ghost use Rattle.meaning_facts.specs.Sighted.{closed_at};
ghost use Rattle.language.specs.Core.{Action, Block, Call, Core, Function, Stmt, stmt};
ghost use Rattle.language.specs.Facts.{Knowledge};
ghost use Rattle.language.specs.Meaning.{Known};
ghost use Rattle.language.specs.Parts.{call_at, input_name, output_name};
ghost use Rattle.language.specs.Places.{max_path_steps};
ghost use Rattle.meaning_cells.specs.Chosen.{Chosen, block_in, chosen_in, count_in, key_in};
ghost use Rattle.meaning_facts.specs.Sighted.{sight_of};
ghost use Rattle.meaning_invariants.specs.Turns.{turn_variables};
ghost use Rattle.meaning_facts.specs.Paths.{child_at, path_of, IsOpen};
ghost use Rattle.meaning_facts.specs.Indexed.{one_writer_in};
ghost use Rattle.meaning_facts.specs.Store.{given_at, same_place, spot, spots, variable_in, writes_at};
ghost use Rattle.meaning_invariants.specs.Held.{with_instances};
ghost use Rattle.meaning_invariants.specs.Opened.{ArePassed, GoesOn, IsChildOf, IsOpening, IsSoFar, IsUnready, OffsetsApart, Origin};
ghost use Rattle.meaning_invariants.specs.Listed.{all_active, declares};
ghost use Rattle.meaning_invariants.specs.Active.{IsAllOpen, IsRight};
ghost use Rattle.language.specs.Members.{◌∈◌};
ghost use Rattle.language.specs.Resolved.{core};
ghost use Rattle.language.specs.Table.{Table};
ghost use Rattle.language.specs.Tree.{Tree};
ghost use Rattle.language_accepted.specs.Placed.{IsPlaced};
ghost use Rattle.language.specs.Single.{SinglyAssigned};
ghost use Rattle.language.specs.WellFormed.{WellFormed};
ghost use Rattle.meaning_facts.specs.Growing.{with_facts};
ghost use Rattle.meaning_invariants.specs.Held.{Holds};
ghost use Rattle.language.specs.Parts.{block_list, stmt_calls};
ghost use Rattle.meaning_invariants.specs.Active.{Active, active, Candidate, goal_of};

use meaning_facts::fact_base::FactBase;
use meaning_facts::facts::Facts;
use meaning_facts::instances::{InstanceBindings, Instances};
use paths::Step;

/// States that `GoesOn`, the extension of a state by instances and statements, is transitive.
pub fn going_on()
    ensures { (l m r : FactBase) (ls ms rs : List Active) → GoesOn l ls m ms → GoesOn m ms r rs → GoesOn l ls r rs }
{}

/// States that one more instance preserves `IsSoFar`. The instance is opened in an existing one by a header or a call,
/// with the bindings of that header or call.
pub fn one_more_is_so()
    ensures so { (s : Core) (n : ℕ) (levels : ℕ) (l : FactBase) (ls : List Active) (arrays : List Candidate) → IsSoFar s (Known s n) levels l ls arrays
        → (i : ℕ) → i < length l.instances.all.items → (x : Step) (g : InstanceBindings) (u : Instances) → IsOpen l.instances i x g u
        → child_at l.instances i x.offset x.key ≡ None
        → length (path_of l.instances.all.items i) < max_path_steps
        → ((j : ℕ) → given_at g.inputs.items j i ≡ spot l.instances.all.items i (input_name (call_at s x.offset) j))
        → ((j : ℕ) → given_at g.outputs.items j i ≡ spot l.instances.all.items i (output_name (call_at s x.offset) j))
        → Origin s (Known s n) (path_of l.instances.all.items i) x.offset x.key (variable_in g.variables.items)
        → IsSoFar s (Known s n) levels (with_instances l u) ls arrays }
{}

/// States that a block that becomes live at a step preserves `IsSoFar`. Its instance may exist before, or be opened
/// now.
pub fn one_block_more_is_so()
    ensures { (s : Core) (n levels : ℕ) (l : FactBase) (ls : List Active) (arrays : List Candidate) → IsSoFar s (Known s n) levels l ls arrays
        → (i : ℕ) (x : Step) (g : InstanceBindings) (b : Block) → IsOpening s (Known s n) l i x g b → (m : FactBase) (child : ℕ) → IsChildOf l i x g m child
        → IsSoFar s (Known s n) levels m (ls ++ all_active child (block_list b)) (arrays ++ declares s levels child b (block_list b)) }
{}

/// States that every ready block is open, and what was opened is right, once all statements are processed. The choices
/// of the pending headers must not be known.
pub fn all_is_open()
    ensures opened { (s : Core) → WellFormed s → SinglyAssigned s → OffsetsApart s → (n levels : ℕ) (l : FactBase) (ls : List Active) (arrays : List Candidate)
        → IsSoFar s (Known s n) levels l ls arrays
        → (ws : List Active) → ArePassed s (Known s n) l ls ls ws → ((a : Active) → a ∈ ws → IsUnready l a) → IsAllOpen s (Known s n) l ls }
    ensures right { (s : Core) (n levels : ℕ) (l : FactBase) (ls : List Active) (arrays : List Candidate) → IsSoFar s (Known s n) levels l ls arrays
        → IsRight s (Known s n) l ls }
{}

/// States that what was opened and closed up to a round stays open and closed after the next round.
pub fn a_round_later_it_is_so()
    ensures so { (s : Core) → WellFormed s → SinglyAssigned s → (n levels : ℕ) (l : FactBase) (k : Facts) (ls : List Active) (arrays : List Candidate)
        → IsSoFar s (Known s n) levels l ls arrays
        → Holds (Known s (suc n)) (with_facts l k) → IsSoFar s (Known s (suc n)) levels (with_facts l k) ls arrays }
    ensures passed { (s : Core) → WellFormed s → SinglyAssigned s → (n : ℕ) (l : FactBase) (k : Facts) (ls ps ws : List Active)
        → ArePassed s (Known s n) l ls ps ws
        → ArePassed s (Known s (suc n)) (with_facts l k) ls ps ws }
{}

/// States which blocks may be opened. These are the body of a call of a live statement, and a block of a live header in
/// a turn of its choice. The bindings must be those of the call, or the values of the loop variables in that turn.
pub fn what_may_be_opened()
    ensures calls { (s : Core) (n levels : ℕ) (l : FactBase) (ls : List Active) (arrays : List Candidate) → WellFormed s
        → IsSoFar s (Known s n) levels l ls arrays
        → (i : ℕ) (x : Step) (g : InstanceBindings) (st : Stmt) (c : Call) (f : Function) → active i st ∈ ls → c ∈ stmt_calls st
        → slice_get s.functions c.function ≡ Some f
        → length (path_of l.instances.all.items i) < max_path_steps → x.offset ≡ c.at → x.key ≡ Key.Number (pos 0)
        → g.inputs.items ≡ spots l.instances.all.items i c.inputs → g.outputs.items ≡ spots l.instances.all.items i c.outputs → g.variables.items ≡ []
        → IsOpening s (Known s n) l i x g f.body }
    ensures turns { (s : Core) (n levels : ℕ) (l : FactBase) (ls : List Active) (arrays : List Candidate) → WellFormed s → OffsetsApart s
        → IsSoFar s (Known s n) levels l ls arrays
        → (i : ℕ) (x : Step) (g : InstanceBindings) (at node : ℕ) (header : Action) (c : Chosen) (j : ℕ) (b : Block) → active i (stmt at node header) ∈ ls
        → chosen_in (sight_of l i) header ≡ Some c
        → j < count_in c → block_in header c ≡ Some b → length (path_of l.instances.all.items i) < max_path_steps → x.offset ≡ at → x.key ≡ key_in c j
        → g.inputs.items ≡ [] → g.outputs.items ≡ [] → g.variables.items ≡ turn_variables header c j → IsOpening s (Known s n) l i x g b }
{}

/// States that closing one more array preserves `IsSoFar`, if its block is finished and no key has two writers. What
/// was processed stays so.
pub fn one_close_more_is_so()
    ensures so { (s : Core) (n levels : ℕ) (l : FactBase) (ls : List Active) (arrays : List Candidate) → IsSoFar s (Known s n) levels l ls arrays
        → (p : Spot) (b : Block) → ◌∈◌ {X = Candidate} (p, b) arrays → IsDone s l (goal_of p b) → one_writer_in (writes_at l.facts p) ≡ true
        → (m : FactBase) → m.facts ≡ l.facts → m.instances ≡ l.instances → ((q : Spot) → closed_at m q ≡ cond (same_place p q) true (closed_at l q))
        → IsSoFar s (Known s n) levels m ls arrays }
    ensures passed { (s : Core) (n : ℕ) (l m : FactBase) (ls ps ws : List Active) → m.facts ≡ l.facts → m.instances ≡ l.instances
        → ArePassed s (Known s n) l ls ps ws → ArePassed s (Known s n) m ls ps ws }
{}

/// States that in the core of a placed tree each header has an offset of its own, which no call has. The tree of every
/// text that parses is placed.
pub fn offsets_are_apart()
    ensures { (t : Table) (tree : Tree) → IsPlaced tree → OffsetsApart (core t tree) }
{}
