//! Laws of blocked statements. The functions have empty bodies; their contracts are the laws.
ghost use Rattle.std.specs.Prelude.{◌≡◌, ◌↔◌, ◌<◌, ℕ, List, length, true};
ghost use Rattle.language.specs.Core.{Action, stmt};
ghost use Rattle.language.specs.Meaning.{Known, LiveStmt};
ghost use Rattle.language.specs.Outcomes.{Stuck};
ghost use Rattle.language.specs.Reads.{Reads};
ghost use Rattle.language.specs.Resolved.{core};
ghost use Rattle.language.specs.Single.{SinglyAssigned};
ghost use Rattle.language.specs.Table.{Table};
ghost use Rattle.language.specs.Tree.{Tree};
ghost use Rattle.language.specs.Typing.{WellTyped};
ghost use Rattle.meaning_steps.specs.Kept.{Keeps};
ghost use Rattle.meaning_facts.specs.Keeping.{kept_of, IsPlaced};
ghost use Rattle.meaning_facts.specs.Paths.{path_of};
ghost use Rattle.meaning_invariants.specs.Held.{Holds};
ghost use Rattle.meaning_outcomes.specs.Stuck.{is_stuck_in};

use meaning_facts::fact_base::FactBase;

/// States for an accepted script that `is_stuck_in` holds for exactly the live statements that are blocked after n
/// rounds. The fact base must hold exactly what is known then.
pub fn what_is_stuck()
    ensures { (bytes : List ℕ) (t : Table) (tree : Tree) → Reads bytes tree → WellTyped tree t → SinglyAssigned (core t tree)
        → (n : ℕ) (l : FactBase) → IsPlaced (core t tree) l.instances → Keeps (core t tree) (Known (core t tree) n) (kept_of l) → Holds (Known (core t tree) n) l
        → (i : ℕ) → i < length l.instances.all.items → (at m : ℕ) (a : Action)
        → LiveStmt (core t tree) (Known (core t tree) n) (path_of l.instances.all.items i) (stmt at m a)
        → (is_stuck_in l i (stmt at m a) ≡ true) ↔ Stuck (core t tree) (Known (core t tree) n) (path_of l.instances.all.items i) at m a }
{}
