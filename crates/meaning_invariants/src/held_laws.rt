//! Laws of the facts that a program holds. The functions have empty bodies; their contracts are the laws.
ghost use Rattle.std.specs.Prelude.{◌≡◌, ◌↔◌, ◌⊎◌, ℕ, suc, List, map};
ghost use Rattle.language.specs.Core.{Core};
ghost use Rattle.language.specs.Facts as script;
ghost use Rattle.language.specs.Meaning.{Known};
ghost use Rattle.language.specs.Members.{◌∈◌};
ghost use Rattle.language.specs.Reads.{Reads};
ghost use Rattle.language.specs.Resolved.{core};
ghost use Rattle.language.specs.Single.{SinglyAssigned};
ghost use Rattle.language.specs.Table.{Table};
ghost use Rattle.language.specs.Tree.{Tree};
ghost use Rattle.language.specs.Typing.{WellTyped};
ghost use Rattle.meaning_steps.specs.Kept.{Keeps, past_by, sight_by};
ghost use Rattle.meaning_steps.specs.News.{ToldOf};
ghost use Rattle.meaning_facts.specs.Added.{IsNothing};
ghost use Rattle.meaning_facts.specs.Keeping.{kept_of};
ghost use Rattle.meaning_facts.specs.Growing.{fact_view, IsWithin, with_facts};
ghost use Rattle.meaning_facts.specs.Paths.{IsTree};
ghost use Rattle.meaning_invariants.specs.Held.{AreAdded, Grows, Holds, with_instances};

use meaning_facts::fact_base::FactBase;
use meaning_facts::facts::{Fact, Facts};
use meaning_facts::instances::Instances;

/// States that a fact base without facts holds exactly what is known before the first round.
pub fn nothing_is_held()
    ensures { (s : Core) (l : FactBase) → IsNothing l.facts → Holds (Known s 0) l }
{}

/// States that a fact base still holds exactly what is known when more instances are opened.
pub fn what_is_held_stays()
    ensures { (s : Core) (n : ℕ) (l : FactBase) (t : Instances) → IsTree l.instances → IsTree t → Grows l.instances.all.items t.all.items
        → Holds (Known s n) l → Holds (Known s n) (with_instances l t) }
{}

/// States for an accepted script that adding exactly the facts of the next round preserves `Holds`. If the fact base
/// holds what is known after n rounds, it then holds what is known after round n + 1. The facts must be at places of
/// instances.
pub fn a_round_is_held()
    ensures { (bytes : List ℕ) (t : Table) (tree : Tree) → Reads bytes tree → WellTyped tree t → SinglyAssigned (core t tree)
        → (n : ℕ) (l : FactBase) (fs : List Fact) (k : Facts) → IsTree l.instances → Holds (Known (core t tree) n) l → AreAdded l.facts fs k
        → ((f : Fact) → f ∈ fs → IsWithin l.instances.all.items f)
        → ((f : script.Fact) → Known (core t tree) (suc n) f ↔ (Known (core t tree) n f ⊎ (f ∈ map (fact_view l.instances.all.items) fs)))
        → Holds (Known (core t tree) (suc n)) (with_facts l k) }
{}

/// States for an accepted script that no fact derived in a round is already known. The fact base must hold exactly what
/// is known after the rounds before.
pub fn what_is_told_is_new()
    ensures { (bytes : List ℕ) (t : Table) (tree : Tree) → Reads bytes tree → WellTyped tree t → SinglyAssigned (core t tree)
        → (n : ℕ) (l : FactBase) → IsTree l.instances → Keeps (core t tree) (Known (core t tree) n) (kept_of l) → Holds (Known (core t tree) n) l
        → (f : script.Fact) → ToldOf (core t tree) (Known (core t tree) n) (sight_by (core t tree) (kept_of l)) (past_by (core t tree) (kept_of l)) f
        → ¬ Known (core t tree) n f }
{}
