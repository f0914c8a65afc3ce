//! Laws of the derivation of rounds. The functions have empty bodies; their contracts are the laws.
ghost use Rattle.std.specs.Prelude.{◌≡◌, ◌↔◌, ◌⊎◌, ◌<◌, ℕ, suc, List, [], length, false, true};
ghost use Rattle.language.specs.Core.{Action, Block, Core, Name, stmt};
ghost use Rattle.language.specs.Facts.{Fact as Told};
ghost use Rattle.language.specs.Meaning.{Known};
ghost use Rattle.language.specs.Members.{◌∈◌};
ghost use Rattle.language.specs.Reads.{Reads};
ghost use Rattle.language.specs.Resolved.{core};
ghost use Rattle.language.specs.Single.{SinglyAssigned};
ghost use Rattle.language.specs.Table.{Table};
ghost use Rattle.language.specs.Tree.{Tree};
ghost use Rattle.language.specs.Typing.{WellTyped};
ghost use Rattle.language.specs.WellFormed.{WellFormed};
ghost use Rattle.meaning_facts.specs.declared.facts.Place.{Place as Spot};
ghost use Rattle.meaning_cells.specs.Ending.{IsDone};
ghost use Rattle.meaning_facts.specs.Growing.{with_facts};
ghost use Rattle.meaning_facts.specs.Sighted.{closed_at};
ghost use Rattle.meaning_facts.specs.Indexed.{one_writer_in};
ghost use Rattle.meaning_facts.specs.Store.{writes_at};
ghost use Rattle.meaning_invariants.specs.Held.{AreAdded, AreInside, HasPlaces};
ghost use Rattle.meaning_invariants.specs.Active.{Active, Candidate, goal_of};
ghost use Rattle.meaning_invariants.specs.Opened.{IsUnready, OffsetsApart};
ghost use Rattle.meaning_round.specs.Going.{IsTelling, StandsBetween};
ghost use Rattle.meaning_round.specs.Standing.{HavePlaces, IsAfter};
ghost use Rattle.meaning_round.specs.Viewed.{facts_view};
ghost use Rattle.language.specs.Places.{place};
ghost use Rattle.meaning_facts.specs.Keeping.{past_of};
ghost use Rattle.meaning_facts.specs.Paths.{path_of};
ghost use Rattle.meaning_facts.specs.Sighted.{sight_of};
ghost use Rattle.meaning_facts.specs.declared.fact_base.FactBase.{FactBase};
ghost use Rattle.meaning_steps.specs.News.{news};
ghost use Rattle.meaning_round.specs.declared.site.LiveStatement.{LiveStatement};
ghost use Rattle.meaning_round.specs.More.{KnowsMore};
ghost use Rattle.meaning_round.specs.Reads.{site_reads, IsSame};
ghost use Rattle.meaning_round.specs.declared.worklist.WakeEvent.{WakeEvent};
ghost use Rattle.meaning_round.specs.Told.{lies_at, site_news};

use meaning_facts::facts::{Fact, Facts};

/// States that the facts derived from a live statement are `news` of the meaning, if names resolve to the places that
/// they denote.
pub fn told_is_news()
    ensures { (s : Core) (l : FactBase) (t : LiveStatement) (a : Action) → ((x : Name) → lies_at l t x ≡ place s (path_of l.instances.all.items t.instance) x)
        → site_news l t a ≡ news s (sight_of l t.instance) (past_of l t.instance) (path_of l.instances.all.items t.instance) (stmt t.at t.node a) }
{}

/// States that a statement without a new fact still has none when more is known, as long as nothing that it read has
/// changed.
pub fn silence_stays()
    ensures { (l m : FactBase) → KnowsMore l m → (t : LiveStatement) (a : Action) → HasPlaces l.instances.all.items t.instance
        → site_news l t a ≡ [] → ((e : WakeEvent) → e ∈ site_reads l t a → IsSame l m e) → site_news m t a ≡ [] }
{}

/// States for an accepted script that a state between rounds is the state after n rounds once it is settled. Settled
/// means that every ready block is open and every finished array is closed.
pub fn a_settled_state_is_after()
    ensures { (s : Core) → WellFormed s → SinglyAssigned s → OffsetsApart s
        → (n : ℕ) (l : FactBase) (ls : List Active) (arrays : List Candidate) (waiting telling : List Active)
        → StandsBetween s n l ls arrays ls waiting → IsTelling l ls telling → ((a : Active) → a ∈ waiting → IsUnready l a)
        → ((p : Spot) (b : Block) → ◌∈◌ {X = Candidate} (p, b) arrays → closed_at l p ≡ false → IsDone s l (goal_of p b)
        → one_writer_in (writes_at l.facts p) ≡ true → ⊥)
        → IsAfter s n l ls telling }
{}

/// States that a state after n rounds becomes a state between the next two rounds, when the facts of the next round are
/// added.
pub fn a_round_goes_on()
    ensures { (bytes : List ℕ) (t : Table) (tree : Tree) → Reads bytes tree → WellTyped tree t → SinglyAssigned (core t tree)
        → (n : ℕ) (l : FactBase) (ls : List Active) (arrays : List Candidate) (passed waiting telling : List Active) (news : List Fact) (k : Facts)
        → StandsBetween (core t tree) n l ls arrays passed waiting → IsAfter (core t tree) n l ls telling
        → (HavePlaces l.instances.all.items telling → AreInside l.instances.all.items news) → AreAdded l.facts news k
        → ((f : Told) → Known (core t tree) (suc n) f ↔ (Known (core t tree) n f ⊎ (f ∈ facts_view l.instances.all.items news)))
        → StandsBetween (core t tree) (suc n) (with_facts l k) ls arrays passed waiting }
{}
