//! Laws of the facts that a round derives. The functions have empty bodies; their contracts are the laws.
ghost use Rattle.std.specs.Prelude.{◌≡◌, ◌↔◌, ◌⊎◌, ℕ, suc, List, Some, Result};
ghost use Rattle.values.specs.declared.fault.OpFault.{OpFault};
ghost use Rattle.values.specs.declared.value.Scalar.{Scalar};
ghost use Rattle.values.specs.declared.value.Value.{Value};
ghost use Rattle.language.specs.Core.{Action, Core, Expr, Form, Owned, Stmt};
ghost use Rattle.language.specs.Facts.{Fact, Fault};
ghost use Rattle.language.specs.Meaning.{Closed, Finished, Gives, HasValue, IsFinished, Known, LiveStmt, New, Ready, ValueUnder};
ghost use Rattle.language.specs.Members.{◌∈◌};
ghost use Rattle.language.specs.Places.{Path, Place};
ghost use Rattle.language.specs.Reads.{Reads};
ghost use Rattle.language.specs.Resolved.{core};
ghost use Rattle.language.specs.Single.{SinglyAssigned};
ghost use Rattle.language.specs.Table.{Table};
ghost use Rattle.language.specs.Tree.{Tree};
ghost use Rattle.language.specs.Typing.{WellTyped};
ghost use Rattle.language.specs.WellFormed.{WellFormed};
ghost use Rattle.meaning_steps.specs.Environment.{Sight, Sees, worked, outcome};
ghost use Rattle.meaning_steps.specs.News.{Past, Recalls, IsSteady, NodesTell, ToldOf, news};
ghost use Rattle.meaning_steps.specs.Taken.{taken, Knows, IsSo, IsSettled, FollowsSo, ReadyBy, FinishedBy};

/// States that a sound and settled set of live statements, closed arrays and scalars is complete. A header is ready by
/// it exactly if the header is ready, and a statement is finished by it exactly if the statement is finished. So live
/// blocks and closed arrays can be found step by step.
pub fn settled_is_all()
    ensures live { (s : Core) (fs : List Fact) (ls : List (Path × Stmt)) (cs : List Place) (vs : List (Place × Scalar))
        → IsSo s (Knows fs) (taken ls cs vs) → IsSettled s (Knows fs) (taken ls cs vs)
        → (path : Path) (st : Stmt) → ◌∈◌ {X = Path × Stmt} (path, st) ls ↔ LiveStmt s (Knows fs) path st }
    ensures closed { (s : Core) (fs : List Fact) (ls : List (Path × Stmt)) (cs : List Place) (vs : List (Place × Scalar))
        → IsSo s (Knows fs) (taken ls cs vs) → IsSettled s (Knows fs) (taken ls cs vs) → (a : Place) → (a ∈ cs) ↔ Closed s (Knows fs) a }
    ensures has { (s : Core) (fs : List Fact) (ls : List (Path × Stmt)) (cs : List Place) (vs : List (Place × Scalar))
        → IsSo s (Knows fs) (taken ls cs vs) → IsSettled s (Knows fs) (taken ls cs vs)
        → (p : Place) (v : Scalar) → ◌∈◌ {X = Place × Scalar} (p, v) vs ↔ HasValue s (Knows fs) p v }
    ensures ready { (s : Core) (fs : List Fact) (ls : List (Path × Stmt)) (cs : List Place) (vs : List (Place × Scalar))
        → IsSo s (Knows fs) (taken ls cs vs) → IsSettled s (Knows fs) (taken ls cs vs)
        → (path : Path) (header : Action) (us : List Value) → ReadyBy s (Knows fs) (taken ls cs vs) path header us ↔ Ready s (Knows fs) path header us }
    ensures finished { (s : Core) (fs : List Fact) (ls : List (Path × Stmt)) (cs : List Place) (vs : List (Place × Scalar))
        → IsSo s (Knows fs) (taken ls cs vs) → IsSettled s (Knows fs) (taken ls cs vs)
        → (a : Owned) (path : Path) (st : Stmt) → FinishedBy s (Knows fs) (taken ls cs vs) a path st ↔ Finished s (Knows fs) a path st }
{}

/// States that each step of such a search is sound. What follows at once from a sound set of live statements, closed
/// arrays and scalars holds in the meaning.
pub fn a_step_is_so()
    ensures { (s : Core) (fs : List Fact) (ls : List (Path × Stmt)) (cs : List Place) (vs : List (Place × Scalar))
        → IsSo s (Knows fs) (taken ls cs vs) → FollowsSo s (Knows fs) (taken ls cs vs) }
{}

/// States that `worked` and `outcome` evaluate an expression and a cell exactly as the meaning does. What is seen at
/// the path must be what is known there.
pub fn sight_is_exact()
    ensures expressions { (s : Core) (fs : List Fact) (path : Path) (g : Sight) → Sees s (Knows fs) path g
        → (e : Expr) (r : Result Value OpFault) → (worked g e ≡ Some r) ↔ ValueUnder s (Knows fs) path e r }
    ensures cells { (s : Core) (fs : List Fact) (path : Path) (g : Sight) → Sees s (Knows fs) path g
        → (f : Form) (r : Result Value Fault) → (outcome g f ≡ Some r) ↔ Gives s (Knows fs) path f r }
{}

/// States that `news` over the live statements derives exactly the new facts. It derives only facts that follow from
/// what is known, and all of those that are not known yet.
pub fn news_is_exact()
    ensures sound { (s : Core) (fs : List Fact) (path : Path) (g : Sight) (m : Past) → Sees s (Knows fs) path g → Recalls s (Knows fs) path m
        → (st : Stmt) (f : Fact) → LiveStmt s (Knows fs) path st → f ∈ news s g m path st → New s (Knows fs) f }
    ensures complete { (s : Core) (fs : List Fact) (g : Path → Sight) (m : Path → Past) → ((path : Path) → Sees s (Knows fs) path (g path))
        → ((path : Path) → Recalls s (Knows fs) path (m path))
        → IsSteady s (Knows fs) → (f : Fact) → New s (Knows fs) f
        → ToldOf s (Knows fs) g m f ⊎ (f ∈ fs) }
{}

/// States that after n rounds of an accepted script the next round adds exactly the facts derived from the live
/// statements. The script is finished exactly if all of these are known.
pub fn a_round_is_what_is_told()
    ensures round { (s : Core) → WellFormed s → SinglyAssigned s → NodesTell s → (n : ℕ) (g : Path → Sight) (m : Path → Past)
        → ((path : Path) → Sees s (Known s n) path (g path)) → ((path : Path) → Recalls s (Known s n) path (m path))
        → (f : Fact) → Known s (suc n) f ↔ (Known s n f ⊎ ToldOf s (Known s n) g m f) }
    ensures finished { (s : Core) → WellFormed s → SinglyAssigned s → NodesTell s → (n : ℕ) (g : Path → Sight) (m : Path → Past)
        → ((path : Path) → Sees s (Known s n) path (g path)) → ((path : Path) → Recalls s (Known s n) path (m path))
        → IsFinished s n ↔ ((f : Fact) → ToldOf s (Known s n) g m f → Known s n f) }
{}

/// States that each round of an accepted script adds exactly the facts derived from its live statements. In the core of
/// a text that parses, statements of one node have one offset, and prints of one node have one line.
pub fn accepted_rounds()
    ensures nodes { (bytes : List ℕ) (t : Table) (tree : Tree) → Reads bytes tree → NodesTell (core t tree) }
    ensures round { (bytes : List ℕ) (t : Table) (tree : Tree) → Reads bytes tree → WellTyped tree t → SinglyAssigned (core t tree)
        → (n : ℕ) (g : Path → Sight) (m : Path → Past)
        → ((path : Path) → Sees (core t tree) (Known (core t tree) n) path (g path))
        → ((path : Path) → Recalls (core t tree) (Known (core t tree) n) path (m path))
        → (f : Fact) → Known (core t tree) (suc n) f ↔ (Known (core t tree) n f ⊎ ToldOf (core t tree) (Known (core t tree) n) g m f) }
    ensures finished { (bytes : List ℕ) (t : Table) (tree : Tree) → Reads bytes tree → WellTyped tree t → SinglyAssigned (core t tree)
        → (n : ℕ) (g : Path → Sight) (m : Path → Past)
        → ((path : Path) → Sees (core t tree) (Known (core t tree) n) path (g path))
        → ((path : Path) → Recalls (core t tree) (Known (core t tree) n) path (m path))
        → IsFinished (core t tree) n ↔ ((f : Fact) → ToldOf (core t tree) (Known (core t tree) n) g m f → Known (core t tree) n f) }
{}
