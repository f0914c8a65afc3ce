//! Laws of the fact base. The functions have empty bodies; their contracts are the laws.
ghost use Rattle.std.specs.Prelude.{◌≡◌, ◌<◌, ℕ, List, None, Some, length};
ghost use Rattle.language.specs.Core.{Core, Name};
ghost use Rattle.language.specs.Parts.{call_at, input_name, output_name};
ghost use Rattle.language.specs.Places.{Path, place, max_path_steps};
ghost use Rattle.meaning_steps.specs.Kept.{sight_by, past_by};
ghost use Rattle.language.specs.Facts as script;
ghost use Rattle.meaning_steps.specs.Taken.{Knows};
ghost use Rattle.meaning_facts.specs.Added.{IsAdded};
ghost use Rattle.meaning_facts.specs.Growing.{fact_view, IsAgreed, IsWithin, KeepsFacts, With, with_facts};
ghost use Rattle.meaning_facts.specs.Keeping.{kept_of, past_of, IsLocated, IsPlaced};
ghost use Rattle.meaning_facts.specs.Paths.{path_of, at_path, child_at, IsOpen, IsTree};
ghost use Rattle.meaning_facts.specs.Sighted.{sight_of};
ghost use Rattle.meaning_facts.specs.Store.{given_at, spot};

use crate::fact_base::FactBase;
use crate::facts::{Fact, Facts};
use crate::instances::{InstanceBindings, Instances};
use paths::Step;

/// States that in a tree of instances each instance is found at its path, and that an instance found at a path has that
/// path. So two instances with the same path are the same instance.
pub fn instances_by_paths()
    ensures found { (t : Instances) → IsTree t → (i : ℕ) → i < length t.all.items → at_path t (path_of t.all.items i) ≡ Some i }
    ensures there { (t : Instances) → IsTree t → (p : Path) (i : ℕ) → at_path t p ≡ Some i → (i < length t.all.items) × (path_of t.all.items i ≡ p) }
    ensures one { (t : Instances) → IsTree t → (i j : ℕ) → i < length t.all.items → j < length t.all.items
        → path_of t.all.items i ≡ path_of t.all.items j → i ≡ j }
{}

/// States that an instance sees exactly what is kept at its path, for a tree of instances that are each placed at their
/// path. The same holds for the facts derived before, and names resolve to the places that they denote at the path.
pub fn what_is_kept()
    ensures sees { (s : Core) (l : FactBase) → IsPlaced s l.instances → (i : ℕ) → i < length l.instances.all.items
        → sight_of l i ≡ sight_by s (kept_of l) (path_of l.instances.all.items i) }
    ensures recalls { (s : Core) (l : FactBase) → IsPlaced s l.instances → (i : ℕ) → i < length l.instances.all.items
        → past_of l i ≡ past_by s (kept_of l) (path_of l.instances.all.items i) }
    ensures lies { (s : Core) (l : FactBase) → IsPlaced s l.instances → (i : ℕ) → i < length l.instances.all.items → (x : Name)
        → IsLocated l.instances.all.items (spot l.instances.all.items i x) (place s (path_of l.instances.all.items i) x) }
{}

/// States that `KeepsFacts` is preserved when one fact is added to the fact base and to what is known. The fact must be
/// within the instances. With it, places must have one value, and each writer one scalar for a key.
pub fn one_fact_more()
    ensures { (fs : List script.Fact) (l : FactBase) (k : Facts) (f : Fact) → IsTree l.instances → KeepsFacts (Knows fs) l → IsAdded l.facts f k
        → IsWithin l.instances.all.items f
        → IsAgreed (With (Knows fs) (fact_view l.instances.all.items f)) → KeepsFacts (With (Knows fs) (fact_view l.instances.all.items f)) (with_facts l k) }
{}

/// States that instances stay a tree, each placed at its path, when one is opened at a new step. Its bindings must be
/// the places of the names of the call at that step.
pub fn one_instance_more()
    ensures { (s : Core) (t u : Instances) (p : ℕ) (x : Step) (g : InstanceBindings) → IsOpen t p x g u → IsPlaced s t → p < length t.all.items
        → ((j : ℕ) → given_at g.inputs.items j p ≡ spot t.all.items p (input_name (call_at s x.offset) j))
        → ((j : ℕ) → given_at g.outputs.items j p ≡ spot t.all.items p (output_name (call_at s x.offset) j))
        → child_at t p x.offset x.key ≡ None → length (path_of t.all.items p) < max_path_steps → IsPlaced s u }
{}
