//! Laws of a state that keeps what is known, indexed by place. The functions have empty bodies; their contracts are the
//! laws.
ghost use Rattle.std.specs.Prelude.{◌≡◌, ◌↔◌, ◌⊎◌, ℕ, suc, List};
ghost use Rattle.values.specs.declared.value.Scalar.{Scalar};
ghost use Rattle.language.specs.Core.{Core};
ghost use Rattle.language.specs.Facts.{Fact, Knowledge};
ghost use Rattle.language.specs.Meaning.{HasValue, IsFinished, Known};
ghost use Rattle.language.specs.Places.{Path, Place};
ghost use Rattle.language.specs.Reads.{Reads};
ghost use Rattle.language.specs.Resolved.{core};
ghost use Rattle.language.specs.Single.{SinglyAssigned};
ghost use Rattle.language.specs.Table.{Table};
ghost use Rattle.language.specs.Tree.{Tree};
ghost use Rattle.language.specs.Typing.{WellTyped};
ghost use Rattle.meaning_steps.specs.Environment.{Sees};
ghost use Rattle.meaning_steps.specs.News.{Recalls, ToldOf};
ghost use Rattle.meaning_steps.specs.Kept.{Kept, Keeps, sight_by, past_by};

/// States that the views `sight_by` and `past_by` of kept knowledge are exact at each path. What is kept must be
/// exactly what is known, and a place must have at most one scalar.
pub fn kept_is_seen()
    ensures sees { (s : Core) (n : ℕ) (k : Kept) → Keeps s (Known s n) k
        → ((p : Place) (v u : Scalar) → HasValue s (Known s n) p v → HasValue s (Known s n) p u → v ≡ u)
        → (path : Path) → Sees s (Known s n) path (sight_by s k path) }
    ensures recalls { (s : Core) (n : ℕ) (k : Kept) → Keeps s (Known s n) k
        → ((p : Place) (v u : Scalar) → HasValue s (Known s n) p v → HasValue s (Known s n) p u → v ≡ u)
        → (path : Path) → Recalls s (Known s n) path (past_by s k path) }
{}

/// States for an accepted script that the next round adds exactly the facts derived from what is kept, for all live
/// statements. The script is finished exactly if all of these are known. What is kept must be what is known after n
/// rounds.
pub fn rounds_by_what_is_kept()
    ensures round { (bytes : List ℕ) (t : Table) (tree : Tree) → Reads bytes tree → WellTyped tree t → SinglyAssigned (core t tree)
        → (n : ℕ) (k : Kept) → Keeps (core t tree) (Known (core t tree) n) k
        → (f : Fact) → Known (core t tree) (suc n) f ↔
        (Known (core t tree) n f ⊎ ToldOf (core t tree) (Known (core t tree) n) (sight_by (core t tree) k) (past_by (core t tree) k) f) }
    ensures finished { (bytes : List ℕ) (t : Table) (tree : Tree) → Reads bytes tree → WellTyped tree t → SinglyAssigned (core t tree)
        → (n : ℕ) (k : Kept) → Keeps (core t tree) (Known (core t tree) n) k
        → IsFinished (core t tree) n ↔ ((f : Fact) → ToldOf (core t tree) (Known (core t tree) n) (sight_by (core t tree) k) (past_by (core t tree) k) f
        → Known (core t tree) n f) }
{}
