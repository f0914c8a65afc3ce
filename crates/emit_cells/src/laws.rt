//! Laws: the emitted parts of a whole statement meet the rules.
ghost use Rattle.std.specs.Prelude.{◌≡◌, ℕ, ℤ, ◌++◌, List, length};
ghost use Rattle.language.specs.Core.{Part};
ghost use Rattle.task_code.specs.Code.{Entry};
ghost use Rattle.code_rules.specs.Laying.{Kinds, Laying, LaysParts, counted};
ghost use Rattle.emit_cells.specs.Chunk.{Chunk};

/// Proves that the parts of a statement are emitted as the rules demand if the entries of all parts have been appended.
/// Their entries are numbered consecutively.
pub fn parts_are_laid()
    ensures { (fs : List Kinds) (k : ℕ) (all : List Part) (at : ℕ) (p : ℤ) (s t : Laying) (more : List Entry) → t.entries ≡ s.entries ++ more
        → t.bodies ≡ s.bodies → Chunk fs k all at p all more
        → LaysParts fs k all at p s t (counted (length s.entries) (length more)) }
{}
