//! Definitions of what a listing shows of a flow beside its core: names of variables, positions of blocks and cells,
//! and functions.
//!
//! Nothing here runs: each function has an empty body, and its contract is a law.

ghost use Rattle.std.specs.Prelude.{◌≡◌, ℕ, List, [], ◌∷◌, ◌++◌};
ghost use Rattle.flow.specs.Cells.{Anchor, AnchorsGrow};
ghost use Rattle.flow.specs.Listed.{Listed, block_of, waiting};

/// Proves that a `wait` whose content is exactly one `wait` shows the same as that inner one, wherever the block
/// between them stands. So a listing shows the same before and after the two are merged.
pub fn merged_waits_show_the_same()
    ensures { (from : ℕ) (b : Listed) → waiting (block_of from (waiting b ∷ [])) ≡ waiting b }
{}

/// Proves that a list which grows by some cells, and then by others, grows by both.
pub fn growth_adds_up()
    ensures { (xs ys zs more others : List Anchor) → AnchorsGrow xs ys more → AnchorsGrow ys zs others → AnchorsGrow xs zs (more ++ others) }
{}
