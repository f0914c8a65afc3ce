//! Definitions of which code is a script's code, and of the rules by which code is laid.
#![tactic(auto)]

ghost use Rattle.std.specs.Prelude.{◌≡◌, ℕ, Ok, true};
ghost use Rattle.language.specs.Core.{Core, Expr, Exprs, compute, operator};
ghost use Rattle.language.specs.Meaning.{Gives, Known, ValueUnder};
ghost use Rattle.language.specs.Places.{Path};
ghost use Rattle.values.specs.declared.value.Scalar.TheVariants.{Truth};
ghost use Rattle.values.specs.declared.value.Value.{Value};
ghost use Rattle.values.specs.declared.value.Value.TheVariants.{One};
ghost use Rattle.values.specs.Operators.{assert};

/// Proves that the value of a cell is the value of the expression that it computes, in every round. An assertion has no
/// value but `true`.
pub fn what_cells_give()
    ensures values { (s : Core) (n : ℕ) (path : Path) (e : Expr) (v : Value) → Gives s (Known s n) path (compute e) (Ok v)
        → ValueUnder s (Known s n) path e (Ok v) }
    ensures assertions { (s : Core) (n : ℕ) (path : Path) (es : Exprs) (v : Value) → ValueUnder s (Known s n) path (operator assert es) (Ok v)
        → v ≡ One (Truth true) }
{}
