//! Lists of a few. A function that pushes an entry or a cell by itself takes long to prove.
ghost use Rattle.std.specs.Prelude.{◌≡◌, ◌++◌, ◌∷◌, [], IfOk, OnOk};

use std::alloc::{AllocError, Global};

/// Appends an item.
pub fn put<T: Drop>(all: &mut Vec<T>, last: T) -> Result<(), AllocError>
    ensures { OnOk result (all.new.items ≡ all.old.items ++ last ∷ []) }
{
    all.push(last)?;
    Ok(())
}

/// A list of one.
pub fn one<T: Drop>(alloc: Global, only: T) -> Result<Vec<T>, AllocError> {
    let mut all = Vec::new(alloc);
    all.push(only)?;
    Ok(all)
}

/// A list of two.
pub fn two<T: Drop>(alloc: Global, first: T, second: T) -> Result<Vec<T>, AllocError>
    ensures { IfOk result (λ both. both.items ≡ first ∷ second ∷ []) }
{
    let mut both = Vec::new(alloc);
    both.push(first)?;
    both.push(second)?;
    Ok(both)
}
