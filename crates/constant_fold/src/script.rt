//! Folding of whole scripts.
ghost use Rattle.std.specs.Prelude.{◌≡◌, IfOk, OnOk, map};
ghost use Rattle.syntax_trees.specs.View.{part_of, tree_of};
ghost use Rattle.constant_fold.specs.Folded.{folded_part, folded_tree};

use crate::statement::{block, statement};
use std::alloc::{AllocError, Allocator, Global};
use syntax_trees::tree::{Item, Script};

/// Folds a part of a script.
fn part<A: Allocator + Clone>(
    machine: Global,
    alloc: &A,
    item: &mut Item<A>,
) -> Result<(), AllocError>
    ensures { OnOk result (part_of item.new ≡ folded_part (part_of item.old)) }
{
    match item {
        Item::Import(_) => Ok(()),
        Item::Function(function) => {
            block(machine, alloc, &mut function.body)?;
            Ok(())
        }
        Item::Statement(one) => {
            statement(machine, alloc, one)?;
            Ok(())
        }
    }
}

/// Folds the parts of a script.
fn parts<A: Allocator + Clone>(
    machine: Global,
    alloc: &A,
    items: &mut Vec<Item<A>, A>,
) -> Result<(), AllocError>
    ensures { OnOk result (map part_of items.new.items ≡ map folded_part (map part_of items.old.items)) }
{
    for i in 0..items.len() {
        let item = &mut items[i];
        part(machine, alloc, item)?;
    }
    Ok(())
}

/// Returns the script with its expressions of literals folded.
///
/// An expression of literals, operators, `strcat`, `fromint` and `toint` becomes a literal if its evaluation has no
/// fault. An expression with a fault stays, and so does everything else, with its numbers and places. New literals are
/// allocated in `alloc`; the rest stays in its memory.
///
/// # Errors
///
/// Returns `AllocError` if an allocation fails.
pub fn fold<A: Allocator + Clone>(
    machine: Global,
    alloc: A,
    script: Script<A>,
) -> Result<Script<A>, AllocError>
    ensures { IfOk result (λ folded. tree_of folded ≡ folded_tree (tree_of script)) }
{
    let mut script = script;
    parts(machine, &alloc, &mut script.items)?;
    Ok(script)
}
