//! Mistakes of a list of statements as a whole.
ghost use Rattle.std.specs.Prelude.{◌≡◌, ◌++◌, OnOk, IfOk, map};
ghost use Rattle.syntax_trees.specs.View.{statement_view, tree_of};
ghost use Rattle.language.specs.Tree.{statements_of};
ghost use Rattle.explain_warnings.specs.Lists as specs;

use crate::mistakes::cycles::{list_cycles, tree_cycles};
use crate::mistakes::repeats::{list_repeats, tree_repeats};
use crate::name_use::NameUse;
use std::alloc::{AllocError, Allocator, Global};
use syntax_trees::tree::{Script, Stmt};

/// Appends the keys that two statements of a list write, and the cycles of its statements.
pub fn list_mistakes<A: Allocator>(
    alloc: Global,
    statements: &Vec<Stmt<A>, A>,
    name_uses: &mut Vec<NameUse>,
) -> Result<(), AllocError>
    ensures { OnOk result (name_uses.new.items ≡ name_uses.old.items
        ++ specs.list_mistakes (statements_of (map statement_view statements.now.items))) }
{
    list_repeats(alloc, statements, name_uses)?;
    list_cycles(alloc, statements, name_uses)
}

/// Collects the same of the statements outside of all functions.
pub fn tree_mistakes<A: Allocator>(
    alloc: Global,
    script: &Script<A>,
) -> Result<Vec<NameUse>, AllocError>
    ensures { IfOk result (λ name_uses. name_uses.items ≡ specs.tree_mistakes (tree_of script.now)) }
{
    let mut name_uses = tree_repeats(alloc, script)?;
    tree_cycles(alloc, script, &mut name_uses)?;
    Ok(name_uses)
}
