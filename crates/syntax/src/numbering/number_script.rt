//! Numbering of the parts of a script.

ghost use Rattle.std.specs.Prelude.{◌≡◌, ◌+◌, ◌^◌, ◌<◌};
ghost use Rattle.syntax_trees.specs.View.{composite_of, part_of};
ghost use Rattle.language.specs.Numbered.{composite_size, part_size, tree_size, numbered_composite, numbered_part, numbered};
ghost use Rattle.language.specs.Numbers.{numbers, numbers_from};
ghost use Rattle.language.specs.Tree.{Tree};

use crate::numbering::number_expressions::name;
use crate::numbering::number_statements::{block, declarations, statement};
use std::alloc::Allocator;
use syntax_trees::tree::{Function, Item};

/// Numbers a function: its node, its outputs, its name, its inputs and its body.
fn function<A: Allocator>(function: &mut Function<A>, from: u32) -> u32
    requires { from + composite_size (composite_of function.old) < 2 ^ 32 }
    ensures numbered { composite_of function.new ≡ numbered_composite from (composite_of function.old) }
    ensures next { result ≡ from + composite_size (composite_of function.old) }
{
    function.number = from;
    let behind = declarations(&mut function.outputs, from + 1);
    let middle = name(&mut function.name, behind);
    let next = declarations(&mut function.inputs, middle);
    block(&mut function.body, next)
}

/// Numbers a part of a script in reading order, from `from` on, and returns the next unused number. Imports have no
/// number.
pub fn part<A: Allocator>(item: &mut Item<A>, from: u32) -> u32
    requires { from + part_size (part_of item.old) < 2 ^ 32 }
    ensures numbered { part_of item.new ≡ numbered_part from (part_of item.old) }
    ensures next { result ≡ from + part_size (part_of item.old) }
{
    match item {
        Item::Import(_) => from,
        Item::Function(one) => function(one, from),
        Item::Statement(one) => statement(one, from),
    }
}

/// Proves that a tree numbered from 1 on has the numbers 1, 2, 3 .. in reading order, so no two nodes share one.
pub fn numbers_are_distinct()
    ensures { (t : Tree) → numbers (numbered 1 t) ≡ numbers_from 1 (tree_size t) }
{}
