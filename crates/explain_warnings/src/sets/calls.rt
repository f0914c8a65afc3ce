//! The set of the functions that are called from outside of their own bodies, as a bit vector.
ghost use Rattle.std.specs.Prelude.{◌≡◌, ◌||◌, ℕ, OnOk, IfOk};
ghost use Rattle.syntax_trees.specs.View.{part_of, tree_of};
ghost use Rattle.types.specs.Typed.{table_of, callee_name};
ghost use Rattle.explain_warnings.specs.Mentions.{part_mentions};
ghost use Rattle.explain_warnings.specs.Marks as specs;

use crate::name_use::{NameUse, NameUseKind};
use crate::occurrences::name_uses::part;
use crate::sets::marks::mark_some;
use std::alloc::{AllocError, Allocator, Global};
use syntax_trees::tree::{Item, Script};
use types::typed::{Callee, Typed};

fn function_in(callee: Callee) -> Option<usize>
    ensures { result ≡ specs.function_in (callee_name callee) }
{
    match callee {
        Callee::Function(position) => Some(position),
        Callee::BuiltIn(_) => None,
    }
}

/// Returns the position of the function of the script that an occurrence calls, or `None` for any other occurrence.
pub fn called_function(typed: &Typed, name_use: NameUse) -> Option<usize>
    ensures { result ≡ specs.called_function (table_of typed.now) name_use }
{
    if name_use.kind == NameUseKind::Called {
        function_in(typed.callee(name_use.number))
    } else {
        None
    }
}

/// Returns true if a position is present and equal to this number.
pub fn is_number(number: usize, own: Option<usize>) -> bool
    ensures { result ≡ specs.is_number number own }
{
    match own {
        None => false,
        Some(own) => own == number,
    }
}

/// Returns the called function, or `None` if it is the one in which the call stands.
fn other_than(own: Option<usize>, called: Option<usize>) -> Option<usize>
    ensures { result ≡ specs.other_than own called }
{
    match called {
        None => None,
        Some(called) => {
            if is_number(called, own) {
                None
            } else {
                Some(called)
            }
        }
    }
}

/// Marks the functions that these occurrences call, other than the function in which they stand.
fn mark_others(
    typed: &Typed,
    own: Option<usize>,
    name_uses: &[NameUse],
    marks: &mut Vec<bool>,
) -> Result<(), AllocError>
    ensures { OnOk result ((k : ℕ) → specs.is_marked marks.new.items k
        ≡ (specs.is_marked marks.old.items k || specs.calls_other (table_of typed.now) own name_uses.now k)) }
{
    for name_use in name_uses {
        mark_some(marks, other_than(own, called_function(typed, *name_use)))?;
    }
    Ok(())
}

/// Returns the position of a part among the functions, if `position` functions precede it.
fn position_of<A: Allocator>(position: usize, item: &Item<A>) -> Option<usize>
    ensures { result ≡ specs.position_of position (part_of item.now) }
{
    match item {
        Item::Import(_) | Item::Statement(_) => None,
        Item::Function(_) => Some(position),
    }
}

/// Marks the functions that a part calls, other than itself. `position`: the number of functions before it.
fn mark_part<A: Allocator>(
    alloc: Global,
    typed: &Typed,
    position: usize,
    item: &Item<A>,
    marks: &mut Vec<bool>,
) -> Result<(), AllocError>
    ensures { OnOk result ((k : ℕ) → specs.is_marked marks.new.items k ≡ (specs.is_marked marks.old.items k
        || specs.calls_other (table_of typed.now) (specs.position_of position (part_of item.now)) (part_mentions (part_of item.now)) k)) }
{
    let mut name_uses = Vec::new(alloc);
    part(alloc, item, &mut name_uses)?;
    mark_others(
        typed,
        position_of(position, item),
        name_uses.as_slice(),
        marks,
    )
}

/// Returns true for a function.
pub fn is_function<A: Allocator>(item: &Item<A>) -> bool
    ensures { result ≡ specs.is_function (part_of item.now) }
{
    match item {
        Item::Import(_) | Item::Statement(_) => false,
        Item::Function(_) => true,
    }
}

/// Returns the set of functions that are called from outside of their own bodies, by their positions.
pub fn called_marks<A: Allocator>(
    alloc: Global,
    typed: &Typed,
    script: &Script<A>,
) -> Result<Vec<bool>, AllocError>
    ensures { IfOk result (λ marks. (k : ℕ) → specs.is_marked marks.items k ≡ specs.is_called (table_of typed.now) 0 (tree_of script.now) k) }
{
    let mut marks = Vec::new(alloc);
    let mut position = 0;
    for item in &script.items {
        mark_part(alloc, typed, position, item, &mut marks)?;
        if is_function(item) {
            position += 1;
        }
    }
    Ok(marks)
}
