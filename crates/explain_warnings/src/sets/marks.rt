//! Sets of the variables and inputs that are read or written, as bit vectors.
ghost use Rattle.std.specs.Prelude.{◌≡◌, ◌||◌, ℕ, OnOk, IfOk, nat_eq};
ghost use Rattle.types.specs.Typed.{table_of, owned_name};
ghost use Rattle.explain_warnings.specs.Marks.{is_marked, number_in, place_in, local_number, input_place, is_number, uses_local, uses_input};

use crate::name_use::{NameUse, NameUseKind};
use std::alloc::{AllocError, Global};
use types::typed::{Binding, Typed};

/// Returns true if a number is marked.
pub fn is_marked(marks: &[bool], number: usize) -> bool
    ensures { result ≡ is_marked marks.now number }
{
    match marks.get(number) {
        None => false,
        Some(mark) => *mark,
    }
}

/// Marks a number, and extends the vector as far as needed.
fn mark(marks: &mut Vec<bool>, number: usize) -> Result<(), AllocError>
    ensures { OnOk result ((k : ℕ) → is_marked marks.new.items k ≡ (nat_eq number k || is_marked marks.old.items k)) }
{
    for _ in marks.len()..number {
        marks.push(false)?;
    }
    if number < marks.len() {
        marks[number] = true;
    } else {
        marks.push(true)?;
    }
    Ok(())
}

/// Marks a number if there is one.
pub fn mark_some(marks: &mut Vec<bool>, number: Option<usize>) -> Result<(), AllocError>
    ensures { OnOk result ((k : ℕ) → is_marked marks.new.items k ≡ (is_number k number || is_marked marks.old.items k)) }
{
    match number {
        None => Ok(()),
        Some(number) => mark(marks, number),
    }
}

fn number_in(owned: Binding) -> Option<usize>
    ensures { result ≡ number_in (owned_name owned) }
{
    match owned {
        Binding::Local(number) => Some(number as usize),
        Binding::Input(_) | Binding::Output(_) => None,
    }
}

fn place_in(owned: Binding) -> Option<usize>
    ensures { result ≡ place_in (owned_name owned) }
{
    match owned {
        Binding::Input(place) => Some(place),
        Binding::Local(_) | Binding::Output(_) => None,
    }
}

/// Returns the number of the local variable that an occurrence of this kind refers to, or `None` for any other
/// occurrence.
fn local_used(typed: &Typed, kind: NameUseKind, name_use: NameUse) -> Option<usize>
    ensures { result ≡ local_number (table_of typed.now) kind name_use }
{
    if name_use.kind == kind {
        number_in(typed.name(name_use.number).what)
    } else {
        None
    }
}

/// Returns the position of the input that an occurrence of this kind refers to, or `None` for any other occurrence.
fn input_used(typed: &Typed, kind: NameUseKind, name_use: NameUse) -> Option<usize>
    ensures { result ≡ input_place (table_of typed.now) kind name_use }
{
    if name_use.kind == kind {
        place_in(typed.name(name_use.number).what)
    } else {
        None
    }
}

/// Returns the set of local variables that occurrences of this kind refer to, by the numbers of their declarations.
pub fn local_marks(
    alloc: Global,
    typed: &Typed,
    kind: NameUseKind,
    name_uses: &[NameUse],
) -> Result<Vec<bool>, AllocError>
    ensures { IfOk result (λ marks. (k : ℕ) → is_marked marks.items k ≡ uses_local (table_of typed.now) kind name_uses.now k) }
{
    let mut marks = Vec::new(alloc);
    for name_use in name_uses {
        mark_some(&mut marks, local_used(typed, kind, *name_use))?;
    }
    Ok(marks)
}

/// Returns the set of inputs that occurrences of this kind refer to, by their positions.
pub fn input_marks(
    alloc: Global,
    typed: &Typed,
    kind: NameUseKind,
    name_uses: &[NameUse],
) -> Result<Vec<bool>, AllocError>
    ensures { IfOk result (λ marks. (k : ℕ) → is_marked marks.items k ≡ uses_input (table_of typed.now) kind name_uses.now k) }
{
    let mut marks = Vec::new(alloc);
    for name_use in name_uses {
        mark_some(&mut marks, input_used(typed, kind, *name_use))?;
    }
    Ok(marks)
}
