//! Computation of the warnings of a script.
//!
//! A first pass over the script collects all occurrences, and marks the variables that are read or written and the
//! functions that are called. A second pass emits the warnings in the order of the text.
ghost use Rattle.std.specs.Prelude.{◌≡◌, ◌++◌, OnOk, IfOk};
ghost use Rattle.syntax_trees.specs.View.{word_of, declaration_of, declarations_view, composite_of, part_of, tree_of};
ghost use Rattle.types.specs.Typed.{table_of};
ghost use Rattle.explain_warnings.specs.Marks.{is_marked};
ghost use Rattle.explain_warnings.specs.View.{uses_of};
ghost use Rattle.explain_warnings.specs.Warnings as specs;

use crate::mistakes::endless::own_call;
use crate::mistakes::lists::tree_mistakes;
use crate::name_use::{NameUse, NameUseKind};
use crate::occurrences::name_uses::{function_body, is_spared, statement, tree_mentions};
use crate::sets::calls::{called_marks, is_function};
use crate::sets::marks::{input_marks, is_marked, local_marks};
use lexer::token::Span;
use std::alloc::{AllocError, Allocator, Global};
use syntax_trees::tree::{Decl, Function, Item, Name, Script};
use types::typed::Typed;

/// The kind of a warning.
#[derive(Clone, Copy, Debug, PartialEq, Eq)]
pub enum WarningKind {
    /// A variable that is neither read nor written after its declaration.
    NeverUsed,
    /// A variable that is assigned or written, and never read.
    NeverRead,
    /// An input that its function never reads.
    IdleInput,
    /// A loop over an empty range.
    EmptyRange,
    /// A `printf` that prints an empty line after its line.
    ExtraLine,
    /// An array of which an element is read and none is written.
    NeverWritten,
    /// A function that is not called outside of its own body.
    NeverCalled,
    /// A branch, a loop or a `wait` without statements.
    EmptyBlock,
    /// A range whose step is below 1.
    StepBelowOne,
    /// An assertion that always holds.
    AlwaysHolds,
    /// An assignment that needs the variable that it assigns.
    WaitsForItself,
    /// A key of an array that two statements of one list write.
    KeyTwice,
    /// A comparison with 0 that is to guard a division.
    IdleGuard,
    /// An operation, a call or an assertion that fails by its literals.
    AlwaysFails,
    /// A call by which each call of a function calls it again.
    EndlessCall,
    /// A variable that waits for others that wait for it.
    CircularWait,
}

/// A warning with its place: a name, the beginning of an expression, or a brace.
#[derive(Clone, Copy, Debug, PartialEq, Eq)]
pub struct Warning {
    pub warning_kind: WarningKind,
    pub at: Span,
}

/// The sets of local variables that are read, that are written, and of which an element is read, by number, and the set
/// of functions that are called, by position.
#[derive(Clone, Copy)]
struct NamesInUse<'a> {
    read: &'a [bool],
    written: &'a [bool],
    element_read: &'a [bool],
    called: &'a [bool],
}

/// Returns the warnings of a well typed script in the order of its text. `typed`: the table of its names. Those of keys
/// that two statements write, and then those of cycles, stand before the others of their list, and that of a call
/// without end before the others of its function's block.
///
/// Names that begin with `_` and loop variables count as used.
///
/// # Errors
///
/// Returns `AllocError` if an allocation fails.
pub fn warnings<A: Allocator>(
    alloc: Global,
    typed: &Typed,
    script: &Script<A>,
) -> Result<Vec<Warning>, AllocError>
    ensures { IfOk result (λ found. found.items ≡ specs.warnings (table_of typed.now) (tree_of script.now)) }
{
    let name_uses = tree_mentions(alloc, script)?;
    let read = local_marks(alloc, typed, NameUseKind::Read, name_uses.as_slice())?;
    let written = local_marks(alloc, typed, NameUseKind::Written, name_uses.as_slice())?;
    let element_read = local_marks(alloc, typed, NameUseKind::ReadElement, name_uses.as_slice())?;
    let called = called_marks(alloc, typed, script)?;
    let uses = NamesInUse {
        read: read.as_slice(),
        written: written.as_slice(),
        element_read: element_read.as_slice(),
        called: called.as_slice(),
    };
    let first = tree_mistakes(alloc, script)?;
    parts(alloc, typed, &uses, first.as_slice(), script)
}

/// Returns the warnings at the occurrences outside of all functions that stand first, and those of the parts.
fn parts<A: Allocator>(
    alloc: Global,
    typed: &Typed,
    uses: &NamesInUse<'_>,
    first: &[NameUse],
    script: &Script<A>,
) -> Result<Vec<Warning>, AllocError>
    ensures { IfOk result (λ found. found.items ≡ specs.warnings_at (uses_of uses.now) first.now
        ++ specs.parts_warnings (table_of typed.now) (uses_of uses.now) 0 (tree_of script.now)) }
{
    let mut found = Vec::new(alloc);
    write_all(uses, first, &mut found)?;
    let mut position = 0;
    for item in &script.items {
        part(alloc, typed, uses, position, item, &mut found)?;
        if is_function(item) {
            position += 1;
        }
    }
    Ok(found)
}

/// Appends the warnings of a part. `position`: the number of functions before it.
fn part<A: Allocator>(
    alloc: Global,
    typed: &Typed,
    uses: &NamesInUse<'_>,
    position: usize,
    item: &Item<A>,
    found: &mut Vec<Warning>,
) -> Result<(), AllocError>
    ensures { OnOk result (found.new.items
        ≡ found.old.items ++ specs.part_warnings (table_of typed.now) (uses_of uses.now) position (part_of item.now)) }
{
    match item {
        Item::Import(_) => Ok(()),
        Item::Function(one) => function(alloc, typed, uses, position, one, found),
        Item::Statement(one) => {
            let mut name_uses = Vec::new(alloc);
            statement(alloc, one, &mut name_uses)?;
            write_all(uses, name_uses.as_slice(), found)
        }
    }
}

/// Appends the warnings of a function: that of its name, those of its inputs, that of a call of itself, then those of its
/// block.
fn function<A: Allocator>(
    alloc: Global,
    typed: &Typed,
    uses: &NamesInUse<'_>,
    position: usize,
    function: &Function<A>,
    found: &mut Vec<Warning>,
) -> Result<(), AllocError>
    ensures { OnOk result (found.new.items
        ≡ found.old.items ++ specs.function_warnings (table_of typed.now) (uses_of uses.now) position (composite_of function.now)) }
{
    uncalled(is_marked(uses.called, position), &function.name, found)?;
    let mut name_uses = Vec::new(alloc);
    function_body(alloc, &function.body, &mut name_uses)?;
    let read = input_marks(alloc, typed, NameUseKind::Read, name_uses.as_slice())?;
    idle_inputs(read.as_slice(), &function.inputs, found)?;
    let own = own_call(alloc, typed, position, &function.body)?;
    endless(own, found)?;
    write_all(uses, name_uses.as_slice(), found)
}

/// Appends a warning for a function unless it is called or its name begins with `_`.
fn uncalled<A: Allocator>(
    is_called: bool,
    name: &Name<A>,
    found: &mut Vec<Warning>,
) -> Result<(), AllocError>
    ensures { OnOk result (found.new.items ≡ found.old.items ++ specs.uncalled is_called (word_of name.now)) }
{
    if !is_called && !is_spared(name.text.as_slice()) {
        found.push(Warning {
            warning_kind: WarningKind::NeverCalled,
            at: name.span,
        })?;
    }
    Ok(())
}

/// Appends a warning for each input that is not read.
fn idle_inputs<A: Allocator>(
    read: &[bool],
    inputs: &Vec<Decl<A>, A>,
    found: &mut Vec<Warning>,
) -> Result<(), AllocError>
    ensures { OnOk result (found.new.items ≡ found.old.items ++ specs.idle (is_marked read.now) 0 (declarations_view inputs.now)) }
{
    for i in 0..inputs.len() {
        idle_input(is_marked(read, i), &inputs[i], found)?;
    }
    Ok(())
}

/// Appends a warning for an input unless it is read or its name begins with `_`.
fn idle_input<A: Allocator>(
    is_read: bool,
    input: &Decl<A>,
    found: &mut Vec<Warning>,
) -> Result<(), AllocError>
    ensures { OnOk result (found.new.items ≡ found.old.items ++ specs.idle_input is_read (declaration_of input.now)) }
{
    if !is_read && !is_spared(input.name.text.as_slice()) {
        found.push(Warning {
            warning_kind: WarningKind::IdleInput,
            at: input.name.span,
        })?;
    }
    Ok(())
}

/// Appends a warning at a call of a function by itself, if there is one.
fn endless(own: Option<Span>, found: &mut Vec<Warning>) -> Result<(), AllocError>
    ensures { OnOk result (found.new.items ≡ found.old.items ++ specs.endless own) }
{
    if let Some(at) = own {
        found.push(Warning {
            warning_kind: WarningKind::EndlessCall,
            at,
        })?;
    }
    Ok(())
}

/// Appends the warnings at these occurrences.
fn write_all(
    uses: &NamesInUse<'_>,
    name_uses: &[NameUse],
    found: &mut Vec<Warning>,
) -> Result<(), AllocError>
    ensures { OnOk result (found.new.items ≡ found.old.items ++ specs.warnings_at (uses_of uses.now) name_uses.now) }
{
    for name_use in name_uses {
        let kind = warning_at(uses, *name_use);
        add(kind, name_use.at, found)?;
    }
    Ok(())
}

fn add(kind: Option<WarningKind>, at: Span, found: &mut Vec<Warning>) -> Result<(), AllocError>
    ensures { OnOk result (found.new.items ≡ found.old.items ++ specs.warned kind at) }
{
    if let Some(warning_kind) = kind {
        found.push(Warning { warning_kind, at })?;
    }
    Ok(())
}

/// Returns the kind of the warning at an occurrence, or `None`.
fn warning_at(uses: &NamesInUse<'_>, name_use: NameUse) -> Option<WarningKind>
    ensures { result ≡ specs.warning_at (uses_of uses.now) name_use }
{
    let number = name_use.number as usize;
    match name_use.kind {
        NameUseKind::Declared => declared(uses, number),
        NameUseKind::DeclaredArray => declared_array(uses, number),
        NameUseKind::Read | NameUseKind::ReadElement => None,
        NameUseKind::Written | NameUseKind::Called => None,
        NameUseKind::EmptyRange => Some(WarningKind::EmptyRange),
        NameUseKind::ExtraLine => Some(WarningKind::ExtraLine),
        NameUseKind::EmptyBlock => Some(WarningKind::EmptyBlock),
        NameUseKind::StepBelowOne => Some(WarningKind::StepBelowOne),
        NameUseKind::AlwaysHolds => Some(WarningKind::AlwaysHolds),
        NameUseKind::WaitsForItself => Some(WarningKind::WaitsForItself),
        NameUseKind::KeyTwice => Some(WarningKind::KeyTwice),
        NameUseKind::IdleGuard => Some(WarningKind::IdleGuard),
        NameUseKind::AlwaysFails => Some(WarningKind::AlwaysFails),
        NameUseKind::CircularWait => Some(WarningKind::CircularWait),
    }
}

/// Returns the kind of the warning for the variable that is declared at a node, or `None` if it is read.
fn declared(uses: &NamesInUse<'_>, number: usize) -> Option<WarningKind>
    ensures { result ≡ specs.unread ((uses_of uses.now).read number) ((uses_of uses.now).written number) }
{
    unread(
        is_marked(uses.read, number),
        is_marked(uses.written, number),
    )
}

/// Returns the kind of the warning for the array that is declared without a value at a node, or `None`.
fn declared_array(uses: &NamesInUse<'_>, number: usize) -> Option<WarningKind>
    ensures { result ≡ specs.unfilled ((uses_of uses.now).element_read number) ((uses_of uses.now).written number)
        (specs.unread ((uses_of uses.now).read number) ((uses_of uses.now).written number)) }
{
    if is_marked(uses.element_read, number) && !is_marked(uses.written, number) {
        Some(WarningKind::NeverWritten)
    } else {
        declared(uses, number)
    }
}

/// Returns the kind of the warning for a declared variable, or `None` if it is read.
fn unread(is_read: bool, is_written: bool) -> Option<WarningKind>
    ensures { result ≡ specs.unread is_read is_written }
{
    if is_read {
        None
    } else if is_written {
        Some(WarningKind::NeverRead)
    } else {
        Some(WarningKind::NeverUsed)
    }
}
