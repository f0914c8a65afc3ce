//! Selection of the inputs that are not known.
ghost use Rattle.std.specs.Prelude.{◌≡◌, ◌<◌, ◌++◌, ℕ, List, length, IfOk, OnOk};
ghost use Rattle.values.specs.Keys.{key_seen};
ghost use Rattle.language.specs.Meaning.{Known};
ghost use Rattle.language.specs.Reads.{Reads};
ghost use Rattle.language.specs.Resolved.{core};
ghost use Rattle.language.specs.Single.{SinglyAssigned};
ghost use Rattle.language.specs.Table.{Table};
ghost use Rattle.language.specs.Tree.{Tree};
ghost use Rattle.language.specs.Typing.{WellTyped};
ghost use Rattle.meaning_facts.specs.Paths.{path_of};
ghost use Rattle.meaning_facts.specs.Sighted.{sight_of};
ghost use Rattle.meaning_facts.specs.Store.{writes_at, writes_under};
ghost use Rattle.meaning_outcomes.specs.Known.{IsKnowledgeOf};
ghost use Rattle.explain_inputs.specs.Inputs.{input_view, inputs_view};
ghost use Rattle.explain_inputs.specs.Missing.{is_once, is_seen, not_seen, unless, AreMissing};

use crate::input::StatementInput;
use flow::name::Name;
use meaning_facts::fact_base::FactBase;
use meaning_facts::facts::{KeyWrites, Place};
use meaning_outcomes::knowledge::Knowledge;
use std::alloc::{AllocError, Global};
use values::key::KeyRef;

/// Returns the inputs of a statement that are not known in an instance, in their order.
///
/// # Errors
///
/// Returns `AllocError` if an allocation fails.
pub fn missing_of(
    alloc: Global,
    known: &Knowledge,
    instance: usize,
    inputs: &[StatementInput],
) -> Result<Vec<StatementInput>, AllocError>
    ensures { IfOk result (λ found. (bytes : List ℕ) (t : Table) (tree : Tree) → Reads bytes tree → WellTyped tree t → SinglyAssigned (core t tree)
        → IsKnowledgeOf (core t tree) known.now → instance < length known.now.fact_base.instances.all.items
        → AreMissing (core t tree) (Known (core t tree) known.now.rounds) (path_of known.now.fact_base.instances.all.items instance) (inputs_view inputs.now)
        (inputs_view found.items)) }
{
    let mut found = Vec::new(alloc);
    add_missing(&known.fact_base, instance, inputs, &mut found)?;
    Ok(found)
}

fn add_missing(
    fact_base: &FactBase,
    instance: usize,
    inputs: &[StatementInput],
    found: &mut Vec<StatementInput>,
) -> Result<(), AllocError>
    ensures { OnOk result (inputs_view found.new.items ≡ inputs_view found.old.items ++ not_seen (sight_of fact_base.now instance) (inputs_view inputs.now)) }
{
    for input in inputs {
        add_unless_there(fact_base, instance, input, found)?;
    }
    Ok(())
}

fn add_unless_there(
    fact_base: &FactBase,
    instance: usize,
    input: &StatementInput,
    found: &mut Vec<StatementInput>,
) -> Result<(), AllocError>
    ensures { OnOk result (inputs_view found.new.items
        ≡ inputs_view found.old.items ++ unless (is_seen (sight_of fact_base.now instance) (input_view input.now)) (input_view input.now)) }
{
    if !is_there(fact_base, instance, *input) {
        found.push(*input)?;
    }
    Ok(())
}

/// Returns true if an input is known in an instance.
fn is_there(fact_base: &FactBase, instance: usize, input: StatementInput) -> bool
    ensures { result ≡ is_seen (sight_of fact_base.now instance) (input_view input) }
{
    match input {
        StatementInput::Scalar(name) => fact_base.scalar(instance, name).is_some(),
        StatementInput::Array(array) => fact_base.is_closed(
            fact_base.instances.place(instance, array),
        ),
        StatementInput::Element { array, index } => is_written(fact_base, instance, array, index),
    }
}

/// Returns true if an element has its value: the index is known, and the element is written exactly once.
fn is_written(fact_base: &FactBase, instance: usize, array: Name, index: u32) -> bool
    ensures { result ≡ is_seen (sight_of fact_base.now instance) (input_view (StatementInput.Element array index)) }
{
    let cell = Place {
        instance,
        node: index,
    };
    let Some(value) = fact_base.facts.value(cell) else {
        return false;
    };
    match KeyRef::of_value(value) {
        Some(key) => is_once(fact_base, fact_base.instances.place(instance, array), key),
        None => false,
    }
}

/// Returns true if an array has exactly one write of this key.
fn is_once(fact_base: &FactBase, array: Place, key: KeyRef<'_>) -> bool
    ensures { result ≡ is_once (writes_under (writes_at fact_base.now.facts array) (key_seen key.entry)) }
{
    match fact_base.facts.written(array, key) {
        KeyWrites::Once(_) => true,
        KeyWrites::Never => false,
        KeyWrites::Twice => false,
    }
}
