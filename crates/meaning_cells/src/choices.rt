//! Choices of headers over the known facts: which blocks they open, and whether a `wait` is ready (Swift/T Guide, on
//! conditionals and loops).
ghost use Rattle.std.specs.Prelude.{◌≡◌, ◌<◌, ◌^◌, pos, map, option_map, IfOk};
ghost use Rattle.language.specs.Openings.{bounds};
ghost use Rattle.language.specs.Parts.{outer_cells};
ghost use Rattle.flow.specs.View.{action_view, awaited_view, block_view, name_view};
ghost use Rattle.meaning_steps.specs.News.{count_of};
ghost use Rattle.meaning_cells.specs.Chosen.{all_seen, block_in, choice_seen, choice_view, chosen_by, chosen_from, chosen_in, items_seen, count_in, has_come_in, have_come_in, is_other, key_in, range_counted, truth_in, turns_of, turns_seen, value_at_turn};
ghost use Rattle.meaning_cells.specs.Listed.{outers_listed};
ghost use Rattle.meaning_facts.specs.Sighted.{sight_of};

use crate::parts::outers_of;
use flow::cell::OuterCell;
use flow::name::Name;
use flow::statement::{Action, Block};
use language::tree::Shape;
use meaning_facts::fact_base::FactBase;
use meaning_facts::facts::Place;
use std::alloc::{AllocError, Allocator, Global};
use values::fault::OpFault;
use values::key::Key;
use values::map::Map;
use values::range::IntRange;
use values::value::{Scalar, Value};

/// The choice of a header: the keys under which it opens blocks.
#[derive(Drop)]
pub enum Choice {
    Nothing,
    /// A branch, by its key.
    Branch(i64),
    /// The turns of a range.
    Turns(IntRange),
    /// The elements of an array, one turn each.
    Items(Map),
}

impl Choice {
    /// Returns the number of blocks that the choice opens.
    pub fn count(&self) -> u64
        ensures { result ≡ count_in (choice_view self.now) }
    {
        match self {
            Choice::Nothing => 0,
            Choice::Branch(_) => 1,
            Choice::Turns(range) => range.count,
            Choice::Items(map) => map.len() as u64,
        }
    }

    /// Returns true if the choice is the second branch.
    fn is_other(&self) -> bool
        ensures { result ≡ is_other (choice_view self.now) }
    {
        match self {
            Choice::Branch(key) => *key == 1,
            Choice::Nothing => false,
            Choice::Turns(_) => false,
            Choice::Items(_) => false,
        }
    }

    /// Returns the key of the block at index `i`.
    pub fn key(&self, i: u64) -> Result<Key, AllocError>
        ensures { IfOk result (λ key. i < count_in (choice_view self.now) → i < 2 ^ 63 → key ≡ key_in (choice_view self.now) i) }
    {
        match self {
            Choice::Nothing => Ok(Key::Number(0)),
            Choice::Branch(key) => Ok(Key::Number(*key)),
            Choice::Turns(_) => Ok(turn_key(i)),
            Choice::Items(map) => match map.elements().get(i as usize) {
                Some(element) => element.key.share(),
                None => Ok(Key::Number(0)),
            },
        }
    }

    /// Returns the value of the loop variable in the turn at index `i`.
    pub fn value(&self, i: u64) -> Result<Scalar, AllocError>
        ensures { IfOk result (λ value. i < count_in (choice_view self.now) → value ≡ value_at_turn (choice_view self.now) i) }
    {
        match self {
            Choice::Turns(range) if i < range.count => Ok(Scalar::Number(range.value(i))),
            Choice::Items(map) => match map.elements().get(i as usize) {
                Some(element) => element.value.share(),
                None => Ok(Scalar::Number(0)),
            },
            _ => Ok(Scalar::Number(0)),
        }
    }
}

/// Returns the block that a header opens for a choice.
pub fn block_of<'a, A: Allocator>(action: &'a Action<A>, choice: &Choice) -> Option<&'a Block<A>>
    ensures { option_map (λ block. block_view block.now) result ≡ block_in (action_view action.now) (choice_view choice.now) }
{
    match action {
        Action::When { then, .. } => Some(&**then),
        Action::Choose { then, other, .. } => if choice.is_other() {
            Some(&**other)
        } else {
            Some(&**then)
        },
        Action::Range { body, .. } => Some(&**body),
        Action::Each { body, .. } => Some(&**body),
        Action::Declare(_) => None,
        Action::Call { .. } => None,
        Action::Assign { .. } => None,
        Action::Fill { .. } => None,
        Action::Insert { .. } => None,
        Action::Print { .. } => None,
        Action::Assert { .. } => None,
        Action::Wait { .. } => None,
    }
}

/// Returns the key of the turn of a range at index `i`.
fn turn_key(i: u64) -> Key
    ensures { i < 2 ^ 63 → result ≡ Key.Number (pos i) }
{
    match i64::try_from(i) {
        Ok(number) => Key::Number(number),
        Err(_) => Key::Number(0),
    }
}

/// Returns the truth value, if the values are exactly one truth value.
fn truth_of(values: &[Value]) -> Option<bool>
    ensures { result ≡ truth_in values.now }
{
    match values {
        [Value::One(Scalar::Truth(truth))] => Some(*truth),
        _ => None,
    }
}

/// Returns the range with these bounds, or its fault. A missing step is 1. Returns `None` unless the values are two or
/// three numbers.
pub fn range_of(values: &[Value]) -> Option<Result<IntRange, OpFault>>
    ensures counted { range_counted result ≡ count_of (bounds values.now) }
    ensures turns { turns_seen result ≡ turns_of (bounds values.now) }
{
    match values {
        [
            Value::One(Scalar::Number(low)),
            Value::One(Scalar::Number(high)),
        ] => Some(IntRange::new(*low, *high, 1)),
        [
            Value::One(Scalar::Number(low)),
            Value::One(Scalar::Number(high)),
            Value::One(Scalar::Number(step)),
        ] => Some(IntRange::new(*low, *high, *step)),
        _ => None,
    }
}

/// Returns the choice of a condition or a range for the values of its cells, or `None` if they determine none.
pub fn chosen<A: Allocator>(action: &Action<A>, values: &[Value]) -> Option<Choice>
    ensures { choice_seen result ≡ chosen_by (action_view action.now) values.now }
{
    match action {
        Action::When { .. } => match truth_of(values) {
            Some(true) => Some(Choice::Branch(0)),
            Some(false) => Some(Choice::Nothing),
            None => None,
        },
        Action::Choose { .. } => match truth_of(values) {
            Some(true) => Some(Choice::Branch(0)),
            Some(false) => Some(Choice::Branch(1)),
            None => None,
        },
        Action::Range { .. } => match range_of(values) {
            Some(Ok(range)) => Some(Choice::Turns(range)),
            Some(Err(_)) => None,
            None => None,
        },
        Action::Declare(_) => None,
        Action::Call { .. } => None,
        Action::Assign { .. } => None,
        Action::Fill { .. } => None,
        Action::Insert { .. } => None,
        Action::Print { .. } => None,
        Action::Assert { .. } => None,
        Action::Each { .. } => None,
        Action::Wait { .. } => None,
    }
}

/// Returns the choice of a header, or `None` if it is not known.
pub fn choice_of<A: Allocator>(
    fact_base: &FactBase,
    alloc: Global,
    instance: usize,
    action: &Action<A>,
) -> Result<Option<Choice>, AllocError>
    ensures { IfOk result (λ choice. choice_seen choice ≡ chosen_in (sight_of fact_base.now instance) (action_view action.now)) }
{
    match action {
        Action::Each { array, .. } => items_of(fact_base, alloc, instance, *array),
        Action::When { .. } => known_choice(fact_base, alloc, instance, action),
        Action::Choose { .. } => known_choice(fact_base, alloc, instance, action),
        Action::Range { .. } => known_choice(fact_base, alloc, instance, action),
        Action::Declare(_) => Ok(None),
        Action::Call { .. } => Ok(None),
        Action::Assign { .. } => Ok(None),
        Action::Fill { .. } => Ok(None),
        Action::Insert { .. } => Ok(None),
        Action::Print { .. } => Ok(None),
        Action::Assert { .. } => Ok(None),
        Action::Wait { .. } => Ok(None),
    }
}

/// Returns the choice of a loop over an array: all its elements, or `None` if the array is not closed.
fn items_of(
    fact_base: &FactBase,
    alloc: Global,
    instance: usize,
    array: Name,
) -> Result<Option<Choice>, AllocError>
    ensures { IfOk result (λ choice. choice_seen choice
        ≡ items_seen ((sight_of fact_base.now instance).closed (name_view array)) ((sight_of fact_base.now instance).elements (name_view array))) }
{
    let place = fact_base.instances.place(instance, array);
    if !fact_base.is_closed(place) {
        return Ok(None);
    }
    let map = fact_base.facts.elements(alloc, place)?;
    Ok(Some(Choice::Items(map)))
}

/// Returns the choice of a header for the values of its outermost cells, or `None` unless all are known.
fn known_choice<A: Allocator>(
    fact_base: &FactBase,
    alloc: Global,
    instance: usize,
    action: &Action<A>,
) -> Result<Option<Choice>, AllocError>
    ensures { IfOk result (λ choice. choice_seen choice
        ≡ chosen_from (action_view action.now) (all_seen (sight_of fact_base.now instance) (outer_cells (action_view action.now)))) }
{
    let outers = outers_of(alloc, action)?;
    match known_values(fact_base, alloc, instance, outers.as_slice())? {
        Some(values) => Ok(chosen(action, values.as_slice())),
        None => Ok(None),
    }
}

/// Returns the values of outermost cells, or `None` unless all are known.
fn known_values<A: Allocator>(
    fact_base: &FactBase,
    alloc: Global,
    instance: usize,
    outers: &[&OuterCell<A>],
) -> Result<Option<Vec<Value>>, AllocError>
    ensures { IfOk result (λ values. option_map (λ v. v.items) values
        ≡ all_seen (sight_of fact_base.now instance) (map (λ o. o.cell) (outers_listed outers.now))) }
{
    let mut values = Vec::new(alloc);
    for outer in outers {
        let place = Place {
            instance,
            node: outer.cell.node,
        };
        match fact_base.facts.value(place) {
            Some(value) => values.push(value.share()?)?,
            None => return Ok(None),
        }
    }
    Ok(Some(values))
}

/// Returns true if all inputs of a `wait` are known: scalars have values and arrays are closed.
pub fn have_come(fact_base: &FactBase, instance: usize, names: &[Name]) -> bool
    ensures { result ≡ have_come_in (sight_of fact_base.now instance) (map awaited_view names.now) }
{
    for name in names {
        if !has_come(fact_base, instance, *name) {
            return false;
        }
    }
    true
}

fn has_come(fact_base: &FactBase, instance: usize, name: Name) -> bool
    ensures { result ≡ has_come_in (sight_of fact_base.now instance) (awaited_view name) }
{
    match name.shape {
        Shape::Array(_) => fact_base.is_closed(fact_base.instances.place(instance, name)),
        Shape::Scalar => fact_base.scalar(instance, name).is_some(),
    }
}
