//! The elements of an array: those under numbers and those under texts, kept separately.
//!
//! An array of a script has keys of one kind.
ghost use Rattle.std.specs.Prelude.{◌≡◌, ◌<◌, ◌≤◌, ◌+◌, ◌^◌, ◌++◌, None, length, IfOk, IsOk, OnOk, OnErr, option_copied};
ghost use Rattle.values.specs.Keys.{key_seen};
ghost use Rattle.values.specs.Maps.{found};
ghost use Rattle.data_store.specs.Arrays.{empty, limited, room_for, table_of, with_element, with_entry, with_places, with_room, with_room_for, AreParted};

use crate::number_elements::NumberElements;
use crate::text_elements::TextElements;
use std::alloc::{AllocError, Global};
use std::marker::Model;
use values::key::{Key, KeyRef};
use values::map::{Element, Map};
use values::text::Text;
use values::value::Scalar;

/// The elements of an array. No table is allocated before the first insert or reservation.
#[derive(Drop)]
pub struct Elements {
    numbers: Option<Box<NumberElements>>,
    texts: Option<Box<TextElements>>,
}

impl Model for Elements {
    ghost use Rattle.data_store.specs.Arrays.{Array, table_of, together, AreParted};

    ghost Value = { Array };

    ghost view = { λ a. together (table_of a.numbers) (table_of a.texts) };

    ghost invariant = { λ a. AreParted (table_of a.numbers).entries (table_of a.texts).entries };
}

impl Elements {
    pub fn new() -> Elements
        ensures { result ≡ empty }
    {
        Elements {
            numbers: None,
            texts: None,
        }
    }

    pub fn len(&self) -> usize
        ensures { result ≡ length self.now.elements }
    {
        count_numbers(&self.numbers) + count_texts(&self.texts)
    }

    #[inline(always)]
    pub fn get(&self, key: KeyRef<'_>) -> Option<&Scalar>
        ensures { option_copied result ≡ found (key_seen key.entry) self.now.elements }
    {
        match key {
            KeyRef::Number(n) => under_number(&self.numbers, n),
            KeyRef::Text(text) => under_text(&self.texts, text),
        }
    }

    /// Makes room for `n` elements of either kind, so that the next `n` calls of `insert` succeed.
    pub fn reserve(&mut self, alloc: Global, n: usize) -> Result<(), AllocError>
        ensures ok { OnOk result (self.new ≡ with_room n self.old) }
        ensures succeeds { n ≤ self.old.room → n ≤ self.old.text_room → IsOk result }
        ensures err { OnErr result (self.new ≡ self.old) }
    {
        let promised = places(&self.numbers);
        reserve_numbers(&mut self.numbers, alloc, n)?;
        if let Err(refused) = reserve_texts(&mut self.texts, alloc, n) {
            limit(&mut self.numbers, promised);
            return Err(refused);
        }
        Ok(())
    }

    /// Makes room for keys of the same kind as `key`, so that the next `n` calls of `insert` with such keys succeed.
    #[inline(always)]
    pub fn reserve_for(
        &mut self,
        alloc: Global,
        key: KeyRef<'_>,
        n: usize,
    ) -> Result<(), AllocError>
        ensures ok { OnOk result (self.new ≡ with_room_for (key_seen key.entry) n self.old) }
        ensures succeeds { n ≤ room_for (key_seen key.entry) self.old → IsOk result }
        ensures err { OnErr result (self.new ≡ self.old) }
    {
        match key {
            KeyRef::Number(_) => reserve_numbers(&mut self.numbers, alloc, n),
            KeyRef::Text(_) => reserve_texts(&mut self.texts, alloc, n),
        }
    }

    #[inline(always)]
    pub fn insert(&mut self, alloc: Global, key: Key, value: Scalar) -> Result<(), AllocError>
        requires { found key self.old.elements ≡ None }
        ensures ok { OnOk result (self.new ≡ with_element key value self.old) }
        ensures succeeds { 0 < room_for key self.old → IsOk result }
        ensures err { OnErr result (self.new ≡ self.old) }
    {
        match key {
            Key::Number(n) => insert_number(&mut self.numbers, alloc, n, value),
            Key::Text(text) => insert_text(&mut self.texts, alloc, text, value),
        }
    }

    /// Returns all elements by ascending key: the list that `whole` keeps, or a new one.
    pub fn listed(&self, alloc: Global) -> Result<Map, AllocError>
        ensures { IfOk result (λ map. map ≡ self.now.elements) }
    {
        match (&self.numbers, &self.texts) {
            (None, None) => Map::new(alloc, Vec::new(alloc)),
            (Some(index), None) => index.listed(alloc),
            (None, Some(named)) => named.listed(alloc),
            (Some(index), Some(named)) => {
                joined(alloc, index.listed(alloc)?, named.listed(alloc)?)
            }
        }
    }

    /// Returns all elements by ascending key. If all keys are of one kind, the first call after an insert sorts them,
    /// and later calls share the list.
    pub fn whole(&mut self, alloc: Global) -> Result<Map, AllocError>
        ensures whole { IfOk result (λ map. map ≡ self.old.elements) }
        ensures same { self.new ≡ self.old }
    {
        match (&mut self.numbers, &mut self.texts) {
            (None, None) => Map::new(alloc, Vec::new(alloc)),
            (Some(index), None) => index.whole(alloc),
            (None, Some(named)) => named.whole(alloc),
            (Some(index), Some(named)) => joined(alloc, index.whole(alloc)?, named.whole(alloc)?),
        }
    }
}

fn count_numbers(numbers: &Option<Box<NumberElements>>) -> usize
    ensures len { result ≡ length (table_of numbers.now).entries }
    ensures small { result < 2 ^ 63 + 2 ^ 32 }
{
    match numbers {
        Some(index) => index.len(),
        None => 0,
    }
}

fn count_texts(texts: &Option<Box<TextElements>>) -> usize
    ensures len { result ≡ length (table_of texts.now).entries }
    ensures small { result ≤ 2 ^ 62 }
{
    match texts {
        Some(named) => named.len(),
        None => 0,
    }
}

#[inline(always)]
fn under_number(numbers: &Option<Box<NumberElements>>, n: i64) -> Option<&Scalar>
    ensures { option_copied result ≡ found (Key.Number n) (table_of numbers.now).entries }
{
    match numbers {
        Some(index) => index.get(n),
        None => None,
    }
}

#[inline(always)]
fn under_text<'a>(texts: &'a Option<Box<TextElements>>, text: &Text) -> Option<&'a Scalar>
    ensures { option_copied result ≡ found (Key.Text text.now) (table_of texts.now).entries }
{
    match texts {
        Some(named) => named.get(text),
        None => None,
    }
}

// Returns the number of further elements under numbers that are sure to find memory.
fn places(numbers: &Option<Box<NumberElements>>) -> usize
    ensures { result ≡ (table_of numbers.now).places }
{
    match numbers {
        Some(index) => index.places(),
        None => 0,
    }
}

// Reduces the room promised to elements under numbers to this number.
fn limit(numbers: &mut Option<Box<NumberElements>>, places: usize)
    requires { places ≤ (table_of numbers.old).places }
    ensures { table_of numbers.new ≡ limited places (table_of numbers.old) }
{
    if let Some(index) = numbers {
        index.limit(places);
    }
}

#[inline(always)]
fn reserve_numbers(
    numbers: &mut Option<Box<NumberElements>>,
    alloc: Global,
    n: usize,
) -> Result<(), AllocError>
    ensures ok { OnOk result (table_of numbers.new ≡ with_places n (table_of numbers.old)) }
    ensures succeeds { n ≤ (table_of numbers.old).places → IsOk result }
    ensures err { OnErr result (table_of numbers.new ≡ table_of numbers.old) }
{
    match numbers {
        Some(index) => index.reserve(n),
        None if n == 0 => Ok(()),
        None => {
            let mut index = Box::new(alloc, NumberElements::new(alloc))?;
            index.reserve(n)?;
            *numbers = Some(index);
            Ok(())
        }
    }
}

#[inline(never)]
fn reserve_texts(
    texts: &mut Option<Box<TextElements>>,
    alloc: Global,
    n: usize,
) -> Result<(), AllocError>
    ensures ok { OnOk result (table_of texts.new ≡ with_places n (table_of texts.old)) }
    ensures succeeds { n ≤ (table_of texts.old).places → IsOk result }
    ensures err { OnErr result (table_of texts.new ≡ table_of texts.old) }
{
    match texts {
        Some(named) => named.reserve(n),
        None if n == 0 => Ok(()),
        None => {
            let mut named = Box::new(alloc, TextElements::new(alloc))?;
            named.reserve(n)?;
            *texts = Some(named);
            Ok(())
        }
    }
}

#[inline(always)]
fn insert_number(
    numbers: &mut Option<Box<NumberElements>>,
    alloc: Global,
    n: i64,
    value: Scalar,
) -> Result<(), AllocError>
    requires { found (Key.Number n) (table_of numbers.old).entries ≡ None }
    ensures ok { OnOk result (table_of numbers.new ≡ with_entry (Key.Number n) value (table_of numbers.old)) }
    ensures succeeds { 0 < (table_of numbers.old).places → IsOk result }
    ensures err { OnErr result (table_of numbers.new ≡ table_of numbers.old) }
{
    match numbers {
        Some(index) => index.insert(n, value),
        None => {
            let mut index = Box::new(alloc, NumberElements::new(alloc))?;
            index.insert(n, value)?;
            *numbers = Some(index);
            Ok(())
        }
    }
}

#[inline(never)]
fn insert_text(
    texts: &mut Option<Box<TextElements>>,
    alloc: Global,
    text: Text,
    value: Scalar,
) -> Result<(), AllocError>
    requires { found (Key.Text text) (table_of texts.old).entries ≡ None }
    ensures ok { OnOk result (table_of texts.new ≡ with_entry (Key.Text text) value (table_of texts.old)) }
    ensures succeeds { 0 < (table_of texts.old).places → IsOk result }
    ensures err { OnErr result (table_of texts.new ≡ table_of texts.old) }
{
    match texts {
        Some(named) => named.insert(text, value),
        None => {
            let mut named = Box::new(alloc, TextElements::new(alloc))?;
            named.insert(text, value)?;
            *texts = Some(named);
            Ok(())
        }
    }
}

// Returns the elements under numbers, followed by those under texts.
fn joined(alloc: Global, numbers: Map, texts: Map) -> Result<Map, AllocError>
    requires { AreParted numbers texts }
    ensures { IfOk result (λ map. map ≡ numbers ++ texts) }
{
    let mut list = Vec::new(alloc);
    append(&mut list, numbers.elements())?;
    append(&mut list, texts.elements())?;
    Map::new(alloc, list)
}

fn append(list: &mut Vec<Element>, elements: &[Element]) -> Result<(), AllocError>
    ensures { OnOk result (list.new.items ≡ list.old.items ++ elements.now) }
{
    for element in elements {
        list.push(Element {
            key: element.key.share()?,
            value: element.value.share()?,
        })?;
    }
    Ok(())
}
