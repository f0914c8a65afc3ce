//! The variable index: lookup of the slots of the variables that a block declares.
ghost use Rattle.std.specs.Prelude.{◌≡◌, ◌+◌, ◌*◌, ◌<◌, ◌≤◌, ℕ, None, length, map, nat_eq, IfOk, IfSome, OnOk};
ghost use Rattle.indexmap.specs.IndexMap.{get};
ghost use Rattle.task_code.specs.View.{name_view, variable_view};
ghost use Rattle.board_program.specs.Places.{FindsPlaces, NotesPlace, entry_place, index_from, number_of, own_place, place_at, place_in};

use indexmap::IndexMap;
use std::alloc::{AllocError, Global};
use task_code::entry::{Name, Owned, Variable};

/// Returns the lookup number of a variable. No two variables share one.
fn number_of(variable: Variable) -> u64
    ensures { result ≡ number_of (variable_view variable) }
{
    let kind = if variable.array { 1 } else { 0 };
    2 * variable.node as u64 + kind
}

/// A map from the numbers of variables to their slots: a dense table for one range of numbers, and a hash map for all
/// others.
///
/// The numbers of the variables of one block mostly lie close together.
#[derive(Drop)]
pub struct VariableIndex {
    /// The first number of the table.
    least: u64,
    /// For each number from `least` on: one more than its slot, or 0.
    table: Vec<u32>,
    /// The slots of all other numbers.
    far: IndexMap<u64, usize>,
}

/// Returns the least and the greatest of the numbers of the variables. They affect time and memory alone: lookups are
/// right for any range of the table.
fn ends(makes: &[Variable]) -> (u64, u64) {
    let mut least = u64::MAX;
    let mut greatest = 0;
    for at in 0..makes.len() {
        let number = number_of(makes[at]);
        least = least.min(number);
        greatest = greatest.max(number);
    }
    (least, greatest)
}

/// Returns the size of the table: the whole range from the least to the greatest number, or 0 if the range is too
/// sparse.
fn table_size(count: usize, least: u64, greatest: u64) -> usize
    ensures { result ≤ 32 * count + 32 }
{
    if greatest < least || count >= u32::MAX as usize {
        return 0;
    }
    let span = greatest - least;
    if span / 32 > count as u64 {
        return 0;
    }
    span as usize + 1
}

/// Creates an index without slots, whose table covers the numbers of these variables.
#[tactic(auto, using(crate::proofs::Noted::blank))]
fn empty_index(alloc: Global, makes: &[Variable]) -> Result<VariableIndex, AllocError>
    ensures { IfOk result (λ places. (n : ℕ) → place_at places n ≡ None) }
{
    let (least, greatest) = ends(makes);
    let size = table_size(makes.len(), least, greatest);
    let mut table = Vec::with_capacity(alloc, size)?;
    table.resize(size, 0)?;
    Ok(VariableIndex {
        least,
        table,
        far: IndexMap::new(alloc),
    })
}

/// Converts a slot into a table entry.
///
/// # Errors
///
/// Returns `AllocError` if the entry does not fit in 32 bits.
fn entry_of(place: usize) -> Result<u32, AllocError>
    ensures { IfOk result (λ entry. entry ≡ place + 1) }
{
    if place < u32::MAX as usize {
        Ok(place as u32 + 1)
    } else {
        Err(AllocError)
    }
}

/// Returns the slot of a table entry, or `None` if the entry is 0.
fn entry_place(entry: u32) -> Option<usize>
    ensures { result ≡ entry_place entry }
{
    if entry == 0 {
        None
    } else {
        Some(entry as usize - 1)
    }
}

/// Creates the index of these variables. A variable that is declared twice has its first slot.
#[tactic(auto, using(crate::proofs::Counted::none_found, crate::proofs::Counted::one_found, crate::proofs::Counted::all_found))]
pub fn places_among(alloc: Global, makes: &[Variable]) -> Result<VariableIndex, AllocError>
    ensures { IfOk result (FindsPlaces (map variable_view makes.now)) }
{
    let mut places = empty_index(alloc, makes)?;
    let mut left = makes.len();
    while left > 0 {
        left -= 1;
        places.note(number_of(makes[left]), left)?;
    }
    Ok(places)
}

impl VariableIndex {
    /// Returns the table index of a number, or `None` if the number lies outside of the table.
    fn index_of(&self, number: u64) -> Option<usize>
        ensures index { result ≡ index_from self.now.least (length self.now.table.items) number }
        ensures within { IfSome result (λ k. k < length self.now.table.items) }
    {
        if number < self.least {
            return None;
        }
        let index = (number - self.least) as usize;
        if index < self.table.len() {
            Some(index)
        } else {
            None
        }
    }

    /// Records the slot of a number, in the table or the map.
    #[tactic(auto, using(crate::proofs::Noted::noted_near, crate::proofs::Noted::noted_far))]
    fn note(&mut self, number: u64, place: usize) -> Result<(), AllocError>
        ensures { OnOk result (NotesPlace self.old self.new number place) }
    {
        match self.index_of(number) {
            Some(index) => self.table[index] = entry_of(place)?,
            None => {
                self.far.insert(number, place)?;
            }
        }
        Ok(())
    }

    /// Returns the slot of a number in the map. The map is empty for most blocks.
    #[tactic(auto, using(crate::proofs::Noted::none_far))]
    fn map_lookup(&self, number: u64) -> Option<usize>
        ensures { result ≡ get nat_eq self.now.far number }
    {
        if self.far.is_empty() {
            return None;
        }
        self.far.get(&number).copied()
    }

    /// Returns the slot of a number.
    fn place_at(&self, number: u64) -> Option<usize>
        ensures { result ≡ place_at self.now number }
    {
        match self.index_of(number) {
            Some(index) => entry_place(self.table[index]),
            None => self.map_lookup(number),
        }
    }

    /// Returns the slot of a variable, or `None` if the block does not declare it.
    pub fn of(&self, variable: Variable) -> Option<usize>
        ensures { result ≡ place_in self.now (variable_view variable) }
    {
        self.place_at(number_of(variable))
    }

    /// Returns the slot of a name that refers to a variable of the block itself.
    pub fn of_name(&self, name: Name) -> Option<usize>
        ensures { result ≡ own_place self.now (name_view name) }
    {
        match name.owned {
            Owned::Local(variable) => {
                if name.up == 0 {
                    self.of(variable)
                } else {
                    None
                }
            }
            Owned::Parameter(_, _) => None,
        }
    }
}
