//! The items of a run: the entry and block of each, whether it has ended, and the scalars stored.

use board_work::outcome::{ControlResult, Outcome};
use std::alloc::{AllocError, Global};
use std::collections::HashMap;
use task_code::code::Code;
use task_code::entry::{Act, Argument, Entry, Loop, Name, Need, Owned};
use values::loop_chunks::{are_left, chunk_of};
use values::map::Map;
use values::range::IntRange;
use values::value::{Scalar, Value};

/// The largest integer, and so the largest key of a turn.
const GREATEST: u64 = 9_223_372_036_854_775_807;

/// An item: its entry, or `None` for the item that opens the script, its block, and the first chunk of turns that it
/// opens.
#[derive(Clone, Copy, Drop)]
pub struct TrackedItem {
    pub entry: Option<u32>,
    pub block: usize,
    chunk: usize,
    is_over: bool,
}

/// An instance of a block: the enclosing instance, or the caller's if the block is of a function, and the entry of that
/// call.
#[derive(Clone, Copy, Drop)]
struct BlockInstance {
    outer: usize,
    call: Option<u32>,
}

/// Location of a variable: an instance of a block and a node, or none since it is a literal.
#[derive(Clone, Copy, PartialEq, Eq, Debug, Drop)]
pub enum VariableLocation {
    Of(usize, u32),
    Literal,
    Nowhere,
}

/// The argument of a call for a parameter: a name resolved from a block, or a literal.
#[derive(Clone, Copy, Drop)]
enum ParameterBinding {
    Name(usize, Name),
    Literal,
    Nothing,
}

/// The items, blocks and scalars of a run. Items are numbered from 1, in the order in which they are opened.
#[derive(Drop)]
pub struct ItemTable {
    alloc: Global,
    items: Vec<TrackedItem>,
    blocks: Vec<BlockInstance>,
    stored: HashMap<(usize, u32), Scalar>,
}

impl ItemTable {
    /// Creates the table before all events, with the item that opens the script.
    pub fn new(alloc: Global) -> Result<ItemTable, AllocError> {
        let mut items = ItemTable {
            alloc,
            items: Vec::new(alloc),
            blocks: Vec::new(alloc),
            stored: HashMap::new(alloc),
        };
        items.blocks.push(BlockInstance {
            outer: 0,
            call: None,
        })?;
        items.items.push(TrackedItem {
            entry: None,
            block: 0,
            chunk: 0,
            is_over: false,
        })?;
        Ok(items)
    }

    /// Returns the item of this number.
    pub fn item(&self, number: u64) -> Option<TrackedItem> {
        let place = usize::try_from(number).ok()?.checked_sub(1)?;
        self.items.get(place).copied()
    }

    /// Returns the entry of an item.
    pub fn entry_of<'c>(&self, code: &'c Code, number: u64) -> Option<&'c Entry> {
        code.entry(self.item(number)?.entry?)
    }

    /// Applies the end of an item with this outcome and without a fault.
    pub fn end(&mut self, code: &Code, number: u64, outcome: &Outcome) -> Result<(), AllocError> {
        let Some(item) = self.item(number) else {
            return Ok(());
        };
        self.mark_over(number);
        let Some(number) = item.entry else {
            return self.open(code, 0, 0);
        };
        match (code.entry(number), outcome) {
            (Some(entry), Outcome::Leaf(Ok(Value::One(scalar)))) => {
                self.end_leaf(code, item, entry, scalar)
            }
            (Some(entry), Outcome::Control(computed)) => {
                self.end_control(code, item, entry, computed)
            }
            _ => Ok(()),
        }
    }

    fn mark_over(&mut self, number: u64) {
        let Some(place) = (number as usize).checked_sub(1) else {
            return;
        };
        if let Some(item) = self.items.get_mut(place) {
            item.is_over = true;
        }
    }

    /// Stores the value of a cell or of an assigned scalar.
    fn end_leaf(
        &mut self,
        code: &Code,
        item: TrackedItem,
        entry: &Entry,
        scalar: &Scalar,
    ) -> Result<(), AllocError> {
        match &entry.act {
            Act::Cell(_) => self.store(VariableLocation::Of(item.block, entry.node), scalar),
            Act::Set(name, _) => {
                let place = self.place(code, item.block, *name);
                self.store(place, scalar)
            }
            _ => Ok(()),
        }
    }

    /// Opens blocks, or stores an element that was read.
    fn end_control(
        &mut self,
        code: &Code,
        item: TrackedItem,
        entry: &Entry,
        computed: &ControlResult,
    ) -> Result<(), AllocError> {
        match (&entry.act, computed) {
            (Act::Read, ControlResult::Gives(scalar)) => {
                self.store(VariableLocation::Of(item.block, entry.node), scalar)
            }
            (Act::Call { body, .. }, _) => self.open_inside(code, item.block, item.entry, *body),
            (Act::Wait(_, body), _) => self.open(code, item.block, *body),
            (Act::If(_, then, _), ControlResult::Takes(true)) => {
                self.open_inside(code, item.block, None, *then)
            }
            (Act::If(_, _, Some(other)), ControlResult::Takes(false)) => {
                self.open_inside(code, item.block, None, *other)
            }
            (Act::Range(_, _, _, turns), ControlResult::Counts(range)) => {
                self.open_range(code, item, *turns, range)
            }
            (Act::Each(turns), ControlResult::Goes(map)) => self.open_map(code, item, *turns, map),
            _ => Ok(()),
        }
    }

    fn store(&mut self, place: VariableLocation, scalar: &Scalar) -> Result<(), AllocError> {
        if let VariableLocation::Of(block, node) = place {
            self.stored.insert((block, node), scalar.share()?)?;
        }
        Ok(())
    }

    /// Appends the items of a body in a block.
    fn open(&mut self, code: &Code, block: usize, body: u32) -> Result<(), AllocError> {
        let Some(body) = code.body(body) else {
            return Ok(());
        };
        for entry in &body.entries {
            self.items.push(TrackedItem {
                entry: Some(*entry),
                block,
                chunk: 0,
                is_over: false,
            })?;
        }
        Ok(())
    }

    /// Appends a nested block with the items of its body.
    fn open_inside(
        &mut self,
        code: &Code,
        outer: usize,
        call: Option<u32>,
        body: u32,
    ) -> Result<(), AllocError> {
        let block = self.blocks.len();
        self.blocks.push(BlockInstance { outer, call })?;
        self.open(code, block, body)
    }

    /// Appends the turns of a chunk of a range.
    fn open_range(
        &mut self,
        code: &Code,
        item: TrackedItem,
        turns: Loop,
        range: &IntRange,
    ) -> Result<(), AllocError> {
        let (first, end) = chunk_of(item.chunk, range.count);
        for turn in first..end {
            if turn < range.count && turn <= GREATEST {
                let value = Scalar::Number(range.value(turn));
                let key = Scalar::Number(turn as i64);
                self.open_turn(code, item, turns, &value, &key)?;
            }
        }
        self.go_on(item, are_left(end, range.count))
    }

    /// Appends the turns of a chunk of an array's elements.
    fn open_map(
        &mut self,
        code: &Code,
        item: TrackedItem,
        turns: Loop,
        map: &Map,
    ) -> Result<(), AllocError> {
        let count = map.len() as u64;
        let (first, end) = chunk_of(item.chunk, count);
        for turn in first..end {
            if let Some(element) = map.elements().get(turn as usize) {
                let key = element.key.scalar()?;
                self.open_turn(code, item, turns, &element.value, &key)?;
            }
        }
        self.go_on(item, are_left(end, count))
    }

    fn open_turn(
        &mut self,
        code: &Code,
        item: TrackedItem,
        turns: Loop,
        value: &Scalar,
        key: &Scalar,
    ) -> Result<(), AllocError> {
        let block = self.blocks.len();
        self.store(VariableLocation::Of(block, turns.value), value)?;
        if let Some(node) = turns.turn {
            self.store(VariableLocation::Of(block, node), key)?;
        }
        self.open_inside(code, item.block, None, turns.body)
    }

    /// Appends the item that opens the remaining turns, if there are any.
    fn go_on(&mut self, item: TrackedItem, are_left: bool) -> Result<(), AllocError> {
        if are_left {
            self.items.push(TrackedItem {
                entry: item.entry,
                block: item.block,
                chunk: item.chunk.saturating_add(1),
                is_over: false,
            })?;
        }
        Ok(())
    }
}

impl ItemTable {
    /// Returns the location of the variable that a name refers to from a block.
    pub fn place(&self, code: &Code, block: usize, name: Name) -> VariableLocation {
        let mut block = block;
        let mut name = name;
        for _ in 0..self.blocks.len() {
            let inside = self.outer(block, name.up);
            match name.owned {
                Owned::Local(variable) => return VariableLocation::Of(inside, variable.node),
                Owned::Parameter(place, _) => match self.given(code, inside, place) {
                    ParameterBinding::Name(outer, given) => {
                        block = outer;
                        name = given;
                    }
                    ParameterBinding::Literal => return VariableLocation::Literal,
                    ParameterBinding::Nothing => return VariableLocation::Nowhere,
                },
            }
        }
        VariableLocation::Nowhere
    }

    /// Returns the block `up` levels further out.
    fn outer(&self, block: usize, up: usize) -> usize {
        let mut block = block;
        for _ in 0..up {
            match self.blocks.get(block) {
                Some(found) => block = found.outer,
                None => break,
            }
        }
        block
    }

    /// Returns the argument for a parameter in the call that opened a function's block.
    fn given(&self, code: &Code, block: usize, place: usize) -> ParameterBinding {
        let Some(found) = self.blocks.get(block) else {
            return ParameterBinding::Nothing;
        };
        match call_in(code, found.call) {
            Some(
                Act::Call {
                    inputs,
                    outputs,
                    ..
                },
            ) => given_among(found.outer, inputs.as_slice(), outputs.as_slice(), place),
            _ => ParameterBinding::Nothing,
        }
    }

    /// Returns the entry of the call that opened the function around a block.
    pub fn call_around(&self, block: usize) -> Option<u32> {
        let mut block = block;
        for _ in 0..self.blocks.len() {
            let found = self.blocks.get(block)?;
            if found.call.is_some() {
                return found.call;
            }
            block = found.outer;
        }
        None
    }

    /// Returns the scalar stored at a location.
    pub fn scalar(&self, place: VariableLocation) -> Option<&Scalar> {
        match place {
            VariableLocation::Of(block, node) => self.stored.get(&(block, node)),
            _ => None,
        }
    }

    /// Returns the needs of an item that are not known.
    pub fn missing<'c>(&self, code: &'c Code, number: u64) -> Result<Vec<&'c Need>, AllocError> {
        let mut missing = Vec::new(self.alloc);
        let Some(item) = self.item(number) else {
            return Ok(missing);
        };
        let Some(entry) = self.entry_of(code, number) else {
            return Ok(missing);
        };
        for need in &entry.needs {
            if !self.is_known(code, item.block, need) {
                missing.push(need)?;
            }
        }
        Ok(missing)
    }

    /// Returns true if a need of an entry in a block is known. An absent element counts as known once its array is
    /// closed.
    fn is_known(&self, code: &Code, block: usize, need: &Need) -> bool {
        match need {
            Need::Stored(name) => self.is_stored(self.place(code, block, *name)),
            Need::Closed(name) => self.is_closed(code, self.place(code, block, *name)),
            Need::At(array, index) => {
                self.is_stored(self.place(code, block, *index))
                    && self.is_closed(code, self.place(code, block, *array))
            }
            Need::AtKey(array, _) => self.is_closed(code, self.place(code, block, *array)),
        }
    }

    fn is_stored(&self, place: VariableLocation) -> bool {
        place == VariableLocation::Literal || self.scalar(place).is_some()
    }

    /// Returns true if no item that has not ended may write at the location.
    fn is_closed(&self, code: &Code, place: VariableLocation) -> bool {
        for item in &self.items {
            if !item.is_over && self.may_write(code, item, place) {
                return false;
            }
        }
        true
    }

    fn may_write(&self, code: &Code, item: &TrackedItem, place: VariableLocation) -> bool {
        match entry_in(code, item.entry) {
            Some(entry) => {
                for name in &entry.writes {
                    if self.place(code, item.block, *name) == place {
                        return true;
                    }
                }
                false
            }
            None => false,
        }
    }

    /// Returns the number of the item that has not ended and computes the value at this location for its own statement.
    pub fn maker(&self, code: &Code, place: VariableLocation) -> Option<u64> {
        for i in 0..self.items.len() {
            let item = &self.items[i];
            if !item.is_over && makes(code, item, place) {
                return Some((i as u64).saturating_add(1));
            }
        }
        None
    }
}

fn entry_in(code: &Code, number: Option<u32>) -> Option<&Entry> {
    code.entry(number?)
}

/// Returns the action of the entry of a call.
fn call_in(code: &Code, number: Option<u32>) -> Option<&Act> {
    Some(&entry_in(code, number)?.act)
}

/// Returns the argument at an index among the inputs followed by the outputs.
fn given_among(
    outer: usize,
    inputs: &[Argument],
    outputs: &[Name],
    place: usize,
) -> ParameterBinding {
    match inputs.get(place) {
        Some(Argument::Named(name)) => ParameterBinding::Name(outer, *name),
        Some(Argument::Fixed(_)) => ParameterBinding::Literal,
        None => match outputs.get(place.saturating_sub(inputs.len())) {
            Some(name) => ParameterBinding::Name(outer, *name),
            None => ParameterBinding::Nothing,
        },
    }
}

/// Returns true if an item stores a cell, or an element that it reads, at the location.
fn makes(code: &Code, item: &TrackedItem, place: VariableLocation) -> bool {
    match entry_in(code, item.entry) {
        Some(entry) => {
            matches!(&entry.act, Act::Cell(_) | Act::Read)
                && place == VariableLocation::Of(item.block, entry.node)
        }
        None => false,
    }
}
