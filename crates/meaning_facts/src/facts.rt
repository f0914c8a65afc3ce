//! Facts of a script's run, in maps by place.
ghost use Rattle.std.specs.Prelude.{◌≡◌, ◌↔◌, [], option_copied, IfOk, IfErr, OnOk, IsSome, IsTrue};
ghost use Rattle.std.specs.HashMap.{get, IsUnique};
ghost use Rattle.meaning_steps.specs.Kept.{several_in};
ghost use Rattle.meaning_facts.specs.Added.{HasSame, IsAdded, IsNothing, is_new};
ghost use Rattle.meaning_facts.specs.Indexed.{one_writer_in};
ghost use Rattle.values.specs.Keys.{key_seen};
ghost use Rattle.values.specs.Maps.{rising};
ghost use Rattle.language.specs.Facts.{operation};
ghost use Rattle.meaning_facts.specs.Keeping.{has_some, some_fault_at};
ghost use Rattle.meaning_facts.specs.Kinds.{kind_view};
ghost use Rattle.meaning_facts.specs.Store.{value_at, line_at, all_lines, writes_at, is_written_in, same_pair, same_place, WrittenAs, writes_under, put_write, elements_from};

use crate::writes::Writes;
use paths::FaultKind;
use std::alloc::{AllocError, Global};
use std::collections::{HashMap, HashSet};
use values::fault::OpFault;
use values::key::{Key, KeyRef};
use values::map::{Element, Map, place_of};
use values::text::Text;
use values::value::{Scalar, Value};

/// A place: the number of a block instance, with a node.
#[derive(Clone, Copy, PartialEq, Eq, Hash, Debug)]
pub struct Place {
    pub instance: usize,
    pub node: u32,
}

/// A fault of the statement at an offset.
#[derive(Clone, Copy, PartialEq, Eq, Hash, Debug)]
pub struct FaultFact {
    pub kind: FaultKind,
    pub at: usize,
    pub place: Place,
}

/// A write of a key of an array, with its writer.
#[derive(Drop)]
pub struct Write {
    pub key: Key,
    pub writer: Place,
    pub value: Scalar,
}

/// A fact: a value of a cell or a scalar variable, a write of an array key, a line with its writer, or a fault.
#[derive(Drop)]
pub enum Fact {
    Value(Place, Value),
    Element(Place, Write),
    Line(Place, Text),
    Fault(FaultFact),
}

/// A set of facts, indexed by place: the number of an instance with a node.
#[derive(Drop)]
pub struct Facts {
    values: HashMap<(usize, u32), Value>,
    writes: HashMap<(usize, u32), Writes>,
    lines: HashMap<(usize, u32), Text>,
    pub faults: HashSet<FaultFact>,
}

/// The writes of one array key: none, exactly one, or at least two.
#[derive(Drop)]
pub enum KeyWrites<'a> {
    Never,
    Once(&'a Scalar),
    Twice,
}

impl Place {
    pub(crate) fn is_same(self, other: Place) -> bool
        ensures { result ≡ same_place self other }
    {
        self.instance == other.instance && self.node == other.node
    }

    fn key(self) -> (usize, u32)
        ensures { result ≡ (self.instance, self.node) }
    {
        (self.instance, self.node)
    }
}

/// Converts the fault of an operator, a conversion or a range into its kind.
///
/// # Errors
///
/// Returns `AllocError` for `OpFault::Memory`, which is not a fault of the script.
pub fn kind_of_operation(fault: OpFault) -> Result<FaultKind, AllocError>
    ensures kind { IfOk result (λ kind. kind_view kind ≡ operation fault) }
    ensures memory { IfErr result (λ _. fault ≡ OpFault.Memory) }
{
    FaultKind::of_operation(fault)
}

impl Facts {
    /// Creates an empty set of facts.
    pub fn new(alloc: Global) -> Facts
        ensures { IsNothing result }
    {
        Facts {
            values: HashMap::new(alloc),
            writes: HashMap::new(alloc),
            lines: HashMap::new(alloc),
            faults: HashSet::new(alloc),
        }
    }

    /// Returns the value at a place, if it is known.
    pub fn value(&self, place: Place) -> Option<&Value>
        ensures { option_copied result ≡ value_at self.now place }
    {
        self.values.get(&place.key())
    }

    /// Returns the line of a statement, if it is known.
    pub fn line(&self, writer: Place) -> Option<&Text>
        ensures { option_copied result ≡ line_at self.now writer }
    {
        self.lines.get(&writer.key())
    }

    /// Returns all lines, one for each writer, in no particular order.
    pub fn all_lines(&self, alloc: Global) -> Result<Vec<Text>, AllocError>
        ensures lines { IfOk result (λ lines. lines.items ≡ all_lines self.now) }
        ensures once { IsUnique same_pair self.now.lines }
    {
        let mut lines = Vec::new(alloc);
        for line in self.lines.values() {
            lines.push(line.share()?)?;
        }
        Ok(lines)
    }

    /// Returns the writes of an array.
    pub fn writes_of(&self, array: Place) -> &[Write]
        ensures { result.now ≡ writes_at self.now array }
    {
        match self.writes.get(&array.key()) {
            Some(writes) => writes.as_slice(),
            None => &[],
        }
    }

    /// Returns the writes of a key of an array.
    pub fn written(&self, array: Place, key: KeyRef<'_>) -> KeyWrites<'_>
        ensures { WrittenAs result (writes_under (writes_at self.now array) (key_seen key.entry)) }
    {
        match self.writes.get(&array.key()) {
            Some(writes) => writes.written(key),
            None => KeyWrites::Never,
        }
    }

    /// Returns true if a statement has written a key of an array.
    pub fn is_written_by(&self, array: Place, key: KeyRef<'_>, writer: Place) -> bool
        ensures { result ≡ is_written_in (writes_at self.now array) (key_seen key.entry) writer }
    {
        match self.writes.get(&array.key()) {
            Some(writes) => writes.is_written_by(key, writer),
            None => false,
        }
    }

    /// Returns true if a key of an array has two writers.
    pub fn is_written_twice(&self, array: Place, key: KeyRef<'_>) -> bool
        ensures { result ≡ several_in (writes_under (writes_at self.now array) (key_seen key.entry)) }
    {
        match self.written(array, key) {
            KeyWrites::Twice => true,
            _ => false,
        }
    }

    /// Returns true if a fault of the statement at an offset is known at a place.
    pub fn has_fault(&self, at: usize, place: Place) -> bool
        ensures { result ≡ some_fault_at self.now at place }
    {
        self.has_one_of(&FaultKind::ALL, at, place)
    }

    /// Returns true if a fault of one of these kinds is known at a place.
    fn has_one_of(&self, kinds: &[FaultKind], at: usize, place: Place) -> bool
        ensures { result ≡ has_some self.now kinds.now at place }
    {
        for kind in kinds {
            let kind = *kind;
            if self.faults.contains(&FaultFact { kind, at, place }) {
                return true;
            }
        }
        false
    }

    /// Returns true if no key of an array has two writers.
    pub fn has_one_writer(&self, array: Place) -> bool
        ensures { result ≡ one_writer_in (writes_at self.now array) }
    {
        match self.writes.get(&array.key()) {
            Some(writes) => writes.has_one_writer(),
            None => true,
        }
    }

    /// Returns the elements of an array, by rising key. If a key has two writers, its first write counts.
    pub fn elements(&self, alloc: Global, array: Place) -> Result<Map, AllocError>
        ensures { IfOk result (λ map. map ≡ elements_from [] (writes_at self.now array)) }
    {
        elements_in(alloc, self.writes_of(array))
    }

    /// Adds a fact. Returns true if the fact was not known.
    pub fn add(&mut self, alloc: Global, fact: Fact) -> Result<bool, AllocError>
        ensures added { OnOk result (IsAdded self.old fact self.new) }
        ensures new { IfOk result (λ new. new ≡ is_new self.old fact) }
    {
        match fact {
            Fact::Value(place, value) => self.add_value(place, value),
            Fact::Element(array, write) => self.add_write(alloc, array, write),
            Fact::Line(writer, text) => self.add_line(writer, text),
            Fact::Fault(fault) => self.add_fault(fault),
        }
    }

    #[tactic(auto, using(crate::proofs::Adding::value_kept, crate::proofs::Adding::value_added))]
    fn add_value(&mut self, place: Place, value: Value) -> Result<bool, AllocError>
        ensures added { OnOk result (IsAdded self.old (Fact.Value place value) self.new) }
        ensures new { IfOk result (λ new. new ≡ is_new self.old (Fact.Value place value)) }
    {
        if self.values.contains_key(&place.key()) {
            return Ok(false);
        }
        self.values.insert(place.key(), value)?;
        Ok(true)
    }

    #[tactic(auto, using(crate::proofs::Adding::line_kept, crate::proofs::Adding::line_added))]
    fn add_line(&mut self, writer: Place, text: Text) -> Result<bool, AllocError>
        ensures added { OnOk result (IsAdded self.old (Fact.Line writer text) self.new) }
        ensures new { IfOk result (λ new. new ≡ is_new self.old (Fact.Line writer text)) }
    {
        if self.lines.contains_key(&writer.key()) {
            return Ok(false);
        }
        self.lines.insert(writer.key(), text)?;
        Ok(true)
    }

    #[tactic(auto, using(crate::proofs::Adding::fault_added))]
    fn add_fault(&mut self, fault: FaultFact) -> Result<bool, AllocError>
        ensures added { OnOk result (IsAdded self.old (Fact.Fault fault) self.new) }
        ensures new { IfOk result (λ new. new ≡ is_new self.old (Fact.Fault fault)) }
    {
        Ok(self.faults.insert(fault)?)
    }

    fn add_write(&mut self, alloc: Global, array: Place, write: Write) -> Result<bool, AllocError>
        ensures added { OnOk result (IsAdded self.old (Fact.Element array write) self.new) }
        ensures new { IfOk result (λ new. new ≡ is_new self.old (Fact.Element array write)) }
    {
        self.make_list(alloc, array)?;
        self.put_write(array, write)
    }

    /// Creates an empty list of writes for an array, unless it has one.
    fn make_list(&mut self, alloc: Global, array: Place) -> Result<(), AllocError>
        ensures same { OnOk result (HasSame self.old self.new) }
        ensures there { OnOk result (IsSome (get same_pair self.new.writes (array.instance, array.node))) }
    {
        if !self.writes.contains_key(&array.key()) {
            self.writes.insert(array.key(), Writes::new(alloc))?;
        }
        Ok(())
    }

    /// Appends a write to the list of an array, which must exist. Returns true if the write was not known.
    fn put_write(&mut self, array: Place, write: Write) -> Result<bool, AllocError>
        requires { IsSome (get same_pair self.old.writes (array.instance, array.node)) }
        ensures added { OnOk result (IsAdded self.old (Fact.Element array write) self.new) }
        ensures new { IfOk result (λ new. new ≡ is_new self.old (Fact.Element array write)) }
    {
        match self.writes.get_mut(&array.key()) {
            Some(writes) => writes.put(write),
            None => Ok(false),
        }
    }

    /// Returns true if no key of any array has two writers.
    pub fn is_clean(&self) -> bool
        ensures { IsTrue result ↔ ((a : Place) → IsTrue (one_writer_in (writes_at self.now a))) }
    {
        for writes in self.writes.values() {
            if !writes.has_one_writer() {
                return false;
            }
        }
        true
    }
}

/// Returns the elements of these writes, by rising key. The first write of a key counts.
fn elements_in(alloc: Global, writes: &[Write]) -> Result<Map, AllocError>
    ensures { IfOk result (λ map. map ≡ elements_from [] writes.now) }
{
    let mut elements = Vec::new(alloc);
    for write in writes {
        put_element(&mut elements, write)?;
    }
    Map::new(alloc, elements)
}

/// Inserts an element in order, unless its key is present.
#[tactic(auto, using(crate::proofs::Stored::put_kept, crate::proofs::Stored::put_new, crate::proofs::Stored::put_rising))]
fn put_element(elements: &mut Vec<Element>, write: &Write) -> Result<(), AllocError>
    requires { IsTrue (rising elements.old.items) }
    ensures rising { OnOk result (IsTrue (rising elements.new.items)) }
    ensures put { OnOk result (elements.new.items ≡ put_write elements.old.items write.now) }
{
    match place_of(elements.as_slice(), &write.key) {
        Ok(_) => Ok(()),
        Err(place) => {
            elements.insert(
                place,
                Element {
                    key: write.key.share()?,
                    value: write.value.share()?,
                },
            )?;
            Ok(())
        }
    }
}
