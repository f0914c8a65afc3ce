//! The writer index: which blocked or faulty statements would write a variable.

use crate::index::ScriptIndex;
use explain_remedies::expressions::value_within;
use flow::cell::{Cell, CellForm};
use flow::name::Name;
use flow::statement::{Action, Block};
use flow_index::site::StatementForm;
use meaning_facts::fact_base::FactBase;
use meaning_facts::facts::Place;
use meaning_outcomes::knowledge::Knowledge;
use std::alloc::{AllocError, Allocator, Global};
use std::collections::{HashMap, HashSet};
use values::key::KeyRef;
use values::value::Value;

/// Maximum number of writers that are kept for a target.
const MAX_WRITERS: usize = 4;

/// A statement that would write a variable or open a block that would: its offset, and whether it is blocked.
/// Otherwise it has a fault.
#[derive(Clone, Copy, PartialEq, Eq, Debug)]
pub struct Writer {
    pub at: usize,
    pub blocked: bool,
}

/// A target of writes: the variable at a place or, with a mark, the array element at that place whose key has this
/// mark.
#[derive(Clone, Copy, PartialEq, Eq, Hash, Debug)]
pub struct WriteTarget {
    pub place: Place,
    pub mark: Option<u64>,
}

impl WriteTarget {
    pub fn whole(place: Place) -> WriteTarget {
        WriteTarget { place, mark: None }
    }
}

/// The writers that cannot proceed, by target: each variable, and each element whose key is known.
pub struct WriterIndex {
    found: HashMap<WriteTarget, Vec<Writer>>,
    /// The numbers of all blocked statements that would write a target.
    blocked: HashMap<WriteTarget, Vec<usize>>,
    /// The places with a writer that has no single known key.
    open: HashSet<Place>,
}

// Implemented by hand, so that an owner drops the value with one call.
impl Drop for WriterIndex {
    fn drop(self) {
        let WriterIndex {
            found: _,
            blocked: _,
            open: _,
        } = self;
    }
}

/// The block instance of a writer, and the nesting depth of the visited block relative to it.
#[derive(Clone, Copy)]
struct RelativeLocation {
    instance: usize,
    depth: usize,
    writer: Writer,
    /// Number among the blocked statements, or `None` if the writer is not blocked.
    number: Option<usize>,
    /// The mark of the key of the element to write, or `None` if it is unknown.
    mark: Option<u64>,
}

impl WriterIndex {
    pub fn new<'a, A: Allocator>(
        alloc: Global,
        known: &Knowledge,
        index: &ScriptIndex<'a, A>,
    ) -> Result<WriterIndex, AllocError> {
        let mut writers = WriterIndex {
            found: HashMap::new(alloc),
            blocked: HashMap::new(alloc),
            open: HashSet::new(alloc),
        };
        for number in 0..known.stuck.len() {
            let stuck = known.stuck[number];
            let writer = Writer {
                at: stuck.at,
                blocked: true,
            };
            writers.note(
                alloc,
                known,
                index,
                RelativeLocation {
                    instance: stuck.instance,
                    depth: 0,
                    writer,
                    number: Some(number),
                    mark: None,
                },
            )?;
        }
        for fault in known.fact_base.facts.faults.iter() {
            let writer = Writer {
                at: fault.at,
                blocked: false,
            };
            writers.note(
                alloc,
                known,
                index,
                RelativeLocation {
                    instance: fault.place.instance,
                    depth: 0,
                    writer,
                    number: None,
                    mark: None,
                },
            )?;
        }
        Ok(writers)
    }

    /// Returns the target of an element: the element, if the array has writers and the keys of all of them are known.
    /// Otherwise it is the array.
    pub fn element(&self, array: Place, key: KeyRef<'_>) -> WriteTarget {
        let is_known = !self.open.contains(&array)
            && self.found.contains_key(&WriteTarget::whole(array));
        WriteTarget {
            place: array,
            mark: if is_known {
                Some(key.hash_code())
            } else {
                None
            },
        }
    }

    /// Returns the statements that would write a target, at most 4.
    pub fn of(&self, target: WriteTarget) -> &[Writer] {
        match self.found.get(&target) {
            Some(writers) => writers.as_slice(),
            None => &[],
        }
    }

    /// Returns the numbers of the blocked statements that would write a target.
    pub fn blocked_at(&self, target: WriteTarget) -> &[usize] {
        match self.blocked.get(&target) {
            Some(numbers) => numbers.as_slice(),
            None => &[],
        }
    }

    /// Records the targets of a statement.
    fn note<'a, A: Allocator>(
        &mut self,
        alloc: Global,
        known: &Knowledge,
        index: &ScriptIndex<'a, A>,
        location: RelativeLocation,
    ) -> Result<(), AllocError> {
        let Some(site) = index.site(location.writer.at) else {
            return Ok(());
        };
        match &site.form {
            StatementForm::Inner(_, _, content) => self.note_block(
                alloc,
                &known.fact_base,
                location,
                *content,
            ),
            StatementForm::Whole(statement) => self.note_action(
                alloc,
                &known.fact_base,
                location,
                &statement.action,
            ),
        }
    }

    #[cycle(note)]
    fn note_block<A: Allocator>(
        &mut self,
        alloc: Global,
        fact_base: &FactBase,
        location: RelativeLocation,
        block: &Block<A>,
    ) -> Result<(), AllocError> {
        for statement in &block.statements {
            self.note_action(alloc, fact_base, location, &statement.action)?;
        }
        Ok(())
    }

    #[cycle(note)]
    fn note_action<A: Allocator>(
        &mut self,
        alloc: Global,
        fact_base: &FactBase,
        location: RelativeLocation,
        action: &Action<A>,
    ) -> Result<(), AllocError> {
        let inside = RelativeLocation {
            instance: location.instance,
            depth: location.depth.saturating_add(1),
            writer: location.writer,
            number: location.number,
            mark: None,
        };
        match action {
            Action::Assign { target, .. } => self.note_name(alloc, fact_base, location, *target),
            Action::Fill { array, .. } => self.note_name(alloc, fact_base, location, *array),
            Action::Insert { array, index, .. } => {
                self.note_insert(alloc, fact_base, location, *array, &index.cell)
            }
            Action::Call { call, .. } => {
                self.note_names(alloc, fact_base, location, call.outputs.as_slice())
            }
            Action::When { then, .. } => self.note_block(alloc, fact_base, inside, then),
            Action::Choose { then, other, .. } => {
                self.note_block(alloc, fact_base, inside, then)?;
                self.note_block(alloc, fact_base, inside, other)
            }
            Action::Range { body, .. } => self.note_block(alloc, fact_base, inside, body),
            Action::Each { body, .. } => self.note_block(alloc, fact_base, inside, body),
            Action::Wait { content, .. } => self.note_block(alloc, fact_base, location, content),
            Action::Declare(_) => Ok(()),
            Action::Print { .. } => Ok(()),
            Action::Assert { .. } => Ok(()),
        }
    }

    /// Records a writer for an element of an array whose index is the value of a cell.
    fn note_insert<A: Allocator>(
        &mut self,
        alloc: Global,
        fact_base: &FactBase,
        location: RelativeLocation,
        array: Name,
        index: &Cell<A>,
    ) -> Result<(), AllocError> {
        let mark = mark_within(fact_base, alloc, location, index)?;
        self.note_name(alloc, fact_base, with_mark(location, mark), array)
    }

    fn note_names(
        &mut self,
        alloc: Global,
        fact_base: &FactBase,
        location: RelativeLocation,
        names: &[Name],
    ) -> Result<(), AllocError> {
        for name in names {
            self.note_name(alloc, fact_base, location, *name)?;
        }
        Ok(())
    }

    /// Records a writer for the variable that a name denotes. Skips variables of blocks that are not open.
    fn note_name(
        &mut self,
        alloc: Global,
        fact_base: &FactBase,
        location: RelativeLocation,
        name: Name,
    ) -> Result<(), AllocError> {
        if name.up < location.depth {
            return Ok(());
        }
        let seen = Name {
            up: name.up - location.depth,
            what: name.what,
            shape: name.shape,
        };
        let place = fact_base.instances.place(location.instance, seen);
        self.add(alloc, WriteTarget::whole(place), location)?;
        match location.mark {
            Some(mark) => self.add(
                alloc,
                WriteTarget {
                    place,
                    mark: Some(mark),
                },
                location,
            ),
            None => {
                self.open.insert(place)?;
                Ok(())
            }
        }
    }

    /// Adds a writer to a target.
    fn add(
        &mut self,
        alloc: Global,
        target: WriteTarget,
        location: RelativeLocation,
    ) -> Result<(), AllocError> {
        if let Some(number) = location.number {
            self.add_number(alloc, target, number)?;
        }
        if !self.found.contains_key(&target) {
            self.found.insert(target, Vec::new(alloc))?;
        }
        match self.found.get_mut(&target) {
            Some(writers) => add_writer(writers, location.writer),
            None => Ok(()),
        }
    }

    fn add_number(
        &mut self,
        alloc: Global,
        target: WriteTarget,
        number: usize,
    ) -> Result<(), AllocError> {
        if !self.blocked.contains_key(&target) {
            self.blocked.insert(target, Vec::new(alloc))?;
        }
        match self.blocked.get_mut(&target) {
            Some(numbers) => add_last(numbers, number),
            None => Ok(()),
        }
    }
}

fn with_mark(location: RelativeLocation, mark: Option<u64>) -> RelativeLocation {
    RelativeLocation {
        instance: location.instance,
        depth: location.depth,
        writer: location.writer,
        number: location.number,
        mark,
    }
}

/// Returns the mark of the key that the cell of an index evaluates to. Returns `None` if the key is not known, or
/// depends on a block that is not open.
fn mark_within<A: Allocator>(
    fact_base: &FactBase,
    alloc: Global,
    location: RelativeLocation,
    index: &Cell<A>,
) -> Result<Option<u64>, AllocError> {
    let (instance, node) = (location.instance, index.node);
    if location.depth == 0 {
        if let Some(value) = fact_base.facts.value(Place { instance, node }) {
            return Ok(mark_of(value));
        }
    }
    let CellForm::Compute(expr) = &index.form else {
        return Ok(None);
    };
    match value_within(fact_base, alloc, instance, location.depth, expr)? {
        Some(Ok(value)) => Ok(mark_of(&value)),
        _ => Ok(None),
    }
}

fn mark_of(value: &Value) -> Option<u64> {
    Some(KeyRef::of_value(value)?.hash_code())
}

/// Appends a number, unless it equals the last one.
fn add_last(numbers: &mut Vec<usize>, number: usize) -> Result<(), AllocError> {
    if numbers.last().copied() != Some(number) {
        numbers.push(number)?;
    }
    Ok(())
}

/// Appends a writer, unless its offset is present or the list holds 4 writers.
fn add_writer(writers: &mut Vec<Writer>, writer: Writer) -> Result<(), AllocError> {
    if writers.len() >= MAX_WRITERS || has_offset(writers.as_slice(), writer.at) {
        return Ok(());
    }
    writers.push(writer)?;
    Ok(())
}

/// Returns true if one of these writers has an offset.
pub fn has_offset(writers: &[Writer], at: usize) -> bool {
    for writer in writers {
        if writer.at == at {
            return true;
        }
    }
    false
}
