//! The program: code with its entry tables and body tables.

ghost use Rattle.std.specs.Prelude.{◌≡◌, ◌<◌, ◌≤◌, ◌^◌, ◌++◌, length, map, option_map, IfOk, MatchOption, OnOk};
ghost use Rattle.std.specs.List.{list_all, list_any};
ghost use Rattle.std.specs.Option.{option_to_list};
ghost use Rattle.task_code.specs.Shape.{is_plain};
ghost use Rattle.task_code.specs.Code.{Code, Named, arguments, body as body_at, entry as entry_at, kind_of, loop_of, scalar, stored_of};
ghost use Rattle.task_code.specs.View.{act_view, argument_view, entry_view, loop_view, name_view, need_view};
ghost use Rattle.task_code.specs.Whole.{IsCode};
ghost use Rattle.board_program.specs.Program.{AreAtMost, IsLeads, IsProgram};
ghost use Rattle.board_program.specs.Spots.{home_of, place_from};
ghost use Rattle.board_program.specs.Tables.{AllFrom, IsBodyTable, IsEntryTable, body_of, body_or_script, first_spot, is_closed, passed_in, spots_in, turn_slot, value_slot, wanted_in};

use crate::bodies::body_table;
use crate::lexical_address::{LexicalAddress, NameResolver};
use crate::name_count::most_names;
use smallvec::SmallVec;
use std::alloc::{AllocError, Global};
use std::marker::Model;
use std::sync::Arc;
use task_code::code::Code;
use task_code::entry::{Act, Argument, Entry, Loop, Name, Need, Owned, Variable};
use values::datum_kind::DatumKind;
use values::key::Key;
use work_queue::entry::Kind;

/// A need with its names resolved in the body of its entry.
#[derive(Drop)]
pub enum ResolvedNeed {
    Stored(Option<LexicalAddress>),
    Closed(Option<LexicalAddress>),
    At(Option<LexicalAddress>, Option<LexicalAddress>),
    AtKey(Option<LexicalAddress>, Key),
}

impl Default for ResolvedNeed {
    fn default() -> ResolvedNeed {
        ResolvedNeed::Stored(None)
    }
}

/// The addresses that names resolve to. Most entries have one or two.
pub type Spots = SmallVec<LexicalAddress, 2>;

/// An argument that a call passes: the address of a name, or the literal at its index among the arguments.
#[derive(Clone, Copy, PartialEq, Eq, Debug, Drop)]
pub enum PassedArgument {
    Named(Option<LexicalAddress>),
    Fixed,
}

/// The precomputed table of an entry.
#[derive(Drop)]
pub struct EntryTable {
    /// The offset in the paths of the blocks that the entry opens.
    pub offset: u32,
    pub kind: Kind,
    pub priority: i32,
    pub needs: SmallVec<ResolvedNeed, 1>,
    /// Whether the entry waits for scalars and closed arrays alone, and thus for no element.
    pub plain: bool,
    /// Whether the entry waits for a closed array.
    pub closed: bool,
    pub reads: Spots,
    pub writes: Spots,
    /// The address that the entry stores into.
    pub target: Option<LexicalAddress>,
    /// The arguments that a call passes. Empty for other entries.
    pub arguments: Vec<PassedArgument>,
    /// The slots of the variables of a loop's turns. `None` for other entries.
    pub value: Option<usize>,
    pub turn: Option<usize>,
}

/// A variable of a body, with the initial hold counts of its datum in a new instance.
#[derive(Clone, Copy, PartialEq, Eq, Debug, Drop)]
pub struct LocalVariable {
    pub shape: DatumKind,
    pub reads: u64,
    pub writes: u64,
}

/// The holds that an instance of a body adds to a datum outside of it.
#[derive(Clone, Copy, PartialEq, Eq, Debug, Drop)]
pub struct Hold {
    pub spot: LexicalAddress,
    pub reads: u64,
    pub writes: u64,
}

/// The precomputed table of a body.
#[derive(Drop)]
pub struct BodyTable {
    pub own: Vec<LocalVariable>,
    pub outer: Vec<Hold>,
    /// The numbers of control entries and of leaf entries.
    pub controls: usize,
    pub leaves: usize,
    /// Whether an entry of the body waits for more than two inputs.
    pub long: bool,
}

/// Code with the tables computed from it.
#[derive(Drop)]
pub struct ProgramTables {
    code: Code,
    leads: NameResolver,
    entries: Vec<EntryTable>,
    bodies: Vec<BodyTable>,
    /// An upper bound of the number of names that any entry reads or writes.
    most_names: usize,
}

/// Code with all tables that a board needs. Copies share them, also across threads.
#[derive(Drop)]
pub struct Program {
    laid: Arc<ProgramTables>,
}

/// Resolves the names of a need in the body.
///
/// # Errors
///
/// Returns `AllocError` if the text of a key has too many owners to count.
fn wanted_of(
    code: &Code,
    leads: &NameResolver,
    body: u32,
    need: &Need,
) -> Result<ResolvedNeed, AllocError>
    requires { IsLeads code.now leads.now }
    ensures { IfOk result (λ wanted. wanted ≡ wanted_in code.now body (need_view need.now)) }
{
    match need {
        Need::Stored(name) => Ok(ResolvedNeed::Stored(leads.spot_in(code, body, *name))),
        Need::Closed(name) => Ok(ResolvedNeed::Closed(leads.spot_in(code, body, *name))),
        Need::At(array, index) => Ok(ResolvedNeed::At(
            leads.spot_in(code, body, *array),
            leads.spot_in(code, body, *index),
        )),
        Need::AtKey(array, key) => Ok(ResolvedNeed::AtKey(
            leads.spot_in(code, body, *array),
            key.share()?,
        )),
    }
}

/// Returns true unless the need is an element.
fn is_plain(need: &Need) -> bool
    ensures { result ≡ is_plain (need_view need.now) }
{
    match need {
        Need::Stored(_) | Need::Closed(_) => true,
        Need::At(_, _) | Need::AtKey(_, _) => false,
    }
}

/// Returns true if the need is a closed array.
fn is_closed(need: &Need) -> bool
    ensures { result ≡ is_closed (need_view need.now) }
{
    match need {
        Need::Closed(_) => true,
        Need::Stored(_) | Need::At(_, _) | Need::AtKey(_, _) => false,
    }
}

/// Returns true if none of the needs is an element.
fn are_plain(needs: &[Need]) -> bool
    ensures { result ≡ list_all is_plain (map need_view needs.now) }
{
    for need in needs {
        if !is_plain(need) {
            return false;
        }
    }
    true
}

/// Returns true if one of the needs is a closed array.
fn has_closed(needs: &[Need]) -> bool
    ensures { result ≡ list_any is_closed (map need_view needs.now) }
{
    for need in needs {
        if is_closed(need) {
            return true;
        }
    }
    false
}

fn needs_of(
    alloc: Global,
    code: &Code,
    leads: &NameResolver,
    body: u32,
    needs: &[Need],
) -> Result<SmallVec<ResolvedNeed, 1>, AllocError>
    requires { IsLeads code.now leads.now }
    ensures { IfOk result (λ wanted. wanted.items ≡ map (wanted_in code.now body) (map need_view needs.now)) }
{
    let mut wanted = SmallVec::with_capacity(alloc, needs.len())?;
    for need in needs {
        wanted.push(wanted_of(code, leads, body, need)?)?;
    }
    Ok(wanted)
}

/// Resolves the names in the body, and leaves out those that refer to nothing.
#[tactic(auto, using(crate::proofs::Tables::spots_some, crate::proofs::Tables::spots_none, crate::proofs::Tables::spots_end))]
fn spots_of(
    alloc: Global,
    code: &Code,
    leads: &NameResolver,
    body: u32,
    names: &[Name],
) -> Result<Spots, AllocError>
    requires { IsLeads code.now leads.now }
    ensures { IfOk result (λ spots. spots.items ≡ spots_in code.now body (map name_view names.now)) }
{
    let mut spots = SmallVec::with_capacity(alloc, names.len())?;
    for at in 0..names.len() {
        if let Some(spot) = leads.spot_in(code, body, names[at]) {
            spots.push(spot)?;
        }
    }
    Ok(spots)
}

/// Returns the name that an entry stores into, if it stores into one.
fn target_of(entry: &Entry) -> Option<Name>
    ensures { option_to_list (option_map name_view result) ≡ stored_of (entry_view entry.now).node (entry_view entry.now).act }
{
    match &entry.act {
        Act::Cell(_) | Act::Read => Some(Name {
            up: 0,
            owned: Owned::Local(Variable {
                node: entry.node,
                array: false,
            }),
        }),
        Act::Set(name, _) | Act::Fill(name, _) | Act::Copy(name) | Act::InsertElement(name, _, _) =>
            { Some(*name) }
        Act::Call { .. }
        | Act::Print(_)
        | Act::Assert(_)
        | Act::If(_, _, _)
        | Act::Range(_, _, _, _)
        | Act::Each(_)
        | Act::Wait(_, _) => None,
    }
}

/// Returns the address that an entry stores into, if its target resolves.
fn target_spot(
    code: &Code,
    leads: &NameResolver,
    body: u32,
    entry: &Entry,
) -> Option<LexicalAddress>
    requires { IsLeads code.now leads.now }
    ensures { result ≡ first_spot code.now body (stored_of (entry_view entry.now).node (entry_view entry.now).act) }
{
    match target_of(entry) {
        Some(name) => leads.spot_in(code, body, name),
        None => None,
    }
}

/// Appends the arguments that a call passes for its inputs.
fn push_inputs(
    passed: &mut Vec<PassedArgument>,
    code: &Code,
    leads: &NameResolver,
    body: u32,
    inputs: &[Argument],
) -> Result<(), AllocError>
    requires { IsLeads code.now leads.now }
    ensures { OnOk result (passed.new.items ≡ passed.old.items ++ map (passed_in code.now body) (map argument_view inputs.now)) }
{
    for input in inputs {
        passed.push(passed_of(code, leads, body, input))?;
    }
    Ok(())
}

/// Returns the argument that a call passes for one input.
fn passed_of(code: &Code, leads: &NameResolver, body: u32, input: &Argument) -> PassedArgument
    requires { IsLeads code.now leads.now }
    ensures { result ≡ passed_in code.now body (argument_view input.now) }
{
    match input {
        Argument::Named(name) => PassedArgument::Named(leads.spot_in(code, body, *name)),
        Argument::Fixed(_) => PassedArgument::Fixed,
    }
}

/// Appends the arguments that a call passes for its outputs.
fn push_outputs(
    passed: &mut Vec<PassedArgument>,
    code: &Code,
    leads: &NameResolver,
    body: u32,
    outputs: &[Name],
) -> Result<(), AllocError>
    requires { IsLeads code.now leads.now }
    ensures { OnOk result (passed.new.items ≡ passed.old.items ++ map (passed_in code.now body) (map Named (map name_view outputs.now))) }
{
    for output in outputs {
        passed.push(PassedArgument::Named(leads.spot_in(code, body, *output)))?;
    }
    Ok(())
}

/// Returns the arguments that an entry passes to the body that it opens, in the order of the parameters. Only calls
/// pass any.
fn arguments_of(
    alloc: Global,
    code: &Code,
    leads: &NameResolver,
    body: u32,
    act: &Act,
) -> Result<Vec<PassedArgument>, AllocError>
    requires { IsLeads code.now leads.now }
    ensures { IfOk result (λ passed. passed.items ≡ map (passed_in code.now body) (arguments (act_view act.now))) }
{
    let mut passed = Vec::new(alloc);
    if let Act::Call {
        body: _,
        inputs,
        outputs,
    } = act
    {
        passed.reserve(inputs.len().saturating_add(outputs.len()))?;
        push_inputs(&mut passed, code, leads, body, inputs.as_slice())?;
        push_outputs(&mut passed, code, leads, body, outputs.as_slice())?;
    }
    Ok(passed)
}

/// Returns the slot of the scalar of this node in the body, if the body declares it.
#[tactic(auto, using(crate::proofs::Counted::scalar_placed, crate::proofs::Counts::no_place))]
fn scalar_slot(leads: &NameResolver, body: u32, node: u32) -> Option<usize>
    ensures { (C : Code) → IsLeads C leads.now → result ≡ place_from 0 (scalar node) (body_at C body).makes }
{
    match leads.places(body) {
        Some(places) => places.of(Variable { node, array: false }),
        None => None,
    }
}

/// Returns the loop of a loop entry.
fn loop_of(act: &Act) -> Option<Loop>
    ensures { option_map loop_view result ≡ loop_of (act_view act.now) }
{
    match act {
        Act::Range(_, _, _, found) | Act::Each(found) => Some(*found),
        Act::Cell(_)
        | Act::Read
        | Act::Set(_, _)
        | Act::Fill(_, _)
        | Act::Copy(_)
        | Act::InsertElement(_, _, _)
        | Act::Print(_)
        | Act::Assert(_)
        | Act::Call { .. }
        | Act::If(_, _, _)
        | Act::Wait(_, _) => None,
    }
}

/// Returns the slot of the value in the turns of a loop.
fn value_slot(leads: &NameResolver, act: &Act) -> Option<usize>
    ensures { (C : Code) → IsLeads C leads.now → result ≡ value_slot C (loop_of (act_view act.now)) }
{
    match loop_of(act) {
        Some(found) => scalar_slot(leads, found.body, found.value),
        None => None,
    }
}

/// Returns the slot of the key or number in the turns of a loop.
fn turn_slot(leads: &NameResolver, act: &Act) -> Option<usize>
    ensures { (C : Code) → IsLeads C leads.now → result ≡ turn_slot C (loop_of (act_view act.now)) }
{
    match loop_of(act) {
        Some(found) => match found.turn {
            Some(node) => scalar_slot(leads, found.body, node),
            None => None,
        },
        None => None,
    }
}

/// Creates the table of the entry of this number, with its names resolved in `body`.
///
/// # Errors
///
/// Returns `AllocError` if an allocation fails, or if the offset of the entry does not fit in 32 bits.
fn entry_table(
    alloc: Global,
    code: &Code,
    leads: &NameResolver,
    body: u32,
    number: u32,
    entry: &Entry,
) -> Result<EntryTable, AllocError>
    requires leads { IsLeads code.now leads.now }
    requires there { entry_view entry.now ≡ entry_at code.now number }
    ensures { IfOk result (λ table. IsEntryTable code.now body number table) }
{
    let Ok(offset) = u32::try_from(entry.offset) else {
        return Err(AllocError);
    };
    Ok(EntryTable {
        offset,
        kind: code.kind(number),
        priority: entry.priority,
        needs: needs_of(alloc, code, leads, body, entry.needs.as_slice())?,
        plain: are_plain(entry.needs.as_slice()),
        closed: has_closed(entry.needs.as_slice()),
        reads: spots_of(alloc, code, leads, body, entry.reads.as_slice())?,
        writes: spots_of(alloc, code, leads, body, entry.writes.as_slice())?,
        target: target_spot(code, leads, body, entry),
        arguments: arguments_of(alloc, code, leads, body, &entry.act)?,
        value: value_slot(leads, &entry.act),
        turn: turn_slot(leads, &entry.act),
    })
}

/// Returns the body of an entry. An entry without a body is attributed to the script.
fn body_of(leads: &NameResolver, number: u32) -> u32
    ensures { result ≡ body_or_script (home_of leads.now.entry_bodies.items number) }
{
    match leads.home(number) {
        Some(body) => body,
        None => 0,
    }
}

/// Creates the tables of all entries.
fn entry_tables(
    alloc: Global,
    code: &Code,
    leads: &NameResolver,
) -> Result<Vec<EntryTable>, AllocError>
    requires { IsLeads code.now leads.now }
    ensures each { IfOk result (λ tables. AllFrom (λ i t. IsEntryTable code.now (body_of code.now i) i t) 0 tables.items) }
    ensures all { IfOk result (λ tables. length tables.items ≡ length code.now.entries) }
{
    let mut tables = Vec::with_capacity(alloc, code.entry_count())?;
    for number in 0..code.entry_count() {
        let number = number as u32;
        let Some(entry) = code.entry(number) else {
            break;
        };
        let body = body_of(leads, number);
        tables.push(entry_table(alloc, code, leads, body, number, entry)?)?;
    }
    Ok(tables)
}

/// Creates the tables of all bodies.
fn body_tables(
    alloc: Global,
    code: &Code,
    leads: &NameResolver,
) -> Result<Vec<BodyTable>, AllocError>
    requires leads { IsLeads code.now leads.now }
    requires few { length code.now.bodies < 2 ^ 32 }
    ensures each { IfOk result (λ tables. AllFrom (λ b t. IsBodyTable code.now b t) 0 tables.items) }
    ensures all { IfOk result (λ tables. length tables.items ≡ length code.now.bodies) }
{
    let mut tables = Vec::with_capacity(alloc, code.body_count())?;
    for number in 0..code.body_count() {
        let number = number as u32;
        let (Some(body), Some(places)) = (code.body(number), leads.places(number)) else {
            break;
        };
        tables.push(body_table(alloc, code, leads, places, number, body)?)?;
    }
    Ok(tables)
}

/// Computes all tables of the code.
fn build_tables(alloc: Global, code: Code) -> Result<ProgramTables, AllocError>
    ensures laid { IfOk result IsProgram }
    ensures code { IfOk result (λ laid. laid.code ≡ code) }
{
    if code.body_count() > u32::MAX as usize {
        return Err(AllocError);
    }
    let leads = NameResolver::new(alloc, &code)?;
    let entries = entry_tables(alloc, &code, &leads)?;
    let bodies = body_tables(alloc, &code, &leads)?;
    let most_names = most_names(&code);
    Ok(ProgramTables {
        code,
        leads,
        entries,
        bodies,
        most_names,
    })
}

impl Model for Program {
    ghost use Rattle.task_code.specs.Code.{Code as PureCode};
    ghost use Rattle.board_program.specs.Program.{IsProgram};
    ghost use Rattle.std.specs.Coded.{codes};
    ghost use Rattle.task_code.specs.Tokens.{expr_code, exprs_code};

    ghost Value = { PureCode };

    ghost coded = { Prim.hlevel (codes, expr_code (Prim.hlevel codes), exprs_code (Prim.hlevel codes)) };

    ghost use Rattle.std.specs.Arc.{arc_value};

    ghost view = { λ p. (arc_value p.laid).code };

    ghost invariant = { λ p. IsProgram (arc_value p.laid) };
}

impl Program {
    /// Creates the program of this code, with all of its tables.
    ///
    /// # Errors
    ///
    /// Returns `AllocError` if an allocation fails. The same error reports code of 2^32 bodies or more, an offset of
    /// more than 32 bits, and a count of more than 64 bits.
    pub fn new(alloc: Global, code: Code) -> Result<Program, AllocError>
        ensures { IfOk result (λ program. program ≡ code) }
    {
        Ok(Program {
            laid: Arc::new(alloc, build_tables(alloc, code)?)?,
        })
    }

    /// Returns another pointer to the program. Nothing is computed or copied.
    ///
    /// # Errors
    ///
    /// Returns `AllocError` if there are too many copies to count.
    pub fn share(&self) -> Result<Program, AllocError>
        ensures { IfOk result (λ program. program ≡ self.now) }
    {
        Ok(Program {
            laid: self.laid.clone()?,
        })
    }

    /// Returns the code.
    pub fn code(&self) -> &Code
        ensures { result.now ≡ self.now }
    {
        &self.laid.code
    }

    /// Returns an upper bound of the number of names that any entry reads or writes.
    pub fn most_names(&self) -> usize
        ensures names { AreAtMost self.now result }
        ensures whole { IsCode self.now }
    {
        let _count = self.laid.code.entry_count();
        self.laid.most_names
    }

    /// Returns the table of the entry of this number, or `None` if there is none.
    #[tactic(auto, using(crate::proofs::Tables::all_at))]
    pub fn entry(&self, number: u32) -> Option<&EntryTable>
        ensures { MatchOption result (length self.now.entries ≤ number)
            (λ table. (number < length self.now.entries) × IsEntryTable self.now (body_of self.now number) number table.now) }
    {
        if number as usize >= self.laid.entries.len() {
            return None;
        }
        Some(&self.laid.entries[number as usize])
    }

    /// Returns the table of the body of this number, or `None` if there is none.
    #[tactic(auto, using(crate::proofs::Tables::all_at))]
    pub fn body(&self, number: u32) -> Option<&BodyTable>
        ensures { MatchOption result (length self.now.bodies ≤ number) (λ table. (number < length self.now.bodies) × IsBodyTable self.now number table.now) }
    {
        if number as usize >= self.laid.bodies.len() {
            return None;
        }
        Some(&self.laid.bodies[number as usize])
    }

    /// Resolves a need in the body.
    ///
    /// # Errors
    ///
    /// Returns `AllocError` if the text of a key has too many owners to count.
    pub fn wanted(&self, body: u32, need: &Need) -> Result<ResolvedNeed, AllocError>
        ensures { IfOk result (λ wanted. wanted ≡ wanted_in self.now body (need_view need.now)) }
    {
        wanted_of(&self.laid.code, &self.laid.leads, body, need)
    }
}
