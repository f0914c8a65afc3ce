//! What the script of `boolean x = true; assert(x, "");` opens, made by the parts of a board alone.

use board_changes::data_state::{Change, DataState};
use board_data::inputs::Environment;
use board_effects::effect::Effect;
use board_effects::script_effect;
use board_instances::item::{ItemStatus, ItemTask, PackedItem};
use board_program::lexical_address::LexicalAddress;
use board_program::program::Program;
use rules::input::Input;
use std::alloc::{AllocError, Global};
use std::process::Abort;
use tests_codes::codes::asserted;

/// Its variable stands in the first slot of the block.
pub const FIRST: LexicalAddress = LexicalAddress { levels: 0, slot: 0 };

/// The item of the assignment.
pub const SET: ItemTask = ItemTask::Does {
    instance: 0,
    entry: 0,
    chunk: 0,
};

/// The item of what is asserted.
pub const ASSERT: ItemTask = ItemTask::Does {
    instance: 0,
    entry: 1,
    chunk: 0,
};

/// Instances and data with the items and what is known, over some code.
#[derive(Drop)]
pub struct Fixture {
    pub program: Program,
    pub data_state: DataState,
    pub rows: Vec<PackedItem>,
    pub known: Vec<Input>,
}

/// Opens the script in a world in which nothing is.
pub fn open(
    alloc: Global,
    program: &Program,
    data_state: &mut DataState,
    rows: &mut Vec<PackedItem>,
    known: &mut Vec<Input>,
) -> Result<(), AllocError> {
    let change = match script_effect(alloc, program)? {
        Effect::Opens(openings) => Change::Opens(openings),
        _ => Change::Nothing,
    };
    end(
        alloc,
        program,
        data_state,
        rows,
        known,
        (ItemTask::Script, change),
    )
}

/// Makes room for the end of the item of a job, and ends it.
pub fn end(
    alloc: Global,
    program: &Program,
    data_state: &mut DataState,
    rows: &mut Vec<PackedItem>,
    known: &mut Vec<Input>,
    ended: (ItemTask, Change),
) -> Result<(), AllocError> {
    let (job, change) = ended;
    data_state.make_room(rows, known, program, job, &change)?;
    let spare = data_state.end(alloc, rows, known, program, job, change)?;
    drop(spare);
    Ok(())
}

/// The script's item, which runs.
fn script_row(alloc: Global) -> Result<Vec<PackedItem>, AllocError> {
    let mut rows = Vec::new(alloc);
    rows.push(PackedItem::script(ItemStatus::Running(0)))?;
    Ok(rows)
}

/// The script, before it is opened.
fn unopened_script(alloc: Global) -> Result<Fixture, AllocError> {
    let program = Program::new(alloc, asserted(alloc, true)?)?;
    let rows = script_row(alloc)?;
    Ok(Fixture {
        program,
        data_state: DataState::new(alloc),
        rows,
        known: Vec::new(alloc),
    })
}

/// The script, opened, in a box, since a test that owns a board's parts by themselves takes long to prove.
pub fn opened_script(rt: &impl Abort, alloc: Global) -> Box<Fixture> {
    let opened = open_world(alloc).expect(rt, "a world");
    Box::new(alloc, opened).expect(rt, "memory")
}

fn open_world(alloc: Global) -> Result<Fixture, AllocError> {
    let mut opened = unopened_script(alloc)?;
    let (rows, known) = (&mut opened.rows, &mut opened.known);
    open(alloc, &opened.program, &mut opened.data_state, rows, known)?;
    Ok(opened)
}

impl Fixture {
    /// The environment of the script's instance.
    pub fn view(&self) -> Environment<'_> {
        Environment {
            program: &self.program,
            instances: &self.data_state.instances,
            store: &self.data_state.store,
            at: 0,
        }
    }
}
