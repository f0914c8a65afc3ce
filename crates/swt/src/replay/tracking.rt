//! The statement of the item of an invalid event, and the inputs that the item waits for.

ghost use Rattle.board.specs.Board.{IsWorker};

use crate::replay::items::ItemTable;
use crate::replay::waiting::{ItemContext, write_waits};
use board::Board;
use board::refusal::BoardRefusal;
use board_program::program::Program;
use board_work::work::{Done, Work};
use compile::compile::{compile, read};
use compile::fault::CompileFault;
use explain_blocked::index::ScriptIndex;
use explain_faults::traces::{InvalidEvent, InvalidReason};
use explain_text::line_index::LineIndex;
use explain_text::position::position_of;
use explain_text::words::add_place;
use std::alloc::{AllocError, Global};
use swt_trace::fault::TraceError;
use swt_trace::read::read_trace;
use task_code::code::Code;
use task_code::event::Event;

/// A script and its trace: the file name and text, the bytes of the trace, and the number of its valid events.
#[derive(Clone, Copy, Drop)]
pub struct TracedScript<'s> {
    pub file: &'s str,
    pub text: &'s [u8],
    pub trace: &'s [u8],
    pub count: usize,
}

/// Text about an item: the position of its statement, and the inputs it waits for. Empty if there is nothing to report.
#[derive(Drop)]
pub struct ItemText {
    pub statement: Vec<u8>,
    pub waits: Vec<u8>,
}

/// Returns the text about the item of the first invalid event.
pub fn words_on(
    alloc: Global,
    script: TracedScript<'_>,
    refused: InvalidEvent,
) -> Result<ItemText, AllocError> {
    let mut words = ItemText {
        statement: Vec::new(alloc),
        waits: Vec::new(alloc),
    };
    if matches!(
        refused.why,
        InvalidReason::UnknownItem | InvalidReason::AfterFault
    ) {
        return Ok(words);
    }
    let code = match compile(alloc, alloc, script.text) {
        Ok(code) => code,
        Err(CompileFault::Memory) => return Err(AllocError),
        Err(_) => return Ok(words),
    };
    let mut board = Board::new(alloc, Program::new(alloc, code)?, u32::MAX)?;
    let mut items = ItemTable::new(alloc)?;
    take_all(alloc, &mut board, &mut items, script)?;
    add_words(alloc, &board, &items, script, refused, &mut words)?;
    Ok(words)
}

/// Applies the valid events of a trace.
fn take_all(
    alloc: Global,
    board: &mut Board,
    items: &mut ItemTable,
    script: TracedScript<'_>,
) -> Result<(), AllocError> {
    let events = match read_trace(alloc, script.trace) {
        Ok(told) => told.events,
        Err(TraceError::Memory) => return Err(AllocError),
        Err(_) => return Ok(()),
    };
    for i in 0..script.count {
        match events.get(i) {
            Some(event) => take(board, items, *event)?,
            None => break,
        }
    }
    Ok(())
}

/// Applies a valid event.
fn take(board: &mut Board, items: &mut ItemTable, event: Event) -> Result<(), AllocError> {
    match event {
        Event::Begin { worker, item } if worker < 64 => match board.begin(worker, item) {
            Ok(work) => {
                drop(work);
                Ok(())
            }
            Err(refusal) => none_but_memory(refusal),
        },
        Event::End { worker, item } if worker < 64 => match board.work(worker, item) {
            Ok(work) => compute(board, items, worker, work),
            Err(refusal) => none_but_memory(refusal),
        },
        Event::Back { worker, item } if worker < 64 => match board.back(worker, item) {
            Ok(()) => Ok(()),
            Err(refusal) => none_but_memory(refusal),
        },
        _ => Ok(()),
    }
}

fn none_but_memory(refusal: BoardRefusal) -> Result<(), AllocError> {
    match refusal {
        BoardRefusal::Memory => Err(AllocError),
        _ => Ok(()),
    }
}

fn compute(
    board: &mut Board,
    items: &mut ItemTable,
    worker: u8,
    work: Work,
) -> Result<(), AllocError>
    requires { IsWorker worker }
{
    match work.compute() {
        Ok(done) => end(board, items, worker, done),
        Err((work, refused)) => {
            drop(work);
            Err(refused)
        }
    }
}

/// Ends an item on the board, and also in the table unless it meets a fault.
fn end(board: &mut Board, items: &mut ItemTable, worker: u8, done: Done) -> Result<(), AllocError>
    requires { IsWorker worker }
{
    let number = done.item();
    let outcome = done.outcome().share()?;
    match board.end(worker, done) {
        Ok(()) if board.fault().is_none() => items.end(board.code(), number, &outcome),
        Ok(()) => Ok(()),
        Err((done, refusal)) => {
            drop(done);
            none_but_memory(refusal)
        }
    }
}

/// Appends the text about an item, if the table agrees with the board about it.
fn add_words(
    alloc: Global,
    board: &Board,
    items: &ItemTable,
    script: TracedScript<'_>,
    refused: InvalidEvent,
    words: &mut ItemText,
) -> Result<(), AllocError> {
    let Some(entry) = items.entry_of(board.code(), refused.item) else {
        return Ok(());
    };
    if let Some(kind) = board.kind(refused.item) {
        if kind != entry.act.kind() {
            return Ok(());
        }
    }
    let at = entry.at.min(script.text.len());
    add_place(
        &mut words.statement,
        script.file,
        position_of(script.text, at),
    )?;
    if refused.why == InvalidReason::ItemWaiting {
        let code = board.code();
        add_waits(
            alloc,
            script.text,
            code,
            items,
            refused.item,
            &mut words.waits,
        )
    } else {
        Ok(())
    }
}

fn add_waits(
    alloc: Global,
    text: &[u8],
    code: &Code,
    items: &ItemTable,
    number: u64,
    out: &mut Vec<u8>,
) -> Result<(), AllocError> {
    match read(alloc, alloc, text) {
        Ok(flow) => {
            let index = ScriptIndex::new(alloc, &flow)?;
            let lines = LineIndex::of(alloc, text)?;
            let view = ItemContext {
                alloc,
                lines: &lines,
                index: &index,
                code,
                items,
            };
            write_waits(&view, out, number)
        }
        Err(CompileFault::Memory) => Err(AllocError),
        Err(_) => Ok(()),
    }
}
