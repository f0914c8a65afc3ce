//! Replay of a trace up to its first invalid event.

use board::Board;
use board::refusal::BoardRefusal;
use board_program::program::Program;
use board_runs::step::finish;
use compile::compile::compile;
use compile::fault::CompileFault;
use explain_faults::limits::LimitCounts;
use explain_faults::traces::{InvalidEvent, InvalidReason};
use std::alloc::{AllocError, Global};
use swt_trace::ending::Ending;
use swt_trace::fault::TraceError;
use swt_trace::read::read_trace;
use task_code::event::Event;
use task_code::packed_event::PackedEvent;

/// Result of a replay: the items left after the valid events, the first invalid event, if any, and the end of this run.
#[derive(Clone, Copy, Drop)]
pub struct TraceReplay {
    pub left: LimitCounts,
    pub refused: Option<InvalidEvent>,
    pub end: Ending,
}

/// Replays a trace on a script. Returns `None` if the script is refused or the trace has a bad line.
pub fn follow(alloc: Global, text: &[u8], trace: &[u8]) -> Result<Option<TraceReplay>, AllocError> {
    let code = match compile(alloc, alloc, text) {
        Ok(code) => code,
        Err(CompileFault::Memory) => return Err(AllocError),
        Err(_) => return Ok(None),
    };
    let mut board = Board::new(alloc, Program::new(alloc, code)?, u32::MAX)?;
    follow_on(alloc, &mut board, trace)
}

/// Replays a trace on a board that has no events.
fn follow_on(
    alloc: Global,
    board: &mut Board,
    trace: &[u8],
) -> Result<Option<TraceReplay>, AllocError> {
    let events = match read_trace(alloc, trace) {
        Ok(told) => told.events,
        Err(TraceError::Memory) => return Err(AllocError),
        Err(_) => return Ok(None),
    };
    let followed = take_all(board, events.as_slice())?;
    Ok(Some(followed))
}

/// Applies the events up to the first invalid one, and counts the items that are running then.
fn take_all(board: &mut Board, events: &[Event]) -> Result<TraceReplay, AllocError> {
    let mut count: usize = 0;
    let mut running: usize = 0;
    let mut refused = None;
    for event in events {
        if !take(board, *event)? {
            refused = Some(InvalidEvent {
                item: item_of(*event),
                why: why_not(board, *event),
            });
            break;
        }
        count = count.saturating_add(1);
        running = match event {
            Event::Begin { .. } => running.saturating_add(1),
            _ => running.saturating_sub(1),
        };
    }
    let left = LimitCounts {
        events: count,
        ready: board.ready_items()?.len(),
        running,
    };
    Ok(TraceReplay {
        left,
        refused,
        end: end_of(board),
    })
}

/// Returns the end of a run that leaves the board in this state.
fn end_of(board: &Board) -> Ending {
    if board.fault().is_some() {
        Ending::Fault
    } else if board.is_quiet() {
        Ending::Quiet
    } else {
        Ending::Limit
    }
}

/// Applies an event if it is valid. Returns true if it is.
fn take(board: &mut Board, event: Event) -> Result<bool, AllocError> {
    match event {
        Event::Begin { worker, item } if worker < 64 => match board.begin(worker, item) {
            Ok(work) => {
                drop(work);
                Ok(true)
            }
            Err(refusal) => unless_memory(refusal),
        },
        Event::End { worker, item } if worker < 64 => match board.work(worker, item) {
            Ok(work) => finish(board, worker, work),
            Err(refusal) => unless_memory(refusal),
        },
        Event::Back { worker, item } if worker < 64 => match board.back(worker, item) {
            Ok(()) => Ok(true),
            Err(refusal) => unless_memory(refusal),
        },
        _ => Ok(false),
    }
}

fn unless_memory(refusal: BoardRefusal) -> Result<bool, AllocError> {
    match refusal {
        BoardRefusal::Memory => Err(AllocError),
        _ => Ok(false),
    }
}

/// Returns why an event is invalid for a board.
fn why_not(board: &Board, event: Event) -> InvalidReason {
    if board.fault().is_some() {
        return InvalidReason::AfterFault;
    }
    let item = item_of(event);
    match last_of(board.history().as_slice(), item) {
        Some(Event::Begin { worker, .. }) => InvalidReason::ItemRunning(worker),
        Some(Event::End { .. }) => InvalidReason::ItemEnded,
        _ => {
            if board.kind(item).is_none() {
                InvalidReason::UnknownItem
            } else if matches!(event, Event::Begin { .. }) {
                InvalidReason::ItemWaiting
            } else {
                InvalidReason::ItemNotRunning
            }
        }
    }
}

/// Returns the last event of this item.
fn last_of(events: &[PackedEvent], wanted: u64) -> Option<Event> {
    let mut last = None;
    for packed in events {
        let event = packed.event();
        if item_of(event) == wanted {
            last = Some(event);
        }
    }
    last
}

fn item_of(event: Event) -> u64 {
    match event {
        Event::Begin { item, .. } => item,
        Event::End { item, .. } => item,
        Event::Back { item, .. } => item,
    }
}
