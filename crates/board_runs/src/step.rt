//! Steps of a single-threaded run: each begins, computes and ends one item.
ghost use Rattle.std.specs.Prelude.{◌≡◌, ◌<◌, ◌%◌, length, slice_index, IfNone, IfOk, IfSome, OnErr, OnOk, MatchBool};
ghost use Rattle.dataflow.specs.Machine.{Begin, End};
ghost use Rattle.board.specs.Board.{Accepts, IsGoing, IsOwn, IsWorker, MayBegin, Seen};
ghost use Rattle.board.specs.Ready.{HasKind};
ghost use Rattle.board_runs.specs.Turns.{IsChosen, IsNamed, NoneReady, TurnsTo, worker_for};

use board::Board;
use board::refusal::BoardRefusal;
use board_work::work::{Done, Work};
use std::alloc::AllocError;
use task_code::entry::Kind;

/// The outcome of a step.
#[derive(Clone, Copy, PartialEq, Eq, Debug, Drop)]
pub enum StepOutcome {
    /// The chosen item began and ended.
    Whole,
    /// The item began, and then the limit was reached.
    Half,
    /// No item is ready, or the board has ended.
    Nothing,
}

/// Performs one step with the ready item that the choice selects, or with the first ready item if there is no choice.
pub(crate) fn step_once(board: &mut Board, choice: Option<u32>) -> Result<StepOutcome, AllocError>
    ensures { IfOk result (λ turn. TurnsTo turn choice board.old board.new) }
{
    if !board.is_going() {
        return Ok(StepOutcome::Nothing);
    }
    let Some((kind, item)) = select_item(board, choice)? else {
        return Ok(StepOutcome::Nothing);
    };
    let worker = worker_of(kind);
    if perform(board, worker, item)? {
        Ok(StepOutcome::Whole)
    } else {
        Ok(StepOutcome::Half)
    }
}

/// Returns the item that the choice selects, and its kind. The board must not have ended.
fn select_item(board: &Board, choice: Option<u32>) -> Result<Option<(Kind, u64)>, AllocError>
    requires going { IsGoing board.now }
    ensures some { IfOk result (λ found. IfSome found (λ item. IsNamed board.now choice item.1)) }
    ensures kind { IfOk result (λ found. IfSome found (λ item. HasKind board.now item.1 item.0)) }
    ensures none { IfOk result (λ found. IfNone found (NoneReady board.now)) }
{
    match choice {
        None => Ok(board.first()),
        Some(choice) => chosen(board, choice),
    }
}

/// Returns the ready item at index `choice` modulo their number, and its kind.
fn chosen(board: &Board, choice: u32) -> Result<Option<(Kind, u64)>, AllocError>
    ensures some { IfOk result (λ found. IfSome found (λ item. IsChosen board.now choice item.1)) }
    ensures kind { IfOk result (λ found. IfSome found (λ item. HasKind board.now item.1 item.0)) }
    ensures none { IfOk result (λ found. IfNone found (NoneReady board.now)) }
{
    let ready = board.ready_items()?;
    if ready.is_empty() {
        return Ok(None);
    }
    let item = pick(&ready, choice);
    match board.kind(item) {
        Some(kind) => Ok(Some((kind, item))),
        None => unreachable!(),
    }
}

/// Returns the number at index `choice` modulo the length of the list.
fn pick(ready: &Vec<u64>, choice: u32) -> u64
    requires { 0 < length ready.now.items }
    ensures { result ≡ slice_index ready.now.items (choice % length ready.now.items) }
{
    ready[choice as usize % ready.len()]
}

/// Returns the worker that runs items of this kind.
fn worker_of(kind: Kind) -> u8
    ensures kind { result ≡ worker_for kind }
    ensures known { IsWorker result }
{
    match kind {
        Kind::Control => 0,
        Kind::Leaf => 1,
    }
}

/// Begins a ready item, computes it and ends it. Returns false if the limit was reached between the beginning and the
/// end.
fn perform(board: &mut Board, worker: u8, item: u64) -> Result<bool, AllocError>
    requires worker { IsWorker worker }
    requires going { IsGoing board.old }
    requires can { MayBegin board.old item }
    ensures { IfOk result (λ ended. MatchBool ended ((mid : Seen) × Accepts board.old (Begin worker item) mid × Accepts mid (End worker item) board.new)
        (Accepts board.old (Begin worker item) board.new × ¬ IsGoing board.new)) }
{
    match board.perform(worker, item) {
        Ok(ended) => Ok(ended),
        Err(BoardRefusal::Memory) => Err(AllocError),
        Err(_) => unreachable!(),
    }
}

/// Computes the work of an item that runs on the worker, and ends the item.
///
/// Returns false if the board has ended and therefore refuses the end of the item.
///
/// # Errors
///
/// Returns `AllocError` if an allocation fails. The item is then still running.
pub fn finish(board: &mut Board, worker: u8, work: Work) -> Result<bool, AllocError>
    requires worker { IsWorker worker }
    requires own { IsOwn board.old worker work }
    ensures ends { IfOk result (λ taken. MatchBool taken (Accepts board.old (End worker work.item) board.new) ((board.new ≡ board.old) × ¬ IsGoing board.old)) }
    ensures unchanged { OnErr result (board.new ≡ board.old) }
{
    match work.compute() {
        Ok(done) => end_item(board, worker, done),
        Err((work, refused)) => {
            drop(work);
            Err(refused)
        }
    }
}

/// Ends the item of completed work. Returns false if the board has ended.
///
/// # Errors
///
/// Returns `AllocError` if an allocation fails. The item is then still running.
fn end_item(board: &mut Board, worker: u8, done: Done) -> Result<bool, AllocError>
    requires worker { IsWorker worker }
    requires own { IsOwn board.old worker done }
    ensures ends { IfOk result (λ taken. MatchBool taken (Accepts board.old (End worker done.item) board.new) ((board.new ≡ board.old) × ¬ IsGoing board.old)) }
    ensures unchanged { OnErr result (board.new ≡ board.old) }
{
    match board.end_trusted(worker, done) {
        Ok(()) => Ok(true),
        Err((done, refusal)) => {
            drop(done);
            match refusal {
                BoardRefusal::Ended => Ok(false),
                BoardRefusal::Memory => Err(AllocError),
                _ => unreachable!(),
            }
        }
    }
}
