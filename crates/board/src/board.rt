//! The board: checked calls to begin, end and give back items.
//!
//! Each accepted event is appended to the history. A refused call changes nothing, apart from `perform` when it fails
//! after its Begin.
ghost use Rattle.std.specs.Prelude.{ℕ, ℤ, ◌+◌, ◌≡◌, ◌⊎◌, ◌<◌, ◌≤◌, ◌^◌, ◌∷◌, [], map, length, vec_len, MatchBool, IfOk, IfErr, IfSome, IfNone, OnOk, OnErr, IsTrue, ◌↔◌, None, Some, option_map, slice_get};
ghost use Rattle.dataflow.specs.Machine.{start};
ghost use Rattle.dataflow.specs.Machine as Machine;
ghost use Rattle.task_code.specs.Machine.{CodeItem, DataAreExact, Quiet, Run, run_log};
ghost use Rattle.task_code.specs.System.{code_system, task_kind, task_priority};
ghost use Rattle.task_code.specs.View.{event_view};
ghost use Rattle.task_code.specs.Whole.{IsCode};
ghost use Rattle.work_queue.specs.declared.entry.Kind.{Kind as AKind};
ghost use Rattle.board_work.specs.Assigned.{Assigned};
ghost use Rattle.board_work.specs.View.{answers_view};
ghost use Rattle.board.specs.Board.{Seen, AreByWorkers, IsWorker, IsGoing, Accepts, IsItems, IsOwn, RefusesBegin, RefusesEnd, RefusesBack, RefusesWork};
ghost use Rattle.board.specs.declared.refusal.BoardRefusal.TheVariants.{Memory};
ghost use Rattle.board.specs.Numbers.{AreNumbered};
ghost use Rattle.board.specs.Stored.{AreSoMany};
ghost use Rattle.board.specs.Ready.{AreReady, HasKind, IsFirst, IsNext, IsReady};
ghost use Rattle.board.specs.Blocked.{AreBlocked, IsFaultOf};
ghost use Rattle.board.specs.Remains.{AreSoManyRunning, HasStatus, IsBlockedItem, IsLeft, IsNoneLeft, IsPathOf, Sees};
ghost use Rattle.dataflow.specs.System.{In};

use crate::refusal::BoardRefusal;
use crate::remains::LeftItem;
use crate::state::BoardState;
use board_data::inputs::Environment;
use board_instances::instance::path_of;
use board_instances::item::{ItemStatus, ItemTask, item_of};
use board_items::items::order_of;
use board_program::program::Program;
use board_work::answer::Answer;
use board_work::work::{Done, Work, WorkTask};
use paths::{Fault, StatementInstance, Step};
use rules::input::Input;
use std::alloc::{AllocError, Global};
use std::marker::Model;
use std::mem::replace;
use task_code::code::Code;
use task_code::entry::Kind;
use task_code::event::Event;
use task_code::packed_event::PackedEvent;
use values::value::Scalar;

/// The machine state over some code, with the history of events that led to it. At most `limit` events are accepted,
/// each by one of the workers 0 to 63.
pub struct Board {
    program: Program,
    most_names: usize,
    limit: u32,
    core: BoardState,
    history: Vec<PackedEvent>,
    /// Buffer for the inputs that an End makes known. Its contents mean nothing between two calls.
    known: Vec<Input>,
    /// Buffer for answers, reused from one ended item to the next. Its contents mean nothing between two calls.
    answers: Vec<Answer>,
}

// Written out, so that an owner of a board drops it by one call.
impl Drop for Board {
    fn drop(self) {
        let Board {
            program: _,
            most_names: _,
            limit: _,
            core: _,
            history: _,
            known: _,
            answers: _,
        } = self;
    }
}

impl Model for Board {
    ghost use Rattle.std.specs.Coded.{codes};
    ghost use Rattle.task_code.specs.Tokens.{expr_code, exprs_code};
    ghost use Rattle.board.specs.Board.{Seen};

    ghost Value = { Seen };

    ghost coded = { Prim.hlevel (codes, expr_code (Prim.hlevel codes), exprs_code (Prim.hlevel codes)) };

    ghost use Rattle.board.specs.Inside.{seen_of, IsSound};

    ghost view = { seen_of };

    ghost invariant = { IsSound };
}

/// The parts of a board that is no longer used.
#[derive(Drop)]
pub struct BoardParts {
    pub program: Program,
    /// The events, oldest first.
    pub history: Vec<PackedEvent>,
    /// The printed lines, in order.
    pub lines: Vec<Scalar>,
}

impl Board {
    /// Creates a board over the program, before any event.
    ///
    /// # Errors
    ///
    /// Returns `AllocError` if an allocation fails.
    pub fn new(alloc: Global, program: Program, limit: u32) -> Result<Board, AllocError>
        ensures { IfOk result (λ b. b ≡ record { code = program; limit = limit; state = start (code_system program); history = []; newly = [] }) }
    {
        Ok(Board {
            most_names: program.most_names(),
            program,
            limit,
            core: BoardState::new(alloc)?,
            history: Vec::new(alloc),
            known: Vec::new(alloc),
            answers: Vec::new(alloc),
        })
    }

    /// Returns true if an event may be accepted: no fault stands and the limit is not reached.
    pub fn is_going(&self) -> bool
        ensures { IsTrue result ↔ IsGoing self.now }
    {
        self.core.fault.is_none() && self.history.len() < self.limit as usize
    }

    /// Begins the item on the worker, and returns its work with the answers to its needs.
    ///
    /// # Errors
    ///
    /// Returns `Ended` after a fault or at the limit. Returns `NotReady` if the item is not enabled, is running, or
    /// does not exist. Returns `Memory` if an allocation fails.
    pub fn begin(&mut self, worker: u8, item: u64) -> Result<Work, BoardRefusal>
        requires { IsWorker worker }
        ensures accepted { OnOk result (Accepts self.old (Machine.Begin worker item) self.new) }
        ensures still { OnOk result (self.new.newly ≡ []) }
        ensures work { IfOk result (λ work. IsOwn self.new worker work) }
        ensures number { IfOk result (λ work. work.item ≡ item) }
        ensures refused { IfErr result (λ e. RefusesBegin self.old item e) }
        ensures unchanged { OnErr result (self.new ≡ self.old) }
    {
        if !self.is_going() {
            return Err(BoardRefusal::Ended);
        }
        let Some(job) = self.core.ready_job(item) else {
            return Err(BoardRefusal::NotReady);
        };
        let Ok(()) = self.core.sort_arrays(&self.program, job) else {
            return Err(BoardRefusal::Memory);
        };
        let list = replace(&mut self.answers, Vec::new(self.core.alloc));
        let Ok(work) = self.core.work(&self.program, item, job, list) else {
            return Err(BoardRefusal::Memory);
        };
        // Room for this event, and for the next event of each running item.
        let Ok(()) = self
            .history
            .reserve(self.core.items.running.saturating_add(2))
        else {
            return Err(BoardRefusal::Memory);
        };
        self.core.begin(&self.program, worker, item, job);
        self.history
            .push_reserved(PackedEvent::new(Event::Begin { worker, item }));
        Ok(work)
    }

    /// Ends the item of the work on the worker.
    ///
    /// # Errors
    ///
    /// Returns the work together with the reason. `Ended` after a fault or at the limit. `NotYours` if the item is not
    /// running on the worker. `Stranger` if the work is not that of the item, by its entry and answers; this check
    /// allocates nothing. `Memory` if an allocation fails, which is reported only for work that is the item's own.
    pub fn end(&mut self, worker: u8, done: Done) -> Result<(), (Done, BoardRefusal)>
        requires { IsWorker worker }
        ensures accepted { OnOk result (Accepts self.old (Machine.End worker done.item) self.new) }
        ensures own { OnOk result (IsOwn self.old worker done) }
        ensures refused { IfErr result (λ e. RefusesEnd self.old worker done e.1) }
        ensures handed_back { IfErr result (λ e. e.0 ≡ done) }
        ensures unchanged { OnErr result (self.new ≡ self.old) }
    {
        if !self.is_going() {
            return Err((done, BoardRefusal::Ended));
        }
        let Some(job) = self.core.running_job(worker, done.item()) else {
            return Err((done, BoardRefusal::NotYours));
        };
        if !self.core.matches_item(&self.program, job, &done) {
            return Err((done, BoardRefusal::Stranger));
        }
        self.end_trusted(worker, done)
    }

    /// Ends the item on the worker as `end` does, for work that the caller has shown to be the item's own. Entry and
    /// answers are not compared again.
    ///
    /// # Errors
    ///
    /// Returns the work together with the reason: `Ended` after a fault or at the limit, `Memory` if an allocation
    /// fails.
    pub fn end_trusted(&mut self, worker: u8, done: Done) -> Result<(), (Done, BoardRefusal)>
        requires worker { IsWorker worker }
        requires own { IsOwn self.old worker done }
        ensures accepted { OnOk result (Accepts self.old (Machine.End worker done.item) self.new) }
        ensures refused { IfErr result (λ e. RefusesEnd self.old worker done e.1) }
        ensures handed_back { IfErr result (λ e. e.0 ≡ done) }
        ensures unchanged { OnErr result (self.new ≡ self.old) }
    {
        if self.core.fault.is_some() {
            return Err((done, BoardRefusal::Ended));
        }
        self.end_begun(worker, done)
    }

    /// Ends the item on the worker as `end` does, for work that belongs to the item of its number, running or not.
    /// Neither the entry nor an answer is compared.
    ///
    /// # Errors
    ///
    /// Returns the work together with the reason. `Ended` after a fault or at the limit. `NotYours` if the item is not
    /// running on the worker. `Memory` if an allocation fails.
    pub fn end_begun(&mut self, worker: u8, done: Done) -> Result<(), (Done, BoardRefusal)>
        requires worker { IsWorker worker }
        requires items { IsItems self.old done }
        ensures accepted { OnOk result (Accepts self.old (Machine.End worker done.item) self.new) }
        ensures own { OnOk result (IsOwn self.old worker done) }
        ensures refused { IfErr result (λ e. RefusesEnd self.old worker done e.1) }
        ensures handed_back { IfErr result (λ e. e.0 ≡ done) }
        ensures unchanged { OnErr result (self.new ≡ self.old) }
    {
        if !self.is_going() {
            return Err((done, BoardRefusal::Ended));
        }
        let item = done.item();
        let Some(job) = self.core.running_job(worker, item) else {
            return Err((done, BoardRefusal::NotYours));
        };
        let Ok(()) = self.core.end(
            &self.program,
            self.most_names,
            item,
            job,
            &done,
            &mut self.known,
        )
        else {
            return Err((done, BoardRefusal::Memory));
        };
        self.history
            .push_reserved(PackedEvent::new(Event::End { worker, item }));
        self.answers = done.into_list();
        Ok(())
    }

    /// Begins the item on the worker, computes it and ends it, without creating a `Work` for other threads. Returns
    /// true if it has ended. Returns false if the limit was reached after its Begin, so that it has only begun.
    ///
    /// # Errors
    ///
    /// Returns the errors of `begin`, which change nothing. Also returns `Memory` if an allocation fails while the
    /// begun item is computed or ended; the item is still running then.
    pub fn perform(&mut self, worker: u8, item: u64) -> Result<bool, BoardRefusal>
        requires { IsWorker worker }
        ensures performed { IfOk result (λ ended. MatchBool ended
            ((mid : Seen) × Accepts self.old (Machine.Begin worker item) mid × Accepts mid (Machine.End worker item) self.new)
            (Accepts self.old (Machine.Begin worker item) self.new × ¬ IsGoing self.new)) }
        ensures refused { IfErr result (λ e. ((self.new ≡ self.old) × RefusesBegin self.old item e)
            ⊎ (Accepts self.old (Machine.Begin worker item) self.new × (e ≡ Memory))) }
    {
        if !self.is_going() {
            return Err(BoardRefusal::Ended);
        }
        let Some(job) = self.core.ready_job(item) else {
            return Err(BoardRefusal::NotReady);
        };
        let Ok(()) = self.core.answer(&self.program, job, &mut self.answers) else {
            return Err(BoardRefusal::Memory);
        };
        // Room for this event, and for the next event of each running item.
        let Ok(()) = self
            .history
            .reserve(self.core.items.running.saturating_add(2))
        else {
            return Err(BoardRefusal::Memory);
        };
        self.core.begin(&self.program, worker, item, job);
        self.history
            .push_reserved(PackedEvent::new(Event::Begin { worker, item }));
        if !self.is_going() {
            return Ok(false);
        }
        let Ok(()) = self.core.end_computed(
            &self.program,
            self.most_names,
            item,
            job,
            self.answers.as_slice(),
            &mut self.known,
        )
        else {
            return Err(BoardRefusal::Memory);
        };
        self.history
            .push_reserved(PackedEvent::new(Event::End { worker, item }));
        Ok(true)
    }

    /// Gives the running item back, so that it is ready again. Allocates no memory.
    ///
    /// # Errors
    ///
    /// Returns `Ended` after a fault or at the limit, and `NotYours` if the item is not running on the worker.
    pub fn back(&mut self, worker: u8, item: u64) -> Result<(), BoardRefusal>
        requires { IsWorker worker }
        ensures accepted { OnOk result (Accepts self.old (Machine.Back worker item) self.new) }
        ensures again { OnOk result (self.new.newly ≡ item ∷ []) }
        ensures refused { IfErr result (λ e. RefusesBack self.old worker item e) }
        ensures unchanged { OnErr result (self.new ≡ self.old) }
    {
        if !self.is_going() {
            return Err(BoardRefusal::Ended);
        }
        let Some(job) = self.core.running_job(worker, item) else {
            return Err(BoardRefusal::NotYours);
        };
        self.core.back(&self.program, item, job);
        self.history
            .push_reserved(PackedEvent::new(Event::Back { worker, item }));
        Ok(())
    }

    /// Returns the work of an item that is running on the worker, as `begin` returned it.
    ///
    /// # Errors
    ///
    /// Returns `Ended` after a fault or at the limit, `NotYours` if the item is not running on the worker, and `Memory`
    /// if an allocation fails.
    pub fn work(&self, worker: u8, item: u64) -> Result<Work, BoardRefusal>
        requires { IsWorker worker }
        ensures own { IfOk result (λ work. IsOwn self.now worker work) }
        ensures number { IfOk result (λ work. work.item ≡ item) }
        ensures refused { IfErr result (λ e. RefusesWork self.now worker item e) }
    {
        if !self.is_going() {
            return Err(BoardRefusal::Ended);
        }
        let Some(job) = self.core.running_job(worker, item) else {
            return Err(BoardRefusal::NotYours);
        };
        let list = Vec::new(self.core.alloc);
        let Ok(work) = self.core.work(&self.program, item, job, list) else {
            return Err(BoardRefusal::Memory);
        };
        Ok(work)
    }

    /// Returns the events so far, oldest first. They replay to the current state. Their workers are 0 to 63, and their
    /// item numbers are above 0.
    pub fn history(&self) -> &Vec<PackedEvent>
        ensures events { map event_view result.now.items ≡ self.now.history }
        ensures replays { Run self.now.code self.now.history self.now.state }
        ensures within { length self.now.history ≤ self.now.limit }
        ensures few { self.now.limit ≤ u32.MAX }
        ensures whole { IsCode self.now.code }
        ensures workers { AreByWorkers self.now.history }
        ensures numbers { AreNumbered self.now.history }
    {
        let _few = self.limit;
        &self.history
    }

    /// Consumes the board and returns its program, history and printed lines. Allocates no memory.
    pub fn into_parts(self) -> BoardParts
        ensures program { result.program ≡ self.code }
        ensures history { map event_view result.history.items ≡ self.history }
        ensures lines { result.lines.items ≡ self.state.lines }
    {
        let Board {
            program,
            most_names: _,
            limit: _,
            core,
            history,
            known: _,
            answers: _,
        } = self;
        BoardParts {
            program,
            history,
            lines: core.into_lines(),
        }
    }

    /// Returns the lines printed so far, in order. If the code prints only texts, each line is a text.
    pub fn lines(&self) -> &Vec<Scalar>
        ensures { self.now.state.lines ≡ result.now.items }
    {
        &self.core.lines
    }

    /// Returns the code.
    pub fn code(&self) -> &Code
        ensures { result.now ≡ self.now.code }
    {
        self.program.code()
    }

    /// Returns the code together with its precomputed tables.
    pub fn program(&self) -> &Program
        ensures { result.now ≡ self.now.code }
    {
        &self.program
    }

    /// Returns the maximum number of events that are accepted.
    pub fn limit(&self) -> u32
        ensures { result ≡ self.now.limit }
    {
        self.limit
    }

    /// Returns the number of data. They are exactly those that were made and are not free: some item that has not ended
    /// may still read or write each. Runs in constant time and allocates no memory.
    pub fn stored(&self) -> usize
        ensures count { AreSoMany self.now.state.places result }
        ensures exact { (run : Run self.now.code self.now.history self.now.state)
            → DataAreExact self.now.code self.now.state (run_log self.now.code self.now.history self.now.state run) }
    {
        self.core.data_state.store.len()
    }

    /// Returns true if nothing is left to do: no fault stands, and no item is running or enabled.
    pub fn is_quiet(&self) -> bool
        ensures { IsTrue result ↔ Quiet self.now.code self.now.state }
    {
        self.core.fault.is_none() && self.core.items.is_quiescent()
    }

    /// Returns the fault that was met, with its statement, or `None`.
    pub fn fault(&self) -> Option<&Fault>
        ensures none { IfNone result (self.now.state.fault ≡ None) }
        ensures some { IfSome result (λ fault. IsFaultOf self.now.code self.now.state fault.now) }
    {
        match &self.core.fault {
            None => None,
            Some(met) => Some(met),
        }
    }

    /// Returns the kind of the item with this number, or `None` if no such item exists that has not ended.
    pub fn kind(&self, item: u64) -> Option<Kind>
        ensures none { IfNone result ((i : CodeItem) → In i self.now.state.items → i.number ≡ item → ⊥) }
        ensures some { IfSome result (λ kind. HasKind self.now item kind) }
    {
        let Some(found) = item_of(self.core.items.rows.as_slice(), item) else {
            return None;
        };
        match found.status() {
            ItemStatus::Over => None,
            _ => {
                let (kind, _) = order_of(&self.program, found.job());
                Some(kind)
            }
        }
    }

    /// Returns the first ready item of the kind: of the greatest priority, and among those of the smallest number.
    /// Returns `None` after a fault or at the limit. Allocates no memory.
    pub fn next(&self, kind: Kind) -> Option<u64>
        ensures none { IfNone result (IsGoing self.now → (i : CodeItem) → IsReady self.now i → task_kind self.now.code i.task ≡ kind → ⊥) }
        ensures some { IfSome result (λ number. IsNext self.now kind number) }
    {
        if !self.is_going() {
            return None;
        }
        self.core.items.queue.first(kind)
    }

    /// Returns the first ready item of either kind, with its kind: of the greatest priority, and among those of the
    /// smallest number. Returns `None` after a fault or at the limit. Allocates no memory.
    pub fn first(&self) -> Option<(Kind, u64)>
        ensures none { IfNone result (IsGoing self.now → (i : CodeItem) → IsReady self.now i → ⊥) }
        ensures some { IfSome result (λ found. IsFirst self.now found.1) }
        ensures kind { IfSome result (λ found. HasKind self.now found.1 found.0) }
    {
        if !self.is_going() {
            return None;
        }
        let queue = &self.core.items.queue;
        let control = queue.first_entry(Kind::Control);
        let leaf = queue.first_entry(Kind::Leaf);
        match (control, leaf) {
            (Some(control), Some(leaf)) => {
                if leaf.precedes(&control) {
                    Some((Kind::Leaf, leaf.no))
                } else {
                    Some((Kind::Control, control.no))
                }
            }
            (Some(control), None) => Some((Kind::Control, control.no)),
            (None, Some(leaf)) => Some((Kind::Leaf, leaf.no)),
            (None, None) => None,
        }
    }

    /// Returns the number of items that the last event enabled.
    pub fn newly_len(&self) -> usize
        ensures len { result ≡ length self.now.newly }
        ensures few { result < 2 ^ 63 }
    {
        self.core.items.newly.len()
    }

    /// Returns the kind, priority and number of an item that the last event enabled. `place` is its index in the list
    /// of these items, which is sorted by number.
    pub fn newly(&self, place: usize) -> Option<(Kind, i32, u64)>
        ensures none { IfNone result (length self.now.newly ≤ place) }
        ensures above { IfSome result (λ found. 0 < found.2) }
        ensures some { IfSome result (λ found. (slice_get self.now.newly place ≡ Some found.2)
            × ((i : CodeItem) × In i self.now.state.items × (i.number ≡ found.2) × (found.0 ≡ task_kind self.now.code i.task)
            × (found.1 ≡ task_priority self.now.code i.task))) }
    {
        let Some(number) = number_at(&self.core.items.newly, place) else {
            return None;
        };
        let Some(item) = item_of(self.core.items.rows.as_slice(), number) else {
            return None;
        };
        let (kind, priority) = order_of(&self.program, item.job());
        Some((kind, priority, number))
    }

    /// Returns the numbers of all ready items, by descending priority and then by ascending number.
    ///
    /// # Errors
    ///
    /// Returns `AllocError` if an allocation fails.
    pub fn ready_items(&self) -> Result<Vec<u64>, AllocError>
        ensures { IfOk result (λ numbers. AreReady self.now numbers.items) }
    {
        let listed = self.core.items.queue.list()?;
        numbers_of(self.core.alloc, listed.as_slice())
    }

    /// Returns the statements whose items have not ended, sorted by path and then by offset, each once.
    ///
    /// # Errors
    ///
    /// Returns `AllocError` if an allocation fails.
    pub fn blocked(&self) -> Result<Vec<StatementInstance>, AllocError>
        ensures { IfOk result (λ statements. AreBlocked self.now.code self.now.state statements.items) }
    {
        self.core.blocked(&self.program)
    }

    // What is left when a run has stopped.

    /// Returns the number of items that were created. They are numbered from 1.
    pub fn item_count(&self) -> usize
        ensures next { self.now.state.next ≡ result + 1 }
        ensures within { (number i : ℕ) → IsLeft self.now number i → (0 < number) × (number ≤ result) }
    {
        self.core.items.rows.len()
    }

    /// Returns the number of items that are running.
    pub fn running_count(&self) -> usize
        ensures { AreSoManyRunning self.now.state.items result }
    {
        self.core.items.running
    }

    /// Returns an upper bound of the numbers of all data.
    pub fn data_bound(&self) -> usize {
        self.core.data_state.store.bound()
    }

    /// Returns the item with this number, or `None` if there is none, it has ended, or it opens the script.
    pub fn left_item(&self, number: u64) -> Option<LeftItem>
        ensures some { IfSome result (λ left. IsLeft self.now number left.entry × HasStatus self.now number left.status) }
        ensures only { IfSome result (λ left. (i : ℕ) → IsLeft self.now number i → i ≡ left.entry) }
        ensures none { IfNone result (IsNoneLeft self.now number) }
    {
        self.core.live_item(number)
    }

    /// Returns the entry of the item with this number, whether it has ended or not. Returns `None` if there is no such
    /// item, or if it opens the script.
    pub fn entry_of(&self, number: u64) -> Option<u32>
        ensures left { (i : ℕ) → IsLeft self.now number i → result ≡ Some i }
        ensures none { self.now.state.next ≤ number → result ≡ None }
    {
        match item_of(self.core.items.rows.as_slice(), number) {
            Some(found) => match found.job() {
                ItemTask::Does { entry, .. } => Some(entry),
                ItemTask::Script => None,
            },
            None => None,
        }
    }

    /// Returns the environment of the item with this number, which answers what the names and needs of its entry refer
    /// to. Returns `None` if there is no such item that has not ended.
    ///
    /// Only the names that the entry may read or write are meaningful: the data of others can be free.
    pub fn environment(&self, number: u64) -> Option<Environment<'_>>
        ensures some { IfSome result (λ environment. Sees self.now number environment) }
        ensures none { IfNone result (IsNoneLeft self.now number) }
    {
        match self.core.live_item(number) {
            Some(left) => Some(self.core.view(&self.program, left.instance)),
            None => None,
        }
    }

    /// Returns the path of the instance of the item with this number, outermost step first. The path is empty if there
    /// is no such item that has not ended.
    ///
    /// # Errors
    ///
    /// Returns `AllocError` if an allocation fails.
    pub fn path_to(&self, number: u64) -> Result<Vec<Step>, AllocError>
        ensures { IfOk result (λ steps. IsPathOf self.now number steps.items) }
    {
        let state = &self.core;
        match state.live_item(number) {
            Some(left) => path_of(state.alloc, &state.data_state.instances, left.instance),
            None => Ok(Vec::new(state.alloc)),
        }
    }

    /// Returns the offset at which the statement of the item with this number is blocked, or `None` if the item is not
    /// that of a blocked statement.
    ///
    /// # Errors
    ///
    /// Returns `AllocError` if an allocation fails.
    pub fn blocked_offset(&self, number: u64) -> Result<Option<usize>, AllocError>
        ensures some { IfOk result (λ found. IfSome found (λ at. IsBlockedItem self.now number at)) }
        ensures none { IfOk result (λ found. IfNone found ((at : ℕ) → IsBlockedItem self.now number at → ⊥)) }
    {
        match item_of(self.core.items.rows.as_slice(), number) {
            Some(row) => {
                let found = self.core.blocked_at(&self.program, row)?;
                Ok(offset_in(found))
            }
            None => Ok(None),
        }
    }
}

/// Returns the offset of an instance and an offset.
fn offset_in(found: Option<(usize, usize)>) -> Option<usize>
    ensures { result ≡ option_map (λ (p : ℕ × ℕ). p.1) found }
{
    match found {
        Some((_instance, at)) => Some(at),
        None => None,
    }
}

/// Returns the number at an index, or `None` past the end.
fn number_at(numbers: &Vec<u64>, place: usize) -> Option<u64>
    ensures { result ≡ slice_get numbers.now.items place }
{
    match numbers.as_slice().get(place) {
        Some(number) => Some(*number),
        None => None,
    }
}

/// Returns the numbers of the listed items, in the same order.
fn numbers_of(alloc: Global, listed: &[(Kind, i32, u64)]) -> Result<Vec<u64>, AllocError>
    ensures { IfOk result (λ numbers. numbers.items ≡ map (λ (l : AKind × ℤ × ℕ). l.2) listed.now) }
{
    let mut numbers = Vec::new(alloc);
    for one in listed {
        let (_, _, number) = *one;
        numbers.push(number)?;
    }
    Ok(numbers)
}
