//! Running items and their outcomes: `Work` before the computation, `Done` after it.
ghost use Rattle.std.specs.Prelude.{◌≡◌, ◌↔◌, [], IfOk, IfErr, IsTrue};
ghost use Rattle.std.specs.Option.{option_copied};
ghost use Rattle.task_code.specs.View.{entry_view};
ghost use Rattle.board_work.specs.View.{answers_view};
ghost use Rattle.board_work.specs.Outcome.{result_in, control_in};
ghost use Rattle.board_work.specs.Assigned.{opens_script, runs, job_view, job_kind, job_result, job_control, job_computed, meaning};

use crate::answer::Answer;
use crate::outcome::{ControlResult, Outcome, outcome_of};
use crate::view_eq::is_same_entry;
use std::alloc::{AllocError, Global};
use std::marker::Model;
use std::sync::Arc;
use task_code::entry::{Entry, Kind};
use values::fault::OpFault;
use values::value::Value;

/// The task of an item: the opening of the script, or an entry.
#[derive(Drop)]
pub enum WorkTask {
    Script,
    Entry(Arc<Entry>),
}

/// A running item with the answers to the needs of its entry. Any thread can compute it.
#[derive(Drop)]
pub struct Work {
    item: u64,
    job: WorkTask,
    answers: Vec<Answer>,
}

impl Model for Work {
    ghost use Rattle.std.specs.Coded.{codes};
    ghost use Rattle.task_code.specs.Tokens.{expr_code, exprs_code};
    ghost use Rattle.board_work.specs.View.{answers_view};
    ghost use Rattle.board_work.specs.Assigned.{Assigned, job_view};

    ghost Value = { Assigned };

    ghost coded = { Prim.hlevel (codes, expr_code (Prim.hlevel codes), exprs_code (Prim.hlevel codes)) };

    ghost view = { λ w. record { item = w.item; job = job_view w.job; answers = answers_view w.answers.items } };
}

/// A computed item: its work together with the outcome. Only `Work::compute` creates one.
#[derive(Drop)]
pub struct Done {
    item: u64,
    job: WorkTask,
    answers: Vec<Answer>,
    outcome: Outcome,
}

impl Model for Done {
    ghost use Rattle.std.specs.Prelude.{◌≡◌};
    ghost use Rattle.std.specs.Coded.{codes};
    ghost use Rattle.task_code.specs.Tokens.{expr_code, exprs_code};
    ghost use Rattle.board_work.specs.View.{answers_view};
    ghost use Rattle.board_work.specs.Outcome.{result_in, control_in};
    ghost use Rattle.board_work.specs.Assigned.{Assigned, job_view, job_result, job_control};

    ghost Value = { Assigned };

    ghost coded = { Prim.hlevel (codes, expr_code (Prim.hlevel codes), exprs_code (Prim.hlevel codes)) };

    ghost view = { λ d. record { item = d.item; job = job_view d.job; answers = answers_view d.answers.items } };

    ghost invariant = { λ d. (result_in d.outcome ≡ job_result (job_view d.job) (answers_view d.answers.items)) × (control_in d.outcome ≡ job_control (job_view d.job) (answers_view d.answers.items)) };
}

impl Work {
    /// Creates the work of an item.
    pub fn new(item: u64, job: WorkTask, answers: Vec<Answer>) -> Work
        ensures { result ≡ record { item = item; job = job_view job; answers = answers_view answers.items } }
    {
        Work { item, job, answers }
    }

    /// Returns the number of the item.
    pub fn item(&self) -> u64
        ensures { result ≡ self.now.item }
    {
        self.item
    }

    /// Returns the kind of the item.
    pub fn kind(&self) -> Kind
        ensures { result ≡ job_kind self.now.job }
    {
        match &self.job {
            WorkTask::Script => Kind::Control,
            WorkTask::Entry(entry) => entry.act.kind(),
        }
    }

    /// Computes the outcome of the entry from its answers.
    ///
    /// # Errors
    ///
    /// Returns the unchanged work and `AllocError` if an allocation fails.
    pub fn compute(self) -> Result<Done, (Work, AllocError)>
        ensures ok { IfOk result (λ done. done ≡ self) }
        ensures err { IfErr result (λ refused. refused.0 ≡ self) }
    {
        let Work { item, job, answers } = self;
        let alloc = *answers.allocator();
        match job_outcome(alloc, &job, &answers) {
            Ok(outcome) => Ok(Done {
                item,
                job,
                answers,
                outcome,
            }),
            Err(refused) => Err((Work { item, job, answers }, refused)),
        }
    }
}

/// Computes the outcome of a task from its answers.
fn job_outcome(alloc: Global, job: &WorkTask, answers: &[Answer]) -> Result<Outcome, AllocError>
    ensures leaf { IfOk result (λ o. result_in o ≡ job_result (job_view job.now) (answers_view answers.now)) }
    ensures control { IfOk result (λ o. control_in o ≡ job_control (job_view job.now) (answers_view answers.now)) }
{
    match job {
        WorkTask::Script => Ok(Outcome::Control(ControlResult::Opens)),
        WorkTask::Entry(entry) => outcome_of(alloc, &entry.act, answers),
    }
}

impl Done {
    /// Returns the number of the item.
    pub fn item(&self) -> u64
        ensures { result ≡ self.now.item }
    {
        self.item
    }

    /// Returns the result of a leaf item, or `None` for a control item.
    ///
    /// The result is the value that its end stores or prints, or its fault. The elements of an array literal are a map,
    /// and an `assert` that holds is true.
    pub fn result(&self) -> Option<&Result<Value, OpFault>>
        ensures { option_copied result ≡ job_result self.now.job self.now.answers }
    {
        match &self.outcome {
            Outcome::Leaf(result) => Some(result),
            Outcome::Control(_) => None,
        }
    }

    /// Returns true if the task is the opening of the script.
    pub fn is_script(&self) -> bool
        ensures { IsTrue result ↔ (self.now.job ≡ opens_script) }
    {
        matches!(&self.job, WorkTask::Script)
    }

    /// Returns true if the task is an entry equal to this one. Entries are compared by value, not by address. Does not
    /// allocate.
    pub fn is_of(&self, entry: &Entry) -> bool
        ensures { IsTrue result ↔ (self.now.job ≡ runs (entry_view entry.now)) }
    {
        match &self.job {
            WorkTask::Script => false,
            WorkTask::Entry(own) => is_same_entry(own, entry),
        }
    }

    /// Returns the answers from which the outcome was computed.
    pub fn answers(&self) -> &Vec<Answer>
        ensures { answers_view result.now.items ≡ self.now.answers }
    {
        &self.answers
    }

    /// Returns the list that held the answers, empty but with its capacity.
    pub fn into_list(self) -> Vec<Answer>
        ensures { result.items ≡ [] }
    {
        let mut list = self.answers;
        list.clear();
        list
    }

    /// Returns the outcome of the item.
    #[tactic(auto, using(crate::proofs::Meanings::meaning_of_parts))]
    pub fn outcome(&self) -> &Outcome
        ensures leaf { result_in result.now ≡ job_result self.now.job self.now.answers }
        ensures control { control_in result.now ≡ job_control self.now.job self.now.answers }
        ensures computed { meaning self.now.job result.now ≡ job_computed self.now.job self.now.answers }
    {
        &self.outcome
    }
}
