//! Started and completed items, with evidence that their work is in the log of started work.
//!
//! Work in the log belongs to its item, so such an item ends without a comparison of its work with the entry or its
//! answers.
ghost use Rattle.std.specs.Prelude.{◌≡◌};
ghost use Rattle.dataflow.specs.System.{In};

use crate::gate::{Gate, RunParams};
use crate::start_log::LogPrefix;
use board_work::work::{Done, Work};
use std::marker::Model;

/// Work that was begun under the lock. If `logged` is set, it is in the log prefix `front`.
#[derive(Drop)]
pub struct StartedItem<J: RunParams> {
    pub work: Work,
    pub front: LogPrefix<J>,
    pub logged: bool,
}

impl<J: RunParams> Model for StartedItem<J> {
    ghost use Rattle.std.specs.Coded.{codes};
    ghost use Rattle.task_code.specs.Tokens.{expr_code, exprs_code};
    ghost use Rattle.board_work.specs.Assigned.{Assigned};
    ghost use Rattle.std.specs.Prelude.{IsTrue};
    ghost use Rattle.dataflow.specs.System.{In};

    ghost Value = { Assigned };

    ghost coded = { Prim.hlevel (codes, expr_code (Prim.hlevel codes), exprs_code (Prim.hlevel codes)) };

    ghost view = { λ b. b.work };

    ghost invariant = { λ b. IsTrue b.logged → In b.work b.front };
}

/// The completed work of a started item. If `logged` is set, it is in the log prefix `front`.
#[derive(Drop)]
pub struct CompletedItem<J: RunParams> {
    pub done: Done,
    pub front: LogPrefix<J>,
    pub logged: bool,
}

impl<J: RunParams> Model for CompletedItem<J> {
    ghost use Rattle.std.specs.Coded.{codes};
    ghost use Rattle.task_code.specs.Tokens.{expr_code, exprs_code};
    ghost use Rattle.board_work.specs.Assigned.{Assigned};
    ghost use Rattle.std.specs.Prelude.{IsTrue};
    ghost use Rattle.dataflow.specs.System.{In};

    ghost Value = { Assigned };

    ghost coded = { Prim.hlevel (codes, expr_code (Prim.hlevel codes), exprs_code (Prim.hlevel codes)) };

    ghost view = { λ f. f.done };

    ghost invariant = { λ f. IsTrue f.logged → In f.done f.front };
}

impl<J: RunParams> StartedItem<J> {
    /// Creates a started item whose work is in the log prefix.
    pub fn logged(work: Work, front: LogPrefix<J>) -> StartedItem<J>
        requires { In work front }
        ensures { result ≡ work }
    {
        StartedItem {
            work,
            front,
            logged: true,
        }
    }

    /// Creates a started item whose work is not known to be in the log.
    pub fn unlogged(work: Work, front: LogPrefix<J>) -> StartedItem<J>
        ensures { result ≡ work }
    {
        StartedItem {
            work,
            front,
            logged: false,
        }
    }

    /// Returns the number of the item.
    pub fn item(&self) -> u64 {
        self.work.item()
    }

    /// Computes the work by the gate, and returns the completed item. Returns `None` if the gate ran out of memory.
    pub fn pass<G: Gate>(self, worker: u8, gate: &G) -> Option<CompletedItem<J>> {
        let StartedItem {
            work,
            front,
            logged,
        } = self;
        match gate.pass(worker, work) {
            Ok(done) => Some(CompletedItem {
                done,
                front,
                logged,
            }),
            Err(_) => None,
        }
    }
}

impl<J: RunParams> CompletedItem<J> {
    /// Returns the number of the item.
    pub fn item(&self) -> u64 {
        self.done.item()
    }

    /// Returns the completed work.
    pub fn into_done(self) -> Done
        ensures { result ≡ self }
    {
        let CompletedItem { done, .. } = self;
        done
    }
}
