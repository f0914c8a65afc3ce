//! Whole code: the immutable code that every machine runs.
ghost use Rattle.std.specs.Prelude.{◌≡◌, ◌<◌, ◌≤◌, length, IfOk, MatchOption};
ghost use Rattle.std.specs.Arc.{arc_value};
ghost use Rattle.task_code.specs.Code.{entry, body, kind_of};
ghost use Rattle.task_code.specs.View.{entry_view, body_view};
ghost use Rattle.task_code.specs.Whole.{IsCode};
ghost use Rattle.values.specs.Limits.{max_entries};

use crate::draft::Draft;
use crate::entry::{Entry, Kind, Variable};
use std::alloc::AllocError;
use std::marker::Model;
use std::sync::Arc;

/// The cause that opens a body.
#[derive(Clone, Copy, PartialEq, Eq, Debug, Drop)]
pub enum Opener {
    /// The start of the run: the body is the script.
    ByMain,
    /// A `wait` entry of this number, at its own path.
    ByWait(u32),
    /// A branch or loop entry of this number.
    ByStep(u32),
    /// The calls of its function.
    ByCalls,
}

/// A block of the source: its opener, the variables that it declares, and the numbers of its entries in order.
#[derive(Debug, Drop)]
pub struct Body {
    pub opener: Opener,
    pub makes: Vec<Variable>,
    pub entries: Vec<u32>,
}

/// The code of a script: a whole draft with at most `max_entries` entries. Entries and bodies are numbered from 0; body
/// 0 is the script.
///
/// Copies share the entries, also across threads.
#[derive(Drop)]
pub struct Code {
    draft: Draft,
}

impl Model for Code {
    ghost use Rattle.task_code.specs.Code.{Code as PureCode};
    ghost use Rattle.std.specs.Coded.{codes};
    ghost use Rattle.task_code.specs.Tokens.{expr_code, exprs_code};

    ghost Value = { PureCode };

    ghost coded = { Prim.hlevel (codes, expr_code (Prim.hlevel codes), exprs_code (Prim.hlevel codes)) };

    ghost use Rattle.task_code.specs.Sound.{IsSound};

    ghost view = { λ c. c.draft };

    ghost invariant = { λ c. IsSound c.draft };
}

impl Code {
    /// Converts a draft into code. The caller has to prove that the draft is whole and has at most `max_entries`
    /// entries.
    pub fn of(draft: Draft) -> Code
        requires whole { IsCode draft }
        requires few { length draft.entries ≤ max_entries }
        ensures { result ≡ draft }
    {
        Code { draft }
    }

    /// Returns the underlying draft.
    pub fn draft(&self) -> &Draft
        ensures { result.now ≡ self.now }
    {
        &self.draft
    }

    /// Returns the number of entries.
    pub fn entry_count(&self) -> usize
        ensures count { result ≡ length self.now.entries }
        ensures whole { IsCode self.now }
        ensures few { length self.now.entries ≤ max_entries }
    {
        self.draft.entry_count()
    }

    /// Returns the number of bodies.
    pub fn body_count(&self) -> usize
        ensures { result ≡ length self.now.bodies }
    {
        self.draft.body_count()
    }

    /// Returns the entry of this number, or `None` if there is none.
    pub fn entry(&self, number: u32) -> Option<&Entry>
        ensures { MatchOption result (length self.now.entries ≤ number)
            (λ found. (number < length self.now.entries) × (entry_view found.now ≡ entry self.now number)) }
    {
        self.draft.entry(number)
    }

    /// Returns a shared pointer to the entry of this number, or `None` if there is none. No entry is copied.
    pub fn share_entry(&self, number: u32) -> Result<Option<Arc<Entry>>, AllocError>
        ensures { IfOk result (λ found. MatchOption found (length self.now.entries ≤ number)
            (λ shared. (number < length self.now.entries) × (entry_view (arc_value shared) ≡ entry self.now number))) }
    {
        self.draft.share_entry(number)
    }

    /// Returns the body of this number, or `None` if there is none.
    pub fn body(&self, number: u32) -> Option<&Body>
        ensures { MatchOption result (length self.now.bodies ≤ number)
            (λ found. (number < length self.now.bodies) × (body_view found.now ≡ body self.now number)) }
    {
        self.draft.body(number)
    }

    /// Returns the kind of the entry of this number. A number without an entry counts as a leaf.
    pub fn kind(&self, number: u32) -> Kind
        ensures { result ≡ kind_of (entry self.now number).act }
    {
        self.draft.kind(number)
    }

    /// Returns the priority of the entry of this number, or 0 if there is none.
    pub fn priority(&self, number: u32) -> i32
        ensures { result ≡ (entry self.now number).priority }
    {
        self.draft.priority(number)
    }

    /// Returns a copy that shares all entries and bodies.
    pub fn copy(&self) -> Result<Code, AllocError>
        ensures { IfOk result (λ code. code ≡ self.now) }
    {
        Ok(Code {
            draft: self.draft.copy()?,
        })
    }
}
