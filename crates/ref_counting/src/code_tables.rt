//! Emitted code before its rights are assigned: bodies and entries, indexed by their numbers.
ghost use Rattle.std.specs.Prelude.{◌≡◌, ◌<◌, ◌≤◌, length, map, MatchOption};
ghost use Rattle.task_code.specs.Code.{entry, body};
ghost use Rattle.task_code.specs.View.{entry_view, body_view};

use std::marker::Model;
use task_code::code::Body;
use task_code::entry::Entry;

/// Bodies and entries, numbered from 0.
#[derive(Drop)]
pub struct CodeTables {
    bodies: Vec<Body>,
    entries: Vec<Entry>,
}

impl Model for CodeTables {
    ghost use Rattle.std.specs.Prelude.{map};
    ghost use Rattle.task_code.specs.Code.{Code as PureCode};
    ghost use Rattle.task_code.specs.View.{entry_view, body_view};
    ghost use Rattle.std.specs.Coded.{codes};
    ghost use Rattle.task_code.specs.Tokens.{expr_code, exprs_code};

    ghost Value = { PureCode };

    ghost coded = { Prim.hlevel (codes, expr_code (Prim.hlevel codes), exprs_code (Prim.hlevel codes)) };

    ghost view = { λ l. record { entries = map entry_view l.entries.items; bodies = map body_view l.bodies.items } };
}

impl CodeTables {
    /// Creates the tables from these bodies and entries.
    pub fn new(bodies: Vec<Body>, entries: Vec<Entry>) -> CodeTables
        ensures { result ≡ record { entries = map entry_view entries.items; bodies = map body_view bodies.items } }
    {
        CodeTables { bodies, entries }
    }

    /// Returns the bodies and the entries.
    pub fn into_parts(self) -> (Vec<Body>, Vec<Entry>)
        ensures bodies { map body_view result.0.items ≡ self.bodies }
        ensures entries { map entry_view result.1.items ≡ self.entries }
    {
        let CodeTables { bodies, entries } = self;
        (bodies, entries)
    }

    /// Returns the number of entries.
    pub fn entry_count(&self) -> usize
        ensures { result ≡ length self.now.entries }
    {
        self.entries.len()
    }

    /// Returns the number of bodies.
    pub fn body_count(&self) -> usize
        ensures { result ≡ length self.now.bodies }
    {
        self.bodies.len()
    }

    /// Returns the entry of this number, or `None` if there is none.
    pub fn entry(&self, number: u32) -> Option<&Entry>
        ensures { MatchOption result (length self.now.entries ≤ number)
            (λ found. (number < length self.now.entries) × (entry_view found.now ≡ entry self.now number)) }
    {
        match self.entries.get(number as usize) {
            Some(found) => Some(found),
            None => None,
        }
    }

    /// Returns the body of this number, or `None` if there is none.
    pub fn body(&self, number: u32) -> Option<&Body>
        ensures { MatchOption result (length self.now.bodies ≤ number)
            (λ found. (number < length self.now.bodies) × (body_view found.now ≡ body self.now number)) }
    {
        match self.bodies.get(number as usize) {
            Some(found) => Some(found),
            None => None,
        }
    }
}
