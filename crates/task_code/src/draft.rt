//! Drafts: code under construction, whose numbered bodies and entries need not fit together yet.
ghost use Rattle.std.specs.Prelude.{◌≡◌, ◌<◌, ◌≤◌, ◌++◌, ◌∷◌, [], length, map, IfOk, OnOk, OnErr, MatchOption};
ghost use Rattle.std.specs.Arc.{arc_value};
ghost use Rattle.task_code.specs.Code.{blank_entry, blank_body, entry, body, kind_of};
ghost use Rattle.task_code.specs.View.{entry_view, body_view};

use crate::code::Body;
use crate::entry::{Entry, Kind};
use std::alloc::{AllocError, Global};
use std::marker::Model;
use std::sync::Arc;

/// The code of a script under construction. Entries and bodies are numbered from 0; body 0 is the script.
///
/// Copies share the entries, also across threads.
#[derive(Drop)]
pub struct Draft {
    entries: Vec<Arc<Entry>>,
    bodies: Vec<Arc<Body>>,
}

impl Model for Draft {
    ghost use Rattle.std.specs.Prelude.{map};
    ghost use Rattle.task_code.specs.Code.{Code as PureCode};
    ghost use Rattle.std.specs.Arc.{arc_value};
    ghost use Rattle.task_code.specs.View.{entry_view, body_view};
    ghost use Rattle.std.specs.Coded.{codes};
    ghost use Rattle.task_code.specs.Tokens.{expr_code, exprs_code};

    ghost Value = { PureCode };

    ghost coded = { Prim.hlevel (codes, expr_code (Prim.hlevel codes), exprs_code (Prim.hlevel codes)) };

    ghost view = { λ c. record { entries = map entry_view (map arc_value c.entries.items); bodies = map body_view (map arc_value c.bodies.items) } };
}

impl Draft {
    /// Creates a draft without entries and bodies.
    pub fn new(alloc: Global) -> Draft
        ensures { result ≡ record { entries = []; bodies = [] } }
    {
        Draft {
            entries: Vec::new(alloc),
            bodies: Vec::new(alloc),
        }
    }

    /// Appends an entry. On failure the draft is unchanged.
    pub fn push_entry(&mut self, added: Entry) -> Result<(), AllocError>
        ensures ok { OnOk result (self.new ≡ record self.old { entries = self.old.entries ++ entry_view added ∷ [] }) }
        ensures err { OnErr result (self.new ≡ self.old) }
    {
        let alloc = *self.entries.allocator();
        self.entries.push(Arc::new(alloc, added)?)?;
        Ok(())
    }

    /// Appends a body. On failure the draft is unchanged.
    pub fn push_body(&mut self, added: Body) -> Result<(), AllocError>
        ensures ok { OnOk result (self.new ≡ record self.old { bodies = self.old.bodies ++ body_view added ∷ [] }) }
        ensures err { OnErr result (self.new ≡ self.old) }
    {
        let alloc = *self.bodies.allocator();
        self.bodies.push(Arc::new(alloc, added)?)?;
        Ok(())
    }

    /// Returns the number of entries.
    pub fn entry_count(&self) -> usize
        ensures { result ≡ length self.now.entries }
    {
        self.entries.len()
    }

    /// Returns the number of bodies.
    pub fn body_count(&self) -> usize
        ensures { result ≡ length self.now.bodies }
    {
        self.bodies.len()
    }

    /// Returns the entry of this number, or `None` if there is none.
    pub fn entry(&self, number: u32) -> Option<&Entry>
        ensures { MatchOption result (length self.now.entries ≤ number)
            (λ found. (number < length self.now.entries) × (entry_view found.now ≡ entry self.now number)) }
    {
        match self.entries.get(number as usize) {
            Some(found) => Some(&**found),
            None => None,
        }
    }

    /// Returns a shared pointer to the entry of this number, or `None` if there is none. No entry is copied.
    pub fn share_entry(&self, number: u32) -> Result<Option<Arc<Entry>>, AllocError>
        ensures { IfOk result (λ found. MatchOption found (length self.now.entries ≤ number)
            (λ shared. (number < length self.now.entries) × (entry_view (arc_value shared) ≡ entry self.now number))) }
    {
        match self.entries.get(number as usize) {
            Some(found) => Ok(Some(found.clone()?)),
            None => Ok(None),
        }
    }

    /// Returns the body of this number, or `None` if there is none.
    pub fn body(&self, number: u32) -> Option<&Body>
        ensures { MatchOption result (length self.now.bodies ≤ number)
            (λ found. (number < length self.now.bodies) × (body_view found.now ≡ body self.now number)) }
    {
        match self.bodies.get(number as usize) {
            Some(found) => Some(&**found),
            None => None,
        }
    }

    /// Returns the kind of the entry of this number. A number without an entry counts as a leaf.
    pub fn kind(&self, number: u32) -> Kind
        ensures { result ≡ kind_of (entry self.now number).act }
    {
        match self.entry(number) {
            Some(found) => found.act.kind(),
            None => Kind::Leaf,
        }
    }

    /// Returns the priority of the entry of this number, or 0 if there is none.
    pub fn priority(&self, number: u32) -> i32
        ensures { result ≡ (entry self.now number).priority }
    {
        match self.entry(number) {
            Some(found) => found.priority,
            None => 0,
        }
    }

    /// Returns a copy that shares all entries and bodies.
    pub fn copy(&self) -> Result<Draft, AllocError>
        ensures { IfOk result (λ draft. draft ≡ self.now) }
    {
        let alloc = *self.entries.allocator();
        Ok(Draft {
            entries: share_all(alloc, &self.entries)?,
            bodies: share_all(alloc, &self.bodies)?,
        })
    }
}

/// Returns a list of further pointers to the same shared values.
fn share_all<T: Drop>(alloc: Global, shared: &Vec<Arc<T>>) -> Result<Vec<Arc<T>>, AllocError>
    ensures { IfOk result (λ copies. map arc_value copies.items ≡ map arc_value shared.now.items) }
{
    let mut copies = Vec::new(alloc);
    for one in shared {
        copies.push(one.clone()?)?;
    }
    Ok(copies)
}
