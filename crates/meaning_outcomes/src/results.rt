//! Results of the knowledge of a script: its lines, its faults and its blocked statements.
ghost use Rattle.std.specs.Prelude.{◌≡◌, ◌↔◌, map, reverse, IfOk, IsSorted, IsTrue};
ghost use Rattle.std.specs.Cmp.Lexicographic.{slice_cmp};
ghost use Rattle.std.specs.HashSet.{keys};
ghost use Rattle.std.specs.Ordering.{nat_cmp};
ghost use Rattle.language.specs.Core.{Core};
ghost use Rattle.language.specs.Facts.{OneWriter};
ghost use Rattle.language.specs.Meaning.{Known};
ghost use Rattle.language.specs.Outcomes.{Lines};
ghost use Rattle.language.specs.Places.{Place};
ghost use Rattle.meaning_facts.specs.Paths.{path_of, step_view};
ghost use Rattle.meaning_outcomes.specs.Known.{IsKnowledgeOf};
ghost use Rattle.meaning_outcomes.specs.Read.{held_mark, mark_of, point_of, stuck_point, AreBlocked, AreFaults};

use crate::knowledge::Knowledge;
use crate::lists::{faults_in_order, in_order};
use paths::{Fault, StatementInstance, Step};
use std::alloc::{AllocError, Global};
use values::text::Text;

impl Knowledge {
    /// Returns true if one more round adds nothing.
    pub fn finished(&self) -> bool
        ensures { result ≡ self.now.finished }
    {
        self.finished
    }

    /// Returns true if no key of an array has two writers.
    pub fn is_clean(&self) -> bool
        ensures { (s : Core) → IsKnowledgeOf s self.now → IsTrue result ↔ ((a : Place) → OneWriter (Known s self.now.rounds) a) }
    {
        self.fact_base.facts.is_clean()
    }

    /// Returns the lines, sorted by their bytes.
    ///
    /// # Errors
    ///
    /// Returns `AllocError` if an allocation fails.
    pub fn lines_sorted(&self) -> Result<Vec<Text>, AllocError>
        ensures lines { IfOk result (λ lines. (s : Core) → IsKnowledgeOf s self.now → Lines (Known s self.now.rounds) lines.items) }
        ensures sorted { IfOk result (λ lines. IsSorted (slice_cmp nat_cmp) lines.items) }
    {
        let mut lines = self.fact_base.facts.all_lines(*self.stuck.allocator())?;
        lines.sort_by(
            |a, b|
                ensures { result ≡ slice_cmp nat_cmp a.now b.now }
            { a.as_bytes().cmp(b.as_bytes()) },
        )?;
        Ok(lines)
    }

    /// Returns the faults without duplicates, sorted by path, then by the offset of the statement, then by fault
    /// number.
    ///
    /// # Errors
    ///
    /// Returns `AllocError` if an allocation fails.
    pub fn faults(&self) -> Result<Vec<Fault>, AllocError>
        ensures { IfOk result (λ faults. (s : Core) → IsKnowledgeOf s self.now → AreFaults (Known s self.now.rounds) faults.items) }
    {
        let alloc = *self.stuck.allocator();
        faults_in_order(alloc, self.all_faults(alloc)?)
    }

    /// Returns the blocked statements without duplicates, sorted by path, then by offset.
    ///
    /// # Errors
    ///
    /// Returns `AllocError` if an allocation fails.
    pub fn blocked(&self) -> Result<Vec<StatementInstance>, AllocError>
        ensures { IfOk result (λ blocked. (s : Core) → IsKnowledgeOf s self.now → AreBlocked s (Known s self.now.rounds) blocked.items) }
    {
        let alloc = *self.stuck.allocator();
        in_order(alloc, self.all_blocked(alloc)?)
    }

    /// Collects the faults with their paths, in no particular order.
    fn all_faults(&self, alloc: Global) -> Result<Vec<Fault>, AllocError>
        ensures { IfOk result (λ found. map mark_of found.items ≡ map (held_mark self.now.fact_base.instances.all.items) (keys self.now.fact_base.facts.faults)) }
    {
        let mut found = Vec::new(alloc);
        for fault in self.fact_base.facts.faults.iter() {
            found.push(Fault {
                kind: fault.kind,
                statement: self.statement(alloc, fault.place.instance, fault.at)?,
            })?;
        }
        Ok(found)
    }

    /// Collects the blocked statements with their paths, in no particular order.
    fn all_blocked(&self, alloc: Global) -> Result<Vec<StatementInstance>, AllocError>
        ensures { IfOk result (λ found. map point_of found.items ≡ map (stuck_point self.now.fact_base.instances.all.items) self.now.stuck.items) }
    {
        let mut found = Vec::new(alloc);
        for stuck in &self.stuck {
            found.push(self.statement(alloc, stuck.instance, stuck.at)?)?;
        }
        Ok(found)
    }

    /// Returns the statement at an offset in an instance, with its path.
    fn statement(
        &self,
        alloc: Global,
        instance: usize,
        at: usize,
    ) -> Result<StatementInstance, AllocError>
        ensures { IfOk result (λ statement. point_of statement ≡ record { at = at; path = path_of self.now.fact_base.instances.all.items instance }) }
    {
        let path = reversed(alloc, self.fact_base.instances.path(instance))?;
        Ok(StatementInstance { at, path })
    }
}

/// Returns a path in reversed order, from the innermost step first to the outermost step first.
fn reversed(alloc: Global, path: &[Step]) -> Result<Vec<Step>, AllocError>
    ensures { IfOk result (λ steps. reverse (map step_view steps.items) ≡ map step_view path.now) }
{
    let mut steps = copied(alloc, path)?;
    steps.reverse();
    Ok(steps)
}

/// Returns a copy of these steps.
fn copied(alloc: Global, path: &[Step]) -> Result<Vec<Step>, AllocError>
    ensures { IfOk result (λ steps. map step_view steps.items ≡ map step_view path.now) }
{
    let mut steps = Vec::new(alloc);
    for step in path {
        steps.push(step.share()?)?;
    }
    Ok(steps)
}
