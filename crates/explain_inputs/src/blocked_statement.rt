//! Blocked statements with their missing inputs.
ghost use Rattle.std.specs.Prelude.{◌≡◌, ◌≤◌, ℕ, List, Option, None, length, map, reverse, IfOk, IfNone, IfSome};
ghost use Rattle.language.specs.Core.{Action, Core};
ghost use Rattle.language.specs.Meaning.{Known};
ghost use Rattle.language.specs.Outcomes.{Stuck};
ghost use Rattle.language.specs.Parts.{script_stmts, stmt_action};
ghost use Rattle.language.specs.Reads.{Reads};
ghost use Rattle.language.specs.Resolved.{core};
ghost use Rattle.language.specs.Single.{SinglyAssigned};
ghost use Rattle.language.specs.Table.{Table};
ghost use Rattle.language.specs.Tree.{Tree};
ghost use Rattle.language.specs.Typing.{WellTyped};
ghost use Rattle.meaning_facts.specs.Paths.{at_path, child_at, step_view};
ghost use Rattle.meaning_outcomes.specs.Known.{IsKnowledgeOf};
ghost use Rattle.meaning_outcomes.specs.Read.{path_of};
ghost use Rattle.flow_index.specs.Candidates.{candidates};
ghost use Rattle.flow_index.specs.Sites.{site_view, AreSites};
ghost use Rattle.explain_inputs.specs.Blocking.{IsWaiting};
ghost use Rattle.explain_inputs.specs.Inputs.{inputs_of, inputs_view};

use crate::input::{StatementInput, inputs_of, inputs_of_wait};
use crate::missing::missing_of;
use flow_index::site::{Site, StatementForm};
use flow_index::statement_index::StatementIndex;
use meaning_facts::instances::Instances;
use meaning_outcomes::knowledge::Knowledge;
use paths::{StatementInstance, Step};
use std::alloc::{AllocError, Allocator, Global};

/// A blocked statement: its site, its block instance, and its inputs that are not known.
#[derive(Drop)]
pub struct BlockedStatement<'s, 'a, A: Allocator> {
    pub site: &'s Site<'a, A>,
    pub instance: usize,
    pub missing: Vec<StatementInput>,
}

/// Returns the missing inputs of a blocked statement of an accepted script, given the known facts.
///
/// For a blocked statement, returns `None` only if several statements that can be blocked stand at its offset.
///
/// # Errors
///
/// Returns `AllocError` if an allocation fails.
pub fn inputs_blocking<'s, 'a, A: Allocator>(
    alloc: Global,
    sites: &'s StatementIndex<'a, A>,
    known: &Knowledge,
    statement: &StatementInstance,
) -> Result<Option<BlockedStatement<'s, 'a, A>>, AllocError>
    ensures waits { IfOk result (λ found. IfSome found
        (λ w. (bytes : List ℕ) (t : Table) (tree : Tree) → Reads bytes tree → WellTyped tree t → SinglyAssigned (core t tree)
        → AreSites (core t tree) sites.entry.now → IsKnowledgeOf (core t tree) known.now
        → (n : ℕ) (a : Action) → Stuck (core t tree) (Known (core t tree) known.now.rounds) (path_of statement.now) statement.now.at n a
        → IsWaiting (core t tree) known.now statement.now n a w)) }
    ensures several { IfOk result (λ found. found ≡ None → (s : Core) → AreSites s sites.entry.now → IsKnowledgeOf s known.now
        → (n : ℕ) (a : Action) → Stuck s (Known s known.now.rounds) (path_of statement.now) statement.now.at n a
        → 2 ≤ length (candidates statement.now.at (script_stmts s))) }
{
    let Some(site) = sites.at(statement.at) else {
        return Ok(None);
    };
    let Some(instance) = instance_at(&known.fact_base.instances, statement.path.as_slice()) else {
        return Ok(None);
    };
    let inputs = inputs_of_site(alloc, site)?;
    let missing = missing_of(alloc, known, instance, inputs.as_slice())?;
    Ok(Some(BlockedStatement {
        site,
        instance,
        missing,
    }))
}

/// Returns the inputs of a statement.
fn inputs_of_site<'a, A: Allocator>(
    alloc: Global,
    site: &Site<'a, A>,
) -> Result<Vec<StatementInput>, AllocError>
    ensures { IfOk result (λ all. inputs_view all.items ≡ inputs_of (stmt_action (site_view site.now))) }
{
    match &site.form {
        StatementForm::Whole(statement) => inputs_of(alloc, &statement.action),
        StatementForm::Inner(wait, _, _) => inputs_of_wait(alloc, wait.names.as_slice()),
    }
}

/// Returns the block instance at a path, given outermost step first. Returns `None` if there is no such instance.
pub fn instance_at(instances: &Instances, path: &[Step]) -> Option<usize>
    ensures { result ≡ at_path instances.now (reverse (map step_view path.now)) }
{
    let mut instance = 0;
    for step in path {
        match child_of(instances, instance, step) {
            Some(inside) => instance = inside,
            None => return None,
        }
    }
    Some(instance)
}

/// Returns the block instance that another one has opened under a step.
fn child_of(instances: &Instances, parent: usize, step: &Step) -> Option<usize>
    ensures { result ≡ child_at instances.now parent step.now.offset step.now.key }
{
    instances.child(parent, step.offset, &step.key)
}
