//! Traversal of a flow that lists all statements: those of a block, then those of the blocks inside it.
ghost use Rattle.std.specs.Prelude.{◌≡◌, ◌++◌, ◌∷◌, [], map, IfOk, OnOk};
ghost use Rattle.language.specs.Parts.{block_list, blocks_inside, function_blocks, script_stmts, stmts_among, stmts_within};
ghost use Rattle.flow.specs.View.{action_view, block_view, core_of, function_view};
ghost use Rattle.flow_index.specs.Sites.{site_view, sites_view};
ghost use Rattle.flow_index.specs.Waits.{waits_inside};

use crate::site::{Site, StatementForm};
use flow::script::{Flow, Function};
use flow::statement::{Action, Block, Header};
use std::alloc::{AllocError, Allocator, Global};

/// Returns all statements of a flow.
#[tactic(auto, using(crate::proofs::Walking::among_joins))]
pub(crate) fn sites_of<'a, A: Allocator>(
    alloc: Global,
    flow: &'a Flow<A>,
) -> Result<Vec<Site<'a, A>>, AllocError>
    ensures { IfOk result (λ sites. sites_view sites.items ≡ script_stmts (core_of flow.entry.now)) }
{
    let mut sites = Vec::new(alloc);
    add_block(&mut sites, None, &flow.body)?;
    add_functions(&mut sites, flow.functions.as_slice())?;
    Ok(sites)
}

fn add_functions<'a, A: Allocator>(
    sites: &mut Vec<Site<'a, A>>,
    functions: &'a [Function<A>],
) -> Result<(), AllocError>
    ensures { OnOk result (sites_view sites.new.items ≡ sites_view sites.old.items ++ stmts_among (function_blocks (map function_view functions.entry.now))) }
{
    for i in 0..functions.len() {
        add_block(sites, Some(i), &functions[i].body)?;
    }
    Ok(())
}

/// Appends the statements of a block, then those of the blocks inside it.
#[cycle(walk)]
fn add_block<'a, A: Allocator>(
    sites: &mut Vec<Site<'a, A>>,
    function: Option<usize>,
    block: &'a Block<A>,
) -> Result<(), AllocError>
    ensures { OnOk result (sites_view sites.new.items ≡ sites_view sites.old.items ++ stmts_within (block_view block.entry.now)) }
{
    add_statements(sites, function, block)?;
    for statement in &block.statements {
        add_inside(sites, function, &statement.action)?;
    }
    Ok(())
}

/// Appends the statements of the blocks inside a statement.
#[cycle(walk)]
fn add_inside<'a, A: Allocator>(
    sites: &mut Vec<Site<'a, A>>,
    function: Option<usize>,
    action: &'a Action<A>,
) -> Result<(), AllocError>
    ensures { OnOk result (sites_view sites.new.items ≡ sites_view sites.old.items ++ stmts_among (blocks_inside (action_view action.entry.now))) }
{
    match action {
        Action::When { then, .. } => add_block(sites, function, then),
        Action::Choose { then, other, .. } => {
            add_block(sites, function, then)?;
            add_block(sites, function, other)
        }
        Action::Range { body, .. } => add_block(sites, function, body),
        Action::Each { body, .. } => add_block(sites, function, body),
        Action::Wait { inner, content, .. } => {
            add_waits(sites, function, inner.as_slice(), content)?;
            add_block(sites, function, content)
        }
        Action::Declare(_)
        | Action::Call { .. }
        | Action::Assign { .. }
        | Action::Fill { .. }
        | Action::Insert { .. }
        | Action::Print { .. }
        | Action::Assert { .. } => Ok(()),
    }
}

/// Appends the statements of a block, without those of the blocks inside it.
fn add_statements<'a, A: Allocator>(
    sites: &mut Vec<Site<'a, A>>,
    function: Option<usize>,
    block: &'a Block<A>,
) -> Result<(), AllocError>
    ensures { OnOk result (sites_view sites.new.items ≡ sites_view sites.old.items ++ block_list (block_view block.entry.now)) }
{
    for statement in &block.statements {
        sites.push(Site {
            function,
            form: StatementForm::Whole(statement),
        })?;
    }
    Ok(())
}

/// Appends the waits that are each the only content of an enclosing `wait`.
fn add_waits<'a, A: Allocator>(
    sites: &mut Vec<Site<'a, A>>,
    function: Option<usize>,
    waits: &'a [Header<A>],
    content: &'a Block<A>,
) -> Result<(), AllocError>
    ensures { OnOk result (sites_view sites.new.items ≡ sites_view sites.old.items ++ waits_inside waits.entry.now (block_view content.entry.now)) }
{
    for i in 0..waits.len() {
        sites.push(Site {
            function,
            form: StatementForm::Inner(&waits[i], &waits[i + 1..], content),
        })?;
    }
    Ok(())
}
