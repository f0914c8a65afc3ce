//! Test whether a flow is whole: each name is declared exactly once and each called function exists.
ghost use Rattle.std.specs.Prelude.{◌≡◌, ◌++◌, ◌↔◌, true, map, option_map, option_to_list};
ghost use Rattle.std.specs.List.{list_all};
ghost use Rattle.flow.specs.View.{action_view, block_view, core_of, function_view, statement_view};
ghost use Rattle.flow.specs.Tests.{fits, fits_inside, fits_stmt, function_fits, headers_fit, is_whole};
ghost use Rattle.flow.specs.Viewed.{owner_of, owners_of};
ghost use Rattle.flow.specs.Whole.{IsWhole, in_content, opened_owner};

use crate::naming::{are_names_fit, is_fit};
use crate::scopes::{Scope, Scopes};
use crate::script::{Flow, Function};
use crate::statement::{Action, Block, Header, Statement, Variable};
use std::alloc::Allocator;

impl<A: Allocator> Flow<A> {
    /// Returns true if each name that the flow uses is declared exactly once in the block that it refers to, and each
    /// called function exists. Does not allocate.
    pub fn is_whole(&self) -> bool
        ensures { (result ≡ true) ↔ IsWhole (core_of self.now) }
    {
        is_script_fit(self)
    }
}

fn is_script_fit<A: Allocator>(flow: &Flow<A>) -> bool
    ensures { result ≡ is_whole (core_of flow.now) }
{
    let functions = flow.functions.len();
    let outside = Scopes::End;
    let inside = Scopes::Within(opened(None, None, &flow.body), &outside);
    is_block_fit(&inside, functions, &flow.body) && are_functions_fit(functions, &flow.functions)
}

fn are_functions_fit<A: Allocator>(count: usize, functions: &Vec<Function<A>, A>) -> bool
    ensures { result ≡ list_all (function_fits count) (map function_view functions.now.items) }
{
    for function in functions {
        if !is_function_fit(count, function) {
            return false;
        }
    }
    true
}

fn is_function_fit<A: Allocator>(count: usize, function: &Function<A>) -> bool
    ensures { result ≡ function_fits count (function_view function.now) }
{
    let outside = Scopes::End;
    let inside = Scope {
        inputs: function.inputs.len(),
        outputs: function.outputs.len(),
        value: None,
        turn: None,
        block: &function.body,
    };
    is_block_fit(&Scopes::Within(inside, &outside), count, &function.body)
}

/// Returns true if all names and functions in the nested blocks of a statement exist.
#[cycle(block)]
fn are_blocks_fit<'a, A: Allocator>(
    scopes: &Scopes<'a, A>,
    functions: usize,
    action: &Action<A>,
) -> bool
    ensures { result ≡ fits_inside (owners_of scopes.now) functions (action_view action.now) }
{
    match action {
        Action::When { then, .. } => {
            let inside = Scopes::Within(opened(None, None, &*then), &*scopes);
            is_block_fit(&inside, functions, then)
        }
        Action::Choose { then, other, .. } => {
            let first = Scopes::Within(opened(None, None, &*then), &*scopes);
            let second = Scopes::Within(opened(None, None, &*other), &*scopes);
            is_block_fit(&first, functions, then) && is_block_fit(&second, functions, other)
        }
        Action::Range {
            value,
            turn,
            body,
            ..
        } => {
            let inside = Scopes::Within(opened(Some(value.node), node_of(turn), &*body), &*scopes);
            is_block_fit(&inside, functions, body)
        }
        Action::Each {
            value,
            key,
            body,
            ..
        } => {
            let inside = Scopes::Within(opened(Some(value.node), node_of(key), &*body), &*scopes);
            is_block_fit(&inside, functions, body)
        }
        Action::Wait { inner, content, .. } => {
            let inside = within_wait(&*content, &*scopes);
            are_headers_fit(scopes, inner) && is_block_fit(&inside, functions, content)
        }
        Action::Declare(_)
        | Action::Call { .. }
        | Action::Assign { .. }
        | Action::Fill { .. }
        | Action::Insert { .. }
        | Action::Print { .. }
        | Action::Assert { .. } => true,
    }
}

/// Returns true if all names and functions in a statement and its nested blocks exist.
#[cycle(block)]
fn is_statement_fit<'a, A: Allocator>(
    scopes: &Scopes<'a, A>,
    functions: usize,
    statement: &Statement<A>,
) -> bool
    ensures { result ≡ fits_stmt (owners_of scopes.now) functions (statement_view statement.now) }
{
    is_fit(scopes, functions, &statement.action)
        && are_blocks_fit(scopes, functions, &statement.action)
}

/// Returns true if all names and functions in the statements of a block and their nested blocks exist.
#[cycle(block)]
fn is_block_fit<'a, A: Allocator>(
    scopes: &Scopes<'a, A>,
    functions: usize,
    block: &Block<A>,
) -> bool
    ensures { result ≡ fits (owners_of scopes.now) functions (block_view block.now) }
{
    for statement in &block.statements {
        if !is_statement_fit(scopes, functions, statement) {
            return false;
        }
    }
    true
}

/// Returns true if the names of the merged inner waits are declared.
fn are_headers_fit<'a, A: Allocator>(scopes: &Scopes<'a, A>, headers: &Vec<Header<A>, A>) -> bool
    ensures { result ≡ headers_fit (owners_of scopes.now) headers.now.items }
{
    for header in headers {
        if !are_names_fit(scopes, &header.names) {
            return false;
        }
    }
    true
}

/// Creates the scopes of the content of a `wait`.
#[tactic(auto, using(crate::proofs::Outwards::owners_content))]
fn within_wait<'a, A: Allocator>(content: &'a Block<A>, outer: &'a Scopes<'a, A>) -> Scopes<'a, A>
    ensures { owners_of result ≡ in_content (block_view content.now) (owners_of outer.now) }
{
    Scopes::Content(content, outer)
}

/// Creates the scope of a nested block, with the variables of its loop.
fn opened<A: Allocator>(value: Option<u32>, turn: Option<u32>, block: &Block<A>) -> Scope<'_, A>
    ensures { owner_of result ≡ opened_owner (record { variables = option_to_list value ++ option_to_list turn; block = block_view block.entry.now }) }
{
    Scope {
        inputs: 0,
        outputs: 0,
        value,
        turn,
        block,
    }
}

/// Returns the node of a variable, if there is one.
fn node_of<A: Allocator>(variable: &Option<Variable<A>>) -> Option<u32>
    ensures { result ≡ option_map (λ v. v.node) variable.now }
{
    match variable {
        Some(variable) => Some(variable.node),
        None => None,
    }
}
