//! The kind of a statement, and the variables that it declares.

use flow::statement::{Action, Variable};
use flow_index::site::{Site, StatementForm};
use std::alloc::Allocator;

/// Returns the action of a statement, or `None` for a `wait` that is the only content of another `wait`.
pub fn action_of<'a, A: Allocator>(site: &Site<'a, A>) -> Option<&'a Action<A>> {
    match &site.form {
        StatementForm::Whole(statement) => Some(&statement.action),
        StatementForm::Inner(_, _, _) => None,
    }
}

/// Returns the word for the kind of a statement.
pub fn word_of<'a, A: Allocator>(site: &Site<'a, A>) -> &'static str {
    match action_of(site) {
        None => "wait",
        Some(Action::Wait { .. }) => "wait",
        Some(Action::When { .. }) => "if",
        Some(Action::Choose { .. }) => "if",
        Some(Action::Range { .. }) => "loop",
        Some(Action::Each { .. }) => "loop",
        Some(_) => "statement",
    }
}

/// Returns true if a statement contains blocks.
pub fn opens_blocks<'a, A: Allocator>(site: &Site<'a, A>) -> bool {
    match action_of(site) {
        None => true,
        Some(Action::Wait { .. }) => true,
        Some(Action::When { .. }) => true,
        Some(Action::Choose { .. }) => true,
        Some(Action::Range { .. }) => true,
        Some(Action::Each { .. }) => true,
        Some(_) => false,
    }
}

/// Returns the variable with this node that a statement declares. A loop declares its variables.
pub fn variable_of<'a, A: Allocator>(site: &Site<'a, A>, node: u32) -> Option<&'a Variable<A>> {
    match action_of(site) {
        Some(Action::Declare(variable)) if variable.node == node => Some(variable),
        Some(Action::Range { value, turn, .. }) => of_loop(value, turn, node),
        Some(Action::Each { value, key, .. }) => of_loop(value, key, node),
        _ => None,
    }
}

fn of_loop<'a, A: Allocator>(
    value: &'a Variable<A>,
    other: &'a Option<Variable<A>>,
    node: u32,
) -> Option<&'a Variable<A>> {
    if value.node == node {
        return Some(value);
    }
    match other {
        Some(variable) if variable.node == node => Some(variable),
        _ => None,
    }
}
