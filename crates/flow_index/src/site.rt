//! Sites: statements of a flow with the functions that contain them.
ghost use Rattle.std.specs.Prelude.{◌≡◌};
ghost use Rattle.flow.specs.View.{action_view};
ghost use Rattle.language.specs.Parts.{stmt_action, stmt_at, stmt_node};
ghost use Rattle.flow_index.specs.Candidates.{can_be_blocked};
ghost use Rattle.flow_index.specs.Sites.{site_view};

use flow::statement::{Action, Block, Header, Statement};
use std::alloc::Allocator;

/// The form in which a statement is stored in a flow.
#[derive(Drop)]
pub enum StatementForm<'a, A: Allocator> {
    /// A statement of a block.
    Whole(&'a Statement<A>),
    /// A `wait` that is the only content of another `wait`. Stored are its header, the headers of the waits nested in
    /// it, outermost first, and the content of the innermost wait.
    Inner(&'a Header<A>, &'a [Header<A>], &'a Block<A>),
}

/// A statement, with the number of the function that contains it if any.
#[derive(Drop)]
pub struct Site<'a, A: Allocator> {
    pub function: Option<usize>,
    pub form: StatementForm<'a, A>,
}

impl<'a, A: Allocator> Site<'a, A> {
    /// Returns the offset of the first token.
    pub fn at(&self) -> usize
        ensures { result ≡ stmt_at (site_view self.now) }
    {
        match &self.form {
            StatementForm::Whole(statement) => statement.at,
            StatementForm::Inner(wait, _, _) => wait.at,
        }
    }

    /// Returns the node of the statement.
    pub fn node(&self) -> u32
        ensures { result ≡ stmt_node (site_view self.now) }
    {
        match &self.form {
            StatementForm::Whole(statement) => statement.node,
            StatementForm::Inner(wait, _, _) => wait.node,
        }
    }

    /// Returns true if the statement can be blocked: it is neither a declaration nor a call alone.
    pub fn can_be_blocked(&self) -> bool
        ensures { result ≡ can_be_blocked (stmt_action (site_view self.now)) }
    {
        match &self.form {
            StatementForm::Whole(statement) => is_blockable(&statement.action),
            StatementForm::Inner(_, _, _) => true,
        }
    }
}

fn is_blockable<A: Allocator>(action: &Action<A>) -> bool
    ensures { result ≡ can_be_blocked (action_view action.now) }
{
    match action {
        Action::Declare(_) => false,
        Action::Call { .. } => false,
        Action::Assign { .. } => true,
        Action::Fill { .. } => true,
        Action::Insert { .. } => true,
        Action::Print { .. } => true,
        Action::Assert { .. } => true,
        Action::When { .. } => true,
        Action::Choose { .. } => true,
        Action::Range { .. } => true,
        Action::Each { .. } => true,
        Action::Wait { .. } => true,
    }
}
