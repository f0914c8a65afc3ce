//! Statement instances, with their order by path and offset.
ghost use Rattle.std.specs.Prelude.{◌≡◌};
ghost use Rattle.paths.specs.Order.{same_statement, statement_below};

use crate::steps::{Step, is_path_below, is_same_path};

/// A statement of a block instance: its offset in the text, in bytes, and the path of the instance, outermost step
/// first. The path of the script's own instance is empty.
#[derive(Debug, Drop)]
pub struct StatementInstance {
    pub at: usize,
    pub path: Vec<Step>,
}

impl StatementInstance {
    /// Returns true if this statement sorts before `other`: by path, then by offset.
    pub fn is_below(&self, other: &StatementInstance) -> bool
        ensures { result ≡ statement_below self.now other.now }
    {
        is_path_below(self.path.as_slice(), other.path.as_slice())
            || (is_same_path(self.path.as_slice(), other.path.as_slice()) && self.at < other.at)
    }

    /// Returns true if both are the same statement of the same block instance.
    pub fn is_same(&self, other: &StatementInstance) -> bool
        ensures { result ≡ same_statement self.now other.now }
    {
        is_same_path(self.path.as_slice(), other.path.as_slice()) && self.at == other.at
    }
}
