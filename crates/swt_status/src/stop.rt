//! Failures with the file at which a command stopped.

use crate::failure::CommandFailure;

/// A failure that ended a command, and the input file at which it occurred.
#[derive(Clone, Copy, PartialEq, Eq, Debug)]
pub struct CommandStop {
    /// The position of the file among the files that the command line names to be read, counted from 0.
    pub place: usize,
    pub trouble: CommandFailure,
}
