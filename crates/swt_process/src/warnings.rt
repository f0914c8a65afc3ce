//! Warnings of the files of a check, for `--deny-warnings`.
ghost use Rattle.std.specs.Prelude.{◌≡◌, ◌<◌, []};
ghost use Rattle.swt_command.specs.Files.{contents, source_of};
ghost use Rattle.swt_command.specs.Sinks.{held};
ghost use Rattle.swt_process.specs.Warned.{Follows, Found, IsJudged, IsNoted, state_of};

use explain_warnings::render::warnings_of;
use explain_warnings::warning::Warning;
use std::alloc::{AllocError, Global};
use swt_command::scripts::source;
use swt_command::trouble::write_failure;
use swt_status::failure::CommandFailure;
use swt_status::status::Status;
use values::sink::Sink;

/// The warnings that were found in the files of a check so far.
#[derive(Clone, Copy, PartialEq, Eq, Debug, Drop)]
pub enum WarningState {
    /// Warnings are not denied, and files are not searched for them.
    Ignored,
    /// No file has a warning.
    Silent,
    /// A file has a warning.
    Warned,
    /// An allocation failed before a warning was found.
    Unknown,
}

impl WarningState {
    /// Returns the state before the first file.
    pub fn new(denies: bool) -> WarningState
        ensures { IsNoted denies result [] }
    {
        if denies {
            WarningState::Silent
        } else {
            WarningState::Ignored
        }
    }

    /// Returns the state after the first of these files. The file is searched only if the state depends on it.
    pub fn after(self, alloc: Global, files: &[Option<Vec<u8>>]) -> WarningState
        ensures { Follows self (source_of (contents files.now) 0) result }
    {
        match self {
            WarningState::Ignored => WarningState::Ignored,
            WarningState::Silent => searched(alloc, files),
            WarningState::Warned => WarningState::Warned,
            WarningState::Unknown => WarningState::Unknown,
        }
    }

    /// Returns the exit status of a check that accepted all files. If the warnings are unknown, the allocation failure
    /// is written to `err`.
    pub fn judge<E: Sink>(self, err: &mut E) -> u8
        requires { E.failures err.old < u64.MAX }
        ensures { IsJudged self (held (E.taken err.old) (E.failures err.old)) (held (E.taken err.new) (E.failures err.new)) result }
    {
        match self {
            WarningState::Ignored => Status::Done.number(),
            WarningState::Silent => Status::Done.number(),
            WarningState::Warned => Status::Refused.number(),
            WarningState::Unknown => {
                let _ = write_failure(CommandFailure::Memory, "", err);
                Status::Memory.number()
            }
        }
    }
}

/// Searches the first of these files for warnings. A file that could not be read has none.
fn searched(alloc: Global, files: &[Option<Vec<u8>>]) -> WarningState
    ensures { Found (source_of (contents files.now) 0) result }
{
    match source(files, 0) {
        Ok(text) => found(alloc, text),
        Err(_unread) => WarningState::Silent,
    }
}

/// Searches a text for warnings.
fn found(alloc: Global, text: &[u8]) -> WarningState
    ensures { Found (Some text.now) result }
{
    match warnings_of(alloc, text) {
        Ok(warnings) => state_of(warnings.as_slice()),
        Err(AllocError) => WarningState::Unknown,
    }
}

/// Returns the state after a file with these warnings, where earlier files have none.
fn state_of(warnings: &[Warning]) -> WarningState
    ensures { result ≡ state_of warnings.now }
{
    match warnings {
        [] => WarningState::Silent,
        [_, ..] => WarningState::Warned,
    }
}
