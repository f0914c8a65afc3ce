//! The data from which diagnostics of statements are written.

use crate::index::ScriptIndex;
use crate::writers::WriterIndex;
use explain_inputs::blocked_statement::BlockedStatement;
use explain_text::line_index::LineIndex;
use meaning_outcomes::knowledge::Knowledge;
use std::alloc::{Allocator, Global};

/// The context of a script's diagnostics: its line index, its script index, its known facts, and its writer index.
#[derive(Drop)]
pub struct ExplainContext<'t, 'a, A: Allocator> {
    pub alloc: Global,
    pub lines: &'t LineIndex<'t>,
    pub index: &'t ScriptIndex<'a, A>,
    pub known: &'t Knowledge,
    pub writers: &'t WriterIndex,
}

/// The location of a live statement: its offset, the function that contains it if any, and its block instance.
#[derive(Clone, Copy)]
pub struct StatementLocation {
    pub at: usize,
    pub function: Option<usize>,
    pub instance: usize,
}

/// Returns the location of a blocked statement.
pub fn location_of<'s, 'a, A: Allocator>(
    waiting: &BlockedStatement<'s, 'a, A>,
) -> StatementLocation {
    StatementLocation {
        at: waiting.site.at(),
        function: waiting.site.function,
        instance: waiting.instance,
    }
}
