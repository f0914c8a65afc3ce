//! Names of variables and call results in diagnostics.

use crate::index::ScriptIndex;
use explain_text::line_index::LineIndex;
use explain_text::words::write_str;
use flow::name::{Name, NameBinding};
use std::alloc::{AllocError, Allocator};

/// Appends the source name of a variable, as seen in a function or, with `None`, in the script's own blocks.
///
/// For the result of a call in an expression, the called function and the position of the call are appended.
pub fn write_name<'a, A: Allocator>(
    index: &ScriptIndex<'a, A>,
    lines: &LineIndex<'_>,
    out: &mut Vec<u8>,
    function: Option<usize>,
    name: Name,
) -> Result<(), AllocError> {
    write_owned(index, lines, out, function, name.what)
}

/// Appends the source name of a binding, in the block that owns it. See `write_name` for the results of calls.
pub fn write_owned<'a, A: Allocator>(
    index: &ScriptIndex<'a, A>,
    lines: &LineIndex<'_>,
    out: &mut Vec<u8>,
    function: Option<usize>,
    owned: NameBinding,
) -> Result<(), AllocError> {
    if let Some(bytes) = index.owned_name(function, owned) {
        out.extend_from_slice(bytes)?;
        return Ok(());
    }
    match owned {
        NameBinding::Local(node) => match index.giving_at(node) {
            Some(at) => write_call(index, lines, out, at),
            None => write_str(out, "a value"),
        },
        _ => write_str(out, "a value"),
    }
}

/// Appends a description of the result of a call.
fn write_call<'a, A: Allocator>(
    index: &ScriptIndex<'a, A>,
    lines: &LineIndex<'_>,
    out: &mut Vec<u8>,
    at: usize,
) -> Result<(), AllocError> {
    write_str(out, "what ")?;
    if let Some(function) = index.function_at(at) {
        out.extend_from_slice(function)?;
    }
    write_str(out, " gives, called at ")?;
    lines.say_place(out, at)
}
