//! Emission of `wait` statements, where a `wait` and the waits merged with it have one entry.
//!
//! A `wait` is merged with the one that it is nested in if its enclosing block has no other statement.
ghost use Rattle.std.specs.Prelude.{◌≡◌, ◌∷◌, ◌++◌, [], length, map, pos, IfOk, OnOk};
ghost use Rattle.std.specs.List.{flat_map};
ghost use Rattle.language.specs.Core as core;
ghost use Rattle.flow.specs.View.{awaited_view, waits_around};
ghost use Rattle.task_code.specs.View as code_view;
ghost use Rattle.code_rules.specs.CodeNames.{awaited_need};
ghost use Rattle.code_rules.specs.Room.{ActionRoom, AwaitedRoom, Each};
ghost use Rattle.emit_cells.specs.Marks.{MarksGrow};
ghost use Rattle.emit_cells.specs.PlainNeeds.{need_named, Notes};
ghost use Rattle.emit_statements.specs.Blocks.{InnerRoom, Numbered, WaitAddedAs, header_of, inner_headers};

use crate::code_builder::CodeBuilder;
use crate::own::StatementAt;
use emit_cells::names::named;
use emit_cells::needs::{PlainNeed, note_name};
use flow::name::Name;
use flow::statement::Header;
use indexmap::IndexSet;
use language::tree::Shape;
use std::alloc::{AllocError, Allocator, Global};
use task_code::entry::{self, Act};

/// Converts an awaited name.
fn awaited(inputs: usize, name: Name) -> entry::Name
    ensures { AwaitedRoom inputs (awaited_view name) → need_named (code_view.name_view result) ≡ awaited_need inputs (awaited_view name) }
{
    match name.shape {
        Shape::Array(_) => named(inputs, name, true),
        Shape::Scalar => named(inputs, name, false),
    }
}

// NEEDS

/// Adds the needs for the awaited names.
fn note_names<A: Allocator>(
    needs: &mut IndexSet<PlainNeed>,
    inputs: usize,
    names: &Vec<Name, A>,
) -> Result<(), AllocError>
    ensures { OnOk result (Each (AwaitedRoom inputs) (map awaited_view names.now.items)
        → Notes needs.old.keys needs.new.keys (map (awaited_need inputs) (map awaited_view names.now.items))) }
{
    for name in names {
        note_name(needs, awaited(inputs, *name))?;
    }
    Ok(())
}

/// Adds the needs of the waits merged into a wait.
fn note_inner<A: Allocator>(
    needs: &mut IndexSet<PlainNeed>,
    inputs: usize,
    inner: &Vec<Header<A>, A>,
) -> Result<(), AllocError>
    ensures { OnOk result (InnerRoom inputs inner.now.items
        → Notes needs.old.keys needs.new.keys (flat_map (λ h. h.needs) (inner_headers inputs inner.now.items))) }
{
    for merged in inner {
        note_names(needs, inputs, &merged.names)?;
    }
    Ok(())
}

// HEADERS

/// Creates the header of a wait.
fn header<A: Allocator>(
    alloc: Global,
    inputs: usize,
    at: usize,
    names: &Vec<Name, A>,
) -> Result<entry::Header, AllocError>
    ensures { IfOk result (λ h. Each (AwaitedRoom inputs) (map awaited_view names.now.items)
        → code_view.header_view h ≡ header_of inputs at names.now.items) }
{
    let mut needs = Vec::with_capacity(alloc, names.len())?;
    for name in names {
        needs.push(PlainNeed::new(awaited(inputs, *name)).need())?;
    }
    Ok(entry::Header { at, needs })
}

/// Appends the headers of the waits merged into a wait.
fn add_headers<A: Allocator>(
    alloc: Global,
    headers: &mut Vec<entry::Header>,
    inputs: usize,
    inner: &Vec<Header<A>, A>,
) -> Result<(), AllocError>
    ensures { OnOk result (InnerRoom inputs inner.now.items
        → map code_view.header_view headers.new.items ≡ map code_view.header_view headers.old.items ++ inner_headers inputs inner.now.items) }
{
    for merged in inner {
        headers.push(header(alloc, inputs, merged.at, &merged.names)?)?;
    }
    Ok(())
}

/// Returns the headers of a wait and of the waits merged with it, the outermost first.
fn all_headers<A: Allocator>(
    alloc: Global,
    inputs: usize,
    at: usize,
    names: &Vec<Name, A>,
    inner: &Vec<Header<A>, A>,
) -> Result<Vec<entry::Header>, AllocError>
    ensures { IfOk result (λ hs. Each (AwaitedRoom inputs) (map awaited_view names.now.items) → InnerRoom inputs inner.now.items
        → map code_view.header_view hs.items ≡ header_of inputs at names.now.items ∷ inner_headers inputs inner.now.items) }
{
    let mut headers = Vec::new(alloc);
    headers.push(header(alloc, inputs, at, names)?)?;
    add_headers(alloc, &mut headers, inputs, inner)?;
    Ok(headers)
}

impl CodeBuilder {
    /// Appends the own entry of a wait and of the waits merged with it, and returns its number. The entry opens the
    /// body of number `body`.
    pub fn add_wait<A: Allocator>(
        &mut self,
        statement: StatementAt,
        names: &Vec<Name, A>,
        inner: &Vec<Header<A>, A>,
        body: u32,
    ) -> Result<u32, AllocError>
        ensures number { IfOk result (λ n. Numbered n (length self.old.entries.items) self.old.filling self.new.filling) }
        ensures entry { OnOk result ((b : core.Block)
            → ActionRoom statement.standing.inputs (core.wait (map awaited_view names.now.items) (waits_around inner.now.items b))
            → statement.standing.priority ≡ pos 0
            → WaitAddedAs statement.standing.inputs statement.standing.at statement.node
            (core.wait (map awaited_view names.now.items) (waits_around inner.now.items b)) b body
            self.old.entries.items self.new.entries.items) }
        ensures marks { OnOk result (MarksGrow self.old.entries.items self.new.entries.items []) }
    {
        let inputs = statement.standing.inputs;
        let mut needs = IndexSet::new(self.alloc);
        note_names(&mut needs, inputs, names)?;
        note_inner(&mut needs, inputs, inner)?;
        let headers = all_headers(self.alloc, inputs, statement.standing.at, names, inner)?;
        self.add_entry(statement, &needs, Act::Wait(headers, body))
    }
}
