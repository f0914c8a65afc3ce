//! The needs of an entry in a listing.
ghost use Rattle.std.specs.Prelude.{◌≡◌, ◌++◌, ◌∷◌, [], map};
ghost use Rattle.std.specs.List.{flat_map};
ghost use Rattle.task_code.specs.Code.{nth};
ghost use Rattle.task_code.specs.View.{entry_view, name_view, need_view};
ghost use Rattle.code_listing.specs.Buffers.{Adds};
ghost use Rattle.code_listing.specs.Labels.{labels_of, name_of, names_of, signature_of};
ghost use Rattle.code_listing.specs.Listing.{function_at, local_text, name_text, need_text};

use crate::producers::Producers;
use crate::source_map::SourceMap;
use crate::text_buffer::TextBuffer;
use flow::script::Function;
use flow::statement::Variable;
use std::alloc::Allocator;
use task_code::entry::{Entry, Name, Need, Owned};

/// The lookup context of an entry.
///
/// It has the source map, the functions, the producers, and two numbers: that of the function (0 for the script), and
/// that of the entry in its body, from 1.
#[derive(Drop)]
pub struct ListingContext<'a, 's, A: Allocator> {
    pub found: &'a SourceMap<'s>,
    pub functions: &'a Vec<Function<A>, A>,
    pub producers: &'a Producers,
    pub function: usize,
    pub number: usize,
}

/// Writes the needs of an entry, each preceded by a space.
pub fn needs<A: Allocator>(page: &mut TextBuffer, scope: &ListingContext<'_, '_, A>, entry: &Entry)
    ensures { Adds page.old page.new (flat_map (need_text (labels_of scope.now) scope.now.function) (map need_view entry.now.needs.items)) }
{
    for need in &entry.needs {
        add_need(page, scope, need);
    }
}

/// Writes a need. An index precedes its array.
fn add_need<A: Allocator>(page: &mut TextBuffer, scope: &ListingContext<'_, '_, A>, need: &Need)
    ensures { Adds page.old page.new (need_text (labels_of scope.now) scope.now.function (need_view need.now)) }
{
    match need {
        Need::Stored(scalar) => add_name(page, scope, scalar),
        Need::Closed(array) => add_array(page, scope, array, b"[]"),
        Need::At(array, scalar) => {
            add_name(page, scope, scalar);
            add_array(page, scope, array, b"[*]");
        }
        Need::AtKey(array, _) => add_array(page, scope, array, b"[*]"),
    }
}

/// Writes a space, the name of an array, and the suffix `part`.
fn add_array<A: Allocator>(
    page: &mut TextBuffer,
    scope: &ListingContext<'_, '_, A>,
    array: &Name,
    part: &[u8],
)
    ensures { Adds page.old page.new (name_text (labels_of scope.now) scope.now.function (name_view array.now) ++ part.now) }
{
    add_name(page, scope, array);
    page.add(part);
}

/// Writes a space and a name.
fn add_name<A: Allocator>(page: &mut TextBuffer, scope: &ListingContext<'_, '_, A>, name: &Name)
    ensures { Adds page.old page.new (name_text (labels_of scope.now) scope.now.function (name_view name.now)) }
{
    page.add(b" ");
    match name.owned {
        Owned::Parameter(place, _) => add_parameter(page, scope, place),
        Owned::Local(variable) => add_local(page, scope, variable.node),
    }
}

/// Writes the name of a parameter of the function of the entry. Writes nothing in the script's own bodies.
fn add_parameter<A: Allocator>(
    page: &mut TextBuffer,
    scope: &ListingContext<'_, '_, A>,
    place: usize,
)
    ensures { Adds page.old page.new (nth [] (function_at (labels_of scope.now).functions scope.now.function).parameters place) }
{
    if scope.function == 0 {
        return;
    }
    match scope.functions.get(scope.function - 1) {
        None => {}
        Some(function) => add_parameter_of(page, function, place),
    }
}

/// Writes the name of the input or output of a function at this index, inputs first.
fn add_parameter_of<A: Allocator>(page: &mut TextBuffer, function: &Function<A>, place: usize)
    ensures { Adds page.old page.new (nth [] (signature_of function.now).parameters place) }
{
    let inputs = function.inputs.len();
    if place < inputs {
        page.add(name_at(function.inputs.as_slice(), place));
    } else {
        page.add(name_at(function.outputs.as_slice(), place - inputs));
    }
}

/// Returns the name of the variable at an index, or the empty name if there is none.
fn name_at<A: Allocator>(variables: &[Variable<A>], place: usize) -> &[u8]
    ensures { result.now ≡ nth [] (names_of variables.now) place }
{
    match variables.get(place) {
        None => &[],
        Some(variable) => variable.name.as_slice(),
    }
}

/// Writes the name of a variable, or `#` and the number of the entry that produces the value.
fn add_local<A: Allocator>(page: &mut TextBuffer, scope: &ListingContext<'_, '_, A>, node: u32)
    ensures { Adds page.old page.new (local_text ((labels_of scope.now).names node) ((labels_of scope.now).makers node)) }
{
    match scope.found.name(node) {
        Some(name) => page.add(name),
        None => page.add_counted(b"#", scope.producers.of(node)),
    }
}
