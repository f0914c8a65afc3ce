//! The textual listing: bodies and entries.
ghost use Rattle.std.specs.Prelude.{◌≡◌, ◌++◌, ◌∷◌, [], List, ℕ, codes, length, IfOk, slice_get};
ghost use Rattle.task_code.specs.Code.{kind_of};
ghost use Rattle.task_code.specs.View.{act_view, entry_view};
ghost use Rattle.code_listing.specs.Buffers.{Adds};
ghost use Rattle.code_listing.specs.Listed.{IsListing};
ghost use Rattle.code_listing.specs.Order.{numbers_of};
ghost use Rattle.code_listing.specs.Labels.{drawing_labels, infos_of, labels_of, signatures_of};
ghost use Rattle.code_listing.specs.Listing.{act_line, act_text, bodies_opened, bodies_text, body_text, entries_text, entry_line, entry_text, function_at, kind_text, opened_text, place_text, title_text, what_text, whose};

use crate::bodies::{BodyPosition, in_order, places};
use crate::drawing::Drawing;
use crate::needs::{ListingContext, needs};
use crate::producers::Producers;
use crate::source_map::{BodyInfo, BodyKind, find};
use crate::text_buffer::TextBuffer;
use flow::script::{Flow, Function};
use std::alloc::{AllocError, Allocator, Global};
use task_code::code::Code;
use task_code::entry::{Act, Entry, Kind};

/// Returns the listing of the code of a script: its bodies, ordered by the offsets of their `{`, and the entries of
/// each. The code has to be that of the flow.
///
/// # Errors
///
/// Returns `AllocError` if an allocation fails.
pub fn listing<A: Allocator>(
    alloc: Global,
    flow: &Flow<A>,
    code: &Code,
) -> Result<Vec<u8>, AllocError>
    ensures { IfOk result (λ text. IsListing flow.now code.now text.items) }
{
    let found = find(alloc, flow)?;
    let positions = in_order(alloc, &found)?;
    let places = places(alloc, &positions)?;
    let producers = Producers::find(alloc, code, &positions)?;
    let drawing = Drawing {
        code,
        found: &found,
        functions: &flow.functions,
        places: &places,
        producers: &producers,
    };
    let mut page = TextBuffer::new(alloc);
    add_bodies(&mut page, &drawing, positions.as_slice());
    page.finish()
}

/// Writes bodies and their entries.
fn add_bodies<A: Allocator>(
    page: &mut TextBuffer,
    drawing: &Drawing<'_, '_, A>,
    positions: &[BodyPosition],
)
    ensures { Adds page.old page.new (bodies_text drawing.now.code.now (infos_of drawing.now.found.now) (drawing_labels drawing.now) drawing.now.places.now.items 0 (numbers_of positions.now)) }
{
    for place in 0..positions.len() {
        add_body(page, drawing, positions[place].body, place);
    }
}

/// Writes a body and its entries.
fn add_body<A: Allocator>(
    page: &mut TextBuffer,
    drawing: &Drawing<'_, '_, A>,
    body: u32,
    place: usize,
)
    ensures { Adds page.old page.new (body_text drawing.now.code.now (infos_of drawing.now.found.now) (drawing_labels drawing.now) drawing.now.places.now.items place body) }
{
    let Some(stand) = drawing.found.stand(body) else {
        return;
    };
    let Some(body) = drawing.code.body(body) else {
        return;
    };
    add_title(page, drawing.functions, stand, place);
    page.add(b"\n");
    add_entries(page, drawing, stand.function, body.entries.as_slice());
}

/// Writes the title of a body.
pub fn add_title<A: Allocator>(
    page: &mut TextBuffer,
    functions: &Vec<Function<A>, A>,
    stand: BodyInfo,
    place: usize,
)
    ensures { Adds page.old page.new (title_text (signatures_of functions.now.items) stand place) }
{
    page.add_counted(b"body ", place);
    page.add(kind_name(stand.what).as_bytes());
    page.add(owner_name(functions, stand));
}

/// Returns the name of the function whose own body this is, or the empty name for any other body.
fn owner_name<A: Allocator>(functions: &Vec<Function<A>, A>, stand: BodyInfo) -> &[u8]
    ensures { result.now ≡ whose (signatures_of functions.now.items) stand stand.what }
{
    match stand.what {
        BodyKind::Function => function_name(functions, stand.function),
        BodyKind::Script | BodyKind::Then | BodyKind::Else | BodyKind::Loop | BodyKind::Wait => &[],
    }
}

/// Returns the name of the function of a number, counted from 1, or the empty name if there is none.
fn function_name<A: Allocator>(functions: &Vec<Function<A>, A>, number: usize) -> &[u8]
    ensures { result.now ≡ (function_at (signatures_of functions.now.items) number).name }
{
    if number == 0 {
        return &[];
    }
    match functions.get(number - 1) {
        None => &[],
        Some(function) => function.name.as_slice(),
    }
}

/// Returns the word for a kind of body, preceded by a space.
fn kind_name(what: BodyKind) -> &'static str
    ensures { result.now ≡ what_text what }
{
    match what {
        BodyKind::Script => " script",
        BodyKind::Function => " function ",
        BodyKind::Then => " then",
        BodyKind::Else => " else",
        BodyKind::Loop => " loop",
        BodyKind::Wait => " wait",
    }
}

/// Writes the entries of a body.
fn add_entries<A: Allocator>(
    page: &mut TextBuffer,
    drawing: &Drawing<'_, '_, A>,
    function: usize,
    entries: &[u32],
)
    ensures { Adds page.old page.new (entries_text drawing.now.code.now (drawing_labels drawing.now) function drawing.now.places.now.items 0 entries.now) }
{
    for k in 0..entries.len() {
        add_entry_at(page, drawing, function, entries[k], k + 1);
    }
}

/// Writes the line of the entry of this number in the code, if there is one.
fn add_entry_at<A: Allocator>(
    page: &mut TextBuffer,
    drawing: &Drawing<'_, '_, A>,
    function: usize,
    entry: u32,
    number: usize,
)
    ensures { Adds page.old page.new (entry_line drawing.now.code.now (drawing_labels drawing.now) function drawing.now.places.now.items number entry) }
{
    match drawing.code.entry(entry) {
        None => {}
        Some(found) => {
            let scope = drawing.scope(function, number);
            add_entry(page, &scope, drawing.places, found);
        }
    }
}

/// Writes the line of an entry.
fn add_entry<A: Allocator>(
    page: &mut TextBuffer,
    scope: &ListingContext<'_, '_, A>,
    places: &Vec<usize>,
    entry: &Entry,
)
    ensures { Adds page.old page.new (entry_text (labels_of scope.now) scope.now.function places.now.items scope.now.number (entry_view entry.now)) }
{
    page.add_counted(b"  ", scope.number);
    add_act(page, entry);
    needs(page, scope, entry);
    add_opened(page, places, &entry.act);
    page.add(b"\n");
}

/// Writes the kind of an entry, its act, its offset in the script, and its priority.
pub fn add_act(page: &mut TextBuffer, entry: &Entry)
    ensures { Adds page.old page.new (act_line (entry_view entry.now)) }
{
    page.add(kind_text(entry.act.kind()).as_bytes());
    page.add_counted(act_text(&entry.act).as_bytes(), entry.offset);
    page.add(b" ");
    page.add_priority(entry.priority);
}

/// Returns the word for a kind of entry, preceded by a space.
pub fn kind_text(kind: Kind) -> &'static str
    ensures { result.now ≡ kind_text kind }
{
    match kind {
        Kind::Control => " control",
        Kind::Leaf => " leaf",
    }
}

/// Returns the word for an act, between spaces.
pub fn act_text(act: &Act) -> &'static str
    ensures { result.now ≡ act_text (act_view act.now) }
{
    match act {
        Act::Cell(_) => " cell ",
        Act::Read => " read ",
        Act::Call { .. } => " call ",
        Act::Set(_, _) => " set ",
        Act::Fill(_, _) => " fill ",
        Act::Copy(_) => " copy ",
        Act::InsertElement(_, _, _) => " put ",
        Act::Print(_) => " print ",
        Act::Assert(_) => " assert ",
        Act::If(_, _, _) => " if ",
        Act::Range(_, _, _, _) => " range ",
        Act::Each(_) => " each ",
        Act::Wait(_, _) => " wait ",
    }
}

/// Writes the bodies that an entry opens.
fn add_opened(page: &mut TextBuffer, places: &Vec<usize>, act: &Act)
    ensures { Adds page.old page.new (opened_text places.now.items (bodies_opened (act_view act.now))) }
{
    match act {
        Act::Call { body, .. } => add_first(page, places, *body),
        Act::If(_, then, None) => add_first(page, places, *then),
        Act::If(_, then, Some(other)) => {
            add_first(page, places, *then);
            add_place(page, places, *other);
        }
        Act::Range(_, _, _, turns) => add_first(page, places, turns.body),
        Act::Each(turns) => add_first(page, places, turns.body),
        Act::Wait(_, body) => add_first(page, places, *body),
        Act::Cell(_)
        | Act::Read
        | Act::Set(_, _)
        | Act::Fill(_, _)
        | Act::Copy(_)
        | Act::InsertElement(_, _, _)
        | Act::Print(_)
        | Act::Assert(_) => {}
    }
}

/// Writes ` >` and the first body that an entry opens.
fn add_first(page: &mut TextBuffer, places: &Vec<usize>, body: u32)
    ensures { Adds page.old page.new (codes " >" ++ place_text (slice_get places.now.items body)) }
{
    page.add(b" >");
    add_place(page, places, body);
}

/// Writes a space and the number of a body in the listing.
fn add_place(page: &mut TextBuffer, places: &Vec<usize>, body: u32)
    ensures { Adds page.old page.new (place_text (slice_get places.now.items body)) }
{
    page.add(b" ");
    match places.get(body as usize) {
        Some(place) => page.add_number(*place),
        None => {}
    }
}
