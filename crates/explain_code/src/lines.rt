//! Lines about the bodies and entries of code, to be read beside its listing or its drawing.

use crate::bodies::{BodyOrigin, IndexedCode, ListedBody};
use code_listing::text::{act_text, kind_text};
use explain_text::line_index::LineIndex;
use explain_text::words::{write_bytes, write_count, write_str};
use flow::script::Flow;
use show_drawing::text::excerpt::{excerpt, expression_in, item_starts, operand_in, start_before};
use std::alloc::{AllocError, Allocator, Global};
use task_code::code::Code;
use task_code::entry::{Act, Entry};

/// Width of the column of positions.
const POSITION_WIDTH: usize = 9;

/// Width of the column of names and words.
const WORDS_WIDTH: usize = 24;

/// Maximum number of bytes of the source text in a line.
const TEXT_WIDTH: usize = 60;

/// The names of bodies and entries in the lines.
#[derive(Clone, Copy, PartialEq, Eq, Debug, Drop)]
pub enum CodeNames {
    /// Those of the listing, as `body 1` and `2`.
    Listing,
    /// Those of the drawing's nodes, as `b1` and `e1_2`.
    Drawing,
}

/// A script: its file name, its text, its flow and the code of the flow.
#[derive(Drop)]
pub struct CodeSource<'s, A: Allocator> {
    pub file: &'s str,
    pub text: &'s [u8],
    pub flow: &'s Flow<A>,
    pub code: &'s Code,
}

/// Appends a line for each body of the code and each of its entries, in the order of the listing: `FILE:LINE:COLUMN:`,
/// the name, the words of the listing, and the source text at that place.
///
/// An entry has the place that the listing shows as an offset. A body has that of the statement or function whose block
/// it is, and the body of the script that of its first statement.
///
/// # Errors
///
/// Returns `AllocError` if an allocation fails.
pub fn add_code_lines<A: Allocator>(
    alloc: Global,
    out: &mut Vec<u8>,
    source: &CodeSource<'_, A>,
    names: CodeNames,
) -> Result<(), AllocError> {
    let indexed = IndexedCode::new(alloc, source.flow, source.code)?;
    let bodies = indexed.bodies(alloc)?;
    let writer = LineWriter {
        alloc,
        file: source.file,
        lines: LineIndex::of(alloc, source.text)?,
        starts: item_starts(alloc, source.text)?,
        names,
    };
    for place in 0..bodies.len() {
        writer.add_body(out, &indexed, bodies[place], place)?;
    }
    Ok(())
}

/// The context of all lines about a script.
#[derive(Drop)]
struct LineWriter<'s> {
    alloc: Global,
    file: &'s str,
    lines: LineIndex<'s>,
    /// The offsets at which the items of the script begin.
    starts: Vec<usize>,
    names: CodeNames,
}

impl LineWriter<'_> {
    /// Appends the lines of the body with this number in the listing, and of its entries.
    fn add_body<A: Allocator>(
        &self,
        out: &mut Vec<u8>,
        indexed: &IndexedCode<'_, A>,
        listed: ListedBody,
        place: usize,
    ) -> Result<(), AllocError> {
        self.add_title(out, indexed, listed.origin, place)?;
        let Some(body) = indexed.code.body(listed.number) else {
            return Ok(());
        };
        let mut number = 0usize;
        for entry in &body.entries {
            number = number.saturating_add(1);
            if let Some(entry) = indexed.code.entry(*entry) {
                self.add_entry(out, entry, place, number)?;
            }
        }
        Ok(())
    }

    /// Appends the line of a body.
    fn add_title<A: Allocator>(
        &self,
        out: &mut Vec<u8>,
        indexed: &IndexedCode<'_, A>,
        origin: BodyOrigin,
        place: usize,
    ) -> Result<(), AllocError> {
        match origin {
            BodyOrigin::Script => {
                let begin = self.begin(out, first_statement(indexed.flow))?;
                self.add_body_name(out, place, " script")?;
                end(out, begin, b"")
            }
            BodyOrigin::Function(position) => {
                let Some(function) = indexed.function(position) else {
                    return Ok(());
                };
                let at = start_before(self.starts.as_slice(), function.at);
                let begin = self.begin(out, at)?;
                self.add_body_name(out, place, " function ")?;
                out.extend_from_slice(function.name.as_slice())?;
                self.add_header(out, begin, at)
            }
            BodyOrigin::Block(kind, at) => {
                let begin = self.begin(out, at)?;
                self.add_body_name(out, place, " ")?;
                write_str(out, kind.word())?;
                self.add_header(out, begin, at)
            }
        }
    }

    /// Appends the name of a body, and words.
    fn add_body_name(
        &self,
        out: &mut Vec<u8>,
        place: usize,
        words: &str,
    ) -> Result<(), AllocError> {
        let name = match self.names {
            CodeNames::Listing => "body ",
            CodeNames::Drawing => "b",
        };
        write_str(out, name)?;
        write_count(out, place)?;
        write_str(out, words)
    }

    /// Appends the header at an offset, and ends the line whose words begin at `begin`.
    fn add_header(&self, out: &mut Vec<u8>, begin: usize, at: usize) -> Result<(), AllocError> {
        let header = excerpt(self.alloc, self.lines.text(), at)?;
        end(out, begin, header.as_slice())
    }

    /// Appends the line of an entry, which has this number in the body of this place.
    fn add_entry(
        &self,
        out: &mut Vec<u8>,
        entry: &Entry,
        place: usize,
        number: usize,
    ) -> Result<(), AllocError> {
        let begin = self.begin(out, entry.offset)?;
        self.add_entry_name(out, place, number)?;
        write_str(out, kind_text(entry.act.kind()))?;
        write_str(out, act_text(&entry.act))?;
        let shown = excerpt(self.alloc, self.lines.text(), entry.offset)?;
        end(out, begin, part_of(&entry.act, shown.as_slice()))
    }

    /// Appends the name of an entry.
    fn add_entry_name(
        &self,
        out: &mut Vec<u8>,
        place: usize,
        number: usize,
    ) -> Result<(), AllocError> {
        match self.names {
            CodeNames::Listing => write_str(out, "  ")?,
            CodeNames::Drawing => {
                write_str(out, "  e")?;
                write_count(out, place)?;
                write_str(out, "_")?;
            }
        }
        write_count(out, number)
    }

    /// Begins a line with the place of an offset. Returns the length of the output, at which the words of the line
    /// begin.
    fn begin(&self, out: &mut Vec<u8>, at: usize) -> Result<usize, AllocError> {
        let start = out.len().saturating_add(self.file.len());
        self.lines.say_start(out, self.file, at)?;
        pad(out, start.saturating_add(POSITION_WIDTH))?;
        Ok(out.len())
    }
}

/// Ends a line whose words begin at `begin` with a source text, if it is not empty.
fn end(out: &mut Vec<u8>, begin: usize, shown: &[u8]) -> Result<(), AllocError> {
    if !shown.is_empty() {
        write_str(out, " ")?;
        pad(out, begin.saturating_add(WORDS_WIDTH))?;
        write_bytes(out, shown, TEXT_WIDTH)?;
    }
    write_str(out, "\n")
}

/// Appends spaces until the output has this length.
fn pad(out: &mut Vec<u8>, length: usize) -> Result<(), AllocError> {
    for _ in out.len()..length {
        write_str(out, " ")?;
    }
    Ok(())
}

/// Returns the part of an excerpt that an entry with this act is made from: an expression of a statement, or all of it.
fn part_of<'a>(act: &Act, shown: &'a [u8]) -> &'a [u8] {
    match act {
        Act::Cell(_) => expression_in(shown),
        Act::Read | Act::Call { .. } => operand_in(shown),
        Act::Set(_, _) | Act::Fill(_, _) | Act::Copy(_) | Act::InsertElement(_, _, _) => shown,
        Act::Print(_) | Act::Assert(_) | Act::If(_, _, _) => shown,
        Act::Range(_, _, _, _) | Act::Each(_) | Act::Wait(_, _) => shown,
    }
}

/// Returns the offset of the first statement of a script outside its functions, or 0 if there is none.
fn first_statement<A: Allocator>(flow: &Flow<A>) -> usize {
    match flow.body.statements.as_slice().first() {
        Some(statement) => statement.at,
        None => 0,
    }
}
