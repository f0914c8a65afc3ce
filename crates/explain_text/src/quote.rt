//! Quotes of source lines, with a span of the line marked.
ghost use Rattle.std.specs.Prelude.{◌≡◌, ◌≤◌, ◌+◌, length, min};
ghost use Rattle.explain_text.specs.Positions.{BeginsLine};
ghost use Rattle.explain_text.specs.Windows.{IsNearEnd, IsWindow};

use crate::position::line_begin;
use lexer::token::Span;
use std::alloc::AllocError;

/// Maximum number of columns of a line that are shown.
pub const WIDTH: usize = 120;

/// Indentation of a shown line and of its marks.
const INDENT: &[u8] = b"    ";

/// The part of a line that is shown.
#[derive(Clone, Copy, PartialEq, Eq, Debug, Drop)]
pub struct Window {
    pub from: usize,
    pub to: usize,
    /// Whether the line begins before this part.
    pub cut_before: bool,
    /// Whether the line continues after this part.
    pub cut_behind: bool,
}

/// Returns the part of an offset's line that is shown: the whole line, or `WIDTH` bytes of it around the offset.
pub fn window_round(text: &[u8], at: usize) -> Window
    requires { at ≤ length text.now }
    ensures { IsWindow text.now at result }
{
    window_in(text, line_begin(text, at), at)
}

/// Returns the part of an offset's line that is shown, given the offset at which the line begins.
pub(crate) fn window_in(text: &[u8], begin: usize, at: usize) -> Window
    requires begins { BeginsLine text.now at begin }
    requires within { at ≤ length text.now }
    ensures { IsWindow text.now at result }
{
    let end = near_end(text, at);
    if end - begin <= WIDTH {
        return Window {
            from: begin,
            to: end,
            cut_before: false,
            cut_behind: false,
        };
    }
    let half = WIDTH / 2;
    let near = if at - begin > half { at - half } else { begin };
    let from = near.min(end - WIDTH);
    let to = from + WIDTH;
    Window {
        from,
        to,
        cut_before: begin < from,
        cut_behind: to < end,
    }
}

/// Returns the end of an offset's line: its line feed or the end of the text. Returns the offset plus 121 if the line
/// ends later.
#[tactic(auto, using(crate::proofs::Ends::near_here, crate::proofs::Ends::near_most))]
fn near_end(text: &[u8], at: usize) -> usize
    requires { at ≤ length text.now }
    ensures { IsNearEnd text.now at result }
{
    let most = reach(text, at);
    for i in at..most {
        if text[i] == b'\n' {
            return i;
        }
    }
    most
}

/// Returns the offset up to which the end of a line is searched.
fn reach(text: &[u8], at: usize) -> usize
    requires { at ≤ length text.now }
    ensures { result ≡ min (length text.now) (at + 121) }
{
    if text.len() - at > WIDTH {
        at + WIDTH + 1
    } else {
        text.len()
    }
}

/// Appends the line on which a span begins, and under it a mark for each byte of the span that is shown, at least
/// one.
pub fn add_quote(out: &mut Vec<u8>, text: &[u8], at: Span) -> Result<(), AllocError> {
    let from = at.from.min(text.len());
    let begin = line_begin(text, from);
    add_quoted(out, text, begin, from, at.to.min(text.len()))
}

/// Appends the line at `begin`, and under it a mark for each byte from `from` to `to` that is shown, at least one.
pub(crate) fn add_quoted(
    out: &mut Vec<u8>,
    text: &[u8],
    begin: usize,
    from: usize,
    to: usize,
) -> Result<(), AllocError>
    requires begins { BeginsLine text.now from begin }
    requires within { from ≤ length text.now }
{
    let shown = window_in(text, begin, from);
    add_line(out, text, shown)?;
    add_marks(out, text, shown, from, to)
}

fn add_line(out: &mut Vec<u8>, text: &[u8], shown: Window) -> Result<(), AllocError>
    requires order { shown.from ≤ shown.to }
    requires within { shown.to ≤ length text.now }
{
    out.extend_from_slice(INDENT)?;
    if shown.cut_before {
        out.extend_from_slice(b"..")?;
    }
    for byte in &text[shown.from..shown.to] {
        out.push(shown_as(*byte))?;
    }
    if shown.cut_behind {
        out.extend_from_slice(b"..")?;
    }
    out.push(b'\n')?;
    Ok(())
}

fn add_marks(
    out: &mut Vec<u8>,
    text: &[u8],
    shown: Window,
    from: usize,
    to: usize,
) -> Result<(), AllocError>
    requires order { shown.from ≤ from }
    requires within { from ≤ length text.now }
{
    out.extend_from_slice(INDENT)?;
    if shown.cut_before {
        out.extend_from_slice(b"  ")?;
    }
    for byte in &text[shown.from..from] {
        out.push(if *byte == b'\t' { b'\t' } else { b' ' })?;
    }
    out.push(b'^')?;
    for _ in from + 1..to.min(shown.to) {
        out.push(b'^')?;
    }
    out.push(b'\n')?;
    Ok(())
}

/// Returns the byte that is shown for a byte of the source: a tab as it is, a carriage return as a space. A byte that
/// is not printable ASCII is shown as `?`.
fn shown_as(byte: u8) -> u8 {
    match byte {
        b'\t' | b' '..=b'~' => byte,
        b'\r' => b' ',
        _ => b'?',
    }
}
