//! Hints for faults: what to write instead.

use explain_blocked::context::ExplainContext;
use explain_remedies::junctions::Junction;
use explain_text::words::{write_count, write_str};
use lexer::lexer::Lexer;
use lexer::token::TokenKind;
use paths::{FaultKind, Step};
use std::alloc::{AllocError, Allocator};
use values::limits::MAX_PATH_STEPS;

/// Maximum number of times that a function can call itself if each call stands in a branch.
///
/// Both the call and the branch are steps, and the first call is not made by the function itself.
const CALLS: usize = MAX_PATH_STEPS / 2 - 1;

const ONCE: &str =
    "hint: each turn writes an element of its own, A[i] = ..; what several turns have for one key goes into an array with a key for each turn\n";

const UPWARDS: &str =
    "hint: a range goes upwards: downwards go the values 10 - i in the turns of foreach i in [0:10]\n";

const STILL: &str =
    "hint: a step of 0 comes to no other value: without a step a range has each value from its low to its high bound\n";

const ENDLESS: &str =
    "hint: nothing ends these calls: a function calls itself in an if, if (n == 0) { r = 0; } else { r = f(n - 1); }\n";

const NEGATIVE: &str =
    "hint: keys are not counted from the end: the last element is A[size(A) - 1], where the keys begin with 0\n";

/// Appends a hint for a fault of this kind of the statement at an offset. Appends nothing if no hint is known.
fn write_hint(
    out: &mut Vec<u8>,
    text: &[u8],
    kind: FaultKind,
    at: usize,
) -> Result<(), AllocError> {
    match kind {
        FaultKind::DivideByZero => write_junction(out, text, at),
        FaultKind::NoElement => {
            if has_negative_key(text, at) && junction_in(text, at).is_none() {
                write_str(out, NEGATIVE)
            } else {
                write_junction(out, text, at)
            }
        }
        FaultKind::ElementTwice => write_str(out, ONCE),
        FaultKind::BadStep if has_zero_step(text, at) => write_str(out, STILL),
        FaultKind::BadStep => write_str(out, UPWARDS),
        FaultKind::TooDeep => write_depth(out),
        _ => Ok(()),
    }
}

/// Appends a hint if an `&&` or `||` stands in the statement at an offset.
fn write_junction(out: &mut Vec<u8>, text: &[u8], at: usize) -> Result<(), AllocError> {
    match junction_in(text, at) {
        Some(junction) => {
            write_str(out, "hint: ")?;
            write_str(out, junction.remedy())
        }
        None => Ok(()),
    }
}

/// Appends a hint for a fault of this kind, given the steps to the statement, innermost first. Appends nothing if no
/// hint is known.
pub fn write_hint_behind<'t, 'a, A: Allocator>(
    context: &ExplainContext<'t, 'a, A>,
    out: &mut Vec<u8>,
    kind: FaultKind,
    at: usize,
    steps: &[Step],
) -> Result<(), AllocError> {
    if kind == FaultKind::TooDeep && is_endless(context, steps) {
        return write_str(out, ENDLESS);
    }
    write_hint(out, context.lines.text(), kind, at)
}

/// Returns true if the innermost step is a call that is reached again from itself through calls alone, so that the
/// recursion cannot end.
fn is_endless<'t, 'a, A: Allocator>(context: &ExplainContext<'t, 'a, A>, steps: &[Step]) -> bool {
    let Some(innermost) = steps.first() else {
        return false;
    };
    for i in 0..steps.len() {
        let step = &steps[i];
        if context.index.function_at(step.offset).is_none() {
            return false;
        }
        if i > 0 && step.offset == innermost.offset {
            return true;
        }
    }
    false
}

fn write_depth(out: &mut Vec<u8>) -> Result<(), AllocError> {
    write_str(out, "hint: with an if in it a function calls itself ")?;
    write_count(out, CALLS)?;
    write_str(
        out,
        " times at most: what goes on longer goes on along an array, s[i] = s[i - 1] + ..\n",
    )
}

/// Returns true if an `&&` or `||` stands before the end, or the first block, of the statement at an offset.
pub fn has_junction<'t, 'a, A: Allocator>(context: &ExplainContext<'t, 'a, A>, at: usize) -> bool {
    junction_in(context.lines.text(), at).is_some()
}

/// Returns the first `&&` or `||` before the end, or the first block, of the statement at an offset.
fn junction_in(text: &[u8], at: usize) -> Option<Junction> {
    let mut lexer = Lexer::behind(text, at.min(text.len()));
    for _ in at..text.len() {
        let Some(Ok(token)) = lexer.next() else {
            return None;
        };
        match token.kind {
            TokenKind::And => return Some(Junction::And),
            TokenKind::Or => return Some(Junction::Or),
            TokenKind::Semicolon | TokenKind::OpenCurly => return None,
            _ => {}
        }
    }
    None
}

/// Returns true if a `-` directly after a `[` stands before the end, or the first block, of the statement at an
/// offset.
fn has_negative_key(text: &[u8], at: usize) -> bool {
    let mut lexer = Lexer::behind(text, at.min(text.len()));
    let mut last = TokenKind::End;
    for _ in at..text.len() {
        let Some(Ok(token)) = lexer.next() else {
            return false;
        };
        match token.kind {
            TokenKind::Minus if last == TokenKind::OpenSquare => return true,
            TokenKind::Semicolon | TokenKind::OpenCurly => return false,
            kind => last = kind,
        }
    }
    false
}

/// Returns true if the range of the loop at an offset rises with step 0, where its bounds and step are number
/// literals.
fn has_zero_step(text: &[u8], at: usize) -> bool {
    let mut lexer = Lexer::behind(text, at.min(text.len()));
    for _ in at..text.len() {
        match lexer.next() {
            Some(Ok(token)) if token.kind == TokenKind::OpenSquare => {
                return is_still(&mut lexer) == Some(true);
            }
            Some(Ok(token)) if token.kind != TokenKind::OpenCurly => {}
            _ => return false,
        }
    }
    false
}

/// Returns whether the next tokens, up to the closing bracket, are two rising bounds and a step of 0. Returns `None`
/// if they are not three number literals.
fn is_still(lexer: &mut Lexer<'_>) -> Option<bool> {
    let low = number_before(lexer, TokenKind::Colon)?;
    let high = number_before(lexer, TokenKind::Colon)?;
    let step = number_before(lexer, TokenKind::CloseSquare)?;
    Some(step == b"0".as_slice() && is_at_most(low, high))
}

/// Returns the digits of the next token if it is a number, followed by a token of kind `end`.
fn number_before<'t>(lexer: &mut Lexer<'t>, end: TokenKind) -> Option<&'t [u8]> {
    let Some(Ok(number)) = lexer.next() else {
        return None;
    };
    let Some(Ok(behind)) = lexer.next() else {
        return None;
    };
    if number.kind == TokenKind::Number && behind.kind == end {
        Some(number.text)
    } else {
        None
    }
}

/// Returns true if a number is at most another one, given their digits without leading zeros.
fn is_at_most(low: &[u8], high: &[u8]) -> bool {
    if low.len() != high.len() {
        return low.len() < high.len();
    }
    for i in 0..low.len() {
        if low[i] != high[i] {
            return low[i] < high[i];
        }
    }
    true
}
