//! Times of parsing 1 MiB.

use bumpalo::Bump;
use std::alloc::{AllocError, Allocator, Global};
use std::io;
use std::time::{Clock, Instant};
use syntax::parser::parse;

const LEN: usize = 1_048_576;

/// Number of times that each text is read.
const ROUNDS: u32 = 12;

/// A kind of repeated text.
#[derive(Clone, Copy)]
enum Kind {
    Names,
    Negatives,
    Calls,
    Sums,
    Parentheses,
    Choices,
    Branches,
    Prints,
    Declarations,
    Loops,
}

/// The name of a kind of text.
fn title(kind: Kind) -> &'static str {
    match kind {
        Kind::Names => "x=y;",
        Kind::Negatives => "x=-1;",
        Kind::Calls => "f();",
        Kind::Sums => "x=a+b*c-d;",
        Kind::Parentheses => "64 parentheses round a number",
        Kind::Choices => "if inside if, 32 deep",
        Kind::Branches => "lines of if and else",
        Kind::Prints => "lines of printf",
        Kind::Declarations => "lines of int x = 1;",
        Kind::Loops => "foreach on a line each",
    }
}

/// Appends the same bytes `times` times.
fn put(to: &mut Vec<u8>, bytes: &[u8], times: usize) -> Result<(), AllocError> {
    for _ in 0..times {
        to.extend_from_slice(bytes)?;
    }
    Ok(())
}

/// The text that a kind repeats.
fn unit(alloc: Global, kind: Kind) -> Result<Vec<u8>, AllocError> {
    let mut unit = Vec::new(alloc);
    match kind {
        Kind::Parentheses => {
            put(&mut unit, b"x=".as_slice(), 1)?;
            put(&mut unit, b"(".as_slice(), 64)?;
            put(&mut unit, b"1".as_slice(), 1)?;
            put(&mut unit, b")".as_slice(), 64)?;
            put(&mut unit, b";".as_slice(), 1)?;
        }
        Kind::Choices => {
            put(&mut unit, b"if(a){".as_slice(), 32)?;
            put(&mut unit, b"}".as_slice(), 32)?;
        }
        Kind::Branches => put(
            &mut unit,
            b"if (a) { x = 1; } else { x = 2; }\n".as_slice(),
            1,
        )?,
        Kind::Prints => put(&mut unit, b"printf(\"%i\", a + 1);\n".as_slice(), 1)?,
        Kind::Declarations => put(&mut unit, b"int x = 1;\n".as_slice(), 1)?,
        Kind::Loops => put(&mut unit, b"foreach v in A{x=v;}\n".as_slice(), 1)?,
        Kind::Names | Kind::Negatives | Kind::Calls | Kind::Sums => put(
            &mut unit,
            title(kind).as_bytes(),
            1,
        )?,
    }
    Ok(unit)
}

/// 1 MiB of a kind, or a little less.
fn text(alloc: Global, kind: Kind) -> Result<Vec<u8>, AllocError> {
    let unit = unit(alloc, kind)?;
    let mut text = Vec::new(alloc);
    let times = LEN / unit.len().max(1);
    put(&mut text, unit.as_slice(), times)?;
    Ok(text)
}

/// The microseconds that one reading takes, without the freeing of the tree.
fn read<A: Allocator + Clone>(rt: &impl Clock, alloc: A, text: &[u8]) -> io::Result<u128> {
    let start = Instant::now(rt)?;
    let script = parse(alloc, text);
    let micros = start.elapsed(rt)?.as_micros();
    match script {
        Ok(_script) => Ok(micros),
        Err(_fault) => Ok(0),
    }
}

/// Prints the least times of a kind.
fn time_kind(
    rt: &(impl Clock + Print),
    alloc: Global,
    arena: &mut Bump,
    kind: Kind,
) -> io::Result<()> {
    let text = text(alloc, kind)?;
    let (mut reset, mut new, mut machine) = (u128::MAX, u128::MAX, u128::MAX);
    for _ in 0..ROUNDS {
        let _gone = arena.reset();
        reset = reset.min(read(rt, &*arena, text.as_slice())?);
        let fresh = Bump::new(alloc);
        new = new.min(read(rt, &fresh, text.as_slice())?);
        machine = machine.min(read(rt, alloc, text.as_slice())?);
    }
    println!(rt; "{reset} {new} {machine} {}", title(kind))
}

/// Prints the least time of reading a text of each kind: over an arena that was reset before, over a new one, and over the machine's memory.
pub fn time(rt: &(impl Clock + Print), alloc: Global) -> io::Result<()> {
    let mut arena = Bump::new(alloc);
    for kind in [
        Kind::Names,
        Kind::Negatives,
        Kind::Calls,
        Kind::Sums,
        Kind::Parentheses,
        Kind::Choices,
        Kind::Branches,
        Kind::Prints,
        Kind::Declarations,
        Kind::Loops,
    ] {
        time_kind(rt, alloc, &mut arena, kind)?;
    }
    Ok(())
}
