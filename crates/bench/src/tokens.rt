//! Times of the tokens of 1 MiB.

use lexer::Lexer;
use std::alloc::{AllocError, Global};
use std::io;
use std::time::{Clock, Instant};

/// 1 MiB of statements: 16384 lines of 64 bytes.
fn script(alloc: Global) -> Result<Vec<u8>, AllocError> {
    let line = b"foreach k in [0:9] { printf(\"%i %s\\n\", k + A[k], name_1); } //!\n";
    let mut text = Vec::new(alloc);
    for _ in 0..16384u32 {
        text.extend_from_slice(line.as_slice())?;
    }
    Ok(text)
}

fn count_tokens(text: &[u8]) -> u64 {
    let mut lexer = Lexer::new(text);
    let mut count = 0u64;
    while let Some(Ok(_)) = lexer.next() {
        count = count.wrapping_add(1);
    }
    count
}

/// Prints the time of reading the tokens once.
pub fn time(rt: &(impl Clock + Print), alloc: Global) -> io::Result<()> {
    let text = script(alloc)?;
    let start = Instant::now(rt)?;
    let tokens = count_tokens(text.as_slice());
    let micros = start.elapsed(rt)?.as_micros();
    println!(rt;
        "{} bytes, {tokens} tokens: {micros} microseconds",
        text.len()
    )
}
