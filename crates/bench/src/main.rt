//! Times parts of the repository and whole scripts: `bench WORD` times one part, `bench NAME` the scripts of a name, `bench NAME NUMBER`
//! one script, and `bench` lists the words.
#![tactic(auto)]

mod data;
mod holes;
mod laps;
mod queue;
mod scripts;
mod tokens;
mod trees;
mod waits;
mod watch;

use std::{env, io};

fn main(rt: HostRuntime) -> io::Result<()> {
    let mut words = env::args(&rt)?;
    let Some(word) = words.nth(1) else {
        println!(rt; "lexer parsing pool queue rules store")?;
        return println!(rt; "all flat fib chain array deep nested calls each");
    };
    match word.as_str() {
        "lexer" => tokens::time(&rt, rt.alloc()),
        "parsing" => trees::time(&rt, rt.alloc()),
        "pool" => holes::time(&rt, rt.alloc()),
        "queue" => queue::time(&rt, rt.alloc()),
        "rules" => waits::time(&rt, rt.alloc()),
        "store" => data::time(&rt, rt.alloc()),
        name => match words.next() {
            None => laps::time(&rt, rt.alloc(), name, None),
            Some(number) => match number.as_str().parse::<u32>() {
                Ok(number) => laps::time(&rt, rt.alloc(), name, Some(number)),
                Err(_) => println!(rt; "{number} is not a number"),
            },
        },
    }
}
