//! The entry point of the parser: parses the bytes of a text into a script.

ghost use Rattle.std.specs.Prelude.{◌≡◌, ◌++◌, IfOk, IfErr, List, Ok, Option, length, map};
ghost use Rattle.lexer.specs.Items.{Lexeme};
ghost use Rattle.lexer.specs.Tokens.{Tokens};
ghost use Rattle.lexer.specs.declared.fault.LexFault.{LexFault};
ghost use Rattle.syntax_trees.specs.View.{tree_of};
ghost use Rattle.language.specs.Reads.{Reads};
ghost use Rattle.syntax.specs.Answers.{answer_of};
ghost use Rattle.syntax.specs.Endings.{ending};
ghost use Rattle.syntax.specs.Refusals.{Refuses};

use crate::error::ParseFault;
use crate::grammar::cursor::Cursor;
use crate::grammar::script::script;
use crate::grammar::stop::ParseStop;
use crate::grammar::tokens::{fault_behind, fault_of};
use lexer::token::Span;
use std::alloc::Allocator;
use syntax_trees::tree::Script;
use values::limits::{MAX_NESTING, MAX_SOURCE};

/// Converts a stop of the parser into the reported fault. A stop after the last token becomes the lexical fault there,
/// or `Unexpected` at the end of the text.
fn answer(stop: ParseStop, src: &[u8]) -> ParseFault
    ensures { (ts : List Lexeme) (fault : Option LexFault) → Tokens src.now (map Ok ts ++ ending fault) → result ≡ answer_of stop fault (length src.now) }
{
    match stop {
        ParseStop::AtEnd => match fault_of(src) {
            Some(fault) => ParseFault::Lex(fault),
            None => ParseFault::Unexpected(Span {
                from: src.len(),
                to: src.len(),
            }),
        },
        ParseStop::Unexpected(span) => ParseFault::Unexpected(span),
        ParseStop::TooNested(span) => ParseFault::TooNested(span),
        ParseStop::Memory => ParseFault::Memory,
    }
}

/// Parses a text into a script.
///
/// # Errors
///
/// Returns the first fault of the text, or `Memory` if an allocation fails.
#[tactic(auto, using(crate::proofs::scripts::Texts::begun_stops, crate::proofs::scripts::Texts::begun_faulty, crate::proofs::scripts::Texts::begun_within, crate::proofs::scripts::Texts::long_refuses, crate::proofs::scripts::Parts::begun_short, crate::proofs::scripts::Texts::begun_reads))]
pub fn parse<A: Allocator + Clone>(alloc: A, src: &[u8]) -> Result<Script<A>, ParseFault>
    ensures read { IfOk result (λ script. Reads src.now (tree_of script)) }
    ensures refused { IfErr result (λ fault. Refuses src.now fault) }
{
    if src.len() > MAX_SOURCE {
        return Err(ParseFault::TooLong(Span {
            from: MAX_SOURCE,
            to: MAX_SOURCE,
        }));
    }
    let mut cursor = Cursor::new(src);
    let script = match script(&alloc, &mut cursor, MAX_NESTING) {
        Ok(script) => script,
        Err(stop) => return Err(answer(stop, src)),
    };
    match fault_behind(src, cursor.before()) {
        Some(fault) => Err(ParseFault::Lex(fault)),
        None => Ok(script),
    }
}
