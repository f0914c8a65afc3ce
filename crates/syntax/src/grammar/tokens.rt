//! Lookup of the lexical fault after the last token of a text.

ghost use Rattle.std.specs.Prelude.{◌≡◌, ◌≤◌, ◌++◌, List, Option, length, map, Ok};
ghost use Rattle.lexer.specs.Items.{Lexeme, ends_at};
ghost use Rattle.lexer.specs.Tokens.{Tokens};
ghost use Rattle.lexer.specs.declared.fault.LexFault.{LexFault};
ghost use Rattle.syntax.specs.Endings.{ending};

use lexer::Lexer;
use lexer::fault::LexFault;

/// Returns the lexical fault that ends the tokens of a text, if there is one.
pub fn fault_of(source: &[u8]) -> Option<LexFault>
    ensures { (ts : List Lexeme) (fault : Option LexFault) → Tokens source.now (map Ok ts ++ ending fault) → result ≡ fault }
{
    let mut lexer = Lexer::new(source);
    while let Some(item) = lexer.next() {
        match item {
            Ok(_) => {}
            Err(fault) => return Some(fault),
        }
    }
    None
}

/// Returns the lexical fault after the last token, which ends at `to`, if there is one. Nothing before `to` is read
/// again.
pub fn fault_behind(source: &[u8], to: usize) -> Option<LexFault>
    requires { to ≤ length source.now }
    ensures { (ts : List Lexeme) (fault : Option LexFault) → Tokens source.now (map Ok ts ++ ending fault) → ends_at 0 ts ≡ to → result ≡ fault }
{
    match Lexer::behind(source, to).next() {
        Some(Err(fault)) => Some(fault),
        _ => None,
    }
}
