//! Parser of scripts: imports, functions and statements outside blocks.

ghost use Rattle.std.specs.Prelude.{◌≡◌, ◌+◌, ◌*◌, ◌^◌, ◌<◌, ◌≤◌, OnOk, length, List};
ghost use Rattle.syntax_trees.specs.View.{part_of, tree_of};
ghost use Rattle.lexer.specs.Given.{lexeme_of};
ghost use Rattle.syntax.specs.Answers.{Gives, GivesNumbered};
ghost use Rattle.syntax.specs.Reading.{read_part, read_import, read_module, read_function, at_function, read_script};

use crate::grammar::cursor::Cursor;
use crate::grammar::expression::name;
use crate::grammar::statement::{block, parameters, statement};
use crate::grammar::stop::ParseStop;
use lexer::token::{Token, TokenKind};
use std::alloc::Allocator;
use syntax_trees::tree::{Function, Item, Script};

/// Parses the name of a module that may be imported.
#[tactic(auto, using(crate::proofs::spellings::Spelling::spells_true, crate::proofs::spellings::Spelling::spells_false), unfolding(crate::specs::Reading::read_module))]
fn module<'a>(cursor: &mut Cursor<'a>) -> Result<Token<'a>, ParseStop>
    ensures reads { Gives lexeme_of result cursor.new (read_module cursor.old) }
    ensures shorter { OnOk result (length cursor.new.rest < length cursor.old.rest) }
{
    if cursor.at(TokenKind::String) {
        return cursor.take(TokenKind::String);
    }
    let token = cursor.take(TokenKind::Name)?;
    if token.text == b"io".as_slice() || token.text == b"assert".as_slice() {
        Ok(token)
    } else {
        Err(ParseStop::Unexpected(token.span))
    }
}

#[tactic(auto, unfolding(crate::specs::Reading::read_import))]
fn import<A: Allocator + Clone>(cursor: &mut Cursor<'_>) -> Result<Item<A>, ParseStop>
    ensures reads { Gives part_of result cursor.new (read_import cursor.old) }
    ensures shorter { OnOk result (length cursor.new.rest < length cursor.old.rest) }
{
    let first = cursor.first();
    cursor.take(TokenKind::Import)?;
    module(cursor)?;
    cursor.take(TokenKind::Semicolon)?;
    Ok(Item::Import(first))
}

#[tactic(auto, unfolding(crate::specs::Reading::read_function))]
fn function<A: Allocator + Clone>(
    alloc: &A,
    cursor: &mut Cursor<'_>,
    depth: u32,
) -> Result<Item<A>, ParseStop>
    ensures reads { Gives part_of result cursor.new (read_function depth cursor.old) }
    ensures shorter { OnOk result (length cursor.new.rest < length cursor.old.rest) }
{
    let first = cursor.first();
    let outputs = parameters(alloc, cursor, depth)?;
    let name = name(alloc, cursor)?;
    let inputs = parameters(alloc, cursor, depth)?;
    let body = block(alloc, cursor, depth)?;
    let function = Function {
        number: 0,
        first,
        to: cursor.before(),
        outputs,
        name,
        inputs,
        body,
    };
    Ok(Item::Function(Box::new(alloc.clone()?, function)?))
}

#[tactic(auto, using(crate::proofs::statements::Statements::command_same), unfolding(crate::specs::Reading::read_part, crate::specs::Reading::at_function))]
fn part<A: Allocator + Clone>(
    alloc: &A,
    cursor: &mut Cursor<'_>,
    depth: u32,
) -> Result<Item<A>, ParseStop>
    ensures reads { Gives part_of result cursor.new (read_part depth cursor.old) }
    ensures shorter { OnOk result (length cursor.new.rest < length cursor.old.rest) }
{
    if cursor.at(TokenKind::Import) {
        return import(cursor);
    }
    if cursor.at(TokenKind::OpenRound) && !cursor.second(TokenKind::Name) {
        return function(alloc, cursor, depth);
    }
    let stmt = Box::new(alloc.clone()?, statement(alloc, cursor, depth)?)?;
    Ok(Item::Statement(stmt))
}

/// Parses all remaining tokens as a script. Each part is numbered as soon as it is read.
#[tactic(auto, unfolding(crate::specs::Reading::read_script))]
pub fn script<A: Allocator + Clone>(
    alloc: &A,
    cursor: &mut Cursor<'_>,
    depth: u32,
) -> Result<Script<A>, ParseStop>
    requires { 2 * length cursor.old.rest + 1 < 2 ^ 32 }
    ensures { GivesNumbered tree_of result cursor.new (read_script depth cursor.old) }
{
    let mut items = Vec::new(alloc.clone()?);
    let mut next = 1u32;
    while !cursor.is_empty() {
        let mut item = part(alloc, cursor, depth)?;
        next = crate::part(&mut item, next);
        items.push(item)?;
    }
    Ok(Script { items })
}
