//! Trees that are numbered where they lie.

ghost use Rattle.std.specs.Prelude.{◌≡◌, IfOk};
ghost use Rattle.syntax_trees.specs.View.{part_of};
ghost use Rattle.language.specs.Numbered.{part_size};

use crate::asserts::is_equal;
use lexer::token::Span;
use std::alloc::{AllocError, Global};
use std::process::Abort;
use std::test::Fail;
use syntax::part;
use syntax_trees::stmt;
use syntax_trees::tree::{Base, Decl, Item, Name, Shape, StmtKind};

/// `int x;` as a part of a script, with these numbers of the statement and of the name.
fn declaration(alloc: Global, statement: u32, word: u32) -> Result<Item<Global>, AllocError>
    ensures { IfOk result (λ i. part_size (part_of i) ≡ 2) }
{
    let name = Name {
        number: word,
        span: Span { from: 4, to: 5 },
        text: Vec::from_slice(alloc, b"x")?,
    };
    let decl = Decl {
        base: Base::Int,
        name,
        shape: Shape::Scalar,
    };
    let mut declaration = stmt(Span { from: 0, to: 3 }, 6, StmtKind::Declare(decl, None));
    declaration.number = statement;
    Ok(Item::Statement(Box::new(alloc, declaration)?))
}

/// A part is numbered from the given number on, and the next number is the one after its own.
#[test]
fn a_part_takes_the_numbers_behind(rt: HostRuntime) -> Result<(), Fail> {
    let mut item = declaration(rt.alloc(), 9, 9)?;
    let next = part(&mut item, 5);
    let wanted = declaration(rt.alloc(), 5, 6)?;
    is_equal(&rt, next, 7);
    assert!(rt; item == wanted);
    Ok(())
}
