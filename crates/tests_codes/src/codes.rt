//! Codes that several tests run.
ghost use Rattle.std.specs.Prelude.{◌≡◌, ◌≤◌, IfOk, length};
ghost use Rattle.values.specs.Operators.{printf};
ghost use Rattle.task_code.specs.Code.{Assert, Print, need, no_operand, operation};
ghost use Rattle.task_code.specs.View.{act_view, entry_view};
ghost use Rattle.task_code.specs.Whole.{IsCode};
ghost use Rattle.tests_codes.specs.Codes.{assert_entry, set_entry};

use std::alloc::{AllocError, Global};
use task_code::code::{Body, Code, Opener};
use task_code::draft::Draft;
use task_code::entry::{Act, Entry, Name, Need, Owned, Variable};
use task_code::expr::{Expr, Operator};
use values::format::{Format, FormatError};
use values::value::Scalar;

/// An entry that prints a format without conversions.
fn printing(alloc: Global, format: Format) -> Act
    ensures { act_view result ≡ Print (operation (printf format) no_operand) }
{
    Act::Print(Expr::Operation(Operator::Printf(format), Vec::new(alloc)))
}

/// Code that does nothing.
pub fn empty(alloc: Global) -> Code {
    Code::of(Draft::new(alloc))
}

/// `printf(TEXT);`
fn printed_draft(alloc: Global, text: &[u8]) -> Result<Draft, FormatError>
    ensures whole { IfOk result (λ code. IsCode code) }
    ensures few { IfOk result (λ code. length code.entries ≤ 4194304) }
{
    let format = Format::read(alloc, text)?;
    let mut code = Draft::new(alloc);
    code.push_entry(Entry {
        node: 1,
        at: 0,
        offset: 0,
        priority: 0,
        needs: Vec::new(alloc),
        act: printing(alloc, format),
        reads: Vec::new(alloc),
        writes: Vec::new(alloc),
    })?;
    code.push_body(Body {
        opener: Opener::ByMain,
        makes: Vec::new(alloc),
        entries: Vec::from_array(alloc, [0])?,
    })?;
    Ok(code)
}

/// `printf(TEXT);`
pub fn printed(alloc: Global, text: &[u8]) -> Result<Code, FormatError> {
    let draft = printed_draft(alloc, text)?;
    Ok(Code::of(draft))
}

/// `printf("hello");`
pub fn hello(alloc: Global) -> Result<Code, FormatError> {
    printed(alloc, b"hello")
}

/// The scalar of node 1.
pub const X: Variable = Variable {
    node: 1,
    array: false,
};

/// Its name in its own block.
pub const NAME: Name = Name {
    up: 0,
    owned: Owned::Local(X),
};

/// `x = TRUTH;`
fn set_truth(alloc: Global, truth: bool) -> Result<Entry, AllocError>
    ensures { IfOk result (λ entry. entry_view entry ≡ set_entry truth) }
{
    Ok(Entry {
        node: 2,
        at: 0,
        offset: 0,
        priority: 0,
        needs: Vec::new(alloc),
        act: Act::Set(NAME, Expr::Constant(Scalar::Truth(truth))),
        reads: Vec::new(alloc),
        writes: Vec::from_array(alloc, [NAME])?,
    })
}

/// An entry that asserts its first answer.
fn asserting_first() -> Act
    ensures { act_view result ≡ Assert (need 0) }
{
    Act::Assert(Expr::Need(0))
}

/// `assert(x, "");`
fn assert_truth(alloc: Global) -> Result<Entry, AllocError>
    ensures { IfOk result (λ entry. entry_view entry ≡ assert_entry) }
{
    Ok(Entry {
        node: 3,
        at: 18,
        offset: 18,
        priority: 0,
        needs: Vec::from_array(alloc, [Need::Stored(NAME)])?,
        act: asserting_first(),
        reads: Vec::from_array(alloc, [NAME])?,
        writes: Vec::new(alloc),
    })
}

/// `boolean x = TRUTH; assert(x, "");`
fn asserted_draft(alloc: Global, truth: bool) -> Result<Draft, AllocError>
    ensures whole { IfOk result (λ code. IsCode code) }
    ensures few { IfOk result (λ code. length code.entries ≤ 4194304) }
{
    let mut code = Draft::new(alloc);
    code.push_entry(set_truth(alloc, truth)?)?;
    code.push_entry(assert_truth(alloc)?)?;
    code.push_body(Body {
        opener: Opener::ByMain,
        makes: Vec::from_array(alloc, [X])?,
        entries: Vec::from_array(alloc, [0, 1])?,
    })?;
    Ok(code)
}

/// `boolean x = TRUTH; assert(x, "");`
pub fn asserted(alloc: Global, truth: bool) -> Result<Code, AllocError> {
    let draft = asserted_draft(alloc, truth)?;
    Ok(Code::of(draft))
}
