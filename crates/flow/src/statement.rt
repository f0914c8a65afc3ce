//! Statements of a flow.

use crate::cell::{Call, CellPart, OuterCell};
use crate::name::Name;
use language::tree::Shape;
use std::alloc::Allocator;

/// A declared variable, input, output or loop variable: its node, its shape and the bytes of its name.
#[derive(Drop)]
pub struct Variable<A: Allocator> {
    pub node: u32,
    pub shape: Shape,
    pub name: Vec<u8, A>,
}

impl<A: Allocator> Variable<A> {
    ghost use Rattle.std.specs.Prelude.{◌≡◌};
    ghost use Rattle.flow.specs.Shapes.{is_array};

    /// Returns true if the variable is an array.
    pub fn is_array(&self) -> bool
        ensures { result ≡ is_array self.now.shape }
    {
        match self.shape {
            Shape::Array(_) => true,
            Shape::Scalar => false,
        }
    }
}

/// A `wait` that is the only content of another `wait`: the offset of its first token, its node, and the names that it
/// waits for.
#[derive(Drop)]
pub struct Header<A: Allocator> {
    pub at: usize,
    pub node: u32,
    pub names: Vec<Name, A>,
}

/// A range, with both ends included.
#[derive(Drop)]
pub struct Range<A: Allocator> {
    pub low: OuterCell<A>,
    pub high: OuterCell<A>,
    /// The step; a missing step is 1.
    pub step: Option<OuterCell<A>>,
}

/// The action of a statement, with its outermost cells. A declaration with a right side is two statements, so no action
/// has both.
#[cycle(statement)]
#[derive(Drop)]
pub enum Action<A: Allocator> {
    Declare(Variable<A>),
    /// A call of a composite function that assigns variables, or none. The parts are evaluated before the call; inner
    /// parts precede outer parts.
    Call {
        priority: i32,
        parts: Vec<CellPart<A>, A>,
        call: Box<Call<A>, A>,
    },
    /// An assignment to a scalar.
    Assign {
        target: Name,
        right: Box<OuterCell<A>, A>,
    },
    /// An assignment of all elements of an array, from another array or a literal.
    Fill {
        array: Name,
        right: Box<OuterCell<A>, A>,
    },
    /// An assignment of one array element.
    Insert {
        array: Name,
        index: Box<OuterCell<A>, A>,
        right: Box<OuterCell<A>, A>,
    },
    /// A `printf`; the cell is its line.
    Print {
        priority: i32,
        line: Box<OuterCell<A>, A>,
    },
    /// An `assert`; the cell is its check.
    Assert {
        priority: i32,
        check: Box<OuterCell<A>, A>,
    },
    /// An `if` without `else`.
    When {
        condition: Box<OuterCell<A>, A>,
        then: Box<Block<A>, A>,
    },
    /// An `if` with `else`. An `else if` is a block of one statement.
    Choose {
        condition: Box<OuterCell<A>, A>,
        then: Box<Block<A>, A>,
        other: Box<Block<A>, A>,
    },
    /// A `foreach` over a range: the value, and the index of the turn from 0 if it has a name.
    Range {
        range: Box<Range<A>, A>,
        value: Variable<A>,
        turn: Option<Variable<A>>,
        body: Box<Block<A>, A>,
    },
    /// A `foreach` over an array: the element, and its key if it has a name.
    Each {
        array: Name,
        value: Variable<A>,
        key: Option<Variable<A>>,
        body: Box<Block<A>, A>,
    },
    /// A `wait`: the names that it waits for, the merged inner waits, outermost first, and the content of the innermost
    /// wait. Each inner wait is the only content of the wait around it.
    Wait {
        names: Vec<Name, A>,
        inner: Vec<Header<A>, A>,
        content: Box<Block<A>, A>,
    },
}

/// The statements in braces, with the offset of the `{`. For an `else if` the offset is that of its `if`, and for the
/// script's own block it is 0.
#[cycle(statement)]
#[derive(Drop)]
pub struct Block<A: Allocator> {
    pub from: usize,
    pub statements: Vec<Statement<A>, A>,
}

/// A statement: the offset of its first token, its node and its action.
#[cycle(statement)]
#[derive(Drop)]
pub struct Statement<A: Allocator> {
    pub at: usize,
    pub node: u32,
    pub action: Action<A>,
}
