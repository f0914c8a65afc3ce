//! Entries of code: the needs of each, its act, and its rights to read and write.
ghost use Rattle.std.specs.Prelude.{◌≡◌};
ghost use Rattle.task_code.specs.View.{act_view};
ghost use Rattle.task_code.specs.Code.{kind_of};

use crate::expr::Expr;
use values::key::Key;
use values::value::Scalar;
pub use work_queue::entry::Kind;

/// A variable with a datum in each instance of its block: its node in the source, and whether it is an array.
#[derive(Clone, Copy, PartialEq, Eq, Debug, Drop)]
pub struct Variable {
    pub node: u32,
    pub array: bool,
}

/// A variable or parameter that belongs to a block.
#[derive(Clone, Copy, PartialEq, Eq, Debug, Drop)]
pub enum Owned {
    Local(Variable),
    /// An input or output of the function, and whether it is an array. Its index counts the inputs first, then the
    /// outputs.
    Parameter(usize, bool),
}

/// A name as seen from a block: its owner lies `up` steps of the path further out.
#[derive(Clone, Copy, PartialEq, Eq, Debug, Drop)]
pub struct Name {
    pub up: usize,
    pub owned: Owned,
}

/// A need: one input that an entry waits for.
#[derive(Debug, Drop)]
pub enum Need {
    /// A scalar that is stored.
    Stored(Name),
    /// An array that is closed.
    Closed(Name),
    /// An element of the array, at the value of the scalar.
    At(Name, Name),
    /// An element of the array, at the key.
    AtKey(Name, Key),
}

/// An argument that a call passes for an input.
#[derive(Drop)]
pub enum Argument {
    Named(Name),
    /// A literal, which has no datum.
    Fixed(Scalar),
}

/// The body of a loop, and the nodes of its variables: the value, and the key or number of the turn.
#[derive(Clone, Copy, PartialEq, Eq, Debug, Drop)]
pub struct Loop {
    pub body: u32,
    pub value: u32,
    pub turn: Option<u32>,
}

/// One of the `wait` statements that were merged into one entry: the offset of the statement, and its needs.
#[derive(Debug, Drop)]
pub struct Header {
    pub at: usize,
    pub needs: Vec<Need>,
}

/// The act of an entry: its effect when it ends.
#[derive(Drop)]
pub enum Act {
    /// Stores the value of an argument, condition, bound, index or right side.
    Cell(Expr),
    /// Stores the element that the entry waited for.
    Read,
    /// Opens the body of a function with these input arguments, and with the names that receive its outputs.
    Call {
        body: u32,
        inputs: Vec<Argument>,
        outputs: Vec<Name>,
    },
    /// Stores a scalar.
    Set(Name, Expr),
    /// Inserts the elements of an array literal.
    Fill(Name, Vec<Expr>),
    /// Inserts the elements of an array.
    Copy(Name),
    /// Inserts one element: the index, and the right side.
    InsertElement(Name, Expr, Expr),
    Print(Expr),
    Assert(Expr),
    /// Opens a branch: one body if the condition is true, and an optional one if it is false.
    If(Expr, u32, Option<u32>),
    /// Opens the turns of a range, given its low end, its high end and its step.
    Range(Expr, Expr, Expr, Loop),
    /// Opens one turn for each element of an array.
    Each(Loop),
    /// Opens the block of a `wait`.
    Wait(Vec<Header>, u32),
}

/// An entry of a body.
#[derive(Drop)]
pub struct Entry {
    /// The node of the variable that receives the value of a cell or of an element read.
    pub node: u32,
    /// The offset of the entry's statement, where faults are reported.
    pub at: usize,
    /// The offset that a listing shows, and that the paths of the blocks opened by this entry contain.
    pub offset: usize,
    pub priority: i32,
    pub needs: Vec<Need>,
    pub act: Act,
    /// The names that the entry may read, itself or through entries that it leads to.
    pub reads: Vec<Name>,
    /// The names that the entry may write, itself or through entries that it leads to.
    pub writes: Vec<Name>,
}

impl Act {
    /// Returns the kind of an entry with this act.
    pub fn kind(&self) -> Kind
        ensures { result ≡ kind_of (act_view self.now) }
    {
        match self {
            Act::Cell(_) | Act::Set(_, _) | Act::Fill(_, _) | Act::Print(_) | Act::Assert(_) => {
                Kind::Leaf
            }
            Act::Read
            | Act::Call { .. }
            | Act::Copy(_)
            | Act::InsertElement(_, _, _)
            | Act::If(_, _, _)
            | Act::Range(_, _, _, _)
            | Act::Each(_)
            | Act::Wait(_, _) => Kind::Control,
        }
    }
}
