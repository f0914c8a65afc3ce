//! The result of the check: what each name of a script refers to, by node number.
ghost use Rattle.std.specs.Prelude.{◌≡◌, ℕ, IfOk, OnOk, cond, nat_eq, slice_get};
ghost use Rattle.types.specs.Typed.{table_of, reference_name, callee_name, or_nothing, meaning_at, settled_at};

use language::tree::{Base, Shape};
use std::alloc::{AllocError, Global};

/// A built-in function.
#[derive(Clone, Copy, Debug, PartialEq, Eq)]
pub enum Builtin {
    Strcat,
    FromInt,
    ToInt,
    Size,
    Printf,
    Assert,
}

/// The function that a call refers to: a function of the script, by its position among them, or a built-in one.
#[derive(Clone, Copy, Debug, PartialEq, Eq)]
pub enum Callee {
    Function(usize),
    BuiltIn(Builtin),
}

/// The kind of a variable in the block that owns it: declared at a node, or an input or output of a function, by its
/// position.
#[derive(Clone, Copy, Debug, PartialEq, Eq)]
pub enum Binding {
    Local(u32),
    Input(usize),
    Output(usize),
}

/// The variable that a name refers to: the number of blocks between its use and its owner, and its binding there.
#[derive(Clone, Copy, Debug, PartialEq, Eq)]
pub struct Reference {
    pub up: usize,
    pub what: Binding,
}

/// The type of a variable: a base type and a shape. For an array the base type is that of its elements.
#[derive(Clone, Copy, Debug, PartialEq, Eq)]
pub struct VariableType {
    pub base: Base,
    pub shape: Shape,
}

/// The types of the elements and of the keys of an array.
#[derive(Clone, Copy)]
pub struct ElementTypes {
    pub value: Base,
    pub key: Base,
}

/// What a name refers to: a variable with its shape, a called function, or nothing.
#[derive(Clone, Copy, Debug, PartialEq, Eq)]
pub enum NameMeaning {
    Nothing,
    Variable(Reference, Shape),
    Called(Callee),
}

/// The node number of a name with its meaning.
#[derive(Clone, Copy, Debug, PartialEq, Eq)]
pub struct NameEntry {
    pub number: u32,
    pub meaning: NameMeaning,
}

/// The meaning of each name of a script, by node number.
///
/// A vector indexed by node number; nodes that are not names have the meaning `Nothing`.
#[derive(Debug, Drop)]
pub struct Typed {
    meanings: Vec<NameMeaning>,
}

impl Typed {
    /// Returns the variable that the name at a node refers to. At any other node the result is a default without
    /// meaning.
    pub fn name(&self, number: u32) -> Reference
        ensures { reference_name result ≡ (table_of self.now).name_of number }
    {
        match self.meanings.get(number as usize) {
            Some(NameMeaning::Variable(reference, _)) => *reference,
            _ => Reference {
                up: 0,
                what: Binding::Local(0),
            },
        }
    }

    /// Returns the shape of the variable that the name at a node refers to. At any other node the result is `Scalar`.
    pub fn shape(&self, number: u32) -> Shape
        ensures { result ≡ (table_of self.now).shape_of number }
    {
        match self.meanings.get(number as usize) {
            Some(NameMeaning::Variable(_, shape)) => *shape,
            _ => Shape::Scalar,
        }
    }

    /// Returns the function that the called name at a node refers to. At any other node the result is a default without
    /// meaning.
    pub fn callee(&self, number: u32) -> Callee
        ensures { callee_name result ≡ (table_of self.now).callee_of number }
    {
        match self.meanings.get(number as usize) {
            Some(NameMeaning::Called(callee)) => *callee,
            _ => Callee::Function(0),
        }
    }
}

/// Creates the table from recorded names: the last entry of each number counts, and any other number has the meaning
/// `Nothing`.
///
/// # Errors
///
/// Returns `AllocError` if an allocation fails.
pub fn by_number(alloc: Global, settled: &[NameEntry]) -> Result<Typed, AllocError>
    ensures { IfOk result (λ typed. (number : ℕ) → meaning_at typed number ≡ settled_at settled.now number NameMeaning.Nothing) }
{
    let mut meanings = Vec::new(alloc);
    for one in settled {
        place(&mut meanings, one.number as usize, one.meaning)?;
    }
    Ok(Typed { meanings })
}

/// Stores a meaning at its number, and extends the table with `Nothing` as far as needed.
///
/// # Errors
///
/// Returns `AllocError` if an allocation fails.
fn place(
    meanings: &mut Vec<NameMeaning>,
    number: usize,
    meaning: NameMeaning,
) -> Result<(), AllocError>
    ensures { OnOk result ((other : ℕ) → or_nothing (slice_get meanings.new.items other)
        ≡ cond (nat_eq number other) meaning (or_nothing (slice_get meanings.old.items other))) }
{
    for _ in meanings.len()..number {
        meanings.push(NameMeaning::Nothing)?;
    }
    if number < meanings.len() {
        meanings[number] = meaning;
    } else {
        meanings.push(meaning)?;
    }
    Ok(())
}
