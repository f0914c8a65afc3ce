//! Names, expressions and cells that several tests take.

use crate::lists::{one, two};
use flow::cell::{Call, Cell, CellForm, CellPart};
use flow::expression::{Expr, Operation};
use flow::name::{Name, NameBinding};
use flow::script::Function;
use flow::statement::{Block, Statement, Variable};
use language::tree::{Keys, Shape};
use std::alloc::{AllocError, Global};
use values::op::Sign;

/// The scalar of a node, in its own block.
pub fn scalar(node: u32) -> Name {
    Name {
        up: 0,
        what: NameBinding::Local(node),
        shape: Shape::Scalar,
    }
}

/// The array of a node, in its own block.
pub fn array(node: u32) -> Name {
    Name {
        up: 0,
        what: NameBinding::Local(node),
        shape: Shape::Array(Keys::Numbers),
    }
}

/// The first output of a function, seen from a block of its body.
pub fn output() -> Name {
    Name {
        up: 1,
        what: NameBinding::Output(0),
        shape: Shape::Scalar,
    }
}

/// `left + right`
pub fn sum(
    alloc: Global,
    left: Expr<Global>,
    right: Expr<Global>,
) -> Result<Expr<Global>, AllocError> {
    let operands = two(alloc, left, right)?;
    let signs = Vec::from_array(alloc, [Sign::Plus])?;
    Ok(Expr::Operation(Operation::Sum(signs), operands))
}

/// A cell that computes this.
pub fn computed(node: u32, expr: Expr<Global>) -> Cell<Global> {
    Cell {
        node,
        at: 10 + node as usize,
        form: CellForm::Compute(expr),
    }
}

/// The cell of node 4: the element of the array of node 1 at the index 6, which is the cell of node 3.
pub fn element() -> Cell<Global> {
    Cell {
        node: 4,
        at: 14,
        form: CellForm::Read {
            array: array(1),
            index: 3,
        },
    }
}

/// The parts of that element: its index, which is a literal, and itself.
pub fn element_parts(alloc: Global) -> Result<Vec<CellPart<Global>>, AllocError> {
    two(
        alloc,
        CellPart::Inner(computed(3, Expr::Number(6))),
        CellPart::Inner(element()),
    )
}

/// A call of the first function: the cell of node 4 goes in, and the scalar of node 5 comes out.
pub fn call(alloc: Global) -> Result<Call<Global>, AllocError> {
    let inputs = one(alloc, scalar(4))?;
    let outputs = one(alloc, scalar(5))?;
    Ok(Call {
        at: 9,
        function: 0,
        inputs,
        outputs,
    })
}

/// That call alone.
pub fn call_part(alloc: Global) -> Result<Vec<CellPart<Global>>, AllocError> {
    let call = call(alloc)?;
    one(alloc, CellPart::Calls(call))
}

/// A list of one variable, a scalar without a name.
fn variables(alloc: Global, node: u32) -> Result<Vec<Variable<Global>>, AllocError> {
    let variable = Variable {
        node,
        shape: Shape::Scalar,
        name: Vec::new(alloc),
    };
    one(alloc, variable)
}

/// A block of these statements.
fn block(statements: Vec<Statement<Global>>) -> Block<Global> {
    Block {
        from: 0,
        statements,
    }
}

/// A function with a scalar for input and one for output.
fn function(alloc: Global) -> Result<Function<Global>, AllocError> {
    let inputs = variables(alloc, 20)?;
    let outputs = variables(alloc, 21)?;
    Ok(Function {
        at: 0,
        name: Vec::new(alloc),
        inputs,
        outputs,
        body: block(Vec::new(alloc)),
    })
}

/// That function alone.
pub fn functions(alloc: Global) -> Result<Vec<Function<Global>>, AllocError> {
    let function = function(alloc)?;
    one(alloc, function)
}
