//! Expressions over the answers to the needs of an entry.
ghost use Rattle.std.specs.Prelude.{◌≡◌};
ghost use Rattle.values.specs.Op.{operation_of};
ghost use Rattle.task_code.specs.View.{operation_view};

use values::format::Format;
use values::op::{Factor, Op, Order, Sign};
use values::value::Scalar;

/// The operator of an expression, like `Op` of `values`, but owning its data.
#[derive(Drop)]
pub enum Operator {
    /// The signs between the operands of a chain of `+` and `-`.
    Sum(Vec<Sign>),
    /// The operators between the operands of a chain of `*`, `%/` and `%%`.
    Product(Vec<Factor>),
    Compare(Order),
    Equal,
    Unequal,
    And,
    Or,
    Not,
    Negate,
    Join,
    FromInt,
    ToInt,
    Size,
    Printf(Format),
    Assert,
    Literal,
}

/// An expression: a constant, the answer to a need (by its index in the needs of the entry), or an operation on
/// operands.
#[cycle(expr)]
#[derive(Drop)]
pub enum Expr {
    Constant(Scalar),
    Need(u32),
    Operation(Operator, Vec<Expr>),
}

impl Operator {
    /// Returns the operator in the form that `values` applies.
    pub fn to_op(&self) -> Op<'_>
        ensures { operation_of result ≡ operation_view self.now }
    {
        match self {
            Operator::Sum(signs) => Op::Sum(signs.as_slice()),
            Operator::Product(factors) => Op::Product(factors.as_slice()),
            Operator::Compare(order) => Op::Compare(*order),
            Operator::Equal => Op::Equal,
            Operator::Unequal => Op::Unequal,
            Operator::And => Op::And,
            Operator::Or => Op::Or,
            Operator::Not => Op::Not,
            Operator::Negate => Op::Negate,
            Operator::Join => Op::Join,
            Operator::FromInt => Op::FromInt,
            Operator::ToInt => Op::ToInt,
            Operator::Size => Op::Size,
            Operator::Printf(format) => Op::Printf(format),
            Operator::Assert => Op::Assert,
            Operator::Literal => Op::Literal,
        }
    }
}
