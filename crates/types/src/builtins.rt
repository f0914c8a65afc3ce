//! The built-in functions by name, and the types of operators.

ghost use Rattle.std.specs.Prelude.{◌≡◌};
ghost use Rattle.language.specs.Scopes as scopes;
ghost use Rattle.types.specs.Known.{type_of};
ghost use Rattle.types.specs.Names as names;
ghost use Rattle.types.specs.Expressions as checks;

use crate::scope::same_text;
use crate::typed::{Builtin, VariableType};
use language::tree::{Base, Operator, Prefix, Shape};

/// Returns the built-in function with this name, or `None`.
pub fn builtin_of(text: &[u8]) -> Option<Builtin>
    ensures { result ≡ names.builtin_of text.now }
{
    if same_text(text, b"strcat".as_slice()) {
        Some(Builtin::Strcat)
    } else if same_text(text, b"fromint".as_slice()) {
        Some(Builtin::FromInt)
    } else if same_text(text, b"toint".as_slice()) {
        Some(Builtin::ToInt)
    } else if same_text(text, b"size".as_slice()) {
        Some(Builtin::Size)
    } else if same_text(text, b"printf".as_slice()) {
        Some(Builtin::Printf)
    } else if same_text(text, b"assert".as_slice()) {
        Some(Builtin::Assert)
    } else {
        None
    }
}

/// Returns the result type of an operator on two operands of one type, or `None` if it does not accept them.
pub fn gives(operator: Operator, base: Base) -> Option<Base>
    ensures { result ≡ checks.gives operator base }
{
    match (operator, base) {
        (Operator::Or | Operator::And, Base::Boolean) => Some(Base::Boolean),
        (Operator::Equal | Operator::NotEqual, _) => Some(Base::Boolean),
        (Operator::Less | Operator::AtMost | Operator::Greater | Operator::AtLeast, Base::Int) =>
            Some(Base::Boolean),
        (Operator::Plus, Base::Int) => Some(Base::Int),
        (Operator::Plus, Base::Text) => Some(Base::Text),
        (Operator::Minus | Operator::Times | Operator::Quotient | Operator::Remainder, Base::Int) =>
            Some(Base::Int),
        _ => None,
    }
}

/// Returns the type of a prefix operator, which is that of its operand and of its result.
pub fn base_of(prefix: Prefix) -> Base
    ensures { result ≡ checks.base_of prefix }
{
    match prefix {
        Prefix::Not => Base::Boolean,
        Prefix::Negative => Base::Int,
    }
}

/// Returns the type of a scalar with this base type.
pub fn one_of(base: Base) -> VariableType
    ensures { type_of result ≡ scopes.one_of base }
{
    VariableType {
        base,
        shape: Shape::Scalar,
    }
}
