//! The words of types and operators, as a script spells them.

use syntax_trees::tree::{Base, Keys, Operator, Prefix, Shape};
use values::op::{Factor, Order, Sign};

/// Returns the word of a base type.
pub fn base_word(base: Base) -> &'static str {
    match base {
        Base::Int => "int",
        Base::Text => "string",
        Base::Boolean => "boolean",
    }
}

/// Returns the brackets of an array, or nothing for a scalar.
pub fn brackets(shape: Shape) -> &'static str {
    match shape {
        Shape::Scalar => "",
        Shape::Array(Keys::Numbers) => "[]",
        Shape::Array(Keys::Texts) => "[string]",
    }
}

/// Returns a truth value as a word.
pub fn truth_word(truth: bool) -> &'static str {
    if truth { "true" } else { "false" }
}

/// Returns the characters of a prefix operator.
pub fn prefix_word(prefix: Prefix) -> &'static str {
    match prefix {
        Prefix::Not => "!",
        Prefix::Negative => "-",
    }
}

/// Returns the characters of a binary operator.
pub fn operator_word(operator: Operator) -> &'static str {
    match operator {
        Operator::Or => "||",
        Operator::And => "&&",
        Operator::Equal => "==",
        Operator::NotEqual => "!=",
        Operator::Less => "<",
        Operator::AtMost => "<=",
        Operator::Greater => ">",
        Operator::AtLeast => ">=",
        Operator::Plus => "+",
        Operator::Minus => "-",
        Operator::Times => "*",
        Operator::Quotient => "%/",
        Operator::Remainder => "%%",
    }
}

/// Returns the characters of an operator of a sum, between spaces.
pub fn sign_word(sign: Sign) -> &'static str {
    match sign {
        Sign::Plus => " + ",
        Sign::Minus => " - ",
    }
}

/// Returns the characters of an operator of a product, between spaces.
pub fn factor_word(factor: Factor) -> &'static str {
    match factor {
        Factor::Times => " * ",
        Factor::Divide => " %/ ",
        Factor::Remainder => " %% ",
    }
}

/// Returns the characters of a comparison, between spaces.
pub fn order_word(order: Order) -> &'static str {
    match order {
        Order::Less => " < ",
        Order::LessOrEqual => " <= ",
        Order::Greater => " > ",
        Order::GreaterOrEqual => " >= ",
    }
}
