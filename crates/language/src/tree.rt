//! Types shared by the grammar and the syntax trees: operators, levels, prefixes, base types and shapes.

/// A binary operator (Swift/T Guide, on operators).
#[derive(Clone, Copy, Debug, PartialEq, Eq)]
pub enum Operator {
    /// `||`
    Or,
    /// `&&`
    And,
    /// `==`
    Equal,
    /// `!=`
    NotEqual,
    /// `<`
    Less,
    /// `<=`
    AtMost,
    /// `>`
    Greater,
    /// `>=`
    AtLeast,
    /// `+`, for numbers and strings
    Plus,
    /// `-`
    Minus,
    /// `*`
    Times,
    /// `%/`, integer division
    Quotient,
    /// `%%`
    Remainder,
}

impl Operator {
    ghost use Rattle.std.specs.Prelude.{◌≡◌};
    ghost use Rattle.language.specs.Kinds.{level_of};

    /// Returns the level of the operator, which determines how tightly it binds.
    pub fn level(self) -> Level
        ensures { result ≡ level_of self }
    {
        match self {
            Operator::Or => Level::Or,
            Operator::And => Level::And,
            Operator::Equal | Operator::NotEqual => Level::Equality,
            Operator::Less | Operator::AtMost | Operator::Greater | Operator::AtLeast =>
                Level::Order,
            Operator::Plus | Operator::Minus => Level::Sum,
            Operator::Times | Operator::Quotient | Operator::Remainder => Level::Product,
        }
    }
}

/// Precedence levels of the binary operators, from the loosest to the tightest.
#[derive(Clone, Copy, Debug, PartialEq, Eq)]
pub enum Level {
    Or,
    And,
    Equality,
    Order,
    Sum,
    Product,
}

/// A prefix operator.
#[derive(Clone, Copy, Debug, PartialEq, Eq)]
pub enum Prefix {
    /// `!`
    Not,
    /// `-`
    Negative,
}

/// The type of a scalar or of an array's elements (Swift/T Guide, on types).
#[derive(Clone, Copy, Debug, PartialEq, Eq)]
pub enum Base {
    /// `int`
    Int,
    /// `string`
    Text,
    /// `boolean`
    Boolean,
}

/// The type of the keys of an array.
#[derive(Clone, Copy, Debug, PartialEq, Eq)]
pub enum Keys {
    /// `int x[]`
    Numbers,
    /// `int x[string]`
    Texts,
}

impl Keys {
    ghost use Rattle.std.specs.Prelude.{◌≡◌};
    ghost use Rattle.language.specs.Kinds.{base_of_keys};

    /// Returns the type of an index.
    pub fn base(self) -> Base
        ensures { result ≡ base_of_keys self }
    {
        match self {
            Keys::Numbers => Base::Int,
            Keys::Texts => Base::Text,
        }
    }
}

/// The shape of a variable: scalar or array.
#[derive(Clone, Copy, Debug, PartialEq, Eq)]
pub enum Shape {
    Scalar,
    Array(Keys),
}
