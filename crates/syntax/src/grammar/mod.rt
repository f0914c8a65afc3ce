//! A cursor over the tokens of a text, and a function for each rule of the grammar.

pub mod cursor;
mod expression;
mod kinds;
pub mod script;
mod statement;
pub mod stop;
pub mod tokens;
