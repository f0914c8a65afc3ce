//! Collection of the occurrences of a script, in expressions and in statements, in the order of the text.

pub mod name_uses;
pub mod reads;
