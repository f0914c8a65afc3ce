//! What the lines of trees and flows share: a text under construction, and the words of types and operators.

pub mod page;
pub mod words;
