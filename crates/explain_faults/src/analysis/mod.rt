//! Analysis of a fault: the operation that has it, with the values of its operands, the keys of its array, and the
//! reason.

pub mod keys;
pub mod operations;
pub mod parts;
pub mod reasons;
