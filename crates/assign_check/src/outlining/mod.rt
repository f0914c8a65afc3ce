//! The outline of a script: its declarations, uses, `if`s, loops and `wait`s.

pub mod blocks;
pub mod outline;
pub mod parts;
pub mod reads;
