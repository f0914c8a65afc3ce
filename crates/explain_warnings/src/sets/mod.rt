//! Sets as bit vectors: of the variables that are read or written, and of the functions that are called.

pub mod calls;
pub mod marks;
