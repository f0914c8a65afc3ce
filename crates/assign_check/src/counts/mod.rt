//! Faults of branches: the numbers of assignments that the control paths through a block can make.

pub mod count;
pub mod numbers;
pub mod sets;
