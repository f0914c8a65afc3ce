//! The parts of the lines of a flow: cells, calls and the names of variables.

pub mod flow_cells;
pub mod flow_names;
pub mod flow_page;
