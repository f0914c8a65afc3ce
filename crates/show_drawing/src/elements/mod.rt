//! The elements of a drawing: boxes, frames and arrows, with their names and labels.

pub mod context;
pub mod edges;
pub mod frames;
