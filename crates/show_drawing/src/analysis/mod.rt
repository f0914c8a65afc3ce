//! Analysis of a script for its drawing: its statements and blocks in the order of the text, the statements that write
//! and read each variable, and the order of its functions.

pub mod call_order;
pub mod scene;
pub mod traffic;
pub mod uses;
pub mod walk;
