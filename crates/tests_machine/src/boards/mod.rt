//! Tests of the board and of what its items compute.

mod board_tests;
mod board_work_tests;
mod given_back_tests;
mod remains_tests;
