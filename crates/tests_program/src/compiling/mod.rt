//! Tests from the bytes of a script to its code.

mod arena_tests;
mod code_tests;
mod listing_tests;
mod refusals_tests;
