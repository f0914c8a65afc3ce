//! Tests of items: their entries, data and effects, and which of them are ready.

mod board_code_tests;
mod board_data_tests;
mod board_effects_tests;
mod board_items_tests;
