//! Tests of runs, of traces that are run again, and of the board after each event.

mod order_tests;
mod sink;
mod stops_tests;
mod stored_tests;
mod strangers_tests;
mod text_keys_tests;
