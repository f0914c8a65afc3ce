//! Tests of codes, their rights and their events.

mod packed_events_tests;
mod ref_counting_tests;
mod task_code_tests;
