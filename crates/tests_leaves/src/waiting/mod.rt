//! Tests of waiting items and of ready items.

mod rules_tests;
mod work_queue_tests;
