//! Tests of values, keys, operators, formats and sinks.

mod keys_tests;
mod values_tests;
