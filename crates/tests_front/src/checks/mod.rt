//! Tests of types, single assignment and warnings.

mod assign_check_tests;
mod types_tests;
mod warnings_tests;
