//! Tests of command lines and exit statuses.

mod exit_status_tests;
mod line_tests;
