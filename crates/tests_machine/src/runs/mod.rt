//! Tests of whole runs and of their traces.

mod beginnings_tests;
mod runs_tests;
mod swt_trace_tests;
