//! Tests of cells and of the entries of parts of expressions.

mod emit_parts_tests;
mod flows;
mod part_entries_tests;
