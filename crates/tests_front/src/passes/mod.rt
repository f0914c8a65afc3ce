//! Tests of folding, lowering, merging and drawing.

mod drawing_tests;
mod flows;
mod literals_tests;
mod lowering_tests;
mod wait_merge_tests;
mod whole_flow_tests;
