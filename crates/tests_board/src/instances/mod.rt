//! Tests of block instances, their paths and their loop chunks.

mod board_frames_tests;
mod board_openings_tests;
mod loop_chunks_tests;
