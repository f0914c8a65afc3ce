//! Hints for faults: what to write instead, by the text of the statement and by the known values.

pub mod element_hints;
pub mod hints;
pub mod near_keys;
pub mod number_hints;
pub mod recursion_hints;
