//! The text for `dot`: the text under construction, excerpts of the script for labels, and the colours and the legend.

pub mod dot_text;
pub mod excerpt;
pub mod style;
