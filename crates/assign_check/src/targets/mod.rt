//! Faults of targets: the variables that are assigned on a control path.

pub mod control_path;
pub mod target_faults;
