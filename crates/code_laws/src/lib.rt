//! Laws of the code of accepted scripts: it is the script's code, whole, bounded in size and determined by its tree. Nothing here runs: each function has an
//! empty body, and its contract is the law.
#![tactic(auto)]

pub mod code_size;
pub mod equal_codes;
pub mod laid_code;
pub mod quiet_code;
pub mod scalar_sources;
pub mod whole_code;
