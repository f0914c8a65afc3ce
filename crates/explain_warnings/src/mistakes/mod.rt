//! Forms that are certainly mistakes: literals, expressions that always fail, tests that guard nothing, calls without
//! end, variables that wait for themselves or for each other, and keys that two statements write.

pub mod cycles;
pub mod endless;
pub mod failures;
pub mod forms;
pub mod guards;
pub mod lists;
pub mod needs;
pub mod repeats;
pub mod rows;
