//! The system and the output, with what explanations need of them: the files that were read, the last line that was
//! printed, and the words that are not valid UTF-8.

pub mod caching_host;
pub mod non_utf8;
pub mod output;
pub mod source_cache;
