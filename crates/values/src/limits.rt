//! Limits of the language and of a run.
ghost use Rattle.std.specs.Prelude.{◌≡◌};
ghost use Rattle.values.specs.Limits.{max_source, max_nesting, max_priority, max_range, max_path_steps, chunk_size, max_entries, max_threads, max_events};

/// Maximum number of bytes of a script: 1 MiB.
pub const MAX_SOURCE: usize = 1_048_576;

/// Maximum depth to which expressions and statements of a script are nested.
pub const MAX_NESTING: u32 = 64;

/// Maximum priority of a call. The minimum is its negative.
pub const MAX_PRIORITY: u64 = 1_000_000;

/// Maximum number of values of a range: 2^32.
pub const MAX_RANGE: u64 = 4_294_967_296;

/// Maximum number of steps of a path.
pub const MAX_PATH_STEPS: usize = 2048;

/// Maximum number of turns of a loop that are opened at once.
pub const CHUNK_SIZE: u64 = 64;

/// Maximum number of entries of a script's code: 2^22.
pub const MAX_ENTRIES: usize = 4_194_304;

/// Maximum number of threads of a run, engines and workers together.
pub const MAX_THREADS: usize = 64;

/// Maximum number of events of a run: 2^32 - 1.
pub const MAX_EVENTS: usize = 4_294_967_295;

/// The constants of this module are the limits that the definitions and contracts name.
pub fn constants_are_the_limits()
    ensures source { MAX_SOURCE ≡ max_source }
    ensures nesting { MAX_NESTING ≡ max_nesting }
    ensures priority { MAX_PRIORITY ≡ max_priority }
    ensures range { MAX_RANGE ≡ max_range }
    ensures path { MAX_PATH_STEPS ≡ max_path_steps }
    ensures chunk { CHUNK_SIZE ≡ chunk_size }
    ensures entries { MAX_ENTRIES ≡ max_entries }
    ensures threads { MAX_THREADS ≡ max_threads }
    ensures events { MAX_EVENTS ≡ max_events }
{}
