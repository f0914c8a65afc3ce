//! Access to input files, and compilation of the script in the first.
ghost use Rattle.std.specs.Prelude.{◌≡◌, Some, None, MatchResult};
ghost use Rattle.swt_status.specs.Names.{refusal_of};
ghost use Rattle.swt_command.specs.Listings.{IsAcceptedAt};
ghost use Rattle.swt_command.specs.Files.{HasCode, StopsAt, contents, source_of};
ghost use Rattle.swt_command.specs.Troubles.{trouble_of};

use board_program::program::Program;
use bumpalo::Bump;
use compile::compile::{compile, drawn, listed};
use compile::fault::CompileFault;
use std::alloc::Global;
use swt_status::failure::CommandFailure;
use swt_status::refusal::Refusal;
use swt_status::stop::CommandStop;
use task_code::code::Code;

/// Returns the bytes of the input file at this index.
///
/// # Errors
///
/// Returns `Unread` if the file could not be read.
pub fn source(files: &[Option<Vec<u8>>], place: usize) -> Result<&[u8], CommandStop>
    ensures { MatchResult result (λ src. source_of (contents files.now) place ≡ Some src.now)
        (λ stop. (stop.place ≡ place) × (stop.trouble ≡ CommandFailure.Unread) × (source_of (contents files.now) place ≡ None)) }
{
    match files.get(place) {
        Some(Some(bytes)) => Ok(bytes.as_slice()),
        _ => Err(CommandStop {
            place,
            trouble: CommandFailure::Unread,
        }),
    }
}

/// Compiles the first file's script. Its syntax tree stays in the arena.
///
/// # Errors
///
/// Returns `Unread`, `Refused` or `Memory`.
pub fn code_of(alloc: Global, arena: &Bump, files: &[Option<Vec<u8>>]) -> Result<Code, CommandStop>
    ensures { MatchResult result (HasCode (contents files.now) 0)
        (λ stop. (stop.place ≡ 0) × StopsAt (contents files.now) 0 stop.trouble) }
{
    let source = source(files, 0)?;
    match compile(alloc, arena, source) {
        Ok(code) => Ok(code),
        Err(fault) => Err(at_script(fault)),
    }
}

/// Compiles the first file's script and builds its program: the code and its precomputed tables. The syntax tree stays
/// in the arena.
///
/// # Errors
///
/// Returns `Unread`, `Refused` or `Memory`.
pub fn program_of(
    alloc: Global,
    arena: &Bump,
    files: &[Option<Vec<u8>>],
) -> Result<Program, CommandStop>
    ensures { MatchResult result (HasCode (contents files.now) 0)
        (λ stop. (stop.place ≡ 0) × StopsAt (contents files.now) 0 stop.trouble) }
{
    let code = code_of(alloc, arena, files)?;
    match Program::new(alloc, code) {
        Ok(program) => Ok(program),
        Err(_refused) => Err(CommandStop {
            place: 0,
            trouble: CommandFailure::Memory,
        }),
    }
}

/// Compiles the first file's script and returns the listing of its code. The syntax tree stays in the arena.
///
/// # Errors
///
/// Returns `Unread`, `Refused` or `Memory`.
pub fn listing_of(
    alloc: Global,
    arena: &Bump,
    files: &[Option<Vec<u8>>],
) -> Result<Vec<u8>, CommandStop>
    ensures { MatchResult result (λ text. IsAcceptedAt (contents files.now) 0)
        (λ stop. (stop.place ≡ 0) × StopsAt (contents files.now) 0 stop.trouble) }
{
    let source = source(files, 0)?;
    match listed(alloc, arena, source) {
        Ok(listed) => Ok(listed.into_text()),
        Err(fault) => Err(at_script(fault)),
    }
}

/// Compiles the first file's script and returns the drawing of its code. The syntax tree stays in the arena.
///
/// # Errors
///
/// Returns `Unread`, `Refused` or `Memory`.
pub fn drawing_of(
    alloc: Global,
    arena: &Bump,
    files: &[Option<Vec<u8>>],
) -> Result<Vec<u8>, CommandStop>
    ensures { MatchResult result (λ text. IsAcceptedAt (contents files.now) 0)
        (λ stop. (stop.place ≡ 0) × StopsAt (contents files.now) 0 stop.trouble) }
{
    let source = source(files, 0)?;
    match drawn(alloc, arena, source) {
        Ok(drawn) => Ok(drawn.into_text()),
        Err(fault) => Err(at_script(fault)),
    }
}

/// Converts a fault of the compiler into a stop at the first file.
pub(crate) fn at_script(fault: CompileFault) -> CommandStop
    ensures place { result.place ≡ 0 }
    ensures trouble { result.trouble ≡ trouble_of (refusal_of fault) }
{
    let trouble = match Refusal::of(fault) {
        Some(refusal) => CommandFailure::Refused(refusal),
        None => CommandFailure::Memory,
    };
    CommandStop { place: 0, trouble }
}
