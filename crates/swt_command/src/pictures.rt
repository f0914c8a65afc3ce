//! The drawing of a script as it is written.
ghost use Rattle.std.specs.Prelude.{◌≡◌, MatchResult};
ghost use Rattle.swt_command.specs.Files.{StopsAt, contents};
ghost use Rattle.swt_command.specs.Listings.{IsAcceptedAt};

use crate::meaning_summary::flow_of;
use crate::scripts::source;
use bumpalo::Bump;
use show_drawing::drawing::drawing;
use std::alloc::Global;
use swt_status::failure::CommandFailure;
use swt_status::stop::CommandStop;

/// Returns the drawing of the first file's script. Its syntax tree and its flow stay in the arena.
///
/// # Errors
///
/// Returns `Unread`, `Refused` or `Memory`.
pub fn picture_of(
    alloc: Global,
    arena: &Bump,
    files: &[Option<Vec<u8>>],
) -> Result<Vec<u8>, CommandStop>
    ensures { MatchResult result (λ text. IsAcceptedAt (contents files.now) 0)
        (λ stop. (stop.place ≡ 0) × StopsAt (contents files.now) 0 stop.trouble) }
{
    let source = source(files, 0)?;
    let flow = flow_of(alloc, arena, files)?;
    match drawing(alloc, source, &flow) {
        Ok(text) => Ok(text),
        Err(_refused) => Err(CommandStop {
            place: 0,
            trouble: CommandFailure::Memory,
        }),
    }
}
