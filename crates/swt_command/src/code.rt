//! The command `code`: prints the listing of a script's code, its drawing, the drawing of the script, or what the script
//! is after a pass.
ghost use Rattle.std.specs.Prelude.{◌<◌, ◌≡◌, MatchResult};
ghost use Rattle.swt_command.specs.Files.{StopsAt, contents};
ghost use Rattle.swt_command.specs.Listings.{IsAcceptedAt, Lists};
ghost use Rattle.swt_command.specs.Sinks.{held};

use crate::passes::text_after;
use crate::pictures::picture_of;
use crate::scripts::{drawing_of, listing_of};
use bumpalo::Bump;
use std::alloc::Global;
use swt_arguments::code_form::CodeForm;
use swt_status::failure::CommandFailure;
use swt_status::status::Status;
use swt_status::stop::CommandStop;
use values::sink::{Sink, SinkFault, write_all};

/// Prints the code of the first file's script in this form.
///
/// # Errors
///
/// Returns `CommandStop` if the script cannot be read or is refused, an allocation fails, or the text cannot be
/// written.
pub fn code<O: Sink>(
    alloc: Global,
    arena: &Bump,
    files: &[Option<Vec<u8>>],
    form: CodeForm,
    out: &mut O,
) -> Result<Status, CommandStop>
    requires { O.failures out.old < u64.MAX }
    ensures { Lists (contents files.now) result (held (O.taken out.old) (O.failures out.old))
        (held (O.taken out.new) (O.failures out.new)) }
{
    let text = text_of(alloc, arena, files, form)?;
    match write_all(out, text.as_slice()) {
        Ok(()) => Ok(Status::Done),
        Err(SinkFault) => Err(CommandStop {
            place: 0,
            trouble: CommandFailure::Unprinted,
        }),
    }
}

/// Returns the text that is printed of the first file's script in this form.
///
/// # Errors
///
/// Returns `Unread`, `Refused` or `Memory`.
fn text_of(
    alloc: Global,
    arena: &Bump,
    files: &[Option<Vec<u8>>],
    form: CodeForm,
) -> Result<Vec<u8>, CommandStop>
    ensures { MatchResult result (λ text. IsAcceptedAt (contents files.now) 0)
        (λ stop. (stop.place ≡ 0) × StopsAt (contents files.now) 0 stop.trouble) }
{
    match form {
        CodeForm::Listing => listing_of(alloc, arena, files),
        CodeForm::Graph => drawing_of(alloc, arena, files),
        CodeForm::Drawing => picture_of(alloc, arena, files),
        CodeForm::After(pass) => text_after(alloc, arena, files, pass),
    }
}
