//! The explanations of all mistakes of a text, one after another.
ghost use Rattle.std.specs.Prelude.{IfOk, MatchOption};
ghost use Rattle.explain_refusals.specs.Verdicts.{Explains, IsScript};

use crate::mistakes::{FurtherMistakes, mistakes_of};
use explain_refusals::diagnostic::shown;
use itoa::Buffer;
use std::alloc::{AllocError, Global};

/// Returns the explanations of the mistakes of a text, or `None` if the text is accepted.
///
/// The first explanation is that of `explain_refusals::diagnostic::explained`. If there are more mistakes than are reported,
/// a last line says how many.
///
/// # Errors
///
/// Returns `AllocError` if an allocation fails.
#[tactic(auto, using(explain_refusals::proofs::Verdicts::explains, explain_refusals::proofs::Verdicts::begins_more))]
pub fn all_explained(alloc: Global, file: &str, text: &[u8]) -> Result<Option<Vec<u8>>, AllocError>
    ensures { IfOk result (λ told. MatchOption told (IsScript text.now) (λ words. Explains file.now text.now words.items)) }
{
    match mistakes_of(alloc, text)? {
        None => Ok(None),
        Some(mistakes) => {
            let further = further_shown(alloc, file, text, &mistakes.further)?;
            let mut words = shown(alloc, file, text, &mistakes.first)?;
            words.extend_from_slice(further.as_slice())?;
            Ok(Some(words))
        }
    }
}

/// Returns the explanations of the mistakes after the first one, and the line on those that are not reported.
fn further_shown(
    alloc: Global,
    file: &str,
    text: &[u8],
    further: &FurtherMistakes,
) -> Result<Vec<u8>, AllocError> {
    let mut words = Vec::new(alloc);
    for mistake in &further.reported {
        let one = shown(alloc, file, text, mistake)?;
        words.extend_from_slice(one.as_slice())?;
    }
    add_more(&mut words, further)?;
    Ok(words)
}

/// Appends the line on the mistakes that are not reported, if there are any.
fn add_more(words: &mut Vec<u8>, further: &FurtherMistakes) -> Result<(), AllocError> {
    if further.more == 0 {
        return Ok(());
    }
    words.extend_from_slice(b"and ")?;
    let mut buffer = Buffer::new();
    words.extend_from_slice(buffer.format(further.more as u64).as_bytes())?;
    let ending = if further.is_cut {
        " or more\n"
    } else {
        " more\n"
    };
    words.extend_from_slice(ending.as_bytes())?;
    Ok(())
}
