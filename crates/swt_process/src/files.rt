//! Reading of the input files of a line.
ghost use Rattle.std.specs.Prelude.{◌≡◌, ◌<◌, [], reverse, IfOk, OnOk};
ghost use Rattle.host.specs.Events.{asked, changes, inputs, links, reads};
ghost use Rattle.swt_command.specs.Files.{contents};
ghost use Rattle.swt_process.specs.Reads.{AreRead, most_at};

use host::Host;
use host::identity::Identity;
use host::reading::read_file;
use std::alloc::{AllocError, Global};
use swt_arguments::line::Line;
use swt_arguments::word::Word;
use values::limits::MAX_SOURCE;

/// Returns the maximum size in bytes of the input file at this index. One byte more is read, so that a larger file is
/// detected.
fn most_at(line: &Line, place: usize) -> usize
    ensures most { result ≡ most_at line.now place }
    ensures within { result < u64.MAX }
{
    match line {
        Line::Replay { .. } => {
            if place == 0 {
                MAX_SOURCE
            } else {
                usize::MAX - 1
            }
        }
        _ => MAX_SOURCE,
    }
}

/// Reads the input files of the line, in order. The result holds `None` for a file that cannot be read.
///
/// Each file is opened once. The identities of the opened files are appended to `known`.
///
/// # Errors
///
/// Returns `AllocError` if an allocation fails.
pub fn read_files<H: Host>(
    host: &mut H,
    alloc: Global,
    known: &mut Vec<Identity>,
    line: &Line,
    names: &[Word],
) -> Result<Vec<Option<Vec<u8>>>, AllocError>
    requires none { reads (H.history host.old) ≡ [] }
    requires known { known.old.items ≡ inputs (H.history host.old) }
    ensures read { IfOk result (λ files. AreRead line.now names.now (contents files.items) (reverse (reads (H.history host.new)))) }
    ensures known { OnOk result (known.new.items ≡ inputs (H.history host.new)) }
    ensures asked { asked (H.history host.new) ≡ asked (H.history host.old) }
    ensures links { links (H.history host.new) ≡ links (H.history host.old) }
    ensures changes { changes (H.history host.new) ≡ changes (H.history host.old) }
{
    let mut files = Vec::new(alloc);
    for place in 0..names.len() {
        let most = most_at(line, place);
        let file = read_file(host, alloc, known, names[place].as_str(), most)?;
        files.push(file)?;
    }
    Ok(files)
}
