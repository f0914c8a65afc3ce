//! The maximum number of names of an entry.
ghost use Rattle.std.specs.Prelude.{◌≤◌, length};
ghost use Rattle.task_code.specs.Code.{entry as entry_at};
ghost use Rattle.board_program.specs.Program.{AreAtMost};

use task_code::code::Code;

/// Returns the number of names that this entry reads or writes, whichever is greater.
fn names_of(code: &Code, number: u32) -> usize
    ensures reads { length (entry_at code.now number).reads ≤ result }
    ensures writes { length (entry_at code.now number).writes ≤ result }
{
    match code.entry(number) {
        Some(entry) => entry.reads.len().max(entry.writes.len()),
        None => 0,
    }
}

/// Returns the greater of the two counts.
fn max_count(most: usize, more: usize) -> usize
    ensures most { most ≤ result }
    ensures more { more ≤ result }
{
    most.max(more)
}

/// Returns the maximum number of names that any entry reads or writes.
pub fn most_names(code: &Code) -> usize
    ensures { AreAtMost code.now result }
{
    let mut most = 0;
    for number in 0..code.entry_count() as u32 {
        most = max_count(most, names_of(code, number));
    }
    most
}
