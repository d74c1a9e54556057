ghost use Rattle.std.specs.Prelude.{◌≡◌, map};
ghost use Rattle.file_words.specs.Answering.{Gives};
ghost use Rattle.circuit_files.specs.declared.fault.ListError.TheVariants.{NoMemory};
ghost use Rattle.circuit_files.specs.Entries.{paths};
ghost use Rattle.circuit_files.specs.Lists as lists;

use crate::entry::{Entry, entry_of};
use crate::fault::ListError;
use file_words::{Line, Lines};
use std::alloc::Global;

/// The lines that a list may have.
const MAX_LINES: usize = 1 << 20;

/// Reads a list. A line has the path of a file to read, a tab, and the path of the file to write,
/// both in UTF-8. Either may be empty.
///
/// # Errors
///
/// That of the first line with a fault. It is `BadLine` for another number of tabs than one, as an
/// empty line has, or for bytes that are no UTF-8. Otherwise it is `TooLarge` for line number 2^20,
/// from 0. `NoMemory` may come before it. The time is linear in the bytes.
pub fn read_list(alloc: Global, bytes: &[u8]) -> Result<Vec<Entry<'_>>, ListError>
    ensures { Gives NoMemory (λ entries. map paths entries.items) result (lists.read_list bytes.now) }
{
    let mut entries = Vec::new(alloc);
    let mut lines = Lines::new(bytes);
    while let Some(line) = lines.next_line() {
        read_line(&mut entries, &line)?;
    }
    Ok(entries)
}

/// Takes a line.
fn read_line<'a>(entries: &mut Vec<Entry<'a>>, line: &Line<'a>) -> Result<(), ListError>
    ensures { Gives NoMemory (λ _. map paths entries.new.items) result
        (lists.read_line line.now.at (map paths entries.old.items) line.now.text.now) }
{
    let Some(entry) = entry_of(line.text) else {
        return Err(ListError::BadLine(line.at));
    };
    if entries.len() == MAX_LINES {
        return Err(ListError::TooLarge(line.at));
    }
    entries.push(entry)?;
    Ok(())
}
