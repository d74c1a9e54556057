ghost use Rattle.std.specs.Prelude.{ℕ, List, ◌≡◌, ◌≤◌, ◌++◌, length};
ghost use Rattle.aag_text.specs.Beginning.{Awaits, BeginsItems};

use crate::items::Items;
use ascii_file::HeaderLine;
use file_words::{ReadError, cut};
use std::alloc::Global;

/// Takes the next bytes of an open first line; they end at offset `end`. Returns the items if these
/// bytes end the line.
pub(crate) fn begin(
    alloc: Global,
    line: &mut HeaderLine,
    end: u64,
    piece: &[u8],
) -> Result<Option<Items>, ReadError>
    requires { length piece.now ≤ end }
    ensures { (bytes : List ℕ) → Awaits line.old bytes → length (bytes ++ piece.now) ≡ end
        → BeginsItems line.new (bytes ++ piece.now) result }
{
    let Some((part, rest)) = cut(piece, b'\n') else {
        line.extend(piece);
        return Ok(None);
    };
    line.extend(part);
    let header = line.header()?;
    let mut items = Items::new(alloc, header, end - rest.len() as u64);
    match items.feed(end, rest) {
        Ok(()) => Ok(Some(items)),
        Err(fault) => {
            drop(items);
            Err(fault)
        }
    }
}
