ghost use Rattle.std.specs.Prelude.{◌≡◌, ◌≤◌, ◌++◌, length, take};

use arrayvec::ArrayVec;

/// How many bytes name a spelling.
pub(crate) const LETTERS: usize = 3;

/// The bytes that name a spelling, as far as they have come.
pub(crate) type Letters = ArrayVec<u8, LETTERS>;

/// Appends as many of the bytes as there is room for.
fn append(letters: &mut Letters, bytes: &[u8])
    requires { length letters.old.items ≤ 3 }
    ensures { letters.new.items ≡ take 3 (letters.old.items ++ bytes.now) }
{
    for byte in bytes {
        if letters.is_full() {
            break;
        }
        letters.push(*byte);
    }
}

/// Returns the first three of the bytes that have begun and those of the next piece, or all of
/// them.
pub(crate) fn first_letters(begun: &[u8], piece: &[u8]) -> Letters
    ensures { result.items ≡ take 3 (begun.now ++ piece.now) }
{
    let mut letters = ArrayVec::new();
    append(&mut letters, begun);
    append(&mut letters, piece);
    letters
}
