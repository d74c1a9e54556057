//! Deltas from bytes: seven bits of the number a byte, the lowest first, and the top bit set in all
//! bytes but the last.
ghost use Rattle.std.specs.Prelude.{◌≡◌, ◌+◌, ◌<◌, ◌≤◌, ◌^◌, ◌++◌, ◌∷◌, [], length, nat_eq, IsTrue, Ok, Err, Some, None};
ghost use Rattle.binary_file.specs.Deltas.{delta_value, is_delta};
ghost use Rattle.binary_file.specs.declared.deltas.decode.DeltaError.TheVariants.{TooLong};

use arrayvec::ArrayVec;
use std::marker::Model;

/// Why bytes are no delta.
#[derive(Clone, Copy, Debug, PartialEq, Eq)]
pub enum DeltaError {
    /// The fifth byte has its top bit set: no delta of a number in range is as long.
    TooLong,
}

/// The most bytes that may come before a delta's last.
const MOST_BEFORE: usize = 4;

/// Reads deltas byte by byte. Contracts see the bytes of the delta that has begun, all of which
/// have their top bit set.
#[derive(Drop)]
pub struct DeltaReader {
    begun: ArrayVec<u8, MOST_BEFORE>,
}

impl Model for DeltaReader {
    ghost use Rattle.std.specs.Prelude.{List, ℕ};

    ghost Value = { List ℕ };

    ghost use Rattle.std.specs.Prelude.{◌<◌, All};

    ghost view = { λ r. r.begun.items };

    ghost invariant = { λ r. All (λ byte. 127 < byte) r.begun.items };
}

/// Returns the number that a delta spells, by its bytes before the last and its last byte.
fn value(before: &[u8], last: u8) -> u64
    requires { length before.now ≤ 4 }
    ensures value { result ≡ delta_value (before.now ++ last ∷ []) }
    ensures small { result < 128 ^ (length before.now + 1) }
{
    match before.split_first() {
        None => u64::from(last % 128),
        Some((byte, rest)) => u64::from(*byte % 128) + 128 * value(rest, last),
    }
}

impl DeltaReader {
    /// Returns a reader that has read no byte of a delta. Takes no memory.
    pub fn new() -> DeltaReader
        ensures { result ≡ [] }
    {
        DeltaReader {
            begun: ArrayVec::new(),
        }
    }

    /// Returns true if no byte of a delta has come.
    pub fn is_new(&self) -> bool
        ensures { result ≡ nat_eq (length self.now) 0 }
    {
        self.begun.is_empty()
    }

    /// Takes the next byte. Returns the number if this is a delta's last byte, or `None` if more
    /// bytes follow.
    ///
    /// # Errors
    ///
    /// At a fifth byte with its top bit set.
    pub fn push(&mut self, byte: u8) -> Result<Option<u64>, DeltaError>
        ensures few { length self.old ≤ 4 }
        ensures form { byte < 128 → IsTrue (is_delta (self.old ++ byte ∷ [])) }
        ensures last { byte < 128 → (result ≡ Ok (Some (delta_value (self.old ++ byte ∷ []))))
            × (self.new ≡ []) }
        ensures more { 128 ≤ byte → length self.old < 4 → (result ≡ Ok None)
            × (self.new ≡ self.old ++ byte ∷ []) }
        ensures too_long { 128 ≤ byte → length self.old ≡ 4 → (result ≡ Err TooLong)
            × (self.new ≡ self.old) }
    {
        if byte < 128 {
            let number = value(self.begun.as_slice(), byte);
            self.begun.clear();
            return Ok(Some(number));
        }
        if self.begun.is_full() {
            return Err(DeltaError::TooLong);
        }
        self.begun.push(byte);
        Ok(None)
    }
}
