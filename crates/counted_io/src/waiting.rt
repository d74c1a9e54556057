ghost use Rattle.std.specs.Prelude.{◌≡◌, ◌+◌, ◌≤◌, [], ◌++◌, length, take};

use std::marker::Model;

/// How many bytes can wait.
pub(crate) const CAPACITY: usize = 8192;

/// Bytes that wait to be written, in a place of fixed size.
#[derive(Drop)]
pub(crate) struct Waiting {
    bytes: [u8; CAPACITY],
    len: usize,
}

impl Model for Waiting {
    ghost use Rattle.std.specs.Prelude.{List, ℕ, ◌≤◌, take};
    ghost use Rattle.counted_io.specs.declared.waiting.TheConstants.{CAPACITY};

    ghost Value = { List ℕ };

    ghost view = { λ w. take w.len w.bytes };

    ghost invariant = { λ w. w.len ≤ CAPACITY };
}

/// Copies the bytes to the end of the first `len`.
fn copy_after(buffer: &mut [u8], len: usize, bytes: &[u8])
    requires { len + length bytes.now ≤ length buffer.old }
    ensures { take (len + length bytes.now) buffer.new ≡ take len buffer.old ++ bytes.now }
{
    let end = len + bytes.len();
    buffer[len..end].copy_from_slice(bytes);
}

impl Waiting {
    pub(crate) fn new() -> Waiting
        ensures { result ≡ [] }
    {
        Waiting {
            bytes: [0; CAPACITY],
            len: 0,
        }
    }

    /// Returns the number of bytes that can still wait.
    pub(crate) fn room(&self) -> usize
        ensures { length self.now + result ≡ CAPACITY }
    {
        CAPACITY - self.len
    }

    pub(crate) fn as_slice(&self) -> &[u8]
        ensures { result.now ≡ self.now }
    {
        &self.bytes[..self.len]
    }

    pub(crate) fn append(&mut self, bytes: &[u8])
        requires { length self.old + length bytes.now ≤ CAPACITY }
        ensures { self.new ≡ self.old ++ bytes.now }
    {
        copy_after(&mut self.bytes, self.len, bytes);
        self.len += bytes.len();
    }

    pub(crate) fn clear(&mut self)
        ensures { self.new ≡ [] }
    {
        self.len = 0;
    }
}
