//! The texts on standard error. A name in one may come from a file. So on a terminal each byte of
//! it that isn't printable ASCII is shown as `?`, as in a line at fault. Elsewhere a program may
//! compare the text, so it is given byte for byte.
ghost use Rattle.std.specs.Prelude.{◌≡◌, IsOk, true};
ghost use Rattle.counted_io.specs.Buffered.{Puts};
ghost use Rattle.circuit_files.specs.pages.Messages.{said, said_byte};

use crate::pages::showing::printable;
use counted_io::{Buffered, CountedWrite};
use std::fmt;

/// A text for standard error.
#[derive(Drop)]
pub struct Message<'a, W> {
    out: Buffered<'a, W>,
    is_terminal: bool,
}

/// Returns a byte of a text as a terminal is shown it: newlines end its lines.
fn said_byte(byte: u8) -> u8
    ensures { result ≡ said_byte byte }
{
    if byte == b'\n' { byte } else { printable(byte) }
}

/// Puts bytes so that none of them steers the terminal.
fn put_said<W: CountedWrite>(out: &mut Buffered<'_, W>, bytes: &[u8])
    ensures { Puts W.output out.old out.new (said true bytes.now) }
{
    for byte in bytes {
        out.put_byte(said_byte(*byte));
    }
}

impl<'a, W: CountedWrite> Message<'a, W> {
    ghost use Rattle.circuit_files.specs.pages.Messages.{Says};

    /// Returns a message of which nothing is said yet.
    pub fn new(err: &'a mut W, is_terminal: bool) -> Message<'a, W>
        ensures { result.is_terminal ≡ is_terminal }
    {
        Message {
            out: Buffered::new(err),
            is_terminal,
        }
    }

    /// Puts bytes as whoever reads them is shown them.
    pub fn put(&mut self, bytes: &[u8])
        ensures { Says W.output self.old self.new bytes.now }
    {
        if self.is_terminal {
            put_said(&mut self.out, bytes);
        } else {
            self.out.put(bytes);
        }
    }

    /// Writes what is left of the text. A write that fails changes nothing.
    pub fn send(&mut self) {
        let _ = self.out.flush();
    }
}

/// Puts what `write!` formats.
impl<W: CountedWrite> fmt::Write for Message<'_, W> {
    ghost use Rattle.circuit_files.specs.pages.Messages.{Says};

    ghost write_str_gives = { λ old text new. Says W.output old new text };

    fn write_str(&mut self, text: &str) -> fmt::Result
        ensures says { Says W.output self.old self.new text.now }
        ensures ok { IsOk result }
    {
        self.put(text.as_bytes());
        Ok(())
    }
}
