//! A put returns nothing. The failure of a write is kept and reported by `flush`, as an output
//! stream of C keeps its error indicator. So a text of many pieces can fail at one call alone, and
//! a function that puts pieces says only which text it put.
ghost use Rattle.std.specs.Prelude.{◌≡◌, ◌+◌, ◌≤◌, [], ◌∷◌, ◌++◌, length, decimal, IsOk};
ghost use Rattle.std.specs.List.{flat_map};
ghost use Rattle.counted_io.specs.Line.{spaced, line};

use crate::counted::CountedWrite;
use crate::waiting::{CAPACITY, Waiting};
use crate::writing::{WriteError, write_all};
use itoa::Buffer;
use std::fmt;

/// A writer with a buffer before it, so that it is called once for many bytes.
///
/// Takes no memory. After a write that failed, the writer isn't called again, what is put is
/// dropped, and `flush` reports the failure. At the end of a text `flush` writes what still waits:
/// what waits when the value is dropped is lost.
#[derive(Drop)]
pub struct Buffered<'a, W> {
    writer: &'a mut W,
    waiting: Waiting,
    failed: bool,
}

impl<'a, W: CountedWrite> Buffered<'a, W> {
    ghost use Rattle.counted_io.specs.Buffered.{IsNew, Puts, Flushes};

    /// Returns a buffer in which nothing waits.
    pub fn new(writer: &'a mut W) -> Buffered<'a, W>
        ensures { IsNew writer.entry result }
    {
        Buffered {
            writer,
            waiting: Waiting::new(),
            failed: false,
        }
    }

    /// Lets these bytes wait too.
    fn append(&mut self, bytes: &[u8])
        requires { length self.old.waiting + length bytes.now ≤ CAPACITY }
        ensures puts { Puts W.output self.old self.new bytes.now }
        ensures waiting { self.new.waiting ≡ self.old.waiting ++ bytes.now }
    {
        self.waiting.append(bytes);
    }

    /// Writes what waits, or drops it if a write has failed.
    fn send(&mut self)
        ensures puts { Puts W.output self.old self.new [] }
        ensures empty { self.new.waiting ≡ [] }
    {
        self.failed = self.failed || write_all(self.writer, self.waiting.as_slice()).is_err();
        self.waiting.clear();
    }

    /// Writes what waits. An `Err` says that a write has failed, now or before.
    pub fn flush(&mut self) -> Result<(), WriteError>
        ensures { Flushes W.output self.old self.new result }
    {
        self.send();
        if self.failed {
            Err(WriteError::Device)
        } else {
            Ok(())
        }
    }

    /// Returns true if a write has failed. What is put is dropped then, so a long loop may end
    /// there.
    pub fn has_failed(&self) -> bool
        ensures { result ≡ self.now.failed }
    {
        self.failed
    }

    /// Puts a piece of any length, and writes what waits as often as there is no room for more.
    pub fn put(&mut self, bytes: &[u8])
        ensures { Puts W.output self.old self.new bytes.now }
    {
        let mut rest = bytes;
        while rest.len() > self.waiting.room() {
            let (front, back) = rest.split_at(self.waiting.room());
            self.append(front);
            self.send();
            rest = back;
        }
        self.append(rest);
    }

    /// Puts one byte.
    pub fn put_byte(&mut self, byte: u8)
        ensures { Puts W.output self.old self.new (byte ∷ []) }
    {
        self.put(&[byte]);
    }

    /// Puts a number, in decimal and without leading zeros.
    pub fn put_number(&mut self, number: u64)
        ensures { Puts W.output self.old self.new (decimal number) }
    {
        let mut buffer = Buffer::new();
        self.put(buffer.format(number).as_bytes());
    }

    /// Puts a space and a number.
    fn put_spaced(&mut self, number: u64)
        ensures { Puts W.output self.old self.new (spaced number) }
    {
        self.put_byte(b' ');
        self.put_number(number);
    }

    /// Puts numbers with a space before each.
    fn put_all_spaced(&mut self, numbers: &[u64])
        ensures { Puts W.output self.old self.new (flat_map spaced numbers.now) }
    {
        for number in numbers {
            self.put_spaced(*number);
        }
    }

    /// Puts a line of numbers, with one space between.
    pub fn put_line(&mut self, numbers: &[u64])
        ensures { Puts W.output self.old self.new (line numbers.now) }
    {
        if let Some((first, others)) = numbers.split_first() {
            self.put_number(*first);
            self.put_all_spaced(others);
        }
        self.put_byte(b'\n');
    }
}

/// Puts what `write!` formats. It never fails: `flush` reports a write that did.
impl<W: CountedWrite> fmt::Write for Buffered<'_, W> {
    ghost use Rattle.counted_io.specs.Buffered.{Puts};

    ghost write_str_gives = { λ old text new. Puts W.output old new text };

    fn write_str(&mut self, text: &str) -> fmt::Result
        ensures puts { Puts W.output self.old self.new text.now }
        ensures ok { IsOk result }
    {
        self.put(text.as_bytes());
        Ok(())
    }
}
