//! Readers and writers that count their failures. What a device does is unknown to contracts, but
//! they can say that a call reports a failure if and only if this count rose.
ghost use Rattle.std.specs.Prelude.{◌≡◌, ◌≤◌, length, IfOk};
ghost use Rattle.std.specs.Io.KnownBytes.{WriteAppends, ReadConsumes};
ghost use Rattle.counted_io.specs.Output.{Output, failures_after_write, one_more};
ghost use Rattle.counted_io.specs.Input.{Input, failures_after_read};

use std::io;
use std::io::{Read, Write};

/// A writer that counts its failures, and whose contents are known if they can be.
pub trait CountedWrite {
    ghost output: { Self → Output };

    /// Takes a beginning of the bytes, and says how many. An `Err`, and `Ok(0)` for bytes that
    /// aren't empty, is a failure: nothing was taken.
    fn write_some(&mut self, bytes: &[u8]) -> io::Result<usize>
        ensures bound { IfOk result (λ n. n ≤ length bytes.now) }
        ensures bytes { WriteAppends (output self.old).bytes (output self.new).bytes
            result bytes.now }
        ensures failures { (output self.new).failures
            ≡ failures_after_write (output self.old).failures result (length bytes.now) };

    /// Returns the number of writes that failed; it stays at `u64::MAX`.
    fn failures(&self) -> u64
        ensures { result ≡ (output self.now).failures };
}

/// A reader that counts its failures, and whose remaining bytes are known if they can be.
pub trait CountedRead {
    ghost input: { Self → Input };

    /// Gives the next bytes, at the buffer's beginning, and says how many. At a buffer that isn't
    /// empty, 0 is the end of the bytes. An `Err` is a failure: nothing was given.
    fn read_some(&mut self, buffer: &mut [u8]) -> io::Result<usize>
        ensures bound { IfOk result (λ n. n ≤ length buffer.new) }
        ensures bytes { ReadConsumes (input self.old).bytes (input self.new).bytes
            result buffer.new }
        ensures failures { (input self.new).failures
            ≡ failures_after_read (input self.old).failures result };

    /// Returns the number of reads that failed; it stays at `u64::MAX`.
    fn failures(&self) -> u64
        ensures { result ≡ (input self.now).failures };
}

impl<W: CountedWrite> CountedWrite for &mut W {
    ghost output = { λ w. W.output w.now };

    fn write_some(&mut self, bytes: &[u8]) -> io::Result<usize> {
        CountedWrite::write_some(&mut **self, bytes)
    }

    fn failures(&self) -> u64 {
        CountedWrite::failures(&**self)
    }
}

impl<R: CountedRead> CountedRead for &mut R {
    ghost input = { λ r. R.input r.now };

    fn read_some(&mut self, buffer: &mut [u8]) -> io::Result<usize> {
        CountedRead::read_some(&mut **self, buffer)
    }

    fn failures(&self) -> u64 {
        CountedRead::failures(&**self)
    }
}

/// A reader or a writer, and how many of its calls failed.
#[derive(Drop)]
pub struct Counted<T> {
    inner: T,
    failures: u64,
}

impl<T> Counted<T> {
    ghost use Rattle.counted_io.specs.Counted.{counted_inner, counted_failures};

    /// Returns a count of no failed call.
    pub fn new(inner: T) -> Counted<T>
        ensures inner { counted_inner result ≡ inner }
        ensures failures { counted_failures result ≡ 0 }
    {
        Counted { inner, failures: 0 }
    }

    /// Returns the reader or writer, as the calls left it.
    pub fn into_inner(self) -> T
        ensures { result ≡ counted_inner self }
    {
        let Counted { inner, failures: _ } = self;
        inner
    }

    fn failed_calls(&self) -> u64
        ensures { result ≡ self.now.failures }
    {
        self.failures
    }

    fn count_failure(&mut self)
        ensures { self.new ≡ record self.old { failures = one_more self.old.failures } }
    {
        self.failures = self.failures.saturating_add(1);
    }
}

impl<T: Write> CountedWrite for Counted<T> {
    ghost output = { λ c. record { bytes = T.contents c.inner; failures = c.failures } };

    fn write_some(&mut self, bytes: &[u8]) -> io::Result<usize> {
        let result = self.inner.write(bytes);
        let failed = match &result {
            Ok(count) => *count == 0 && !bytes.is_empty(),
            Err(_) => true,
        };
        if failed {
            self.count_failure();
        }
        result
    }

    fn failures(&self) -> u64 {
        self.failed_calls()
    }
}

impl<T: Read> CountedRead for Counted<T> {
    ghost input = { λ c. record { bytes = T.remaining c.inner; failures = c.failures } };

    fn read_some(&mut self, buffer: &mut [u8]) -> io::Result<usize> {
        let result = self.inner.read(buffer);
        if result.is_err() {
            self.count_failure();
        }
        result
    }

    fn failures(&self) -> u64 {
        self.failed_calls()
    }
}
