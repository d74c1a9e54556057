//! Devices for tests, to put before a reader or a writer of std and under `Counted`.
ghost use Rattle.std.specs.Prelude.{◌≡◌, IsErr};
ghost use Rattle.std.specs.Io.{ReadsAtMost, WritesAtMost};
ghost use Rattle.std.specs.Io.KnownBytes.{ReadConsumes, WriteAppends};
ghost use Rattle.counted_io.specs.Fakes.{FailsBy, IsCounted, IsOneAtMost};

use std::io;
use std::io::{Read, Write};

/// How a call of `FailAfter` fails.
#[derive(Clone, Copy)]
pub enum Failure {
    /// By an `Err`.
    Error,
    /// By taking none of the bytes. A read still fails by an `Err`, since `Ok(0)` is its end.
    Nothing,
}

/// Passes a number of calls on, and fails the rest. Of a call that is passed on the clauses say no
/// more than those of the traits.
#[derive(Drop)]
pub struct FailAfter<T> {
    inner: T,
    calls_left: u64,
    failure: Failure,
}

impl<T> FailAfter<T> {
    ghost use Rattle.counted_io.specs.Fakes.{fail_after, fail_after_inner};

    pub fn new(inner: T, calls: u64, failure: Failure) -> FailAfter<T>
        ensures { result ≡ fail_after inner calls failure }
    {
        FailAfter {
            inner,
            calls_left: calls,
            failure,
        }
    }

    /// Returns the reader or writer, as the calls left it.
    pub fn into_inner(self) -> T
        ensures { result ≡ fail_after_inner self }
    {
        self.inner
    }
}

impl<T: Write> Write for FailAfter<T> {
    ghost contents = { λ f. T.contents f.inner };

    fn write(&mut self, bytes: &[u8]) -> io::Result<usize>
        ensures bound { WritesAtMost result bytes.now }
        ensures bytes { WriteAppends (T.contents self.old.inner)
            (T.contents self.new.inner) result bytes.now }
        ensures counted { IsCounted self.old self.new }
        ensures failed { self.old.calls_left ≡ 0 → FailsBy self.old.failure result }
    {
        if self.calls_left == 0 {
            return match self.failure {
                Failure::Error => Err(io::Error::from(io::ErrorKind::Other)),
                Failure::Nothing => Ok(0),
            };
        }
        self.calls_left -= 1;
        self.inner.write(bytes)
    }

    fn flush(&mut self) -> io::Result<()> {
        self.inner.flush()
    }
}

impl<T: Read> Read for FailAfter<T> {
    ghost remaining = { λ f. T.remaining f.inner };

    fn read(&mut self, buffer: &mut [u8]) -> io::Result<usize>
        ensures bound { ReadsAtMost result buffer.new }
        ensures bytes { ReadConsumes (T.remaining self.old.inner)
            (T.remaining self.new.inner) result buffer.new }
        ensures counted { IsCounted self.old self.new }
        ensures failed { self.old.calls_left ≡ 0 → IsErr result }
    {
        if self.calls_left == 0 {
            return Err(io::Error::from(io::ErrorKind::Other));
        }
        self.calls_left -= 1;
        self.inner.read(buffer)
    }
}

/// Takes or gives one byte a call.
#[derive(Drop)]
pub struct OneByte<T> {
    inner: T,
}

impl<T> OneByte<T> {
    ghost use Rattle.counted_io.specs.Fakes.{one_byte_inner};

    pub fn new(inner: T) -> OneByte<T>
        ensures { one_byte_inner result ≡ inner }
    {
        OneByte { inner }
    }

    /// Returns the reader or writer, as the calls left it.
    pub fn into_inner(self) -> T
        ensures { result ≡ one_byte_inner self }
    {
        self.inner
    }
}

impl<T: Write> Write for OneByte<T> {
    ghost contents = { λ o. T.contents o.inner };

    fn write(&mut self, bytes: &[u8]) -> io::Result<usize>
        ensures bound { WritesAtMost result bytes.now }
        ensures bytes { WriteAppends (T.contents self.old.inner)
            (T.contents self.new.inner) result bytes.now }
        ensures one { IsOneAtMost result }
    {
        let len = bytes.len().min(1);
        self.inner.write(&bytes[..len])
    }

    fn flush(&mut self) -> io::Result<()> {
        self.inner.flush()
    }
}

impl<T: Read> Read for OneByte<T> {
    ghost remaining = { λ o. T.remaining o.inner };

    fn read(&mut self, buffer: &mut [u8]) -> io::Result<usize>
        ensures bound { ReadsAtMost result buffer.new }
        ensures bytes { ReadConsumes (T.remaining self.old.inner)
            (T.remaining self.new.inner) result buffer.new }
        ensures one { IsOneAtMost result }
    {
        let len = buffer.len().min(1);
        self.inner.read(&mut buffer[..len])
    }
}
