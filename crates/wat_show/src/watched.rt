//! A reader or a writer that records whether a read or a write has failed.
ghost use Rattle.std.specs.Prelude.{◌≡◌, ◌↔◌, ◌⊎◌, false, IsTrue, IsErr};
ghost use Rattle.std.specs.Io.{ReadsAtMost, WritesAtMost};
ghost use Rattle.std.specs.Io.KnownBytes.{Keeps, ReadConsumes, WriteAppends};
ghost use Rattle.wat_show.specs.Streams.{IsFailedWrite};

use std::io;
use std::io::{Read, Write};

/// A reader or a writer that records whether a read or a write has failed.
#[derive(Drop)]
pub struct Watched<T> {
    inner: T,
    failed: bool,
}

impl<T> Watched<T> {
    /// Wraps `inner`. No read and no write has failed yet.
    pub fn new(inner: T) -> Watched<T>
        ensures inner { result.inner ≡ inner }
        ensures failed { result.failed ≡ false }
    {
        Watched {
            inner,
            failed: false,
        }
    }

    /// Returns whether a read or a write has failed.
    pub fn failed(&self) -> bool
        ensures { result ≡ self.now.failed }
    {
        self.failed
    }

    /// Returns the reader or writer itself.
    pub fn into_inner(self) -> T
        ensures { result ≡ self.inner }
    {
        self.inner
    }
}

impl<R: Read> Read for Watched<R> {
    ghost remaining = { λ watched. R.remaining watched.inner };

    /// Calls `read` of the inner reader once, and returns its result. Sets `failed` if the result is an
    /// error.
    fn read(&mut self, buf: &mut [u8]) -> io::Result<usize>
        ensures bound { ReadsAtMost result buf.new }
        ensures bytes { ReadConsumes (R.remaining self.old.inner) (R.remaining self.new.inner)
            result buf.new }
        ensures failed { IsTrue self.new.failed ↔ (IsTrue self.old.failed ⊎ IsErr result) }
    {
        let outcome = self.inner.read(buf);
        if outcome.is_err() {
            self.failed = true;
        }
        outcome
    }
}

impl<W: Write> Write for Watched<W> {
    ghost contents = { λ watched. W.contents watched.inner };

    /// Calls `write` of the inner writer once, and returns its result. Sets `failed` if the result is an
    /// error, or if 0 bytes of a `buf` that isn't empty are written.
    fn write(&mut self, buf: &[u8]) -> io::Result<usize>
        ensures bound { WritesAtMost result buf.now }
        ensures bytes { WriteAppends (W.contents self.old.inner) (W.contents self.new.inner)
            result buf.now }
        ensures failed { IsTrue self.new.failed
            ↔ (IsTrue self.old.failed ⊎ IsFailedWrite result buf.now) }
    {
        let outcome = self.inner.write(buf);
        match outcome {
            Err(_) => self.failed = true,
            Ok(count) => {
                if count == 0 && !buf.is_empty() {
                    self.failed = true;
                }
            }
        }
        outcome
    }

    /// Calls `flush` of the inner writer once, and returns its result. `failed` is unchanged.
    fn flush(&mut self) -> io::Result<()>
        ensures bytes { Keeps (W.contents self.old.inner) (W.contents self.new.inner) }
        ensures failed { self.new.failed ≡ self.old.failed }
    {
        self.inner.flush()
    }
}
