//! Readers and writers whose failures are counted.
ghost use Rattle.std.specs.Prelude.{◌≡◌, ◌≤◌, length};
ghost use Rattle.std.specs.Io.{ReadsAtMost, WritesAtMost};
ghost use Rattle.std.specs.Io.KnownBytes.{Keeps, ReadConsumes, WriteAppends};
ghost use Rattle.contest_streams.specs.Streams.{CountsFault, CountsWrite, one_more};

use std::io;
use std::io::{Read, Write};
use std::marker::Model;

/// A reader or a writer, with the number of its calls that failed. So a caller can be held to say
/// "the stream failed" only where it did. The count stays at `u64::MAX` once it is there.
#[derive(Drop)]
pub struct Counted<T> {
    inner: T,
    faults: u64,
}

impl<T> Model for Counted<T> {
    ghost use Rattle.contest_streams.specs.Streams.{Counting};

    ghost Value = { Counting T };

    ghost view = { λ c. record { inner = c.inner; faults = c.faults } };
}

impl<T> Counted<T> {
    /// Wraps a stream of which no call has failed yet.
    pub fn new(inner: T) -> Self
        ensures inner { result.inner ≡ inner }
        ensures faults { result.faults ≡ 0 }
    {
        Counted { inner, faults: 0 }
    }

    /// The stream itself.
    pub fn into_inner(self) -> T
        ensures { result ≡ self.inner }
    {
        self.inner
    }

    /// How many calls failed since it was wrapped.
    pub fn faults(&self) -> u64
        ensures { result ≡ self.now.faults }
    {
        self.faults
    }

    // Counts a call that failed.
    fn count(&mut self)
        ensures inner { self.new.inner ≡ self.old.inner }
        ensures faults { self.new.faults ≡ one_more self.old.faults }
        ensures grows { self.old.faults ≤ self.new.faults }
    {
        if self.faults < u64::MAX {
            self.faults += 1;
        }
    }
}

impl<T: Read> Counted<T> {
    /// One read of the stream.
    ///
    /// # Errors
    ///
    /// The stream's own, each of which is counted.
    pub fn read(&mut self, buf: &mut [u8]) -> io::Result<usize>
        ensures bound { ReadsAtMost result buf.new }
        ensures bytes { ReadConsumes (T.remaining self.old.inner) (T.remaining self.new.inner) result buf.new }
        ensures counted { CountsFault result self.old.faults self.new.faults }
        ensures grows { self.old.faults ≤ self.new.faults }
    {
        match self.inner.read(buf) {
            Ok(count) => Ok(count),
            Err(error) => {
                self.count();
                Err(error)
            }
        }
    }
}

impl<T: Write> Counted<T> {
    /// One write to the stream.
    ///
    /// # Errors
    ///
    /// The stream's own, each of which is counted, as is a write that takes none of some bytes.
    pub fn write(&mut self, buf: &[u8]) -> io::Result<usize>
        ensures bound { WritesAtMost result buf.now }
        ensures bytes { WriteAppends (T.contents self.old.inner) (T.contents self.new.inner) result buf.now }
        ensures counted { CountsWrite result (length buf.now) self.old.faults self.new.faults }
        ensures grows { self.old.faults ≤ self.new.faults }
    {
        match self.inner.write(buf) {
            Ok(count) => {
                if count == 0 && !buf.is_empty() {
                    self.count();
                }
                Ok(count)
            }
            Err(error) => {
                self.count();
                Err(error)
            }
        }
    }

    /// Flushes the stream.
    ///
    /// # Errors
    ///
    /// The stream's own, each of which is counted.
    pub fn flush(&mut self) -> io::Result<()>
        ensures bytes { Keeps (T.contents self.old.inner) (T.contents self.new.inner) }
        ensures counted { CountsFault result self.old.faults self.new.faults }
        ensures grows { self.old.faults ≤ self.new.faults }
    {
        match self.inner.flush() {
            Ok(()) => Ok(()),
            Err(error) => {
                self.count();
                Err(error)
            }
        }
    }
}
