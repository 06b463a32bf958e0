//! Readers and writers that fail, stop short or are interrupted.

ghost use Rattle.std.specs.Prelude.{◌≤◌, length};

use std::io;
use std::io::{Read, Write};

/// How the streams of a connection behave.
#[derive(Clone, Copy)]
pub struct Streams {
    pub piece: usize,
    pub interrupts: u32,
    pub first: u32,
    pub apart: u32,
    pub reader_fails: bool,
    pub room: usize,
    pub writer_fails: bool,
}

/// Gives its input in pieces, and then ends or fails. So many of its reads are interrupted, the
/// next one after `calm` others, and each further one after `apart`. It counts its calls.
#[derive(Drop)]
pub struct Source<'a> {
    pub input: &'a [u8],
    pub piece: usize,
    pub interrupts: u32,
    pub calm: u32,
    pub apart: u32,
    pub fails: bool,
    pub reads: u64,
}

/// Moves as many bytes as both sides and the piece allow from the input to the buffer.
fn take_piece(input: &mut &[u8], buf: &mut [u8], piece: usize) -> usize
    ensures { result ≤ length buf.old }
{
    let count = input.len().min(buf.len()).min(piece);
    buf[..count].copy_from_slice(&input[..count]);
    *input = &input[count..];
    count
}

impl Source<'_> {
    /// Whether the next read is interrupted.
    fn is_interrupted(&mut self) -> bool {
        if self.interrupts == 0 {
            return false;
        }
        if self.calm > 0 {
            self.calm -= 1;
            return false;
        }
        self.interrupts -= 1;
        self.calm = self.apart;
        true
    }
}

impl Read for Source<'_> {
    fn read(&mut self, buf: &mut [u8]) -> io::Result<usize> {
        self.reads = self.reads.saturating_add(1);
        if self.is_interrupted() {
            return Err(io::Error::from(io::ErrorKind::Interrupted));
        }
        if self.input.is_empty() && self.fails {
            return Err(io::Error::from(io::ErrorKind::BrokenPipe));
        }
        Ok(take_piece(&mut self.input, buf, self.piece))
    }
}

/// Takes so many bytes in pieces, and then fails, at a flush too, or takes no more.
#[derive(Drop)]
pub struct Room<'a> {
    pub taken: &'a mut Vec<u8>,
    pub piece: usize,
    pub room: usize,
    pub fails: bool,
}

impl Write for Room<'_> {
    fn write(&mut self, buf: &[u8]) -> io::Result<usize> {
        let count = buf.len().min(self.room).min(self.piece);
        if count == 0 && self.fails && !buf.is_empty() {
            return Err(io::Error::from(io::ErrorKind::BrokenPipe));
        }
        self.taken.extend_from_slice(&buf[..count])?;
        self.room -= count;
        Ok(count)
    }

    fn flush(&mut self) -> io::Result<()> {
        if self.room == 0 && self.fails {
            return Err(io::Error::from(io::ErrorKind::BrokenPipe));
        }
        Ok(())
    }
}
