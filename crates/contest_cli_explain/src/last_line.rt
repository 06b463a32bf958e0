//! A writer that keeps what was written last.

use std::io::{self, Write};

/// Room for the longest line that tells of a refusal, and more.
const ROOM: usize = 200;

/// Passes all on to a writer, and keeps the last line.
#[derive(Drop)]
pub struct LastLine<W> {
    inner: W,
    line: [u8; ROOM],
    length: usize,
    is_ended: bool,
}

impl<W> LastLine<W> {
    /// A writer to which nothing was written yet.
    pub fn new(inner: W) -> LastLine<W> {
        LastLine {
            inner,
            line: [0u8; ROOM],
            length: 0,
            is_ended: false,
        }
    }

    /// The last line without its end, or what was written of it; its first 200 bytes alone.
    pub fn line(&self) -> &[u8] {
        match self.line.get(..self.length) {
            Some(line) => line,
            None => &[],
        }
    }

    // Keeps bytes that went out.
    fn keep(&mut self, bytes: &[u8]) {
        for byte in bytes {
            self.keep_byte(*byte);
        }
    }

    fn keep_byte(&mut self, byte: u8) {
        if self.is_ended {
            self.length = 0;
            self.is_ended = false;
        }
        if byte == b'\n' {
            self.is_ended = true;
        } else if self.length < ROOM {
            self.line[self.length] = byte;
            self.length += 1;
        }
    }
}

impl<W: Write> Write for LastLine<W> {
    fn write(&mut self, bytes: &[u8]) -> io::Result<usize> {
        let count = self.inner.write(bytes)?;
        if let Some(written) = bytes.get(..count) {
            self.keep(written);
        }
        Ok(count)
    }

    fn flush(&mut self) -> io::Result<()> {
        self.inner.flush()
    }
}
