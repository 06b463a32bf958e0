//! A reader that keeps what was read.

use std::alloc::Global;
use std::io::{self, Read};

/// How many bytes are kept: more than the longest line of a feed or a replay file has.
const KEPT: usize = 67_108_864;

/// How much of what was read is kept.
#[derive(Clone, Copy, PartialEq, Eq)]
enum Extent {
    /// All of it.
    Whole,
    /// Its front.
    Front,
    /// Nothing: there was no memory for it.
    Nothing,
}

/// Passes on what a reader gives, and keeps it up to 64 MiB, if there is memory for it.
#[derive(Drop)]
pub struct Kept<R> {
    inner: R,
    bytes: Vec<u8>,
    was_read: bool,
    extent: Extent,
}

impl<R> Kept<R> {
    /// A reader of which nothing was read yet.
    pub fn new(alloc: Global, inner: R) -> Kept<R> {
        Kept {
            inner,
            bytes: Vec::new(alloc),
            was_read: false,
            extent: Extent::Whole,
        }
    }

    /// What was read, from the first byte on: all of it, or of more than 64 MiB whole lines at its
    /// front. None if there was no memory for it.
    pub fn so_far(&self) -> Option<&[u8]> {
        match self.extent {
            Extent::Whole => Some(self.bytes.as_slice()),
            Extent::Front => Some(whole_lines(&self.bytes)),
            Extent::Nothing => None,
        }
    }

    /// Whether it was asked for a byte.
    pub fn was_read(&self) -> bool {
        self.was_read
    }

    // Keeps bytes that were read. Once some weren't kept, no later ones are.
    fn keep(&mut self, bytes: &[u8]) {
        if self.extent != Extent::Whole {
            return;
        }
        if bytes.len() > KEPT || self.bytes.len() > KEPT - bytes.len() {
            self.extent = Extent::Front;
        } else if self.bytes.extend_from_slice(bytes).is_err() {
            self.extent = Extent::Nothing;
        }
    }
}

// The lines of a text that end in it, without the last one's end; none may be.
fn whole_lines(text: &[u8]) -> &[u8] {
    match text.iter().rposition(|byte| *byte == b'\n') {
        Some(end) => text.get(..end).unwrap_or(&[]),
        None => &[],
    }
}

impl<R: Read> Read for Kept<R> {
    fn read(&mut self, buffer: &mut [u8]) -> io::Result<usize> {
        self.was_read = true;
        let count = self.inner.read(buffer)?;
        if let Some(read) = buffer.get(..count) {
            self.keep(read);
        }
        Ok(count)
    }
}
