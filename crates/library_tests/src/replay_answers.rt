//! The command `replay` over memory: words and a file, and what comes of them.

use contest_fixtures::text_of;
use contest_streams::Counted;
use std::alloc::Global;
use std::fmt;
use std::io::{Read, Write};

/// What a call gave: its status, and what it wrote to standard output and to standard error.
#[derive(Drop)]
pub struct Answer {
    pub status: u8,
    pub out: Vec<u8>,
    pub err: Vec<u8>,
}

impl Answer {
    /// Whether it is this status, with these texts.
    pub fn is(&self, status: u8, out: &str, err: &str) -> bool {
        self.status == status
            && self.out.as_slice() == out.as_bytes()
            && self.err.as_slice() == err.as_bytes()
    }
}

/// The status, and both texts below it.
impl fmt::Display for Answer {
    fn fmt<W: fmt::Write>(&self, f: &mut fmt::Formatter<W>) -> fmt::Result {
        let status = self.status;
        let out = text_of(&self.out);
        let err = text_of(&self.err);
        write!(f, "{status}\n{out}{err}")
    }
}

/// Runs the command over streams whose failures nobody counts.
pub fn replay<R: Read, O: Write, E: Write>(
    alloc: Global,
    words: &[&str],
    reader: &mut R,
    out: &mut O,
    err: &mut E,
) -> u8 {
    let mut reader = Counted::new(reader);
    let mut out = Counted::new(out);
    let mut err = Counted::new(err);
    contest_cli_replay::replay(alloc, words, &mut reader, &mut out, &mut err)
}

/// What the command gives for what a reader gives.
pub fn answer_to<R: Read>(alloc: Global, words: &[&str], reader: &mut R) -> Answer {
    let mut out = Vec::new(alloc);
    let mut err = Vec::new(alloc);
    let status = replay(alloc, words, reader, &mut out, &mut err);
    Answer { status, out, err }
}
