//! The script: steps one after the other, each a line, so many bytes as its last word says, and a
//! line end.
//!
//! - `contest SIZE`: the file of a new contest, as `desk init` takes it, which is kept in memory.
//!   All steps up to the next beginning are at its desk.
//! - `create FOUND DATABASE FOUND LOG SIZE`: the same of a contest that is kept in tables, over a
//!   database file and its log. FOUND says of each what is found in it: `no` byte yet, the `base`,
//!   or what the last such beginning left: all that was `written`, or what was `synced` of it. The
//!   database file answers DATABASE calls, its log LOG, and each one after fails.
//! - `open FOUND DATABASE FOUND LOG 0`: the contest that stands in these files, and `upgrade` one
//!   of the first schema.
//! - `run FOUND DATABASE FOUND LOG SIZE`: SQL that is run over them. After it, as after `upgrade`,
//!   there is no desk.
//! - `base 0`: what was written last is the base from now on.
//! - `import MOMENT KIND SIZE`: a file that is imported. A moment is in milliseconds since 1970.
//! - `serve MOMENT PIECE INTERRUPTS FIRST APART END ROOM STOP SIZE`: a connection on which these
//!   bytes come. A read gets and a write takes at most PIECE bytes; INTERRUPTS reads are
//!   interrupted, the first after FIRST that get some, each other after APART more; after the last
//!   byte the reader `ends` or `fails`. ROOM bytes of the replies are taken, and then a write
//!   `fails` or is `full`: it takes nothing.
//!
//! What is no step ends the script.

use crate::shelf::{Found, Fused};
use crate::streams::Streams;
use contest_types::ImportKind;

/// What is left of the script, behind the next beginning once that was read.
#[derive(Drop)]
pub struct Script<'a> {
    pub rest: &'a [u8],
    pub beginning: Option<Beginning<'a>>,
}

/// One step, with its moment in milliseconds and its bytes.
#[derive(Clone, Copy)]
pub enum Step<'a> {
    Begin(Beginning<'a>),
    Import(u64, ImportKind, &'a [u8]),
    Serve(u64, Streams, &'a [u8]),
}

/// Where a desk comes from.
#[derive(Clone, Copy)]
pub enum Beginning<'a> {
    /// A new contest in memory.
    InMemory(&'a [u8]),
    /// What is done with files.
    OverFiles(FileTask<'a>),
    /// What was written last becomes the base.
    Base,
}

/// What is done with a database file and its log.
#[derive(Clone, Copy)]
pub struct FileTask<'a> {
    pub work: FileWork<'a>,
    pub database: Fused,
    pub log: Fused,
}

#[derive(Clone, Copy)]
pub enum FileWork<'a> {
    Create(&'a [u8]),
    Open,
    Upgrade,
    Run(&'a [u8]),
}

impl<'a> Script<'a> {
    /// The next beginning, if one is left. The steps before it have no desk, and are passed over.
    pub fn beginning(&mut self) -> Option<Beginning<'a>> {
        if let Some(beginning) = self.beginning.take() {
            return Some(beginning);
        }
        for _ in 0..u64::MAX {
            if let Step::Begin(beginning) = self.step()? {
                return Some(beginning);
            }
        }
        None
    }

    /// The next step, if one is left.
    pub fn step(&mut self) -> Option<Step<'a>> {
        let line = self.line()?;
        let (front, size) = line.rsplit_once(' ')?;
        let bytes = self.bytes(size.parse().ok()?)?;
        step_of(front, bytes)
    }

    /// The next line, without its end.
    fn line(&mut self) -> Option<&'a str> {
        let end = self.rest.iter().position(|byte| *byte == b'\n')?;
        let line = self.rest.get(..end)?;
        self.rest = self.rest.get(end + 1..)?;
        std::str::from_utf8(line).ok()
    }

    /// So many bytes; a line end stands behind them.
    fn bytes(&mut self, count: usize) -> Option<&'a [u8]> {
        let bytes = self.rest.get(..count)?;
        let (_, rest) = self.rest.get(count..)?.split_first()?;
        self.rest = rest;
        Some(bytes)
    }
}

/// The step that a line asks for, without its last word.
fn step_of<'a>(line: &str, bytes: &'a [u8]) -> Option<Step<'a>> {
    let (word, rest) = line.split_once(' ').unwrap_or((line, ""));
    match word {
        "contest" => Some(Step::Begin(Beginning::InMemory(bytes))),
        "base" => Some(Step::Begin(Beginning::Base)),
        "create" => over_files(FileWork::Create(bytes), rest),
        "open" => over_files(FileWork::Open, rest),
        "upgrade" => over_files(FileWork::Upgrade, rest),
        "run" => over_files(FileWork::Run(bytes), rest),
        "import" => import_of(rest, bytes),
        "serve" => serve_of(rest, bytes),
        _ => None,
    }
}

fn over_files<'a>(work: FileWork<'a>, words: &str) -> Option<Step<'a>> {
    let (database_found, words) = words.split_once(' ')?;
    let (database_calls, words) = words.split_once(' ')?;
    Some(Step::Begin(Beginning::OverFiles(FileTask {
        work,
        database: fused_of(database_found, database_calls)?,
        log: log_of(words)?,
    })))
}

fn log_of(words: &str) -> Option<Fused> {
    let (found, calls) = words.split_once(' ')?;
    fused_of(found, calls)
}

fn fused_of(found: &str, calls: &str) -> Option<Fused> {
    Some(Fused {
        found: found_named(found)?,
        calls: calls.parse().ok()?,
    })
}

fn found_named(name: &str) -> Option<Found> {
    match name {
        "no" => Some(Found::Nothing),
        "base" => Some(Found::Base),
        "written" => Some(Found::Written),
        "synced" => Some(Found::Synced),
        _ => None,
    }
}

fn import_of<'a>(words: &str, bytes: &'a [u8]) -> Option<Step<'a>> {
    let (moment, kind) = words.split_once(' ')?;
    let milliseconds = moment.parse().ok()?;
    Some(Step::Import(milliseconds, ImportKind::named(kind)?, bytes))
}

fn serve_of<'a>(words: &str, bytes: &'a [u8]) -> Option<Step<'a>> {
    let (moment, words) = words.split_once(' ')?;
    let milliseconds = moment.parse().ok()?;
    Some(Step::Serve(milliseconds, streams_of(words)?, bytes))
}

fn streams_of(words: &str) -> Option<Streams> {
    let (piece, words) = words.split_once(' ')?;
    let (interrupts, words) = words.split_once(' ')?;
    let (first, words) = words.split_once(' ')?;
    let (apart, words) = words.split_once(' ')?;
    let (end, words) = words.split_once(' ')?;
    let (room, stop) = words.split_once(' ')?;
    Some(Streams {
        piece: piece.parse().ok()?,
        interrupts: interrupts.parse().ok()?,
        first: first.parse().ok()?,
        apart: apart.parse().ok()?,
        reader_fails: end == "fails",
        room: room.parse().ok()?,
        writer_fails: stop == "fails",
    })
}
