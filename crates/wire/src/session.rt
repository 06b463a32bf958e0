//! The steps at the desk of a contest, and what is told of each.
//!
//! Of a connection that is a line `HOW STATUS READS LEFT SIZE`, the bytes that were taken, and a
//! line end: HOW is `answered` (with a status), `nothing`, `read` or `write`, by the stream that
//! failed; then come how often the reader was asked, how many of its bytes are left, and how many
//! were taken. Of an import it is the line that `desk import` prints. At the end of a contest it is
//! `ended FAULTS REFUSALS COMMITS`, as its store counted them.

use crate::desk::desk_of;
use crate::script::{Script, Step};
use crate::streams::{Room, Source, Streams};
use contest_desk::Desk;
use contest_http::{ServeFault, Served, serve_one};
use contest_store::{ContestStore, MemoryStore};
use contest_streams::Counted;
use contest_types::{ImportKind, Moment, Refusal};
use std::io;
use std::io::Write;
use std::test::Fail;

/// Goes the steps of a contest in memory, up to the next beginning.
pub fn session(
    rt: &HostRuntime,
    script: &mut Script<'_>,
    file: &[u8],
    taken: &mut Vec<u8>,
) -> Result<(), Fail> {
    let mut desk = desk_of(rt.alloc(), file)?;
    let gone = go(rt, &mut desk, script, taken);
    let store = desk.into_store();
    tell_store(rt, &store, gone)
}

fn tell_store(rt: &HostRuntime, store: &MemoryStore, gone: io::Result<()>) -> Result<(), Fail> {
    gone?;
    tell_end(rt, store.faults(), store.refusals(), store.commits())?;
    Ok(())
}

/// Tells the end of a contest, with what its store counted.
pub fn tell_end(rt: &HostRuntime, faults: u64, refusals: u64, commits: u64) -> io::Result<()> {
    println!(rt; "ended {faults} {refusals} {commits}")
}

/// Goes the steps at a desk, up to the next beginning.
pub fn go<S: ContestStore>(
    rt: &HostRuntime,
    desk: &mut Desk<S>,
    script: &mut Script<'_>,
    taken: &mut Vec<u8>,
) -> io::Result<()> {
    for _ in 0..u64::MAX {
        match script.step() {
            Some(Step::Serve(now, streams, bytes)) => serve(rt, desk, now, streams, bytes, taken)?,
            Some(Step::Import(now, kind, file)) => import(rt, desk, now, kind, file)?,
            Some(Step::Begin(beginning)) => {
                script.beginning = Some(beginning);
                return Ok(());
            }
            None => return Ok(()),
        }
    }
    Ok(())
}

fn moment(milliseconds: u64) -> io::Result<Moment> {
    match Moment::from_milliseconds(milliseconds) {
        Some(now) => Ok(now),
        None => Err(io::Error::from(io::ErrorKind::InvalidInput)),
    }
}

fn serve<S: ContestStore>(
    rt: &HostRuntime,
    desk: &mut Desk<S>,
    milliseconds: u64,
    streams: Streams,
    input: &[u8],
    taken: &mut Vec<u8>,
) -> io::Result<()> {
    taken.clear();
    let now = moment(milliseconds)?;
    let mut reader = Counted::new(Source {
        input,
        piece: streams.piece,
        interrupts: streams.interrupts,
        calm: streams.first,
        apart: streams.apart,
        fails: streams.reader_fails,
        reads: 0,
    });
    let mut writer = Counted::new(Room {
        taken,
        piece: streams.piece,
        room: streams.room,
        fails: streams.writer_fails,
    });
    let served = serve_one(rt.alloc(), &mut reader, &mut writer, desk, now);
    let source = reader.into_inner();
    let bytes: &[u8] = writer.into_inner().taken;
    tell_served(rt, served, &source, bytes)
}

fn tell_served(
    rt: &HostRuntime,
    served: Result<Served, ServeFault>,
    source: &Source<'_>,
    taken: &[u8],
) -> io::Result<()> {
    let (how, status) = match served {
        Ok(Served::Answered(status)) => ("answered", status),
        Ok(Served::Nothing) => ("nothing", 0),
        Err(ServeFault::Read) => ("read", 0),
        Err(ServeFault::Write) => ("write", 0),
    };
    let (reads, left, size) = (source.reads, source.input.len(), taken.len());
    println!(rt; "{how} {status} {reads} {left} {size}")?;
    rt.stdout().write_all(taken)?;
    println!(rt; "")
}

fn import<S: ContestStore>(
    rt: &HostRuntime,
    desk: &mut Desk<S>,
    milliseconds: u64,
    kind: ImportKind,
    file: &[u8],
) -> io::Result<()> {
    let now = moment(milliseconds)?;
    match desk.import(rt.alloc(), now, kind, file) {
        Ok(added) => println!(rt; "added {added}"),
        Err(refusal) => tell_refusal(rt, refusal),
    }
}

/// Tells a refusal, as the program does.
pub fn tell_refusal(rt: &HostRuntime, refusal: Refusal) -> io::Result<()> {
    let row = refusal.row();
    let (number, name) = (row.number, row.name);
    match refusal {
        Refusal::ImportRow(record, cause) => {
            let cause = cause.name();
            println!(rt; "refused: E{number} {name} {record} {cause}")
        }
        _ => println!(rt; "refused: E{number} {name}"),
    }
}
