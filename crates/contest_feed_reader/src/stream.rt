//! Reading a feed from a stream, of which a piece at a time is held.
ghost use Rattle.std.specs.Prelude.{◌≡◌, ◌≤◌, ◌<◌, List, ℕ, true, false, Ok, IfErr, IfOk, IfSome};
ghost use Rattle.std.specs.Prelude.{OnOk, length};
ghost use Rattle.std.specs.Io.KnownBytes.{Consumes, IsAtEnd};
ghost use Rattle.contest_streams.specs.Streams.{stream};
ghost use Rattle.contest_feed_reader.specs.LinesLeft.{IsWithin, bytes_read};
ghost use Rattle.contest_feed_reader.specs.StreamLeft.{Stops, StopsTables, Takes};
ghost use Rattle.contest_feed_reader.specs.Tables.{tables_in};

use crate::reading::Reading;
use crate::tables::Tables;
use contest_streams::{Counted, RETRIES, read_piece};
use contest_types::Refusal;
use std::alloc::{AllocError, Global};
use std::io::Read;

/// How many bytes one read asks for.
const PIECE: usize = 65_536;

/// Why no contest was read.
#[derive(Clone, Copy, PartialEq, Eq)]
pub enum FeedFault {
    /// A read failed, or was interrupted once too often.
    File,
    /// The bytes are refused, or memory was.
    Refused(Refusal),
}

/// The collections of the feed that the reader has left.
///
/// # Errors
///
/// `File` where a read fails; else the feed's first fault, or want of memory.
pub(crate) fn read_tables<R: Read>(
    alloc: Global,
    reader: &mut Counted<R>,
) -> Result<Tables, FeedFault>
    ensures ok { IfOk result (λ t. IfSome (R.remaining reader.old.inner) (λ bytes. tables_in bytes ≡ Ok t)) }
    ensures end { OnOk result (IsAtEnd (R.remaining reader.new.inner)) }
    ensures err { IfErr result (λ fault. StopsTables fault (stream R.remaining reader.old) (stream R.remaining reader.new)) }
{
    match zeros(alloc, PIECE) {
        Ok(mut piece) => read_by(alloc, reader, &mut piece),
        Err(AllocError) => Err(FeedFault::Refused(Refusal::Memory)),
    }
}

// So many zeros.
fn zeros(alloc: Global, count: usize) -> Result<Vec<u8>, AllocError>
    ensures { IfOk result (λ v. length v.items ≡ count) }
{
    vec![in alloc; 0u8; count]
}

// `read_tables`, where each read asks for no more than `piece` can hold.
fn read_by<R: Read>(
    alloc: Global,
    reader: &mut Counted<R>,
    piece: &mut [u8],
) -> Result<Tables, FeedFault>
    requires { 0 < length piece.old }
    ensures ok { IfOk result (λ t. IfSome (R.remaining reader.old.inner) (λ bytes. tables_in bytes ≡ Ok t)) }
    ensures end { OnOk result (IsAtEnd (R.remaining reader.new.inner)) }
    ensures err { IfErr result (λ fault. StopsTables fault (stream R.remaining reader.old) (stream R.remaining reader.new)) }
{
    let mut reading = Reading::new(alloc);
    match read_all(alloc, reader, piece, &mut reading) {
        Ok(()) => match reading.finish(alloc) {
            Ok(tables) => Ok(tables),
            Err(refusal) => Err(FeedFault::Refused(refusal)),
        },
        Err(fault) => Err(fault),
    }
}

// Takes all bytes that the reader has left.
fn read_all<R: Read>(
    alloc: Global,
    reader: &mut Counted<R>,
    piece: &mut [u8],
    reading: &mut Reading,
) -> Result<(), FeedFault>
    requires room { 0 < length piece.old }
    requires within { IsWithin reading.old }
    ensures takes { OnOk result (Takes reading.old reading.new (R.remaining reader.old.inner) (R.remaining reader.new.inner)) }
    ensures end { OnOk result (IsAtEnd (R.remaining reader.new.inner)) }
    ensures within { OnOk result (IsWithin reading.new) }
    ensures err { IfErr result (λ fault. Stops fault reading.old (stream R.remaining reader.old) (stream R.remaining reader.new)) }
{
    let mut retries = RETRIES;
    while read_next(alloc, reader, piece, &mut retries, reading)? {}
    Ok(())
}

// Takes what one read gives, and answers whether there was more.
fn read_next<R: Read>(
    alloc: Global,
    reader: &mut Counted<R>,
    piece: &mut [u8],
    retries: &mut u32,
    reading: &mut Reading,
) -> Result<bool, FeedFault>
    requires room { 0 < length piece.old }
    requires within { IsWithin reading.old }
    ensures takes { OnOk result (Takes reading.old reading.new (R.remaining reader.old.inner) (R.remaining reader.new.inner)) }
    ensures more { result ≡ Ok true → bytes_read reading.old < bytes_read reading.new }
    ensures end { result ≡ Ok false → IsAtEnd (R.remaining reader.new.inner) }
    ensures within { OnOk result (IsWithin reading.new) }
    ensures err { IfErr result (λ fault. Stops fault reading.old (stream R.remaining reader.old) (stream R.remaining reader.new)) }
    ensures count { reader.old.faults ≤ reader.new.faults }
{
    let Ok(count) = read_piece(reader, piece, retries) else {
        return Err(FeedFault::File);
    };
    if count == 0 {
        return Ok(false);
    }
    match reading.take(alloc, &piece[..count]) {
        Ok(()) => Ok(true),
        Err(refusal) => Err(FeedFault::Refused(refusal)),
    }
}
