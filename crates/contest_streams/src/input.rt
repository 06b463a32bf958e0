//! Reading a stream to its end, up to a limit.
ghost use Rattle.std.specs.Prelude.{◌≡◌, ◌≤◌, ◌<◌, ◌+◌, ◌^◌, IfOk, IfErr, OnErr, length};
ghost use Rattle.std.specs.Io.KnownBytes.{ReadConsumes};
ghost use Rattle.contest_streams.specs.Streams.{Fails, ReadsAll, TakesFront, TakesUpTo, stream};

use crate::Counted;
use std::alloc::{AllocError, Global};
use std::io::{ErrorKind, Read};

/// How many bytes one read asks for.
const PIECE: usize = 65_536;

/// How often an interrupted read is tried again, over all the reads of one input.
pub const RETRIES: u32 = 1_000;

/// Why a stream wasn't read to its end.
#[derive(Clone, Copy, PartialEq, Eq)]
pub enum InputFault {
    /// A read failed, or was interrupted once too often.
    File,
    /// More bytes than the limit.
    TooLarge,
    /// Memory for the bytes was refused.
    Memory,
}

impl From<AllocError> for InputFault {
    ghost use Rattle.contest_streams.specs.declared.input.InputFault.TheVariants.{Memory};

    ghost from_gives = { λ _ fault. fault ≡ Memory };

    fn from(_error: AllocError) -> InputFault {
        InputFault::Memory
    }
}

/// All bytes that the reader has left. Reads at most `limit + 1` bytes, and tries an interrupted
/// read again, 1,000 times in all.
///
/// # Errors
///
/// `TooLarge` where more than `limit` bytes are left, `File` where a read fails, and `Memory` where
/// a growth is refused; what was read until then is gone.
pub fn read_limited<R: Read>(
    alloc: Global,
    reader: &mut Counted<R>,
    limit: usize,
) -> Result<Vec<u8>, InputFault>
    requires { limit + 1 < 2 ^ 64 }
    ensures ok { IfOk result (λ v. ReadsAll (R.remaining reader.old.inner) (R.remaining reader.new.inner) limit v.items) }
    ensures too_large { result ≡ Err InputFault.TooLarge
        → TakesFront (R.remaining reader.old.inner) (R.remaining reader.new.inner) (limit + 1) }
    ensures err { OnErr result (TakesUpTo (R.remaining reader.old.inner) (R.remaining reader.new.inner) (limit + 1)) }
    ensures failed { result ≡ Err InputFault.File → Fails (stream R.remaining reader.old) (stream R.remaining reader.new) }
{
    match zeros(alloc, PIECE) {
        Ok(mut piece) => read_by(alloc, reader, limit, &mut piece),
        Err(AllocError) => Err(InputFault::Memory),
    }
}

// So many zeros.
fn zeros(alloc: Global, count: usize) -> Result<Vec<u8>, AllocError>
    ensures { IfOk result (λ v. length v.items ≡ count) }
{
    vec![in alloc; 0u8; count]
}

// `read_limited`, where each read asks for no more than `piece` can hold.
fn read_by<R: Read>(
    alloc: Global,
    reader: &mut Counted<R>,
    limit: usize,
    piece: &mut [u8],
) -> Result<Vec<u8>, InputFault>
    requires room { 0 < length piece.old }
    requires limit { limit + 1 < 2 ^ 64 }
    ensures ok { IfOk result (λ v. ReadsAll (R.remaining reader.old.inner) (R.remaining reader.new.inner) limit v.items) }
    ensures too_large { result ≡ Err InputFault.TooLarge
        → TakesFront (R.remaining reader.old.inner) (R.remaining reader.new.inner) (limit + 1) }
    ensures err { OnErr result (TakesUpTo (R.remaining reader.old.inner) (R.remaining reader.new.inner) (limit + 1)) }
    ensures failed { result ≡ Err InputFault.File → Fails (stream R.remaining reader.old) (stream R.remaining reader.new) }
{
    let mut bytes = Vec::new(alloc);
    let mut retries = RETRIES;
    while bytes.len() <= limit {
        let wanted = piece.len().min(limit + 1 - bytes.len());
        let count = read_piece(reader, &mut piece[..wanted], &mut retries)?;
        if count == 0 {
            return Ok(bytes);
        }
        bytes.extend_from_slice(&piece[..count])?;
    }
    Err(InputFault::TooLarge)
}

/// One read, which gives so many bytes at the front of `piece`; none at the end, or where `piece`
/// has no room. An interrupted one is tried again as often as `retries` says, which counts down.
///
/// # Errors
///
/// `File` alone: a read failed, or was interrupted once too often. Nothing is taken then.
pub fn read_piece<R: Read>(
    reader: &mut Counted<R>,
    piece: &mut [u8],
    retries: &mut u32,
) -> Result<usize, InputFault>
    ensures bound { IfOk result (λ count. count ≤ length piece.new) }
    ensures bytes { ReadConsumes (R.remaining reader.old.inner) (R.remaining reader.new.inner) result piece.new }
    ensures fault { IfErr result (λ fault. fault ≡ InputFault.File) }
    ensures failed { OnErr result (Fails (stream R.remaining reader.old) (stream R.remaining reader.new)) }
    ensures count { reader.old.faults ≤ reader.new.faults }
{
    loop {
        match reader.read(piece) {
            Ok(count) => return Ok(count),
            Err(error) => {
                if error.kind() != ErrorKind::Interrupted || *retries == 0 {
                    return Err(InputFault::File);
                }
                *retries -= 1;
            }
        }
    }
}
