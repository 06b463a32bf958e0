//! The head of a request, byte by byte.
ghost use Rattle.std.specs.Prelude.{◌≡◌, ◌≤◌, ◌∷◌, ◌++◌, [], false, IfErr, IfOk, MatchOption};
ghost use Rattle.std.specs.Prelude.{OnErr, OnOk, length};
ghost use Rattle.std.specs.Io.KnownBytes.{Consumes, IsAtEnd, Keeps};
ghost use Rattle.contest_streams.specs.Streams.{Fails, stream};
ghost use Rattle.contest_http.specs.Head.{TakesHead, TakesHeadPart, begins_end, has_end};

use contest_streams::{Counted, read_piece};
use contest_types::limits::REQUEST_HEAD;
use std::alloc::Global;
use std::io::Read;

/// Why the bytes of a request weren't read.
#[derive(Clone, Copy, PartialEq, Eq)]
pub(crate) enum RequestFault {
    /// A read failed, or was interrupted once too often.
    Read,
    /// Memory for the bytes was refused.
    Memory,
}

/// Takes the head of what the reader has left: the shortest front with the end of a head; where
/// there is none, all that is left, but at most 16,384 bytes.
pub(crate) fn read_head<R: Read>(
    alloc: Global,
    reader: &mut Counted<R>,
    retries: &mut u32,
) -> Result<Vec<u8>, RequestFault>
    ensures ok { IfOk result (λ head. TakesHead (R.remaining reader.old.inner) (R.remaining reader.new.inner) head.items) }
    ensures err { OnErr result (TakesHeadPart (R.remaining reader.old.inner) (R.remaining reader.new.inner)) }
    ensures failed { result ≡ Err RequestFault.Read → Fails (stream R.remaining reader.old) (stream R.remaining reader.new) }
    ensures count { reader.old.faults ≤ reader.new.faults }
{
    let mut bytes = Vec::new(alloc);
    while bytes.len() < REQUEST_HEAD {
        match next_byte(reader, retries)? {
            None => return Ok(bytes),
            Some(byte) => {
                if add_byte(&mut bytes, byte)? {
                    return Ok(bytes);
                }
            }
        }
    }
    Ok(bytes)
}

// The next byte, none at the end. The error is `Read`.
fn next_byte<R: Read>(
    reader: &mut Counted<R>,
    retries: &mut u32,
) -> Result<Option<u8>, RequestFault>
    ensures some { IfOk result (λ found. MatchOption found
        (IsAtEnd (R.remaining reader.new.inner) × Consumes (R.remaining reader.old.inner) (R.remaining reader.new.inner) [])
        (λ byte. Consumes (R.remaining reader.old.inner) (R.remaining reader.new.inner) (byte ∷ []))) }
    ensures kept { OnErr result (Keeps (R.remaining reader.old.inner) (R.remaining reader.new.inner)) }
    ensures fault { IfErr result (λ fault. fault ≡ RequestFault.Read) }
    ensures failed { OnErr result (Fails (stream R.remaining reader.old) (stream R.remaining reader.new)) }
    ensures count { reader.old.faults ≤ reader.new.faults }
{
    let mut byte = [0u8; 1];
    match read_piece(reader, &mut byte, retries) {
        Ok(0) => Ok(None),
        Ok(_) => Ok(Some(byte[0])),
        Err(_) => Err(RequestFault::Read),
    }
}

// Puts a byte at the end of bytes without the end of a head, and says whether it is there then. A
// head's end has three bytes at most, so the last three are enough to look at.
fn add_byte(bytes: &mut Vec<u8>, byte: u8) -> Result<bool, RequestFault>
    requires { has_end bytes.old.items ≡ false }
    ensures bytes { OnOk result (bytes.new.items ≡ bytes.old.items ++ byte ∷ []) }
    ensures end { IfOk result (λ end. end ≡ has_end (bytes.old.items ++ byte ∷ [])) }
    ensures fault { IfErr result (λ fault. fault ≡ RequestFault.Memory) }
{
    let from = bytes.len().saturating_sub(2);
    match bytes.push(byte) {
        Ok(()) => Ok(has_end(&bytes[from..])),
        Err(_) => Err(RequestFault::Memory),
    }
}

/// Whether the end of a head stands in the bytes.
pub(crate) fn has_end(bytes: &[u8]) -> bool
    ensures { result ≡ has_end bytes.now }
{
    let mut at = 0;
    while at < bytes.len() {
        if begins_end(&bytes[at..]) {
            return true;
        }
        at += 1;
    }
    false
}

// Whether the bytes begin with the end of a head.
fn begins_end(bytes: &[u8]) -> bool
    ensures { result ≡ begins_end bytes.now }
{
    if bytes.len() < 2 || bytes[0] != b'\n' {
        return false;
    }
    if bytes[1] == b'\n' {
        return true;
    }
    bytes.len() >= 3 && bytes[1] == b'\r' && bytes[2] == b'\n'
}
