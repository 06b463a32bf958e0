//! Writing to a stream whose bytes are all known before the first one goes out.
ghost use Rattle.std.specs.Prelude.{◌≡◌, OnOk, OnErr};
ghost use Rattle.std.specs.Io.KnownBytes.{Appends};
ghost use Rattle.contest_streams.specs.Streams.{AppendsFront, Fails, stream};

use crate::Counted;
use std::io::Write;

/// A stream that took not all of the bytes, or couldn't be flushed.
#[derive(Clone, Copy, PartialEq, Eq)]
pub struct OutputFault;

/// Writes all the bytes, by calls of `write` alone, and flushes.
///
/// # Errors
///
/// An error of any kind, also of an interrupted call, and a write that takes nothing are a fault; a
/// front of the bytes is out then.
pub fn write_all<W: Write>(out: &mut Counted<W>, bytes: &[u8]) -> Result<(), OutputFault>
    ensures ok { OnOk result (Appends (W.contents out.old.inner) (W.contents out.new.inner) bytes.now) }
    ensures err { OnErr result (AppendsFront (W.contents out.old.inner) (W.contents out.new.inner) bytes.now) }
    ensures fault { OnErr result (Fails (stream W.contents out.old) (stream W.contents out.new)) }
    ensures calm { OnOk result (out.new.faults ≡ out.old.faults) }
{
    let mut sent = 0;
    while sent < bytes.len() {
        let Ok(count) = out.write(&bytes[sent..]) else {
            return Err(OutputFault);
        };
        if count == 0 {
            return Err(OutputFault);
        }
        sent += count;
    }
    match out.flush() {
        Ok(()) => Ok(()),
        Err(_) => Err(OutputFault),
    }
}
