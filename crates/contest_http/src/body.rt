//! The body of a request.
ghost use Rattle.std.specs.Prelude.{◌≡◌, ◌≤◌, ◌<◌, List, ℕ, Some, IfOk, IsSome, OnErr, length};
ghost use Rattle.std.specs.Option.{option_map};
ghost use Rattle.contest_streams.specs.Streams.{Fails, stream};
ghost use Rattle.contest_http.specs.Bodies.{TakesBody, TakesBodyPart};

use crate::head::RequestFault;
use contest_streams::{Counted, read_piece};
use std::alloc::{AllocError, Global};
use std::io::Read;

/// How many bytes one read asks for.
const PIECE: usize = 65_536;

/// Takes a body of so many bytes; none where the input ends before.
pub(crate) fn read_body<R: Read>(
    alloc: Global,
    reader: &mut Counted<R>,
    size: usize,
    retries: &mut u32,
) -> Result<Option<Vec<u8>>, RequestFault>
    ensures known { IsSome (R.remaining reader.old.inner) → IsSome (R.remaining reader.new.inner) }
    ensures ok { IfOk result (λ body. (input left : List ℕ) → R.remaining reader.old.inner ≡ Some input
        → R.remaining reader.new.inner ≡ Some left → TakesBody input left size (option_map (λ v. v.items) body)) }
    ensures err { OnErr result (TakesBodyPart (R.remaining reader.old.inner) (R.remaining reader.new.inner) size) }
    ensures failed { result ≡ Err RequestFault.Read → Fails (stream R.remaining reader.old) (stream R.remaining reader.new) }
    ensures count { reader.old.faults ≤ reader.new.faults }
{
    match vec![in alloc; 0u8; PIECE.min(size)] {
        Ok(mut piece) => read_by(alloc, reader, size, piece.as_mut_slice(), retries),
        Err(AllocError) => Err(RequestFault::Memory),
    }
}

// `read_body`, where each read asks for no more than `piece` can hold.
fn read_by<R: Read>(
    alloc: Global,
    reader: &mut Counted<R>,
    size: usize,
    piece: &mut [u8],
    retries: &mut u32,
) -> Result<Option<Vec<u8>>, RequestFault>
    requires room { 0 < size → 0 < length piece.old }
    ensures known { IsSome (R.remaining reader.old.inner) → IsSome (R.remaining reader.new.inner) }
    ensures ok { IfOk result (λ body. (input left : List ℕ) → R.remaining reader.old.inner ≡ Some input
        → R.remaining reader.new.inner ≡ Some left → TakesBody input left size (option_map (λ v. v.items) body)) }
    ensures err { OnErr result (TakesBodyPart (R.remaining reader.old.inner) (R.remaining reader.new.inner) size) }
    ensures failed { result ≡ Err RequestFault.Read → Fails (stream R.remaining reader.old) (stream R.remaining reader.new) }
    ensures count { reader.old.faults ≤ reader.new.faults }
{
    let mut bytes = Vec::new(alloc);
    while bytes.len() < size {
        let wanted = piece.len().min(size - bytes.len());
        let Ok(count) = read_piece(reader, &mut piece[..wanted], retries) else {
            return Err(RequestFault::Read);
        };
        if count == 0 {
            return Ok(None);
        }
        if bytes.extend_from_slice(&piece[..count]).is_err() {
            return Err(RequestFault::Memory);
        }
    }
    Ok(Some(bytes))
}
