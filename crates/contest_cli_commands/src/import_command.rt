//! The command `import`: a file read from a stream, and its rows kept on a connection.
ghost use Rattle.std.specs.Prelude.{IfErr, IfOk, Ok};
ghost use Rattle.sqlite.specs.Held.{state};
ghost use Rattle.sqlite.specs.State.{HasCleanDisk};
ghost use Rattle.contest_streams.specs.Streams.{Stream, stream};
ghost use Rattle.contest_store_tables.specs.Numbered.{IsNumbered};
ghost use Rattle.contest_desk.specs.Items.{HasStoreError};
ghost use Rattle.contest_cli_commands.specs.Import.{Imports, KeepsNothing, LeavesStep, Steps};
ghost use Rattle.contest_cli_commands.specs.Import.{StepsOrFinds, StopsImport};
ghost use Rattle.contest_cli_commands.specs.Inputs.{WasRead};

use crate::added_line::added_line;
use crate::opening::open_desk;
use contest_cli_words::{CommandError, show};
use contest_streams::{Counted, read_limited};
use contest_types::limits::IMPORTED_FILE;
use contest_types::{ImportKind, Moment, Refusal};
use sqlite::{Alter, Connection};
use std::alloc::Global;
use std::io::{Read, Write};

/// Runs `import`: reads a file of some kind and keeps all of its rows, at a moment, in one commit,
/// or none. Answers the exit status, 0 where that was done and `out` is told how many rows were
/// added, 1 where `err` is told why not or that `out` failed; and the connection.
pub fn run_import<S: Alter, R: Read, O: Write, E: Write>(
    alloc: Global,
    conn: Connection<S>,
    now: Moment,
    kind: ImportKind,
    reader: &mut Counted<R>,
    out: &mut Counted<O>,
    err: &mut Counted<E>,
) -> (u8, Connection<S>)
    requires { IsNumbered (state S.Store conn) }
    ensures { Imports now kind (stream R.remaining reader.old) (stream R.remaining reader.new)
        (stream O.contents out.old) (stream O.contents out.new)
        (stream E.contents err.old) (stream E.contents err.new)
        (state S.Store conn) (state S.Store result.1) result.0 }
{
    let (added, conn) = import(alloc, conn, now, kind, reader);
    match added {
        Ok(added) => (show(added_line(added).as_str().as_bytes(), out, err), conn),
        Err(stop) => (stop.refuse(err), conn),
    }
}

// How many rows were added, or why none was; and the connection.
fn import<S: Alter, R: Read>(
    alloc: Global,
    conn: Connection<S>,
    now: Moment,
    kind: ImportKind,
    reader: &mut Counted<R>,
) -> (Result<u64, CommandError>, Connection<S>)
    requires { IsNumbered (state S.Store conn) }
    ensures ok { IfOk result.0 (λ added. HasCleanDisk (state S.Store result.1) → Steps now kind (stream R.remaining reader.old) (state S.Store conn) (state S.Store result.1) (Ok added)) }
    ensures err { IfErr result.0 (StopsImport now kind (stream R.remaining reader.old) (stream R.remaining reader.new) (state S.Store conn) (state S.Store result.1)) }
    ensures leaves { HasCleanDisk (state S.Store result.1) → LeavesStep now kind (stream R.remaining reader.old) (state S.Store conn) (state S.Store result.1) }
{
    let bytes = match read_limited(alloc, reader, IMPORTED_FILE) {
        Ok(bytes) => bytes,
        Err(fault) => return (Err(CommandError::from(fault)), conn),
    };
    let (added, conn) = import_bytes(alloc, conn, now, kind, &bytes);
    match added {
        Ok(added) => (Ok(added), conn),
        Err(refusal) => (Err(CommandError::Refused(refusal)), conn),
    }
}

// The same of the bytes of a file, from whichever stream they were read.
fn import_bytes<S: Alter>(
    alloc: Global,
    conn: Connection<S>,
    now: Moment,
    kind: ImportKind,
    bytes: &[u8],
) -> (Result<u64, Refusal>, Connection<S>)
    requires { IsNumbered (state S.Store conn) }
    ensures steps { (input : Stream) → WasRead input bytes.now → ¬ HasStoreError result.0
        → StepsOrFinds now kind input (state S.Store conn) (state S.Store result.1) result.0 }
    ensures fails { HasStoreError result.0 → KeepsNothing (state S.Store conn) (state S.Store result.1) }
    ensures leaves { (input : Stream) → WasRead input bytes.now → HasCleanDisk (state S.Store result.1)
        → LeavesStep now kind input (state S.Store conn) (state S.Store result.1) }
{
    match open_desk(alloc, conn) {
        Ok(mut desk) => {
            let added = desk.import(alloc, now, kind, bytes);
            (added, desk.into_store().into_connection())
        }
        Err((error, conn)) => (Err(error.refusal()), conn),
    }
}
