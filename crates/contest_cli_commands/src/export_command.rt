//! The command `export`: the submissions of the contest that a connection holds, as CSV.
ghost use Rattle.sqlite.specs.Held.{state};
ghost use Rattle.contest_streams.specs.Streams.{stream};
ghost use Rattle.contest_store_tables.specs.Numbered.{IsNumbered};
ghost use Rattle.contest_desk.specs.Serving.{IsSettled};
ghost use Rattle.contest_cli_commands.specs.Exporting.{Exports, ExportsKept};

use crate::opening::open_desk;
use contest_cli_words::CommandError;
use contest_exports::{ExportFault, submissions_csv};
use contest_store::ContestStore;
use contest_streams::Counted;
use sqlite::{Alter, Connection};
use std::alloc::Global;
use std::io::Write;

/// Runs `export`: opens the desk of a contest, and writes its submissions as CSV, one after the
/// other. Answers the exit status: 0 where all of them are on `out`, 1 where something was refused
/// or `out` failed; then `err` is told why, and a front of them may be out. And the connection, on
/// which nothing was changed.
pub fn run_export<S: Alter, O: Write, E: Write>(
    alloc: Global,
    conn: Connection<S>,
    out: &mut Counted<O>,
    err: &mut Counted<E>,
) -> (u8, Connection<S>)
    requires { IsNumbered (state S.Store conn) }
    ensures { Exports (stream O.contents out.old) (stream O.contents out.new)
        (stream E.contents err.old) (stream E.contents err.new) (state S.Store conn) (state S.Store result.1) result.0 }
{
    match open_desk(alloc, conn) {
        Ok(desk) => {
            let mut store = desk.into_store();
            let status = export_from(alloc, &mut store, out, err);
            (status, store.into_connection())
        }
        Err((error, conn)) => (CommandError::Refused(error.refusal()).refuse(err), conn),
    }
}

// The same of a store that is open.
fn export_from<S: ContestStore, O: Write, E: Write>(
    alloc: Global,
    store: &mut S,
    out: &mut Counted<O>,
    err: &mut Counted<E>,
) -> u8
    requires { IsSettled (S.kept store.old) }
    ensures told { ExportsKept (stream O.contents out.old) (stream O.contents out.new)
        (stream E.contents err.old) (stream E.contents err.new) (S.kept store.old) (S.kept store.new) result }
    ensures settled { IsSettled (S.kept store.new) }
{
    match submissions_csv(alloc, store, out) {
        Ok(()) => 0,
        Err(ExportFault::Write) => CommandError::File.refuse(err),
        Err(ExportFault::Store(error)) => CommandError::Refused(error.refusal()).refuse(err),
    }
}
