//! The command `upgrade`: tables of the first schema become those of today.
ghost use Rattle.sqlite.specs.Held.{state};
ghost use Rattle.contest_streams.specs.Streams.{stream};
ghost use Rattle.contest_store_tables.specs.Numbered.{IsNumbered};
ghost use Rattle.contest_cli_commands.specs.Upgrade.{Upgrades};

use contest_cli_words::{CommandError, show};
use contest_store_sqlite::Store;
use contest_streams::Counted;
use sqlite::{Alter, Connection};
use std::alloc::Global;
use std::io::Write;

/// What is told of the schema of today.
const SCHEMA: &[u8] = b"schema 2\n";

/// Runs `upgrade`: tables of the first schema are made those of today, in one commit; those of
/// today stay. Answers the exit status: 0 where the tables are of today's schema, and `out` is told
/// so, 1 where something was refused or `out` failed; then `err` is told why. And the connection.
pub fn run_upgrade<S: Alter, O: Write, E: Write>(
    alloc: Global,
    conn: Connection<S>,
    out: &mut Counted<O>,
    err: &mut Counted<E>,
) -> (u8, Connection<S>)
    requires { IsNumbered (state S.Store conn) }
    ensures { Upgrades (stream O.contents out.old) (stream O.contents out.new)
        (stream E.contents err.old) (stream E.contents err.new) (state S.Store conn) (state S.Store result.1) result.0 }
{
    let (moved, conn) = Store::upgrade(alloc, conn);
    match moved {
        Ok(_) => (show(SCHEMA, out, err), conn),
        Err(refusal) => (CommandError::Refused(refusal).refuse(err), conn),
    }
}
