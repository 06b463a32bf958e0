//! A store over the file at a path, on any machine.
ghost use Rattle.std.specs.Prelude.{◌≡◌, IfOk};
ghost use Rattle.sqlite.specs.Held.{state};
ghost use Rattle.sqlite.specs.State.{HasCleanDisk};
ghost use Rattle.contest_store_tables.specs.Connected.{IsBare};
ghost use Rattle.contest_store_tables.specs.Numbered.{IsNumbered};
ghost use Rattle.contest_store_sqlite.specs.Opening.{IsNew};
ghost use Rattle.contest_store_sqlite.specs.Value.{shown_in, stored};
ghost use Rattle.contest_cli_machine.specs.Unopened.{IsNoStore};
ghost use Rattle.probe.specs.Found.{OpensOver};

use contest_cli_machine::{Machine, Opening};
use contest_cli_words::CommandError;
use contest_store_sqlite::Store;
use contest_store_tables::{Standing, Tables};
use contest_types::Refusal;
use sqlite::{Alter, Connection};
use std::alloc::Global;

/// The store over the tables that the file holds.
///
/// # Errors
///
/// `StoreFault` where the file holds no valid contest or can't be read; `OldSchema` where it has
/// the tables of the first schema; `Memory` where a growth was refused.
pub(crate) fn open_store<M: Machine>(
    alloc: Global,
    machine: M,
    path: &str,
) -> Result<Store<M::Disk>, Refusal>
    ensures found { IfOk result (λ store. HasCleanDisk (shown_in M.Disk.Store store) → OpensOver M.Disk.Store (λ conn. M.found Opening.Existing path.now (Ok conn)) (stored M.Disk.Store store)) }
    ensures new { IfOk result IsNew }
{
    let conn = open_file(machine, path, Opening::Existing)?;
    match Store::open(alloc, conn) {
        Ok(store) => Ok(store),
        Err((error, _)) => Err(error.refusal()),
    }
}

/// A connection to a file that holds no table, and is made where there is none.
///
/// # Errors
///
/// `KeyReused` where tables stand; else as `open_store`.
pub(crate) fn open_bare<M: Machine>(machine: M, path: &str) -> Result<Connection<M::Disk>, Refusal>
    ensures { IfOk result (λ conn. IsBare (state M.Disk.Store conn)) }
{
    bare(open_file(machine, path, Opening::New)?)
}

// A connection on which no table stands.
fn bare<S: Alter + Drop>(conn: Connection<S>) -> Result<Connection<S>, Refusal>
    requires { IsNumbered (state S.Store conn) }
    ensures { IfOk result (λ conn. IsBare (state S.Store conn)) }
{
    let tables = Tables::new(conn);
    match tables.standing() {
        Standing::Bare => Ok(tables.into_connection()),
        Standing::Desk | Standing::Lacking(_) | Standing::Celless | Standing::Foreign => {
            Err(Refusal::KeyReused)
        }
    }
}

fn open_file<M: Machine>(
    machine: M,
    path: &str,
    opening: Opening,
) -> Result<Connection<M::Disk>, Refusal>
    ensures found { IfOk result (λ conn. M.found opening path.now (Ok conn)) }
    ensures numbered { IfOk result (λ conn. IsNumbered (state M.Disk.Store conn)) }
{
    match machine.open(path, opening) {
        Ok(conn) => Ok(conn),
        Err(stop) => Err(refusal_of(&stop)),
    }
}

// Why a file can't be opened.
fn refusal_of(stop: &CommandError) -> Refusal
    requires { IsNoStore stop.now }
    ensures { stop.now ≡ CommandError.Refused result }
{
    match stop {
        CommandError::Refused(refusal) => *refusal,
        _ => unreachable!(),
    }
}
