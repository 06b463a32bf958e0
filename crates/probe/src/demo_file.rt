//! The demo contest in tables.
ghost use Rattle.sqlite.specs.Held.{state};
ghost use Rattle.contest_store_tables.specs.Connected.{IsBare};

use contest_demo::demo;
use contest_store_sqlite::Store;
use contest_types::Refusal;
use sqlite::{Alter, Connection};
use std::alloc::Global;

/// Makes the demo contest, with the first so many teams and problems, where no table stands.
///
/// # Errors
///
/// An error of the store, or `Memory`.
pub(crate) fn make_demo<S: Alter + Drop>(
    alloc: Global,
    conn: Connection<S>,
    teams: usize,
    problems: usize,
) -> Result<(), Refusal>
    requires { IsBare (state S.Store conn) }
{
    let contest = demo::contest(alloc, false)?;
    match Store::create(alloc, conn, contest) {
        Ok(store) => {
            let mut store = store;
            demo::fill(alloc, &mut store, teams, problems)
        }
        Err((refusal, _)) => Err(refusal),
    }
}
