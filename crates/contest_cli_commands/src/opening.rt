//! The desk of a contest that a connection holds.
ghost use Rattle.std.specs.Prelude.{◌≡◌, IfErr, IfOk, IsTrue};
ghost use Rattle.sqlite.specs.Held.{state};
ghost use Rattle.sqlite.specs.State.{HasCleanDisk};
ghost use Rattle.contest_desk.specs.Serving.{IsSettled};
ghost use Rattle.contest_store_sqlite.specs.Creation.{KeepsLists};
ghost use Rattle.contest_store_sqlite.specs.Opening.{IsNew, IsOfFirst, Opened, ShowsValid};
ghost use Rattle.contest_store_tables.specs.Numbered.{IsNumbered};
ghost use Rattle.contest_store_sqlite.specs.Value.{shown_in, stored};

use contest_desk::Desk;
use contest_store::StoreError;
use contest_store_sqlite::{OpenError, Store};
use sqlite::{Alter, Connection};
use std::alloc::Global;

/// The desk of the contest that the tables of a connection show, which are read at once, outside of
/// a transaction. What is committed is as it was, and no change stands that isn't.
///
/// # Errors
///
/// `OpenError` says when each comes; its `Memory` comes also where a growth was refused for the
/// desk. The connection is handed back, and what is committed is as it was.
pub fn open_desk<S: Alter>(
    alloc: Global,
    conn: Connection<S>,
) -> Result<Desk<Store<S>>, (OpenError, Connection<S>)>
    requires { IsNumbered (state S.Store conn) }
    ensures opened { IfOk result (λ desk. HasCleanDisk (shown_in S.Store desk) → Opened (state S.Store conn) (stored S.Store desk)) }
    ensures shows { IfOk result (λ desk. HasCleanDisk (shown_in S.Store desk) → ShowsValid (stored S.Store desk)) }
    ensures settled { IfOk result (λ desk. IsSettled (stored S.Store desk)) }
    ensures survives { IfOk result (λ desk. KeepsLists (state S.Store conn) (shown_in S.Store desk)) }
    ensures new { IfOk result IsNew }
    ensures refused { IfErr result (λ e. KeepsLists (state S.Store conn) (state S.Store e.1)) }
    ensures first { IfErr result (λ e. HasCleanDisk (state S.Store e.1) → e.0 ≡ OpenError.OldSchema → IsTrue (state S.Store conn).is_open → IsOfFirst (state S.Store conn)) }
{
    let store = Store::open(alloc, conn)?;
    match Desk::new(alloc, store) {
        Ok(desk) => Ok(desk),
        Err((_, store)) => Err((
            OpenError::Store(StoreError::Memory),
            store.into_connection(),
        )),
    }
}
