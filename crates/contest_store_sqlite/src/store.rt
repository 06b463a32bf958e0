//! A contest in SQLite tables.
ghost use Rattle.std.specs.Prelude.{◌≡◌};

use crate::creation::{make_or_read, new_fixed};
use crate::keeper::Keeper;
use crate::open_error::OpenError;
use crate::opening::read_desk;
use crate::upgrading::upgrade_desk;
use contest_lists::Lists;
use contest_score::CachedCells;
use contest_store::{ContestStore, StoreError};
use contest_store_tables::Tables;
use contest_types::{Contest, Entry, Refusal, Rows};
use sqlite::{Alter, Connection};
use std::alloc::Global;
use std::marker::Model;

/// The tables of one contest, over memory or a file that any sqlite3 reads. What it has read it
/// holds in memory, so no request reads rows by SQL but a submission's file. Changes stand in one
/// transaction until `commit`.
#[derive(Drop)]
pub struct Store<S: Alter> {
    keeper: Keeper<S>,
}

impl<S: Alter> Model for Store<S> {
    ghost use Rattle.std.specs.Prelude.{is_some};
    ghost use Rattle.contest_store_tables.specs.Connected.{connection_of, counts_of};
    ghost use Rattle.contest_store_sqlite.specs.Keepers.{IsWhole};
    ghost use Rattle.contest_store_sqlite.specs.Value.{StoreValue, store_code};

    ghost Value = { StoreValue S };

    ghost coded = { store_code S.code };

    ghost view = { λ s. record {
      conn = connection_of s.keeper.tables;
      faults = (counts_of s.keeper.tables).faults;
      refusals = (counts_of s.keeper.tables).refusals;
      commits = s.keeper.commits;
      is_loaded = is_some s.keeper.held;
      is_changed = s.keeper.is_changed;
    } };

    ghost invariant = { λ s. IsWhole S.Store s.keeper };
}

impl<S: Alter> Store<S> {
    ghost use Rattle.std.specs.Prelude.{◌⊎◌, false, IfOk, IfErr, IsTrue, OnOk, Some, true};
    ghost use Rattle.sqlite.specs.Held.{state};
    ghost use Rattle.sqlite.specs.State.{HasCleanDisk};
    ghost use Rattle.contest_types.specs.State.{new_contest};
    ghost use Rattle.contest_types.specs.Valid.{is_valid};
    ghost use Rattle.contest_store_tables.specs.Connected.{IsBare};
    ghost use Rattle.contest_store.specs.Keeping.{LeavesOnly};
    ghost use Rattle.contest_store_sqlite.specs.Contests.{committed_of, contest_of, may_leave_of};
    ghost use Rattle.contest_store_sqlite.specs.Creation.{Created, IsOfOpen, IsOfStore, KeepsLists};
    ghost use Rattle.contest_store_sqlite.specs.Creation.{LeavesEither, StoodEqual, StoodOther};
    ghost use Rattle.contest_store_sqlite.specs.Keeping.{IsTrusted};
    ghost use Rattle.contest_store_sqlite.specs.Opening.{HasDesk, IsNew, IsOfFirst, IsRead, Opened};
    ghost use Rattle.contest_store_sqlite.specs.Opening.{ShowsValid};
    ghost use Rattle.contest_store_tables.specs.Numbered.{IsNumbered};
    ghost use Rattle.contest_store_sqlite.specs.Upgrading.{IsUpgraded, KeepsUpgraded};
    ghost use Rattle.contest_store_sqlite.specs.Value.{shown_in, stored};
    ghost use Rattle.contest_types.specs.State.{ContestState};

    /// The store over the tables of a contest, which are read at once, outside of a transaction.
    /// Where their cells have no row, or their table was taken out, they are filled in one commit;
    /// else they have to be those of the lists.
    ///
    /// # Errors
    ///
    /// `OpenError` says when each comes. The connection is handed back, and what is committed is as
    /// it was, but for cells that were filled.
    pub fn open(alloc: Global, conn: Connection<S>) -> Result<Store<S>, (OpenError, Connection<S>)>
        requires { IsNumbered (state S.Store conn) }
        ensures opened { IfOk result (λ store. HasCleanDisk (shown_in S.Store store) → Opened (state S.Store conn) (stored S.Store store)) }
        ensures survives { IfOk result (λ store. KeepsLists (state S.Store conn) (shown_in S.Store store)) }
        ensures shows { IfOk result (λ store. HasCleanDisk (shown_in S.Store store) → ShowsValid (stored S.Store store)) }
        ensures desk { IfOk result (λ store. HasCleanDisk (shown_in S.Store store) → HasDesk (shown_in S.Store store)) }
        ensures new { IfOk result IsNew }
        ensures refused { IfErr result (λ e. KeepsLists (state S.Store conn) (state S.Store e.1)) }
        ensures first { IfErr result (λ e. HasCleanDisk (state S.Store e.1) → e.0 ≡ OpenError.OldSchema → IsTrue (state S.Store conn).is_open → IsOfFirst (state S.Store conn)) }
    {
        let mut tables = Tables::new(conn);
        match read_desk(&mut tables, alloc) {
            Ok(lists) => Ok(Store {
                keeper: Keeper {
                    tables,
                    held: Some(lists),
                    is_changed: false,
                    commits: 0,
                },
            }),
            Err(error) => Err((error, tables.into_connection())),
        }
    }

    /// The store over the tables of a contest that is set up. Where no table stands, they are made
    /// with the contest in one commit. Where a valid contest stands that has the same head, it is
    /// opened as `open` does it: its start isn't compared, for it may have been set since.
    ///
    /// # Errors
    ///
    /// `Malformed` where a number of the head is off its range or the end is no moment: nothing is
    /// touched. `KeyReused` where a contest with another head stands. `OldSchema` where the tables
    /// are those of the first schema. `StoreFault` where other tables stand or show no valid
    /// contest, where a transaction stands, or where the connection failed; `Memory` where a growth
    /// was refused. The connection is handed back. What is committed is as it was, but for cells
    /// that were filled where a contest stands; and a crash may leave the contest where no table
    /// stood and the commit failed.
    pub fn create(
        alloc: Global,
        conn: Connection<S>,
        contest: Contest,
    ) -> Result<Store<S>, (Refusal, Connection<S>)>
        requires { IsNumbered (state S.Store conn) }
        ensures created { IfOk result (λ store. HasCleanDisk (shown_in S.Store store) → IsBare (state S.Store conn) → Created contest (state S.Store conn) (stored S.Store store)) }
        ensures stood { IfOk result (λ store. HasCleanDisk (shown_in S.Store store) → ¬ IsBare (state S.Store conn) → StoodEqual contest (state S.Store conn) (stored S.Store store)) }
        ensures shows { IfOk result (λ store. HasCleanDisk (shown_in S.Store store) → ShowsValid (stored S.Store store)) }
        ensures desk { IfOk result (λ store. HasCleanDisk (shown_in S.Store store) → HasDesk (shown_in S.Store store)) }
        ensures new { IfOk result IsNew }
        ensures valid { OnOk result (is_valid (new_contest contest) ≡ true) }
        ensures differs { IfErr result (λ e. HasCleanDisk (state S.Store e.1) → e.0 ≡ Refusal.KeyReused → StoodOther contest.head (state S.Store conn) (state S.Store e.1)) }
        ensures kinds { IfErr result (λ e. (e.0 ≡ Refusal.Malformed) ⊎ ((e.0 ≡ Refusal.KeyReused) ⊎ IsOfOpen e.0)) }
        ensures malformed { IfErr result (λ e. e.0 ≡ Refusal.Malformed → (is_valid (new_contest contest) ≡ false) × (e.1 ≡ conn)) }
        ensures survives { IfOk result (λ store. LeavesEither (new_contest contest) (state S.Store conn) (shown_in S.Store store)) }
        ensures refused { IfErr result (λ e. LeavesEither (new_contest contest) (state S.Store conn) (state S.Store e.1)) }
        ensures unmade { IfErr result (λ e. ¬ IsBare (state S.Store conn) → KeepsLists (state S.Store conn) (state S.Store e.1)) }
        ensures old { IfErr result (λ e. e.0 ≡ Refusal.OldSchema → KeepsLists (state S.Store conn) (state S.Store e.1)) }
        ensures first { IfErr result (λ e. HasCleanDisk (state S.Store e.1) → e.0 ≡ Refusal.OldSchema → IsTrue (state S.Store conn).is_open → IsOfFirst (state S.Store conn)) }
        ensures unchanged { IfErr result (λ e. (e.0 ≡ Refusal.KeyReused) ⊎ (e.0 ≡ Refusal.Malformed) → KeepsLists (state S.Store conn) (state S.Store e.1)) }
    {
        let fixed = match new_fixed(alloc, contest) {
            Ok(fixed) => fixed,
            Err(refusal) => return Err((refusal, conn)),
        };
        let mut tables = Tables::new(conn);
        match make_or_read(&mut tables, alloc, fixed) {
            Ok(lists) => Ok(Store {
                keeper: Keeper {
                    tables,
                    held: Some(lists),
                    is_changed: false,
                    commits: 0,
                },
            }),
            Err(refusal) => Err((refusal, tables.into_connection())),
        }
    }

    /// Whether the tables of a connection were upgraded. Those of the first schema show their
    /// contest in that of today afterwards, by one commit; their cells are treated as `open` does
    /// it. Those of today are only read, as `open` reads them. The connection is handed back.
    ///
    /// # Errors
    ///
    /// `StoreFault` where the tables are of neither schema or show no valid contest, where a
    /// transaction stands, or where the connection failed; `Memory` where a growth was refused.
    /// What is committed is as it was, but for cells that were filled; and a crash may leave the
    /// upgraded contest where the commit failed.
    pub fn upgrade(alloc: Global, conn: Connection<S>) -> (Result<bool, Refusal>, Connection<S>)
        requires { IsNumbered (state S.Store conn) }
        ensures moved { HasCleanDisk (state S.Store result.1) → IfOk result.0 (λ moved. moved ≡ true → IsUpgraded (state S.Store conn) (state S.Store result.1)) }
        ensures stood { HasCleanDisk (state S.Store result.1) → IfOk result.0 (λ moved. moved ≡ false → (lists : ContestState) × IsRead (state S.Store conn) (state S.Store result.1) lists) }
        ensures kinds { IfErr result.0 IsOfStore }
        ensures survives { KeepsUpgraded (state S.Store conn) (state S.Store result.1) }
    {
        let mut tables = Tables::new(conn);
        let done = match upgrade_desk(&mut tables, alloc) {
            Ok(moved) => Ok(moved),
            Err(error) => Err(error.refusal()),
        };
        (done, tables.into_connection())
    }

    /// The connection alone, where no change stands that wasn't committed. A transaction stands in
    /// it where something was read since the last commit of a change. While it is open a crash
    /// leaves the last commit, and no other.
    pub fn into_connection(self) -> Connection<S>
        requires { IsTrusted (shown_in S.Store self) → IsTrue (shown_in S.Store self).is_open → contest_of (shown_in S.Store self) ≡ committed_of (shown_in S.Store self) }
        ensures connection { result ≡ self.conn }
        ensures numbered { IsNumbered (state S.Store result) }
        ensures clean { HasCleanDisk (state S.Store result) → IsTrusted (state S.Store result) }
        ensures settled { HasCleanDisk (state S.Store result) → IsTrue (state S.Store result).is_open → LeavesOnly (may_leave_of (state S.Store result)) (committed_of (state S.Store result)) }
    {
        self.keeper.tables.into_connection()
    }

    /// How many calls failed for another cause than memory.
    pub fn faults(&self) -> u64
        ensures count { result ≡ self.now.faults }
        ensures clean { HasCleanDisk (shown_in S.Store self.now) → IsTrusted (shown_in S.Store self.now) }
    {
        self.keeper.tables.counts().faults
    }

    /// How many calls were refused memory.
    pub fn refusals(&self) -> u64
        ensures { result ≡ self.now.refusals }
    {
        self.keeper.tables.counts().refusals
    }

    /// How many commits were answered.
    pub fn commits(&self) -> u64
        ensures { result ≡ self.now.commits }
    {
        self.keeper.commits
    }
}

impl<S: Alter> ContestStore for Store<S> {
    ghost use Rattle.std.specs.Prelude.{false, IsTrue, Ok};
    ghost use Rattle.contest_streams.specs.Streams.{one_more};
    ghost use Rattle.sqlite.specs.State.{HasCleanDisk};
    ghost use Rattle.contest_store.specs.Keeping.{Commits, Reads};
    ghost use Rattle.contest_store_sqlite.specs.Laws.{settled_at, survives_at};
    ghost use Rattle.contest_store_sqlite.specs.Value.{shown_in, stored};

    ghost kept = { stored S.Store };

    ghost settled = { λ s. settled_at (S.Store.recovers s.conn.store) (S.Store.view s.conn.store).is_open (S.Store.view s.conn.store).committed _ _ (S.Store.settled s.conn.store) (S.Store.stays s.conn.store) };

    ghost survives = { λ s clean. survives_at (S.Store.recovers s.conn.store) (S.Store.survives s.conn.store clean.0) };

    fn load(&mut self, alloc: Global) -> Result<(), StoreError> {
        self.keeper.load(alloc)
    }

    fn cells(&self) -> &CachedCells {
        match &self.keeper.held {
            Some(lists) => lists.cells(),
            None => unreachable!(),
        }
    }

    fn lists(&self) -> &Lists {
        match &self.keeper.held {
            Some(lists) => lists.lists(),
            None => unreachable!(),
        }
    }

    fn file(
        &mut self,
        alloc: Global,
        team: usize,
        number: usize,
    ) -> Result<Option<Rows<u8>>, StoreError> {
        self.keeper.file(alloc, team, number)
    }

    // Beyond what any store promises: no transaction stands afterwards.
    fn rest(&mut self) -> Result<(), StoreError>
        requires { (stored S.Store self.old).is_clean → IsTrue (stored S.Store self.old).is_open → (stored S.Store self.old).contest ≡ (stored S.Store self.old).committed }
        ensures leaves { Reads result (stored S.Store self.old) (stored S.Store self.new) }
        ensures rest { HasCleanDisk (shown_in S.Store self.new) → (shown_in S.Store self.new).in_transaction ≡ false }
    {
        self.keeper.rest()
    }

    fn append(&mut self, alloc: Global, entry: Entry) -> Result<(), StoreError> {
        let done = self.keeper.append(alloc, &entry);
        drop(entry);
        done
    }

    // Beyond what any store promises: where no change was made since the last commit, it is
    // answered and only counted.
    fn commit(&mut self) -> Result<(), StoreError>
        requires { IsTrue self.old.is_loaded }
        ensures leaves { Commits result (stored S.Store self.old) (stored S.Store self.new) (stored S.Store self.old).contest }
        ensures committed { self.new.is_changed ≡ false }
        ensures nothing { self.old.is_changed ≡ false → (result ≡ Ok tt) × (self.new ≡ record self.old { commits = one_more self.old.commits }) }
    {
        self.keeper.commit()
    }
}
