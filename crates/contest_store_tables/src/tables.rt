//! The calls of the connection: each failure is counted and rolls the transaction back.
ghost use Rattle.std.specs.Prelude.{◌≡◌, ℕ, false, [], Ok, Err, IsTrue, IfOk, OnOk, OnErr};
ghost use Rattle.sqlite.specs.Values.{bound};
ghost use Rattle.sqlite.specs.Effect.{IsDatabase};
ghost use Rattle.sqlite.specs.Held.{state};
ghost use Rattle.sqlite.specs.State.{HasCleanDisk, Survives, Executes, CommitsBy, CommitsShowing};
ghost use Rattle.sqlite.specs.State.{Shown};
ghost use Rattle.contest_store_tables.specs.Counts.{cause_of, counted, CountsCall};
ghost use Rattle.contest_store_tables.specs.Steps.{Celless, OnlyMade, Showing, Lacking};
ghost use Rattle.contest_store_tables.specs.Steps.{AreNumbered, Holds};
ghost use Rattle.contest_store_tables.specs.Tables.{rows_in, lacking, with_cells_back};
ghost use Rattle.contest_store_tables.specs.Connected.{connection_of, shown_by, counts_of};
ghost use Rattle.contest_store_tables.specs.Connected.{IsAtRest, IsCelless, IsOfDesk, IsLacking};
ghost use Rattle.contest_store_tables.specs.Connected.{IsBare, IsUndone};

use crate::counts::cause_of;
use crate::schema_test::{is_bare, is_celless, is_lacking, is_of_desk};
use crate::{Counts, LaterTable, Standing};
use contest_store::StoreError;
use sqlite::types::ValueRef;
use sqlite::{Alter, Connection, Error, Row};

/// A connection to the tables of a contest, whose statements are those of this crate.
///
/// # Errors
///
/// Each call answers `Memory` where a growth was refused, and `Fault` where the connection failed
/// for another cause. Both are counted, and no change stands then that wasn't committed.
#[derive(Drop)]
pub struct Tables<S: Alter> {
    conn: Connection<S>,
    counts: Counts,
}

impl<S: Alter> Tables<S> {
    /// The connection, of whose calls none failed yet.
    pub fn new(conn: Connection<S>) -> Tables<S>
        ensures connection { connection_of result ≡ conn }
        ensures counts { counts_of result ≡ record { faults = 0; refusals = 0 } }
        ensures bare { IsAtRest (state S.Store conn) → IsBare (state S.Store conn) → Holds (shown_by S.Store result) (OnlyMade []) (OnlyMade []) }
        ensures desk { IsAtRest (state S.Store conn) → IsOfDesk (state S.Store conn) → AreNumbered (state S.Store conn).now.trees
            → Holds (shown_by S.Store result) (Showing (rows_in (state S.Store conn).now.trees)) (Showing (rows_in (state S.Store conn).now.trees)) }
        ensures lacking { (table : LaterTable) → IsAtRest (state S.Store conn) → IsLacking table (state S.Store conn) → AreNumbered (lacking table (state S.Store conn).now.trees)
            → Holds (shown_by S.Store result) (Lacking table (rows_in (lacking table (state S.Store conn).now.trees))) (Lacking table (rows_in (lacking table (state S.Store conn).now.trees))) }
        ensures celless { (place : LaterTable) → IsAtRest (state S.Store conn) → IsCelless place (state S.Store conn) → AreNumbered (with_cells_back place (state S.Store conn).now.trees)
            → Holds (shown_by S.Store result) (Celless (rows_in (with_cells_back place (state S.Store conn).now.trees))) (Celless (rows_in (with_cells_back place (state S.Store conn).now.trees))) }
    {
        Tables {
            conn,
            counts: Counts {
                faults: 0,
                refusals: 0,
            },
        }
    }

    /// The connection alone.
    pub fn into_connection(self) -> Connection<S>
        ensures { result ≡ connection_of self }
    {
        let Tables { conn, counts: _ } = self;
        conn
    }

    /// Which tables stand in the database.
    pub fn standing(&self) -> Standing
        ensures desk { result ≡ Standing.Desk → IsOfDesk (shown_by S.Store self.now) }
        ensures lacking { (table : LaterTable) → result ≡ Standing.Lacking table → IsLacking table (shown_by S.Store self.now) }
        ensures celless { result ≡ Standing.Celless → (place : LaterTable) × IsCelless place (shown_by S.Store self.now) }
        ensures bare { result ≡ Standing.Bare → IsBare (shown_by S.Store self.now) }
        ensures foreign { result ≡ Standing.Foreign → (¬ IsOfDesk (shown_by S.Store self.now)) × ((table : LaterTable) → ¬ IsLacking table (shown_by S.Store self.now)) × ((place : LaterTable) → ¬ IsCelless place (shown_by S.Store self.now)) × (¬ IsBare (shown_by S.Store self.now)) }
        ensures sound { IsTrue (shown_by S.Store self.now).is_open → IsDatabase (shown_by S.Store self.now).now }
    {
        let schema = self.conn.schema();
        if is_of_desk(schema) {
            Standing::Desk
        } else if is_lacking(schema, LaterTable::Notices) {
            Standing::Lacking(LaterTable::Notices)
        } else if is_lacking(schema, LaterTable::Cells) {
            Standing::Lacking(LaterTable::Cells)
        } else if is_celless(schema, LaterTable::Notices) || is_celless(schema, LaterTable::Cells) {
            Standing::Celless
        } else if is_bare(schema) {
            Standing::Bare
        } else {
            Standing::Foreign
        }
    }

    /// Whether a transaction stands. Where none does, an open connection shows the last commit.
    pub fn is_in_transaction(&self) -> bool
        ensures value { result ≡ (shown_by S.Store self.now).in_transaction }
        ensures rest { result ≡ false → IsTrue (shown_by S.Store self.now).is_open → IsAtRest (shown_by S.Store self.now) }
    {
        !self.conn.is_autocommit()
    }

    /// How many of its calls failed.
    pub fn counts(&self) -> Counts
        ensures { result ≡ counts_of self.now }
    {
        self.counts
    }

    /// Undoes what wasn't committed: no transaction is left.
    pub fn roll_back(&mut self)
        ensures undone { HasCleanDisk (shown_by S.Store self.new) → IsUndone (shown_by S.Store self.old) (shown_by S.Store self.new) }
        ensures counts { counts_of self.new ≡ counts_of self.old }
        ensures survives { Survives (shown_by S.Store self.old) (shown_by S.Store self.new) (λ _. ⊥) }
    {
        roll_back(&mut self.conn);
    }

    /// Memory was refused after a call that was answered: it is counted, and no change stands that
    /// wasn't committed.
    pub fn out_of_memory(&mut self) -> StoreError
        ensures error { result ≡ StoreError.Memory }
        ensures undone { HasCleanDisk (shown_by S.Store self.new) → IsUndone (shown_by S.Store self.old) (shown_by S.Store self.new) }
        ensures counts { counts_of self.new ≡ counted StoreError.Memory (counts_of self.old) }
        ensures survives { Survives (shown_by S.Store self.old) (shown_by S.Store self.new) (λ _. ⊥) }
    {
        self.roll_back();
        self.counts.count(StoreError::Memory);
        StoreError::Memory
    }

    /// What the tables showed can't have been written, so the disk isn't what was written: a fault
    /// is counted, and no change stands that wasn't committed.
    pub fn disbelieve(&mut self) -> StoreError
        requires { ¬ HasCleanDisk (shown_by S.Store self.old) }
        ensures error { result ≡ StoreError.Fault }
        ensures undone { HasCleanDisk (shown_by S.Store self.new) → IsUndone (shown_by S.Store self.old) (shown_by S.Store self.new) }
        ensures counts { counts_of self.new ≡ counted StoreError.Fault (counts_of self.old) }
        ensures survives { Survives (shown_by S.Store self.old) (shown_by S.Store self.new) (λ _. ⊥) }
    {
        self.roll_back();
        self.counts.count(StoreError::Fault);
        StoreError::Fault
    }

    // What a call of the connection failed with: it is counted, and no change stands.
    fn fail(&mut self, error: &Error) -> StoreError
        ensures error { result ≡ cause_of error.now }
        ensures undone { HasCleanDisk (shown_by S.Store self.new) → IsUndone (shown_by S.Store self.old) (shown_by S.Store self.new) }
        ensures counts { counts_of self.new ≡ counted (cause_of error.now) (counts_of self.old) }
        ensures survives { Survives (shown_by S.Store self.old) (shown_by S.Store self.new) (λ _. ⊥) }
    {
        let cause = cause_of(error);
        self.roll_back();
        self.counts.count(cause);
        cause
    }

    pub(crate) fn execute(&mut self, sql: &str, params: &[ValueRef<'_>]) -> Result<(), StoreError>
        ensures ok { HasCleanDisk (shown_by S.Store self.new) → OnOk result ((count : ℕ) × Executes sql.now (bound params.now) (shown_by S.Store self.old) (shown_by S.Store self.new) (Ok count)) }
        ensures err { HasCleanDisk (shown_by S.Store self.new) → OnErr result (IsUndone (shown_by S.Store self.old) (shown_by S.Store self.new)) }
        ensures counts { CountsCall result (counts_of self.old) (counts_of self.new) }
        ensures survives { Survives (shown_by S.Store self.old) (shown_by S.Store self.new) (CommitsBy sql.now (bound params.now) (shown_by S.Store self.old)) }
    {
        match self.conn.execute(sql, params) {
            Ok(_) => Ok(()),
            Err(error) => Err(self.fail(&error)),
        }
    }

    pub(crate) fn query_all(
        &mut self,
        sql: &str,
        params: &[ValueRef<'_>],
    ) -> Result<Vec<Row>, StoreError>
        ensures ok { HasCleanDisk (shown_by S.Store self.new) → IfOk result (λ rows. Shown sql.now (bound params.now) (shown_by S.Store self.old) (shown_by S.Store self.new) rows.items) }
        ensures err { HasCleanDisk (shown_by S.Store self.new) → OnErr result (IsUndone (shown_by S.Store self.old) (shown_by S.Store self.new)) }
        ensures counts { CountsCall result (counts_of self.old) (counts_of self.new) }
        ensures survives { Survives (shown_by S.Store self.old) (shown_by S.Store self.new) (CommitsShowing sql.now (bound params.now) (shown_by S.Store self.old)) }
    {
        match self.conn.query_all(sql, params) {
            Ok(rows) => Ok(rows),
            Err(error) => Err(self.fail(&error)),
        }
    }
}

fn roll_back<S: Alter>(conn: &mut Connection<S>)
    ensures undone { HasCleanDisk (state S.Store conn.new) → IsUndone (state S.Store conn.old) (state S.Store conn.new) }
    ensures survives { Survives (state S.Store conn.old) (state S.Store conn.new) (λ _. ⊥) }
{
    if !conn.is_autocommit() {
        let _ = conn.execute("ROLLBACK", &[]);
    }
}
