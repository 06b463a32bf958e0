//! The statements on the tables: what each does to the rows that they show.
ghost use Rattle.std.specs.Prelude.{◌≡◌, ◌+◌, ◌∷◌, [], IfOk, false, length, map, IsPermutation};
ghost use Rattle.sqlite.specs.declared.types.Value.{Value};
ghost use Rattle.sqlite.specs.State.{HasCleanDisk};
ghost use Rattle.sqlite.specs.Values.{bound};
ghost use Rattle.contest_store_tables.specs.Celless.{FullCelless, HasDropped};
ghost use Rattle.contest_store_tables.specs.Changes.{HasChanged, change_width};
ghost use Rattle.contest_store_tables.specs.Clearing.{HasCleared};
ghost use Rattle.contest_store_tables.specs.Connected.{shown_by, counts_of};
ghost use Rattle.contest_store_tables.specs.Schema.{index_of};
ghost use Rattle.contest_store_tables.specs.Statements.{insert_width, loaded_row, files_of};
ghost use Rattle.contest_store_tables.specs.declared.table_name.TableName.TheVariants.{Clarifications};
ghost use Rattle.contest_store_tables.specs.declared.table_name.TableName.TheVariants.{Notices};
ghost use Rattle.contest_store_tables.specs.declared.table_name.TableName.TheVariants.{Submissions};
ghost use Rattle.contest_store_tables.specs.Steps.{Call, Celless, Step, Content, Showing, Holds};
ghost use Rattle.contest_store_tables.specs.Steps.{Within, Full, FullLacking, Ended, Rises};
ghost use Rattle.contest_store_tables.specs.Steps.{HasFirst, HasCreated, HasMade, HasLater};
ghost use Rattle.contest_store_tables.specs.Steps.{HasInserted, MakesNone, MakesNow};
ghost use Rattle.contest_store_tables.specs.Tables.{TableRows};

use crate::table_name::ALL_TABLES;
use crate::texts::{
    change_text, clear_text, create_text, drop_text, file_text, insert_text, load_text, moved_text,
};
use crate::{LaterTable, RowChange, TableName, Tables};
use contest_store::StoreError;
use sqlite::types::ValueRef;
use sqlite::{Alter, Row};

impl<S: Alter> Tables<S> {
    /// Begins a transaction, where there is none.
    pub fn begin(&mut self) -> Result<(), StoreError>
        ensures { Call result (shown_by S.Store self.old) (shown_by S.Store self.new) (counts_of self.old) (counts_of self.new) Holds Within (λ _. ⊥) }
    {
        if self.is_in_transaction() {
            return Ok(());
        }
        self.execute("BEGIN", &[])
    }

    /// Makes a table, within a transaction in which those before it were made.
    fn create(&mut self, table: TableName) -> Result<(), StoreError>
        ensures { Step result (shown_by S.Store self.old) (shown_by S.Store self.new) (counts_of self.old) (counts_of self.new) (HasFirst (index_of table)) (HasCreated (index_of table + 1))
            (MakesNone (shown_by S.Store self.old) (HasFirst (index_of table))) }
    {
        self.execute(create_text(table), &[])
    }

    /// Makes all tables, which are empty then, within a transaction, in a database that has none.
    pub fn make(&mut self) -> Result<(), StoreError>
        ensures { Step result (shown_by S.Store self.old) (shown_by S.Store self.new) (counts_of self.old) (counts_of self.new) (HasFirst 0) HasMade
            (MakesNone (shown_by S.Store self.old) (HasFirst 0)) }
    {
        for table in ALL_TABLES {
            match self.create(table) {
                Ok(()) => {}
                Err(error) => return Err(error),
            }
        }
        Ok(())
    }

    /// Makes a table that a desk lacks, which is empty then, within a transaction in which those
    /// before it stand.
    pub fn make_later(&mut self, table: LaterTable) -> Result<(), StoreError>
        ensures { Step result (shown_by S.Store self.old) (shown_by S.Store self.new) (counts_of self.old) (counts_of self.new) (FullLacking table) (HasLater table)
            (MakesNone (shown_by S.Store self.old) (FullLacking table)) }
    {
        self.execute(create_text(table.name()), &[])
    }

    /// Inserts a row into a table, within a transaction: a cell for each of its columns.
    pub fn insert(&mut self, table: TableName, row: &[ValueRef<'_>]) -> Result<(), StoreError>
        requires { length row.now ≡ insert_width table }
        ensures { Step result (shown_by S.Store self.old) (shown_by S.Store self.new) (counts_of self.old) (counts_of self.new) Full (HasInserted table (bound row.now))
            (MakesNone (shown_by S.Store self.old) Full) }
    {
        self.execute(insert_text(table), row)
    }

    /// Changes a row where it stands, within a transaction: what is given is the key of the row,
    /// and then the new values.
    pub fn change(&mut self, change: RowChange, given: &[ValueRef<'_>]) -> Result<(), StoreError>
        requires { length given.now ≡ change_width change }
        ensures { Step result (shown_by S.Store self.old) (shown_by S.Store self.new) (counts_of self.old) (counts_of self.new) Full (HasChanged change (bound given.now))
            (MakesNone (shown_by S.Store self.old) Full) }
    {
        self.execute(change_text(change), given)
    }

    /// Takes all rows out of `Clarifications`, within a transaction.
    pub fn clear_clarifications(&mut self) -> Result<(), StoreError>
        ensures { Step result (shown_by S.Store self.old) (shown_by S.Store self.new) (counts_of self.old) (counts_of self.new) Full (HasCleared Clarifications)
            (MakesNone (shown_by S.Store self.old) Full) }
    {
        self.execute(clear_text(), &[])
    }

    /// The rows of a table, in the order of its key, within a transaction.
    pub fn load(&mut self, table: TableName) -> Result<Vec<Row>, StoreError>
        ensures rows { HasCleanDisk (shown_by S.Store self.new) → (now : TableRows) (kept : Content) → Within (shown_by S.Store self.old) (Showing now) kept → Rises table (now table)
            → IfOk result (λ rows. rows.items ≡ map (loaded_row table) (now table)) }
        ensures step { Step result (shown_by S.Store self.old) (shown_by S.Store self.new) (counts_of self.old) (counts_of self.new) Full Full (MakesNone (shown_by S.Store self.old) Full) }
    {
        self.query_all(load_text(table), &[])
    }

    /// The rows of `Notices` in the order of its key, within a transaction, where the table of the
    /// cells was taken out.
    pub fn load_moved_notices(&mut self) -> Result<Vec<Row>, StoreError>
        ensures rows { HasCleanDisk (shown_by S.Store self.new) → (now : TableRows) (kept : Content) → Within (shown_by S.Store self.old) (Celless now) kept → Rises Notices (now Notices)
            → IfOk result (λ rows. rows.items ≡ now Notices) }
        ensures step { Step result (shown_by S.Store self.old) (shown_by S.Store self.new) (counts_of self.old) (counts_of self.new) FullCelless FullCelless (MakesNone (shown_by S.Store self.old) FullCelless) }
    {
        self.query_all(moved_text(), &[])
    }

    /// Takes `Notices` out with its rows, within a transaction, where the table of the cells was
    /// taken out: the first tables are left.
    pub fn drop_moved_notices(&mut self) -> Result<(), StoreError>
        ensures { Step result (shown_by S.Store self.old) (shown_by S.Store self.new) (counts_of self.old) (counts_of self.new) FullCelless HasDropped (MakesNone (shown_by S.Store self.old) FullCelless) }
    {
        self.execute(drop_text(), &[])
    }

    /// The files of the submissions whose team and number in the table are these, within a
    /// transaction: a row of one column for each.
    pub fn files(&mut self, submission: &[ValueRef<'_>]) -> Result<Vec<Row>, StoreError>
        requires { length submission.now ≡ 2 }
        ensures rows { HasCleanDisk (shown_by S.Store self.new) → (now : TableRows) (kept : Content) → Within (shown_by S.Store self.old) (Showing now) kept
            → (team number : Value) → bound submission.now ≡ team ∷ number ∷ [] → IfOk result (λ rows. IsPermutation (files_of team number (now Submissions)) rows.items) }
        ensures step { Step result (shown_by S.Store self.old) (shown_by S.Store self.new) (counts_of self.old) (counts_of self.new) Full Full (MakesNone (shown_by S.Store self.old) Full) }
    {
        self.query_all(file_text(), submission)
    }

    /// Commits the transaction; where there is none, all is committed already. None stands
    /// afterwards.
    pub fn commit(&mut self) -> Result<(), StoreError>
        ensures ended { Call result (shown_by S.Store self.old) (shown_by S.Store self.new) (counts_of self.old) (counts_of self.new) Holds Ended (MakesNow (shown_by S.Store self.old) Holds) }
        ensures rest { HasCleanDisk (shown_by S.Store self.new) → (shown_by S.Store self.new).in_transaction ≡ false }
    {
        match self.begin() {
            Ok(()) => self.end(),
            Err(error) => Err(error),
        }
    }

    /// Commits the transaction. None stands afterwards.
    fn end(&mut self) -> Result<(), StoreError>
        ensures ended { Step result (shown_by S.Store self.old) (shown_by S.Store self.new) (counts_of self.old) (counts_of self.new) Within Ended (MakesNow (shown_by S.Store self.old) Within) }
        ensures rest { HasCleanDisk (shown_by S.Store self.new) → (shown_by S.Store self.new).in_transaction ≡ false }
    {
        self.execute("COMMIT", &[])
    }
}
