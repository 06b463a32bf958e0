//! Tables of a desk whose table of the cells was taken out, as SQLite's `DROP TABLE cells` does. It
//! belongs before that of the notices: so in one transaction both are made anew, where each
//! belongs.
ghost use Rattle.std.specs.Prelude.{◌≡◌, [], IfOk, IfSome, IsTrue, OnOk, Some, false};
ghost use Rattle.sqlite.specs.State.{HasCleanDisk, Survives};
ghost use Rattle.contest_store_reading.specs.Spelling.{lists_in_version, tables_of};
ghost use Rattle.contest_store_rows.specs.declared.versions.TheConstants.{VERSION};
ghost use Rattle.contest_store_tables.specs.Celless.{FullCelless};
ghost use Rattle.contest_store_tables.specs.Connected.{counts_of, shown_by};
ghost use Rattle.contest_store_tables.specs.Steps.{Call, Celless, Content, Full, Holds, IsLive};
ghost use Rattle.contest_store_tables.specs.Steps.{MakesNone, Showing, Step, Within, with_rows};
ghost use Rattle.contest_store_tables.specs.Tables.{TableRows};
ghost use Rattle.contest_store_tables.specs.declared.table_name.TableName.TheVariants.{Notices};
ghost use Rattle.contest_store_changes.specs.ContestTables.{loaded_tables};
ghost use Rattle.contest_store_sqlite.specs.Celless.{HasEmptied, HoldsCelless, MakesBack, PutsBack};
ghost use Rattle.contest_store_sqlite.specs.Loading.{AllRise, AreChecked, with_loaded};
ghost use Rattle.contest_store_sqlite.specs.Settling.{MakesRightOfTables, ReadsTables};

use crate::older::make_both;
use crate::opening::{check_valid, keep_mended};
use crate::reads::{load_rows, put, read_scored};
use contest_store::{ScoredLists, StoreError};
use contest_store_changes::insert_notices;
use contest_store_reading::LoadedRows;
use contest_store_rows::VERSION;
use contest_store_tables::{TableName, Tables};
use sqlite::{Alter, Row};
use std::alloc::{AllocError, Global};

/// The lists of the valid contest whose lists the tables show, outside of a transaction. The tables
/// stand as a desk's then, with right cells, and that is committed. Where they show no valid
/// contest, no call failed.
///
/// # Errors
///
/// `Memory` where a growth was refused. `Fault` where the connection failed for another cause, or
/// where the tables show no valid contest.
pub(crate) fn read_celless<S: Alter>(
    tables: &mut Tables<S>,
    alloc: Global,
) -> Result<ScoredLists, StoreError>
    ensures read { ReadsTables Celless result (shown_by S.Store tables.old) (shown_by S.Store tables.new) }
    ensures up { HasCleanDisk (shown_by S.Store tables.new) → IsLive (shown_by S.Store tables.old) → OnOk result (IsTrue (shown_by S.Store tables.old).is_open) }
    ensures counts { OnOk result (counts_of tables.new ≡ counts_of tables.old) }
    ensures rest { HasCleanDisk (shown_by S.Store tables.new) → OnOk result ((shown_by S.Store tables.new).in_transaction ≡ false) }
    ensures survives { Survives (shown_by S.Store tables.old) (shown_by S.Store tables.new) (MakesRightOfTables Celless (shown_by S.Store tables.old)) }
{
    match find_celless(tables, alloc) {
        Ok(found) => match found {
            Some(lists) => put_back(tables, alloc, lists),
            None => {
                tables.roll_back();
                Err(StoreError::Fault)
            }
        },
        Err(error) => Err(error),
    }
}

// The lists, once their clarifications stand in the table of the notices again, and the cells are
// right and committed.
fn put_back<S: Alter>(
    tables: &mut Tables<S>,
    alloc: Global,
    lists: ScoredLists,
) -> Result<ScoredLists, StoreError>
    ensures lists { IfOk result (λ kept. kept ≡ lists) }
    ensures back { PutsBack result lists (shown_by S.Store tables.old) (shown_by S.Store tables.new) }
    ensures counts { OnOk result (counts_of tables.new ≡ counts_of tables.old) }
    ensures rest { HasCleanDisk (shown_by S.Store tables.new) → OnOk result ((shown_by S.Store tables.new).in_transaction ≡ false) }
    ensures survives { Survives (shown_by S.Store tables.old) (shown_by S.Store tables.new) (MakesBack lists (shown_by S.Store tables.old)) }
{
    match insert_notices(tables, lists.lists()) {
        Ok(()) => keep_mended(tables, alloc, lists),
        Err(error) => {
            drop(lists);
            Err(error)
        }
    }
}

// The lists in a transaction, if they are a valid contest's. All tables of a desk stand then, but
// that of the notices has no row.
fn find_celless<S: Alter>(
    tables: &mut Tables<S>,
    alloc: Global,
) -> Result<Option<ScoredLists>, StoreError>
    ensures lists { HasCleanDisk (shown_by S.Store tables.new) → (now : TableRows) (kept : Content) → Holds (shown_by S.Store tables.old) (Celless now) kept → AllRise now → IfOk result (λ found. IfSome found (λ lists. lists_in_version VERSION (loaded_tables now) ≡ Some lists)) }
    ensures checked { IfOk result (λ found. IfSome found AreChecked) }
    ensures call { Call result (shown_by S.Store tables.old) (shown_by S.Store tables.new) (counts_of tables.old) (counts_of tables.new) HoldsCelless HasEmptied (MakesNone (shown_by S.Store tables.old) HoldsCelless) }
{
    match begin_emptied(tables) {
        Ok(notices) => check_emptied(tables, alloc, notices),
        Err(error) => Err(error),
    }
}

// Begins a transaction, and makes both tables anew. The rows of the notices that stood there.
fn begin_emptied<S: Alter>(tables: &mut Tables<S>) -> Result<Vec<Row>, StoreError>
    ensures rows { HasCleanDisk (shown_by S.Store tables.new) → (now : TableRows) (kept : Content) → Holds (shown_by S.Store tables.old) (Celless now) kept → AllRise now → IfOk result (λ notices. notices.items ≡ now Notices) }
    ensures call { Call result (shown_by S.Store tables.old) (shown_by S.Store tables.new) (counts_of tables.old) (counts_of tables.new) HoldsCelless HasEmptied (MakesNone (shown_by S.Store tables.old) HoldsCelless) }
{
    match tables.begin() {
        Ok(()) => empty_notices(tables),
        Err(error) => Err(error),
    }
}

fn empty_notices<S: Alter>(tables: &mut Tables<S>) -> Result<Vec<Row>, StoreError>
    ensures rows { HasCleanDisk (shown_by S.Store tables.new) → (now : TableRows) (kept : Content) → Within (shown_by S.Store tables.old) (Celless now) kept → AllRise now → IfOk result (λ notices. notices.items ≡ now Notices) }
    ensures step { Step result (shown_by S.Store tables.old) (shown_by S.Store tables.new) (counts_of tables.old) (counts_of tables.new) FullCelless HasEmptied (MakesNone (shown_by S.Store tables.old) FullCelless) }
{
    match tables.load_moved_notices() {
        Ok(notices) => emptied_with(tables, notices),
        Err(error) => Err(error),
    }
}

// These rows, once both tables are made anew.
fn emptied_with<S: Alter>(tables: &mut Tables<S>, notices: Vec<Row>) -> Result<Vec<Row>, StoreError>
    ensures rows { IfOk result (λ kept. kept.items ≡ notices.items) }
    ensures step { Step result (shown_by S.Store tables.old) (shown_by S.Store tables.new) (counts_of tables.old) (counts_of tables.new) FullCelless HasEmptied (MakesNone (shown_by S.Store tables.old) FullCelless) }
{
    match make_anew(tables) {
        Ok(()) => Ok(notices),
        Err(error) => {
            drop(notices);
            Err(error)
        }
    }
}

fn make_anew<S: Alter>(tables: &mut Tables<S>) -> Result<(), StoreError>
    ensures { Step result (shown_by S.Store tables.old) (shown_by S.Store tables.new) (counts_of tables.old) (counts_of tables.new) FullCelless HasEmptied (MakesNone (shown_by S.Store tables.old) FullCelless) }
{
    match tables.drop_moved_notices() {
        Ok(()) => make_both(tables),
        Err(error) => Err(error),
    }
}

// The lists that the tables show with these rows of the notices, within a transaction, if they are
// a valid contest's.
fn check_emptied<S: Alter>(
    tables: &mut Tables<S>,
    alloc: Global,
    notices: Vec<Row>,
) -> Result<Option<ScoredLists>, StoreError>
    ensures lists { HasCleanDisk (shown_by S.Store tables.new) → (now : TableRows) (kept : Content) → Within (shown_by S.Store tables.old) (Showing (with_rows Notices [] now)) kept → AllRise now → notices.items ≡ now Notices
        → IfOk result (λ found. IfSome found (λ lists. lists_in_version VERSION (loaded_tables now) ≡ Some lists)) }
    ensures checked { IfOk result (λ found. IfSome found AreChecked) }
    ensures step { Step result (shown_by S.Store tables.old) (shown_by S.Store tables.new) (counts_of tables.old) (counts_of tables.new) Full Full (MakesNone (shown_by S.Store tables.old) Full) }
{
    match load_rows(tables, alloc) {
        Ok(rows) => check_rows(tables, alloc, with_notices(rows, notices)),
        Err(error) => {
            drop(notices);
            Err(error)
        }
    }
}

fn with_notices(rows: LoadedRows, notices: Vec<Row>) -> LoadedRows
    ensures { tables_of result ≡ with_loaded Notices notices.items (tables_of rows) }
{
    let mut rows = rows;
    put(&mut rows, TableName::Notices, notices);
    rows
}

// The lists that rows are, within a transaction, if they are a valid contest's.
fn check_rows<S: Alter>(
    tables: &mut Tables<S>,
    alloc: Global,
    rows: LoadedRows,
) -> Result<Option<ScoredLists>, StoreError>
    ensures lists { IfOk result (λ found. IfSome found (λ lists. lists_in_version VERSION (tables_of rows) ≡ Some lists)) }
    ensures checked { IfOk result (λ found. IfSome found AreChecked) }
    ensures step { Step result (shown_by S.Store tables.old) (shown_by S.Store tables.new) (counts_of tables.old) (counts_of tables.new) Full Full (MakesNone (shown_by S.Store tables.old) Full) }
{
    match read_scored(alloc, VERSION, &rows) {
        Ok(found) => check_valid(tables, alloc, found),
        Err(AllocError) => Err(tables.out_of_memory()),
    }
}
