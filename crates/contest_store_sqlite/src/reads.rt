//! The lists of a contest, read from its tables.
ghost use Rattle.std.specs.Prelude.{◌≡◌, IfOk};
ghost use Rattle.sqlite.specs.State.{HasCleanDisk};
ghost use Rattle.contest_types.specs.State.{ContestState};
ghost use Rattle.contest_lists.specs.Lists.{loaded};
ghost use Rattle.contest_store_reading.specs.Spelling.{lists_in, lists_in_version, tables_of};
ghost use Rattle.contest_store_tables.specs.Connected.{shown_by, counts_of};
ghost use Rattle.contest_store_tables.specs.Steps.{Call, Step, Content, Full, Holds, MakesNone};
ghost use Rattle.contest_store_tables.specs.Steps.{Showing, Within};
ghost use Rattle.contest_store_tables.specs.Tables.{TableRows};
ghost use Rattle.contest_store_changes.specs.ContestTables.{loaded_tables, table_rows};
ghost use Rattle.contest_store_changes.specs.Sound.{IsSound};
ghost use Rattle.contest_store_sqlite.specs.Keeping.{StaysKept};
ghost use Rattle.contest_store_sqlite.specs.Loading.{AllRise, no_rows, with_loaded};
ghost use Rattle.contest_store_sqlite.specs.Steps.{HoldsDesk};

use contest_store::{ScoredLists, StoreError};
use contest_store_reading::{LoadedRows, read_lists};
use contest_store_rows::{VERSION, Version};
use contest_store_tables::{LIST_TABLES, TableName, Tables};
use sqlite::{Alter, Row};
use std::alloc::{AllocError, Global};

/// The lists of the contest that the tables of a store show, in a transaction, which is begun where
/// there is none.
///
/// # Errors
///
/// `Memory` where a growth was refused; `Fault` where the connection failed for another cause, or
/// where the rows are those of no contest, which are not what was written.
pub(crate) fn load_lists<S: Alter>(
    tables: &mut Tables<S>,
    alloc: Global,
) -> Result<ScoredLists, StoreError>
    requires { StaysKept (shown_by S.Store tables.old) }
    ensures lists { HasCleanDisk (shown_by S.Store tables.new) → (x : ContestState) (kept : Content) → IsSound x → Holds (shown_by S.Store tables.old) (Showing (table_rows x)) kept → IfOk result (λ lists. lists ≡ loaded x) }
    ensures call { Call result (shown_by S.Store tables.old) (shown_by S.Store tables.new) (counts_of tables.old) (counts_of tables.new) HoldsDesk Full (MakesNone (shown_by S.Store tables.old) HoldsDesk) }
{
    match find_lists(tables, alloc) {
        Ok(found) => match found {
            Some(lists) => Ok(lists),
            None => Err(tables.disbelieve()),
        },
        Err(error) => Err(error),
    }
}

/// The lists of the contest that the tables show, in a transaction, which is begun where there is
/// none; none where their rows are those of no contest.
///
/// # Errors
///
/// `Memory` where a growth was refused; `Fault` where the connection failed for another cause.
pub(crate) fn find_lists<S: Alter>(
    tables: &mut Tables<S>,
    alloc: Global,
) -> Result<Option<ScoredLists>, StoreError>
    ensures lists { HasCleanDisk (shown_by S.Store tables.new) → (now : TableRows) (kept : Content) → Holds (shown_by S.Store tables.old) (Showing now) kept → AllRise now → IfOk result (λ found. found ≡ lists_in (loaded_tables now)) }
    ensures call { Call result (shown_by S.Store tables.old) (shown_by S.Store tables.new) (counts_of tables.old) (counts_of tables.new) HoldsDesk Full (MakesNone (shown_by S.Store tables.old) HoldsDesk) }
{
    match tables.begin() {
        Ok(()) => read_within(tables, alloc, VERSION),
        Err(error) => Err(error),
    }
}

/// The same within a transaction, in a version of the schema.
pub(crate) fn read_within<S: Alter>(
    tables: &mut Tables<S>,
    alloc: Global,
    version: Version,
) -> Result<Option<ScoredLists>, StoreError>
    ensures lists { HasCleanDisk (shown_by S.Store tables.new) → (now : TableRows) (kept : Content) → Within (shown_by S.Store tables.old) (Showing now) kept → AllRise now → IfOk result (λ found. found ≡ lists_in_version version (loaded_tables now)) }
    ensures step { Step result (shown_by S.Store tables.old) (shown_by S.Store tables.new) (counts_of tables.old) (counts_of tables.new) Full Full (MakesNone (shown_by S.Store tables.old) Full) }
{
    match load_rows(tables, alloc) {
        Ok(rows) => match read_scored(alloc, version, &rows) {
            Ok(found) => Ok(found),
            Err(AllocError) => Err(tables.out_of_memory()),
        },
        Err(error) => Err(error),
    }
}

/// The lists that rows are, with their cells; none where they are those of no contest.
pub(crate) fn read_scored(
    alloc: Global,
    version: Version,
    rows: &LoadedRows,
) -> Result<Option<ScoredLists>, AllocError>
    ensures { IfOk result (λ found. found ≡ lists_in_version version (tables_of rows.now)) }
{
    match read_lists(alloc, version, rows)? {
        Some(lists) => Ok(Some(ScoredLists::new(alloc, lists)?)),
        None => Ok(None),
    }
}

/// The rows of the tables of the lists, within a transaction.
pub(crate) fn load_rows<S: Alter>(
    tables: &mut Tables<S>,
    alloc: Global,
) -> Result<LoadedRows, StoreError>
    ensures rows { HasCleanDisk (shown_by S.Store tables.new) → (now : TableRows) (kept : Content) → Within (shown_by S.Store tables.old) (Showing now) kept → AllRise now → IfOk result (λ rows. tables_of rows ≡ loaded_tables now) }
    ensures step { Step result (shown_by S.Store tables.old) (shown_by S.Store tables.new) (counts_of tables.old) (counts_of tables.new) Full Full (MakesNone (shown_by S.Store tables.old) Full) }
{
    let mut rows = without_rows(alloc);
    for table in LIST_TABLES {
        match tables.load(table) {
            Ok(found) => put(&mut rows, table, found),
            Err(error) => return Err(error),
        }
    }
    Ok(rows)
}

fn without_rows(alloc: Global) -> LoadedRows
    ensures { tables_of result ≡ no_rows }
{
    LoadedRows {
        desk: Vec::new(alloc),
        contest: Vec::new(alloc),
        items: Vec::new(alloc),
        accounts: Vec::new(alloc),
        submissions: Vec::new(alloc),
        proposals: Vec::new(alloc),
        releases: Vec::new(alloc),
        rejudgings: Vec::new(alloc),
        members: Vec::new(alloc),
        clarifications: Vec::new(alloc),
        notices: Vec::new(alloc),
    }
}

/// Puts the rows of one table among the loaded ones.
pub(crate) fn put(rows: &mut LoadedRows, table: TableName, found: Vec<Row>)
    ensures { tables_of rows.new ≡ with_loaded table found.items (tables_of rows.old) }
{
    match table {
        TableName::Desk => rows.desk = found,
        TableName::Contest => rows.contest = found,
        TableName::Items => rows.items = found,
        TableName::Accounts => rows.accounts = found,
        TableName::Submissions => rows.submissions = found,
        TableName::Proposals => rows.proposals = found,
        TableName::Releases => rows.releases = found,
        TableName::Rejudgings => rows.rejudgings = found,
        TableName::Members => rows.members = found,
        TableName::Clarifications => rows.clarifications = found,
        TableName::Notices => rows.notices = found,
        TableName::Cells => drop(found),
    }
}
