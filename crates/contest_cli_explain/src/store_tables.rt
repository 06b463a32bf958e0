//! Which table of a contest isn't as it should be.

use contest_lists::Lists;
use contest_store::{ScoredLists, StoreError};
use contest_store_cells::are_cells;
use contest_store_reading::{LoadedRows, read_lists};
use contest_store_rows::VERSION;
use contest_store_tables::{LIST_TABLES, Standing, TableName, Tables};
use contest_store_valid::is_valid;
use sqlite::{Alter, Connection, Row};
use std::alloc::{AllocError, Global};

/// What the tables of a database are.
#[derive(Clone, Copy, PartialEq, Eq)]
pub(crate) enum TablesFound {
    /// There is none.
    Bare,
    /// They are none of a desk's.
    Foreign,
    /// They are those that were made first.
    Lacking,
    /// All are there but that of the cells.
    Celless,
    /// This one can't be read.
    Unread(TableName),
    /// With this one they are no valid contest's any more.
    Damaged(TableName),
    /// They are a contest's.
    Whole,
}

/// What the tables of a connection are. They are only read. The error is want of memory.
pub(crate) fn tables_found<S: Alter + Drop>(
    alloc: Global,
    conn: Connection<S>,
) -> Result<TablesFound, AllocError> {
    let mut tables = Tables::new(conn);
    let found = match tables.standing() {
        Standing::Bare => Ok(TablesFound::Bare),
        Standing::Foreign => Ok(TablesFound::Foreign),
        Standing::Lacking(_) => Ok(TablesFound::Lacking),
        Standing::Celless => Ok(TablesFound::Celless),
        Standing::Desk => rows_found(alloc, &mut tables),
    };
    tables.roll_back();
    found
}

// What the rows of a desk's tables are.
fn rows_found<S: Alter>(alloc: Global, tables: &mut Tables<S>) -> Result<TablesFound, AllocError> {
    if let Err(error) = tables.begin() {
        return unread(error, TableName::Desk);
    }
    let mut rows = no_rows(alloc);
    for table in LIST_TABLES {
        match add_table(alloc, tables, &mut rows, table)? {
            TablesFound::Whole => (),
            found => return Ok(found),
        }
    }
    cells_found(alloc, tables, &rows)
}

// Reads one table more, and whether with it the rows are a valid contest's.
fn add_table<S: Alter>(
    alloc: Global,
    tables: &mut Tables<S>,
    rows: &mut LoadedRows,
    table: TableName,
) -> Result<TablesFound, AllocError> {
    match load(tables, table) {
        Ok(found) => put(rows, table, found),
        Err(error) => return unread(error, table),
    }
    if goes_with_next(table) || lists_of(alloc, rows)?.is_some() {
        Ok(TablesFound::Whole)
    } else {
        Ok(TablesFound::Damaged(table))
    }
}

fn load<S: Alter>(tables: &mut Tables<S>, table: TableName) -> Result<Vec<Row>, StoreError> {
    tables.load(table)
}

fn unread(error: StoreError, table: TableName) -> Result<TablesFound, AllocError> {
    match error {
        StoreError::Memory => Err(AllocError),
        StoreError::Fault => Ok(TablesFound::Unread(table)),
    }
}

// Whether a table says something only together with the one behind it.
fn goes_with_next(table: TableName) -> bool {
    matches!(
        table,
        TableName::Desk | TableName::Rejudgings | TableName::Clarifications
    )
}

// The lists that rows are, if they are a valid contest's.
fn lists_of(alloc: Global, rows: &LoadedRows) -> Result<Option<Lists>, AllocError> {
    match read_lists(alloc, VERSION, rows)? {
        Some(lists) => if_valid(alloc, lists),
        None => Ok(None),
    }
}

fn if_valid(alloc: Global, lists: Lists) -> Result<Option<Lists>, AllocError> {
    let is_valid = is_valid(alloc, &lists)?;
    Ok(is_valid.then_some(lists))
}

// Whether the cells are those of the rows; none at all are filled by the next opening.
fn cells_found<S: Alter>(
    alloc: Global,
    tables: &mut Tables<S>,
    rows: &LoadedRows,
) -> Result<TablesFound, AllocError> {
    match load(tables, TableName::Cells) {
        Ok(cells) => match lists_of(alloc, rows)? {
            Some(lists) => compare(alloc, &cells, lists),
            None => Ok(TablesFound::Whole),
        },
        Err(error) => unread(error, TableName::Cells),
    }
}

fn compare(alloc: Global, cells: &[Row], lists: Lists) -> Result<TablesFound, AllocError> {
    let lists = ScoredLists::new(alloc, lists)?;
    if cells.is_empty() || are_cells(alloc, cells, &lists)? {
        Ok(TablesFound::Whole)
    } else {
        Ok(TablesFound::Damaged(TableName::Cells))
    }
}

fn no_rows(alloc: Global) -> LoadedRows {
    LoadedRows {
        desk: Vec::new(alloc),
        contest: Vec::new(alloc),
        items: Vec::new(alloc),
        accounts: Vec::new(alloc),
        submissions: Vec::new(alloc),
        proposals: Vec::new(alloc),
        releases: Vec::new(alloc),
        rejudgings: Vec::new(alloc),
        members: Vec::new(alloc),
        clarifications: Vec::new(alloc),
        notices: Vec::new(alloc),
    }
}

fn put(rows: &mut LoadedRows, table: TableName, found: Vec<Row>) {
    match table {
        TableName::Desk => rows.desk = found,
        TableName::Contest => rows.contest = found,
        TableName::Items => rows.items = found,
        TableName::Accounts => rows.accounts = found,
        TableName::Submissions => rows.submissions = found,
        TableName::Proposals => rows.proposals = found,
        TableName::Releases => rows.releases = found,
        TableName::Rejudgings => rows.rejudgings = found,
        TableName::Members => rows.members = found,
        TableName::Clarifications => rows.clarifications = found,
        TableName::Notices => rows.notices = found,
        TableName::Cells => drop(found),
    }
}
