//! One contest's tables: each is made, takes a row and shows it, and a row that may change changes.
ghost use Rattle.std.specs.Prelude.{◌≡◌};
ghost use Rattle.contest_store_tables.specs.Changes.{change_width};
ghost use Rattle.contest_store_tables.specs.Statements.{insert_width};

use contest_store::StoreError;
use contest_store_rows::is_row;
use contest_store_tables::{Counts, RowChange, TableName, Tables};
use sqlite::types::ValueRef;
use sqlite::types::ValueRef::{Blob, Int, Null, Text};
use sqlite::{Connection, MemStore, Row};
use std::alloc::Global;

/// A row of each table, in the order in which the tables are made.
static ROWS: [(TableName, &[ValueRef<'static>]); 12] = [
    (TableName::Desk, &[Int(1), Int(1)]),
    (
        TableName::Contest,
        &[
            Int(1),
            Text(b"demo"),
            Text(b"Demo Cup"),
            Int(18_000_000),
            Null,
            Int(20),
            Int(0),
            Int(4),
            Int(4),
            Int(4),
            Int(1_709_370_000_000),
            Null,
            Null,
        ],
    ),
    (
        TableName::Items,
        &[
            Int(0),
            Int(1),
            Text(b"AC"),
            Text(b"correct"),
            Text(b""),
            Int(0),
            Int(1),
            Int(0),
            Text(b""),
        ],
    ),
    (
        TableName::Accounts,
        &[Text(b"a1"), Int(0), Text(b"t1"), Blob(b"digest")],
    ),
    (
        TableName::Submissions,
        &[
            Int(1),
            Int(1),
            Int(1),
            Int(1_709_370_300_000),
            Text(b"a"),
            Text(b"cpp"),
            Null,
            Blob(b"int main"),
            Text(b"key"),
        ],
    ),
    (
        TableName::Proposals,
        &[
            Int(1),
            Int(1),
            Int(1),
            Text(b"AC"),
            Text(b"j1"),
            Int(1_709_370_360_000),
        ],
    ),
    (
        TableName::Releases,
        &[
            Int(1),
            Int(1),
            Int(1),
            Int(1),
            Text(b"AC"),
            Int(1_709_370_360_000),
        ],
    ),
    (TableName::Rejudgings, &[Int(1), Text(b"tests"), Int(0)]),
    (
        TableName::Members,
        &[Int(1), Int(0), Int(1), Int(1), Null, Null, Int(0)],
    ),
    (
        TableName::Clarifications,
        &[
            Int(1),
            Int(0),
            Int(1),
            Int(1),
            Text(b"j1"),
            Null,
            Null,
            Text(b"Welcome"),
            Int(1_709_370_000_000),
            Null,
        ],
    ),
    (
        TableName::Cells,
        &[Int(0), Int(1), Text(b"a"), Int(1), Int(0), Int(5), Int(0)],
    ),
    (
        TableName::Notices,
        &[
            Int(1),
            Int(2),
            Int(1),
            Int(1),
            Int(1),
            Text(b"j1"),
            Null,
            Null,
            Text(b"Welcome"),
            Int(1_709_370_000_000),
            Null,
        ],
    ),
];

fn open(alloc: Global) -> Result<Tables<MemStore>, StoreError> {
    match Connection::open_in_memory(alloc) {
        Ok(conn) => Ok(Tables::new(conn)),
        Err(_) => Err(StoreError::Memory),
    }
}

fn begin(tables: &mut Tables<MemStore>) -> Result<(), StoreError> {
    tables.begin()
}

fn make(tables: &mut Tables<MemStore>) -> Result<(), StoreError> {
    tables.make()
}

fn commit(tables: &mut Tables<MemStore>) -> Result<(), StoreError> {
    tables.commit()
}

fn insert(
    tables: &mut Tables<MemStore>,
    table: TableName,
    row: &[ValueRef<'_>],
) -> Result<(), StoreError> {
    if row.len() == insert_width(table) {
        tables.insert(table, row)
    } else {
        Err(StoreError::Fault)
    }
}

/// How many cells a row of a table has.
fn insert_width(table: TableName) -> usize
    ensures { result ≡ insert_width table }
{
    match table {
        TableName::Desk => 2,
        TableName::Contest => 13,
        TableName::Items | TableName::Submissions => 9,
        TableName::Accounts => 4,
        TableName::Proposals | TableName::Releases => 6,
        TableName::Rejudgings => 3,
        TableName::Members | TableName::Cells => 7,
        TableName::Clarifications => 10,
        TableName::Notices => 11,
    }
}

fn load(tables: &mut Tables<MemStore>, table: TableName) -> Result<Vec<Row>, StoreError> {
    tables.load(table)
}

fn change(
    tables: &mut Tables<MemStore>,
    change: RowChange,
    given: &[ValueRef<'_>],
) -> Result<(), StoreError> {
    if given.len() == change_width(change) {
        tables.change(change, given)
    } else {
        Err(StoreError::Fault)
    }
}

/// How many values a change of a row takes.
fn change_width(change: RowChange) -> usize
    ensures { result ≡ change_width change }
{
    match change {
        RowChange::Version | RowChange::Digest | RowChange::RejudgingState => 2,
        RowChange::Duration | RowChange::ItemName => 3,
        RowChange::Marks => 4,
        RowChange::MemberState => 5,
        RowChange::Cell => 7,
    }
}

fn files(tables: &mut Tables<MemStore>, number: i64) -> Result<usize, StoreError> {
    let rows = tables.files(&[Int(1), Int(number)])?;
    Ok(rows.len())
}

/// The tables with one row each.
fn filled(alloc: Global) -> Result<Tables<MemStore>, StoreError> {
    let mut tables = open(alloc)?;
    begin(&mut tables)?;
    make(&mut tables)?;
    for (table, row) in ROWS {
        insert(&mut tables, table, row)?;
    }
    Ok(tables)
}

/// How many rows the tables show in all.
fn rows(tables: &mut Tables<MemStore>) -> Result<usize, StoreError> {
    let mut count: usize = 0;
    for (table, _) in ROWS {
        count = count.saturating_add(load(tables, table)?.len());
    }
    Ok(count)
}

/// The number at a column of a table's first row; 7 where there is none.
fn number(tables: &mut Tables<MemStore>, table: TableName, at: usize) -> Result<i64, StoreError> {
    let rows = load(tables, table)?;
    match rows.first() {
        Some(row) => Ok(row.get(at).unwrap_or(7)),
        None => Ok(7),
    }
}

fn count_filled(alloc: Global) -> Result<(usize, usize, Counts), StoreError> {
    let mut tables = filled(alloc)?;
    let shown = rows(&mut tables)?;
    commit(&mut tables)?;
    begin(&mut tables)?;
    let kept = rows(&mut tables)?;
    Ok((shown, kept, tables.counts()))
}

const NONE_FAILED: Counts = Counts {
    faults: 0,
    refusals: 0,
};

/// Each table is made and takes a row, which stands after the commit too.
#[test]
fn each_table_takes_a_row(rt: HostRuntime) {
    let counted = count_filled(rt.alloc());
    assert!(rt; counted == Ok((12, 12, NONE_FAILED)));
}

fn look_at_files(alloc: Global) -> Result<(usize, usize, i64), StoreError> {
    let mut tables = filled(alloc)?;
    let found = files(&mut tables, 1)?;
    let other = files(&mut tables, 2)?;
    Ok((
        found,
        other,
        number(&mut tables, TableName::Submissions, 8)?,
    ))
}

/// A file is found by its team and its number, and a load gives its length.
#[test]
fn a_file_is_found(rt: HostRuntime) {
    let found = look_at_files(rt.alloc());
    assert!(rt; found == Ok((1, 0, 8)));
}

/// The rows of three tables after changes of what is set up.
static SET_UP: [(TableName, &[ValueRef<'static>]); 3] = [
    (
        TableName::Contest,
        &[
            Int(1),
            Text(b"demo"),
            Text(b"Demo Cup"),
            Int(19_200_000),
            Int(4_800_000),
            Int(20),
            Int(0),
            Int(4),
            Int(4),
            Int(4),
            Int(1_709_370_000_000),
            Null,
            Null,
        ],
    ),
    (
        TableName::Items,
        &[
            Int(0),
            Int(1),
            Text(b"AC"),
            Text(b"accepted"),
            Text(b""),
            Int(0),
            Int(1),
            Int(0),
            Text(b""),
        ],
    ),
    (
        TableName::Accounts,
        &[Text(b"a1"), Int(0), Text(b"t1"), Blob(b"another")],
    ),
];

/// Whether a table's first row has these cells.
fn shows(
    tables: &mut Tables<MemStore>,
    table: TableName,
    cells: &[ValueRef<'_>],
) -> Result<bool, StoreError> {
    let rows = load(tables, table)?;
    match rows.first() {
        Some(row) => Ok(is_row(row, cells)),
        None => Ok(false),
    }
}

fn count_set_up(alloc: Global) -> Result<usize, StoreError> {
    let mut tables = filled(alloc)?;
    change(
        &mut tables,
        RowChange::Duration,
        &[Int(1), Int(19_200_000), Int(4_800_000)],
    )?;
    change(
        &mut tables,
        RowChange::ItemName,
        &[Int(0), Int(1), Text(b"accepted")],
    )?;
    change(
        &mut tables,
        RowChange::Digest,
        &[Text(b"a1"), Blob(b"another")],
    )?;
    let mut count: usize = 0;
    for (table, cells) in SET_UP {
        if shows(&mut tables, table, cells)? {
            count = count.saturating_add(1);
        }
    }
    Ok(count)
}

/// The duration with the freeze, a name and a token change where they stand, and nothing else of
/// their rows.
#[test]
fn what_is_set_up_changes(rt: HostRuntime) {
    let shown = count_set_up(rt.alloc());
    assert!(rt; shown == Ok(3));
}

fn changed(alloc: Global) -> Result<[i64; 5], StoreError> {
    let mut tables = filled(alloc)?;
    change(&mut tables, RowChange::Version, &[Int(1), Int(2)])?;
    change(
        &mut tables,
        RowChange::Marks,
        &[Int(1), Int(1_709_370_000_000), Int(5), Null],
    )?;
    change(&mut tables, RowChange::RejudgingState, &[Int(1), Int(2)])?;
    change(
        &mut tables,
        RowChange::MemberState,
        &[Int(1), Int(0), Text(b"AC"), Null, Int(1)],
    )?;
    change(
        &mut tables,
        RowChange::Cell,
        &[Int(0), Int(1), Text(b"a"), Int(2), Int(3), Int(5), Int(1)],
    )?;
    Ok([
        number(&mut tables, TableName::Desk, 1)?,
        number(&mut tables, TableName::Contest, 11)?,
        number(&mut tables, TableName::Rejudgings, 2)?,
        number(&mut tables, TableName::Members, 6)?,
        number(&mut tables, TableName::Cells, 4)?,
    ])
}

/// The version, the marks, a rejudging's state, a member and a cell change where they stand.
#[test]
fn rows_change(rt: HostRuntime) {
    let changed = changed(rt.alloc());
    assert!(rt; changed == Ok([2, 5, 2, 1, 3]));
}

fn refused(alloc: Global) -> Result<(bool, bool, Counts), StoreError> {
    let mut tables = filled(alloc)?;
    commit(&mut tables)?;
    begin(&mut tables)?;
    let again = insert(
        &mut tables,
        TableName::Rejudgings,
        &[Int(1), Text(b"again"), Int(0)],
    );
    begin(&mut tables)?;
    let stands = rows(&mut tables)?;
    Ok((
        again == Err(StoreError::Fault),
        stands == 12,
        tables.counts(),
    ))
}

/// A second row of a key is a fault, and what was committed stands.
#[test]
fn a_key_stands_once(rt: HostRuntime) {
    let refused = refused(rt.alloc());
    let one_fault = Counts {
        faults: 1,
        refusals: 0,
    };
    assert!(rt; refused == Ok((true, true, one_fault)));
}
