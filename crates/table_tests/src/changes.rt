//! A contest's tables take a change of each kind, and show it.
use crate::each_kind::{CHANGES, change};
use crate::rows::{SHOWN, Shown};
use contest_fixtures::rehearsal;
use contest_lists::Lists;
use contest_store::StoreError;
use contest_store_changes::write_entry;
use contest_store_reading::{contest_cells, desk_cells};
use contest_store_rows::{VERSION, is_row};
use contest_store_tables::{Counts, TableName, Tables};
use contest_types::{Entry, Fixed, Rows};
use sqlite::{Connection, MemStore, Row};
use std::alloc::Global;
use std::rc::Rc;
use std::test::Fail;

fn open(alloc: Global) -> Result<Tables<MemStore>, StoreError> {
    match Connection::open_in_memory(alloc) {
        Ok(conn) => Ok(Tables::new(conn)),
        Err(_) => Err(StoreError::Memory),
    }
}

/// Within a transaction, the tables of a contest in which nothing stands yet.
fn made(alloc: Global, fixed: &Fixed) -> Result<Tables<MemStore>, StoreError> {
    let mut tables = open(alloc)?;
    let done = make_tables(&mut tables, fixed);
    value_if(done, tables)
}

fn make_tables(tables: &mut Tables<MemStore>, fixed: &Fixed) -> Result<(), StoreError> {
    tables.begin()?;
    tables.make()?;
    tables.insert(TableName::Desk, &desk_cells(VERSION))?;
    tables.insert(TableName::Contest, &contest_cells(fixed))
}

fn value_if<T: Drop>(done: Result<(), StoreError>, value: T) -> Result<T, StoreError> {
    match done {
        Ok(()) => Ok(value),
        Err(error) => Err(error),
    }
}

/// A change in the tables, and in the lists.
fn make_change(
    alloc: Global,
    tables: &mut Tables<MemStore>,
    lists: &mut Lists,
    entry: &Entry,
) -> Result<(), Fail> {
    write_entry(tables, alloc, lists, entry)?;
    lists.add(alloc, entry)?;
    Ok(())
}

/// The change at a place.
fn make(
    alloc: Global,
    tables: &mut Tables<MemStore>,
    lists: &mut Lists,
    place: usize,
) -> Result<(), Fail> {
    let entry = change(alloc, place)?;
    make_change(alloc, tables, lists, &entry)
}

fn are_rows(rows: &[Row], shown: &Shown) -> bool {
    rows.len() == shown.1.len()
        && rows
            .iter()
            .zip(shown.1)
            .all(|(row, cells)| is_row(row, cells))
}

/// How many tables show what they have to.
fn count_shown(tables: &mut Tables<MemStore>) -> Result<usize, StoreError> {
    let mut count: usize = 0;
    for shown in &SHOWN {
        let rows = tables.load(shown.0)?;
        if are_rows(&rows, shown) {
            count = count.saturating_add(1);
        }
    }
    Ok(count)
}

/// Makes all changes in the tables and in the lists, commits them, and looks how many tables show
/// them.
fn commit_all(
    alloc: Global,
    tables: &mut Tables<MemStore>,
    lists: &mut Lists,
) -> Result<(usize, Counts), Fail> {
    for place in 0..CHANGES {
        make(alloc, tables, lists, place)?;
    }
    tables.commit()?;
    tables.begin()?;
    Ok((count_shown(tables)?, tables.counts()))
}

fn shown_over(alloc: Global, lists: &mut Lists) -> Result<(usize, Counts), Fail> {
    let mut tables = made(alloc, lists.fixed())?;
    commit_all(alloc, &mut tables, lists)
}

fn shown_after(alloc: Global) -> Result<(usize, Counts), Fail> {
    let mut lists = Lists::new(alloc, rehearsal(alloc, &[], Rows::new(alloc))?);
    shown_over(alloc, &mut lists)
}

/// Each change stands in its table after the commit, and in no other.
#[test]
fn each_change_is_its_rows(rt: HostRuntime) -> Result<(), Fail> {
    let none_failed = Counts {
        faults: 0,
        refusals: 0,
    };
    assert_eq!(rt; shown_after(rt.alloc())?, (11, none_failed));
    Ok(())
}
