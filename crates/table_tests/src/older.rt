//! A desk of the first schema is given the tables that it lacks, one after the other.
use contest_demo::first_schema::FIRST_TABLES;
use contest_store::StoreError;
use contest_store_tables::{LaterTable, Standing, TableName, Tables};
use sqlite::{Connection, MemStore};
use std::alloc::Global;

/// How many of them the first desks had.
const OLDEST: usize = 10;

fn execute(conn: &mut Connection<MemStore>, statement: &str) -> Result<(), StoreError> {
    if conn.execute(statement, &[]).is_err() {
        return Err(StoreError::Fault);
    }
    Ok(())
}

fn make_older(conn: &mut Connection<MemStore>) -> Result<(), StoreError> {
    for statement in FIRST_TABLES.iter().take(OLDEST) {
        execute(conn, statement)?;
    }
    execute(conn, "INSERT INTO desk (one, version) VALUES (1, 1)")
}

fn older(alloc: Global) -> Result<Tables<MemStore>, StoreError> {
    match Connection::open_in_memory(alloc) {
        Ok(mut conn) => {
            let made = make_older(&mut conn);
            value_if(made, Tables::new(conn))
        }
        Err(_) => Err(StoreError::Memory),
    }
}

fn value_if<T: Drop>(done: Result<(), StoreError>, value: T) -> Result<T, StoreError> {
    match done {
        Ok(()) => Ok(value),
        Err(error) => Err(error),
    }
}

fn make_later(tables: &mut Tables<MemStore>, table: LaterTable) -> Result<(), StoreError> {
    tables.begin()?;
    tables.make_later(table)?;
    tables.commit()
}

/// How many rows a table shows.
fn count(tables: &mut Tables<MemStore>, table: TableName) -> Result<usize, StoreError> {
    Ok(tables.load(table)?.len())
}

/// What stood before the later tables were made, and after each of them.
fn standings(alloc: Global) -> Result<[Standing; 3], StoreError> {
    let mut tables = older(alloc)?;
    let oldest = tables.standing();
    make_later(&mut tables, LaterTable::Cells)?;
    let older = tables.standing();
    make_later(&mut tables, LaterTable::Notices)?;
    Ok([oldest, older, tables.standing()])
}

/// The first desks have the tables of a desk once the later ones are made.
#[test]
fn later_tables_are_made(rt: HostRuntime) {
    let standings = standings(rt.alloc());
    let cells = Standing::Lacking(LaterTable::Cells);
    let notices = Standing::Lacking(LaterTable::Notices);
    assert!(rt; standings == Ok([cells, notices, Standing::Desk]));
}

/// How many rows the first table and the two later ones show once those are made.
fn rows(alloc: Global) -> Result<[usize; 3], StoreError> {
    let mut tables = older(alloc)?;
    make_later(&mut tables, LaterTable::Cells)?;
    make_later(&mut tables, LaterTable::Notices)?;
    tables.begin()?;
    Ok([
        count(&mut tables, TableName::Desk)?,
        count(&mut tables, TableName::Cells)?,
        count(&mut tables, TableName::Notices)?,
    ])
}

/// They are empty, and the rows of the others stay.
#[test]
fn later_tables_are_empty(rt: HostRuntime) {
    let rows = rows(rt.alloc());
    assert!(rt; rows == Ok([1, 0, 0]));
}

/// What stands after a second table of the cells was refused.
fn refused(alloc: Global) -> Result<(bool, Standing), StoreError> {
    let mut tables = older(alloc)?;
    make_later(&mut tables, LaterTable::Cells)?;
    tables.begin()?;
    let again = tables.make_later(LaterTable::Cells);
    Ok((again == Err(StoreError::Fault), tables.standing()))
}

/// A desk has one table of the cells.
#[test]
fn cells_are_made_once(rt: HostRuntime) {
    let refused = refused(rt.alloc());
    let notices = Standing::Lacking(LaterTable::Notices);
    assert!(rt; refused == Ok((true, notices)));
}
