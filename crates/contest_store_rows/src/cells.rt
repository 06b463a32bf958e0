//! Cells of tables: the values of a contest on their way in, and what a row that was read holds.
ghost use Rattle.std.specs.Prelude.{◌≡◌, ◌<◌, ◌^◌, IfOk, length};
ghost use Rattle.sqlite_value.specs.Order.{column};
ghost use Rattle.sqlite_value.specs.Value.{owned};
ghost use Rattle.sqlite_value.specs.declared.value.Value.TheVariants.{Text};
ghost use Rattle.sqlite.specs.Values.{or_null};
ghost use Rattle.contest_store_rows.specs.Readings.{id_if_any, id_in, is_set, name_if_any, name_in};
ghost use Rattle.contest_store_rows.specs.Cells.{is_null, lent, number, number_of, same_cell};
ghost use Rattle.contest_store_rows.specs.Cells.{same_row, text_of};

use contest_types::{Id, Name};
use sqlite::Row;
use sqlite::types::ValueRef;
use std::alloc::{AllocError, Global};

/// A whole number as a cell. No number of a contest is larger than a cell's.
pub fn number<'a>(n: u64) -> ValueRef<'a>
    ensures { n < 2 ^ 63 → owned result ≡ number n }
{
    ValueRef::Int(i64::try_from(n).unwrap_or(i64::MAX))
}

/// The cell at a place, from 0.
pub fn cell(row: &Row, at: usize) -> ValueRef<'_>
    ensures { owned result ≡ column row.now at }
{
    match row.get_ref(at) {
        Ok(value) => value,
        Err(_) => ValueRef::Null,
    }
}

/// The number in a cell, and 0 where it holds none.
pub fn number_at(row: &Row, at: usize) -> u64
    ensures value { result ≡ number_of (column row.now at) }
    ensures bound { result < 2 ^ 63 }
{
    match cell(row, at) {
        ValueRef::Int(n) => u64::try_from(n).unwrap_or(0),
        _ => 0,
    }
}

/// The text in a cell, and none where it holds none.
pub fn text_at(row: &Row, at: usize) -> &[u8]
    ensures { result.now ≡ text_of (column row.now at) }
{
    match cell(row, at) {
        ValueRef::Text(text) => text,
        _ => b"".as_slice(),
    }
}

/// Whether a cell holds nothing.
pub fn is_null(row: &Row, at: usize) -> bool
    ensures { result ≡ is_null (column row.now at) }
{
    matches!(cell(row, at), ValueRef::Null)
}

/// Whether a row that was read has these cells, and no others.
#[tactic(auto, using(crate::proofs::CellLemmas::unlike_lengths))]
pub fn is_row(row: &Row, cells: &[ValueRef<'_>]) -> bool
    ensures { result ≡ same_row row.now (lent cells.now) }
{
    row.column_count() == cells.len() && has_cells(row, cells)
}

fn has_cells(row: &Row, cells: &[ValueRef<'_>]) -> bool
    requires { length row.now ≡ length cells.now }
    ensures { result ≡ same_row row.now (lent cells.now) }
{
    for at in 0..cells.len() {
        if !same_cell(cell(row, at), cells[at]) {
            return false;
        }
    }
    true
}

fn same_cell(a: ValueRef<'_>, b: ValueRef<'_>) -> bool
    ensures { result ≡ same_cell (owned a.entry) (owned b.entry) }
{
    match (a, b) {
        (ValueRef::Null, ValueRef::Null) => true,
        (ValueRef::Int(m), ValueRef::Int(n)) => m == n,
        (ValueRef::Text(s), ValueRef::Text(t)) | (ValueRef::Blob(s), ValueRef::Blob(t)) => s == t,
        _ => false,
    }
}

/// An id as a cell, or NULL.
pub fn id_or_null(id: &Option<Id>) -> ValueRef<'_>
    ensures { owned result ≡ or_null Text id.now }
{
    match id {
        Some(id) => ValueRef::Text(id.as_bytes()),
        None => ValueRef::Null,
    }
}

/// A name as a cell, or NULL.
pub fn name_or_null(name: &Option<Name>) -> ValueRef<'_>
    ensures { owned result ≡ or_null Text name.now }
{
    match name {
        Some(name) => ValueRef::Text(name.as_str().as_bytes()),
        None => ValueRef::Null,
    }
}

/// The id in a cell, or NULL; none where it holds something else.
///
/// # Errors
///
/// Want of memory alone.
pub fn id_if_any(alloc: Global, row: &Row, at: usize) -> Result<Option<Option<Id>>, AllocError>
    ensures { IfOk result (λ found. found ≡ id_if_any (column row.now at)) }
{
    match cell(row, at) {
        ValueRef::Null => Ok(Some(None)),
        ValueRef::Text(text) => match Id::from_bytes(alloc, text) {
            Ok(Some(id)) => Ok(Some(Some(id))),
            Ok(None) => Ok(None),
            Err(_) => Err(AllocError),
        },
        _ => Ok(None),
    }
}

/// The name in a cell, or NULL; none where it holds something else.
///
/// # Errors
///
/// Want of memory alone.
pub fn name_if_any(alloc: Global, row: &Row, at: usize) -> Result<Option<Option<Name>>, AllocError>
    ensures { IfOk result (λ found. found ≡ name_if_any (column row.now at)) }
{
    match cell(row, at) {
        ValueRef::Null => Ok(Some(None)),
        ValueRef::Text(text) => match Name::from_bytes(alloc, text) {
            Ok(Some(name)) => Ok(Some(Some(name))),
            Ok(None) => Ok(None),
            Err(_) => Err(AllocError),
        },
        _ => Ok(None),
    }
}

/// The id in a cell; none where it holds something else.
///
/// # Errors
///
/// Want of memory alone.
pub fn id_in(alloc: Global, row: &Row, at: usize) -> Result<Option<Id>, AllocError>
    ensures { IfOk result (λ found. found ≡ id_in (column row.now at)) }
{
    match Id::from_bytes(alloc, text_at(row, at)) {
        Ok(id) => Ok(id),
        Err(_) => Err(AllocError),
    }
}

/// The name in a cell; none where it holds something else.
///
/// # Errors
///
/// Want of memory alone.
pub fn name_in(alloc: Global, row: &Row, at: usize) -> Result<Option<Name>, AllocError>
    ensures { IfOk result (λ found. found ≡ name_in (column row.now at)) }
{
    match Name::from_bytes(alloc, text_at(row, at)) {
        Ok(name) => Ok(name),
        Err(_) => Err(AllocError),
    }
}

/// Whether the cell holds 1.
pub fn is_set(row: &Row, at: usize) -> bool
    ensures { result ≡ is_set (column row.now at) }
{
    number_at(row, at) == 1
}
