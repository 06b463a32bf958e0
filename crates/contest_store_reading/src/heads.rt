//! The head and the marks of a contest as a row, and those that a row is.
ghost use Rattle.std.specs.Prelude.{◌≡◌, ◌<◌, ◌≤◌, ◌^◌, IfOk, IfSome};
ghost use Rattle.sqlite_value.specs.Order.{column};
ghost use Rattle.sqlite_value.specs.Value.{owned};
ghost use Rattle.sqlite.specs.Values.{or_null};
ghost use Rattle.contest_store_rows.specs.Cells.{lent, number};
ghost use Rattle.contest_store_rows.specs.FixedRows.{contest_row, desk_row};
ghost use Rattle.contest_store_reading.specs.Heads.{duration_row, head_in, marks_in, marks_row};
ghost use Rattle.contest_store_reading.specs.Heads.{medals_in, small_in, time_if_any, within_time};
ghost use Rattle.contest_store_rows.specs.Readings.{number_if_any};

use contest_store_rows::{Version, cell, id_in, is_set, name_in, number, number_at};
use contest_types::{ContestHead, Fixed, Marks, Medals, Moment, TimeSpan};
use sqlite::Row;
use sqlite::types::{ToSql, ValueRef};
use std::alloc::{AllocError, Global};

/// The cells of the row that says that the tables are a desk's, in a version of the schema.
pub fn desk_cells<'a>(version: Version) -> [ValueRef<'a>; 2]
    ensures { lent result ≡ desk_row version }
{
    [number(1), number(version.number())]
}

/// The cells of the row that keeps the head and the marks of a contest.
pub fn contest_cells(fixed: &Fixed) -> [ValueRef<'_>; 13]
    ensures { lent result ≡ contest_row fixed.now }
{
    let head = fixed.settings.head();
    [
        number(1),
        ValueRef::Text(head.id.as_bytes()),
        ValueRef::Text(head.name.as_str().as_bytes()),
        number(head.duration.milliseconds()),
        span_or_null(head.freeze),
        number(u64::from(head.penalty_time)),
        head.verification.to_sql(),
        number(u64::from(head.medals.gold)),
        number(u64::from(head.medals.silver)),
        number(u64::from(head.medals.bronze)),
        moment_or_null(fixed.marks.start),
        moment_or_null(fixed.marks.thaw),
        moment_or_null(fixed.marks.finalized),
    ]
}

/// The duration and the freeze duration, if there is one, as cells, after the number of the row
/// that keeps them.
pub fn duration_cells<'a>(duration: TimeSpan, freeze: Option<TimeSpan>) -> [ValueRef<'a>; 3]
    ensures { lent result ≡ duration_row duration freeze }
{
    [
        number(1),
        number(duration.milliseconds()),
        span_or_null(freeze),
    ]
}

/// The marks of the clock as cells, after the number of the row that keeps them.
pub fn marks_cells<'a>(marks: Marks) -> [ValueRef<'a>; 4]
    ensures { lent result ≡ marks_row marks }
{
    [
        number(1),
        moment_or_null(marks.start),
        moment_or_null(marks.thaw),
        moment_or_null(marks.finalized),
    ]
}

fn span_or_null<'a>(span: Option<TimeSpan>) -> ValueRef<'a>
    ensures { owned result ≡ or_null number span }
{
    match span {
        Some(span) => number(span.milliseconds()),
        None => ValueRef::Null,
    }
}

fn moment_or_null<'a>(moment: Option<Moment>) -> ValueRef<'a>
    ensures { owned result ≡ or_null number moment }
{
    match moment {
        Some(moment) => number(moment.milliseconds()),
        None => ValueRef::Null,
    }
}

/// The head that the cells of a row say, if they say one.
///
/// # Errors
///
/// Want of memory alone.
pub fn head_in(alloc: Global, row: &Row) -> Result<Option<ContestHead>, AllocError>
    ensures { IfOk result (λ found. found ≡ head_in row.now) }
{
    let Some(medals) = medals_in(row) else {
        return Ok(None);
    };
    let Some(penalty_time) = small_at(row, 5) else {
        return Ok(None);
    };
    let Some(duration) = TimeSpan::new(number_at(row, 3)) else {
        return Ok(None);
    };
    let Some(freeze) = span_if_any(row, 4) else {
        return Ok(None);
    };
    let Some(id) = id_in(alloc, row, 1)? else {
        return Ok(None);
    };
    let Some(name) = name_in(alloc, row, 2)? else {
        return Ok(None);
    };
    Ok(Some(ContestHead {
        id,
        name,
        duration,
        freeze,
        penalty_time,
        verification: is_set(row, 6),
        medals,
    }))
}

/// The marks that the cells of a row say, if they say some.
pub fn marks_in(row: &Row) -> Option<Marks>
    ensures { result ≡ marks_in row.now }
{
    Some(Marks {
        start: moment_if_any(row, 10)?,
        thaw: moment_if_any(row, 11)?,
        finalized: moment_if_any(row, 12)?,
    })
}

fn medals_in(row: &Row) -> Option<Medals>
    ensures { result ≡ medals_in row.now }
{
    Some(Medals {
        gold: small_at(row, 7)?,
        silver: small_at(row, 8)?,
        bronze: small_at(row, 9)?,
    })
}

fn small_at(row: &Row, at: usize) -> Option<u32>
    ensures { result ≡ small_in (column row.now at) }
{
    u32::try_from(number_at(row, at)).ok()
}

fn number_if_any(row: &Row, at: usize) -> Option<u64>
    ensures { result ≡ number_if_any (column row.now at) }
{
    match cell(row, at) {
        ValueRef::Int(n) => u64::try_from(n).ok(),
        _ => None,
    }
}

fn span_if_any(row: &Row, at: usize) -> Option<Option<TimeSpan>>
    ensures { result ≡ time_if_any (column row.now at) }
{
    match number_if_any(row, at) {
        Some(milliseconds) => Some(Some(TimeSpan::new(milliseconds)?)),
        None => Some(None),
    }
}

fn moment_if_any(row: &Row, at: usize) -> Option<Option<Moment>>
    ensures { result ≡ time_if_any (column row.now at) }
{
    match number_if_any(row, at) {
        Some(milliseconds) => Some(Some(Moment::from_milliseconds(milliseconds)?)),
        None => Some(None),
    }
}
