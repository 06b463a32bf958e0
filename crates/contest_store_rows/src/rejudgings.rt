//! Rejudgings as rows, and the rejudgings that the rows of two tables are: their own, and those of
//! their members.
ghost use Rattle.std.specs.Prelude.{◌≡◌, ◌<◌, ◌≤◌, ◌^◌, IfOk, length};
ghost use Rattle.sqlite_value.specs.Order.{column};
ghost use Rattle.contest_store_rows.specs.Cells.{lent, number_of, text_of};
ghost use Rattle.contest_store_rows.specs.Lists.{list_in};
ghost use Rattle.contest_store_rows.specs.ListRows.{rejudging_row, state_number};
ghost use Rattle.contest_store_rows.specs.Readings.{if_its_row};
ghost use Rattle.contest_store_rows.specs.Rejudgings.{head_in, member_in, own_rows, rejudging_in};
ghost use Rattle.contest_store_rows.specs.Rejudgings.{rejudging_said, rejudgings_in, state_of};

use crate::cells::{is_row, number, number_at, text_at};
use crate::members::read_member;
use contest_types::{Member, Name, Rejudging, RejudgingState, Rows, Settings};
use sqlite::Row;
use sqlite::types::ValueRef;
use std::alloc::{AllocError, Global};

/// The cells of the row with a number, from 1, that keeps a rejudging; its members have rows of
/// their own.
pub fn rejudging_cells(row: u64, rejudging: &Rejudging) -> [ValueRef<'_>; 3]
    requires { row < 2 ^ 63 }
    ensures { lent result ≡ rejudging_row row rejudging.now }
{
    [
        number(row),
        ValueRef::Text(rejudging.reason.as_str().as_bytes()),
        number(state_number(rejudging.state)),
    ]
}

/// The number that a rejudging's state is kept as.
pub fn state_number(state: RejudgingState) -> u64
    ensures value { result ≡ state_number state }
    ensures bound { result < 3 }
{
    match state {
        RejudgingState::Open => 0,
        RejudgingState::Applied => 1,
        RejudgingState::Cancelled => 2,
    }
}

fn state_of(number: u64) -> RejudgingState
    ensures { result ≡ state_of number }
{
    match number {
        0 => RejudgingState::Open,
        1 => RejudgingState::Applied,
        _ => RejudgingState::Cancelled,
    }
}

/// The rejudgings that the rows of the two tables are, each with its members; none where a row is
/// none, or a row is left over.
///
/// # Errors
///
/// Want of memory alone.
pub fn read_rejudgings(
    alloc: Global,
    settings: &Settings,
    rows: &[Row],
    members: &[Row],
) -> Result<Option<Rows<Rejudging>>, AllocError>
    ensures { IfOk result (λ found. found ≡ rejudgings_in settings.now rows.now members.now) }
{
    let mut rejudgings = Rows::new(alloc);
    let mut left = members;
    for at in 0..rows.len() {
        let number = at as u64 + 1;
        let (own, rest) = left.split_at(own_rows(number, left));
        let Some(rejudging) = read_rejudging(alloc, settings, number, &rows[at], own)? else {
            return Ok(None);
        };
        rejudgings.push(rejudging)?;
        left = rest;
    }
    if !left.is_empty() {
        return Ok(None);
    }
    Ok(Some(rejudgings))
}

// How many rows in front are of members of the rejudging with this number.
fn own_rows(rejudging: u64, members: &[Row]) -> usize
    ensures value { result ≡ length (own_rows rejudging members.now) }
    ensures within { result ≤ length members.now }
{
    for at in 0..members.len() {
        if number_at(&members[at], 0) != rejudging {
            return at;
        }
    }
    members.len()
}

// The rejudging with this number, with the members that the rows of its members are.
fn read_rejudging(
    alloc: Global,
    settings: &Settings,
    rejudging: u64,
    row: &Row,
    members: &[Row],
) -> Result<Option<Rejudging>, AllocError>
    requires { rejudging < 2 ^ 63 }
    ensures { IfOk result (λ found. found ≡ rejudging_in settings.now rejudging row.now members.now) }
{
    let Some(members) = read_members(alloc, settings, rejudging, members)? else {
        return Ok(None);
    };
    let Some(mut found) = read_head(alloc, rejudging, row)? else {
        return Ok(None);
    };
    found.members = members;
    Ok(Some(found))
}

fn read_members(
    alloc: Global,
    settings: &Settings,
    rejudging: u64,
    rows: &[Row],
) -> Result<Option<Rows<Member>>, AllocError>
    requires { rejudging < 2 ^ 63 }
    ensures { IfOk result (λ found. found ≡ list_in (member_in settings.now rejudging) rows.now) }
{
    let mut members = Rows::new(alloc);
    for at in 0..rows.len() {
        let Some(member) = read_member(alloc, settings, rejudging, at as u64 + 1, &rows[at])? else {
            return Ok(None);
        };
        members.push(member)?;
    }
    Ok(Some(members))
}

// The rejudging, with no members, that the row with this number is.
fn read_head(alloc: Global, rejudging: u64, row: &Row) -> Result<Option<Rejudging>, AllocError>
    requires { rejudging < 2 ^ 63 }
    ensures { IfOk result (λ found. found ≡ head_in rejudging row.now) }
{
    let Some(found) = rejudging_said(alloc, row)? else {
        return Ok(None);
    };
    let its = is_row(row, &rejudging_cells(rejudging, &found));
    Ok(its.then_some(found))
}

// What the cells say, with no members, if the reason is a name.
fn rejudging_said(alloc: Global, row: &Row) -> Result<Option<Rejudging>, AllocError>
    ensures { IfOk result (λ found. found ≡ rejudging_said row.now) }
{
    match Name::from_bytes(alloc, text_at(row, 1)) {
        Ok(Some(reason)) => Ok(Some(Rejudging {
            reason,
            state: state_of(number_at(row, 2)),
            members: Rows::new(alloc),
        })),
        Ok(None) => Ok(None),
        Err(_) => Err(AllocError),
    }
}
