//! The settings, the accounts and the marks of the contest that the rows of four tables are.
ghost use Rattle.std.specs.Prelude.{◌≡◌, IfOk, IfSome, IsOkAnd, None, Some, if◌then◌else◌};
ghost use Rattle.std.specs.Option.{option_and_then, option_map};
ghost use Rattle.contest_store_reading.specs.AccountRows.{accounts_in};
ghost use Rattle.contest_store_reading.specs.Items.{items_in};
ghost use Rattle.contest_store_rows.specs.Cells.{same_row};
ghost use Rattle.contest_store_rows.specs.FixedRows.{contest_row};
ghost use Rattle.contest_store_reading.specs.FixedParts.{fixed_if, fixed_in, fixed_of_row};
ghost use Rattle.contest_store_reading.specs.FixedParts.{fixed_said, is_desk, only, settings_in};
ghost use Rattle.contest_store_reading.specs.FixedParts.{setup_of};

use crate::accounts::read_accounts;
use crate::heads::{contest_cells, desk_cells, head_in, marks_in};
use crate::settings::add_items_in;
use contest_store_rows::{Version, is_row};
use contest_types::{ContestHead, Fixed, Marks, Settings};
use sqlite::Row;
use std::alloc::{AllocError, Global};

/// The fixed part of the contest that the rows of the tables `desk`, `contest`, `items` and
/// `accounts` are in a version of the schema, each in the order of its key; none where they are
/// those of no contest.
///
/// # Errors
///
/// Want of memory alone.
pub fn read_fixed(
    alloc: Global,
    version: Version,
    desk: &[Row],
    contest: &[Row],
    items: &[Row],
    accounts: &[Row],
) -> Result<Option<Fixed>, AllocError>
    ensures { IfOk result (λ found. found ≡ fixed_in version desk.now contest.now items.now accounts.now) }
{
    if !is_desk(version, desk) {
        return Ok(None);
    }
    match only(contest) {
        Some(contest) => fixed_of_row(alloc, contest, items, accounts),
        None => Ok(None),
    }
}

fn only(rows: &[Row]) -> Option<&Row>
    ensures { option_map (λ row. row.now) result ≡ only rows.now }
{
    if rows.len() == 1 {
        Some(&rows[0])
    } else {
        None
    }
}

/// Whether these rows of the table `desk` say that the tables are of this version.
pub fn is_desk(version: Version, rows: &[Row]) -> bool
    ensures { result ≡ is_desk version rows.now }
{
    match only(rows) {
        Some(row) => is_row(row, &desk_cells(version)),
        None => false,
    }
}

fn fixed_of_row(
    alloc: Global,
    contest: &Row,
    items: &[Row],
    accounts: &[Row],
) -> Result<Option<Fixed>, AllocError>
    ensures { IfOk result (λ found. found ≡ fixed_of_row contest.now items.now accounts.now) }
{
    match fixed_said(alloc, contest, items, accounts)? {
        Some(fixed) => Ok(if_its_row(contest, fixed)),
        None => Ok(None),
    }
}

// The fixed part, if the contest's row is its own.
fn if_its_row(contest: &Row, fixed: Fixed) -> Option<Fixed>
    ensures { result ≡ fixed_if contest.now fixed }
{
    if is_its_row(contest, &fixed) {
        Some(fixed)
    } else {
        None
    }
}

fn is_its_row(contest: &Row, fixed: &Fixed) -> bool
    ensures { result ≡ same_row contest.now (contest_row fixed.now) }
{
    is_row(contest, &contest_cells(fixed))
}

// What the cells say.
fn fixed_said(
    alloc: Global,
    contest: &Row,
    items: &[Row],
    accounts: &[Row],
) -> Result<Option<Fixed>, AllocError>
    ensures { IfOk result (λ found. found ≡ fixed_said contest.now items.now accounts.now) }
{
    let Some(marks) = marks_in(contest) else {
        return Ok(None);
    };
    match settings_in(alloc, contest, items)? {
        Some(settings) => with_accounts(alloc, settings, marks, accounts),
        None => Ok(None),
    }
}

// The settings with the accounts that rows are.
fn with_accounts(
    alloc: Global,
    settings: Settings,
    marks: Marks,
    accounts: &[Row],
) -> Result<Option<Fixed>, AllocError>
    ensures { IfOk result (λ found. found ≡ option_and_then (λ named. Some (record { settings = settings; accounts = named; marks = marks })) (accounts_in settings accounts.now)) }
{
    let accounts = read_accounts(alloc, &settings, accounts);
    match beside(settings, accounts)? {
        Some((settings, accounts)) => Ok(Some(Fixed {
            settings,
            accounts,
            marks,
        })),
        None => Ok(None),
    }
}

// Both, where the second was found.
fn beside<A: Drop, B: Drop>(
    first: A,
    second: Result<Option<B>, AllocError>,
) -> Result<Option<(A, B)>, AllocError>
    ensures first { IfOk result (λ found. IfSome found (λ both. both.0 ≡ first)) }
    ensures second { IfOk result (λ found. IsOkAnd second (λ s. option_map (λ both. both.1) found ≡ s)) }
{
    match second? {
        Some(second) => Ok(Some((first, second))),
        None => Ok(None),
    }
}

fn settings_in(alloc: Global, contest: &Row, items: &[Row]) -> Result<Option<Settings>, AllocError>
    ensures { IfOk result (λ found. found ≡ settings_in contest.now items.now) }
{
    let Some(head) = head_in(alloc, contest)? else {
        return Ok(None);
    };
    match setup_of(alloc, head) {
        Some(settings) => with_items(alloc, settings, items),
        None => Ok(None),
    }
}

// The settings with the items that rows are.
fn with_items(
    alloc: Global,
    settings: Settings,
    items: &[Row],
) -> Result<Option<Settings>, AllocError>
    ensures { IfOk result (λ found. found ≡ items_in settings items.now) }
{
    let mut settings = settings;
    let added = add_items_in(alloc, &mut settings, items);
    value_if(added, settings)
}

// A value where it was made whole.
fn value_if<T: Drop>(whole: Result<bool, AllocError>, value: T) -> Result<Option<T>, AllocError>
    ensures { IfOk result (λ found. IsOkAnd whole (λ w. found ≡ (if w then Some value else None))) }
{
    if whole? { Ok(Some(value)) } else { Ok(None) }
}

fn setup_of(alloc: Global, head: ContestHead) -> Option<Settings>
    ensures { result ≡ setup_of head }
{
    Settings::new(alloc, head).ok()
}
