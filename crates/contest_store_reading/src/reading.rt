//! The lists of a contest from the rows of its tables.
ghost use Rattle.std.specs.Prelude.{◌≡◌, Some, None, true, false, IfOk};
ghost use Rattle.contest_store_rows.specs.Clarifications.{clarifications_in};
ghost use Rattle.contest_store_reading.specs.Spelling.{lists_in_version, tables_of};
ghost use Rattle.contest_store_reading.specs.Spelling.{with_clarifications_in, with_lists_in};
ghost use Rattle.contest_store_reading.specs.Spelling.{with_proposals_in, with_rejudgings_in};
ghost use Rattle.contest_store_reading.specs.Spelling.{with_releases_in, with_submissions_in};
ghost use Rattle.contest_store_reading.specs.Spelling.{without_rows};

use crate::LoadedRows;
use crate::fixed_part::read_fixed;
use contest_lists::Lists;
use contest_store_rows::{Version, read_list, read_rejudgings};
use contest_types::{Clarification, Fixed, Rows, Settings};
use std::alloc::{AllocError, Global};
use std::rc::Rc;

/// The lists that the rows of all tables are in a version of the schema; none where they are those
/// of no contest. Whether the contest is a valid one is another question.
///
/// # Errors
///
/// Want of memory alone.
pub fn read_lists(
    alloc: Global,
    version: Version,
    rows: &LoadedRows,
) -> Result<Option<Lists>, AllocError>
    ensures { IfOk result (λ found. found ≡ lists_in_version version (tables_of rows.now)) }
{
    let Some(fixed) = read_fixed(
        alloc,
        version,
        &rows.desk,
        &rows.contest,
        &rows.items,
        &rows.accounts,
    )?
    else {
        return Ok(None);
    };
    lists_with(alloc, version, fixed, rows)
}

// The same, with this fixed part.
fn lists_with(
    alloc: Global,
    version: Version,
    fixed: Fixed,
    rows: &LoadedRows,
) -> Result<Option<Lists>, AllocError>
    ensures { IfOk result (λ found. found ≡ with_lists_in version (tables_of rows.now) (without_rows fixed)) }
{
    let mut lists = Lists::new(alloc, Rc::new(alloc, fixed)?);
    let filled = fill(alloc, version, &mut lists, rows)?;
    Ok(filled.then_some(lists))
}

// Reads list after list; where one is none, the lists are of no use any more.
fn fill(
    alloc: Global,
    version: Version,
    lists: &mut Lists,
    rows: &LoadedRows,
) -> Result<bool, AllocError>
    ensures filled { IfOk result (λ filled. filled ≡ true → with_lists_in version (tables_of rows.now) lists.old ≡ Some lists.new) }
    ensures other { IfOk result (λ filled. filled ≡ false → with_lists_in version (tables_of rows.now) lists.old ≡ None) }
{
    Ok(
        put_submissions(alloc, lists, rows)?
            && put_proposals(alloc, lists, rows)?
            && put_releases(alloc, lists, rows)?
            && put_clarifications(alloc, version, lists, rows)?
            && put_rejudgings(alloc, lists, rows)?,
    )
}

fn put_submissions(alloc: Global, lists: &mut Lists, rows: &LoadedRows) -> Result<bool, AllocError>
    ensures put { IfOk result (λ put. put ≡ true → with_submissions_in (tables_of rows.now) lists.old ≡ Some lists.new) }
    ensures other { IfOk result (λ put. put ≡ false → with_submissions_in (tables_of rows.now) lists.old ≡ None) }
{
    match read_list(alloc, &lists.fixed().settings, &rows.submissions)? {
        Some(submissions) => {
            lists.put_submissions(alloc, submissions)?;
            Ok(true)
        }
        None => Ok(false),
    }
}

fn put_proposals(alloc: Global, lists: &mut Lists, rows: &LoadedRows) -> Result<bool, AllocError>
    ensures put { IfOk result (λ put. put ≡ true → with_proposals_in (tables_of rows.now) lists.old ≡ Some lists.new) }
    ensures other { IfOk result (λ put. put ≡ false → with_proposals_in (tables_of rows.now) lists.old ≡ None) }
{
    match read_list(alloc, &lists.fixed().settings, &rows.proposals)? {
        Some(proposals) => {
            lists.put_proposals(alloc, proposals)?;
            Ok(true)
        }
        None => Ok(false),
    }
}

fn put_releases(alloc: Global, lists: &mut Lists, rows: &LoadedRows) -> Result<bool, AllocError>
    ensures put { IfOk result (λ put. put ≡ true → with_releases_in (tables_of rows.now) lists.old ≡ Some lists.new) }
    ensures other { IfOk result (λ put. put ≡ false → with_releases_in (tables_of rows.now) lists.old ≡ None) }
{
    match read_list(alloc, &lists.fixed().settings, &rows.releases)? {
        Some(releases) => {
            lists.put_releases(alloc, releases)?;
            Ok(true)
        }
        None => Ok(false),
    }
}

fn put_clarifications(
    alloc: Global,
    version: Version,
    lists: &mut Lists,
    rows: &LoadedRows,
) -> Result<bool, AllocError>
    ensures put { IfOk result (λ put. put ≡ true → with_clarifications_in version (tables_of rows.now) lists.old ≡ Some lists.new) }
    ensures other { IfOk result (λ put. put ≡ false → with_clarifications_in version (tables_of rows.now) lists.old ≡ None) }
{
    match read_clarifications(alloc, version, &lists.fixed().settings, rows)? {
        Some(clarifications) => {
            lists.put_clarifications(clarifications);
            Ok(true)
        }
        None => Ok(false),
    }
}

// In each version one of the two tables has no row.
fn read_clarifications(
    alloc: Global,
    version: Version,
    settings: &Settings,
    rows: &LoadedRows,
) -> Result<Option<Rows<Clarification>>, AllocError>
    ensures { IfOk result (λ found. found ≡ clarifications_in version settings.now rows.now.clarifications.items rows.now.notices.items) }
{
    match version {
        Version::First if rows.notices.is_empty() => {
            read_list(alloc, settings, &rows.clarifications)
        }
        Version::Second if rows.clarifications.is_empty() => {
            read_list(alloc, settings, &rows.notices)
        }
        Version::First | Version::Second => Ok(None),
    }
}

fn put_rejudgings(alloc: Global, lists: &mut Lists, rows: &LoadedRows) -> Result<bool, AllocError>
    ensures put { IfOk result (λ put. put ≡ true → with_rejudgings_in (tables_of rows.now) lists.old ≡ Some lists.new) }
    ensures other { IfOk result (λ put. put ≡ false → with_rejudgings_in (tables_of rows.now) lists.old ≡ None) }
{
    let settings = &lists.fixed().settings;
    match read_rejudgings(alloc, settings, &rows.rejudgings, &rows.members)? {
        Some(rejudgings) => {
            lists.put_rejudgings(rejudgings);
            Ok(true)
        }
        None => Ok(false),
    }
}
