//! The rows of the cells that a change bears on, one under either mask.
ghost use Rattle.std.specs.Prelude.{◌≡◌, ◌==◌, ◌<◌, ◌+◌, ◌^◌, ℕ, filter, length, option_map};
ghost use Rattle.std.specs.Prelude.{slice_get};
ghost use Rattle.sqlite.specs.Values.{bound};
ghost use Rattle.contest_types.specs.State.{submissions_of};
ghost use Rattle.contest_types.specs.declared.entry.Entry.TheVariants.{NewSubmission, NewRelease};
ghost use Rattle.contest_store_tables.specs.Connected.{counts_of, shown_by};
ghost use Rattle.contest_store_tables.specs.Statements.{insert_width};
ghost use Rattle.contest_store_tables.specs.declared.table_name.TableName.TheVariants.{Cells};
ghost use Rattle.contest_store_tables.specs.Steps.{Full, MakesNone, Step};
ghost use Rattle.contest_store_changes.specs.CellSteps.{HasScored, HasWritten, HasWrittenBoth};
ghost use Rattle.contest_store_changes.specs.CellSteps.{MayWrite, Scores, WritesCells};

use crate::list_rows::fits;
use contest_lists::Lists;
use contest_store::{ScoredLists, StoreError};
use contest_store_cells::cell_cells;
use contest_store_tables::{RowChange, TableName, Tables};
use contest_types::{Entry, Mask, Release, Submission};
use sqlite::Alter;
use sqlite::types::ValueRef;

/// Writes the cells that a change bears on, which stands in the rows of its lists already. These
/// are the lists with the change. It is within a transaction.
///
/// # Errors
///
/// `Memory` where a growth was refused, and `Fault` where the connection failed for another cause.
/// Each is counted, and no change stands then that wasn't committed.
pub fn keep_cells<S: Alter>(
    tables: &mut Tables<S>,
    lists: &ScoredLists,
    entry: &Entry,
) -> Result<(), StoreError>
    ensures { Step result (shown_by S.Store tables.old) (shown_by S.Store tables.new) (counts_of tables.old) (counts_of tables.new) (Scores lists.now entry.now) (HasScored entry.now)
        (MakesNone (shown_by S.Store tables.old) (Scores lists.now entry.now)) }
{
    match entry {
        Entry::NewSubmission(row) => score_submission(tables, lists, row),
        Entry::NewRelease(row) => score_release(tables, lists, row),
        _ => Ok(()),
    }
}

fn score_submission<S: Alter>(
    tables: &mut Tables<S>,
    lists: &ScoredLists,
    submission: &Submission,
) -> Result<(), StoreError>
    ensures { Step result (shown_by S.Store tables.old) (shown_by S.Store tables.new) (counts_of tables.old) (counts_of tables.new) (Scores lists.now (NewSubmission submission.now)) (HasScored (NewSubmission submission.now))
        (MakesNone (shown_by S.Store tables.old) (Scores lists.now (NewSubmission submission.now))) }
{
    let Submission { team, problem, .. } = submission;
    // no team of a contest has a number that is too large for a cell
    if !fits(*team) {
        return Ok(());
    }
    let is_new = attempts_at(lists.lists(), *team, *problem) == 1;
    write_cells(tables, lists, *team, *problem, is_new)
}

fn score_release<S: Alter>(
    tables: &mut Tables<S>,
    lists: &ScoredLists,
    release: &Release,
) -> Result<(), StoreError>
    ensures { Step result (shown_by S.Store tables.old) (shown_by S.Store tables.new) (counts_of tables.old) (counts_of tables.new) (Scores lists.now (NewRelease release.now)) (HasScored (NewRelease release.now))
        (MakesNone (shown_by S.Store tables.old) (Scores lists.now (NewRelease release.now))) }
{
    if !fits(release.team) {
        return Ok(());
    }
    match problem_of(lists.lists(), release.team, release.number) {
        Some(problem) => write_cells(tables, lists, release.team, problem, false),
        // each release of a contest is on a submission
        None => Ok(()),
    }
}

// How many submissions a team has at a problem.
fn attempts_at(lists: &Lists, team: usize, problem: usize) -> usize
    ensures { result ≡ length (filter (λ s. s.problem == problem) (submissions_of team lists.now.submissions)) }
{
    let submissions = lists.submissions();
    let mut count = 0;
    for place in lists.places_of(team) {
        if submissions[*place].problem == problem {
            count += 1;
        }
    }
    count
}

// The problem of a team's submission with a number, from 1.
fn problem_of(lists: &Lists, team: usize, number: usize) -> Option<usize>
    ensures { (k : ℕ) → number ≡ k + 1 → result ≡ option_map (λ s. s.problem) (slice_get (submissions_of team lists.now.submissions) k) }
{
    let submission = lists.submission_of(team, number.checked_sub(1)?)?;
    Some(submission.problem)
}

// Writes the rows of a team's cell at a problem.
fn write_cells<S: Alter>(
    tables: &mut Tables<S>,
    lists: &ScoredLists,
    team: usize,
    problem: usize,
    is_new: bool,
) -> Result<(), StoreError>
    requires { team + 1 < 2 ^ 63 }
    ensures { WritesCells result is_new lists.now team problem (shown_by S.Store tables.old) (shown_by S.Store tables.new) (counts_of tables.old) (counts_of tables.new) }
{
    let settings = &lists.lists().fixed().settings;
    let cells = lists.cells();
    let held = cells.cell(Mask::Held, team, problem);
    let full = cells.cell(Mask::Full, team, problem);
    write_both(
        tables,
        is_new,
        &cell_cells(settings, Mask::Held, team, problem, held),
        &cell_cells(settings, Mask::Full, team, problem, full),
    )
}

fn write_both<S: Alter>(
    tables: &mut Tables<S>,
    is_new: bool,
    held: &[ValueRef<'_>],
    full: &[ValueRef<'_>],
) -> Result<(), StoreError>
    requires held { length held.now ≡ insert_width Cells }
    requires full { length full.now ≡ insert_width Cells }
    ensures { Step result (shown_by S.Store tables.old) (shown_by S.Store tables.new) (counts_of tables.old) (counts_of tables.new) (MayWrite is_new (bound held.now) (bound full.now))
        (HasWrittenBoth is_new (bound held.now) (bound full.now)) (MakesNone (shown_by S.Store tables.old) (MayWrite is_new (bound held.now) (bound full.now))) }
{
    match write_row(tables, is_new, held) {
        Ok(()) => write_row(tables, is_new, full),
        Err(error) => Err(error),
    }
}

// A new row, or one that takes the place of that with its key.
fn write_row<S: Alter>(
    tables: &mut Tables<S>,
    is_new: bool,
    row: &[ValueRef<'_>],
) -> Result<(), StoreError>
    requires { length row.now ≡ insert_width Cells }
    ensures { Step result (shown_by S.Store tables.old) (shown_by S.Store tables.new) (counts_of tables.old) (counts_of tables.new) Full (HasWritten is_new (bound row.now))
        (MakesNone (shown_by S.Store tables.old) Full) }
{
    if is_new {
        tables.insert(TableName::Cells, row)
    } else {
        tables.change(RowChange::Cell, row)
    }
}
