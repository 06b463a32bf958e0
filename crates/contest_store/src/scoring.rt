//! The cells that lists come to, and those that a change bears on, counted again.
//!
//! 1. The cells are those of the lists (`AreCellsOf`); of more submissions than a cell can count
//!    nothing is said (`cells_of`).
//! 2. They are so again after each change, once the lists have it (`score`).
//! 3. A submission or a release bears on one cell, under either mask; a proposal, a clarification,
//!    a rejudging or an account on none (`scores_nothing`); all else on all cells.
//! 4. A cell is counted from its own team's submissions at its problem, and from no other row
//!    (`masked_cell`).
//! 5. After want of memory the cells are of no use (`score` says nothing of them then).
ghost use Rattle.std.specs.Prelude.{◌≡◌, ◌<◌, ◌↔◌, ◌^◌, ◌==◌, ◌&&◌, ℕ, IfOk, IsTrue, None, OnOk};
ghost use Rattle.std.specs.Prelude.{Some, if◌then◌else◌, length};
ghost use Rattle.contest_types.specs.State.{ContestState};
ghost use Rattle.contest_types.specs.Sight.{last_on, type_of};
ghost use Rattle.contest_types.specs.declared.sight.Mask.TheVariants.{Full, Held};
ghost use Rattle.contest_score.specs.CachedCells.{AreCellsOf, attempt_at, cached_at, cell_to_keep};
ghost use Rattle.contest_score.specs.CachedCells.{has_number, masked_cell};
ghost use Rattle.contest_score.specs.Counting.{HasRoom, cell_with};
ghost use Rattle.contest_score.specs.MaskedCells.{start_of};
ghost use Rattle.contest_store.specs.Grown.{IsGrown, scores_nothing};

use contest_lists::Lists;
use contest_score::{Attempt, CachedCells, Cell, MaskedCell, seen_attempt, with_attempt};
use contest_types::{Entry, Marks, Mask, Moment, Submission, TimeSpan};
use std::alloc::{AllocError, Global};

/// The cells that lists come to, each counted once. Of more submissions than a cell can count
/// nothing is said.
///
/// # Errors
///
/// Want of memory alone.
pub(crate) fn cells_of(alloc: Global, lists: &Lists) -> Result<CachedCells, AllocError>
    ensures { IfOk result (λ cells. AreCellsOf lists.now cells) }
{
    let mut cells = CachedCells::new(alloc);
    if has_few(lists) {
        fill(alloc, &mut cells, lists)?;
    }
    Ok(cells)
}

/// Counts again the cells that a change bears on, which the lists have already.
///
/// # Errors
///
/// Want of memory alone. The cells are of no use any more then.
pub(crate) fn score(
    alloc: Global,
    lists: &Lists,
    cells: &mut CachedCells,
    entry: &Entry,
) -> Result<(), AllocError>
    ensures { OnOk result ((x : ContestState) → IsGrown entry.now x lists.now → AreCellsOf x cells.old → AreCellsOf lists.now cells.new) }
{
    if !has_few(lists) {
        return Ok(());
    }
    if scores_nothing(entry) {
        return Ok(());
    }
    match entry {
        Entry::NewSubmission(row) => count_again(alloc, cells, lists, row.team, row.problem),
        Entry::NewRelease(row) => count_numbered(alloc, cells, lists, row.team, row.number),
        _ => {
            *cells = cells_of(alloc, lists)?;
            Ok(())
        }
    }
}

// Whether a change bears on no cell, whatever it is of its kind.
fn scores_nothing(entry: &Entry) -> bool
    ensures { result ≡ scores_nothing entry.now }
{
    match entry {
        Entry::NewProposal(_)
        | Entry::NewClarification(_)
        | Entry::NewRejudging(_)
        | Entry::SetMember(_, _, _)
        | Entry::SetRejudging(_, _)
        | Entry::NewAccount(_)
        | Entry::SetDigest(_, _) => true,
        _ => false,
    }
}

// Whether there are no more submissions than a cell can count.
fn has_few(lists: &Lists) -> bool
    ensures { IsTrue result ↔ (length lists.now.submissions < 2 ^ 32) }
{
    lists.submissions().len() <= u32::MAX as usize
}

// Puts the cell of each submission in, where none is there.
fn fill(alloc: Global, cells: &mut CachedCells, lists: &Lists) -> Result<(), AllocError>
    requires few { length lists.now.submissions < 2 ^ 32 }
    requires none { (t p : ℕ) → cached_at cells.old t p ≡ None }
    ensures { OnOk result ((t p : ℕ) → cached_at cells.new t p ≡ cell_to_keep lists.now t p) }
{
    for submission in lists.submissions() {
        if !cells.has(submission.team, submission.problem) {
            count_again(alloc, cells, lists, submission.team, submission.problem)?;
        }
    }
    Ok(())
}

// Counts a team's cell at a problem again.
fn count_again(
    alloc: Global,
    cells: &mut CachedCells,
    lists: &Lists,
    team: usize,
    problem: usize,
) -> Result<(), AllocError>
    requires { length lists.now.submissions < 2 ^ 32 }
    ensures { OnOk result ((t p : ℕ) → cached_at cells.new t p ≡ (if (team == t) && (problem == p) then Some (masked_cell lists.now team problem) else cached_at cells.old t p)) }
{
    cells.put(alloc, team, problem, masked_cell(lists, team, problem))
}

// Counts again the cells of a team at the problems of its submissions with a number, of which there
// is one in a valid contest.
fn count_numbered(
    alloc: Global,
    cells: &mut CachedCells,
    lists: &Lists,
    team: usize,
    number: usize,
) -> Result<(), AllocError>
    requires { length lists.now.submissions < 2 ^ 32 }
    ensures { OnOk result ((t p : ℕ) → cached_at cells.new t p ≡ (if has_number lists.now team number t p then Some (masked_cell lists.now t p) else cached_at cells.old t p)) }
{
    let submissions = lists.submissions();
    for place in lists.places_of(team) {
        let submission = &submissions[*place];
        if submission.number == number {
            count_again(alloc, cells, lists, submission.team, submission.problem)?;
        }
    }
    Ok(())
}

// A team's cell at a problem under either mask, from the team's own submissions.
fn masked_cell(lists: &Lists, team: usize, problem: usize) -> MaskedCell
    requires { length lists.now.submissions < 2 ^ 32 }
    ensures { result ≡ masked_cell lists.now team problem }
{
    let mut cell = MaskedCell {
        held: Cell::new(),
        full: Cell::new(),
    };
    let submissions = lists.submissions();
    for place in lists.places_of(team) {
        cell = with_submission(cell, lists, problem, &submissions[*place]);
    }
    cell
}

// The cell with one more submission, if that is at the problem.
fn with_submission(
    cell: MaskedCell,
    lists: &Lists,
    problem: usize,
    submission: &Submission,
) -> MaskedCell
    requires held { HasRoom cell.held }
    requires full { HasRoom cell.full }
    ensures held { result.held ≡ (if submission.now.problem == problem then cell_with (start_of lists.now.fixed.marks) cell.held (attempt_at Held lists.now submission.now) else cell.held) }
    ensures full { result.full ≡ (if submission.now.problem == problem then cell_with (start_of lists.now.fixed.marks) cell.full (attempt_at Full lists.now submission.now) else cell.full) }
{
    if submission.problem != problem {
        return cell;
    }
    let start = start_of(&lists.fixed().marks);
    let verdict = last_verdict(lists, submission.team, submission.number);
    MaskedCell {
        held: with_attempt(
            cell.held,
            start,
            attempt_of(lists, Mask::Held, submission, verdict),
        ),
        full: with_attempt(
            cell.full,
            start,
            attempt_of(lists, Mask::Full, submission, verdict),
        ),
    }
}

// The start of the contest, 1970 where it isn't set.
fn start_of(marks: &Marks) -> Moment
    ensures { result ≡ start_of marks.now }
{
    match marks.start {
        Some(start) => start,
        None => Moment::from_time_span(TimeSpan::ZERO),
    }
}

// A submission with the verdict that was released last on it, as an attempt.
fn attempt_of(lists: &Lists, mask: Mask, submission: &Submission, verdict: Option<usize>) -> Attempt
    requires { verdict ≡ type_of (last_on lists.now.releases submission.now.team submission.now.number) }
    ensures { result ≡ attempt_at mask lists.now submission.now }
{
    let fixed = lists.fixed();
    seen_attempt(
        mask,
        &fixed.settings,
        &fixed.marks,
        submission.time,
        verdict,
    )
}

// The place of the judgement type that was released last on a submission.
fn last_verdict(lists: &Lists, team: usize, number: usize) -> Option<usize>
    ensures { result ≡ type_of (last_on lists.now.releases team number) }
{
    match lists.last_release(team, number) {
        Some(release) => Some(release.verdict),
        None => None,
    }
}
