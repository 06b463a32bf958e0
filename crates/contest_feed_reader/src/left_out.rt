//! How much of a feed counts for nothing.
ghost use Rattle.std.specs.Prelude.{◌≡◌, ◌≤◌, List, ℕ, IfOk, filter, length, not};
ghost use Rattle.contest_types.specs.Places.{is_among};
ghost use Rattle.contest_feed_reader.specs.EndedFeeds.{tables_of};
ghost use Rattle.contest_feed_reader.specs.FeedContests.{left_out_of};
ghost use Rattle.contest_feed_reader.specs.IdSets.{IsIdSet};
ghost use Rattle.contest_feed_reader.specs.References.{counts};

use crate::feed_contest::LeftOut;
use crate::feed_rows::FeedRows;
use crate::full_teams::counts;
use crate::id_set::{IdSet, ids_of, stands};
use crate::row::Row;
use crate::submissions::{FeedJudgement, FeedSubmission};
use contest_types::TimeSpan;
use std::alloc::{AllocError, Global};

/// What a contest of this duration leaves out.
///
/// # Errors
///
/// Want of memory alone.
pub(crate) fn left_out_of(
    alloc: Global,
    duration: TimeSpan,
    rows: &FeedRows,
) -> Result<LeftOut, AllocError>
    ensures { IfOk result (λ out. out ≡ left_out_of duration (tables_of rows.now)) }
{
    let ids = ids_of(alloc, &rows.submissions)?;
    Ok(LeftOut {
        submissions: uncounted(duration, &rows.submissions),
        judgements: unplaced(&ids, &rows.judgements),
    })
}

// How many submissions don't count.
fn uncounted(duration: TimeSpan, submissions: &[Row<FeedSubmission>]) -> usize
    ensures { result ≡ length (filter (λ row. not (counts duration row)) submissions.now) }
{
    let mut out = 0;
    for place in 0..submissions.len() {
        if !counts(duration, &submissions[place]) {
            out += 1;
        }
    }
    out
}

// How many judgements are of a submission that doesn't stand.
fn unplaced(submissions: &IdSet<'_>, judgements: &[Row<FeedJudgement>]) -> usize
    ensures { (ids : List (List ℕ)) → IsIdSet submissions.now ids → result ≡ length (filter (λ row. not (is_among ids row.object.submission)) judgements.now) }
{
    let mut out = 0;
    for place in 0..judgements.len() {
        if !stands(submissions, &judgements[place].object.submission) {
            out += 1;
        }
    }
    out
}
