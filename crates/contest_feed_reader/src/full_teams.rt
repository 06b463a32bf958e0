//! The submissions of a feed that are at fault.
ghost use Rattle.std.specs.Prelude.{◌≡◌, ◌<◌, ◌^◌, ◌-◌, ◌++◌, ◌∷◌, [], List, ℕ, OnOk, fold, is_some};
ghost use Rattle.contest_replay.specs.ReplayLists.{within};
ghost use Rattle.contest_feed_reader.specs.IdSets.{IsIdSet};
ghost use Rattle.contest_feed_reader.specs.References.{counts, earlier, fault_by, faults_at};
ghost use Rattle.contest_feed_reader.specs.References.{submission_fault, submission_faults};
ghost use Rattle.contest_feed_reader.specs.TeamCounts.{AreCounted, count_in};
ghost use Rattle.contest_feed_reader.specs.declared.row.Row.{Row as TheRow};
ghost use Rattle.contest_feed_reader.specs.declared.submissions.FeedSubmission.{FeedSubmission as TheSubmission};

use crate::first_fault::{Fault, note_if};
use crate::id_set::{IdSet, stands};
use crate::row::Row;
use crate::submissions::FeedSubmission;
use contest_types::{Cause, Id, RelTime, TimeSpan, limits};
use std::alloc::{AllocError, Global};
use std::collections::HashMap;

/// How many of a team's submissions count, by the team's id.
type TeamCounts<'r> = HashMap<&'r str, usize>;

/// Notes the submissions whose team or problem doesn't stand, or whose team has no place for them.
///
/// # Errors
///
/// Want of memory alone.
pub(crate) fn note_submissions(
    alloc: Global,
    first: &mut Option<Fault>,
    duration: TimeSpan,
    teams: &IdSet<'_>,
    problems: &IdSet<'_>,
    submissions: &[Row<FeedSubmission>],
) -> Result<(), AllocError>
    ensures { OnOk result ((ts ps : List (List ℕ)) → IsIdSet teams.now ts → IsIdSet problems.now ps
        → first.new ≡ fold earlier first.old (submission_faults duration ts ps [] submissions.now)) }
{
    let mut counted = HashMap::new(alloc);
    for place in 0..submissions.len() {
        let row = &submissions[place];
        note_submission(first, duration, teams, problems, &counted, row);
        count_submission(&mut counted, duration, row)?;
    }
    Ok(())
}

// The fault of a submission after those that were counted.
fn note_submission(
    first: &mut Option<Fault>,
    duration: TimeSpan,
    teams: &IdSet<'_>,
    problems: &IdSet<'_>,
    counted: &TeamCounts<'_>,
    row: &Row<FeedSubmission>,
)
    ensures { (ts ps : List (List ℕ)) (before : List (TheRow TheSubmission)) → IsIdSet teams.now ts → IsIdSet problems.now ps → AreCounted duration counted.now before
        → first.new ≡ fold earlier first.old (faults_at row.now.line (submission_fault duration ts ps before row.now)) }
{
    let stand = stands(teams, &row.object.team) && stands(problems, &row.object.problem);
    let count = count_of(counted, &row.object.team);
    note_if(
        first,
        row.line,
        fault_by(stand, counts(duration, row), count),
    );
}

fn fault_by(stand: bool, counts: bool, count: usize) -> Option<Cause>
    ensures { result ≡ fault_by stand counts count }
{
    if !stand {
        Some(Cause::UnknownReference)
    } else if counts && count >= limits::TEAM_SUBMISSIONS {
        Some(Cause::TableFull)
    } else {
        None
    }
}

fn count_of(counted: &TeamCounts<'_>, team: &Id) -> usize
    ensures { result ≡ count_in counted.now team.now }
{
    match counted.get(team.as_str()) {
        Some(count) => *count,
        None => 0,
    }
}

// One more submission stands.
fn count_submission<'r>(
    counted: &mut TeamCounts<'r>,
    duration: TimeSpan,
    row: &'r Row<FeedSubmission>,
) -> Result<(), AllocError>
    requires { count_in counted.old row.now.object.team < 2 ^ 64 - 1 }
    ensures { OnOk result ((before : List (TheRow TheSubmission)) → AreCounted duration counted.old before → AreCounted duration counted.new (before ++ row.now ∷ [])) }
{
    if counts(duration, row) {
        let count = count_of(counted, &row.object.team);
        counted.insert(row.object.team.as_str(), count + 1)?;
    }
    Ok(())
}

/// Whether a submission counts in a contest of this duration.
pub(crate) fn counts(duration: TimeSpan, row: &Row<FeedSubmission>) -> bool
    ensures { result ≡ counts duration row.now }
{
    time_within(row.object.time, duration).is_some()
}

/// A contest time from the start to before the end.
pub(crate) fn time_within(time: RelTime, duration: TimeSpan) -> Option<TimeSpan>
    ensures { result ≡ within duration time }
{
    let time = TimeSpan::from_reltime(time)?;
    if time < duration { Some(time) } else { None }
}
