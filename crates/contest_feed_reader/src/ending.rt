//! The contest that a feed comes to, once it has ended.
ghost use Rattle.std.specs.Prelude.{◌≡◌, Bool, None, Ok, IfErr, IfOk, true};
ghost use Rattle.contest_types.specs.Valid.{is_valid};
ghost use Rattle.contest_files.specs.Refused.{Refuses};
ghost use Rattle.contest_replay.specs.ReplayContest.{marks_for, replay_contest};
ghost use Rattle.contest_feed_reader.specs.EndedFeeds.{AreDifferent, tables_of};
ghost use Rattle.contest_feed_reader.specs.FeedContests.{attempts_of, contest_by, contest_of};
ghost use Rattle.contest_feed_reader.specs.FeedContests.{contest_under, settings_of};
ghost use Rattle.contest_feed_reader.specs.Objects.{ContestMembers};
ghost use Rattle.contest_feed_reader.specs.References.{first_fault};
ghost use Rattle.contest_feed_reader.specs.declared.row.Row.{Row as TheRow};

use crate::attempts::attempts_of;
use crate::contest_object::ContestObject;
use crate::feed_contest::FeedContest;
use crate::feed_rows::FeedRows;
use crate::first_fault::first_fault;
use crate::left_out::left_out_of;
use crate::row::Row;
use crate::setup::settings_of;
use crate::tables::Tables;
use crate::verdicts::verdicts_of;
use contest_replay::ReplayContest;
use contest_score::JudgedSubmission;
use contest_types::{Refusal, Settings, limits};
use std::alloc::{AllocError, Global};

/// The contest of collections, which is a valid one.
///
/// # Errors
///
/// `Malformed` where no contest stands, else the first object at fault with the line that named it
/// last and the cause (`ImportRow`), or want of memory.
pub(crate) fn contest_of(alloc: Global, tables: Tables) -> Result<FeedContest, Refusal>
    ensures ok { IfOk result (λ c. contest_of tables ≡ Ok c) }
    ensures err { IfErr result (λ e. Refuses e (contest_of tables)) }
    ensures valid { (thawed : Bool) → IfOk result (λ c. is_valid (replay_contest c.contest.settings (marks_for c.contest.settings thawed) c.contest.submissions) ≡ true) }
{
    let rows = FeedRows::of(alloc, tables)?;
    contest_under(alloc, &rows)
}

// The contest of rows.
fn contest_under(alloc: Global, rows: &FeedRows) -> Result<FeedContest, Refusal>
    requires { AreDifferent rows.now }
    ensures ok { IfOk result (λ c. contest_under rows.now.contests.items (tables_of rows.now) ≡ Ok c) }
    ensures err { IfErr result (λ e. Refuses e (contest_under rows.now.contests.items (tables_of rows.now))) }
    ensures valid { (thawed : Bool) → IfOk result (λ c. is_valid (replay_contest c.contest.settings (marks_for c.contest.settings thawed) c.contest.submissions) ≡ true) }
{
    match rows.contests.first() {
        Some(contest) => contest_by(alloc, contest, rows),
        None => Err(Refusal::Malformed),
    }
}

// The contest of rows, of which this is the contest's.
fn contest_by(
    alloc: Global,
    contest: &Row<ContestObject>,
    rows: &FeedRows,
) -> Result<FeedContest, Refusal>
    requires { AreDifferent rows.now }
    ensures ok { IfOk result (λ c. contest_by contest.now (tables_of rows.now) (first_fault contest.now.object.duration (tables_of rows.now)) ≡ Ok c) }
    ensures err { IfErr result (λ e. Refuses e (contest_by contest.now (tables_of rows.now) (first_fault contest.now.object.duration (tables_of rows.now)))) }
    ensures valid { (thawed : Bool) → IfOk result (λ c. is_valid (replay_contest c.contest.settings (marks_for c.contest.settings thawed) c.contest.submissions) ≡ true) }
{
    match first_fault(alloc, contest.object.duration(), rows)? {
        Some((line, cause)) => Err(Refusal::ImportRow(line, cause)),
        None => Ok(build(alloc, contest, rows)?),
    }
}

// The contest of rows of which none is at fault.
fn build(
    alloc: Global,
    contest: &Row<ContestObject>,
    rows: &FeedRows,
) -> Result<FeedContest, AllocError>
    requires different { AreDifferent rows.now }
    requires faultless { first_fault contest.now.object.duration (tables_of rows.now) ≡ None }
    ensures ok { IfOk result (λ c. contest_by contest.now (tables_of rows.now) None ≡ Ok c) }
    ensures valid { (thawed : Bool) → IfOk result (λ c. is_valid (replay_contest c.contest.settings (marks_for c.contest.settings thawed) c.contest.submissions) ≡ true) }
{
    let left_out = left_out_of(alloc, contest.object.duration(), rows)?;
    let settings = settings_of(alloc, contest, rows)?;
    let attempts = judged(alloc, &settings, rows)?;
    let teams = settings.teams().len();
    prove!(teams <= limits::TEAMS);
    Ok(FeedContest {
        contest: ReplayContest::new(settings, attempts),
        left_out,
    })
}

// The attempts of a contest with these settings.
fn judged(
    alloc: Global,
    settings: &Settings,
    rows: &FeedRows,
) -> Result<Vec<JudgedSubmission>, AllocError>
    ensures { (contest : TheRow ContestMembers) → settings.now ≡ settings_of contest (tables_of rows.now) → IfOk result (λ us. us.items ≡ attempts_of contest.object.duration (tables_of rows.now)) }
{
    let verdicts = verdicts_of(alloc, settings, &rows.judgements)?;
    attempts_of(alloc, settings, &verdicts, &rows.submissions)
}
