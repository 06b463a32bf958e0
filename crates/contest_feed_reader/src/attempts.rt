//! The attempts of a feed: its submissions that count, by contest time.
ghost use Rattle.std.specs.Prelude.{◌≡◌, ◌++◌, List, ℕ, IfOk, OnOk, map};
ghost use Rattle.std.specs.List.{filter_map};
ghost use Rattle.std.specs.Option.{option_to_list};
ghost use Rattle.contest_types.specs.Places.{place_of};
ghost use Rattle.contest_feed_reader.specs.FeedContests.{attempt_by, by_time};
ghost use Rattle.contest_feed_reader.specs.LastVerdicts.{AreLast};
ghost use Rattle.contest_feed_reader.specs.Verdicts.{verdict_in};
ghost use Rattle.contest_feed_reader.specs.declared.submissions.FeedJudgement.{FeedJudgement as TheJudgement};

use crate::full_teams::time_within;
use crate::row::Row;
use crate::submissions::FeedSubmission;
use crate::verdicts::{Verdicts, verdict_on};
use contest_score::JudgedSubmission;
use contest_types::{Id, Moment, Settings};
use std::alloc::{AllocError, Global};

/// The submissions that count, each with its verdict, by contest time; those at one time as they
/// stand.
///
/// # Errors
///
/// Want of memory alone.
pub(crate) fn attempts_of(
    alloc: Global,
    settings: &Settings,
    verdicts: &Verdicts<'_>,
    submissions: &[Row<FeedSubmission>],
) -> Result<Vec<JudgedSubmission>, AllocError>
    ensures { (js : List TheJudgement) → AreLast (map (λ t. t.id) settings.now.types) verdicts.now js
        → IfOk result (λ us. us.items ≡ by_time (filter_map (attempt_by settings.now.head.duration (map (λ t. t.id) settings.now.teams) (map (λ p. p.id) settings.now.problems) (verdict_in (map (λ t. t.id) settings.now.types) js)) submissions.now)) }
{
    let mut attempts = counted_attempts(alloc, settings, verdicts, submissions)?;
    sort(&mut attempts)?;
    Ok(attempts)
}

// Sorts attempts by contest time. Those at one time stay as they stand.
fn sort(attempts: &mut Vec<JudgedSubmission>) -> Result<(), AllocError>
    ensures { OnOk result (attempts.new.items ≡ by_time attempts.old.items) }
{
    attempts.sort_by_key(|attempt| attempt.time.milliseconds())
}

// The submissions that count, as they stand.
fn counted_attempts(
    alloc: Global,
    settings: &Settings,
    verdicts: &Verdicts<'_>,
    submissions: &[Row<FeedSubmission>],
) -> Result<Vec<JudgedSubmission>, AllocError>
    ensures { (js : List TheJudgement) → AreLast (map (λ t. t.id) settings.now.types) verdicts.now js
        → IfOk result (λ us. us.items ≡ filter_map (attempt_by settings.now.head.duration (map (λ t. t.id) settings.now.teams) (map (λ p. p.id) settings.now.problems) (verdict_in (map (λ t. t.id) settings.now.types) js)) submissions.now) }
{
    let mut attempts = Vec::new(alloc);
    for row in submissions {
        push_if(&mut attempts, attempt_of(settings, verdicts, row))?;
    }
    Ok(attempts)
}

fn push_if(
    attempts: &mut Vec<JudgedSubmission>,
    attempt: Option<JudgedSubmission>,
) -> Result<(), AllocError>
    ensures { OnOk result (attempts.new.items ≡ attempts.old.items ++ option_to_list attempt) }
{
    if let Some(attempt) = attempt {
        attempts.push(attempt)?;
    }
    Ok(())
}

// A submission with its verdict, if it counts.
fn attempt_of(
    settings: &Settings,
    verdicts: &Verdicts<'_>,
    row: &Row<FeedSubmission>,
) -> Option<JudgedSubmission>
    ensures { (js : List TheJudgement) → AreLast (map (λ t. t.id) settings.now.types) verdicts.now js
        → result ≡ attempt_by settings.now.head.duration (map (λ t. t.id) settings.now.teams) (map (λ p. p.id) settings.now.problems) (verdict_in (map (λ t. t.id) settings.now.types) js) row.now }
{
    let time = time_within(row.object.time, settings.head().duration)?;
    let team = team_in(settings, &row.object.team)?;
    let problem = problem_in(settings, &row.object.problem)?;
    Some(JudgedSubmission {
        team,
        problem,
        time: Moment::from_time_span(time),
        verdict: verdict_on(verdicts, &row.id),
    })
}

// The place of a team in the settings.
fn team_in(settings: &Settings, id: &Id) -> Option<u32>
    ensures { result ≡ place_of id.now (map (λ t. t.id) settings.now.teams) }
{
    match settings.team_place(id.as_bytes()) {
        Some(place) => Some(place as u32),
        None => None,
    }
}

// The place of a problem in the settings.
fn problem_in(settings: &Settings, id: &Id) -> Option<u32>
    ensures { result ≡ place_of id.now (map (λ p. p.id) settings.now.problems) }
{
    match settings.problem_place(id.as_bytes()) {
        Some(place) => Some(place as u32),
        None => None,
    }
}
