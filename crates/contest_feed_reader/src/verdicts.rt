//! The verdicts of a feed's submissions, by their judgements.
ghost use Rattle.std.specs.Prelude.{◌≡◌, ◌++◌, ◌∷◌, [], List, ℕ, IfOk, OnOk, map, option_map};
ghost use Rattle.std.specs.Option.{option_and_then};
ghost use Rattle.contest_types.specs.Places.{place_of};
ghost use Rattle.contest_feed_reader.specs.LastVerdicts.{AreLast, counted_verdict, is_last, kept_for};
ghost use Rattle.contest_feed_reader.specs.Verdicts.{ended_before, last_judgement, place_by};
ghost use Rattle.contest_feed_reader.specs.declared.submissions.FeedJudgement.{FeedJudgement as TheJudgement};

use crate::row::Row;
use crate::submissions::FeedJudgement;
use contest_types::{Id, Settings};
use std::alloc::{AllocError, Global};
use std::collections::HashMap;

/// What is kept of the judgement of a submission that ended last.
#[derive(Clone, Copy)]
pub(crate) struct LastVerdict {
    /// When it ended, in milliseconds of contest time, if it says so.
    ended: Option<i64>,
    /// The place of its type in the settings, from 0.
    verdict: Option<u32>,
}

/// The last verdict of each submission that has one, by the submission's id.
pub(crate) type Verdicts<'r> = HashMap<&'r str, LastVerdict>;

/// The verdicts of judgements.
///
/// # Errors
///
/// Want of memory alone.
pub(crate) fn verdicts_of<'r>(
    alloc: Global,
    settings: &Settings,
    judgements: &'r [Row<FeedJudgement>],
) -> Result<Verdicts<'r>, AllocError>
    ensures { IfOk result (λ verdicts. AreLast (map (λ t. t.id) settings.now.types) verdicts (map (λ row. row.object) judgements.now)) }
{
    let mut verdicts = HashMap::new(alloc);
    for row in judgements {
        take_judgement(settings, &mut verdicts, &row.object)?;
    }
    Ok(verdicts)
}

// One more judgement stands.
fn take_judgement<'r>(
    settings: &Settings,
    verdicts: &mut Verdicts<'r>,
    judgement: &'r FeedJudgement,
) -> Result<(), AllocError>
    ensures { OnOk result ((before : List TheJudgement) → AreLast (map (λ t. t.id) settings.now.types) verdicts.old before
        → AreLast (map (λ t. t.id) settings.now.types) verdicts.new (before ++ judgement.now ∷ [])) }
{
    let Some(verdict) = counted_verdict(judgement) else {
        return Ok(());
    };
    let submission = judgement.submission.as_str();
    let ended = end_of(judgement);
    if is_last(verdicts.get(submission), ended) {
        let last = LastVerdict {
            ended,
            verdict: place_in(settings, verdict),
        };
        verdicts.insert(submission, last)?;
    }
    Ok(())
}

// The type of a judgement that counts, if it has one.
fn counted_verdict(judgement: &FeedJudgement) -> Option<&Id>
    ensures { option_map (λ id. id.now) result ≡ counted_verdict judgement.now }
{
    if judgement.counts {
        judgement.verdict.as_ref()
    } else {
        None
    }
}

// When a judgement ended, if it says so.
fn end_of(judgement: &FeedJudgement) -> Option<i64>
    ensures { result ≡ judgement.now.ended }
{
    match judgement.ended {
        Some(time) => Some(time.milliseconds()),
        None => None,
    }
}

// The place of a judgement type in the settings.
fn place_in(settings: &Settings, verdict: &Id) -> Option<u32>
    ensures { result ≡ place_of verdict.now (map (λ t. t.id) settings.now.types) }
{
    match settings.judgement_type_place(verdict.as_bytes()) {
        Some(place) => Some(place as u32),
        None => None,
    }
}

// Whether a judgement that ended then would be the last.
fn is_last(last: Option<&LastVerdict>, ended: Option<i64>) -> bool
    ensures { result ≡ is_last (option_map (λ v. v.now) last.entry) ended }
{
    match last {
        Some(last) => !ended_before(ended, last.ended),
        None => true,
    }
}

fn ended_before(first: Option<i64>, second: Option<i64>) -> bool
    ensures { result ≡ ended_before first second }
{
    match (first, second) {
        (Some(first), Some(second)) => first < second,
        (None, Some(_)) => true,
        _ => false,
    }
}

/// The place of the type of a submission's last judgement; none where it is pending.
pub(crate) fn verdict_on(verdicts: &Verdicts<'_>, submission: &Id) -> Option<u32>
    ensures { (types : List (List ℕ)) (js : List TheJudgement) → AreLast types verdicts.now js → result ≡ option_and_then (place_by types) (last_judgement submission.now js) }
{
    match verdicts.get(submission.as_str()) {
        Some(last) => last.verdict,
        None => None,
    }
}
