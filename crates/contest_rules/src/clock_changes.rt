//! An administrator sets the start or the thaw, and makes the results final.
ghost use Rattle.std.specs.Prelude.{◌≡◌, not};
ghost use Rattle.std.specs.List.{list_any};
ghost use Rattle.contest_types.specs.Clock.{end_of, phase_at, reached};
ghost use Rattle.contest_types.specs.ValidRejudgings.{is_open};
ghost use Rattle.contest_rules.specs.ClockChanges.{all_released, final_change, finalize, has_end};
ghost use Rattle.contest_rules.specs.ClockChanges.{has_ended, is_untouched, may_close, may_start};
ghost use Rattle.contest_rules.specs.ClockChanges.{may_thaw, set_clock, start_change, thaw_change};

use crate::{Judged, RuleRefusal};
use contest_types::limits::LAST_MOMENT;
use contest_types::{
    Clarification, Entry, Fixed, Marks, Moment, Phase, Rejudging, RejudgingState, Submission,
    TimeSpan, end_of, freeze_of, is_thawed, phase,
};

/// What is asked for of the clock (Contest API 2023-06, contests: PATCH).
#[derive(Clone, Copy)]
pub enum WantedClock {
    /// This start, or none.
    Start(Option<Moment>),
    /// This thaw.
    Thaw(Moment),
}

/// A change of the clock.
#[derive(Drop)]
pub struct ClockChange {
    /// The marks of the clock, as they are then.
    pub marks: Marks,
    /// What is added.
    pub entry: Entry,
}

/// What becomes of a start or a thaw that is asked for now, over the contest's submissions and
/// clarifications. It takes no memory.
///
/// # Errors
///
/// `ClockRefused`. A start is refused where a submission or a clarification stands, where the thaw
/// or the final results are set, where the old start has come, and where the new one has or its end
/// is past the last moment. A thaw is refused where there is no freeze moment, where the old thaw
/// has come, and where the new one is before the end.
pub fn decide_clock(
    fixed: &Fixed,
    submissions: &[Submission],
    clarifications: &[Clarification],
    wanted: WantedClock,
    now: Moment,
) -> Result<ClockChange, RuleRefusal>
    ensures { result ≡ set_clock fixed.now submissions.now clarifications.now now wanted }
{
    match wanted {
        WantedClock::Start(start) => {
            if may_start(fixed, submissions, clarifications, &start, now) {
                Ok(start_change(&fixed.marks, &start))
            } else {
                Err(RuleRefusal::ClockRefused)
            }
        }
        WantedClock::Thaw(thaw) => {
            if may_thaw(fixed, thaw, now) {
                Ok(thaw_change(&fixed.marks, thaw))
            } else {
                Err(RuleRefusal::ClockRefused)
            }
        }
    }
}

fn start_change(marks: &Marks, start: &Option<Moment>) -> ClockChange
    ensures { result ≡ start_change marks.now start.now }
{
    ClockChange {
        marks: Marks {
            start: *start,
            ..*marks
        },
        entry: Entry::SetStart(*start),
    }
}

fn thaw_change(marks: &Marks, thaw: Moment) -> ClockChange
    ensures { result ≡ thaw_change marks.now thaw }
{
    ClockChange {
        marks: Marks {
            thaw: Some(thaw),
            ..*marks
        },
        entry: Entry::SetThaw(thaw),
    }
}

// Whether the start may be moved or unset.
fn may_start(
    fixed: &Fixed,
    submissions: &[Submission],
    clarifications: &[Clarification],
    start: &Option<Moment>,
    now: Moment,
) -> bool
    ensures { result ≡ may_start fixed.now submissions.now clarifications.now now start.now }
{
    is_untouched(&fixed.marks, submissions, clarifications)
        && is_ahead(&fixed.marks.start, now)
        && is_ahead(start, now)
        && has_end(fixed.settings.head().duration, start)
}

// Whether nothing stands that goes by the start.
fn is_untouched(marks: &Marks, submissions: &[Submission], clarifications: &[Clarification]) -> bool
    ensures { result ≡ is_untouched marks.now submissions.now clarifications.now }
{
    submissions.is_empty()
        && clarifications.is_empty()
        && marks.thaw.is_none()
        && marks.finalized.is_none()
}

// Whether a moment, if there is one, is still to come.
fn is_ahead(moment: &Option<Moment>, now: Moment) -> bool
    ensures { result ≡ not (reached moment.now now) }
{
    match moment {
        Some(moment) => now.milliseconds() < moment.milliseconds(),
        None => true,
    }
}

// Whether there still is a moment so long after the start, if that is set.
pub(crate) fn has_end(duration: TimeSpan, start: &Option<Moment>) -> bool
    ensures { result ≡ has_end duration start.now }
{
    match start {
        Some(start) => start.milliseconds() + duration.milliseconds() <= LAST_MOMENT,
        None => true,
    }
}

// Whether the thaw may be set or moved.
fn may_thaw(fixed: &Fixed, thaw: Moment, now: Moment) -> bool
    ensures { result ≡ may_thaw fixed.now now thaw }
{
    freeze_of(&fixed.settings, &fixed.marks).is_some()
        && !is_thawed(&fixed.marks, now)
        && is_after_end(fixed, thaw)
}

// Whether there is an end, and a moment isn't before it.
fn is_after_end(fixed: &Fixed, moment: Moment) -> bool
    ensures { result ≡ reached (end_of fixed.now.settings fixed.now.marks) moment }
{
    match end_of(&fixed.settings, &fixed.marks) {
        Some(end) => end <= moment.milliseconds(),
        None => false,
    }
}

/// What becomes of results that are to be final from now on, over the contest's submissions and
/// rejudgings, in one pass over each, after these verdicts. It takes no memory.
///
/// # Errors
///
/// `ClockRefused` where the contest hasn't ended, where the results are final already, where a
/// submission has no release, and where a rejudging is open.
pub fn decide_final<J: Judged>(
    fixed: &Fixed,
    submissions: &[Submission],
    judged: &J,
    rejudgings: &[Rejudging],
    now: Moment,
) -> Result<ClockChange, RuleRefusal>
    ensures { result ≡ finalize fixed.now submissions.now (J.releases judged.now) rejudgings.now now }
{
    if may_close(fixed, rejudgings, now) && are_all_released(submissions, judged) {
        Ok(final_change(&fixed.marks, now))
    } else {
        Err(RuleRefusal::ClockRefused)
    }
}

// Whether each submission has a release.
fn are_all_released<J: Judged>(submissions: &[Submission], judged: &J) -> bool
    ensures { result ≡ all_released (J.releases judged.now) submissions.now }
{
    submissions.iter().all(|submission| judged.is_released(submission.team, submission.number))
}

fn final_change(marks: &Marks, finalized: Moment) -> ClockChange
    ensures { result ≡ final_change marks.now finalized }
{
    ClockChange {
        marks: Marks {
            finalized: Some(finalized),
            ..*marks
        },
        entry: Entry::SetFinalized(finalized),
    }
}

// Whether the contest has ended, its results aren't final yet, and no rejudging is open.
fn may_close(fixed: &Fixed, rejudgings: &[Rejudging], now: Moment) -> bool
    ensures { result ≡ may_close fixed.now rejudgings.now now }
{
    has_ended(fixed, now) && fixed.marks.finalized.is_none() && !is_any_open(rejudgings)
}

fn has_ended(fixed: &Fixed, now: Moment) -> bool
    ensures { result ≡ has_ended (phase_at fixed.now.settings fixed.now.marks now) }
{
    phase(&fixed.marks, &fixed.settings, now) == Phase::Ended
}

fn is_any_open(rejudgings: &[Rejudging]) -> bool
    ensures { result ≡ list_any is_open rejudgings.now }
{
    rejudgings
        .iter()
        .any(|rejudging| rejudging.state == RejudgingState::Open)
}
