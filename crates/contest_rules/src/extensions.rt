//! An administrator gives a contest more time.
ghost use Rattle.std.specs.Prelude.{◌≡◌, ◌≤◌, ◌+◌, ◌-◌, Some, true};
ghost use Rattle.contest_types.specs.Setup.{is_valid_head};
ghost use Rattle.std.specs.List.{list_any};
ghost use Rattle.contest_types.specs.Clock.{moment_after, moment_before, reached};
ghost use Rattle.contest_types.specs.declared.submission.Submission.{Submission as TheSubmission};
ghost use Rattle.contest_rules.specs.Extensions.{extension, freeze_after, has_frozen};
ghost use Rattle.contest_rules.specs.Extensions.{is_come, may_extend, may_freeze, moved_freeze};
ghost use Rattle.contest_rules.specs.Extensions.{stands, stands_so};

use crate::RuleRefusal;
use crate::clock_changes::has_end;
use contest_types::{
    ContestHead, Fixed, Marks, Moment, Submission, TimeSpan, freeze_of, is_reached,
};

/// What an administrator asks for.
#[derive(Clone, Copy)]
pub struct WantedExtension {
    /// How long the contest is to run.
    pub duration: TimeSpan,
    /// How long before its end the scoreboard is to freeze, if that is given.
    pub freeze: Option<TimeSpan>,
}

/// How long a contest runs from now on.
#[derive(Clone, Copy)]
pub struct Extension {
    /// How long it runs.
    pub duration: TimeSpan,
    /// How long before its end the scoreboard freezes; none: it never does.
    pub freeze: Option<TimeSpan>,
    /// Whether that is a change.
    pub is_new: bool,
}

/// What becomes of an extension that is asked for now, over the contest's submissions. Once the
/// freeze has come its moment stays, and before that it moves with the end, unless a freeze duration
/// is given. What stands already is no change, at any time. It takes no memory.
///
/// # Errors
///
/// `Malformed` where the end is past the last moment. `ClockRefused` where the results are final or
/// the thaw is set, where the duration is shorter, where the new end has come, and where a freeze
/// duration is given though the freeze has come, or would have by it.
pub fn decide_extension(
    fixed: &Fixed,
    submissions: &[Submission],
    wanted: &WantedExtension,
    now: Moment,
) -> Result<Extension, RuleRefusal>
    ensures { result ≡ extension fixed.now submissions.now now wanted.now }
{
    let head = fixed.settings.head();
    if stands_so(head, wanted) {
        return Ok(Extension {
            duration: head.duration,
            freeze: head.freeze,
            is_new: false,
        });
    }
    if !has_end(wanted.duration, &fixed.marks.start) {
        return Err(RuleRefusal::Malformed);
    }
    if may_extend(fixed, submissions, wanted, now) {
        Ok(Extension {
            duration: wanted.duration,
            freeze: freeze_after(fixed, submissions, wanted, now),
            is_new: true,
        })
    } else {
        Err(RuleRefusal::ClockRefused)
    }
}

fn stands_so(head: &ContestHead, wanted: &WantedExtension) -> bool
    ensures { result ≡ stands_so head.now wanted.now }
{
    wanted.duration.milliseconds() == head.duration.milliseconds()
        && stands(wanted.freeze, head.freeze)
}

fn stands(given: Option<TimeSpan>, freeze: Option<TimeSpan>) -> bool
    ensures { result ≡ stands given freeze }
{
    match (given, freeze) {
        (None, _) => true,
        (Some(_), None) => false,
        (Some(given), Some(freeze)) => given.milliseconds() == freeze.milliseconds(),
    }
}

fn may_extend(
    fixed: &Fixed,
    submissions: &[Submission],
    wanted: &WantedExtension,
    now: Moment,
) -> bool
    ensures { result ≡ may_extend fixed.now submissions.now now wanted.now }
{
    let marks = &fixed.marks;
    marks.finalized.is_none()
        && marks.thaw.is_none()
        && fixed.settings.head().duration.milliseconds() <= wanted.duration.milliseconds()
        && !is_reached(end_after(marks, wanted.duration), now)
        && may_freeze(fixed, submissions, wanted, now)
}

fn may_freeze(
    fixed: &Fixed,
    submissions: &[Submission],
    wanted: &WantedExtension,
    now: Moment,
) -> bool
    ensures { result ≡ may_freeze fixed.now submissions.now now wanted.now }
{
    match wanted.freeze {
        None => true,
        Some(freeze) => {
            let moment = freeze_before(&fixed.marks, wanted.duration, freeze);
            !is_come(fixed, submissions, now) && !has_frozen(moment, submissions, now)
        }
    }
}

// Whether the freeze that stands has come.
fn is_come(fixed: &Fixed, submissions: &[Submission], now: Moment) -> bool
    ensures { result ≡ is_come fixed.now submissions.now now }
{
    has_frozen(freeze_of(&fixed.settings, &fixed.marks), submissions, now)
}

// Whether a freeze at a moment has come: it is now or before, or a submission is frozen by it.
fn has_frozen(moment: Option<u64>, submissions: &[Submission], now: Moment) -> bool
    ensures { result ≡ has_frozen moment submissions.now now }
{
    is_reached(moment, now) || is_any_frozen(moment, submissions)
}

fn is_any_frozen(moment: Option<u64>, submissions: &[Submission]) -> bool
    ensures { result ≡ list_any (λ (s : TheSubmission). reached moment s.time) submissions.now }
{
    submissions
        .iter()
        .any(|submission| is_reached(moment, submission.time))
}

fn freeze_after(
    fixed: &Fixed,
    submissions: &[Submission],
    wanted: &WantedExtension,
    now: Moment,
) -> Option<TimeSpan>
    ensures { result ≡ freeze_after fixed.now submissions.now now wanted.now }
{
    match wanted.freeze {
        Some(freeze) => Some(freeze),
        None => {
            let head = fixed.settings.head();
            moved_freeze(head, is_come(fixed, submissions, now), wanted.duration)
        }
    }
}

fn moved_freeze(head: &ContestHead, come: bool, duration: TimeSpan) -> Option<TimeSpan>
    requires { is_valid_head head.now ≡ true }
    ensures { result ≡ moved_freeze come (duration - head.now.duration) head.now.freeze }
{
    let freeze = head.freeze?;
    if !come {
        return Some(freeze);
    }
    Some(grown(freeze, head.duration, duration))
}

// The freeze duration, grown as the duration grows.
fn grown(freeze: TimeSpan, old: TimeSpan, new: TimeSpan) -> TimeSpan
    requires { freeze ≤ old }
    ensures { result ≡ freeze + (new - old) }
{
    let longer = new.milliseconds().saturating_sub(old.milliseconds());
    match TimeSpan::new(freeze.milliseconds() + longer) {
        Some(freeze) => freeze,
        None => unreachable!(),
    }
}

// The end by a duration.
fn end_after(marks: &Marks, duration: TimeSpan) -> Option<u64>
    ensures { result ≡ moment_after marks.now.start duration }
{
    let start = marks.start?;
    Some(start.milliseconds() + duration.milliseconds())
}

// The freeze moment by a duration and a freeze duration.
fn freeze_before(marks: &Marks, duration: TimeSpan, freeze: TimeSpan) -> Option<u64>
    ensures { result ≡ moment_before (moment_after marks.now.start duration) (Some freeze) }
{
    let end = end_after(marks, duration)?;
    Some(end.saturating_sub(freeze.milliseconds()))
}
