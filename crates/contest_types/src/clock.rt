//! The contest's clock: its phase, its end, its freeze and its thaw.
ghost use Rattle.std.specs.Prelude.{◌≡◌};
ghost use Rattle.contest_types.specs.Clock.{end_of, freeze_of, is_frozen, is_thawed, is_freezing};
ghost use Rattle.contest_types.specs.Clock.{is_finalized, phase_at, reached};

use crate::{Marks, Moment, Phase, Settings};

/// When the contest ends, in milliseconds since 1970: its start and its duration (Contest API
/// 2023-06, contest object); none where no start is set.
pub fn end_of(settings: &Settings, marks: &Marks) -> Option<u64>
    ensures { result ≡ end_of settings.now marks.now }
{
    let start = marks.start?;
    Some(start.milliseconds() + settings.head().duration.milliseconds())
}

/// Where the contest stands at a moment: before its start, running, or ended from its end on. It
/// takes no memory.
pub fn phase(marks: &Marks, settings: &Settings, now: Moment) -> Phase
    ensures { result ≡ phase_at settings.now marks.now now }
{
    if !has_come(marks.start, now) {
        Phase::Before
    } else if is_reached(end_of(settings, marks), now) {
        Phase::Ended
    } else {
        Phase::Running
    }
}

/// Whether a mark of the clock is set and isn't after now.
pub fn has_come(mark: Option<Moment>, now: Moment) -> bool
    ensures { result ≡ reached mark now }
{
    match mark {
        Some(mark) => mark.milliseconds() <= now.milliseconds(),
        None => false,
    }
}

/// Whether a moment is there and isn't after now: an end or a freeze, in milliseconds since 1970.
pub fn is_reached(moment: Option<u64>, now: Moment) -> bool
    ensures { result ≡ reached moment now }
{
    match moment {
        Some(moment) => moment <= now.milliseconds(),
        None => false,
    }
}

/// When the scoreboard freezes, in milliseconds since 1970: so long before the end (Contest API
/// 2023-06, contest object); none where no start is set or the contest has no freeze.
pub fn freeze_of(settings: &Settings, marks: &Marks) -> Option<u64>
    ensures { result ≡ freeze_of settings.now marks.now }
{
    let end = end_of(settings, marks)?;
    let freeze = settings.head().freeze?;
    Some(end.saturating_sub(freeze.milliseconds()))
}

/// Whether a submission of this time is frozen: there is a freeze moment, and the time isn't before
/// it (DOMjudge manual, "Scoreboard": the freeze goes by submission time). It takes no memory.
pub fn is_frozen(settings: &Settings, marks: &Marks, time: Moment) -> bool
    ensures { result ≡ is_frozen settings.now marks.now time }
{
    is_reached(freeze_of(settings, marks), time)
}

/// Whether the frozen verdicts are public at this moment: the thaw is set and not after it.
pub fn is_thawed(marks: &Marks, now: Moment) -> bool
    ensures { result ≡ is_thawed marks.now now }
{
    has_come(marks.thaw, now)
}

/// Whether the freeze lasts at this moment: it has come, and the contest isn't thawed.
pub fn is_freezing(settings: &Settings, marks: &Marks, now: Moment) -> bool
    ensures { result ≡ is_freezing settings.now marks.now now }
{
    is_frozen(settings, marks, now) && !is_thawed(marks, now)
}

/// Whether the results are final at this moment: they were made so, and not after it (Contest API
/// 2023-06, state object).
pub fn is_finalized(marks: &Marks, now: Moment) -> bool
    ensures { result ≡ is_finalized marks.now now }
{
    has_come(marks.finalized, now)
}
