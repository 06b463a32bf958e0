//! When results are final, and awards are shown.
ghost use Rattle.std.specs.Prelude.{◌≡◌};
ghost use Rattle.contest_types.specs.State.{ContestState};
ghost use Rattle.contest_score.specs.Awards.{shows_awards};
ghost use Rattle.contest_score.specs.Results.{holds_nothing, is_final};

use contest_types::{Audience, Fixed, Marks, Moment, Settings, freeze_of, is_finalized, is_thawed};

/// Whether no verdict is held back from anybody at a moment: there is no freeze moment, or it is
/// thawed.
fn holds_nothing(settings: &Settings, marks: &Marks, now: Moment) -> bool
    ensures { result ≡ holds_nothing settings.now marks.now now }
{
    freeze_of(settings, marks).is_none() || is_thawed(marks, now)
}

/// Whether results are final for everybody at a moment: they were made so, and nothing is held back
/// (own). It takes no memory.
pub fn is_final(settings: &Settings, marks: &Marks, now: Moment) -> bool
    ensures { result ≡ is_final settings.now marks.now now }
{
    is_finalized(marks, now) && holds_nothing(settings, marks, now)
}

/// Whether an audience is shown the awards at a moment: the jury once results were made final, all
/// others once they are final for everybody (own). It takes no memory.
pub fn shows_awards(audience: Audience, fixed: &Fixed, now: Moment) -> bool
    ensures { (x : ContestState) → x.fixed ≡ fixed.now → result ≡ shows_awards audience now x }
{
    match audience {
        Audience::Jury => is_finalized(&fixed.marks, now),
        Audience::Public | Audience::Team(_) => is_final(&fixed.settings, &fixed.marks, now),
    }
}
