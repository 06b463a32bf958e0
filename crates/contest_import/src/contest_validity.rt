//! Whether a contest in which nothing stands yet can be set up.
ghost use Rattle.std.specs.Prelude.{◌≡◌};
ghost use Rattle.contest_types.specs.Setup.{has_valid_freeze, has_valid_medals, is_valid_head};
ghost use Rattle.contest_types.specs.State.{new_contest};
ghost use Rattle.contest_types.specs.Valid.{is_valid};
ghost use Rattle.contest_types.specs.ValidFixed.{has_valid_clock};

use contest_types::limits::{LAST_MOMENT, LONGEST_CONTEST, MEDAL_PLACES, PENALTY_MINUTES};
use contest_types::{Contest, ContestHead, Medals, TimeSpan};

/// Whether each number of the contest is within its range, and its end, where the start is set, is
/// a moment.
pub(crate) fn can_be_set_up(contest: &Contest) -> bool
    ensures { result ≡ is_valid (new_contest contest.now) }
{
    is_valid_head(&contest.head) && has_valid_end(contest)
}

fn has_valid_end(contest: &Contest) -> bool
    ensures { result ≡ has_valid_clock (new_contest contest.now) }
{
    match contest.start {
        Some(start) => {
            start.milliseconds() + contest.head.duration.milliseconds() <= LAST_MOMENT
        }
        None => true,
    }
}

fn is_valid_head(head: &ContestHead) -> bool
    ensures { result ≡ is_valid_head head.now }
{
    let duration = head.duration.milliseconds();
    0 < duration
        && duration <= LONGEST_CONTEST
        && has_valid_freeze(head.freeze, duration)
        && head.penalty_time <= PENALTY_MINUTES
        && has_valid_medals(head.medals)
}

fn has_valid_freeze(freeze: Option<TimeSpan>, duration: u64) -> bool
    ensures { result ≡ has_valid_freeze freeze duration }
{
    match freeze {
        Some(freeze) => freeze.milliseconds() <= duration,
        None => true,
    }
}

fn has_valid_medals(medals: Medals) -> bool
    ensures { result ≡ has_valid_medals medals }
{
    medals.gold <= MEDAL_PLACES && medals.silver <= MEDAL_PLACES && medals.bronze <= MEDAL_PLACES
}
