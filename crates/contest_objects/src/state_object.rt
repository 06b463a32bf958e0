//! The state of the contest's clock.
ghost use Rattle.std.specs.Prelude.{◌≡◌};
ghost use Rattle.contest_objects.specs.StateObject.{come, final_from, last_update, later_moment};
ghost use Rattle.contest_objects.specs.StateObject.{once, state_times, thawed_from};

use contest_types::{Marks, Moment, Settings, end_of, freeze_of};

/// The moments of the state object (Contest API 2023-06, contest state), each from when it has come
/// on.
#[derive(Clone, Copy)]
pub struct StateTimes {
    /// The start.
    pub started: Option<Moment>,
    /// The freeze.
    pub frozen: Option<Moment>,
    /// The end.
    pub ended: Option<Moment>,
    /// The thaw, once there is something to thaw.
    pub thawed: Option<Moment>,
    /// When the results were made final, once the contest has ended.
    pub finalized: Option<Moment>,
    /// The last moment at which anything public changed.
    pub end_of_updates: Option<Moment>,
}

/// The state of the clock at a moment. It takes no memory.
pub fn state_times(settings: &Settings, marks: &Marks, now: Moment) -> StateTimes
    ensures { result ≡ state_times settings.now marks.now now }
{
    StateTimes {
        started: mark_come(marks.start, now),
        frozen: come(freeze_of(settings, marks), now),
        ended: come(end_of(settings, marks), now),
        thawed: thawed_from(settings, marks, now),
        finalized: final_from(settings, marks, now),
        end_of_updates: last_update(
            freeze_of(settings, marks),
            thawed_from(settings, marks, now),
            final_from(settings, marks, now),
        ),
    }
}

// The thaw, once there is something to thaw.
fn thawed_from(settings: &Settings, marks: &Marks, now: Moment) -> Option<Moment>
    ensures { result ≡ thawed_from settings.now marks.now now }
{
    once(
        come(freeze_of(settings, marks), now),
        mark_come(marks.thaw, now),
    )
}

// The final results, once the contest has ended.
fn final_from(settings: &Settings, marks: &Marks, now: Moment) -> Option<Moment>
    ensures { result ≡ final_from settings.now marks.now now }
{
    once(
        come(end_of(settings, marks), now),
        mark_come(marks.finalized, now),
    )
}

// A moment that is there, in milliseconds since 1970, and isn't after now.
fn come(moment: Option<u64>, now: Moment) -> Option<Moment>
    ensures { result ≡ come moment now }
{
    let moment = moment?;
    if moment <= now.milliseconds() {
        Moment::from_milliseconds(moment)
    } else {
        None
    }
}

// A mark that is set, and isn't after now.
fn mark_come(mark: Option<Moment>, now: Moment) -> Option<Moment>
    ensures { result ≡ come mark now }
{
    come(Some(mark?.milliseconds()), now)
}

// The second moment, where the first is there.
fn once(first: Option<Moment>, second: Option<Moment>) -> Option<Moment>
    ensures { result ≡ once first second }
{
    match first {
        Some(_) => second,
        None => None,
    }
}

// The final results where nothing freezes, else the later of the thaw and these.
fn last_update(
    freeze: Option<u64>,
    thawed: Option<Moment>,
    finalized: Option<Moment>,
) -> Option<Moment>
    ensures { result ≡ last_update freeze thawed finalized }
{
    match freeze {
        Some(_) => Some(later(thawed?, finalized?)),
        None => finalized,
    }
}

fn later(first: Moment, second: Moment) -> Moment
    ensures { result ≡ later_moment first second }
{
    if first.milliseconds() <= second.milliseconds() {
        second
    } else {
        first
    }
}
