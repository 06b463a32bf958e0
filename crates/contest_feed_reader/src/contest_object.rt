//! What a contest's object in a feed says.
ghost use Rattle.std.specs.Prelude.{◌≡◌, IfOk, option_map, true};
ghost use Rattle.contest_types.specs.Setup.{has_valid_freeze, is_valid_head};
ghost use Rattle.contest_feed_reader.specs.Objects.{are_in_range, head_of};

use crate::feed_object::{FeedObject, first_name};
use contest_import::{duration_in, freeze_in, penalty_in};
use contest_types::{ContestHead, Id, Medals, Name, Refusal, TimeSpan, limits};
use serde_json::Value;
use std::alloc::{AllocError, Global};
use std::marker::Model;

/// How many ranks win each kind of medal: no feed says it, and no board shows it.
const MEDALS: u32 = 4;

/// What a contest says beside its id, with each number within its range.
#[derive(Drop)]
pub struct ContestObject {
    name: Name,
    duration: TimeSpan,
    freeze: Option<TimeSpan>,
    penalty_time: u32,
}

impl Model for ContestObject {
    ghost use Rattle.std.specs.Prelude.{◌≡◌, [], true};
    ghost use Rattle.contest_types.specs.Setup.{is_valid_head};
    ghost use Rattle.contest_feed_reader.specs.Objects.{ContestMembers, head_of};

    ghost Value = { ContestMembers };

    ghost view = { λ c. record { name = c.name; duration = c.duration; freeze = c.freeze; penalty_time = c.penalty_time } };

    ghost invariant = { λ c. is_valid_head (head_of [] (record { name = c.name; duration = c.duration; freeze = c.freeze; penalty_time = c.penalty_time })) ≡ true };
}

impl ContestObject {
    /// The head of the contest that has this id.
    ///
    /// # Errors
    ///
    /// Want of memory alone.
    pub(crate) fn head(&self, id: &Id) -> Result<ContestHead, AllocError>
        ensures value { IfOk result (λ head. head ≡ head_of id.now self.now) }
        ensures valid { IfOk result (λ head. is_valid_head head ≡ true) }
    {
        Ok(ContestHead {
            id: id.clone()?,
            name: self.name.clone()?,
            duration: self.duration,
            freeze: self.freeze,
            penalty_time: self.penalty_time,
            verification: false,
            medals: Medals {
                gold: MEDALS,
                silver: MEDALS,
                bronze: MEDALS,
            },
        })
    }

    /// How long the contest runs.
    pub(crate) fn duration(&self) -> TimeSpan
        ensures { result ≡ self.now.duration }
    {
        self.duration
    }
}

impl FeedObject for ContestObject {
    ghost use Rattle.contest_feed_reader.specs.Objects.{contest_members};

    ghost members = { contest_members };

    fn read(alloc: Global, object: &Value) -> Result<Option<ContestObject>, Refusal> {
        // What takes no memory comes first: nothing is let go where it is off its form.
        let Some(duration) = duration_in(object) else {
            return Ok(None);
        };
        let Some(freeze) = freeze_in(object) else {
            return Ok(None);
        };
        let Some(penalty_time) = penalty_in(object) else {
            return Ok(None);
        };
        if !are_in_range(duration, freeze.as_ref(), penalty_time) {
            return Ok(None);
        }
        let Some(name) = first_name(alloc, object, "formal_name", "name")? else {
            return Ok(None);
        };
        Ok(Some(ContestObject {
            name,
            duration,
            freeze,
            penalty_time,
        }))
    }
}

// Whether the numbers of a contest are within their ranges.
fn are_in_range(duration: TimeSpan, freeze: Option<&TimeSpan>, penalty_time: u32) -> bool
    ensures { result ≡ are_in_range duration (option_map (λ f. f.now) freeze.entry) penalty_time }
{
    0 < duration.milliseconds()
        && duration.milliseconds() <= limits::LONGEST_CONTEST
        && is_within(freeze, duration)
        && penalty_time <= limits::PENALTY_MINUTES
}

// Whether a freeze, where there is one, is no longer than the contest.
fn is_within(freeze: Option<&TimeSpan>, duration: TimeSpan) -> bool
    ensures { result ≡ has_valid_freeze (option_map (λ f. f.now) freeze.entry) duration }
{
    match freeze {
        None => true,
        Some(freeze) => freeze.milliseconds() <= duration.milliseconds(),
    }
}
