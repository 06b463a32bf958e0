//! Lengths of time that aren't below zero.
ghost use Rattle.std.specs.Prelude.{◌≡◌, ◌≤◌, ℕ, SomeIff, pos, ℤ, IfSome, IfNone, ◌<ℤ◌};
ghost use Rattle.contest_types.specs.RelTimeText.{farthest};

use crate::RelTime;
use crate::limits::LAST_MOMENT;
use std::marker::Model;

/// A length of time in milliseconds, zero or more (Contest API 2023-06, RELTIME).
#[derive(Clone, Copy, PartialEq, Eq, PartialOrd, Ord)]
pub struct TimeSpan {
    milliseconds: u64,
}

impl Model for TimeSpan {
    ghost use Rattle.std.specs.Prelude.{ℕ, ◌≤◌};
    ghost use Rattle.contest_types.specs.RelTimeText.{farthest};

    ghost Value = { ℕ };

    ghost view = { λ t. t.milliseconds };

    ghost invariant = { λ t. t.milliseconds ≤ farthest };

    ghost inverse = { λ n. record { milliseconds = n } };
}

impl TimeSpan {
    /// No time.
    pub const ZERO: TimeSpan = TimeSpan { milliseconds: 0 };

    /// So many milliseconds; none past the greatest relative time.
    pub fn new(milliseconds: u64) -> Option<TimeSpan>
        ensures { SomeIff result (milliseconds ≤ farthest) milliseconds }
    {
        if milliseconds <= LAST_MOMENT {
            Some(TimeSpan { milliseconds })
        } else {
            None
        }
    }

    /// A relative time that isn't below zero; none for one that is.
    pub fn from_reltime(time: RelTime) -> Option<TimeSpan>
        ensures found { IfSome result (λ span. time ≡ pos span) }
        ensures none { IfNone result (time <ℤ pos 0) }
    {
        if time.milliseconds() < 0 {
            return None;
        }
        Some(TimeSpan {
            milliseconds: time.milliseconds().unsigned_abs(),
        })
    }

    /// How many milliseconds it is.
    pub fn milliseconds(self) -> u64
        ensures value { result ≡ self }
        ensures bound { result ≤ farthest }
    {
        self.milliseconds
    }
}
