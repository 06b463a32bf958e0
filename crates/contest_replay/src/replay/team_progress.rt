//! How far a team has come in a replay.
ghost use Rattle.std.specs.Prelude.{◌≡◌, ◌+◌, false, max, nat_le};
ghost use Rattle.contest_types.specs.declared.limits.TheConstants.{TEAM_SUBMISSIONS};

use contest_types::limits;

/// What is kept of a team while its submissions are read.
#[derive(Clone, Copy)]
pub(crate) struct TeamProgress {
    /// The time of its last submission, in milliseconds of contest time.
    pub(crate) last: u64,
    /// How many submissions it has.
    pub(crate) count: usize,
}

impl TeamProgress {
    /// Whether the team has as many submissions as it may have.
    pub(crate) fn is_full(self) -> bool
        ensures { result ≡ nat_le TEAM_SUBMISSIONS self.count }
    {
        self.count >= limits::TEAM_SUBMISSIONS
    }

    /// With one more submission at this time: it counts from the team's last time on.
    pub(crate) fn with_one_more(self, time: u64) -> TeamProgress
        requires { nat_le TEAM_SUBMISSIONS self.count ≡ false }
        ensures { result ≡ record { last = max time self.last; count = self.count + 1 } }
    {
        TeamProgress {
            last: time.max(self.last),
            count: self.count + 1,
        }
    }
}
