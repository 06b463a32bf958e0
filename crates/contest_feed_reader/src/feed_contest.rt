//! The contest that a feed spells.

use contest_replay::ReplayContest;

/// The contest that a feed spells, which is a valid one, and what of the feed counts for nothing.
#[derive(Drop)]
pub struct FeedContest {
    /// The contest, as one that is replayed.
    pub contest: ReplayContest,
    /// What was left out.
    pub left_out: LeftOut,
}

/// How much of a feed counts for nothing.
#[derive(Clone, Copy, PartialEq, Eq)]
pub struct LeftOut {
    /// Submissions before the start, or at or after the end.
    pub submissions: usize,
    /// Judgements of a submission that doesn't stand.
    pub judgements: usize,
}
