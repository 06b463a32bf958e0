//! Solved problems, to the millisecond.
use contest_types::Moment;

/// A team's first submission that solves a problem. Team and problem go by their places in the
/// settings, from 0.
#[derive(Clone, Copy, PartialEq, Eq)]
pub struct Solve {
    /// The place of the team.
    pub team: usize,
    /// The place of the problem.
    pub problem: usize,
    /// When the submission counts as submitted.
    pub time: Moment,
}
