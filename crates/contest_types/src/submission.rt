//! Submissions and the verdicts that were released on them.
ghost use Rattle.std.specs.Prelude.{◌≡◌};
ghost use Rattle.contest_types.specs.PlainRows.{plain_submission};

use crate::{Id, Moment, Name, Rows};
use std::alloc::Global;

/// A submission. Teams, problems and languages are named by their places in the settings, from 0.
#[derive(Drop)]
pub struct Submission {
    /// The place of its team.
    pub team: usize,
    /// Which of the team's submissions it is, counted from 1.
    pub number: usize,
    /// When it counts as submitted: never before the team's last.
    pub time: Moment,
    /// The place of its problem.
    pub problem: usize,
    /// The place of its language.
    pub language: usize,
    /// Where the program starts, if that was said.
    pub entry_point: Option<Name>,
    /// The bytes of its file.
    pub file: Rows<u8>,
    /// The idempotency key that it was posted with, if any.
    pub key: Option<Id>,
}

impl Submission {
    /// A submission of no bytes, which says no entry point and was posted without a key.
    pub fn new(
        alloc: Global,
        team: usize,
        number: usize,
        time: Moment,
        problem: usize,
        language: usize,
    ) -> Submission
        ensures { result ≡ plain_submission team number time problem language }
    {
        Submission {
            team,
            number,
            time,
            problem,
            language,
            entry_point: None,
            file: Rows::new(alloc),
            key: None,
        }
    }
}

/// A verdict that was released on a submission. The last one counts.
#[derive(Clone, Copy, PartialEq, Eq)]
pub struct Release {
    /// The place of the submission's team, from 0.
    pub team: usize,
    /// Which of the team's submissions it is on, counted from 1.
    pub number: usize,
    /// Which release on that submission it is, counted from 1.
    pub round: usize,
    /// The place of the judgement type, from 0.
    pub verdict: usize,
    /// When it was released.
    pub time: Moment,
}
