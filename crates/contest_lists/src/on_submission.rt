//! Rows that are on a submission.
ghost use Rattle.std.specs.Prelude.{◌≡◌};
ghost use Rattle.contest_types.specs.State.{SubmissionRef};

use contest_types::{Proposal, Release};

/// A row that is on a submission.
pub trait OnSubmission {
    /// Which submission it is on.
    ghost of: { Self → SubmissionRef };

    /// The place of the submission's team, from 0, and its number, from 1.
    fn submission(&self) -> (usize, usize)
        ensures { result ≡ ((of self.now).team, (of self.now).number) };
}

impl OnSubmission for Release {
    ghost use Rattle.contest_types.specs.State.{of_release};

    ghost of = { of_release };

    fn submission(&self) -> (usize, usize) {
        (self.team, self.number)
    }
}

impl OnSubmission for Proposal {
    ghost use Rattle.contest_types.specs.State.{of_proposal};

    ghost of = { of_proposal };

    fn submission(&self) -> (usize, usize) {
        (self.team, self.number)
    }
}
