//! What is known of the verdicts that were proposed and released.
ghost use Rattle.std.specs.Prelude.{◌≡◌, ◌+◌, List, length};
ghost use Rattle.std.specs.Option.{option_map};
ghost use Rattle.contest_types.specs.State.{releases_on};
ghost use Rattle.contest_types.specs.ValidRejudgings.{is_released};
ghost use Rattle.contest_types.specs.declared.proposal.Proposal.{Proposal as TheProposal};
ghost use Rattle.contest_types.specs.declared.submission.Release.{Release as TheRelease};
ghost use Rattle.contest_rules.specs.Proposing.{proposals_made};
ghost use Rattle.contest_rules.specs.Verifying.{last_proposal};

use contest_types::Proposal;

/// The verdicts on each submission so far. A submission is named by the place of its team, from 0,
/// and its number, from 1.
pub trait Judged {
    /// All verdicts that were proposed.
    ghost proposals: { Self → List TheProposal };

    /// All verdicts that were released.
    ghost releases: { Self → List TheRelease };

    /// Whether a verdict was released on a submission.
    fn is_released(&self, team: usize, number: usize) -> bool
        ensures { result ≡ is_released team number (releases self.now) };

    /// The round of its next release, from 1.
    fn next_round(&self, team: usize, number: usize) -> usize
        ensures { result ≡ length (releases_on team number (releases self.now)) + 1 };

    /// How many verdicts were proposed for it.
    fn proposals_made(&self, team: usize, number: usize) -> usize
        ensures { result ≡ proposals_made team number (proposals self.now) };

    /// The last verdict that was proposed for it, if one was.
    fn last_proposal(&self, team: usize, number: usize) -> Option<&Proposal>
        ensures { option_map (λ p. p.now) result ≡ last_proposal team number (proposals self.now) };
}
