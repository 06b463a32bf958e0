//! The verdicts on each submission so far, as a contest's lists have them.
use contest_lists::Lists;
use contest_rules::Judged;
use contest_types::Proposal;

/// The verdicts so far of these lists.
#[derive(Clone, Copy)]
pub struct JudgedSoFar<'a> {
    /// The lists.
    pub lists: &'a Lists,
}

impl Judged for JudgedSoFar<'_> {
    ghost proposals = { λ j. j.lists.now.proposals };

    ghost releases = { λ j. j.lists.now.releases };

    fn is_released(&self, team: usize, number: usize) -> bool {
        self.lists.releases_on(team, number) > 0
    }

    fn next_round(&self, team: usize, number: usize) -> usize {
        self.lists.next_round(team, number)
    }

    fn proposals_made(&self, team: usize, number: usize) -> usize {
        self.lists.proposals_for(team, number)
    }

    fn last_proposal(&self, team: usize, number: usize) -> Option<&Proposal> {
        self.lists.last_proposal(team, number)
    }
}
