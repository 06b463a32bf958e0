//! What judges propose, as the jury sees it.
ghost use Rattle.std.specs.Prelude.{◌≡◌, ℕ, IfOk, option_map};
ghost use Rattle.serde_json.specs.Written.{compact_text};
ghost use Rattle.contest_types.specs.State.{ContestState, of_proposal, of_release};
ghost use Rattle.contest_lists.specs.RowsOn.{last_row};
ghost use Rattle.contest_view.specs.SeenLists.{Shows};
ghost use Rattle.contest_view.specs.Proposals.{open_of, proposals_data};

use crate::seen::{empty_array, is_jury};
use crate::{Seen, compare_submissions};
use contest_lists::Lists;
use contest_objects::{Collection, CollectionObject, Ordered, ProposalObject, list};
use contest_types::{Proposal, Submission};
use std::alloc::{AllocError, Global};
use std::cmp::Ordering;

/// What stands proposed, of each submission without a release the last proposal.
#[derive(Clone, Copy)]
struct Proposals<'a> {
    lists: &'a Lists,
}

impl<'a> Proposals<'a> {
    fn open(&self, submission: &Submission) -> Option<&Proposal>
        ensures { option_map (λ p. p.now) result ≡ open_of (last_row of_proposal self.entry.now.lists.now.proposals)
            (last_row of_release self.entry.now.lists.now.releases) submission.now }
    {
        let (team, number) = (submission.team, submission.number);
        if self.lists.last_release(team, number).is_some() {
            return None;
        }
        self.lists.last_proposal(team, number)
    }
}

impl<'a> Collection for Proposals<'a> {
    ghost use Rattle.std.specs.Prelude.{codes};
    ghost use Rattle.contest_types.specs.State.{of_proposal, of_release};
    ghost use Rattle.contest_lists.specs.RowsOn.{last_row};
    ghost use Rattle.contest_view.specs.Proposals.{proposal_row};

    type Row = Submission;

    ghost item = { λ c. proposal_row c.lists.now.fixed.settings (last_row of_proposal c.lists.now.proposals) (last_row of_release c.lists.now.releases) };

    ghost name = { codes "proposals" };

    fn object<'r>(&'r self, row: &'r Submission) -> Option<CollectionObject<'r>> {
        let object = ProposalObject {
            settings: &self.lists.fixed().settings,
            proposal: self.open(row)?,
            released: false,
        };
        Some(CollectionObject::Proposal(object))
    }
}

impl<'a> Ordered for Proposals<'a> {
    ghost use Rattle.contest_view.specs.Rows.{row_cmp, row_total};

    ghost cmp = { λ c. row_cmp c.lists.now.fixed.settings };

    fn compare(&self, first: &Submission, second: &Submission) -> Ordering {
        compare_submissions(&self.lists.fixed().settings, first, second)
    }

    ghost total = { λ c. row_total c.lists.now.fixed.settings };
}

/// The text of the array of the proposals that the jury has still to verify: the last one for each submission
/// without a release, in the order of the submissions (own). Who isn't of the jury sees none.
///
/// # Errors
///
/// Want of memory alone.
pub fn proposals_text(alloc: Global, seen: &Seen<'_>) -> Result<Vec<u8>, AllocError>
    ensures { (x : ContestState) → Shows seen.entry.now x → IfOk result (λ text. text.items ≡ compact_text (proposals_data seen.entry.now.audience seen.entry.now.now x)) }
{
    if !is_jury(seen.audience) {
        return empty_array(alloc);
    }
    let lists = seen.lists;
    let rows = lists.submissions();
    let text = list(alloc, &Proposals { lists }, rows)?;
    Ok(text)
}
