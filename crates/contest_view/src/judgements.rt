//! The judgements that an audience sees: all of them, and one by its id.
ghost use Rattle.std.specs.Prelude.{◌≡◌, ℕ, IfOk, option_map};
ghost use Rattle.serde_json.specs.Written.{compact_text};
ghost use Rattle.contest_types.specs.Masks.{verdict_under};
ghost use Rattle.contest_types.specs.Sight.{judgement_of};
ghost use Rattle.contest_types.specs.State.{ContestState, of_release};
ghost use Rattle.contest_lists.specs.RowsOn.{last_row};
ghost use Rattle.contest_view.specs.SeenLists.{Shows};
ghost use Rattle.contest_view.specs.Judgements.{judgement_found, judgements_data, seen_of};

use crate::{Seen, compare_submissions};
use contest_objects::{Collection, CollectionObject, JudgementObject, Ordered, get, list};
use contest_types::{Fixed, Mask, Moment, Release, Submission, is_frozen, mask_for, sees_team};
use std::alloc::{AllocError, Global};
use std::cmp::Ordering;

/// Judgements as an audience is served them: of each submission the one that it sees.
#[derive(Clone, Copy)]
pub(crate) struct Judgements<'a> {
    pub seen: &'a Seen<'a>,
}

impl<'a> Judgements<'a> {
    // The release that is seen on a submission.
    fn release(&self, submission: &Submission) -> Option<&Release>
        ensures { option_map (λ r. judgement_of r.now) result ≡ seen_of self.entry.now.seen.now.audience self.entry.now.seen.now.now self.entry.now.seen.now.lists.now.fixed
            (last_row of_release self.entry.now.seen.now.lists.now.releases) submission.now }
    {
        let (lists, audience) = (self.seen.lists, self.seen.audience);
        let fixed = lists.fixed();
        let (team, number) = (submission.team, submission.number);
        if !sees_team(audience, &fixed.settings, team) {
            return None;
        }
        let mask = mask_for(audience, &fixed.marks, self.seen.now, team);
        let release = lists.last_release(team, number);
        under_mask(mask, fixed, submission.time, release)
    }
}

impl<'a> Collection for Judgements<'a> {
    ghost use Rattle.std.specs.Prelude.{codes};
    ghost use Rattle.contest_types.specs.State.{of_release};
    ghost use Rattle.contest_lists.specs.RowsOn.{last_row};
    ghost use Rattle.contest_view.specs.Judgements.{judgement_row};

    type Row = Submission;

    ghost item = { λ c. judgement_row c.seen.now.audience c.seen.now.now c.seen.now.lists.now.fixed (last_row of_release c.seen.now.lists.now.releases) };

    ghost name = { codes "judgements" };

    fn object<'r>(&'r self, row: &'r Submission) -> Option<CollectionObject<'r>> {
        let object = JudgementObject {
            fixed: self.seen.lists.fixed(),
            team: row.team,
            number: row.number,
            release: self.release(row)?,
        };
        Some(CollectionObject::Judgement(object))
    }
}

impl<'a> Ordered for Judgements<'a> {
    ghost use Rattle.contest_view.specs.Rows.{row_cmp, row_total};

    ghost cmp = { λ c. row_cmp c.seen.now.lists.now.fixed.settings };

    fn compare(&self, first: &Submission, second: &Submission) -> Ordering {
        compare_submissions(&self.seen.lists.fixed().settings, first, second)
    }

    ghost total = { λ c. row_total c.seen.now.lists.now.fixed.settings };
}

/// The text of the array of the judgements that an audience sees, one for each submission, in the order of the
/// submissions (Contest API 2023-06, judgements).
///
/// # Errors
///
/// Want of memory alone.
pub fn judgements_text(alloc: Global, seen: &Seen<'_>) -> Result<Vec<u8>, AllocError>
    ensures { (x : ContestState) → Shows seen.entry.now x → IfOk result (λ text. text.items ≡ compact_text (judgements_data seen.entry.now.audience seen.entry.now.now x)) }
{
    let rows = seen.lists.submissions();
    let text = list(alloc, &Judgements { seen }, rows)?;
    Ok(text)
}

/// The text of the judgement with an id, if the audience sees one that has it: one that it doesn't see, or that
/// isn't the last of its submission, is as one that isn't there. The id is compared as a text.
///
/// # Errors
///
/// Want of memory alone.
pub fn judgement_by_id(
    alloc: Global,
    seen: &Seen<'_>,
    id: &[u8],
) -> Result<Option<Vec<u8>>, AllocError>
    ensures { (x : ContestState) → Shows seen.entry.now x → IfOk result (λ found. option_map (λ text. text.items) found ≡ option_map compact_text (judgement_found seen.entry.now.audience seen.entry.now.now x id.now)) }
{
    let rows = seen.lists.submissions();
    let found = get(alloc, &Judgements { seen }, rows, id)?;
    Ok(found)
}

// A release on a submission of this time, unless the mask holds it back.
fn under_mask<'v>(
    mask: Mask,
    fixed: &Fixed,
    time: Moment,
    release: Option<&'v Release>,
) -> Option<&'v Release>
    ensures { option_map (λ r. judgement_of r.now) result ≡ verdict_under mask fixed.now.settings fixed.now.marks time (option_map (λ r. judgement_of r.now) release.entry) }
{
    match mask {
        Mask::Full => release,
        Mask::Held => {
            if is_frozen(&fixed.settings, &fixed.marks, time) {
                None
            } else {
                release
            }
        }
    }
}
