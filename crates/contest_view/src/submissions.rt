//! The submissions that an audience sees: all of them, and one by its id.
ghost use Rattle.std.specs.Prelude.{◌≡◌, ℕ, List, IfOk, true, option_map};
ghost use Rattle.std.specs.Option.{option_and_then};
ghost use Rattle.serde_json.specs.Written.{compact_text};
ghost use Rattle.contest_types.specs.Loads.{loaded_submissions};
ghost use Rattle.contest_types.specs.State.{ContestState};
ghost use Rattle.contest_types.specs.Valid.{is_valid};
ghost use Rattle.contest_view.specs.FileReads.{file_place, place_for};
ghost use Rattle.contest_view.specs.Rows.{if_seen, own_cmp, row_cmp};
ghost use Rattle.contest_view.specs.SeenLists.{Shows};
ghost use Rattle.contest_view.specs.Reads.{named_submission, submissions_data, submission_found};

use crate::named::named_rows;
use crate::seen::Seen;
use contest_objects::{Collection, CollectionObject, Ordered, SubmissionObject, get, list};
use contest_types::{Audience, Fixed, Settings, Submission, knows_all_of, sees_team};
use std::alloc::{AllocError, Global};
use std::cmp::Ordering;

/// Which of two submissions is listed first: by time, team id and number (Contest API 2023-06,
/// submissions).
pub fn compare_submissions(settings: &Settings, first: &Submission, second: &Submission) -> Ordering
    ensures { result ≡ row_cmp settings.now first.now second.now }
{
    match first.time.milliseconds().cmp(&second.time.milliseconds()) {
        Ordering::Equal => compare_own(settings, first, second),
        times => times,
    }
}

// Of two of one time: by team id and number.
fn compare_own(settings: &Settings, first: &Submission, second: &Submission) -> Ordering
    ensures { result ≡ own_cmp settings.now first.now second.now }
{
    let teams = settings
        .team_id(first.team)
        .cmp(settings.team_id(second.team));
    teams.then(first.number.cmp(&second.number))
}

/// Submissions as an audience is served them.
#[derive(Clone, Copy)]
pub(crate) struct Submissions<'a> {
    pub seen: &'a Seen<'a>,
}

impl<'a> Collection for Submissions<'a> {
    ghost use Rattle.std.specs.Prelude.{codes};
    ghost use Rattle.contest_view.specs.Rows.{row_item};

    type Row = Submission;

    ghost item = { λ c. row_item c.seen.now.lists.now.fixed c.seen.now.audience };

    ghost name = { codes "submissions" };

    fn object<'r>(&'r self, row: &'r Submission) -> Option<CollectionObject<'r>> {
        let fixed = self.seen.lists.fixed();
        if !sees_team(self.seen.audience, &fixed.settings, row.team) {
            return None;
        }
        let object = SubmissionObject {
            fixed,
            audience: self.seen.audience,
            submission: row,
        };
        Some(CollectionObject::Submission(object))
    }
}

impl<'a> Ordered for Submissions<'a> {
    ghost use Rattle.contest_view.specs.Rows.{row_cmp, row_total};

    ghost cmp = { λ c. row_cmp c.seen.now.lists.now.fixed.settings };

    fn compare(&self, first: &Submission, second: &Submission) -> Ordering {
        compare_submissions(&self.seen.lists.fixed().settings, first, second)
    }

    ghost total = { λ c. row_total c.seen.now.lists.now.fixed.settings };
}

/// The text of the array of the submissions that an audience sees, by time, team id and number (Contest API
/// 2023-06, submissions).
///
/// # Errors
///
/// Want of memory alone.
pub fn submissions_text(alloc: Global, seen: &Seen<'_>) -> Result<Vec<u8>, AllocError>
    ensures { (x : ContestState) → Shows seen.entry.now x → IfOk result (λ text. text.items ≡ compact_text (submissions_data seen.entry.now.audience seen.entry.now.now x)) }
{
    let rows = seen.lists.submissions();
    let text = list(alloc, &Submissions { seen }, rows)?;
    Ok(text)
}

/// The text of the submission with an id, if the audience sees it: one that it doesn't see is as one that isn't
/// there. It is as quick whatever was submitted.
///
/// # Errors
///
/// Want of memory alone.
pub fn submission_by_id(
    alloc: Global,
    seen: &Seen<'_>,
    id: &[u8],
) -> Result<Option<Vec<u8>>, AllocError>
    ensures { (x : ContestState) → Shows seen.entry.now x → IfOk result (λ found. option_map (λ text. text.items) found ≡ option_map compact_text (submission_found seen.entry.now.audience seen.entry.now.now x id.now)) }
{
    let rows = named_rows(seen.lists, id);
    let found = get(alloc, &Submissions { seen }, rows, id)?;
    Ok(found)
}

/// Whose file an audience reads by an id: by the place of the team, from 0, and the submission's
/// number, from 1. None where it doesn't see the one with the id, or isn't shown its program. It
/// takes no memory.
pub fn file_place(
    fixed: &Fixed,
    audience: Audience,
    named: Option<&Submission>,
) -> Option<(usize, usize)>
    ensures { (x : ContestState) (id : List ℕ) → is_valid x ≡ true → x.fixed ≡ fixed.now → named_submission id (loaded_submissions x) ≡ option_map (λ s. s.now) named.entry
        → result ≡ file_place audience fixed.now (loaded_submissions x) id }
{
    place_for(audience, if_seen(fixed, audience, named))
}

// The team and the number of a submission, for who is shown its program.
fn place_for(audience: Audience, submission: Option<&Submission>) -> Option<(usize, usize)>
    ensures { result ≡ option_and_then (place_for audience) (option_map (λ s. s.now) submission.entry) }
{
    let submission = submission?;
    if knows_all_of(audience, submission.team) {
        Some((submission.team, submission.number))
    } else {
        None
    }
}

// The submission, if the audience sees it.
fn if_seen<'a>(
    fixed: &Fixed,
    audience: Audience,
    submission: Option<&'a Submission>,
) -> Option<&'a Submission>
    ensures { option_map (λ s. s.now) result ≡ if_seen audience fixed.now (option_map (λ s. s.now) submission.entry) }
{
    let submission = submission?;
    if sees_team(audience, &fixed.settings, submission.team) {
        Some(submission)
    } else {
        None
    }
}
