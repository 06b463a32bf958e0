//! A team's own submissions, as far as its next one is decided by them.
ghost use Rattle.std.specs.Prelude.{◌≡◌, true, find, option_map};
ghost use Rattle.contest_types.specs.State.{ContestState, submissions_of};
ghost use Rattle.contest_types.specs.Valid.{is_valid};
ghost use Rattle.contest_types.specs.declared.submission.Submission.{Submission as TheSubmission};
ghost use Rattle.contest_rules.specs.Submitting.{has_key, so_far, standing_under};
ghost use Rattle.contest_lists.specs.Lists.{loaded};
ghost use Rattle.contest_postings.specs.OwnSubmissions.{file_at, bytes_of, keyed_row, with_file};

use contest_lists::Lists;
use contest_rules::{OwnSoFar, Standing, has_key};
use contest_types::{Id, Moment, Rows, Submission};

/// Which row has the key that a team asks with: by the place of its team, from 0, and its number.
pub fn keyed_row(lists: &Lists, team: usize, key: &Option<Id>) -> Option<(usize, usize)>
    ensures { result ≡ keyed_row team key.now lists.now.submissions }
{
    let submission = standing_under(lists, team, key)?;
    Some((team, submission.number))
}

/// The submissions so far of the team at a place, from 0, for one that it posts with a key; the
/// file of the one that has the key comes with it. It takes no memory.
pub fn own_so_far<'a>(
    lists: &'a Lists,
    team: usize,
    key: &Option<Id>,
    file: &'a Option<Rows<u8>>,
) -> OwnSoFar<'a>
    ensures { (x : ContestState) → is_valid x ≡ true → lists.now ≡ loaded x → file.now ≡ file_at x (keyed_row team key.now (loaded x).submissions)
        → result ≡ so_far key.now (submissions_of team x.submissions) }
{
    let count = lists.places_of(team).len();
    OwnSoFar {
        count,
        last: time_of(lists.submission_of(team, count.saturating_sub(1))),
        standing: with_file(standing_under(lists, team, key), file),
    }
}

// The one of the team's that has a key.
fn standing_under<'a>(lists: &'a Lists, team: usize, key: &Option<Id>) -> Option<&'a Submission>
    ensures { option_map (λ s. s.now) result ≡ standing_under key.now (submissions_of team lists.now.submissions) }
{
    match key {
        Some(key) => row_with(lists, team, key),
        None => None,
    }
}

fn row_with<'a>(lists: &'a Lists, team: usize, key: &Id) -> Option<&'a Submission>
    ensures { option_map (λ s. s.now) result ≡ find (has_key key.now) (submissions_of team lists.now.submissions) }
{
    let submissions = lists.submissions();
    for place in lists.places_of(team) {
        let submission = &submissions[*place];
        if has_key(submission, key) {
            return Some(submission);
        }
    }
    None
}

fn time_of(submission: Option<&Submission>) -> Option<Moment>
    ensures { result ≡ option_map (λ (s : TheSubmission). s.time) (option_map (λ s. s.now) submission.entry) }
{
    Some(submission?.time)
}

// A submission, if there is one, with its file.
fn with_file<'a>(
    submission: Option<&'a Submission>,
    file: &'a Option<Rows<u8>>,
) -> Option<Standing<'a>>
    ensures { result ≡ option_map (with_file (bytes_of file.now)) (option_map (λ s. s.now) submission.entry) }
{
    Some(Standing {
        submission: submission?,
        file: bytes_of(file),
    })
}

fn bytes_of(file: &Option<Rows<u8>>) -> &[u8]
    ensures { result.now ≡ bytes_of file.now }
{
    match file {
        Some(file) => file.as_slice(),
        None => &[],
    }
}
