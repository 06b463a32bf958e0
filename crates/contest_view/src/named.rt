//! The submission, and the rejudging, that an id names.
ghost use Rattle.std.specs.Prelude.{◌≡◌, true, option_map, slice_get};
ghost use Rattle.std.specs.Option.{option_to_list};
ghost use Rattle.contest_types.specs.Loads.{loaded_submissions};
ghost use Rattle.contest_types.specs.State.{ContestState};
ghost use Rattle.contest_types.specs.Valid.{is_valid};
ghost use Rattle.contest_view.specs.Reads.{named_submission};
ghost use Rattle.contest_view.specs.Rejudgings.{named_rejudging};

use contest_lists::Lists;
use contest_objects::{rejudging_number, submission_numbers};
use contest_types::{Rejudging, Submission};

/// The submission with an id, byte for byte, whoever sees it. It is as quick whatever was
/// submitted.
pub fn named_submission<'a>(lists: &'a Lists, id: &[u8]) -> Option<&'a Submission>
    ensures { (x : ContestState) → is_valid x ≡ true → lists.now.submissions ≡ loaded_submissions x
        → named_submission id.now (loaded_submissions x) ≡ option_map (λ s. s.now) result }
{
    let (team, number) = submission_numbers(id)?;
    lists.submission_of(team, number.checked_sub(1)?)
}

/// The submissions among which the one with an id is, if there is one: that one alone.
pub(crate) fn named_rows<'a>(lists: &'a Lists, id: &[u8]) -> &'a [Submission]
    ensures named { (x : ContestState) → is_valid x ≡ true → lists.now.submissions ≡ loaded_submissions x
        → named_submission id.now result.now ≡ named_submission id.now (loaded_submissions x) }
    ensures alone { (x : ContestState) → is_valid x ≡ true → lists.now.submissions ≡ loaded_submissions x
        → result.now ≡ option_to_list (named_submission id.now (loaded_submissions x)) }
{
    match named_submission(lists, id) {
        Some(submission) => std::slice::from_ref(submission),
        None => &[],
    }
}

/// A rejudging, and its number.
#[derive(Clone, Copy)]
pub struct NumberedRejudging<'a> {
    /// The rejudging's number, from 1.
    pub number: usize,
    /// The rejudging.
    pub rejudging: &'a Rejudging,
}

/// The rejudging whose number an id is, in decimal digits without leading zeros. It is as quick
/// whatever was opened.
pub fn named_rejudging<'a>(lists: &'a Lists, id: &[u8]) -> Option<NumberedRejudging<'a>>
    ensures { (x : ContestState) → is_valid x ≡ true → lists.now.rejudgings ≡ x.rejudgings
        → named_rejudging id.now x.rejudgings ≡ option_map (λ r. (r.number, r.rejudging.now)) result }
{
    let number = rejudging_number(id)?;
    let rejudging = rejudging_at(lists, number.checked_sub(1)?)?;
    Some(NumberedRejudging { number, rejudging })
}

fn rejudging_at(lists: &Lists, place: usize) -> Option<&Rejudging>
    ensures { option_map (λ r. r.now) result ≡ slice_get lists.now.rejudgings place }
{
    lists.rejudgings().get(place)
}
