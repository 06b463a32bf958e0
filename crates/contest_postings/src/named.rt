//! What a verdict and a rejudging name.
ghost use Rattle.std.specs.Prelude.{◌≡◌, true, map, IfOk};
ghost use Rattle.std.specs.Option.{option_map};
ghost use Rattle.contest_types.specs.State.{ContestState, of_submission};
ghost use Rattle.contest_types.specs.Valid.{is_valid};
ghost use Rattle.contest_rules.specs.Opening.{submissions_named};
ghost use Rattle.contest_rules.specs.Verdicts.{named_verdict};
ghost use Rattle.contest_lists.specs.Lists.{loaded};

use contest_lists::Lists;
use contest_rules::{NamedVerdict, WantedId, WantedVerdict, verdict_on};
use contest_types::Submission;
use contest_view::named_submission;
use std::alloc::{AllocError, Global};

/// What a verdict names; none where the submission or the judgement type isn't there.
pub(crate) fn named_verdict(lists: &Lists, wanted: &WantedVerdict) -> Option<NamedVerdict>
    ensures { (x : ContestState) → is_valid x ≡ true → lists.now ≡ loaded x → result ≡ named_verdict x.fixed x.submissions wanted.now }
{
    let submission = named_submission(lists, wanted.submission.as_bytes());
    verdict_on(lists.fixed(), submission, wanted)
}

/// The submissions with these ids, in their order; none where one of them isn't there, or is no id.
///
/// # Errors
///
/// Want of memory alone.
pub(crate) fn named_submissions<'a>(
    alloc: Global,
    lists: &'a Lists,
    ids: &[WantedId],
) -> Result<Option<Vec<&'a Submission>>, AllocError>
    ensures { (x : ContestState) → is_valid x ≡ true → lists.now ≡ loaded x
        → IfOk result (λ named. option_map (λ refs. map (λ s. of_submission s.now) refs.items) named ≡ submissions_named ids.now x.submissions) }
{
    let mut named = Vec::new(alloc);
    for id in ids {
        match named_submission(lists, id.as_str().as_bytes()) {
            Some(submission) => named.push(submission)?,
            None => return Ok(None),
        }
    }
    Ok(Some(named))
}
