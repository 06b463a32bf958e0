//! Whether the submissions that rows name stand.
ghost use Rattle.std.specs.Prelude.{◌≡◌, IfOk, map};
ghost use Rattle.std.specs.List.{list_all};
ghost use Rattle.contest_types.specs.State.{of_submission};
ghost use Rattle.contest_types.specs.ValidSubmissions.{has_submission};
ghost use Rattle.contest_types.specs.declared.submission.Submission.{Submission as TheSubmission};
ghost use Rattle.contest_store_valid.specs.Keys.{pair_of};

use crate::standing::all_stand;
use contest_lists::Lists;
use contest_types::Submission;
use std::alloc::{AllocError, Global};

/// Whether each team at a place has a submission with the number beside it.
///
/// # Errors
///
/// Want of memory alone.
pub(crate) fn submissions_stand(
    alloc: Global,
    lists: &Lists,
    named: &[(usize, usize)],
) -> Result<bool, AllocError>
    ensures { IfOk result (λ answer. answer ≡ list_all (λ r. has_submission lists.now r.0 r.1) named.now) }
{
    let standing = pairs_of(alloc, lists.submissions())?;
    all_stand(alloc, &standing, named)
}

fn pairs_of(alloc: Global, submissions: &[Submission]) -> Result<Vec<(usize, usize)>, AllocError>
    ensures { IfOk result (λ pairs. pairs.items ≡ map (λ (s : TheSubmission). pair_of (of_submission s)) submissions.now) }
{
    submissions
        .iter()
        .map(|submission| (submission.team, submission.number))
        .collect(alloc)
}
