//! Whether the lists of a contest are a valid contest.
ghost use Rattle.std.specs.Prelude.{◌≡◌, ◌&&◌, ◌||◌, ◌==◌, is_some, length, IfOk};
ghost use Rattle.contest_lists.specs.Lists.{loaded};
ghost use Rattle.contest_types.specs.State.{ContestState};
ghost use Rattle.contest_types.specs.Valid.{is_valid};
ghost use Rattle.contest_types.specs.ValidFixed.{has_valid_settings, has_valid_clock};
ghost use Rattle.contest_types.specs.ValidFixed.{has_valid_accounts};
ghost use Rattle.contest_store_valid.specs.Files.{has_small_files};

use crate::clarifications::has_valid_clarifications;
use crate::proposals::has_valid_proposals;
use crate::rejudgings::has_valid_rejudgings;
use crate::releases::has_valid_releases;
use crate::submissions::has_valid_submissions;
use contest_lists::{Lists, is_valid_fixed};
use std::alloc::{AllocError, Global};

/// Whether the lists are a valid contest. A contest whose files were left out, as lists in memory
/// leave them out, is valid where its lists are and none of its files is too large: that is for
/// whoever reads the files.
///
/// # Errors
///
/// Want of memory alone.
pub fn is_valid(alloc: Global, lists: &Lists) -> Result<bool, AllocError>
    ensures lists { IfOk result (λ answer. answer ≡ is_valid lists.now) }
    ensures contest { IfOk result (λ answer. (x : ContestState) → loaded x ≡ lists.now → (answer && has_small_files x) ≡ is_valid x) }
{
    are_all_valid(alloc, lists)
}

fn are_all_valid(alloc: Global, lists: &Lists) -> Result<bool, AllocError>
    ensures { IfOk result (λ answer. answer ≡ is_valid lists.now) }
{
    let fixed = has_valid_fixed(lists);
    let submissions = has_valid_submissions(alloc, lists)?;
    let proposals = has_valid_proposals(alloc, lists)?;
    let releases = has_valid_releases(alloc, lists)?;
    let clarifications = has_valid_clarifications(alloc, lists)?;
    let rejudgings = has_valid_rejudgings(alloc, lists)?;
    Ok(fixed && submissions && proposals && releases && clarifications && rejudgings)
}

// Whether the settings, the clock and the accounts are valid beside the rows.
fn has_valid_fixed(lists: &Lists) -> bool
    ensures { result ≡ (has_valid_settings lists.now && has_valid_clock lists.now && has_valid_accounts lists.now) }
{
    is_valid_fixed(lists.fixed()) && may_have_rows(lists)
}

// Whether the start is set, or nothing needs it.
fn may_have_rows(lists: &Lists) -> bool
    ensures { result ≡ (is_some lists.now.fixed.marks.start || (length lists.now.submissions == 0) && (length lists.now.clarifications == 0)) }
{
    lists.fixed().marks.start.is_some()
        || lists.submissions().is_empty() && lists.clarifications().is_empty()
}
