//! Which submissions there are, in the order in which they are listed.
ghost use Rattle.std.specs.Prelude.{◌≡◌, true, IfOk, IsPermutation, IsSorted, map};
ghost use Rattle.contest_types.specs.State.{ContestState};
ghost use Rattle.contest_types.specs.Valid.{is_valid};
ghost use Rattle.contest_lists.specs.Lists.{loaded};
ghost use Rattle.contest_view.specs.Rows.{row_cmp};
ghost use Rattle.contest_exports.specs.Walks.{all_in_order, numbers_of};

use contest_lists::Lists;
use contest_objects::refs;
use contest_types::Submission;
use contest_view::compare_submissions;
use std::alloc::{AllocError, Global};

/// Which submission it is: the place of its team, from 0, and its number, from 1.
pub(crate) type Numbers = (usize, usize);

/// The submissions of all teams, by time, team id and number (Contest API 2023-06, submissions).
///
/// # Errors
///
/// Want of memory alone.
pub(crate) fn order_of(alloc: Global, lists: &Lists) -> Result<Vec<Numbers>, AllocError>
    ensures { (x : ContestState) → is_valid x ≡ true → lists.now ≡ loaded x → IfOk result (λ order. order.items ≡ map numbers_of (all_in_order x)) }
{
    let rows = sorted(alloc, lists)?;
    numbers(alloc, &rows)
}

fn sorted<'l>(alloc: Global, lists: &'l Lists) -> Result<Vec<&'l Submission>, AllocError>
    ensures moved { IfOk result (λ rows. IsPermutation lists.now.submissions (map (λ r. r.now) rows.items)) }
    ensures sorted { IfOk result (λ rows. IsSorted (row_cmp lists.now.fixed.settings) (map (λ r. r.now) rows.items)) }
{
    let settings = &lists.fixed().settings;
    let mut rows = refs(alloc, lists.submissions())?;
    rows.sort_unstable_by(|first, second| compare_submissions(settings, *first, *second));
    Ok(rows)
}

fn numbers(alloc: Global, rows: &[&Submission]) -> Result<Vec<Numbers>, AllocError>
    ensures { IfOk result (λ all. all.items ≡ map (λ r. numbers_of r.now) rows.now) }
{
    let mut all = Vec::new(alloc);
    for row in rows {
        all.push((row.team, row.number))?;
    }
    Ok(all)
}
