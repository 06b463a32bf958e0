//! Whether the rejudgings of a contest are valid.
ghost use Rattle.std.specs.Prelude.{◌≡◌, ◌&&◌, nat_le, IfOk, length};
ghost use Rattle.std.specs.List.{list_all};
ghost use Rattle.contest_types.specs.ValidRejudgings.{has_valid_rejudgings, are_different_members};
ghost use Rattle.contest_types.specs.declared.rejudging.Rejudging.{Rejudging as TheRejudging};
ghost use Rattle.contest_store_valid.specs.Members.{is_whole};

use crate::members::{are_different, are_valid_members, share_no_member};
use contest_lists::Lists;
use contest_types::Rejudging;
use contest_types::limits::{REJUDGING_MEMBERS, REJUDGINGS};
use std::alloc::{AllocError, Global};

/// Whether each rejudging has no more members than it may, different ones that name what is there,
/// whether no two open ones share a member, and whether they aren't too many.
///
/// # Errors
///
/// Want of memory alone.
#[tactic(auto, using(crate::proofs::MemberLemmas::valid_rejudgings))]
pub(crate) fn has_valid_rejudgings(alloc: Global, lists: &Lists) -> Result<bool, AllocError>
    ensures { IfOk result (λ answer. answer ≡ has_valid_rejudgings lists.now) }
{
    let rejudgings = lists.rejudgings();
    let named = are_valid_members(alloc, lists)?;
    let whole = are_whole(alloc, rejudgings)?;
    let apart = share_no_member(alloc, rejudgings)?;
    let few = rejudgings.len() <= REJUDGINGS;
    Ok(named && whole && apart && few)
}

fn are_whole(alloc: Global, rejudgings: &[Rejudging]) -> Result<bool, AllocError>
    ensures { IfOk result (λ answer. answer ≡ list_all is_whole rejudgings.now) }
{
    for rejudging in rejudgings {
        if !is_whole(alloc, rejudging)? {
            return Ok(false);
        }
    }
    Ok(true)
}

// Whether the members are different ones, and no more than they may be.
fn is_whole(alloc: Global, rejudging: &Rejudging) -> Result<bool, AllocError>
    ensures { IfOk result (λ answer. answer ≡ is_whole rejudging.now) }
{
    let members = rejudging.members.as_slice();
    let different = are_different(alloc, members)?;
    Ok(different && members.len() <= REJUDGING_MEMBERS)
}
