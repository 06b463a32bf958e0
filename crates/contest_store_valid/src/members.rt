//! Whether the members of rejudgings name what is there, and are told apart.
ghost use Rattle.std.specs.Prelude.{◌≡◌, ◌++◌, ◌∷◌, [], IfOk, OnOk, map};
ghost use Rattle.std.specs.List.{list_all};
ghost use Rattle.contest_types.specs.ValidRejudgings.{has_release, is_valid_member, is_valid_state};
ghost use Rattle.contest_types.specs.ValidRejudgings.{are_different_members, open_members};
ghost use Rattle.contest_types.specs.declared.rejudging.Member.{Member as TheMember};
ghost use Rattle.contest_types.specs.declared.rejudging.Rejudging.{Rejudging as TheRejudging};
ghost use Rattle.contest_store_valid.specs.Members.{all_members, pair_of_member};

use crate::accounts::Accounts;
use crate::numbering::are_at_most;
use crate::releases::pairs_of;
use crate::standing::all_stand;
use contest_lists::Lists;
use contest_types::{Fixed, Member, MemberState, Rejudging, RejudgingState};
use std::alloc::{AllocError, Global};

/// Whether each member of a rejudging has a release, and the judgement type and the account of its
/// state are there.
///
/// # Errors
///
/// Want of memory alone.
pub(crate) fn are_valid_members(alloc: Global, lists: &Lists) -> Result<bool, AllocError>
    ensures { IfOk result (λ answer. answer ≡ list_all (λ (r : TheRejudging). list_all (is_valid_member lists.now) r.members) lists.now.rejudgings) }
{
    let released = have_releases(alloc, lists)?;
    let stated = have_states(alloc, lists)?;
    Ok(released && stated)
}

fn have_releases(alloc: Global, lists: &Lists) -> Result<bool, AllocError>
    ensures { IfOk result (λ answer. answer ≡ list_all (λ (r : TheRejudging). list_all (λ (m : TheMember). has_release lists.now m.team m.number) r.members) lists.now.rejudgings) }
{
    let standing = pairs_of(alloc, lists.releases())?;
    let named = pairs_of_members(alloc, lists.rejudgings())?;
    all_stand(alloc, &standing, &named)
}

fn have_states(alloc: Global, lists: &Lists) -> Result<bool, AllocError>
    ensures { IfOk result (λ answer. answer ≡ list_all (λ (r : TheRejudging). list_all (λ (m : TheMember). is_valid_state lists.now.fixed m.state) r.members) lists.now.rejudgings) }
{
    let fixed = lists.fixed();
    let accounts = Accounts::new(alloc, fixed.accounts.as_slice())?;
    Ok(are_in_valid_states(fixed, &accounts, lists.rejudgings()))
}

fn are_in_valid_states(fixed: &Fixed, accounts: &Accounts<'_>, rejudgings: &[Rejudging]) -> bool
    requires { accounts.now ≡ fixed.now.accounts }
    ensures { result ≡ list_all (λ (r : TheRejudging). list_all (λ (m : TheMember). is_valid_state fixed.now m.state) r.members) rejudgings.now }
{
    for rejudging in rejudgings {
        if !have_valid_states(fixed, accounts, rejudging.members.as_slice()) {
            return false;
        }
    }
    true
}

fn have_valid_states(fixed: &Fixed, accounts: &Accounts<'_>, members: &[Member]) -> bool
    requires { accounts.now ≡ fixed.now.accounts }
    ensures { result ≡ list_all (λ (m : TheMember). is_valid_state fixed.now m.state) members.now }
{
    for member in members {
        if !is_valid_state(fixed, accounts, &member.state) {
            return false;
        }
    }
    true
}

fn is_valid_state(fixed: &Fixed, accounts: &Accounts<'_>, state: &MemberState) -> bool
    requires { accounts.now ≡ fixed.now.accounts }
    ensures { result ≡ is_valid_state fixed.now state.now }
{
    let types = fixed.settings.judgement_types().len();
    match state {
        MemberState::Empty => true,
        MemberState::Proposed { verdict, account } => *verdict < types && accounts.has(account),
        MemberState::Ready(verdict) => *verdict < types,
    }
}

/// Whether no submission is a member twice.
///
/// # Errors
///
/// Want of memory alone.
pub(crate) fn are_different(alloc: Global, members: &[Member]) -> Result<bool, AllocError>
    ensures { IfOk result (λ answer. answer ≡ are_different_members members.now) }
{
    let mut pairs = Vec::new(alloc);
    push_pairs(&mut pairs, members)?;
    are_at_most(alloc, 1, &pairs)
}

/// Whether no submission is a member of two open rejudgings.
///
/// # Errors
///
/// Want of memory alone.
pub(crate) fn share_no_member(alloc: Global, rejudgings: &[Rejudging]) -> Result<bool, AllocError>
    ensures { IfOk result (λ answer. answer ≡ are_different_members (open_members rejudgings.now)) }
{
    let pairs = pairs_of_open_members(alloc, rejudgings)?;
    are_at_most(alloc, 1, &pairs)
}

fn pairs_of_members(
    alloc: Global,
    rejudgings: &[Rejudging],
) -> Result<Vec<(usize, usize)>, AllocError>
    ensures { IfOk result (λ pairs. pairs.items ≡ map pair_of_member (all_members rejudgings.now)) }
{
    let mut pairs = Vec::new(alloc);
    for rejudging in rejudgings {
        push_pairs(&mut pairs, rejudging.members.as_slice())?;
    }
    Ok(pairs)
}

fn pairs_of_open_members(
    alloc: Global,
    rejudgings: &[Rejudging],
) -> Result<Vec<(usize, usize)>, AllocError>
    ensures { IfOk result (λ pairs. pairs.items ≡ map pair_of_member (open_members rejudgings.now)) }
{
    let mut pairs = Vec::new(alloc);
    for rejudging in rejudgings {
        push_open_pairs(&mut pairs, rejudging)?;
    }
    Ok(pairs)
}

fn push_open_pairs(pairs: &mut Vec<(usize, usize)>, rejudging: &Rejudging) -> Result<(), AllocError>
    ensures { OnOk result (pairs.new.items ≡ pairs.old.items ++ map pair_of_member (open_members (rejudging.now ∷ []))) }
{
    match rejudging.state {
        RejudgingState::Open => push_pairs(pairs, rejudging.members.as_slice()),
        RejudgingState::Applied | RejudgingState::Cancelled => Ok(()),
    }
}

// The submissions that the members are.
fn push_pairs(pairs: &mut Vec<(usize, usize)>, members: &[Member]) -> Result<(), AllocError>
    ensures { OnOk result (pairs.new.items ≡ pairs.old.items ++ map pair_of_member members.now) }
{
    for member in members {
        pairs.push((member.team, member.number))?;
    }
    Ok(())
}
