//! Whether the proposed verdicts of a contest are valid.
ghost use Rattle.std.specs.Prelude.{◌≡◌, nat_le, nat_lt, count_by, filter, IfOk, length, map};
ghost use Rattle.std.specs.List.{list_all};
ghost use Rattle.contest_types.specs.Series.{in_each};
ghost use Rattle.contest_types.specs.State.{of_proposal};
ghost use Rattle.contest_types.specs.ValidSubmissions.{has_submission, has_valid_proposals};
ghost use Rattle.contest_types.specs.ValidSubmissions.{is_valid_proposal, for_one_submission};
ghost use Rattle.contest_types.specs.ValidSubmissions.{is_imported, is_there};
ghost use Rattle.contest_types.specs.declared.proposal.Proposal.{Proposal as TheProposal};
ghost use Rattle.contest_store_valid.specs.Accounts.{has_proposer};
ghost use Rattle.contest_store_valid.specs.Keys.{pair_of};

use crate::accounts::Accounts;
use crate::named::submissions_stand;
use crate::numbering::are_at_most;
use contest_lists::Lists;
use contest_types::limits::PROPOSALS;
use contest_types::{Proposal, Proposer, Settings};
use std::alloc::{AllocError, Global};

/// Whether each proposed verdict is for a submission that stands, of a type and by an account that
/// are there, and whether each submission has no more of them than it may, at most one of them
/// imported.
///
/// # Errors
///
/// Want of memory alone.
#[tactic(auto, using(crate::proofs::ProposalLemmas::valid_proposals))]
pub(crate) fn has_valid_proposals(alloc: Global, lists: &Lists) -> Result<bool, AllocError>
    ensures { IfOk result (λ answer. answer ≡ has_valid_proposals lists.now) }
{
    let alone = are_valid_alone(alloc, lists)?;
    let few = are_few(alloc, lists.proposals())?;
    let imported = are_imported_once(alloc, lists.proposals())?;
    Ok(alone && few && imported)
}

#[tactic(auto, using(crate::proofs::ProposalLemmas::valid_alone))]
fn are_valid_alone(alloc: Global, lists: &Lists) -> Result<bool, AllocError>
    ensures { IfOk result (λ answer. answer ≡ list_all (is_valid_proposal lists.now) lists.now.proposals) }
{
    let standing = are_for_submissions(alloc, lists)?;
    let typed = have_types(&lists.fixed().settings, lists.proposals());
    let proposed = have_proposers(alloc, lists)?;
    Ok(standing && typed && proposed)
}

fn are_for_submissions(alloc: Global, lists: &Lists) -> Result<bool, AllocError>
    ensures { IfOk result (λ answer. answer ≡ list_all (λ (p : TheProposal). has_submission lists.now p.team p.number) lists.now.proposals) }
{
    let named = pairs_of(alloc, lists.proposals())?;
    submissions_stand(alloc, lists, &named)
}

fn have_types(settings: &Settings, proposals: &[Proposal]) -> bool
    ensures { result ≡ list_all (λ (p : TheProposal). nat_lt p.verdict (length settings.now.types)) proposals.now }
{
    let types = settings.judgement_types().len();
    proposals.iter().all(|proposal| proposal.verdict < types)
}

#[tactic(auto, using(crate::proofs::ProposalLemmas::have_proposers))]
fn have_proposers(alloc: Global, lists: &Lists) -> Result<bool, AllocError>
    ensures { IfOk result (λ answer. answer ≡ list_all (λ (p : TheProposal). is_there lists.now.fixed p.proposer) lists.now.proposals) }
{
    let accounts = Accounts::new(alloc, lists.fixed().accounts.as_slice())?;
    Ok(are_proposed(&accounts, lists.proposals()))
}

fn are_proposed(accounts: &Accounts<'_>, proposals: &[Proposal]) -> bool
    ensures { result ≡ list_all (λ (p : TheProposal). has_proposer accounts.now p.proposer) proposals.now }
{
    for proposal in proposals {
        if !has_proposer(accounts, &proposal.proposer) {
            return false;
        }
    }
    true
}

fn has_proposer(accounts: &Accounts<'_>, proposer: &Proposer) -> bool
    ensures { result ≡ has_proposer accounts.now proposer.now }
{
    match proposer {
        Proposer::Account(id) => accounts.has(id),
        Proposer::Import => true,
    }
}

fn are_few(alloc: Global, proposals: &[Proposal]) -> Result<bool, AllocError>
    ensures { IfOk result (λ answer. answer ≡ in_each for_one_submission (λ ps. nat_le (length ps) PROPOSALS) proposals.now) }
{
    let submissions = pairs_of(alloc, proposals)?;
    are_at_most(alloc, PROPOSALS, &submissions)
}

fn are_imported_once(alloc: Global, proposals: &[Proposal]) -> Result<bool, AllocError>
    ensures { IfOk result (λ answer. answer ≡ in_each for_one_submission (λ ps. nat_le (count_by is_imported ps) 1) proposals.now) }
{
    let submissions = pairs_of_imported(alloc, proposals)?;
    are_at_most(alloc, 1, &submissions)
}

// The submissions that the proposals are for.
fn pairs_of(alloc: Global, proposals: &[Proposal]) -> Result<Vec<(usize, usize)>, AllocError>
    ensures { IfOk result (λ pairs. pairs.items ≡ map (λ (p : TheProposal). pair_of (of_proposal p)) proposals.now) }
{
    proposals
        .iter()
        .map(|proposal| (proposal.team, proposal.number))
        .collect(alloc)
}

// The submissions that imported proposals are for.
fn pairs_of_imported(
    alloc: Global,
    proposals: &[Proposal],
) -> Result<Vec<(usize, usize)>, AllocError>
    ensures { IfOk result (λ pairs. pairs.items ≡ map (λ (p : TheProposal). pair_of (of_proposal p)) (filter is_imported proposals.now)) }
{
    proposals
        .iter()
        .filter(|proposal| is_imported(proposal))
        .map(|proposal| (proposal.team, proposal.number))
        .collect(alloc)
}

fn is_imported(proposal: &Proposal) -> bool
    ensures { result ≡ is_imported proposal.now }
{
    match proposal.proposer {
        Proposer::Account(_) => false,
        Proposer::Import => true,
    }
}
