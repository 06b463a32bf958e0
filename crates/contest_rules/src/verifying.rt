//! A judge verifies a verdict that another proposed.
ghost use Rattle.std.specs.Prelude.{◌≡◌};
ghost use Rattle.contest_rules.specs.Verifying.{is_proposer, verify_for, verify_named, verify_of};

use crate::verdicts::{NamedVerdict, first_release};
use crate::{Judged, RuleRefusal};
use contest_types::{Id, Moment, Proposal, Proposer, Release};

/// What becomes of the verdict that the account with this id verifies now (DOMjudge manual,
/// "Judging": verification), of what it names and after the verdicts so far: the release that is
/// added. It takes no memory.
///
/// # Errors
///
/// `UnknownReference` where the submission or the judgement type isn't there; then
/// `AlreadyReleased` where the submission has a release, `NothingToVerify` where nothing was
/// proposed for it, `SameJudge` where this account made the last proposal, and `TypeDiffers` where
/// that one names another type.
pub fn decide_verify<J: Judged>(
    named: Option<NamedVerdict>,
    judged: &J,
    now: Moment,
    account: &Id,
) -> Result<Release, RuleRefusal>
    ensures { result ≡ verify_named named (J.proposals judged.now) (J.releases judged.now) now account.now }
{
    match named {
        Some(named) => verify_for(judged, now, account, named),
        None => Err(RuleRefusal::UnknownReference),
    }
}

// The same, where what is named is known.
fn verify_for<J: Judged>(
    judged: &J,
    now: Moment,
    account: &Id,
    named: NamedVerdict,
) -> Result<Release, RuleRefusal>
    ensures { result ≡ verify_for (J.proposals judged.now) (J.releases judged.now) now account.now named }
{
    if judged.is_released(named.team, named.number) {
        return Err(RuleRefusal::AlreadyReleased);
    }
    match judged.last_proposal(named.team, named.number) {
        Some(proposal) => verify_of(now, account, named, proposal),
        None => Err(RuleRefusal::NothingToVerify),
    }
}

// The same of the last proposal.
fn verify_of(
    now: Moment,
    account: &Id,
    named: NamedVerdict,
    proposal: &Proposal,
) -> Result<Release, RuleRefusal>
    ensures { result ≡ verify_of now account.now named proposal.now }
{
    if is_proposer(account, &proposal.proposer) {
        return Err(RuleRefusal::SameJudge);
    }
    if proposal.verdict != named.verdict {
        return Err(RuleRefusal::TypeDiffers);
    }
    Ok(first_release(now, named))
}

// Whether the account made a proposal.
fn is_proposer(account: &Id, proposer: &Proposer) -> bool
    ensures { result ≡ is_proposer account.now proposer.now }
{
    match proposer {
        Proposer::Account(id) => id == account,
        Proposer::Import => false,
    }
}
