//! A judge proposes a verdict.
ghost use Rattle.std.specs.Prelude.{◌≡◌, ◌⊎◌, ◌++◌, [], ◌∷◌, OnErr, OnOk};
ghost use Rattle.contest_types.specs.declared.entry.Entry.TheVariants.{NewProposal};
ghost use Rattle.contest_rules.specs.Proposing.{entries_of, propose_for, propose_named};
ghost use Rattle.contest_rules.specs.Proposing.{release_at_once};

use crate::verdicts::{NamedVerdict, first_release};
use crate::{Judged, RuleRefusal};
use contest_types::limits::PROPOSALS;
use contest_types::{Entry, Fixed, Id, Moment, Proposal, Proposer, Release, Rows};
use std::alloc::AllocError;

/// What a proposal adds.
#[derive(Drop)]
pub struct NewVerdict {
    /// The proposal.
    pub proposal: Proposal,
    /// The proposal's release, if nobody has to verify the proposal.
    pub release: Option<Release>,
}

impl NewVerdict {
    /// Puts what it adds at the end: the proposal, then its release, if it has one.
    ///
    /// # Errors
    ///
    /// Want of memory alone. The entries are then as before, or have the proposal alone.
    pub fn push_into(self, entries: &mut Rows<Entry>) -> Result<(), AllocError>
        ensures ok { OnOk result (entries.new ≡ entries.old ++ entries_of self) }
        ensures err { OnErr result
            ((entries.new ≡ entries.old) ⊎ (entries.new ≡ entries.old ++ NewProposal self.proposal ∷ [])) }
    {
        entries.push(Entry::NewProposal(self.proposal))?;
        if let Some(release) = self.release {
            entries.push(Entry::NewRelease(release))?;
        }
        Ok(())
    }
}

/// What becomes of the verdict that the account with this id proposes now (DOMjudge manual,
/// "Judging": verification), of what it names and after the verdicts so far. It takes no memory.
///
/// # Errors
///
/// `UnknownReference` where the submission or the judgement type isn't there; then
/// `AlreadyReleased` where the submission has a release; then `TeamLimit` where 1,000 proposals
/// stand for it.
pub fn decide_proposal<J: Judged>(
    fixed: &Fixed,
    named: Option<NamedVerdict>,
    judged: &J,
    now: Moment,
    account: Id,
) -> Result<NewVerdict, RuleRefusal>
    ensures { result ≡ propose_named fixed.now named (J.proposals judged.now) (J.releases judged.now) now account }
{
    match named {
        Some(named) => propose_for(fixed, judged, now, account, named),
        None => Err(RuleRefusal::UnknownReference),
    }
}

// The same, where what is named is known.
fn propose_for<J: Judged>(
    fixed: &Fixed,
    judged: &J,
    now: Moment,
    account: Id,
    named: NamedVerdict,
) -> Result<NewVerdict, RuleRefusal>
    ensures { result ≡ propose_for fixed.now (J.proposals judged.now) (J.releases judged.now) now account named }
{
    let NamedVerdict {
        team,
        number,
        verdict,
    } = named;
    if judged.is_released(team, number) {
        return Err(RuleRefusal::AlreadyReleased);
    }
    if judged.proposals_made(team, number) >= PROPOSALS {
        return Err(RuleRefusal::TeamLimit);
    }
    Ok(NewVerdict {
        proposal: Proposal {
            team,
            number,
            verdict,
            proposer: Proposer::Account(account),
            time: now,
        },
        release: release_at_once(fixed, now, named),
    })
}

/// The first release of a verdict that is proposed now, where nobody has to verify it (own).
pub fn release_at_once(fixed: &Fixed, now: Moment, named: NamedVerdict) -> Option<Release>
    ensures { result ≡ release_at_once fixed.now now named }
{
    if fixed.settings.head().verification {
        return None;
    }
    Some(first_release(now, named))
}
