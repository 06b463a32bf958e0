//! The verdicts that were imported, by submission.
ghost use Rattle.std.specs.Prelude.{◌≡◌, ◌++◌, ◌∷◌, [], List, IfOk, OnOk};
ghost use Rattle.contest_types.specs.ValidRejudgings.{is_released};
ghost use Rattle.contest_types.specs.ValidSubmissions.{is_imported};
ghost use Rattle.contest_types.specs.VerdictAdditions.{first_addition};
ghost use Rattle.contest_types.specs.declared.proposal.Proposal.{Proposal as TheProposal};
ghost use Rattle.contest_import_verdicts.specs.ImportedVerdicts.{AreImported, addition_by};
ghost use Rattle.contest_import_verdicts.specs.ImportedVerdicts.{is_first, value_at};

use contest_lists::Lists;
use contest_types::limits::PROPOSALS;
use contest_types::{Cause, Proposal, Proposer};
use std::alloc::{AllocError, Global};
use std::collections::HashMap;

/// The verdict that was imported for each submission that has one, by the place of the judgement
/// type. Submissions go by the place of the team, from 0, and the number, from 1.
pub(crate) type ImportedVerdicts = HashMap<(usize, usize), usize>;

/// Those of a contest, by one pass over its proposals.
///
/// # Errors
///
/// Want of memory alone.
pub(crate) fn imported_verdicts(
    alloc: Global,
    proposals: &[Proposal],
) -> Result<ImportedVerdicts, AllocError>
    ensures { IfOk result (λ imported. AreImported imported proposals.now) }
{
    let mut imported = HashMap::new(alloc);
    for proposal in proposals {
        take_proposal(&mut imported, proposal)?;
    }
    Ok(imported)
}

/// One more proposal stands.
///
/// # Errors
///
/// Want of memory alone.
pub(crate) fn take_proposal(
    imported: &mut ImportedVerdicts,
    proposal: &Proposal,
) -> Result<(), AllocError>
    ensures { OnOk result ((ps : List TheProposal) → AreImported imported.old ps → AreImported imported.new (ps ++ proposal.now ∷ [])) }
{
    if is_first(imported, proposal) {
        imported.insert((proposal.team, proposal.number), proposal.verdict)?;
    }
    Ok(())
}

// Whether it is the first that is imported for its submission.
fn is_first(imported: &ImportedVerdicts, proposal: &Proposal) -> bool
    ensures { result ≡ is_first (value_at imported.now proposal.now.team proposal.now.number) proposal.now }
{
    is_imported(proposal) && !imported.contains_key(&(proposal.team, proposal.number))
}

fn is_imported(proposal: &Proposal) -> bool
    ensures { result ≡ is_imported proposal.now }
{
    match proposal.proposer {
        Proposer::Import => true,
        Proposer::Account(_) => false,
    }
}

/// Whether an imported verdict is added, whose submission and judgement type are there, after those
/// that were imported so far; where an equal one was it adds nothing. It takes no memory.
///
/// # Errors
///
/// `KeyReused` where one of another type was imported for the submission; else `TableFull` where as
/// many verdicts were proposed for it as there may be, and `AlreadyReleased` where it has a
/// release.
pub(crate) fn addition(
    imported: &ImportedVerdicts,
    lists: &Lists,
    proposal: &Proposal,
) -> Result<bool, Cause>
    ensures { result ≡ addition_by (value_at imported.now proposal.now.team proposal.now.number) lists.now proposal.now }
{
    match imported.get(&(proposal.team, proposal.number)) {
        Some(earlier) => {
            if *earlier == proposal.verdict {
                Ok(false)
            } else {
                Err(Cause::KeyReused)
            }
        }
        None => first_addition(lists, proposal),
    }
}

// What a file adds is imported, so none of it is on the submission yet.
fn first_addition(lists: &Lists, proposal: &Proposal) -> Result<bool, Cause>
    ensures { result ≡ first_addition lists.now proposal.now }
{
    if lists.proposals_for(proposal.team, proposal.number) >= PROPOSALS {
        Err(Cause::TableFull)
    } else if is_released(lists, proposal.team, proposal.number) {
        Err(Cause::AlreadyReleased)
    } else {
        Ok(true)
    }
}

// Whether a submission has a release.
fn is_released(lists: &Lists, team: usize, number: usize) -> bool
    ensures { result ≡ is_released team number lists.now.releases }
{
    lists.releases_on(team, number) > 0
}
