//! The jury opens a rejudging.
ghost use Rattle.std.specs.Prelude.{◌≡◌, Some, IfOk, map};
ghost use Rattle.contest_types.specs.State.{of_submission};
ghost use Rattle.contest_rules.specs.Opening.{are_released, is_any_rejudged, member_of, open_named};
ghost use Rattle.contest_rules.specs.Opening.{opening_refusal};

use crate::candidates::{Candidate, candidates_of};
use crate::{Judged, RuleRefusal, WantedId};
use contest_types::limits::REJUDGINGS;
use contest_types::{
    Fixed, Member, MemberState, Name, Rejudging, RejudgingState, Rows, Submission,
};
use std::alloc::{AllocError, Global};

/// What is asked for when a rejudging is opened (DOMjudge manual, "Rejudging").
#[derive(Drop)]
pub struct WantedRejudging {
    /// Why.
    pub reason: Name,
    /// What is given as the ids of the submissions that are judged again, each text once.
    pub submissions: Rows<WantedId>,
}

/// What becomes of a rejudging that is opened for a reason over these submissions, after these
/// verdicts and rejudgings: the rejudging that is added.
///
/// # Errors
///
/// Want of memory; or `NotOpen` once a mark of final results is set, then `RejudgingIncomplete`
/// where a submission has no release, `InRejudging` where one is in an open rejudging, and
/// `TeamLimit` where as many rejudgings stand as there may be.
pub fn decide_opening<J: Judged>(
    alloc: Global,
    fixed: &Fixed,
    named: &[&Submission],
    judged: &J,
    rejudgings: &[Rejudging],
    reason: Name,
) -> Result<Result<Rejudging, RuleRefusal>, AllocError>
    ensures { IfOk result (λ r. r ≡ open_named fixed.now (Some (map (λ s. of_submission s.now) named.now)) (J.releases judged.now) rejudgings.now reason) }
{
    let candidates = candidates_of(alloc, named, judged, rejudgings)?;
    if let Some(refusal) = opening_refusal(fixed, candidates.as_slice(), rejudgings.len()) {
        return Ok(Err(refusal));
    }
    let members = members_of(alloc, candidates.as_slice())?;
    Ok(Ok(Rejudging {
        reason,
        state: RejudgingState::Open,
        members,
    }))
}

// Why none is opened over them.
fn opening_refusal(fixed: &Fixed, candidates: &[Candidate], opened: usize) -> Option<RuleRefusal>
    ensures { result ≡ opening_refusal fixed.now opened candidates.now }
{
    if fixed.marks.finalized.is_some() {
        return Some(RuleRefusal::NotOpen);
    }
    if !are_released(candidates) {
        return Some(RuleRefusal::RejudgingIncomplete);
    }
    if is_any_rejudged(candidates) {
        return Some(RuleRefusal::InRejudging);
    }
    if REJUDGINGS <= opened {
        return Some(RuleRefusal::TeamLimit);
    }
    None
}

// Whether each of them has a release.
fn are_released(candidates: &[Candidate]) -> bool
    ensures { result ≡ are_released candidates.now }
{
    candidates.iter().all(|candidate| candidate.is_released)
}

// Whether one of them is in an open rejudging.
fn is_any_rejudged(candidates: &[Candidate]) -> bool
    ensures { result ≡ is_any_rejudged candidates.now }
{
    candidates.iter().any(|candidate| candidate.is_rejudged)
}

// The members that they become.
fn members_of(alloc: Global, candidates: &[Candidate]) -> Result<Rows<Member>, AllocError>
    ensures { IfOk result (λ members. members ≡ map member_of candidates.now) }
{
    let mut members = Rows::new(alloc);
    for candidate in candidates {
        members.push(candidate.member())?;
    }
    Ok(members)
}
