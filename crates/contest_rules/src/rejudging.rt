//! A judge judges a member of a rejudging again; the jury applies a rejudging, or cancels it.
ghost use Rattle.std.specs.Prelude.{◌≡◌, ◌<◌, length, IfOk, IfSome};
ghost use Rattle.std.specs.List.{filter_map, list_all};
ghost use Rattle.contest_rules.specs.Rejudging.{apply_on, apply_refusal, cancel_on, is_ready};
ghost use Rattle.contest_rules.specs.Rejudging.{member_after, member_at, ready_verdict, rejudge_in};
ghost use Rattle.contest_rules.specs.Rejudging.{rejudge_on, release_of, settles};

use crate::verdicts::NamedVerdict;
use crate::{Judged, RuleRefusal};
use contest_types::{Id, Member, MemberState, Moment, Rejudging, RejudgingState, Release, Rows};
use std::alloc::{AllocError, Global};

/// A member of a rejudging, and the state that it takes.
#[derive(Drop)]
pub struct MemberChange {
    /// The member's place, from 0.
    pub place: usize,
    /// The state that the member takes.
    pub state: MemberState,
}

/// What becomes of a verdict that the account with this id gives to a member of a rejudging, if
/// what the verdict names is there. With verification another account has to give the same before
/// it stands (DOMjudge manual, "Judging": verification).
///
/// # Errors
///
/// `UnknownReference` where the submission or the judgement type isn't there, or the submission is
/// no member; then `RejudgingClosed` where the rejudging is applied or cancelled.
pub fn decide_member(
    verification: bool,
    rejudging: &Rejudging,
    named: Option<NamedVerdict>,
    account: Id,
) -> Result<MemberChange, RuleRefusal>
    ensures { result ≡ rejudge_on verification rejudging.now named account }
{
    match named {
        Some(named) => rejudge_in(verification, rejudging, named, account),
        None => Err(RuleRefusal::UnknownReference),
    }
}

// The same, where what is named is there.
fn rejudge_in(
    verification: bool,
    rejudging: &Rejudging,
    named: NamedVerdict,
    account: Id,
) -> Result<MemberChange, RuleRefusal>
    ensures { result ≡ rejudge_in verification rejudging.now named account }
{
    let members = rejudging.members.as_slice();
    let Some(place) = member_at(members, named.team, named.number) else {
        return Err(RuleRefusal::UnknownReference);
    };
    if rejudging.state != RejudgingState::Open {
        return Err(RuleRefusal::RejudgingClosed);
    }
    let state = member_after(verification, &members[place].state, named.verdict, account);
    Ok(MemberChange { place, state })
}

// Where a submission is among the members.
fn member_at(members: &[Member], team: usize, number: usize) -> Option<usize>
    ensures place { result ≡ member_at team number members.now }
    ensures within { IfSome result (λ at. at < length members.now) }
{
    members
        .iter()
        .position(|member| member.team == team && member.number == number)
}

// What becomes of a member by a verdict.
fn member_after(verification: bool, state: &MemberState, verdict: usize, account: Id) -> MemberState
    ensures { result ≡ member_after verification account verdict state.now }
{
    if !verification || settles(state, verdict, &account) {
        MemberState::Ready(verdict)
    } else {
        MemberState::Proposed { verdict, account }
    }
}

// Whether a verdict stands already, or another account proposed it.
fn settles(state: &MemberState, verdict: usize, account: &Id) -> bool
    ensures { result ≡ settles account.now verdict state.now }
{
    match state {
        MemberState::Empty => false,
        MemberState::Proposed {
            verdict: proposed,
            account: by,
        } => *proposed == verdict && by != account,
        MemberState::Ready(ready) => *ready == verdict,
    }
}

/// The releases of a rejudging that is applied now: one for each member, in their order.
///
/// # Errors
///
/// Want of memory; or `RejudgingClosed` where it is applied or cancelled, then
/// `RejudgingIncomplete` where a member's verdict doesn't stand.
pub fn decide_apply<J: Judged>(
    alloc: Global,
    rejudging: &Rejudging,
    judged: &J,
    now: Moment,
) -> Result<Result<Rows<Release>, RuleRefusal>, AllocError>
    ensures { IfOk result (λ r. r ≡ apply_on (J.releases judged.now) now rejudging.now) }
{
    if let Some(refusal) = apply_refusal(rejudging) {
        return Ok(Err(refusal));
    }
    let next = releases_of(alloc, judged, rejudging.members.as_slice(), now)?;
    Ok(Ok(next))
}

// The next release of each member whose verdict stands.
fn releases_of<J: Judged>(
    alloc: Global,
    judged: &J,
    members: &[Member],
    now: Moment,
) -> Result<Rows<Release>, AllocError>
    ensures { IfOk result (λ next. next ≡ filter_map (release_of (J.releases judged.now) now) members.now) }
{
    let mut next = Rows::new(alloc);
    for member in members {
        if let Some(release) = release_of(judged, member, now) {
            next.push(release)?;
        }
    }
    Ok(next)
}

// The next release of a member, if its verdict stands.
fn release_of<J: Judged>(judged: &J, member: &Member, now: Moment) -> Option<Release>
    ensures { result ≡ release_of (J.releases judged.now) now member.now }
{
    let verdict = ready_verdict(&member.state)?;
    Some(Release {
        team: member.team,
        number: member.number,
        round: judged.next_round(member.team, member.number),
        verdict,
        time: now,
    })
}

// Why a rejudging isn't applied.
fn apply_refusal(rejudging: &Rejudging) -> Option<RuleRefusal>
    ensures { result ≡ apply_refusal rejudging.now }
{
    if rejudging.state != RejudgingState::Open {
        return Some(RuleRefusal::RejudgingClosed);
    }
    if are_ready(rejudging.members.as_slice()) {
        return None;
    }
    Some(RuleRefusal::RejudgingIncomplete)
}

// Whether the verdicts of all members stand.
fn are_ready(members: &[Member]) -> bool
    ensures { result ≡ list_all is_ready members.now }
{
    members.iter().all(is_ready)
}

// Whether a member's verdict stands.
fn is_ready(member: &Member) -> bool
    ensures { result ≡ is_ready member.now }
{
    ready_verdict(&member.state).is_some()
}

// The verdict of a member, once it stands.
fn ready_verdict(state: &MemberState) -> Option<usize>
    ensures { result ≡ ready_verdict state.now }
{
    match state {
        MemberState::Ready(ready) => Some(*ready),
        MemberState::Empty | MemberState::Proposed { .. } => None,
    }
}

/// Whether a rejudging may be cancelled; it releases nothing then.
///
/// # Errors
///
/// `RejudgingClosed` where it is applied or cancelled.
pub fn decide_cancel(rejudging: &Rejudging) -> Result<(), RuleRefusal>
    ensures { result ≡ cancel_on rejudging.now }
{
    match rejudging.state {
        RejudgingState::Open => Ok(()),
        RejudgingState::Applied | RejudgingState::Cancelled => Err(RuleRefusal::RejudgingClosed),
    }
}
