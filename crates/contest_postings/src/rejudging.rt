//! The jury judges a member of a rejudging, applies the rejudging or cancels it.
ghost use Rattle.std.specs.Prelude.{◌≡◌, true, map, IfOk, if◌then◌else◌};
ghost use Rattle.contest_types.specs.State.{ContestState, changed_at};
ghost use Rattle.contest_types.specs.Valid.{is_valid};
ghost use Rattle.contest_types.specs.declared.entry.Entry.TheVariants.{NewRelease};
ghost use Rattle.contest_types.specs.declared.rejudging.Member.{Member as TheMember};
ghost use Rattle.contest_lists.specs.Lists.{loaded};
ghost use Rattle.contest_rules.specs.Rejudging.{apply_on, cancel_on, rejudge_on};
ghost use Rattle.contest_rules.specs.Verdicts.{named_verdict};
ghost use Rattle.contest_postings.specs.DoneThings.{done_of, ruled_with};
ghost use Rattle.contest_postings.specs.PostRejudgings.{apply_change, cancel_change};
ghost use Rattle.contest_postings.specs.PostRejudgings.{change_entries, change_object};
ghost use Rattle.contest_postings.specs.PostRejudgings.{member_change};

use crate::judged::JudgedSoFar;
use crate::named::named_verdict;
use crate::posting::{Done, Posting};
use contest_lists::{CopyRow, Lists};
use contest_objects::{RejudgingObject, text_of};
use contest_requests::JuryVerdict;
use contest_rules::{MemberChange, RuleRefusal, decide_apply, decide_cancel, decide_member};
use contest_types::{
    Entry, Fixed, Member, MemberState, Moment, Rejudging, RejudgingState, Release, Rows,
};
use contest_view::{NumberedRejudging, named_rejudging};
use std::alloc::{AllocError, Global};

/// What the jury does with a rejudging that is there.
#[derive(Drop)]
pub enum RejudgingStep {
    /// A judge gives a verdict to one of its members.
    Judge(JuryVerdict),
    /// The verdicts of all of its members are released.
    Apply,
    /// It is given up.
    Cancel,
}

/// What the jury does with the rejudging that an id names.
#[derive(Drop)]
pub struct Rejudge<'a> {
    /// The id, as a path has it.
    pub id: &'a [u8],
    /// What it does.
    pub step: RejudgingStep,
}

/// A rejudging after a change, and what the change adds.
#[derive(Drop)]
pub struct RejudgingChange {
    /// The rejudging's number, from 1.
    pub number: usize,
    /// The rejudging, as it is then.
    pub rejudging: Rejudging,
    /// What is added, one after the other.
    pub entries: Rows<Entry>,
}

impl<'a> Posting<'a> for Rejudge<'a> {
    ghost use Rattle.contest_postings.specs.PostRejudgings.{change_entries, change_object};
    ghost use Rattle.contest_postings.specs.PostRejudgings.{rejudging_change};

    type Done = RejudgingChange;

    ghost fits = { λ c x. Unit {0} };

    ghost decide = { λ c now x. rejudging_change now c.id.now c.step x };

    ghost object = { change_object };

    ghost entries = { change_entries };

    fn decide(
        self,
        alloc: Global,
        lists: &'a Lists,
        now: Moment,
    ) -> Result<Result<RejudgingChange, RuleRefusal>, AllocError> {
        let Rejudge { id, step } = self;
        let Some(named) = named_rejudging(lists, id) else {
            return Ok(Err(RuleRefusal::NotFound));
        };
        match step {
            RejudgingStep::Judge(verdict) => judge(alloc, lists, named, verdict),
            RejudgingStep::Apply => apply(alloc, lists, named, now),
            RejudgingStep::Cancel => cancel(alloc, named),
        }
    }

    fn tell(alloc: Global, fixed: &Fixed, done: RejudgingChange) -> Result<Done, AllocError>
        ensures { IfOk result (λ told. told ≡ done_of (change_object fixed.now) change_entries done) }
    {
        let RejudgingChange {
            number,
            rejudging,
            entries,
        } = done;
        let object = RejudgingObject {
            settings: &fixed.settings,
            number,
            rejudging: &rejudging,
        };
        let text = text_of(alloc, &object)?;
        Ok(Done { text, entries })
    }
}

// A judge gives a verdict to a member.
fn judge(
    alloc: Global,
    lists: &Lists,
    named: NumberedRejudging<'_>,
    verdict: JuryVerdict,
) -> Result<Result<RejudgingChange, RuleRefusal>, AllocError>
    ensures { (x : ContestState) → is_valid x ≡ true → lists.now ≡ loaded x
        → IfOk result (λ r. r ≡ ruled_with (member_change named.entry.number named.entry.rejudging.now) (rejudge_on x.fixed.settings.head.verification named.entry.rejudging.now (named_verdict x.fixed x.submissions verdict.wanted) verdict.account)) }
{
    let JuryVerdict { account, wanted } = verdict;
    let on = named_verdict(lists, &wanted);
    let verification = lists.fixed().settings.head().verification;
    match decide_member(verification, named.rejudging, on, account) {
        Ok(change) => Ok(Ok(with_member(alloc, named, change)?)),
        Err(refusal) => Ok(Err(refusal)),
    }
}

// The rejudging with a member in another state.
fn with_member(
    alloc: Global,
    named: NumberedRejudging<'_>,
    change: MemberChange,
) -> Result<RejudgingChange, AllocError>
    ensures { IfOk result (λ done. done ≡ member_change named.entry.number named.entry.rejudging.now change) }
{
    let MemberChange { place, state } = change;
    let NumberedRejudging { number, rejudging } = named;
    let members = members_with(alloc, rejudging.members.as_slice(), place, &state)?;
    let rejudging = Rejudging {
        reason: rejudging.reason.clone()?,
        state: rejudging.state,
        members,
    };
    let mut entries = Rows::new(alloc);
    entries.push(Entry::SetMember(number, place, state))?;
    Ok(RejudgingChange {
        number,
        rejudging,
        entries,
    })
}

// The members, with the one at a place, from 0, in this state.
fn members_with(
    alloc: Global,
    members: &[Member],
    place: usize,
    state: &MemberState,
) -> Result<Rows<Member>, AllocError>
    ensures { IfOk result (λ changed. changed ≡ changed_at 0 place (λ (m : TheMember). record m { state = state.now }) members.now) }
{
    let mut changed = Rows::new(alloc);
    for at in 0..members.len() {
        changed.push(member_with(alloc, &members[at], at == place, state)?)?;
    }
    Ok(changed)
}

// A member, in this state if it is the one that changes.
fn member_with(
    alloc: Global,
    member: &Member,
    changes: bool,
    state: &MemberState,
) -> Result<Member, AllocError>
    ensures { IfOk result (λ m. m ≡ (if changes then record member.now { state = state.now } else member.now)) }
{
    if !changes {
        return member.copied(alloc);
    }
    Ok(Member {
        team: member.team,
        number: member.number,
        state: state.copied(alloc)?,
    })
}

// The verdicts of all members are released.
fn apply(
    alloc: Global,
    lists: &Lists,
    named: NumberedRejudging<'_>,
    now: Moment,
) -> Result<Result<RejudgingChange, RuleRefusal>, AllocError>
    ensures { IfOk result (λ r. r ≡ ruled_with (apply_change named.entry.number named.entry.rejudging.now) (apply_on lists.now.releases now named.entry.rejudging.now)) }
{
    match decide_apply(alloc, named.rejudging, &JudgedSoFar { lists }, now)? {
        Ok(next) => Ok(Ok(with_releases(alloc, named, next.as_slice())?)),
        Err(refusal) => Ok(Err(refusal)),
    }
}

// The rejudging, applied with these releases.
fn with_releases(
    alloc: Global,
    named: NumberedRejudging<'_>,
    releases: &[Release],
) -> Result<RejudgingChange, AllocError>
    ensures { IfOk result (λ done. done ≡ apply_change named.entry.number named.entry.rejudging.now releases.now) }
{
    let mut rejudging = named.rejudging.copied(alloc)?;
    rejudging.state = RejudgingState::Applied;
    let mut entries = release_entries(alloc, releases)?;
    entries.push(Entry::SetRejudging(named.number, RejudgingState::Applied))?;
    Ok(RejudgingChange {
        number: named.number,
        rejudging,
        entries,
    })
}

fn release_entries(alloc: Global, releases: &[Release]) -> Result<Rows<Entry>, AllocError>
    ensures { IfOk result (λ entries. entries ≡ map NewRelease releases.now) }
{
    let mut entries = Rows::new(alloc);
    for release in releases {
        entries.push(Entry::NewRelease(*release))?;
    }
    Ok(entries)
}

// The rejudging is given up.
fn cancel(
    alloc: Global,
    named: NumberedRejudging<'_>,
) -> Result<Result<RejudgingChange, RuleRefusal>, AllocError>
    ensures { IfOk result (λ r. r ≡ ruled_with (λ done. cancel_change named.entry.number named.entry.rejudging.now) (cancel_on named.entry.rejudging.now)) }
{
    match decide_cancel(named.rejudging) {
        Ok(()) => Ok(Ok(given_up(alloc, named)?)),
        Err(refusal) => Ok(Err(refusal)),
    }
}

fn given_up(alloc: Global, named: NumberedRejudging<'_>) -> Result<RejudgingChange, AllocError>
    ensures { IfOk result (λ done. done ≡ cancel_change named.entry.number named.entry.rejudging.now) }
{
    let mut rejudging = named.rejudging.copied(alloc)?;
    rejudging.state = RejudgingState::Cancelled;
    let mut entries = Rows::new(alloc);
    entries.push(Entry::SetRejudging(named.number, RejudgingState::Cancelled))?;
    Ok(RejudgingChange {
        number: named.number,
        rejudging,
        entries,
    })
}
