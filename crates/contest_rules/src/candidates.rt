//! How the submissions stand that are named for a rejudging.
ghost use Rattle.std.specs.Prelude.{◌≡◌, ◌||◌, ℕ, IfOk, map};
ghost use Rattle.std.specs.List.{list_any};
ghost use Rattle.contest_types.specs.State.{names, of_member, of_submission};
ghost use Rattle.contest_rules.specs.Candidates.{candidate_by, is_in, members_if_open};
ghost use Rattle.contest_rules.specs.Opening.{candidate_of, is_rejudged, member_of};

use crate::Judged;
use contest_types::{Member, MemberState, Rejudging, RejudgingState, Rows, Submission};
use std::alloc::{AllocError, Global};
use std::collections::HashSet;

/// A submission that is named for a rejudging, and how it stands.
#[derive(Clone, Copy)]
pub(crate) struct Candidate {
    /// The place of its team, from 0.
    pub team: usize,
    /// Which of the team's submissions it is, from 1.
    pub number: usize,
    /// Whether it has a release.
    pub is_released: bool,
    /// Whether it is in an open rejudging.
    pub is_rejudged: bool,
}

impl Candidate {
    /// A member that waits for its verdict.
    pub fn member(self) -> Member
        ensures { result ≡ member_of self }
    {
        Member {
            team: self.team,
            number: self.number,
            state: MemberState::Empty,
        }
    }
}

/// Submissions, by the place of the team, from 0, and the number, from 1.
type Members = HashSet<(usize, usize)>;

/// How each of these submissions stands, after these verdicts and rejudgings.
///
/// # Errors
///
/// Want of memory alone.
pub(crate) fn candidates_of<J: Judged>(
    alloc: Global,
    named: &[&Submission],
    judged: &J,
    rejudgings: &[Rejudging],
) -> Result<Rows<Candidate>, AllocError>
    ensures { IfOk result (λ candidates. candidates ≡ map (candidate_of (J.releases judged.now) rejudgings.now) (map (λ s. of_submission s.now) named.now)) }
{
    let members = open_members(alloc, rejudgings)?;
    let mut candidates = Rows::new(alloc);
    for submission in named {
        candidates.push(stands(submission, judged, &members))?;
    }
    Ok(candidates)
}

// How a submission stands, by the members of all open rejudgings.
fn stands<J: Judged>(submission: &Submission, judged: &J, members: &Members) -> Candidate
    ensures { result ≡ candidate_by (J.releases judged.now) members.now (of_submission submission.now) }
{
    let (team, number) = (submission.team, submission.number);
    Candidate {
        team,
        number,
        is_released: judged.is_released(team, number),
        is_rejudged: members.contains(&(team, number)),
    }
}

// The members of all open rejudgings.
fn open_members(alloc: Global, rejudgings: &[Rejudging]) -> Result<Members, AllocError>
    ensures { IfOk result (λ members. (team number : ℕ) → is_in members team number ≡ is_rejudged team number rejudgings.now) }
{
    let mut members = HashSet::new(alloc);
    for rejudging in rejudgings {
        let more = with_members(members, members_if_open(rejudging))?;
        members = more;
    }
    Ok(members)
}

// With these members too.
fn with_members(first: Members, members: &[Member]) -> Result<Members, AllocError>
    ensures { IfOk result (λ more. (team number : ℕ) → is_in more team number ≡ (is_in first team number || list_any (λ m. names team number (of_member m)) members.now)) }
{
    let mut more = first;
    for member in members {
        more.insert((member.team, member.number))?;
    }
    Ok(more)
}

// The members of a rejudging that is open; those of another count no more.
fn members_if_open(rejudging: &Rejudging) -> &[Member]
    ensures { result.now ≡ members_if_open rejudging.now }
{
    match rejudging.state {
        RejudgingState::Open => rejudging.members.as_slice(),
        RejudgingState::Applied | RejudgingState::Cancelled => &[],
    }
}
