//! A change of each kind, one after the other.
use contest_fixtures::{after, id, name};
use contest_types::{
    Account, Addressee, Clarification, Digest, Entry, Group, JudgementType, Language, Member,
    MemberState, Problem, Proposal, Proposer, Rejudging, RejudgingState, Release, Role, Rows,
    Submission, Team, Text, TimeSpan,
};
use std::alloc::Global;
use std::test::Fail;

/// How many changes there are: one of each kind, and one account more.
pub const CHANGES: usize = 20;

fn only<T: Drop>(alloc: Global, row: T) -> Result<Rows<T>, Fail> {
    let mut rows = Rows::new(alloc);
    rows.push(row)?;
    Ok(rows)
}

fn judgement_type(alloc: Global) -> Result<JudgementType, Fail> {
    let name = name(alloc, "correct")?;
    Ok(JudgementType::new(id(alloc, "AC")?, name, true, false))
}

fn language(alloc: Global) -> Result<Language, Fail> {
    Ok(Language::new(id(alloc, "cpp")?, name(alloc, "C++")?))
}

fn problem(alloc: Global) -> Result<Problem, Fail> {
    let label = name(alloc, "A")?;
    Ok(Problem::new(id(alloc, "a")?, label, name(alloc, "Ants")?, 1))
}

fn group(alloc: Global) -> Result<Group, Fail> {
    Ok(Group::new(id(alloc, "north")?, name(alloc, "North")?))
}

fn team(alloc: Global) -> Result<Team, Fail> {
    let mut team = Team::new(alloc, id(alloc, "t1")?, name(alloc, "One")?);
    team.groups = only(alloc, 0)?;
    Ok(team)
}

fn account(alloc: Global, own_id: &str, role: Role, byte: u8) -> Result<Account, Fail> {
    Ok(Account {
        id: id(alloc, own_id)?,
        role,
        digest: Digest::new([byte; 32]),
    })
}

fn submission(alloc: Global) -> Result<Submission, Fail> {
    let mut submission = Submission::new(alloc, 0, 1, after(1)?, 0, 0);
    submission.file = only(alloc, 65)?;
    submission.key = Some(id(alloc, "key")?);
    Ok(submission)
}

fn proposal(alloc: Global) -> Result<Proposal, Fail> {
    Ok(Proposal {
        team: 0,
        number: 1,
        verdict: 0,
        proposer: Proposer::Account(id(alloc, "j1")?),
        time: after(2)?,
    })
}

fn release() -> Result<Release, Fail> {
    Ok(Release {
        team: 0,
        number: 1,
        round: 1,
        verdict: 0,
        time: after(3)?,
    })
}

fn clarification(alloc: Global) -> Result<Clarification, Fail> {
    Ok(Clarification {
        addressee: Addressee::All,
        number: 1,
        from_jury: true,
        account: id(alloc, "j1")?,
        problem: Some(0),
        reply: None,
        text: Text::parse(alloc, "Welcome")?.ok_or("no text")?,
        time: after(4)?,
        key: None,
    })
}

fn rejudging(alloc: Global) -> Result<Rejudging, Fail> {
    let member = Member {
        team: 0,
        number: 1,
        state: MemberState::Empty,
    };
    Ok(Rejudging {
        reason: name(alloc, "tests")?,
        state: RejudgingState::Open,
        members: only(alloc, member)?,
    })
}

fn span(milliseconds: u64) -> Result<TimeSpan, Fail> {
    Ok(TimeSpan::new(milliseconds).ok_or("no length of time")?)
}

/// The change at a place, from 0; each may be made once those before it are.
pub fn change(alloc: Global, place: usize) -> Result<Entry, Fail> {
    Ok(match place {
        0 => Entry::SetStart(Some(after(0)?)),
        1 => Entry::NewType(judgement_type(alloc)?),
        2 => Entry::NewLanguage(language(alloc)?),
        3 => Entry::NewProblem(problem(alloc)?),
        4 => Entry::NewGroup(group(alloc)?),
        5 => Entry::NewTeam(team(alloc)?),
        6 => Entry::NewAccount(account(alloc, "j1", Role::Judge, 1)?),
        7 => Entry::NewAccount(account(alloc, "a1", Role::Team(0), 2)?),
        8 => Entry::NewSubmission(submission(alloc)?),
        9 => Entry::NewProposal(proposal(alloc)?),
        10 => Entry::NewRelease(release()?),
        11 => Entry::NewClarification(clarification(alloc)?),
        12 => Entry::NewRejudging(rejudging(alloc)?),
        13 => Entry::SetMember(1, 0, MemberState::Ready(0)),
        14 => Entry::SetRejudging(1, RejudgingState::Applied),
        15 => Entry::SetThaw(after(5)?),
        16 => Entry::SetFinalized(after(6)?),
        17 => Entry::SetDuration(span(19_200_000)?, Some(span(4_800_000)?)),
        18 => Entry::SetTeamName(0, name(alloc, "Night Owls")?),
        _ => Entry::SetDigest(id(alloc, "a1")?, Digest::new([3; 32])),
    })
}
