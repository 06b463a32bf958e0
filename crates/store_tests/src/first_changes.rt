//! The changes that may be the first of a contest.
ghost use Rattle.std.specs.Prelude.{IfOk};
ghost use Rattle.store_tests.specs.FirstChanges.{IsBare, MayBeFirst};

use contest_fixtures::{MEDALS, after, id, name, rehearsal_head};
use contest_types::{
    Account, Digest, Entry, Fixed, Group, Id, JudgementType, Language, Marks, MemberState, Name,
    Problem, Rejudging, RejudgingState, Role, Rows, Settings, Team,
};
use std::alloc::Global;
use std::rc::Rc;
use std::test::Fail;

/// A contest in which nothing stands.
pub fn bare(alloc: Global) -> Result<Rc<Fixed>, Fail>
    ensures { IfOk result (λ f. IsBare f.value) }
{
    let settings = Settings::new(alloc, rehearsal_head(alloc, MEDALS)?)?;
    let fixed = Fixed {
        settings,
        accounts: Rows::new(alloc),
        marks: Marks {
            start: None,
            thaw: None,
            finalized: None,
        },
    };
    Ok(Rc::new(alloc, fixed)?)
}

/// The first change of the kind at a place: each may be made while nothing stands.
pub fn first_change(alloc: Global, kind: usize) -> Result<Entry, Fail>
    ensures { IfOk result (λ e. MayBeFirst e) }
{
    match kind {
        0 => Ok(Entry::SetStart(None)),
        1 => Ok(Entry::SetThaw(after(0)?)),
        2 => Ok(Entry::SetFinalized(after(0)?)),
        3 => Ok(Entry::SetMember(1, 0, MemberState::Empty)),
        4 => Ok(Entry::SetRejudging(1, RejudgingState::Applied)),
        kind => first_row(alloc, kind, id(alloc, "x")?, name(alloc, "X")?),
    }
}

#[tactic(auto, using(crate::proofs::FirstLemmas::first_type, crate::proofs::FirstLemmas::first_language, crate::proofs::FirstLemmas::first_group, crate::proofs::FirstLemmas::first_team, crate::proofs::FirstLemmas::first_rejudging))]
fn first_row(alloc: Global, kind: usize, id: Id, name: Name) -> Result<Entry, Fail>
    ensures { IfOk result (λ e. MayBeFirst e) }
{
    match kind {
        5 => Ok(Entry::NewType(JudgementType::new(id, name, true, false))),
        6 => Ok(Entry::NewLanguage(Language::new(id, name))),
        7 => Ok(Entry::NewGroup(Group::new(id, name))),
        8 => Ok(Entry::NewTeam(Team::new(alloc, id, name))),
        9 => Ok(Entry::NewRejudging(Rejudging {
            reason: name,
            state: RejudgingState::Applied,
            members: Rows::new(alloc),
        })),
        10 => first_problem(id, name),
        _ => first_judge(id),
    }
}

#[tactic(auto, using(crate::proofs::FirstLemmas::first_problem))]
fn first_problem(id: Id, name: Name) -> Result<Entry, Fail>
    ensures { IfOk result (λ e. MayBeFirst e) }
{
    Ok(Entry::NewProblem(Problem::new(id, name.clone()?, name, 1)))
}

#[tactic(auto, using(crate::proofs::FirstLemmas::first_judge))]
fn first_judge(id: Id) -> Result<Entry, Fail>
    ensures { IfOk result (λ e. MayBeFirst e) }
{
    if id.as_bytes() == b"import".as_slice() {
        return Err(Fail::from("reserved"));
    }
    Ok(Entry::NewAccount(Account {
        id,
        role: Role::Judge,
        digest: Digest::new([0; 32]),
    }))
}
