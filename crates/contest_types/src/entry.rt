//! One change of a contest.
use crate::{
    Account, Clarification, Digest, Group, Id, JudgementType, Language, MemberState, Moment, Name,
    Problem, Proposal, Rejudging, RejudgingState, Release, Submission, Team, TimeSpan,
};

/// One change of a contest: everything that a command or an import may add or set.
#[derive(Drop)]
pub enum Entry {
    /// A submission is accepted.
    NewSubmission(Submission),
    /// A verdict is proposed.
    NewProposal(Proposal),
    /// A verdict is released.
    NewRelease(Release),
    /// A clarification is written.
    NewClarification(Clarification),
    /// A rejudging is opened.
    NewRejudging(Rejudging),
    /// The member at a place, from 0, of the rejudging with a number, from 1, comes to this state.
    SetMember(usize, usize, MemberState),
    /// The rejudging with a number, from 1, comes to this state.
    SetRejudging(usize, RejudgingState),
    /// The start is set, or unset.
    SetStart(Option<Moment>),
    /// The thaw is set.
    SetThaw(Moment),
    /// The results are made final.
    SetFinalized(Moment),
    /// The duration is set, and the freeze duration, if there is one.
    SetDuration(TimeSpan, Option<TimeSpan>),
    /// The name of the team at a place, from 0, is set.
    SetTeamName(usize, Name),
    /// The account with an id gets another token: its digest is set.
    SetDigest(Id, Digest),
    /// A judgement type is imported.
    NewType(JudgementType),
    /// A language is imported.
    NewLanguage(Language),
    /// A problem is imported.
    NewProblem(Problem),
    /// A group is imported.
    NewGroup(Group),
    /// A team is imported.
    NewTeam(Team),
    /// An account is imported.
    NewAccount(Account),
}
