//! What the types of rows keep true of their texts and times. Their own calls say it, so each
//! function here makes such calls and does nothing else.
ghost use Rattle.std.specs.Prelude.{◌≡◌, ◌<◌, ◌^◌, IfSome, length};
ghost use Rattle.std.specs.List.{AllByRecursion};
ghost use Rattle.contest_types.specs.IdText.{IsId};
ghost use Rattle.contest_store_reading.specs.Laws.{IsWritableItem, IsWritableMarks};
ghost use Rattle.contest_store_reading.specs.Laws.{IsWritableSetup};
ghost use Rattle.contest_store_changes.specs.Kinds.{AreOfKinds, HasIdIfAny, IsMoment, IsName};
ghost use Rattle.contest_store_changes.specs.Kinds.{IsOfKinds, IsProposerId};

use contest_lists::Lists;
use contest_types::{
    Account, Clarification, Digest, Entry, Group, Id, JudgementType, Language, Marks, Member,
    MemberState, Moment, Name, Problem, Proposal, Proposer, Rejudging, Release, Settings,
    Submission, Team,
};

/// The texts and the times of any lists are of their kinds.
pub fn are_of_kinds(lists: &Lists)
    ensures { AreOfKinds lists.now }
{
    let fixed = lists.fixed();
    settings(&fixed.settings);
    each(fixed.accounts.as_slice());
    marks(fixed.marks);
    each(lists.submissions());
    each(lists.proposals());
    each(lists.releases());
    each(lists.clarifications());
    each(lists.rejudgings());
}

/// The texts and the times of any change are of their kinds.
pub fn is_of_kinds(entry: &Entry)
    ensures { IsOfKinds entry.now }
{
    match entry {
        Entry::NewSubmission(row) => row.of_kinds(),
        Entry::NewProposal(row) => row.of_kinds(),
        Entry::NewRelease(row) => row.of_kinds(),
        Entry::NewClarification(row) => row.of_kinds(),
        Entry::NewRejudging(row) => row.of_kinds(),
        Entry::SetMember(_, _, state) => member_state(state),
        Entry::SetRejudging(_, _) | Entry::SetDuration(_, _) => {}
        Entry::SetStart(start) => moment_if_any(*start),
        Entry::SetThaw(thaw) => moment(*thaw),
        Entry::SetFinalized(finalized) => moment(*finalized),
        Entry::SetTeamName(_, text) => name(text),
        Entry::SetDigest(account, digest) => token(account, digest),
        Entry::NewType(row) => row.of_kinds(),
        Entry::NewLanguage(row) => row.of_kinds(),
        Entry::NewProblem(row) => row.of_kinds(),
        Entry::NewGroup(row) => row.of_kinds(),
        Entry::NewTeam(row) => row.of_kinds(),
        Entry::NewAccount(row) => row.of_kinds(),
    }
}

fn settings(settings: &Settings)
    ensures { IsWritableSetup settings.now }
{
    let head = settings.head();
    item(&head.id, &head.name);
    each(settings.judgement_types());
    each(settings.languages());
    each(settings.groups());
    each(settings.problems());
    each(settings.teams());
}

fn marks(marks: Marks)
    ensures { IsWritableMarks marks }
{
    moment_if_any(marks.start);
    moment_if_any(marks.thaw);
    moment_if_any(marks.finalized);
}

fn each<T: OfKinds>(rows: &[T])
    ensures { AllByRecursion T.kinds rows.now }
{
    for row in rows {
        row.of_kinds();
    }
}

/// A row whose texts and times are of their kinds by its type.
trait OfKinds {
    ghost kinds: { Self → Type 0 };

    /// Does nothing: what it ensures holds of each such row.
    fn of_kinds(&self)
        ensures { kinds self.now };
}

impl OfKinds for Submission {
    ghost use Rattle.contest_store_changes.specs.Kinds.{IsOfKindsSubmission};

    ghost kinds = { IsOfKindsSubmission };

    fn of_kinds(&self) {
        name_if_any(&self.entry_point);
        id_if_any(&self.key);
        moment(self.time);
    }
}

impl OfKinds for Proposal {
    ghost use Rattle.contest_store_changes.specs.Kinds.{IsOfKindsProposal};

    ghost kinds = { IsOfKindsProposal };

    fn of_kinds(&self) {
        proposer(&self.proposer);
        moment(self.time);
    }
}

impl OfKinds for Release {
    ghost use Rattle.contest_store_changes.specs.Kinds.{IsMoment};

    ghost kinds = { λ v. IsMoment v.time };

    fn of_kinds(&self) {
        moment(self.time);
    }
}

impl OfKinds for Clarification {
    ghost use Rattle.contest_store_changes.specs.Kinds.{IsOfKindsClarification};

    ghost kinds = { IsOfKindsClarification };

    fn of_kinds(&self) {
        id(&self.account);
        let _ = self.text.as_str();
        moment(self.time);
        id_if_any(&self.key);
    }
}

impl OfKinds for Rejudging {
    ghost use Rattle.contest_store_changes.specs.Kinds.{IsOfKindsRejudging};

    ghost kinds = { IsOfKindsRejudging };

    fn of_kinds(&self) {
        name(&self.reason);
        each(self.members.as_slice());
    }
}

impl OfKinds for Member {
    ghost use Rattle.contest_store_changes.specs.Kinds.{HasIdIfAny};

    ghost kinds = { λ m. HasIdIfAny m.state };

    fn of_kinds(&self) {
        member_state(&self.state);
    }
}

impl OfKinds for JudgementType {
    ghost use Rattle.contest_store_reading.specs.Laws.{IsWritableItem};

    ghost kinds = { λ t. IsWritableItem t.id t.name };

    fn of_kinds(&self) {
        item(&self.id, &self.name);
    }
}

impl OfKinds for Language {
    ghost use Rattle.contest_store_reading.specs.Laws.{IsWritableItem};

    ghost kinds = { λ l. IsWritableItem l.id l.name };

    fn of_kinds(&self) {
        item(&self.id, &self.name);
    }
}

impl OfKinds for Group {
    ghost use Rattle.contest_store_reading.specs.Laws.{IsWritableItem};

    ghost kinds = { λ g. IsWritableItem g.id g.name };

    fn of_kinds(&self) {
        item(&self.id, &self.name);
    }
}

impl OfKinds for Team {
    ghost use Rattle.contest_store_reading.specs.Laws.{IsWritableItem};

    ghost kinds = { λ t. IsWritableItem t.id t.name };

    fn of_kinds(&self) {
        item(&self.id, &self.name);
    }
}

impl OfKinds for Problem {
    ghost use Rattle.contest_store_reading.specs.Laws.{IsWritableProblem};

    ghost kinds = { IsWritableProblem };

    fn of_kinds(&self) {
        id(&self.id);
        name(&self.name);
        name(&self.label);
        ordinal(self.ordinal);
    }
}

impl OfKinds for Account {
    ghost use Rattle.contest_store_changes.specs.Kinds.{IsOfKindsAccount};

    ghost kinds = { IsOfKindsAccount };

    fn of_kinds(&self) {
        token(&self.id, &self.digest);
    }
}

fn member_state(state: &MemberState)
    ensures { HasIdIfAny state.now }
{
    match state {
        MemberState::Proposed { account, .. } => id(account),
        MemberState::Empty | MemberState::Ready(_) => {}
    }
}

fn proposer(proposer: &Proposer)
    ensures { IsProposerId proposer.now }
{
    match proposer {
        Proposer::Account(account) => id(account),
        Proposer::Import => {}
    }
}

fn token(account: &Id, digest: &Digest)
    ensures { IsId account.now × (length digest.now ≡ 32) }
{
    id(account);
    let _ = digest.as_bytes();
}

fn item(own_id: &Id, own_name: &Name)
    ensures { IsWritableItem own_id.now own_name.now }
{
    id(own_id);
    name(own_name);
}

fn ordinal(ordinal: u16)
    ensures { ordinal < 2 ^ 16 }
{}

fn moment(moment: Moment)
    ensures { IsMoment moment }
{
    let _ = moment.milliseconds();
}

fn moment_if_any(moment_if_any: Option<Moment>)
    ensures { IfSome moment_if_any IsMoment }
{
    match moment_if_any {
        Some(time) => moment(time),
        None => {}
    }
}

fn id(id: &Id)
    ensures { IsId id.now }
{
    let _ = id.as_str();
}

fn id_if_any(id_if_any: &Option<Id>)
    ensures { IfSome id_if_any.now IsId }
{
    match id_if_any {
        Some(text) => id(text),
        None => {}
    }
}

fn name(name: &Name)
    ensures { IsName name.now }
{
    let _ = name.as_str();
}

fn name_if_any(name_if_any: &Option<Name>)
    ensures { IfSome name_if_any.now IsName }
{
    match name_if_any {
        Some(text) => name(text),
        None => {}
    }
}
