//! A team asks, and the jury answers or announces.
ghost use Rattle.std.specs.Prelude.{◌≡◌, ◌≤◌, ◌&&◌, find, length};
ghost use Rattle.std.specs.Option.{option_map};
ghost use Rattle.contest_types.specs.State.{clarifications_to};
ghost use Rattle.contest_types.specs.ValidClarifications.{same_scope, scope_of};
ghost use Rattle.contest_rules.specs.Clarifying.{HasAudience, addressee_for, audience_of};
ghost use Rattle.contest_rules.specs.Clarifying.{clarification_on, clarify_on, has_this_key, is_by};
ghost use Rattle.contest_rules.specs.Clarifying.{may_write, most_by, problem_for, said_again};
ghost use Rattle.contest_rules.specs.Clarifying.{said_anew, says_the_same, scope_for, written_by};
ghost use Rattle.contest_rules.specs.Clarifying.{written_under};

use crate::{Decision, RuleRefusal};
use contest_types::limits::{JURY_CLARIFICATIONS, TEAM_REQUESTS};
use contest_types::{
    Addressee, Audience, Clarification, Fixed, Id, Moment, Phase, Reference, Text, phase,
};
use std::marker::Model;

/// Who writes a clarification.
#[derive(Clone, Copy, PartialEq, Eq)]
pub enum Sender {
    /// The team at this place in the settings, from 0.
    Team(usize),
    /// The jury.
    Jury,
}

impl Sender {
    /// What a sender hears it hears as this audience. A contest never has so many teams that a
    /// number doesn't fit.
    pub fn audience(self) -> Audience
        ensures { HasAudience self → result ≡ audience_of self }
    {
        match self {
            Sender::Team(team) => Audience::Team(team.saturating_add(1)),
            Sender::Jury => Audience::Jury,
        }
    }
}

/// To whom the jury writes, as it is asked for. What a team asks goes to the jury, whatever this
/// says.
#[derive(Drop)]
pub enum WantedAddressee {
    /// All.
    All,
    /// The teams of the group with this id.
    Group(Id),
    /// The team with this id.
    Team(Id),
}

/// What is asked for when a clarification is posted (Contest API 2023-06, clarifications).
#[derive(Drop)]
pub struct WantedClarification {
    /// What it says.
    pub text: Text,
    /// The id of the problem that it is about, if it is about one.
    pub problem: Option<Id>,
    /// To whom the jury writes.
    pub to: WantedAddressee,
    /// The id of the clarification that it answers, if it answers one.
    pub reply: Option<Id>,
    /// The idempotency key, if there is one.
    pub key: Option<Id>,
}

/// What it names.
#[derive(Clone, Copy)]
pub struct NamedClarification {
    /// Whose it will be.
    pub addressee: Addressee,
    /// The place of the problem, from 0, if it is about one.
    pub problem: Option<usize>,
    /// The clarification that it answers, if it answers one.
    pub reply: Option<Reference>,
}

/// A clarification that stands for what is asked again under its key.
#[derive(Drop)]
pub struct SaidBefore<'a> {
    /// The clarification.
    pub clarification: &'a Clarification,
}

impl<'a> Model for SaidBefore<'a> {
    ghost use Rattle.contest_types.specs.declared.clarification.Clarification.{Clarification as TheClarification};

    ghost Value = { TheClarification };

    ghost view = { λ s. s.clarification.now };
}

/// What a clarification names, given the clarification that its reply names and that the sender
/// hears; none where the problem, the group, the team or that clarification isn't there.
pub fn clarification_on(
    fixed: &Fixed,
    sender: Sender,
    heard: Option<Reference>,
    wanted: &WantedClarification,
) -> Option<NamedClarification>
    ensures { result ≡ clarification_on fixed.now sender heard wanted.now }
{
    let addressee = addressee_for(fixed, sender, &wanted.to)?;
    let problem = problem_for(fixed, &wanted.problem)?;
    match &wanted.reply {
        None => Some(NamedClarification {
            addressee,
            problem,
            reply: None,
        }),
        Some(_) => {
            let reply = heard?;
            Some(NamedClarification {
                addressee,
                problem,
                reply: Some(reply),
            })
        }
    }
}

// Whose it will be: a team's requests are its own, and the jury writes to a team, to a group or to
// all.
fn addressee_for(fixed: &Fixed, sender: Sender, to: &WantedAddressee) -> Option<Addressee>
    ensures { result ≡ addressee_for fixed.now sender to.now }
{
    match (sender, to) {
        (Sender::Team(team), _) => Some(Addressee::Team(team)),
        (Sender::Jury, WantedAddressee::All) => Some(Addressee::All),
        (Sender::Jury, WantedAddressee::Group(id)) => {
            let group = fixed.settings.group_place(id.as_bytes())?;
            Some(Addressee::Group(group))
        }
        (Sender::Jury, WantedAddressee::Team(id)) => {
            let team = fixed.settings.team_place(id.as_bytes())?;
            Some(Addressee::Team(team))
        }
    }
}

// The place of the problem that it is about, if it is about one; none where that isn't there.
fn problem_for(fixed: &Fixed, problem: &Option<Id>) -> Option<Option<usize>>
    ensures { result ≡ problem_for fixed.now problem.now }
{
    match problem {
        None => Some(None),
        Some(id) => {
            let problem = fixed.settings.problem_place(id.as_bytes())?;
            Some(Some(problem))
        }
    }
}

/// What becomes of a clarification that somebody writes now, of what it names and over the
/// contest's clarifications. It takes no memory.
///
/// # Errors
///
/// `UnknownReference` where a problem, a group, a team or a clarification that it names isn't
/// there, or isn't heard by the sender. A key that stands answers for itself, whatever now is: with
/// equal content its clarification stands, with other content it is refused (`KeyReused`). Keys are
/// told apart by team, whoever of its accounts writes, and by the account of the jury. Then come
/// the clock (`NotOpen`: a team asks while the contest runs, the jury writes from the start on, and
/// nobody once a finalized mark is set) and the limits (`TeamLimit`): 200 requests of a team, and
/// 100,000 of the jury to one addressee.
pub fn decide_clarification<'a>(
    fixed: &Fixed,
    named: Option<NamedClarification>,
    clarifications: &'a [Clarification],
    now: Moment,
    sender: Sender,
    account: Id,
    wanted: WantedClarification,
) -> Result<Decision<Clarification, SaidBefore<'a>>, RuleRefusal>
    ensures { result ≡ clarify_on fixed.now named now sender account clarifications.now wanted }
{
    let Some(named) = named else {
        return Err(RuleRefusal::UnknownReference);
    };
    match written_under(clarifications, sender, &account, &wanted.key) {
        Some(clarification) => said_again(clarification, named, &wanted.text),
        None => said_anew(fixed, now, sender, account, clarifications, named, wanted),
    }
}

// What stands under the key, if it is what is asked for.
fn said_again<'a>(
    clarification: &'a Clarification,
    named: NamedClarification,
    text: &Text,
) -> Result<Decision<Clarification, SaidBefore<'a>>, RuleRefusal>
    ensures { result ≡ said_again clarification.now named text.now }
{
    if says_the_same(clarification, named, text) {
        Ok(Decision::Stands(SaidBefore { clarification }))
    } else {
        Err(RuleRefusal::KeyReused)
    }
}

// What no standing key answers for: the clock is asked, and then how many were written.
fn said_anew<'a>(
    fixed: &Fixed,
    now: Moment,
    sender: Sender,
    account: Id,
    clarifications: &'a [Clarification],
    named: NamedClarification,
    wanted: WantedClarification,
) -> Result<Decision<Clarification, SaidBefore<'a>>, RuleRefusal>
    ensures { result ≡ said_anew fixed.now now sender account clarifications.now named wanted }
{
    if !may_write(fixed, sender, now) {
        return Err(RuleRefusal::NotOpen);
    }
    if written_by(sender, named.addressee, clarifications) >= most_by(sender) {
        return Err(RuleRefusal::TeamLimit);
    }
    Ok(Decision::Add(Clarification {
        addressee: named.addressee,
        number: count_to(named.addressee, clarifications) + 1,
        from_jury: sender == Sender::Jury,
        account,
        problem: named.problem,
        reply: named.reply,
        text: wanted.text,
        time: now,
        key: wanted.key,
    }))
}

// The clarification under a key, of a team's own or of a jury account's own.
fn written_under<'a>(
    clarifications: &'a [Clarification],
    sender: Sender,
    account: &Id,
    key: &Option<Id>,
) -> Option<&'a Clarification>
    ensures { option_map (λ c. c.now) result ≡ written_under (scope_for sender account.now) key.now clarifications.now }
{
    match key {
        None => None,
        Some(key) => under_key(clarifications, sender, account, key),
    }
}

// The same, where there is a key.
fn under_key<'a>(
    clarifications: &'a [Clarification],
    sender: Sender,
    account: &Id,
    key: &Id,
) -> Option<&'a Clarification>
    ensures { option_map (λ c. c.now) result ≡ find (λ c. same_scope (scope_for sender account.now) (scope_of c) && has_this_key key.now c) clarifications.now }
{
    clarifications.iter().find(|one| is_in_scope(one, sender, account) && has_this_key(one, key))
}

// Whether it is one of those among which the sender's keys are looked up.
fn is_in_scope(clarification: &Clarification, sender: Sender, account: &Id) -> bool
    ensures { result ≡ same_scope (scope_for sender account.now) (scope_of clarification.now) }
{
    match sender {
        Sender::Team(team) => {
            !clarification.from_jury && clarification.addressee == Addressee::Team(team)
        }
        Sender::Jury => clarification.from_jury && clarification.account == *account,
    }
}

// Whether a clarification was posted with this idempotency key.
fn has_this_key(clarification: &Clarification, key: &Id) -> bool
    ensures { result ≡ has_this_key key.now clarification.now }
{
    match &clarification.key {
        Some(own) => own == key,
        None => false,
    }
}

// Whether a clarification that stands is what is asked for.
fn says_the_same(clarification: &Clarification, named: NamedClarification, text: &Text) -> bool
    ensures { result ≡ says_the_same clarification.now named text.now }
{
    clarification.problem == named.problem
        && clarification.addressee == named.addressee
        && clarification.reply == named.reply
        && clarification.text.as_str() == text.as_str()
}

// Whether the sender may write now.
fn may_write(fixed: &Fixed, sender: Sender, now: Moment) -> bool
    ensures { result ≡ may_write fixed.now sender now }
{
    let phase = phase(&fixed.marks, &fixed.settings, now);
    let is_open = match sender {
        Sender::Team(_) => phase == Phase::Running,
        Sender::Jury => phase != Phase::Before,
    };
    is_open && fixed.marks.finalized.is_none()
}

// How many clarifications an addressee has.
fn count_to(addressee: Addressee, clarifications: &[Clarification]) -> usize
    ensures count { result ≡ length (clarifications_to addressee clarifications.now) }
    ensures within { result ≤ length clarifications.now }
{
    clarifications
        .iter()
        .filter(|one| one.addressee == addressee)
        .count()
}

// How many the sender's side wrote among an addressee's.
fn written_by(sender: Sender, addressee: Addressee, clarifications: &[Clarification]) -> usize
    ensures { result ≡ written_by sender addressee clarifications.now }
{
    clarifications
        .iter()
        .filter(|one| one.addressee == addressee && is_by(one, sender))
        .count()
}

// Whether it is by the sender's side: a team, or the jury.
fn is_by(clarification: &Clarification, sender: Sender) -> bool
    ensures { result ≡ is_by sender clarification.now }
{
    match sender {
        Sender::Team(_) => !clarification.from_jury,
        Sender::Jury => clarification.from_jury,
    }
}

// As many as there may be.
fn most_by(sender: Sender) -> usize
    ensures { result ≡ most_by sender }
{
    match sender {
        Sender::Team(_) => TEAM_REQUESTS,
        Sender::Jury => JURY_CLARIFICATIONS,
    }
}
