//! The body of a posted clarification.
ghost use Rattle.std.specs.Prelude.{◌≡◌, Some, None, true, IfOk, IfErr, is_some};
ghost use Rattle.std.specs.Option.{option_map};
ghost use Rattle.serde_json.specs.View.{view};
ghost use Rattle.contest_files.specs.Refused.{IsRefused};
ghost use Rattle.contest_requests.specs.ClarificationBodies.{addressee_of, are_all, are_one};
ghost use Rattle.contest_requests.specs.ClarificationBodies.{asked_in, asked_of, clarification_in};
ghost use Rattle.contest_requests.specs.ClarificationBodies.{clarification_of, is_from, message_in};
ghost use Rattle.contest_requests.specs.ClarificationBodies.{receivers_in};

use crate::KeyField;
use crate::submission_body::{is_own, key_in};
use contest_files::{optional_id_in, text_in, value_of};
use contest_rules::{WantedAddressee, WantedClarification};
use contest_types::{Id, Refusal, Text};
use serde_json::Value;
use std::alloc::Global;

/// To whom a posted object goes.
#[derive(Drop)]
pub struct Receivers {
    /// `to_team_id`, if there is one.
    pub team: Option<Id>,
    /// `to_group_id`, if there is one (own).
    pub group: Option<Id>,
}

/// What a posted object says.
#[derive(Drop)]
pub struct ClarificationBody {
    /// `text`.
    pub text: Text,
    /// `problem_id`, if there is one.
    pub problem: Option<Id>,
    /// `reply_to_id`, if there is one.
    pub reply: Option<Id>,
    /// `from_team_id`, if there is one.
    pub from_team: Option<Id>,
    /// To whom it goes.
    pub to: Receivers,
}

/// What the team with this id asks for by a key and a body, or the jury where there is none.
///
/// # Errors
///
/// `Malformed` where the key or the body is off its form; where a team names another, or writes to
/// one or to a group; or where the jury writes for a team, or to a team and a group at once. Else
/// want of memory.
pub fn read_clarification(
    alloc: Global,
    team: Option<&[u8]>,
    key: KeyField,
    body: &[u8],
) -> Result<WantedClarification, Refusal>
    ensures ok { IfOk result (λ w. asked_in (option_map (λ id. id.now) team.entry) key body.now ≡ Some w) }
    ensures err { IfErr result (λ e. IsRefused e (asked_in (option_map (λ id. id.now) team.entry) key body.now)) }
{
    let key = key_in(key)?;
    let clarification = clarification_in(alloc, body)?;
    asked_of(team, key, clarification)
}

fn asked_of(
    team: Option<&[u8]>,
    key: Option<Id>,
    clarification: ClarificationBody,
) -> Result<WantedClarification, Refusal>
    ensures ok { IfOk result (λ w. asked_of (option_map (λ id. id.now) team.entry) key clarification ≡ Some w) }
    ensures err { IfErr result (λ e. (e ≡ Refusal.Malformed) × (asked_of (option_map (λ id. id.now) team.entry) key clarification ≡ None)) }
{
    if !is_from(team, &clarification) {
        return Err(Refusal::Malformed);
    }
    Ok(WantedClarification {
        text: clarification.text,
        problem: clarification.problem,
        to: addressee_of(clarification.to),
        reply: clarification.reply,
        key,
    })
}

// To whom the jury writes: to the team, else to the group, else to all.
fn addressee_of(to: Receivers) -> WantedAddressee
    ensures { result ≡ addressee_of to }
{
    match (to.team, to.group) {
        (Some(team), _) => WantedAddressee::Team(team),
        (None, Some(group)) => WantedAddressee::Group(group),
        (None, None) => WantedAddressee::All,
    }
}

// Whether a team asks for itself and the jury alone; the jury writes for no team, and to a team or
// a group.
fn is_from(team: Option<&[u8]>, clarification: &ClarificationBody) -> bool
    ensures { result ≡ is_from (option_map (λ id. id.now) team.entry) clarification.now }
{
    match team {
        Some(team) => is_own(team, &clarification.from_team) && are_all(&clarification.to),
        None => clarification.from_team.is_none() && are_one(&clarification.to),
    }
}

// Whether neither a team nor a group is named.
fn are_all(to: &Receivers) -> bool
    ensures { result ≡ are_all to.now }
{
    to.team.is_none() && to.group.is_none()
}

// Whether not both are.
fn are_one(to: &Receivers) -> bool
    ensures { result ≡ are_one to.now }
{
    to.team.is_none() || to.group.is_none()
}

fn clarification_in(alloc: Global, body: &[u8]) -> Result<ClarificationBody, Refusal>
    ensures ok { IfOk result (λ c. clarification_in body.now ≡ Some c) }
    ensures err { IfErr result (λ e. IsRefused e (clarification_in body.now)) }
{
    let value = value_of(alloc, body)?;
    clarification_of(alloc, &value)
}

#[tactic(auto, unfolding(crate::specs::ClarificationBodies::clarification_of))]
fn clarification_of(alloc: Global, value: &Value) -> Result<ClarificationBody, Refusal>
    ensures ok { IfOk result (λ c. clarification_of (view value.now) ≡ Some c) }
    ensures err { IfErr result (λ e. IsRefused e (clarification_of (view value.now))) }
{
    let text = message_in(alloc, value)?;
    let problem = optional_id_in(alloc, value, "problem_id")?;
    let reply = optional_id_in(alloc, value, "reply_to_id")?;
    let from_team = optional_id_in(alloc, value, "from_team_id")?;
    let to = receivers_in(alloc, value)?;
    Ok(ClarificationBody {
        text,
        problem,
        reply,
        from_team,
        to,
    })
}

#[tactic(auto, unfolding(crate::specs::ClarificationBodies::receivers_in))]
fn receivers_in(alloc: Global, value: &Value) -> Result<Receivers, Refusal>
    ensures ok { IfOk result (λ to. receivers_in (view value.now) ≡ Some to) }
    ensures err { IfErr result (λ e. IsRefused e (receivers_in (view value.now))) }
{
    let team = optional_id_in(alloc, value, "to_team_id")?;
    let group = optional_id_in(alloc, value, "to_group_id")?;
    Ok(Receivers { team, group })
}

// What it says, if a clarification can say that.
fn message_in(alloc: Global, value: &Value) -> Result<Text, Refusal>
    ensures ok { IfOk result (λ text. message_in (view value.now) ≡ Some text) }
    ensures err { IfErr result (λ e. IsRefused e (message_in (view value.now))) }
    ensures memory { IfErr result (λ e. e ≡ Refusal.Memory → is_some (message_in (view value.now)) ≡ true) }
{
    let Some(text) = text_in(value, "text") else {
        return Err(Refusal::Malformed);
    };
    match Text::parse(alloc, text)? {
        Some(text) => Ok(text),
        None => Err(Refusal::Malformed),
    }
}
