//! Clarifications as they are served.
ghost use Rattle.std.specs.Prelude.{◌≡◌, OnOk, option_map};
ghost use Rattle.std.specs.Option.{option_and_then};
ghost use Rattle.serde_json.specs.Data.{object, string};
ghost use Rattle.contest_types.specs.ProblemPlaces.{problem_id_at};
ghost use Rattle.contest_types.specs.Sight.{heard_reference};
ghost use Rattle.contest_objects.specs.ClarificationObjects.{clarification_members, group_of};
ghost use Rattle.contest_objects.specs.ClarificationObjects.{receiver, reference_id, team_of};
ghost use Rattle.contest_objects.specs.ClarificationObjects.{writer};
ghost use Rattle.contest_objects.specs.JsonTokens.{Wrote, data_tokens};
ghost use Rattle.contest_objects.specs.Members.{shown};

use crate::json_text::Served;
use crate::members::{Member, write_object};
use crate::visible_ids::clarification_id;
use arrayvec::ArrayString;
use contest_types::{
    Addressee, Audience, Clarification, Fixed, Moment, Reference, Settings, hears,
};
use json::Writer;
use std::alloc::AllocError;

/// A clarification that an audience hears (Contest API 2023-06, clarification object):
/// `contest_time`, `from_team_id`, `id`, `problem_id`, `reply_to_id`, `text`, `time` and
/// `to_team_id`; where it goes to a group also `to_group_id` (own).
#[derive(Clone, Copy)]
pub struct ClarificationObject<'a> {
    /// The contest's settings and marks.
    pub fixed: &'a Fixed,
    /// Who hears it.
    pub audience: Audience,
    /// The clarification.
    pub clarification: &'a Clarification,
}

/// What stands in a clarification's members.
#[derive(Drop)]
struct Members<'a> {
    from: Option<&'a str>,
    id: &'a str,
    problem: Option<&'a str>,
    reply: Option<&'a str>,
    group: Option<&'a str>,
    start: &'a Option<Moment>,
    text: &'a str,
    time: &'a Moment,
    to: Option<&'a str>,
}

impl<'a> Served for ClarificationObject<'a> {
    ghost use Rattle.contest_types.specs.Sight.{seen_clarification};
    ghost use Rattle.contest_objects.specs.ClarificationObjects.{clarification_data};

    ghost value = { λ o. clarification_data o.fixed.now (seen_clarification o.audience o.fixed.now.settings o.clarification.now) };

    fn write(&self, out: &mut Writer) -> Result<(), AllocError> {
        let (settings, one) = (&self.fixed.settings, self.clarification);
        let id = clarification_id(one.addressee, one.number);
        let reply = reply_id(self.audience, settings, &one.reply);
        let members = Members {
            from: writer(settings, one.addressee, one.from_jury),
            id: id.as_str(),
            problem: problem_of(settings, one.problem),
            reply: text_of(&reply),
            group: group_of(settings, one.addressee),
            start: &self.fixed.marks.start,
            text: one.text.as_str(),
            time: &one.time,
            to: receiver(settings, one.addressee, one.from_jury),
        };
        write_clarification(out, members)
    }
}

// The object with these members.
fn write_clarification(out: &mut Writer, members: Members<'_>) -> Result<(), AllocError>
    ensures { OnOk result (Wrote out.old out.new (data_tokens (object (clarification_members members.entry.start.now (option_map (λ t. t.now) members.entry.from) members.entry.id.now
        (option_map (λ t. t.now) members.entry.problem) (option_map (λ t. t.now) members.entry.reply) members.entry.text.now members.entry.time.now (option_map (λ t. t.now) members.entry.group) (option_map (λ t. t.now) members.entry.to))))) }
{
    write_object(
        out,
        &[
            (
                "contest_time",
                Member::ContestTime(members.start, members.time),
            ),
            ("from_team_id", Member::TextOrNull(members.from)),
            ("id", Member::Text(members.id)),
            ("problem_id", Member::TextOrNull(members.problem)),
            ("reply_to_id", Member::TextOrNull(members.reply)),
            ("text", Member::Text(members.text)),
            ("time", Member::Time(members.time)),
            ("to_group_id", text_where(members.group)),
            ("to_team_id", Member::TextOrNull(members.to)),
        ],
    )
}

fn writer(settings: &Settings, addressee: Addressee, from_jury: bool) -> Option<&str>
    ensures { option_map (λ t. t.now) result ≡ writer settings.now addressee from_jury }
{
    if from_jury {
        None
    } else {
        team_of(settings, addressee)
    }
}

fn receiver(settings: &Settings, addressee: Addressee, from_jury: bool) -> Option<&str>
    ensures { option_map (λ t. t.now) result ≡ receiver settings.now addressee from_jury }
{
    if from_jury {
        team_of(settings, addressee)
    } else {
        None
    }
}

fn team_of(settings: &Settings, addressee: Addressee) -> Option<&str>
    ensures { option_map (λ t. t.now) result ≡ team_of settings.now addressee }
{
    match addressee {
        Addressee::All | Addressee::Group(_) => None,
        Addressee::Team(team) => Some(settings.team_id(team)),
    }
}

fn group_of(settings: &Settings, addressee: Addressee) -> Option<&str>
    ensures { option_map (λ t. t.now) result ≡ group_of settings.now addressee }
{
    match addressee {
        Addressee::Group(group) => Some(settings.group_id(group)),
        Addressee::All | Addressee::Team(_) => None,
    }
}

// A text, where there is one.
fn text_where(text: Option<&str>) -> Member<'_>
    ensures { shown result ≡ option_map string (option_map (λ t. t.now) text.entry) }
{
    match text {
        Some(text) => Member::Text(text),
        None => Member::Absent,
    }
}

fn problem_of(settings: &Settings, problem: Option<usize>) -> Option<&str>
    ensures { option_map (λ t. t.now) result ≡ option_map (problem_id_at settings.now.problems) problem }
{
    match problem {
        Some(problem) => Some(settings.problem_id(problem)),
        None => None,
    }
}

// The id of the clarification that is answered, where that one is heard too.
fn reply_id(
    audience: Audience,
    settings: &Settings,
    reply: &Option<Reference>,
) -> Option<ArrayString<160>>
    ensures { option_map (λ id. id.bytes) result ≡ option_map reference_id (option_and_then (heard_reference audience settings.now) reply.now) }
{
    match reply {
        Some(reply) if hears(audience, settings, reply.addressee) => {
            Some(clarification_id(reply.addressee, reply.number))
        }
        _ => None,
    }
}

fn text_of(id: &Option<ArrayString<160>>) -> Option<&str>
    ensures { option_map (λ t. t.now) result ≡ option_map (λ id. id.bytes) id.now }
{
    match id {
        Some(id) => Some(id.as_str()),
        None => None,
    }
}
