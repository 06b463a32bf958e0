//! Rejudgings as the jury is served them.
ghost use Rattle.std.specs.Prelude.{◌≡◌, OnOk, map, option_map};
ghost use Rattle.std.specs.List.{flat_map};
ghost use Rattle.serde_json.specs.Data.{array, object};
ghost use Rattle.serde_json.specs.View.{items_of};
ghost use Rattle.contest_types.specs.SettingsNames.{type_id_at};
ghost use Rattle.contest_objects.specs.JsonTokens.{Wrote, data_tokens};
ghost use Rattle.contest_objects.specs.RejudgingObjects.{is_ready, member_data, member_parts};
ghost use Rattle.contest_objects.specs.RejudgingObjects.{state_name, verdict_so_far};

use crate::json_text::{Served, begin_array, begin_object, end_array, end_object, write_name};
use crate::members::{Member, write_member, write_object};
use crate::visible_ids::submission_id;
use contest_types::{Member as Rejudged, MemberState, Rejudging, RejudgingState, Settings};
use itoa::Buffer;
use json::Writer;
use std::alloc::AllocError;

/// A rejudging (own): `id`, which is its number, `members`, as they were named, `reason` and
/// `state`. A member has `judgement_type_id`, also where that is only proposed, `ready` and
/// `submission_id`.
#[derive(Clone, Copy)]
pub struct RejudgingObject<'a> {
    /// The contest's settings.
    pub settings: &'a Settings,
    /// The rejudging's number, from 1.
    pub number: usize,
    /// The rejudging.
    pub rejudging: &'a Rejudging,
}

/// What stands in a member.
#[derive(Drop)]
struct MemberParts<'a> {
    judgement_type: Option<&'a str>,
    ready: bool,
    submission: &'a str,
}

impl<'a> Served for RejudgingObject<'a> {
    ghost use Rattle.contest_objects.specs.RejudgingObjects.{rejudging_data};

    ghost value = { λ o. rejudging_data o.settings.now o.number o.rejudging.now };

    fn write(&self, out: &mut Writer) -> Result<(), AllocError> {
        let mut digits = Buffer::new();
        let id = Member::Text(digits.format(self.number));
        let reason = Member::Text(self.rejudging.reason.as_str());
        let state = Member::Text(state_name(self.rejudging.state));
        begin_object(out)?;
        write_member(out, "id", id)?;
        write_name(out, "members")?;
        write_rejudged(out, self.settings, self.rejudging.members.as_slice())?;
        write_member(out, "reason", reason)?;
        write_member(out, "state", state)?;
        end_object(out)
    }
}

// The array of the members.
fn write_rejudged(
    out: &mut Writer,
    settings: &Settings,
    members: &[Rejudged],
) -> Result<(), AllocError>
    ensures { OnOk result (Wrote out.old out.new (data_tokens (array (items_of (map (member_data settings.now) members.now))))) }
{
    begin_array(out)?;
    write_each(out, settings, members)?;
    end_array(out)
}

fn write_each(out: &mut Writer, settings: &Settings, members: &[Rejudged]) -> Result<(), AllocError>
    ensures { OnOk result (Wrote out.old out.new (flat_map (λ m. data_tokens (member_data settings.now m)) members.now)) }
{
    for member in members {
        write_one(out, settings, member)?;
    }
    Ok(())
}

fn write_one(out: &mut Writer, settings: &Settings, member: &Rejudged) -> Result<(), AllocError>
    ensures { OnOk result (Wrote out.old out.new (data_tokens (member_data settings.now member.now))) }
{
    let submission = submission_id(member.team, member.number);
    let parts = MemberParts {
        judgement_type: type_so_far(settings, &member.state),
        ready: is_ready(&member.state),
        submission: submission.as_str(),
    };
    write_parts(out, parts)
}

fn write_parts(out: &mut Writer, parts: MemberParts<'_>) -> Result<(), AllocError>
    ensures { OnOk result (Wrote out.old out.new (data_tokens (object (member_parts (option_map (λ t. t.now) parts.entry.judgement_type) parts.entry.ready parts.entry.submission.now)))) }
{
    write_object(
        out,
        &[
            (
                "judgement_type_id",
                Member::TextOrNull(parts.judgement_type),
            ),
            ("ready", Member::Flag(parts.ready)),
            ("submission_id", Member::Text(parts.submission)),
        ],
    )
}

// The judgement type that a member has so far, also one that is only proposed.
fn type_so_far<'a>(settings: &'a Settings, state: &MemberState) -> Option<&'a str>
    ensures { option_map (λ t. t.now) result ≡ option_map (type_id_at settings.now) (verdict_so_far state.now) }
{
    match state {
        MemberState::Empty => None,
        MemberState::Proposed { verdict, .. } | MemberState::Ready(verdict) => {
            Some(settings.judgement_type_id(*verdict))
        }
    }
}

fn is_ready(state: &MemberState) -> bool
    ensures { result ≡ is_ready state.now }
{
    match state {
        MemberState::Empty | MemberState::Proposed { .. } => false,
        MemberState::Ready(_) => true,
    }
}

fn state_name(state: RejudgingState) -> &'static str
    ensures { result.now ≡ state_name state }
{
    match state {
        RejudgingState::Open => "open",
        RejudgingState::Applied => "applied",
        RejudgingState::Cancelled => "cancelled",
    }
}
