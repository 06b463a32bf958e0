//! Objects by their members, and what stands under a name.
ghost use Rattle.std.specs.Prelude.{◌≡◌, OnOk, Some, map, option_map};
ghost use Rattle.std.specs.List.{flat_map};
ghost use Rattle.serde_json.specs.Data.{Data, object, string};
ghost use Rattle.contest_types.specs.MomentText.{moment_text};
ghost use Rattle.contest_types.specs.RelTimeText.{rel_time_text};
ghost use Rattle.contest_objects.specs.JsonTokens.{Wrote, data_tokens, member_tokens};
ghost use Rattle.contest_objects.specs.JsonTokens.{value_tokens};
ghost use Rattle.contest_objects.specs.Members.{id_at, in_order, number_or_null, shown};
ghost use Rattle.contest_objects.specs.Members.{text_or_null};
ghost use Rattle.contest_objects.specs.Objects.{file_array, ids_data};
ghost use Rattle.contest_objects.specs.Times.{contest_time_data, moment_or_null, span_data};
ghost use Rattle.contest_objects.specs.Times.{span_or_null};

use crate::json_text::{
    begin_array, begin_object, end_array, end_object, write_flag, write_name, write_null,
    write_number, write_string,
};
use contest_types::{Moment, RelTime, Settings, TimeSpan, print_reltime, print_time};
use json::Writer;
use std::alloc::AllocError;

/// Whose ids are served.
#[derive(Clone, Copy)]
pub enum IdKind {
    /// Those of groups.
    Group,
    /// Those of teams.
    Team,
}

/// What stands under a name.
#[derive(Clone, Copy)]
pub enum Member<'a> {
    /// A text.
    Text(&'a str),
    /// A text, or null where there is none.
    TextOrNull(Option<&'a str>),
    /// A whole number.
    Number(u64),
    /// A whole number, or null where there is none.
    NumberOrNull(Option<u64>),
    /// True or false.
    Flag(bool),
    /// A length of time.
    Span(&'a TimeSpan),
    /// A length of time, or null where there is none.
    SpanOrNull(&'a Option<TimeSpan>),
    /// A moment.
    Time(&'a Moment),
    /// A moment, or null where there is none.
    TimeOrNull(&'a Option<Moment>),
    /// The time since the start at a moment (Contest API 2023-06, `contest_time`), or null where no
    /// start is set.
    ContestTime(&'a Option<Moment>, &'a Moment),
    /// The array of the one zip file at a path.
    File(&'a str),
    /// The array of the ids of what stands at these places, from 0.
    Ids(&'a Settings, IdKind, &'a [usize]),
    /// Nothing: the object has no such name.
    Absent,
}

/// Writes the object with these members, each with its name.
///
/// # Errors
///
/// Want of memory alone.
pub fn write_object(out: &mut Writer, members: &[(&str, Member<'_>)]) -> Result<(), AllocError>
    ensures { (value : Data) → object (in_order (map (λ m. (m.0.now, shown m.1)) members.now)) ≡ value → OnOk result (Wrote out.old out.new (data_tokens value)) }
{
    begin_object(out)?;
    write_members(out, members)?;
    end_object(out)
}

// These members, each with its name.
fn write_members(out: &mut Writer, members: &[(&str, Member<'_>)]) -> Result<(), AllocError>
    ensures { OnOk result (Wrote out.old out.new (flat_map member_tokens (map (λ m. (m.0.now, shown m.1)) members.now))) }
{
    for (name, member) in members {
        write_member(out, name, *member)?;
    }
    Ok(())
}

/// Writes a name, and what stands under it, if anything.
///
/// # Errors
///
/// Want of memory alone.
#[inline(always)]
pub fn write_member(out: &mut Writer, name: &str, member: Member<'_>) -> Result<(), AllocError>
    ensures { OnOk result (Wrote out.old out.new (member_tokens (name.now, shown member.entry))) }
{
    match member {
        Member::Absent => Ok(()),
        _ => {
            write_name(out, name)?;
            write_value(out, member)
        }
    }
}

// What stands under a name.
#[inline(always)]
fn write_value(out: &mut Writer, member: Member<'_>) -> Result<(), AllocError>
    ensures { OnOk result (Wrote out.old out.new (value_tokens (shown member.entry))) }
{
    match member {
        Member::Text(text) => write_string(out, text),
        Member::TextOrNull(text) => write_text_or_null(out, text),
        Member::Number(number) => write_number(out, number),
        Member::NumberOrNull(number) => write_number_or_null(out, number),
        Member::Flag(flag) => write_flag(out, flag),
        Member::Span(span) => write_span(out, *span),
        Member::SpanOrNull(span) => write_span_or_null(out, *span),
        Member::Time(moment) => write_moment(out, *moment),
        Member::TimeOrNull(moment) => write_moment_or_null(out, *moment),
        Member::ContestTime(start, time) => write_contest_time(out, *start, *time),
        Member::File(href) => write_file(out, href),
        Member::Ids(settings, kind, places) => write_ids(out, settings, kind, places),
        Member::Absent => Ok(()),
    }
}

fn write_text_or_null(out: &mut Writer, text: Option<&str>) -> Result<(), AllocError>
    ensures { OnOk result (Wrote out.old out.new (data_tokens (text_or_null (option_map (λ t. t.now) text.entry)))) }
{
    match text {
        Some(text) => write_string(out, text),
        None => write_null(out),
    }
}

fn write_number_or_null(out: &mut Writer, number: Option<u64>) -> Result<(), AllocError>
    ensures { OnOk result (Wrote out.old out.new (data_tokens (number_or_null number))) }
{
    match number {
        Some(number) => write_number(out, number),
        None => write_null(out),
    }
}

fn write_moment(out: &mut Writer, moment: Moment) -> Result<(), AllocError>
    ensures { OnOk result (Wrote out.old out.new (data_tokens (string (moment_text moment)))) }
{
    let text = print_time(moment);
    match std::str::from_utf8(text.as_slice()) {
        Ok(text) => write_string(out, text),
        Err(_) => unreachable!(),
    }
}

fn write_moment_or_null(out: &mut Writer, moment: Option<Moment>) -> Result<(), AllocError>
    ensures { OnOk result (Wrote out.old out.new (data_tokens (moment_or_null moment))) }
{
    match moment {
        Some(moment) => write_moment(out, moment),
        None => write_null(out),
    }
}

fn write_reltime(out: &mut Writer, time: RelTime) -> Result<(), AllocError>
    ensures { OnOk result (Wrote out.old out.new (data_tokens (string (rel_time_text time)))) }
{
    let mut buffer = [0; 24];
    let length = print_reltime(time, &mut buffer);
    match std::str::from_utf8(&buffer[..length]) {
        Ok(text) => write_string(out, text),
        Err(_) => unreachable!(),
    }
}

fn write_span(out: &mut Writer, span: TimeSpan) -> Result<(), AllocError>
    ensures { OnOk result (Wrote out.old out.new (data_tokens (span_data span))) }
{
    match RelTime::from_milliseconds(span.milliseconds() as i64) {
        Some(time) => write_reltime(out, time),
        None => unreachable!(),
    }
}

fn write_span_or_null(out: &mut Writer, span: Option<TimeSpan>) -> Result<(), AllocError>
    ensures { OnOk result (Wrote out.old out.new (data_tokens (span_or_null span))) }
{
    match span {
        Some(span) => write_span(out, span),
        None => write_null(out),
    }
}

fn write_contest_time(
    out: &mut Writer,
    start: Option<Moment>,
    time: Moment,
) -> Result<(), AllocError>
    ensures { OnOk result (Wrote out.old out.new (data_tokens (contest_time_data start time))) }
{
    match start {
        Some(start) => write_reltime(out, RelTime::between(start, time)),
        None => write_null(out),
    }
}

fn write_file(out: &mut Writer, href: &str) -> Result<(), AllocError>
    ensures { OnOk result (Wrote out.old out.new (data_tokens (file_array href.now))) }
{
    begin_array(out)?;
    begin_object(out)?;
    write_text(out, "href", href)?;
    write_text(out, "mime", "application/zip")?;
    end_object(out)?;
    end_array(out)
}

fn write_text(out: &mut Writer, name: &str, value: &str) -> Result<(), AllocError>
    ensures { OnOk result (Wrote out.old out.new (member_tokens (name.now, Some (string value.now)))) }
{
    write_name(out, name)?;
    write_string(out, value)
}

fn write_ids(
    out: &mut Writer,
    settings: &Settings,
    kind: IdKind,
    places: &[usize],
) -> Result<(), AllocError>
    ensures { OnOk result (Wrote out.old out.new (data_tokens (ids_data (id_at settings.now kind) places.now))) }
{
    begin_array(out)?;
    write_each_id(out, settings, kind, places)?;
    end_array(out)
}

fn write_each_id(
    out: &mut Writer,
    settings: &Settings,
    kind: IdKind,
    places: &[usize],
) -> Result<(), AllocError>
    ensures { OnOk result (Wrote out.old out.new (flat_map (λ place. data_tokens (string (id_at settings.now kind place))) places.now)) }
{
    for place in places {
        write_string(out, id_at(settings, kind, *place))?;
    }
    Ok(())
}

// The id of what stands at a place.
fn id_at(settings: &Settings, kind: IdKind, place: usize) -> &str
    ensures { result.now ≡ id_at settings.now kind place }
{
    match kind {
        IdKind::Group => settings.group_id(place),
        IdKind::Team => settings.team_id(place),
    }
}
