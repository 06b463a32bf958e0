//! The members of a contest object.
ghost use Rattle.std.specs.Prelude.{◌≡◌, ℕ, Option, true, IfOk, IfErr, codes, option_and_then};
ghost use Rattle.serde_json.specs.Find.{as_str};
ghost use Rattle.serde_json.specs.View.{view};
ghost use Rattle.contest_types.specs.declared.limits.TheConstants.{MEDAL_PLACES};
ghost use Rattle.contest_files.specs.FieldTexts.{span_of};
ghost use Rattle.contest_files.specs.JsonMembers.{number_or, number_to, optional, or_usual};
ghost use Rattle.contest_files.specs.JsonMembers.{present_in, text_in};
ghost use Rattle.contest_import.specs.ContestFile.{SaysStart, freeze_of, is_pass_fail, medals_of};
ghost use Rattle.contest_import.specs.ContestFile.{penalty_of, start_in, usual_medals};
ghost use Rattle.contest_import.specs.ContestFile.{whole_minutes};

use contest_files::{present_in, text_in, time_span};
use contest_types::limits::{MEDAL_PLACES, PENALTY_MINUTES};
use contest_types::{Medals, Moment, Refusal, TimeSpan};
use serde_json::Value;

/// Minutes for each penalised attempt, where a file says none.
const USUAL_PENALTY: u32 = 20;

/// How many ranks win each kind of medal, where a file says none.
const USUAL_PLACES: u32 = 4;

/// The milliseconds of a minute.
const MINUTE: u64 = 60_000;

/// How long the contest runs, a relative time.
pub fn duration_in(value: &Value) -> Option<TimeSpan>
    ensures { result ≡ option_and_then span_of (text_in (codes "duration") (view value.now)) }
{
    time_span(text_in(value, "duration")?.as_bytes())
}

/// How long before the end the scoreboard freezes, a relative time; never, where it isn't there.
pub fn freeze_in(value: &Value) -> Option<Option<TimeSpan>>
    ensures { result ≡ optional freeze_of (present_in (codes "scoreboard_freeze_duration") (view value.now)) }
{
    match present_in(value, "scoreboard_freeze_duration") {
        Some(member) => Some(Some(span(member)?)),
        None => Some(None),
    }
}

/// Whether the scoreboard is of the one kind that there is, where its kind is said.
pub(crate) fn scored_in(value: &Value) -> Option<bool>
    ensures { result ≡ or_usual true is_pass_fail (present_in (codes "scoreboard_type") (view value.now)) }
{
    match present_in(value, "scoreboard_type") {
        Some(member) => is_pass_fail(member),
        None => Some(true),
    }
}

fn is_pass_fail(member: &Value) -> Option<bool>
    ensures { result ≡ is_pass_fail (view member.now) }
{
    let text = member.as_str()?;
    if text.as_bytes() == b"pass-fail".as_slice() {
        Some(true)
    } else {
        None
    }
}

/// Minutes for each penalised attempt.
pub fn penalty_in(value: &Value) -> Option<u32>
    ensures { result ≡ or_usual 20 penalty_of (present_in (codes "penalty_time") (view value.now)) }
{
    match present_in(value, "penalty_time") {
        Some(member) => penalty(member),
        None => Some(USUAL_PENALTY),
    }
}

// Minutes, as a number or as a relative time.
fn penalty(member: &Value) -> Option<u32>
    ensures { result ≡ penalty_of (view member.now) }
{
    if member.is_number() {
        number_within(member, PENALTY_MINUTES)
    } else {
        whole_minutes(span(member)?)
    }
}

// A relative time of whole minutes, as their number.
fn whole_minutes(time: TimeSpan) -> Option<u32>
    ensures { result ≡ whole_minutes time }
{
    let milliseconds = time.milliseconds();
    if milliseconds % MINUTE == 0 {
        Some((milliseconds / MINUTE) as u32)
    } else {
        None
    }
}

// A relative time that isn't below zero.
fn span(member: &Value) -> Option<TimeSpan>
    ensures { result ≡ option_and_then span_of (as_str (view member.now)) }
{
    time_span(member.as_str()?.as_bytes())
}

/// How many ranks win each kind of medal.
pub(crate) fn medals_in(value: &Value) -> Option<Medals>
    ensures { result ≡ or_usual usual_medals medals_of (present_in (codes "medals") (view value.now)) }
{
    match present_in(value, "medals") {
        Some(member) => medals(member),
        None => Some(Medals {
            gold: USUAL_PLACES,
            silver: USUAL_PLACES,
            bronze: USUAL_PLACES,
        }),
    }
}

fn medals(member: &Value) -> Option<Medals>
    ensures { result ≡ medals_of (view member.now) }
{
    if !member.is_object() {
        return None;
    }
    Some(Medals {
        gold: places_in(member, "gold")?,
        silver: places_in(member, "silver")?,
        bronze: places_in(member, "bronze")?,
    })
}

fn places_in(member: &Value, name: &str) -> Option<u32>
    ensures { result ≡ number_or 4 MEDAL_PLACES name.now (view member.now) }
{
    match present_in(member, name) {
        Some(places) => number_within(places, MEDAL_PLACES),
        None => Some(USUAL_PLACES),
    }
}

// A whole number up to a limit, if a value is one.
fn number_within(value: &Value, most: u32) -> Option<u32>
    ensures { result ≡ number_to most (view value.now) }
{
    let number = value.as_u64()?;
    if number <= most as u64 {
        Some(number as u32)
    } else {
        None
    }
}

/// The start of the contest; unset, where it isn't there.
///
/// # Errors
///
/// `Malformed` where the member is there and shows no moment.
pub(crate) fn start_in(value: &Value) -> Result<Option<Moment>, Refusal>
    ensures ok { IfOk result (λ start. SaysStart (start_in (view value.now)) start) }
    ensures err { IfErr result (λ e. (e ≡ Refusal.Malformed) × ((start : Option ℕ) → SaysStart (start_in (view value.now)) start → ⊥)) }
{
    let Some(member) = present_in(value, "start_time") else {
        return Ok(None);
    };
    let Some(text) = member.as_str() else {
        return Err(Refusal::Malformed);
    };
    match Moment::parse(text)? {
        Some(moment) => Ok(Some(moment)),
        None => Err(Refusal::Malformed),
    }
}
