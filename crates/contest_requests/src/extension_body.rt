//! The body that asks for an extension.
ghost use Rattle.std.specs.Prelude.{◌≡◌, Some, IfOk, IfErr};
ghost use Rattle.std.specs.Option.{option_map};
ghost use Rattle.serde_json.specs.View.{view};
ghost use Rattle.contest_types.specs.Setup.{has_valid_freeze};
ghost use Rattle.contest_files.specs.Refused.{IsRefused};
ghost use Rattle.contest_requests.specs.ExtensionBodies.{extension_in, extension_said, freeze_said};
ghost use Rattle.contest_requests.specs.ExtensionBodies.{has_limits, span_in};

use contest_files::{time_span, value_of};
use contest_rules::WantedExtension;
use contest_types::limits::LONGEST_CONTEST;
use contest_types::{Refusal, TimeSpan};
use serde_json::Value;
use std::alloc::Global;

/// The extension that a body asks for: `duration`, over zero and at most 1000 hours, and, if it is
/// given, `scoreboard_freeze_duration`, at most the duration. A freeze duration that is null is off
/// the form (Contest API 2023-06, RELTIME; POST is own).
///
/// # Errors
///
/// `Malformed` where the body is off its form or its limits; else want of memory.
pub fn read_extension(alloc: Global, body: &[u8]) -> Result<WantedExtension, Refusal>
    ensures ok { IfOk result (λ w. extension_in body.now ≡ Some w) }
    ensures err { IfErr result (λ e. IsRefused e (extension_in body.now)) }
{
    let value = value_of(alloc, body)?;
    match extension_said(&value) {
        Some(wanted) if has_limits(&wanted) => Ok(wanted),
        _ => Err(Refusal::Malformed),
    }
}

fn extension_said(value: &Value) -> Option<WantedExtension>
    ensures { result ≡ extension_said (view value.now) }
{
    let duration = span_in(value.get("duration")?)?;
    let freeze = freeze_said(value.get("scoreboard_freeze_duration"))?;
    Some(WantedExtension { duration, freeze })
}

fn freeze_said(member: Option<&Value>) -> Option<Option<TimeSpan>>
    ensures { result ≡ freeze_said (option_map (λ v. view v.now) member.entry) }
{
    match member {
        Some(member) => Some(Some(span_in(member)?)),
        None => Some(None),
    }
}

// A relative time that isn't below zero.
fn span_in(member: &Value) -> Option<TimeSpan>
    ensures { result ≡ span_in (view member.now) }
{
    time_span(member.as_str()?.as_bytes())
}

fn has_limits(wanted: &WantedExtension) -> bool
    ensures { result ≡ has_limits wanted.now }
{
    let duration = wanted.duration.milliseconds();
    0 < duration && duration <= LONGEST_CONTEST && has_valid_freeze(wanted.freeze, duration)
}

fn has_valid_freeze(freeze: Option<TimeSpan>, duration: u64) -> bool
    ensures { result ≡ has_valid_freeze freeze duration }
{
    match freeze {
        None => true,
        Some(freeze) => freeze.milliseconds() <= duration,
    }
}
