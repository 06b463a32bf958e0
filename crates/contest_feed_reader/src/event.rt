//! An event of a feed, by its own form.
ghost use Rattle.std.specs.Prelude.{◌≡◌, option_map};
ghost use Rattle.serde_json.specs.View.{view};
ghost use Rattle.contest_feed_reader.specs.Events.{body_in, deletes_by, deletes_of, event_in, is_body};
ghost use Rattle.contest_feed_reader.specs.Events.{kind_of, named_id};
ghost use Rattle.contest_feed_reader.specs.ShownEvents.{shown};

use contest_files::{present_in, text_in};
use serde_json::Value;

/// The types of events that are used.
#[derive(Clone, Copy, PartialEq, Eq)]
pub(crate) enum EventKind {
    /// `contest` or, in 2020-03, `contests`.
    Contest,
    /// `judgement-types`.
    JudgementTypes,
    /// `problems`.
    Problems,
    /// `groups`.
    Groups,
    /// `teams`.
    Teams,
    /// `submissions`.
    Submissions,
    /// `judgements`.
    Judgements,
}

/// An event: its type, if that is used, whether it takes away, the id that it names, and its data.
#[derive(Drop)]
pub(crate) struct Event<'v> {
    pub(crate) kind: Option<EventKind>,
    pub(crate) deletes: bool,
    pub(crate) id: Option<&'v str>,
    pub(crate) body: &'v Value,
}

/// The event that a value says, if it is one.
pub(crate) fn event_in(value: &Value) -> Option<Event<'_>>
    ensures { option_map shown result ≡ event_in (view value.now) }
{
    let kind = kind_of(text_in(value, "type")?);
    let deletes = deletes_by(value.get("op"))?;
    let id = named_id(value)?;
    let body = body_in(value)?;
    Some(Event {
        kind,
        deletes: deletes || body.is_null(),
        id,
        body,
    })
}

fn kind_of(name: &str) -> Option<EventKind>
    ensures { result ≡ kind_of name.now }
{
    match name {
        "contest" | "contests" => Some(EventKind::Contest),
        "judgement-types" => Some(EventKind::JudgementTypes),
        "problems" => Some(EventKind::Problems),
        "groups" => Some(EventKind::Groups),
        "teams" => Some(EventKind::Teams),
        "submissions" => Some(EventKind::Submissions),
        "judgements" => Some(EventKind::Judgements),
        _ => None,
    }
}

// Whether `op` takes away, if it is a known one.
fn deletes_by(op: Option<&Value>) -> Option<bool>
    ensures { result ≡ deletes_by (option_map (λ v. view v.now) op.entry) }
{
    match op {
        Some(op) => deletes_of(op.as_str()?),
        None => Some(false),
    }
}

fn deletes_of(op: &str) -> Option<bool>
    ensures { result ≡ deletes_of op.now }
{
    match op {
        "delete" => Some(true),
        "create" | "update" => Some(false),
        _ => None,
    }
}

// The id that an event names, if it names one and that is a text.
fn named_id(value: &Value) -> Option<Option<&str>>
    ensures { option_map (option_map (λ s. s.now)) result ≡ named_id (view value.now) }
{
    match present_in(value, "id") {
        Some(id) => Some(Some(id.as_str()?)),
        None => Some(None),
    }
}

// The data of an event, if they are an object, an array or null.
fn body_in(value: &Value) -> Option<&Value>
    ensures { option_map (λ v. view v.now) result ≡ body_in (view value.now) }
{
    let body = value.get("data")?;
    if is_body(body) { Some(body) } else { None }
}

fn is_body(value: &Value) -> bool
    ensures { result ≡ is_body (view value.now) }
{
    value.is_object() || value.is_array() || value.is_null()
}
