//! The body that changes a contest's clock.
ghost use Rattle.std.specs.Prelude.{◌≡◌, ◌⊎◌, true, Some, Ok, Err, IfOk, IfErr};
ghost use Rattle.std.specs.Option.{option_map};
ghost use Rattle.serde_json.specs.View.{view};
ghost use Rattle.contest_files.specs.Refused.{IsRefused};
ghost use Rattle.contest_requests.specs.ClockBodies.{clock_in, clock_of, is_named, moment_of};
ghost use Rattle.contest_requests.specs.ClockBodies.{posted_clock, start_of, time_of, wanted_of};

use contest_files::value_of;
use contest_rules::WantedClock;
use contest_types::{Id, Moment, Refusal};
use serde_json::Value;
use std::alloc::Global;

/// What a caller asks in a body of the clock of the contest with this id, if it is an
/// administrator.
///
/// # Errors
///
/// `RoleForbids`, then `Malformed` where the body is off its form; else want of memory.
pub fn post_clock(
    alloc: Global,
    is_admin: bool,
    contest: &Id,
    body: &[u8],
) -> Result<WantedClock, Refusal>
    ensures ok { IfOk result (λ w. posted_clock is_admin contest.now body.now ≡ Ok w) }
    ensures err { IfErr result (λ e. (e ≡ Refusal.Memory) ⊎ (posted_clock is_admin contest.now body.now ≡ Err e)) }
    ensures forbids { IfErr result (λ e. e ≡ Refusal.Memory → is_admin ≡ true) }
{
    if !is_admin {
        return Err(Refusal::RoleForbids);
    }
    read_clock(alloc, contest, body)
}

/// What a body asks of the clock of the contest with this id: it has one of `start_time`, a moment
/// or null, and `scoreboard_thaw_time`, a moment, and not both. A member that is null is there. An
/// `id` that is there is the contest's (Contest API 2023-06, contests: PATCH).
///
/// # Errors
///
/// `Malformed` where the body is off its form; else want of memory.
pub fn read_clock(alloc: Global, contest: &Id, body: &[u8]) -> Result<WantedClock, Refusal>
    ensures ok { IfOk result (λ w. clock_in contest.now body.now ≡ Some w) }
    ensures err { IfErr result (λ e. IsRefused e (clock_in contest.now body.now)) }
{
    let value = value_of(alloc, body)?;
    match clock_of(contest, &value) {
        Some(wanted) => Ok(wanted),
        None => Err(Refusal::Malformed),
    }
}

fn clock_of(contest: &Id, value: &Value) -> Option<WantedClock>
    ensures { result ≡ clock_of contest.now (view value.now) }
{
    if !is_named(contest, value.get("id")) {
        return None;
    }
    wanted_of(value.get("start_time"), value.get("scoreboard_thaw_time"))
}

// Whether an id that is there is the contest's.
fn is_named(contest: &Id, id: Option<&Value>) -> bool
    ensures { result ≡ is_named contest.now (option_map (λ v. view v.now) id.entry) }
{
    match id {
        None => true,
        Some(id) => match id.as_str() {
            Some(text) => contest.as_bytes() == text.as_bytes(),
            None => false,
        },
    }
}

// The change that is asked for, where just one of the members is there.
fn wanted_of(start: Option<&Value>, thaw: Option<&Value>) -> Option<WantedClock>
    ensures { result ≡ wanted_of (option_map (λ v. view v.now) start.entry) (option_map (λ v. view v.now) thaw.entry) }
{
    match (start, thaw) {
        (Some(start), None) => Some(WantedClock::Start(start_of(start)?)),
        (None, Some(thaw)) => Some(WantedClock::Thaw(time_of(thaw)?)),
        _ => None,
    }
}

// A moment, or null where the start is unset.
fn start_of(value: &Value) -> Option<Option<Moment>>
    ensures { result ≡ start_of (view value.now) }
{
    if value.is_null() {
        return Some(None);
    }
    let moment = time_of(value)?;
    Some(Some(moment))
}

fn time_of(value: &Value) -> Option<Moment>
    ensures { result ≡ time_of (view value.now) }
{
    moment_of(value.as_str()?)
}

// The moment that a text shows, if it shows one.
fn moment_of(text: &str) -> Option<Moment>
    ensures { result ≡ moment_of text.now }
{
    match Moment::parse(text) {
        Ok(moment) => moment,
        Err(_) => unreachable!(),
    }
}
