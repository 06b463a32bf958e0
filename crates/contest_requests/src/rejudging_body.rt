//! The body of a posted rejudging.
ghost use Rattle.std.specs.Prelude.{◌≡◌, ◌⊎◌, Some, Ok, Err, true, is_some, IfOk, IfErr, codes};
ghost use Rattle.std.specs.Option.{option_map};
ghost use Rattle.serde_json.specs.View.{view};
ghost use Rattle.contest_files.specs.JsonMembers.{name_in};
ghost use Rattle.contest_files.specs.Refused.{IsRefused};
ghost use Rattle.contest_requests.specs.RejudgingBodies.{may_be_members, posted_rejudging};
ghost use Rattle.contest_requests.specs.RejudgingBodies.{rejudging_in, rejudging_of};
ghost use Rattle.contest_requests.specs.RejudgingBodies.{submissions_in};

use crate::wanted_ids::{are_different, texts_in};
use contest_files::{name_in, value_of};
use contest_rules::{WantedId, WantedRejudging};
use contest_types::limits::REJUDGING_MEMBERS;
use contest_types::{Id, Name, Refusal, Rows};
use serde_json::Value;
use std::alloc::{AllocError, Global};

/// The rejudging that a caller posts in a body, if it holds the account of a judge or an
/// administrator.
///
/// # Errors
///
/// `RoleForbids`, then `Malformed` where the body is off its form; else want of memory.
pub fn post_rejudging(
    alloc: Global,
    judge: Option<&Id>,
    body: &[u8],
) -> Result<WantedRejudging, Refusal>
    ensures ok { IfOk result (λ w. posted_rejudging (option_map (λ id. id.now) judge.entry) body.now ≡ Ok w) }
    ensures err { IfErr result (λ e. (e ≡ Refusal.Memory) ⊎ (posted_rejudging (option_map (λ id. id.now) judge.entry) body.now ≡ Err e)) }
    ensures forbids { IfErr result (λ e. e ≡ Refusal.Memory → is_some judge.entry ≡ true) }
{
    if judge.is_none() {
        return Err(Refusal::RoleForbids);
    }
    read_rejudging(alloc, body)
}

/// What a body asks for: `reason`, a name, and `submission_ids`, 1 to 500 texts that differ. One
/// that is no submission's id is taken, and names nothing.
///
/// # Errors
///
/// `Malformed` where the body is off its form: where it isn't an object, lacks one of the two, or
/// gives no text, too many, or one twice. Else want of memory.
pub fn read_rejudging(alloc: Global, body: &[u8]) -> Result<WantedRejudging, Refusal>
    ensures ok { IfOk result (λ w. rejudging_in body.now ≡ Some w) }
    ensures err { IfErr result (λ e. IsRefused e (rejudging_in body.now)) }
{
    let value = value_of(alloc, body)?;
    rejudging_of(alloc, &value)
}

#[tactic(auto, unfolding(crate::specs::RejudgingBodies::rejudging_of))]
fn rejudging_of(alloc: Global, value: &Value) -> Result<WantedRejudging, Refusal>
    ensures ok { IfOk result (λ w. rejudging_of (view value.now) ≡ Some w) }
    ensures err { IfErr result (λ e. IsRefused e (rejudging_of (view value.now))) }
{
    let reason = reason_in(alloc, value)?;
    let submissions = submissions_in(alloc, value)?;
    Ok(WantedRejudging {
        reason,
        submissions,
    })
}

fn reason_in(alloc: Global, value: &Value) -> Result<Name, Refusal>
    ensures ok { IfOk result (λ reason. name_in (codes "reason") (view value.now) ≡ Some reason) }
    ensures err { IfErr result (λ e. IsRefused e (name_in (codes "reason") (view value.now))) }
{
    match name_in(alloc, value, "reason")? {
        Some(reason) => Ok(reason),
        None => Err(Refusal::Malformed),
    }
}

// What is given as the ids of the submissions, if a rejudging can be over as many.
fn submissions_in(alloc: Global, value: &Value) -> Result<Rows<WantedId>, Refusal>
    ensures ok { IfOk result (λ ids. submissions_in (view value.now) ≡ Some ids) }
    ensures err { IfErr result (λ e. IsRefused e (submissions_in (view value.now))) }
{
    let Some(member) = value.get("submission_ids") else {
        return Err(Refusal::Malformed);
    };
    let Some(ids) = texts_in(alloc, member)? else {
        return Err(Refusal::Malformed);
    };
    if !may_be_members(alloc, ids.as_slice())? {
        return Err(Refusal::Malformed);
    }
    Ok(ids)
}

// Whether there is one at least, no more than a rejudging may have members, and none twice.
fn may_be_members(alloc: Global, ids: &[WantedId]) -> Result<bool, AllocError>
    ensures { IfOk result (λ answer. answer ≡ may_be_members ids.now) }
{
    if ids.is_empty() || ids.len() > REJUDGING_MEMBERS {
        return Ok(false);
    }
    are_different(alloc, ids)
}
