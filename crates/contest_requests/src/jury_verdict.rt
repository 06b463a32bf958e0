//! A verdict that a judge posts, to propose it or to verify it.
ghost use Rattle.std.specs.Prelude.{◌≡◌, ◌⊎◌, Some, Ok, Err, true, is_some, IfOk, IfErr};
ghost use Rattle.std.specs.Option.{option_map};
ghost use Rattle.serde_json.specs.View.{view};
ghost use Rattle.contest_files.specs.Refused.{IsRefused};
ghost use Rattle.contest_requests.specs.JuryVerdicts.{posted_verdict, verdict_in, verdict_of};

use contest_files::{id_in, value_of};
use contest_rules::WantedVerdict;
use contest_types::{Id, Refusal};
use serde_json::Value;
use std::alloc::Global;

/// The verdict that a judge asks for.
#[derive(Drop)]
pub struct JuryVerdict {
    /// The id of the judge's account.
    pub account: Id,
    /// What it asks for.
    pub wanted: WantedVerdict,
}

/// The verdict that a caller posts in a body, if it holds the account of a judge or an
/// administrator.
///
/// # Errors
///
/// `RoleForbids`, then `Malformed` where the body is off its form; else want of memory.
pub fn post_verdict(alloc: Global, judge: Option<&Id>, body: &[u8]) -> Result<JuryVerdict, Refusal>
    ensures ok { IfOk result (λ v. posted_verdict (option_map (λ id. id.now) judge.entry) body.now ≡ Ok v) }
    ensures err { IfErr result (λ e. (e ≡ Refusal.Memory) ⊎ (posted_verdict (option_map (λ id. id.now) judge.entry) body.now ≡ Err e)) }
    ensures forbids { IfErr result (λ e. e ≡ Refusal.Memory → is_some judge.entry ≡ true) }
{
    let Some(judge) = judge else {
        return Err(Refusal::RoleForbids);
    };
    let wanted = verdict_in(alloc, body)?;
    let account = judge.clone()?;
    Ok(JuryVerdict { account, wanted })
}

fn verdict_in(alloc: Global, body: &[u8]) -> Result<WantedVerdict, Refusal>
    ensures ok { IfOk result (λ w. verdict_in body.now ≡ Some w) }
    ensures err { IfErr result (λ e. IsRefused e (verdict_in body.now)) }
{
    let value = value_of(alloc, body)?;
    verdict_of(alloc, &value)
}

#[tactic(auto, unfolding(crate::specs::JuryVerdicts::verdict_of))]
fn verdict_of(alloc: Global, value: &Value) -> Result<WantedVerdict, Refusal>
    ensures ok { IfOk result (λ w. verdict_of (view value.now) ≡ Some w) }
    ensures err { IfErr result (λ e. IsRefused e (verdict_of (view value.now))) }
{
    let submission = id_in(alloc, value, "submission_id")?;
    let judgement_type = id_in(alloc, value, "judgement_type_id")?;
    Ok(WantedVerdict {
        submission,
        judgement_type,
    })
}
