//! A team asks, or the jury writes: what it posts.
ghost use Rattle.std.specs.Prelude.{◌≡◌, ◌⊎◌, Some, None, Ok, Err, true, is_some, IfOk, IfErr};
ghost use Rattle.contest_requests.specs.ClarificationBodies.{asked_in};
ghost use Rattle.contest_operations.specs.PostedClarifications.{clarifying_by, may_write};
ghost use Rattle.contest_operations.specs.PostedClarifications.{posted_clarification, sender_for};
ghost use Rattle.contest_operations.specs.PostedClarifications.{writing_team};

use crate::caller::{Caller, account_of};
use contest_postings::Clarifying;
use contest_requests::{Request, read_clarification};
use contest_rules::{Sender, WantedClarification};
use contest_types::{Account, Fixed, Refusal, Role};
use std::alloc::Global;

/// What a caller posts, if its role lets it write: as its team, or as the jury.
///
/// # Errors
///
/// `RoleForbids`, then `Malformed` as `read_clarification` gives it; else want of memory.
pub fn post_clarification(
    alloc: Global,
    fixed: &Fixed,
    caller: &Caller<'_>,
    request: Request,
) -> Result<Clarifying, Refusal>
    ensures ok { IfOk result (λ c. posted_clarification fixed.now caller.now request ≡ Ok c) }
    ensures err { IfErr result (λ e. (e ≡ Refusal.Memory) ⊎ (posted_clarification fixed.now caller.now request ≡ Err e)) }
    ensures forbids { IfErr result (λ e. e ≡ Refusal.Memory → may_write caller.now ≡ true) }
{
    match account_of(caller) {
        Some(account) => clarifying_by(alloc, fixed, account, request),
        None => Err(Refusal::RoleForbids),
    }
}

fn clarifying_by(
    alloc: Global,
    fixed: &Fixed,
    account: &Account,
    request: Request,
) -> Result<Clarifying, Refusal>
    ensures ok { IfOk result (λ c. clarifying_by fixed.now account.now request ≡ Ok c) }
    ensures err { IfErr result (λ e. (e ≡ Refusal.Memory) ⊎ (clarifying_by fixed.now account.now request ≡ Err e)) }
    ensures forbids { IfErr result (λ e. e ≡ Refusal.Memory → is_some (sender_for account.now.role) ≡ true) }
{
    let Some(sender) = sender_for(account.role) else {
        return Err(Refusal::RoleForbids);
    };
    let wanted = wanted_by(alloc, fixed, sender, request)?;
    let account = account.id.clone()?;
    Ok(Clarifying {
        sender,
        account,
        wanted,
    })
}

fn wanted_by(
    alloc: Global,
    fixed: &Fixed,
    sender: Sender,
    request: Request,
) -> Result<WantedClarification, Refusal>
    ensures ok { IfOk result (λ w. asked_in (writing_team fixed.now sender) request.key request.body ≡ Some w) }
    ensures err { IfErr result (λ e. (e ≡ Refusal.Memory) ⊎ ((e ≡ Refusal.Malformed) × (asked_in (writing_team fixed.now sender) request.key request.body ≡ None))) }
{
    match sender {
        Sender::Team(team) => {
            let id = fixed.settings.team_id(team).as_bytes();
            read_clarification(alloc, Some(id), request.key, request.body.as_slice())
        }
        Sender::Jury => read_clarification(alloc, None, request.key, request.body.as_slice()),
    }
}

fn sender_for(role: Role) -> Option<Sender>
    ensures { result ≡ sender_for role }
{
    match role {
        Role::Team(team) => Some(Sender::Team(team)),
        Role::Judge | Role::Admin => Some(Sender::Jury),
        Role::Analyst => None,
    }
}
