//! Who asks.
ghost use Rattle.std.specs.Prelude.{◌≡◌, ◌<◌, ◌+◌, ◌^◌, Option, IfSome};
ghost use Rattle.std.specs.Option.{option_map};
ghost use Rattle.contest_types.specs.declared.account.Account.{Account as TheAccount};
ghost use Rattle.contest_types.specs.Masks.{audience_at};
ghost use Rattle.contest_operations.specs.Callers.{audience_of, audience_for, caller_of, holder_of};
ghost use Rattle.contest_operations.specs.Callers.{is_admin, is_admin_by, judge_of, reads_all};
ghost use Rattle.contest_operations.specs.Callers.{reads_all_by, team_for, team_of};

use contest_requests::Credential;
use contest_types::{Account, Audience, Fixed, Id, Role};
use sha2::{Digest as _, Sha256};
use std::marker::Model;

/// Who asks: anyone, or the holder of an account.
#[derive(Drop)]
pub struct Caller<'a> {
    account: Option<&'a Account>,
}

impl<'a> Model for Caller<'a> {
    ghost Value = { Option TheAccount };

    ghost view = { λ c. option_map (λ a. a.now) c.account };
}

/// Who asks, by the digest of the token that is given; none where no account has it. It takes no
/// memory.
pub fn caller_of<'a>(fixed: &'a Fixed, credential: &Credential) -> Option<Caller<'a>>
    ensures { result ≡ caller_of fixed.now credential.now }
{
    match credential {
        Credential::Absent => Some(Caller { account: None }),
        Credential::Token(token) => {
            let account = holder_of(fixed.accounts.as_slice(), token.as_slice())?;
            Some(Caller {
                account: Some(account),
            })
        }
        Credential::Bad => None,
    }
}

/// The account that has a token.
fn holder_of<'a>(accounts: &'a [Account], token: &[u8]) -> Option<&'a Account>
    ensures { option_map (λ a. a.now) result ≡ holder_of accounts.now token.now }
{
    let digest = Sha256::digest(token);
    accounts
        .iter()
        .find(|account| account.digest.as_bytes() == digest.as_slice())
}

/// The audience that a caller is. A contest never has so many teams that a number doesn't fit.
pub fn audience_of(caller: &Caller<'_>) -> Audience
    ensures { IfSome (team_of caller.now) (λ team. team + 1 < 2 ^ 64) → result ≡ audience_of caller.now }
{
    match caller.account {
        None => Audience::Public,
        Some(account) => audience_for(account.role),
    }
}

fn audience_for(role: Role) -> Audience
    ensures { IfSome (team_for role) (λ team. team + 1 < 2 ^ 64) → result ≡ audience_for role }
{
    match role {
        Role::Team(team) => audience_at(team),
        Role::Judge | Role::Admin | Role::Analyst => Audience::Jury,
    }
}

/// The audience that the team at a place, from 0, is.
pub fn audience_at(team: usize) -> Audience
    ensures { team + 1 < 2 ^ 64 → result ≡ audience_at team }
{
    Audience::Team(team.saturating_add(1))
}

/// The team at a place, from 0, that a caller speaks for.
pub fn team_of(caller: &Caller<'_>) -> Option<usize>
    ensures { result ≡ team_of caller.now }
{
    team_for(caller.account?.role)
}

fn team_for(role: Role) -> Option<usize>
    ensures { result ≡ team_for role }
{
    match role {
        Role::Team(team) => Some(team),
        Role::Judge | Role::Admin | Role::Analyst => None,
    }
}

/// The account that a caller holds, if it holds one.
pub fn account_of<'a>(caller: &Caller<'a>) -> Option<&'a Account>
    ensures { option_map (λ a. a.now) result ≡ caller.now }
{
    caller.account
}

/// The id of the account that a caller judges by: a judge's or an administrator's.
pub fn judge_of<'a>(caller: &Caller<'a>) -> Option<&'a Id>
    ensures { option_map (λ id. id.now) result ≡ judge_of caller.now }
{
    let account = caller.account?;
    match account.role {
        Role::Judge | Role::Admin => Some(&account.id),
        Role::Team(_) | Role::Analyst => None,
    }
}

/// Whether a caller is an administrator.
pub fn is_admin(caller: &Caller<'_>) -> bool
    ensures { result ≡ is_admin caller.now }
{
    match caller.account {
        Some(account) => is_admin_by(account.role),
        None => false,
    }
}

fn is_admin_by(role: Role) -> bool
    ensures { result ≡ is_admin_by role }
{
    match role {
        Role::Admin => true,
        Role::Team(_) | Role::Judge | Role::Analyst => false,
    }
}

/// Whether a caller reads what only the jury reads.
pub fn reads_all(caller: &Caller<'_>) -> bool
    ensures { result ≡ reads_all caller.now }
{
    match caller.account {
        Some(account) => reads_all_by(account.role),
        None => false,
    }
}

fn reads_all_by(role: Role) -> bool
    ensures { result ≡ reads_all_by role }
{
    match role {
        Role::Judge | Role::Admin | Role::Analyst => true,
        Role::Team(_) => false,
    }
}
