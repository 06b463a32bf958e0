//! The account or the team that a body says.
ghost use Rattle.std.specs.Prelude.{◌≡◌, Some, IfOk, IfErr};
ghost use Rattle.serde_json.specs.View.{view};
ghost use Rattle.contest_files.specs.Refused.{IsRefused};
ghost use Rattle.contest_import.specs.PostedRows.{account_posted, account_said, digest_said};
ghost use Rattle.contest_import.specs.PostedRows.{id_said, role_said, team_posted, team_said};

use crate::account_record::{account_id, named_role, token_digest};
use crate::settings_objects::team_in;
use crate::{AccountRow, NamedRole, TeamRow};
use contest_files::{are_different, optional_id_in, text_in, value_of};
use contest_types::{Digest, Id, Refusal};
use serde_json::Value;
use std::alloc::Global;

/// The account that a body says: `id`, `role` (`team`, `judge`, `admin` or `analyst`), `token` and,
/// for the role `team` alone, `team_id` (Contest API 2023-06, accounts; POST is own).
///
/// # Errors
///
/// `Malformed` where the body is off its form; else want of memory.
pub fn read_account(alloc: Global, body: &[u8]) -> Result<AccountRow, Refusal>
    ensures ok { IfOk result (λ row. account_posted body.now ≡ Some row) }
    ensures err { IfErr result (λ e. IsRefused e (account_posted body.now)) }
{
    let value = value_of(alloc, body)?;
    account_said(alloc, &value)
}

fn account_said(alloc: Global, object: &Value) -> Result<AccountRow, Refusal>
    ensures ok { IfOk result (λ row. account_said (view object.now) ≡ Some row) }
    ensures err { IfErr result (λ e. IsRefused e (account_said (view object.now))) }
{
    let id = id_said(alloc, object)?;
    let role = role_said(alloc, object)?;
    match digest_said(object) {
        Some(digest) => Ok(AccountRow { id, role, digest }),
        None => Err(Refusal::Malformed),
    }
}

fn id_said(alloc: Global, object: &Value) -> Result<Id, Refusal>
    ensures ok { IfOk result (λ id. id_said (view object.now) ≡ Some id) }
    ensures err { IfErr result (λ e. IsRefused e (id_said (view object.now))) }
{
    let Some(text) = text_in(object, "id") else {
        return Err(Refusal::Malformed);
    };
    match account_id(alloc, text.as_bytes())? {
        Some(id) => Ok(id),
        None => Err(Refusal::Malformed),
    }
}

fn role_said(alloc: Global, object: &Value) -> Result<NamedRole, Refusal>
    ensures ok { IfOk result (λ role. role_said (view object.now) ≡ Some role) }
    ensures err { IfErr result (λ e. IsRefused e (role_said (view object.now))) }
{
    let Some(role) = text_in(object, "role") else {
        return Err(Refusal::Malformed);
    };
    let team = optional_id_in(alloc, object, "team_id")?;
    let team = match &team {
        Some(team) => team.as_bytes(),
        None => b"",
    };
    match named_role(alloc, role.as_bytes(), team)? {
        Some(role) => Ok(role),
        None => Err(Refusal::Malformed),
    }
}

pub(crate) fn digest_said(object: &Value) -> Option<Digest>
    ensures { result ≡ digest_said (view object.now) }
{
    token_digest(text_in(object, "token")?.as_bytes())
}

/// The team that a body says, as an object of a file of teams says it.
///
/// # Errors
///
/// `Malformed` where the body is off its form, or names a group twice; else want of memory.
pub fn read_team(alloc: Global, body: &[u8]) -> Result<TeamRow, Refusal>
    ensures ok { IfOk result (λ row. team_posted body.now ≡ Some row) }
    ensures err { IfErr result (λ e. IsRefused e (team_posted body.now)) }
{
    let value = value_of(alloc, body)?;
    team_said(alloc, &value)
}

fn team_said(alloc: Global, object: &Value) -> Result<TeamRow, Refusal>
    ensures ok { IfOk result (λ row. team_said (view object.now) ≡ Some row) }
    ensures err { IfErr result (λ e. IsRefused e (team_said (view object.now))) }
{
    match team_in(alloc, object)? {
        Some(team) if are_different(alloc, team.groups.as_slice())? => Ok(team),
        _ => Err(Refusal::Malformed),
    }
}
