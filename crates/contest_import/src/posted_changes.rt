//! The token or the name that a body says.
ghost use Rattle.std.specs.Prelude.{◌≡◌, Some, IfOk, IfErr};
ghost use Rattle.serde_json.specs.View.{view};
ghost use Rattle.contest_files.specs.Refused.{IsRefused};
ghost use Rattle.contest_import.specs.PostedRows.{name_posted, name_said, token_posted, token_said};

use crate::posted_rows::digest_said;
use contest_files::{id_in, name_in, value_of};
use contest_types::{Digest, Id, Name, Refusal};
use serde_json::Value;
use std::alloc::Global;

/// Another token of an account.
#[derive(Drop)]
pub struct TokenRow {
    /// The account's id.
    pub id: Id,
    /// The digest of the token.
    pub digest: Digest,
}

/// Another name of a team.
#[derive(Drop)]
pub struct NameRow {
    /// The team's id.
    pub team: Id,
    /// The name.
    pub name: Name,
}

/// The token that a body says, and whose it is: `account_id` and `token` (own).
///
/// # Errors
///
/// `Malformed` where the body is off its form; else want of memory.
pub fn read_token(alloc: Global, body: &[u8]) -> Result<TokenRow, Refusal>
    ensures ok { IfOk result (λ row. token_posted body.now ≡ Some row) }
    ensures err { IfErr result (λ e. IsRefused e (token_posted body.now)) }
{
    let value = value_of(alloc, body)?;
    token_said(alloc, &value)
}

fn token_said(alloc: Global, object: &Value) -> Result<TokenRow, Refusal>
    ensures ok { IfOk result (λ row. token_said (view object.now) ≡ Some row) }
    ensures err { IfErr result (λ e. IsRefused e (token_said (view object.now))) }
{
    let id = id_in(alloc, object, "account_id")?;
    match digest_said(object) {
        Some(digest) => Ok(TokenRow { id, digest }),
        None => Err(Refusal::Malformed),
    }
}

/// The name that a body says, and which team's it is: `team_id` and `name` (own).
///
/// # Errors
///
/// `Malformed` where the body is off its form; else want of memory.
pub fn read_name(alloc: Global, body: &[u8]) -> Result<NameRow, Refusal>
    ensures ok { IfOk result (λ row. name_posted body.now ≡ Some row) }
    ensures err { IfErr result (λ e. IsRefused e (name_posted body.now)) }
{
    let value = value_of(alloc, body)?;
    name_said(alloc, &value)
}

fn name_said(alloc: Global, object: &Value) -> Result<NameRow, Refusal>
    ensures ok { IfOk result (λ row. name_said (view object.now) ≡ Some row) }
    ensures err { IfErr result (λ e. IsRefused e (name_said (view object.now))) }
{
    let team = id_in(alloc, object, "team_id")?;
    match name_in(alloc, object, "name")? {
        Some(name) => Ok(NameRow { team, name }),
        None => Err(Refusal::Malformed),
    }
}
