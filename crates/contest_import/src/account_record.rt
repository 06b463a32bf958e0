//! The account that a record of a CSV file says.
ghost use Rattle.std.specs.Prelude.{◌≡◌, Ok, IfOk, IfErr};
ghost use Rattle.csv.specs.Records.{fields_of};
ghost use Rattle.contest_types.specs.Additions.{IsFaultOf};
ghost use Rattle.contest_import.specs.CsvFiles.{account_by, account_fields, account_id, account_of};
ghost use Rattle.contest_import.specs.CsvFiles.{account_record, four_of, named_role, role_of};
ghost use Rattle.contest_import.specs.CsvFiles.{token_digest};

use crate::account_row::{AccountRow, NamedRole};
use crate::csv_record::{CsvRecord, four_fields};
use contest_files::is_token;
use contest_types::limits::{LONGEST_TOKEN, SHORTEST_TOKEN};
use contest_types::{Account, Cause, Digest, Entry, Fixed, Id, Refusal, Role, RowFault, Settings};
use csv::ByteRecord;
use sha2::{Digest as _, Sha256};
use std::alloc::Global;

/// The account that a record says.
///
/// # Errors
///
/// A field off its form (`Malformed`), a team that isn't there (`UnknownReference`), or want of
/// memory.
pub(crate) fn account_record(
    alloc: Global,
    fixed: &Fixed,
    row: &ByteRecord,
) -> Result<Entry, RowFault>
    ensures ok { IfOk result (λ entry. account_record fixed.now (fields_of row.now) ≡ Ok entry) }
    ensures err { IfErr result (λ e. IsFaultOf e (account_record fixed.now (fields_of row.now))) }
{
    let Some(fields) = four_fields(row) else {
        return Err(RowFault::Fault(Cause::Malformed));
    };
    match account_fields(alloc, &fields) {
        Ok(Some(account)) => account_by(account, &fixed.settings),
        Ok(None) => Err(RowFault::Fault(Cause::Malformed)),
        Err(_) => Err(RowFault::Memory),
    }
}

// The account, where its team is there.
fn account_by(account: AccountRow, settings: &Settings) -> Result<Entry, RowFault>
    ensures ok { IfOk result (λ entry. account_by account (role_of settings.now account.role) ≡ Ok entry) }
    ensures err { IfErr result (λ e. IsFaultOf e (account_by account (role_of settings.now account.role))) }
{
    match account_of(settings, account) {
        Some(account) => Ok(Entry::NewAccount(account)),
        None => Err(RowFault::Fault(Cause::UnknownReference)),
    }
}

/// The account that is told of, if its team is there. It takes no memory.
pub fn account_of(settings: &Settings, account: AccountRow) -> Option<Account>
    ensures { result ≡ account_of settings.now account }
{
    let role = role_of(settings, &account.role)?;
    Some(Account {
        id: account.id,
        role,
        digest: account.digest,
    })
}

fn role_of(settings: &Settings, role: &NamedRole) -> Option<Role>
    ensures { result ≡ role_of settings.now role.now }
{
    match role {
        NamedRole::Team(id) => match settings.team_place(id.as_bytes()) {
            Some(place) => Some(Role::Team(place)),
            None => None,
        },
        NamedRole::Judge => Some(Role::Judge),
        NamedRole::Admin => Some(Role::Admin),
        NamedRole::Analyst => Some(Role::Analyst),
    }
}

fn account_fields(alloc: Global, fields: &CsvRecord<'_>) -> Result<Option<AccountRow>, Refusal>
    ensures value { IfOk result (λ found. found ≡ account_fields fields.now) }
    ensures err { IfErr result (λ e. e ≡ Refusal.Memory) }
{
    let Some(id) = account_id(alloc, fields.first)? else {
        return Ok(None);
    };
    let Some(role) = named_role(alloc, fields.second, fields.third)? else {
        return Ok(None);
    };
    let Some(digest) = token_digest(fields.fourth) else {
        return Ok(None);
    };
    Ok(Some(AccountRow { id, role, digest }))
}

/// An id that an account may have: `import` is kept for what is imported.
pub(crate) fn account_id(alloc: Global, text: &[u8]) -> Result<Option<Id>, Refusal>
    ensures value { IfOk result (λ found. found ≡ account_id text.now) }
    ensures err { IfErr result (λ e. e ≡ Refusal.Memory) }
{
    if text == b"import".as_slice() {
        return Ok(None);
    }
    Id::from_bytes(alloc, text)
}

pub(crate) fn named_role(
    alloc: Global,
    role: &[u8],
    team: &[u8],
) -> Result<Option<NamedRole>, Refusal>
    ensures value { IfOk result (λ found. found ≡ named_role role.now team.now) }
    ensures err { IfErr result (λ e. e ≡ Refusal.Memory) }
{
    if role == b"team".as_slice() {
        return match Id::from_bytes(alloc, team)? {
            Some(id) => Ok(Some(NamedRole::Team(id))),
            None => Ok(None),
        };
    }
    if !team.is_empty() {
        return Ok(None);
    }
    if role == b"judge".as_slice() {
        Ok(Some(NamedRole::Judge))
    } else if role == b"admin".as_slice() {
        Ok(Some(NamedRole::Admin))
    } else if role == b"analyst".as_slice() {
        Ok(Some(NamedRole::Analyst))
    } else {
        Ok(None)
    }
}

/// The digest of a token; the token itself isn't kept.
pub(crate) fn token_digest(token: &[u8]) -> Option<Digest>
    ensures { result ≡ token_digest token.now }
{
    if is_token(token) && SHORTEST_TOKEN <= token.len() && token.len() <= LONGEST_TOKEN {
        Some(Digest::new(Sha256::digest(token)))
    } else {
        None
    }
}
