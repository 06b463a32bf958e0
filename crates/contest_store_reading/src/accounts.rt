//! Accounts as rows, and the accounts that rows are.
ghost use Rattle.std.specs.Prelude.{◌≡◌, ◌==◌, Some, None, IfOk, length, if◌then◌else◌};
ghost use Rattle.sqlite_value.specs.Order.{column};
ghost use Rattle.contest_store_rows.specs.Cells.{lent};
ghost use Rattle.contest_store_rows.specs.FixedRows.{account_row, role_number, role_team};
ghost use Rattle.contest_store_reading.specs.AccountRows.{account_in, account_said, accounts_in};
ghost use Rattle.contest_store_reading.specs.AccountRows.{digest_in, digest_row, role_in};
ghost use Rattle.sqlite_value.specs.Value.{owned};
ghost use Rattle.sqlite_value.specs.declared.value.Value.TheVariants.{Text};
ghost use Rattle.sqlite.specs.Values.{or_null};

use contest_store_rows::{cell, id_in, is_row, number, number_at, text_at};
use contest_types::{Account, Digest, Id, Role, Rows, Settings};
use sqlite::Row;
use sqlite::types::ValueRef;
use std::alloc::{AllocError, Global};

/// The cells of the row that keeps an account.
pub fn account_cells<'a>(settings: &'a Settings, account: &'a Account) -> [ValueRef<'a>; 4]
    ensures { lent result ≡ account_row settings.now account.now }
{
    [
        ValueRef::Text(account.id.as_bytes()),
        number(role_number(account.role)),
        role_team(settings, account.role),
        ValueRef::Blob(account.digest.as_bytes()),
    ]
}

/// The digest of a token as a cell, after that of the id of its account.
pub fn digest_cells<'a>(id: &'a Id, digest: &'a Digest) -> [ValueRef<'a>; 2]
    ensures { lent result ≡ digest_row id.now digest.now }
{
    [
        ValueRef::Text(id.as_bytes()),
        ValueRef::Blob(digest.as_bytes()),
    ]
}

fn role_number(role: Role) -> u64
    ensures { result ≡ role_number role }
{
    match role {
        Role::Team(_) => 0,
        Role::Judge => 1,
        Role::Admin => 2,
        Role::Analyst => 3,
    }
}

fn role_team(settings: &Settings, role: Role) -> ValueRef<'_>
    ensures { owned result ≡ or_null Text (role_team settings.now role) }
{
    match role {
        Role::Team(team) => ValueRef::Text(settings.team_id(team).as_bytes()),
        Role::Judge | Role::Admin | Role::Analyst => ValueRef::Null,
    }
}

// What the cells say, if the id and the digest are some.
fn account_said(
    alloc: Global,
    settings: &Settings,
    row: &Row,
) -> Result<Option<Account>, AllocError>
    ensures { IfOk result (λ found. found ≡ account_said settings.now row.now) }
{
    let Some(digest) = digest_at(row, 3) else {
        return Ok(None);
    };
    let team = settings.team_place(text_at(row, 2)).unwrap_or(0);
    let role = role_in(number_at(row, 1), team);
    match id_in(alloc, row, 0)? {
        Some(id) => Ok(Some(Account { id, role, digest })),
        None => Ok(None),
    }
}

fn role_in(number: u64, team: usize) -> Role
    ensures { result ≡ role_in number team }
{
    match number {
        0 => Role::Team(team),
        1 => Role::Judge,
        2 => Role::Admin,
        _ => Role::Analyst,
    }
}

fn digest_at(row: &Row, at: usize) -> Option<Digest>
    ensures { result ≡ digest_in (column row.now at) }
{
    match cell(row, at) {
        ValueRef::Blob(bytes) => digest_of(bytes),
        _ => None,
    }
}

fn digest_of(bytes: &[u8]) -> Option<Digest>
    ensures { result ≡ (if length bytes.now == 32 then Some bytes.now else None) }
{
    match <[u8; 32]>::try_from(bytes) {
        Ok(bytes) => Some(Digest::new(bytes)),
        Err(_) => None,
    }
}

fn read_account(
    alloc: Global,
    settings: &Settings,
    row: &Row,
) -> Result<Option<Account>, AllocError>
    ensures { IfOk result (λ found. found ≡ account_in settings.now row.now) }
{
    let Some(account) = account_said(alloc, settings, row)? else {
        return Ok(None);
    };
    let its = is_row(row, &account_cells(settings, &account));
    Ok(its.then_some(account))
}

/// The accounts that the rows are, in their order; none as soon as a row is none.
///
/// # Errors
///
/// Want of memory alone.
pub fn read_accounts(
    alloc: Global,
    settings: &Settings,
    rows: &[Row],
) -> Result<Option<Rows<Account>>, AllocError>
    ensures { IfOk result (λ found. found ≡ accounts_in settings.now rows.now) }
{
    let mut accounts = Rows::new(alloc);
    for row in rows {
        match read_account(alloc, settings, row)? {
            Some(account) => accounts.push(account)?,
            None => return Ok(None),
        }
    }
    Ok(Some(accounts))
}
