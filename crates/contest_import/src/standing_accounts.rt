//! Whether an account is added to those that stand, and whether one of them has a token.
ghost use Rattle.std.specs.Prelude.{◌≡◌, find, map};
ghost use Rattle.std.specs.Option.{option_map};
ghost use Rattle.std.specs.Str.{bytes_eq};
ghost use Rattle.contest_types.specs.Accounts.{account_addition, has_valid_role, same_account};
ghost use Rattle.contest_types.specs.Accounts.{same_role};
ghost use Rattle.contest_types.specs.Places.{is_among};
ghost use Rattle.contest_types.specs.declared.account.Account.{Account as TheAccount};

use contest_types::limits::ACCOUNTS;
use contest_types::{Account, Cause, Digest, Id, Role, Settings};

/// Whether an account is added to those that stand: where an equal one stands it adds nothing. It
/// takes no memory.
///
/// # Errors
///
/// A team that isn't there (`UnknownReference`), other content under the account's id, or its token
/// held by another account (`KeyReused`), or 2000 accounts standing (`TableFull`).
pub fn account_addition(
    settings: &Settings,
    accounts: &[Account],
    account: &Account,
) -> Result<bool, Cause>
    ensures { result ≡ account_addition settings.now accounts.now account.now }
{
    if !has_valid_role(settings, account.role) {
        return Err(Cause::UnknownReference);
    }
    match account_named(accounts, &account.id) {
        Some(other) => {
            if is_same_account(other, account) {
                Ok(false)
            } else {
                Err(Cause::KeyReused)
            }
        }
        None => {
            if has_digest(accounts, &account.digest) {
                Err(Cause::KeyReused)
            } else if accounts.len() >= ACCOUNTS {
                Err(Cause::TableFull)
            } else {
                Ok(true)
            }
        }
    }
}

fn has_valid_role(settings: &Settings, role: Role) -> bool
    ensures { result ≡ has_valid_role settings.now role }
{
    match role {
        Role::Team(team) => team < settings.teams().len(),
        Role::Judge | Role::Admin | Role::Analyst => true,
    }
}

// The account with this id.
fn account_named<'a>(accounts: &'a [Account], id: &Id) -> Option<&'a Account>
    ensures { option_map (λ a. a.now) result ≡ find (λ (b : TheAccount). bytes_eq id.now b.id) accounts.now }
{
    accounts.iter().find(|account| *id == account.id)
}

fn is_same_account(a: &Account, b: &Account) -> bool
    ensures { result ≡ same_account a.now b.now }
{
    a.id == b.id && is_same_role(a.role, b.role) && a.digest.as_bytes() == b.digest.as_bytes()
}

fn is_same_role(a: Role, b: Role) -> bool
    ensures { result ≡ same_role a b }
{
    match (a, b) {
        (Role::Team(team), Role::Team(other)) => team == other,
        (Role::Judge, Role::Judge) | (Role::Admin, Role::Admin) | (Role::Analyst, Role::Analyst) =>
            true,
        _ => false,
    }
}

/// Whether one of the accounts has a token with this digest.
pub fn has_digest(accounts: &[Account], digest: &Digest) -> bool
    ensures { result ≡ is_among (map (λ (a : TheAccount). a.digest) accounts.now) digest.now }
{
    accounts
        .iter()
        .any(|account| account.digest.as_bytes() == digest.as_bytes())
}
