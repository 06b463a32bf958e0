//! When a contest in which nothing stands yet is valid.
ghost use Rattle.std.specs.Prelude.{◌≡◌, ◌&&◌, [], map};
ghost use Rattle.std.specs.List.{list_all};
ghost use Rattle.contest_types.specs.Places.{are_different, is_among};
ghost use Rattle.contest_types.specs.Setup.{IsValid};
ghost use Rattle.contest_types.specs.Valid.{is_valid};
ghost use Rattle.contest_types.specs.Accounts.{has_valid_role};
ghost use Rattle.contest_types.specs.ValidFixed.{has_valid_accounts, has_valid_clock};
ghost use Rattle.contest_types.specs.ValidFixed.{is_valid_account};
ghost use Rattle.contest_types.specs.declared.account.Account.{Account as TheAccount};
ghost use Rattle.contest_lists.specs.Lists.{with_submissions};

use contest_types::limits::{ACCOUNTS, LAST_MOMENT};
use contest_types::{Account, Digest, Fixed, Id, Role, Settings};

/// Whether a contest with these settings, accounts and marks is valid while nothing was submitted,
/// judged or asked in it: its end is a moment, each account of a team names one that is there, no
/// account is called `import`, no two share an id or a token, and they aren't too many. It takes no
/// memory.
#[tactic(auto, using(crate::proofs::FixedLemmas::valid_while_bare))]
pub fn is_valid_fixed(fixed: &Fixed) -> bool
    ensures { result ≡ is_valid (with_submissions fixed.now []) }
{
    has_valid_end(fixed) && has_valid_accounts(fixed)
}

// Whether the end, if the start is set, is a moment.
fn has_valid_end(fixed: &Fixed) -> bool
    ensures clock { result ≡ has_valid_clock (with_submissions fixed.now []) }
    ensures settings { IsValid fixed.now.settings }
{
    let duration = fixed.settings.head().duration.milliseconds();
    match fixed.marks.start {
        Some(start) => start.milliseconds() + duration <= LAST_MOMENT,
        None => true,
    }
}

// The number is looked at first, for each account is compared with all after it.
#[tactic(auto, using(crate::proofs::FixedLemmas::too_many))]
fn has_valid_accounts(fixed: &Fixed) -> bool
    ensures { result ≡ has_valid_accounts (with_submissions fixed.now []) }
{
    let accounts = fixed.accounts.as_slice();
    if accounts.len() > ACCOUNTS {
        return false;
    }
    are_valid_accounts(&fixed.settings, accounts) && are_told_apart(accounts)
}

fn are_valid_accounts(settings: &Settings, accounts: &[Account]) -> bool
    ensures { result ≡ list_all (is_valid_account settings.now) accounts.now }
{
    for account in accounts {
        if !is_valid_account(settings, account) {
            return false;
        }
    }
    true
}

fn is_valid_account(settings: &Settings, account: &Account) -> bool
    ensures { result ≡ is_valid_account settings.now account.now }
{
    has_valid_role(settings, account.role) && account.id.as_bytes() != b"import".as_slice()
}

fn has_valid_role(settings: &Settings, role: Role) -> bool
    ensures { result ≡ has_valid_role settings.now role }
{
    match role {
        Role::Team(team) => team < settings.teams().len(),
        Role::Judge | Role::Admin | Role::Analyst => true,
    }
}

// Whether no two accounts share an id or a token.
fn are_told_apart(accounts: &[Account]) -> bool
    ensures { result ≡ (are_different (map (λ (a : TheAccount). a.id) accounts.now) && are_different (map (λ (a : TheAccount). a.digest) accounts.now)) }
{
    let mut rest = accounts;
    while let Some((account, others)) = rest.split_first() {
        if has_id(others, &account.id) || has_digest(others, &account.digest) {
            return false;
        }
        rest = others;
    }
    true
}

fn has_id(accounts: &[Account], id: &Id) -> bool
    ensures { result ≡ is_among (map (λ (a : TheAccount). a.id) accounts.now) id.now }
{
    accounts.iter().any(|account| account.id == *id)
}

fn has_digest(accounts: &[Account], digest: &Digest) -> bool
    ensures { result ≡ is_among (map (λ (a : TheAccount). a.digest) accounts.now) digest.now }
{
    accounts
        .iter()
        .any(|account| account.digest.as_bytes() == digest.as_bytes())
}
