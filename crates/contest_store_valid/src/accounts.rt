//! The accounts of a contest, found by their ids.
ghost use Rattle.std.specs.Prelude.{◌≡◌, ℕ, List, Option, IfOk, OnOk, is_some};
ghost use Rattle.std.specs.Borrow.{Bor};
ghost use Rattle.contest_types.specs.Accounts.{account_named};
ghost use Rattle.contest_types.specs.declared.account.Role.{Role as TheRole};
ghost use Rattle.contest_store_valid.specs.Accounts.{AreRoles, role_named, role_in, with_role};

use contest_types::{Account, Id, Role};
use std::alloc::{AllocError, Global};
use std::collections::HashMap;
use std::marker::Model;

/// Accounts that are found by their ids. Contracts see the list of them.
#[derive(Drop)]
pub(crate) struct Accounts<'a> {
    accounts: &'a [Account],
    roles: HashMap<&'a str, Role>,
}

impl<'a> Model for Accounts<'a> {
    ghost use Rattle.std.specs.Prelude.{List};
    ghost use Rattle.contest_types.specs.declared.account.Account.{Account};
    ghost use Rattle.contest_store_valid.specs.Accounts.{AreRoles};

    ghost Value = { List Account };

    ghost view = { λ a. a.accounts.now };

    ghost invariant = { λ a. AreRoles a.accounts.now a.roles };
}

impl<'a> Accounts<'a> {
    /// Accounts, to be found by their ids.
    ///
    /// # Errors
    ///
    /// Want of memory alone.
    pub(crate) fn new(alloc: Global, accounts: &'a [Account]) -> Result<Accounts<'a>, AllocError>
        ensures { IfOk result (λ found. found ≡ accounts.now) }
    {
        let roles = roles_of(alloc, accounts)?;
        Ok(Accounts { accounts, roles })
    }

    /// Whether there is an account with this id.
    #[tactic(auto, using(crate::proofs::AccountLemmas::has_role))]
    pub(crate) fn has(&self, id: &Id) -> bool
        ensures { result ≡ is_some (account_named self.now id.now) }
    {
        self.role(id).is_some()
    }

    /// The role of the account with this id, if there is one.
    pub(crate) fn role(&self, id: &Id) -> Option<Role>
        ensures { result ≡ role_named self.now id.now }
    {
        self.roles.get(&id.as_str()).copied()
    }
}

// The role that each id has: that of the first account with it.
fn roles_of(alloc: Global, accounts: &[Account]) -> Result<HashMap<&str, Role>, AllocError>
    ensures { IfOk result (λ roles. AreRoles accounts.now roles) }
{
    let mut roles = HashMap::new(alloc);
    for account in accounts {
        add_role(&mut roles, account)?;
    }
    Ok(roles)
}

fn add_role<'a>(roles: &mut HashMap<&'a str, Role>, account: &'a Account) -> Result<(), AllocError>
    ensures { OnOk result ((before : List ℕ → Option TheRole) → ((id : Bor (List ℕ)) → role_in roles.old id ≡ before id.now) → (id : Bor (List ℕ)) → role_in roles.new id ≡ with_role before account.now id.now) }
{
    let id = account.id.as_str();
    if roles.get(&id).is_none() {
        roles.insert(id, account.role)?;
    }
    Ok(())
}
