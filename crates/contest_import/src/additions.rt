//! The rows that a file adds to what stands, one after the other.
ghost use Rattle.std.specs.Prelude.{◌≡◌, ◌++◌, ◌∷◌, ◌⊎◌, [], true, Ok, Err, OnOk, IfOk, IfErr};
ghost use Rattle.std.specs.Prelude.{IsOkAnd, is_ok, if◌then◌else◌};
ghost use Rattle.contest_types.specs.Accounts.{account_addition, with_account};
ghost use Rattle.contest_types.specs.Additions.{IsFaultOf};
ghost use Rattle.contest_import.specs.RowAdditions.{none_yet, row_addition, with_addition};
ghost use Rattle.contest_import.specs.RowAdditions.{with_row};

use crate::standing_accounts::account_addition;
use contest_lists::{CopyRow, add_account, copied_fixed};
use contest_types::{Account, Cause, Entry, Fixed, Identified, Refusal, RowFault, Rows};
use std::alloc::{AllocError, Global};
use std::marker::Model;

/// What was read of a file so far: what stands with it, and the rows that it adds.
#[derive(Drop)]
pub(crate) struct RowAdditions {
    fixed: Fixed,
    rows: Rows<Entry>,
}

impl Model for RowAdditions {
    ghost use Rattle.contest_import.specs.RowAdditions.{Additions};

    ghost Value = { Additions };

    ghost view = { λ a. record { fixed = a.fixed; rows = a.rows } };
}

impl RowAdditions {
    /// Nothing was read yet. What stands is shared, so rows are added to a copy.
    ///
    /// # Errors
    ///
    /// Want of memory alone.
    pub(crate) fn new(alloc: Global, fixed: &Fixed) -> Result<RowAdditions, AllocError>
        ensures { IfOk result (λ a. a ≡ none_yet fixed.now) }
    {
        Ok(RowAdditions {
            fixed: copied_fixed(alloc, fixed)?,
            rows: Rows::new(alloc),
        })
    }

    /// What stands with the rows that were added.
    pub(crate) fn fixed(&self) -> &Fixed
        ensures { result.now ≡ self.now.fixed }
    {
        &self.fixed
    }

    /// One more row; where an equal one stands it adds nothing.
    ///
    /// # Errors
    ///
    /// Why the row can't be added, or want of memory. Nothing more can be read then.
    pub(crate) fn take(&mut self, alloc: Global, row: Entry) -> Result<(), RowFault>
        ensures ok { OnOk result (with_addition self.old row ≡ Ok self.new) }
        ensures err { IfErr result (λ e. IsFaultOf e (with_addition self.old row)) }
    {
        let added = add_row(alloc, &mut self.fixed, &row);
        keep_if(&mut self.rows, row, added)
    }

    /// The rows that the file adds, in its order, where all of it could be taken.
    ///
    /// # Errors
    ///
    /// Why it couldn't.
    pub(crate) fn rows_if(self, taken: Result<(), Refusal>) -> Result<Rows<Entry>, Refusal>
        ensures ok { IfOk result (λ rows. (is_ok taken ≡ true) × (rows ≡ self.rows)) }
        ensures err { IfErr result (λ e. taken ≡ Err e) }
    {
        let RowAdditions { fixed, rows } = self;
        drop(fixed);
        value_if(taken, rows)
    }
}

// A value where something was done, or why that wasn't.
fn value_if<T: Drop>(done: Result<(), Refusal>, value: T) -> Result<T, Refusal>
    ensures ok { IfOk result (λ given. (is_ok done ≡ true) × (given ≡ value)) }
    ensures err { IfErr result (λ e. done ≡ Err e) }
{
    match done {
        Ok(()) => Ok(value),
        Err(refusal) => Err(refusal),
    }
}

// Keeps a row if it was added to what stands.
fn keep_if<T: Drop>(
    rows: &mut Rows<T>,
    row: T,
    added: Result<bool, RowFault>,
) -> Result<(), RowFault>
    ensures ok { OnOk result (IsOkAnd added (λ kept. rows.new ≡ (if kept then rows.old ++ row ∷ [] else rows.old))) }
    ensures err { IfErr result (λ e. (e ≡ RowFault.Memory) ⊎ (added ≡ Err e)) }
{
    if added? {
        rows.push(row)?;
    }
    Ok(())
}

// Adds a copy of a row to what stands, and answers whether it did.
fn add_row(alloc: Global, fixed: &mut Fixed, row: &Entry) -> Result<bool, RowFault>
    ensures ok { IfOk result (λ added. (row_addition fixed.old row.now ≡ Ok added) × (fixed.new ≡ (if added then with_row fixed.old row.now else fixed.old))) }
    ensures err { IfErr result (λ e. IsFaultOf e (row_addition fixed.old row.now)) }
{
    let settings = &mut fixed.settings;
    match row {
        Entry::NewType(row) => settings.add_judgement_type(alloc, row.copied(alloc)?),
        Entry::NewLanguage(row) => settings.add_language(alloc, row.copied(alloc)?),
        Entry::NewProblem(row) => settings.add_problem(alloc, row.copied(alloc)?),
        Entry::NewGroup(row) => settings.add_group(alloc, row.copied(alloc)?),
        Entry::NewTeam(row) => settings.add_team(alloc, row.copied(alloc)?),
        Entry::NewAccount(row) => add_account_row(alloc, fixed, row),
        _ => Err(RowFault::Fault(Cause::Malformed)),
    }
}

fn add_account_row(alloc: Global, fixed: &mut Fixed, row: &Account) -> Result<bool, RowFault>
    ensures ok { IfOk result (λ added. (account_addition fixed.old.settings fixed.old.accounts row.now ≡ Ok added) × (fixed.new ≡ (if added then record fixed.old { accounts = with_account fixed.old.accounts row.now } else fixed.old))) }
    ensures err { IfErr result (λ e. IsFaultOf e (account_addition fixed.old.settings fixed.old.accounts row.now)) }
{
    match account_addition(&fixed.settings, fixed.accounts.as_slice(), row) {
        Ok(true) => {
            add_account(alloc, &mut fixed.accounts, row.copied(alloc)?)?;
            Ok(true)
        }
        Ok(false) => Ok(false),
        Err(cause) => Err(RowFault::Fault(cause)),
    }
}
