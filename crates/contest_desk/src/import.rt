//! One file imported, whoever keeps the contest: what it adds, and what is kept of that.
ghost use Rattle.std.specs.Prelude.{◌≡◌, ◌⊎◌, ◌≤◌, true, IfOk, IsFalse, IsTrue};
ghost use Rattle.contest_types.specs.Addable.{are_addable};
ghost use Rattle.contest_desk.specs.Doing.{DoesOrFails};
ghost use Rattle.contest_desk.specs.Imports.{count_of, entries_of, import_step, imported};
ghost use Rattle.contest_desk.specs.Items.{HasStoreError};
ghost use Rattle.contest_desk.specs.Serving.{IsSettled, Keeps};

use crate::Desk;
use crate::added_count::added_count;
use crate::imported::imported;
use crate::keep::keep;
use contest_store::{ContestStore, StoreError};
use contest_types::{Entry, ImportKind, Moment, Refusal, Rows};
use std::alloc::Global;

/// Imports one file: all of its rows or none, and how many of its records added something.
///
/// # Errors
///
/// An error of the store, or want of memory. Every other refusal is an answer.
pub fn serve_import<S: ContestStore>(
    alloc: Global,
    store: &mut S,
    now: Moment,
    kind: ImportKind,
    file: &[u8],
) -> Result<Result<u64, Refusal>, StoreError>
    requires settled { IsSettled (S.kept store.old) }
    ensures answer { (S.kept store.new).is_clean → IfOk result (λ answer. answer ≡ (import_step (S.kept store.old).contest now kind file.now).0) }
    ensures ordinary { IfOk result (λ answer. HasStoreError answer → ⊥) }
    ensures leaves { Keeps result (S.kept store.old) (S.kept store.new) (entries_of (imported (S.kept store.old).contest now kind file.now)) (Unit {0}) }
{
    store.load(alloc)?;
    let rows = imported(alloc, store.lists(), now, kind, file)?;
    keep_rows(alloc, store, rows)
}

// Rows are counted, and then kept.
fn keep_rows<S: ContestStore>(
    alloc: Global,
    store: &mut S,
    rows: Result<Rows<Entry>, Refusal>,
) -> Result<Result<u64, Refusal>, StoreError>
    requires loaded { IsTrue (S.kept store.old).is_loaded }
    requires up { (S.kept store.old).is_clean → IsTrue (S.kept store.old).is_open }
    requires settled { (S.kept store.old).is_clean → (S.kept store.old).contest ≡ (S.kept store.old).committed }
    requires addable { (S.kept store.old).is_clean → are_addable (S.kept store.old).contest (entries_of rows) ≡ true }
    ensures answer { IfOk result (λ answer. answer ≡ count_of rows) }
    ensures leaves { Keeps result (S.kept store.old) (S.kept store.new) (entries_of rows) ⊥ }
{
    match rows {
        Ok(rows) => {
            let added = added_count(rows.as_slice());
            keep(alloc, store, rows)?;
            Ok(Ok(added))
        }
        Err(refusal) => Ok(Err(refusal)),
    }
}

impl<S: ContestStore> Desk<S> {
    /// Imports a file at a moment, and keeps what it adds by one commit: all of its rows or none.
    /// The answer is the number of records that added something; one that stands with equal content
    /// adds nothing.
    ///
    /// Where the store fails or a growth is refused the contest, while the store is open, is as
    /// before.
    ///
    /// # Errors
    ///
    /// `BodyTooLarge` for a file over its limit; `Malformed` for one that as a whole is off its
    /// form; `ImportRow` for its first record at fault, with the record's number, from 1, and the
    /// cause; `SettingsClosed` for settings that would add a row once the contest has started or a
    /// submission stands; `StoreFault` and `Memory` where the store failed or a growth was refused.
    pub fn import(
        &mut self,
        alloc: Global,
        now: Moment,
        kind: ImportKind,
        file: &[u8],
    ) -> Result<u64, Refusal>
        ensures answer { (S.kept self.new).is_clean → ¬ HasStoreError result → result ≡ (import_step (S.kept self.old).contest now kind file.now).0 }
        ensures leaves { DoesOrFails (S.kept self.old) (S.kept self.new) (import_step (S.kept self.old).contest now kind file.now).1
            (entries_of (imported (S.kept self.old).contest now kind file.now)) (HasStoreError result) (result ≡ Err Refusal.StoreFault) }
    {
        match serve_import(alloc, &mut self.store, now, kind, file) {
            Ok(answer) => answer,
            Err(error) => Err(error.refusal()),
        }
    }
}
