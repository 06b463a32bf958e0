//! What is added is kept.
ghost use Rattle.std.specs.Prelude.{◌≡◌, IsTrue, true};
ghost use Rattle.contest_types.specs.Addable.{are_addable};
ghost use Rattle.contest_types.specs.State.{add_all};
ghost use Rattle.contest_store.specs.Keeping.{Adds};
ghost use Rattle.contest_desk.specs.Serving.{Keeps};

use contest_store::{ContestStore, StoreError};
use contest_types::{Entry, Rows};
use std::alloc::Global;

/// Makes these changes, which may be made one after the other, and keeps them by one commit. Where
/// there are none the store isn't called.
///
/// # Errors
///
/// An error of the store. If the store is still open, nothing is kept then.
pub fn keep<S: ContestStore>(
    alloc: Global,
    store: &mut S,
    entries: Rows<Entry>,
) -> Result<(), StoreError>
    requires loaded { IsTrue (S.kept store.old).is_loaded }
    requires up { (S.kept store.old).is_clean → IsTrue (S.kept store.old).is_open }
    requires settled { (S.kept store.old).is_clean → (S.kept store.old).contest ≡ (S.kept store.old).committed }
    requires addable { (S.kept store.old).is_clean → are_addable (S.kept store.old).contest entries ≡ true }
    ensures { Keeps result (S.kept store.old) (S.kept store.new) entries ⊥ }
{
    let entries = entries.into_vec();
    if entries.is_empty() {
        return Ok(());
    }
    append_all(alloc, store, entries)?;
    store.commit()
}

// Makes these changes; they stand until they are committed.
fn append_all<S: ContestStore>(
    alloc: Global,
    store: &mut S,
    entries: Vec<Entry>,
) -> Result<(), StoreError>
    requires loaded { IsTrue (S.kept store.old).is_loaded }
    requires up { (S.kept store.old).is_clean → IsTrue (S.kept store.old).is_open }
    requires settled { (S.kept store.old).is_clean → (S.kept store.old).contest ≡ (S.kept store.old).committed }
    requires addable { (S.kept store.old).is_clean → are_addable (S.kept store.old).contest entries.items ≡ true }
    ensures { Adds result (S.kept store.old) (S.kept store.new) (add_all (S.kept store.old).contest entries.items) }
{
    for entry in entries {
        store.append(alloc, entry)?;
    }
    Ok(())
}
