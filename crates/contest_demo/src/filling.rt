//! The entries of the demo contest, put into a store.
ghost use Rattle.std.specs.Prelude.{◌≡◌, IsTrue, true};
ghost use Rattle.contest_types.specs.Addable.{are_addable};
ghost use Rattle.contest_types.specs.State.{add_all};
ghost use Rattle.contest_store.specs.Keeping.{Adds};
ghost use Rattle.contest_demo.specs.Demo.{demo_entries};
ghost use Rattle.contest_demo.specs.Filling.{AddsAll, IsJustCreated};

use crate::entries::demo_entries;
use contest_store::{ContestStore, StoreError};
use contest_types::Entry;
use std::alloc::{AllocError, Global};

/// Adds all entries, with the first so many teams and problems, by one commit.
///
/// # Errors
///
/// An error of the store, or want of memory. If the store is still open, nothing is kept then.
pub(crate) fn fill_store<S: ContestStore>(
    alloc: Global,
    store: &mut S,
    teams: usize,
    problems: usize,
) -> Result<(), StoreError>
    requires loaded { IsTrue (S.kept store.old).is_loaded }
    requires created { IsJustCreated (S.kept store.old) }
    ensures { AddsAll result (S.kept store.old) (S.kept store.new) (demo_entries teams problems) (Unit {0}) }
{
    match demo_entries(alloc, teams, problems) {
        Ok(entries) => add_all(alloc, store, entries),
        Err(AllocError) => Err(StoreError::Memory),
    }
}

// Makes these changes, which may be made one after the other, and commits them.
fn add_all<S: ContestStore>(
    alloc: Global,
    store: &mut S,
    entries: Vec<Entry>,
) -> Result<(), StoreError>
    requires loaded { IsTrue (S.kept store.old).is_loaded }
    requires created { IsJustCreated (S.kept store.old) }
    requires addable { (S.kept store.old).is_clean → are_addable (S.kept store.old).contest entries.items ≡ true }
    ensures { AddsAll result (S.kept store.old) (S.kept store.new) entries.items ⊥ }
{
    append_all(alloc, store, entries)?;
    store.commit()
}

fn append_all<S: ContestStore>(
    alloc: Global,
    store: &mut S,
    entries: Vec<Entry>,
) -> Result<(), StoreError>
    requires loaded { IsTrue (S.kept store.old).is_loaded }
    requires created { IsJustCreated (S.kept store.old) }
    requires addable { (S.kept store.old).is_clean → are_addable (S.kept store.old).contest entries.items ≡ true }
    ensures { Adds result (S.kept store.old) (S.kept store.new) (add_all (S.kept store.old).contest entries.items) }
{
    for entry in entries {
        store.append(alloc, entry)?;
    }
    Ok(())
}
