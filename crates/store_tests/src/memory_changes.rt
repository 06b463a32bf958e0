//! Changes of a contest in memory: each is made, and a fault takes it away.
ghost use Rattle.std.specs.Prelude.{◌≡◌, []};
ghost use Rattle.contest_types.specs.State.{FixedPart};
ghost use Rattle.contest_lists.specs.Lists.{with_submissions};
ghost use Rattle.contest_store.specs.InMemory.{contest_of};
ghost use Rattle.store_tests.specs.FirstChanges.{IsBare};

use crate::first_changes::{bare, first_change};
use contest_lists::Lists;
use contest_store::{ContestStore, MemoryStore, StoreError};
use std::alloc::Global;
use std::process::Abort;
use std::test::Fail;

/// How many of each list stand, and which marks, after the change of each kind.
pub static AFTER: [[usize; 9]; 12] = [
    [0, 0, 0, 0, 0, 0, 0, 0, 0],
    [0, 0, 0, 0, 0, 0, 1, 0, 0],
    [0, 0, 0, 0, 0, 0, 0, 1, 0],
    [0, 0, 0, 0, 0, 0, 0, 0, 0],
    [0, 0, 0, 0, 0, 0, 0, 0, 0],
    [1, 0, 0, 0, 0, 0, 0, 0, 0],
    [0, 1, 0, 0, 0, 0, 0, 0, 0],
    [0, 0, 0, 1, 0, 0, 0, 0, 0],
    [0, 0, 0, 0, 1, 0, 0, 0, 0],
    [0, 0, 0, 0, 0, 0, 0, 0, 1],
    [0, 0, 1, 0, 0, 0, 0, 0, 0],
    [0, 0, 0, 0, 0, 1, 0, 0, 0],
];

pub fn counts(lists: &Lists) -> [usize; 9] {
    let fixed = lists.fixed();
    let settings = &fixed.settings;
    [
        settings.judgement_types().len(),
        settings.languages().len(),
        settings.problems().len(),
        settings.groups().len(),
        settings.teams().len(),
        fixed.accounts.as_slice().len(),
        usize::from(fixed.marks.thaw.is_some()),
        usize::from(fixed.marks.finalized.is_some()),
        lists.rejudgings().len(),
    ]
}

/// Makes the change of a kind, as the first of all.
fn append_first(alloc: Global, store: &mut MemoryStore, kind: usize) -> Result<(), Fail>
    requires { (f : FixedPart) × (IsBare f × (contest_of store.old ≡ with_submissions f [])) }
{
    let change = first_change(alloc, kind)?;
    store.append(alloc, change)?;
    Ok(())
}

fn store_after(alloc: Global, kind: usize) -> Result<MemoryStore, Fail> {
    let mut store = MemoryStore::new(alloc, bare(alloc)?);
    append_first(alloc, &mut store, kind)?;
    Ok(store)
}

/// The change stands, also after a commit.
fn assert_stands(rt: &impl Abort, store: &mut MemoryStore, after: &[usize; 9]) {
    assert_eq!(rt; &counts(store.lists()), after);
    assert_eq!(rt; store.commit(), Ok(()));
    assert_eq!(rt; &counts(store.lists()), after);
    assert_eq!(rt; (store.faults(), store.commits()), (0, 1));
}

/// A commit that is made to fail does once, and takes the change away.
fn assert_taken_away(rt: &impl Abort, store: &mut MemoryStore) {
    store.fail_after(0);
    assert_eq!(rt; store.commit(), Err(StoreError::Fault));
    assert_eq!(rt; counts(store.lists()), [0; 9]);
    assert_eq!(rt; store.commit(), Ok(()));
    assert_eq!(rt; (store.faults(), store.commits()), (1, 1));
}

#[test]
fn makes_each_change(rt: HostRuntime) -> Result<(), Fail> {
    for (kind, after) in AFTER.iter().enumerate() {
        assert_stands(&rt, &mut store_after(rt.alloc(), kind)?, after);
        assert_taken_away(&rt, &mut store_after(rt.alloc(), kind)?);
    }
    Ok(())
}
