//! A store over tables in memory: made, changed, closed and opened again.
ghost use Rattle.std.specs.Prelude.{◌≡◌, [], IfOk, IsTrue, OnOk};
ghost use Rattle.sqlite.specs.Held.{state};
ghost use Rattle.sqlite.specs.State.{HasCleanDisk};
ghost use Rattle.sqlite.specs.Steps.{over_memory};
ghost use Rattle.contest_types.specs.State.{FixedPart};
ghost use Rattle.contest_lists.specs.Lists.{with_submissions};
ghost use Rattle.contest_store_tables.specs.Connected.{IsBare as HasNoTable};
ghost use Rattle.contest_store_sqlite.specs.Contests.{committed_of, contest_of};
ghost use Rattle.contest_store_sqlite.specs.Value.{shown_in};
ghost use Rattle.store_tests.specs.FirstChanges.{IsBare};

use crate::first_changes::first_change;
use crate::memory_changes::{AFTER, counts};
use contest_fixtures::{MEDALS, after, rehearsal_head};
use contest_store::{ContestStore, StoreError};
use contest_store_sqlite::{OpenError, Store};
use contest_types::{Contest, Moment, Refusal};
use sqlite::{Connection, MemStore};
use std::alloc::Global;
use std::test::Fail;

pub fn no_tables(alloc: Global) -> Result<Connection<MemStore>, Fail>
    ensures { IfOk result (λ conn. HasNoTable (state over_memory conn)) }
{
    Ok(Connection::open_in_memory(alloc)?)
}

fn contest(alloc: Global) -> Result<Contest, Fail> {
    Ok(Contest {
        head: rehearsal_head(alloc, MEDALS)?,
        start: None,
    })
}

pub fn refused<E: Copy, T: Drop>(_of: (E, T)) -> Fail {
    Fail::from("the store was refused")
}

/// A store in which nothing stands.
fn made(alloc: Global) -> Result<Store<MemStore>, Fail>
    ensures loaded { IfOk result (λ store. IsTrue store.is_loaded) }
    ensures bare { IfOk result (λ store. HasCleanDisk (shown_in over_memory store) → (f : FixedPart) × (IsBare f × (contest_of (shown_in over_memory store) ≡ with_submissions f []))) }
    ensures kept { IfOk result (λ store. HasCleanDisk (shown_in over_memory store) → contest_of (shown_in over_memory store) ≡ committed_of (shown_in over_memory store)) }
{
    match Store::create(alloc, no_tables(alloc)?, contest(alloc)?) {
        Ok(store) => Ok(store),
        Err(why) => Err(refused(why)),
    }
}

/// Makes the change of a kind, as the first of all, and commits it.
fn change(alloc: Global, store: &mut Store<MemStore>, kind: usize) -> Result<(), Fail>
    requires loaded { IsTrue store.old.is_loaded }
    requires bare { HasCleanDisk (shown_in over_memory store.old) → (f : FixedPart) × (IsBare f × (contest_of (shown_in over_memory store.old) ≡ with_submissions f [])) }
    ensures kept { OnOk result (HasCleanDisk (shown_in over_memory store.new) → contest_of (shown_in over_memory store.new) ≡ committed_of (shown_in over_memory store.new)) }
{
    let change = first_change(alloc, kind)?;
    store.append(alloc, change)?;
    store.commit()?;
    let _ = store.faults();
    Ok(())
}

/// What stands after the change of a kind, in a store that is closed and opened again.
fn counts_after(alloc: Global, kind: usize) -> Result<[usize; 9], Fail> {
    let mut store = made(alloc)?;
    change(alloc, &mut store, kind)?;
    match Store::open(alloc, store.into_connection()) {
        Ok(store) => Ok(counts(store.lists())),
        Err(why) => Err(refused(why)),
    }
}

#[test]
fn keeps_each_change(rt: HostRuntime) -> Result<(), Fail> {
    for (kind, counts) in AFTER.iter().enumerate() {
        assert_eq!(rt; &counts_after(rt.alloc(), kind)?, counts);
    }
    Ok(())
}

/// How a second creation is refused, if it is, with this penalty and this start.
fn again(alloc: Global, penalty_time: u32, start: Option<Moment>) -> Result<Option<Refusal>, Fail> {
    let first = made(alloc)?;
    let mut second = contest(alloc)?;
    second.head.penalty_time = penalty_time;
    second.start = start;
    match Store::create(alloc, first.into_connection(), second) {
        Ok(_) => Ok(None),
        Err((refusal, _)) => Ok(Some(refusal)),
    }
}

/// The first has a penalty of 20 minutes, and no start.
#[test]
fn compares_the_heads_of_contests(rt: HostRuntime) -> Result<(), Fail> {
    let alloc = rt.alloc();
    let cases = [
        (20, None, None),
        (20, Some(after(0)?), None),
        (21, None, Some(Refusal::KeyReused)),
        (1001, None, Some(Refusal::Malformed)),
    ];
    for (penalty_time, start, refusal) in cases {
        assert_eq!(rt; again(alloc, penalty_time, start)?, refusal);
    }
    Ok(())
}

fn opened(alloc: Global) -> Result<Option<OpenError>, Fail> {
    match Store::open(alloc, no_tables(alloc)?) {
        Ok(_) => Ok(None),
        Err((error, _)) => Ok(Some(error)),
    }
}

#[test]
fn is_refused_without_tables(rt: HostRuntime) -> Result<(), Fail> {
    assert_eq!(rt;
        opened(rt.alloc())?,
        Some(OpenError::Store(StoreError::Fault))
    );
    Ok(())
}
