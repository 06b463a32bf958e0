//! The demo contest in both stores.
ghost use Rattle.std.specs.Prelude.{◌≡◌, [], IfOk, IsTrue};
ghost use Rattle.contest_types.specs.State.{new_contest};
ghost use Rattle.contest_types.specs.declared.contest.Contest.{Contest as TheContest};
ghost use Rattle.contest_lists.specs.Lists.{with_submissions};
ghost use Rattle.contest_demo.specs.Filling.{IsJustCreated};
ghost use Rattle.contest_store.specs.InMemory.{committed_of, contest_of};

use crate::memory_changes::counts;
use crate::tables::{no_tables, refused};
use contest_demo::demo;
use contest_store::{ContestStore, MemoryStore};
use contest_store_sqlite::Store;
use contest_types::{Contest, Fixed, Marks, Rows, Settings};
use std::alloc::Global;
use std::rc::Rc;
use std::test::Fail;

/// How many of each list stand where so many teams and problems are asked for.
static CASES: [(usize, usize, [usize; 9]); 4] = [
    (4, 2, [3, 2, 2, 0, 4, 7, 0, 0, 0]),
    (9, 9, [3, 2, 2, 0, 4, 7, 0, 0, 0]),
    (1, 0, [3, 2, 0, 0, 1, 4, 0, 0, 0]),
    (0, 1, [3, 2, 1, 0, 0, 3, 0, 0, 0]),
];

/// The contest, in which nothing stands.
pub fn demo_fixed(alloc: Global) -> Result<Rc<Fixed>, Fail>
    ensures { IfOk result (λ fixed. (c : TheContest) × (with_submissions fixed.value [] ≡ new_contest c)) }
{
    let Contest { head, start } = demo::contest(alloc, false)?;
    let fixed = Fixed {
        settings: Settings::new(alloc, head)?,
        accounts: Rows::new(alloc),
        marks: Marks {
            start,
            thaw: None,
            finalized: None,
        },
    };
    Ok(Rc::new(alloc, fixed)?)
}

fn in_memory(alloc: Global) -> Result<MemoryStore, Fail>
    ensures { IfOk result (λ store. (c : TheContest) × (contest_of store ≡ new_contest c) × (committed_of store ≡ new_contest c)) }
{
    let fixed = demo_fixed(alloc)?;
    Ok(MemoryStore::new(alloc, fixed))
}

/// Fills any store in which nothing stands, and counts what stands then.
fn filled<S: ContestStore>(
    alloc: Global,
    store: &mut S,
    teams: usize,
    problems: usize,
) -> Result<[usize; 9], Fail>
    requires loaded { IsTrue (S.kept store.old).is_loaded }
    requires created { IsJustCreated (S.kept store.old) }
{
    demo::fill(alloc, store, teams, problems)?;
    store.load(alloc)?;
    Ok(counts(store.lists()))
}

fn filled_memory(alloc: Global, teams: usize, problems: usize) -> Result<[usize; 9], Fail> {
    let mut store = in_memory(alloc)?;
    filled(alloc, &mut store, teams, problems)
}

/// The whole contest in memory, as the library fills it.
pub fn whole_demo(alloc: Global) -> Result<MemoryStore, Fail> {
    let mut store = in_memory(alloc)?;
    demo::fill(alloc, &mut store, 4, 2)?;
    Ok(store)
}

fn filled_tables(alloc: Global, teams: usize, problems: usize) -> Result<[usize; 9], Fail> {
    let contest = demo::contest(alloc, false)?;
    match Store::create(alloc, no_tables(alloc)?, contest) {
        Ok(store) => {
            let mut store = store;
            filled(alloc, &mut store, teams, problems)
        }
        Err(why) => Err(refused(why)),
    }
}

#[test]
fn fills_each_store(rt: HostRuntime) -> Result<(), Fail> {
    for (teams, problems, counts) in CASES.iter() {
        assert_eq!(rt; &filled_memory(rt.alloc(), *teams, *problems)?, counts);
        assert_eq!(rt; &filled_tables(rt.alloc(), *teams, *problems)?, counts);
    }
    Ok(())
}
