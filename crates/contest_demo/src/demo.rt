//! The demo contest: two problems, four teams of which one is hidden, two judges and an admin.
ghost use Rattle.std.specs.Prelude.{◌≡◌, ◌*◌, IfErr, IfOk, IsTrue};
ghost use Rattle.contest_demo.specs.Demo.{demo_contest, demo_entries};
ghost use Rattle.contest_demo.specs.Filling.{AddsAll, IsJustCreated, told};

use crate::filling::fill_store;
use crate::rows::{id, name};
use contest_store::ContestStore;
use contest_types::{Contest, ContestHead, Medals, Moment, Refusal, TimeSpan};
use std::alloc::{AllocError, Global};

// 2024-03-02T09:00:00Z, in milliseconds after 1970.
const START: u64 = 1_709_370_000_000;

const HOUR: u64 = 3_600_000;

/// The contest as it is set up: five hours from nine o'clock, the last of them frozen.
///
/// # Errors
///
/// `Memory` alone.
pub fn contest(alloc: Global, verification: bool) -> Result<Contest, Refusal>
    ensures value { IfOk result (λ contest. contest ≡ demo_contest verification) }
    ensures memory { IfErr result (λ e. e ≡ Refusal.Memory) }
{
    Ok(Contest {
        head: head(alloc, verification)?,
        start: Some(nine_o_clock()),
    })
}

fn head(alloc: Global, verification: bool) -> Result<ContestHead, AllocError>
    ensures { IfOk result (λ head. head ≡ (demo_contest verification).head) }
{
    Ok(ContestHead {
        id: id(alloc, "demo")?,
        name: name(alloc, "Demo Cup")?,
        duration: hours(5),
        freeze: Some(hours(1)),
        penalty_time: 20,
        verification,
        medals: Medals {
            gold: 4,
            silver: 4,
            bronze: 4,
        },
    })
}

fn nine_o_clock() -> Moment
    ensures { result ≡ 1_709_370_000_000 }
{
    match Moment::from_milliseconds(START) {
        Some(moment) => moment,
        None => unreachable!(),
    }
}

fn hours(count: u8) -> TimeSpan
    ensures { result ≡ count * 3_600_000 }
{
    match TimeSpan::new(u64::from(count) * HOUR) {
        Some(span) => span,
        None => unreachable!(),
    }
}

/// Puts the rest of it into a store that was just created: the judgement types, the languages, the
/// first so many problems, the first so many teams with their accounts (all where there are fewer),
/// and the accounts of the jury. The token of an account is `token-` and its id.
///
/// # Errors
///
/// `StoreFault` and `Memory` where the store failed or a growth was refused. Nothing is kept then.
pub fn fill<S: ContestStore>(
    alloc: Global,
    store: &mut S,
    teams: usize,
    problems: usize,
) -> Result<(), Refusal>
    requires loaded { IsTrue (S.kept store.old).is_loaded }
    requires created { IsJustCreated (S.kept store.old) }
    ensures { (answer : _) × (result ≡ told answer) × AddsAll answer (S.kept store.old) (S.kept store.new) (demo_entries teams problems) (Unit {0}) }
{
    match fill_store(alloc, store, teams, problems) {
        Ok(()) => Ok(()),
        Err(error) => Err(error.refusal()),
    }
}
