//! Calls of a store, one after the other, and what came of each.
ghost use Rattle.std.specs.Prelude.{IsTrue};

use contest_store::{ContestStore, StoreError};
use contest_store_sqlite::Store;
use contest_types::{Entry, Moment};
use sqlite::Alter;
use std::alloc::Global;
use std::io;

/// A call of a store, once its lists are in memory.
#[derive(Clone, Copy)]
enum Step {
    /// Reads the thaw in the lists.
    Lists,
    /// Sets the thaw, and reads it.
    Append(Moment),
    /// Reads the first file of the first team.
    File,
    /// Commits.
    Commit,
}

impl Step {
    fn name(self) -> &'static str {
        match self {
            Step::Lists => "lists",
            Step::Append(_) => "append",
            Step::File => "file",
            Step::Commit => "commit",
        }
    }
}

/// What a step saw, as a number: the thaw, how long a file is, or zero.
fn take_step<S: ContestStore>(alloc: Global, store: &mut S, step: Step) -> Result<u64, StoreError> {
    store.load(alloc)?;
    match step {
        Step::Lists => Ok(thaw_in(store)),
        Step::Append(moment) => {
            store.append(alloc, Entry::SetThaw(moment))?;
            Ok(thaw_in(store))
        }
        Step::File => match store.file(alloc, 0, 1)? {
            Some(bytes) => Ok(bytes.as_slice().len() as u64),
            None => Ok(0),
        },
        Step::Commit => {
            store.commit()?;
            Ok(0)
        }
    }
}

fn thaw_in<S: ContestStore>(store: &S) -> u64
    requires { IsTrue (S.kept store.now).is_loaded }
{
    match store.lists().fixed().marks.thaw {
        Some(moment) => moment.milliseconds(),
        None => 0,
    }
}

/// Goes through the steps, and prints a line for each. Whoever reads them misses one that can't be
/// printed.
pub(crate) fn walk<S: Alter>(
    rt: &HostRuntime,
    store: &mut Store<S>,
    first: Moment,
    second: Moment,
) {
    let steps = [
        Step::Lists,
        Step::Append(first),
        Step::Lists,
        Step::File,
        Step::Commit,
        Step::Lists,
        Step::Append(second),
        Step::File,
        Step::Commit,
        Step::Commit,
        Step::Lists,
        Step::Append(first),
        Step::Lists,
        Step::Commit,
        Step::File,
        Step::Lists,
    ];
    for step in steps.iter() {
        let seen = take_step(rt.alloc(), store, *step);
        let _ = tell_step(rt, *step, seen, store.faults());
    }
}

fn tell_step(
    rt: &HostRuntime,
    step: Step,
    seen: Result<u64, StoreError>,
    faults: u64,
) -> io::Result<()> {
    let name = step.name();
    match seen {
        Ok(number) => println!(rt; "{name} {number} {faults}"),
        Err(error) => {
            let row = error.refusal().row();
            println!(rt; "{name} E{} {faults}", row.number)
        }
    }
}
