//! A desk in memory at which nothing is set up but the contest.

ghost use Rattle.std.specs.Prelude.{IfOk};
ghost use Rattle.contest_desk.specs.Serving.{IsSettled};
ghost use Rattle.contest_store.specs.InMemory.{kept_of};

use contest_desk::Desk;
use contest_import::read_contest_json;
use contest_lists::is_valid_fixed;
use contest_store::MemoryStore;
use contest_types::{Contest, Fixed, Marks, Rows, Settings};
use std::alloc::Global;
use std::rc::Rc;
use std::test::Fail;

/// The desk of the contest that a file says.
pub fn desk_of(alloc: Global, file: &[u8]) -> Result<Desk<MemoryStore>, Fail> {
    match Desk::new(alloc, store(alloc, file)?) {
        Ok(desk) => Ok(desk),
        Err(_) => Err(Fail::from("no desk")),
    }
}

fn store(alloc: Global, file: &[u8]) -> Result<MemoryStore, Fail>
    ensures { IfOk result (λ store. IsSettled (kept_of store)) }
{
    let fixed = fixed_of(alloc, read_contest_json(alloc, file)?)?;
    if !is_valid_fixed(&fixed) {
        return Err(Fail::from("the contest isn't valid"));
    }
    Ok(MemoryStore::new(alloc, fixed))
}

fn fixed_of(alloc: Global, contest: Contest) -> Result<Rc<Fixed>, Fail> {
    let marks = Marks {
        start: contest.start,
        thaw: None,
        finalized: None,
    };
    let settings = Settings::new(alloc, contest.head)?;
    let accounts = Rows::new(alloc);
    Ok(Rc::new(
        alloc,
        Fixed {
            settings,
            accounts,
            marks,
        },
    )?)
}
