//! The program `wire`, for tests from outside: serves the requests and imports of a script over
//! contests that are kept in memory, or in tables over files in memory that stop at a call, and
//! prints what came of each. `script` says how they are written.
#![tactic(auto)]

mod desk;
mod files;
mod script;
mod session;
mod shelf;
mod streams;
mod tables;

use crate::files::file_session;
use crate::script::{Beginning, Script};
use crate::session::session;
use crate::shelf::Shelf;
use std::io::Read;
use std::test::Fail;

/// How many bytes of replies there is room for. So no growth is asked for between requests.
const ROOM: usize = 1_048_576;

fn main(rt: HostRuntime) -> Result<(), Fail> {
    let mut text = Vec::new(rt.alloc());
    rt.stdin().read_to_end(&mut text)?;
    let mut taken = Vec::new(rt.alloc());
    taken.reserve(ROOM)?;
    let mut script = Script {
        rest: &text,
        beginning: None,
    };
    let mut shelf = Shelf::new(rt.alloc());
    go(&rt, &mut script, &mut shelf, &mut taken)?;
    println!(rt; "end")?;
    Ok(())
}

/// Goes from beginning to beginning.
fn go(
    rt: &HostRuntime,
    script: &mut Script<'_>,
    shelf: &mut Shelf,
    taken: &mut Vec<u8>,
) -> Result<(), Fail> {
    for _ in 0..u64::MAX {
        match script.beginning() {
            Some(Beginning::InMemory(file)) => session(rt, script, file, taken)?,
            Some(Beginning::OverFiles(task)) => file_session(rt, script, task, shelf, taken)?,
            Some(Beginning::Base) => shelf.set_base()?,
            None => return Ok(()),
        }
    }
    Ok(())
}
