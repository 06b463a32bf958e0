//! Walks of requests and imports at a desk: reads each from a file that its words name, or all from
//! standard input, with the answers that they must get. Tells of each walk how long it was, and
//! what was answered otherwise.
#![tactic(auto)]

mod import_lines;
mod kept_cells;
mod rehearsal_desk;
mod reply_line;
mod request_lines;
mod walk;

use crate::walk::report_of;
use std::test::Fail;
use std::{env, fs, io};

fn main(rt: HostRuntime) -> Result<(), Fail> {
    let files: Vec<String> = env::args(&rt)?.skip(1).collect(rt.alloc())?;
    if files.is_empty() {
        let text = io::read_to_string(rt.alloc(), rt.stdin())?;
        for walk in text.split("\n== ").skip(1) {
            tell(&rt, walk)?;
        }
    }
    for file in &files {
        tell(&rt, &fs::read_to_string(&rt, file)?)?;
    }
    Ok(())
}

/// Goes a walk, and tells of it.
fn tell(rt: &HostRuntime, walk: &str) -> Result<(), Fail> {
    let report = report_of(rt.alloc(), walk)?;
    print!(rt; "{report}")?;
    Ok(())
}
