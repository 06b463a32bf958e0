//! What is done with the files of a contest, and what is told of it.
//!
//! That is `made`, `opened`, `upgraded`, `stands`, `ran` or `failed`, the line of a refusal, or
//! `unopened`, where the files hold no database; after what comes of the steps at a desk it is what
//! its store counted. Last comes `closed DATABASE LOG`: whether the file `stopped`, so that it
//! answers no call any more, or `goes` on.

ghost use Rattle.std.specs.Prelude.{◌≡◌, ◌&&◌, IfOk, IsTrue};
ghost use Rattle.sqlite.specs.Files.{file_state};
ghost use Rattle.contest_store_tables.specs.Numbered.{IsNumbered};

use crate::script::{FileTask, FileWork, Script};
use crate::shelf::{Shelf, has_stopped};
use crate::tables::at_tables;
use sqlite::{Connection, FileStore, Options};
use sqlite_disk::{Disk, Files, Fuse, Memory};
use std::alloc::Global;
use std::io;
use std::test::Fail;

/// The seed of the numbers that tell one log from the next.
const SEED: u64 = 7;

/// Does what is asked with files, up to the next beginning, and keeps what they hold then.
pub fn file_session(
    rt: &HostRuntime,
    script: &mut Script<'_>,
    task: FileTask<'_>,
    shelf: &mut Shelf,
    taken: &mut Vec<u8>,
) -> Result<(), Fail> {
    let files = shelf.files(rt.alloc(), task)?;
    let (gone, mut files) = at_files(rt, script, task.work, files, taken);
    put_back(rt, shelf, &mut files, gone)
}

fn put_back(
    rt: &HostRuntime,
    shelf: &mut Shelf,
    files: &mut Files<Fuse<Memory>>,
    gone: io::Result<()>,
) -> Result<(), Fail> {
    gone?;
    tell_closed(rt, has_stopped(&mut files.db), has_stopped(&mut files.log))?;
    shelf.put(files)?;
    Ok(())
}

fn tell_closed(rt: &HostRuntime, database: bool, log: bool) -> io::Result<()> {
    let (database, log) = (state_of(database), state_of(log));
    println!(rt; "closed {database} {log}")
}

fn state_of(has_stopped: bool) -> &'static str {
    if has_stopped { "stopped" } else { "goes" }
}

/// As the program does, what the log holds is copied into the database file at the end, where that
/// can be done.
fn at_files<D: Disk + Drop>(
    rt: &HostRuntime,
    script: &mut Script<'_>,
    work: FileWork<'_>,
    files: Files<D>,
    taken: &mut Vec<u8>,
) -> (io::Result<()>, Files<D>) {
    match opened(rt.alloc(), files) {
        Ok(conn) => {
            let (gone, conn) = at_tables(rt, script, work, conn, taken);
            let mut store = conn.into_store();
            let _ = store.checkpoint();
            (gone, store.close())
        }
        Err(files) => (println!(rt; "unopened"), files),
    }
}

fn opened<D: Disk + Drop>(
    alloc: Global,
    files: Files<D>,
) -> Result<Connection<FileStore<D>>, Files<D>>
    ensures { IfOk result (λ conn. IsNumbered (file_state conn)) }
{
    if !files.may_be_used() {
        return Err(files);
    }
    match Connection::open_files(alloc, files, Options::new(SEED)) {
        Ok(conn) => Ok(conn),
        Err((_, left)) => Err(left.into_files()),
    }
}
