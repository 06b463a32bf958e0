//! The files that are kept between the beginnings of a script.

use crate::script::FileTask;
use sqlite_disk::{Crash, Disk, Files, Fuse, Memory};
use std::alloc::{AllocError, Global};
use std::io;

/// A file, by what is found in it and how many calls it answers.
#[derive(Clone, Copy)]
pub struct Fused {
    pub found: Found,
    pub calls: u64,
}

/// What is found in a file.
#[derive(Clone, Copy)]
pub enum Found {
    Nothing,
    Base,
    /// All that was written.
    Written,
    /// What was synced, as a crash may leave it.
    Synced,
}

/// The bytes of a database file, and those of its log.
#[derive(Drop)]
struct Image {
    database: Vec<u8>,
    log: Vec<u8>,
}

/// The base, and what the last files held.
#[derive(Drop)]
pub struct Shelf {
    nothing: Image,
    base: Image,
    written: Image,
    synced: Image,
}

impl Image {
    fn new(alloc: Global) -> Image {
        Image {
            database: Vec::new(alloc),
            log: Vec::new(alloc),
        }
    }

    fn set(&mut self, database: &[u8], log: &[u8]) -> Result<(), AllocError> {
        self.database.clear();
        self.database.extend_from_slice(database)?;
        self.log.clear();
        self.log.extend_from_slice(log)
    }
}

impl Shelf {
    pub fn new(alloc: Global) -> Shelf {
        Shelf {
            nothing: Image::new(alloc),
            base: Image::new(alloc),
            written: Image::new(alloc),
            synced: Image::new(alloc),
        }
    }

    /// Makes what was written last the base.
    pub fn set_base(&mut self) -> Result<(), AllocError> {
        self.base.set(&self.written.database, &self.written.log)
    }

    /// The files that a task finds.
    pub fn files(&self, alloc: Global, task: FileTask<'_>) -> io::Result<Files<Fuse<Memory>>> {
        let (database, log) = (self.image(task.database.found), self.image(task.log.found));
        Ok(Files {
            log: file(alloc, &log.log, task.log.calls)?,
            db: file(alloc, &database.database, task.database.calls)?,
        })
    }

    fn image(&self, found: Found) -> &Image {
        match found {
            Found::Nothing => &self.nothing,
            Found::Base => &self.base,
            Found::Written => &self.written,
            Found::Synced => &self.synced,
        }
    }

    /// Keeps what files hold, and what a crash leaves of it.
    pub fn put(&mut self, files: &mut Files<Fuse<Memory>>) -> Result<(), AllocError> {
        let (database, log) = (files.db.inner().bytes(), files.log.inner().bytes());
        self.written.set(database, log)?;
        files.db.crash();
        files.log.crash();
        let (database, log) = (files.db.inner().bytes(), files.log.inner().bytes());
        self.synced.set(database, log)
    }
}

/// A file that holds these bytes, and stops after so many calls.
fn file(alloc: Global, bytes: &[u8], calls: u64) -> io::Result<Fuse<Memory>> {
    let mut memory = Memory::new(alloc);
    memory.write_at(0, bytes)?;
    memory.sync()?;
    Ok(Fuse::new(memory, calls))
}

/// Whether a file answers no call any more.
pub fn has_stopped<D: Disk>(file: &mut D) -> bool {
    !file.may_be_used() || file.len().is_err()
}
