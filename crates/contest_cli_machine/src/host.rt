//! The machine that the program runs on.
ghost use Rattle.std.specs.Prelude.{◌≡◌, ◌≢◌, ◌≤◌, ◌/◌, ◌↔◌, IfOk, IfErr, IsOk, IsOkAnd, SomeIff};
ghost use Rattle.std.specs.Time.{system_time_nanos};
ghost use Rattle.std.specs.IoError.{error_kind};
ghost use Rattle.sqlite.specs.Files.{AreFoundIn, file_state};
ghost use Rattle.sqlite.specs.State.{HasCleanDisk};
ghost use Rattle.sqlite.specs.WalFiles.{image_at};
ghost use Rattle.contest_types.specs.MomentText.{latest};
ghost use Rattle.contest_types.specs.declared.refusal.Refusal.TheVariants.{Memory, StoreFault};
ghost use Rattle.contest_store_tables.specs.Numbered.{IsNumbered};
ghost use Rattle.contest_cli_machine.specs.Unopened.{IsNoFile, IsNoStore};

use crate::host_network::HostNetwork;
use crate::machine::{Machine, MachineClock};
use crate::opening::Opening;
use contest_cli_words::CommandError;
use contest_streams::Counted;
use contest_types::{Moment, Refusal};
use sqlite::{Connection, Error, ErrorCode, FileFrom, FileStore, Start};
use std::fs::{self, File, Files};
use std::io::{self, ErrorKind};
use std::time::{Clock, SystemTime, UNIX_EPOCH};

/// The runtime, and what stands for what the files hold that keep a contest.
#[derive(Drop)]
pub struct Host<'a, D: Start> {
    pub rt: &'a HostRuntime,
    pub disk: D,
}

impl<D: Start> MachineClock for Host<'_, D> {
    ghost shows = { λ machine answer. Unit {0} };

    fn now(&self) -> Result<Moment, CommandError> {
        moment_now(self.rt)
    }
}

impl<'a, D: Start> Machine for Host<'a, D> {
    ghost use Rattle.sqlite.specs.Files.{AreFoundIn, file_state};
    ghost use Rattle.sqlite.specs.State.{HasCleanDisk};
    ghost use Rattle.sqlite.specs.WalFiles.{image_at};
    ghost use Rattle.std.specs.Prelude.{IfOk};

    type Disk = FileStore<FileFrom<D>>;

    type Outside = HostNetwork<'a>;

    ghost there = { λ machine path answer. Unit {0} };

    ghost found = { λ opening path answer. IfOk answer (λ conn. HasCleanDisk (file_state conn) → AreFoundIn (image_at D.Start) (file_state conn).now.trees) };

    ghost left = { λ store. Unit {0} };

    fn outside(&self) -> HostNetwork<'a> {
        HostNetwork { rt: self.rt }
    }

    fn has(&self, file: &str) -> Result<bool, CommandError> {
        is_there(self.rt, file)
    }

    fn open(
        self,
        file: &str,
        opening: Opening,
    ) -> Result<Connection<FileStore<FileFrom<D>>>, CommandError> {
        match find(self.rt, file, opening) {
            Ok(()) => open_store(self.rt, file, self.disk),
            Err(stop) => Err(stop),
        }
    }

    fn close(mut store: FileStore<FileFrom<D>>)
        ensures { Unit {0} }
    {
        let _ = store.checkpoint();
        drop(store.close());
    }
}

// The moment that a clock shows.
pub(crate) fn moment_now(clock: &impl Clock) -> Result<Moment, CommandError>
    ensures { IfErr result (λ stop. stop ≡ CommandError.Clock) }
{
    moment_shown(SystemTime::now(clock))
}

// The same, where the clock shows this time, or fails.
fn moment_shown(time: io::Result<SystemTime>) -> Result<Moment, CommandError>
    ensures ok { IfOk result (λ moment. IfOk time (λ now. moment ≡ system_time_nanos now / 1_000_000)) }
    ensures some { IsOk result ↔ IsOkAnd time (λ now. system_time_nanos now / 1_000_000 ≤ latest) }
    ensures err { IfErr result (λ stop. stop ≡ CommandError.Clock) }
{
    match time {
        Ok(now) => match moment_of(now) {
            Some(moment) => Ok(moment),
            None => Err(CommandError::Clock),
        },
        Err(_) => Err(CommandError::Clock),
    }
}

// The moment of a time, to the millisecond; none past the last moment that there is.
fn moment_of(time: SystemTime) -> Option<Moment>
    ensures { SomeIff result (system_time_nanos time / 1_000_000 ≤ latest) (system_time_nanos time / 1_000_000) }
{
    let since_1970 = time.duration_since(UNIX_EPOCH).unwrap();
    match u64::try_from(since_1970.as_millis()) {
        Ok(milliseconds) => Moment::from_milliseconds(milliseconds),
        Err(_) => None,
    }
}

// Whether something is at a path. A link counts by what it leads to.
fn is_there<F: Files>(files: &F, path: &str) -> Result<bool, CommandError>
    ensures { IfErr result IsNoStore }
{
    match fs::exists(files, path) {
        Ok(there) => Ok(there),
        Err(error) => Err(unseen(&error)),
    }
}

// What is said of a path at which nothing can be looked for.
fn unseen(error: &io::Error) -> CommandError
    ensures memory { error_kind error.now ≡ ErrorKind.OutOfMemory → result ≡ CommandError.Refused Memory }
    ensures fault { error_kind error.now ≢ ErrorKind.OutOfMemory → result ≡ CommandError.Refused StoreFault }
{
    if error.kind() == ErrorKind::OutOfMemory {
        CommandError::Refused(Refusal::Memory)
    } else {
        CommandError::Refused(Refusal::StoreFault)
    }
}

// Looks for a file that has to be there: an SQLite file would be made by its opening.
fn find<F: Files>(files: &F, path: &str, opening: Opening) -> Result<(), CommandError>
    ensures { IfErr result IsNoStore }
{
    match opening {
        Opening::Existing => {
            if is_there(files, path)? {
                Ok(())
            } else {
                Err(CommandError::Refused(Refusal::StoreFault))
            }
        }
        Opening::New => Ok(()),
    }
}

// A connection to the SQLite file at a path, which is made where there is none. In a desk's
// database the rows rise by their numbers.
fn open_store<D: Start>(
    rt: &HostRuntime,
    path: &str,
    disk: D,
) -> Result<Connection<FileStore<FileFrom<D>>>, CommandError>
    ensures found { IfOk result (λ conn. HasCleanDisk (file_state conn) → AreFoundIn (image_at D.Start) (file_state conn).now.trees) }
    ensures numbered { IfOk result (λ conn. IsNumbered (file_state conn)) }
    ensures refused { IfErr result IsNoStore }
{
    match Connection::open_from(rt, path, false, disk) {
        Ok(conn) => Ok(conn),
        Err((error, _)) => Err(no_store(&error)),
    }
}

// What is said of an SQLite file that can't be opened.
fn no_store(error: &Error) -> CommandError
    ensures memory { error.now ≡ Error.SqliteFailure ErrorCode.OutOfMemory → result ≡ CommandError.Refused Memory }
    ensures fault { error.now ≢ Error.SqliteFailure ErrorCode.OutOfMemory → result ≡ CommandError.Refused StoreFault }
{
    match error {
        Error::SqliteFailure(ErrorCode::OutOfMemory) => CommandError::Refused(Refusal::Memory),
        _ => CommandError::Refused(Refusal::StoreFault),
    }
}

// The file at a path, to be read.
pub(crate) fn open_file<F: Files>(files: &F, path: &str) -> Result<Counted<F::File>, CommandError>
    ensures { IfErr result IsNoFile }
{
    match File::open(files, path) {
        Ok(file) => Ok(Counted::new(file)),
        Err(error) => Err(no_file(&error)),
    }
}

// What is said of a file that can't be opened.
fn no_file(error: &io::Error) -> CommandError
    ensures memory { error_kind error.now ≡ ErrorKind.OutOfMemory → result ≡ CommandError.Refused Memory }
    ensures fault { error_kind error.now ≢ ErrorKind.OutOfMemory → result ≡ CommandError.File }
{
    if error.kind() == ErrorKind::OutOfMemory {
        CommandError::Refused(Refusal::Memory)
    } else {
        CommandError::File
    }
}
