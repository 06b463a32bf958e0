//! What a command asks of the machine: the time, the file that keeps the contest, and what is
//! outside of it.
ghost use Rattle.std.specs.Prelude.{◌≡◌, ℕ, Bool, List, Result, IfOk, IfErr};
ghost use Rattle.sqlite.specs.Held.{Held, state};
ghost use Rattle.contest_streams.specs.Streams.{Counting};
ghost use Rattle.contest_store_tables.specs.Numbered.{IsNumbered};
ghost use Rattle.contest_cli_words.specs.declared.command_error.CommandError.{CommandError as TheError};
ghost use Rattle.contest_cli_machine.specs.Unopened.{IsNoFile, IsNoStore};
ghost use Rattle.contest_cli_machine.specs.declared.opening.Opening.{Opening as TheOpening};

use crate::network::Network;
use crate::opening::Opening;
use contest_cli_words::CommandError;
use contest_streams::Counted;
use contest_types::Moment;
use sqlite::{Alter, Connection};
use std::io::Read;

/// The clock of a machine.
pub trait MachineClock {
    /// This is what the clock shows: a moment, or none.
    ghost shows: { Self → Result ℕ TheError → Type 0 };

    /// The moment that the clock shows. The error is `Clock`.
    fn now(&self) -> Result<Moment, CommandError>
        ensures shown { shows self.now result }
        ensures err { IfErr result (λ stop. stop ≡ CommandError.Clock) };
}

/// A machine but for the file that keeps a contest: its clock, its other files, and the place where
/// clients connect.
pub trait Outside: Network {
    /// A file that is read.
    type File: Read + Drop;

    /// This comes of opening the file at a path to be read: its bytes, or none.
    ghost reads: { List ℕ → Result (Counting Self.File) TheError → Type 0 };

    /// The file at a path, to be read.
    ///
    /// # Errors
    ///
    /// `File` where it can't be opened, or want of memory.
    fn read(&self, path: &str) -> Result<Counted<Self::File>, CommandError>
        ensures reads { reads path.now result }
        ensures refused { IfErr result IsNoFile };
}

/// The machine that a command runs on.
pub trait Machine: MachineClock + Drop {
    /// Where an SQLite file is.
    type Disk: Alter + Drop;
    /// The rest of the machine.
    type Outside: Outside;

    /// This comes of looking whether something is at a path.
    ghost there: { Self → List ℕ → Result Bool TheError → Type 0 };

    /// This comes of opening the SQLite file at a path in some way.
    ghost found: { TheOpening → List ℕ → Result (Held Self.Disk) TheError → Type 0 };

    /// It has parted from an SQLite file.
    ghost left: { Self.Disk → Type 0 };

    /// The rest of the machine.
    fn outside(&self) -> Self::Outside;

    /// Whether something is at the path `file`.
    ///
    /// # Errors
    ///
    /// `StoreFault` where that can't be told, or want of memory.
    fn has(&self, file: &str) -> Result<bool, CommandError>
        ensures there { there self.now file.now result }
        ensures refused { IfErr result IsNoStore };

    /// The SQLite file at `file`. With `Existing` it isn't made, nor is anything beside it, where
    /// there is none.
    ///
    /// # Errors
    ///
    /// `StoreFault` where it can't be opened, or isn't there and none is made; or want of memory.
    fn open(self, file: &str, opening: Opening) -> Result<Connection<Self::Disk>, CommandError>
        ensures found { found opening file.now result }
        ensures numbered { IfOk result (λ conn. IsNumbered (state Self.Disk.Store conn)) }
        ensures refused { IfErr result IsNoStore };

    /// Parts from an SQLite file: what its log holds goes into the file itself, where that can be
    /// done. What was committed stands in either.
    fn close(store: Self::Disk)
        ensures { left store };
}
