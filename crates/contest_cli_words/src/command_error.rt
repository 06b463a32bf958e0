//! Why a command gives no output, and the line that tells of it.
ghost use Rattle.std.specs.Prelude.{◌≡◌, OnOk, OnErr};
ghost use Rattle.std.specs.Io.KnownBytes.{Appends};
ghost use Rattle.clap.specs.Values.{kind_of};
ghost use Rattle.contest_streams.specs.Streams.{AppendsFront, Fails, Tells, stream};
ghost use Rattle.contest_cli_words.specs.CommandErrors.{line_of, exit_status_of, IsMemory};
ghost use Rattle.contest_cli_words.specs.CommandErrors.{IsWordsOrMemory};

use crate::refusal_line::refusal_line;
use clap::error::ErrorKind;
use contest_streams::{Counted, InputFault, OutputFault, write_all};
use contest_types::Refusal;
use std::alloc::{AllocError, Global};
use std::io::Write;

/// Why a command gives no output.
#[derive(Drop)]
pub enum CommandError {
    /// The words are refused, with this text.
    Usage(String),
    /// What the command reads is refused, or memory is.
    Refused(Refusal),
    /// A stream failed, or a file can't be opened.
    File,
    /// The clock can't be read, or shows a time that is no moment of a contest.
    Clock,
    /// Nobody can connect: the port can't be had, or listening on it failed.
    Net,
}

impl CommandError {
    /// What clap says of words that it refuses, or want of memory.
    pub(crate) fn from_clap(alloc: Global, error: &clap::Error) -> CommandError
        ensures memory { kind_of error.now ≡ ErrorKind.OutOfMemory → IsMemory result }
        ensures words { IsWordsOrMemory result }
    {
        if error.kind() == ErrorKind::OutOfMemory {
            return CommandError::Refused(Refusal::Memory);
        }
        match error.to_string(alloc) {
            Ok(text) => CommandError::Usage(text),
            Err(AllocError) => CommandError::Refused(Refusal::Memory),
        }
    }

    /// Tells `err` of it, as far as `err` takes it, and answers the program's exit status.
    pub fn refuse<E: Write>(&self, err: &mut Counted<E>) -> u8
        ensures status { result ≡ exit_status_of self.now }
        ensures told { Tells (stream E.contents err.old) (stream E.contents err.new) (line_of self.now) }
    {
        let _ = self.tell(err);
        match self {
            CommandError::Usage(_) => 2,
            CommandError::Refused(_)
            | CommandError::File
            | CommandError::Clock
            | CommandError::Net => 1,
        }
    }

    /// Writes the line that tells of it.
    pub(crate) fn tell<E: Write>(&self, err: &mut Counted<E>) -> Result<(), OutputFault>
        ensures ok { OnOk result (Appends (E.contents err.old.inner) (E.contents err.new.inner) (line_of self.now)) }
        ensures err { OnErr result (AppendsFront (E.contents err.old.inner) (E.contents err.new.inner) (line_of self.now)) }
        ensures fault { OnErr result (Fails (stream E.contents err.old) (stream E.contents err.new)) }
    {
        match self {
            CommandError::Usage(text) => write_all(err, text.as_bytes()),
            CommandError::Refused(refusal) => write_all(err, refusal_line(*refusal).as_bytes()),
            CommandError::File => write_all(err, b"refused: File\n"),
            CommandError::Clock => write_all(err, b"refused: Clock\n"),
            CommandError::Net => write_all(err, b"refused: Net\n"),
        }
    }
}

impl From<AllocError> for CommandError {
    ghost use Rattle.contest_cli_words.specs.CommandErrors.{IsMemory};

    ghost from_gives = { λ _ stop. IsMemory stop };

    fn from(_error: AllocError) -> CommandError {
        CommandError::Refused(Refusal::Memory)
    }
}

impl From<Refusal> for CommandError {
    ghost use Rattle.std.specs.Prelude.{◌≡◌};
    ghost use Rattle.contest_cli_words.specs.declared.command_error.CommandError.TheVariants.{Refused};

    ghost from_gives = { λ refusal stop. stop ≡ Refused refusal };

    fn from(refusal: Refusal) -> CommandError {
        CommandError::Refused(refusal)
    }
}

impl From<InputFault> for CommandError {
    ghost use Rattle.std.specs.Prelude.{◌≡◌};
    ghost use Rattle.contest_cli_words.specs.CommandErrors.{stop_of};

    ghost from_gives = { λ fault stop. stop ≡ stop_of fault };

    fn from(fault: InputFault) -> CommandError {
        match fault {
            InputFault::File => CommandError::File,
            InputFault::TooLarge => CommandError::Refused(Refusal::BodyTooLarge),
            InputFault::Memory => CommandError::Refused(Refusal::Memory),
        }
    }
}
