//! What the words of a command name.
ghost use Rattle.std.specs.Prelude.{◌≡◌, ◌⊎◌, IfErr, IfOk, List, map, true};
ghost use Rattle.clap.specs.Matches.{found_of};
ghost use Rattle.clap.specs.Simple.{App};
ghost use Rattle.clap.specs.Walk.{Row, Text, rows_of};
ghost use Rattle.contest_cli_words.specs.CommandErrors.{IsMemory, IsWords};
ghost use Rattle.contest_cli_words.specs.CommandTable.{HasFault, HasWords, Names, StopsNaming};
ghost use Rattle.contest_cli_words.specs.CommandTable.{app_in, wants_words};

use crate::arguments::matches_in;
use crate::command_error::CommandError;
use crate::command_table::{CommandTable, command_of};
use clap::ArgMatches;
use std::alloc::Global;

/// What the words of a command name.
pub trait CommandWords<'a>: Drop {
    /// The command, as clap knows it.
    ghost app: { App };

    /// The words that have to be there.
    ghost wanted: { List Text };

    /// Values of the command's words name this.
    ghost names: { List Row → Self → Type 0 };

    /// The command.
    fn command() -> CommandTable<'a>
        ensures table { app_in result ≡ app }
        ensures wants { wants_words wanted app ≡ true };

    /// What the values name that clap found.
    ///
    /// # Errors
    ///
    /// What is said of values that name nothing, or want of memory.
    fn named(alloc: Global, values: &ArgMatches<'a>) -> Result<Self, CommandError>
        requires { HasWords wanted (rows_of (found_of values.now)) }
        ensures ok { IfOk result (names (rows_of (found_of values.now))) }
        ensures stops { IfErr result (StopsNaming names (rows_of (found_of values.now))) };
}

/// What the words of a command name; the first word is the command's own. The error is what is said
/// of words that have a fault, or want of memory. A call for help counts as a fault.
pub fn read_words<'a, W: CommandWords<'a>>(
    alloc: Global,
    words: &'a [&'a str],
) -> Result<W, CommandError>
    ensures ok { IfOk result (Names W.names W.app (map (λ s. s.now) words.entry.now)) }
    ensures refused { IfErr result (λ stop. IsMemory stop ⊎ (IsWords stop × HasFault W.names W.app (map (λ s. s.now) words.entry.now))) }
{
    let command = command_of(alloc, &W::command())?;
    let values = matches_in(alloc, command, words)?;
    W::named(alloc, &values)
}
