//! The help of a command: when it is asked for, and how it is shown.
ghost use Rattle.std.specs.Prelude.{◌≡◌};
ghost use Rattle.std.specs.List.{list_any};
ghost use Rattle.contest_streams.specs.Streams.{stream};
ghost use Rattle.contest_cli_words.specs.Endings.{ShowsSome};
ghost use Rattle.contest_cli_words.specs.Help.{is_help};

use crate::command_error::CommandError;
use crate::output::show;
use clap::Command;
use contest_streams::Counted;
use contest_types::Refusal;
use std::alloc::AllocError;
use std::io::Write;

/// Whether a command's options ask for its help.
pub fn asks_help(options: &[&str]) -> bool
    ensures { result ≡ list_any (λ s. is_help s.now) options.now }
{
    options.iter().any(|option| is_help(option))
}

/// Whether an option asks for its command's help.
pub fn is_help(option: &str) -> bool
    ensures { result ≡ is_help option.now }
{
    option == "--help" || option == "-h"
}

/// Writes the help of a command, as clap lays it out, to `out`, or tells `err` that `out` failed or
/// memory was refused. Answers the exit status, 0 or 1.
pub fn show_help<O: Write, E: Write>(
    command: Command<'_>,
    out: &mut Counted<O>,
    err: &mut Counted<E>,
) -> u8
    ensures { ShowsSome
        (stream O.contents out.old) (stream O.contents out.new)
        (stream E.contents err.old) (stream E.contents err.new) result }
{
    match help_of(command) {
        Ok(text) => show(text.as_bytes(), out, err),
        Err(AllocError) => CommandError::Refused(Refusal::Memory).refuse(err),
    }
}

// What clap lays out. The error is want of memory.
fn help_of(command: Command<'_>) -> Result<String, AllocError> {
    let mut command = command;
    command.render_help()
}
