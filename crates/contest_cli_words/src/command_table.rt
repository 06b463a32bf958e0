//! A command as data: its name, and a row for each of its words.
ghost use Rattle.std.specs.Prelude.{◌≡◌, IfOk, false};
ghost use Rattle.clap.specs.Simple.{app_of};
ghost use Rattle.clap.specs.Walk.{rule_of};
ghost use Rattle.contest_cli_words.specs.CommandTable.{app_in, rule_by};

use crate::arguments::{flag, headed, option, with_arg, word};
use clap::{Arg, Command};
use std::alloc::{AllocError, Global};

/// What a row is of.
#[derive(Clone, Copy)]
pub enum WordKind<'a> {
    /// A word that has to be there.
    Word,
    /// An option without a value: `--name`.
    Flag,
    /// An option with a value, which its help calls this: `--name VALUE`.
    Option(&'a str),
}

/// One word, flag or option of a command.
#[derive(Clone, Copy)]
pub struct WordRow<'a> {
    /// The name by which the value of the row is asked for.
    pub name: &'a str,
    /// Whether the row is a word, a flag or an option.
    pub kind: WordKind<'a>,
    /// The row's line of help.
    pub help: &'a str,
}

/// A command.
#[derive(Clone, Copy)]
pub struct CommandTable<'a> {
    /// The command's name.
    pub name: &'a str,
    /// How the command is called.
    pub called: &'a str,
    /// The command's first line of help.
    pub about: &'a str,
    /// The command's words, flags and options, in their order.
    pub rows: &'a [WordRow<'a>],
}

/// The command, as clap knows it. The error is want of memory.
pub fn command_of<'a>(alloc: Global, table: &CommandTable<'a>) -> Result<Command<'a>, AllocError>
    ensures { IfOk result (λ c. app_of c ≡ app_in table.now) }
{
    let mut command = headed(alloc, table.name, table.called, table.about);
    for row in table.rows {
        command = with_arg(command, arg_of(alloc, row));
    }
    command
}

// What clap knows of a row.
fn arg_of<'a>(alloc: Global, row: &WordRow<'a>) -> Arg<'a>
    ensures rule { rule_of result ≡ rule_by row.now }
    ensures local { result.global ≡ false }
{
    match row.kind {
        WordKind::Word => word(alloc, row.name, row.help),
        WordKind::Flag => flag(alloc, row.name, row.help),
        WordKind::Option(value) => option(alloc, row.name, value, row.help),
    }
}
