//! The help of the program and of its commands.
ghost use Rattle.contest_streams.specs.Streams.{stream};
ghost use Rattle.contest_cli_words.specs.Endings.{ShowsSome};

use crate::invocation::CommandName;
use clap::{Arg, ArgAction, Command};
use contest_cli_audit::AuditWords;
use contest_cli_replay::ReplayWords;
use contest_cli_words::{
    AwardsWords, BoardWords, CommandError, CommandWords, ExportWords, FeedWords, ImportWords,
    InitWords, ServeWords, UpgradeWords, command_of, show_help,
};
use contest_streams::Counted;
use contest_types::Refusal;
use std::alloc::{AllocError, Global};
use std::io::Write;

/// What `desk --version` shows: the version, and the kit and logic that prove it (`rt version`).
pub(crate) const VERSION: &str = "desk 1.1.0, proved by rattle-kit-13f logic dac8208d650f15bf\n";

/// What `desk help` shows.
pub(crate) const HELP: &str = "\
Jury and scoreboard desk of a programming contest

Usage: desk <COMMAND>

Commands:
  replay   Reads a contest as CSV on standard input and prints its board
  audit    Reads an event feed on standard input and prints its board
  init     Sets up a contest in a file, from its contest object as JSON
  import   Adds all rows of a file to a contest, or none, and prints how many
  board    Prints the board of a contest as somebody sees it
  awards   Prints the awards of a contest, once somebody is shown them
  export   Prints all submissions of a contest as CSV
  feed     Writes the event feed of a contest as somebody is served it
  serve    Serves a contest over HTTP, to this machine alone
  upgrade  Makes a file of the first schema one of the schema of today
  help     Prints this text, or the help of a command

Examples:
  desk replay --at 1:30:00 < contest.csv
  desk audit --jury < event-feed.ndjson
  desk audit --jury --against scoreboard.json < event-feed.ndjson
  desk init cup.db contest.json
  desk import cup.db problems problems.json
  desk board cup.db --audience jury
  desk awards cup.db --jury
  desk export cup.db > submissions.csv
  desk feed cup.db --audience jury > event-feed.ndjson
  desk serve cup.db --requests all --port 8080
  desk upgrade cup.db

'desk help <COMMAND>' tells more of a command; with --explain among its words, a
command says more of why it is refused. docs/FORMATS.md says how to write a
contest as CSV.
";

/// The line of `--explain` in the help of each command.
const EXPLAIN: &str = "Says more of a refusal, in lines for people behind the one that tells of it";

/// Writes the help of a command to `out`, or tells `err` that `out` failed or memory was refused.
/// Answers the exit status, 0 or 1.
pub(crate) fn show_help_of<O: Write, E: Write>(
    alloc: Global,
    command: CommandName,
    out: &mut Counted<O>,
    err: &mut Counted<E>,
) -> u8
    ensures { ShowsSome
        (stream O.contents out.old) (stream O.contents out.new)
        (stream E.contents err.old) (stream E.contents err.new) result }
{
    match app_of(alloc, command) {
        Ok(app) => show_help(app, out, err),
        Err(AllocError) => CommandError::Refused(Refusal::Memory).refuse(err),
    }
}

// A command, as its help tells of it. The error is want of memory.
fn app_of<'a>(alloc: Global, command: CommandName) -> Result<Command<'a>, AllocError> {
    let explain = Arg::new(alloc, "explain")
        .long("explain")
        .action(ArgAction::SetTrue)
        .help(EXPLAIN);
    table_of(alloc, command)?.arg(explain)
}

// A command with the words of its own, as clap knows it. The error is want of memory.
fn table_of<'a>(alloc: Global, command: CommandName) -> Result<Command<'a>, AllocError> {
    match command {
        CommandName::Replay => command_of(alloc, &ReplayWords::command()),
        CommandName::Audit => command_of(alloc, &AuditWords::command()),
        CommandName::Init => command_of(alloc, &InitWords::command()),
        CommandName::Import => command_of(alloc, &ImportWords::command()),
        CommandName::Board => command_of(alloc, &BoardWords::command()),
        CommandName::Awards => command_of(alloc, &AwardsWords::command()),
        CommandName::Export => command_of(alloc, &ExportWords::command()),
        CommandName::Feed => command_of(alloc, &FeedWords::command()),
        CommandName::Serve => command_of(alloc, &ServeWords::command()),
        CommandName::Upgrade => command_of(alloc, &UpgradeWords::command()),
    }
}
