//! The words of `serve`.
ghost use Rattle.std.specs.Prelude.{◌≡◌, ◌<◌, ◌≤◌, IfSome, true};
ghost use Rattle.std.specs.Option.{option_map};
ghost use Rattle.contest_cli_words.specs.CommandErrors.{IsWordsOrMemory, SaysOrMemory};
ghost use Rattle.contest_cli_words.specs.CommandTable.{app_in, only_file, wants_words};
ghost use Rattle.contest_cli_words.specs.ServeWords.{no_number, number_to, port_of, requests_of};
ghost use Rattle.contest_cli_words.specs.ServeWords.{serve_app};

use crate::command_table::{CommandTable, WordKind, WordRow};
use crate::{CommandError, CommandWords, value_in, word_in};
use clap::ArgMatches;
use contest_types::decimal_number;
use std::alloc::{AllocError, Global};

/// What the words of `serve` name.
#[derive(Clone, Copy)]
pub struct ServeWords<'a> {
    /// The file that keeps the contest.
    pub file: &'a str,
    /// How many requests are served: 2^64 - 1 for `all`, which no machine comes to.
    pub requests: u64,
    /// The port that clients connect to; 0 leaves it to the system.
    pub port: u16,
}

static ROWS: [WordRow; 3] = [
    WordRow {
        name: "FILE",
        kind: WordKind::Word,
        help: "Keeps the contest, as 'desk init' made it",
    },
    WordRow {
        name: "requests",
        kind: WordKind::Option("N"),
        help: "Ends once so many connections were served, or never with 'all'",
    },
    WordRow {
        name: "port",
        kind: WordKind::Option("P"),
        help: "Listens on this port [default: one that the system chooses]",
    },
];

impl<'a> CommandWords<'a> for ServeWords<'a> {
    ghost use Rattle.contest_cli_words.specs.CommandTable.{only_file};
    ghost use Rattle.contest_cli_words.specs.ServeWords.{NamesServe, serve_app};

    ghost app = { serve_app };

    ghost wanted = { only_file };

    ghost names = { NamesServe };

    #[tactic(auto, using(crate::proofs::CommandLemmas::serve_wants), unfolding(crate::specs::ServeWords::serve_app))]
    fn command() -> CommandTable<'a>
        ensures table { app_in result ≡ serve_app }
        ensures wants { wants_words only_file serve_app ≡ true }
    {
        CommandTable {
            name: "serve",
            called: "desk serve",
            about: "Serves a contest over HTTP on 127.0.0.1, one connection after the other",
            rows: &ROWS,
        }
    }

    fn named(alloc: Global, values: &ArgMatches<'a>) -> Result<ServeWords<'a>, CommandError> {
        let file = word_in(values, "FILE");
        let Some(requests) = requests_in(value_in(values, "requests")) else {
            return Err(no_number(alloc, "--requests <N>", "4294967295, or 'all'"));
        };
        let Some(port) = port_in(value_in(values, "port")) else {
            return Err(no_number(alloc, "--port <P>", "65535"));
        };
        Ok(ServeWords {
            file,
            requests,
            port,
        })
    }
}

// How many requests a text asks for.
fn requests_in(text: Option<&str>) -> Option<u64>
    ensures { result ≡ requests_of (option_map (λ s. s.now) text.entry) }
{
    let text = text?;
    if text == "all" {
        return Some(u64::MAX);
    }
    number_to(text, 4_294_967_295)
}

// Which port a text asks for; the system's choice without one.
fn port_in(text: Option<&str>) -> Option<u16>
    ensures { result ≡ port_of (option_map (λ s. s.now) text.entry) }
{
    let Some(text) = text else {
        return Some(0);
    };
    match number_to(text, 65_535) {
        Some(number) => Some(number as u16),
        None => None,
    }
}

fn number_to(text: &str, most: u64) -> Option<u64>
    requires { most < 1_000_000_000_000 }
    ensures value { result ≡ number_to most text.now }
    ensures within { IfSome result (λ n. n ≤ most) }
{
    match decimal_number(text.as_bytes(), most) {
        Some(number) => Some(number),
        None => None,
    }
}

// What is said of an option that isn't a number up to a limit, or isn't there.
fn no_number(alloc: Global, option: &str, most: &str) -> CommandError
    ensures words { IsWordsOrMemory result }
    ensures said { SaysOrMemory (no_number option.now most.now) result }
{
    match format!(in alloc; "error: '{option}' wants a decimal number up to {most}\n") {
        Ok(message) => CommandError::Usage(message),
        Err(AllocError) => CommandError::from(AllocError),
    }
}
