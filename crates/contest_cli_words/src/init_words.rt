//! The words of `init`.
ghost use Rattle.std.specs.Prelude.{◌≡◌, true};
ghost use Rattle.contest_cli_words.specs.CommandTable.{app_in, wants_words};
ghost use Rattle.contest_cli_words.specs.InitWords.{init_app, init_wanted};

use crate::command_table::{CommandTable, WordKind, WordRow};
use crate::{CommandError, CommandWords, word_in};
use clap::ArgMatches;
use std::alloc::Global;

/// What the words of `init` name.
#[derive(Clone, Copy)]
pub struct InitWords<'a> {
    /// The file that keeps the contest.
    pub file: &'a str,
    /// The contest, as JSON.
    pub contest: &'a str,
}

static ROWS: [WordRow; 2] = [
    WordRow {
        name: "FILE",
        kind: WordKind::Word,
        help: "Keeps the contest, as an SQLite file; it is made where there is none",
    },
    WordRow {
        name: "CONTEST",
        kind: WordKind::Word,
        help: "Holds the contest object, as JSON",
    },
];

impl<'a> CommandWords<'a> for InitWords<'a> {
    ghost use Rattle.contest_cli_words.specs.InitWords.{NamesInit, init_app, init_wanted};

    ghost app = { init_app };

    ghost wanted = { init_wanted };

    ghost names = { NamesInit };

    #[tactic(auto, using(crate::proofs::CommandLemmas::init_wants), unfolding(crate::specs::InitWords::init_app))]
    fn command() -> CommandTable<'a>
        ensures table { app_in result ≡ init_app }
        ensures wants { wants_words init_wanted init_app ≡ true }
    {
        CommandTable {
            name: "init",
            called: "desk init",
            about: "Sets up a contest in a file, from its contest object as JSON",
            rows: &ROWS,
        }
    }

    fn named(_: Global, values: &ArgMatches<'a>) -> Result<InitWords<'a>, CommandError> {
        Ok(InitWords {
            file: word_in(values, "FILE"),
            contest: word_in(values, "CONTEST"),
        })
    }
}
